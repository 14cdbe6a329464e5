//! Types of interfaces, encoded behind an import of their interface.

ghost use Rattle.std.specs.Prelude.{◌≡◌, true, is_some, IfErr, IfOk, OnOk};
ghost use Rattle.std.specs.List.{Contains};
ghost use Rattle.comp_bytes.specs.Refusal.{IsMemoryOrSize};
ghost use Rattle.wit_model.specs.Types.{type_tree};
ghost use Rattle.wit_component.specs.{InterfaceEncoders.interface_encoder_view, InterfaceEncoders.standing_in, Lookup.interface_path, OwnerScope.IsTypeOf};
ghost use Rattle.wit_component.specs.{Slots.StandsFor, Valid.IsValid};
ghost use Rattle.callers.specs.Encoded.{IsEncoderOf};
ghost use Rattle.wit_model.specs.declared.model.«Type».TheVariants as types;
ghost use Rattle.wit_model.specs.declared.model.TypeOwner.TheVariants as owner;

use std::alloc::Global;
use wit_component::laws::{
    definitions_leave_interfaces, interface_scope_is_of_owner, names_encode,
};
use wit_component::{
    ComponentValType, Error, InterfaceEncoder, InterfaceId, Resolve, Type, TypeId, encode_valtype,
};

/// An encoder of the interfaces of valid packages.
pub fn begun(alloc: Global, resolve: &Resolve) -> InterfaceEncoder<'_>
    requires valid { IsValid resolve.now }
    ensures { IsEncoderOf resolve.now result }
{
    InterfaceEncoder::new(alloc, resolve)
}

/// Imports the types of a named interface behind those of all interfaces that it uses.
pub fn imported(
    encoder: &mut InterfaceEncoder<'_>,
    resolve: &Resolve,
    interface: InterfaceId,
) -> Result<(), Error>
    requires encoder { IsEncoderOf resolve.now encoder.old }
    requires named { is_some (interface_path resolve.now interface.0) ≡ true }
    ensures encoder { IsEncoderOf resolve.now encoder.new }
    ensures stands { OnOk result (Contains (standing_in encoder.new) interface.0) }
    ensures refuses { IfErr result IsMemoryOrSize }
{
    encoder.import_used(interface)?;
    encoder.import_interface(interface)
}

/// A named type of an interface that has been imported: what is answered stands for the type.
pub fn type_of_import<'a>(
    alloc: Global,
    encoder: &mut InterfaceEncoder<'a>,
    resolve: &'a Resolve,
    interface: InterfaceId,
    id: TypeId,
) -> Result<ComponentValType, Error>
    requires encoder { IsEncoderOf resolve.now encoder.old }
    requires named { is_some (interface_path resolve.now interface.0) ≡ true }
    requires stands { Contains (standing_in encoder.old) interface.0 }
    requires owned { IsTypeOf resolve.now (owner.Interface interface) id }
    ensures encoder { IsEncoderOf resolve.now encoder.new }
    ensures ok { IfOk result (λ value. StandsFor (interface_encoder_view encoder.new).stands value (type_tree resolve.now (types.Id id))) }
    ensures refuses { IfErr result IsMemoryOrSize }
{
    interface_scope_is_of_owner();
    names_encode();
    definitions_leave_interfaces();
    encode_valtype(alloc, encoder, resolve, &Type::Id(id))
}
