//! The encoder, and that it keeps the law.

ghost use Rattle.std.proofs.Common.{rules, refl};
ghost use Rattle.std.specs.Prelude.{◌≡◌, ◌+◌, ◌^◌, ◌++◌, ◌∷◌, [], nat_lt, true, false, IsOk, None, Some, Err, IfOk, OnErr, OnOk, IfErr};
ghost use Rattle.wit_model.specs.declared.error.Error.TheVariants.{Size};
ghost use Rattle.comp_bytes.specs.Refusal.{IsMemoryOrSize};
ghost use Rattle.encode_flat.specs.declared.forms.Form.TheVariants as form;
ghost use Rattle.encode_flat.specs.declared.marks.Mark.TheVariants as mark;
ghost use Rattle.encode_flat.specs.Marked.{slot_count};

use crate::forms::Form;
use crate::marks::Marks;
use comp_bytes::{ComponentDefinedType, ComponentExternName, ComponentFuncType};
use encode_types::{LendsMaps, TypeEncodingMaps, ValtypeEncoder};
use std::alloc::Global;
use wit_model::{Error, InterfaceId, Resolve, TypeId, TypeOwner};

/// An encoder over one table of slots. `M` is the type of its maps.
#[derive(Drop)]
pub struct FlatEncoderOf<'a, M> {
    resolve: &'a Resolve,
    owner: TypeOwner,
    /// The maps of the scope that types are defined in.
    pub maps: M,
    forms: Vec<Form<'a>>,
    marks: Marks,
}

/// An encoder over one table of slots: definitions, types of functions, resources, and types of other interfaces, each of which has one slot. The
/// instances of all interfaces stand from the start. An exported type keeps its slot, which then stands for its name, too.
pub type FlatEncoder<'a> = FlatEncoderOf<'a, TypeEncodingMaps<'a>>;

/// Adds a slot of this form, or nothing.
fn add_form<'a>(forms: &mut Vec<Form<'a>>, marks: &mut Marks, added: Form<'a>) -> Result<u32, Error>
    ensures ok { IfOk result (λ i. (i ≡ slot_count marks.old) × (marks.new ≡ mark.Form ∷ marks.old) × (forms.new.items ≡ forms.old.items ++ added.entry ∷ [])) }
    ensures err { OnErr result (marks.new ≡ marks.old) }
    ensures err_forms { OnErr result (forms.new.items ≡ forms.old.items) }
    ensures size { result ≡ Err Size → nat_lt (slot_count marks.new + 1) (2 ^ 32) ≡ false }
    ensures refuses { IfErr result IsMemoryOrSize }
{
    forms.reserve(1)?;
    let index = marks.add_form()?;
    forms.push(added).unwrap();
    Ok(index)
}

/// Adds a name of a slot, or nothing.
fn add_name<'a>(
    forms: &mut Vec<Form<'a>>,
    marks: &mut Marks,
    index: u32,
    name: ComponentExternName<'a>,
) -> Result<(), Error>
    ensures ok { OnOk result (marks.new ≡ mark.Name index ∷ marks.old) }
    ensures ok_forms { OnOk result (forms.new.items ≡ forms.old.items ++ form.Export index name.entry ∷ []) }
    ensures err { OnErr result (marks.new ≡ marks.old) }
    ensures err_forms { OnErr result (forms.new.items ≡ forms.old.items) }
    ensures size { result ≡ Err Size → ⊥ }
    ensures refuses { IfErr result IsMemoryOrSize }
{
    forms.reserve(1)?;
    marks.add_name(index)?;
    forms.push(Form::Export(index, name)).unwrap();
    Ok(())
}

impl<'a, M> LendsMaps<M> for FlatEncoderOf<'a, M> {
    ghost maps_of = { λ e. e.maps };

    ghost with_maps = { λ e m. record e { maps = m } };

    fn type_encoding_maps(&mut self) -> &mut M {
        &mut self.maps
    }

    ghost maps_of_with_maps = { λ e m. refl };

    ghost with_own_maps = { λ e. refl };
}

impl<'a> ValtypeEncoder<'a> for FlatEncoderOf<'a, TypeEncodingMaps<'a>> {
    ghost use Rattle.wit_model.specs.Lookup.{place_of};
    ghost use Rattle.wit_model.specs.Tree.{named};
    ghost use Rattle.wit_model.specs.Types.{number_tree};
    ghost use Rattle.comp_bytes.specs.RawOf.{raw_name};
    ghost use Rattle.encode_types.specs.Extents.{name_extent};
    ghost use Rattle.encode_types.specs.Known.{ReachesAround};
    ghost use Rattle.encode_types.specs.Room.{export_name, import_of};
    ghost use Rattle.encode_types.specs.Scope.{DeclaresSlot};
    ghost use Rattle.encode_types.specs.Slots.{tree};
    ghost use Rattle.encode_types.specs.View.{Exports, ExportsName, Grows, HoldsMore, ImportsOne, Refuses, Writes, WritesImport};
    ghost use Rattle.encode_flat.specs.Flat.{ImportsOnce, flat_view, flat-in_range, forms_of, has_import};

    ghost view = { λ e. flat_view e };

    fn defined_type(&mut self, def: ComponentDefinedType<'a>) -> Result<u32, Error> {
        add_form(&mut self.forms, &mut self.marks, Form::Definition(def))
    }

    fn define_function_type(&mut self, def: ComponentFuncType<'a>) -> Result<u32, Error> {
        add_form(&mut self.forms, &mut self.marks, Form::Function(def))
    }

    /// The name is one more name of the type's slot. It takes no slot, so the answer is `None`, and an encoder that is full takes it, too.
    fn export_type(
        &mut self,
        index: u32,
        name: ComponentExternName<'a>,
    ) -> Result<Option<u32>, Error>
        requires { DeclaresSlot (flat_view self.old).scope (flat_view self.old).stands (raw_name name) index }
        ensures ok { IfOk result (Exports (flat_view self.old) (flat_view self.new) index (named (flat_view self.old).scope.place (raw_name name.entry).text)) }
        ensures grows { Grows (flat_view self.old) (flat_view self.new) }
        ensures scope_stays { (flat_view self.new).scope ≡ (flat_view self.old).scope }
        ensures around_stays { (flat_view self.new).around ≡ (flat_view self.old).around }
        ensures imports_stay { (flat_view self.new).imports ≡ (flat_view self.old).imports }
        ensures maps_stay { (flat_view self.new).maps ≡ (flat_view self.old).maps }
        ensures counts { OnOk result (ExportsName (flat_view self.old) (flat_view self.new) (Some index) (raw_name name.entry)) }
        ensures err { OnErr result ((flat_view self.new).definitions ≡ (flat_view self.old).definitions) }
        ensures held { HoldsMore 1 (flat_view self.old) (flat_view self.new) }
        ensures written { OnOk result (Writes (name_extent (raw_name name.entry)) (flat_view self.old) (flat_view self.new)) }
        ensures size { result ≡ Err Size → Refuses (flat_view self.old) (flat_view self.new) (export_name (raw_name name.entry)) }
        ensures refuses { IfErr result IsMemoryOrSize }
        ensures none { IfOk result (λ slot. slot ≡ None) }
        ensures never_full { result ≡ Err Size → ⊥ }
    {
        add_name(&mut self.forms, &mut self.marks, index, name)?;
        Ok(None)
    }

    fn export_resource(&mut self, name: ComponentExternName<'a>) -> Result<u32, Error> {
        add_form(&mut self.forms, &mut self.marks, Form::Resource(name))
    }

    /// The slot of a type of another interface, which is added the first time that the type is asked for. Asked for again, the call succeeds, also
    /// where the encoder is full.
    fn import_type(&mut self, _interface: InterfaceId, id: TypeId) -> Result<u32, Error>
        ensures ok { IfOk result (λ i. (flat_view self.new).stands i (tree (number_tree (flat_view self.old).scope.packages id.0))) }
        ensures grows { Grows (flat_view self.old) (flat_view self.new) }
        ensures reaches { ReachesAround (flat_view self.old).scope.packages id (flat_view self.old).around (flat_view self.new).around }
        ensures imports { ImportsOne id (flat_view self.old).imports (flat_view self.new).imports }
        ensures scope_stays { (flat_view self.new).scope ≡ (flat_view self.old).scope }
        ensures maps_stay { (flat_view self.new).maps ≡ (flat_view self.old).maps }
        ensures counts { OnOk result ((flat_view self.new).definitions ≡ (flat_view self.old).definitions) }
        ensures err { OnErr result ((flat_view self.new).definitions ≡ (flat_view self.old).definitions) }
        ensures held { HoldsMore 1 (flat_view self.old) (flat_view self.new) }
        ensures written { OnOk result (WritesImport (flat_view self.old) (flat_view self.new) id.0) }
        ensures size { result ≡ Err Size → Refuses (flat_view self.old) (flat_view self.new) (import_of id.0) }
        ensures refuses { IfErr result IsMemoryOrSize }
        ensures once { IfOk result (λ i. ImportsOnce id.0 i self.old self.new) }
        ensures known { has_import self.old id.0 ≡ true → IsOk result }
    {
        self.marks.import(id.0)
    }

    fn interface(&self) -> Option<InterfaceId> {
        match self.owner {
            TypeOwner::Interface(id) => Some(id),
            _ => None,
        }
    }

    ghost in_range = { λ e i m h. flat-in_range e.resolve.now (place_of e.resolve.now e.owner) e.marks (forms_of e) i m h };

    ghost maps_in_view = { λ e. refl };

    ghost view_with_maps = { λ e m. record { scope_ = refl; around_ = refl; imports_ = refl; slot_count_ = refl; definitions_ = refl; held_ = refl; extent_ = refl; own_ = λ ns h. h; kept = λ i s h. h; back = λ i s h. h } };
}

impl<'a> FlatEncoderOf<'a, TypeEncodingMaps<'a>> {
    ghost use Rattle.encode_types.specs.Table.{table_scope};
    ghost use Rattle.encode_types.specs.View.{Agrees};
    ghost use Rattle.encode_flat.specs.Flat.{flat_view};

    /// An encoder without slots, for the types of this interface or world. Takes constant time and no memory.
    pub fn new(alloc: Global, resolve: &'a Resolve, owner: TypeOwner) -> FlatEncoder<'a>
        ensures scope { (flat_view result).scope ≡ table_scope resolve.entry.now owner }
        ensures empty { (flat_view result).slot_count ≡ 0 }
        ensures agree { Agrees resolve.entry.now (flat_view result) }
    {
        FlatEncoderOf {
            resolve,
            owner,
            maps: TypeEncodingMaps::new(alloc),
            forms: Vec::new(alloc),
            marks: Marks::new(alloc),
        }
    }

    /// The number of slots. Takes constant time and no memory.
    pub fn slots(&self) -> u32
        ensures { result ≡ (flat_view self.now).slot_count }
    {
        self.marks.count()
    }
}
