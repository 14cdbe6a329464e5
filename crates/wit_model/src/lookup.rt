//! What stands under a number, and what a type refers to.

ghost use Rattle.std.specs.{Prelude.◌≡◌, Prelude.option_map, Option.option_copied};
ghost use Rattle.wit_model.specs.Lookup.{interface_at as interface_at_lem, package_at as package_at_lem, type_at as type_at_lem, world_at as world_at_lem};
ghost use Rattle.wit_model.specs.{Paths.full_name as full_name_lem, Rules.is_own_kind as is_own_kind_lem, Rules.is_own_of as is_own_of_lem, Rules.type_is};
ghost use Rattle.wit_model.specs.Types.{number_of as number_of_lem};
ghost use Rattle.wit_model.specs.Uses.{alias_target as alias_target_lem, interface_used_by as interface_used_by_lem, owner_interface as owner_interface_lem};

use crate::{
    Handle, Interface, InterfaceId, Package, PackageId, PackageName, Resolve, Type, TypeDef,
    TypeDefKind, TypeId, TypeOwner, World, WorldId,
};

/// The package of a number.
pub fn package_at(resolve: &Resolve, id: PackageId) -> Option<&Package>
    ensures { option_copied result ≡ package_at_lem resolve.now id.0 }
{
    resolve.packages.get(id.0 as usize)
}

/// The interface of a number.
pub fn interface_at(resolve: &Resolve, id: InterfaceId) -> Option<&Interface>
    ensures { option_copied result ≡ interface_at_lem resolve.now id.0 }
{
    resolve.interfaces.get(id.0 as usize)
}

/// The world of a number.
pub fn world_at(resolve: &Resolve, id: WorldId) -> Option<&World>
    ensures { option_copied result ≡ world_at_lem resolve.now id.0 }
{
    resolve.worlds.get(id.0 as usize)
}

/// The type of a number.
pub fn type_at(resolve: &Resolve, id: TypeId) -> Option<&TypeDef>
    ensures { option_copied result ≡ type_at_lem resolve.now id.0 }
{
    resolve.types.get(id.0 as usize)
}

/// The name of an interface's package and its own: none where the interface is inline or out of range.
pub fn full_name(resolve: &Resolve, number: usize) -> Option<(&PackageName, &String)>
    ensures { option_map (λ e. (e.0.now, e.1.now)) result ≡ full_name_lem resolve.now number }
{
    let interface = resolve.interfaces.get(number)?;
    let name = interface.name.as_ref()?;
    let home = interface.package?;
    let owner = resolve.packages.get(home.0 as usize)?;
    Some((&owner.name, name))
}

/// The number that a type refers to, if it isn't a primitive.
pub fn number_of(ty: Type) -> Option<usize>
    ensures { result ≡ number_of_lem ty }
{
    match ty {
        Type::Id(id) => Some(id.0 as usize),
        _ => None,
    }
}

/// The type that an alias names.
pub fn alias_target(kind: &TypeDefKind) -> Option<usize>
    ensures { result ≡ alias_target_lem kind.now }
{
    match kind {
        TypeDefKind::Type_(ty) => number_of(*ty),
        _ => None,
    }
}

/// The interface of an owner that is one.
pub fn owner_interface(owner: TypeOwner) -> Option<InterfaceId>
    ensures { option_map (λ id. id.0) result ≡ owner_interface_lem owner }
{
    match owner {
        TypeOwner::Interface(id) => Some(id),
        _ => None,
    }
}

/// The interface that the target of an alias belongs to.
pub fn interface_used_by(resolve: &Resolve, number: usize) -> Option<InterfaceId>
    ensures { option_map (λ id. id.0) result ≡ interface_used_by_lem resolve.now number }
{
    let def = resolve.types.get(number)?;
    let number = alias_target(&def.kind)?;
    let target = resolve.types.get(number)?;
    owner_interface(target.owner)
}

fn is_own_kind(kind: &TypeDefKind, number: usize) -> bool
    ensures { result ≡ is_own_kind_lem number kind.now }
{
    match kind {
        TypeDefKind::Handle(handle) =>
            matches!(*handle, Handle::Own(id) if id.0 as usize == number),
        _ => false,
    }
}

/// Whether a type is an unnamed own of the resource.
pub fn is_own_of(resolve: &Resolve, ty: Type, number: usize) -> bool
    ensures { result ≡ type_is resolve.now (is_own_of_lem number) ty }
{
    match number_of(ty) {
        Some(at) => match resolve.types.get(at) {
            Some(def) => def.name.is_none() && is_own_kind(&def.kind, number),
            None => false,
        },
        None => false,
    }
}
