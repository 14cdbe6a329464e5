//! What is carried of another `Resolve`.

ghost use Rattle.std.specs.Prelude.{◌≡◌, ◌≤◌, ℕ, length, map, IfErr, IfOk, Some};
ghost use Rattle.wit_model.specs.declared.{model.TypeDef.TypeDef as TypeDefValue, model.World.World as WorldValue, error.Error.TheVariants.Size};
ghost use Rattle.wit_model.specs.{Lookup.type_at, Lookup.world_at, Text.optional_text, Text.text_of, Refusals.IsMemory};
ghost use Rattle.bind_carry.specs.{Shown.AreShownBelow, Numbers.IsMemoryOrSize, Over.IsCarriedReady, Over.IsPlacedOver, TooLong.AreTooManyByPath, Which.IsNumbered, Few.AreFewNumbered, First.fate_named, First.fate_of, First.first_fates, First.first_marks as first_marks_lem, Listed.type_named, Listed.IsOwnerBelow, Listed.IsWhole};

use bind_add::Added;
use bind_carry::fate::Fate;
use bind_carry::fates::{any, settle};
use bind_carry::needs::{mark_interfaces_of, mark_worlds, prune};
use bind_carry::numbers::numbered;
use bind_carry::owned::{interface_numbers, new_packages, package_numbers, world_numbers};
use bind_carry::packages::{gained_names, new_package_list};
use bind_carry::plan::Carried;
use bind_carry::which::{copied_interfaces, copied_worlds};
use bind_carry::whole::{copy_worlds, interface_places};
use bind_match::Matches;
use std::alloc::{AllocError, Global};
use wit_model::{Error, Map, Resolve, TypeDef, TypeId, TypeOwner};

/// Numbers what is carried: own numbers for what has an own name or path, and new ones in the other's order.
pub(crate) fn number_carried(
    alloc: Global,
    own: &Resolve,
    other: &Resolve,
    matches: &Matches,
) -> Result<Carried, Error>
    requires interfaces { length matches.now.interfaces.items ≡ length other.now.interfaces.items }
    requires worlds { length matches.now.worlds.items ≡ length other.now.worlds.items }
    requires few_packages { length matches.now.packages.items ≤ 4294967295 }
    requires few_interfaces { length other.now.interfaces.items ≤ 4294967295 }
    requires few_worlds { length other.now.worlds.items ≤ 4294967295 }
    requires imports { (n : ℕ) (w : WorldValue) → world_at other.now n ≡ Some w → AreShownBelow (length other.now.interfaces.items) w.imports.entries }
    requires exports { (n : ℕ) (w : WorldValue) → world_at other.now n ≡ Some w → AreShownBelow (length other.now.interfaces.items) w.exports.entries }
    ensures numbered { IfOk result (IsNumbered own.now other.now matches.now) }
    ensures few { IfOk result (AreFewNumbered own.now) }
    ensures refuses { IfErr result IsMemoryOrSize }
    ensures size { IfErr result (λ e. e ≡ Size → AreTooManyByPath own.now other.now matches.now) }
{
    let new_packages = new_packages(alloc, &matches.packages)?;
    let known = package_numbers(alloc, &matches.packages)?;
    let packages = numbered(alloc, own.packages.len(), &new_packages, &known)?;
    let copied_worlds = copied_worlds(alloc, other, matches)?;
    let known = world_numbers(alloc, &matches.worlds)?;
    let worlds = numbered(alloc, own.worlds.len(), &copied_worlds, &known)?;
    let copied_interfaces = copied_interfaces(alloc, other, matches, &copied_worlds)?;
    let known = interface_numbers(alloc, &matches.interfaces)?;
    let interfaces = numbered(alloc, own.interfaces.len(), &copied_interfaces, &known)?;
    Ok(Carried {
        packages,
        new_packages,
        interfaces,
        copied_interfaces,
        worlds,
        copied_worlds,
    })
}

// ---- types

// The own type of this name in an own interface.
fn own_type(own: &Resolve, matches: &Matches, interface: usize, name: &str) -> Option<TypeId>
    ensures { result ≡ type_named own.now matches.now.interfaces.items interface name.now }
{
    let id = (*matches.interfaces.get(interface)?)?;
    own.interfaces.get(id.0 as usize)?.types.get(name).copied()
}

fn fate_by_name(own: &Resolve, matches: &Matches, interface: usize, def: &TypeDef) -> Fate
    ensures { result ≡ fate_named own.now matches.now.interfaces.items interface (optional_text def.now.name) }
{
    let Some(name) = &def.name else {
        return Fate::Left;
    };
    match own_type(own, matches, interface, name) {
        Some(id) => Fate::Stands(id.0),
        None => Fate::Left,
    }
}

fn fate(own: &Resolve, matches: &Matches, carried: &Carried, def: &TypeDef) -> Fate
    requires whole { IsWhole carried.now }
    requires owner { IsOwnerBelow (length carried.now.copied_interfaces.items) (length carried.now.copied_worlds.items) def.now.owner }
    ensures { result ≡ fate_of own.now matches.now.interfaces.items carried.now def.now }
{
    match def.owner {
        TypeOwner::Interface(id) => {
            let number = id.0 as usize;
            if carried.copied_interfaces[number] {
                Fate::Copied(TypeOwner::Interface(wit_model::InterfaceId(
                    carried.interfaces[number],
                )))
            } else {
                fate_by_name(own, matches, number, def)
            }
        }
        TypeOwner::World(id) => {
            if carried.copied_worlds[id.0 as usize] {
                Fate::Copied(TypeOwner::World(wit_model::WorldId(carried.worlds[id.0 as usize])))
            } else {
                Fate::Left
            }
        }
        TypeOwner::None => Fate::Left,
    }
}

fn fates(
    alloc: Global,
    own: &Resolve,
    other: &Resolve,
    matches: &Matches,
    carried: &Carried,
) -> Result<Vec<Fate>, AllocError>
    requires whole { IsWhole carried.now }
    requires owners { (n : ℕ) (def : TypeDefValue) → type_at other.now n ≡ Some def
        → IsOwnerBelow (length carried.now.copied_interfaces.items) (length carried.now.copied_worlds.items) def.owner }
    ensures { IfOk result (λ v. v.items ≡ map (fate_of own.now matches.now.interfaces.items carried.now) other.now.types.items) }
{
    let mut fates = Vec::new(alloc);
    for def in &other.types {
        fates.push(fate(own, matches, carried, def))?;
    }
    Ok(fates)
}

// The types that functions name of interfaces and worlds that are copied.
fn first_marks(alloc: Global, other: &Resolve, carried: &Carried) -> Result<Vec<bool>, AllocError>
    requires interfaces { length carried.now.copied_interfaces.items ≡ length other.now.interfaces.items }
    requires worlds { length carried.now.copied_worlds.items ≡ length other.now.worlds.items }
    ensures marks { IfOk result (λ v. v.items ≡ first_marks_lem other.now carried.now) }
    ensures count { IfOk result (λ v. length v.items ≡ length other.now.types.items) }
{
    let mut marks = vec![in alloc; false; other.types.len()]?;
    mark_interfaces_of(&other.interfaces, &carried.copied_interfaces, &mut marks);
    mark_worlds(&other.worlds, &carried.copied_worlds, &mut marks);
    Ok(marks)
}

/// What becomes of each of the other's types by what is carried.
pub(crate) fn settled_types(
    alloc: Global,
    own: &Resolve,
    other: &Resolve,
    matches: &Matches,
    carried: &Carried,
) -> Result<Vec<Fate>, AllocError>
    requires whole { IsWhole carried.now }
    requires owners { (n : ℕ) (def : TypeDefValue) → type_at other.now n ≡ Some def
        → IsOwnerBelow (length carried.now.copied_interfaces.items) (length carried.now.copied_worlds.items) def.owner }
    requires interfaces { length carried.now.copied_interfaces.items ≡ length other.now.interfaces.items }
    requires worlds { length carried.now.copied_worlds.items ≡ length other.now.worlds.items }
    ensures fates { IfOk result (λ v. v.items ≡ first_fates own.now other.now matches.now.interfaces.items carried.now) }
    ensures count { IfOk result (λ v. length v.items ≡ length other.now.types.items) }
{
    let fates = fates(alloc, own, other, matches, carried)?;
    let adds = any(&carried.copied_interfaces) || any(&carried.copied_worlds);
    let settled = settle(alloc, &other.types, &fates, adds)?;
    let marks = first_marks(alloc, other, carried)?;
    prune(alloc, &other.types, &settled, marks)
}

/// All that is carried, with empty places for the interfaces and types, and nothing yet for the bound world.
pub(crate) fn added(
    alloc: Global,
    other: &Resolve,
    carried: &Carried,
    types: &[u32],
    type_places: Vec<TypeDef>,
) -> Result<Added, Error>
    requires whole { IsWhole carried.now }
    requires ready { IsCarriedReady other.now carried.now (length types.now) }
    ensures added { IfOk result (IsPlacedOver other.now carried.now types.now (length type_places.items)) }
    ensures refuses { IfErr result IsMemory }
{
    let packages = new_package_list(alloc, other, carried)?;
    let names = gained_names(alloc, other, carried)?;
    let interfaces = interface_places(alloc, &carried.copied_interfaces)?;
    let worlds = copy_worlds(alloc, other, carried, types)?;
    Ok(Added {
        packages,
        interfaces,
        worlds,
        types: type_places,
        names,
        imports: Map::new(alloc),
        exports: Map::new(alloc),
    })
}
