//! What the bound world gains.

ghost use Rattle.std.specs.Prelude.{◌≡◌, ◌<◌, ◌≤◌, ◌+◌, ℕ, Err, IfErr, IfOk, OnOk, nat_lt, true, length, Some};
ghost use Rattle.std.specs.{Option.option_map_or, List.AllZip};
ghost use Rattle.wit_model.specs.{Lookup.interface_at, Lookup.type_at, Lookup.world_at, Refusals.IsMemory};
ghost use Rattle.wit_model.specs.declared.error.Error.TheVariants.{Size};
ghost use Rattle.wit_model.specs.declared.model.{Interface.Interface as InterfaceValue, World.World as WorldValue, TypeDef.TypeDef as TypeDefValue};
ghost use Rattle.bind_copy.specs.Copies.{are_names_below, AreEntriesBelow, AreFunctionsBelow, IsInterfaceUnder};
ghost use Rattle.bind_carry.specs.{Whole.kept, Fates.FallBelow, First.beside_first, First.is_named_at, First.second_from, First.second_in, First.IsHomeIn, Bound.IsBoundReady, Bound.IsSameButItems, Shown.any_new, Shown.are_keys_below, Shown.type_in, Shown.AreNewShownBelow};
ghost use Rattle.bind_carry.specs.BoundGains.{are_types_below, gained_inline, gained_marks as gained_marks_lem, gains_any, type_under_key, unified, unify_one as unify_one_lem, AreInlineCopied, AreKeysUnder, AreWorldKeysBelow};
ghost use Rattle.bind_carry.specs.Numbers.{copied_count, numbers_of, IsMemoryOrSize};
ghost use Rattle.bind_carry.specs.OfBound.{AreExportsBound, AreImportsBound, AreTooManyTypes, AreTypesBound, IsAllBound, IsTooMuchBound, OfBound, StaysFew};

use bind_add::Added;
use bind_carry::bound::{Bound, First};
use bind_carry::fate::Fate;
use bind_carry::fates::{copy_types, settle};
use bind_carry::needs::{mark_interfaces_of, mark_new_items, prune};
use bind_carry::numbers::numbered;
use bind_carry::plan::Carried;
use bind_carry::which::{mark_new_inline, unmarked};
use bind_copy::{Numbers, copy_interface, copy_items, copy_key, is_new};
use indexmap::IndexSet;
use std::alloc::{AllocError, Global};
use wit_model::{
    Error, InterfaceId, Map, PackageId, Resolve, TypeDef, TypeId, TypeOwner, World, WorldId,
    WorldItem, WorldKey,
};

fn own_world(bound: Bound<'_>) -> &World
    requires { bound.world.0 < length bound.own.now.worlds.items }
    ensures { world_at bound.entry.own.now bound.entry.world.0 ≡ Some result.now }
{
    &bound.own.worlds[bound.world.0 as usize]
}

fn other_world(bound: Bound<'_>) -> &World
    requires { bound.other_world.0 < length bound.other.now.worlds.items }
    ensures { world_at bound.entry.other.now bound.entry.other_world.0 ≡ Some result.now }
{
    &bound.other.worlds[bound.other_world.0 as usize]
}

// ---- inline interfaces

// Which inline interfaces are copied with the items that the bound world gains.
fn copied_inline(alloc: Global, bound: Bound<'_>, interfaces: &[u32]) -> Result<Vec<bool>, Error>
    requires own_range { bound.world.0 < length bound.own.now.worlds.items }
    requires other_range { bound.other_world.0 < length bound.other.now.worlds.items }
    requires imports { (v : WorldValue) → world_at bound.other.now bound.other_world.0 ≡ Some v
        → AreNewShownBelow (length interfaces.now) (length bound.other.now.interfaces.items) v.imports.entries }
    requires exports { (v : WorldValue) → world_at bound.other.now bound.other_world.0 ≡ Some v
        → AreNewShownBelow (length interfaces.now) (length bound.other.now.interfaces.items) v.exports.entries }
    ensures flags { IfOk result (λ f. OfBound bound.entry (λ w v. f.items ≡ gained_inline bound.entry.other.now interfaces.now w v)) }
    ensures count { IfOk result (λ f. length f.items ≡ length bound.entry.other.now.interfaces.items) }
    ensures refuses { IfErr result IsMemory }
{
    let mut copied = unmarked(alloc, bound.other.interfaces.len())?;
    let own = own_world(bound);
    let other = other_world(bound);
    mark_new_inline(
        bound.other,
        interfaces,
        &own.imports,
        &other.imports,
        &mut copied,
    );
    mark_new_inline(
        bound.other,
        interfaces,
        &own.exports,
        &other.exports,
        &mut copied,
    );
    Ok(copied)
}

// Inline interfaces that are copied into a package, in their order.
fn inline_copies(
    alloc: Global,
    other: &Resolve,
    home: Option<PackageId>,
    copied: &[bool],
    types: &[u32],
) -> Result<Vec<wit_model::Interface>, Error>
    requires flags { length copied.now ≡ length other.now.interfaces.items }
    requires names { (n : ℕ) (i : InterfaceValue) → interface_at other.now n ≡ Some i → are_names_below (length types.now) i.types.entries ≡ true }
    requires functions { (n : ℕ) (i : InterfaceValue) → interface_at other.now n ≡ Some i → AreFunctionsBelow (length types.now) i.functions.entries }
    ensures copies { IfOk result (λ v. AllZip (IsInterfaceUnder types.now home) (kept copied.now other.now.interfaces.items) v.items) }
    ensures refuses { IfErr result IsMemory }
{
    let mut interfaces = Vec::new(alloc);
    for (number, interface) in other.interfaces.iter().enumerate() {
        if copied[number] {
            let copy = copy_interface(alloc, types, interface, home)?;
            interfaces.push(copy)?;
        }
    }
    Ok(interfaces)
}

// Copies inline interfaces into the package of the own bound world.
fn copy_inline(
    alloc: Global,
    bound: Bound<'_>,
    copied: &[bool],
    types: &[u32],
    added: &mut Vec<wit_model::Interface>,
) -> Result<(), Error>
    requires own_range { bound.world.0 < length bound.own.now.worlds.items }
    requires flags { length copied.now ≡ length bound.other.now.interfaces.items }
    requires names { (n : ℕ) (i : InterfaceValue) → interface_at bound.other.now n ≡ Some i → are_names_below (length types.now) i.types.entries ≡ true }
    requires functions { (n : ℕ) (i : InterfaceValue) → interface_at bound.other.now n ≡ Some i → AreFunctionsBelow (length types.now) i.functions.entries }
    ensures copied { OnOk result ((w : WorldValue) → world_at bound.entry.own.now bound.entry.world.0 ≡ Some w
        → AreInlineCopied types.now w.«package» copied.now bound.entry.other.now.interfaces.items added.old.items added.new.items) }
    ensures refuses { IfErr result IsMemory }
{
    let world = own_world(bound);
    let mut copies = inline_copies(alloc, bound.other, world.package, copied, types)?;
    added.append(&mut copies)?;
    Ok(())
}

// ---- types

// What was carried stands under its number, and what wasn't is left.
fn as_carried(first: Fate, number: u32) -> Fate
    ensures { result ≡ beside_first first number }
{
    if first.carries() {
        Fate::Stands(number)
    } else {
        Fate::Left
    }
}

// Whether an interface has a name.
fn is_named(resolve: &Resolve, number: usize) -> bool
    ensures { result ≡ is_named_at resolve.now number }
{
    match resolve.interfaces.get(number) {
        Some(interface) => interface.name.is_some(),
        None => false,
    }
}

// What becomes of a type, own types of the bound world aside; `before` is what it is by path.
fn fate(bound: Bound<'_>, copied: &[bool], interfaces: &[u32], def: &TypeDef, before: Fate) -> Fate
    requires same { length interfaces.now ≡ length copied.now }
    requires owner { IsHomeIn (length copied.now) def.now.owner }
    ensures { result ≡ second_in bound.entry.other.now bound.entry.world.0 bound.entry.other_world.0 copied.now interfaces.now def.now.owner before }
{
    match def.owner {
        TypeOwner::Interface(id) => {
            let number = id.0 as usize;
            if copied[number] {
                Fate::Copied(TypeOwner::Interface(InterfaceId(interfaces[number])))
            } else if is_named(bound.other, number) {
                before
            } else {
                Fate::Left
            }
        }
        TypeOwner::World(id) => {
            if id == bound.other_world {
                Fate::Copied(TypeOwner::World(bound.world))
            } else {
                Fate::Left
            }
        }
        TypeOwner::None => Fate::Left,
    }
}

fn first_fates(
    alloc: Global,
    bound: Bound<'_>,
    copied: &[bool],
    interfaces: &[u32],
    first: First<'_>,
) -> Result<Vec<Fate>, AllocError>
    requires same { length interfaces.now ≡ length copied.now }
    requires fates { length first.fates.now ≡ length bound.other.now.types.items }
    requires types { length first.types.now ≡ length bound.other.now.types.items }
    requires owners { (n : ℕ) (def : TypeDefValue) → type_at bound.other.now n ≡ Some def → IsHomeIn (length copied.now) def.owner }
    ensures fates { IfOk result (λ v. v.items ≡ second_from bound.entry.other.now bound.entry.world.0 bound.entry.other_world.0 copied.now interfaces.now
        bound.entry.other.now.types.items first.entry.fates.now first.entry.types.now) }
{
    let mut fates = Vec::new(alloc);
    for (number, def) in bound.other.types.iter().enumerate() {
        let before = as_carried(first.fates[number], first.types[number]);
        fates.push(fate(bound, copied, interfaces, def, before))?;
    }
    Ok(fates)
}

// The type that an item is.
fn type_of(item: &WorldItem) -> Option<TypeId>
    ensures { result ≡ type_in item.now }
{
    match item {
        WorldItem::Interface { .. } => None,
        WorldItem::Function(_) => None,
        WorldItem::Type_ { id } => Some(*id),
    }
}

// The type that stands under a key.
fn type_under(items: &Map<WorldKey, WorldItem>, key: &WorldKey) -> Option<TypeId>
    ensures { result ≡ type_under_key items.now.entries key.now }
{
    type_of(items.get(key)?)
}

// A type stands for the own one under its key, where there is one.
fn unify_one(fates: &mut [Fate], id: Option<TypeId>, own: Option<TypeId>)
    requires { option_map_or (λ i. nat_lt i.0 (length fates.old)) id true ≡ true }
    ensures fates { fates.new ≡ unify_one_lem fates.old id own }
    ensures count { length fates.new ≡ length fates.old }
{
    if let Some(id) = id {
        if let Some(own) = own {
            fates[id.0 as usize] = Fate::Stands(own.0);
        }
    }
}

// Types among items under keys that others have too are the types there.
fn unify(here: &Map<WorldKey, WorldItem>, items: &Map<WorldKey, WorldItem>, fates: &mut [Fate])
    requires { are_types_below (length fates.old) items.now.entries ≡ true }
    ensures fates { fates.new ≡ unified here.now.entries items.now.entries fates.old }
    ensures count { length fates.new ≡ length fates.old }
{
    for (key, item) in items {
        unify_one(fates, type_of(item), type_under(here, key));
    }
}

// Types of the other world under keys that the own one has too are the own types.
fn unify_types(bound: Bound<'_>, fates: &mut [Fate])
    requires own_range { bound.world.0 < length bound.own.now.worlds.items }
    requires other_range { bound.other_world.0 < length bound.other.now.worlds.items }
    requires types { (v : WorldValue) → world_at bound.other.now bound.other_world.0 ≡ Some v → are_types_below (length fates.old) v.imports.entries ≡ true }
    ensures fates { OfBound bound.entry (λ w v. fates.new ≡ unified w.imports.entries v.imports.entries fates.old) }
    ensures count { length fates.new ≡ length fates.old }
{
    let own = own_world(bound);
    let other = other_world(bound);
    unify(&own.imports, &other.imports, fates);
}

// Whether some key has no item here.
fn has_new(
    interfaces: &[u32],
    here: &Map<WorldKey, WorldItem>,
    items: &Map<WorldKey, WorldItem>,
) -> bool
    requires { are_keys_below (length interfaces.now) items.now.entries ≡ true }
    ensures { result ≡ any_new interfaces.now here.now.entries items.now.entries }
{
    for (key, _) in items {
        if is_new(interfaces, here, key) {
            return true;
        }
    }
    false
}

// Whether the bound world gains any item.
fn gains(bound: Bound<'_>, interfaces: &[u32]) -> bool
    requires own_range { bound.world.0 < length bound.own.now.worlds.items }
    requires other_range { bound.other_world.0 < length bound.other.now.worlds.items }
    requires keys { (v : WorldValue) → world_at bound.other.now bound.other_world.0 ≡ Some v → AreWorldKeysBelow (length interfaces.now) v }
    ensures { (w v : WorldValue) → world_at bound.entry.own.now bound.entry.world.0 ≡ Some w → world_at bound.entry.other.now bound.entry.other_world.0 ≡ Some v
        → result ≡ gains_any interfaces.now w v }
{
    let own = own_world(bound);
    let other = other_world(bound);
    has_new(interfaces, &own.imports, &other.imports)
        || has_new(interfaces, &own.exports, &other.exports)
}

// The types that functions name among the items that are gained, and of their inline interfaces.
fn gained_marks(
    alloc: Global,
    bound: Bound<'_>,
    copied: &[bool],
    interfaces: &[u32],
) -> Result<Vec<bool>, AllocError>
    requires own_range { bound.world.0 < length bound.own.now.worlds.items }
    requires other_range { bound.other_world.0 < length bound.other.now.worlds.items }
    requires flags { length copied.now ≡ length bound.other.now.interfaces.items }
    requires keys { (v : WorldValue) → world_at bound.other.now bound.other_world.0 ≡ Some v → AreWorldKeysBelow (length interfaces.now) v }
    ensures marks { IfOk result (λ f. OfBound bound.entry (λ w v. f.items ≡ gained_marks_lem bound.entry.other.now copied.now interfaces.now w v)) }
    ensures count { IfOk result (λ f. length f.items ≡ length bound.entry.other.now.types.items) }
{
    let mut marks = vec![in alloc; false; bound.other.types.len()]?;
    mark_interfaces_of(&bound.other.interfaces, copied, &mut marks);
    let own = own_world(bound);
    let other = other_world(bound);
    mark_new_items(interfaces, &own.imports, &other.imports, &mut marks);
    mark_new_items(interfaces, &own.exports, &other.exports, &mut marks);
    Ok(marks)
}

// Copies the types that the bound world gains, and answers the numbers that the other's types have in what it gains.
fn bind_types(
    alloc: Global,
    bound: Bound<'_>,
    copied: &[bool],
    interfaces: &[u32],
    first: First<'_>,
    added: &mut Vec<TypeDef>,
) -> Result<Vec<u32>, Error>
    requires own_range { bound.world.0 < length bound.own.now.worlds.items }
    requires other_range { bound.other_world.0 < length bound.other.now.worlds.items }
    requires keys { (v : WorldValue) → world_at bound.other.now bound.other_world.0 ≡ Some v → AreWorldKeysBelow (length interfaces.now) v }
    requires same { length interfaces.now ≡ length copied.now }
    requires flags { length copied.now ≡ length bound.other.now.interfaces.items }
    requires fates { length first.fates.now ≡ length bound.other.now.types.items }
    requires types { length first.types.now ≡ length bound.other.now.types.items }
    requires owners { (n : ℕ) (def : TypeDefValue) → type_at bound.other.now n ≡ Some def → IsHomeIn (length copied.now) def.owner }
    requires imports { (v : WorldValue) → world_at bound.other.now bound.other_world.0 ≡ Some v
        → are_types_below (length bound.other.now.types.items) v.imports.entries ≡ true }
    requires falls { FallBelow bound.other.now.types.items }
    ensures copied { IfOk result (λ numbers. AreTypesBound bound.entry first.entry copied.now interfaces.now numbers.items added.old.items added.new.items) }
    ensures count { IfOk result (λ numbers. length numbers.items ≡ length bound.entry.other.now.types.items) }
    ensures few { IfOk result (λ numbers. length bound.entry.own.now.types.items + length added.new.items ≤ 4294967295) }
    ensures refuses { IfErr result IsMemoryOrSize }
    ensures size { IfErr result (λ e. e ≡ Size → AreTooManyTypes bound.entry first.entry copied.now interfaces.now (length added.old.items)) }
{
    let mut fates = first_fates(alloc, bound, copied, interfaces, first)?;
    unify_types(bound, &mut fates);
    let settled = settle(alloc, &bound.other.types, &fates, gains(bound, interfaces))?;
    let marks = gained_marks(alloc, bound, copied, interfaces)?;
    let needed = prune(alloc, &bound.other.types, &settled, marks)?;
    copy_types(
        alloc,
        bound.own.types.len(),
        &bound.other.types,
        &needed,
        added,
    )
}

// ---- items

// The keys of items under their new numbers.
fn keys_under(
    alloc: Global,
    interfaces: &[u32],
    items: &Map<WorldKey, WorldItem>,
) -> Result<IndexSet<WorldKey>, Error>
    requires { are_keys_below (length interfaces.now) items.now.entries ≡ true }
    ensures keys { IfOk result (λ keys. AreKeysUnder interfaces.now items.now.entries keys.keys) }
    ensures refuses { IfErr result IsMemory }
{
    let mut keys = IndexSet::new(alloc);
    for (key, _) in items {
        keys.insert(copy_key(alloc, interfaces, key)?)?;
    }
    Ok(keys)
}

/// The keys of the other world's exports under their new numbers.
pub(crate) fn export_keys(
    alloc: Global,
    bound: Bound<'_>,
    interfaces: &[u32],
) -> Result<IndexSet<WorldKey>, Error>
    requires other_range { bound.other_world.0 < length bound.other.now.worlds.items }
    requires keys { (v : WorldValue) → world_at bound.other.now bound.other_world.0 ≡ Some v → AreWorldKeysBelow (length interfaces.now) v }
    ensures keys { IfOk result (λ keys. (v : WorldValue) → world_at bound.entry.other.now bound.entry.other_world.0 ≡ Some v
        → AreKeysUnder interfaces.now v.exports.entries keys.keys) }
    ensures refuses { IfErr result IsMemory }
{
    let other = other_world(bound);
    keys_under(alloc, interfaces, &other.exports)
}

// The numbers of interfaces in what the bound world gains: inline ones that are copied stand behind those that were added before.
fn bound_numbers(
    alloc: Global,
    bound: Bound<'_>,
    added: usize,
    copied: &[bool],
    interfaces: &[u32],
) -> Result<Vec<u32>, Error>
    requires same { length copied.now ≡ length interfaces.now }
    requires few { length copied.now ≤ 4294967295 }
    ensures numbers { IfOk result (λ v. v.items ≡ numbers_of (length bound.entry.own.now.interfaces.items + added) copied.now interfaces.now) }
    ensures few { IfOk result (λ v. (length bound.entry.own.now.interfaces.items + added) + copied_count copied.now ≤ 4294967295) }
    ensures refuses { IfErr result IsMemoryOrSize }
    ensures size { result ≡ Err Size → 4294967295 < (length bound.entry.own.now.interfaces.items + added) + copied_count copied.now }
{
    let Some(behind) = bound.own.interfaces.len().checked_add(added) else {
        return Err(Error::Size);
    };
    numbered(alloc, behind, copied, interfaces)
}

// Copies the items whose keys the own bound world hasn't.
fn bind_entries(
    alloc: Global,
    bound: Bound<'_>,
    numbers: Numbers<'_>,
    added: &mut Added,
) -> Result<(), Error>
    requires own_range { bound.world.0 < length bound.own.now.worlds.items }
    requires other_range { bound.other_world.0 < length bound.other.now.worlds.items }
    requires imports { (v : WorldValue) → world_at bound.other.now bound.other_world.0 ≡ Some v
        → AreEntriesBelow (length numbers.interfaces.now) (length numbers.types.now) v.imports.entries }
    requires exports { (v : WorldValue) → world_at bound.other.now bound.other_world.0 ≡ Some v
        → AreEntriesBelow (length numbers.interfaces.now) (length numbers.types.now) v.exports.entries }
    ensures imports { OnOk result (AreImportsBound bound.entry numbers.entry.interfaces.now numbers.entry.types.now added.new.imports.entries) }
    ensures exports { OnOk result (AreExportsBound bound.entry numbers.entry.interfaces.now numbers.entry.types.now added.new.exports.entries) }
    ensures lists { IsSameButItems added.old added.new }
    ensures refuses { IfErr result IsMemory }
{
    let own = own_world(bound);
    let other = other_world(bound);
    added.imports = copy_items(alloc, numbers, &own.imports, &other.imports)?;
    added.exports = copy_items(alloc, numbers, &own.exports, &other.exports)?;
    Ok(())
}

/// Adds the items that the bound world gains, with their inline interfaces and the types of both.
pub(crate) fn bind_items(
    alloc: Global,
    bound: Bound<'_>,
    first: First<'_>,
    added: &mut Added,
) -> Result<(), Error>
    requires { IsBoundReady bound.own.now bound.other.now bound.world.0 bound.other_world.0 first.carried.now first.fates.now first.types.now }
    ensures gained { OnOk result (IsAllBound bound.entry first.entry added.old added.new) }
    ensures few { OnOk result (StaysFew bound.entry.own.now added.old added.new) }
    ensures refuses { IfErr result IsMemoryOrSize }
    ensures size { IfErr result (λ e. e ≡ Size → IsTooMuchBound bound.entry first.entry added.old) }
{
    let copied = copied_inline(alloc, bound, &first.carried.interfaces)?;
    let before = added.interfaces.len();
    let interfaces = bound_numbers(alloc, bound, before, &copied, &first.carried.interfaces)?;
    let types = bind_types(alloc, bound, &copied, &interfaces, first, &mut added.types)?;
    copy_inline(alloc, bound, &copied, &types, &mut added.interfaces)?;
    let numbers = Numbers {
        interfaces: &interfaces,
        types: &types,
    };
    bind_entries(alloc, bound, numbers, added)
}
