//! Compares two worlds.

ghost use Rattle.std.specs.Prelude.{◌≡◌, ◌++◌, ◌≤◌, ◌<◌, ◌⊎◌, [], true, false, is_ok, length, map, option_map, MatchResult, None, Some, IfOk, OnOk, IfErr};
ghost use Rattle.std.specs.Option.{option_copied};
ghost use Rattle.wit_model.specs.declared.error.Error.TheVariants.{Memory as MemoryError};
ghost use Rattle.wit_model.specs.{Meant.package_of_world, Rules.entries_in_range, Valid.IsValid};
ghost use Rattle.compat_meaning.specs.Compatible.{package_name, refusal_of, twice_without_version, Accepts, Compatible, HasItemsInRange, HasKeysOnce, IsMismatch, IsRefused, IsRepeated, OfWorlds};
ghost use Rattle.compat_meaning.specs.Opened.{bare_identity};
ghost use Rattle.compat_meaning.specs.{Outline.AreNames, Walk.heads_of, Walk.pairs_of_worlds, Walk.IsCounted, Table.AreAmong, Table.AreReached, Table.IsSettled};

use crate::laws::semver_check_counted;
use crate::sides::compare_sides;
use crate::steps::Steps;
use compat_meaning::follow::heads;
use compat_meaning::names::{Names, names_of};
use compat_meaning::pairs::Pairs;
use compat_meaning::repeats::twice;
use indexmap::IndexSet;
use std::alloc::Global;
use wit_model::{Error, Package, PackageName, Resolve, Type, World, WorldId};

/// Imports first, and then exports.
fn compare_contents(
    alloc: Global,
    names: &Names,
    resolve: &Resolve,
    heads: &[Type],
    prev: &World,
    new: &World,
    pairs: &mut Pairs,
    steps: &mut Steps,
) -> Result<(), Error>
    requires valid { IsValid resolve.now }
    requires names { AreNames resolve.now names.now }
    requires heads { heads.now ≡ heads_of resolve.now }
    requires prev { HasItemsInRange resolve.now prev.now }
    requires new { HasItemsInRange resolve.now new.now }
    requires settled { IsSettled resolve.now pairs.old.keys steps.old.count }
    ensures compatible { OnOk result (Compatible resolve.now prev.now new.now) }
    ensures refuses { IfErr result (IsMismatch resolve.now prev.now new.now) }
    ensures settled { OnOk result (IsSettled resolve.now pairs.new.keys steps.new.count) }
    ensures holds { OnOk result (AreAmong (pairs_of_worlds resolve.now prev.now new.now) pairs.new.keys) }
    ensures reached { AreReached resolve.now (pairs.old.keys ++ pairs_of_worlds resolve.now prev.now new.now) pairs.new.keys }
    ensures counted { steps.new.count ≤ length pairs.new.keys }
{
    let imports = compare_sides(
        alloc,
        names,
        resolve,
        heads,
        false,
        &prev.imports,
        &new.imports,
        pairs,
        steps,
    );
    if let Err(error) = imports {
        return Err(error);
    }
    compare_sides(
        alloc,
        names,
        resolve,
        heads,
        true,
        &new.exports,
        &prev.exports,
        pairs,
        steps,
    )
}

/// The same with a table of its own.
fn compare_anew(
    alloc: Global,
    names: &Names,
    resolve: &Resolve,
    heads: &[Type],
    prev: &World,
    new: &World,
    steps: &mut Steps,
) -> Result<(), Error>
    requires valid { IsValid resolve.now }
    requires names { AreNames resolve.now names.now }
    requires heads { heads.now ≡ heads_of resolve.now }
    requires prev { HasItemsInRange resolve.now prev.now }
    requires new { HasItemsInRange resolve.now new.now }
    requires fresh { steps.old.count ≡ 0 }
    ensures compatible { OnOk result (Compatible resolve.now prev.now new.now) }
    ensures refuses { IfErr result (IsMismatch resolve.now prev.now new.now) }
    ensures counted { IsCounted resolve.now prev.now new.now steps.new.count (is_ok result) }
{
    let mut pairs = IndexSet::new(alloc);
    let compared = compare_contents(alloc, names, resolve, heads, prev, new, &mut pairs, steps);
    let _len = pairs.len();
    compared
}

/// Whether a key is twice without version.
fn refuse_repeats(
    alloc: Global,
    names: &Names,
    resolve: &Resolve,
    prev: &World,
    new: &World,
) -> Result<(), Error>
    requires names { AreNames resolve.now names.now }
    requires prev { HasItemsInRange resolve.now prev.now }
    requires new { HasItemsInRange resolve.now new.now }
    ensures prev { OnOk result (HasKeysOnce resolve.now prev.now) }
    ensures new { OnOk result (HasKeysOnce resolve.now new.now) }
    ensures refuses { IfErr result (IsRepeated resolve.now prev.now new.now) }
{
    match twice(alloc, names, resolve, prev, new) {
        Ok(Some(key)) => match String::from_str(alloc, key) {
            Ok(name) => Err(Error::TwiceWithoutVersion(name)),
            Err(_) => Err(Error::Memory),
        },
        Ok(None) => Ok(()),
        Err(_) => Err(Error::Memory),
    }
}

/// The same of worlds of one package.
fn compare_named(
    alloc: Global,
    names: &Names,
    resolve: &Resolve,
    prev: &World,
    new: &World,
    steps: &mut Steps,
) -> Result<(), Error>
    requires valid { IsValid resolve.now }
    requires names { AreNames resolve.now names.now }
    requires prev { HasItemsInRange resolve.now prev.now }
    requires new { HasItemsInRange resolve.now new.now }
    requires packages { package_name resolve.now prev.now ≡ package_name resolve.now new.now }
    requires fresh { steps.old.count ≡ 0 }
    ensures accepts { MatchResult result (λ u. Accepts resolve.now prev.now new.now) (IsRefused resolve.now prev.now new.now) }
    ensures counted { IsCounted resolve.now prev.now new.now steps.new.count (is_ok result) }
{
    if let Err(error) = refuse_repeats(alloc, names, resolve, prev, new) {
        return Err(error);
    }
    match heads(alloc, resolve) {
        Ok(heads) => compare_anew(alloc, names, resolve, &heads, prev, new, steps),
        Err(_) => Err(Error::Memory),
    }
}

fn same_names(prev: &PackageName, new: &PackageName) -> bool
    ensures same { result ≡ true → bare_identity prev.now ≡ bare_identity new.now }
    ensures differ { result ≡ false → bare_identity prev.now ≡ bare_identity new.now → ⊥ }
{
    if prev.namespace.as_str() != new.namespace.as_str() {
        return false;
    }
    prev.name.as_str() == new.name.as_str()
}

fn package_of<'a>(resolve: &'a Resolve, world: &World) -> Option<&'a Package>
    ensures { option_copied result ≡ package_of_world resolve.entry.now world.now }
{
    let home = world.package?;
    resolve.packages.get(home.0 as usize)
}

/// Whether two worlds are of packages with the same namespace and name.
fn same_packages(resolve: &Resolve, prev: &World, new: &World) -> bool
    ensures same { result ≡ true → package_name resolve.now prev.now ≡ package_name resolve.now new.now }
    ensures differ { result ≡ false → package_name resolve.now prev.now ≡ package_name resolve.now new.now → ⊥ }
{
    match package_of(resolve, prev) {
        Some(a) => match package_of(resolve, new) {
            Some(b) => same_names(&a.name, &b.name),
            None => false,
        },
        None => match package_of(resolve, new) {
            Some(_) => false,
            None => true,
        },
    }
}

fn compare_worlds(
    alloc: Global,
    resolve: &Resolve,
    prev: &World,
    new: &World,
    steps: &mut Steps,
) -> Result<(), Error>
    requires valid { IsValid resolve.now }
    requires prev { HasItemsInRange resolve.now prev.now }
    requires new { HasItemsInRange resolve.now new.now }
    requires fresh { steps.old.count ≡ 0 }
    ensures accepts { MatchResult result (λ u. Accepts resolve.now prev.now new.now) (IsRefused resolve.now prev.now new.now) }
    ensures counted { IsCounted resolve.now prev.now new.now steps.new.count (is_ok result) }
{
    if !same_packages(resolve, prev, new) {
        return Err(Error::OtherPackage);
    }
    match names_of(alloc, resolve) {
        Ok(names) => compare_named(alloc, &names, resolve, prev, new, steps),
        Err(_) => Err(Error::Memory),
    }
}

/// Compares two worlds by their numbers.
pub(crate) fn compare(
    alloc: Global,
    resolve: &Resolve,
    prev: WorldId,
    new: WorldId,
    steps: &mut Steps,
) -> Result<(), Error>
    requires valid { IsValid resolve.now }
    requires prev { prev.0 < length resolve.now.worlds.items }
    requires new { new.0 < length resolve.now.worlds.items }
    requires fresh { steps.old.count ≡ 0 }
    ensures accepts { OfWorlds resolve.now prev new (λ p n. MatchResult result (λ u. Accepts resolve.now p n) (IsRefused resolve.now p n)) }
    ensures counted { OfWorlds resolve.now prev new (λ p n. IsCounted resolve.now p n steps.new.count (is_ok result)) }
{
    let prev = &resolve.worlds[prev.0 as usize];
    let new = &resolve.worlds[new.0 as usize];
    compare_worlds(alloc, resolve, prev, new, steps)
}

/// Whether the world `new` may take the place of `prev`: what `prev` imports `new` imports too, and what `new` exports `prev`
/// exports too, interfaces with all their types and functions. Keys and resources go by paths without version; types are
/// compared with every name opened, down to resources; external ids, documentation and stability play no part. The `Resolve` is
/// valid, and the worlds are in range. The `Resolve` is given up, whatever is answered.
///
/// Refuses with the first of these that holds. `OtherPackage`: the packages differ in namespace or name. `TwiceWithoutVersion`: two
/// keys of one list are equal without version, prev's imports and exports first. `Missing` or `Differs`, by `key` or `key/item`: the
/// first import of prev, and then the first export of new, that the other lacks or has otherwise. Besides, `Memory`.
///
/// Each pair of type numbers is compared once, and the look-ups are hashed. Interfaces and keys go by number: the path of an interface
/// is made once, and the text of a key is hashed with each item and not with each type and function in it. So the time goes with the size
/// of the `Resolve`, the texts of the keys and the pairs of types met.
pub fn semver_check(
    alloc: Global,
    resolve: Resolve,
    prev: WorldId,
    new: WorldId,
) -> Result<(), Error>
    requires valid { IsValid resolve }
    requires prev { prev.0 < length resolve.worlds.items }
    requires new { new.0 < length resolve.worlds.items }
    ensures { OfWorlds resolve prev new (λ p n. MatchResult result (λ u. Accepts resolve p n) (IsRefused resolve p n)) }
{
    let mut steps = Steps::new();
    semver_check_counted(alloc, resolve, prev, new, &mut steps)
}
