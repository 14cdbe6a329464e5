//! The rule on names in packages: what stands in a package's map has the map's key as its name.

ghost use Rattle.std.specs.{Prelude.◌≡◌, Prelude.OnOk, Prelude.IfErr, List.list_all};
ghost use Rattle.wit_model.specs.{Lookup.interface_at as interface_at_lem, Lookup.world_at as world_at_lem, Rules.passes, Rules.text_is};
ghost use Rattle.wit_model.specs.{Text.text_eq, Text.text_of, Valid.names_in_packages, Valid.IsFaultOf, Valid.IsFound, Valid.Keeps};

use crate::walk::first_failing;
use wit_model::lookup::{interface_at, world_at};
use wit_model::{EntryList, Fault, InterfaceId, Map, Package, Resolve, WorldId};

fn is_named(name: &Option<String>, key: &String) -> bool
    ensures { result ≡ text_is name.now (text_of key.now) }
{
    match name {
        Some(name) => name == key,
        None => false,
    }
}

fn interface_is_named(resolve: &Resolve, key: &String, id: InterfaceId) -> bool
    ensures { result ≡ passes (λ i. text_is i.name (text_of key.now)) (interface_at_lem resolve.now id.0) }
{
    match interface_at(resolve, id) {
        Some(interface) => is_named(&interface.name, key),
        None => true,
    }
}

fn world_is_named(resolve: &Resolve, key: &String, id: WorldId) -> bool
    ensures { result ≡ passes (λ w. text_eq (text_of w.name) (text_of key.now)) (world_at_lem resolve.now id.0) }
{
    match world_at(resolve, id) {
        Some(world) => world.name == *key,
        None => true,
    }
}

fn interfaces_are_named(resolve: &Resolve, ids: &Map<String, InterfaceId>) -> bool
    ensures { result ≡ list_all (λ e. passes (λ i. text_is i.name (text_of e.0)) (interface_at_lem resolve.now e.1.0)) ids.now.entries }
{
    ids.iter()
        .all(|(key, id)| interface_is_named(resolve, key, *id))
}

fn worlds_are_named(resolve: &Resolve, ids: &Map<String, WorldId>) -> bool
    ensures { result ≡ list_all (λ e. passes (λ w. text_eq (text_of w.name) (text_of e.0)) (world_at_lem resolve.now e.1.0)) ids.now.entries }
{
    ids.iter()
        .all(|(key, id)| world_is_named(resolve, key, *id))
}

#[tactic(auto, unfolding(wit_model::specs::Valid::names_in_packages))]
fn package_passes(resolve: &Resolve, entry: &Package) -> bool
    ensures { (number : _) → result ≡ names_in_packages.package_ resolve.now number entry.now }
{
    interfaces_are_named(resolve, &entry.interfaces) && worlds_are_named(resolve, &entry.worlds)
}

fn first_package(resolve: &Resolve) -> Option<usize>
    ensures { IsFound names_in_packages resolve.now EntryList.Packages result }
{
    first_failing(&resolve.packages, |_, entry| package_passes(resolve, entry))
}

/// Whether what stands in a package's map has the map's key as its name.
#[tactic(auto, unfolding(wit_model::specs::Valid::names_in_packages))]
pub(crate) fn check(resolve: &Resolve) -> Result<(), Fault>
    ensures kept { OnOk result (Keeps names_in_packages resolve.now) }
    ensures broken { IfErr result (IsFaultOf resolve.now) }
{
    match first_package(resolve) {
        Some(number) => Err(Fault::Broken {
            rule: 14,
            list: EntryList::Packages,
            number,
        }),
        None => Ok(()),
    }
}
