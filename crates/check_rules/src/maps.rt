//! No map has a key twice. To read a map shows it, so nothing is compared here.

ghost use Rattle.std.specs.Prelude.{◌≡◌, ℕ, Some, string_eq};
ghost use Rattle.indexmap.specs.IndexMap.{IsUnique};
ghost use Rattle.wit_model.specs.declared.model.{Package.Package, Interface.Interface, World.World};
ghost use Rattle.wit_model.specs.{Lookup.package_at, Lookup.interface_at, Lookup.world_at, Valid.key_eq, Valid.HasDistinctKeys};

use wit_model::{Map, Resolve, WorldItem, WorldKey};

fn read_packages(resolve: &Resolve)
    ensures { (n : ℕ) (p : Package) → package_at resolve.now n ≡ Some p → IsUnique string_eq p.interfaces × IsUnique string_eq p.worlds }
{
    for entry in &resolve.packages {
        let _interfaces = entry.interfaces.len();
        let _worlds = entry.worlds.len();
    }
}

fn read_interfaces(resolve: &Resolve)
    ensures { (n : ℕ) (i : Interface) → interface_at resolve.now n ≡ Some i → IsUnique string_eq i.types × IsUnique string_eq i.functions }
{
    for entry in &resolve.interfaces {
        let _types = entry.types.len();
        let _functions = entry.functions.len();
    }
}

fn read_entries(entries: &Map<WorldKey, WorldItem>)
    ensures { IsUnique key_eq entries.now }
{
    let _length = entries.len();
}

fn read_worlds(resolve: &Resolve)
    ensures { (n : ℕ) (w : World) → world_at resolve.now n ≡ Some w → IsUnique key_eq w.imports × IsUnique key_eq w.exports }
{
    for entry in &resolve.worlds {
        read_entries(&entry.imports);
        read_entries(&entry.exports);
    }
}

/// Reads each map of the `Resolve`. Takes a step for each package, interface and world.
pub fn read_all(resolve: &Resolve)
    ensures { HasDistinctKeys resolve.now }
{
    read_packages(resolve);
    read_interfaces(resolve);
    read_worlds(resolve);
}
