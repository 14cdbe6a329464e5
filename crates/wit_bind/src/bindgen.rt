//! What is bound to a core module, and the bindings of a module that carries no world.

ghost use Rattle.std.specs.Prelude.{◌≡◌, map, None, IfErr, IfOk, OnErr, OnOk};
ghost use Rattle.wit_model.specs.{Lookup.key_text, Refusals.IsMemory};
ghost use Rattle.plan_meaning.specs.Built.{IsBare};
ghost use Rattle.bind_add.specs.Growth.{IsAddable};
ghost use Rattle.bind_clash.specs.Faults.{HaveNoClash, IsMatched};
ghost use Rattle.bind_match.specs.Matching.{own_package_of};
ghost use Rattle.bind_meaning.specs.{Clash.CanUnite, Union.union};
ghost use Rattle.wit_bind.specs.{Bindings.IsBindgen, Bindings.binding_of, Extends.Extends, Extends.IsKept, Extends.listed_names, Extends.merged_names, Brings.BringsItsOwn, Merges.AddsNothing, Merges.GrowsWithin, Merges.IsGrownBy, Merges.IsMergeRefusal, Merges.export_keys, Merged.ExportsGrowBy, Merged.IsMerge, OthersOrder.KeepsOthersOrder, Roots.IsRoot, Roots.IsRootPackage, Roots.IsRootResolve, Roots.IsRootWorld};
ghost use Rattle.wit_bind.specs.Comes.{BringsNothing};

use crate::metadata::ModuleMetadata;
use bind_add::{Added, add, reserve};
use bind_clash::refuse_clash;
use bind_match::{Matches, matched_packages, matches_of};
use bind_unite::union_of;
use indexmap::IndexSet;
use std::alloc::Global;
use wit_model::{
    Docs, Error, Map, Package, PackageId, PackageName, Resolve, Stability, World, WorldId, WorldKey,
};

/// What is bound to a core module: the world that it imports from and exports to, in its `Resolve`, and the string encodings of its functions.
#[derive(Drop)]
pub struct Bindgen {
    pub resolve: Resolve,
    pub world: WorldId,
    pub metadata: ModuleMetadata,
}

fn no_docs() -> Docs
    ensures { result ≡ record { contents = None } }
{
    Docs { contents: None }
}

// The package `root:root`, in which the world of number 0 is listed as `root`.
fn root_package(alloc: Global) -> Result<Package, Error>
    ensures ok { IfOk result IsRootPackage }
    ensures refuses { IfErr result IsMemory }
{
    let mut worlds = Map::new(alloc);
    worlds.insert(String::from_str(alloc, "root")?, WorldId(0))?;
    Ok(Package {
        name: PackageName {
            namespace: String::from_str(alloc, "root")?,
            name: String::from_str(alloc, "root")?,
            version: None,
        },
        docs: no_docs(),
        interfaces: Map::new(alloc),
        worlds,
    })
}

// The world `root` of the package of number 0, which imports nothing and exports nothing.
fn root_world(alloc: Global) -> Result<World, Error>
    ensures ok { IfOk result IsRootWorld }
    ensures refuses { IfErr result IsMemory }
{
    Ok(World {
        name: String::from_str(alloc, "root")?,
        imports: Map::new(alloc),
        exports: Map::new(alloc),
        docs: no_docs(),
        stability: Stability::Unknown,
        package: Some(PackageId(0)),
    })
}

// The package and the world, and nothing else.
fn root_resolve(alloc: Global) -> Result<Resolve, Error>
    ensures ok { IfOk result IsRootResolve }
    ensures refuses { IfErr result IsMemory }
{
    let package = root_package(alloc)?;
    let world = root_world(alloc)?;
    Ok(Resolve {
        packages: vec![in alloc; package]?,
        interfaces: Vec::new(alloc),
        worlds: vec![in alloc; world]?,
        types: Vec::new(alloc),
    })
}

impl Bindgen {
    /// The bindings of a module that carries no world (documentation of wit-component's `Bindgen`): the empty world `root` of the package
    /// `root:root`, which has no version, and no encodings. The `Resolve` is valid and holds nothing else.
    ///
    /// Takes constant time and memory. Refuses `Memory` alone.
    pub fn default(alloc: Global) -> Result<Bindgen, Error>
        ensures root { IfOk result IsRoot }
        ensures valid { IfOk result IsBindgen }
        ensures refuses { IfErr result IsMemory }
    {
        Ok(Bindgen {
            resolve: root_resolve(alloc)?,
            world: WorldId(0),
            metadata: ModuleMetadata::empty(alloc),
        })
    }

    // What stands on both sides under one name or path, where the two don't clash.
    fn matched(
        &self,
        alloc: Global,
        other: &Bindgen,
        packages: Vec<Option<PackageId>>,
    ) -> Result<Matches, Error>
        requires own { IsBindgen self.now }
        requires others { IsBindgen other.now }
        requires packages { packages.items ≡ map (own_package_of self.now.resolve.packages.items) other.now.resolve.packages.items }
        ensures matched { IfOk result (IsMatched self.now.resolve other.now.resolve) }
        ensures none { IfOk result (λ m. HaveNoClash self.now.resolve other.now.resolve m self.now.world.0 other.now.world.0) }
        ensures united { IfOk result (λ m. CanUnite (binding_of self.now) (binding_of other.now)) }
        ensures refusal { IfErr result (IsMergeRefusal self.now other.now) }
    {
        let matches = matches_of(alloc, &self.resolve, &other.resolve, packages)?;
        refuse_clash(
            alloc,
            &self.resolve,
            self.world,
            &other.resolve,
            other.world,
            &matches,
        )?;
        self.metadata.refuse_clash(alloc, &other.metadata)?;
        Ok(matches)
    }

    // Adds to the `Resolve`, and to the encodings, all or nothing. All room is made first, so nothing is refused once something has changed.
    fn grow(&mut self, added: Added, metadata: ModuleMetadata) -> Result<(), Error>
        requires { IsAddable self.old.resolve self.old.world.0 added }
        ensures ok { OnOk result (IsGrownBy added metadata self.old self.new) }
        ensures kept { OnErr result (IsKept self.old self.new) }
        ensures refuses { IfErr result IsMemory }
    {
        reserve(&mut self.resolve, self.world, &added)?;
        self.metadata.unite(metadata)?;
        add(&mut self.resolve, self.world, added);
        Ok(())
    }

    /// Merges other bindings into these, which gain what is new, or are left as they were (wit-component README, "Merging Worlds"). The other's
    /// bound world is bound, too: what it imports and exports comes behind what is imported and exported here. What stands under one path on
    /// both sides has to mean the same, and keeps this side's documentation and stability; the other's world `root:root/root` isn't compared and
    /// not carried over. What wasn't here keeps the other's documentation and stability. Own numbers stay, and lists get longer by what comes
    /// alone. What comes is packages, interfaces and worlds that aren't here by name or path, with their types and inline interfaces. The inline
    /// interfaces and types of what the own bound world gains come once more. A type without a name comes if a function or a type refers to it
    /// that comes. New worlds, interfaces and types are numbered in the other's order: first all that comes by path or with a world, then what the
    /// own bound world gains. Where nothing of the other is new, no interface, world or type comes. The answer is the keys of the other's exports,
    /// as they stand here, in their order.
    ///
    /// Both `Resolve`s are valid, and each world is one of its own. Refuses with `Clash` where the two clash, and names the first fault; with `Memory`;
    /// and with `Size` only where a list would pass 4,294,967,295 with what comes. Takes time and memory linear in both, with hashed look-ups.
    pub fn merge(&mut self, alloc: Global, other: Bindgen) -> Result<IndexSet<WorldKey>, Error>
        requires own { IsBindgen self.old }
        requires others { IsBindgen other }

        ensures united { OnOk result (CanUnite (binding_of self.old) (binding_of other)) }
        ensures union { OnOk result (binding_of self.new ≡ union (binding_of self.old) (binding_of other)) }
        ensures valid { OnOk result (IsBindgen self.new) }

        // Own numbers stay, and what is new stands behind what was there, and no more than comes.
        ensures world { self.new.world ≡ self.old.world }
        ensures extends { OnOk result (Extends self.old.resolve self.new.resolve self.old.world.0) }
        ensures brings { OnOk result (BringsItsOwn self.old other self.new) }
        ensures in_order { OnOk result (KeepsOthersOrder self.old other self.new) }
        ensures bare { OnOk result (IsBare self.old.resolve → IsBare other.resolve → IsBare self.new.resolve) }
        ensures growth { OnOk result (GrowsWithin self.old other self.new) }
        ensures nothing { OnOk result (BringsNothing (binding_of self.old) (binding_of other) → AddsNothing self.old.resolve self.new.resolve) }
        ensures order { OnOk result (listed_names self.new.resolve ≡ merged_names (listed_names self.old.resolve) (listed_names other.resolve)) }
        ensures added { IfOk result (λ added. ExportsGrowBy self.old self.new added.keys) }
        ensures answer { IfOk result (λ added. map (key_text self.new.resolve) added.keys
            ≡ map (key_text other.resolve) (export_keys other.resolve other.world.0)) }

        ensures refusal { IfErr result (IsMergeRefusal self.old other) }
        ensures kept { OnErr result (IsKept self.old self.new) }
    {
        let packages = matched_packages(alloc, &self.resolve.packages, &other.resolve.packages)?;
        merge_matched(self, alloc, other, packages)
    }
}

/// As `Bindgen::merge`, where the own packages of the names of the other's are known. Takes time and memory linear in the other bindings alone, with hashed
/// look-ups, apart from what lists and maps take to grow.
pub fn merge_matched(
    own: &mut Bindgen,
    alloc: Global,
    other: Bindgen,
    packages: Vec<Option<PackageId>>,
) -> Result<IndexSet<WorldKey>, Error>
    requires own { IsBindgen own.old }
    requires others { IsBindgen other }
    requires packages { packages.items ≡ map (own_package_of own.old.resolve.packages.items) other.resolve.packages.items }

    ensures merged { IfOk result (λ answer. IsMerge own.old other own.new answer.keys) }
    ensures world { own.new.world ≡ own.old.world }
    ensures refusal { IfErr result (IsMergeRefusal own.old other) }
    ensures kept { OnErr result (IsKept own.old own.new) }
{
    let matches = own.matched(alloc, &other, packages)?;
    let (added, keys) = union_of(
        alloc,
        &own.resolve,
        own.world,
        other.resolve,
        other.world,
        &matches,
    )?;
    own.grow(added, other.metadata)?;
    Ok(keys)
}
