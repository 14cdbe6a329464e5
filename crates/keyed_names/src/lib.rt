//! Hashes that are keyed by names: of packages, of interfaces, and of what has a name.
//!
//! A table whose keys are names from strangers is to hash otherwise with each set of names, so that no set can be found that collides. No clause says what
//! a hash is: what a table holds doesn't depend on it. Each call takes time linear in the names, and no memory.
#![tactic(auto)]

use keyed_hash::{Digest, KeyedHash};
use std::hash::{DefaultHasher, Hash, Hasher};
use wit_model::lookup::full_name;
use wit_model::named::Named;
use wit_model::{InterfaceId, Map, Package, PackageName, Resolve, WorldItem, WorldKey};

// A version has no text until one is made, so the parts of the name go into a hash of their own.
fn add_package_name(digest: &mut Digest, name: &PackageName) {
    let mut parts = DefaultHasher::new();
    name.hash(&mut parts);
    digest.add(&parts.finish().to_le_bytes());
}

// An interface without a path adds nothing.
fn add_path(digest: &mut Digest, resolve: &Resolve, id: InterfaceId) {
    if let Some((home, name)) = full_name(resolve, id.0 as usize) {
        add_package_name(digest, home);
        digest.add(name.as_bytes());
    }
}

fn add_key(digest: &mut Digest, resolve: &Resolve, key: &WorldKey) {
    match key {
        WorldKey::Name(label) => digest.add(label.as_bytes()),
        WorldKey::Interface(id) => add_path(digest, resolve, *id),
    }
}

/// Keyed by the names of members.
pub fn hash_of_members<T: Named>(members: &[T]) -> KeyedHash {
    let mut digest = Digest::new();
    for member in members {
        digest.add(member.name().as_bytes());
    }
    digest.hash()
}

/// Keyed by the names of packages, versions and all.
pub fn hash_of_packages(packages: &[Package]) -> KeyedHash {
    let mut digest = Digest::new();
    for package in packages {
        add_package_name(&mut digest, &package.name);
    }
    digest.hash()
}

/// Keyed by the paths of interfaces, versions and all.
pub fn hash_of_paths(resolve: &Resolve, interfaces: &[InterfaceId]) -> KeyedHash {
    let mut digest = Digest::new();
    for interface in interfaces {
        add_path(&mut digest, resolve, *interface);
    }
    digest.hash()
}

/// Keyed by the keys of imports, or of exports: their labels and paths, versions and all.
pub fn hash_of_keys(resolve: &Resolve, items: &Map<WorldKey, WorldItem>) -> KeyedHash {
    let mut digest = Digest::new();
    for (key, _item) in items {
        add_key(&mut digest, resolve, key);
    }
    digest.hash()
}
