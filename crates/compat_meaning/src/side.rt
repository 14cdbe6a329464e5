//! A `Resolve` of two that are compared, and the paths of its interfaces.

ghost use Rattle.std.specs.Prelude.{◌≡◌, ◌↔◌, option_map, IfOk, IfSome, IsTrue};
ghost use Rattle.compat_meaning.specs.TwoSides.{path_text, IsKnown, IsSide};
ghost use Rattle.wit_model.specs.{Lookup.interface_path, Lookup.key_text as key_text_lem, Lookup.place_of, Lookup.place_of_path, Rules.same_package_name};
ghost use Rattle.wit_model.specs.Text.{text_of};

use std::alloc::{AllocError, Global};
use wit_model::lookup::full_name;
use wit_model::{InterfaceId, PackageName, Resolve, TypeOwner, WorldKey};

/// A valid `Resolve`.
#[derive(Drop)]
pub struct Side<'a> {
    pub resolve: &'a Resolve,
}

/// The path of an interface by its parts, so that none is made to be compared.
#[derive(Clone, Copy)]
pub struct Path<'a> {
    home: &'a PackageName,
    name: &'a String,
}

/// The path of an interface, if it has one. Takes no memory.
pub fn path_at<'a>(side: &'a Side, id: InterfaceId) -> Option<Path<'a>>
    requires { IsSide side.now }
    ensures path { option_map path_text result ≡ interface_path side.entry.now.resolve.now id.0 }
    ensures known { IfSome result IsKnown }
{
    match full_name(side.resolve, id.0 as usize) {
        Some((home, name)) => Some(Path { home, name }),
        None => None,
    }
}

fn same_homes(a: &PackageName, b: &PackageName) -> bool
    ensures { result ≡ same_package_name a.now b.now }
{
    a == b
}

fn same_texts(a: &str, b: &str) -> bool
    ensures { IsTrue result ↔ (a.now ≡ b.now) }
{
    a == b
}

/// Whether two paths are the same text.
pub fn same_paths(a: &Path, b: &Path) -> bool
    requires a { IsKnown a.now }
    requires b { IsKnown b.now }
    ensures { IsTrue result ↔ (path_text a.now ≡ path_text b.now) }
{
    if !same_homes(a.home, b.home) {
        return false;
    }
    same_texts(a.name.as_str(), b.name.as_str())
}

/// The text of a key: a label or a path.
pub fn key_text(alloc: Global, side: &Side, key: &WorldKey) -> Result<String, AllocError>
    ensures { IfOk result (λ text. text_of text ≡ key_text_lem side.now.resolve.now key.now) }
{
    match side.resolve.name_world_key(alloc, key) {
        Ok(text) => Ok(text),
        Err(_) => Err(AllocError),
    }
}

/// The path of the interface that owns a type, if one with a path does.
fn owner_path<'a>(side: &'a Side, owner: TypeOwner) -> Option<Path<'a>>
    requires { IsSide side.now }
    ensures path { place_of_path (option_map path_text result) ≡ place_of side.entry.now.resolve.now owner }
    ensures known { IfSome result IsKnown }
{
    match owner {
        TypeOwner::Interface(id) => path_at(side, id),
        TypeOwner::World(_) => None,
        TypeOwner::None => None,
    }
}

/// Whether two owners are the same place.
pub fn same_owners(left: &Side, right: &Side, a: TypeOwner, b: TypeOwner) -> bool
    requires left { IsSide left.now }
    requires right { IsSide right.now }
    ensures { IsTrue result ↔ (place_of left.now.resolve.now a ≡ place_of right.now.resolve.now b) }
{
    match owner_path(left, a) {
        Some(a) => match owner_path(right, b) {
            Some(b) => same_paths(&a, &b),
            None => false,
        },
        None => match owner_path(right, b) {
            Some(_) => false,
            None => true,
        },
    }
}
