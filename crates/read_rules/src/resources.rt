//! The names of resources, as a set.

ghost use Rattle.std.specs.Prelude.{◌≡◌, ◌&&◌, ◌||◌, Bool, map, IfOk};
ghost use Rattle.std.specs.List.{list_any};
ghost use Rattle.wit_model.specs.Text.{Text};
ghost use Rattle.plan_meaning.specs.NumberedRules.{is_no_part, resources_of as resources_of_lem};
ghost use Rattle.read_rules.specs.{Resources.AreSame, Tables.now_of, Views.numbered_type};

use crate::views::ViewType;
use indexmap::IndexSet;
use keyed_hash::{Digest, KeyedHash};
use std::alloc::{AllocError, Global};

/// The names of resources.
pub(crate) type Resources<'a> = IndexSet<&'a str, KeyedHash>;

/// Adds the name, if it is a resource's.
pub(crate) fn add_resource<'a>(
    resources: &mut Resources<'a>,
    is_resource: bool,
    name: &'a str,
) -> Result<(), AllocError>
    ensures { IfOk result (λ _. (test : Text → Bool)
        → list_any test (map now_of resources.new.keys) ≡ (list_any test (map now_of resources.old.keys) || (is_resource && test name.entry.now))) }
{
    if !is_resource {
        return Ok(());
    }
    let _is_new = resources.insert(name)?;
    Ok(())
}

/// Whether a type that is declared as this, or as nothing, is a resource.
pub(crate) fn is_resource(declared: Option<usize>) -> bool
    ensures { result ≡ is_no_part declared }
{
    match declared {
        Some(_) => false,
        None => true,
    }
}

/// The hash that is keyed by the names of the types that are resources. Takes time linear in the types and in these names, and no memory.
pub fn hash_of(types: &[ViewType<'_>]) -> KeyedHash {
    let mut digest = Digest::new();
    for ty in types {
        if is_resource(ty.declared) {
            digest.add(ty.name.as_bytes());
        }
    }
    digest.hash()
}

/// The names of the types that are resources. Takes time linear in the types, and as much memory as there are resources.
pub(crate) fn resources_of<'a>(
    alloc: Global,
    types: &[ViewType<'a>],
) -> Result<Resources<'a>, AllocError>
    ensures { IfOk result (λ s. AreSame (map now_of s.keys) (resources_of_lem (map numbered_type types.now))) }
{
    let mut resources = IndexSet::with_hasher(alloc, hash_of(types));
    for ty in types {
        add_resource(&mut resources, is_resource(ty.declared), ty.name)?;
    }
    Ok(resources)
}
