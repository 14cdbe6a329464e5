//! The order in which the functions of an interface are encoded.

ghost use Rattle.std.specs.Prelude.{◌≡◌, IfOk, map, IsPermutation, All};
ghost use Rattle.indexmap.specs.IndexMap.{values};
ghost use Rattle.wit_encode.specs.Instance.{keyed, placed_function};
ghost use Rattle.wit_encode.specs.Order.{any_of_resource, functions_in_order as in_order, place_among, ArePlaces};

use std::alloc::{AllocError, Global};
use std::collections::BTreeMap;
use wit_model::{Function, Interface, TypeId};

/// Where each type stands first among these.
fn places_of(alloc: Global, types: &[TypeId]) -> Result<BTreeMap<u32, usize>, AllocError>
    ensures { IfOk result (ArePlaces types.now) }
{
    let mut places = BTreeMap::new(alloc);
    for (place, id) in types.iter().enumerate() {
        if !places.contains_key(&id.0) {
            places.insert(id.0, place)?;
        }
    }
    Ok(places)
}

/// Where the resource of a function stands among these types. A function without one comes behind all of them.
fn place_of(types: &[TypeId], places: &BTreeMap<u32, usize>, func: &Function) -> usize
    requires { ArePlaces types.now places.now }
    ensures { result ≡ place_among types.now func.now }
{
    match func.kind.resource() {
        Some(id) => match places.get(&id.0) {
            Some(place) => *place,
            None => types.len(),
        },
        None => types.len(),
    }
}

/// The functions of an interface, each with the place of its resource.
fn placed<'a>(
    alloc: Global,
    interface: &'a Interface,
    types: &[TypeId],
    places: &BTreeMap<u32, usize>,
) -> Result<Vec<(usize, &'a String, &'a Function)>, AllocError>
    requires { ArePlaces types.now places.now }
    ensures functions { IfOk result (λ v. map placed_function v.items ≡ map keyed interface.now.functions.entries) }
    ensures places { IfOk result (λ v. All (λ e. e.0 ≡ place_among types.now e.2.now) v.items) }
{
    let mut all = Vec::with_capacity(alloc, interface.functions.len())?;
    for (name, func) in interface.functions.iter() {
        all.push((place_of(types, places, func), name, func))?;
    }
    Ok(all)
}

/// Whether a function of an interface is of a resource.
fn has_resource(interface: &Interface) -> bool
    ensures { result ≡ any_of_resource (map keyed interface.now.functions.entries) }
{
    for (_name, func) in interface.functions.iter() {
        if func.kind.resource().is_some() {
            return true;
        }
    }
    false
}

/// The functions of an interface: those of resources by the order of their resource, then the others, and each of these in the order
/// of the map.
///
/// Takes as long as sorting the functions, and one search among the types for each of them. Where none is of a resource, it takes one step for
/// each function.
pub(crate) fn functions_in_order<'a>(
    alloc: Global,
    interface: &'a Interface,
) -> Result<Vec<(usize, &'a String, &'a Function)>, AllocError>
    ensures all { IfOk result (λ v. IsPermutation (map keyed interface.now.functions.entries) (map placed_function v.items)) }
    ensures order { IfOk result (λ v. map placed_function v.items ≡ in_order interface.now) }
{
    if !has_resource(interface) {
        return placed(alloc, interface, &[], &BTreeMap::new(alloc));
    }
    let types = types_in_order(alloc, interface)?;
    let places = places_of(alloc, &types)?;
    let mut all = placed(alloc, interface, &types, &places)?;
    all.sort_by_key(|entry| entry.0)?;
    Ok(all)
}

/// The types of an interface, in order.
pub(crate) fn types_in_order(
    alloc: Global,
    interface: &Interface,
) -> Result<Vec<TypeId>, AllocError>
    ensures { IfOk result (λ v. v.items ≡ values interface.now.types) }
{
    let mut all = Vec::with_capacity(alloc, interface.types.len())?;
    for id in interface.types.values() {
        all.push(*id)?;
    }
    Ok(all)
}
