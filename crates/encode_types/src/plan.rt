//! Which types a type needs, in the order in which they are defined.

ghost use Rattle.std.specs.Prelude.{◌≡◌, ◌++◌, ◌∷◌, [], Decides, IfOk, OnOk, nat_eq};
ghost use Rattle.std.specs.List.{Contains, IsDistinct};
ghost use Rattle.encode_types.specs.Plan.{foreign_owner, IsLayered, InRange, AllInRange, IsOrdered, AreMet, IsPlanned, IsOrderOf};

use crate::maps::TypeEncodingMaps;
use crate::shape::{kind_parts, only_part};
use std::alloc::{AllocError, Global};
use std::collections::BTreeSet;
use wit_model::{InterfaceId, Resolve, Type, TypeId, TypeOwner};

/// Type numbers in an order in which they can be defined.
#[derive(Drop)]
pub(crate) struct Order {
    pub(crate) numbers: Vec<u32>,
    /// Those behind the first few.
    pub(crate) met: BTreeSet<u32>,
}

/// How many numbers at the start are looked through one by one.
const FEW: usize = 8;

impl Order {
    pub(crate) fn new(alloc: Global) -> Order
        ensures numbers { result.numbers.items ≡ [] }
        ensures met { result.met.keys ≡ [] }
    {
        Order {
            numbers: Vec::new(alloc),
            met: BTreeSet::new(alloc),
        }
    }

    /// Whether a number stands in the order.
    fn has(&self, id: TypeId) -> bool
        requires { AreMet self.now }
        ensures { Decides result (Contains self.now.numbers.items id.0) }
    {
        let numbers = self.numbers.as_slice();
        if numbers.len() <= FEW {
            return numbers.contains(&id.0);
        }
        numbers.split_at(FEW).0.contains(&id.0) || self.met.contains(&id.0)
    }

    /// Adds a number.
    fn push(&mut self, id: TypeId) -> Result<(), AllocError>
        requires { AreMet self.old }
        ensures met { OnOk result (AreMet self.new) }
        ensures numbers { OnOk result (self.new.numbers.items ≡ self.old.numbers.items ++ id.0 ∷ []) }
    {
        self.numbers.push(id.0)?;
        if self.numbers.len() <= FEW {
            return Ok(());
        }
        self.met.insert(id.0)?;
        Ok(())
    }
}

/// The interface of a type, where it is another one.
pub fn foreign(own: Option<InterfaceId>, owner: TypeOwner) -> Option<InterfaceId>
    ensures { result ≡ foreign_owner own owner }
{
    match owner {
        TypeOwner::Interface(id) => match own {
            Some(other) => { if other.0 == id.0 { None } else { Some(id) } }
            None => Some(id),
        },
        TypeOwner::World(_) => None,
        TypeOwner::None => None,
    }
}

/// Adds what a type needs to the order, each number after its parts and once.
///
/// Takes a step for each reference between the types that are added, with a search among the numbers met and a look into the maps.
pub(crate) fn plan<'a>(
    alloc: Global,
    resolve: &'a Resolve,
    maps: &TypeEncodingMaps<'a>,
    own: Option<InterfaceId>,
    ty: &Type,
    order: &mut Order,
) -> Result<(), AllocError>
    requires layered { IsLayered resolve.now }
    requires in_range { InRange resolve.now ty.now }
    requires ordered { IsOrdered resolve.now own maps.now order.old.numbers.items }
    requires met { AreMet order.old }
    requires once { IsDistinct nat_eq order.old.numbers.items }
    ensures { OnOk result (IsPlanned resolve.now own maps.now order.old.numbers.items (ty.now ∷ []) 1 order.new) }
{
    let id = match ty {
        Type::Id(id) => *id,
        _ => return Ok(()),
    };
    if order.has(id) {
        return Ok(());
    }
    if maps.index_of(id).is_some() {
        return Ok(());
    }
    let def = &resolve.types[id.0 as usize];
    if foreign(own, def.owner).is_some() {
        order.push(id)?;
        return Ok(());
    }
    if let Some(part) = only_part(&def.kind) {
        plan(alloc, resolve, maps, own, &part, order)?;
        order.push(id)?;
        return Ok(());
    }
    let parts = kind_parts(alloc, &def.kind)?;
    for part in &parts {
        plan(alloc, resolve, maps, own, part, order)?;
    }
    order.push(id)?;
    Ok(())
}

/// The numbers that types need, in an order in which they can be defined, each once.
pub(crate) fn order_of<'a>(
    alloc: Global,
    resolve: &'a Resolve,
    maps: &TypeEncodingMaps<'a>,
    own: Option<InterfaceId>,
    types: &[Type],
) -> Result<Vec<u32>, AllocError>
    requires layered { IsLayered resolve.now }
    requires in_range { AllInRange resolve.now types.now }
    ensures { IfOk result (λ v. IsOrderOf resolve.now own maps.now types.now v.items) }
{
    let mut order = Order::new(alloc);
    for ty in types {
        plan(alloc, resolve, maps, own, ty, &mut order)?;
    }
    let Order { numbers, met } = order;
    drop(met);
    Ok(numbers)
}
