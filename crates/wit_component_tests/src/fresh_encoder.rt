//! A fresh encoder of interfaces, handed to the generic functions: what they define stands in its component type.

ghost use Rattle.wit_model.specs.Valid.{IsValid};

use std::alloc::Global;
use std::test::Fail;
use wit_component::{
    ComponentValType, Error, InterfaceEncoder, PrimitiveValType, Resolve, Type, encode_unit_future,
    encode_valtype,
};
use wit_samples::lines::EMPTY;
use wit_samples::valid;

// The slot of a future without an element.
fn future_slot(alloc: Global, resolve: &Resolve) -> Result<u32, Error> {
    let mut encoder = InterfaceEncoder::new(alloc, resolve);
    encode_unit_future(alloc, &mut encoder)
}

// What a number of 32 bits is written as.
fn number(alloc: Global, resolve: &Resolve) -> Result<ComponentValType, Error>
    requires { IsValid resolve.now }
{
    let mut encoder = InterfaceEncoder::new(alloc, resolve);
    encode_valtype(alloc, &mut encoder, resolve, &Type::U32)
}

#[test]
fn its_first_call(rt: HostRuntime) -> Result<(), Fail> {
    let resolve = valid(rt.alloc(), EMPTY)?;
    assert_eq!(rt; future_slot(rt.alloc(), &resolve)?, 0);
    let expected = ComponentValType::Primitive(PrimitiveValType::U32);
    assert!(rt; number(rt.alloc(), &resolve)? == expected);
    Ok(())
}
