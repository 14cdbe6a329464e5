//! What the tests append to types.

use comp_bytes::{
    Alias, ComponentDefinedType, ComponentExternName, ComponentFuncType, ComponentValType,
    PrimitiveValType,
};
use std::alloc::Global;
use std::borrow::CowStr;
use std::process::Abort;
use wit_model::{Cause, Error};

/// One assertion for all tables, since each takes the prover as long as a function.
pub fn assert_case(rt: &impl Abort, holds: bool, number: usize) {
    assert!(rt; holds, "case {number}");
}

/// Whether nothing is read, for this reason and at the front.
pub fn is_refused<T: Copy>(found: Result<T, Error>, cause: Cause) -> bool {
    match found {
        Err(Error::NoReading(found, offset)) => found == cause && offset == 0,
        _ => false,
    }
}

pub const U8: ComponentValType = ComponentValType::Primitive(PrimitiveValType::U8);

pub const LIST_OF_U8: ComponentDefinedType<'static> = ComponentDefinedType::List(U8);

/// `func()`.
pub fn nullary(alloc: Global) -> ComponentFuncType<'static> {
    ComponentFuncType {
        async_: false,
        params: Vec::new(alloc),
        result: None,
    }
}

/// `async func(x: TY) -> TY`.
pub fn awaited(alloc: Global, ty: ComponentValType) -> Result<ComponentFuncType<'static>, Error> {
    let mut params = Vec::new(alloc);
    params.push(("x", ty))?;
    Ok(ComponentFuncType {
        async_: true,
        params,
        result: Some(ty),
    })
}

/// A name without attributes.
pub fn plain(name: &'static str) -> ComponentExternName<'static> {
    ComponentExternName {
        name: CowStr::Borrowed(name),
        implements: None,
        version_suffix: None,
        external_id: None,
    }
}

/// The name `a` with each attribute.
pub fn attributed() -> ComponentExternName<'static> {
    ComponentExternName {
        name: CowStr::Borrowed("a"),
        implements: Some(CowStr::Borrowed("n:p/i@1")),
        version_suffix: Some(CowStr::Borrowed(".2")),
        external_id: Some(CowStr::Borrowed("x")),
    }
}

/// The alias of a type in the scope around.
pub fn outer(index: u32) -> Alias<'static> {
    Alias::Outer { count: 1, index }
}

/// The alias of the type `t` that an instance shows.
pub fn shown(instance: u32) -> Alias<'static> {
    Alias::InstanceExport {
        instance,
        name: "t",
    }
}
