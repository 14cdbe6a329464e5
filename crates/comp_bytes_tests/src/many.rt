//! A large component, in linear time.

use crate::parts::LIST_OF_U8;
use comp_bytes::{ComponentBuilder, ComponentType};
use std::alloc::Global;
use std::test::Fail;
use wit_model::Error;

fn lists(alloc: Global, count: u32) -> Result<ComponentType, Error> {
    let mut component = ComponentType::new(alloc);
    for _ in 0..count {
        component.defined(&LIST_OF_U8)?;
    }
    Ok(component)
}

// How many bytes there are of a component.
fn byte_count(alloc: Global, component: &ComponentType) -> Result<usize, Error> {
    let mut builder = ComponentBuilder::new(alloc);
    builder.type_component(component)?;
    Ok(builder.finish()?.len())
}

// A hundred thousand declarations of three bytes each.
#[test]
fn many_declarations(rt: HostRuntime) -> Result<(), Fail> {
    let component = lists(rt.alloc(), 100_000)?;
    let counts = (component.type_count(), byte_count(rt.alloc(), &component)?);
    assert!(rt; counts == (100_000, 8 + 1 + 3 + 1 + 1 + 3 + 300_000));
    Ok(())
}
