//! Components, built call by call, byte for byte.

use crate::parts::{LIST_OF_U8, U8, attributed, awaited, nullary, outer, plain, shown};
use comp_bytes::{
    ComponentBuilder, ComponentDefinedType, ComponentType, ComponentTypeRef, ComponentValType,
    InstanceType,
};
use std::alloc::Global;
use std::process::Abort;
use std::test::Fail;
use wit_model::Error;

fn assert_bytes(rt: &impl Abort, builder: ComponentBuilder, expected: &[u8]) -> Result<(), Fail> {
    let bytes = builder.finish()?;
    assert!(rt; bytes.as_slice() == expected);
    Ok(())
}

// Each type and each export takes the next index.
fn put_type(
    rt: &impl Abort,
    builder: &mut ComponentBuilder,
    ty: &ComponentType,
    index: u32,
) -> Result<(), Fail> {
    assert!(rt; builder.type_component(ty)? == index);
    Ok(())
}

fn put_export(
    rt: &impl Abort,
    builder: &mut ComponentBuilder,
    name: &'static str,
    ty: u32,
    index: u32,
) -> Result<(), Fail> {
    assert!(rt; builder.export(name, ty)? == index);
    Ok(())
}

// ---- what is appended: each value is made where it is used up, which keeps the proofs of what calls these short

fn put_nullary(alloc: Global, component: &mut ComponentType) -> Result<(), Error> {
    component.function(&nullary(alloc))
}

fn import(
    component: &mut ComponentType,
    name: &'static str,
    shown: ComponentTypeRef,
) -> Result<(), Error> {
    component.import(&plain(name), shown)
}

fn export(
    component: &mut ComponentType,
    name: &'static str,
    shown: ComponentTypeRef,
) -> Result<(), Error> {
    component.export(&plain(name), shown)
}

fn show(
    instance: &mut InstanceType,
    name: &'static str,
    shown: ComponentTypeRef,
) -> Result<(), Error> {
    instance.export(&plain(name), shown)
}

// ---- a world in its wrapper

// A world that imports the function `host` and exports the function `guest`.
fn world(alloc: Global) -> Result<ComponentType, Error> {
    let mut world = ComponentType::new(alloc);
    put_nullary(alloc, &mut world)?;
    import(&mut world, "host", ComponentTypeRef::Func(0))?;
    export(&mut world, "guest", ComponentTypeRef::Func(0))?;
    Ok(world)
}

fn put_world(alloc: Global, wrapper: &mut ComponentType) -> Result<(), Error> {
    wrapper.component(&world(alloc)?)
}

fn wrapper(alloc: Global) -> Result<ComponentType, Error> {
    let mut wrapper = ComponentType::new(alloc);
    put_world(alloc, &mut wrapper)?;
    export(&mut wrapper, "a:b/foo", ComponentTypeRef::Component(0))?;
    Ok(wrapper)
}

// The type takes index 0, and its export index 1.
#[test]
fn a_world(rt: HostRuntime) -> Result<(), Fail> {
    static BYTES: [u8; 63] = [
        0x00, 0x61, 0x73, 0x6d, 0x0d, 0x00, 0x01, 0x00, 0x07, 0x2a, 0x01, 0x41, 0x02, 0x01, 0x41,
        0x03, 0x01, 0x40, 0x00, 0x01, 0x00, 0x03, 0x00, 0x04, 0x68, 0x6f, 0x73, 0x74, 0x01, 0x00,
        0x04, 0x00, 0x05, 0x67, 0x75, 0x65, 0x73, 0x74, 0x01, 0x00, 0x04, 0x00, 0x07, 0x61, 0x3a,
        0x62, 0x2f, 0x66, 0x6f, 0x6f, 0x04, 0x00, 0x0b, 0x09, 0x01, 0x00, 0x03, 0x66, 0x6f, 0x6f,
        0x03, 0x00, 0x00,
    ];
    let mut builder = ComponentBuilder::new(rt.alloc());
    put_type(&rt, &mut builder, &wrapper(rt.alloc())?, 0)?;
    put_export(&rt, &mut builder, "foo", 0, 1)?;
    assert_bytes(&rt, builder, &BYTES)
}

// ---- sections

fn put_neighbours(
    rt: &impl Abort,
    alloc: Global,
    builder: &mut ComponentBuilder,
) -> Result<(), Fail> {
    put_type(rt, builder, &ComponentType::new(alloc), 0)?;
    put_type(rt, builder, &ComponentType::new(alloc), 1)?;
    put_export(rt, builder, "a", 0, 2)?;
    put_export(rt, builder, "b", 1, 3)?;
    builder.custom_section("n", &[0x04, 0x00])?;
    put_export(rt, builder, "c", 1, 4)
}

// Two types share a section, and so do two exports. A custom section ends the section before it.
#[test]
fn neighbours(rt: HostRuntime) -> Result<(), Fail> {
    static BYTES: [u8; 45] = [
        0x00, 0x61, 0x73, 0x6d, 0x0d, 0x00, 0x01, 0x00, 0x07, 0x05, 0x02, 0x41, 0x00, 0x41, 0x00,
        0x0b, 0x0d, 0x02, 0x00, 0x01, 0x61, 0x03, 0x00, 0x00, 0x00, 0x01, 0x62, 0x03, 0x01, 0x00,
        0x00, 0x04, 0x01, 0x6e, 0x04, 0x00, 0x0b, 0x07, 0x01, 0x00, 0x01, 0x63, 0x03, 0x01, 0x00,
    ];
    let mut builder = ComponentBuilder::new(rt.alloc());
    put_neighbours(&rt, rt.alloc(), &mut builder)?;
    assert_bytes(&rt, builder, &BYTES)
}

// ---- each declaration

// A list, an alias of a type around, the name `t` of it, and a function.
fn put_all(alloc: Global, instance: &mut InstanceType) -> Result<(), Error> {
    instance.defined(&LIST_OF_U8)?;
    instance.alias(&outer(64))?;
    show(instance, "t", ComponentTypeRef::TypeEq(1))?;
    put_awaited(alloc, instance)?;
    show(instance, "f", ComponentTypeRef::Func(3))
}

fn put_awaited(alloc: Global, instance: &mut InstanceType) -> Result<(), Error> {
    instance.function(&awaited(alloc, ComponentValType::Type_(2))?)
}

fn instance(alloc: Global) -> Result<InstanceType, Error> {
    let mut instance = InstanceType::new(alloc);
    put_all(alloc, &mut instance)?;
    Ok(instance)
}

// An instance that is imported, the type that it shows, a definition over it, a resource, and an import with each attribute.
fn declare(alloc: Global, component: &mut ComponentType) -> Result<(), Error> {
    put_instance(alloc, component)?;
    import(component, "i", ComponentTypeRef::Instance(0))?;
    component.alias(&shown(0))?;
    component.defined(&ComponentDefinedType::Map(U8, ComponentValType::Type_(1)))?;
    import(component, "r", ComponentTypeRef::SubResource)?;
    import_attributed(component)
}

fn put_instance(alloc: Global, component: &mut ComponentType) -> Result<(), Error> {
    let instance = instance(alloc)?;
    component.instance(&instance)
}

fn import_attributed(component: &mut ComponentType) -> Result<(), Error> {
    component.import(&attributed(), ComponentTypeRef::Instance(0))
}

fn declared(alloc: Global) -> Result<ComponentType, Error> {
    let mut component = ComponentType::new(alloc);
    declare(alloc, &mut component)?;
    Ok(component)
}

// Types, aliases, and imports and exports of types take type indexes.
#[test]
fn declarations(rt: HostRuntime) -> Result<(), Fail> {
    static BYTES: [u8; 90] = [
        0x00, 0x61, 0x73, 0x6d, 0x0d, 0x00, 0x01, 0x00, 0x07, 0x50, 0x01, 0x41, 0x06, 0x01, 0x42,
        0x05, 0x01, 0x70, 0x7d, 0x02, 0x03, 0x02, 0x01, 0x40, 0x04, 0x00, 0x01, 0x74, 0x03, 0x00,
        0x01, 0x01, 0x43, 0x01, 0x01, 0x78, 0x02, 0x00, 0x02, 0x04, 0x00, 0x01, 0x66, 0x01, 0x03,
        0x03, 0x00, 0x01, 0x69, 0x05, 0x00, 0x02, 0x03, 0x00, 0x00, 0x01, 0x74, 0x01, 0x63, 0x7d,
        0x01, 0x03, 0x00, 0x01, 0x72, 0x03, 0x01, 0x03, 0x02, 0x01, 0x61, 0x03, 0x00, 0x07, 0x6e,
        0x3a, 0x70, 0x2f, 0x69, 0x40, 0x31, 0x01, 0x02, 0x2e, 0x32, 0x02, 0x01, 0x78, 0x05, 0x00,
    ];
    let alloc = rt.alloc();
    assert!(rt; instance(alloc)?.type_count() == 4);
    let component = declared(alloc)?;
    assert!(rt; component.type_count() == 4);
    let mut builder = ComponentBuilder::new(alloc);
    put_type(&rt, &mut builder, &component, 0)?;
    assert_bytes(&rt, builder, &BYTES)
}
