//! Interfaces encoded, one after the other in one component type, and the component types of an interface and of a package.

ghost use Rattle.std.specs.Prelude.{◌≡◌, ◌<◌, is_some, length, true};
ghost use Rattle.wit_component.specs.{Lookup.interface_path, Valid.IsValid, InterfaceEncoders.CanEncodeInterfaces, InterfaceEncoders.interface_encoder_view};

use std::alloc::Global;
use std::process::Abort;
use std::test::Fail;
use wit_component::{
    ComponentBuilder, ComponentType, Error, InterfaceEncoder, InterfaceId, PackageId, Resolve,
    encode_component,
};
use wit_encode::interface_type;
use wit_samples::{bytes, lines, valid};

fn assert_bytes(rt: &impl Abort, builder: ComponentBuilder, expected: &[u8]) -> Result<(), Fail> {
    let bytes = builder.finish()?;
    assert_eq!(rt; bytes.as_slice(), expected);
    Ok(())
}

// A component whose one type this is.
fn assert_written(
    rt: &impl Abort,
    alloc: Global,
    outer: &ComponentType,
    expected: &[u8],
) -> Result<(), Fail> {
    let mut builder = ComponentBuilder::new(alloc);
    builder.type_component(outer)?;
    assert_bytes(rt, builder, expected)
}

// ---- instance types

// Interface 0 has two functions over equal unnamed lists of their own, interface 1 has `type t = u32`.
const TWO_INTERFACES: &str =
    r#"1 "a" "b" - - 2 "i" 0 "j" 1 1 "w" 0 2 "i" - - 0 0 2 "f" "f" f 1 "x" 0 0 - - - "g" "g" f 1 "x" 1 1 - - - "j" - - 0 1 "t" 2 0 1 "w" - - 0 0 0 3 - - - - - list u8 - - - - - list u8 "t" i 1 - - - alias u32"#;

// The slot of one interface more, behind the types of those that it uses.
fn slot_of<'a>(encoder: &mut InterfaceEncoder<'a>, id: InterfaceId) -> Result<u32, Error>
    requires can { CanEncodeInterfaces (interface_encoder_view encoder.old) }
    requires in_range { id.0 < length (interface_encoder_view encoder.old).scope.packages.interfaces.items }
    ensures can { CanEncodeInterfaces (interface_encoder_view encoder.new) }
    ensures packages { (interface_encoder_view encoder.new).scope.packages ≡ (interface_encoder_view encoder.old).scope.packages }
{
    encoder.import_used(id)?;
    encoder.encode_instance(id)
}

// Two equal lists are one definition, but types are told apart by number, so there are two types of functions. Each instance type takes a slot.
#[test]
fn one_after_the_other(rt: HostRuntime) -> Result<(), Fail> {
    static BYTES: [u8; 59] = [
        0x00, 0x61, 0x73, 0x6d, 0x0d, 0x00, 0x01, 0x00, 0x07, 0x31, 0x01, 0x41, 0x02, 0x01, 0x42,
        0x05, 0x01, 0x70, 0x7d, 0x01, 0x40, 0x01, 0x01, 0x78, 0x00, 0x00, 0x00, 0x04, 0x00, 0x01,
        0x66, 0x01, 0x01, 0x01, 0x40, 0x01, 0x01, 0x78, 0x00, 0x00, 0x00, 0x04, 0x00, 0x01, 0x67,
        0x01, 0x02, 0x01, 0x42, 0x02, 0x01, 0x79, 0x04, 0x00, 0x01, 0x74, 0x03, 0x00, 0x00,
    ];
    let alloc = rt.alloc();
    let resolve = valid(alloc, TWO_INTERFACES)?;
    let mut encoder = InterfaceEncoder::new(alloc, &resolve);
    assert!(rt; resolve.interfaces.len() > 1);
    assert!(rt; slot_of(&mut encoder, InterfaceId(0))? == 0);
    assert!(rt; slot_of(&mut encoder, InterfaceId(1))? == 1);
    let outer = encoder.finish();
    assert_written(&rt, alloc, &outer, &BYTES)
}

// ---- component types

// `i` has `type t = u32`, and `j` uses it.
const USED: &str =
    r#"1 "a" "b" - - 2 "i" 0 "j" 1 1 "w" 0 2 "i" - - 0 1 "t" 0 0 "j" - - 0 1 "t" 1 0 1 "w" - - 0 0 0 2 "t" i 0 - - - alias u32 "t" i 1 - - - alias 0"#;

// The same in version 1.2.3.
const USED_IN_VERSION: &str =
    r#"1 "a" "b" "1.2.3" - 2 "i" 0 "j" 1 1 "w" 0 2 "i" - - 0 1 "t" 0 0 "j" - - 0 1 "t" 1 0 1 "w" - - 0 0 0 2 "t" i 0 - - - alias u32 "t" i 1 - - - alias 0"#;

// The types of the interface that is used are imported once, and the second call finds them.
#[test]
fn behind_what_it_uses(rt: HostRuntime) -> Result<(), Fail> {
    static BYTES: [u8; 56] = [
        0x00, 0x61, 0x73, 0x6d, 0x0d, 0x00, 0x01, 0x00, 0x07, 0x2e, 0x01, 0x41, 0x04, 0x01, 0x42,
        0x02, 0x01, 0x79, 0x04, 0x00, 0x01, 0x74, 0x03, 0x00, 0x00, 0x03, 0x00, 0x05, 0x61, 0x3a,
        0x62, 0x2f, 0x69, 0x05, 0x00, 0x02, 0x03, 0x00, 0x00, 0x01, 0x74, 0x01, 0x42, 0x02, 0x02,
        0x03, 0x02, 0x01, 0x01, 0x04, 0x00, 0x01, 0x74, 0x03, 0x00, 0x00,
    ];
    let alloc = rt.alloc();
    let resolve = valid(alloc, USED)?;
    assert!(rt; resolve.interfaces.len() > 1);
    let mut encoder = InterfaceEncoder::new(alloc, &resolve);
    encoder.import_used(InterfaceId(1))?;
    assert!(rt; slot_of(&mut encoder, InterfaceId(1))? == 2);
    let outer = encoder.finish();
    assert_written(&rt, alloc, &outer, &BYTES)
}

// `i` has `type t = u32`, `j` uses it, and `k` uses that of `j`.
const USED_BY_USED: &str =
    r#"1 "a" "b" - - 3 "i" 0 "j" 1 "k" 2 1 "w" 0 3 "i" - - 0 1 "t" 0 0 "j" - - 0 1 "t" 1 0 "k" - - 0 1 "t" 2 0 1 "w" - - 0 0 0 3 "t" i 0 - - - alias u32 "t" i 1 - - - alias 0 "t" i 2 - - - alias 1"#;

// Both are imported, `i` in front since `j` uses it. The alias for `k` is of the second instance.
#[test]
fn behind_two_interfaces(rt: HostRuntime) -> Result<(), Fail> {
    static BYTES: [u8; 87] = [
        0x00, 0x61, 0x73, 0x6d, 0x0d, 0x00, 0x01, 0x00, 0x07, 0x4d, 0x01, 0x41, 0x07, 0x01, 0x42,
        0x02, 0x01, 0x79, 0x04, 0x00, 0x01, 0x74, 0x03, 0x00, 0x00, 0x03, 0x00, 0x05, 0x61, 0x3a,
        0x62, 0x2f, 0x69, 0x05, 0x00, 0x02, 0x03, 0x00, 0x00, 0x01, 0x74, 0x01, 0x42, 0x02, 0x02,
        0x03, 0x02, 0x01, 0x01, 0x04, 0x00, 0x01, 0x74, 0x03, 0x00, 0x00, 0x03, 0x00, 0x05, 0x61,
        0x3a, 0x62, 0x2f, 0x6a, 0x05, 0x02, 0x02, 0x03, 0x00, 0x01, 0x01, 0x74, 0x01, 0x42, 0x02,
        0x02, 0x03, 0x02, 0x01, 0x03, 0x04, 0x00, 0x01, 0x74, 0x03, 0x00, 0x00,
    ];
    let alloc = rt.alloc();
    let resolve = valid(alloc, USED_BY_USED)?;
    assert!(rt; resolve.interfaces.len() > 2);
    let mut encoder = InterfaceEncoder::new(alloc, &resolve);
    assert!(rt; slot_of(&mut encoder, InterfaceId(2))? == 4);
    let outer = encoder.finish();
    assert_written(&rt, alloc, &outer, &BYTES)
}

// Imports an interface behind those that it uses.
fn import_behind<'a>(encoder: &mut InterfaceEncoder<'a>, id: InterfaceId) -> Result<(), Error>
    requires can { CanEncodeInterfaces (interface_encoder_view encoder.old) }
    requires named { is_some (interface_path (interface_encoder_view encoder.old).scope.packages id.0) ≡ true }
{
    encoder.import_used(id)?;
    encoder.import_interface(id)
}

// The imports of an interface and of those that it uses, by canonical paths.
fn imports_of(alloc: Global, resolve: &Resolve, id: InterfaceId) -> Result<ComponentType, Error>
    requires { IsValid resolve.now }
{
    let mut encoder = InterfaceEncoder::with_canonical_names(alloc, resolve);
    if let Some(_) = resolve.id_of(alloc, id)? {
        import_behind(&mut encoder, id)?;
    }
    Ok(encoder.finish())
}

// Each path has `1` as its version, and `.2.3` completes it.
#[test]
fn imported_by_canonical_paths(rt: HostRuntime) -> Result<(), Fail> {
    static BYTES: [u8; 84] = [
        0x00, 0x61, 0x73, 0x6d, 0x0d, 0x00, 0x01, 0x00, 0x07, 0x4a, 0x01, 0x41, 0x05, 0x01, 0x42,
        0x02, 0x01, 0x79, 0x04, 0x00, 0x01, 0x74, 0x03, 0x00, 0x00, 0x03, 0x02, 0x07, 0x61, 0x3a,
        0x62, 0x2f, 0x69, 0x40, 0x31, 0x01, 0x01, 0x04, 0x2e, 0x32, 0x2e, 0x33, 0x05, 0x00, 0x02,
        0x03, 0x00, 0x00, 0x01, 0x74, 0x01, 0x42, 0x02, 0x02, 0x03, 0x02, 0x01, 0x01, 0x04, 0x00,
        0x01, 0x74, 0x03, 0x00, 0x00, 0x03, 0x02, 0x07, 0x61, 0x3a, 0x62, 0x2f, 0x6a, 0x40, 0x31,
        0x01, 0x01, 0x04, 0x2e, 0x32, 0x2e, 0x33, 0x05, 0x02,
    ];
    let alloc = rt.alloc();
    let resolve = valid(alloc, USED_IN_VERSION)?;
    let outer = imports_of(alloc, &resolve, InterfaceId(1))?;
    assert_written(&rt, alloc, &outer, &BYTES)
}

// The component type of an interface, where it has a path.
fn type_of(alloc: Global, resolve: &Resolve, id: InterfaceId) -> Result<ComponentType, Error>
    requires { IsValid resolve.now }
{
    match resolve.id_of(alloc, id)? {
        Some(_) => interface_type(alloc, resolve, id, false),
        None => Ok(ComponentType::new(alloc)),
    }
}

// The types of the interface that is used are imported.
#[test]
fn an_interface_that_uses_another(rt: HostRuntime) -> Result<(), Fail> {
    static BYTES: [u8; 66] = [
        0x00, 0x61, 0x73, 0x6d, 0x0d, 0x00, 0x01, 0x00, 0x07, 0x38, 0x01, 0x41, 0x05, 0x01, 0x42,
        0x02, 0x01, 0x79, 0x04, 0x00, 0x01, 0x74, 0x03, 0x00, 0x00, 0x03, 0x00, 0x05, 0x61, 0x3a,
        0x62, 0x2f, 0x69, 0x05, 0x00, 0x02, 0x03, 0x00, 0x00, 0x01, 0x74, 0x01, 0x42, 0x02, 0x02,
        0x03, 0x02, 0x01, 0x01, 0x04, 0x00, 0x01, 0x74, 0x03, 0x00, 0x00, 0x04, 0x00, 0x05, 0x61,
        0x3a, 0x62, 0x2f, 0x6a, 0x05, 0x02,
    ];
    let alloc = rt.alloc();
    let resolve = valid(alloc, USED)?;
    assert!(rt; resolve.interfaces.len() > 1);
    let outer = type_of(alloc, &resolve, InterfaceId(1))?;
    assert_written(&rt, alloc, &outer, &BYTES)
}

// What spells a package, before it is spelled.
#[test]
fn a_package(rt: HostRuntime) -> Result<(), Fail> {
    let alloc = rt.alloc();
    let resolve = valid(alloc, lines::HOST_AND_GUEST)?;
    assert!(rt; resolve.packages.len() > 0);
    let builder = encode_component(alloc, &resolve, PackageId(0), false)?;
    assert_bytes(&rt, builder, bytes::HOST_AND_GUEST)
}
