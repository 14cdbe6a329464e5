//! The example that the README begins with.

use std::alloc::Global;
use std::test::Fail;
use wit_component::*;

/// The text of the package that the bytes of a component mean.
fn text_of(alloc: Global, bytes: &[u8]) -> Result<String, Error> {
    let (resolve, id) = decode(alloc, bytes)?;
    print_to_string(alloc, &resolve, id, &[])
}

/// The function `go`.
fn go(alloc: Global) -> Result<Function, Error> {
    let n = Param {
        name: String::from_str(alloc, "n")?,
        ty: Type::U64,
    };
    Ok(Function {
        name: String::from_str(alloc, "go")?,
        kind: FunctionKind::AsyncFreestanding,
        params: vec![in alloc; n]?,
        result: Some(Type::String),
        docs: Docs { contents: None },
        stability: Stability::Unknown,
        external_id: None,
    })
}

/// The world `foo`, which exports it.
fn foo(alloc: Global) -> Result<World, Error> {
    let key = WorldKey::Name(String::from_str(alloc, "go")?);
    let mut exports = Map::new(alloc);
    exports.insert(key, WorldItem::Function(go(alloc)?))?;
    Ok(World {
        name: String::from_str(alloc, "foo")?,
        imports: Map::new(alloc),
        exports,
        docs: Docs { contents: None },
        stability: Stability::Unknown,
        package: Some(PackageId(0)),
    })
}

/// The name `a:b`.
fn name(alloc: Global) -> Result<PackageName, Error> {
    Ok(PackageName {
        namespace: String::from_str(alloc, "a")?,
        name: String::from_str(alloc, "b")?,
        version: None,
    })
}

/// The package of that name, with that world.
fn package(alloc: Global) -> Result<Package, Error> {
    let mut worlds = Map::new(alloc);
    worlds.insert(String::from_str(alloc, "foo")?, WorldId(0))?;
    Ok(Package {
        name: name(alloc)?,
        docs: Docs { contents: None },
        interfaces: Map::new(alloc),
        worlds,
    })
}

#[test]
fn checked_encoded_decoded_and_printed(rt: HostRuntime) -> Result<(), Fail> {
    let alloc = rt.alloc();
    let resolve = Resolve {
        packages: vec![in alloc; package(alloc)?]?,
        interfaces: Vec::new(alloc),
        worlds: vec![in alloc; foo(alloc)?]?,
        types: Vec::new(alloc),
    };
    assert!(rt; resolve.packages.len() > 0);
    resolve.check(alloc)?;

    let bytes = encode(alloc, &resolve, PackageId(0), false)?;
    assert_eq!(rt; bytes.len(), 54);
    assert_eq!(rt;
        text_of(alloc, &bytes)?.as_str(),
        "package a:b;\n\nworld foo {\n  export go: async func(n: u64) -> string;\n}\n"
    );
    Ok(())
}
