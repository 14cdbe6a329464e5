//! The package that `witc demo` shows: `a:b` with the world `foo`, which imports `host` and exports `guest`, two functions
//! without parameters and result.

ghost use Rattle.std.specs.Prelude.{IfOk};
ghost use Rattle.wit_model.specs.Valid.{IsValid};
ghost use Rattle.witc_run.specs.{Demo.HoldsDemo, Demo.IsFoo, Demo.IsOneFunction, DemoShown.IsDemoDigits, DemoShown.IsDemoText};

use crate::hex::hex_lines;
use crate::refusal::Refusal;
use std::alloc::Global;
use wit_component::{
    Check, Docs, Error, Function, FunctionKind, Map, Package, PackageId, PackageName, Resolve,
    Stability, World, WorldId, WorldItem, WorldKey, encode,
};
use witc_texts::text_of_package;

/// The package's number in `package`.
const PACKAGE: PackageId = PackageId(0);

/// The package as text.
pub fn demo_text(alloc: Global) -> Result<Vec<u8>, Refusal>
    ensures { IfOk result (λ text. IsDemoText text.items) }
{
    let resolve = checked_package(alloc)?;
    Ok(text_of_package(alloc, &resolve, PACKAGE, &[])?)
}

/// The package's bytes in hexadecimal digits.
pub fn demo_hex(alloc: Global) -> Result<Vec<u8>, Refusal>
    ensures { IfOk result (λ text. IsDemoDigits text.items) }
{
    let resolve = checked_package(alloc)?;
    let bytes = encode(alloc, &resolve, PACKAGE, false)?;
    Ok(hex_lines(alloc, &bytes)?)
}

/// A `Resolve` of the one package, which is valid.
fn checked_package(alloc: Global) -> Result<Resolve, Refusal>
    ensures holds { IfOk result HoldsDemo }
    ensures valid { IfOk result IsValid }
{
    let resolve = package(alloc)?;
    resolve.check(alloc)?;
    Ok(resolve)
}

/// A `Resolve` of the one package.
fn package(alloc: Global) -> Result<Resolve, Error>
    ensures { IfOk result HoldsDemo }
{
    let mut worlds = Map::new(alloc);
    worlds.insert(String::from_str(alloc, "foo")?, WorldId(0))?;
    let name = PackageName {
        namespace: String::from_str(alloc, "a")?,
        name: String::from_str(alloc, "b")?,
        version: None,
    };
    let package = Package {
        name,
        docs: Docs { contents: None },
        interfaces: Map::new(alloc),
        worlds,
    };
    Ok(Resolve {
        packages: vec![in alloc; package]?,
        interfaces: Vec::new(alloc),
        worlds: vec![in alloc; world(alloc)?]?,
        types: Vec::new(alloc),
    })
}

fn world(alloc: Global) -> Result<World, Error>
    ensures { IfOk result IsFoo }
{
    Ok(World {
        name: String::from_str(alloc, "foo")?,
        imports: one_function(alloc, "host")?,
        exports: one_function(alloc, "guest")?,
        docs: Docs { contents: None },
        stability: Stability::Unknown,
        package: Some(PACKAGE),
    })
}

/// Items of a world: the function of this name, without parameters and result.
fn one_function(alloc: Global, name: &str) -> Result<Map<WorldKey, WorldItem>, Error>
    ensures { IfOk result (λ items. IsOneFunction name.now items.entries) }
{
    let key = WorldKey::Name(String::from_str(alloc, name)?);
    let function = Function {
        name: String::from_str(alloc, name)?,
        kind: FunctionKind::Freestanding,
        params: Vec::new(alloc),
        result: None,
        docs: Docs { contents: None },
        stability: Stability::Unknown,
        external_id: None,
    };
    let mut items = Map::new(alloc);
    items.insert(key, WorldItem::Function(function))?;
    Ok(items)
}
