//! Bindings that worlds are merged into, one line after the other.

ghost use Rattle.std.specs.Prelude.{IfOk};
ghost use Rattle.wit_component.specs.Bindings.{IsBindgen};

use crate::answer::Answer;
use crate::calls::{test_valid, test_world};
use crate::marks::Marks;
use indexmap::IndexSet;
use std::alloc::Global;
use wit_component::{Bindgen, Error, ModuleMetadata, Resolve, StringEncoding, WorldId, WorldKey};

// Bindings that were checked.
fn checked(alloc: Global, bindings: Bindgen) -> Result<Bindgen, Answer>
    ensures { IfOk result IsBindgen }
{
    test_valid(alloc, &bindings.resolve)?;
    test_world(&bindings.resolve, bindings.world)?;
    Ok(bindings)
}

/// The binding of a world, each function of which has this encoding.
pub fn binding(
    alloc: Global,
    resolve: Resolve,
    world: WorldId,
    encoding: StringEncoding,
) -> Result<Bindgen, Answer>
    ensures { IfOk result IsBindgen }
{
    test_world(&resolve, world)?;
    let metadata = ModuleMetadata::new(alloc, &resolve, world, encoding)?;
    checked(
        alloc,
        Bindgen {
            resolve,
            world,
            metadata,
        },
    )
}

// The keys as texts, with a space between two.
fn keys_as_text(
    alloc: Global,
    resolve: &Resolve,
    keys: &IndexSet<WorldKey>,
) -> Result<String, Error> {
    let mut text = String::new(alloc);
    for key in keys {
        if !text.is_empty() {
            text.push(' ')?;
        }
        text.push_str(resolve.name_world_key(alloc, key)?.as_str())?;
    }
    Ok(text)
}

/// The bindings with others merged into them, or as they were where that is refused, and the keys of the other's exports.
pub fn merge(
    alloc: Global,
    marks: Marks,
    own: Bindgen,
    other: Bindgen,
) -> Result<(Bindgen, Answer), Answer>
    requires { IsBindgen other }
{
    let mut own = checked(alloc, own)?;
    marks.begin(alloc)?;
    let merged = own.merge(alloc, other);
    marks.end(alloc)?;
    match merged {
        Ok(keys) => {
            let text = keys_as_text(alloc, &own.resolve, &keys)?;
            Ok((own, Answer::Text(text)))
        }
        Err(error) => Ok((own, Answer::Refused(error))),
    }
}
