//! The sections of a module that carry worlds, one by one or all together.

ghost use Rattle.std.specs.Prelude.{◌≡◌, ◌<◌, ◌^◌, ◌++◌, [], length, IfErr, IfOk, OnOk};
ghost use Rattle.witc_alike.specs.Carried.{HasNumber, ListsData, RefusesSections, RefusesWalk, counted};

use std::alloc::{AllocError, Global};
use wit_component::Error;
use wit_metadata::{carried_in, sections_of};

/// The data of the section of this number, from 0, among those of a core module that carry worlds; or none where there are fewer. What stands behind that
/// section isn't looked at.
pub fn section_data(alloc: Global, bytes: &[u8], number: usize) -> Result<Option<Vec<u8>>, Error>
    ensures data { IfOk result (HasNumber bytes.now number) }
    ensures refused { IfErr result (RefusesWalk bytes.now number) }
{
    let mut rest = sections_of(bytes)?;
    let mut left = number;
    while !rest.is_empty() {
        let offset = bytes.len() - rest.len();
        let (carried, behind) = carried_in(rest, offset)?;
        if let Some(data) = carried {
            if left == 0 {
                return Ok(Some(Vec::from_slice(alloc, data)?));
            }
            left = left - 1;
        }
        rest = behind;
    }
    Ok(None)
}

/// The data of all sections of a core module that carry worlds, in order, each behind its length in four bytes, the lowest first. They are what `section_data`
/// returns for 0, 1, 2 and so on. The module is read once.
pub fn sections_data(alloc: Global, bytes: &[u8]) -> Result<Vec<u8>, Error>
    ensures data { IfOk result (λ text. ListsData bytes.now [] text.items) }
    ensures refused { IfErr result (RefusesSections bytes.now) }
{
    let mut text = Vec::new(alloc);
    let mut rest = sections_of(bytes)?;
    while !rest.is_empty() {
        let offset = bytes.len() - rest.len();
        let (carried, behind) = carried_in(rest, offset)?;
        if let Some(found) = carried {
            put_data(&mut text, found)?;
        }
        rest = behind;
    }
    Ok(text)
}

/// Appends data behind its length in four bytes.
fn put_data(text: &mut Vec<u8>, found: &[u8]) -> Result<(), AllocError>
    requires { length found.now < 2 ^ 32 }
    ensures { OnOk result (text.new.items ≡ text.old.items ++ counted found.now) }
{
    text.extend_from_slice(&(found.len() as u32).to_le_bytes())?;
    text.extend_from_slice(found)
}
