//! The paths of places.

ghost use Rattle.std.specs.Prelude.{◌≡◌, map, IfOk};
ghost use Rattle.read_rules.specs.Tables.{given_text};

use read_follow::Places;
use std::alloc::{AllocError, Global};

/// The path of each place, if it has one. Takes time linear in the number of places, and as much memory as there are.
///
/// Refuses for want of memory alone, also where there are more than 2^32 places.
pub fn paths_of(alloc: Global, places: &Places) -> Result<Vec<Option<&str>>, AllocError>
    ensures { IfOk result (λ paths. map given_text paths.items ≡ places.entry.now) }
{
    let mut paths = Vec::new(alloc);
    for number in 0..places.len() {
        match u32::try_from(number) {
            Ok(place) => paths.push(places.path(place))?,
            Err(_) => return Err(AllocError),
        }
    }
    Ok(paths)
}
