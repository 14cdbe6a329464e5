//! The packages of places.

ghost use Rattle.std.specs.{List.AllZip, Prelude.map, Prelude.IfOk};
ghost use Rattle.read_homes.specs.Homes.{given_home, given_text, ArePackages, ComeInOrder, Grows, HaveReasons, IsHomeOf, IsReason, KeepsHomes, StandInTables};

use crate::packages::Packages;
use std::alloc::{AllocError, Global};

/// The package of a place and the name of its interface, if it has a path.
fn home_at<'a>(
    alloc: Global,
    packages: &mut Packages<'a>,
    path: Option<&'a str>,
) -> Result<Option<(usize, &'a str)>, AllocError>
    ensures home { IfOk result (λ x. IsHomeOf packages.new (given_text path.entry) (given_home x)) }
    ensures grows { Grows packages.old packages.new }
    ensures packages { ArePackages packages.new }
    ensures reason { IfOk result (λ x. IsReason packages.old packages.new (given_home x)) }
    ensures homes { KeepsHomes packages.old packages.new }
{
    match path {
        Some(path) => packages.add(alloc, path),
        None => {
            let _count = packages.count();
            Ok(None)
        }
    }
}

/// Of each place with a path, the package by the number that it has from now on, and the name of its interface. It has none where the text is
/// no path. New packages are numbered in the order of their first places.
///
/// Takes time and memory linear in the paths. Refuses for want of memory alone.
pub fn homes_of<'a>(
    alloc: Global,
    packages: &mut Packages<'a>,
    paths: &[Option<&'a str>],
) -> Result<Vec<Option<(usize, &'a str)>>, AllocError>
    ensures homes { IfOk result (λ homes. AllZip (IsHomeOf packages.new) (map given_text paths.now) (map given_home homes.items)) }
    ensures grows { Grows packages.old packages.new }
    ensures packages { ArePackages packages.new }
    ensures reasons { IfOk result (λ homes. HaveReasons packages.old packages.new (map given_home homes.items)) }
    ensures order { IfOk result (λ homes. ComeInOrder packages.old (map given_home homes.items)) }
    ensures stand { IfOk result (λ homes. StandInTables (map given_text paths.now) packages.new (map given_home homes.items)) }
{
    let _count = packages.count();
    let mut homes = Vec::new(alloc);
    for path in paths {
        let home = home_at(alloc, packages, *path)?;
        homes.push(home)?;
    }
    Ok(homes)
}
