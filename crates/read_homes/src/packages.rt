//! Packages by number.

ghost use Rattle.std.specs.Prelude.{◌≡◌, [], length, map, option_map, slice_get, IfOk, OnErr, OnOk, Some};
ghost use Rattle.comp_meaning.specs.Reads.{labelled_path};
ghost use Rattle.read_homes.specs.Homes.{given_home, identity_of, package_read, ArePackages, Grows, IsLabelled, IsRead, IsReadAs, Joins, KeepsHomes, Takes};

use crate::paths::read_path;
use indexmap::IndexSet;
use keyed_hash::KeyedHash;
use std::alloc::{AllocError, Global};
use std::marker::Model;

/// What names a package (WIT.md, "Package declaration"), as parts of its paths.
#[derive(Clone, Copy, PartialEq, Eq, Hash)]
pub struct PackageTexts<'a> {
    pub namespace: &'a str,
    pub name: &'a str,
    pub version: Option<&'a str>,
}

/// Packages, each once. Their numbers are the order in which they came.
#[derive(Drop)]
pub struct Packages<'a> {
    texts: IndexSet<PackageTexts<'a>, KeyedHash>,
}

impl<'a> Model for Packages<'a> {
    ghost use Rattle.std.specs.Prelude.{List, map};
    ghost use Rattle.wit_model.specs.Names.{PackageIdentity};
    ghost use Rattle.read_homes.specs.Homes.{identity_of, ArePackages};

    ghost Value = { List PackageIdentity };

    ghost view = { λ p. map identity_of p.texts.keys };

    ghost invariant = { λ p. ArePackages (map identity_of p.texts.keys) };
}

/// The number of the package among the others.
fn put<'a>(
    packages: &mut IndexSet<PackageTexts<'a>, KeyedHash>,
    texts: PackageTexts<'a>,
) -> Result<usize, AllocError>
    requires packages { ArePackages (map identity_of packages.old.keys) }
    requires read { IsRead (identity_of texts) }
    ensures packages { ArePackages (map identity_of packages.new.keys) }
    ensures found { IfOk result (λ n. slice_get (map identity_of packages.new.keys) n ≡ Some (identity_of texts.entry)) }
    ensures joins { OnOk result (Joins (map identity_of packages.old.keys) (identity_of texts.entry) (map identity_of packages.new.keys)) }
    ensures err { OnErr result (packages.new.keys ≡ packages.old.keys) }
{
    let (number, _is_new) = packages.insert_full(texts)?;
    let _count = packages.len();
    Ok(number)
}

impl<'a> Packages<'a> {
    /// No packages yet, in a table that hashes so. Takes no memory.
    pub fn new(alloc: Global, hash: KeyedHash) -> Packages<'a>
        ensures { result ≡ [] }
    {
        Packages {
            texts: IndexSet::with_hasher(alloc, hash),
        }
    }

    /// How many packages there are. Takes constant time.
    pub fn count(&self) -> usize
        ensures many { result ≡ length self.now }
        ensures packages { ArePackages self.now }
    {
        self.texts.len()
    }

    /// The number that the package has from now on: its own, if it has one, or the next.
    fn number_of(&mut self, texts: PackageTexts<'a>) -> Result<usize, AllocError>
        requires { IsRead (identity_of texts) }
        ensures found { IfOk result (λ n. slice_get self.new n ≡ Some (identity_of texts.entry)) }
        ensures joins { OnOk result (Joins self.old (identity_of texts.entry) self.new) }
        ensures err { OnErr result (self.new ≡ self.old) }
        ensures grows { Grows self.old self.new }
        ensures packages { ArePackages self.new }
        ensures homes { KeepsHomes self.old self.new }
    {
        put(&mut self.texts, texts)
    }

    /// The package of a path, by the number that it has from now on, and the name of the interface or the world; or none where the text is
    /// no path.
    ///
    /// Takes time and memory linear in the path. Refuses for want of memory alone.
    pub fn add(
        &mut self,
        alloc: Global,
        path: &'a str,
    ) -> Result<Option<(usize, &'a str)>, AllocError>
        ensures reads { IfOk result (λ x. IsReadAs self.new path.now (given_home x)) }
        ensures takes { OnOk result (Takes self.old (package_read path.now) self.new) }
        ensures err { OnErr result (self.new ≡ self.old) }
        ensures grows { Grows self.old self.new }
        ensures packages { ArePackages self.new }
        ensures homes { KeepsHomes self.old self.new }
    {
        let _count = self.count();
        match read_path(alloc, path) {
            Ok(Some((texts, name))) => match self.number_of(texts) {
                Ok(number) => Ok(Some((number, name))),
                Err(error) => Err(error),
            },
            Ok(None) => Ok(None),
            Err(error) => Err(error),
        }
    }

    /// The package of a path whose last name is the label, by the number that it has from now on; or none where the text is no such path.
    ///
    /// Takes time and memory linear in the path. Refuses for want of memory alone.
    pub fn add_labelled(
        &mut self,
        alloc: Global,
        label: &str,
        path: &'a str,
    ) -> Result<Option<usize>, AllocError>
        ensures reads { IfOk result (IsLabelled self.new label.now path.now) }
        ensures takes { OnOk result (Takes self.old (labelled_path label.now path.now) self.new) }
        ensures err { OnErr result (self.new ≡ self.old) }
        ensures grows { Grows self.old self.new }
        ensures packages { ArePackages self.new }
        ensures homes { KeepsHomes self.old self.new }
    {
        let _count = self.count();
        match read_path(alloc, path) {
            Ok(Some((texts, name))) => {
                if name == label {
                    match self.number_of(texts) {
                        Ok(number) => Ok(Some(number)),
                        Err(error) => Err(error),
                    }
                } else {
                    Ok(None)
                }
            }
            Ok(None) => Ok(None),
            Err(error) => Err(error),
        }
    }

    /// The namespace, the name and the version of a package, if there is one of this number. Takes constant time.
    pub fn texts(&self, number: usize) -> Option<PackageTexts<'a>>
        ensures { option_map identity_of result ≡ slice_get self.now number }
    {
        self.texts.get_index(number).copied()
    }
}
