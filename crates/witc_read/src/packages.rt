//! The packages that texts declare, in binary form.

ghost use Rattle.std.specs.Prelude.{◌≡◌, ◌<◌, ℕ, false, true, length, map, IfErr, IfNone, IfOk, IfSome, MatchOption};
ghost use Rattle.std.specs.{List.list_all, Str.is_utf8};
ghost use Rattle.wit_model.specs.Valid.{IsValid};
ghost use Rattle.witc_read.specs.Packages.{IsMainOf, IsNoMainOf, IsOther, IsPackageOf, IsReadOf, IsReadPackage, IsTroubleOf, bytes_of, is_package, trouble_of_error, trouble_of_fault};
ghost use Rattle.witc_read.specs.declared.packages.Trouble.TheVariants as troubles;

use std::alloc::{AllocError, AllocFailed, Global};
use text_names::Fault;
use wit_encode::encode;
use wit_model::{Error, PackageId, Resolve};
use wit_text::read_texts;

/// A text, with the name by which messages call it.
#[derive(Clone, Copy)]
pub struct NamedText<'b> {
    pub name: &'b str,
    pub bytes: &'b [u8],
}

/// A package that texts begin with: what they are read as, its number in that, and the package in binary form.
#[derive(Drop)]
pub struct ReadPackage {
    pub resolve: Resolve,
    pub main: PackageId,
    pub bytes: Vec<u8>,
}

/// Why no package is made of texts.
#[derive(Drop)]
pub enum Trouble {
    Memory,
    /// The text of this number isn't UTF-8.
    NoText(usize),
    /// The texts are refused, mostly at a place of one.
    Text(Fault),
    /// There is no text.
    Nothing,
    /// The text of this number is an own one, and begins with another package than the first.
    Apart(usize),
    /// The package isn't encoded.
    Bytes(Error),
}

impl From<AllocError> for Trouble {
    ghost from_gives = { λ _ t. t ≡ troubles.Memory };

    fn from(_error: AllocError) -> Trouble {
        Trouble::Memory
    }
}

impl<T: Drop> From<AllocFailed<T>> for Trouble {
    ghost from_gives = { λ _ t. t ≡ troubles.Memory };

    fn from(_error: AllocFailed<T>) -> Trouble {
        Trouble::Memory
    }
}

/// The text of bytes, where they are UTF-8.
pub(crate) fn text_of(bytes: &[u8]) -> Option<&str>
    ensures { MatchOption result (is_utf8 bytes.now ≡ false) (λ text. (text.now ≡ bytes.now) × (is_utf8 bytes.now ≡ true)) }
{
    match str::from_utf8(bytes) {
        Ok(text) => Some(text),
        Err(_) => None,
    }
}

/// The texts, which have to be UTF-8.
fn texts_of<'b>(alloc: Global, texts: &[NamedText<'b>]) -> Result<Vec<&'b str>, Trouble>
    ensures ok { IfOk result (λ found. map (λ t. t.now) found.items ≡ bytes_of texts.now) }
    ensures err { (own : ℕ) → IfErr result (IsTroubleOf (bytes_of texts.now) own) }
{
    let mut found = Vec::with_capacity(alloc, texts.len())?;
    for (number, text) in texts.iter().enumerate() {
        match text_of(text.bytes) {
            Some(text) => found.push(text)?,
            None => return Err(Trouble::NoText(number)),
        }
    }
    Ok(found)
}

/// The number of the first of these packages that isn't this one.
fn other_among(mains: &[PackageId], main: PackageId) -> Option<usize>
    ensures none { IfNone result (list_all (is_package main) mains.now ≡ true) }
    ensures some { IfSome result (IsOther main mains.now) }
{
    for (number, other) in mains.iter().enumerate() {
        if other.0 != main.0 {
            return Some(number);
        }
    }
    None
}

/// The package with which all of so many texts begin.
fn main_of(mains: &[PackageId], own: usize) -> Result<PackageId, Trouble>
    ensures ok { IfOk result (IsMainOf mains.now own) }
    ensures err { IfErr result (IsNoMainOf mains.now own) }
{
    match mains.first() {
        Some(main) => match other_among(mains.split_at(own.min(mains.len())).0, *main) {
            Some(number) => Err(Trouble::Apart(number)),
            None => Ok(*main),
        },
        None => Err(Trouble::Nothing),
    }
}

/// A fault of texts, as what stands in the way of their package.
fn of_fault(fault: Fault) -> Trouble
    ensures { result ≡ trouble_of_fault fault }
{
    match fault {
        Fault::Memory => Trouble::Memory,
        other => Trouble::Text(other),
    }
}

/// The same of a package that isn't encoded.
fn of_encoding(error: Error) -> Trouble
    ensures { result ≡ trouble_of_error error }
{
    match error {
        Error::Memory => Trouble::Memory,
        other => Trouble::Bytes(other),
    }
}

/// The packages of texts, and the one with which so many of them begin.
fn read(alloc: Global, texts: &[&str], own: usize) -> Result<(Resolve, PackageId), Trouble>
    ensures read { IfOk result (λ r. IsReadOf (map (λ t. t.now) texts.now) own r.0 r.1) }
    ensures valid { IfOk result (λ r. IsValid r.0) }
    ensures in_range { IfOk result (λ r. r.1.0 < length r.0.packages.items) }
    ensures err { IfErr result (IsTroubleOf (map (λ t. t.now) texts.now) own) }
{
    match read_texts(alloc, texts, own) {
        Ok((resolve, mains)) => match main_of(&mains, own) {
            Ok(main) => Ok((resolve, main)),
            Err(trouble) => Err(trouble),
        },
        Err(fault) => Err(of_fault(fault)),
    }
}

/// The package with which so many of the texts begin.
fn encoded(alloc: Global, texts: &[&str], own: usize) -> Result<ReadPackage, Trouble>
    ensures ok { IfOk result (IsReadPackage (map (λ t. t.now) texts.now) own) }
    ensures valid { IfOk result (λ r. IsValid r.resolve) }
    ensures in_range { IfOk result (λ r. r.main.0 < length r.resolve.packages.items) }
    ensures err { IfErr result (IsTroubleOf (map (λ t. t.now) texts.now) own) }
{
    match read(alloc, texts, own) {
        Ok((resolve, main)) => match encode(alloc, &resolve, main, false) {
            Ok(bytes) => Ok(ReadPackage {
                resolve,
                main,
                bytes,
            }),
            Err(error) => Err(of_encoding(error)),
        },
        Err(trouble) => Err(trouble),
    }
}

/// The package with which so many of the texts begin, the first ones: as it is read, and in binary form. The `Resolve` has the documentation and the gates
/// of the texts, which the bytes have no place for.
///
/// Refused as `texts_package` refuses.
pub fn read_package(
    alloc: Global,
    texts: &[NamedText<'_>],
    own: usize,
) -> Result<ReadPackage, Trouble>
    ensures ok { IfOk result (IsReadPackage (bytes_of texts.now) own) }
    ensures valid { IfOk result (λ r. IsValid r.resolve) }
    ensures in_range { IfOk result (λ r. r.main.0 < length r.resolve.packages.items) }
    ensures err { IfErr result (IsTroubleOf (bytes_of texts.now) own) }
{
    match texts_of(alloc, texts) {
        Ok(found) => encoded(alloc, &found, own),
        Err(trouble) => Err(trouble),
    }
}

/// The package with which so many of the texts begin, the first ones, in binary form.
///
/// All packages that are used stand among the texts, in any order. Errors: `Memory` where a growth is refused, and `Nothing` where there is no text.
/// `NoText` has the first text that isn't UTF-8. `Text` is what `read_texts` refuses the texts for, and `Bytes` what `encode` refuses the package for.
/// `Apart` has the first own text that begins with another package than the first one.
pub fn texts_package(alloc: Global, texts: &[NamedText<'_>], own: usize) -> Result<Vec<u8>, Trouble>
    ensures ok { IfOk result (λ made. IsPackageOf (bytes_of texts.now) own made.items) }
    ensures err { IfErr result (IsTroubleOf (bytes_of texts.now) own) }
{
    match read_package(alloc, texts, own) {
        Ok(read) => Ok(read.bytes),
        Err(trouble) => Err(trouble),
    }
}
