//! What stands in the place of texts: their packages.

ghost use Rattle.std.specs.Prelude.{◌≡◌, ◌++◌, ℕ, List, length, false, true, None, IfNone, IfOk, IfSome, OnOk};
ghost use Rattle.std.specs.List.{list_any};
ghost use Rattle.witc_read.specs.Packages.{bytes_of, is_memory as is_memory_so};
ghost use Rattle.teasel_texts.specs.Made.{AreTaken, IsFileTaken, IsFolderTaken, IsMade, IsTaken, bytes_in, is_foreign as is_foreign_so};

use crate::input::{Input, Read};
use crate::refusals::{again, no_text, refusal_of};
use std::alloc::{AllocError, Global};
use teasel_files::{File, Folder, FolderText, Source};
use teasel_messages::{Refusal, foreign, is_text};
use witc_read::{NamedText, ReadPackage, Trouble, read_package};

/// Whether memory was wanting.
fn is_memory(trouble: &Trouble) -> bool
    ensures { result ≡ is_memory_so trouble.now }
{
    match trouble {
        Trouble::Memory => true,
        Trouble::NoText(_) => false,
        Trouble::Text(_) => false,
        Trouble::Nothing => false,
        Trouble::Apart(_) => false,
        Trouble::Bytes(_) => false,
    }
}

/// An input that isn't whole, in the place of texts of which no package is made.
fn without_package<'a>(alloc: Global, name: &'a str, refusal: Refusal) -> Input<'a>
    ensures { result.whole ≡ false }
{
    Input {
        name,
        bytes: Vec::new(alloc),
        whole: false,
        refusal: Some(refusal),
        read: None,
    }
}

/// The package with which so many of the texts begin, or an input that isn't whole where none is made.
fn made_of<'a>(
    alloc: Global,
    name: &'a str,
    texts: &[NamedText<'_>],
    own: usize,
) -> Result<Input<'a>, AllocError>
    ensures { IfOk result (IsMade (bytes_of texts.now) own) }
{
    match read_package(alloc, texts, own) {
        Ok(
            ReadPackage {
                resolve,
                main,
                bytes,
            },
        ) => Ok(Input {
            name,
            bytes,
            whole: true,
            refusal: None,
            read: Some(Read { resolve, main }),
        }),
        Err(trouble) => {
            if is_memory(&trouble) {
                Err(AllocError)
            } else {
                Ok(without_package(alloc, name, refusal_of(alloc, name, texts, &trouble)))
            }
        }
    }
}

/// A file as it is.
fn as_it_is<'a>(file: File<'a>) -> Input<'a>
    ensures { (result.bytes ≡ file.entry.bytes) × (result.whole ≡ file.entry.whole) × (result.read ≡ None) }
{
    Input {
        name: file.name,
        bytes: file.bytes,
        whole: file.whole,
        refusal: None,
        read: None,
    }
}

/// The package that a file's text declares, if it is a text, or the file as it is.
fn made_of_file<'a>(alloc: Global, file: File<'a>) -> Result<Input<'a>, AllocError>
    ensures { IfOk result (IsFileTaken file.entry) }
{
    if !file.whole || !is_text(&file.bytes) {
        return Ok(as_it_is(file));
    }
    let text = NamedText {
        name: file.name,
        bytes: &file.bytes,
    };
    made_of(alloc, file.name, &[text], 1)
}

/// Whether a file of a folder is no WIT text by its first bytes.
fn is_foreign(text: &FolderText) -> bool
    ensures { result ≡ is_foreign_so text.now }
{
    !text.whole || !is_text(&text.bytes)
}

/// The first of a folder's files that is no WIT text.
fn foreign_in(texts: &[FolderText]) -> Option<&FolderText>
    ensures some { IfSome result (λ text. list_any is_foreign_so texts.now ≡ true) }
    ensures none { IfNone result (list_any is_foreign_so texts.now ≡ false) }
{
    for text in texts {
        if is_foreign(text) {
            return Some(text);
        }
    }
    None
}

/// The same of all files of the folder.
fn foreign_among<'b>(folder: &'b Folder<'_>) -> Option<&'b FolderText>
    ensures some { IfSome result (λ text. list_any is_foreign_so (folder.now.own.items ++ folder.now.used.items) ≡ true) }
    ensures none { IfNone result (list_any is_foreign_so (folder.now.own.items ++ folder.now.used.items) ≡ false) }
{
    match foreign_in(&folder.own) {
        Some(text) => Some(text),
        None => foreign_in(&folder.used),
    }
}

/// Appends texts with their paths.
fn put_named<'b>(named: &mut Vec<NamedText<'b>>, texts: &'b [FolderText]) -> Result<(), AllocError>
    ensures { OnOk result (bytes_of named.new.items ≡ bytes_of named.old.items ++ bytes_in texts.now) }
{
    for text in texts {
        named.push(NamedText {
            name: &text.path,
            bytes: &text.bytes,
        })?;
    }
    Ok(())
}

/// The texts of a folder with their paths: its own ones, and those that they use.
fn named_in<'b>(alloc: Global, folder: &'b Folder<'_>) -> Result<Vec<NamedText<'b>>, AllocError>
    ensures { IfOk result (λ named. bytes_of named.items ≡ bytes_in folder.now.own.items ++ bytes_in folder.now.used.items) }
{
    let mut named = Vec::new(alloc);
    put_named(&mut named, &folder.own)?;
    put_named(&mut named, &folder.used)?;
    Ok(named)
}

/// The package with which the own texts of a folder begin, or an input that isn't whole where none is made.
fn made_of_folder<'a>(alloc: Global, folder: Folder<'a>) -> Result<Input<'a>, AllocError>
    ensures { IfOk result (IsFolderTaken folder.entry) }
{
    if let Some(text) = foreign_among(&folder) {
        return Ok(without_package(alloc, folder.name, no_text(alloc, &text.path, &text.bytes)));
    }
    let named = named_in(alloc, &folder)?;
    made_of(alloc, folder.name, &named, folder.own.len())
}

fn made_of_source<'a>(alloc: Global, source: Source<'a>) -> Result<Input<'a>, AllocError>
    ensures { IfOk result (IsTaken source.entry) }
{
    match source {
        Source::File(file) => made_of_file(alloc, file),
        Source::Folder(folder) => made_of_folder(alloc, folder),
    }
}

/// The inputs of what is read, with the package in place of each text and of each folder, as far as one is made of it.
pub fn made_of_sources<'a>(
    alloc: Global,
    sources: Vec<Source<'a>>,
) -> Result<Vec<Input<'a>>, AllocError>
    ensures { IfOk result (λ made. AreTaken sources.entry.items made.items) }
{
    let mut made = Vec::new(alloc);
    for source in sources {
        made.push(made_of_source(alloc, source)?)?;
    }
    Ok(made)
}

/// Why an input isn't whole: no package is made of its text, for a reason at a place; or it is neither WebAssembly nor WIT text.
pub fn unmade(alloc: Global, input: &Input<'_>) -> Refusal {
    match &input.refusal {
        Some(refusal) => again(alloc, refusal),
        None => foreign(alloc, input.name, &input.bytes),
    }
}
