//! The files and folders of a command line, read.

ghost use Rattle.std.specs.Prelude.{◌≡◌, ◌≢◌, [], Any, IfErr, IfOk};
ghost use Rattle.std.specs.List.{AllZip};
ghost use Rattle.teasel_files.specs.Contents.{files_of, has_files as is_about_files};
ghost use Rattle.teasel_files.specs.Folders.{AreRead, HasUnread, IsFolder, IsRead, IsText, IsUnread, is_folder as is_folder_so, paths_of};
ghost use Rattle.teasel_messages.specs.Reasons.{RefusedFor};
ghost use Rattle.teasel_messages.specs.declared.refusal.Refusal.TheVariants.{Memory};
ghost use Rattle.teasel_words.specs.Given.{given_of, texts_of};

use crate::delivery::note;
use crate::input::Content;
use crate::setting::Setting;
use crate::source::{File, Folder, FolderText, Source};
use crate::store::{Listed, Store};
use std::alloc::Global;
use std::io::Write;
use teasel_messages::{ReadFault, Refusal, told, unread};
use teasel_words::{Asked, Word};

/// Files of more bytes than these are said to be read, at a terminal.
const LARGE: usize = 16_777_216;

/// Whether a word is about files.
fn has_files(word: Word) -> bool
    ensures { result ≡ is_about_files word }
{
    match word {
        Word::Completion | Word::Man | Word::Help | Word::Version => false,
        _ => true,
    }
}

/// The name of a file in messages.
fn shown_name(name: &str) -> &str {
    if name == "-" { "standard input" } else { name }
}

/// Whether what isn't read as a file is a folder, which isn't standard input.
fn is_folder(name: &str, fault: ReadFault) -> bool
    ensures { result ≡ is_folder_so name.now fault }
{
    match fault {
        ReadFault::Folder => name != "-",
        _ => false,
    }
}

/// Reads a text of a folder, of so many bytes at most, and takes these off what is left.
fn read_text<S: Store>(
    alloc: Global,
    path: &str,
    left: &mut u64,
    store: &mut S,
) -> Result<FolderText, Refusal>
    ensures read { IfOk result (IsText (S.holds (S.state store.old)) path.now) }
    ensures refused { IfErr result (RefusedFor ((fault : ReadFault) × S.fails (S.state store.old) path.now fault)) }
    ensures kept { S.state store.new ≡ S.state store.old }
{
    match store.read(alloc, path, *left) {
        Ok(content) => {
            *left = left.saturating_sub(content.bytes.len() as u64);
            Ok(FolderText {
                path: String::from_str(alloc, path)?,
                bytes: content.bytes,
                whole: content.whole,
            })
        }
        Err(fault) => Err(unread(alloc, path, fault)),
    }
}

/// Reads the texts of these paths, in order.
fn read_texts<S: Store>(
    alloc: Global,
    paths: &[String],
    left: &mut u64,
    store: &mut S,
) -> Result<Vec<FolderText>, Refusal>
    ensures read { IfOk result (λ texts. AllZip (IsText (S.holds (S.state store.old))) (paths_of paths.now) texts.items) }
    ensures refused { IfErr result (RefusedFor (HasUnread (S.fails (S.state store.old)) (paths_of paths.now))) }
    ensures kept { S.state store.new ≡ S.state store.old }
{
    let mut texts = Vec::with_capacity(alloc, paths.len())?;
    for path in paths {
        texts.push(read_text(alloc, path, left, store)?)?;
    }
    Ok(texts)
}

/// Reads the texts of a folder that are listed, of so many bytes in all at most.
fn read_listed<'a, S: Store>(
    alloc: Global,
    name: &'a str,
    listed: &Listed,
    most: u64,
    store: &mut S,
) -> Result<Folder<'a>, Refusal>
    requires has_text { listed.now.own.items ≢ [] }
    requires lists { S.lists (S.state store.old) name.now (paths_of listed.now.own.items) (paths_of listed.now.used.items) }
    ensures read { IfOk result (IsFolder (S.holds (S.state store.old)) (S.lists (S.state store.old)) name.now) }
    ensures refused { IfErr result (RefusedFor (IsUnread (S.fails (S.state store.old)) (S.lists (S.state store.old)) (S.unlisted (S.state store.old))
        name.now)) }
    ensures kept { S.state store.new ≡ S.state store.old }
{
    let mut left = most;
    let own = read_texts(alloc, &listed.own, &mut left, store)?;
    let used = read_texts(alloc, &listed.used, &mut left, store)?;
    Ok(Folder { name, own, used })
}

/// Reads a folder: its own texts and those that they use. Refused where it has none of its own.
fn read_folder<'a, S: Store>(
    alloc: Global,
    name: &'a str,
    most: u64,
    store: &mut S,
) -> Result<Source<'a>, Refusal>
    ensures read { IfOk result (IsRead (S.holds (S.state store.old)) (S.lists (S.state store.old)) name.now) }
    ensures refused { IfErr result (RefusedFor (IsUnread (S.fails (S.state store.old)) (S.lists (S.state store.old)) (S.unlisted (S.state store.old))
        name.now)) }
    ensures kept { S.state store.new ≡ S.state store.old }
{
    match store.list(alloc, name) {
        Ok(listed) => {
            if listed.own.is_empty() {
                return Err(told(alloc, name, "there is no WIT text in it", ""));
            }
            Ok(Source::Folder(read_listed(alloc, name, &listed, most, store)?))
        }
        Err(unlisted) => Err(unread(alloc, &unlisted.path, unlisted.fault)),
    }
}

/// What is read of the file of this name. At a terminal it is said that a large one is read.
fn file_of<'a, E: Write>(
    name: &'a str,
    content: Content,
    setting: Setting,
    errors: &mut E,
) -> File<'a>
    ensures { (result.bytes ≡ content.bytes) × (result.whole ≡ content.whole) }
{
    if setting.error_terminal && content.bytes.len() > LARGE {
        note(
            errors,
            "the file is read; what it means is being worked out",
        );
    }
    File {
        name: shown_name(name),
        bytes: content.bytes,
        whole: content.whole,
    }
}

/// Reads a file or a folder, or standard input: `-`. At a terminal it is said that this is waited for.
fn read_source<'a, S: Store, E: Write>(
    alloc: Global,
    name: &'a str,
    most: u64,
    setting: Setting,
    store: &mut S,
    errors: &mut E,
) -> Result<Source<'a>, Refusal>
    ensures read { IfOk result (IsRead (S.holds (S.state store.old)) (S.lists (S.state store.old)) name.now) }
    ensures refused { IfErr result (RefusedFor (IsUnread (S.fails (S.state store.old)) (S.lists (S.state store.old)) (S.unlisted (S.state store.old))
        name.now)) }
    ensures kept { S.state store.new ≡ S.state store.old }
{
    if setting.in_terminal && name == "-" {
        note(errors, "reading standard input; end it by Ctrl-D");
    }
    match store.read(alloc, name, most) {
        Ok(content) => Ok(Source::File(file_of(name, content, setting, errors))),
        Err(fault) => {
            if is_folder(name, fault) {
                read_folder(alloc, name, most, store)
            } else {
                Err(unread(alloc, shown_name(name), fault))
            }
        }
    }
}

/// The files and folders that are read: those that are named, or standard input, or none where the word is about none.
fn names_of<'a>(alloc: Global, asked: &Asked<'a>) -> Result<Vec<&'a str>, Refusal>
    ensures names { IfOk result (λ names. texts_of names.items ≡ files_of (given_of asked.now)) }
    ensures memory { IfErr result (λ refusal. refusal ≡ Memory) }
{
    let mut names = Vec::new(alloc);
    if asked.help || !has_files(asked.word) {
        return Ok(names);
    }
    if asked.files.is_empty() {
        names.push("-")?;
    }
    names.extend_from_slice(&asked.files)?;
    Ok(names)
}

/// What is read of all files and folders, in order; of standard input where none is named.
pub fn read_inputs<'a, S: Store, E: Write>(
    alloc: Global,
    asked: &Asked<'a>,
    setting: Setting,
    store: &mut S,
    errors: &mut E,
) -> Result<Vec<Source<'a>>, Refusal>
    ensures read { IfOk result (λ sources. AreRead (S.holds (S.state store.old)) (S.lists (S.state store.old)) (files_of (given_of asked.now)) sources.items) }
    ensures refused { IfErr result (RefusedFor (Any (IsUnread (S.fails (S.state store.old)) (S.lists (S.state store.old)) (S.unlisted (S.state store.old)))
        (files_of (given_of asked.now)))) }
    ensures kept { S.state store.new ≡ S.state store.old }
{
    let names = names_of(alloc, asked)?;
    let mut sources = Vec::new(alloc);
    for name in names.iter() {
        sources.push(read_source(alloc, *name, asked.most_read, setting, store, errors)?)?;
    }
    Ok(sources)
}
