//! Texts as plain files.

ghost use Rattle.std.specs.Prelude.{◌≡◌, ◌<◌, ◌^◌, length, map, string_bytes, IfOk};
ghost use Rattle.std.specs.List.{AllZip};
ghost use Rattle.text_plain.specs.FilesSeen.{file_of};
ghost use Rattle.text_plain.specs.Places.{folder_text_of, StandsAt};
ghost use Rattle.text_plain.specs.Plain.{FilesAre};
ghost use Rattle.text_plain.specs.Scopes.{AreTextScopes};
ghost use Rattle.text_plain.specs.Worlds.{ArePlacedTexts, IsWorlds};

use crate::error::{Fault, Why};
use crate::expand::expand_all;
use crate::files::FileTree;
use crate::keys::refused;
use crate::needs::{Need, needs_of_worlds};
use crate::order::{Order, order_of};
use crate::scopes::{TextScopes, scopes_of};
use crate::whole::{FolderText, placed_texts, whole_of};
use crate::worlds::{Worlds, worlds_of};
use crate::writing::files_of;
use keyed_hash::KeyedHash;
use std::alloc::Global;
use std::collections::VecDeque;

/// All texts one after the other, the byte at which each begins, and plain files, whose spans are of the whole.
#[derive(Drop)]
pub struct Plain {
    pub whole: String,
    pub bases: Vec<u32>,
    pub files: Vec<FileTree>,
}

/// Texts as plain files: inclusions of worlds are written out, paths stand in the place of names at the top, and each file has the name of its package.
///
/// Takes time and memory linear in the texts and in what their worlds have when inclusions are written out.
///
/// Refuses for want of memory, and where all texts together have 2^32 bytes. Refuses a text that names no package, where no text of its folder does, and a name
/// at the top that is taken. Refuses an inclusion whose path means no world, a name in its `with` that this world hasn't, and a world that includes itself.
pub fn plain_files(alloc: Global, texts: &[FolderText<'_>]) -> Result<Plain, Fault>
    ensures { IfOk result (λ p. FilesAre (map folder_text_of texts.now) (map (file_of (string_bytes p.whole)) p.files.items)) }
{
    let whole = whole_of(alloc, texts)?;
    let files = files_within(alloc, whole.text.as_str(), &whole.bases, &*texts)?;
    Ok(Plain {
        whole: whole.text,
        bases: whole.bases,
        files,
    })
}

fn files_within<'s>(
    alloc: Global,
    whole: &'s str,
    bases: &[u32],
    texts: &'s [FolderText<'_>],
) -> Result<Vec<FileTree>, Fault>
    requires short { length whole.now < 2 ^ 32 }
    requires stands { AllZip (StandsAt whole.now) texts.now bases.now }
    ensures { IfOk result (λ files. FilesAre (map folder_text_of texts.now) (map (file_of whole.now) files.items)) }
{
    let hash = KeyedHash::of_texts(&[whole]);
    let placed = placed_texts(alloc, whole, bases, texts)?;
    let scopes = scopes_of(alloc, hash, whole, &placed)?;
    files_in(alloc, hash, whole, &scopes)
}

fn order_in(alloc: Global, worlds: &Worlds<'_, '_>) -> Result<Vec<u32>, Fault>
    requires { IsWorlds worlds.now }
{
    let needs = needs_of_worlds(alloc, worlds)?;
    match order_of(alloc, &needs)? {
        Order::Numbers(numbers) => Ok(numbers),
        Order::Cycle(number, need) => cycle(worlds, number, need),
    }
}

fn cycle<T>(worlds: &Worlds<'_, '_>, number: u32, need: Need) -> Result<T, Fault> {
    match worlds.worlds.get(number as usize) {
        Some(world) => refused(world.scope.place.number, need.at, Why::Cycle),
        None => Err(Fault::Size),
    }
}

fn files_in<'s>(
    alloc: Global,
    hash: KeyedHash,
    whole: &'s str,
    scopes: &[TextScopes<'s>],
) -> Result<Vec<FileTree>, Fault>
    requires { ArePlacedTexts whole.now scopes.now }
    ensures { (texts : _) → AreTextScopes whole.now texts scopes.now → IfOk result (λ files. FilesAre texts (map (file_of whole.now) files.items)) }
{
    let worlds = worlds_of(alloc, hash, whole, scopes)?;
    let order = order_in(alloc, &worlds)?;
    let done = expand_all(alloc, hash, &worlds, &order)?;
    let mut queue = VecDeque::from(done);
    files_of(alloc, whole, scopes, &mut queue)
}
