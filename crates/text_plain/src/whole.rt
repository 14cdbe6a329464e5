//! All texts one after the other.

ghost use Rattle.std.specs.Prelude.{◌≡◌, ◌+◌, ◌<◌, ◌≤◌, ◌^◌, length, map, string_len, string_bytes, IfOk, IfErr, OnOk};
ghost use Rattle.std.specs.List.{AllZip};
ghost use Rattle.text_plain.specs.Faults.{IsMemoryOrSize};
ghost use Rattle.text_plain.specs.Places.{folder_text_of, placed_of, AddsText, ArePlaced, StandsAt};

use crate::error::Fault;
use std::alloc::Global;
use text_trees::TextTree;

/// A text of a folder, by the folder's number, and the tree that was read of it.
#[derive(Clone, Copy)]
pub struct FolderText<'t> {
    pub folder: u32,
    pub text: &'t str,
    pub tree: &'t TextTree,
}

/// All texts one after the other, and the byte at which each begins.
#[derive(Drop)]
pub(crate) struct Whole {
    pub(crate) text: String,
    pub(crate) bases: Vec<u32>,
}

/// A text's place in the whole one: its number, where it begins, and itself.
#[derive(Clone, Copy)]
pub(crate) struct Place<'s> {
    pub(crate) number: u32,
    pub(crate) base: u32,
    pub(crate) from: &'s str,
    pub(crate) whole: &'s str,
}

/// A text of a folder, with its place.
#[derive(Clone, Copy)]
pub(crate) struct PlacedText<'s> {
    pub(crate) place: Place<'s>,
    pub(crate) folder: u32,
    pub(crate) tree: &'s TextTree,
}

/// The number of what stands behind so many others.
pub(crate) fn number_behind(count: usize) -> Result<u32, Fault>
    ensures ok { IfOk result (λ n. n ≡ count) }
    ensures small { IfOk result (λ n. n < 2 ^ 32) }
    ensures err { IfErr result (λ e. (e ≡ Fault.Size) × (2 ^ 32 ≤ count)) }
{
    match u32::try_from(count) {
        Ok(number) => Ok(number),
        Err(_) => Err(Fault::Size),
    }
}

fn end_of(start: u32, text: &str) -> Result<u32, Fault>
    ensures ok { IfOk result (λ n. n ≡ start + length text.now) }
    ensures small { IfOk result (λ n. n < 2 ^ 32) }
    ensures err { IfErr result (λ e. e ≡ Fault.Size) }
{
    match text.len().checked_add(start as usize) {
        Some(end) => number_behind(end),
        None => Err(Fault::Size),
    }
}

fn add_text(whole: &mut Whole, text: &str) -> Result<(), Fault>
    ensures ok { OnOk result (AddsText whole.old text.now whole.new) }
    ensures err { IfErr result IsMemoryOrSize }
{
    let base = number_behind(whole.text.len())?;
    let _end = end_of(base, text)?;
    whole.text.push_str(text)?;
    whole.bases.push(base)?;
    Ok(())
}

/// All texts one after the other.
///
/// Takes time and memory linear in them. Refuses for want of memory, or where they have 2^32 bytes or more.
pub(crate) fn whole_of(alloc: Global, texts: &[FolderText<'_>]) -> Result<Whole, Fault>
    ensures short { IfOk result (λ w. string_len w.text < 2 ^ 32) }
    ensures stands { IfOk result (λ w. AllZip (StandsAt (string_bytes w.text)) texts.now w.bases.items) }
    ensures refuses { IfErr result IsMemoryOrSize }
{
    let mut whole = Whole {
        text: String::new(alloc),
        bases: Vec::new(alloc),
    };
    for it in texts {
        add_text(&mut whole, it.text)?;
    }
    Ok(whole)
}

/// The texts with their places.
pub(crate) fn placed_texts<'s>(
    alloc: Global,
    whole: &'s str,
    bases: &[u32],
    texts: &[FolderText<'s>],
) -> Result<Vec<PlacedText<'s>>, Fault>
    requires short { length whole.now < 2 ^ 32 }
    requires stands { AllZip (StandsAt whole.now) texts.now bases.now }
    ensures placed { IfOk result (λ r. ArePlaced whole.now r.items) }
    ensures same { IfOk result (λ r. map placed_of r.items ≡ map folder_text_of texts.now) }
    ensures refuses { IfErr result IsMemoryOrSize }
{
    let mut placed = Vec::new(alloc);
    for (number, it) in texts.iter().enumerate() {
        let place = Place {
            number: number_behind(number)?,
            base: bases[number],
            from: it.text,
            whole,
        };
        placed.push(PlacedText {
            place,
            folder: it.folder,
            tree: it.tree,
        })?;
    }
    Ok(placed)
}
