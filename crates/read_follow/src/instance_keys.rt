//! The keys of instances: paths, labels, and labels of what implements a path.

ghost use Rattle.std.specs.Prelude.{◌≡◌, true, None, option_map, IfErr, IfOk, IsOkUnless};
ghost use Rattle.wit_model.specs.Names.{is_label as is_label_lem};
ghost use Rattle.comp_bytes.specs.RawOf.{text_of as borrowed_text};
ghost use Rattle.comp_meaning.specs.Follow.{complete_path as complete_path_lem, key_of as key_of_lem, plain_key as plain_key_lem};
ghost use Rattle.read_follow.specs.{Defining.Grows, ExternNames.raw_name, Found.Refuses};
ghost use Rattle.read_follow.specs.Places.{implementing_key as implementing_key_lem, place_number, IsFreshKey, IsKeyOf, IsNoLabel, IsOnlyNew, IsPathNumber};
ghost use Rattle.read_follow.specs.declared.refusal.Refusal.TheVariants as refusals;

use crate::names::ExternName;
use crate::paths::complete_path;
use crate::places::Places;
use crate::refusal::Refusal;
use std::alloc::Global;
use wit_model::{Cause, is_label};

/// The key of an instance, with the number of the place in which its names stand. Labels are parts of the input.
#[derive(Clone, Copy, PartialEq, Eq)]
pub enum InstanceKey<'a> {
    /// The path of an interface.
    Path(u32),
    /// The label of an inline interface, whose place has no path.
    Label(&'a str, u32),
    /// A label, and the path of the interface that is implemented.
    Implementing(&'a str, u32),
}

/// The number of the place of a path, its version completed.
fn path_number(
    alloc: Global,
    places: &mut Places,
    text: &str,
    suffix: Option<&str>,
) -> Result<u32, Refusal>
    ensures found { IfOk result (IsPathNumber text.now (option_map borrowed_text suffix.entry) places.new) }
    ensures only { IfOk result (λ n. IsOnlyNew places.old n places.new) }
    ensures grows { Grows places.old places.new }
    ensures absent { IfErr result (λ e. Refuses e (complete_path_lem text.now (option_map borrowed_text suffix.entry))) }
{
    match complete_path(alloc, text, suffix) {
        Ok(whole) => places.number_of(whole),
        Err(refusal) => Err(refusal),
    }
}

/// The key of an instance under a label alone: the place of its names is a new one.
fn label_key<'a>(
    alloc: Global,
    places: &mut Places,
    label: &'a str,
) -> Result<InstanceKey<'a>, Refusal>
    requires { is_label_lem label.now ≡ true }
    ensures key { IfOk result (IsKeyOf (plain_key_lem label.now None) places.new) }
    ensures fresh { IfOk result (IsFreshKey places.old) }
    ensures only { IfOk result (λ key. IsOnlyNew places.old (place_number key) places.new) }
    ensures grows { Grows places.old places.new }
    ensures memory { IsOkUnless result refusals.Memory }
{
    let place = places.new_place(alloc)?;
    Ok(InstanceKey::Label(label, place))
}

/// The key of an instance under a path, its version completed.
fn path_key<'a>(
    alloc: Global,
    places: &mut Places,
    text: &str,
    suffix: Option<&str>,
) -> Result<InstanceKey<'a>, Refusal>
    requires { IsNoLabel text.now (option_map borrowed_text suffix) }
    ensures key { IfOk result (IsKeyOf (plain_key_lem text.now (option_map borrowed_text suffix.entry)) places.new) }
    ensures fresh { IfOk result (IsFreshKey places.old) }
    ensures only { IfOk result (λ key. IsOnlyNew places.old (place_number key) places.new) }
    ensures grows { Grows places.old places.new }
    ensures absent { IfErr result (λ e. Refuses e (plain_key_lem text.now (option_map borrowed_text suffix.entry))) }
{
    match path_number(alloc, places, text, suffix) {
        Ok(place) => Ok(InstanceKey::Path(place)),
        Err(refusal) => Err(refusal),
    }
}

/// The key of an instance that implements nothing: a label, or a path.
fn plain_key<'a>(
    alloc: Global,
    places: &mut Places,
    text: &'a str,
    suffix: Option<&str>,
) -> Result<InstanceKey<'a>, Refusal>
    ensures key { IfOk result (IsKeyOf (plain_key_lem text.now (option_map borrowed_text suffix.entry)) places.new) }
    ensures fresh { IfOk result (IsFreshKey places.old) }
    ensures only { IfOk result (λ key. IsOnlyNew places.old (place_number key) places.new) }
    ensures grows { Grows places.old places.new }
    ensures absent { IfErr result (λ e. Refuses e (plain_key_lem text.now (option_map borrowed_text suffix.entry))) }
{
    match suffix {
        Some(_) => path_key(alloc, places, text, suffix),
        None => {
            if is_label(text) {
                label_key(alloc, places, text)
            } else {
                path_key(alloc, places, text, None)
            }
        }
    }
}

/// The key of an instance under a label that implements the interface of a path.
fn implementing_key<'a>(
    alloc: Global,
    places: &mut Places,
    label: &'a str,
    target: &str,
    suffix: Option<&str>,
) -> Result<InstanceKey<'a>, Refusal>
    ensures key { IfOk result (IsKeyOf (implementing_key_lem label.now target.now (option_map borrowed_text suffix.entry)) places.new) }
    ensures fresh { IfOk result (IsFreshKey places.old) }
    ensures only { IfOk result (λ key. IsOnlyNew places.old (place_number key) places.new) }
    ensures grows { Grows places.old places.new }
    ensures absent { IfErr result (λ e. Refuses e (implementing_key_lem label.now target.now (option_map borrowed_text suffix.entry))) }
{
    if !is_label(label) {
        return Err(Refusal::Absent(Cause::BadName, 0));
    }
    match path_number(alloc, places, target, suffix) {
        Ok(place) => Ok(InstanceKey::Implementing(label, place)),
        Err(refusal) => Err(refusal),
    }
}

/// The key of an instance under a name: a label, a path, or a label and the path that it implements. Each path has one number, and a label
/// alone has a new place.
///
/// Takes time and memory linear in the name. Refuses with `Absent`, `BadName`, exactly where the name is no key; else with `Memory`.
pub fn key_of<'a>(
    alloc: Global,
    places: &mut Places,
    name: ExternName<'a>,
) -> Result<InstanceKey<'a>, Refusal>
    ensures key { IfOk result (IsKeyOf (key_of_lem (raw_name name.entry)) places.new) }
    ensures fresh { IfOk result (IsFreshKey places.old) }
    ensures only { IfOk result (λ key. IsOnlyNew places.old (place_number key) places.new) }
    ensures grows { Grows places.old places.new }
    ensures absent { IfErr result (λ e. Refuses e (key_of_lem (raw_name name.entry))) }
{
    match name.implements {
        None => plain_key(alloc, places, name.text, name.version_suffix),
        Some(target) => implementing_key(alloc, places, name.text, target, name.version_suffix),
    }
}
