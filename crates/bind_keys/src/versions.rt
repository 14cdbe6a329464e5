//! The canonical part of a version, written on the stack and compared with a text, without memory.

ghost use Rattle.std.specs.Prelude.{◌≡◌, [], ◌∷◌, ◌++◌, decimal, option_map, IfSome};
ghost use Rattle.std.specs.Option.{option_copied};
ghost use Rattle.semver.specs.Identifiers.{parts_of};
ghost use Rattle.wit_model.specs.{Names.at_version, Names.canonical_version, Rules.after_prefix as after_prefix_lem};
ghost use Rattle.bind_keys.specs.Versions.{canonical_text, identifiers_of, marked_by, numbers_of};

use arrayvec::ArrayString;
use itoa::Buffer;
use semver::Version;
use wit_model::after_prefix;

/// A text of 256 bytes at most, which takes no memory.
pub(crate) type ShortText = ArrayString<256>;

// ---- written

/// Appends a part, or answers none where it has no room.
pub(crate) fn push(text: &mut ShortText, part: &str) -> Option<()>
    ensures { IfSome result (λ _. text.new.bytes ≡ text.old.bytes ++ part.now) }
{
    match text.try_push_str(part) {
        Ok(()) => Some(()),
        Err(_) => None,
    }
}

fn push_number(text: &mut ShortText, number: u64) -> Option<()>
    ensures { IfSome result (λ _. text.new.bytes ≡ text.old.bytes ++ decimal number) }
{
    let mut buffer = Buffer::new();
    push(text, buffer.format(number))
}

// The three numbers of a version.
fn push_numbers(text: &mut ShortText, version: &Version) -> Option<()>
    ensures { IfSome result (λ _. text.new.bytes ≡ text.old.bytes ++ numbers_of version.now) }
{
    push_number(text, version.major)?;
    push(text, ".")?;
    push_number(text, version.minor)?;
    push(text, ".")?;
    push_number(text, version.patch)
}

// What stands for an identifier: its mark and itself, or nothing where it is empty.
fn push_identifier(text: &mut ShortText, mark: &str, identifier: &str) -> Option<()>
    ensures { IfSome result (λ _. text.new.bytes ≡ text.old.bytes ++ marked_by mark.now identifier.now) }
{
    if identifier.is_empty() {
        return Some(());
    }
    push(text, mark)?;
    push(text, identifier)
}

fn push_whole(text: &mut ShortText, version: &Version) -> Option<()>
    ensures { IfSome result (λ _. text.new.bytes ≡ text.old.bytes ++ (numbers_of version.now ++ identifiers_of version.now)) }
{
    push_numbers(text, version)?;
    push_identifier(text, "-", version.pre.as_str())?;
    push_identifier(text, "+", version.build.as_str())
}

// The canonical part of a version.
fn push_canonical(text: &mut ShortText, version: &Version) -> Option<()>
    ensures { IfSome result (λ _. text.new.bytes ≡ text.old.bytes ++ canonical_text version.now) }
{
    if version.pre.as_str().len() > 0 {
        push_whole(text, version)
    } else if version.major > 0 {
        push_number(text, version.major)
    } else if version.minor > 0 {
        push(text, "0.")?;
        push_number(text, version.minor)
    } else {
        push(text, "0.0.")?;
        push_number(text, version.patch)
    }
}

/// Appends `@` and the canonical part of a version, or nothing where there is none.
pub(crate) fn push_at_version(text: &mut ShortText, version: &Option<Version>) -> Option<()>
    ensures { IfSome result (λ _. text.new.bytes ≡ text.old.bytes ++ at_version (option_map (λ v. canonical_version (parts_of v)) version.now)) }
{
    match version {
        Some(version) => {
            push(text, "@")?;
            push_canonical(text, version)
        }
        None => Some(()),
    }
}

// ---- compared

fn after_number<'a>(number: u64, text: &'a str) -> Option<&'a str>
    ensures { option_copied result ≡ after_prefix_lem (decimal number) text.entry.now }
{
    let mut buffer = Buffer::new();
    after_prefix(buffer.format(number), text)
}

// What follows a number and a point.
fn after_point<'a>(number: u64, text: &'a str) -> Option<&'a str>
    ensures { option_copied result ≡ after_prefix_lem (decimal number ++ (46 ∷ [])) text.entry.now }
{
    let rest = after_number(number, text)?;
    after_prefix(".", rest)
}

// What follows two numbers, each with a point behind it.
fn after_two_points<'a>(first: u64, second: u64, text: &'a str) -> Option<&'a str>
    ensures { option_copied result ≡ after_prefix_lem ((decimal first ++ (46 ∷ [])) ++ (decimal second ++ (46 ∷ []))) text.entry.now }
{
    let rest = after_point(first, text)?;
    after_point(second, rest)
}

// What follows the three numbers of a version.
fn after_numbers<'a>(version: &Version, text: &'a str) -> Option<&'a str>
    ensures { option_copied result ≡ after_prefix_lem (numbers_of version.now) text.entry.now }
{
    let rest = after_two_points(version.major, version.minor, text)?;
    after_number(version.patch, rest)
}

// What follows what stands for an identifier: its mark and itself, or nothing where it is empty.
fn after_identifier<'a>(mark: &str, identifier: &str, text: &'a str) -> Option<&'a str>
    ensures { option_copied result ≡ after_prefix_lem (marked_by mark.now identifier.now) text.entry.now }
{
    if identifier.is_empty() {
        return Some(text);
    }
    let rest = after_prefix(mark, text)?;
    after_prefix(identifier, rest)
}

fn after_identifiers<'a>(version: &Version, text: &'a str) -> Option<&'a str>
    ensures { option_copied result ≡ after_prefix_lem (identifiers_of version.now) text.entry.now }
{
    let rest = after_identifier("-", version.pre.as_str(), text)?;
    after_identifier("+", version.build.as_str(), rest)
}

fn after_whole<'a>(version: &Version, text: &'a str) -> Option<&'a str>
    ensures { option_copied result ≡ after_prefix_lem (numbers_of version.now ++ identifiers_of version.now) text.entry.now }
{
    let rest = after_numbers(version, text)?;
    after_identifiers(version, rest)
}

// What follows a text and a number.
fn after_front<'a>(front: &str, number: u64, text: &'a str) -> Option<&'a str>
    ensures { option_copied result ≡ after_prefix_lem (front.now ++ decimal number) text.entry.now }
{
    let rest = after_prefix(front, text)?;
    after_number(number, rest)
}

// What follows the canonical part of a version.
fn after_canonical<'a>(version: &Version, text: &'a str) -> Option<&'a str>
    ensures { option_copied result ≡ after_prefix_lem (canonical_text version.now) text.entry.now }
{
    if version.pre.as_str().len() > 0 {
        after_whole(version, text)
    } else if version.major > 0 {
        after_number(version.major, text)
    } else if version.minor > 0 {
        after_front("0.", version.minor, text)
    } else {
        after_front("0.0.", version.patch, text)
    }
}

/// What follows `@` and the canonical part of a version, or nothing where there is none.
pub(crate) fn after_at_version<'a>(version: &Option<Version>, text: &'a str) -> Option<&'a str>
    ensures { option_copied result ≡ after_prefix_lem (at_version (option_map (λ v. canonical_version (parts_of v)) version.now)) text.entry.now }
{
    match version {
        Some(version) => {
            let rest = after_prefix("@", text)?;
            after_canonical(version, rest)
        }
        None => Some(text),
    }
}
