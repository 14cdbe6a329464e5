//! The layer for C, C++, Rust and Python: the functions that `include/witc.h` declares.
//!
//! Each takes byte slices, answers a status, and gives the caller bytes that it owns until it hands them to `witc_free`, and the numbers of a refusal.
#![tactic(auto)]

ghost use Rattle.std.specs.Prelude.{◌≡◌, []};
ghost use Rattle.wit_component.specs.{Decoded.RefusesBytes, DecodedWorlds.RefusesWorldBytes};
ghost use Rattle.witc_alike.specs.Carried.{ListsData, RefusesSections, RefusesWalk};
ghost use Rattle.witc_ffi.specs.Answers.{Answers, AnswersAlike, AnswersAttached, AnswersCompared, AnswersEmbedded, AnswersWithin, IsSection, KindsAnswers, LacksSection, NeverBad, RefusesBound, is_asked};
ghost use Rattle.witc_ffi.specs.Texts.{AnswersTexts, bytes_in, names_in};
ghost use Rattle.witc_listed.specs.Listings.{ListsModule, ListsPackage, ListsWorld};
ghost use Rattle.witc_texts.specs.{Bindings.PrintsModule, Printed.PrintsBytes, Stripped.StripsBytes};
ghost use Rattle.witc_written.specs.Worlds.{EncodesWorld, PrintsWorld, RefusesEncodedWorld};
ghost use Rattle.witc_written.specs.Written.{EncodesModule, EncodesPackage, RefusesEncoded, RefusesEncodedModule};
ghost use denote.RawPtr.{null_ptr};

mod answer;
mod calls;
mod loose;
mod outcome;
mod texts;

use answer::Answer;
use calls::{attached, compared, embedded, known_kinds, likened, section, stripped};
use outcome::{hand_out, of_bytes, of_text_within};
use std::alloc::Global;
use texts::{Text, packed};
use witc_alike::sections_data;
use witc_listed::{module_json, package_json, world_json};
use witc_refusals::Why;
use witc_texts::{module_text, print};
use witc_within::{module_text_within, package_text_within, world_text_within};
use witc_written::{module_package, package_bytes, world_package, world_text};

/// The text of the package that the bytes mean.
#[unsafe(no_mangle)]
pub extern "C" fn witc_package_text_slice(
    alloc: Global,
    bytes: &[u8],
    answer: &mut Answer,
    why: &mut Why,
) -> u8
    ensures { Answers (PrintsBytes bytes.now) (RefusesBytes bytes.now) NeverBad result answer.new.text why.new }
{
    hand_out(alloc, of_bytes(alloc, print(alloc, bytes)), answer, why)
}

/// The text of the package that the bytes mean, if it has at most so many bytes.
#[unsafe(no_mangle)]
pub extern "C" fn witc_package_text_within_slice(
    alloc: Global,
    bytes: &[u8],
    most: usize,
    answer: &mut Answer,
    why: &mut Why,
) -> u8
    ensures { AnswersWithin (PrintsBytes bytes.now) (RefusesBytes bytes.now) most result answer.new.text why.new }
{
    hand_out(
        alloc,
        of_text_within(alloc, most, package_text_within(alloc, bytes, most)),
        answer,
        why,
    )
}

/// The package that the bytes mean, encoded anew, with canonical names where `canonical` isn't 0.
#[unsafe(no_mangle)]
pub extern "C" fn witc_package_bytes_slice(
    alloc: Global,
    bytes: &[u8],
    canonical: u32,
    answer: &mut Answer,
    why: &mut Why,
) -> u8
    ensures { Answers (EncodesPackage bytes.now (is_asked canonical)) (RefusesEncoded bytes.now (is_asked canonical)) NeverBad result answer.new.text why.new }
{
    hand_out(
        alloc,
        of_bytes(alloc, package_bytes(alloc, bytes, canonical > 0)),
        answer,
        why,
    )
}

/// The package that the bytes mean, as JSON.
#[unsafe(no_mangle)]
pub extern "C" fn witc_package_json_slice(
    alloc: Global,
    bytes: &[u8],
    answer: &mut Answer,
    why: &mut Why,
) -> u8
    ensures { Answers (ListsPackage bytes.now) (RefusesBytes bytes.now) NeverBad result answer.new.text why.new }
{
    hand_out(
        alloc,
        of_bytes(alloc, package_json(alloc, bytes)),
        answer,
        why,
    )
}

/// The text of the one world that the bytes mean.
#[unsafe(no_mangle)]
pub extern "C" fn witc_world_text_slice(
    alloc: Global,
    bytes: &[u8],
    answer: &mut Answer,
    why: &mut Why,
) -> u8
    ensures { Answers (PrintsWorld bytes.now) (RefusesWorldBytes bytes.now) NeverBad result answer.new.text why.new }
{
    hand_out(
        alloc,
        of_bytes(alloc, world_text(alloc, bytes)),
        answer,
        why,
    )
}

/// The text of the one world that the bytes mean, if it has at most so many bytes.
#[unsafe(no_mangle)]
pub extern "C" fn witc_world_text_within_slice(
    alloc: Global,
    bytes: &[u8],
    most: usize,
    answer: &mut Answer,
    why: &mut Why,
) -> u8
    ensures { AnswersWithin (PrintsWorld bytes.now) (RefusesWorldBytes bytes.now) most result answer.new.text why.new }
{
    hand_out(
        alloc,
        of_text_within(alloc, most, world_text_within(alloc, bytes, most)),
        answer,
        why,
    )
}

/// The one world that the bytes mean, as JSON.
#[unsafe(no_mangle)]
pub extern "C" fn witc_world_json_slice(
    alloc: Global,
    bytes: &[u8],
    answer: &mut Answer,
    why: &mut Why,
) -> u8
    ensures { Answers (ListsWorld bytes.now) (RefusesWorldBytes bytes.now) NeverBad result answer.new.text why.new }
{
    hand_out(
        alloc,
        of_bytes(alloc, world_json(alloc, bytes)),
        answer,
        why,
    )
}

/// The package of the one world that the bytes mean, as bytes.
#[unsafe(no_mangle)]
pub extern "C" fn witc_world_package_slice(
    alloc: Global,
    bytes: &[u8],
    answer: &mut Answer,
    why: &mut Why,
) -> u8
    ensures { Answers (EncodesWorld bytes.now) (RefusesEncodedWorld bytes.now) NeverBad result answer.new.text why.new }
{
    hand_out(
        alloc,
        of_bytes(alloc, world_package(alloc, bytes)),
        answer,
        why,
    )
}

/// The text of what the core module binds that the bytes are.
#[unsafe(no_mangle)]
pub extern "C" fn witc_module_text_slice(
    alloc: Global,
    bytes: &[u8],
    answer: &mut Answer,
    why: &mut Why,
) -> u8
    ensures { Answers (PrintsModule bytes.now) (RefusesBound bytes.now) NeverBad result answer.new.text why.new }
{
    hand_out(
        alloc,
        of_bytes(alloc, module_text(alloc, bytes)),
        answer,
        why,
    )
}

/// The text of what the core module binds that the bytes are, if it has at most so many bytes.
#[unsafe(no_mangle)]
pub extern "C" fn witc_module_text_within_slice(
    alloc: Global,
    bytes: &[u8],
    most: usize,
    answer: &mut Answer,
    why: &mut Why,
) -> u8
    ensures { AnswersWithin (PrintsModule bytes.now) (RefusesBound bytes.now) most result answer.new.text why.new }
{
    hand_out(
        alloc,
        of_text_within(alloc, most, module_text_within(alloc, bytes, most)),
        answer,
        why,
    )
}

/// What the core module binds that the bytes are, as JSON.
#[unsafe(no_mangle)]
pub extern "C" fn witc_module_json_slice(
    alloc: Global,
    bytes: &[u8],
    answer: &mut Answer,
    why: &mut Why,
) -> u8
    ensures { Answers (ListsModule bytes.now) (RefusesBound bytes.now) NeverBad result answer.new.text why.new }
{
    hand_out(
        alloc,
        of_bytes(alloc, module_json(alloc, bytes)),
        answer,
        why,
    )
}

/// What the core module binds, as the bytes of a package.
#[unsafe(no_mangle)]
pub extern "C" fn witc_module_package_slice(
    alloc: Global,
    bytes: &[u8],
    answer: &mut Answer,
    why: &mut Why,
) -> u8
    ensures { Answers (EncodesModule bytes.now) (RefusesEncodedModule bytes.now) NeverBad result answer.new.text why.new }
{
    hand_out(
        alloc,
        of_bytes(alloc, module_package(alloc, bytes)),
        answer,
        why,
    )
}

/// The core module that the bytes are, without the sections that carry worlds.
#[unsafe(no_mangle)]
pub extern "C" fn witc_module_strip_slice(
    alloc: Global,
    bytes: &[u8],
    answer: &mut Answer,
    why: &mut Why,
) -> u8
    ensures { Answers (StripsBytes bytes.now) (RefusesBound bytes.now) NeverBad result answer.new.text why.new }
{
    hand_out(alloc, stripped(alloc, bytes), answer, why)
}

/// The data of the section of this number, from 0, among those of a core module that carry worlds.
#[unsafe(no_mangle)]
pub extern "C" fn witc_module_section_slice(
    alloc: Global,
    bytes: &[u8],
    number: usize,
    answer: &mut Answer,
    why: &mut Why,
) -> u8
    ensures { Answers (IsSection bytes.now number) (RefusesWalk bytes.now number) (LacksSection bytes.now number)
        result answer.new.text why.new }
{
    hand_out(alloc, section(alloc, bytes, number), answer, why)
}

/// The data of all sections of a core module that carry worlds, in order, each behind its length in four bytes, the lowest first.
#[unsafe(no_mangle)]
pub extern "C" fn witc_module_sections_slice(
    alloc: Global,
    bytes: &[u8],
    answer: &mut Answer,
    why: &mut Why,
) -> u8
    ensures { Answers (ListsData bytes.now []) (RefusesSections bytes.now) NeverBad result answer.new.text why.new }
{
    hand_out(
        alloc,
        of_bytes(alloc, sections_data(alloc, bytes)),
        answer,
        why,
    )
}

/// The data of a section that carries the package's world of this name.
#[unsafe(no_mangle)]
pub extern "C" fn witc_embed_slices(
    alloc: Global,
    bytes: &[u8],
    name: &[u8],
    encoding: u32,
    canonical: u32,
    answer: &mut Answer,
    why: &mut Why,
) -> u8
    ensures { AnswersEmbedded bytes.now name.now encoding canonical result answer.new.text why.new }
{
    hand_out(
        alloc,
        embedded(alloc, bytes, name, encoding, canonical),
        answer,
        why,
    )
}

/// The core module with one more section, which carries the package's world of this name.
#[unsafe(no_mangle)]
pub extern "C" fn witc_attach_slices(
    alloc: Global,
    module: &[u8],
    bytes: &[u8],
    name: &[u8],
    encoding: u32,
    canonical: u32,
    answer: &mut Answer,
    why: &mut Why,
) -> u8
    ensures { AnswersAttached «module».now bytes.now name.now encoding canonical result answer.new.text why.new }
{
    hand_out(
        alloc,
        attached(alloc, module, bytes, name, encoding, canonical),
        answer,
        why,
    )
}

/// Whether the world of the second name may take the place of the one of the first, in the package that the bytes mean. Where it may, there are no bytes.
#[unsafe(no_mangle)]
pub extern "C" fn witc_compat_slices(
    alloc: Global,
    bytes: &[u8],
    prev: &[u8],
    next: &[u8],
    answer: &mut Answer,
    why: &mut Why,
) -> u8
    ensures { AnswersCompared bytes.now prev.now next.now result answer.new.text why.new }
{
    hand_out(alloc, compared(alloc, bytes, prev, next), answer, why)
}

/// Whether a world of one package has the sense of a world of another. Where it has, there are no bytes.
#[unsafe(no_mangle)]
pub extern "C" fn witc_same_world_slices(
    alloc: Global,
    bytes: &[u8],
    name: &[u8],
    other: &[u8],
    other_name: &[u8],
    answer: &mut Answer,
    why: &mut Why,
) -> u8
    ensures { AnswersAlike bytes.now name.now other.now other_name.now result answer.new.text why.new }
{
    hand_out(
        alloc,
        likened(alloc, bytes, name, other, other_name),
        answer,
        why,
    )
}

/// The package with which so many of these WIT texts begin, the first ones, as bytes. All packages that they use stand among the texts.
#[unsafe(no_mangle)]
pub extern "C" fn witc_texts_package_slice(
    alloc: Global,
    texts: &[Text<'_>],
    own: usize,
    answer: &mut Answer,
    why: &mut Why,
) -> u8
    ensures { AnswersTexts (names_in texts.now) (bytes_in texts.now) own result answer.new.text why.new }
{
    hand_out(alloc, packed(alloc, texts, own), answer, why)
}

/// What the bytes are: 1 for a package, 2 for one world, 4 for a core module; their sum, or 0; or 128 where that is not known.
#[unsafe(no_mangle)]
pub extern "C" fn witc_kinds_slice(alloc: Global, bytes: &[u8]) -> u8
    ensures { KindsAnswers bytes.now result }
{
    known_kinds(alloc, bytes)
}

/// The number of this interface, as `WITC_ABI` in the header.
#[unsafe(no_mangle)]
pub extern "C" fn witc_abi() -> u32
    ensures { result ≡ 2 }
{
    2
}

/// Frees the bytes of an answer, which has none from then on, and no pointer to any.
#[unsafe(no_mangle)]
pub extern "C" fn witc_free(alloc: Global, answer: &mut Answer)
    ensures { (answer.new.text ≡ []) × (answer.new.at ≡ null_ptr) × (answer.new.length ≡ 0) × (answer.new.owner ≡ null_ptr) }
{
    let old = std::mem::replace(answer, Answer::none());
    old.release(alloc);
}
