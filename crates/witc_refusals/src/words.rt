//! The messages of refusals.

ghost use Rattle.std.specs.{Fmt.decimal, Prelude.◌≡◌, Prelude.◌++◌, Prelude.IfOk};
ghost use Rattle.witc_refusals.specs.Messages.{message_of, no_reading_of, words_of_cause, words_of_clash};

use std::alloc::{AllocError, Global};
use wit_model::{Cause, ClashKind, Error};

fn cause_words(cause: Cause) -> &'static str
    ensures { result.now ≡ words_of_cause cause }
{
    match cause {
        Cause::Truncated => "they end too early: check that the file is complete",
        Cause::BadNumber => "a number is too large, or is written in too many bytes",
        Cause::BadUtf8 => "a name isn't UTF-8",
        Cause::BadPreamble =>
            "they don't begin as a component does. Core modules, WIT text and compressed files don't",
        Cause::UnknownSection => "a section has an id that packages don't use",
        Cause::UnknownForm =>
            "a type or a declaration has an unknown form, which may be of a newer format",
        Cause::OutOfScope => "an index refers to nothing",
        Cause::BadName => "a name isn't allowed where it stands",
        Cause::NotWit =>
            "the component is no WIT package. If it is the data of a component-type section, read it as a world",
        Cause::Disagree => "one interface is described twice, in two different ways",
        Cause::TooDeep =>
            "a type is nested more than 100 levels deep: name some of the types in it",
        Cause::Trailing => "a section has extra bytes after its contents",
        Cause::NoPackage => "the component exports nothing",
    }
}

fn clash_words(kind: ClashKind) -> &'static str
    ensures { result.now ≡ words_of_clash kind }
{
    match kind {
        ClashKind::Interface =>
            "two sections disagree about an interface. Build both from one version of the package: ",
        ClashKind::World =>
            "two sections disagree about a world. Build both from one version of the package: ",
        ClashKind::Import =>
            "two sections disagree about an import. Build both from one version of the package: ",
        ClashKind::Export => "two sections both export ",
        ClashKind::Encoding =>
            "two sections disagree about the string encoding of a function. Build both from one version of the package: ",
    }
}

/// The message of a refusal, without an end of a line. The name that it is about stands last.
pub fn message(alloc: Global, error: &Error) -> Result<String, AllocError>
    ensures { IfOk result (λ m. m.bytes.items ≡ message_of error.now) }
{
    match error {
        Error::Memory => String::from_str(alloc, "out of memory"),
        Error::Size => String::from_str(
            alloc,
            "an index, a count or a length doesn't fit in 32 bits: make the input smaller",
        ),
        Error::CanonicalClash(name) => about(
            alloc,
            "two imports or two exports have the same canonical name. Rename one of them, or encode without canonical names: ",
            name,
        ),
        Error::NoReading(cause, offset) => no_reading(alloc, cause_words(*cause), *offset),
        Error::EncodingMissing => String::from_str(
            alloc,
            "a component-type section has no section `wit-component-encoding` in it: build the module again with a current tool",
        ),
        Error::EncodingUnknownFormat => String::from_str(
            alloc,
            "the section `wit-component-encoding` is empty: build the module again with a current tool",
        ),
        Error::EncodingVersion(byte) => numbered(
            alloc,
            "the section `wit-component-encoding` has format ",
            *byte as usize,
            ", and only format 4 can be read",
        ),
        Error::BadStringEncoding(byte) => numbered(
            alloc,
            "no string encoding has the number ",
            *byte as usize,
            ": 0 is UTF-8, 1 is UTF-16, and 2 is Latin-1 with UTF-16",
        ),
        Error::Historical => String::from_str(
            alloc,
            "a component-type section is in an old format, without a version: build the module again with a current tool",
        ),
        Error::NotAModule => String::from_str(
            alloc,
            "the bytes don't begin as a core module does. Components, WIT text and compressed files don't",
        ),
        Error::BadModule(offset) => numbered(
            alloc,
            "no section of a core module begins at byte ",
            *offset,
            ": check that the file is complete",
        ),
        Error::Clash(kind, name) => about(alloc, clash_words(*kind), name),
        Error::OtherPackage => String::from_str(
            alloc,
            "the worlds are of packages with different names: compare worlds of one package",
        ),
        Error::TwiceWithoutVersion(name) => about(
            alloc,
            "a world has two versions of one interface, and can't be compared: ",
            name,
        ),
        Error::Missing(name) => about(alloc, "a world lacks ", name),
        Error::Differs(name) => about(alloc, "two worlds differ in ", name),
    }
}

// Words, and the name that they are about.
fn about(alloc: Global, words: &str, name: &str) -> Result<String, AllocError>
    ensures { IfOk result (λ m. m.bytes.items ≡ words.now ++ name.now) }
{
    format!(in alloc; "{words}{name}")
}

// A number between words.
fn numbered(alloc: Global, front: &str, number: usize, behind: &str) -> Result<String, AllocError>
    ensures { IfOk result (λ m. m.bytes.items ≡ front.now ++ (decimal number ++ behind.now)) }
{
    format!(in alloc; "{front}{number}{behind}")
}

fn no_reading(alloc: Global, cause: &str, offset: usize) -> Result<String, AllocError>
    ensures { IfOk result (λ m. m.bytes.items ≡ no_reading_of cause.now offset) }
{
    format!(in alloc;
        "the bytes can't be read as a WIT package or world: {cause} (at byte {offset})"
    )
}
