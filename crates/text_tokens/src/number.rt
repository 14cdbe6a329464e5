//! Digits and versions, byte by byte.

ghost use Rattle.std.specs.Prelude.{◌≡◌};
ghost use Rattle.semver.specs.Grammar.{is_identifier_byte as is_identifier_byte_lem};
ghost use Rattle.text_tokens.specs.Numbers.{
  build_is_ok as build_is_ok_lem,
  core_is_dead as core_is_dead_lem,
  core_is_digits as core_is_digits_lem,
  core_is_ok as core_is_ok_lem,
  core_step as core_step_lem,
  digits_are_ok as digits_are_ok_lem,
  number_is_dead as number_is_dead_lem,
  number_is_ok as number_is_ok_lem,
  number_start as number_start_lem,
  number_step as number_step_lem,
  numeral_is_ok as numeral_is_ok_lem,
  part_step as part_step_lem,
  pre_is_ok as pre_is_ok_lem,
  release_is_dead as release_is_dead_lem,
  release_is_ok as release_is_ok_lem,
  release_step as release_step_lem,
  is_bad as is_bad_lem,
  after_letter,
  after_digit,
  after_zero,
};

/// What stands between two dots of a version, so far.
#[derive(Clone, Copy)]
pub(crate) enum Part {
    /// Nothing.
    Empty,
    /// `0`.
    Zero,
    /// Digits that begin with a zero.
    Zeros,
    /// Digits that begin with none.
    Digits,
    /// Letters, digits and dashes, not all of them digits.
    Letters,
    /// No part of any version.
    Bad,
}

/// A version's numbers, so far: how many dots, and what stands after the last.
#[derive(Clone, Copy)]
pub(crate) struct Core {
    dots: u8,
    part: Part,
}

/// A version without build metadata, so far: in its numbers, or in its pre-release.
#[derive(Clone, Copy)]
pub(crate) enum Release {
    InCore(Core),
    InPre(Part),
    Neither,
}

/// Digits or a version, so far: before its build metadata, or in it.
#[derive(Clone, Copy)]
pub(crate) enum Number {
    InRelease(Release),
    InBuild(Part),
    Nowhere,
}

fn is_identifier_byte(byte: u8) -> bool
    ensures { result ≡ is_identifier_byte_lem byte }
{
    byte.is_ascii_digit() || byte.is_ascii_uppercase() || byte.is_ascii_lowercase() || byte == b'-'
}

fn zero_step(part: Part) -> Part
    ensures { result ≡ after_zero part }
{
    match part {
        Part::Empty => Part::Zero,
        Part::Zero => Part::Zeros,
        Part::Zeros => Part::Zeros,
        Part::Digits => Part::Digits,
        Part::Letters => Part::Letters,
        Part::Bad => Part::Bad,
    }
}

fn digit_step(part: Part) -> Part
    ensures { result ≡ after_digit part }
{
    match part {
        Part::Empty => Part::Digits,
        Part::Zero => Part::Zeros,
        Part::Zeros => Part::Zeros,
        Part::Digits => Part::Digits,
        Part::Letters => Part::Letters,
        Part::Bad => Part::Bad,
    }
}

fn letter_step(part: Part) -> Part
    ensures { result ≡ after_letter part }
{
    match part {
        Part::Bad => Part::Bad,
        Part::Empty => Part::Letters,
        Part::Zero => Part::Letters,
        Part::Zeros => Part::Letters,
        Part::Digits => Part::Letters,
        Part::Letters => Part::Letters,
    }
}

fn part_step(part: Part, byte: u8) -> Part
    ensures { result ≡ part_step_lem part byte }
{
    if byte == b'0' {
        zero_step(part)
    } else if byte.is_ascii_digit() {
        digit_step(part)
    } else if is_identifier_byte(byte) {
        letter_step(part)
    } else {
        Part::Bad
    }
}

/// Whether it is digits.
fn digits_are_ok(part: Part) -> bool
    ensures { result ≡ digits_are_ok_lem part }
{
    match part {
        Part::Zero => true,
        Part::Zeros => true,
        Part::Digits => true,
        Part::Empty => false,
        Part::Letters => false,
        Part::Bad => false,
    }
}

/// Whether it is a numeral.
fn numeral_is_ok(part: Part) -> bool
    ensures { result ≡ numeral_is_ok_lem part }
{
    match part {
        Part::Zero => true,
        Part::Digits => true,
        Part::Empty => false,
        Part::Zeros => false,
        Part::Letters => false,
        Part::Bad => false,
    }
}

/// Whether it is an identifier of a pre-release.
fn pre_is_ok(part: Part) -> bool
    ensures { result ≡ pre_is_ok_lem part }
{
    match part {
        Part::Zero => true,
        Part::Digits => true,
        Part::Letters => true,
        Part::Empty => false,
        Part::Zeros => false,
        Part::Bad => false,
    }
}

/// Whether it is an identifier of build metadata.
fn build_is_ok(part: Part) -> bool
    ensures { result ≡ build_is_ok_lem part }
{
    match part {
        Part::Zero => true,
        Part::Zeros => true,
        Part::Digits => true,
        Part::Letters => true,
        Part::Empty => false,
        Part::Bad => false,
    }
}

fn is_bad(part: Part) -> bool
    ensures { result ≡ is_bad_lem part }
{
    match part {
        Part::Bad => true,
        Part::Empty => false,
        Part::Zero => false,
        Part::Zeros => false,
        Part::Digits => false,
        Part::Letters => false,
    }
}

fn core_is_ok(core: Core) -> bool
    ensures { result ≡ core_is_ok_lem core }
{
    core.dots == 2 && numeral_is_ok(core.part)
}

/// Whether it is digits alone.
fn core_is_digits(core: Core) -> bool
    ensures { result ≡ core_is_digits_lem core }
{
    core.dots == 0 && digits_are_ok(core.part)
}

fn core_is_dead(core: Core) -> bool
    ensures { result ≡ core_is_dead_lem core }
{
    is_bad(core.part) || (pre_is_ok(core.part) && !numeral_is_ok(core.part))
}

fn core_step(core: Core, byte: u8) -> Core
    ensures { result ≡ core_step_lem core byte }
{
    if byte == b'.' {
        if numeral_is_ok(core.part) && core.dots < 2 {
            Core {
                dots: core.dots + 1,
                part: Part::Empty,
            }
        } else {
            Core {
                dots: core.dots,
                part: Part::Bad,
            }
        }
    } else {
        Core {
            dots: core.dots,
            part: part_step(core.part, byte),
        }
    }
}

fn release_is_ok(release: Release) -> bool
    ensures { result ≡ release_is_ok_lem release }
{
    match release {
        Release::InCore(core) => core_is_ok(core),
        Release::InPre(part) => pre_is_ok(part),
        Release::Neither => false,
    }
}

fn release_is_dead(release: Release) -> bool
    ensures { result ≡ release_is_dead_lem release }
{
    match release {
        Release::InCore(core) => core_is_dead(core),
        Release::InPre(part) => is_bad(part),
        Release::Neither => true,
    }
}

fn pre_step(part: Part, byte: u8) -> Release
    ensures { result ≡ release_step_lem (Release.InPre part) byte }
{
    if byte == b'.' {
        if pre_is_ok(part) {
            Release::InPre(Part::Empty)
        } else {
            Release::Neither
        }
    } else {
        Release::InPre(part_step(part, byte))
    }
}

fn release_step(release: Release, byte: u8) -> Release
    ensures { result ≡ release_step_lem release byte }
{
    match release {
        Release::InCore(core) => {
            if byte == b'-' {
                if core_is_ok(core) {
                    Release::InPre(Part::Empty)
                } else {
                    Release::Neither
                }
            } else {
                Release::InCore(core_step(core, byte))
            }
        }
        Release::InPre(part) => pre_step(part, byte),
        Release::Neither => Release::Neither,
    }
}

/// Before the first byte.
pub(crate) fn number_start() -> Number
    ensures { result ≡ number_start_lem }
{
    Number::InRelease(Release::InCore(Core {
        dots: 0,
        part: Part::Empty,
    }))
}

/// Whether the bytes so far are digits or a version.
pub(crate) fn number_is_ok(number: Number) -> bool
    ensures { result ≡ number_is_ok_lem number }
{
    match number {
        Number::InRelease(Release::InCore(core)) => core_is_digits(core) || core_is_ok(core),
        Number::InRelease(Release::InPre(part)) => pre_is_ok(part),
        Number::InRelease(Release::Neither) => false,
        Number::InBuild(part) => build_is_ok(part),
        Number::Nowhere => false,
    }
}

/// Whether no more bytes can make digits or a version of them.
pub(crate) fn number_is_dead(number: Number) -> bool
    ensures { result ≡ number_is_dead_lem number }
{
    match number {
        Number::InRelease(release) => release_is_dead(release),
        Number::InBuild(part) => is_bad(part),
        Number::Nowhere => true,
    }
}

fn build_step(part: Part, byte: u8) -> Number
    ensures { result ≡ number_step_lem (Number.InBuild part) byte }
{
    if byte == b'.' {
        if build_is_ok(part) {
            Number::InBuild(Part::Empty)
        } else {
            Number::Nowhere
        }
    } else {
        Number::InBuild(part_step(part, byte))
    }
}

/// A byte more.
pub(crate) fn number_step(number: Number, byte: u8) -> Number
    ensures { result ≡ number_step_lem number byte }
{
    match number {
        Number::InRelease(release) => {
            if byte == b'+' {
                if release_is_ok(release) {
                    Number::InBuild(Part::Empty)
                } else {
                    Number::Nowhere
                }
            } else {
                Number::InRelease(release_step(release, byte))
            }
        }
        Number::InBuild(part) => build_step(part, byte),
        Number::Nowhere => Number::Nowhere,
    }
}
