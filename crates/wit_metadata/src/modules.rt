//! Core modules, and the sections of them that carry worlds.

ghost use Rattle.std.specs.Prelude.{◌≡◌, ◌≤◌, ◌^◌, ◌++◌, length, Err, None, IfErr, IfOk, OnOk};
ghost use Rattle.comp_bytes.specs.{Refusal.IsMemoryOrSize, Writing.framed};
ghost use Rattle.wit_model.specs.declared.error.Error.TheVariants.{BadModule, NotAModule, Size};
ghost use Rattle.wit_metadata.specs.Modules.{HasData, IsFrontData, IsFrontless, IsFrontSection, IsNoModule, RefusesModule, StripsModule, TellsCarrying, module_preamble};

use comp_bytes::{Section, custom_name, front_section, write_u32};
use std::alloc::Global;
use wit_model::Error;

/// The bytes with which a core module begins.
const PREAMBLE: [u8; 8] = [0x00, 0x61, 0x73, 0x6d, 0x01, 0x00, 0x00, 0x00];

// Whether a section with this id and these contents carries a world, or a refusal where it is a custom section without a name.
fn carries_world(id: u8, contents: &[u8]) -> Result<bool, Error>
    ensures { TellsCarrying (id, contents.now) result }
{
    if id != 0 {
        return Ok(false);
    }
    match custom_name(contents) {
        Ok((name, _)) => Ok(name.starts_with("component-type")),
        Err(error) => Err(error),
    }
}

// The section in front, whether it carries a world, and the bytes behind it, or a refusal where no section stands there.
fn section_of(bytes: &[u8]) -> Result<(Section<'_>, bool, &[u8]), Error>
    ensures { IsFrontSection bytes.now result }
{
    match front_section(bytes) {
        Ok((section, rest)) => match carries_world(section.id, section.contents) {
            Ok(carries) => Ok((section, carries, rest)),
            Err(error) => Err(error),
        },
        Err(error) => Err(error),
    }
}

// Where no section begins, whatever the reader of sections says of it.
fn bad_module(_error: Error, offset: usize) -> Error
    ensures { result ≡ BadModule offset }
{
    Error::BadModule(offset)
}

/// The sections of a core module, which stand behind its preamble. Refuses with `NotAModule` what doesn't begin as one. Takes constant time, and no
/// memory.
pub fn sections_of(bytes: &[u8]) -> Result<&[u8], Error>
    ensures ok { IfOk result (λ rest. bytes.now ≡ module_preamble ++ rest.now) }
    ensures refuses { IfErr result (λ e. e ≡ NotAModule) }
    ensures none { IfErr result (λ e. IsNoModule bytes.now) }
{
    if bytes.starts_with(&PREAMBLE) {
        Ok(bytes.split_at(8).1)
    } else {
        Err(Error::NotAModule)
    }
}

// What stands behind the name of a custom section, or none where it has no name.
fn data_of(contents: &[u8]) -> Option<&[u8]>
    ensures { HasData contents.now result }
{
    match custom_name(contents) {
        Ok((_, data)) => Some(data),
        Err(error) => without_data(error),
    }
}

// A custom section without a name has no data, whatever the reader of names says of it.
fn without_data(_error: Error) -> Option<&'static [u8]>
    ensures { result ≡ None }
{
    None
}

/// The data of the section in front, where it carries a world, and the bytes behind that section. Where no section stands in front, or a custom one without
/// a name, the refusal is `BadModule` at the offset that is handed in. Takes time linear in the section's name, and no memory.
pub fn carried_in(bytes: &[u8], offset: usize) -> Result<(Option<&[u8]>, &[u8]), Error>
    ensures ok { IfOk result (λ x. IsFrontData bytes.now x.0 x.1.now) }
    ensures refuses { IfErr result (λ e. e ≡ BadModule offset) }
    ensures none { IfErr result (λ e. IsFrontless bytes.now) }
{
    match section_of(bytes) {
        Ok((section, carries, behind)) => {
            if carries {
                Ok((data_of(section.contents), behind))
            } else {
                Ok((None, behind))
            }
        }
        Err(error) => Err(bad_module(error, offset)),
    }
}

// Appends a section, its length in the shortest bytes.
fn put_section(out: &mut Vec<u8>, id: u8, contents: &[u8]) -> Result<(), Error>
    ensures ok { OnOk result (out.new.items ≡ out.old.items ++ framed id contents.now) }
    ensures size { result ≡ Err Size → 2 ^ 32 ≤ length contents.now }
    ensures refuses { IfErr result IsMemoryOrSize }
{
    let Ok(length) = u32::try_from(contents.len()) else {
        return Err(Error::Size);
    };
    out.push(id)?;
    write_u32(out, length)?;
    out.extend_from_slice(contents)?;
    Ok(())
}

/// A core module without the sections that carry worlds: custom ones whose name begins with `component-type`. The other sections stand in order,
/// with their ids and contents, each behind the shortest bytes of its length. None where no section carries a world.
///
/// Takes time linear in the module, and as much memory. Refuses with `NotAModule` what doesn't begin as a core module, with `BadModule` what
/// begins so and isn't sections to its end, each custom one with a name, at the offset of the first that is none; and with `Memory`.
pub fn stripped(alloc: Global, bytes: &[u8]) -> Result<Option<Vec<u8>>, Error>
    ensures strips { IfOk result (StripsModule bytes.now) }
    ensures refuses { IfErr result (RefusesModule bytes.now) }
{
    if !bytes.starts_with(&PREAMBLE) {
        return Err(Error::NotAModule);
    }
    let mut kept = Vec::new(alloc);
    kept.extend_from_slice(&PREAMBLE)?;
    let mut is_bound = false;
    let mut rest = bytes.split_at(8).1;
    while !rest.is_empty() {
        match section_of(rest) {
            Ok((section, carries, behind)) => {
                if carries {
                    is_bound = true;
                } else {
                    put_section(&mut kept, section.id, section.contents)?;
                }
                rest = behind;
            }
            Err(error) => return Err(bad_module(error, bytes.len() - rest.len())),
        }
    }
    if is_bound { Ok(Some(kept)) } else { Ok(None) }
}
