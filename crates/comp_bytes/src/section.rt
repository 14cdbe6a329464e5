//! Sections and what stands in them, behind what is there.

ghost use Rattle.std.specs.Prelude.{◌≡◌, ◌≤◌, ◌<◌, ◌+◌, ◌^◌, [], ◌∷◌, ◌++◌, false, Err, length, OnOk, OnErr, IfErr};
ghost use Rattle.wit_model.specs.declared.error.Error.TheVariants.{Size};
ghost use Rattle.wit_model.specs.Refusals.{IsMemory};
ghost use Rattle.comp_bytes.specs.{Raw.TopType, Form.Name, Refusal.IsMemoryOrSize, Held.Begins};
ghost use Rattle.comp_bytes.specs.{Spelling.IsTopType, Spelling.IsTopExport, Built.section_id as id_of, Built.begun, Built.closed_bytes, Fits.fits_length};
ghost use Rattle.comp_bytes.specs.{Writing.u32_bytes, Writing.name_bytes, Writing.top_type_bytes, Writing.top_export_bytes, Writing.framed, Parts.plain_export};

use crate::component::ComponentType;
use crate::name::{append_count, append_name, append_plain_name};
use crate::nested::append_body;
use crate::number::write_u32;
use wit_model::Error;

/// The id of a section of exports or of types.
fn section_id(exports: bool) -> u8
    ensures { result ≡ id_of exports }
{
    if exports { 0x0b } else { 0x07 }
}

fn append_component(out: &mut Vec<u8>, component: &ComponentType) -> Result<(), Error>
    ensures ok { OnOk result (out.new.items ≡ out.old.items ++ top_type_bytes (TopType.component component.now)) }
    ensures spelled { OnOk result (IsTopType (TopType.component component.now) (top_type_bytes (TopType.component component.now))) }
    ensures err { OnErr result (Begins out.old.items out.new.items) }
    ensures memory { IfErr result IsMemory }
{
    append_body(out, 0x41, component.count, &component.bytes)
}

/// Appends a component type. An `Err` leaves what was there.
pub(crate) fn put_component(out: &mut Vec<u8>, component: &ComponentType) -> Result<(), Error>
    ensures ok { OnOk result (out.new.items ≡ out.old.items ++ top_type_bytes (TopType.component component.now)) }
    ensures spelled { OnOk result (IsTopType (TopType.component component.now) (top_type_bytes (TopType.component component.now))) }
    ensures err { OnErr result (out.new.items ≡ out.old.items) }
    ensures memory { IfErr result IsMemory }
{
    let start = out.len();
    match append_component(out, component) {
        Ok(()) => Ok(()),
        Err(error) => {
            out.truncate(start);
            Err(error)
        }
    }
}

fn append_export(out: &mut Vec<u8>, name: &str, index: u32) -> Result<(), Error>
    ensures ok { OnOk result (out.new.items ≡ out.old.items ++ top_export_bytes (plain_export name.now index)) }
    ensures spelled { OnOk result (IsTopExport (plain_export name.now index) (top_export_bytes (plain_export name.now index))) }
    ensures err { OnErr result (Begins out.old.items out.new.items) }
    ensures size { result ≡ Err Size → fits_length name.now ≡ false }
    ensures refuses { IfErr result IsMemoryOrSize }
{
    append_plain_name(out, name)?;
    out.push(0x03)?;
    write_u32(out, index)?;
    out.push(0x00)?;
    Ok(())
}

/// Appends an export. An `Err` leaves what was there.
pub(crate) fn put_export(out: &mut Vec<u8>, name: &str, index: u32) -> Result<(), Error>
    ensures ok { OnOk result (out.new.items ≡ out.old.items ++ top_export_bytes (plain_export name.now index)) }
    ensures spelled { OnOk result (IsTopExport (plain_export name.now index) (top_export_bytes (plain_export name.now index))) }
    ensures err { OnErr result (out.new.items ≡ out.old.items) }
    ensures size { result ≡ Err Size → fits_length name.now ≡ false }
    ensures refuses { IfErr result IsMemoryOrSize }
{
    let start = out.len();
    match append_export(out, name, index) {
        Ok(()) => Ok(()),
        Err(error) => {
            out.truncate(start);
            Err(error)
        }
    }
}

/// Appends the preamble of a component, if nothing stands there yet. An `Err` leaves what was there.
fn append_preamble(out: &mut Vec<u8>) -> Result<(), Error>
    ensures ok { OnOk result (out.new.items ≡ begun out.old.items) }
    ensures err { OnErr result (out.new.items ≡ out.old.items) }
    ensures memory { IfErr result IsMemory }
{
    if out.is_empty() {
        Ok(out.extend_from_slice(&[0x00, 0x61, 0x73, 0x6d, 0x0d, 0x00, 0x01, 0x00])?)
    } else {
        Ok(())
    }
}

/// How many bytes a number takes in its shortest form.
fn u32_length(number: u32) -> usize
    ensures { result ≡ length (u32_bytes number) }
{
    if number < 0x80 {
        1
    } else if number < 0x4000 {
        2
    } else if number < 0x20_0000 {
        3
    } else if number < 0x1000_0000 {
        4
    } else {
        5
    }
}

/// Appends the id and the length of a section, if the sum of two lengths fits. An `Err` may leave some of it.
fn append_frame(out: &mut Vec<u8>, id: u8, first: usize, second: usize) -> Result<(), Error>
    ensures ok { OnOk result (out.new.items ≡ out.old.items ++ id ∷ u32_bytes (first + second)) }
    ensures small { OnOk result (first + second < 2 ^ 32) }
    ensures err { OnErr result (Begins out.old.items out.new.items) }
    ensures size { result ≡ Err Size → 2 ^ 32 ≤ first + second }
    ensures refuses { IfErr result IsMemoryOrSize }
{
    let Some(length) = first.checked_add(second) else {
        return Err(Error::Size);
    };
    out.push(id)?;
    append_count(out, length)
}

/// Appends a section: its id, its length, how many items it has, and the items. An `Err` may leave some of it.
fn append_section(out: &mut Vec<u8>, id: u8, count: u32, items: &[u8]) -> Result<(), Error>
    ensures ok { OnOk result (out.new.items ≡ out.old.items ++ framed id (u32_bytes count ++ items.now)) }
    ensures small { OnOk result (length (u32_bytes count ++ items.now) < 2 ^ 32) }
    ensures err { OnErr result (Begins out.old.items out.new.items) }
    ensures size { result ≡ Err Size → 2 ^ 32 ≤ length (u32_bytes count ++ items.now) }
    ensures refuses { IfErr result IsMemoryOrSize }
{
    append_frame(out, id, u32_length(count), items.len())?;
    write_u32(out, count)?;
    out.extend_from_slice(items)?;
    Ok(())
}

/// Appends the open section, and the preamble in front of the first. An `Err` may leave some of it.
fn append_closed(out: &mut Vec<u8>, exports: bool, count: u32, items: &[u8]) -> Result<(), Error>
    ensures ok { OnOk result (out.new.items ≡ begun out.old.items ++ closed_bytes (id_of exports) count items.now) }
    ensures small { OnOk result (0 < count → length (u32_bytes count ++ items.now) < 2 ^ 32) }
    ensures err { OnErr result (Begins out.old.items out.new.items) }
    ensures size { result ≡ Err Size → 2 ^ 32 ≤ length (closed_bytes (id_of exports) count items.now) }
    ensures refuses { IfErr result IsMemoryOrSize }
{
    append_preamble(out)?;
    if count > 0 {
        append_section(out, section_id(exports), count, items)
    } else {
        Ok(())
    }
}

/// Appends the open section, and the preamble in front of the first. An `Err` leaves what was there.
pub(crate) fn close(out: &mut Vec<u8>, exports: bool, count: u32, items: &[u8]) -> Result<(), Error>
    ensures ok { OnOk result (out.new.items ≡ begun out.old.items ++ closed_bytes (id_of exports) count items.now) }
    ensures few { OnOk result (count < 2 ^ 32) }
    ensures small { OnOk result (0 < count → length (u32_bytes count ++ items.now) < 2 ^ 32) }
    ensures err { OnErr result (out.new.items ≡ out.old.items) }
    ensures size { result ≡ Err Size → 2 ^ 32 ≤ length (closed_bytes (id_of exports) count items.now) }
    ensures refuses { IfErr result IsMemoryOrSize }
{
    let start = out.len();
    match append_closed(out, exports, count, items) {
        Ok(()) => Ok(()),
        Err(error) => {
            out.truncate(start);
            Err(error)
        }
    }
}

/// Appends a custom section: its id, its length, its name and its contents. An `Err` may leave some of it.
fn append_contents(out: &mut Vec<u8>, name: &str, contents: &[u8]) -> Result<(), Error>
    ensures ok { OnOk result (out.new.items ≡ out.old.items ++ framed 0 (name_bytes name.now ++ contents.now)) }
    ensures spelled { OnOk result (Name name.now (name_bytes name.now)) }
    ensures small { OnOk result (length (name_bytes name.now ++ contents.now) < 2 ^ 32) }
    ensures err { OnErr result (Begins out.old.items out.new.items) }
    ensures size { result ≡ Err Size → 2 ^ 32 ≤ length (name_bytes name.now ++ contents.now) }
    ensures refuses { IfErr result IsMemoryOrSize }
{
    let Ok(size) = u32::try_from(name.len()) else {
        return Err(Error::Size);
    };
    let Some(length) = name.len().checked_add(u32_length(size)) else {
        return Err(Error::Size);
    };
    append_frame(out, 0x00, length, contents.len())?;
    append_name(out, name)?;
    out.extend_from_slice(contents)?;
    Ok(())
}

/// Appends the open section and a custom section. An `Err` may leave some of it.
fn append_custom(
    out: &mut Vec<u8>,
    exports: bool,
    count: u32,
    items: &[u8],
    name: &str,
    contents: &[u8],
) -> Result<(), Error>
    ensures ok { OnOk result (out.new.items ≡ (begun out.old.items ++ closed_bytes (id_of exports) count items.now)
        ++ framed 0 (name_bytes name.now ++ contents.now)) }
    ensures open_small { OnOk result (0 < count → length (u32_bytes count ++ items.now) < 2 ^ 32) }
    ensures spelled { OnOk result (Name name.now (name_bytes name.now)) }
    ensures small { OnOk result (length (name_bytes name.now ++ contents.now) < 2 ^ 32) }
    ensures err { OnErr result (Begins out.old.items out.new.items) }
    ensures size { result ≡ Err Size → 2 ^ 32 ≤ length (closed_bytes (id_of exports) count items.now ++ framed 0 (name_bytes name.now ++ contents.now)) }
    ensures refuses { IfErr result IsMemoryOrSize }
{
    append_closed(out, exports, count, items)?;
    append_contents(out, name, contents)
}

/// Appends the open section and a custom section. An `Err` leaves what was there.
pub(crate) fn put_custom(
    out: &mut Vec<u8>,
    exports: bool,
    count: u32,
    items: &[u8],
    name: &str,
    contents: &[u8],
) -> Result<(), Error>
    ensures ok { OnOk result (out.new.items ≡ (begun out.old.items ++ closed_bytes (id_of exports) count items.now)
        ++ framed 0 (name_bytes name.now ++ contents.now)) }
    ensures open_small { OnOk result (0 < count → length (u32_bytes count ++ items.now) < 2 ^ 32) }
    ensures spelled { OnOk result (Name name.now (name_bytes name.now)) }
    ensures small { OnOk result (length (name_bytes name.now ++ contents.now) < 2 ^ 32) }
    ensures err { OnErr result (out.new.items ≡ out.old.items) }
    ensures size { result ≡ Err Size → 2 ^ 32 ≤ length (closed_bytes (id_of exports) count items.now ++ framed 0 (name_bytes name.now ++ contents.now)) }
    ensures refuses { IfErr result IsMemoryOrSize }
{
    let start = out.len();
    match append_custom(out, exports, count, items, name, contents) {
        Ok(()) => Ok(()),
        Err(error) => {
            out.truncate(start);
            Err(error)
        }
    }
}
