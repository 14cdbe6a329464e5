//! Custom sections of core modules.

ghost use Rattle.std.specs.Prelude.{◌≡◌, ◌++◌, length, IfErr, OnOk};
ghost use Rattle.comp_bytes.specs.{Form.Name, Number.IsU32, Writing.framed, Writing.name_bytes, Writing.u32_bytes};
ghost use Rattle.witc_written.specs.Carried.{RefusesSection, section_contents};

use std::alloc::Global;
use wit_component::{Error, write_name, write_u32};

/// Appends a custom section of this name.
pub fn put_section(out: &mut Vec<u8>, alloc: Global, name: &str, data: &[u8]) -> Result<(), Error>
    ensures put { OnOk result (out.new.items ≡ out.old.items ++ framed 0 (section_contents name.now «data».now)) }
    ensures named { OnOk result (Name name.now (name_bytes name.now)) }
    ensures counted { OnOk result (IsU32 (length (section_contents name.now «data».now)) (u32_bytes (length (section_contents name.now «data».now)))) }
    ensures refused { IfErr result (RefusesSection name.now «data».now) }
{
    let mut contents = Vec::new(alloc);
    write_name(&mut contents, name)?;
    contents.extend_from_slice(data)?;
    if contents.len() > 0xffff_ffff {
        return Err(Error::Size);
    }
    out.extend_from_slice(&[0])?;
    write_u32(out, contents.len() as u32)?;
    out.extend_from_slice(&contents)?;
    Ok(())
}
