//! Worlds of packages, as sections of modules carry them.

ghost use Rattle.std.specs.Prelude.{◌≡◌, IfErr, IfOk, OnOk};
ghost use Rattle.wit_component.specs.{Bound.RefusesBindings, Reached.OutgrowsLists};
ghost use Rattle.wit_model.specs.declared.error.Error.TheVariants.{Size};
ghost use Rattle.witc_written.specs.Carried.{AttachesIfThere, BindsSomething, EmbedsIfThere, IsCarried, RefusesAttached, RefusesEmbedded, RefusesSection, section_name, with_section};

use crate::sections::put_section;
use std::alloc::Global;
use wit_component::laws::bound_once;
use wit_component::{Error, StringEncoding, decode, metadata};
use witc_texts::world_of;

/// The data of a section that carries the package's world of this name, or none where there is no such world.
pub fn embed(
    alloc: Global,
    bytes: &[u8],
    name: &str,
    encoding: StringEncoding,
    canonical_names: bool,
) -> Result<Option<Vec<u8>>, Error>
    ensures embedded { IfOk result (EmbedsIfThere bytes.now name.now encoding canonical_names) }
    ensures refused { IfErr result (RefusesEmbedded bytes.now name.now canonical_names) }
{
    let (resolve, id) = decode(alloc, bytes)?;
    let Some(world) = world_of(&resolve, id, name) else {
        return Ok(None);
    };
    let data = metadata::encode(alloc, &resolve, world, encoding, canonical_names)?;
    Ok(Some(data))
}

/// The core module with one more section, at its end, that carries the package's world of this name; or none where there is no such world.
///
/// The package and the name are looked at first. Then the module alone is refused as `metadata::decode` refuses it, at its own offset: a module that was cut
/// short would take the section for the rest of what it lacks. Then what all sections bind is tried: the world is bound beside what the module bound before,
/// or the result is refused as `metadata::decode` refuses it.
pub fn attach(
    alloc: Global,
    module: &[u8],
    package: &[u8],
    name: &str,
    encoding: StringEncoding,
    canonical_names: bool,
) -> Result<Option<Vec<u8>>, Error>
    ensures attached { IfOk result (AttachesIfThere «module».now «package».now name.now encoding canonical_names) }
    ensures refused { IfErr result (RefusesAttached «module».now «package».now name.now encoding canonical_names) }
{
    bound_once();
    let Some(data) = embed(alloc, package, name, encoding, canonical_names)? else {
        return Ok(None);
    };
    try_bindings(alloc, module)?;
    let out = joined(alloc, module, name, &data)?;
    try_bindings(alloc, &out)?;
    Ok(Some(out))
}

/// Whether a module binds something, or its refusal.
fn try_bindings(alloc: Global, bytes: &[u8]) -> Result<(), Error>
    ensures bound { OnOk result (BindsSomething bytes.now) }
    ensures refused { IfErr result (RefusesBindings bytes.now) }
    ensures size { IfErr result (λ e. e ≡ Size → OutgrowsLists bytes.now) }
{
    let (_stripped, _bound) = metadata::decode(alloc, bytes)?;
    Ok(())
}

/// The module with one more section, of this data.
fn joined(alloc: Global, module: &[u8], name: &str, data: &[u8]) -> Result<Vec<u8>, Error>
    ensures joined { IfOk result (λ out. out.items ≡ with_section «module».now name.now «data».now) }
    ensures carried { OnOk result (IsCarried name.now «data».now) }
    ensures refused { IfErr result (RefusesSection (section_name name.now) «data».now) }
{
    let section = format!(in alloc; "component-type:{name}")?;
    let mut out = Vec::from_slice(alloc, module)?;
    put_section(&mut out, alloc, &section, data)?;
    Ok(out)
}
