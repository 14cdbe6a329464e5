//! Whole declarations (`instancedecl` and `componentdecl`), behind what is there. An `Err` leaves what was there.

ghost use Rattle.std.specs.Prelude.{◌≡◌, ◌++◌, false, Err, OnOk, OnErr, IfErr};
ghost use Rattle.wit_model.specs.declared.error.Error.TheVariants.{Size};
ghost use Rattle.comp_bytes.specs.{Raw.Declaration, Form.Joined, Spelling.IsExternName, Spelling.IsDescription, Spelling.IsDeclaration, Refusal.IsMemoryOrSize};
ghost use Rattle.comp_bytes.specs.{Writing.extern_name_bytes, Writing.description_bytes, Writing.declaration_bytes, Fits.fits_name, Fits.fits_declaration};
ghost use Rattle.comp_bytes.specs.{RawOf.raw_defined, RawOf.raw_function, RawOf.raw_alias, RawOf.raw_name, Appending.Appends, Appending.AppendsDeclaration};

use crate::append::{
    append_alias, append_defined_type, append_description, append_extern_name, append_function_type,
};
use crate::forms::{
    Alias, ComponentDefinedType, ComponentExternName, ComponentFuncType, ComponentTypeRef,
};
use wit_model::Error;

fn append_defined(out: &mut Vec<u8>, def: &ComponentDefinedType) -> Result<(), Error>
    ensures { AppendsDeclaration (Declaration.defined (raw_defined def.now)) out.old.items out.new.items result }
{
    out.push(0x01)?;
    append_defined_type(out, def)
}

pub(crate) fn declare_defined(out: &mut Vec<u8>, def: &ComponentDefinedType) -> Result<(), Error>
    ensures ok { OnOk result (out.new.items ≡ out.old.items ++ declaration_bytes (Declaration.defined (raw_defined def.now))) }
    ensures spelled { OnOk result (IsDeclaration (Declaration.defined (raw_defined def.now)) (declaration_bytes (Declaration.defined (raw_defined def.now)))) }
    ensures err { OnErr result (out.new.items ≡ out.old.items) }
    ensures size { result ≡ Err Size → fits_declaration (Declaration.defined (raw_defined def.now)) ≡ false }
    ensures refuses { IfErr result IsMemoryOrSize }
{
    let start = out.len();
    match append_defined(out, def) {
        Ok(()) => Ok(()),
        Err(error) => {
            out.truncate(start);
            Err(error)
        }
    }
}

fn append_function(out: &mut Vec<u8>, function: &ComponentFuncType) -> Result<(), Error>
    ensures { AppendsDeclaration (Declaration.function (raw_function function.now)) out.old.items out.new.items result }
{
    out.push(0x01)?;
    append_function_type(out, function)
}

pub(crate) fn declare_function(out: &mut Vec<u8>, function: &ComponentFuncType) -> Result<(), Error>
    ensures ok { OnOk result (out.new.items ≡ out.old.items ++ declaration_bytes (Declaration.function (raw_function function.now))) }
    ensures spelled { OnOk result (IsDeclaration (Declaration.function (raw_function function.now))
        (declaration_bytes (Declaration.function (raw_function function.now)))) }
    ensures err { OnErr result (out.new.items ≡ out.old.items) }
    ensures size { result ≡ Err Size → fits_declaration (Declaration.function (raw_function function.now)) ≡ false }
    ensures refuses { IfErr result IsMemoryOrSize }
{
    let start = out.len();
    match append_function(out, function) {
        Ok(()) => Ok(()),
        Err(error) => {
            out.truncate(start);
            Err(error)
        }
    }
}

fn append_alias_of(out: &mut Vec<u8>, alias: &Alias) -> Result<(), Error>
    ensures { AppendsDeclaration (Declaration.alias_of (raw_alias alias.now)) out.old.items out.new.items result }
{
    out.push(0x02)?;
    append_alias(out, alias)
}

pub(crate) fn declare_alias(out: &mut Vec<u8>, alias: &Alias) -> Result<(), Error>
    ensures ok { OnOk result (out.new.items ≡ out.old.items ++ declaration_bytes (Declaration.alias_of (raw_alias alias.now))) }
    ensures spelled { OnOk result (IsDeclaration (Declaration.alias_of (raw_alias alias.now))
        (declaration_bytes (Declaration.alias_of (raw_alias alias.now)))) }
    ensures err { OnErr result (out.new.items ≡ out.old.items) }
    ensures size { result ≡ Err Size → fits_declaration (Declaration.alias_of (raw_alias alias.now)) ≡ false }
    ensures refuses { IfErr result IsMemoryOrSize }
{
    let start = out.len();
    match append_alias_of(out, alias) {
        Ok(()) => Ok(()),
        Err(error) => {
            out.truncate(start);
            Err(error)
        }
    }
}

/// The name of an import or an export, and what it is.
fn append_named(
    out: &mut Vec<u8>,
    name: &ComponentExternName,
    ty: ComponentTypeRef,
) -> Result<(), Error>
    ensures { Appends (Joined (IsExternName (raw_name name.now)) (IsDescription ty))
        (extern_name_bytes (raw_name name.now) ++ description_bytes ty)
        (fits_name (raw_name name.now)) out.old.items out.new.items result }
{
    append_extern_name(out, name)?;
    append_description(out, ty)
}

fn append_import(
    out: &mut Vec<u8>,
    name: &ComponentExternName,
    ty: ComponentTypeRef,
) -> Result<(), Error>
    ensures { AppendsDeclaration (Declaration.imported (raw_name name.now) ty) out.old.items out.new.items result }
{
    out.push(0x03)?;
    append_named(out, name, ty)
}

fn append_export(
    out: &mut Vec<u8>,
    name: &ComponentExternName,
    ty: ComponentTypeRef,
) -> Result<(), Error>
    ensures { AppendsDeclaration (Declaration.exported (raw_name name.now) ty) out.old.items out.new.items result }
{
    out.push(0x04)?;
    append_named(out, name, ty)
}

pub(crate) fn declare_import(
    out: &mut Vec<u8>,
    name: &ComponentExternName,
    ty: ComponentTypeRef,
) -> Result<(), Error>
    ensures ok { OnOk result (out.new.items ≡ out.old.items ++ declaration_bytes (Declaration.imported (raw_name name.now) ty)) }
    ensures spelled { OnOk result (IsDeclaration (Declaration.imported (raw_name name.now) ty)
        (declaration_bytes (Declaration.imported (raw_name name.now) ty))) }
    ensures err { OnErr result (out.new.items ≡ out.old.items) }
    ensures size { result ≡ Err Size → fits_declaration (Declaration.imported (raw_name name.now) ty) ≡ false }
    ensures refuses { IfErr result IsMemoryOrSize }
{
    let start = out.len();
    match append_import(out, name, ty) {
        Ok(()) => Ok(()),
        Err(error) => {
            out.truncate(start);
            Err(error)
        }
    }
}

pub(crate) fn declare_export(
    out: &mut Vec<u8>,
    name: &ComponentExternName,
    ty: ComponentTypeRef,
) -> Result<(), Error>
    ensures ok { OnOk result (out.new.items ≡ out.old.items ++ declaration_bytes (Declaration.exported (raw_name name.now) ty)) }
    ensures spelled { OnOk result (IsDeclaration (Declaration.exported (raw_name name.now) ty)
        (declaration_bytes (Declaration.exported (raw_name name.now) ty))) }
    ensures err { OnErr result (out.new.items ≡ out.old.items) }
    ensures size { result ≡ Err Size → fits_declaration (Declaration.exported (raw_name name.now) ty) ≡ false }
    ensures refuses { IfErr result IsMemoryOrSize }
{
    let start = out.len();
    match append_export(out, name, ty) {
        Ok(()) => Ok(()),
        Err(error) => {
            out.truncate(start);
            Err(error)
        }
    }
}
