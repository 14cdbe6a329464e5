//! A component type under construction.

ghost use Rattle.std.specs.Prelude.{◌≡◌, false, Err, OnOk, OnErr, IfErr};
ghost use Rattle.wit_model.specs.declared.error.Error.TheVariants.{Size};
ghost use Rattle.comp_bytes.specs.{Raw.Declaration, Raw.Declarations, Raw.append, Raw.from_list, Held.type_slots_of, Held.fits_added, Held.fits_behind};
ghost use Rattle.comp_bytes.specs.{RawOf.raw_defined, RawOf.raw_function, RawOf.raw_alias, RawOf.raw_name, Refusal.IsMemoryOrSize};

use crate::declare::{
    declare_alias, declare_defined, declare_export, declare_function, declare_import,
};
use crate::forms::{
    Alias, ComponentDefinedType, ComponentExternName, ComponentFuncType, ComponentTypeRef,
};
use crate::instance::InstanceType;
use crate::nested::{counts_on, declare_nested, described_slots};
use std::alloc::Global;
use std::marker::Model;
use wit_model::Error;

/// The declarations of a component type (`componenttype`), as their bytes.
///
/// Each call appends one declaration, in its shortest bytes, in amortised time linear in them. An `Err` appends nothing:
/// `Memory` where a growth was refused, `Size` where a length or a count in the declaration, the number of declarations or
/// the number of type indexes doesn't fit in 32 bits.
#[derive(Drop)]
pub struct ComponentType {
    pub(crate) bytes: Vec<u8>,
    pub(crate) count: u32,
    types: u32,
}

impl Model for ComponentType {
    ghost use Rattle.comp_bytes.specs.Raw.{Declarations};
    ghost use Rattle.comp_bytes.specs.Codes.{declarations_code};
    ghost use Rattle.comp_bytes.specs.Held.{nested_in, HoldsNested};

    ghost Value = { Declarations };

    ghost coded = { declarations_code };

    ghost view = { λ t. nested_in t.count t.bytes.items };

    ghost invariant = { λ t. HoldsNested t.count t.bytes.items t.types };
}

impl ComponentType {
    /// No declarations. Takes no memory.
    pub fn new(alloc: Global) -> Self
        ensures { result ≡ Declarations.no_more }
    {
        ComponentType {
            bytes: Vec::new(alloc),
            count: 0,
            types: 0,
        }
    }

    /// How many type indexes the declarations take: one for each type, each alias and each import or export of a type. Takes
    /// constant time.
    pub fn type_count(&self) -> u32
        ensures { result ≡ type_slots_of self.now }
    {
        self.types
    }

    /// Defines a value type, which takes the next type index.
    ///
    /// Takes amortised time linear in the bytes that it appends. An `Err` appends nothing: `Memory` where a growth was refused, or
    /// `Size` where it, or a count with it, doesn't fit in 32 bits.
    pub fn defined(&mut self, def: &ComponentDefinedType) -> Result<(), Error>
        ensures ok { OnOk result (self.new ≡ append self.old (Declarations.declares (Declaration.defined (raw_defined def.now)) Declarations.no_more)) }
        ensures err { OnErr result (self.new ≡ self.old) }
        ensures size { result ≡ Err Size → fits_behind self.old (Declaration.defined (raw_defined def.now)) ≡ false }
        ensures refuses { IfErr result IsMemoryOrSize }
    {
        let (count, types) = counts_on(self.count, self.types, 1)?;
        declare_defined(&mut self.bytes, def)?;
        self.count = count;
        self.types = types;
        Ok(())
    }

    /// Defines a function type, which takes the next type index.
    ///
    /// Takes amortised time linear in the bytes that it appends. An `Err` appends nothing: `Memory` where a growth was refused, or
    /// `Size` where it, or a count with it, doesn't fit in 32 bits.
    pub fn function(&mut self, function: &ComponentFuncType) -> Result<(), Error>
        ensures ok { OnOk result (self.new ≡ append self.old (Declarations.declares (Declaration.function (raw_function function.now)) Declarations.no_more)) }
        ensures err { OnErr result (self.new ≡ self.old) }
        ensures size { result ≡ Err Size → fits_behind self.old (Declaration.function (raw_function function.now)) ≡ false }
        ensures refuses { IfErr result IsMemoryOrSize }
    {
        let (count, types) = counts_on(self.count, self.types, 1)?;
        declare_function(&mut self.bytes, function)?;
        self.count = count;
        self.types = types;
        Ok(())
    }

    /// Defines an instance type, which takes the next type index. It is copied.
    ///
    /// Takes amortised time linear in the bytes that it appends. An `Err` appends nothing: `Memory` where a growth was refused, or
    /// `Size` where it, or a count with it, doesn't fit in 32 bits.
    pub fn instance(&mut self, instance: &InstanceType) -> Result<(), Error>
        ensures ok { OnOk result (self.new ≡ append self.old (Declarations.instance (from_list instance.now) Declarations.no_more)) }
        ensures err { OnErr result (self.new ≡ self.old) }
        ensures size { result ≡ Err Size → fits_added self.old 1 ≡ false }
        ensures refuses { IfErr result IsMemoryOrSize }
    {
        let (count, types) = counts_on(self.count, self.types, 1)?;
        declare_nested(&mut self.bytes, 0x42, instance.count, &instance.bytes)?;
        self.count = count;
        self.types = types;
        Ok(())
    }

    /// Defines a component type, which takes the next type index. It is copied.
    ///
    /// Takes amortised time linear in the bytes that it appends. An `Err` appends nothing: `Memory` where a growth was refused, or
    /// `Size` where it, or a count with it, doesn't fit in 32 bits.
    pub fn component(&mut self, component: &ComponentType) -> Result<(), Error>
        ensures ok { OnOk result (self.new ≡ append self.old (Declarations.component component.now Declarations.no_more)) }
        ensures err { OnErr result (self.new ≡ self.old) }
        ensures size { result ≡ Err Size → fits_added self.old 1 ≡ false }
        ensures refuses { IfErr result IsMemoryOrSize }
    {
        let (count, types) = counts_on(self.count, self.types, 1)?;
        declare_nested(&mut self.bytes, 0x41, component.count, &component.bytes)?;
        self.count = count;
        self.types = types;
        Ok(())
    }

    /// Takes the next type index for a type that stands elsewhere.
    ///
    /// Takes amortised time linear in the bytes that it appends. An `Err` appends nothing: `Memory` where a growth was refused, or
    /// `Size` where it, or a count with it, doesn't fit in 32 bits.
    pub fn alias(&mut self, alias: &Alias) -> Result<(), Error>
        ensures ok { OnOk result (self.new ≡ append self.old (Declarations.declares (Declaration.alias_of (raw_alias alias.now)) Declarations.no_more)) }
        ensures err { OnErr result (self.new ≡ self.old) }
        ensures size { result ≡ Err Size → fits_behind self.old (Declaration.alias_of (raw_alias alias.now)) ≡ false }
        ensures refuses { IfErr result IsMemoryOrSize }
    {
        let (count, types) = counts_on(self.count, self.types, 1)?;
        declare_alias(&mut self.bytes, alias)?;
        self.count = count;
        self.types = types;
        Ok(())
    }

    /// Imports something under a name. A type takes the next type index.
    ///
    /// Takes amortised time linear in the bytes that it appends. An `Err` appends nothing: `Memory` where a growth was refused, or
    /// `Size` where it, or a count with it, doesn't fit in 32 bits.
    pub fn import(&mut self, name: &ComponentExternName, ty: ComponentTypeRef) -> Result<(), Error>
        ensures ok { OnOk result (self.new ≡ append self.old (Declarations.declares (Declaration.imported (raw_name name.now) ty) Declarations.no_more)) }
        ensures err { OnErr result (self.new ≡ self.old) }
        ensures size { result ≡ Err Size → fits_behind self.old (Declaration.imported (raw_name name.now) ty) ≡ false }
        ensures refuses { IfErr result IsMemoryOrSize }
    {
        let (count, types) = counts_on(self.count, self.types, described_slots(ty))?;
        declare_import(&mut self.bytes, name, ty)?;
        self.count = count;
        self.types = types;
        Ok(())
    }

    /// Exports something under a name. A type takes the next type index.
    ///
    /// Takes amortised time linear in the bytes that it appends. An `Err` appends nothing: `Memory` where a growth was refused, or
    /// `Size` where it, or a count with it, doesn't fit in 32 bits.
    pub fn export(&mut self, name: &ComponentExternName, ty: ComponentTypeRef) -> Result<(), Error>
        ensures ok { OnOk result (self.new ≡ append self.old (Declarations.declares (Declaration.exported (raw_name name.now) ty) Declarations.no_more)) }
        ensures err { OnErr result (self.new ≡ self.old) }
        ensures size { result ≡ Err Size → fits_behind self.old (Declaration.exported (raw_name name.now) ty) ≡ false }
        ensures refuses { IfErr result IsMemoryOrSize }
    {
        let (count, types) = counts_on(self.count, self.types, described_slots(ty))?;
        declare_export(&mut self.bytes, name, ty)?;
        self.count = count;
        self.types = types;
        Ok(())
    }
}
