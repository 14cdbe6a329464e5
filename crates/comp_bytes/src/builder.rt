//! A component under construction.

ghost use Rattle.std.specs.Prelude.{◌≡◌, [], ◌∷◌, ◌++◌, false, Err, IfOk, OnOk, OnErr, IfErr};
ghost use Rattle.wit_model.specs.declared.error.Error.TheVariants.{Size};
ghost use Rattle.comp_bytes.specs.{Raw.TopType, Spelling.IsComponent, Refusal.IsMemoryOrSize};
ghost use Rattle.comp_bytes.specs.{Writing.component_bytes, Parts.Part, Parts.sections_of_parts, Parts.top_slots, Parts.fits_component, Parts.plain_export};

use crate::component::ComponentType;
use crate::nested::count_on;
use crate::section::{close, put_component, put_custom, put_export};
use std::alloc::Global;
use std::marker::Model;
use wit_model::Error;

/// A component of types, exports and custom sections, as its bytes: whole sections, and the items of the section that is still
/// open.
///
/// Each call appends one part, in amortised time linear in its bytes. Neighbouring types share a section, and so do neighbouring
/// exports. An `Err` appends nothing: `Memory` where a growth was refused, `Size` only where the component, with the new part,
/// would be 2^32 bytes long or longer.
#[derive(Drop)]
pub struct ComponentBuilder {
    /// The preamble and whole sections, or nothing.
    done: Vec<u8>,
    /// The items of the open section, if their count isn't 0.
    items: Vec<u8>,
    count: u32,
    /// Whether the open section is one of exports.
    exports: bool,
    /// How many type indexes are taken.
    types: u32,
}

impl Model for ComponentBuilder {
    ghost use Rattle.std.specs.Prelude.{List};
    ghost use Rattle.comp_bytes.specs.Parts.{Part};
    ghost use Rattle.comp_bytes.specs.Codes.{parts_code};
    ghost use Rattle.comp_bytes.specs.Built.{kept_parts, Builds};

    ghost Value = { List Part };

    ghost coded = { parts_code };

    ghost view = { λ b. kept_parts b.done.items b.items.items b.count b.exports };

    ghost invariant = { λ b. Builds b.done.items b.items.items b.count b.exports b.types };
}

impl ComponentBuilder {
    /// No parts. Takes no memory.
    pub fn new(alloc: Global) -> Self
        ensures { result ≡ [] }
    {
        ComponentBuilder {
            done: Vec::new(alloc),
            items: Vec::new(alloc),
            count: 0,
            exports: false,
            types: 0,
        }
    }

    /// Defines a component type, and answers the type index that it takes. The type is copied.
    ///
    /// Takes amortised time linear in the bytes that it appends. An `Err` appends nothing: `Memory` where a growth was refused, or
    /// `Size` where the component with it would be 2^32 bytes long or longer.
    pub fn type_component(&mut self, component: &ComponentType) -> Result<u32, Error>
        ensures answer { IfOk result (λ index. index ≡ top_slots self.old) }
        ensures ok { OnOk result (self.new ≡ self.old ++ Part.top_type (TopType.component component.now) ∷ []) }
        ensures err { OnErr result (self.new ≡ self.old) }
        ensures size { result ≡ Err Size → fits_component (self.old ++ Part.top_type (TopType.component component.now) ∷ []) ≡ false }
        ensures refuses { IfErr result IsMemoryOrSize }
    {
        let index = self.types;
        let types = count_on(index, 1)?;
        if self.count > 0 && !self.exports {
            let count = count_on(self.count, 1)?;
            put_component(&mut self.items, component)?;
            self.count = count;
            self.types = types;
            Ok(index)
        } else {
            let mut items = Vec::new(*self.done.allocator());
            put_component(&mut items, component)?;
            close(&mut self.done, self.exports, self.count, &self.items)?;
            self.items = items;
            self.count = 1;
            self.exports = false;
            self.types = types;
            Ok(index)
        }
    }

    /// Exports the type of an index under a name without attributes, and answers the type index that the export takes.
    ///
    /// Takes amortised time linear in the bytes that it appends. An `Err` appends nothing: `Memory` where a growth was refused, or
    /// `Size` where the component with it would be 2^32 bytes long or longer.
    pub fn export(&mut self, name: &str, index: u32) -> Result<u32, Error>
        ensures answer { IfOk result (λ taken. taken ≡ top_slots self.old) }
        ensures ok { OnOk result (self.new ≡ self.old ++ Part.top_export (plain_export name.now index) ∷ []) }
        ensures err { OnErr result (self.new ≡ self.old) }
        ensures size { result ≡ Err Size → fits_component (self.old ++ Part.top_export (plain_export name.now index) ∷ []) ≡ false }
        ensures refuses { IfErr result IsMemoryOrSize }
    {
        let answer = self.types;
        let types = count_on(answer, 1)?;
        if self.count > 0 && self.exports {
            let count = count_on(self.count, 1)?;
            put_export(&mut self.items, name, index)?;
            self.count = count;
            self.types = types;
            Ok(answer)
        } else {
            let mut items = Vec::new(*self.done.allocator());
            put_export(&mut items, name, index)?;
            close(&mut self.done, self.exports, self.count, &self.items)?;
            self.items = items;
            self.count = 1;
            self.exports = true;
            self.types = types;
            Ok(answer)
        }
    }

    /// Adds a custom section. It ends the section before it.
    ///
    /// Takes amortised time linear in the bytes that it appends. An `Err` appends nothing: `Memory` where a growth was refused, or
    /// `Size` where the component with it would be 2^32 bytes long or longer.
    pub fn custom_section(&mut self, name: &str, contents: &[u8]) -> Result<(), Error>
        ensures ok { OnOk result (self.new ≡ self.old ++ Part.custom name.now contents.now ∷ []) }
        ensures err { OnErr result (self.new ≡ self.old) }
        ensures size { result ≡ Err Size → fits_component (self.old ++ Part.custom name.now contents.now ∷ []) ≡ false }
        ensures refuses { IfErr result IsMemoryOrSize }
    {
        put_custom(
            &mut self.done,
            self.exports,
            self.count,
            &self.items,
            name,
            contents,
        )?;
        self.items.clear();
        self.count = 0;
        self.exports = false;
        Ok(())
    }

    /// The bytes of the component: the preamble, and the sections of the parts in order, each in its shortest form. Takes time
    /// linear in the section that is still open, which it copies once, and nothing else.
    ///
    /// Refuses with `Memory`, or with `Size` where the component is 2^32 bytes long or longer. The builder is given up, refused or
    /// not.
    pub fn finish(self) -> Result<Vec<u8>, Error>
        ensures ok { IfOk result (λ bytes. bytes.items ≡ component_bytes (sections_of_parts self)) }
        ensures spelled { IfOk result (λ bytes. IsComponent (sections_of_parts self) bytes.items) }
        ensures size { result ≡ Err Size → fits_component self ≡ false }
        ensures refuses { IfErr result IsMemoryOrSize }
    {
        let mut done = self.done;
        close(&mut done, self.exports, self.count, &self.items)?;
        match u32::try_from(done.len()) {
            Ok(_) => Ok(done),
            Err(_) => Err(Error::Size),
        }
    }
}
