//! What was added to an encoder, in order, without its forms and texts.

ghost use Rattle.std.specs.Prelude.{◌≡◌, ◌+◌, ◌^◌, nat_lt, true, false, is_some, IsOk, Err, None, Some, [], ◌∷◌, IfOk, OnErr, OnOk, IfErr};
ghost use Rattle.wit_model.specs.declared.error.Error.TheVariants.{Size};
ghost use Rattle.comp_bytes.specs.Refusal.{IsMemoryOrSize};
ghost use Rattle.encode_flat.specs.declared.marks.Mark.TheVariants as mark;
ghost use Rattle.encode_flat.specs.Marked.{Imports, import_slot, slot_count};

use indexmap::IndexMap;
use std::alloc::Global;
use std::marker::Model;
use wit_model::Error;

/// What was added.
#[derive(Clone, Copy, Drop)]
pub enum Mark {
    /// A slot, whose form is kept elsewhere.
    Form,
    /// One more name of a slot. It has no slot of its own.
    Name(u32),
    /// The slot of a type of another interface, by the number of the type.
    Import(u32),
}

/// What was added, in order.
#[derive(Drop)]
pub struct Marks {
    marks: Vec<Mark>,
    count: u32,
    // The slots of types of other interfaces, by the numbers of these.
    imports: IndexMap<u32, u32>,
}

impl Model for Marks {
    ghost use Rattle.std.specs.Prelude.{◌≡◌, ℕ, List, nat_eq, reverse};
    ghost use Rattle.indexmap.specs.IndexMap.{get};
    ghost use Rattle.encode_flat.specs.declared.marks.Mark.{Mark};
    ghost use Rattle.encode_flat.specs.Marked.{import_slot, slot_count};

    ghost Value = { List Mark };

    ghost view = { λ it. reverse it.marks.items };

    ghost invariant = { λ it. (it.count ≡ slot_count (reverse it.marks.items)) × ((n : ℕ) → get nat_eq it.imports n ≡ import_slot (reverse it.marks.items) n) };
}

impl Marks {
    /// Nothing. Takes constant time and no memory.
    pub fn new(alloc: Global) -> Marks
        ensures { result ≡ [] }
    {
        Marks {
            marks: Vec::new(alloc),
            count: 0,
            imports: IndexMap::new(alloc),
        }
    }

    /// The number of slots.
    pub fn count(&self) -> u32
        ensures { result ≡ slot_count self.now }
    {
        self.count
    }

    /// Adds a slot.
    pub fn add_form(&mut self) -> Result<u32, Error>
        ensures ok { IfOk result (λ i. (i ≡ slot_count self.old) × (self.new ≡ mark.Form ∷ self.old)) }
        ensures err { OnErr result (self.new ≡ self.old) }
        ensures size { result ≡ Err Size → nat_lt (slot_count self.new + 1) (2 ^ 32) ≡ false }
        ensures refuses { IfErr result IsMemoryOrSize }
    {
        let index = self.count;
        let Some(count) = index.checked_add(1) else {
            return Err(Error::Size);
        };
        self.marks.push(Mark::Form)?;
        self.count = count;
        Ok(index)
    }

    /// Adds a name of a slot.
    pub fn add_name(&mut self, index: u32) -> Result<(), Error>
        ensures ok { OnOk result (self.new ≡ mark.Name index ∷ self.old) }
        ensures err { OnErr result (self.new ≡ self.old) }
        ensures size { result ≡ Err Size → ⊥ }
        ensures refuses { IfErr result IsMemoryOrSize }
    {
        self.marks.push(Mark::Name(index))?;
        Ok(())
    }

    /// The slot of a type of another interface, if it has one.
    fn imported(&self, number: u32) -> Option<u32>
        ensures { result ≡ import_slot self.now number }
    {
        self.imports.get(&number).copied()
    }

    /// The slot of a type of another interface, which is added where it has none.
    pub fn import(&mut self, number: u32) -> Result<u32, Error>
        ensures ok { IfOk result (λ i. import_slot self.new number ≡ Some i) }
        ensures once { OnOk result (Imports self.old number self.new) }
        ensures known { is_some (import_slot self.old number) ≡ true → IsOk result }
        ensures err { OnErr result (self.new ≡ self.old) }
        ensures size { result ≡ Err Size → nat_lt (slot_count self.new + 1) (2 ^ 32) ≡ false }
        ensures refuses { IfErr result IsMemoryOrSize }
    {
        match self.imported(number) {
            Some(index) => Ok(index),
            None => self.add_import(number),
        }
    }

    fn add_import(&mut self, number: u32) -> Result<u32, Error>
        requires { import_slot self.old number ≡ None }
        ensures ok { IfOk result (λ i. (i ≡ slot_count self.old) × (self.new ≡ mark.Import number ∷ self.old)) }
        ensures err { OnErr result (self.new ≡ self.old) }
        ensures size { result ≡ Err Size → nat_lt (slot_count self.new + 1) (2 ^ 32) ≡ false }
        ensures refuses { IfErr result IsMemoryOrSize }
    {
        let index = self.count;
        let Some(count) = index.checked_add(1) else {
            return Err(Error::Size);
        };
        self.marks.reserve(1)?;
        self.imports.insert(number, index)?;
        self.marks.push(Mark::Import(number)).unwrap();
        self.count = count;
        Ok(index)
    }
}
