//! String encodings by the keys of functions.

ghost use Rattle.std.specs.Prelude.{◌≡◌, ◌<◌, length, IfErr, IfOk, OnErr, OnOk};
ghost use Rattle.std.specs.FinMap.{empty};
ghost use Rattle.indexmap.specs.IndexMap.{get_by_text};
ghost use Rattle.wit_model.specs.{Text.optional_text, Valid.IsValid, Refusals.IsMemory};
ghost use Rattle.bind_keys.specs.{Keys.function_key, Encodings.encoding_under, Unions.Gains};
ghost use Rattle.wit_bind.specs.OldKeys.{items_of as items_of_lem, items_on, CarriesEach, CarriesOver};
ghost use Rattle.bind_clash.specs.Faults.{IsLeastFault};
ghost use Rattle.bind_meaning.specs.Clash.{EncodingFault};

use crate::wanted::{Wanted, wanted_encodings};
use bind_keys::keys::short_scope;
use bind_keys::table::{Table, has_slash};
use indexmap::IndexMap;
use std::alloc::Global;
use std::marker::Model;
use wit_model::{Error, Map, Resolve, StringEncoding, World, WorldId, WorldItem, WorldKey};

/// The string encodings of functions that are imported, or exported, by their keys. A function item under the label `k` has the key `k/k`; a function
/// `f` of an interface has `label/f` where the interface stands under a label, and else the canonical path of the interface, a slash and `f`: `a:b/c@0.1/f`
/// of `a:b/c@0.1.2`. So compatible versions of an interface share an entry, and others have one each.
#[derive(Drop)]
pub struct EncodingMap {
    pub(crate) table: Table,
}

/// What a world imports, or what it exports.
#[derive(Clone, Copy, PartialEq, Eq)]
pub enum Side {
    Imports,
    Exports,
}

fn items_of<'a>(world: &'a World, side: Side) -> &'a Map<WorldKey, WorldItem>
    ensures { result.now.entries ≡ items_of_lem side world.entry.now }
{
    match side {
        Side::Imports => &world.imports,
        Side::Exports => &world.exports,
    }
}

impl Model for EncodingMap {
    ghost use Rattle.bind_keys.specs.Encodings.{Encodings, encodings_code};

    ghost Value = { Encodings };

    ghost coded = { encodings_code };

    ghost view = { λ m. m.table.encodings };
}

impl EncodingMap {
    /// No encodings. Takes no memory.
    pub fn new(alloc: Global) -> EncodingMap
        ensures { result ≡ empty }
    {
        EncodingMap {
            table: Table::new(alloc),
        }
    }

    /// The encodings that a map under keys without version (`label/f`, `namespace:name/interface/f`) has for the functions of a world's imports, or of its
    /// exports, under the keys of these functions. Entries of the map that no such function has are dropped. In a valid `Resolve` functions that share a key
    /// share the one without version, so there is one encoding for each.
    ///
    /// Takes one pass over the keys of the functions, expected, and as much memory as they do. Refuses `Memory` alone.
    pub fn from_unversioned(
        alloc: Global,
        resolve: &Resolve,
        world: WorldId,
        side: Side,
        unversioned: &IndexMap<String, StringEncoding>,
    ) -> Result<EncodingMap, Error>
        requires in_range { world.0 < length resolve.now.worlds.items }
        ensures each { IsValid resolve.now → IfOk result (CarriesEach (λ t. get_by_text unversioned.now t) resolve.now (items_on side resolve.now world.0)) }
        ensures carries { IfOk result (CarriesOver (λ t. get_by_text unversioned.now t) resolve.now (items_on side resolve.now world.0)) }
        ensures refuses { IfErr result IsMemory }
    {
        let items = items_of(&resolve.worlds[world.0 as usize], side);
        wanted_encodings(alloc, resolve, items, &Wanted::Kept(unversioned))
    }

    /// The encoding of a function, by the key under which it, or its interface, is imported or exported and by its name. None where the map has
    /// none, or the key is of an interface without a path. Takes no memory, and one pass over the texts, expected. It is one over all keys of
    /// the map where the function has no key, where its name has a slash, or where the label or the path before it has more than 256 bytes.
    pub fn get(&self, resolve: &Resolve, key: &WorldKey, func: &str) -> Option<StringEncoding>
        ensures { result ≡ encoding_under self.now (function_key resolve.now key.now func.now) }
    {
        if has_slash(func) {
            return self.table.search(resolve, key, func);
        }
        match short_scope(resolve, key) {
            Some(front) => self.table.at(front.as_str(), func),
            None => self.table.search(resolve, key, func),
        }
    }

    /// The least key, by its bytes, that has one encoding here and another in the other map. Takes one pass over the other map, expected, and memory for such
    /// keys and for a number for each text that stands before keys there. Refuses `Memory` alone.
    pub(crate) fn conflict(
        &self,
        alloc: Global,
        other: &EncodingMap,
    ) -> Result<Option<String>, Error>
        ensures least { IfOk result (λ p. IsLeastFault (EncodingFault self.now other.now) (optional_text p)) }
        ensures refuses { IfErr result IsMemory }
    {
        self.table.conflict(alloc, &other.table)
    }
}

/// Adds encodings to those of imports and to those of exports. Under a key that has one already the added one stands. A refusal, `Memory` alone, leaves
/// both maps as they were. Takes time linear in what is added, expected.
pub(crate) fn unite_both(
    imports: &mut EncodingMap,
    exports: &mut EncodingMap,
    more_imports: EncodingMap,
    more_exports: EncodingMap,
) -> Result<(), Error>
    ensures imports { OnOk result (Gains more_imports imports.old imports.new) }
    ensures exports { OnOk result (Gains more_exports exports.old exports.new) }
    ensures imports_kept { OnErr result (imports.new ≡ imports.old) }
    ensures exports_kept { OnErr result (exports.new ≡ exports.old) }
    ensures refuses { IfErr result IsMemory }
{
    let imported = imports.table.make_room(&more_imports.table)?;
    let exported = exports.table.make_room(&more_exports.table)?;
    imports.table.add(&imported, more_imports.table);
    exports.table.add(&exported, more_exports.table);
    Ok(())
}
