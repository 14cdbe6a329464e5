//! The string encodings of what a world imports and exports.

ghost use Rattle.std.specs.Prelude.{◌≡◌, ◌<◌, length, IfErr, IfOk, OnErr, OnOk};
ghost use Rattle.std.specs.FinMap.{empty as nothing};
ghost use Rattle.bind_meaning.specs.Clash.{EncodingFault, NoFault};
ghost use Rattle.bind_keys.specs.{Functions.exports_of, Functions.imports_of, Functions.MapsFunctions, Unions.Gains};
ghost use Rattle.wit_bind.specs.{Merges.IsEncodingRefusal};
ghost use Rattle.wit_model.specs.Refusals.{IsMemory};

use crate::encodings::{EncodingMap, unite_both};
use crate::wanted::{Wanted, wanted_encodings};
use bind_clash::refuse_fault;
use std::alloc::Global;
use wit_model::{ClashKind, Error, Map, Resolve, StringEncoding, WorldId, WorldItem, WorldKey};

/// What is known of a core module: the string encoding of each function that it imports and of each that it exports.
#[derive(Drop)]
pub struct ModuleMetadata {
    pub import_encodings: EncodingMap,
    pub export_encodings: EncodingMap,
}

// The encoding under the key of each function of these imports or exports.
fn encodings(
    alloc: Global,
    resolve: &Resolve,
    items: &Map<WorldKey, WorldItem>,
    encoding: StringEncoding,
) -> Result<EncodingMap, Error>
    ensures ok { IfOk result (MapsFunctions resolve.now items.now.entries encoding) }
    ensures refuses { IfErr result IsMemory }
{
    wanted_encodings(alloc, resolve, items, &Wanted::One(encoding))
}

impl ModuleMetadata {
    /// The encoding for each function that a world imports, and for each that it exports: function items, and all functions of interfaces, those of
    /// resources too. Takes one pass over their keys, expected, and as much memory as they do. Refuses `Memory` alone.
    pub fn new(
        alloc: Global,
        resolve: &Resolve,
        world: WorldId,
        encoding: StringEncoding,
    ) -> Result<ModuleMetadata, Error>
        requires in_range { world.0 < length resolve.now.worlds.items }
        ensures imports { IfOk result (λ m. MapsFunctions resolve.now (imports_of resolve.now world.0) encoding m.import_encodings) }
        ensures exports { IfOk result (λ m. MapsFunctions resolve.now (exports_of resolve.now world.0) encoding m.export_encodings) }
        ensures refuses { IfErr result IsMemory }
    {
        let world = &resolve.worlds[world.0 as usize];
        Ok(ModuleMetadata {
            import_encodings: encodings(alloc, resolve, &world.imports, encoding)?,
            export_encodings: encodings(alloc, resolve, &world.exports, encoding)?,
        })
    }

    /// No encodings. Takes no memory.
    pub fn empty(alloc: Global) -> ModuleMetadata
        ensures imports { result.import_encodings ≡ nothing }
        ensures exports { result.export_encodings ≡ nothing }
    {
        ModuleMetadata {
            import_encodings: EncodingMap::new(alloc),
            export_encodings: EncodingMap::new(alloc),
        }
    }

    /// Refused where a key has another encoding in the other metadata: `Clash` of the least such key, of imports before exports. Otherwise it refuses
    /// `Memory` alone.
    pub(crate) fn refuse_clash(&self, alloc: Global, other: &ModuleMetadata) -> Result<(), Error>
        ensures imports { OnOk result (NoFault (EncodingFault self.now.import_encodings other.now.import_encodings)) }
        ensures exports { OnOk result (NoFault (EncodingFault self.now.export_encodings other.now.export_encodings)) }
        ensures refusal { IfErr result (IsEncodingRefusal self.now other.now) }
    {
        let imports = self
            .import_encodings
            .conflict(alloc, &other.import_encodings)?;
        refuse_fault(ClashKind::Encoding, imports)?;
        let exports = self
            .export_encodings
            .conflict(alloc, &other.export_encodings)?;
        refuse_fault(ClashKind::Encoding, exports)
    }

    /// Adds the encodings of the other metadata. A refusal, `Memory` alone, leaves these as they were.
    pub(crate) fn unite(&mut self, other: ModuleMetadata) -> Result<(), Error>
        ensures imports { OnOk result (Gains other.import_encodings self.old.import_encodings self.new.import_encodings) }
        ensures exports { OnOk result (Gains other.export_encodings self.old.export_encodings self.new.export_encodings) }
        ensures imports_kept { OnErr result (self.new.import_encodings ≡ self.old.import_encodings) }
        ensures exports_kept { OnErr result (self.new.export_encodings ≡ self.old.export_encodings) }
        ensures refuses { IfErr result IsMemory }
    {
        unite_both(
            &mut self.import_encodings,
            &mut self.export_encodings,
            other.import_encodings,
            other.export_encodings,
        )
    }
}
