//! What defines types in a scope, and the law that it keeps.

ghost use Rattle.std.specs.Prelude.{◌≡◌, ◌<◌, ℕ, Err, Some, None, IfOk, OnOk, OnErr, IfErr};
ghost use Rattle.std.specs.Borrow.{sem, Lends};
ghost use Rattle.wit_model.specs.declared.error.Error.TheVariants.{Size};
ghost use Rattle.wit_model.specs.{Tree.Tree, Tree.named, Meaning.Signature, Types.number_tree};
ghost use Rattle.comp_bytes.specs.{RawOf.raw_name, Refusal.IsMemoryOrSize};
ghost use Rattle.encode_types.specs.Slots.{Standing, tree, Follows, FollowsFunction, Defines, DefinesFunction};
ghost use Rattle.encode_types.specs.View.{View, Grows, ImportsOne, AddsSlot, AddsName, Exports, ExportsName, SameRest, HoldsMore, Refuses, LacksDefinition, LacksFunctionType, Writes, WritesDefinition, WritesFunctionType, WritesImport};
ghost use Rattle.encode_types.specs.{Known.ReachesAround, Room.export_name, Room.import_of, Extents.name_extent, Formed.IsFormed, Formed.IsFormedSignature, Scope.DeclaresSlot, Scope.DeclaresResource, Scope.IsImportable, Counts.one_type_more, Counts.one_function_more};
ghost use Rattle.encode_types.specs.declared.maps.TypeEncodingMaps.{TypeEncodingMaps as MapsValue};

use crate::maps::TypeEncodingMaps;
use comp_bytes::{ComponentDefinedType, ComponentExternName, ComponentFuncType};
use wit_model::{Error, InterfaceId, TypeId};

/// Lends its maps.
pub trait LendsMaps<M> {
    // its maps
    ghost maps_of: { Self → M };

    // itself, with other maps
    ghost with_maps: { Self → M → Self };

    /// The maps of the scope that types are defined in.
    fn type_encoding_maps(&mut self) -> &mut M
        ensures* writes_back { sem 𝓛 (Lends Self.row M.row self.entry result (with_maps self.old)) }
        ensures value { result.now ≡ maps_of self.old };

    ghost maps_of_with_maps: { (e : Self) (m : M) → maps_of (with_maps e m) ≡ m };

    ghost with_own_maps: { (e : Self) → with_maps e (maps_of e) ≡ e };
}

/// Defines types in a scope.
///
/// A slot stands for a tree, which is a type with every index followed, or for the signature of a function.
/// Old slots stand for what they did after every call, also after one that is refused, and no call changes the maps. Around its scope, a call
/// of `import_type` makes one alias at most, of the type that it is asked for, where that had none, and no other call changes anything.
/// It is the same in the scope itself (`View::imports`). What an implementor says of itself besides, each call keeps (`View::own`).
/// A call answers `Error::Size` only where what it is asked to add has no room in 32 bits: then the view says so of the encoder that
/// the call leaves (`View::lacks_room`). An implementor says in its view when that is, and how much it holds (`View::held`): a number
/// of its own, which each call raises by one at most, and one that answers `Error::Size` not at all. It says there how much it has written,
/// too (`View::extent`): a number of its own, which a call raises by no more than the bytes that what it is asked to add takes at most.
/// And it says in which slots it has defined value types and types of functions, and which slots it has exported under names, in order
/// (`View::definitions`). A call that is refused defines and exports nothing.
pub trait ValtypeEncoder<'a>: LendsMaps<TypeEncodingMaps<'a>> {
    // what it holds: what is around, its slots, how much has been defined, its maps, and what has no room
    ghost view: { Self → View };

    /// Adds a slot that stands for the definition, and answers it.
    fn defined_type(&mut self, def: ComponentDefinedType<'a>) -> Result<u32, Error>
        requires { (t : Tree) × Follows (view self.old).stands def t × IsFormed (view self.old).scope t }
        ensures ok { IfOk result (λ i. AddsSlot (view self.old) (view self.new) i (Defines (view self.old).stands def.entry)) }
        ensures grows { Grows (view self.old) (view self.new) }
        ensures scope_stays { (view self.new).scope ≡ (view self.old).scope }
        ensures around_stays { (view self.new).around ≡ (view self.old).around }
        ensures imports_stay { (view self.new).imports ≡ (view self.old).imports }
        ensures maps_stay { (view self.new).maps ≡ (view self.old).maps }
        ensures counts { IfOk result (λ i. (view self.new).definitions ≡ one_type_more i (view self.old).definitions) }
        ensures err { OnErr result ((view self.new).definitions ≡ (view self.old).definitions) }
        ensures held { HoldsMore 1 (view self.old) (view self.new) }
        ensures written { OnOk result (WritesDefinition (view self.old) (view self.new) def.entry) }
        ensures size { result ≡ Err Size → LacksDefinition (view self.old) (view self.new) def.entry }
        ensures refuses { IfErr result IsMemoryOrSize };

    /// Adds a slot that stands for the type of a function, and answers it.
    fn define_function_type(&mut self, def: ComponentFuncType<'a>) -> Result<u32, Error>
        requires { (s : Signature) × FollowsFunction (view self.old).stands def s × IsFormedSignature (view self.old).scope s }
        ensures ok { IfOk result (λ i. AddsSlot (view self.old) (view self.new) i (DefinesFunction (view self.old).stands def.entry)) }
        ensures grows { Grows (view self.old) (view self.new) }
        ensures scope_stays { (view self.new).scope ≡ (view self.old).scope }
        ensures around_stays { (view self.new).around ≡ (view self.old).around }
        ensures imports_stay { (view self.new).imports ≡ (view self.old).imports }
        ensures maps_stay { (view self.new).maps ≡ (view self.old).maps }
        ensures counts { IfOk result (λ i. (view self.new).definitions ≡ one_function_more i (view self.old).definitions) }
        ensures err { OnErr result ((view self.new).definitions ≡ (view self.old).definitions) }
        ensures held { HoldsMore 1 (view self.old) (view self.new) }
        ensures written { OnOk result (WritesFunctionType (view self.old) (view self.new) def.entry) }
        ensures size { result ≡ Err Size → LacksFunctionType (view self.old) (view self.new) def.entry }
        ensures refuses { IfErr result IsMemoryOrSize };

    /// Exports the type of a slot under a name that declares it, and answers the slot of the name.
    /// Without a slot for the name, the slot of the type stands for the name too.
    fn export_type(
        &mut self,
        index: u32,
        name: ComponentExternName<'a>,
    ) -> Result<Option<u32>, Error>
        requires { DeclaresSlot (view self.old).scope (view self.old).stands (raw_name name) index }
        ensures ok { IfOk result (Exports (view self.old) (view self.new) index (named (view self.old).scope.place (raw_name name.entry).text)) }
        ensures grows { Grows (view self.old) (view self.new) }
        ensures scope_stays { (view self.new).scope ≡ (view self.old).scope }
        ensures around_stays { (view self.new).around ≡ (view self.old).around }
        ensures imports_stay { (view self.new).imports ≡ (view self.old).imports }
        ensures maps_stay { (view self.new).maps ≡ (view self.old).maps }
        ensures counts { OnOk result (ExportsName (view self.old) (view self.new) (Some index) (raw_name name.entry)) }
        ensures err { OnErr result ((view self.new).definitions ≡ (view self.old).definitions) }
        ensures held { HoldsMore 1 (view self.old) (view self.new) }
        ensures written { OnOk result (Writes (name_extent (raw_name name.entry)) (view self.old) (view self.new)) }
        ensures size { result ≡ Err Size → Refuses (view self.old) (view self.new) (export_name (raw_name name.entry)) }
        ensures refuses { IfErr result IsMemoryOrSize };

    /// Exports a fresh resource under a name that declares one, and answers its slot.
    fn export_resource(&mut self, name: ComponentExternName<'a>) -> Result<u32, Error>
        requires { DeclaresResource (view self.old).scope (raw_name name) }
        ensures ok { IfOk result (AddsName (view self.old) (view self.new) (raw_name name.entry)) }
        ensures grows { Grows (view self.old) (view self.new) }
        ensures scope_stays { (view self.new).scope ≡ (view self.old).scope }
        ensures around_stays { (view self.new).around ≡ (view self.old).around }
        ensures imports_stay { (view self.new).imports ≡ (view self.old).imports }
        ensures maps_stay { (view self.new).maps ≡ (view self.old).maps }
        ensures counts { OnOk result (ExportsName (view self.old) (view self.new) None (raw_name name.entry)) }
        ensures err { OnErr result ((view self.new).definitions ≡ (view self.old).definitions) }
        ensures held { HoldsMore 1 (view self.old) (view self.new) }
        ensures written { OnOk result (Writes (name_extent (raw_name name.entry)) (view self.old) (view self.new)) }
        ensures size { result ≡ Err Size → Refuses (view self.old) (view self.new) (export_name (raw_name name.entry)) }
        ensures refuses { IfErr result IsMemoryOrSize };

    /// Makes a type of another interface, whose instance stands, known in this scope, and answers its slot.
    fn import_type(&mut self, interface: InterfaceId, id: TypeId) -> Result<u32, Error>
        requires { IsImportable (view self.old).scope interface.0 id.0 }
        ensures ok { IfOk result (λ i. (view self.new).stands i (tree (number_tree (view self.old).scope.packages id.0))) }
        ensures grows { Grows (view self.old) (view self.new) }
        ensures reaches { ReachesAround (view self.old).scope.packages id (view self.old).around (view self.new).around }
        ensures imports { ImportsOne id (view self.old).imports (view self.new).imports }
        ensures scope_stays { (view self.new).scope ≡ (view self.old).scope }
        ensures maps_stay { (view self.new).maps ≡ (view self.old).maps }
        ensures counts { OnOk result ((view self.new).definitions ≡ (view self.old).definitions) }
        ensures err { OnErr result ((view self.new).definitions ≡ (view self.old).definitions) }
        ensures held { HoldsMore 1 (view self.old) (view self.new) }
        ensures written { OnOk result (WritesImport (view self.old) (view self.new) id.0) }
        ensures size { result ≡ Err Size → Refuses (view self.old) (view self.new) (import_of id.0) }
        ensures refuses { IfErr result IsMemoryOrSize };

    /// The interface whose types are encoded.
    fn interface(&self) -> Option<InterfaceId>
        ensures { result ≡ (view self.now).scope.own_interface };

    ghost in_range: { (e : Self) (i : ℕ) (m : Standing) → (view e).stands i m → i < (view e).slot_count };

    ghost maps_in_view: { (e : Self) → (view e).maps ≡ Self.maps_of e };

    ghost view_with_maps: { (e : Self) (m : MapsValue) → SameRest (view e) (view (Self.with_maps e m)) };
}
