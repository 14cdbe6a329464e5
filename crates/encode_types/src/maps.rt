//! Which index stands for what in a scope.

ghost use Rattle.std.specs.Prelude.{◌≡◌, Err, [], IfOk, IfSome, IsSome, IfNone, IsOk, OnOk, OnErr, IfErr};
ghost use Rattle.comp_bytes.specs.Refusal.{IsMemoryOrSize};
ghost use Rattle.wit_model.specs.Text.{text_of};
ghost use Rattle.wit_model.specs.declared.error.Error.TheVariants.{Size};
ghost use Rattle.encode_types.specs.Maps.{IsReady, IsWritten};

use crate::codes::{ListKey, key_start, push_optional, push_param};
use crate::key::FunctionKey;
use crate::number_map::NumberMap;
use crate::param_names::{NameKey, number_in};
use comp_bytes::{ComponentValType, PrimitiveValType};
use std::alloc::{AllocError, Global};
use std::cmp::Reverse;
use std::collections::BTreeMap;
use wit_model::{Error, Param, Type, TypeId};

/// The indexes of what a scope has defined.
///
/// Unnamed kinds and the types of functions are found by lists of numbers (`laws::equal_lists`), which stand in falling order: what is new mostly
/// has the greatest numbers, and so stands first. Types mostly come by ascending numbers, and are found by their distance from the first.
#[derive(Drop)]
pub struct TypeEncodingMaps<'a> {
    /// The types that have been met, by number.
    pub id_to_index: NumberMap,
    /// The unnamed types, by the lists of their kinds.
    pub def_to_index: BTreeMap<Reverse<Vec<u64>>, u32>,
    /// The types of functions, by the lists of their keys.
    pub func_type_map: BTreeMap<Reverse<Vec<u64>>, u32>,
    /// The names of the parameters of these functions, each with a number.
    pub names: BTreeMap<NameKey<'a>, u64>,
    /// The future without an element that `encode_unit_future` defined.
    pub unit_future: Option<u32>,
    /// The stream without an element that `encode_unit_stream` defined.
    pub unit_stream: Option<u32>,
}

impl<'a> TypeEncodingMaps<'a> {
    ghost use Rattle.encode_types.specs.Codes.{names_of, lists_of, HasNumber, HaveNumbers, IsKeyList, AddsParam};
    ghost use Rattle.encode_types.specs.Maps.{IsKnown, HasRoomFor, LacksList, AddsNames, KeepsKnownNames, LearnsNumber, LearnsList, LearnsKeyList, SameMaps};
    ghost use Rattle.std.specs.List.{Contains};

    /// Maps that hold nothing. Takes constant time and no memory.
    pub fn new(alloc: Global) -> TypeEncodingMaps<'a>
        ensures ids { result.id_to_index.entries ≡ [] }
        ensures kinds { result.def_to_index.entries ≡ [] }
        ensures functions { result.func_type_map.entries ≡ [] }
        ensures names { result.names.entries ≡ [] }
        ensures unit_future { result.unit_future ≡ None }
        ensures unit_stream { result.unit_stream ≡ None }
    {
        TypeEncodingMaps {
            id_to_index: NumberMap::new(alloc),
            def_to_index: BTreeMap::new(alloc),
            func_type_map: BTreeMap::new(alloc),
            names: BTreeMap::new(alloc),
            unit_future: None,
            unit_stream: None,
        }
    }

    /// The index under which a type number is known.
    pub(crate) fn index_of(&self, id: TypeId) -> Option<u32>
        ensures some { IfSome result (λ i. Contains self.now.id_to_index.entries (id.0, i)) }
        ensures none { IsKnown self.now id.0 → IsSome result }
    {
        self.id_to_index.get(id.0)
    }

    /// The index under which the list of a kind is known.
    pub(crate) fn index_of_kind(&self, list: &ListKey) -> Option<u32>
        ensures some { IfSome result (λ i. Contains (lists_of self.now.def_to_index) (list.now.0.items, i)) }
        ensures none { IfNone result (LacksList (lists_of self.now.def_to_index) list.now.0.items) }
    {
        self.def_to_index.get(list).copied()
    }

    /// The index under which the list of a key is known.
    pub(crate) fn index_of_key(&self, list: &ListKey) -> Option<u32>
        ensures some { IfSome result (λ i. Contains (lists_of self.now.func_type_map) (list.now.0.items, i)) }
        ensures none { IfNone result (LacksList (lists_of self.now.func_type_map) list.now.0.items) }
    {
        self.func_type_map.get(list).copied()
    }

    /// The number of a name, which is given one unless it has one.
    fn number_of(&mut self, name: &'a str) -> Result<u64, AllocError>
        ensures names { AddsNames self.old self.new }
        ensures known { HasNumber (names_of self.old.names) name.entry.now → self.new.names.entries ≡ self.old.names.entries }
        ensures ok { IfOk result (λ n. Contains (names_of self.new.names) (name.entry.now, n)) }
    {
        let number = number_in(&mut self.names, name)?;
        Ok(number)
    }

    /// Adds a parameter, whose name is given a number unless it has one.
    fn push_named(&mut self, list: &mut Vec<u64>, param: &'a Param) -> Result<(), AllocError>
        ensures names { AddsNames self.old self.new }
        ensures known { HasNumber (names_of self.old.names) (text_of param.entry.now.name) → self.new.names.entries ≡ self.old.names.entries }
        ensures ok { OnOk result (AddsParam (names_of self.new.names) list.old.items list.new.items param.entry.now) }
    {
        let number = self.number_of(param.name.as_str())?;
        push_param(list, number, &param.ty)?;
        Ok(())
    }

    /// The list of a key, whose names are given numbers: whether it is asynchronous, how many parameters it has, each by the numbers of its name
    /// and its type, and the result. Names that have numbers keep them.
    pub(crate) fn list_of_key(
        &mut self,
        alloc: Global,
        key: &FunctionKey<'a>,
    ) -> Result<ListKey, AllocError>
        ensures names { AddsNames self.old self.new }
        ensures known { KeepsKnownNames key.now self.old self.new }
        ensures list { IfOk result (λ v. IsKeyList (names_of self.new.names) key.now v.0.items) }
    {
        let params = key.params.0;
        let mut list = key_start(alloc, key)?;
        for i in 0..params.len() {
            self.push_named(&mut list, &params[i])?;
        }
        push_optional(&mut list, key.result)?;
        Ok(Reverse(list))
    }

    /// Makes room for a type number, so that it can be remembered without memory.
    pub(crate) fn reserve_id(&mut self, id: TypeId) -> Result<(), Error>
        ensures ok { OnOk result (HasRoomFor self.new id.0) }
        ensures same { SameMaps self.old self.new }
        ensures size { result ≡ Err Size → ⊥ }
        ensures refuses { IfErr result IsMemoryOrSize }
    {
        self.id_to_index.reserve(id.0)?;
        Ok(())
    }

    pub(crate) fn remember_id(&mut self, id: TypeId, index: u32) -> Result<(), Error>
        requires { IsKnown self.old id.0 → ⊥ }
        ensures ok { OnOk result (LearnsNumber self.old self.new id index) }
        ensures err { OnErr result (SameMaps self.old self.new) }
        ensures succeeds { HasRoomFor self.old id.0 → IsOk result }
        ensures size { result ≡ Err Size → ⊥ }
        ensures refuses { IfErr result IsMemoryOrSize }
    {
        self.id_to_index.insert(id.0, index)?;
        Ok(())
    }

    pub(crate) fn remember_kind(&mut self, list: ListKey, index: u32) -> Result<(), Error>
        requires { LacksList (lists_of self.old.def_to_index) list.0.items }
        ensures ok { OnOk result (LearnsList self.old self.new list.0.items index) }
        ensures err { OnErr result (SameMaps self.old self.new) }
        ensures size { result ≡ Err Size → ⊥ }
        ensures refuses { IfErr result IsMemoryOrSize }
    {
        self.def_to_index.insert(list, index)?;
        Ok(())
    }

    /// Remembers a key by its list.
    pub(crate) fn remember_key(&mut self, list: ListKey, index: u32) -> Result<(), Error>
        requires { LacksList (lists_of self.old.func_type_map) list.0.items }
        ensures ok { OnOk result (LearnsKeyList self.old self.new list.0.items index) }
        ensures err { OnErr result (SameMaps self.old self.new) }
        ensures size { result ≡ Err Size → ⊥ }
        ensures refuses { IfErr result IsMemoryOrSize }
    {
        self.func_type_map.insert(list, index)?;
        Ok(())
    }

    pub(crate) fn remember_unit_future(&mut self, index: u32)
        ensures { self.new ≡ record self.old { unit_future = Some index } }
    {
        self.unit_future = Some(index);
    }

    pub(crate) fn remember_unit_stream(&mut self, index: u32)
        ensures { self.new ≡ record self.old { unit_stream = Some index } }
    {
        self.unit_stream = Some(index);
    }
}

/// What a part is written as: in place, or by the index that the maps have for it.
pub(crate) fn value_in(maps: &TypeEncodingMaps, ty: &Type) -> ComponentValType
    requires { IsReady maps.now ty.now }
    ensures { IsWritten maps.now result ty.now }
{
    let primitive = match *ty {
        Type::Id(id) => {
            return match maps.index_of(id) {
                Some(index) => ComponentValType::Type_(index),
                None => unreachable!(),
            };
        }
        Type::Bool => PrimitiveValType::Bool,
        Type::U8 => PrimitiveValType::U8,
        Type::U16 => PrimitiveValType::U16,
        Type::U32 => PrimitiveValType::U32,
        Type::U64 => PrimitiveValType::U64,
        Type::S8 => PrimitiveValType::S8,
        Type::S16 => PrimitiveValType::S16,
        Type::S32 => PrimitiveValType::S32,
        Type::S64 => PrimitiveValType::S64,
        Type::F32 => PrimitiveValType::F32,
        Type::F64 => PrimitiveValType::F64,
        Type::Char => PrimitiveValType::Char,
        Type::String => PrimitiveValType::String,
        Type::ErrorContext => PrimitiveValType::ErrorContext,
    };
    ComponentValType::Primitive(primitive)
}
