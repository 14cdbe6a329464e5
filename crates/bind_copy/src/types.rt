//! Types under new numbers.

ghost use Rattle.std.specs.Prelude.{◌≡◌, true, length, IfOk, IfErr};
ghost use Rattle.bind_union.specs.Views.{kind_view, view_numbers};
ghost use Rattle.bind_copy.specs.Copies.{all_below, IsTypeUnder};
ghost use Rattle.wit_model.specs.Refusals.{IsMemory};

use crate::kinds::copy_kind;
use crate::moved::moved_kind;
use crate::texts::{copy_docs, copy_optional_text, copy_stability};
use std::alloc::Global;
use wit_model::{Error, TypeDef, TypeOwner};

/// A type with the parts of these numbers, for an owner.
pub fn copy_type(
    alloc: Global,
    types: &[u32],
    def: &TypeDef,
    owner: TypeOwner,
) -> Result<TypeDef, Error>
    requires { all_below (length types.now) (view_numbers (kind_view def.now.kind)) ≡ true }
    ensures copy { IfOk result (IsTypeUnder types.now owner def.now) }
    ensures refuses { IfErr result IsMemory }
{
    Ok(TypeDef {
        name: copy_optional_text(alloc, &def.name)?,
        kind: copy_kind(alloc, types, &def.kind)?,
        owner,
        docs: copy_docs(alloc, &def.docs)?,
        stability: copy_stability(alloc, &def.stability)?,
        external_id: copy_optional_text(alloc, &def.external_id)?,
    })
}

/// The same type with the parts of these numbers, for an owner. Takes no memory: its parts get their numbers where they stand.
pub fn move_type(types: &[u32], def: TypeDef, owner: TypeOwner) -> TypeDef
    requires { all_below (length types.now) (view_numbers (kind_view def.kind)) ≡ true }
    ensures moved { IsTypeUnder types.now owner def result }
{
    TypeDef {
        name: def.name,
        kind: moved_kind(types, def.kind),
        owner,
        docs: def.docs,
        stability: def.stability,
        external_id: def.external_id,
    }
}
