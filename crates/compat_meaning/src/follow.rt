//! What type numbers are, aliases followed.

ghost use Rattle.std.specs.Prelude.{◌≡◌, ◌<◌, ◌^◌, length, IfOk};
ghost use Rattle.compat_meaning.specs.Walk.{head_of_kind, heads_of, in_heads};
ghost use Rattle.wit_model.specs.Types.{number_of as number_of_lem};

use std::alloc::{AllocError, Global};
use wit_model::{Resolve, Type, TypeDefKind, TypeId};

/// The number that a type refers to, if it isn't a primitive.
pub fn number_of(ty: Type) -> Option<u32>
    ensures { result ≡ number_of_lem ty }
{
    match ty {
        Type::Id(id) => Some(id.0),
        _ => None,
    }
}

/// What a type is, aliases followed, by a table of what each number is.
pub(crate) fn head_in(heads: &[Type], ty: Type) -> Type
    ensures { result ≡ in_heads heads.now ty }
{
    match ty {
        Type::Id(id) => heads.get(id.0 as usize).copied().unwrap_or(ty),
        _ => ty,
    }
}

fn head_of(heads: &[Type], kind: &TypeDefKind, number: u32) -> Type
    requires { number ≡ length heads.now }
    ensures { result ≡ head_of_kind heads.now kind.now }
{
    match kind {
        TypeDefKind::Type_(ty) => head_in(heads, *ty),
        _ => Type::Id(TypeId(number)),
    }
}

/// What each type number is, aliases followed. One pass over the types.
#[tactic(auto, unfolding(crate::specs::Walk::heads_of))]
pub fn heads(alloc: Global, resolve: &Resolve) -> Result<Vec<Type>, AllocError>
    requires { length resolve.now.types.items < 2 ^ 32 }
    ensures { IfOk result (λ v. v.items ≡ heads_of resolve.now) }
{
    let mut heads = Vec::new(alloc);
    for def in &resolve.types {
        let head = head_of(&heads, &def.kind, heads.len() as u32);
        heads.push(head)?;
    }
    Ok(heads)
}
