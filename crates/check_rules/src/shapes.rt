//! The rules on shapes and on kinds that are named.

ghost use Rattle.std.specs.Prelude.{◌≡◌, IfNone, IfSome, is_some, ◌&&◌, ◌||◌, not};
ghost use Rattle.wit_model.specs.Rules.{has_shape as has_shape_lem, is_map_key as is_map_key_lem, is_named_kind as is_named_kind_lem, is_named_number as is_named_number_lem, passes};
ghost use Rattle.wit_model.specs.{Uses.alias_target as alias_target_lem, Valid.Breaks, Valid.Keeps, Valid.named_kinds, Valid.shapes};
ghost use Rattle.wit_model.specs.declared.error.EntryList.TheVariants as lists;

use wit_model::lookup::alias_target;
use wit_model::{Resolve, Type, TypeDef, TypeDefKind};

fn is_map_key(key: Type) -> bool
    ensures { result ≡ is_map_key_lem key }
{
    !matches!(
        key,
        Type::F32 | Type::F64 | Type::ErrorContext | Type::Id(_)
    )
}

/// Whether a kind isn't empty, has no empty fixed length (none is too long in 32 bits), and its map's key is a plain one.
fn has_shape(kind: &TypeDefKind) -> bool
    ensures { result ≡ has_shape_lem kind.now }
{
    match kind {
        TypeDefKind::Record(record) => record.fields.len() > 0,
        TypeDefKind::Flags(flags) => flags.flags.len() > 0,
        TypeDefKind::Variant(variant) => variant.cases.len() > 0,
        TypeDefKind::Enum(cases) => cases.cases.len() > 0,
        TypeDefKind::Tuple(tuple) => tuple.types.len() > 0,
        TypeDefKind::FixedLengthList(_, length) => *length >= 1,
        TypeDefKind::Map(key, _) => is_map_key(*key),
        _ => true,
    }
}

/// A type that breaks the rule of shapes, if there is one. One pass over the types.
#[tactic(auto, unfolding(wit_model::specs::Valid::shapes))]
pub(crate) fn misshapen(resolve: &Resolve) -> Option<usize>
    ensures kept { IfNone result (Keeps shapes resolve.now) }
    ensures broken { IfSome result (λ n. Breaks resolve.now 7 lists.Types n) }
{
    for (number, def) in resolve.types.iter().enumerate() {
        if !has_shape(&def.kind) {
            return Some(number);
        }
    }
    None
}

fn is_named_kind(kind: &TypeDefKind) -> bool
    ensures { result ≡ is_named_kind_lem kind.now }
{
    match kind {
        TypeDefKind::Record(_)
        | TypeDefKind::Flags(_)
        | TypeDefKind::Variant(_)
        | TypeDefKind::Enum(_)
        | TypeDefKind::Resource
        | TypeDefKind::Type_(_) => true,
        _ => false,
    }
}

fn is_named_number(resolve: &Resolve, number: usize) -> bool
    ensures { result ≡ is_named_number_lem resolve.now number }
{
    match resolve.types.get(number) {
        Some(def) => def.name.is_some(),
        None => true,
    }
}

fn has_named_target(resolve: &Resolve, kind: &TypeDefKind) -> bool
    ensures { result ≡ passes (is_named_number_lem resolve.now) (alias_target_lem kind.now) }
{
    match alias_target(kind) {
        Some(target) => is_named_number(resolve, target),
        None => true,
    }
}

fn is_fitly_named(resolve: &Resolve, def: &TypeDef) -> bool
    ensures { result ≡ ((not (is_named_kind_lem def.now.kind) || is_some def.now.name)
        && passes (is_named_number_lem resolve.now) (alias_target_lem def.now.kind)) }
{
    (!is_named_kind(&def.kind) || def.name.is_some()) && has_named_target(resolve, &def.kind)
}

/// A type that breaks the rule of named kinds, if there is one. One pass over the types.
#[tactic(auto, unfolding(wit_model::specs::Valid::named_kinds))]
pub(crate) fn misnamed_kind(resolve: &Resolve) -> Option<usize>
    ensures kept { IfNone result (Keeps named_kinds resolve.now) }
    ensures broken { IfSome result (λ n. Breaks resolve.now 8 lists.Types n) }
{
    for (number, def) in resolve.types.iter().enumerate() {
        if !is_fitly_named(resolve, def) {
            return Some(number);
        }
    }
    None
}
