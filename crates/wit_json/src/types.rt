//! Entries of the list of types.
#![tactic(auto, using(crate::proofs::Adding::adding))]

ghost use Rattle.std.specs.Prelude.{◌≡◌, ◌∷◌, ◌++◌, [], codes, OnOk};
ghost use Rattle.json.specs.Token.{key};
ghost use Rattle.wit_json.specs.{Adds.Adds, Listed.kind_tokens, Listed.owner_tokens, Listed.type_tokens};

use crate::kinds::put_kind;
use crate::values::{put_external_id, put_only_number, put_optional_text};
use json::Writer;
use std::alloc::{AllocError, Global};
use wit_model::{TypeDef, TypeDefKind, TypeOwner};

fn put_kind_under(w: &mut Writer<Global>, kind: &TypeDefKind) -> Result<(), AllocError>
    ensures { OnOk result (Adds w.old w.new (key (codes "kind") ∷ kind_tokens kind.now)) }
{
    w.key("kind")?;
    put_kind(w, kind)
}

#[tactic(auto, using(crate::proofs::Adding::adding), unfolding(crate::specs::Listed::owner_tokens))]
fn put_owner(w: &mut Writer<Global>, owner: TypeOwner) -> Result<(), AllocError>
    ensures { OnOk result (Adds w.old w.new (owner_tokens owner)) }
{
    match owner {
        TypeOwner::World(id) => put_only_number(w, "world", id.0),
        TypeOwner::Interface(id) => put_only_number(w, "interface", id.0),
        TypeOwner::None => w.null(),
    }
}

fn put_owner_under(w: &mut Writer<Global>, owner: TypeOwner) -> Result<(), AllocError>
    ensures { OnOk result (Adds w.old w.new (key (codes "owner") ∷ owner_tokens owner)) }
{
    w.key("owner")?;
    put_owner(w, owner)
}

/// A type, with its name, what it is and where it is declared.
#[tactic(auto, using(crate::proofs::Adding::adding), unfolding(crate::specs::Listed::type_tokens))]
pub(crate) fn put_type_def(w: &mut Writer<Global>, def: &TypeDef) -> Result<(), AllocError>
    ensures { OnOk result (Adds w.old w.new (type_tokens def.now)) }
{
    w.begin_object()?;
    put_optional_text(w, "name", &def.name)?;
    put_kind_under(w, &def.kind)?;
    put_owner_under(w, def.owner)?;
    put_external_id(w, &def.external_id)?;
    w.end_object()
}
