//! Declared types.
#![tactic(auto, using(crate::proofs::Growth::growing, crate::proofs::EachLaws::each_laws))]

ghost use Rattle.std.specs.Prelude.{◌≡◌, IfOk};
ghost use Rattle.print_items.specs.Shown.{shown_docs};
ghost use Rattle.text_trees.specs.{Seen.cut, TreesSeen.declared_of, TreesSeen.prefix_of};
ghost use Rattle.text_types.specs.{Declares.declared_name, Declares.with_docs, Declares.DeclaredAt, Declares.DeclaredKind};
ghost use Rattle.text_types.specs.{Declares.NamedAt, Declares.OwnTarget, Each.EachIs, Kept.defs_of, Kept.Grows};
ghost use Rattle.text_types.specs.{Plain.plain_declared, Scopes.text_in, Scopes.IsPlaced, Seen.SeenField, Seen.SeenCase, Seen.SeenFlag, Seen.SeenEnumCase};

use crate::labels::Labels;
use crate::lowering::{LEVELS, kind_of, lowered, lowered_if_given};
use crate::scope::{Scope, name_of};
use crate::texts::{docs_of, external_id_of, stability_of, string_of};
use crate::types::Types;
use keyed_hash::KeyedHash;
use std::alloc::Global;
use text_names::Fault;
use text_trees::{CaseTree, Declared, FieldTree, LabelTree, Prefix, Span};
use wit_model::{
    Case, Docs, Enum, EnumCase, Field, Flag, Flags, Record, TypeDef, TypeDefKind, TypeId, Variant,
};

fn fields_of<'t>(
    alloc: Global,
    hash: KeyedHash,
    scope: &Scope<'t>,
    types: &mut Types,
    trees: &[FieldTree],
) -> Result<Vec<Field>, Fault>
    requires { IsPlaced scope.now (defs_of types.old) }
    ensures grows { Grows types.old types.new }
    ensures each { IfOk result (λ all. EachIs (SeenField (defs_of types.new) (text_in scope.now)) trees.now all.items) }
{
    let mut labels = Labels::new(alloc, hash);
    let mut fields = Vec::with_capacity(alloc, trees.len())?;
    for tree in trees {
        labels.add(&scope.text, tree.name)?;
        let ty = lowered(alloc, scope, types, LEVELS, tree.name, &tree.ty)?;
        fields.push(Field {
            name: string_of(alloc, &scope.text, tree.name)?,
            ty,
            docs: docs_of(alloc, scope.text.text, tree.docs)?,
        })?;
    }
    Ok(fields)
}

fn cases_of<'t>(
    alloc: Global,
    hash: KeyedHash,
    scope: &Scope<'t>,
    types: &mut Types,
    trees: &[CaseTree],
) -> Result<Vec<Case>, Fault>
    requires { IsPlaced scope.now (defs_of types.old) }
    ensures grows { Grows types.old types.new }
    ensures each { IfOk result (λ all. EachIs (SeenCase (defs_of types.new) (text_in scope.now)) trees.now all.items) }
{
    let mut labels = Labels::new(alloc, hash);
    let mut cases = Vec::with_capacity(alloc, trees.len())?;
    for tree in trees {
        labels.add(&scope.text, tree.name)?;
        let ty = lowered_if_given(alloc, scope, types, tree.name, &tree.payload)?;
        cases.push(Case {
            name: string_of(alloc, &scope.text, tree.name)?,
            ty,
            docs: docs_of(alloc, scope.text.text, tree.docs)?,
        })?;
    }
    Ok(cases)
}

fn flags_of<'t>(
    alloc: Global,
    hash: KeyedHash,
    scope: &Scope<'t>,
    trees: &[LabelTree],
) -> Result<Vec<Flag>, Fault>
    ensures each { IfOk result (λ all. EachIs (SeenFlag (text_in scope.now)) trees.now all.items) }
{
    let mut labels = Labels::new(alloc, hash);
    let mut flags = Vec::with_capacity(alloc, trees.len())?;
    for tree in trees {
        labels.add(&scope.text, tree.name)?;
        flags.push(Flag {
            name: string_of(alloc, &scope.text, tree.name)?,
            docs: docs_of(alloc, scope.text.text, tree.docs)?,
        })?;
    }
    Ok(flags)
}

fn enum_cases_of<'t>(
    alloc: Global,
    hash: KeyedHash,
    scope: &Scope<'t>,
    trees: &[LabelTree],
) -> Result<Vec<EnumCase>, Fault>
    ensures each { IfOk result (λ all. EachIs (SeenEnumCase (text_in scope.now)) trees.now all.items) }
{
    let mut labels = Labels::new(alloc, hash);
    let mut cases = Vec::with_capacity(alloc, trees.len())?;
    for tree in trees {
        labels.add(&scope.text, tree.name)?;
        cases.push(EnumCase {
            name: string_of(alloc, &scope.text, tree.name)?,
            docs: docs_of(alloc, scope.text.text, tree.docs)?,
        })?;
    }
    Ok(cases)
}

/// What a type is declared as.
#[tactic(auto, using(crate::proofs::Growth::growing, crate::proofs::DeclaredLaws::own_kinds))]
fn kind_of_declared<'t>(
    alloc: Global,
    hash: KeyedHash,
    scope: &Scope<'t>,
    types: &mut Types,
    declared: &Declared,
) -> Result<TypeDefKind, Fault>
    requires { IsPlaced scope.now (defs_of types.old) }
    ensures grows { Grows types.old types.new }
    ensures is { IfOk result (DeclaredKind (defs_of types.new) (plain_declared (declared_of (text_in scope.now) declared.now))) }
    ensures own { IfOk result (OwnTarget (defs_of types.new) scope.now.owner) }
{
    match declared {
        Declared::RecordOf(_, trees) => Ok(TypeDefKind::Record(Record {
            fields: fields_of(alloc, hash, scope, types, trees)?,
        })),
        Declared::VariantOf(_, trees) => Ok(TypeDefKind::Variant(Variant {
            cases: cases_of(alloc, hash, scope, types, trees)?,
        })),
        Declared::FlagsOf(_, trees) => Ok(TypeDefKind::Flags(Flags {
            flags: flags_of(alloc, hash, scope, trees)?,
        })),
        Declared::EnumOf(_, trees) => Ok(TypeDefKind::Enum(Enum {
            cases: enum_cases_of(alloc, hash, scope, trees)?,
        })),
        Declared::AliasOf(name, ty) => kind_of(alloc, scope, types, *name, ty),
        Declared::ResourceOf(_, _) => Ok(TypeDefKind::Resource),
    }
}

/// Adds a type of a name, with this documentation.
pub(crate) fn add_named<'t>(
    alloc: Global,
    scope: &Scope<'t>,
    types: &mut Types,
    docs: Docs,
    prefix: &Prefix,
    name: Span,
    kind: TypeDefKind,
) -> Result<TypeId, Fault>
    ensures grows { Grows types.old types.new }
    ensures added { IfOk result (NamedAt (defs_of types.new) scope.now.owner (with_docs (shown_docs docs) (prefix_of (text_in scope.now) prefix.now))
        (cut (text_in scope.now) name) kind) }
{
    let def = TypeDef {
        name: Some(string_of(alloc, &scope.text, name)?),
        kind,
        owner: scope.owner,
        docs,
        stability: stability_of(alloc, &scope.text, prefix.gates)?,
        external_id: external_id_of(alloc, &scope.text, prefix.external_id)?,
    };
    types.add(def)
}

/// Adds a declared type.
pub(crate) fn add_declared<'t>(
    alloc: Global,
    hash: KeyedHash,
    scope: &Scope<'t>,
    types: &mut Types,
    prefix: &Prefix,
    declared: &Declared,
) -> Result<TypeId, Fault>
    requires { IsPlaced scope.now (defs_of types.old) }
    ensures grows { Grows types.old types.new }
    ensures added { IfOk result (DeclaredAt (defs_of types.new) scope.now.owner (prefix_of (text_in scope.now) prefix.now)
        (plain_declared (declared_of (text_in scope.now) declared.now))) }
{
    let docs = docs_of(alloc, scope.text.text, prefix.docs)?;
    let kind = kind_of_declared(alloc, hash, scope, types, declared)?;
    add_named(alloc, scope, types, docs, prefix, name_of(declared), kind)
}
