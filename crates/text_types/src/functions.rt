//! Functions.
#![tactic(auto, using(crate::proofs::Growth::growing))]

ghost use Rattle.std.specs.Prelude.{◌≡◌, IfOk, true, Some, None, option_map};
ghost use Rattle.std.specs.{Option.option_map_or};
ghost use Rattle.wit_model.specs.Text.{text_of};
ghost use Rattle.wit_model.specs.Names.{constructor_name as constructor_lem, method_name as method_lem, static_name as static_lem};
ghost use Rattle.print_grammar.specs.Tree.TypeTree.{Name as NameTree};
ghost use Rattle.text_trees.specs.{Seen.cut, TreesSeen.prefix_of, TreesSeen.signature_of, TreesSeen.type_of};
ghost use Rattle.text_types.specs.{Each.EachIs, Kept.defs_of, Kept.Grows, Scopes.text_in, Scopes.IsPlaced, Seen.SeenMember, Seen.SeenParam};
ghost use Rattle.text_types.specs.Functions.{free_kind as free_lem, method_kind as method_kind_lem, static_kind as static_kind_lem, is_result_tree};
ghost use Rattle.text_types.specs.Functions.{Constructs, FreeStands, IsMade};
ghost use Rattle.text_types.specs.Seen.{EachMember, IsConstructor, IsMethod, IsStatic};
ghost use Rattle.text_types.specs.Plain.{plain_result, plain_signature, plain_type};

use crate::labels::Labels;
use crate::lowering::{LEVELS, lowered, lowered_if_given};
use crate::scope::Scope;
use crate::texts::{docs_of, external_id_of, stability_of, string_of};
use crate::types::Types;
use keyed_hash::KeyedHash;
use std::alloc::Global;
use text_names::{Fault, Why};
use text_trees::{ParamTree, Prefix, ResourceMember, SignatureTree, Span, TypeTree};
use wit_model::{Function, FunctionKind, Handle, Param, Type, TypeId};

/// A function, and where its name stands.
#[derive(Drop)]
pub struct Callable {
    pub function: Function,
    pub at: Span,
}

fn is_self(scope: &Scope<'_>, name: Span) -> bool {
    scope.text.cut(name) == b"self".as_slice()
}

/// The parameters that are written. `self` is taken where the first isn't written.
fn params_of<'t>(
    alloc: Global,
    hash: KeyedHash,
    scope: &Scope<'t>,
    types: &mut Types,
    has_self: bool,
    trees: &[ParamTree],
) -> Result<Vec<Param>, Fault>
    requires { IsPlaced scope.now (defs_of types.old) }
    ensures grows { Grows types.old types.new }
    ensures each { IfOk result (λ all. EachIs (SeenParam (defs_of types.new) (text_in scope.now)) trees.now all.items) }
{
    let mut labels = Labels::new(alloc, hash);
    let mut params = Vec::with_capacity(alloc, trees.len())?;
    for tree in trees {
        if has_self && is_self(scope, tree.name) {
            return scope.text.refused(tree.name, Why::Twice);
        }
        labels.add(&scope.text, tree.name)?;
        let ty = lowered(alloc, scope, types, LEVELS, tree.name, &tree.ty)?;
        params.push(Param {
            name: string_of(alloc, &scope.text, tree.name)?,
            ty,
        })?;
    }
    Ok(params)
}

/// A function with these parts.
fn made(
    alloc: Global,
    scope: &Scope<'_>,
    prefix: &Prefix,
    name: String,
    kind: FunctionKind,
    params: Vec<Param>,
    returned: Option<Type>,
) -> Result<Function, Fault>
    ensures made { IfOk result (IsMade (prefix_of (text_in scope.now) prefix.now) name kind params.items returned) }
{
    Ok(Function {
        name,
        kind,
        params,
        result: returned,
        docs: docs_of(alloc, scope.text.text, prefix.docs)?,
        stability: stability_of(alloc, &scope.text, prefix.gates)?,
        external_id: external_id_of(alloc, &scope.text, prefix.external_id)?,
    })
}

fn free_kind(is_async: bool) -> FunctionKind
    ensures { result ≡ free_lem is_async }
{
    if is_async {
        FunctionKind::AsyncFreestanding
    } else {
        FunctionKind::Freestanding
    }
}

fn method_kind(is_async: bool, id: TypeId) -> FunctionKind
    ensures { result ≡ method_kind_lem is_async id }
{
    if is_async {
        FunctionKind::AsyncMethod(id)
    } else {
        FunctionKind::Method(id)
    }
}

fn static_kind(is_async: bool, id: TypeId) -> FunctionKind
    ensures { result ≡ static_kind_lem is_async id }
{
    if is_async {
        FunctionKind::AsyncStatic(id)
    } else {
        FunctionKind::Static(id)
    }
}

/// A function that belongs to no resource. Takes time linear in its trees. Refuses what has no type, a name of two parameters, a version of too large
/// numbers, and types of more than 100 levels.
pub fn function_of<'t>(
    alloc: Global,
    hash: KeyedHash,
    scope: &Scope<'t>,
    types: &mut Types,
    prefix: &Prefix,
    name: Span,
    signature: &SignatureTree,
) -> Result<Function, Fault>
    requires { IsPlaced scope.now (defs_of types.old) }
    ensures grows { Grows types.old types.new }
    ensures stands { IfOk result (FreeStands (defs_of types.new) (prefix_of (text_in scope.now) prefix.now) (cut (text_in scope.now) name)
        (plain_signature (signature_of (text_in scope.now) signature.now))) }
{
    let params = params_of(alloc, hash, scope, types, false, &signature.params)?;
    let returned = lowered_if_given(alloc, scope, types, name, &signature.result)?;
    let name = string_of(alloc, &scope.text, name)?;
    made(
        alloc,
        scope,
        prefix,
        name,
        free_kind(signature.is_async),
        params,
        returned,
    )
}

/// Whether a type is this resource itself.
fn is_itself(scope: &Scope<'_>, resource: Span, ty: &TypeTree) -> bool
    ensures itself { result ≡ true → plain_type (type_of (text_in scope.now) ty.now) ≡ NameTree (cut (text_in scope.now) resource) }
{
    match ty {
        TypeTree::Name(name) => scope.text.cut(*name) == scope.text.cut(resource),
        TypeTree::Own(name) => scope.text.cut(*name) == scope.text.cut(resource),
        _ => false,
    }
}

/// Whether a type is a result whose value is this resource.
fn gives_itself(scope: &Scope<'_>, resource: Span, ty: &TypeTree) -> bool
    ensures result_tree { result ≡ true → is_result_tree (plain_type (type_of (text_in scope.now) ty.now)) ≡ true }
{
    match ty {
        TypeTree::ResultOk(ok) => is_itself(scope, resource, &**ok),
        TypeTree::ResultOf(ok, _) => is_itself(scope, resource, &**ok),
        _ => false,
    }
}

/// What a constructor gives: its resource, or a result whose value is that.
fn constructed(
    alloc: Global,
    scope: &Scope<'_>,
    types: &mut Types,
    resource: Span,
    id: TypeId,
    tree: &Option<TypeTree>,
) -> Result<Type, Fault>
    requires { IsPlaced scope.now (defs_of types.old) }
    ensures grows { Grows types.old types.new }
    ensures constructs { IfOk result (λ ty. Constructs (defs_of types.new) id (option_map_or (λ t. plain_result
        (cut (text_in scope.now) resource) (plain_type t)) (option_map (type_of (text_in scope.now)) tree.now) None) (Some ty)) }
{
    match tree {
        Some(ty) => {
            if is_itself(scope, resource, ty) {
                types.add_handle(Handle::Own(id))
            } else if gives_itself(scope, resource, ty) {
                lowered(alloc, scope, types, LEVELS, resource, ty)
            } else {
                scope.text.refused(resource, Why::BadResult)
            }
        }
        None => types.add_handle(Handle::Own(id)),
    }
}

fn constructor_name(alloc: Global, scope: &Scope<'_>, resource: Span) -> Result<String, Fault>
    ensures text { IfOk result (λ s. text_of s ≡ constructor_lem (cut (text_in scope.now) resource)) }
{
    let own = scope.text.part(resource)?;
    Ok(format!(in alloc; "[constructor]{own}")?)
}

fn method_name(
    alloc: Global,
    scope: &Scope<'_>,
    resource: Span,
    name: Span,
) -> Result<String, Fault>
    ensures text { IfOk result (λ s. text_of s ≡ method_lem (cut (text_in scope.now) resource) (cut (text_in scope.now) name)) }
{
    let own = scope.text.part(resource)?;
    let last = scope.text.part(name)?;
    Ok(format!(in alloc; "[method]{own}.{last}")?)
}

fn static_name(
    alloc: Global,
    scope: &Scope<'_>,
    resource: Span,
    name: Span,
) -> Result<String, Fault>
    ensures text { IfOk result (λ s. text_of s ≡ static_lem (cut (text_in scope.now) resource) (cut (text_in scope.now) name)) }
{
    let own = scope.text.part(resource)?;
    let last = scope.text.part(name)?;
    Ok(format!(in alloc; "[static]{own}.{last}")?)
}

fn constructor_of<'t>(
    alloc: Global,
    hash: KeyedHash,
    scope: &Scope<'t>,
    types: &mut Types,
    resource: Span,
    id: TypeId,
    prefix: &Prefix,
    trees: &[ParamTree],
    returned: &Option<TypeTree>,
) -> Result<Function, Fault>
    requires { IsPlaced scope.now (defs_of types.old) }
    ensures grows { Grows types.old types.new }
    ensures stands { IfOk result (IsConstructor (defs_of types.new) (text_in scope.now)
        (cut (text_in scope.now) resource) id prefix.now trees.now returned.now) }
{
    let params = params_of(alloc, hash, scope, types, false, trees)?;
    let returned = constructed(alloc, scope, types, resource, id, returned)?;
    let name = constructor_name(alloc, scope, resource)?;
    made(
        alloc,
        scope,
        prefix,
        name,
        FunctionKind::Constructor(id),
        params,
        Some(returned),
    )
}

fn method_of<'t>(
    alloc: Global,
    hash: KeyedHash,
    scope: &Scope<'t>,
    types: &mut Types,
    resource: Span,
    id: TypeId,
    prefix: &Prefix,
    name: Span,
    signature: &SignatureTree,
) -> Result<Function, Fault>
    requires { IsPlaced scope.now (defs_of types.old) }
    ensures grows { Grows types.old types.new }
    ensures stands { IfOk result (IsMethod (defs_of types.new) (text_in scope.now) (cut (text_in scope.now) resource) id prefix.now name signature.now) }
{
    let ty = types.add_handle(Handle::Borrow(id))?;
    let mut params = params_of(alloc, hash, scope, types, true, &signature.params)?;
    let own = String::from_str(alloc, "self")?;
    params.insert(0, Param { name: own, ty })?;
    let returned = lowered_if_given(alloc, scope, types, name, &signature.result)?;
    let name = method_name(alloc, scope, resource, name)?;
    made(
        alloc,
        scope,
        prefix,
        name,
        method_kind(signature.is_async, id),
        params,
        returned,
    )
}

fn static_of<'t>(
    alloc: Global,
    hash: KeyedHash,
    scope: &Scope<'t>,
    types: &mut Types,
    resource: Span,
    id: TypeId,
    prefix: &Prefix,
    name: Span,
    signature: &SignatureTree,
) -> Result<Function, Fault>
    requires { IsPlaced scope.now (defs_of types.old) }
    ensures grows { Grows types.old types.new }
    ensures stands { IfOk result (IsStatic (defs_of types.new) (text_in scope.now) (cut (text_in scope.now) resource) id prefix.now name signature.now) }
{
    let params = params_of(alloc, hash, scope, types, false, &signature.params)?;
    let returned = lowered_if_given(alloc, scope, types, name, &signature.result)?;
    let name = static_name(alloc, scope, resource, name)?;
    made(
        alloc,
        scope,
        prefix,
        name,
        static_kind(signature.is_async, id),
        params,
        returned,
    )
}

fn function_of_resource<'t>(
    alloc: Global,
    hash: KeyedHash,
    scope: &Scope<'t>,
    types: &mut Types,
    resource: Span,
    id: TypeId,
    member: &ResourceMember,
) -> Result<Callable, Fault>
    requires { IsPlaced scope.now (defs_of types.old) }
    ensures grows { Grows types.old types.new }
    ensures stands { IfOk result (SeenMember (defs_of types.new) (text_in scope.now) (cut (text_in scope.now) resource) id member.now) }
{
    match member {
        ResourceMember::Constructor(prefix, params, result) => {
            let function = constructor_of(
                alloc, hash, scope, types, resource, id, prefix, params, result,
            )?;
            Ok(Callable {
                function,
                at: resource,
            })
        }
        ResourceMember::Method(prefix, name, signature) => {
            let function = method_of(
                alloc, hash, scope, types, resource, id, prefix, *name, signature,
            )?;
            Ok(Callable {
                function,
                at: *name,
            })
        }
        ResourceMember::Static(prefix, name, signature) => {
            let function = static_of(
                alloc, hash, scope, types, resource, id, prefix, *name, signature,
            )?;
            Ok(Callable {
                function,
                at: *name,
            })
        }
    }
}

/// The functions of a resource, in order. Takes time linear in their trees. Refuses as `function_of` does, and a constructor that gives something else.
pub fn functions_of_resource<'t>(
    alloc: Global,
    hash: KeyedHash,
    scope: &Scope<'t>,
    types: &mut Types,
    resource: Span,
    members: &[ResourceMember],
) -> Result<Vec<Callable>, Fault>
    requires { IsPlaced scope.now (defs_of types.old) }
    ensures grows { Grows types.old types.new }
    ensures each { IfOk result (λ all. EachMember scope.now (defs_of types.new) (cut (text_in scope.now) resource) members.now all.items) }
{
    let id = scope.id_of(resource)?;
    let mut functions = Vec::with_capacity(alloc, members.len())?;
    for member in members {
        let function = function_of_resource(alloc, hash, scope, types, resource, id, member)?;
        functions.push(function)?;
    }
    Ok(functions)
}
