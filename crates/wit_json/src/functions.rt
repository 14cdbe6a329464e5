//! Functions, and entries of the list of interfaces.
#![tactic(auto, using(crate::proofs::Adding::adding, crate::proofs::Adding::listing))]

ghost use Rattle.std.specs.Prelude.{◌≡◌, ◌∷◌, ◌++◌, [], codes, OnOk};
ghost use Rattle.indexmap.specs.IndexMap.{values};
ghost use Rattle.json.specs.Token.{key};
ghost use Rattle.wit_json.specs.Adds.{Adds};
ghost use Rattle.wit_json.specs.Listed.{function_kind_tokens, function_tokens, interface_tokens, listed, member, number_entry, param_tokens, type_or_null};

use crate::kinds::put_typed;
use crate::values::{
    begin_list_under, put_external_id, put_home, put_only_number, put_optional_text, put_text,
    put_type_under,
};
use json::Writer;
use std::alloc::{AllocError, Global};
use wit_model::{Function, FunctionKind, Interface, Map, Param, Type, TypeId};

#[tactic(auto, using(crate::proofs::Adding::adding), unfolding(crate::specs::Listed::function_kind_tokens))]
fn put_function_kind(w: &mut Writer<Global>, kind: FunctionKind) -> Result<(), AllocError>
    ensures { OnOk result (Adds w.old w.new (function_kind_tokens kind)) }
{
    match kind {
        FunctionKind::Freestanding => w.string("freestanding"),
        FunctionKind::AsyncFreestanding => w.string("async-freestanding"),
        FunctionKind::Method(id) => put_only_number(w, "method", id.0),
        FunctionKind::AsyncMethod(id) => put_only_number(w, "async-method", id.0),
        FunctionKind::Static(id) => put_only_number(w, "static", id.0),
        FunctionKind::AsyncStatic(id) => put_only_number(w, "async-static", id.0),
        FunctionKind::Constructor(id) => put_only_number(w, "constructor", id.0),
    }
}

fn put_kind_under(w: &mut Writer<Global>, kind: FunctionKind) -> Result<(), AllocError>
    ensures { OnOk result (Adds w.old w.new (key (codes "kind") ∷ function_kind_tokens kind)) }
{
    w.key("kind")?;
    put_function_kind(w, kind)
}

fn put_params(w: &mut Writer<Global>, params: &[Param]) -> Result<(), AllocError>
    ensures { OnOk result (Adds w.old w.new (key (codes "params") ∷ listed param_tokens params.now)) }
{
    begin_list_under(w, "params")?;
    for param in params.iter() {
        put_typed(w, &param.name, Some(param.ty))?;
    }
    w.end_array()
}

fn put_result_type(w: &mut Writer<Global>, ty: Option<Type>) -> Result<(), AllocError>
    ensures { OnOk result (Adds w.old w.new (member (codes "result") (type_or_null ty))) }
{
    put_type_under(w, "result", ty)
}

/// A function, with its parameters in order.
#[tactic(auto, using(crate::proofs::Adding::adding), unfolding(crate::specs::Listed::function_tokens))]
pub(crate) fn put_function(w: &mut Writer<Global>, function: &Function) -> Result<(), AllocError>
    ensures { OnOk result (Adds w.old w.new (function_tokens function.now)) }
{
    w.begin_object()?;
    put_text(w, "name", &function.name)?;
    put_kind_under(w, function.kind)?;
    put_params(w, &function.params)?;
    put_result_type(w, function.result)?;
    put_external_id(w, &function.external_id)?;
    w.end_object()
}

fn put_type_numbers(w: &mut Writer<Global>, types: &Map<String, TypeId>) -> Result<(), AllocError>
    ensures { OnOk result (Adds w.old w.new (key (codes "types") ∷ listed (λ id. number_entry id.0) (values types.now))) }
{
    begin_list_under(w, "types")?;
    for id in types.values() {
        w.u64(id.0 as u64)?;
    }
    w.end_array()
}

fn put_functions(
    w: &mut Writer<Global>,
    functions: &Map<String, Function>,
) -> Result<(), AllocError>
    ensures { OnOk result (Adds w.old w.new (key (codes "functions") ∷ listed function_tokens (values functions.now))) }
{
    begin_list_under(w, "functions")?;
    for function in functions.values() {
        put_function(w, function)?;
    }
    w.end_array()
}

/// An interface, with the numbers of its types and its functions.
#[tactic(auto, using(crate::proofs::Adding::adding), unfolding(crate::specs::Listed::interface_tokens))]
pub(crate) fn put_interface(w: &mut Writer<Global>, interface: &Interface) -> Result<(), AllocError>
    ensures { OnOk result (Adds w.old w.new (interface_tokens interface.now)) }
{
    w.begin_object()?;
    put_optional_text(w, "name", &interface.name)?;
    put_home(w, interface.package)?;
    put_type_numbers(w, &interface.types)?;
    put_functions(w, &interface.functions)?;
    w.end_object()
}
