//! The functions of a plan.

ghost use Rattle.std.specs.{List.list_all, Prelude.◌≡◌, Prelude.map, Prelude.true, Prelude.IfOk};
ghost use Rattle.indexmap.specs.IndexMap.{values};
ghost use Rattle.wit_model.specs.Rules.{are_distinct};
ghost use Rattle.plan_meaning.specs.Built.{is_bare_function, planned_function};
ghost use Rattle.plan_build.specs.PlanOf.{built_function, built_param, named_function, stated_function, stated_params};

use crate::plan::PlannedFunction;
use crate::texts::{copied, copied_if_given, no_docs};
use std::alloc::{AllocError, Global};
use wit_model::{Function, Map, Param, Stability, Type};

fn params_of(alloc: Global, params: &[(&str, Type)]) -> Result<Vec<Param>, AllocError>
    ensures { IfOk result (λ xs. map built_param xs.items ≡ stated_params params.now) }
{
    let mut built = Vec::with_capacity(alloc, params.len())?;
    for param in params {
        let name = copied(alloc, param.0)?;
        built.push(Param { name, ty: param.1 })?;
    }
    Ok(built)
}

/// A function.
pub(crate) fn function_of(
    alloc: Global,
    function: &PlannedFunction<'_>,
) -> Result<Function, AllocError>
    ensures built { IfOk result (λ f. planned_function f ≡ stated_function function.now) }
    ensures bare { IfOk result (λ f. is_bare_function f ≡ true) }
{
    let name = copied(alloc, function.name)?;
    let params = params_of(alloc, &function.params)?;
    let external_id = copied_if_given(alloc, function.external_id)?;
    Ok(Function {
        name,
        kind: function.kind,
        params,
        result: function.result,
        docs: no_docs(),
        stability: Stability::Unknown,
        external_id,
    })
}

/// Functions under their names, in their order, where no two have one name.
pub(crate) fn functions_of(
    alloc: Global,
    functions: &[PlannedFunction<'_>],
) -> Result<Map<String, Function>, AllocError>
    ensures built { IfOk result (λ m. are_distinct (map (λ f. f.name.now) functions.now) ≡ true
        → map built_function m.entries ≡ map named_function functions.now) }
    ensures bare { IfOk result (λ m. are_distinct (map (λ f. f.name.now) functions.now) ≡ true → list_all is_bare_function (values m) ≡ true) }
{
    let mut built = Map::with_capacity(alloc, functions.len())?;
    for function in functions {
        let name = copied(alloc, function.name)?;
        let value = function_of(alloc, function)?;
        built.insert(name, value)?;
    }
    // The least room of a map is for nine entries.
    built.shrink_to_fit();
    Ok(built)
}
