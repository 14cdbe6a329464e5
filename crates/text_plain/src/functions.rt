//! Functions in the whole text, with other names for types.

ghost use Rattle.std.specs.Prelude.{◌≡◌, map, IfOk};
ghost use Rattle.text_trees.specs.TreesSeen.{param_of, signature_of};
ghost use Rattle.text_plain.specs.Moved.{moved_param, moved_signature};
ghost use Rattle.text_plain.specs.Moves.{on_name, text_from, text_to, Fits};

use crate::moving::Moving;
use crate::spans::copy_span;
use crate::types::{copy_optional_type, copy_type};
use std::alloc::{AllocError, Global};
use text_trees::{ParamTree, SignatureTree};

fn copy_param(
    alloc: Global,
    moving: &Moving<'_, '_>,
    param: &ParamTree,
) -> Result<ParamTree, AllocError>
    requires { Fits moving.now }
    ensures { IfOk result (λ r. param_of (text_to moving.now) r ≡ moved_param (on_name moving.now) (param_of (text_from moving.now) param.now)) }
{
    Ok(ParamTree {
        name: copy_span(moving, param.name),
        ty: copy_type(alloc, moving, &param.ty)?,
    })
}

/// Parameters with other names for types.
pub(crate) fn copy_params(
    alloc: Global,
    moving: &Moving<'_, '_>,
    params: &[ParamTree],
) -> Result<Vec<ParamTree>, AllocError>
    requires { Fits moving.now }
    ensures { IfOk result (λ r. map (param_of (text_to moving.now)) r.items
        ≡ map (moved_param (on_name moving.now)) (map (param_of (text_from moving.now)) params.now)) }
{
    let mut copy = Vec::with_capacity(alloc, params.len())?;
    for param in params {
        copy.push(copy_param(alloc, moving, param)?)?;
    }
    Ok(copy)
}

/// A function's type with other names for types.
pub(crate) fn copy_signature(
    alloc: Global,
    moving: &Moving<'_, '_>,
    signature: &SignatureTree,
) -> Result<SignatureTree, AllocError>
    requires { Fits moving.now }
    ensures { IfOk result (λ r. signature_of (text_to moving.now) r
        ≡ moved_signature (on_name moving.now) (signature_of (text_from moving.now) signature.now)) }
{
    Ok(SignatureTree {
        is_async: signature.is_async,
        params: copy_params(alloc, moving, &signature.params)?,
        result: copy_optional_type(alloc, moving, &signature.result)?,
    })
}
