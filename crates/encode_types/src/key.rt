//! What makes the type of a function.

ghost use Rattle.std.specs.Prelude.{◌≡◌, fold};
ghost use Rattle.std.specs.Hash as fed;
ghost use Rattle.encode_types.specs.Key.{IsKeyOf, same_param, same_params, same_key, param_writes, params_writes, key_writes};
ghost use Rattle.encode_types.specs.KeyLaws.{params_equiv, params_partial_equiv, params_alike, key_equiv, key_partial_equiv, key_alike};

use std::hash::{Hash, Hasher};
use wit_model::{Function, Param, Type};

/// A view of parameters that compares and hashes their names and types.
#[derive(Clone, Drop)]
pub struct ParamSignatures<'a>(pub &'a [Param]);

/// What makes the type of a function. Functions with equal keys share one type.
#[derive(Clone, Drop)]
pub struct FunctionKey<'a> {
    pub async_: bool,
    pub params: ParamSignatures<'a>,
    pub result: &'a Option<Type>,
}

/// The key of a function. Takes constant time and no memory.
pub fn key_of<'a>(func: &'a Function) -> FunctionKey<'a>
    ensures { IsKeyOf result func.now }
{
    FunctionKey {
        async_: func.kind.is_async(),
        params: ParamSignatures(&func.params),
        result: &func.result,
    }
}

fn is_same_param(a: &Param, b: &Param) -> bool
    ensures { result ≡ same_param a.now b.now }
{
    a.name == b.name && a.ty == b.ty
}

fn hash_param<H: Hasher>(param: &Param, state: &mut H)
    ensures { state.new ≡ fold H.write state.old (param_writes param.now) }
{
    param.name.hash(state);
    param.ty.hash(state);
}

fn hash_params<H: Hasher>(params: &[Param], state: &mut H)
    ensures { state.new ≡ fold H.write state.old (fed.slice param_writes params.now) }
{
    state.write_usize(params.len());
    for i in 0..params.len() {
        hash_param(&params[i], state);
    }
}

impl<'a> PartialEq for ParamSignatures<'a> {
    ghost eq = { same_params };

    ghost laws = { params_partial_equiv };

    fn eq(&self, other: &ParamSignatures<'a>) -> bool {
        self.0.len() == other.0.len()
            && self
                .0
                .iter()
                .zip(other.0.iter())
                .all(|(a, b)| is_same_param(a, b))
    }
}

impl<'a> Eq for ParamSignatures<'a> {
    ghost laws = { params_equiv };
}

impl<'a> Hash for ParamSignatures<'a> {
    ghost hash_input = { params_writes };

    ghost respects_eq = { params_alike.fed };

    fn hash<H: Hasher>(&self, state: &mut H) {
        hash_params(self.0, state);
    }
}

impl<'a> PartialEq for FunctionKey<'a> {
    ghost eq = { same_key };

    ghost laws = { key_partial_equiv };

    fn eq(&self, other: &FunctionKey<'a>) -> bool {
        self.async_ == other.async_
            && (self.params == other.params && *self.result == *other.result)
    }
}

impl<'a> Eq for FunctionKey<'a> {
    ghost laws = { key_equiv };
}

impl<'a> Hash for FunctionKey<'a> {
    ghost hash_input = { key_writes };

    ghost respects_eq = { key_alike.fed };

    fn hash<H: Hasher>(&self, state: &mut H) {
        self.async_.hash(state);
        self.params.hash(state);
        self.result.hash(state);
    }
}
