//! Encodes the types of functions by any encoder that keeps the law.

ghost use Rattle.std.specs.Prelude.{◌≡◌, [], Err, IfOk, OnOk, OnErr, IfErr};
ghost use Rattle.comp_bytes.specs.Refusal.{IsMemoryOrSize};
ghost use Rattle.wit_model.specs.declared.error.Error.TheVariants.{Size};
ghost use Rattle.wit_model.specs.{Meant.signature_of, Parts.function_types};
ghost use Rattle.encode_types.specs.{Slots.function, Slots.FollowsFunction, Codes.names_of, Codes.IsKeyList, View.Agrees, View.HoldsLearnt, View.WritesLearnt, Key.IsKeyOf, Fits.CanEncode, Maps.AllReady, Maps.LacksKey, Formed.IsFormedSignature, Extents.signature_extent, Aliases.ImportsMet, Aliases.MakesMet};
ghost use Rattle.encode_types.specs.Leaves.{Leaves, LearnsFrom, CountsTypes, CountsInPart, CountsFunction, DefinesFunctionLast, DefinesLast, LacksRoom, FunctionLacksRoom};
ghost use Rattle.encode_types.specs.declared.key.FunctionKey.{FunctionKey as KeyValue};

use crate::encode::{encode_optional_valtype, encode_params};
use comp_bytes::ComponentFuncType;
use encode_types::codes::ListKey;
use encode_types::encoder::ValtypeEncoder;
use encode_types::key::{FunctionKey, key_of};
use encode_types::lend::{index_of_key, list_of_key, remember_key};
use std::alloc::Global;
use wit_model::{Error, Function, Resolve};

/// The type of a function, over the types of its parameters and its result.
fn function_of<'a, E: ValtypeEncoder<'a>>(
    alloc: Global,
    enc: &mut E,
    resolve: &'a Resolve,
    func: &'a Function,
    async_: bool,
) -> Result<ComponentFuncType<'a>, Error>
    requires encodable { CanEncode resolve.now (E.view enc.old).scope (function_types func.now) }
    requires asynchronous { async_ ≡ (signature_of resolve.now func.now).is_async }
    requires agree { Agrees resolve.now (E.view enc.old) }
    ensures ok { IfOk result (λ f. FollowsFunction (E.view enc.new).stands f (signature_of resolve.now func.now)) }
    ensures learns { OnOk result (LearnsFrom resolve.now (function_types func.now) (E.view enc.old) (E.view enc.new)) }
    ensures leaves { Leaves resolve.now (E.view enc.old) (E.view enc.new) }
    ensures aliases { MakesMet resolve.now (function_types func.now) (E.view enc.old) (E.view enc.new) }
    ensures imports { ImportsMet resolve.now (function_types func.now) (E.view enc.old) (E.view enc.new) }
    ensures counts { OnOk result (CountsTypes resolve.now (E.view enc.old) (E.view enc.new)) }
    ensures stopped { OnErr result (CountsInPart resolve.now (E.view enc.old) (E.view enc.new)) }
    ensures knows { OnOk result (AllReady (E.view enc.new).maps (function_types func.now)) }
    ensures held { OnOk result (HoldsLearnt resolve.now 0 (E.view enc.old) (E.view enc.new)) }
    ensures written { OnOk result (WritesLearnt resolve.now 0 (E.view enc.old) (E.view enc.new)) }
    ensures size { result ≡ Err Size → LacksRoom resolve.now (function_types func.now) [] (E.view enc.old) (E.view enc.new) }
    ensures refuses { IfErr result IsMemoryOrSize }
{
    let params = encode_params(alloc, enc, resolve, &func.params)?;
    let result = encode_optional_valtype(alloc, enc, resolve, func.result.as_ref())?;
    Ok(ComponentFuncType {
        async_,
        params,
        result,
    })
}

/// Defines the type of a function whose key the maps lack.
fn define_key<'a, E: ValtypeEncoder<'a>>(
    alloc: Global,
    enc: &mut E,
    resolve: &'a Resolve,
    func: &'a Function,
    key: FunctionKey<'a>,
    list: ListKey,
) -> Result<u32, Error>
    requires encodable { CanEncode resolve.now (E.view enc.old).scope (function_types func.now) }
    requires is_key { IsKeyOf key func.now }
    requires list { IsKeyList (names_of (E.view enc.old).maps.names) key list.0.items }
    requires lacks { LacksKey (E.view enc.old).maps key }
    requires formed { IsFormedSignature (E.view enc.old).scope (signature_of resolve.now func.now) }
    requires agree { Agrees resolve.now (E.view enc.old) }
    ensures ok { IfOk result (λ i. (E.view enc.new).stands i (function (signature_of resolve.now func.now))) }
    ensures learns { OnOk result (LearnsFrom resolve.now (function_types func.now) (E.view enc.old) (E.view enc.new)) }
    ensures leaves { Leaves resolve.now (E.view enc.old) (E.view enc.new) }
    ensures aliases { MakesMet resolve.now (function_types func.now) (E.view enc.old) (E.view enc.new) }
    ensures imports { ImportsMet resolve.now (function_types func.now) (E.view enc.old) (E.view enc.new) }
    ensures counts { IfOk result (CountsFunction resolve.now (E.view enc.old) (E.view enc.new) key.entry) }
    ensures stopped { OnErr result (CountsInPart resolve.now (E.view enc.old) (E.view enc.new)) }
    ensures last { IfOk result (DefinesFunctionLast (E.view enc.old) (E.view enc.new)) }
    ensures held { OnOk result (HoldsLearnt resolve.now 0 (E.view enc.old) (E.view enc.new)) }
    ensures written { OnOk result (WritesLearnt resolve.now (signature_extent (signature_of resolve.now func.now)) (E.view enc.old) (E.view enc.new)) }
    ensures size { result ≡ Err Size → FunctionLacksRoom resolve.now func.now (E.view enc.old) (E.view enc.new) }
    ensures refuses { IfErr result IsMemoryOrSize }
{
    let def = function_of(alloc, enc, resolve, func, key.async_)?;
    let index = enc.define_function_type(def)?;
    remember_key(enc, resolve, list, index)?;
    Ok(index)
}

/// Encodes the type of a function, and what it needs before it. A function with an equal key shares it.
///
/// Takes as long as its parameters and its result, and one search among the keys.
pub fn encode_func_type<'a, E: ValtypeEncoder<'a>>(
    alloc: Global,
    enc: &mut E,
    resolve: &'a Resolve,
    func: &'a Function,
) -> Result<u32, Error>
    requires encodable { CanEncode resolve.now (E.view enc.old).scope (function_types func.now) }
    requires formed { IsFormedSignature (E.view enc.old).scope (signature_of resolve.now func.now) }
    requires agree { Agrees resolve.now (E.view enc.old) }
    ensures ok { IfOk result (λ i. (E.view enc.new).stands i (function (signature_of resolve.now func.now))) }
    ensures learns { OnOk result (LearnsFrom resolve.now (function_types func.now) (E.view enc.old) (E.view enc.new)) }
    ensures leaves { Leaves resolve.now (E.view enc.old) (E.view enc.new) }
    ensures aliases { MakesMet resolve.now (function_types func.now) (E.view enc.old) (E.view enc.new) }
    ensures imports { ImportsMet resolve.now (function_types func.now) (E.view enc.old) (E.view enc.new) }
    ensures counts { IfOk result (λ i. (key : KeyValue) × IsKeyOf key func.now × CountsFunction resolve.now (E.view enc.old) (E.view enc.new) key i) }
    ensures stopped { OnErr result (CountsInPart resolve.now (E.view enc.old) (E.view enc.new)) }
    ensures last { IfOk result (DefinesLast (E.view enc.old) (E.view enc.new)) }
    ensures held { OnOk result (HoldsLearnt resolve.now 0 (E.view enc.old) (E.view enc.new)) }
    ensures written { OnOk result (WritesLearnt resolve.now (signature_extent (signature_of resolve.now func.now)) (E.view enc.old) (E.view enc.new)) }
    ensures size { result ≡ Err Size → FunctionLacksRoom resolve.now func.now (E.view enc.old) (E.view enc.new) }
    ensures refuses { IfErr result IsMemoryOrSize }
{
    let key = key_of(func);
    let list = list_of_key(alloc, enc, resolve, &key)?;
    if let Some(index) = index_of_key(enc, &list) {
        return Ok(index);
    }
    define_key(alloc, enc, resolve, func, key, list)
}
