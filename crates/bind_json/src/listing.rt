//! The whole listing of what a module binds.
#![tactic(auto, using(wit_json::proofs::Adding::adding))]

ghost use Rattle.std.specs.Prelude.{IfErr, IfOk};
ghost use Rattle.wit_model.specs.{Refusals.IsMemory, Text.text_of};
ghost use Rattle.wit_json.specs.Spelled.{Spells};
ghost use Rattle.bind_json.specs.Encodings.{bindgen_listing_tokens};

use crate::encodings::put_encodings;
use json::Writer;
use std::alloc::Global;
use wit_bind::Bindgen;
use wit_json::{begin_listing, put_number, text_of_tokens};
use wit_model::Error;

/// The listing of what a module binds: the four lists of its `Resolve`, the number of the bound world under `world`, and the string encodings of its functions
/// under `encodings`, as `put_encodings` writes them. The `Resolve` need not be valid, nor the number in range.
///
/// Takes time and memory as `begin_listing` and `put_encodings` do. Refuses `Memory` alone.
pub fn bindgen_listing(alloc: Global, bound: &Bindgen) -> Result<String, Error>
    ensures ok { IfOk result (λ text. Spells (text_of text) (bindgen_listing_tokens bound.now)) }
    ensures refuses { IfErr result IsMemory }
{
    let mut w = Writer::new(Vec::new(alloc));
    begin_listing(alloc, &mut w, &bound.resolve)?;
    put_number(&mut w, "world", bound.world.0)?;
    put_encodings(alloc, &mut w, bound)?;
    w.end_object()?;
    Ok(text_of_tokens(w))
}
