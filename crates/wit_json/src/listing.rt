//! Whole listings, as text.
#![tactic(auto, using(crate::proofs::Adding::adding))]

ghost use Rattle.std.specs.Prelude.{◌≡◌, ◌∷◌, ◌++◌, [], codes, IfErr, IfOk, OnOk};
ghost use Rattle.wit_model.specs.{Refusals.IsMemory, Text.text_of};
ghost use Rattle.wit_json.specs.{Adds.Adds, Spelled.Spells};
ghost use Rattle.wit_json.specs.Listed.{listing_begun, member, number_token, package_listing_tokens, whole_listing, world_listing_tokens};

use crate::lists::put_each_list;
use crate::values::put_number;
use json::Writer;
use std::alloc::{AllocError, Global};
use wit_model::{Error, PackageId, Resolve, WorldId};

fn begin(alloc: Global, w: &mut Writer<Global>, resolve: &Resolve) -> Result<(), AllocError>
    ensures { OnOk result (Adds w.old w.new (listing_begun resolve.now)) }
{
    w.begin_object()?;
    put_number(w, "format", 1)?;
    put_each_list(alloc, w, resolve)
}

/// Begins a listing: the number of its format, and the four lists. What it is a listing of follows, and the end of its object. The `Resolve` need not be
/// valid.
///
/// Takes time and memory linear in what it writes. Refuses `Memory` alone; what the writer has then isn't said.
pub fn begin_listing(alloc: Global, w: &mut Writer<Global>, resolve: &Resolve) -> Result<(), Error>
    ensures ok { OnOk result (Adds w.old w.new (listing_begun resolve.now)) }
    ensures refuses { IfErr result IsMemory }
{
    Ok(begin(alloc, w, resolve)?)
}

/// The text of what was written by a writer that began with nothing. Takes one pass over the text, and no memory.
pub fn text_of_tokens(w: Writer<Global>) -> String
    requires { w.before ≡ [] }
    ensures { Spells (text_of result) w.tokens }
{
    match String::from_utf8(w.into_inner()) {
        Ok(text) => text,
        Err(_) => unreachable!(),
    }
}

fn put_whole(
    alloc: Global,
    w: &mut Writer<Global>,
    resolve: &Resolve,
    subject: &str,
    number: u32,
) -> Result<(), AllocError>
    ensures { OnOk result (Adds w.old w.new (whole_listing resolve.now (member subject.now (number_token number)))) }
{
    begin(alloc, w, resolve)?;
    put_number(w, subject, number)?;
    w.end_object()
}

fn listing_of(alloc: Global, resolve: &Resolve, subject: &str, number: u32) -> Result<String, Error>
    ensures ok { IfOk result (λ text. Spells (text_of text) (whole_listing resolve.now (member subject.now (number_token number)))) }
    ensures refuses { IfErr result IsMemory }
{
    let mut w = Writer::new(Vec::new(alloc));
    put_whole(alloc, &mut w, resolve, subject, number)?;
    Ok(text_of_tokens(w))
}

/// The listing of a package: the four lists of its `Resolve`, and its number under `package`. The `Resolve` need not be valid, nor the number in range.
///
/// Takes time and memory linear in the text. Refuses `Memory` alone.
pub fn package_listing(
    alloc: Global,
    resolve: &Resolve,
    package: PackageId,
) -> Result<String, Error>
    ensures ok { IfOk result (λ text. Spells (text_of text) (package_listing_tokens resolve.now «package».0)) }
    ensures refuses { IfErr result IsMemory }
{
    listing_of(alloc, resolve, "package", package.0)
}

/// The listing of a world: the four lists of its `Resolve`, and its number under `world`. The `Resolve` need not be valid, nor the number in range.
///
/// Takes time and memory linear in the text. Refuses `Memory` alone.
pub fn world_listing(alloc: Global, resolve: &Resolve, world: WorldId) -> Result<String, Error>
    ensures ok { IfOk result (λ text. Spells (text_of text) (world_listing_tokens resolve.now world.0)) }
    ensures refuses { IfErr result IsMemory }
{
    listing_of(alloc, resolve, "world", world.0)
}
