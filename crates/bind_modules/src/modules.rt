//! The sections of a module, bound one after the other.

ghost use Rattle.std.specs.Prelude.{◌≡◌, ◌≢◌, ◌+◌, ◌<◌, ◌≤◌, ◌^◌, ℕ, List, [], length, IfErr, IfOk, OnOk};
ghost use Rattle.wit_model.specs.declared.error.Error.TheVariants.{Size};
ghost use Rattle.plan_meaning.specs.Built.{IsBare};
ghost use Rattle.wit_bind.specs.Bindings.{IsBindgen, binding_of};
ghost use Rattle.wit_metadata.specs.Modules.{IsFrontData, StripsModule};
ghost use Rattle.bind_sections.specs.{Bound.IsBound, Bound.RefusesBindings, Steps.IsDataInFront, Blamed.Blames};
ghost use Rattle.bind_names.specs.Named.{AreNamed};
ghost use Rattle.bind_modules.specs.{BoundTo.BeginsWithRoot, BoundTo.IsBoundTo, Reached.IsReached, Reached.OutgrowsLists};

use crate::named::{merge_named, named_by_bytes};
use crate::sections::decode_section;
use bind_names::PackagesByName;
use std::alloc::Global;
use wit_bind::Bindgen;
use wit_metadata::{carried_in, sections_of, stripped};
use wit_model::Error;

// Binds what the data of a section carries, onto what has been bound, whose packages are known by their names.
fn bind_section(
    alloc: Global,
    bound: &mut Bindgen,
    named: &mut PackagesByName,
    section: &[u8],
) -> Result<(), Error>
    requires bindgen { IsBindgen bound.old }
    requires named { AreNamed bound.old.resolve.packages.items named.old }
    ensures named { OnOk result (AreNamed bound.new.resolve.packages.items named.new) }
    ensures ok { (input bytes rest : List ℕ) (n : ℕ) → IsBoundTo input bound.old n bytes → IsDataInFront bytes section.now rest
        → OnOk result (IsBoundTo input bound.new (n + 1) rest) }
    ensures refuses { (input bytes rest : List ℕ) (n : ℕ) → IsBoundTo input bound.old n bytes → IsDataInFront bytes section.now rest
        → IfErr result (RefusesBindings input) }
    ensures blames { (input bytes rest : List ℕ) (n : ℕ) → IsBoundTo input bound.old n bytes → IsDataInFront bytes section.now rest
        → IfErr result (Blames input n) }
    ensures size { (input bytes rest : List ℕ) (n : ℕ) → IsBoundTo input bound.old n bytes → IsDataInFront bytes section.now rest
        → IfErr result (λ e. e ≡ Size → OutgrowsLists input) }
{
    let other = decode_section(alloc, section)?;
    merge_named(alloc, bound, named, other)?;
    Ok(())
}

// The same where a section carries data, which is counted once it is bound. Where it carries none, nothing is bound.
fn bind_carried(
    alloc: Global,
    bound: &mut Bindgen,
    named: &mut PackagesByName,
    count: &mut usize,
    carried: Option<&[u8]>,
) -> Result<(), Error>
    requires bindgen { IsBindgen bound.old }
    requires named { AreNamed bound.old.resolve.packages.items named.old }
    requires room { count.old + 1 < 2 ^ 64 }
    ensures named { OnOk result (AreNamed bound.new.resolve.packages.items named.new) }
    ensures counts { count.new ≤ count.old + 1 }
    ensures ok { (input bytes rest : List ℕ) → IsBoundTo input bound.old count.old bytes → IsFrontData bytes carried.entry rest
        → OnOk result (IsBoundTo input bound.new count.new rest) }
    ensures refuses { (input bytes rest : List ℕ) → IsBoundTo input bound.old count.old bytes → IsFrontData bytes carried.entry rest
        → IfErr result (RefusesBindings input) }
    ensures blames { (input bytes rest : List ℕ) → IsBoundTo input bound.old count.old bytes → IsFrontData bytes carried.entry rest
        → IfErr result (Blames input count.new) }
    ensures size { (input bytes rest : List ℕ) → IsBoundTo input bound.old count.old bytes → IsFrontData bytes carried.entry rest
        → IfErr result (λ e. e ≡ Size → OutgrowsLists input) }
{
    match carried {
        Some(section) => {
            bind_section(alloc, bound, named, section)?;
            *count += 1;
            Ok(())
        }
        None => Ok(()),
    }
}

// Binds the section in front, and answers the bytes behind it. They are those of a module from this offset on.
fn bind_front<'a>(
    alloc: Global,
    bound: &mut Bindgen,
    named: &mut PackagesByName,
    count: &mut usize,
    bytes: &'a [u8],
    offset: usize,
) -> Result<&'a [u8], Error>
    requires bindgen { IsBindgen bound.old }
    requires named { AreNamed bound.old.resolve.packages.items named.old }
    requires room { count.old + 1 < 2 ^ 64 }
    requires some { bytes.now ≢ [] }
    ensures ok { (input : List ℕ) → IsBoundTo input bound.old count.old bytes.now
        → IfOk result (λ rest. IsBoundTo input bound.new count.new rest.now) }
    ensures named { OnOk result (AreNamed bound.new.resolve.packages.items named.new) }
    ensures counts { count.new ≤ count.old + 1 }
    ensures shorter { IfOk result (λ rest. length rest.now < length bytes.now) }
    ensures refuses { (input : List ℕ) → offset + length bytes.now ≡ length input → IsBoundTo input bound.old count.old bytes.now
        → IfErr result (RefusesBindings input) }
    ensures blames { (input : List ℕ) → IsBoundTo input bound.old count.old bytes.now → IfErr result (Blames input count.new) }
    ensures size { (input : List ℕ) → IsBoundTo input bound.old count.old bytes.now → IfErr result (λ e. e ≡ Size → OutgrowsLists input) }
{
    let (carried, behind) = carried_in(bytes, offset)?;
    bind_carried(alloc, bound, named, count, carried)?;
    Ok(behind)
}

/// What the sections of a module bind, in their order. Those that carry worlds are counted: at a refusal there are so many in front of the refused one.
pub(crate) fn bindings(alloc: Global, bytes: &[u8], count: &mut usize) -> Result<Bindgen, Error>
    ensures bound { IfOk result (λ b. IsBound bytes.now (binding_of b)) }
    ensures valid { IfOk result IsBindgen }
    ensures root { IfOk result (λ b. BeginsWithRoot b.resolve) }
    ensures reached { IfOk result (λ b. IsReached bytes.now b []) }
    ensures refuses { IfErr result (RefusesBindings bytes.now) }
    ensures blames { IfErr result (Blames bytes.now count.new) }
    ensures size { IfErr result (λ e. e ≡ Size → OutgrowsLists bytes.now) }
{
    *count = 0;
    let mut rest = sections_of(bytes)?;
    let mut bound = Bindgen::default(alloc)?;
    let mut named = named_by_bytes(alloc, bytes, &bound)?;
    while !rest.is_empty() {
        let offset = bytes.len() - rest.len();
        rest = bind_front(alloc, &mut bound, &mut named, count, rest, offset)?;
    }
    Ok(bound)
}

/// The bindings of a core module, and the module without the sections that carry worlds, or none where no section carries one (wit-component README,
/// "Custom Section Format").
///
/// The bindings are those of a module that carries no world, as `Bindgen::default` answers them, merged with those of each custom section whose name
/// begins with `component-type`, one after the other. The data of such a section binds the world that it means by itself, with the string encoding that it says
/// for each function. Package 0 is `root:root`. The module that is answered has the other sections, in order, with their ids and contents.
///
/// The first refusal in the order of the bytes ends the call. `NotAModule`: they don't begin as a core module. `Historical`: a section's data
/// begins with the byte 3. `NoReading`: it means no one world, at offset 0 with `Truncated` where it is empty. Else it is refused for its
/// encoding, which is missing or not known. `Clash`: what it binds clashes with what was bound before. `BadModule`: at the offset stands no
/// section, or a custom one without a name. Beside these it refuses with `Memory`, and with `Size` only where a list of what the sections in
/// front have bound would pass 4,294,967,295 with all that may come of the next one, as `Bindgen::merge` does.
///
/// Takes time linear in the module, with hashed look-ups. Each section that carries a world adds the time to decode the world and to merge it,
/// whatever was bound before. Takes memory for the bindings, the names of their packages, and the module.
pub fn decode(alloc: Global, bytes: &[u8]) -> Result<(Option<Vec<u8>>, Bindgen), Error>
    ensures bound { IfOk result (λ x. IsBound bytes.now (binding_of x.1)) }
    ensures valid { IfOk result (λ x. IsBindgen x.1) }
    ensures root { IfOk result (λ x. BeginsWithRoot x.1.resolve) }
    ensures reached { IfOk result (λ x. IsReached bytes.now x.1 []) }
    ensures bare { IfOk result (λ x. IsBare x.1.resolve) }
    ensures strips { IfOk result (λ x. StripsModule bytes.now x.0) }
    ensures refuses { IfErr result (RefusesBindings bytes.now) }
    ensures size { IfErr result (λ e. e ≡ Size → OutgrowsLists bytes.now) }
{
    let mut count = 0usize;
    let bound = bindings(alloc, bytes, &mut count)?;
    let module = stripped(alloc, bytes)?;
    Ok((module, bound))
}
