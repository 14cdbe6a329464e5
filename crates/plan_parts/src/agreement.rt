//! Whether views of interfaces agree: each with the first of its place, and each that shows functions with the first that does.

ghost use Rattle.std.specs.{Cmp.Lexicographic.pointwise, List.list_any};
ghost use Rattle.std.specs.Prelude.{◌≡◌, ◌||◌, length, map, Bool, IfOk};
ghost use Rattle.wit_model.specs.Text.{Text};
ghost use Rattle.plan_meaning.specs.NumberedViews.{NumberedFunction, same_functions as same_functions_lem, same_shown};
ghost use Rattle.read_rules.specs.Views.{numbered_function, numbered_type};
ghost use Rattle.plan_parts.specs.Agreement.{are_told as are_told_lem, is_told as is_told_lem, tells_same as tells_same_lem, told_function, AreTold};

use indexmap::IndexSet;
use keyed_hash::{Digest, KeyedHash};
use read_rules::{ViewFunction, ViewType};
use std::alloc::{AllocError, Global};

fn same_type(first: ViewType<'_>, ty: ViewType<'_>) -> bool
    ensures { result ≡ same_shown (numbered_type first.entry) (numbered_type ty.entry) }
{
    first.name == ty.name && (first.declared == ty.declared && first.external_id == ty.external_id)
}

/// Whether two views show the same types in the same order. Takes time linear in them, and no memory.
pub fn same_types(first: &[ViewType<'_>], types: &[ViewType<'_>]) -> bool
    ensures { result ≡ pointwise same_shown (map numbered_type first.now) (map numbered_type types.now) }
{
    if first.len() != types.len() {
        return false;
    }
    for number in 0..types.len() {
        if !same_type(first[number], types[number]) {
            return false;
        }
    }
    true
}

/// What a view tells of a function.
#[derive(Clone, Copy, PartialEq, Eq, Hash)]
struct ToldFunction<'a> {
    name: &'a str,
    signature: usize,
    external_id: Option<&'a str>,
}

/// What a view tells of its functions.
type Told<'a> = IndexSet<ToldFunction<'a>, KeyedHash>;

fn told<'a>(function: ViewFunction<'a>) -> ToldFunction<'a>
    ensures { told_function result ≡ numbered_function function.entry }
{
    ToldFunction {
        name: function.name,
        signature: function.signature,
        external_id: function.external_id,
    }
}

/// The hash that is keyed by the names of the functions.
fn hash_of(functions: &[ViewFunction<'_>]) -> KeyedHash {
    let mut digest = Digest::new();
    for function in functions {
        digest.add(function.name.as_bytes());
    }
    digest.hash()
}

fn add_told<'a>(all: &mut Told<'a>, function: ViewFunction<'a>) -> Result<(), AllocError>
    ensures { IfOk result (λ _. (test : Text × NumberedFunction → Bool)
        → list_any test (map told_function all.new.keys) ≡ (list_any test (map told_function all.old.keys) || test (numbered_function function.entry))) }
{
    let _is_new = all.insert(told(function))?;
    Ok(())
}

/// What a view tells of its functions.
fn all_told<'a>(alloc: Global, functions: &[ViewFunction<'a>]) -> Result<Told<'a>, AllocError>
    ensures { IfOk result (λ all. AreTold (map told_function all.keys) (map numbered_function functions.now)) }
{
    let mut all = IndexSet::with_hasher(alloc, hash_of(functions));
    for function in functions {
        add_told(&mut all, *function)?;
    }
    Ok(all)
}

fn is_told(all: &Told<'_>, function: ViewFunction<'_>) -> bool
    ensures { result ≡ is_told_lem (map told_function all.now.keys) (numbered_function function.entry) }
{
    all.contains(&told(function))
}

fn are_told(all: &Told<'_>, functions: &[ViewFunction<'_>]) -> bool
    ensures { result ≡ are_told_lem (map told_function all.now.keys) (map numbered_function functions.now) }
{
    for function in functions {
        if !is_told(all, *function) {
            return false;
        }
    }
    true
}

fn tells_same(first: ViewFunction<'_>, function: ViewFunction<'_>) -> bool
    ensures { result ≡ tells_same_lem (numbered_function first.entry) (numbered_function function.entry) }
{
    first.name == function.name
        && (first.signature == function.signature && first.external_id == function.external_id)
}

/// Whether two views of as many functions tell the same of them in the same order. Takes time linear in them, and no memory.
fn same_in_order(first: &[ViewFunction<'_>], functions: &[ViewFunction<'_>]) -> bool
    requires { length first.now ≡ length functions.now }
    ensures { result ≡ pointwise tells_same_lem (map numbered_function first.now) (map numbered_function functions.now) }
{
    for number in 0..functions.len() {
        if !tells_same(first[number], functions[number]) {
            return false;
        }
    }
    true
}

/// Whether two views tell the same of their functions, in any order.
///
/// Takes time linear in them, expected, and as much memory as there are, or none where they stand in the same order.
pub fn same_functions(
    alloc: Global,
    first: &[ViewFunction<'_>],
    functions: &[ViewFunction<'_>],
) -> Result<bool, AllocError>
    ensures { IfOk result (λ b. b ≡ same_functions_lem (map numbered_function first.now) (map numbered_function functions.now)) }
{
    if first.len() != functions.len() {
        return Ok(false);
    }
    if same_in_order(first, functions) {
        return Ok(true);
    }
    let all = all_told(alloc, functions)?;
    Ok(are_told(&all, first))
}
