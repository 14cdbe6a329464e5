//! A printer over an output that refuses a call: it stops at once, and what was called before is kept.

ghost use Rattle.std.specs.Prelude.{◌<◌, length};
ghost use Rattle.wit_model.specs.Valid.{IsValid};

use crate::packages::tower;
use crate::recording::{Counting, Recording};
use std::alloc::Global;
use std::test::Fail;
use wit_model::{Error, PackageId, Resolve, Type, TypeId};
use wit_print::WitPrinter;
use wit_samples::lines::HOST_AND_GUEST;
use wit_samples::valid;

// What printing to an output of its own functions answers, where that takes so many calls, and the calls that it has kept.
fn recorded(alloc: Global, resolve: &Resolve, room: usize) -> (Result<(), Error>, Vec<&'static str>)
    requires valid { IsValid resolve.now }
    requires in_range { 0 < length resolve.now.packages.items }
{
    let mut printer = WitPrinter::new(Recording::new(alloc, room));
    let answer = printer.print(alloc, resolve, PackageId(0), &[]);
    (answer, printer.output.calls)
}

// Whether it is refused, and so many calls were made before.
fn stops_at(alloc: Global, resolve: &Resolve, room: usize) -> bool
    requires valid { IsValid resolve.now }
    requires in_range { 0 < length resolve.now.packages.items }
{
    let (answer, calls) = recorded(alloc, resolve, room);
    answer == Err(Error::Memory) && calls.len() == room
}

// Whether 29 calls print all.
fn is_whole(alloc: Global, resolve: &Resolve) -> bool
    requires valid { IsValid resolve.now }
    requires in_range { 0 < length resolve.now.packages.items }
{
    let (answer, calls) = recorded(alloc, resolve, 29);
    let is_whole = answer == Ok(()) && calls.len() == 29;
    is_whole && calls.first() == Some(&"keyword") && calls.last() == Some(&"indent_end")
}

// A world with an import and an export is printed by 29 calls.
#[test]
fn each_call(rt: HostRuntime) -> Result<(), Fail> {
    let resolve = valid(rt.alloc(), HOST_AND_GUEST)?;
    assert!(rt; resolve.packages.len() > 0);
    for room in 0..29usize {
        assert!(rt; stops_at(rt.alloc(), &resolve, room));
    }
    assert!(rt; is_whole(rt.alloc(), &resolve));
    Ok(())
}

// The same for an output of the five functions without a body. Whether it is refused after so many calls, and 57 of them print all.
fn counts(alloc: Global, resolve: &Resolve, room: usize) -> bool
    requires valid { IsValid resolve.now }
    requires in_range { 0 < length resolve.now.packages.items }
{
    let mut printer = WitPrinter::new(Counting::new(room));
    let is_answered = match printer.print(alloc, resolve, PackageId(0), &[]) {
        Ok(()) => room == 57,
        Err(error) => room < 57 && error == Error::Memory,
    };
    is_answered && printer.output.count == room
}

// The same world takes 57 calls of the five.
#[test]
fn each_call_of_the_five(rt: HostRuntime) -> Result<(), Fail> {
    let resolve = valid(rt.alloc(), HOST_AND_GUEST)?;
    assert!(rt; resolve.packages.len() > 0);
    for room in 0..58usize {
        assert!(rt; counts(rt.alloc(), &resolve, room));
    }
    Ok(())
}

// A package whose text has 2^100 parts.
#[test]
fn a_tower_in_a_package(rt: HostRuntime) -> Result<(), Fail> {
    let resolve = valid(rt.alloc(), &tower(rt.alloc())?)?;
    assert!(rt; resolve.packages.len() > 0);
    for room in &[0usize, 1, 9, 150, 300] {
        assert!(rt; stops_at(rt.alloc(), &resolve, *room));
    }
    Ok(())
}

// The first calls that print it: the start of each tuple, and then the parts of the innermost ones.
fn tower_call(index: usize) -> &'static str {
    static PARTS: [&str; 9] = [
        "ty",
        "str",
        "ty",
        "generic_args_end",
        "str",
        "ty",
        "generic_args_start",
        "ty",
        "str",
    ];
    if index >= 200 {
        return PARTS[(index - 200) % 9];
    }
    if index % 2 == 0 {
        "ty"
    } else {
        "generic_args_start"
    }
}

fn are_of_tower(calls: &[&'static str]) -> bool {
    calls
        .iter()
        .enumerate()
        .all(|(index, call)| *call == tower_call(index))
}

// The same for the tower's last type where it is used. The calls that were made are the first ones, up to the one that is refused.
fn stops_in_tower(alloc: Global, resolve: &Resolve, room: usize) -> bool
    requires valid { IsValid resolve.now }
    requires in_range { 99 < length resolve.now.types.items }
{
    let mut printer = WitPrinter::new(Recording::new(alloc, room));
    let answer = printer.print_type_name(alloc, resolve, &Type::Id(TypeId(99)));
    let calls = &printer.output.calls;
    answer == Err(Error::Memory) && calls.len() == room && are_of_tower(calls)
}

#[test]
fn a_tower_where_it_is_used(rt: HostRuntime) -> Result<(), Fail> {
    let resolve = valid(rt.alloc(), &tower(rt.alloc())?)?;
    assert!(rt; resolve.types.len() > 99);
    for room in &[0usize, 1, 2, 117, 200, 201, 204, 209] {
        assert!(rt; stops_in_tower(rt.alloc(), &resolve, *room));
    }
    Ok(())
}
