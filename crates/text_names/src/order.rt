//! An order in which each stands behind what it needs.

ghost use Rattle.std.specs.Prelude.{◌≡◌, ◌<◌, ◌≤◌, ◌^◌, ◌∷◌, ◌++◌, [], length, slice_set, IfOk, IfErr, OnOk};
ghost use Rattle.text_names.specs.Faults.{IsMemoryOrSize};
ghost use Rattle.text_names.specs.Orders.{links_of, Orders};
ghost use Rattle.text_names.specs.Walks.{IsWalk, Steps, WalksOn};
ghost use Rattle.text_plain.specs.Orders.{AreWithin};

use crate::error::Fault;
use crate::needs::Need;
use crate::source::number_behind;
use std::alloc::{AllocError, Global};

/// All numbers in order, or a need that closes a cycle, with the number of what has it.
#[derive(Drop)]
pub enum Order {
    Numbers(Vec<u32>),
    Cycle(u32, Need),
}

/// How far a number has come.
#[derive(Clone, Copy)]
enum State {
    New,
    Open,
    Done,
}

/// How far each number has come, the path that the walk is on, each with how many of its needs are done, and what is done.
#[derive(Drop)]
struct Walk {
    states: Vec<State>,
    path: Vec<(u32, usize)>,
    done: Vec<u32>,
}

fn enter(walk: &mut Walk, number: u32) -> Result<(), AllocError>
    requires { number < length walk.old.states.items }
    ensures states { OnOk result (walk.new.states.items ≡ slice_set walk.old.states.items number State.Open) }
    ensures path { OnOk result (walk.new.path.items ≡ walk.old.path.items ++ (number, 0) ∷ []) }
    ensures done { OnOk result (walk.new.done.items ≡ walk.old.done.items) }
{
    walk.states[number as usize] = State::Open;
    walk.path.push((number, 0))?;
    Ok(())
}

fn leave(walk: &mut Walk, number: u32) -> Result<(), AllocError>
    requires { number < length walk.old.states.items }
    ensures states { OnOk result (walk.new.states.items ≡ slice_set walk.old.states.items number State.Done) }
    ensures path { OnOk result (walk.new.path.items ≡ walk.old.path.items) }
    ensures done { OnOk result (walk.new.done.items ≡ walk.old.done.items ++ number ∷ []) }
{
    walk.states[number as usize] = State::Done;
    walk.done.push(number)?;
    Ok(())
}

/// A step from the end of the path, which is taken from it already: the next need, if it closes a cycle.
fn step(
    needs: &[Vec<Need>],
    walk: &mut Walk,
    number: u32,
    at: usize,
) -> Result<Option<Need>, AllocError>
    requires within { AreWithin (links_of needs.now) }
    requires walks { IsWalk (links_of needs.now) walk.old.states.items (walk.old.path.items ++ (number, at) ∷ []) walk.old.done.items }
    ensures { IfOk result (Steps needs.now walk.old.states.items walk.old.path.items number at walk.new) }
{
    let own = &needs[number as usize];
    if at < own.len() {
        let need = own[at];
        match walk.states[need.number as usize] {
            State::Open => Ok(Some(need)),
            State::Done => {
                walk.path.push((number, at + 1))?;
                Ok(None)
            }
            State::New => {
                walk.path.push((number, at))?;
                enter(walk, need.number)?;
                Ok(None)
            }
        }
    } else {
        leave(walk, number)?;
        Ok(None)
    }
}

/// Walks to the end of the path, or to a need that closes a cycle.
fn walk_on(needs: &[Vec<Need>], walk: &mut Walk) -> Result<Option<(u32, Need)>, AllocError>
    requires within { AreWithin (links_of needs.now) }
    requires walks { IsWalk (links_of needs.now) walk.old.states.items walk.old.path.items walk.old.done.items }
    ensures { IfOk result (WalksOn needs.now walk.old.states.items walk.new) }
{
    while let Some((number, at)) = walk.path.pop() {
        if let Some(need) = step(needs, walk, number, at)? {
            return Ok(Some((number, need)));
        }
    }
    Ok(None)
}

/// Numbers in an order in which each stands behind those that it needs, and else as they are.
///
/// Takes time and memory linear in the needs. Refuses for want of memory, or where there are more than 2^32 of them.
pub fn order_of(alloc: Global, needs: &[Vec<Need>]) -> Result<Order, Fault>
    requires { AreWithin (links_of needs.now) }
    ensures order { IfOk result (Orders needs.now) }
    ensures refuses { IfErr result IsMemoryOrSize }
    ensures size { result ≡ Err Fault.Size → 2 ^ 32 < length needs.now }
{
    let mut walk = Walk {
        states: vec![in alloc; State::New; needs.len()]?,
        path: Vec::new(alloc),
        done: Vec::with_capacity(alloc, needs.len())?,
    };
    for first in 0..needs.len() {
        let number = number_behind(first)?;
        match walk.states[first] {
            State::New => {
                enter(&mut walk, number)?;
                match walk_on(needs, &mut walk)? {
                    Some((number, need)) => return Ok(Order::Cycle(number, need)),
                    None => {}
                }
            }
            State::Open => {}
            State::Done => {}
        }
    }
    Ok(Order::Numbers(walk.done))
}
