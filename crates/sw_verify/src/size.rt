//! How many items a code does, by one visit of each step.

ghost use Rattle.std.specs.Prelude.{◌≡◌, ◌<◌, ◌≤◌, ◌+◌, ◌*◌, ◌^◌, [], length, IfOk, IfSome, IfNone};
ghost use Rattle.sw_verify.specs.Items.{items_of};
ghost use Rattle.sw_verify.specs.Sized.{size_from, Closes};

use crate::stack::Stack;
use std::alloc::{AllocError, Global};
use sw_code::Step;

/// Where an open loop began: its count, and how many items are before it.
#[derive(Clone, Copy, Debug, PartialEq, Eq)]
pub struct Opened {
    pub count: u32,
    pub before: u64,
}

/// What fills the room of loops that are not open.
const NOT_OPENED: Opened = Opened {
    count: 0,
    before: 0,
};

/// How many items the steps, with nested loops, do up to halt; nothing where 64 bits hold no such number.
#[tactic(auto, using(crate::proofs::SizedLemmas::size_of_all))]
pub fn size(alloc: Global, steps: &[Step]) -> Result<Option<u64>, AllocError>
    requires closes { Closes steps.now 0 }
    ensures size { IfOk result (λ n. IfSome n (λ n. n ≡ length (items_of steps.now))) }
    ensures few { IfOk result (λ n. IfSome n (λ n. n < 2 ^ 64)) }
    ensures many { IfOk result (λ n. IfNone n (2 ^ 64 ≤ length (items_of steps.now))) }
{
    size_by_loops(alloc, steps)
}

/// The same, counted loop by loop.
fn size_by_loops(alloc: Global, steps: &[Step]) -> Result<Option<u64>, AllocError>
    requires closes { Closes steps.now 0 }
    ensures size { IfOk result (λ n. IfSome n (λ n. n ≡ size_from steps.now 0 [])) }
    ensures few { IfOk result (λ n. IfSome n (λ n. n < 2 ^ 64)) }
    ensures many { IfOk result (λ n. IfNone n (2 ^ 64 ≤ length (items_of steps.now))) }
{
    let mut opened = Stack::new(alloc, NOT_OPENED);
    let mut here: u64 = 0;
    for i in 0..steps.len() {
        match steps[i] {
            Step::Set(_, count) => {
                opened.push(Opened {
                    count,
                    before: here,
                })?;
                here = 0;
            }
            Step::Loop(_, _) => {
                let Some(loop_here) = opened.pop() else {
                    return Ok(Some(0));
                };
                match all_turns(loop_here, here) {
                    Some(all) => here = all,
                    None => return Ok(None),
                }
            }
            Step::Halt => return Ok(Some(here)),
            _ => {
                if here == u64::MAX {
                    return Ok(None);
                }
                here += 1;
            }
        }
    }
    Ok(Some(0))
}

/// How many items all turns of a loop do, with those before it; nothing where 64 bits don't hold that.
fn all_turns(opened: Opened, body: u64) -> Option<u64>
    ensures all { IfSome result (λ n. n ≡ opened.before + opened.count * body) }
    ensures many { IfNone result (2 ^ 64 ≤ opened.before + opened.count * body) }
{
    let turns = u128::from(opened.count) * u128::from(body) + u128::from(opened.before);
    if turns <= u128::from(u64::MAX) {
        Some(turns as u64)
    } else {
        None
    }
}
