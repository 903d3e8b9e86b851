//! How many things a code awaits over its whole run, by one visit of each step.

ghost use Rattle.std.specs.Prelude.{◌≡◌, ◌≤◌, [], length, IfOk};
ghost use Rattle.sw_code.specs.Range.{most_steps};
ghost use Rattle.sw_verify.specs.Nest.{AreLimited, tally, every, is_read};

use crate::stack::Stack;
use std::alloc::{AllocError, Global};
use sw_code::Step;

/// What a code awaits, and how many of these are readings.
#[derive(Clone, Copy, Debug, PartialEq, Eq)]
pub struct Counts {
    pub bound: u128,
    pub readings: u128,
}

/// The counts of a code with nested loops. A scan does a step at most as often as nested loops on every counter turn,
/// so 128 bits hold them.
pub fn tally(alloc: Global, steps: &[Step]) -> Result<Counts, AllocError>
    requires length { length steps.now ≤ most_steps }
    requires limited { AreLimited steps.now 1 [] }
    ensures bound { IfOk result (λ x. x.bound ≡ tally every steps.now 1 []) }
    ensures readings { IfOk result (λ x. x.readings ≡ tally is_read steps.now 1 []) }
{
    let mut counts = Counts {
        bound: 0,
        readings: 0,
    };
    let mut turns: u128 = 1;
    let mut saved = Stack::new(alloc, turns);
    for i in 0..steps.len() {
        match steps[i] {
            Step::Set(_, count) => {
                saved.push(turns)?;
                turns *= u128::from(count);
            }
            Step::Loop(_, _) => match saved.pop() {
                Some(outside) => turns = outside,
                None => unreachable!(),
            },
            Step::Wait(_) | Step::Timer(_, _) | Step::Pause(_) => counts.bound += turns,
            Step::Read => {
                counts.bound += turns;
                counts.readings += turns;
            }
            Step::Halt => return Ok(counts),
            Step::Close(_) | Step::Open(_) => {}
        }
    }
    Ok(counts)
}
