//! Whether the loops of a code are nested.

ghost use Rattle.std.specs.Prelude.{◌≡◌, ◌≤◌, [], length, IfOk};
ghost use Rattle.sw_code.specs.Range.{most_steps};
ghost use Rattle.sw_verify.specs.Nest.{fault_in, in_use};

use crate::refusal::Refusal;
use crate::stack::Stack;
use std::alloc::{AllocError, Global};
use sw_code::Step;

/// A loop that is not ended yet: its counter, its count and its first step.
#[derive(Clone, Copy, Debug, PartialEq, Eq)]
pub struct Frame {
    pub counter: u8,
    pub count: u32,
    pub start: u16,
}

/// What fills the room of loops that are not open.
const NO_LOOP: Frame = Frame {
    counter: 0,
    count: 0,
    start: 0,
};

/// The first fault in the nesting of the loops, if there is one: BadNesting or BadJump.
pub fn nesting(alloc: Global, steps: &[Step]) -> Result<Option<Refusal>, AllocError>
    requires { length steps.now ≤ most_steps }
    ensures { IfOk result (λ fault. fault ≡ fault_in steps.now 0 []) }
{
    let mut frames = Stack::new(alloc, NO_LOOP);
    for i in 0..steps.len() {
        match steps[i] {
            Step::Set(counter, count) => {
                if is_in_use(&frames, counter) {
                    return Ok(Some(Refusal::BadNesting));
                }
                let start = i as u16 + 1;
                frames.push(Frame {
                    counter,
                    count,
                    start,
                })?;
            }
            Step::Loop(counter, target) => {
                let Some(frame) = frames.pop() else {
                    return Ok(Some(Refusal::BadNesting));
                };
                if counter != frame.counter {
                    return Ok(Some(Refusal::BadNesting));
                }
                if target != frame.start {
                    return Ok(Some(Refusal::BadJump));
                }
            }
            Step::Halt => {
                if i + 1 == steps.len() && frames.pop().is_none() {
                    return Ok(None);
                }
                return Ok(Some(Refusal::BadNesting));
            }
            Step::Wait(_)
            | Step::Timer(_, _)
            | Step::Pause(_)
            | Step::Close(_)
            | Step::Read
            | Step::Open(_) => {}
        }
    }
    Ok(Some(Refusal::BadNesting))
}

/// Whether one of these loops has the counter.
#[inline(always)]
fn is_in_use(frames: &Stack<Frame>, counter: u8) -> bool
    ensures { result ≡ in_use frames.now counter }
{
    let (few, more) = frames.parts();
    has_counter(few, counter) || has_counter(more, counter)
}

fn has_counter(frames: &[Frame], counter: u8) -> bool
    ensures { result ≡ in_use frames.now counter }
{
    frames.iter().any(|frame| counter == frame.counter)
}
