//! Whether each step of a code may be done.

ghost use Rattle.std.specs.Prelude.{◌≡◌, [], true, List, Bool, IfOk, IfSome, IfNone};
ghost use Rattle.sw_verify.specs.Channels.{Channels, none, is_among};
ghost use Rattle.sw_verify.specs.Nest.{StepsRight};
ghost use Rattle.sw_verify.specs.Stops.{StopsBy};
ghost use Rattle.sw_verify.specs.Ledger.{TellsRow};

use crate::layout::Layout;
use crate::ledger::Ledger;
use crate::refusal::Refusal;
use crate::saved::SavedRows;
use std::alloc::{AllocError, Global};
use sw_base::Chan;
use sw_code::Step;

/// Why the first step that may not be done is refused, if there is one: NoChannel, GroupClash, NotClosed or LeftClosed.
///
/// It visits each step once, at a cost that neither the closed channels nor the other steps raise.
pub fn look(
    alloc: Global,
    layout: &Layout,
    closed: &[Chan],
    steps: &[Step],
) -> Result<Option<Refusal>, AllocError>
    ensures right { IfOk result (λ wrong. IfNone wrong (
        StepsRight layout.now steps.now (is_among closed.now) none [])) }
    ensures stops { IfOk result (λ wrong. IfSome wrong (λ r.
        StopsBy layout.now r steps.now (is_among closed.now) none [])) }
{
    let mut ledger = Ledger::room();
    ledger.begin(layout, closed);
    let mut saved = SavedRows::new(alloc);
    for i in 0..steps.len() {
        match steps[i] {
            Step::Set(_, _) => saved.push(alloc, &ledger.mine)?,
            Step::Loop(_, _) => {
                if !saved.pop_same(&ledger.mine) {
                    return Ok(Some(Refusal::LeftClosed));
                }
            }
            Step::Close(p) => {
                if let Err(wrong) = ledger.close(layout, &p) {
                    return Ok(Some(wrong));
                }
            }
            Step::Open(p) => {
                if let Err(wrong) = ledger.open(layout, &p) {
                    return Ok(Some(wrong));
                }
            }
            Step::Halt => {
                if ledger.mine.is_clear() {
                    return Ok(None);
                }
                return Ok(Some(Refusal::LeftClosed));
            }
            Step::Wait(_) | Step::Timer(_, _) | Step::Pause(_) | Step::Read => {}
        }
    }
    Ok(None)
}
