//! Whether a code does something often enough: before its first item, and between two, few steps only count.

ghost use Rattle.std.specs.Prelude.{◌≡◌, ◌↔◌, IsTrue};
ghost use Rattle.sw_code.specs.Pace.{most_counting, IsNear, IsPaced};
ghost use Rattle.sw_verify.specs.Paced.{does_more};

use sw_base::COUNTERS;
use sw_code::Step;

/// How many steps only count, at most, before the first item of a code and between two.
const MOST_COUNTING: u8 = 2 * COUNTERS;

/// Whether before the first item, and between two, few steps only count, whichever way the loops branch.
pub fn is_paced(steps: &[Step]) -> bool
    ensures { IsTrue result ↔ IsPaced steps.now most_counting }
{
    if !is_near(steps, MOST_COUNTING, 0) {
        return false;
    }
    for i in 0..steps.len() {
        if does_more(&steps[i]) && !is_near(steps, MOST_COUNTING, i + 1) {
            return false;
        }
    }
    true
}

/// Whether from the step at `at` on at most `most` only count before one does more, or there is none.
fn is_near(steps: &[Step], most: u8, at: usize) -> bool
    ensures { IsTrue result ↔ IsNear steps.now most at }
{
    match steps.get(at) {
        Some(Step::Set(_, _)) => most > 0 && is_near(steps, most - 1, at + 1),
        Some(Step::Loop(_, to)) => {
            most > 0 && is_near(steps, most - 1, at + 1) && is_near(steps, most - 1, *to as usize)
        }
        _ => true,
    }
}

/// Whether the step does an item.
fn does_more(step: &Step) -> bool
    ensures { result ≡ does_more step.now }
{
    !matches!(step, Step::Set(_, _) | Step::Loop(_, _) | Step::Halt)
}
