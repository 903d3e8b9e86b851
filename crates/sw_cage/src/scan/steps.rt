//! The steps of a scan's code, from one that does an item to the next.

ghost use Rattle.std.specs.Prelude.{◌≡◌, ℕ, suc, ◌+◌, ◌-◌, ◌^◌, ◌<◌, ◌≤◌, List, ◌∷◌, Some, None, true, false};
ghost use Rattle.std.specs.Prelude.{slice_set};
ghost use Rattle.std.specs.Prelude.{slice_index_or, length, IfSome, IfNone};
ghost use Rattle.std.specs.List.{slice_get, AllByRecursion};
ghost use Rattle.sw_trigger.specs.Agenda.{Item};
ghost use Rattle.sw_code.specs.Code.{Unfolds};
ghost use Rattle.sw_code.specs.Range.{IsStep};
ghost use Rattle.sw_base.specs.Limits.{most_counters};
ghost use Rattle.sw_code.specs.Pace.{most_counting, IsNear, IsPaced};
ghost use Rattle.sw_cage.specs.Advance.{first_awaited};
ghost use Rattle.sw_cage.specs.Steps.{Does, next_move};

use sw_base::COUNTERS;
use sw_channel::Position;
use sw_code::Step;
use sw_trigger::Awaited;

/// How many steps only count, at most, before the first item of a scan and between two.
const MOST_COUNTING: u8 = 2 * COUNTERS;

/// The number of the step that comes next, and the counters.
#[derive(Clone, Copy, Debug, PartialEq, Eq)]
pub(crate) struct ScanPlace {
    pub(crate) step: usize,
    pub(crate) counters: [u32; COUNTERS as usize],
}

/// What a step opens or closes.
#[derive(Clone, Copy, Debug, PartialEq, Eq)]
pub(crate) enum Move {
    Open(Position),
    Close(Position),
}

/// What the step at the scan's place awaits; nothing where it moves relays, or at the end.
#[inline(always)]
pub(crate) fn awaited(steps: &[Step], at: &ScanPlace) -> Option<Awaited>
    requires near { IsNear steps.now 0 at.now.step }
    ensures { (items : List Item) → Does steps.now at.now items → result ≡ first_awaited items }
{
    match step_at(steps, at) {
        Some(Step::Wait(name)) => Some(Awaited::Wait(*name)),
        Some(Step::Timer(name, micros)) => Some(Awaited::Period(*name, *micros)),
        Some(Step::Pause(micros)) => Some(Awaited::Pause(*micros)),
        Some(Step::Read) => Some(Awaited::Read),
        _ => None,
    }
}

/// What the step at the scan's place opens or closes; nothing where it awaits something, or at the end.
#[inline(always)]
pub(crate) fn next_move(steps: &[Step], at: &ScanPlace) -> Option<Move>
    requires near { IsNear steps.now 0 at.now.step }
    ensures { (items : List Item) → Does steps.now at.now items → result ≡ next_move items }
{
    match step_at(steps, at) {
        Some(Step::Open(position)) => Some(Move::Open(*position)),
        Some(Step::Close(position)) => Some(Move::Close(*position)),
        _ => None,
    }
}

/// The place of the first step that does more than count.
pub(crate) fn first(steps: &[Step]) -> ScanPlace
    requires range { AllByRecursion IsStep steps.now }
    requires paced { IsPaced steps.now most_counting }
    ensures near { IsNear steps.now 0 result.step }
    ensures does { (items : List Item) → Unfolds steps.now items → Does steps.now result items }
{
    let mut at = ScanPlace {
        step: 0,
        counters: [0; COUNTERS as usize],
    };
    settle(steps, &mut at);
    at
}

/// Goes past a step that does an item, on to the next that does more than count.
#[inline(always)]
pub(crate) fn go_past(steps: &[Step], at: &mut ScanPlace)
    requires range { AllByRecursion IsStep steps.now }
    requires paced { IsPaced steps.now most_counting }
    requires near { IsNear steps.now 0 at.old.step }
    requires left { (item : Item) × (items : List Item) × Does steps.now at.old (item ∷ items) }
    ensures near { IsNear steps.now 0 at.new.step }
    ensures does { (item : Item) (items : List Item) → Does steps.now at.old (item ∷ items)
        → Does steps.now at.new items }
{
    at.step += 1;
    settle(steps, at);
}

/// On to a step that does more than count.
#[inline(always)]
fn settle(steps: &[Step], at: &mut ScanPlace)
    requires range { AllByRecursion IsStep steps.now }
    requires near { IsNear steps.now most_counting at.old.step }
    ensures near { IsNear steps.now 0 at.new.step }
    ensures does { (items : List Item) → Does steps.now at.old items → Does steps.now at.new items }
{
    for _ in 0..MOST_COUNTING {
        if !has_counted(steps, at) {
            return;
        }
    }
}

/// Goes past the step, if it only counts, and returns whether it does.
#[inline(always)]
fn has_counted(steps: &[Step], at: &mut ScanPlace) -> bool
    requires range { AllByRecursion IsStep steps.now }
    ensures near { result ≡ true
        → (n : ℕ) → IsNear steps.now (suc n) at.old.step → IsNear steps.now n at.new.step }
    ensures does { result ≡ true → (items : List Item) → Does steps.now at.old items → Does steps.now at.new items }
    ensures still { result ≡ false → IsNear steps.now 0 at.old.step × (at.new ≡ at.old) }
{
    match step_at(steps, at) {
        Some(Step::Set(counter, turns)) => {
            at.counters[*counter as usize] = *turns;
            at.step += 1;
            true
        }
        Some(Step::Loop(counter, to)) => {
            turn(at, *counter, *to);
            true
        }
        _ => false,
    }
}

/// Goes past a loop's end: the counter goes down by one, and the loop begins again or is over.
#[inline(always)]
fn turn(at: &mut ScanPlace, counter: u8, to: u16)
    requires counter { counter < most_counters }
    requires within { at.old.step + 1 < 2 ^ 64 }
    ensures again { 1 < slice_index_or at.old.counters counter 0 → at.new ≡ record {
      step = to;
      counters = slice_set at.old.counters counter (slice_index_or at.old.counters counter 0 - 1);
    } }
    ensures over { slice_index_or at.old.counters counter 0 ≤ 1 → at.new ≡ record {
      step = at.old.step + 1;
      counters = slice_set at.old.counters counter 0;
    } }
{
    let turns = at.counters[counter as usize];
    if turns > 1 {
        at.counters[counter as usize] = turns - 1;
        at.step = to as usize;
    } else {
        at.counters[counter as usize] = 0;
        at.step += 1;
    }
}

/// The step of the place's number.
#[inline(always)]
fn step_at<'a>(steps: &'a [Step], at: &ScanPlace) -> Option<&'a Step>
    ensures step { IfSome result (λ step. slice_get steps.now at.now.step ≡ Some step.now) }
    ensures within { IfSome result (λ _. at.now.step < length steps.now) }
    ensures end { IfNone result (slice_get steps.now at.now.step ≡ None) }
{
    steps.get(at.step)
}
