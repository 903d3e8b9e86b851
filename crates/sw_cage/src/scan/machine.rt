//! What a running scan does between two things that it awaits.

ghost use Rattle.std.specs.Prelude.{◌≡◌, ◌+◌, ◌-◌, ◌≤◌, ◌∷◌, [], true, is_some, OnOk, OnErr, Some, None};
ghost use Rattle.std.specs.Prelude.{slice_set, drop};
ghost use Rattle.std.proofs.Common.{inr};
ghost use Rattle.sw_base.specs.Limits.{most_slots};
ghost use Rattle.sw_base.specs.Layout.{slot_at, has_meter};
ghost use Rattle.sw_card.specs.Account.{of_meter};
ghost use Rattle.sw_cage.specs.Accounts.{accounts_of, layout_of, is_closed};
ghost use Rattle.sw_cage.specs.Cards.{meters_of, job_card, KeepsMeters};
ghost use Rattle.sw_trigger.specs.Agenda.{Close, Open};
ghost use Rattle.sw_verify.specs.Sound.{CanCloseEach, CanOpenEach};
ghost use Rattle.sw_cage.specs.Cage.{ScanSeen};
ghost use Rattle.sw_cage.specs.Advance.{moves_from, next_place, awaits};
ghost use Rattle.sw_cage.specs.Moves.{MayMove, MayGoOn, RelayCallFailed};
ghost use Rattle.sw_cage.specs.TakenSeen.{taken_seen};
ghost use Rattle.sw_cage.specs.Outcome.{Moved, IsSent, Arrives, AdvancesOrFails};

use crate::job::{Job, Ticket};
use crate::scan::Scan;
use crate::scan::steps::Move;
use crate::scan::tickets::Tickets;
use crate::slots::Slots;
use crate::taken::Taken;
use sw_card::{CardFault, Meter, MeterCard, Relay};
use sw_channel::Position;
use sw_trigger::Awaited;

/// Goes past what the scan awaits, and on to the next that it awaits. A scan that is over leaves `None`.
#[inline(always)]
pub(crate) fn go_past<R: Relay, M: Meter>(
    slots: &mut Slots<R, M>,
    out: &mut Tickets,
    scan: &mut Option<Scan>,
    number: u64,
) -> Taken<M>
    requires runs { is_some scan.old ≡ true }
    requires awaits { (at : ScanSeen) → scan.old ≡ Some at → awaits at ≡ None → ⊥ }
    requires may { (at : ScanSeen) → scan.old ≡ Some at
        → MayGoOn (layout_of (accounts_of slots.old)) (is_closed (accounts_of slots.old)) at.course (at.index + 1) }
    ensures meters { KeepsMeters slots.old result slots.new }
    ensures goes { (at : ScanSeen) → scan.old ≡ Some at
        → AdvancesOrFails (record { cards = accounts_of slots.old; out = out.old }) number
        (moves_from at.course (at.index + 1)) (next_place at.course (at.index + 1)) (taken_seen result)
        (record { cards = accounts_of slots.new; out = out.new }) scan.new }
{
    let Some(at) = scan else {
        unreachable!();
    };
    at.go_past();
    go_on(slots, out, scan, number)
}

/// Opens and closes up to what the scan awaits next, and returns what that is. After a fault every relay is open. A
/// scan that is over leaves `None`.
#[inline(always)]
pub(crate) fn go_on<R: Relay, M: Meter>(
    slots: &mut Slots<R, M>,
    out: &mut Tickets,
    scan: &mut Option<Scan>,
    number: u64,
) -> Taken<M>
    requires runs { is_some scan.old ≡ true }
    requires may { (at : ScanSeen) → scan.old ≡ Some at
        → MayGoOn (layout_of (accounts_of slots.old)) (is_closed (accounts_of slots.old)) at.course at.index }
    ensures meters { KeepsMeters slots.old result slots.new }
    ensures goes { (at : ScanSeen) → scan.old ≡ Some at
        → AdvancesOrFails (record { cards = accounts_of slots.old; out = out.old }) number
        (moves_from at.course at.index) (next_place at.course at.index) (taken_seen result)
        (record { cards = accounts_of slots.new; out = out.new }) scan.new }
{
    let Some(at) = scan else {
        unreachable!();
    };
    match make_moves(slots, at) {
        Ok(()) => return arrive(slots, out, scan, number),
        Err(_) => {
            slots.open_all();
            *scan = None;
            return Taken::Fault;
        }
    }
}

/// Opens and closes up to what the scan awaits next, or its end. It stops at the first fault.
#[inline(always)]
fn make_moves<R: Relay, M: Meter>(slots: &mut Slots<R, M>, scan: &mut Scan) -> Result<(), CardFault>
    requires { MayMove (layout_of (accounts_of slots.old)) (is_closed (accounts_of slots.old))
        (drop scan.old.index scan.old.course.items) }
    ensures there { OnOk result (scan.new ≡ next_place scan.old.course scan.old.index) }
    ensures ok { OnOk result (Moved (accounts_of slots.old) (moves_from scan.old.course scan.old.index)
        (accounts_of slots.new)) }
    ensures err { OnErr result (RelayCallFailed (accounts_of slots.old) (accounts_of slots.new)) }
    ensures meters { meters_of slots.new ≡ meters_of slots.old }
{
    while let Some(next) = scan.next_move() {
        match next {
            Move::Open(position) => open_each(slots, &position)?,
            Move::Close(position) => close_each(slots, &position)?,
        }
        scan.go_past();
    }
    Ok(())
}

/// Opens the channels of a position, in order. It stops at the first fault.
#[inline(always)]
fn open_each<R: Relay, M: Meter>(
    slots: &mut Slots<R, M>,
    position: &Position,
) -> Result<(), CardFault>
    requires { CanOpenEach (is_closed (accounts_of slots.old)) position.now }
    ensures ok { OnOk result (Moved (accounts_of slots.old) (Open position.now ∷ []) (accounts_of slots.new)) }
    ensures err { OnErr result (RelayCallFailed (accounts_of slots.old) (accounts_of slots.new)) }
    ensures meters { meters_of slots.new ≡ meters_of slots.old }
{
    for chan in position.as_slice() {
        slots.stay_safe();
        slots.open(*chan)?;
    }
    Ok(())
}

/// Closes the channels of a position, in order. It stops at the first fault.
#[inline(always)]
fn close_each<R: Relay, M: Meter>(
    slots: &mut Slots<R, M>,
    position: &Position,
) -> Result<(), CardFault>
    requires { CanCloseEach (layout_of (accounts_of slots.old)) (is_closed (accounts_of slots.old)) position.now }
    ensures ok { OnOk result (Moved (accounts_of slots.old) (Close position.now ∷ []) (accounts_of slots.new)) }
    ensures err { OnErr result (RelayCallFailed (accounts_of slots.old) (accounts_of slots.new)) }
    ensures meters { meters_of slots.new ≡ meters_of slots.old }
{
    for chan in position.as_slice() {
        slots.close(*chan)?;
    }
    Ok(())
}

/// What the scan awaits at its place; for a reading its meter goes out. A scan that is over leaves `None`.
#[inline(always)]
fn arrive<R: Relay, M: Meter>(
    slots: &mut Slots<R, M>,
    out: &mut Tickets,
    scan: &mut Option<Scan>,
    number: u64,
) -> Taken<M>
    requires runs { is_some scan.old ≡ true }
    requires slot_in { (at : ScanSeen) → scan.old ≡ Some at → (1 ≤ at.course.meter) × (at.course.meter ≤ most_slots) }
    requires meter { (at : ScanSeen) → scan.old ≡ Some at
        → has_meter (layout_of (accounts_of slots.old)) at.course.meter ≡ true }
    ensures meters { KeepsMeters slots.old result slots.new }
    ensures arrives { (at : ScanSeen) → scan.old ≡ Some at
        → Arrives (record { cards = accounts_of slots.old; out = out.old }) number at
        (taken_seen result) (record { cards = accounts_of slots.new; out = out.new }) scan.new }
{
    let Some(at) = &*scan else {
        unreachable!();
    };
    let ticket = Ticket {
        scan: number,
        index: at.index(),
    };
    match at.awaited() {
        None => {
            *scan = None;
            return Taken::Ended;
        }
        Some(Awaited::Wait(_)) => return Taken::Waits,
        Some(Awaited::Period(_, micros)) => return Taken::Pause(ticket, micros),
        Some(Awaited::Pause(micros)) => return Taken::Pause(ticket, micros),
        Some(Awaited::Read) => return Taken::Job(send_out(slots, out, at.meter(), ticket)),
    }
}

/// Sends the slot's meter out under the ticket.
#[inline(always)]
fn send_out<R: Relay, M: Meter>(
    slots: &mut Slots<R, M>,
    out: &mut Tickets,
    slot: u8,
    ticket: Ticket,
) -> Job<M>
    requires slot_in { (1 ≤ slot) × (slot ≤ most_slots) }
    requires meter { has_meter (layout_of (accounts_of slots.old)) slot ≡ true }
    ensures card { slot_at slots.old slot ≡ Some (job_card result) }
    ensures empty { slots.new ≡ slice_set slots.old (slot - 1) None }
    ensures sent { IsSent (record { cards = accounts_of slots.old; out = out.old }) slot ticket result.1
        (record { cards = accounts_of slots.new; out = out.new }) }
{
    let meter = slots.take_meter(slot);
    out.set(slot, Some(ticket));
    Job {
        slot,
        ticket,
        meter,
    }
}

/// Takes the slot's meter in again.
#[inline(always)]
pub(crate) fn take_in<R: Relay, M: Meter>(
    slots: &mut Slots<R, M>,
    out: &mut Tickets,
    slot: u8,
    meter: MeterCard<M>,
)
    requires { (1 ≤ slot) × (slot ≤ most_slots) }
    ensures card { slots.new ≡ slice_set slots.old (slot - 1) (Some (inr meter.0, of_meter meter.1)) }
    ensures cards { accounts_of slots.new ≡ slice_set (accounts_of slots.old) (slot - 1) (Some (of_meter meter.1)) }
    ensures out { out.new ≡ slice_set out.old (slot - 1) None }
{
    slots.put_meter(slot, meter);
    out.set(slot, None);
}
