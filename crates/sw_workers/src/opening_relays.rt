//! What opens every relay, whichever session has a lock.

ghost use Rattle.std.specs.Prelude.{◌≡◌, ◌≤◌};
ghost use Rattle.sw_base.specs.Limits.{most_slots};
ghost use Rattle.sw_history.specs.History.{IsHistory};
ghost use Rattle.sw_history.specs.Opened.{AddsSlot, Reopens, IsOpened};
ghost use Rattle.sw_workers.specs.Halves.{StayJoined};

use crate::mainframe::Mainframe;
use sw_base::SLOTS;
use sw_card::{Meter, Relay};
use sw_core::{Answer, Ask, runs_go_on};
use sw_history::{DeskPart, Held, sessions_stay};

/// Ends the scan that runs and opens every relay: each card comes out of its slot with its relays open, and goes back.
pub fn open_relays<H: Mainframe, R: Relay, M: Meter>(
    held: &mut Held<H, R, M>,
    part: &mut DeskPart<H>,
)
    ensures opened { IsOpened held.old.panel held.new.panel }
    ensures seen { IsHistory H.first part.new.seat.seen held.new.panel }
    ensures joined { StayJoined held.old.panel held.new.panel }
{
    runs_go_on();
    held.has_history();
    for before in 0..SLOTS {
        open_slot(held, part, before + 1);
    }
    held.has_history();
    held.note_opened();
    held.take_turn(true);
}

/// Takes the card of a slot out, with its relays open, and puts it back. A scan that ran has ended.
fn open_slot<H: Mainframe, R: Relay, M: Meter>(
    held: &mut Held<H, R, M>,
    part: &mut DeskPart<H>,
    slot: u8,
)
    requires { (1 ≤ slot) × (slot ≤ most_slots) }
    ensures reopens { Reopens held.old.panel slot held.new.panel }
    ensures entries { AddsSlot held.old.panel held.old.history slot held.new.panel held.new.history }
    ensures seen { part.new.seat.seen ≡ held.new.history }
    ensures joined { StayJoined held.old.panel held.new.panel }
{
    runs_go_on();
    sessions_stay();
    held.has_history();
    match held.ask(part, Ask::Eject(slot)) {
        Answer::Ejected(card) => drop(held.ask(part, Ask::Install(slot, card))),
        other => drop(other),
    }
}
