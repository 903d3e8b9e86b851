//! What the status board says of an event of the mainframe.

ghost use Rattle.std.specs.Prelude.{◌≡◌, ◌<◌, ◌^◌, ℕ, [], ◌∷◌, ◌++◌, Some};
ghost use mathlib.Core.List.{IsPrefix};
ghost use Rattle.sw_history.specs.Board.{entry_of};
ghost use Rattle.sw_history.specs.Entries.{made_by};
ghost use Rattle.sw_history.specs.Said.{said_in};

use crate::board::{BoardName, StatusBoard, Telling};
use crate::event_kind::EventKind;
use crate::seat::{LockedPass, StatusSeat};
use std::marker::Brand;
use std::snapshot::Snapshot;
use sw_card::{Meter, Relay};

/// An event, as the board's history has it.
#[derive(Drop)]
pub struct Happened<A, B, C> {
    /// The number of events, this one included.
    pub number: u64,
    /// What was asked.
    pub ask: Snapshot<A>,
    /// What was answered.
    pub answer: Snapshot<B>,
    /// What came beside the answer.
    pub left: Snapshot<C>,
    /// The status byte without bits 4 and 6, and the number of service requests so far, after it.
    pub pair: (u8, u64),
}

/// Publishes an event of a desk: its number, what was asked and answered, and the pair after it. The history has one
/// more entry, and the desk has seen it.
fn publish_said<B: BoardName, T: Telling, R: Relay, M: Meter, E: EventKind<R, M>>(
    pass: &mut LockedPass<B>,
    board: &StatusBoard<B>,
    desk: &mut StatusSeat<B>,
    event: &Happened<E::Ask, E::Answer, E::Left>,
)
    requires desk { (d : ℕ) × (desk.old.desk ≡ Some d) }
    requires fits { event.now.pair.1 < 2 ^ 56 }
    requires said { T.said ≡ said_in E.asked E.answered event.now }
    ensures history { pass.new ≡ pass.old ++ entry_of desk.old (said_in E.asked E.answered event.now) ∷ [] }
    ensures seen { IsPrefix desk.old.seen pass.old × (desk.new.seen ≡ pass.new) }
    ensures mine { (desk.new.desk ≡ desk.old.desk)
        × (desk.new.mine ≡ desk.old.mine ++ entry_of desk.old (said_in E.asked E.answered event.now) ∷ []) }
    ensures own { (d : ℕ) → desk.new.desk ≡ Some d → made_by d desk.new.seen ≡ desk.new.mine }
{
    pass.publish::<T>(board, desk, event.pair);
}

/// Publishes an event of a desk: the history has one more entry, of what happened, and the desk has seen it.
pub fn tell_event<B: BoardName, R: Relay, M: Meter, E: EventKind<R, M>>(
    pass: &mut LockedPass<B>,
    board: &StatusBoard<B>,
    desk: &mut StatusSeat<B>,
    event: &Happened<E::Ask, E::Answer, E::Left>,
)
    requires desk { (d : ℕ) × (desk.old.desk ≡ Some d) }
    requires fits { event.now.pair.1 < 2 ^ 56 }
    ensures history { pass.new ≡ pass.old ++ entry_of desk.old (said_in E.asked E.answered event.now) ∷ [] }
    ensures seen { IsPrefix desk.old.seen pass.old × (desk.new.seen ≡ pass.new) }
    ensures mine { (desk.new.desk ≡ desk.old.desk)
        × (desk.new.mine ≡ desk.old.mine ++ entry_of desk.old (said_in E.asked E.answered event.now) ∷ []) }
    ensures own { (d : ℕ) → desk.new.desk ≡ Some d → made_by d desk.new.seen ≡ desk.new.mine }
{
    publish_said::<B, Brand, R, M, E>(pass, board, desk, event);
}
