//! The end of a mainframe.

ghost use Rattle.std.specs.Prelude.{◌≡◌, ◌+◌, ◌-◌, ◌≤◌, [], All, IfErr, IfOk, IfSome, None, slice_set, sum_by, vec_len};
ghost use Rattle.std.specs.Vec.{vec_capacity};
ghost use Rattle.sw_base.specs.Layout.{slot_at};
ghost use Rattle.sw_base.specs.Limits.{most_slots};
ghost use Rattle.sw_cage.specs.Accounts.{option_account, accounts_of, all_open};
ghost use Rattle.sw_cage.specs.Cards.{meters_of, meter_only};
ghost use Rattle.sw_core.specs.Good.{IsGoodPanel};
ghost use Rattle.sw_history.specs.Came.{AllCame};
ghost use Rattle.sw_history.specs.Closing.{IsOpen, IsClosedDown};
ghost use Rattle.sw_workers.specs.Halves.{StayJoined};

use crate::desk::SharedDesk;
use crate::gate::Gate;
use crate::mainframe::Mainframe;
use crate::shared::Shared;
use std::alloc::Global;
use std::sync::ledger::Share;
use std::sync::{Arc, Wait};
use std::time::Clock;
use sw_base::SLOTS;
use sw_card::{Card, Meter, Relay};
use sw_core::{Answer, Ask, runs_go_on};
use sw_history::{DeskPart, Held, sessions_stay};

/// A mainframe that was closed down.
#[derive(Drop)]
pub struct Closed<R: Relay, M: Meter> {
    /// How many events there were before its cards came out.
    pub events: u64,
    /// For each slot the card that was in it, with nothing closed.
    pub cards: Vec<Option<Card<R, M>>>,
}

/// Ends a mainframe, where the caller gives every desk back, every relay was opened and no session has asked since.
/// Each meter is a card that came into its slot. Else, where a desk is missing, or there is no memory, it gives back
/// what it was given, and changes nothing.
pub fn close_down<H: Mainframe, R: Relay, M: Meter, G: Gate + Drop, W: Wait + Clock + Copy + Drop>(
    rt: &W,
    alloc: Global,
    shared: Arc<Shared<H, R, M, G>, Global>,
    desks: Vec<SharedDesk<H, R, M, G, W>>,
) -> Result<
    Closed<R, M>,
    (
        Arc<Shared<H, R, M, G>, Global>,
        Vec<SharedDesk<H, R, M, G, W>>,
    ),
>
    ensures events { IfOk result (λ closed.
        closed.events ≡ H.first.events + sum_by (λ desk. desk.part.amount) desks.items) }
    ensures cards { IfOk result (λ closed.
        IsClosedDown H.first closed.events (accounts_of closed.cards.items)) }
    ensures came { IfOk result (λ closed. AllCame H.came closed.cards.items) }
    ensures open { IfOk result (λ closed.
        All (λ slot. IfSome slot (λ card. IsOpen card.1)) closed.cards.items) }
    ensures back { IfErr result (λ back. back.1.items ≡ desks.items) }
{
    let Ok(room) = Vec::with_capacity(alloc, SLOTS as usize) else {
        return Err((shared, desks));
    };
    match shared.close_down(rt, desks, room) {
        Ok(closed) => Ok(closed),
        Err(desks) => Err((shared, desks)),
    }
}

/// Closes a mainframe down under its lock, where all is at rest and every desk is given back. Else it gives them back.
pub fn close_held<H: Mainframe, R: Relay, M: Meter, G: Gate + Drop, W: Wait + Clock + Copy + Drop>(
    held: &mut Held<H, R, M>,
    desks: Vec<SharedDesk<H, R, M, G, W>>,
    room: Vec<Option<Card<R, M>>>,
) -> Result<Closed<R, M>, Vec<SharedDesk<H, R, M, G, W>>>
    requires room { (room.items ≡ []) × (most_slots ≤ vec_capacity room) }
    ensures events { IfOk result (λ closed.
        closed.events ≡ H.first.events + sum_by (λ desk. desk.part.amount) desks.items) }
    ensures cards { IfOk result (λ closed.
        IsClosedDown H.first closed.events (accounts_of closed.cards.items)) }
    ensures came { IfOk result (λ closed. AllCame H.came closed.cards.items) }
    ensures meters { IfOk result (λ closed. meters_of closed.cards.items ≡ meters_of held.old.cards) }
    ensures back { IfErr result (λ back. back.items ≡ desks.items) }
    ensures joined { StayJoined held.old.panel held.new.panel }
{
    if !held.is_at_rest() {
        return Err(desks);
    }
    let Some(spare) = held.take_spare(desks.len() as u64) else {
        return Err(desks);
    };
    held.has_history();
    let mut all = gather(spare, desks);
    let events = held.number(&mut all);
    let mut part = held.last_part(all.split_off(1, 0));
    let cards = take_cards(held, &mut part, room);
    Ok(Closed { events, cards })
}

/// Takes the cards out of their slots, with nothing closed: the very meters that are there. Where a slot gives none,
/// there is none at its place.
fn take_cards<H: Mainframe, R: Relay, M: Meter>(
    held: &mut Held<H, R, M>,
    part: &mut DeskPart<H>,
    room: Vec<Option<Card<R, M>>>,
) -> Vec<Option<Card<R, M>>>
    requires room { (room.items ≡ []) × (most_slots ≤ vec_capacity room) }
    ensures cards { accounts_of result.items ≡ all_open held.old.panel.cage.cards }
    ensures meters { meters_of result.items ≡ meters_of held.old.cards }
    ensures joined { StayJoined held.old.panel held.new.panel }
{
    let mut cards = room;
    runs_go_on();
    is_good(&*held);
    for before in 0..SLOTS {
        let card = take_out(held, part, before + 1);
        held.has_history();
        cards.push(card).unwrap();
    }
    cards
}

/// What is behind the lock is good.
fn is_good<H: Mainframe, R: Relay, M: Meter>(held: &Held<H, R, M>)
    ensures good { IsGoodPanel held.now.panel }
    ensures accounts { held.now.panel.cage.cards ≡ accounts_of held.now.cards }
{
    runs_go_on();
    held.has_history();
}

/// Takes a card out of its slot, with nothing closed. There is none where the slot is empty, as it is while its card
/// is out.
fn take_out<H: Mainframe, R: Relay, M: Meter>(
    held: &mut Held<H, R, M>,
    part: &mut DeskPart<H>,
    slot: u8,
) -> Option<Card<R, M>>
    requires { 1 ≤ slot }
    ensures card { option_account result ≡ slot_at (all_open held.old.panel.cage.cards) slot }
    ensures others { all_open held.new.panel.cage.cards
        ≡ slice_set (all_open held.old.panel.cage.cards) (slot - 1) None }
    ensures meter { meter_only result ≡ slot_at (meters_of held.old.cards) slot }
    ensures meters { meters_of held.new.cards ≡ slice_set (meters_of held.old.cards) (slot - 1) None }
    ensures joined { StayJoined held.old.panel held.new.panel }
{
    runs_go_on();
    sessions_stay();
    held.has_history();
    match held.ask(part, Ask::Eject(slot)) {
        Answer::Ejected(card) => Some(card),
        other => {
            drop(other);
            None
        }
    }
}

/// All shares in one.
fn gather<H: Mainframe, R: Relay, M: Meter, G: Gate + Drop, W: Wait + Clock + Copy + Drop>(
    spare: Share<H>,
    mut desks: Vec<SharedDesk<H, R, M, G, W>>,
) -> Share<H>
    ensures parts { result.parts ≡ spare.parts + vec_len desks }
    ensures amount { result.amount ≡ spare.amount + sum_by (λ desk. desk.part.amount) desks.items }
{
    let mut all = spare;
    while let Some(desk) = desks.pop() {
        let SharedDesk { part, .. } = desk;
        all.merge(part.into_share());
    }
    all
}
