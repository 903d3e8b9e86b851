//! By slot the ticket under which its meter is out.

ghost use Rattle.std.specs.Prelude.{◌≡◌, ℕ, ◌-◌, ◌≤◌, length, None, Some, replicate, slice_set, ◌↔◌, IsTrue};
ghost use Rattle.sw_base.specs.Limits.{most_slots};
ghost use Rattle.sw_base.specs.Layout.{slot_at};

use crate::job::Ticket;
use crate::slots::SLOT_PLACES;
use std::marker::Model;
use sw_base::SLOTS;

/// By slot, from 1 on, the ticket under which its meter is out.
#[derive(Drop)]
pub(crate) struct Tickets {
    by_slot: [Option<Ticket>; SLOT_PLACES],
}

impl Model for Tickets {
    ghost use Rattle.std.specs.Prelude.{◌≡◌, List, Option, length};
    ghost use Rattle.sw_base.specs.Limits.{most_slots};
    ghost use Rattle.sw_cage.specs.declared.job.Ticket.{Ticket};

    ghost Value = { List (Option Ticket) };

    ghost view = { λ t. t.by_slot };

    ghost invariant = { λ t. length t.by_slot ≡ most_slots };
}

impl Tickets {
    /// No meter is out.
    pub(crate) fn new() -> Self
        ensures { result ≡ replicate most_slots None }
    {
        Tickets {
            by_slot: [None; SLOT_PLACES],
        }
    }

    /// The ticket under which the slot's meter is out.
    #[tactic(auto, using(crate::proofs::SlotChangeLemmas::slot_past))]
    #[inline(always)]
    pub(crate) fn at(&self, slot: u8) -> Option<Ticket>
        ensures { result ≡ slot_at self.now slot }
    {
        let by_slot = &self.by_slot;
        if slot >= 1 && slot <= SLOTS {
            by_slot[slot as usize - 1]
        } else {
            None
        }
    }

    /// Whether the slot's meter is out under this ticket.
    #[inline(always)]
    pub(crate) fn has(&self, slot: u8, ticket: Ticket) -> bool
        ensures { IsTrue result ↔ (slot_at self.now slot ≡ Some ticket) }
    {
        match self.at(slot) {
            Some(own) => own.is_same(ticket),
            None => false,
        }
    }

    /// Writes down that the slot's meter is out under the ticket, or in.
    #[inline(always)]
    pub(crate) fn set(&mut self, slot: u8, ticket: Option<Ticket>)
        requires { (1 ≤ slot) × (slot ≤ most_slots) }
        ensures { self.new ≡ slice_set self.old (slot - 1) ticket }
    {
        self.by_slot[slot as usize - 1] = ticket;
    }
}
