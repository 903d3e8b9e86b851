//! Which cards are in the slots of the cage.

ghost use Rattle.std.specs.Prelude.{◌≡◌, ◌↔◌, ℕ, List, Some, None, IsTrue, IfSome, IfNone};
ghost use Rattle.sw_base.specs.Layout.{relays, meter, contents_have, contents_group, contents_are_meter, slot_at};
ghost use Rattle.sw_base.specs.Layout.{is_present, group_of, has_meter};

use std::marker::Model;
use sw_base::Chan;

/// What a slot holds: nothing, a relay card, or a meter.
#[derive(Debug, Drop)]
pub struct Slot {
    holds: Holds,
}

#[derive(Debug, Drop)]
enum Holds {
    Empty,
    Relays(Vec<u8>),
    Meter,
}

impl Model for Slot {
    ghost use Rattle.std.specs.Prelude.{Option};
    ghost use Rattle.sw_base.specs.Layout.{SlotContents};

    ghost Value = { Option SlotContents };

    ghost use Rattle.sw_verify.specs.Seen.{contents_of};

    ghost view = { λ s. contents_of s.holds };
}

impl Slot {
    /// A slot without a card.
    pub fn empty() -> Slot
        ensures { result ≡ None }
    {
        Slot {
            holds: Holds::Empty,
        }
    }

    /// A slot with a relay card, by the exclusion group of each channel from 1 on, 0 for none.
    pub fn relays(groups: Vec<u8>) -> Slot
        ensures { result ≡ Some (relays groups.items) }
    {
        Slot {
            holds: Holds::Relays(groups),
        }
    }

    /// A slot with a meter.
    pub fn meter() -> Slot
        ensures { result ≡ Some meter }
    {
        Slot {
            holds: Holds::Meter,
        }
    }

    /// The groups of its relay card's channels, from channel 1 on.
    pub fn groups(&self) -> Option<&[u8]>
        ensures relays { IfSome result (λ groups. self.now ≡ Some (relays groups.now)) }
        ensures none { IfNone result ((groups : List ℕ) → self.now ≡ Some (relays groups) → ⊥) }
    {
        match &self.holds {
            Holds::Relays(groups) => Some(groups.as_slice()),
            _ => None,
        }
    }

    fn has_channel(&self, ch: u8) -> bool
        ensures { result ≡ contents_have self.now ch }
    {
        match &self.holds {
            Holds::Relays(groups) => 0 < ch && usize::from(ch) <= groups.len(),
            _ => false,
        }
    }

    fn group(&self, ch: u8) -> u8
        ensures { result ≡ contents_group self.now ch }
    {
        match &self.holds {
            Holds::Relays(groups) => {
                if 0 < ch && usize::from(ch) <= groups.len() {
                    groups[usize::from(ch) - 1]
                } else {
                    0
                }
            }
            _ => 0,
        }
    }

    /// Whether it holds a meter.
    pub fn is_meter(&self) -> bool
        ensures is { result ≡ contents_are_meter self.now }
        ensures meter { IsTrue result ↔ (self.now ≡ Some meter) }
    {
        match &self.holds {
            Holds::Meter => true,
            _ => false,
        }
    }
}

/// What the slots of the cage hold, from slot 1 on.
///
/// Contracts see the list.
#[derive(Debug, Drop)]
pub struct Layout {
    slots: Vec<Slot>,
}

impl Model for Layout {
    ghost use Rattle.sw_base.specs.Layout.{Layout};

    ghost Value = { Layout };

    ghost view = { λ l. l.slots.items };
}

impl Layout {
    /// The layout with these slots, from slot 1 on.
    pub fn new(slots: Vec<Slot>) -> Layout
        ensures { result ≡ slots.items }
    {
        Layout { slots }
    }

    /// Whether a relay card in the channel's slot has it.
    pub fn has_channel(&self, c: Chan) -> bool
        ensures { result ≡ is_present self.now c }
    {
        match self.slot(c.slot()) {
            Some(slot) => slot.has_channel(c.ch()),
            None => false,
        }
    }

    /// The channel's exclusion group over all slots, 0 for none and for an absent channel.
    pub fn group(&self, c: Chan) -> u8
        ensures { result ≡ group_of self.now c }
    {
        match self.slot(c.slot()) {
            Some(slot) => slot.group(c.ch()),
            None => 0,
        }
    }

    /// Whether the slot holds a meter.
    pub fn has_meter(&self, slot: u8) -> bool
        ensures { result ≡ has_meter self.now slot }
    {
        match self.slot(slot) {
            Some(slot) => slot.is_meter(),
            None => false,
        }
    }

    /// What each slot holds, from slot 1 on.
    pub fn slots(&self) -> &[Slot]
        ensures { result.now ≡ self.now }
    {
        self.slots.as_slice()
    }

    fn slot(&self, slot: u8) -> Option<&Slot>
        ensures there { IfSome result (λ s. slot_at self.now slot ≡ s.now) }
        ensures none { IfNone result (slot_at self.now slot ≡ None) }
    {
        if slot == 0 {
            return None;
        }
        self.slots.get(usize::from(slot) - 1)
    }
}
