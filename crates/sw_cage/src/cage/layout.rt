//! Which cards the cage has and which of its channels are closed, as a plan sees them.

ghost use Rattle.std.specs.Prelude.{◌≡◌, ◌≤◌, IfOk, ◌↔◌, IsTrue};
ghost use Rattle.sw_base.specs.Limits.{most_slots};
ghost use Rattle.sw_base.specs.Layout.{slot_at};
ghost use Rattle.sw_cage.specs.Cage.{cage_layout};
ghost use Rattle.sw_cage.specs.Channels.{closed_list};

use crate::cage::Cage;
use crate::slots::SLOT_PLACES;
use std::alloc::{AllocError, Global};
use sw_base::{Chan, SLOTS};
use sw_card::{Meter, Relay};
use sw_verify::{Layout, Slot};

impl<R: Relay, M: Meter> Cage<R, M> {
    /// The cards by slot; a meter that is out counts as its slot's.
    pub fn layout(&self, alloc: Global) -> Result<Layout, AllocError>
        ensures { IfOk result (λ layout. layout ≡ cage_layout self.now.seen) }
    {
        // Reading a field gives the proof what holds of every `Cage`.
        let _ = &self.slots;
        let mut bays = Vec::with_capacity(alloc, SLOT_PLACES)?;
        for before in 0..SLOTS {
            bays.push_reserved(self.contents(alloc, before + 1)?);
        }
        Ok(Layout::new(bays))
    }

    /// What the slot holds, where a meter that is out counts as the slot's.
    fn contents(&self, alloc: Global, slot: u8) -> Result<Slot, AllocError>
        requires { (1 ≤ slot) × (slot ≤ most_slots) }
        ensures { IfOk result (λ contents. contents ≡ slot_at (cage_layout self.now.seen) slot) }
    {
        if self.out.at(slot).is_some() {
            return Ok(Slot::meter());
        }
        self.slots.contents(alloc, slot)
    }

    /// Whether the slot holds what the layout's slot says, where a meter that is out counts as the slot's.
    fn has_contents(&self, slot: u8, contents: &Slot) -> bool
        requires { (1 ≤ slot) × (slot ≤ most_slots) }
        ensures { IsTrue result ↔ (contents.now ≡ slot_at (cage_layout self.now.seen) slot) }
    {
        if self.out.at(slot).is_some() {
            return contents.is_meter();
        }
        self.slots.is_as(slot, contents)
    }

    /// Whether the layout is that of the cards, as [`Cage::layout`] gives it. It takes no memory.
    pub fn has_layout(&self, layout: &Layout) -> bool
        ensures { IsTrue result ↔ (layout.now ≡ cage_layout self.now.seen) }
    {
        // Reading a field gives the proof what holds of every `Cage`.
        let _ = &self.slots;
        let bays = layout.slots();
        if bays.len() != SLOT_PLACES {
            return false;
        }
        for before in 0..SLOTS {
            if !self.has_contents(before + 1, &bays[before as usize]) {
                return false;
            }
        }
        true
    }

    /// The closed channels, by slot and channel.
    pub fn closed_chans(&self, alloc: Global) -> Result<Vec<Chan>, AllocError>
        ensures { IfOk result (λ chans. chans.items ≡ closed_list self.now.seen.cards) }
    {
        self.slots.closed_chans(alloc)
    }

    /// Whether these are the closed channels, as [`Cage::closed_chans`] gives them. It takes no memory.
    pub fn has_closed(&self, chans: &[Chan]) -> bool
        ensures { IsTrue result ↔ (chans.now ≡ closed_list self.now.seen.cards) }
    {
        self.slots.has_closed(chans)
    }
}
