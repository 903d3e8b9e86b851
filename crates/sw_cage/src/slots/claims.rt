//! For each group the one closed channel that it may have.

ghost use Rattle.std.specs.Prelude.{◌≡◌, ◌≢◌, ◌<◌, length, replicate, slice_set, map, Option, None, Some, true};
ghost use Rattle.std.specs.Prelude.{ℕ, false};
ghost use Rattle.sw_base.specs.Limits.{most_slots};
ghost use Rattle.sw_base.specs.Layout.{Channel};
ghost use Rattle.sw_cage.specs.Accounts.{accounts_of, is_closed};
ghost use Rattle.sw_cage.specs.Claims.{Index, claim_at, closed_claim};

use crate::slots::slot::{CageSlot, closed_in};
use std::marker::Model;
use sw_base::Chan;
use sw_card::{Meter, Relay};

/// As many as a card can name: a group is one byte.
const GROUPS: usize = 256;

/// By group the channel that claims it, if any. The cage never reads the claim of group 0: a channel of it is in no
/// group.
#[derive(Clone, Copy, Drop)]
pub(super) struct Claims {
    by_group: [Option<Chan>; GROUPS],
}

impl Model for Claims {
    ghost Value = { Index };

    ghost view = { λ c. c.by_group };

    ghost invariant = { λ c. length c.by_group ≡ 256 };

    ghost inverse = { λ index. record { by_group = index } };
}

impl Claims {
    pub(super) fn new() -> Self
        ensures { result ≡ replicate 256 None }
    {
        Claims {
            by_group: [None; GROUPS],
        }
    }

    /// Gives the channel the group, from any channel that had it.
    pub(super) fn hold(&mut self, group: u8, chan: Chan)
        ensures held { self.new ≡ slice_set self.old group (Some chan) }
        ensures room { group < length self.old }
    {
        self.by_group[group as usize] = Some(chan);
    }

    /// Takes the group from any channel that has it.
    pub(super) fn release(&mut self, group: u8)
        ensures released { self.new ≡ slice_set self.old group None }
        ensures room { group < length self.old }
    {
        self.by_group[group as usize] = None;
    }

    /// Whether no other channel has the group; none has group 0.
    pub(super) fn is_free(&self, group: u8, chan: Chan) -> bool
        ensures free { result ≡ true → group ≢ 0 → (other : Channel)
            → claim_at self.now group ≡ Some other → other ≡ chan }
        ensures taken { result ≡ false → (other : Channel) × ((claim_at self.now group ≡ Some other) × (other ≢ chan)) }
        ensures grouped { result ≡ false → group ≢ 0 }
        ensures room { group ≢ 0 → group < length self.now }
    {
        if group == 0 {
            return true;
        }
        match self.by_group[group as usize] {
            Some(other) => other == chan,
            None => true,
        }
    }

    /// Claims the channel's group for it, unless another channel has it.
    pub(super) fn claim(&mut self, group: u8, chan: Chan) -> bool
        ensures free { result ≡ true → group ≢ 0 → (other : Channel)
            → claim_at self.old group ≡ Some other → other ≡ chan }
        ensures claimed { result ≡ true → group ≢ 0 → self.new ≡ slice_set self.old group (Some chan) }
        ensures groupless { result ≡ true → group ≡ 0 → self.new ≡ self.old }
        ensures taken { result ≡ false → (other : Channel) × ((claim_at self.old group ≡ Some other) × (other ≢ chan)) }
        ensures grouped { result ≡ false → group ≢ 0 }
        ensures room { result ≡ true → group ≢ 0 → group < length self.old }
    {
        if group == 0 {
            return true;
        }
        if !self.is_free(group, chan) {
            return false;
        }
        self.by_group[group as usize] = Some(chan);
        true
    }

    /// Drops the claims of the channels that are not closed.
    #[inline(never)]
    pub(super) fn keep_closed<R: Relay, M: Meter>(&mut self, slots: &[CageSlot<R, M>])
        requires { length slots.now ≡ most_slots }
        ensures { self.new ≡ map (closed_claim (is_closed (accounts_of slots.now))) self.old }
    {
        keep_closed_in(&mut self.by_group, slots);
    }
}

fn keep_closed_in<R: Relay, M: Meter>(claims: &mut [Option<Chan>], slots: &[CageSlot<R, M>])
    requires { length slots.now ≡ most_slots }
    ensures { claims.new ≡ map (closed_claim (is_closed (accounts_of slots.now))) claims.old }
{
    for claim in claims {
        *claim = if_closed(*claim, slots);
    }
}

/// The claim, where it is of a closed channel.
fn if_closed<R: Relay, M: Meter>(claim: Option<Chan>, slots: &[CageSlot<R, M>]) -> Option<Chan>
    requires { length slots.now ≡ most_slots }
    ensures { result ≡ closed_claim (is_closed (accounts_of slots.now)) claim }
{
    match claim {
        Some(chan) if closed_in(slots, chan) => Some(chan),
        _ => None,
    }
}
