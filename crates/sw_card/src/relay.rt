//! Relay cards.

ghost use Rattle.std.specs.Prelude.{◌≡◌, ℕ, ◌+◌, ◌%◌, ◌^◌, length, List, Bool, true, false, OnOk, OnErr, IsTrue, take};
ghost use Rattle.sw_base.specs.Layout.{group_at, has_channel};
ghost use Rattle.sw_base.specs.Limits.{most_channels};
ghost use Rattle.sw_card.specs.Account.{Account, closed_at, set_closed, none_closed, IsWithin, relay_account, with_set};
ghost use Rattle.sw_card.specs.Account.{at_rest, IsFault};
ghost use Rattle.sw_card.specs.Mask.{IsMaskOf};

use crate::board::{Board, CardFault};
use crate::mask::Mask;
use std::marker::Model;
use sw_base::CHANNELS;

/// A card of relays, numbered from 1.
///
/// Contracts see the group of each channel and whether it is closed, from channel 1 on.
pub trait Relay: Board {
    ghost groups: { Self → List ℕ };

    ghost closed: { Self → List Bool };

    // Whether the card is sure that its relays are as its account says; a card that has no way to know is sure.
    ghost sure: { Self → Bool } = { λ _. true };

    /// How many channels it has.
    fn channels(&self) -> u8
        ensures groups { result ≡ length (groups self.now) }
        ensures closed { result ≡ length (closed self.now) };

    /// The channel's group, 0 for none and for an absent channel.
    fn group(&self, ch: u8) -> u8
        ensures { result ≡ group_at (groups self.now) ch };

    /// Whether the channel is closed; an absent one is not.
    fn is_closed(&self, ch: u8) -> bool
        ensures { result ≡ closed_at (closed self.now) ch };

    /// Whether the card is sure that its relays are as its account says.
    fn is_sure(&self) -> bool
        ensures { result ≡ sure self.now };

    /// Closes a channel. After a fault nothing is closed but what was, and perhaps the channel.
    fn close(&mut self, ch: u8) -> Result<(), CardFault>
        requires present { IsTrue (has_channel (groups self.old) ch) }
        requires open { closed_at (closed self.old) ch ≡ false }
        ensures ok { OnOk result (closed self.new ≡ set_closed (closed self.old) ch true) }
        ensures err { OnErr result (IsWithin (closed self.new) (set_closed (closed self.old) ch true)) }
        ensures ok_count { OnOk result (Self.failed self.new ≡ Self.failed self.old) }
        ensures err_count { OnErr result (Self.failed self.new ≡ (Self.failed self.old + 1) % 2 ^ 64) }
        ensures serial { Self.the_serial self.new ≡ Self.the_serial self.old }
        ensures groups { groups self.new ≡ groups self.old };

    /// Opens a channel. After a fault nothing is closed but what was.
    fn open(&mut self, ch: u8) -> Result<(), CardFault>
        requires { closed_at (closed self.old) ch ≡ true }
        ensures ok { OnOk result (closed self.new ≡ set_closed (closed self.old) ch false) }
        ensures err { OnErr result (IsWithin (closed self.new) (closed self.old)) }
        ensures ok_count { OnOk result (Self.failed self.new ≡ Self.failed self.old) }
        ensures err_count { OnErr result (Self.failed self.new ≡ (Self.failed self.old + 1) % 2 ^ 64) }
        ensures serial { Self.the_serial self.new ≡ Self.the_serial self.old }
        ensures groups { groups self.new ≡ groups self.old };

    /// Opens every channel. It cannot fail.
    fn open_all(&mut self)
        ensures closed { closed self.new ≡ none_closed (closed self.old) }
        ensures count { Self.failed self.new ≡ Self.failed self.old }
        ensures serial { Self.the_serial self.new ≡ Self.the_serial self.old }
        ensures groups { groups self.new ≡ groups self.old };
}

impl Board for Box<dyn Relay + Send> {
    ghost the_serial = { λ b. (Relay-box b).Board.the_serial b.value };

    ghost failed = { λ b. (Relay-box b).Board.failed b.value };

    fn serial(&self) -> u32 {
        (**self).serial()
    }

    fn failures(&self) -> u64 {
        (**self).failures()
    }
}

impl Relay for Box<dyn Relay + Send> {
    ghost groups = { λ b. (Relay-box b).Relay.groups b.value };

    ghost closed = { λ b. (Relay-box b).Relay.closed b.value };

    ghost sure = { λ b. (Relay-box b).Relay.sure b.value };

    fn channels(&self) -> u8 {
        (**self).channels()
    }

    fn group(&self, ch: u8) -> u8 {
        (**self).group(ch)
    }

    fn is_closed(&self, ch: u8) -> bool {
        (**self).is_closed(ch)
    }

    fn is_sure(&self) -> bool {
        (**self).is_sure()
    }

    fn close(&mut self, ch: u8) -> Result<(), CardFault> {
        (**self).close(ch)
    }

    fn open(&mut self, ch: u8) -> Result<(), CardFault> {
        (**self).open(ch)
    }

    fn open_all(&mut self) {
        (**self).open_all()
    }
}

/// A relay card as one value. Contracts see the card itself and its account.
#[derive(Drop)]
pub struct RelayCard<R: Relay> {
    pub(crate) relay: R,
}

impl<R: Relay> Model for RelayCard<R> {
    ghost Value = { R × Account };

    ghost view = { λ c. (
      c.relay,
      relay_account (R.the_serial c.relay) (R.failed c.relay) (R.groups c.relay) (R.closed c.relay),
    ) };
}

impl<R: Relay> RelayCard<R> {
    /// The card as one value.
    pub fn new(relay: R) -> Self
        ensures { result ≡ (
          relay,
          relay_account (R.the_serial relay) (R.failed relay) (R.groups relay) (R.closed relay),
        ) }
    {
        RelayCard { relay }
    }

    /// The card itself.
    pub fn into_relay(self) -> R
        ensures card { result ≡ self.0 }
        ensures account { relay_account (R.the_serial result) (R.failed result) (R.groups result) (R.closed result)
            ≡ self.1 }
    {
        let RelayCard { relay } = self;
        relay
    }

    /// The card's serial number.
    pub fn serial(&self) -> u32
        ensures { result ≡ self.now.1.serial }
    {
        self.relay.serial()
    }

    /// How many calls failed so far.
    pub fn failures(&self) -> u64
        ensures { result ≡ self.now.1.failures }
    {
        self.relay.failures()
    }

    /// How many channels it has.
    pub fn channels(&self) -> u8
        ensures groups { result ≡ length self.now.1.groups }
        ensures closed { result ≡ length self.now.1.closed }
    {
        self.relay.channels()
    }

    /// The channel's group, 0 for none and for an absent channel.
    pub fn group(&self, ch: u8) -> u8
        ensures { result ≡ group_at self.now.1.groups ch }
    {
        self.relay.group(ch)
    }

    /// Whether the channel is closed; an absent one is not.
    pub fn is_closed(&self, ch: u8) -> bool
        ensures { result ≡ closed_at self.now.1.closed ch }
    {
        self.relay.is_closed(ch)
    }

    /// Closes a channel.
    pub fn close(&mut self, ch: u8) -> Result<(), CardFault>
        requires present { IsTrue (has_channel self.old.1.groups ch) }
        requires open { closed_at self.old.1.closed ch ≡ false }
        ensures ok { OnOk result (self.new.1 ≡ with_set self.old.1 ch true) }
        ensures err { OnErr result (IsFault self.old.1 (set_closed self.old.1.closed ch true) self.new.1) }
    {
        self.relay.close(ch)
    }

    /// Opens a channel.
    pub fn open(&mut self, ch: u8) -> Result<(), CardFault>
        requires { closed_at self.old.1.closed ch ≡ true }
        ensures ok { OnOk result (self.new.1 ≡ with_set self.old.1 ch false) }
        ensures err { OnErr result (IsFault self.old.1 self.old.1.closed self.new.1) }
    {
        self.relay.open(ch)
    }

    /// Opens every channel.
    pub fn open_all(&mut self)
        ensures { self.new.1 ≡ at_rest self.old.1 }
    {
        self.relay.open_all();
    }

    /// The closed channels among those that a card in a slot may have.
    pub fn closed_mask(&self) -> Mask
        ensures { IsMaskOf result (take most_channels self.now.1.closed) }
    {
        let mut mask = Mask::new();
        for before in 0..self.channels().min(CHANNELS) {
            if self.is_closed(before + 1) {
                mask.insert(before + 1);
            }
        }
        mask
    }

    /// Whether any channel is closed.
    pub fn any_closed(&self) -> bool
        ensures none { result ≡ false → (k : ℕ) → closed_at self.now.1.closed k ≡ false }
        ensures some { result ≡ true → (k : ℕ) × (closed_at self.now.1.closed k ≡ true) }
    {
        for before in 0..self.channels() {
            if self.is_closed(before + 1) {
                return true;
            }
        }
        false
    }
}
