//! A card of either kind.

ghost use Rattle.std.proofs.Common.{inl, inr};
ghost use Rattle.std.specs.Prelude.{◌≡◌, ℕ, length, Bool, true, false, OnOk, OnErr, IfOk, IfErr, IsTrue, None, take};
ghost use Rattle.sw_base.specs.Layout.{group_at, has_channel};
ghost use Rattle.sw_base.specs.Limits.{most_channels};
ghost use Rattle.sw_card.specs.Account.{closed_at, set_closed, relay_account, of_meter, is_meter, with_set, at_rest};
ghost use Rattle.sw_card.specs.Account.{IsFault};
ghost use Rattle.sw_card.specs.Kind.{surety};
ghost use Rattle.sw_card.specs.Mask.{IsMaskOf};

use crate::board::CardFault;
use crate::mask::Mask;
use crate::meter::{Meter, MeterCard};
use crate::relay::{Relay, RelayCard};
use std::marker::Model;

/// What a card is.
#[derive(Drop)]
pub enum Kind<R: Relay, M: Meter> {
    Relays(RelayCard<R>),
    Meters(MeterCard<M>),
}

/// A card of either kind. Contracts see the card itself and its account.
#[derive(Drop)]
pub struct Card<R: Relay, M: Meter> {
    kind: Kind<R, M>,
}

impl<R: Relay, M: Meter> Model for Card<R, M> {
    ghost use Rattle.std.specs.Prelude.{◌⊎◌};
    ghost use Rattle.sw_card.specs.Account.{Account};

    ghost Value = { (R ⊎ M) × Account };

    ghost use Rattle.sw_card.specs.Kind.{seen};

    ghost view = { λ c. seen c.kind };
}

impl<R: Relay, M: Meter> Card<R, M> {
    /// A relay card as a card.
    pub fn relays(relay: R) -> Self
        ensures card { result.0 ≡ inl relay }
        ensures account { result.1
            ≡ relay_account (R.the_serial relay) (R.failed relay) (R.groups relay) (R.closed relay) }
    {
        Card {
            kind: Kind::Relays(RelayCard::new(relay)),
        }
    }

    /// A meter as a card.
    pub fn meter(meter: M) -> Self
        ensures card { result.0 ≡ inr meter }
        ensures account { result.1 ≡ of_meter (record {
          serial = M.the_serial meter;
          failures = M.failed meter;
          last = M.last_reading meter;
        }) }
    {
        Card {
            kind: Kind::Meters(MeterCard::new(meter)),
        }
    }

    /// A meter card as a card.
    pub fn of_meter(meter: MeterCard<M>) -> Self
        ensures { result ≡ (inr meter.0, of_meter meter.1) }
    {
        Card {
            kind: Kind::Meters(meter),
        }
    }

    /// The meter card that it is, or the card.
    pub fn into_meter(self) -> Result<MeterCard<M>, Self>
        ensures ok { IfOk result (λ meter. self ≡ (inr meter.0, of_meter meter.1)) }
        ensures meter { OnOk result (is_meter self.1 ≡ true) }
        ensures err { IfErr result (λ card. card ≡ self) }
        ensures relays { OnErr result (is_meter self.1 ≡ false) }
    {
        let Card { kind } = self;
        match kind {
            Kind::Meters(meter) => Ok(meter),
            Kind::Relays(relay) => Err(Card {
                kind: Kind::Relays(relay),
            }),
        }
    }

    /// The relay card that it is, or the card.
    pub fn into_relay(self) -> Result<RelayCard<R>, Self>
        ensures ok { IfOk result (λ relay. self ≡ (inl relay.0, record relay.1 { last = None })) }
        ensures relays { OnOk result (is_meter self.1 ≡ false) }
        ensures err { IfErr result (λ card. card ≡ self) }
        ensures meter { OnErr result (is_meter self.1 ≡ true) }
    {
        let Card { kind } = self;
        match kind {
            Kind::Relays(relay) => Ok(relay),
            Kind::Meters(meter) => Err(Card {
                kind: Kind::Meters(meter),
            }),
        }
    }

    /// Whether it is a meter.
    pub fn is_meter(&self) -> bool
        ensures { result ≡ is_meter self.now.1 }
    {
        match &self.kind {
            Kind::Relays(_) => false,
            Kind::Meters(_) => true,
        }
    }

    /// The card's serial number.
    pub fn serial(&self) -> u32
        ensures { result ≡ self.now.1.serial }
    {
        match &self.kind {
            Kind::Relays(card) => card.relay.serial(),
            Kind::Meters(card) => card.meter.serial(),
        }
    }

    /// How many calls failed so far.
    pub fn failures(&self) -> u64
        ensures { result ≡ self.now.1.failures }
    {
        match &self.kind {
            Kind::Relays(card) => card.relay.failures(),
            Kind::Meters(card) => card.meter.failures(),
        }
    }

    /// How many channels it has; a meter has none.
    pub fn channels(&self) -> u8
        ensures groups { result ≡ length self.now.1.groups }
        ensures closed { result ≡ length self.now.1.closed }
    {
        match &self.kind {
            Kind::Relays(card) => card.relay.channels(),
            Kind::Meters(_) => 0,
        }
    }

    /// The channel's group, 0 for none and for an absent channel.
    pub fn group(&self, ch: u8) -> u8
        ensures { result ≡ group_at self.now.1.groups ch }
    {
        match &self.kind {
            Kind::Relays(card) => card.relay.group(ch),
            Kind::Meters(_) => 0,
        }
    }

    /// Whether the channel is closed; an absent one is not.
    pub fn is_closed(&self, ch: u8) -> bool
        ensures { result ≡ closed_at self.now.1.closed ch }
    {
        match &self.kind {
            Kind::Relays(card) => card.relay.is_closed(ch),
            Kind::Meters(_) => false,
        }
    }

    /// Whether the card is sure that its relays are as its account says; a meter has none.
    pub fn is_sure(&self) -> bool
        ensures { result ≡ surety R.sure self.now.0 }
    {
        match &self.kind {
            Kind::Relays(card) => card.relay.is_sure(),
            Kind::Meters(_) => true,
        }
    }

    /// Closes a channel.
    pub fn close(&mut self, ch: u8) -> Result<(), CardFault>
        requires present { IsTrue (has_channel self.old.1.groups ch) }
        requires open { closed_at self.old.1.closed ch ≡ false }
        ensures ok { OnOk result (self.new.1 ≡ with_set self.old.1 ch true) }
        ensures err { OnErr result (IsFault self.old.1 (set_closed self.old.1.closed ch true) self.new.1) }
    {
        match &mut self.kind {
            Kind::Relays(card) => card.relay.close(ch),
            Kind::Meters(_) => unreachable!(),
        }
    }

    /// Opens a channel.
    pub fn open(&mut self, ch: u8) -> Result<(), CardFault>
        requires { closed_at self.old.1.closed ch ≡ true }
        ensures ok { OnOk result (self.new.1 ≡ with_set self.old.1 ch false) }
        ensures err { OnErr result (IsFault self.old.1 self.old.1.closed self.new.1) }
    {
        match &mut self.kind {
            Kind::Relays(card) => card.relay.open(ch),
            Kind::Meters(_) => unreachable!(),
        }
    }

    /// Opens every channel.
    pub fn open_all(&mut self)
        ensures { self.new.1 ≡ at_rest self.old.1 }
    {
        match &mut self.kind {
            Kind::Relays(card) => card.relay.open_all(),
            Kind::Meters(_) => {}
        }
    }

    /// The closed channels among those that a card in a slot may have; of a meter none is.
    pub fn closed_mask(&self) -> Mask
        ensures { IsMaskOf result (take most_channels self.now.1.closed) }
    {
        match &self.kind {
            Kind::Relays(card) => card.closed_mask(),
            Kind::Meters(_) => Mask::new(),
        }
    }

    /// Whether any channel is closed; of a meter none is.
    pub fn any_closed(&self) -> bool
        ensures meter { is_meter self.now.1 ≡ true → result ≡ false }
        ensures none { result ≡ false → (k : ℕ) → closed_at self.now.1.closed k ≡ false }
        ensures some { result ≡ true → (k : ℕ) × (closed_at self.now.1.closed k ≡ true) }
    {
        match &self.kind {
            Kind::Relays(card) => card.any_closed(),
            Kind::Meters(_) => false,
        }
    }
}
