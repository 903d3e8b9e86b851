//! Meter cards.

ghost use Rattle.std.specs.Prelude.{◌≡◌, ℕ, ◌+◌, ◌%◌, ◌^◌, OnOk, OnErr, IfOk, Option, Some};
ghost use Rattle.sw_base.specs.declared.reading.Reading.{Reading};
ghost use Rattle.sw_card.specs.Account.{MeterAccount, IsMeasured};

use crate::board::{Board, CardFault};
use std::marker::Model;
use sw_base::Reading;

/// A card that measures.
pub trait Meter: Board {
    ghost last_reading: { Self → Option Reading };

    /// Measures once. After a fault the last reading is the one before.
    fn measure(&mut self) -> Result<Reading, CardFault>
        ensures ok { IfOk result (λ r. last_reading self.new ≡ Some r) }
        ensures err { OnErr result (last_reading self.new ≡ last_reading self.old) }
        ensures ok_count { OnOk result (Self.failed self.new ≡ Self.failed self.old) }
        ensures err_count { OnErr result (Self.failed self.new ≡ (Self.failed self.old + 1) % 2 ^ 64) }
        ensures serial { Self.the_serial self.new ≡ Self.the_serial self.old };

    /// The reading of the last measurement that succeeded.
    fn last(&self) -> Option<Reading>
        ensures { result ≡ last_reading self.now };
}

impl Board for Box<dyn Meter + Send> {
    ghost the_serial = { λ b. (Meter-box b).Board.the_serial b.value };

    ghost failed = { λ b. (Meter-box b).Board.failed b.value };

    fn serial(&self) -> u32 {
        (**self).serial()
    }

    fn failures(&self) -> u64 {
        (**self).failures()
    }
}

impl Meter for Box<dyn Meter + Send> {
    ghost last_reading = { λ b. (Meter-box b).Meter.last_reading b.value };

    fn measure(&mut self) -> Result<Reading, CardFault> {
        (**self).measure()
    }

    fn last(&self) -> Option<Reading> {
        (**self).last()
    }
}

/// A meter card as one value. Contracts see the card itself and its account.
#[derive(Drop)]
pub struct MeterCard<M: Meter> {
    pub(crate) meter: M,
}

impl<M: Meter> Model for MeterCard<M> {
    ghost Value = { M × MeterAccount };

    ghost view = { λ c. (
      c.meter,
      record { serial = M.the_serial c.meter; failures = M.failed c.meter; last = M.last_reading c.meter },
    ) };
}

impl<M: Meter> MeterCard<M> {
    /// The card as one value.
    pub fn new(meter: M) -> Self
        ensures card { result.0 ≡ meter }
        ensures account { result.1 ≡ record {
          serial = M.the_serial meter;
          failures = M.failed meter;
          last = M.last_reading meter;
        } }
    {
        MeterCard { meter }
    }

    /// The card itself.
    pub fn into_meter(self) -> M
        ensures card { result ≡ self.0 }
        ensures account { self.1 ≡ record {
          serial = M.the_serial result;
          failures = M.failed result;
          last = M.last_reading result;
        } }
    {
        let MeterCard { meter } = self;
        meter
    }

    /// The card's serial number.
    pub fn serial(&self) -> u32
        ensures { result ≡ self.now.1.serial }
    {
        self.meter.serial()
    }

    /// How many calls failed so far.
    pub fn failures(&self) -> u64
        ensures { result ≡ self.now.1.failures }
    {
        self.meter.failures()
    }

    /// Measures once.
    pub fn measure(&mut self) -> Result<Reading, CardFault>
        ensures { IsMeasured self.old.1 result self.new.1 }
    {
        self.meter.measure()
    }

    /// The reading of the last measurement that succeeded.
    pub fn last(&self) -> Option<Reading>
        ensures { result ≡ self.now.1.last }
    {
        self.meter.last()
    }
}
