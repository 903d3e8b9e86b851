//! Measurements made outside the cage: a meter that is out under a ticket, and its return.

ghost use Rattle.std.specs.Prelude.{◌≡◌, ◌≢◌, ◌↔◌, IsTrue, IfOk, OnErr, Some};
ghost use Rattle.sw_cage.specs.Work.{IsDone};

use std::marker::Model;
use sw_base::Reading;
use sw_card::{CardFault, Meter, MeterCard};

/// The ticket of a pause or a reading that a scan awaits: the number of the scan, and which of its items it is.
#[derive(Clone, Copy, Debug, PartialEq, Eq)]
pub struct Ticket {
    pub scan: u64,
    pub index: u64,
}

impl Ticket {
    /// Whether the two are one.
    #[inline(always)]
    pub fn is_same(self, other: Ticket) -> bool
        ensures { IsTrue result ↔ (self ≡ other) }
    {
        self.scan == other.scan && self.index == other.index
    }
}

/// A meter that is out of its slot to measure. Contracts see the card itself beside plain data.
#[derive(Drop)]
pub struct Job<M: Meter> {
    pub(crate) slot: u8,
    pub(crate) ticket: Ticket,
    pub(crate) meter: MeterCard<M>,
}

impl<M: Meter> Model for Job<M> {
    ghost use Rattle.sw_cage.specs.Work.{JobSeen};

    ghost Value = { M × JobSeen };

    ghost view = { λ j. (j.meter.0, record { slot = j.slot; ticket = j.ticket; meter = j.meter.1 }) };
}

/// A meter that has measured, and the outcome. Only [`Job::run`] makes one.
#[derive(Drop)]
pub struct Finished<M: Meter> {
    pub(crate) slot: u8,
    pub(crate) ticket: Ticket,
    pub(crate) meter: MeterCard<M>,
    pub(crate) before: u64,
    pub(crate) outcome: Result<Reading, CardFault>,
}

impl<M: Meter> Model for Finished<M> {
    ghost use Rattle.sw_cage.specs.Work.{FinishedSeen, IsTold};

    ghost Value = { M × FinishedSeen };

    ghost view = { λ f. (
      f.meter.0,
      record {
        slot = f.slot;
        ticket = f.ticket;
        meter = f.meter.1;
        before = f.before;
        outcome = f.outcome;
      },
    ) };

    ghost invariant = { λ f. IsTold (record {
      slot = f.slot;
      ticket = f.ticket;
      meter = f.meter.1;
      before = f.before;
      outcome = f.outcome;
    }) };
}

impl<M: Meter> Job<M> {
    /// The meter's slot.
    pub fn slot(&self) -> u8
        ensures { result ≡ self.now.1.slot }
    {
        self.slot
    }

    /// The ticket that it is out under.
    pub fn ticket(&self) -> Ticket
        ensures { result ≡ self.now.1.ticket }
    {
        self.ticket
    }

    /// Measures, once.
    #[inline(always)]
    pub fn run(self) -> Finished<M>
        ensures { IsDone self.1 result.1 }
    {
        let Job {
            slot,
            ticket,
            mut meter,
        } = self;
        let before = meter.failures();
        let outcome = meter.measure();
        Finished {
            slot,
            ticket,
            meter,
            before,
            outcome,
        }
    }
}

impl<M: Meter> Finished<M> {
    /// The meter's slot.
    pub fn slot(&self) -> u8
        ensures { result ≡ self.now.1.slot }
    {
        self.slot
    }

    /// The ticket that it was out under.
    pub fn ticket(&self) -> Ticket
        ensures { result ≡ self.now.1.ticket }
    {
        self.ticket
    }

    /// The outcome of the measurement: a reading is the meter's last one, and the meter has counted a failure.
    pub fn outcome(&self) -> Result<Reading, CardFault>
        ensures outcome { result ≡ self.now.1.outcome }
        ensures reading { IfOk result (λ r. self.now.1.meter.last ≡ Some r) }
        ensures counted { OnErr result (self.now.1.meter.failures ≢ self.now.1.before) }
    {
        self.outcome
    }
}
