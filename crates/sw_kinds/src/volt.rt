//! Voltmeters.

ghost use Rattle.std.specs.Prelude.{◌≡◌, Option, None};
ghost use Rattle.sw_card.specs.Account.{MeterAccount, IsMeasured};

use crate::source::Source;
use std::marker::Model;
use sw_base::Reading;
use sw_card::{Board, CardFault, Meter};

/// A meter over a source of readings. Contracts see the source and the card's account.
///
/// The card takes no memory.
#[derive(Drop)]
pub struct Volt<S: Source> {
    serial: u32,
    failures: u64,
    last: Option<Reading>,
    source: S,
}

impl<S: Source> Model for Volt<S> {
    ghost Value = { S × MeterAccount };

    ghost view = { λ v. (v.source, record { serial = v.serial; failures = v.failures; last = v.last }) };
}

impl<S: Source> Volt<S> {
    /// A meter that has not measured.
    pub fn new(serial: u32, source: S) -> Self
        ensures { result ≡ (source, record { serial = serial; failures = 0; last = None }) }
    {
        Volt {
            serial,
            failures: 0,
            last: None,
            source,
        }
    }
}

impl<S: Source> Board for Volt<S> {
    ghost the_serial = { λ v. v.1.serial };

    ghost failed = { λ v. v.1.failures };

    fn serial(&self) -> u32 {
        self.serial
    }

    fn failures(&self) -> u64 {
        self.failures
    }
}

impl<S: Source> Meter for Volt<S> {
    ghost last_reading = { λ v. v.1.last };

    /// Fails exactly where the source does.
    fn measure(&mut self) -> Result<Reading, CardFault>
        ensures source { S.samples self.old.0 result self.new.0 }
        ensures account { IsMeasured self.old.1 result self.new.1 }
    {
        match self.source.sample() {
            Ok(reading) => {
                self.last = Some(reading);
                Ok(reading)
            }
            Err(fault) => {
                self.failures = self.failures.wrapping_add(1);
                Err(fault)
            }
        }
    }

    fn last(&self) -> Option<Reading> {
        self.last
    }
}
