//! Cards that have an exclusion group for each channel.

ghost use Rattle.std.specs.Prelude.{◌≡◌, ◌≤◌, length, replicate, false};
ghost use Rattle.sw_base.specs.Limits.{most_channels};
ghost use Rattle.sw_card.specs.Account.{Account, relay_account};
ghost use Rattle.sw_drivers.specs.Banks.{AreOf};

use std::marker::Model;
use sw_card::{Board, CardFault, Relay};
use sw_kinds::{Driver, Matrix};

/// Relays over a driver, each channel with its own exclusion group.
#[derive(Drop)]
pub struct Banks<D: Driver> {
    row: Matrix<D>,
    groups: Vec<u8>,
}

impl<D: Driver> Model for Banks<D> {
    ghost Value = { D × Account };

    ghost view = { λ b. (b.row.0, record b.row.1 { groups = b.groups.items }) };

    ghost invariant = { λ b. AreOf b.groups.items b.row.1 };
}

impl<D: Driver> Banks<D> {
    /// A card of as many channels as there are groups, with its driver's supply cut.
    pub fn new(serial: u32, groups: Vec<u8>, driver: D) -> Self
        requires { (1 ≤ length groups.items) × (length groups.items ≤ most_channels) }
        ensures { result.1 ≡ relay_account serial 0 groups.items (replicate (length groups.items) false) }
    {
        let channels = groups.len() as u8;
        Banks {
            row: Matrix::new(serial, channels, driver),
            groups,
        }
    }
}

impl<D: Driver> Board for Banks<D> {
    ghost the_serial = { λ b. b.1.serial };

    ghost failed = { λ b. b.1.failures };

    fn serial(&self) -> u32 {
        self.row.serial()
    }

    fn failures(&self) -> u64 {
        self.row.failures()
    }
}

impl<D: Driver> Relay for Banks<D> {
    ghost groups = { λ b. b.1.groups };

    ghost closed = { λ b. b.1.closed };

    ghost sure = { λ b. D.sure b.0 };

    fn channels(&self) -> u8 {
        self.row.channels()
    }

    fn group(&self, ch: u8) -> u8 {
        match ch.checked_sub(1) {
            Some(at) => self.groups.get(usize::from(at)).copied().unwrap_or(0),
            None => 0,
        }
    }

    fn is_closed(&self, ch: u8) -> bool {
        self.row.is_closed(ch)
    }

    fn is_sure(&self) -> bool {
        self.row.is_sure()
    }

    fn close(&mut self, ch: u8) -> Result<(), CardFault> {
        self.row.close(ch)
    }

    fn open(&mut self, ch: u8) -> Result<(), CardFault> {
        self.row.open(ch)
    }

    fn open_all(&mut self) {
        self.row.open_all();
    }
}
