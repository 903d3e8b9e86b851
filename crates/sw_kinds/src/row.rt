//! A row of relays over a driver: the kinds of relay cards.

ghost use Rattle.std.specs.Prelude.{◌≡◌, ℕ, ◌≤◌, replicate, true, false, OnOk, OnErr, IsTrue};
ghost use Rattle.sw_base.specs.Layout.{has_channel};
ghost use Rattle.sw_base.specs.Limits.{most_channels};
ghost use Rattle.sw_card.specs.Account.{Account, relay_account, closed_at, with_set, at_rest};
ghost use Rattle.sw_card.specs.Mask.{states_of};
ghost use Rattle.sw_kinds.specs.Row.{HoldsDriven, failure_counted};

use crate::coils::Coils;
use crate::driver::Driver;
use std::marker::{Model, PhantomData};
use sw_card::{Board, CardFault, Mask, Relay};

/// Names a card with all its channels in one exclusion group.
pub enum Grouped {}

/// Names a card with its channels in no exclusion group.
pub enum Ungrouped {}

/// A card of 1 to 99 relays, all in one exclusion group.
pub type Mux<D> = Row<D, Grouped>;

/// A card of 1 to 99 relays in no exclusion group.
pub type Matrix<D> = Row<D, Ungrouped>;

/// A card of relays over a driver, in an exclusion group or in none. Contracts see the driver and the card's account.
///
/// A channel counts as closed from before its coil is driven until it surely isn't. The card takes no memory. When it
/// is dropped the driver's supply is cut.
pub struct Row<D: Driver, K> {
    serial: u32,
    failures: u64,
    channels: u8,
    group: u8,
    closed: Mask,
    coils: Coils<D>,
    kind: PhantomData<K>,
}

impl<D: Driver, K> Model for Row<D, K> {
    ghost Value = { D × Account };

    ghost view = { λ r. (
      r.coils,
      relay_account r.serial r.failures (replicate r.channels r.group) (states_of r.closed r.channels),
    ) };

    ghost invariant = { λ r. HoldsDriven (D.driven r.coils) r.channels r.closed };
}

impl<D: Driver, K> Drop for Row<D, K> {
    fn drop(self) {
        let Row {
            serial: _,
            failures: _,
            channels: _,
            group: _,
            closed: _,
            mut coils,
            kind: _,
        } = self;
        coils.cut();
    }
}

impl<D: Driver> Row<D, Grouped> {
    /// A card with its driver's supply cut and so nothing closed. Group 0 is no group.
    pub fn new(serial: u32, channels: u8, group: u8, driver: D) -> Self
        requires { (1 ≤ channels) × (channels ≤ most_channels) }
        ensures driver { D.cuts driver result.0 }
        ensures account { result.1 ≡ relay_account serial 0 (replicate channels group) (replicate channels false) }
    {
        Row::at_rest(serial, channels, group, driver)
    }
}

impl<D: Driver> Row<D, Ungrouped> {
    /// A card with its driver's supply cut and so nothing closed.
    pub fn new(serial: u32, channels: u8, driver: D) -> Self
        requires { (1 ≤ channels) × (channels ≤ most_channels) }
        ensures driver { D.cuts driver result.0 }
        ensures account { result.1 ≡ relay_account serial 0 (replicate channels 0) (replicate channels false) }
    {
        Row::at_rest(serial, channels, 0, driver)
    }
}

impl<D: Driver, K> Row<D, K> {
    /// A card with its supply cut.
    fn at_rest(serial: u32, channels: u8, group: u8, driver: D) -> Self
        requires { (1 ≤ channels) × (channels ≤ most_channels) }
        ensures driver { D.cuts driver result.0 }
        ensures account { result.1 ≡ relay_account serial 0 (replicate channels group) (replicate channels false) }
    {
        Row {
            serial,
            failures: 0,
            channels,
            group,
            closed: Mask::new(),
            coils: Coils::new(driver),
            kind: PhantomData,
        }
    }

    /// The driver: every channel that it drives is closed by the card's account.
    pub fn driver(&self) -> &D
        ensures driver { result.now ≡ self.now.0 }
        ensures held { (k : ℕ) → D.driven result.now k ≡ true → closed_at self.now.1.closed k ≡ true }
    {
        self.coils.driver()
    }

    /// Asks the driver for a channel that counts as closed, and counts a fault.
    fn drive(&mut self, ch: u8, on: bool) -> Result<(), CardFault>
        requires { closed_at self.old.1.closed ch ≡ true }
        ensures driver { D.drives self.old.0 ch on result self.new.0 }
        ensures driven { OnOk result (D.driven self.new.0 ch ≡ on) }
        ensures ok { OnOk result (self.new.1 ≡ self.old.1) }
        ensures err { OnErr result (self.new.1 ≡ failure_counted self.old.1) }
    {
        let outcome = self.coils.drive(ch, on);
        if outcome.is_err() {
            self.failures = self.failures.wrapping_add(1);
        }
        outcome
    }
}

impl<D: Driver, K> Board for Row<D, K> {
    ghost the_serial = { λ c. c.1.serial };

    ghost failed = { λ c. c.1.failures };

    fn serial(&self) -> u32 {
        self.serial
    }

    fn failures(&self) -> u64 {
        self.failures
    }
}

impl<D: Driver, K> Relay for Row<D, K> {
    ghost groups = { λ c. c.1.groups };

    ghost closed = { λ c. c.1.closed };

    ghost sure = { λ c. D.sure c.0 };

    fn channels(&self) -> u8 {
        self.channels
    }

    fn group(&self, ch: u8) -> u8 {
        if ch >= 1 && ch <= self.channels {
            self.group
        } else {
            0
        }
    }

    fn is_closed(&self, ch: u8) -> bool {
        ch <= self.channels && self.closed.has(ch)
    }

    /// As its driver says.
    fn is_sure(&self) -> bool {
        self.coils.driver().is_sure()
    }

    /// Fails exactly where the driver does; the channel then counts as closed.
    fn close(&mut self, ch: u8) -> Result<(), CardFault>
        requires present { IsTrue (has_channel self.old.1.groups ch) }
        requires open { closed_at self.old.1.closed ch ≡ false }
        ensures driver { D.drives self.old.0 ch true result self.new.0 }
        ensures ok { OnOk result (self.new.1 ≡ with_set self.old.1 ch true) }
        ensures err { OnErr result (self.new.1 ≡ failure_counted (with_set self.old.1 ch true)) }
    {
        self.closed.insert(ch);
        self.drive(ch, true)
    }

    /// Fails exactly where the driver does; the channel then counts as closed still.
    fn open(&mut self, ch: u8) -> Result<(), CardFault>
        requires { closed_at self.old.1.closed ch ≡ true }
        ensures driver { D.drives self.old.0 ch false result self.new.0 }
        ensures ok { OnOk result (self.new.1 ≡ with_set self.old.1 ch false) }
        ensures err { OnErr result (self.new.1 ≡ failure_counted self.old.1) }
    {
        self.drive(ch, false)?;
        self.closed.remove(ch);
        Ok(())
    }

    /// Cuts the driver's supply.
    fn open_all(&mut self)
        ensures driver { D.cuts self.old.0 self.new.0 }
        ensures account { self.new.1 ≡ at_rest self.old.1 }
    {
        self.coils.cut();
        self.closed = Mask::new();
    }
}
