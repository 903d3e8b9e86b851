//! The coils of a card: its driver, which code can drop only with its supply cut.

ghost use Rattle.std.specs.Prelude.{◌≡◌, ◌≢◌, ℕ, Bool, false, OnOk};

use crate::driver::Driver;
use std::marker::Model;
use sw_card::CardFault;

/// A card's driver. Contracts see the driver.
pub(crate) struct Coils<D: Driver> {
    driver: D,
}

impl<D: Driver> Model for Coils<D> {
    ghost Value = { D };

    ghost view = { λ c. c.driver };
}

impl<D: Driver> Drop for Coils<D> {
    /// Code that drops it proves that no channel is driven any more.
    fn drop(self)
        requires { (k : ℕ) → D.driven self k ≡ false }
    {
        let Coils { driver: _ } = self;
    }
}

impl<D: Driver> Coils<D> {
    /// The driver with its supply cut.
    pub(crate) fn new(mut driver: D) -> Self
        ensures none { (k : ℕ) → D.driven result k ≡ false }
        ensures cuts { D.cuts driver result }
    {
        driver.cut();
        Coils { driver }
    }

    /// The driver.
    pub(crate) fn driver(&self) -> &D
        ensures { result.now ≡ self.now }
    {
        &self.driver
    }

    /// Asks the driver for one channel.
    pub(crate) fn drive(&mut self, ch: u8, on: bool) -> Result<(), CardFault>
        ensures ok { OnOk result (D.driven self.new ch ≡ on) }
        ensures others { (k : ℕ) → k ≢ ch → D.driven self.new k ≡ D.driven self.old k }
        ensures drives { D.drives self.old ch on result self.new }
    {
        self.driver.drive(ch, on)
    }

    /// Cuts the supply.
    pub(crate) fn cut(&mut self)
        ensures none { (k : ℕ) → D.driven self.new k ≡ false }
        ensures cuts { D.cuts self.old self.new }
    {
        self.driver.cut();
    }
}
