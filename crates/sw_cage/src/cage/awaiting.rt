//! What the scan that runs awaits.

ghost use Rattle.std.specs.Prelude.{◌≡◌};
ghost use Rattle.sw_cage.specs.Takes.{awaited_now, awaited_after};

use crate::cage::Cage;
use sw_card::{Meter, Relay};
use sw_trigger::Awaited;

impl<R: Relay, M: Meter> Cage<R, M> {
    /// What the scan that runs awaits; nothing, where none runs.
    pub fn awaited(&self) -> Option<Awaited>
        ensures { result ≡ awaited_now self.now.seen.scan }
    {
        match &self.scan {
            Some(scan) => scan.awaited(),
            None => None,
        }
    }

    /// What the scan that runs awaits right after that; nothing, where it moves relays first or is over, or none runs.
    pub fn awaited_after(&self) -> Option<Awaited>
        ensures { result ≡ awaited_after self.now.seen.scan }
    {
        match &self.scan {
            Some(scan) => scan.awaited_after(),
            None => None,
        }
    }
}
