//! Boards of coils that speak Modbus.

ghost use Rattle.std.specs.Prelude.{◌≡◌, ◌≢◌, ◌<◌, ◌≤◌, ◌+◌, ◌/◌, ℕ, OnOk, IfNone, IsTrue, false, length, replicate};
ghost use Rattle.std.specs.Prelude.{List, IfOk, set, slice_index_or};
ghost use Rattle.sw_drivers.specs.Boards.{HasShown, HasTold, channel_on};
ghost use Rattle.sw_drivers.specs.Wires.{Fewer, is_on};

use crate::board::{Account, Board, none_on};
use crate::coils::Coils;
use crate::exchange::{Asking, change, look};
use crate::fault::DriverFault;
use crate::frame::{Frame, Request};
use crate::wire::Wire;

/// A board that switches coils and answers their states.
#[derive(Drop)]
pub struct ModbusBoard<W: Wire> {
    wire: W,
    coils: Coils,
    number: u16,
}

impl<W: Wire> ModbusBoard<W> {
    /// These coils of the board at the other end.
    pub fn new(wire: W, coils: Coils) -> Self
        ensures wire { result.wire ≡ wire }
        ensures coils { result.coils ≡ coils }
    {
        ModbusBoard {
            wire,
            coils,
            number: 0,
        }
    }

    /// How the next frame asks, by a number of its own.
    fn asking(&mut self) -> Asking
        ensures wire { self.new.wire ≡ self.old.wire }
        ensures coils { self.new.coils ≡ self.old.coils }
        ensures wrapping { result.wrapping ≡ self.old.coils.wrapping }
        ensures unit { result.unit ≡ self.old.coils.unit }
    {
        self.number = self.number.wrapping_add(1);
        Asking {
            wrapping: self.coils.wrapping,
            number: self.number,
            unit: self.coils.unit,
        }
    }

    /// The states of its coils, by the board's answer.
    fn states(&mut self) -> Result<Frame, DriverFault>
        ensures coils { self.new.coils ≡ self.old.coils }
        ensures fewer { Fewer (W.on self.old.wire) (W.on self.new.wire) }
        ensures told { IfOk result (λ states. HasTold (W.sent self.old.wire) (W.sent self.new.wire)
            (W.asked self.new.wire) (W.answered self.new.wire) self.old.coils states.items) }
    {
        let asking = self.asking();
        let coils = self.coils;
        look(
            &mut self.wire,
            asking,
            coils.first,
            u16::from(coils.channels),
        )
    }

    /// Compares the account with the board's own answer.
    fn compare(&mut self, account: &Account) -> Result<(), DriverFault>
        ensures coils { self.new.coils ≡ self.old.coils }
        ensures fewer { Fewer (W.on self.old.wire) (W.on self.new.wire) }
        ensures shown { OnOk result (HasShown (W.asked self.new.wire) (W.answered self.new.wire) self.old.coils
            account.now) }
    {
        let states = self.states()?;
        match first_other(states.as_slice(), self.coils.channels, account) {
            Some(ch) => Err(DriverFault::Differs(ch)),
            None => Ok(()),
        }
    }

    /// Keeps an open connection, or makes a new one and compares the coils with the account.
    fn stand(&mut self, account: &Account) -> Result<(), DriverFault>
        ensures coils { self.new.coils ≡ self.old.coils }
        ensures fewer { Fewer (W.on self.old.wire) (W.on self.new.wire) }
    {
        if self.wire.is_open() && self.wire.begin().is_ok() {
            return Ok(());
        }
        self.wire.open()?;
        self.compare(account)
    }

    fn try_reach(&mut self) -> Result<(), DriverFault>
        ensures coils { self.new.coils ≡ self.old.coils }
        ensures fewer { Fewer (W.on self.old.wire) (W.on self.new.wire) }
        ensures told { OnOk result ((states : List ℕ) × HasTold (W.sent self.old.wire) (W.sent self.new.wire)
            (W.asked self.new.wire) (W.answered self.new.wire) self.old.coils states) }
    {
        self.wire.open()?;
        self.states()?;
        Ok(())
    }

    fn try_switch(&mut self, ch: u8, on: bool, before: &Account) -> Result<(), DriverFault>
        ensures coils { self.new.coils ≡ self.old.coils }
        ensures off { OnOk result (on ≡ false → channel_on self.old.coils (W.on self.new.wire) ch ≡ false) }
        ensures others { (k : ℕ) → k ≢ ch → IsTrue (channel_on self.old.coils (W.on self.new.wire) k)
            → IsTrue (channel_on self.old.coils (W.on self.old.wire) k) }
        ensures shown { OnOk result (IsTrue self.old.coils.verified → HasShown (W.asked self.new.wire)
            (W.answered self.new.wire) self.old.coils (set before.now ch on)) }
    {
        if ch == 0 || ch > self.coils.channels {
            return Err(DriverFault::Differs(ch));
        }
        self.stand(before)?;
        let coil = self.coils.first + (u16::from(ch) - 1);
        let asking = self.asking();
        change(&mut self.wire, asking, Request::Write(coil, on))?;
        if !self.coils.verified {
            return Ok(());
        }
        let mut wanted = *before;
        wanted[usize::from(ch)] = on;
        self.compare(&wanted)
    }

    fn try_clear(&mut self) -> Result<(), DriverFault>
        ensures coils { self.new.coils ≡ self.old.coils }
        ensures off { OnOk result ((k : ℕ) → channel_on self.old.coils (W.on self.new.wire) k ≡ false) }
        ensures fewer { Fewer (W.on self.old.wire) (W.on self.new.wire) }
        ensures shown { OnOk result (IsTrue self.old.coils.verified → HasShown (W.asked self.new.wire)
            (W.answered self.new.wire) self.old.coils (replicate 256 false)) }
    {
        let asking = self.asking();
        let coils = self.coils;
        change(
            &mut self.wire,
            asking,
            Request::Clear(coils.first, u16::from(coils.channels)),
        )?;
        if !self.coils.verified {
            return Ok(());
        }
        self.compare(&none_on())
    }
}

/// The first of `channels` channels whose coil isn't as the account says.
fn first_other(states: &[u8], channels: u8, account: &Account) -> Option<u8>
    requires { (channels + 7) / 8 ≤ length states.now }
    ensures { IfNone result ((k : ℕ) → k < channels
        → is_on states.now k ≡ slice_index_or account.now (k + 1) false) }
{
    for before in 0..channels {
        let is_on = (states[usize::from(before / 8)] >> (before % 8)) & 1 == 1;
        if is_on != account[usize::from(before) + 1] {
            return Some(before + 1);
        }
    }
    None
}

impl<W: Wire> Board for ModbusBoard<W> {
    ghost is_on = { λ b. channel_on b.coils (W.on b.wire) };

    ghost shows = { λ b account. IsTrue b.coils.verified
        → HasShown (W.asked b.wire) (W.answered b.wire) b.coils account };

    ghost looks = { λ b c. (states : List ℕ) × HasTold (W.sent b.wire) (W.sent c.wire) (W.asked c.wire)
        (W.answered c.wire) b.coils states };

    fn reach(&mut self) -> Result<(), DriverFault> {
        let done = self.try_reach();
        if done.is_err() {
            self.wire.close();
        }
        done
    }

    fn switch(&mut self, ch: u8, on: bool, before: &Account) -> Result<(), DriverFault> {
        let done = self.try_switch(ch, on, before);
        if done.is_err() {
            self.wire.close();
        }
        done
    }

    /// Tries the open connection, and then a new one.
    fn clear(&mut self) -> Result<(), DriverFault> {
        if self.wire.is_open() && self.try_clear().is_ok() {
            return Ok(());
        }
        self.wire.open()?;
        let done = self.try_clear();
        if done.is_err() {
            self.wire.rest();
        }
        done
    }
}
