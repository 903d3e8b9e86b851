//! Boards of relays that obey lines.

ghost use Rattle.std.specs.Prelude.{◌≡◌, ◌≢◌, ◌≤◌, ◌⊎◌, ◌↔◌, [], IfOk, OnOk, IsTrue, take};
ghost use Rattle.sw_drivers.specs.Lines.{EndsBy, Holds, IsHeard, all_sent, reaching};
ghost use Rattle.sw_drivers.specs.Wires.{IsAll, grown};

use crate::board::{Account, Board, none_on};
use crate::fault::DriverFault;
use crate::setup::set_up;
use crate::wire::Wire;
use std::io::ErrorKind;

/// The most bytes of an answer.
const ANSWER: usize = 256;

/// The bytes sent, the bytes that end the answer, and those that the answer must contain. Where no bytes end it, the
/// driver reads none.
#[derive(Drop)]
pub struct Command {
    pub sent: Vec<u8>,
    pub end: Vec<u8>,
    pub wanted: Vec<u8>,
}

/// The lines that a board obeys: one for each channel to switch it on, one to switch it off, and some that switch all
/// off. Where the board answers a channel's state, one for each channel that asks for it and wants it on, and one that
/// wants it off. The driver sends the lines of the setup each time it reaches the board anew; it does not await their
/// answers.
#[derive(Drop)]
pub struct Commands {
    pub setup: Vec<Vec<u8>>,
    pub on: Vec<Command>,
    pub off: Vec<Command>,
    pub clear: Vec<Command>,
    pub is_on: Vec<Command>,
    pub is_off: Vec<Command>,
}

/// A board that obeys lines.
#[derive(Drop)]
pub struct LineBoard<W: Wire> {
    wire: W,
    commands: Commands,
}

impl<W: Wire> LineBoard<W> {
    /// The board at the other end.
    pub fn new(wire: W, commands: Commands) -> Self
        ensures wire { result.wire ≡ wire }
        ensures commands { result.commands ≡ commands }
    {
        LineBoard { wire, commands }
    }

    /// Whether the board answers its channels' states.
    fn tells(&self) -> bool {
        !self.commands.is_on.is_empty()
    }

    /// Asks whether this channel is on, or is off.
    fn ask(&mut self, ch: u8, on: bool) -> Result<(), DriverFault> {
        let asked = if on {
            obey_at(&mut self.wire, self.commands.is_on.as_slice(), ch)
        } else {
            obey_at(&mut self.wire, self.commands.is_off.as_slice(), ch)
        };
        match asked {
            Err(DriverFault::Unwanted) => Err(DriverFault::Differs(ch)),
            asked => asked,
        }
    }

    /// Compares the account with the board's own answers, where it answers its channels' states.
    fn compare(&mut self, account: &Account) -> Result<(), DriverFault> {
        for before in 0..u8::MAX {
            if usize::from(before) >= self.commands.is_on.len() {
                return Ok(());
            }
            self.ask(before + 1, account[usize::from(before) + 1])?;
        }
        Ok(())
    }

    /// Keeps an open connection or makes a new one. It makes a new one only where the board can answer that its
    /// channels are as the account says.
    fn stand(&mut self, account: &Account) -> Result<(), DriverFault> {
        if self.wire.is_open() && self.wire.begin().is_ok() {
            return Ok(());
        }
        if !self.tells() {
            return Err(DriverFault::NoConnection(ErrorKind::UnexpectedEof));
        }
        self.wire.open()?;
        set_up(&mut self.wire, self.commands.setup.as_slice())?;
        self.compare(account)
    }

    fn try_switch(&mut self, ch: u8, on: bool, before: &Account) -> Result<(), DriverFault> {
        self.stand(before)?;
        if on {
            obey_at(&mut self.wire, self.commands.on.as_slice(), ch)?;
        } else {
            obey_at(&mut self.wire, self.commands.off.as_slice(), ch)?;
        }
        if self.tells() {
            self.ask(ch, on)?;
        }
        Ok(())
    }

    fn try_clear(&mut self) -> Result<(), DriverFault> {
        for command in &self.commands.clear {
            obey(&mut self.wire, command)?;
        }
        self.compare(&none_on())
    }

    /// Switches all off by a new connection.
    fn clear_anew(&mut self) -> Result<(), DriverFault> {
        set_up(&mut self.wire, self.commands.setup.as_slice())?;
        self.try_clear()
    }

    fn try_reach(&mut self) -> Result<(), DriverFault>
        ensures { OnOk result (W.sent self.new.wire ≡ grown (W.sent self.old.wire) (reaching self.old.commands)) }
    {
        self.wire.open()?;
        set_up(&mut self.wire, self.commands.setup.as_slice())?;
        look(
            &mut self.wire,
            self.commands.is_on.as_slice(),
            self.commands.is_off.as_slice(),
        )
    }
}

/// Asks for each channel's state.
fn look<W: Wire>(wire: &mut W, is_on: &[Command], is_off: &[Command]) -> Result<(), DriverFault>
    ensures { OnOk result (W.sent wire.new ≡ grown (W.sent wire.old) (all_sent is_on.now)) }
{
    for at in 0..is_on.len() {
        match is_off.get(at) {
            Some(off) => ask_either(wire, &is_on[at], off)?,
            None => return Err(DriverFault::Unwanted),
        }
    }
    Ok(())
}

/// Asks for one channel's state: on or off.
fn ask_either<W: Wire>(wire: &mut W, on: &Command, off: &Command) -> Result<(), DriverFault>
    ensures sent { OnOk result (W.sent wire.new ≡ grown (W.sent wire.old) on.now.sent.items) }
    ensures heard { OnOk result (on.now.end.items ≢ []
        → IsHeard (W.answered wire.new) on.now.end.items on.now.wanted.items
        ⊎ IsHeard (W.answered wire.new) on.now.end.items off.now.wanted.items) }
{
    let mut answer = [0_u8; ANSWER];
    let length = ask(wire, on, &mut answer)?;
    let heard = &answer[..length];
    if on.end.is_empty() || has(heard, on.wanted.as_slice()) {
        return Ok(());
    }
    if has(heard, off.wanted.as_slice()) {
        Ok(())
    } else {
        Err(DriverFault::Unwanted)
    }
}

/// Sends this channel's command.
fn obey_at<W: Wire>(wire: &mut W, commands: &[Command], ch: u8) -> Result<(), DriverFault> {
    match commands.get(usize::from(ch).wrapping_sub(1)) {
        Some(command) => obey(wire, command),
        None => Err(DriverFault::Differs(ch)),
    }
}

/// Sends a command, and reads its answer.
fn obey<W: Wire>(wire: &mut W, command: &Command) -> Result<(), DriverFault>
    ensures asked { OnOk result (IsAll (W.asked wire.new) command.now.sent.items) }
    ensures heard { OnOk result (command.now.end.items ≢ []
        → IsHeard (W.answered wire.new) command.now.end.items command.now.wanted.items) }
{
    let mut answer = [0_u8; ANSWER];
    let length = ask(wire, command, &mut answer)?;
    if command.end.is_empty() || has(&answer[..length], command.wanted.as_slice()) {
        Ok(())
    } else {
        Err(DriverFault::Unwanted)
    }
}

/// Sends a command and hears its answer, where it has one to read. The number of bytes heard.
fn ask<W: Wire>(
    wire: &mut W,
    command: &Command,
    answer: &mut [u8; ANSWER],
) -> Result<usize, DriverFault>
    ensures within { IfOk result (λ length. length ≤ 256) }
    ensures asked { OnOk result (IsAll (W.asked wire.new) command.now.sent.items) }
    ensures sent { OnOk result (W.sent wire.new ≡ grown (W.sent wire.old) command.now.sent.items) }
    ensures heard { IfOk result (λ length. command.now.end.items ≢ []
        → IsAll (W.answered wire.new) (take length answer.new)) }
    ensures end { IfOk result (λ length. command.now.end.items ≢ []
        → EndsBy (take length answer.new) command.now.end.items) }
{
    wire.begin()?;
    wire.send(command.sent.as_slice())?;
    let end = command.end.as_slice();
    if end.is_empty() {
        return Ok(0);
    }
    hear_line(wire, end, answer)
}

/// Hears bytes up to and with these. The number of bytes heard.
fn hear_line<W: Wire>(
    wire: &mut W,
    end: &[u8],
    answer: &mut [u8; ANSWER],
) -> Result<usize, DriverFault>
    ensures within { IfOk result (λ length. length ≤ 256) }
    ensures asked { W.asked wire.new ≡ W.asked wire.old }
    ensures sent { W.sent wire.new ≡ W.sent wire.old }
    ensures heard { IfOk result (λ length. W.answered wire.new ≡ grown (W.answered wire.old) (take length answer.new)) }
    ensures end { IfOk result (λ length. EndsBy (take length answer.new) end.now) }
{
    let mut length = 0;
    for _ in 0..ANSWER {
        let n = wire.hear_some(&mut answer[length..])?;
        length += n;
        if n == 0 || length >= ANSWER {
            return Err(DriverFault::Garbled);
        }
        if answer[..length].ends_with(end) {
            return Ok(length);
        }
    }
    Err(DriverFault::Garbled)
}

/// Whether the text has these bytes somewhere.
fn has(text: &[u8], wanted: &[u8]) -> bool
    ensures { IsTrue result ↔ Holds text.now wanted.now }
{
    for from in 0..text.len() {
        if text[from..].starts_with(wanted) {
            return true;
        }
    }
    wanted.is_empty()
}

impl<W: Wire> Board for LineBoard<W> {
    ghost use Rattle.std.specs.Prelude.{false, ⊤};

    ghost is_on = { λ _ _. false };

    ghost shows = { λ _ _. ⊤ };

    ghost looks = { λ b c. W.sent c.wire ≡ grown (W.sent b.wire) (reaching b.commands) };

    fn reach(&mut self) -> Result<(), DriverFault> {
        let done = self.try_reach();
        if done.is_err() {
            self.wire.close();
        }
        done
    }

    fn switch(&mut self, ch: u8, on: bool, before: &Account) -> Result<(), DriverFault> {
        let done = self.try_switch(ch, on, before);
        if done.is_err() {
            self.wire.close();
        }
        done
    }

    /// Tries the open connection, and then a new one.
    fn clear(&mut self) -> Result<(), DriverFault> {
        if self.wire.is_open() && self.try_clear().is_ok() {
            return Ok(());
        }
        self.wire.open()?;
        let done = self.clear_anew();
        if done.is_err() {
            self.wire.rest();
        }
        done
    }
}
