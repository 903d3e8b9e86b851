//! Reads one line, and keeps no more of it than a message may have.

ghost use Rattle.std.specs.Prelude.{◌≡◌, ◌≢◌, ◌<◌, ◌≤◌, ◌-◌, All, length, take, OnOk, OnErr, IfErr, IfSome};
ghost use Rattle.std.specs.Io.BufRead.{take_through, DropsThrough};
ghost use Rattle.sw_base.specs.Limits.{most_kept};
ghost use Rattle.mainframe.specs.Kept.{CutsLine, KeepsFront};
ghost use Rattle.mainframe.specs.Turns.{Spends, FailsAfter, IsOfReading};

use crate::fault::RunFault;
use memchr::memchr;
use std::io::{BufRead, ErrorKind};
use sw_base::KEPT_BYTES;

/// What lines are read from, in sight of what was written by then.
pub trait LineSource<W> {
    ghost use Rattle.std.specs.Prelude.{◌≡◌, ◌≤◌, ◌<◌, ℕ, List, Option, length, IfErr, IfSome, Err};
    ghost use Rattle.std.specs.Io.KnownBytes.{Keeps};
    ghost use Rattle.sw_base.specs.Limits.{most_kept};
    ghost use Rattle.mainframe.specs.Kept.{TakesPart, ShowsLine, LosesFront};
    ghost use Rattle.mainframe.specs.Turns.{IsOfReading};

    /// The bytes that are left to be read, where they are known.
    ghost remaining: { Self → Option (List ℕ) };

    /// It was asked for bytes once, while the writer was so, and went from one state to another.
    ghost asked: { Self → W → Self → Type 0 };

    /// A read failed, between these states.
    ghost failed: { Self → Self → Type 0 };

    /// It was not asked for bytes, and went from one state to another.
    ghost unasked: { Self → Self → Type 0 };

    /// This many bytes are shown, and can be taken.
    ghost shows: { Self → ℕ → Type 0 };

    /// Asks for bytes, takes those that come, up to and including the first line feed, and keeps those that the line
    /// has room for. Returns whether the line is complete, and leaves in `at_hand` how many bytes are at hand behind
    /// it.
    fn read_part(
        &mut self,
        written: &W,
        at_hand: &mut usize,
        line: &mut Vec<u8>,
    ) -> Result<bool, RunFault>
        requires { length line.old.items ≤ most_kept }
        ensures asked { asked self.old written.now self.new }
        ensures part { TakesPart (remaining self.old) (remaining self.new) line.old.items line.new.items result }
        ensures fault { IfErr result IsOfReading }
        ensures failed { result ≡ Err RunFault.Input → failed self.old self.new };

    /// Looks at no more than `at_hand` bytes, and keeps the first line of them, or its first `KEPT_BYTES` bytes.
    /// Returns the line's length, or 0 where no whole line is there, or no memory for it.
    fn look(&mut self, at_hand: usize, line: &mut Vec<u8>) -> usize
        ensures unasked { unasked self.old self.new }
        ensures keeps { Keeps (remaining self.old) (remaining self.new) }
        ensures line { 0 < result → ShowsLine (remaining self.old) result line.new.items }
        ensures shown { IfSome (remaining self.old) (λ _. shows self.new result) }
        ensures bound { result ≤ at_hand };

    /// Takes `length` bytes that were shown.
    fn take(&mut self, length: usize)
        ensures unasked { unasked self.old self.new }
        ensures taken { shows self.old length → LosesFront (remaining self.old) (remaining self.new) length };
}

/// Any reader is a source of lines. It says nothing of what it sees.
impl<Rd: BufRead, W> LineSource<W> for Rd {
    ghost remaining = { λ r. Rd.remaining r };

    ghost asked = { λ _ _ _. Unit {0} };

    ghost failed = { λ _ _. Unit {0} };

    ghost unasked = { λ _ _. Unit {0} };

    ghost shows = { λ r n. IfSome (Rd.consumable_len r) (λ most. n ≤ most) };

    fn read_part(
        &mut self,
        _written: &W,
        at_hand: &mut usize,
        line: &mut Vec<u8>,
    ) -> Result<bool, RunFault> {
        let available = match self.fill_buf() {
            Ok(available) => available,
            Err(e) => {
                return match e.kind() {
                    ErrorKind::Interrupted => Ok(false),
                    ErrorKind::OutOfMemory => Err(RunFault::Memory),
                    _ => Err(RunFault::Input),
                };
            }
        };
        let end = line_end(available);
        let room = KEPT_BYTES - line.len();
        let Ok(()) = line.extend_from_slice(&available[..end.min(room)]) else {
            return Err(RunFault::Memory);
        };
        *at_hand = available.len() - end;
        let is_done = end == 0 || available[end - 1] == b'\n';
        self.consume(end);
        Ok(is_done)
    }

    fn look(&mut self, at_hand: usize, line: &mut Vec<u8>) -> usize {
        if at_hand == 0 {
            return 0;
        }
        let Ok(available) = self.fill_buf() else {
            return 0;
        };
        keep_line(&available[..available.len().min(at_hand)], line)
    }

    fn take(&mut self, length: usize) {
        self.consume(length);
    }
}

/// Takes the first line with its line feed from the source, and keeps it, or its first `KEPT_BYTES` bytes where it is
/// longer. Nothing is kept where the input is at its end. Each time that the source is asked for bytes spends a turn.
pub fn read_line<S: LineSource<W>, W>(
    source: &mut S,
    written: &W,
    turns: &mut u64,
    at_hand: &mut usize,
    line: &mut Vec<u8>,
) -> Result<(), RunFault>
    ensures kept { OnOk result (IfSome (S.remaining source.old) (λ xs.
        line.new.items ≡ take most_kept (take_through 10 xs))) }
    ensures rest { OnOk result (DropsThrough (S.remaining source.old) (S.remaining source.new) 10) }
    ensures cut { OnErr result (CutsLine (S.remaining source.old) (S.remaining source.new)) }
    ensures turns { Spends S.asked source.old written.now turns.old turns.new source.new }
    ensures spent { OnOk result (turns.new < turns.old) }
    ensures fault { IfErr result IsOfReading }
    ensures cause { result ≡ Err RunFault.Input → FailsAfter S.failed turns.new source.new }
{
    line.clear();
    while *turns > 0 {
        *turns -= 1;
        if source.read_part(written, at_hand, line)? {
            return Ok(());
        }
    }
    Err(RunFault::Input)
}

/// Keeps the first line of the bytes, or its first `KEPT_BYTES` bytes. Returns the line's length, or 0 where they have
/// no whole line, or there is no memory for it.
fn keep_line(bytes: &[u8], line: &mut Vec<u8>) -> usize
    ensures bound { result ≤ length bytes.now }
    ensures line { 0 < result → KeepsFront bytes.now result line.new.items }
{
    let end = line_end(bytes);
    if end == 0 || bytes[end - 1] != b'\n' {
        return 0;
    }
    line.clear();
    match line.extend_from_slice(&bytes[..end.min(KEPT_BYTES)]) {
        Ok(()) => end,
        Err(_) => 0,
    }
}

/// The length up to and including the first line feed, or the whole length.
fn line_end(bytes: &[u8]) -> usize
    ensures bound { result ≤ length bytes.now }
    ensures some { 0 < length bytes.now → 0 < result }
    ensures before { All (λ x. x ≢ 10) (take (result - 1) bytes.now) }
{
    match memchr(b'\n', bytes) {
        Some(at) => at + 1,
        None => bytes.len(),
    }
}
