//! Writing all of some bytes, with an account of what was written where a write fails.

ghost use Rattle.std.specs.Io.{WritesAtMost};
ghost use Rattle.std.specs.Io.KnownBytes.{Keeps, WriteAppends};
ghost use Rattle.sw_session.specs.ServeWrite.{Wrote};

use std::io::{ErrorKind, Write};

/// A write failed.
#[derive(Clone, Copy, Debug, PartialEq, Eq, Drop)]
pub struct Unwritten;

/// What a server writes to. Every writer is one.
pub trait Sink {
    ghost use Rattle.std.specs.Prelude.{ℕ, List, Option, OnErr};
    ghost use Rattle.sw_session.specs.ServeWrite.{Wrote};

    /// The bytes that it holds, where they are known.
    ghost contents: { Self → Option (List ℕ) };

    /// A write failed, between these states.
    ghost failed: { Self → Self → Type 0 };

    /// Writes all of the bytes and flushes, or writes a front part of them where that fails.
    fn deliver(&mut self, bytes: &[u8]) -> Result<(), Unwritten>
        ensures wrote { Wrote result (contents self.old) (contents self.new) bytes.now }
        ensures failed { OnErr result (failed self.old self.new) };
}

/// Any writer is a sink. It doesn't say why a write fails.
impl<W: Write> Sink for W {
    ghost contents = { λ w. W.contents w };

    ghost failed = { λ _ _. Unit {0} };

    fn deliver(&mut self, bytes: &[u8]) -> Result<(), Unwritten> {
        write_all(self, bytes)
    }
}

/// Writes all of the bytes and flushes, or writes a front part of them where that fails.
pub fn write_all<W: Write>(writer: &mut W, bytes: &[u8]) -> Result<(), Unwritten>
    ensures { Wrote result (W.contents writer.old) (W.contents writer.new) bytes.now }
{
    let mut done = 0;
    for _ in 0..u64::MAX {
        if done >= bytes.len() {
            return hand_on(writer);
        }
        match write_part(writer, &bytes[done..]) {
            Ok(written) => done += written,
            Err(fault) => return Err(fault),
        }
    }
    Err(Unwritten)
}

/// Writes a front part of the bytes, and returns its length: none where the write was interrupted. A writer that takes
/// nothing is at fault.
fn write_part<W: Write>(writer: &mut W, bytes: &[u8]) -> Result<usize, Unwritten>
    ensures bound { WritesAtMost result bytes.now }
    ensures bytes { WriteAppends (W.contents writer.old) (W.contents writer.new) result bytes.now }
{
    match writer.write(bytes) {
        Ok(0) => Err(Unwritten),
        Ok(n) => Ok(n),
        Err(e) => match e.kind() {
            ErrorKind::Interrupted => Ok(0),
            _ => Err(Unwritten),
        },
    }
}

/// Flushes what the writer keeps back.
fn hand_on<W: Write>(writer: &mut W) -> Result<(), Unwritten>
    ensures { Keeps (W.contents writer.old) (W.contents writer.new) }
{
    match writer.flush() {
        Ok(()) => Ok(()),
        Err(_) => Err(Unwritten),
    }
}
