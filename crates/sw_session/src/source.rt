//! What a server reads from.

ghost use Rattle.std.specs.Prelude.{Some, None, IfErr};
ghost use Rattle.std.specs.Io.{ReadsAtMost};
ghost use Rattle.std.specs.Io.KnownBytes.{ReadConsumes};
ghost use Rattle.std.specs.IoError.{error_kind};
ghost use Rattle.sw_session.specs.ServeRead.{GivesBytes, ComesTo, CountsPause};

use std::io::{self, ErrorKind, Read};
use sw_talk::TURNS;

/// Why a read gave nothing.
#[derive(Clone, Copy, Debug, PartialEq, Eq)]
pub enum Unread {
    /// A time limit ended it.
    Paused,
    /// It failed.
    Failed,
}

/// What a server reads from. Every reader is one.
pub trait ByteSource {
    ghost use Rattle.std.specs.Prelude.{◌≡◌, ℕ, List, Option, Err};
    ghost use Rattle.std.specs.Io.{ReadsAtMost};
    ghost use Rattle.std.specs.Io.KnownBytes.{ReadConsumes};
    ghost use Rattle.sw_session.specs.ServeRead.{CountsPause};

    /// The bytes that are left to be read, where they are known.
    ghost remaining: { Self → Option (List ℕ) };

    /// How many reads a time limit has ended so far, where that is known.
    ghost pauses: { Self → Option ℕ };

    /// A read failed, between these states.
    ghost failed: { Self → Self → Type 0 };

    /// Reads into the front of the buffer, and returns how many bytes: none at the end of the input.
    fn receive(&mut self, buffer: &mut [u8]) -> Result<usize, Unread>
        ensures bound { ReadsAtMost result buffer.new }
        ensures bytes { ReadConsumes (remaining self.old) (remaining self.new) result buffer.new }
        ensures pauses { CountsPause (pauses self.old) (pauses self.new) result }
        ensures failed { result ≡ Err Unread.Failed → failed self.old self.new };
}

/// Any reader is a source: an error of kind `TimedOut` or `WouldBlock` is the end of a time limit, and an interrupted
/// read is repeated. It doesn't say why a read fails, nor how many of them a time limit ended.
impl<R: Read> ByteSource for R {
    ghost remaining = { λ r. R.remaining r };

    ghost pauses = { λ _. None };

    ghost failed = { λ _ _. Unit {0} };

    fn receive(&mut self, buffer: &mut [u8]) -> Result<usize, Unread> {
        read_on(self, buffer)
    }
}

/// Reads until a read isn't interrupted, `TURNS` times at most.
fn read_on<R: Read>(reader: &mut R, buffer: &mut [u8]) -> Result<usize, Unread>
    ensures bound { ReadsAtMost result buffer.new }
    ensures bytes { ReadConsumes (R.remaining reader.old) (R.remaining reader.new) result buffer.new }
{
    for _turn in 0..TURNS {
        if let Some(read) = read_of(reader.read(buffer)) {
            return read;
        }
    }
    Err(Unread::Failed)
}

/// The outcome of a read. None where it was interrupted.
fn read_of(read: io::Result<usize>) -> Option<Result<usize, Unread>>
    ensures bytes { GivesBytes read result }
    ensures kind { IfErr read (λ e. ComesTo ErrorKind.Interrupted ErrorKind.TimedOut ErrorKind.WouldBlock (error_kind e)
        result) }
{
    match read {
        Ok(n) => Some(Ok(n)),
        Err(error) => match error.kind() {
            ErrorKind::Interrupted => None,
            ErrorKind::TimedOut => Some(Err(Unread::Paused)),
            ErrorKind::WouldBlock => Some(Err(Unread::Paused)),
            _ => Some(Err(Unread::Failed)),
        },
    }
}

/// Bytes in memory to be read: no read fails, and no time limit ends one.
#[derive(Drop)]
pub struct Memory<'a> {
    pub left: &'a [u8],
}

impl ByteSource for Memory<'_> {
    ghost remaining = { λ m. Some m.left.now };

    ghost pauses = { λ _. Some 0 };

    ghost failed = { λ _ _. ⊥ };

    fn receive(&mut self, buffer: &mut [u8]) -> Result<usize, Unread> {
        match self.left.read(buffer) {
            Ok(n) => Ok(n),
            Err(_) => unreachable!(),
        }
    }
}
