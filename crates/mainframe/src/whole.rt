//! Reading a whole input.

ghost use Rattle.std.specs.Prelude.{◌≡◌, IfOk, IfErr, IfSome, OnErr};
ghost use Rattle.mainframe.specs.Turns.{IsOfReading};
ghost use Rattle.mainframe.specs.Whole.{TakesPiece, GivesWhole, LosesPart};

use crate::fault::RunFault;
use std::alloc::Global;
use std::io::{ErrorKind, Read};
use sw_session::TURNS;

/// How many bytes are asked for at once.
const PIECE: usize = 4096;

/// The bytes up to the reader's end. It is asked for them `TURNS` times at most, 2^32; where they are not all there by
/// then, that is a fault of the input.
pub fn read_whole<Rd: Read>(alloc: Global, reader: &mut Rd) -> Result<Vec<u8>, RunFault>
    ensures whole { IfOk result (λ text. GivesWhole (Rd.remaining reader.old) (Rd.remaining reader.new) text.items) }
    ensures text { IfOk result (λ text. IfSome (Rd.remaining reader.old) (λ whole. text.items ≡ whole)) }
    ensures part { OnErr result (LosesPart (Rd.remaining reader.old) (Rd.remaining reader.new)) }
    ensures fault { IfErr result IsOfReading }
{
    let mut text = Vec::new(alloc);
    for _turn in 0..TURNS {
        if take_piece(reader, &mut text)? {
            return Ok(text);
        }
    }
    Err(RunFault::Input)
}

/// Asks the reader once, and keeps what it gives behind the text so far. Returns whether the reader is at its end.
fn take_piece<Rd: Read>(reader: &mut Rd, text: &mut Vec<u8>) -> Result<bool, RunFault>
    ensures takes { TakesPiece (Rd.remaining reader.old) (Rd.remaining reader.new)
        text.old.items text.new.items result }
    ensures fault { IfErr result IsOfReading }
{
    let mut piece = [0_u8; PIECE];
    match reader.read(&mut piece) {
        Ok(n) => match text.extend_from_slice(&piece[..n]) {
            Ok(()) => Ok(n == 0),
            Err(_) => Err(RunFault::Memory),
        },
        Err(error) => match error.kind() {
            ErrorKind::Interrupted => Ok(false),
            ErrorKind::OutOfMemory => Err(RunFault::Memory),
            _ => Err(RunFault::Input),
        },
    }
}
