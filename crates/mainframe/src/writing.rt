//! Writing answers.

ghost use Rattle.std.specs.Prelude.{◌≡◌, true, false, ◌≤◌, ◌++◌, [], length, OnOk, OnErr};
ghost use Rattle.std.specs.Io.KnownBytes.{Appends};
ghost use Rattle.sw_session.specs.ServeWrite.{WritesPart};
ghost use Rattle.mainframe.specs.Turns.{Gathers, most_unwritten};

use crate::fault::RunFault;
use std::io::Write;
use sw_session::write_all;

/// How many bytes of answers are kept at most before they are written.
const MOST_UNWRITTEN: usize = 65_536;

/// Keeps an answer behind those that are not written yet. Where they would be more than `MOST_UNWRITTEN` bytes, or
/// there is no memory for that, it writes and flushes all of them.
pub fn gather<W: Write>(
    writer: &mut W,
    unwritten: &mut Vec<u8>,
    told: &[u8],
) -> Result<(), RunFault>
    ensures ok { OnOk result (Gathers (W.contents writer.old) (unwritten.old.items ++ told.now)
        (W.contents writer.new) unwritten.new.items) }
    ensures bound { OnOk result (length unwritten.new.items ≤ most_unwritten) }
    ensures err { OnErr result (WritesPart (W.contents writer.old) (W.contents writer.new)
        (unwritten.old.items ++ told.now)) }
    ensures output { OnErr result (result ≡ Err RunFault.Output) }
{
    if keep_answer(unwritten, told) {
        return Ok(());
    }
    if let Err(fault) = write_out(writer, unwritten) {
        return Err(fault);
    }
    write_bytes(writer, told)
}

/// Keeps an answer behind those that are not written yet, unless they would be more than `MOST_UNWRITTEN` bytes, or
/// there is no memory for that. Returns whether it is kept.
fn keep_answer(unwritten: &mut Vec<u8>, told: &[u8]) -> bool
    ensures kept { result ≡ true → unwritten.new.items ≡ unwritten.old.items ++ told.now }
    ensures bound { result ≡ true → length unwritten.new.items ≤ most_unwritten }
    ensures same { result ≡ false → unwritten.new.items ≡ unwritten.old.items }
{
    let held = unwritten.len();
    if held > MOST_UNWRITTEN || told.len() > MOST_UNWRITTEN - held {
        return false;
    }
    unwritten.extend_from_slice(told).is_ok()
}

/// Writes and flushes all answers that are not written yet, or writes a front part of them where that fails.
pub fn write_out<W: Write>(writer: &mut W, unwritten: &mut Vec<u8>) -> Result<(), RunFault>
    ensures ok { OnOk result (Appends (W.contents writer.old) (W.contents writer.new) unwritten.old.items) }
    ensures none { OnOk result (unwritten.new.items ≡ []) }
    ensures err { OnErr result (WritesPart (W.contents writer.old) (W.contents writer.new) unwritten.old.items) }
    ensures output { OnErr result (result ≡ Err RunFault.Output) }
{
    write_bytes(writer, unwritten)?;
    unwritten.clear();
    Ok(())
}

/// Writes all of the bytes and flushes, or writes a front part of them where that fails.
pub fn write_bytes<W: Write>(writer: &mut W, bytes: &[u8]) -> Result<(), RunFault>
    ensures ok { OnOk result (Appends (W.contents writer.old) (W.contents writer.new) bytes.now) }
    ensures err { OnErr result (WritesPart (W.contents writer.old) (W.contents writer.new) bytes.now) }
    ensures output { OnErr result (result ≡ Err RunFault.Output) }
{
    match write_all(writer, bytes) {
        Ok(()) => Ok(()),
        Err(_) => Err(RunFault::Output),
    }
}
