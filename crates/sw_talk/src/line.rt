//! The line of answers, kept as a finished line.

ghost use Rattle.std.specs.Prelude.{◌≡◌, ◌+◌, ◌<◌, ◌≤◌, ℤ, nat_lt, length, decimal, map, OnOk, OnErr};
ghost use Rattle.std.specs.List.{join_with_byte};
ghost use Rattle.std.specs.Vec.{vec_capacity};
ghost use Rattle.sw_base.specs.Limits.{most_answer_bytes};
ghost use Rattle.sw_base.specs.Reading.{fixed, reading_text};
ghost use Rattle.sw_core.specs.Answers.{entry, entry_told};
ghost use Rattle.sw_talk.specs.Talk.{JoinsLine, opened};

use std::alloc::AllocError;
use sw_base::{
    ANSWER_BYTES, NO_ERROR, ScpiError, Sequence, print_micros, print_number, print_signed,
};
use sw_core::{AnswerForm, AnswerText, ReadingsText};

/// For how many bytes a line takes memory at least.
const ROOM: usize = 64;

/// Takes memory for a short answer, of a register or of one error, before the session asks for it.
#[inline(always)]
pub fn make_room(out: &mut Vec<u8>) -> Result<(), AllocError>
    ensures same { out.new.items ≡ out.old.items }
    ensures room { OnOk result (length out.new.items + 64 ≤ vec_capacity out.new) }
{
    out.reserve(ROOM)
}

/// Adds an answer to those that are written: before it a semicolon, unless it is the first, and after it a line feed.
/// It refuses a growth beyond `ANSWER_BYTES` as one for which there is no memory.
#[inline(always)]
pub fn join(out: &mut Vec<u8>, text: AnswerText) -> Result<(), AllocError>
    ensures ok { OnOk result (JoinsLine out.old.items text out.new.items) }
    ensures err { OnErr result (out.new.items ≡ out.old.items) }
{
    match text.into_form() {
        AnswerForm::Number(n) => join_number(out, n),
        AnswerForm::Seconds(micros) => join_seconds(out, micros),
        AnswerForm::Fixed(text) => add(out, text),
        AnswerForm::Entry(error) => join_entry(out, error),
        AnswerForm::Bytes(text) => join_bytes(out, text),
        AnswerForm::Readings(readings) => join_readings(out, readings),
    }
}

/// Adds a number to the answers that are written.
fn join_number(out: &mut Vec<u8>, n: u64) -> Result<(), AllocError>
    ensures ok { OnOk result (JoinsLine out.old.items (decimal n) out.new.items) }
    ensures err { OnErr result (out.new.items ≡ out.old.items) }
{
    let mut buffer = [0; 32];
    let end = print_number(n, &mut buffer);
    add(out, &buffer[..end])
}

/// Adds microseconds as seconds to the answers that are written.
fn join_seconds(out: &mut Vec<u8>, micros: u64) -> Result<(), AllocError>
    ensures ok { OnOk result (JoinsLine out.old.items (fixed 6 micros) out.new.items) }
    ensures err { OnErr result (out.new.items ≡ out.old.items) }
{
    let mut buffer = [0; 32];
    let end = print_micros(micros, &mut buffer);
    add(out, &buffer[..end])
}

/// Adds the text of an entry of the error queue, or that it has none, to the answers that are written.
fn join_entry(out: &mut Vec<u8>, error: Option<ScpiError>) -> Result<(), AllocError>
    ensures ok { OnOk result (JoinsLine out.old.items (entry_told error) out.new.items) }
    ensures err { OnErr result (out.new.items ≡ out.old.items) }
{
    match error {
        Some(error) => add_entry(out, i64::from(error.code()), error.text()),
        None => add_entry(out, 0, NO_ERROR),
    }
}

/// Adds a number, a comma and a text in quotes.
fn add_entry(out: &mut Vec<u8>, number: i64, words: &str) -> Result<(), AllocError>
    ensures ok { OnOk result (JoinsLine out.old.items (entry number words.now) out.new.items) }
    ensures err { OnErr result (out.new.items ≡ out.old.items) }
{
    let mut buffer = [0; 32];
    let end = print_signed(number, &mut buffer);
    let words = words.as_bytes();
    let size = words.len().saturating_add(end + 3);
    if !has_room(out, size) {
        return Err(AllocError);
    }
    open(out, size)?;
    out.extend_from_slice(&buffer[..end]).unwrap();
    out.extend_from_slice(b",\"").unwrap();
    out.extend_from_slice(words).unwrap();
    out.extend_from_slice(b"\"\n").unwrap();
    Ok(())
}

/// Adds these bytes to the answers that are written. The memory of a first answer that the line has no room for becomes
/// the line's.
#[inline(never)]
fn join_bytes(out: &mut Vec<u8>, text: Sequence<u8>) -> Result<(), AllocError>
    ensures ok { OnOk result (JoinsLine out.old.items text out.new.items) }
    ensures err { OnErr result (out.new.items ≡ out.old.items) }
{
    if !out.is_empty() || text.as_slice().len() < out.capacity() {
        return add(out, text.as_slice());
    }
    if !has_room(out, text.as_slice().len()) {
        return Err(AllocError);
    }
    let mut line = text.into_vec();
    line.reserve(1)?;
    line.push(b'\n').unwrap();
    *out = line;
    Ok(())
}

/// Adds readings to the answers that are written. What has no room is not printed.
#[inline(never)]
fn join_readings(out: &mut Vec<u8>, readings: ReadingsText) -> Result<(), AllocError>
    ensures ok { OnOk result (JoinsLine out.old.items (join_with_byte 44 (map reading_text readings)) out.new.items) }
    ensures err { OnErr result (out.new.items ≡ out.old.items) }
{
    if !has_room(out, readings.length()) {
        return Err(AllocError);
    }
    join_bytes(out, readings.text()?)
}

/// Whether there is room for one more answer of `size` bytes beside those that are written, with the byte before or
/// after it.
fn has_room(out: &[u8], size: usize) -> bool
    ensures { result ≡ nat_lt (length out.now + size) most_answer_bytes }
{
    out.len().saturating_add(size) < ANSWER_BYTES
}

/// Adds a text in the line's own memory.
fn add(out: &mut Vec<u8>, text: &[u8]) -> Result<(), AllocError>
    ensures ok { OnOk result (JoinsLine out.old.items text.now out.new.items) }
    ensures err { OnErr result (out.new.items ≡ out.old.items) }
{
    if !has_room(out, text.len()) {
        return Err(AllocError);
    }
    open(out, text.len())?;
    out.extend_from_slice(text).unwrap();
    out.push(b'\n').unwrap();
    Ok(())
}

/// Opens the line for an answer of `size` bytes and its line feed: it puts a semicolon in the place of the last line
/// feed, and makes room for them.
#[inline(always)]
fn open(out: &mut Vec<u8>, size: usize) -> Result<(), AllocError>
    requires { length out.old.items + size < most_answer_bytes }
    ensures ok { OnOk result (out.new.items ≡ opened out.old.items) }
    ensures room { OnOk result (length out.new.items + size + 1 ≤ vec_capacity out.new) }
    ensures err { OnErr result (out.new.items ≡ out.old.items) }
{
    if out.is_empty() {
        return out.reserve(ROOM.max(size + 1));
    }
    out.reserve(size + 1)?;
    let _ = out.pop();
    out.push(b';').unwrap();
    Ok(())
}
