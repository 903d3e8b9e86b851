//! Frames that ask a board of coils, and frames that answer.

ghost use Rattle.std.specs.Prelude.{◌≡◌, ◌≢◌, ◌+◌, ◌≤◌, ◌++◌, ◌∷◌, ◌↔◌, ℕ, length, replicate, take};
ghost use Rattle.std.specs.Prelude.{List, IsTrue, IfSome, IfNone};
ghost use Rattle.sw_drivers.specs.Frames.{IsSmall, answer_size, body, bytes_for, confirms, frame, function, refuses};
ghost use Rattle.sw_drivers.specs.Frames.{tells, wrapped};

use crate::crc::checksum;
use arrayvec::ArrayVec;

/// The most bytes of a frame that this crate sends: its coils are at most 99.
pub const FRAME: usize = 32;

/// The most bytes that the states of a card's coils take.
const MOST: usize = 13;

/// A request to a board.
#[derive(Clone, Copy, Debug, PartialEq, Eq)]
pub enum Request {
    /// The states of coils: the address of the first, and their count.
    Read(u16, u16),
    /// To switch this coil on or off.
    Write(u16, bool),
    /// To switch coils off: the address of the first, and their count.
    Clear(u16, u16),
}

/// What wraps a request.
#[derive(Clone, Copy, Debug, PartialEq, Eq)]
pub enum Wrapping {
    Tcp,
    Rtu,
}

/// A frame.
pub type Frame = ArrayVec<u8, FRAME>;

/// The frame of a request to the board of this unit. The number is the frame's own, over TCP.
pub fn frame_of(wrapping: Wrapping, number: u16, unit: u8, request: Request) -> Frame
    requires { IsSmall request }
    ensures { result.items ≡ frame wrapping number unit request }
{
    wrap(wrapping, number, body(unit, request).as_slice())
}

/// The frame of these bytes.
fn wrap(wrapping: Wrapping, number: u16, bytes: &[u8]) -> Frame
    requires { length bytes.now ≤ 20 }
    ensures { result.items ≡ wrapped wrapping number bytes.now }
{
    let mut frame = Frame::new();
    match wrapping {
        Wrapping::Tcp => {
            put(&mut frame, &number.to_be_bytes());
            put(&mut frame, &[0, 0]);
            put(&mut frame, &(bytes.len() as u16).to_be_bytes());
            put(&mut frame, bytes);
        }
        Wrapping::Rtu => {
            put(&mut frame, bytes);
            put(&mut frame, &checksum(bytes).to_le_bytes());
        }
    }
    frame
}

/// The unit, the function and its data.
fn body(unit: u8, request: Request) -> Frame
    requires { IsSmall request }
    ensures items { result.items ≡ body unit request }
    ensures size { length result.items ≤ 20 }
{
    let mut bytes = Frame::new();
    match request {
        Request::Read(first, count) => {
            put(&mut bytes, &[unit, 1]);
            put(&mut bytes, &first.to_be_bytes());
            put(&mut bytes, &count.to_be_bytes());
        }
        Request::Write(coil, on) => {
            put(&mut bytes, &[unit, 5]);
            put(&mut bytes, &coil.to_be_bytes());
            put(&mut bytes, &[if on { 0xFF } else { 0 }, 0]);
        }
        Request::Clear(first, count) => {
            put(&mut bytes, &[unit, 15]);
            put(&mut bytes, &first.to_be_bytes());
            put(&mut bytes, &count.to_be_bytes());
            let size = bytes_for(count);
            put(&mut bytes, &[size as u8]);
            put(&mut bytes, &zeros()[..size]);
        }
    }
    bytes
}

/// The number of bytes for the states of `count` coils.
pub fn bytes_for(count: u16) -> usize
    ensures { result ≡ bytes_for count }
{
    (usize::from(count) + 7) / 8
}

fn zeros() -> [u8; MOST]
    ensures size { length result ≡ 13 }
    ensures front { (n : ℕ) → n ≤ 13 → take n result ≡ replicate n 0 }
{
    [0; MOST]
}

/// The number of bytes of the function and the data in an answer that doesn't refuse.
pub fn answer_size(request: Request) -> usize
    requires { IsSmall request }
    ensures size { result ≡ answer_size request }
    ensures within { (2 ≤ result) × (result ≤ 15) }
{
    match request {
        Request::Read(_, count) => 2 + bytes_for(count),
        Request::Write(_, _) | Request::Clear(_, _) => 5,
    }
}

/// The exception's code where these bytes are an answer that refuses.
pub fn refusal_in(
    wrapping: Wrapping,
    number: u16,
    unit: u8,
    request: Request,
    bytes: &[u8],
) -> Option<u8>
    ensures some { IfSome result (λ code. bytes.now ≡ wrapped wrapping number (unit ∷ refuses request code)) }
    ensures none { IfNone result ((code : ℕ) → bytes.now ≢ wrapped wrapping number (unit ∷ refuses request code)) }
{
    let at = match wrapping {
        Wrapping::Tcp => 8,
        Wrapping::Rtu => 2,
    };
    let code = *bytes.get(at)?;
    let refusing = wrap(wrapping, number, &[unit, 128 + function(request), code]);
    if bytes == refusing.as_slice() {
        Some(code)
    } else {
        None
    }
}

/// Whether these bytes are the answer of a board that has made the requested change.
pub fn is_done(wrapping: Wrapping, number: u16, unit: u8, request: Request, bytes: &[u8]) -> bool
    requires { IsSmall request }
    ensures { IsTrue result ↔ (bytes.now ≡ wrapped wrapping number (unit ∷ confirms request)) }
{
    let confirming = wrap(wrapping, number, confirmation(unit, request).as_slice());
    bytes == confirming.as_slice()
}

/// The unit, and the answer of its board after it has made the requested change.
fn confirmation(unit: u8, request: Request) -> Frame
    ensures items { result.items ≡ unit ∷ confirms request }
    ensures size { length result.items ≤ 20 }
{
    let mut bytes = Frame::new();
    match request {
        Request::Read(_, _) => put(&mut bytes, &[unit]),
        Request::Write(coil, on) => {
            put(&mut bytes, &[unit, 5]);
            put(&mut bytes, &coil.to_be_bytes());
            put(&mut bytes, &[if on { 0xFF } else { 0 }, 0]);
        }
        Request::Clear(first, count) => {
            put(&mut bytes, &[unit, 15]);
            put(&mut bytes, &first.to_be_bytes());
            put(&mut bytes, &count.to_be_bytes());
        }
    }
    bytes
}

/// The states of `count` coils, where these bytes are the answer that has them.
pub fn states_in(
    wrapping: Wrapping,
    number: u16,
    unit: u8,
    count: u16,
    bytes: &[u8],
) -> Option<Frame>
    requires { count ≤ 99 }
    ensures told { IfSome result (λ states. bytes.now ≡ wrapped wrapping number (unit ∷ tells count states.items)) }
    ensures size { IfSome result (λ states. length states.items ≡ bytes_for count) }
    ensures none { IfNone result ((states : List ℕ) → length states ≡ bytes_for count
        → bytes.now ≢ wrapped wrapping number (unit ∷ tells count states)) }
{
    let at = match wrapping {
        Wrapping::Tcp => 9,
        Wrapping::Rtu => 3,
    };
    let size = bytes_for(count);
    let found = bytes.get(at..at + size)?;
    let mut states = Frame::new();
    put(&mut states, found);
    let mut body = Frame::new();
    put(&mut body, &[unit, 1, size as u8]);
    put(&mut body, found);
    if bytes == wrap(wrapping, number, body.as_slice()).as_slice() {
        Some(states)
    } else {
        None
    }
}

/// The function's number.
fn function(request: Request) -> u8
    ensures value { result ≡ function request }
    ensures within { result ≤ 15 }
{
    match request {
        Request::Read(_, _) => 1,
        Request::Write(_, _) => 5,
        Request::Clear(_, _) => 15,
    }
}

/// Puts these bytes behind the others.
pub fn put(bytes: &mut Frame, more: &[u8])
    requires { length bytes.old.items + length more.now ≤ 32 }
    ensures { bytes.new.items ≡ bytes.old.items ++ more.now }
{
    let _ = bytes.try_extend_from_slice(more);
}
