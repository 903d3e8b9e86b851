//! What no client should send on its second connection.

use crate::hostile::{
    Row, Wire, claims, holds, line, malformed, plain, quiet, refused, says, second,
};
use std::alloc::Global;
use std::test::Fail;
use sw_session::ServeFault;

// The types of messages, by their numbers.
const INITIALIZE: u8 = 0;

const FATAL_ERROR: u8 = 2;

const ERROR: u8 = 3;

const LOCK: u8 = 4;

const LOCK_RESPONSE: u8 = 5;

const DATA: u8 = 6;

const REMOTE_LOCAL: u8 = 10;

const REMOTE_LOCAL_RESPONSE: u8 = 11;

const SIZE: u8 = 15;

const SIZE_RESPONSE: u8 = 16;

const ASYNC_INITIALIZE: u8 = 17;

const ASYNC_INITIALIZE_RESPONSE: u8 = 18;

const CLEAR: u8 = 19;

const STATUS: u8 = 21;

const STATUS_RESPONSE: u8 = 22;

const CLEAR_ACKNOWLEDGE: u8 = 23;

const LOCK_INFO: u8 = 24;

const LOCK_INFO_RESPONSE: u8 = 25;

/// The bytes of the AsyncInitialize that these streams begin with.
const BEGUN: usize = 16;

/// AsyncInitialize of session 1.
fn begins() -> Row<'static> {
    says(
        line(ASYNC_INITIALIZE, 0, 1, b""),
        line(ASYNC_INITIALIZE_RESPONSE, 0, 0x5357, b""),
    )
}

/// A message that is answered by an Error of this code.
fn errs(sent: Wire<'_>, code: u8) -> Row<'_> {
    says(sent, line(ERROR, code, 0, b""))
}

/// A message that is answered by a FatalError of this code.
fn fails(sent: Wire<'_>, code: u8) -> Row<'_> {
    says(sent, line(FATAL_ERROR, code, 0, b""))
}

/// A request or release that is answered by this code.
fn locks(control: u8, key: &[u8], code: u8) -> Row<'_> {
    says(
        line(LOCK, control, 0, key),
        line(LOCK_RESPONSE, code, 0, b""),
    )
}

/// The response to AsyncLockInfo: whether a session holds the exclusive lock, and how many sessions hold a lock.
fn counts(exclusive: u8, sessions: u32) -> Row<'static> {
    says(
        plain(LOCK_INFO),
        line(LOCK_INFO_RESPONSE, exclusive, sessions, b""),
    )
}

/// A status query, answered by no bit at all.
fn shows_nothing() -> Row<'static> {
    says(plain(STATUS), plain(STATUS_RESPONSE))
}

/// Whether this is answered on a second connection, however it is cut.
fn holds_within(alloc: Global, rows: &[Row<'_>]) -> bool {
    holds(alloc, second(BEGUN, rows, Ok(())))
}

/// Whether a second connection is ended by this fault, however its stream is cut.
fn ends_by(alloc: Global, rows: &[Row<'_>], fault: ServeFault) -> bool {
    holds(alloc, second(BEGUN, rows, Err(fault)))
}

/// Whether the connection becomes none of a session's, and ends by this fault.
fn begins_not(alloc: Global, row: Row<'_>, fault: ServeFault) -> bool {
    let rows = [row];
    holds(alloc, second(usize::MAX, &rows, Err(fault)))
}

/// Whether the channel reports a wrong prologue, at first and later.
fn refuses_prologue(alloc: Global, prologue: [u8; 2]) -> bool {
    let row = fails(malformed(prologue, LOCK_INFO), 1);
    let rows = [begins(), row];
    begins_not(alloc, row, ServeFault::Wire) && ends_by(alloc, &rows, ServeFault::Wire)
}

#[test]
fn a_wrong_prologue_is_fatal(rt: HostRuntime) {
    assert!(rt;
        refuses_prologue(rt.alloc(), *b"HX")
            && refuses_prologue(rt.alloc(), *b"hS")
            && refuses_prologue(rt.alloc(), [255, 255])
    );
}

/// Whether no session has this number.
fn is_stranger(alloc: Global, number: u32) -> bool {
    let sent = line(ASYNC_INITIALIZE, 0, number, b"");
    begins_not(alloc, fails(sent, 3), ServeFault::Fatal(3))
}

#[test]
fn a_number_of_no_session_is_fatal(rt: HostRuntime) {
    for number in [0, 2, 16, 17, 255, 256, 257, 0x0100_0001, u32::MAX] {
        assert!(rt; is_stranger(rt.alloc(), number));
    }
}

/// Whether it begins by no message of this type.
fn begins_not_by(alloc: Global, kind: u8) -> bool {
    begins_not(alloc, fails(plain(kind), 3), ServeFault::Fatal(3))
}

#[test]
fn another_first_message_is_fatal(rt: HostRuntime) {
    for kind in 0..17u8 {
        assert!(rt; begins_not_by(rt.alloc(), kind));
    }
    for kind in 18..=255u8 {
        assert!(rt; begins_not_by(rt.alloc(), kind));
    }
}

/// Whether an initialization once more ends it.
fn begins_once(alloc: Global, kind: u8, parameter: u32) -> bool {
    let again = fails(line(kind, 0, parameter, b""), 3);
    let rows = [begins(), shows_nothing(), again];
    ends_by(alloc, &rows, ServeFault::Fatal(3))
}

#[test]
fn a_second_initialization_is_fatal(rt: HostRuntime) {
    assert!(rt;
        begins_once(rt.alloc(), ASYNC_INITIALIZE, 1)
            && begins_once(rt.alloc(), ASYNC_INITIALIZE, 2)
            && begins_once(rt.alloc(), INITIALIZE, 0x0100_5858)
    );
}

/// Whether the channel reports a message of this type as an error of this code, and serves the next.
fn passes_over(alloc: Global, kind: u8, code: u8) -> bool {
    let rows = [begins(), errs(plain(kind), code), shows_nothing()];
    holds_within(alloc, &rows)
}

#[test]
fn types_that_are_not_served_are_errors(rt: HostRuntime) {
    for kind in [1u8, 5, 6, 7, 8, 9, 11, 12, 13, 14, 16, 18, 20, 22, 23, 25] {
        assert!(rt; passes_over(rt.alloc(), kind, 1));
    }
    for kind in 26..=127u8 {
        assert!(rt; passes_over(rt.alloc(), kind, 1));
    }
    for kind in 128..=255u8 {
        assert!(rt; passes_over(rt.alloc(), kind, 3));
    }
}

/// Whether control codes that no message has are errors.
fn refuses_controls(alloc: Global) -> bool {
    let rows = [
        begins(),
        errs(line(LOCK, 2, 0, b""), 2),
        errs(line(LOCK, 255, 0, b"key"), 2),
        errs(line(REMOTE_LOCAL, 7, 0, b""), 2),
        errs(line(REMOTE_LOCAL, 255, 0, b""), 2),
        says(
            line(REMOTE_LOCAL, 6, 0, b"odd"),
            plain(REMOTE_LOCAL_RESPONSE),
        ),
        counts(0, 0),
    ];
    holds_within(alloc, &rows)
}

#[test]
fn unknown_control_codes_are_errors(rt: HostRuntime) {
    assert!(rt; refuses_controls(rt.alloc()));
}

/// Whether a key that is too long is an error, and the longest is none.
fn refuses_keys(alloc: Global) -> bool {
    let rows = [
        begins(),
        locks(1, &[b'k'; 257], 3),
        counts(0, 0),
        locks(0, &[b'k'; 257], 3),
        locks(1, &[b'k'; 256], 1),
        counts(0, 1),
        locks(1, b"other", 3),
        locks(1, b"", 1),
        locks(1, b"", 3),
        counts(1, 1),
        locks(0, b"other", 1),
        locks(0, b"", 2),
        locks(0, b"", 3),
        counts(0, 0),
    ];
    holds_within(alloc, &rows)
}

#[test]
fn a_key_too_long_is_an_error(rt: HostRuntime) {
    assert!(rt; refuses_keys(rt.alloc()));
}

/// Whether the channel refuses a message of this type with too long a payload, and serves the next.
fn skips(alloc: Global, sent: Wire<'_>) -> bool {
    let rows = [
        begins(),
        refused(sent, line(ERROR, 4, 0, b"")),
        counts(0, 0),
        shows_nothing(),
    ];
    holds_within(alloc, &rows)
}

/// Whether a payload that never ends is refused once.
fn skips_without_end(alloc: Global, kind: u8) -> bool {
    let endless = claims(
        kind,
        u64::MAX,
        b"HS\x02\x00\x00\x00\x00\x00\x00\x00\x00\x00\x00\x00\x00\x00",
    );
    let rows = [begins(), refused(endless, line(ERROR, 4, 0, b""))];
    holds_within(alloc, &rows)
}

#[test]
fn a_payload_too_long_is_skipped(rt: HostRuntime) -> Result<(), Fail> {
    let key = Vec::from_elem(rt.alloc(), b'k', 65_537)?;
    assert!(rt;
        skips(rt.alloc(), claims(LOCK, 65_537, &key))
            && skips(rt.alloc(), claims(ASYNC_INITIALIZE, 65_537, &key))
            && skips(rt.alloc(), claims(FATAL_ERROR, 65_537, &key))
            && skips_without_end(rt.alloc(), LOCK)
            && skips_without_end(rt.alloc(), 255)
    );
    Ok(())
}

/// Whether the answer to a size in such a payload is the instrument's own size.
fn tells_size(payload: &[u8]) -> Row<'_> {
    says(
        line(SIZE, 0, 0, payload),
        line(SIZE_RESPONSE, 0, 0, &[0, 0, 0, 0, 0, 1, 0, 0]),
    )
}

/// Whether sizes of odd lengths are taken.
fn takes_sizes(alloc: Global) -> bool {
    let ones = [255u8; 9];
    let rows = [
        begins(),
        tells_size(b""),
        tells_size(&ones[..1]),
        tells_size(&ones[..2]),
        tells_size(&ones[..3]),
        tells_size(&ones[..4]),
        tells_size(&ones[..5]),
        tells_size(&ones[..6]),
        tells_size(&ones[..7]),
        tells_size(&ones),
        shows_nothing(),
    ];
    holds_within(alloc, &rows)
}

#[test]
fn sizes_of_odd_lengths_are_taken(rt: HostRuntime) {
    assert!(rt; takes_sizes(rt.alloc()));
}

/// Whether a clear may begin twice, and locks can't be had meanwhile.
fn clears(alloc: Global) -> bool {
    let rows = [
        begins(),
        says(plain(CLEAR), plain(CLEAR_ACKNOWLEDGE)),
        says(line(CLEAR, 9, 9, b"odd"), plain(CLEAR_ACKNOWLEDGE)),
        locks(1, b"", 3),
        locks(1, b"key", 3),
        counts(0, 0),
        shows_nothing(),
    ];
    holds_within(alloc, &rows)
}

#[test]
fn no_lock_is_had_during_a_clear(rt: HostRuntime) {
    assert!(rt; clears(rt.alloc()));
}

/// Whether a client's FatalError ends its session, and its Error doesn't.
fn leaves(alloc: Global) -> bool {
    let rows = [
        begins(),
        quiet(line(ERROR, 4, 0, b"some text")),
        shows_nothing(),
        quiet(line(FATAL_ERROR, 1, 0, b"some text")),
        quiet(plain(STATUS)),
        quiet(malformed(*b"XX", DATA)),
    ];
    holds_within(alloc, &rows)
}

#[test]
fn a_fatal_error_of_a_client_ends_its_session(rt: HostRuntime) {
    assert!(rt; leaves(rt.alloc()));
}
