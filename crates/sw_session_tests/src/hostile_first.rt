//! What no client should send on its first connection.

use crate::clients::IDENTITY;
use crate::hostile::{
    Row, Stream, Wire, claims, first, holds, holds_uncut, line, malformed, plain, quiet, refused,
    says,
};
use std::alloc::Global;
use std::test::Fail;
use sw_session::{Channel, ServeFault};

// The types of messages, by their numbers.
const INITIALIZE: u8 = 0;

const INITIALIZE_RESPONSE: u8 = 1;

const FATAL_ERROR: u8 = 2;

const ERROR: u8 = 3;

const DATA: u8 = 6;

const DATA_END: u8 = 7;

const DEVICE_CLEAR_COMPLETE: u8 = 8;

const DEVICE_CLEAR_ACKNOWLEDGE: u8 = 9;

const TRIGGER: u8 = 12;

const ASYNC_INITIALIZE: u8 = 17;

const SUB_ADDRESS: &[u8] = b"hislip0";

/// The bytes of the Initialize that these streams begin with.
const BEGUN: usize = 23;

/// Initialize of version 1.0 is answered by the same version and session 1.
fn begins() -> Row<'static> {
    says(
        line(INITIALIZE, 0, 0x0100_5858, SUB_ADDRESS),
        line(INITIALIZE_RESPONSE, 0, 0x0100_0001, b""),
    )
}

/// A message that is answered by an Error of this code.
fn errs(kind: u8, code: u8) -> Row<'static> {
    says(plain(kind), line(ERROR, code, 0, b""))
}

/// A message that is answered by a FatalError of this code.
fn fails(sent: Wire<'_>, code: u8) -> Row<'_> {
    says(sent, line(FATAL_ERROR, code, 0, b""))
}

/// A whole program message, sent with the last answer taken, and its answer.
fn asks<'a>(text: &'a [u8], answer: &'a [u8]) -> Row<'a> {
    says(line(DATA_END, 1, 7, text), line(DATA_END, 0, 7, answer))
}

/// A whole program message without an answer.
fn bids(text: &[u8]) -> Row<'_> {
    quiet(line(DATA_END, 1, 7, text))
}

/// A part of a program message.
fn part(text: &[u8]) -> Row<'_> {
    quiet(line(DATA, 1, 5, text))
}

/// Whether this is answered in a session, however it is cut.
fn holds_within(alloc: Global, rows: &[Row<'_>]) -> bool {
    holds(alloc, first(BEGUN, rows, Ok(())))
}

/// Whether a session is ended by this fault, however its stream is cut.
fn ends_by(alloc: Global, rows: &[Row<'_>], fault: ServeFault) -> bool {
    holds(alloc, first(BEGUN, rows, Err(fault)))
}

/// Whether no session begins, and the stream ends by this fault.
fn begins_not(alloc: Global, row: Row<'_>, fault: ServeFault) -> bool {
    let rows = [row];
    holds(alloc, first(usize::MAX, &rows, Err(fault)))
}

/// Whether the channel reports a wrong prologue, before a session and in it.
fn refuses_prologue(alloc: Global, prologue: [u8; 2]) -> bool {
    let row = fails(malformed(prologue, DATA), 1);
    let rows = [begins(), row];
    begins_not(alloc, row, ServeFault::Wire) && ends_by(alloc, &rows, ServeFault::Wire)
}

#[test]
fn a_wrong_prologue_is_fatal(rt: HostRuntime) {
    assert!(rt;
        refuses_prologue(rt.alloc(), *b"HX")
            && refuses_prologue(rt.alloc(), *b"HT")
            && refuses_prologue(rt.alloc(), *b"hS")
            && refuses_prologue(rt.alloc(), *b"SH")
            && refuses_prologue(rt.alloc(), [0, 0])
    );
}

/// Whether no session begins by a first message of this type.
fn begins_not_by(alloc: Global, kind: u8) -> bool {
    begins_not(alloc, fails(plain(kind), 3), ServeFault::Fatal(3))
}

#[test]
fn another_first_message_is_fatal(rt: HostRuntime) {
    for kind in 1..=255u8 {
        assert!(rt; begins_not_by(rt.alloc(), kind));
    }
}

/// Whether no session begins by this sub-address.
fn begins_not_at(alloc: Global, sub_address: &[u8]) -> bool {
    let it = line(INITIALIZE, 0, 0x0100_5858, sub_address);
    begins_not(alloc, fails(it, 3), ServeFault::Fatal(3))
}

/// Whether no session begins by this byte, at any place of a sub-address.
fn begins_not_with(alloc: Global, byte: u8) -> bool {
    begins_not_at(alloc, &[byte])
        && begins_not_at(alloc, &[byte, b'h', b'i', b's', b'l', b'i', b'p', b'0'])
        && begins_not_at(alloc, &[b'h', b'i', b's', byte, b'l', b'i', b'p', b'0'])
        && begins_not_at(alloc, &[b'h', b'i', b's', b'l', b'i', b'p', b'0', byte])
}

#[test]
fn a_sub_address_that_is_none_is_fatal(rt: HostRuntime) -> Result<(), Fail> {
    let long = Vec::from_elem(rt.alloc(), b'h', 257)?;
    assert!(rt;
        begins_not_at(rt.alloc(), &long)
            && begins_not_with(rt.alloc(), 128)
            && begins_not_with(rt.alloc(), 233)
            && begins_not_with(rt.alloc(), 255)
    );
    Ok(())
}

/// Whether a session is ended by such a message, which initializes once more.
fn begins_once(alloc: Global, kind: u8, parameter: u32, payload: &[u8]) -> bool {
    let rows = [
        begins(),
        bids(b"*CLS"),
        fails(line(kind, 0, parameter, payload), 3),
    ];
    ends_by(alloc, &rows, ServeFault::Fatal(3))
}

#[test]
fn a_second_initialization_is_fatal(rt: HostRuntime) {
    assert!(rt;
        begins_once(rt.alloc(), INITIALIZE, 0x0100_5858, SUB_ADDRESS)
            && begins_once(rt.alloc(), INITIALIZE, 0, b"")
            && begins_once(rt.alloc(), ASYNC_INITIALIZE, 1, b"")
    );
}

/// Whether a session without its second connection is ended by a message of this type.
fn needs_second(alloc: Global, kind: u8) -> bool {
    let rows = [begins(), fails(line(kind, 0, 5, b"*IDN?"), 2)];
    let stream = Stream {
        channel: Channel::Synchronous,
        attaches: false,
        joins: BEGUN,
        rows: &rows,
        end: Err(ServeFault::Fatal(2)),
    };
    holds(alloc, stream)
}

#[test]
fn a_program_before_the_second_connection_is_fatal(rt: HostRuntime) {
    assert!(rt;
        needs_second(rt.alloc(), DATA)
            && needs_second(rt.alloc(), DATA_END)
            && needs_second(rt.alloc(), TRIGGER)
    );
}

/// Whether the channel reports a message of this type as an error of this code, and serves the next.
fn passes_over(alloc: Global, kind: u8, code: u8) -> bool {
    let rows = [begins(), errs(kind, code), asks(b"*IDN?", IDENTITY)];
    holds_within(alloc, &rows)
}

#[test]
fn types_that_are_not_served_are_errors(rt: HostRuntime) {
    for kind in [
        1u8, 4, 5, 9, 10, 11, 13, 14, 15, 16, 18, 19, 20, 21, 22, 23, 24, 25,
    ] {
        assert!(rt; passes_over(rt.alloc(), kind, 1));
    }
    for kind in 26..=127u8 {
        assert!(rt; passes_over(rt.alloc(), kind, 1));
    }
    for kind in 128..=255u8 {
        assert!(rt; passes_over(rt.alloc(), kind, 3));
    }
}

/// Whether a payload that never ends is refused once, in a session and before.
fn skips_without_end(alloc: Global) -> bool {
    let endless = claims(
        DATA,
        u64::MAX,
        b"*IDN?;HS\x07\x00\x00\x00\x00\x07HSHSHSHSHSHSHSHS",
    );
    let row = refused(endless, line(ERROR, 4, 0, b""));
    let rows = [begins(), row];
    let alone = [row];
    holds_within(alloc, &rows) && holds(alloc, first(usize::MAX, &alone, Ok(())))
}

#[test]
fn a_payload_without_end_is_skipped(rt: HostRuntime) {
    assert!(rt; skips_without_end(rt.alloc()));
}

/// Whether the channel refuses a message of this type with a payload one byte too long, and serves the next.
fn skips(alloc: Global, kind: u8, payload: &[u8], next: Row<'_>) -> bool {
    let rows = [
        begins(),
        refused(claims(kind, 65_537, payload), line(ERROR, 4, 0, b"")),
        next,
        asks(b"SYST:ERR?", b"0,\"No error\"\n"),
    ];
    holds_within(alloc, &rows)
}

/// Whether no session begins by a sub-address that is too long, and one by the next.
fn skips_sub_address(alloc: Global, payload: &[u8]) -> bool {
    let rows = [
        refused(claims(INITIALIZE, 65_537, payload), line(ERROR, 4, 0, b"")),
        begins(),
    ];
    holds(alloc, first(65_576, &rows, Ok(())))
}

#[test]
fn a_payload_too_long_is_skipped(rt: HostRuntime) -> Result<(), Fail> {
    let text = Vec::from_elem(rt.alloc(), b';', 65_537)?;
    assert!(rt;
        skips(rt.alloc(), DATA, &text, bids(b"*IDN?"))
            && skips(rt.alloc(), DATA_END, &text, asks(b"*IDN?", IDENTITY))
            && skips(rt.alloc(), TRIGGER, &text, asks(b"*IDN?", IDENTITY))
            && skips(rt.alloc(), INITIALIZE, &text, asks(b"*IDN?", IDENTITY))
            && skips(rt.alloc(), 200, &text, asks(b"*IDN?", IDENTITY))
            && skips_sub_address(rt.alloc(), &text)
    );
    Ok(())
}

/// Whether a program message that is too long is dropped whole, with its error.
fn overruns(alloc: Global, text: &[u8]) -> bool {
    let rows = [
        begins(),
        part(text),
        bids(b";*IDN?"),
        asks(b"SYST:ERR?", b"-363,\"Input buffer overrun\"\n"),
    ];
    holds_within(alloc, &rows)
}

#[test]
fn a_program_message_too_long_is_dropped(rt: HostRuntime) -> Result<(), Fail> {
    let text = Vec::from_elem(rt.alloc(), b';', 65_536)?;
    assert!(rt; overruns(rt.alloc(), &text));
    Ok(())
}

/// Whether a program message of these parts and more is dropped whole, with one error, and the next is served.
fn overruns_by_far(alloc: Global, text: &[u8]) -> bool {
    let rows = [
        begins(),
        part(text),
        part(text),
        part(text),
        bids(b";*IDN?"),
        asks(
            b"SYST:ERR?;ERR?",
            b"-363,\"Input buffer overrun\";0,\"No error\"\n",
        ),
        asks(b"*IDN?", IDENTITY),
    ];
    holds_uncut(alloc, first(BEGUN, &rows, Ok(())))
}

#[test]
fn a_program_message_of_many_parts_is_dropped_once(rt: HostRuntime) -> Result<(), Fail> {
    let text = Vec::from_elem(rt.alloc(), b';', 65_536)?;
    assert!(rt; overruns_by_far(rt.alloc(), &text));
    Ok(())
}

/// Whether after these blanks a query is answered, and a query with a byte more is dropped, at any place of that byte.
fn ends_at_the_limit(alloc: Global, blanks: &[u8]) -> bool {
    let overrun: &[u8] = b"-363,\"Input buffer overrun\"\n";
    let rows = [
        begins(),
        part(blanks),
        asks(b"*IDN?\n", IDENTITY),
        part(blanks),
        bids(b" *IDN?\n"),
        asks(b"SYST:ERR?", overrun),
        part(blanks),
        bids(b"*IDN?\n\n"),
        asks(b"SYST:ERR?", overrun),
        part(blanks),
        part(b"*IDN?\n"),
        bids(b"*CLS"),
        asks(b"SYST:ERR?", overrun),
    ];
    holds_uncut(alloc, first(BEGUN, &rows, Ok(())))
}

#[test]
fn a_program_message_may_end_at_the_limit(rt: HostRuntime) -> Result<(), Fail> {
    let blanks = Vec::from_elem(rt.alloc(), b' ', 65_531)?;
    assert!(rt; ends_at_the_limit(rt.alloc(), &blanks));
    Ok(())
}

/// Whether empty payloads mean nothing.
fn takes_nothing(alloc: Global) -> bool {
    let welcome = says(
        line(INITIALIZE, 0, 0x0100_5858, b""),
        line(INITIALIZE_RESPONSE, 0, 0x0100_0001, b""),
    );
    let rows = [
        welcome,
        part(b""),
        bids(b""),
        bids(b"\n"),
        part(b""),
        part(b"*IDN"),
        part(b""),
        asks(b"?", IDENTITY),
        asks(b"SYST:ERR?", b"0,\"No error\"\n"),
    ];
    holds(alloc, first(16, &rows, Ok(())))
}

#[test]
fn an_empty_payload_is_nothing(rt: HostRuntime) {
    assert!(rt; takes_nothing(rt.alloc()));
}

/// Whether the end of a device clear that no client began is acknowledged, and drops the part that has come of a
/// program message.
fn clears(alloc: Global) -> bool {
    let rows = [
        begins(),
        part(b"FOO;"),
        says(
            plain(DEVICE_CLEAR_COMPLETE),
            plain(DEVICE_CLEAR_ACKNOWLEDGE),
        ),
        says(
            line(DEVICE_CLEAR_COMPLETE, 255, u32::MAX, b"odd"),
            plain(DEVICE_CLEAR_ACKNOWLEDGE),
        ),
        asks(b"*IDN?", IDENTITY),
        asks(b"SYST:ERR?", b"0,\"No error\"\n"),
    ];
    holds_within(alloc, &rows)
}

#[test]
fn a_clear_that_nobody_began_is_acknowledged(rt: HostRuntime) {
    assert!(rt; clears(rt.alloc()));
}

/// Whether a trigger within a program message is an error and drops the part that has come, and one with a payload is
/// one.
fn triggers(alloc: Global) -> bool {
    let rows = [
        begins(),
        part(b"*ID"),
        quiet(line(TRIGGER, 1, 5, b"")),
        bids(b"N?"),
        quiet(line(TRIGGER, 1, 5, b"odd")),
        asks(
            b"SYST:ERR:ALL?",
            b"-105,\"GET not allowed\",-113,\"Undefined header\",-211,\"Trigger ignored\"\n",
        ),
    ];
    holds_within(alloc, &rows)
}

#[test]
fn a_trigger_between_parts_is_an_error(rt: HostRuntime) {
    assert!(rt; triggers(rt.alloc()));
}

/// Whether a client's FatalError ends its session, and its Error doesn't.
fn leaves(alloc: Global) -> bool {
    let rows = [
        begins(),
        quiet(line(ERROR, 4, 0, b"some text")),
        asks(b"*IDN?", IDENTITY),
        quiet(line(FATAL_ERROR, 1, 0, b"some text")),
        bids(b"*IDN?"),
        quiet(malformed(*b"XX", DATA)),
    ];
    holds_within(alloc, &rows)
}

#[test]
fn a_fatal_error_of_a_client_ends_its_session(rt: HostRuntime) {
    assert!(rt; leaves(rt.alloc()));
}

/// Whether it is seen that something else is said, that a session leaves at another place, and that the end is another.
fn sees_differences(alloc: Global) -> bool {
    let rows = [begins(), asks(b"*IDN?", IDENTITY)];
    let others = [begins(), asks(b"*IDN?", b"OPENBENCH,SWM8,0,1.1\n")];
    holds_within(alloc, &rows)
        && !holds_within(alloc, &others)
        && !holds(alloc, first(BEGUN + 1, &rows, Ok(())))
        && !ends_by(alloc, &rows, ServeFault::Fatal(3))
}

#[test]
fn differences_are_seen(rt: HostRuntime) {
    assert!(rt; sees_differences(rt.alloc()));
}
