//! Readings as meters write them, and a request to a meter for one.

use crate::script::{Deaf, Record, Script};
use std::alloc::Global;
use std::sync::Wait;
use std::test::Fail;
use sw_base::Reading;
use sw_drivers::{ScpiMeter, reading_of};
use sw_kinds::Source;

/// Whether the answer is `nanovolts` nanovolts.
fn is_volts(answer: &[u8], nanovolts: i64) -> bool {
    match reading_of(answer) {
        Ok(Reading::Volts(volts)) => volts == nanovolts,
        _ => false,
    }
}

fn is_overload(answer: &[u8]) -> bool {
    match reading_of(answer) {
        Ok(Reading::Overload) => true,
        _ => false,
    }
}

/// The forms of bench meters: NR1, NR2, NR3; a list gives its first number.
#[test]
fn readings_are_in_nanovolts(rt: HostRuntime) -> Result<(), Fail> {
    for (answer, nanovolts) in [
        (b"1".as_slice(), 1_000_000_000),
        (b"-2.5E-3".as_slice(), -2_500_000),
        (b"+1.00000000E+00".as_slice(), 1_000_000_000),
        (b"+9.90000000E-09,+1.0".as_slice(), 10),
        (b"-0.0000000005".as_slice(), -1),
        (
            b"9223372036.854775807".as_slice(),
            9_223_372_036_854_775_807,
        ),
        (b"+9.91E+00".as_slice(), 9_910_000_000),
    ] {
        assert!(rt; is_volts(answer, nanovolts));
    }
    Ok(())
}

#[test]
fn overloads_and_no_numbers(rt: HostRuntime) -> Result<(), Fail> {
    for answer in [
        b"+9.9E+37".as_slice(),
        b"-9.90000000E+37".as_slice(),
        b"9223372036.854775808".as_slice(),
        b"9.92E+37".as_slice(),
        b"9.91E+36".as_slice(),
        b"9.91E+137".as_slice(),
    ] {
        assert!(rt; is_overload(answer));
    }
    for answer in [
        b"9.91E37".as_slice(),
        b"+9.91000000E+37".as_slice(),
        b"9.91E+037".as_slice(),
        b"".as_slice(),
        b"OVLD".as_slice(),
    ] {
        assert!(rt; reading_of(answer).is_err());
    }
    Ok(())
}

/// Two readings, of which the second comes too late: it is not the third.
fn measures<W: Wait + Copy + Drop>(rt: W, alloc: Global) -> Option<bool> {
    let record = Record::new(rt, alloc).ok()?;
    let mut setup = Vec::new(alloc);
    let mut line = Vec::new(alloc);
    line.extend_from_slice(b"*RST\n").ok()?;
    setup.push(line).ok()?;
    let mut query = Vec::new(alloc);
    query.extend_from_slice(b"READ?\n").ok()?;
    let answers = &[
        b"".as_slice(),
        b"1\n".as_slice(),
        b"2".as_slice(),
        b"".as_slice(),
        b"3\r\n".as_slice(),
    ];
    let script = Script::new(alloc, record.same().ok()?, answers).ok()?;
    let mut meter = ScpiMeter::new(script, 4, setup, query, Deaf).ok()?;
    let begun = record.took(b"!*RST\n");
    let first = meter.sample();
    let second = meter.sample().is_err() && record.took(b"READ?\nREAD?\n.");
    let third = meter.sample();
    let is_read = first == Ok(Reading::Volts(1_000_000_000))
        && third == Ok(Reading::Volts(3_000_000_000));
    Some(begun && second && is_read && record.took(b"!*RST\nREAD?\n"))
}

#[test]
fn a_late_reading_is_not_the_next(rt: HostRuntime) -> Result<(), Fail> {
    let is_so = measures(rt, rt.alloc());
    assert_eq!(rt; is_so, Some(true));
    Ok(())
}
