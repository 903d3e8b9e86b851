//! Numbers and readings: the worked examples, and values computed by another program with exact fractions.

use std::process::Abort;
use sw_base::{
    Nrf, Reading, ScpiError, Unit, limits_agree, one_reading, one_text, print_micros, print_number,
    print_reading, print_signed, split_once,
};

/// Texts with the nearest whole number behind `=`, or behind `!` the number of the error, over all of i64.
const TABLE: &[u8] = b"\
    2.5=3|-2.5=-3|2.49999999999999999999=2|-0.4=0|-0.5=-1|0.5=1|.5=1|5.=5|+7=7|-0=0|0E32000=0|-.5E0=-1|\
    1E+3=1000|1e-1=0|5E-1=1|49E-2=0|4.9E0=5|12345E-2=123|12350E-2=124|-12350E-2=-124|0.0005E3=1|\
    0.00049999E3=0|00000000000000000000000000012=12|1E18=1000000000000000000|\
    9223372036854775807=9223372036854775807|9223372036854775807.4=9223372036854775807|\
    9223372036854775807.5!-222|9223372036854775808!-222|-9223372036854775808=-9223372036854775808|\
    -9223372036854775808.4=-9223372036854775808|-9223372036854775808.5!-222|-9223372036854775809!-222|\
    92233720368547758.07E2=9223372036854775807|922337203685477580749E-2=9223372036854775807|\
    922337203685477580750E-2!-222|18446744073709551615!-222|18446744073709551616!-222|1E19!-222|1E32000!-222|\
    1E-32000=0|0E-32000=0|0.000000000000000000000000000001E30=1|\
    123456789012345678901234567890E-15=123456789012346|5000000000000000000000000000000E-31=1|\
    4999999999999999999999999999999E-31=0|1E32001!-123|1E-32001!-123|0E32001!-123|1E00032000!-222|\
    1E99999!-123|1E99999#!-121|.!-121|+!-121|-!-121|-.!-121|+.E5!-121|E5!-121|--1!-121|+-1!-121|1E+!-121|\
    1E-!-121|1E+A!-121|1.2.3!-121|1E5.5!-121|1_!-121|1S2!-121|1\"a!-121|1E=1|1E,5=1|1S=1|1MS,2=1|5;7=5|\
    1.5E1E=15|1E5#!-121|1 E +1=10|1 e-1=0|1E +2=100|1 E=1|1 E +=1|1 S=1|1 #=1|2 E2 S=200|3E 0=3|!-121|";

/// The whole number, or the number of the error; and whether it is a number.
fn answer(text: &[u8]) -> (i64, bool) {
    match whole(text, i64::MIN, i64::MAX) {
        Ok(value) => (value, true),
        Err(error) => (i64::from(error.code()), false),
    }
}

/// Whether reading an entry's text gives the value behind it.
fn is_read(entry: &[u8]) -> bool {
    let (value, read) = answer(text_of(entry));
    match wanted(entry, read) {
        Some(text) => prints_signed(value, text),
        None => false,
    }
}

/// The first entry of a row of entries, and those behind it.
fn first_entry(row: &[u8]) -> Option<(&[u8], &[u8])> {
    split_once(row, b'|')
}

#[test]
fn numbers_of_the_table(rt: HostRuntime) {
    let mut rest = TABLE;
    for _ in 0..84 {
        let Some((entry, more)) = first_entry(rest) else {
            break;
        };
        assert!(rt; is_read(entry));
        rest = more;
    }
    assert!(rt; rest.is_empty());
}

fn text_of(entry: &[u8]) -> &[u8] {
    match split_once(entry, b'=').or(split_once(entry, b'!')) {
        Some((text, _)) => text,
        None => entry,
    }
}

fn wanted(entry: &[u8], read: bool) -> Option<&[u8]> {
    match split_once(entry, if read { b'=' } else { b'!' }) {
        Some((_, want)) => Some(want),
        None => None,
    }
}

fn whole(text: &[u8], low: i64, high: i64) -> Result<i64, ScpiError> {
    Nrf::read(text)?.0.whole(low, high)
}

fn micros(text: &[u8], unit: Unit) -> Result<u64, ScpiError> {
    Nrf::read(text)?.0.micros(unit)
}

fn is_whole(text: &[u8], low: i64, high: i64, wanted: Result<i64, ScpiError>) -> bool {
    whole(text, low, high) == wanted
}

fn is_time(text: &[u8], unit: Unit, wanted: Result<u64, ScpiError>) -> bool {
    micros(text, unit) == wanted
}

const OUT_OF_RANGE: ScpiError = ScpiError::DataOutOfRange;

#[test]
fn ranges(rt: HostRuntime) {
    assert!(rt; is_whole(b"2.5", 0, 255, Ok(3)));
    assert!(rt; is_whole(b"-0.4", 0, 255, Ok(0)));
    assert!(rt; is_whole(b"-0.5", 0, 255, Err(OUT_OF_RANGE)));
    assert!(rt; is_whole(b"255.49", 0, 255, Ok(255)));
    assert!(rt; is_whole(b"255.5", 0, 255, Err(OUT_OF_RANGE)));
    assert!(rt; is_whole(b"100000", 1, 100_000, Ok(100_000)));
    assert!(rt; is_whole(b"100001", 1, 100_000, Err(OUT_OF_RANGE)));
    assert!(rt; is_whole(b"0", 1, 100_000, Err(OUT_OF_RANGE)));
    assert!(rt; is_whole(b"1E99999", 1, 100_000, Err(ScpiError::ExponentTooLarge)));
}

#[test]
fn times(rt: HostRuntime) {
    assert!(rt; is_time(b"1.0000005", Unit::S, Ok(1_000_001)));
    assert!(rt; is_time(b"500 MS", Unit::Ms, Ok(500_000)));
    assert!(rt; is_time(b"2.5US", Unit::Us, Ok(3)));
    assert!(rt; is_time(b"3600", Unit::S, Ok(3_600_000_000)));
    assert!(rt; is_time(b"-4E-7", Unit::S, Ok(0)));
    assert!(rt; is_time(b"-5E-7", Unit::S, Err(OUT_OF_RANGE)));
    assert!(rt; is_time(b"18446744073709.5516154", Unit::S, Ok(u64::MAX)));
    assert!(rt; is_time(b"18446744073709.5516155", Unit::S, Err(OUT_OF_RANGE)));
    assert!(rt; is_time(b"1E32000", Unit::S, Err(OUT_OF_RANGE)));
}

#[test]
fn digits_that_count(rt: HostRuntime) {
    let nines = [b'9'; 256];
    assert!(rt; is_whole(&nines[..255], 0, 9, Err(OUT_OF_RANGE)));
    assert!(rt; is_whole(&nines, 0, 9, Err(ScpiError::TooManyDigits)));
    let mut long = [b'0'; 300];
    assert!(rt; is_whole(&long, 0, 9, Ok(0)));
    long[299] = b'7';
    assert!(rt; is_whole(&long, 0, 9, Ok(7)));
    long[1] = b'.';
    assert!(rt; is_whole(&long, 0, 9, Ok(0)));
    long[44] = b'1';
    assert!(rt; is_whole(&long, 0, 9, Err(ScpiError::TooManyDigits)));
}

/// How many bytes of the text follow its number.
fn rest_of(text: &[u8]) -> Option<usize> {
    match Nrf::read(text) {
        Ok((_, rest)) => Some(rest.len()),
        Err(_) => None,
    }
}

#[test]
fn rests(rt: HostRuntime) {
    assert_eq!(rt; rest_of(b"1 E 2 S"), Some(2));
    assert_eq!(rt; rest_of(b"500 MS"), Some(3));
    assert_eq!(rt; rest_of(b"1E"), Some(1));
    one_reading();
    one_text();
    limits_agree();
}

fn shows(rt: &impl Abort, reading: Reading, want: &[u8]) {
    let mut buffer = [b'x'; 32];
    let length = print_reading(reading, &mut buffer);
    assert_eq!(rt; &buffer[..length], want);
}

#[test]
fn readings(rt: HostRuntime) {
    shows(&rt, Reading::Volts(-500_000_000), b"-0.500000000");
    shows(&rt, Reading::Volts(i64::MIN), b"-9223372036.854775808");
    shows(&rt, Reading::Volts(i64::MAX), b"9223372036.854775807");
    shows(&rt, Reading::Volts(1_000_000_001), b"1.000000001");
    shows(&rt, Reading::Volts(0), b"0.000000000");
    shows(&rt, Reading::Volts(-1), b"-0.000000001");
    shows(&rt, Reading::Overload, b"9.9E+37");
}

fn prints_number(value: u64, wanted: &[u8]) -> bool {
    let mut buffer = [b'x'; 32];
    let length = print_number(value, &mut buffer);
    &buffer[..length] == wanted
}

fn prints_signed(value: i64, wanted: &[u8]) -> bool {
    let mut buffer = [b'x'; 32];
    let length = print_signed(value, &mut buffer);
    &buffer[..length] == wanted
}

fn prints_micros(value: u64, wanted: &[u8]) -> bool {
    let mut buffer = [b'x'; 32];
    let length = print_micros(value, &mut buffer);
    &buffer[..length] == wanted
}

#[test]
fn printed_numbers(rt: HostRuntime) {
    assert!(rt; prints_number(u64::MAX, b"18446744073709551615"));
    assert!(rt; prints_signed(i64::MIN, b"-9223372036854775808"));
    assert!(rt; prints_micros(500_000, b"0.500000"));
    assert!(rt; prints_micros(1_000_001, b"1.000001"));
}
