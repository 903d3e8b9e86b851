//! Scan code and its listing: compiled examples as text, and listings of both versions that are read or refused.

use crate::positions::one_each;
use std::alloc::Global;
use std::process::Abort;
use std::test::Fail;
use sw_base::{ArmLayer, Chan, LayerName, Source};
use sw_channel::{Position, read_positions};
use sw_code::{
    Code, ListError, ListFault, Step, compile, listing_version, print_listing, read_listing,
};
use sw_trigger::Settings;

/// Three passes round a list of two channels.
const EXAMPLE: &[u8] = b"scan 2
meter 4
set 0 1
set 1 1
set 2 1
set 3 1
close 1!1
read
open 1!1
close 1!2
read
open 1!2
loop 3 4
close 1!1
read
open 1!1
loop 2 3
loop 1 2
loop 0 1
halt
";

fn refused(alloc: Global, listing: &[u8]) -> Option<ListError> {
    match read_listing(alloc, listing) {
        Ok(code) => {
            drop(code);
            None
        }
        Err(error) => Some(error),
    }
}

fn fault(line: u32, kind: ListFault) -> Option<ListError> {
    Some(ListError { line, kind })
}

/// Three passes round channels 1!1 and 1!2.
fn set_example(alloc: Global, settings: &mut Settings) -> Result<(), Fail> {
    settings.set_list(one_each(alloc, &[Chan::new(1, 1), Chan::new(1, 2)])?)?;
    settings.set_count(LayerName::Trigger, 3)?;
    Ok(())
}

/// A scan with a wait of each layer, that of ARM layer 3 by its timer, and a pause of ARM layer 2.
fn set_waits(alloc: Global, settings: &mut Settings) -> Result<(), Fail> {
    settings.set_list(one_each(alloc, &[Chan::new(16, 99), Chan::new(1, 1)])?)?;
    settings.set_source(LayerName::Arm(ArmLayer::First), Source::Bus);
    settings.set_source(LayerName::Arm(ArmLayer::Second), Source::Hold);
    settings.set_delay(LayerName::Arm(ArmLayer::Second), 3_600_000_000)?;
    settings.set_source(LayerName::Arm(ArmLayer::Third), Source::Timer);
    settings.set_timer(LayerName::Arm(ArmLayer::Third), 250_000)?;
    settings.set_source(LayerName::Trigger, Source::External);
    Ok(())
}

/// A scan of the positions that the text spells, by the reset settings.
fn set_positions(alloc: Global, settings: &mut Settings, text: &[u8]) -> Result<(), Fail> {
    settings.set_list(read_positions(alloc, text)?)?;
    Ok(())
}

/// Whether the scan of these settings is printed so.
fn prints(alloc: Global, settings: &Settings, wanted: &[u8]) -> Result<bool, Fail> {
    if settings.list().is_empty() {
        return Ok(false);
    }
    let code = compile(alloc, settings)?;
    let text = print_listing(alloc, &code)?;
    drop(code);
    Ok(text.as_slice() == wanted)
}

fn print_example(rt: &impl Abort, alloc: Global, settings: &mut Settings) -> Result<(), Fail> {
    set_example(alloc, settings)?;
    assert!(rt; prints(alloc, settings, EXAMPLE)?);
    Ok(())
}

#[test]
fn prints_a_compiled_scan(rt: HostRuntime) -> Result<(), Fail> {
    let mut settings = Settings::new(rt.alloc());
    let result = print_example(&rt, rt.alloc(), &mut settings);
    drop(settings);
    result
}

/// A listing with waits, a timer and a pause.
const WAITS: &[u8] = b"scan 2
meter 4
set 0 1
wait arm1
set 1 1
wait arm2
pause 3600000000
set 2 1
timer arm3 250000
wait trig
close 16!99
read
open 16!99
loop 2 6
loop 1 3
loop 0 1
halt
";

fn print_waits(rt: &impl Abort, alloc: Global, settings: &mut Settings) -> Result<(), Fail> {
    set_waits(alloc, settings)?;
    assert!(rt; prints(alloc, settings, WAITS)?);
    Ok(())
}

#[test]
fn prints_waits_timers_and_pauses(rt: HostRuntime) -> Result<(), Fail> {
    let mut settings = Settings::new(rt.alloc());
    let result = print_waits(&rt, rt.alloc(), &mut settings);
    drop(settings);
    result
}

/// Whether the step of that number is this.
fn has_step(code: &Code, n: usize, wanted: Step) -> bool {
    match code.steps().get(n) {
        Some(step) => *step == wanted,
        None => false,
    }
}

/// What version 1 lists of three passes round a list of two channels.
const OLD_EXAMPLE: &[u8] = b"scan 1
meter 4
set 0 1
set 1 1
set 2 1
close 1!1
read
open 1!1
close 1!2
read
open 1!2
loop 2 3
close 1!1
read
open 1!1
loop 1 2
loop 0 1
halt
";

fn look(rt: &impl Abort, code: &Code) {
    assert_eq!(rt; code.meter(), 4);
    assert_eq!(rt; code.steps().len(), 16);
    assert!(rt; has_step(code, 2, Step::Set(2, 1)));
    assert!(rt; has_step(code, 7, Step::Read));
    assert!(rt; has_step(code, 8, Step::Open(Position::new(Chan::new(1, 2)))));
    assert!(rt; has_step(code, 9, Step::Loop(2, 3)));
}

#[test]
fn reads_each_step(rt: HostRuntime) -> Result<(), Fail> {
    let code = read_listing(rt.alloc(), OLD_EXAMPLE)?;
    look(&rt, &code);
    drop(code);
    Ok(())
}

/// Whether the listing is read, and what is read is printed so.
fn is_printed_as(alloc: Global, listing: &[u8], wanted: &[u8]) -> Result<bool, Fail> {
    let code = read_listing(alloc, listing)?;
    let text = print_listing(alloc, &code)?;
    drop(code);
    Ok(text.as_slice() == wanted)
}

#[test]
fn both_versions_give_one_code(rt: HostRuntime) -> Result<(), Fail> {
    let (_, steps) = OLD_EXAMPLE.split_at(6);
    let mut listing = b"scan 2".as_slice().to_vec(rt.alloc())?;
    listing.extend_from_slice(steps)?;
    assert!(rt; is_printed_as(rt.alloc(), OLD_EXAMPLE, listing.as_slice())?);
    assert!(rt; is_printed_as(rt.alloc(), listing.as_slice(), listing.as_slice())?);
    assert!(rt; is_printed_as(rt.alloc(), EXAMPLE, EXAMPLE)?);
    assert!(rt; is_printed_as(rt.alloc(), WAITS, WAITS)?);
    Ok(())
}

/// Whether the listing is read.
fn reads(alloc: Global, listing: &[u8]) -> bool {
    refused(alloc, listing) == None
}

/// Whether the listing is refused in that line for this.
fn refuses(alloc: Global, listing: &[u8], line: u32, kind: ListFault) -> bool {
    refused(alloc, listing) == fault(line, kind)
}

/// Whether each of the listings is refused in that line for this.
fn refuses_each(alloc: Global, listings: &[&[u8]], line: u32, kind: ListFault) -> bool {
    listings
        .iter()
        .all(|listing| refuses(alloc, listing, line, kind))
}

#[test]
fn zeros_in_front(rt: HostRuntime) {
    assert!(rt;
        reads(
            rt.alloc(),
            b"scan 1\nmeter 08\npause 00000000000000000001\n"
        )
    );
    assert!(rt;
        refuses(
            rt.alloc(),
            b"scan 1\nmeter 4\npause 000000000000000000001\n",
            3,
            ListFault::BadNumber
        )
    );
    assert!(rt;
        refuses(
            rt.alloc(),
            b"scan 1\nmeter 4\npause 99999999999999999999\n",
            3,
            ListFault::BadNumber
        )
    );
}

#[test]
fn lines_that_are_missing(rt: HostRuntime) {
    assert!(rt; refuses(rt.alloc(), b"", 1, ListFault::BadStep));
    assert!(rt; refuses(rt.alloc(), b"scan 1\n", 2, ListFault::BadStep));
    assert!(rt; refuses(rt.alloc(), b"scan 1\nmeter 4", 2, ListFault::BadStep));
    assert!(rt; reads(rt.alloc(), b"scan 1\nmeter 4\n"));
    assert!(rt; refuses(rt.alloc(), b"scan 1\nmeter 4\nhalt", 3, ListFault::BadStep));
    assert!(rt;
        refuses(
            rt.alloc(),
            b"scan 1\nmeter 4\n\nhalt\n",
            3,
            ListFault::BadStep
        )
    );
}

#[test]
fn first_lines_that_tell_no_version(rt: HostRuntime) {
    let listings: [&[u8]; 8] = [
        b"scan 0\nmeter 4\nhalt\n",
        b"scan 99\nmeter 4\nhalt\n",
        b"scan 02\nmeter 4\nhalt\n",
        b"scan 1 \nmeter 4\nhalt\n",
        b"scan 2 \nmeter 4\nhalt\n",
        b"scan 12\nmeter 4\nhalt\n",
        b"scan\nmeter 4\nhalt\n",
        b"\nscan 2\nmeter 4\nhalt\n",
    ];
    assert!(rt; refuses_each(rt.alloc(), &listings, 1, ListFault::BadStep));
}

/// The number of the version that a text is written in.
fn version_number(text: &[u8]) -> Option<u8> {
    Some(listing_version(text)?.number)
}

#[test]
fn versions_of_texts(rt: HostRuntime) {
    assert_eq!(rt; version_number(EXAMPLE), Some(2));
    assert_eq!(rt; version_number(OLD_EXAMPLE), Some(1));
    assert_eq!(rt; version_number(b"scan 1\nmeter x"), Some(1));
    assert_eq!(rt; version_number(b"scan 2"), None);
    assert_eq!(rt; version_number(b"scan 02\n"), None);
    assert_eq!(rt; version_number(b"scan 99\n"), None);
    assert_eq!(rt; version_number(b""), None);
}

#[test]
fn version_1_keeps_its_words_and_ranges(rt: HostRuntime) {
    let words: [&[u8]; 5] = [
        b"scan 1\nmeter 4\nwait arm3\n",
        b"scan 1\nmeter 4\nwait arm0\n",
        b"scan 1\nmeter 4\ntimer arm1 1\n",
        b"scan 1\nmeter 4\ntimer trig 1\n",
        b"scan 1\nmeter 4\ntimer arm3 0\n",
    ];
    let numbers: [&[u8]; 5] = [
        b"scan 1\nmeter 4\nclose 9!1\n",
        b"scan 1\nmeter 4\nopen 1!1&9!1\n",
        b"scan 1\nmeter 4\nset 3 1\n",
        b"scan 1\nmeter 4\nloop 3 0\n",
        b"scan 1\nmeter 4\nclose 16!1\n",
    ];
    let whole =
        b"scan 1\nmeter 8\nset 2 100000\nwait arm1\nwait arm2\nwait trig\nclose 8!99&1!1\nread\n\
open 8!99&1!1\nloop 2 1\nhalt\n";
    assert!(rt; reads(rt.alloc(), whole));
    assert!(rt;
        refuses(
            rt.alloc(),
            b"scan 1\nmeter 9\nhalt\n",
            2,
            ListFault::BadNumber
        )
    );
    assert!(rt; refuses_each(rt.alloc(), &words, 3, ListFault::BadStep));
    assert!(rt; refuses_each(rt.alloc(), &numbers, 3, ListFault::BadNumber));
}

#[test]
fn version_2_has_more_words_and_wider_ranges(rt: HostRuntime) {
    let words: [&[u8]; 7] = [
        b"scan 2\nmeter 4\nwait arm4\n",
        b"scan 2\nmeter 4\nwait arm0\n",
        b"scan 2\nmeter 4\nwait arm03\n",
        b"scan 2\nmeter 4\ntimer arm4 1\n",
        b"scan 2\nmeter 4\ntimer arm1\n",
        b"scan 2\nmeter 4\ntimer 1\n",
        b"scan 2\nmeter 4\ntimer arm1 1 1\n",
    ];
    let numbers: [&[u8]; 6] = [
        b"scan 2\nmeter 4\ntimer arm1 0\n",
        b"scan 2\nmeter 4\ntimer arm1 3600000001\n",
        b"scan 2\nmeter 4\ntimer trig arm1\n",
        b"scan 2\nmeter 4\nclose 17!1\n",
        b"scan 2\nmeter 4\nset 4 1\n",
        b"scan 2\nmeter 4\nloop 4 0\n",
    ];
    let whole = b"scan 2\nmeter 16\nset 3 100000\nwait arm3\ntimer arm3 3600000000\ntimer trig 1\n\
close 16!99&9!1\nread\nopen 9!1&16!99\nloop 3 1\nhalt\n";
    assert!(rt; reads(rt.alloc(), whole));
    assert!(rt;
        refuses(
            rt.alloc(),
            b"scan 2\nmeter 17\nhalt\n",
            2,
            ListFault::BadNumber
        )
    );
    assert!(rt; refuses_each(rt.alloc(), &words, 3, ListFault::BadStep));
    assert!(rt; refuses_each(rt.alloc(), &numbers, 3, ListFault::BadNumber));
}

#[test]
fn steps_that_are_none(rt: HostRuntime) {
    let words: [&[u8]; 2] = [b"scan 1\nmeter 4\nread 1\n", b"scan 1\nmeter 4\nset 0 1 \n"];
    let numbers: [&[u8]; 4] = [
        b"scan 1\nmeter 4\npause 0\n",
        b"scan 1\nmeter 4\nclose 1!1!1\n",
        b"scan 1\nmeter 4\nopen 1!100\n",
        b"scan 1\nmeter 4\nloop 0 8192\n",
    ];
    let unknown = b"scan 1\nmeter 4\nread\nclos 1!1\n";
    let misspelled = b"scan 1\nmeter 4\nset 0 1\nset 1 1\nset 2 1\ncloss 1!1\nhalt\n";
    assert!(rt; refuses(rt.alloc(), unknown, 4, ListFault::BadStep));
    assert!(rt; refuses(rt.alloc(), misspelled, 6, ListFault::BadStep));
    assert!(rt; refuses_each(rt.alloc(), &words, 3, ListFault::BadStep));
    assert!(rt; refuses_each(rt.alloc(), &numbers, 3, ListFault::BadNumber));
}

#[test]
fn one_step_too_many(rt: HostRuntime) -> Result<(), Fail> {
    let mut listing = b"scan 1\nmeter 4\n".as_slice().to_vec(rt.alloc())?;
    for _ in 0..8192 {
        listing.extend_from_slice(b"read\n")?;
    }
    assert!(rt; reads(rt.alloc(), listing.as_slice()));
    listing.extend_from_slice(b"read\n")?;
    assert!(rt; refuses(rt.alloc(), listing.as_slice(), 8195, ListFault::TooLong));
    Ok(())
}

/// One pass of a position of two channels.
const FOUR_WIRES: &[u8] = b"scan 2
meter 4
set 0 1
set 1 1
set 2 1
set 3 1
close 1!1&2!1
read
open 1!1&2!1
loop 3 4
loop 2 3
loop 1 2
loop 0 1
halt
";

/// Whether the scan of the positions that the text spells is printed so.
fn prints_positions(alloc: Global, text: &[u8], wanted: &[u8]) -> Result<bool, Fail> {
    let mut settings = Settings::new(alloc);
    set_positions(alloc, &mut settings, text)?;
    prints(alloc, &settings, wanted)
}

#[test]
fn a_position_is_closed_and_opened_by_one_step(rt: HostRuntime) -> Result<(), Fail> {
    assert!(rt; prints_positions(rt.alloc(), b"(@1!1&2!1)", FOUR_WIRES)?);
    assert!(rt; reads(rt.alloc(), FOUR_WIRES));
    assert!(rt;
        reads(
            rt.alloc(),
            b"scan 1\nmeter 4\nclose 1!1&001!2&8!99&2!1\nhalt\n"
        )
    );
    Ok(())
}

#[test]
fn refuses_other_positions(rt: HostRuntime) {
    let numbers: [&[u8]; 9] = [
        b"scan 1\nmeter 4\nclose 1!1&\n",
        b"scan 1\nmeter 4\nclose &1!1\n",
        b"scan 1\nmeter 4\nclose 1!1&&2!1\n",
        b"scan 1\nmeter 4\nopen 1!1&1!1\n",
        b"scan 1\nmeter 4\nopen 1!1&01!1\n",
        b"scan 1\nmeter 4\nclose 1!1&2!1&9!1\n",
        b"scan 1\nmeter 4\nclose 1!1&1!2&1!3&1!4&1!5\n",
        b"scan 2\nmeter 4\nopen 16!1&016!01\n",
        b"scan 2\nmeter 4\nclose 1!1&9!1&10!1&16!1&2!1\n",
    ];
    let spaced: [&[u8]; 2] = [
        b"scan 1\nmeter 4\nclose 1!1 & 2!1\n",
        b"scan 2\nmeter 4\nopen 1!1 & 16!1\n",
    ];
    assert!(rt; refuses_each(rt.alloc(), &numbers, 3, ListFault::BadNumber));
    assert!(rt; refuses_each(rt.alloc(), &spaced, 3, ListFault::BadStep));
}
