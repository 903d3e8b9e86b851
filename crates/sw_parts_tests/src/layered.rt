//! A scan of three ARM layers, paced by timers, over slots of two digits: its plan, its listing, and what the verifier
//! says of it.

use std::alloc::Global;
use std::process::Abort;
use std::test::Fail;
use sw_base::{ArmLayer, Boxed, Chan, LayerName, Sequence, Source};
use sw_channel::read_positions;
use sw_code::{Code, print_listing, read_listing};
use sw_trigger::Settings;
use sw_verify::{Layout, Loaded, Plan, Refusal, Setup, Slot, Snapshot, check, verify};

/// Twice ARM layer 1 by the bus, three times ARM layer 2 by a timer with a delay, four times ARM layer 3 by the
/// external trigger, and three passes round two positions, each by TRIGger's timer with a delay.
const LISTING: &[u8] = b"scan 2
meter 10
set 0 2
wait arm1
set 1 3
timer arm2 250000
pause 500000
set 2 4
wait arm3
set 3 1
timer trig 125000
pause 1
close 1!1&16!1
read
open 1!1&16!1
timer trig 125000
pause 1
close 9!2
read
open 9!2
loop 3 8
timer trig 125000
pause 1
close 1!1&16!1
read
open 1!1&16!1
loop 2 6
loop 1 3
loop 0 1
halt
";

/// What the listing's scan awaits, and its readings.
const COUNTS: (u128, u128) = (254, 72);

/// Four channels of group 1 in slot 1, four of group 3 in each of slots 8 and 9, a meter in slot 10, and 99 channels of
/// no group in slot 16.
fn cage(alloc: Global) -> Result<Layout, Fail> {
    let mut slots = Vec::new(alloc);
    for slot in 1..=16u8 {
        slots.push(match slot {
            1 => Slot::relays([1; 4].to_vec(alloc)?),
            8 | 9 => Slot::relays([3; 4].to_vec(alloc)?),
            10 => Slot::meter(),
            16 => Slot::relays([0; 99].to_vec(alloc)?),
            _ => Slot::empty(),
        })?;
    }
    Ok(Layout::new(slots))
}

fn set_arms(settings: &mut Settings) -> Result<(), Fail> {
    let first = LayerName::Arm(ArmLayer::First);
    let second = LayerName::Arm(ArmLayer::Second);
    let third = LayerName::Arm(ArmLayer::Third);
    settings.set_count(first, 2)?;
    settings.set_source(first, Source::Bus);
    settings.set_count(second, 3)?;
    settings.set_source(second, Source::Timer);
    settings.set_timer(second, 250_000)?;
    settings.set_delay(second, 500_000)?;
    settings.set_count(third, 4)?;
    settings.set_source(third, Source::External);
    Ok(())
}

fn set_passes(alloc: Global, settings: &mut Settings, list: &[u8]) -> Result<(), Fail> {
    settings.set_list(read_positions(alloc, list)?)?;
    settings.set_meter(10)?;
    settings.set_count(LayerName::Trigger, 3)?;
    settings.set_source(LayerName::Trigger, Source::Timer);
    settings.set_timer(LayerName::Trigger, 125_000)?;
    settings.set_delay(LayerName::Trigger, 1)?;
    Ok(())
}

/// The scan of these positions where these channels are closed.
fn snapshot(alloc: Global, list: &[u8], closed: &[Chan]) -> Result<Snapshot, Fail> {
    let mut settings = Settings::new(alloc);
    set_arms(&mut settings)?;
    set_passes(alloc, &mut settings, list)?;
    Ok(Snapshot {
        settings: Setup {
            scan: settings,
            program: Loaded::Nothing,
        },
        layout: cage(alloc)?,
        closed: Sequence::new(closed.to_vec(alloc)?),
    })
}

/// Whether the check says that of the scan of these positions where these channels are closed.
fn gives(
    alloc: Global,
    list: &[u8],
    closed: &[Chan],
    wanted: Result<(), Refusal>,
) -> Result<bool, Fail> {
    let scan = snapshot(alloc, list, closed)?;
    let is_so = check(&scan) == wanted;
    drop(scan);
    Ok(is_so)
}

/// Whether the code is printed so.
fn is_printed(alloc: Global, code: &Code, wanted: &[u8]) -> Result<bool, Fail> {
    let text = print_listing(alloc, code)?;
    Ok(text.as_slice() == wanted)
}

/// What the verifier says of a listing over these cards where these channels are closed.
fn judged(
    alloc: Global,
    listing: &[u8],
    closed: &[Chan],
) -> Result<Result<(u128, u128), Refusal>, Fail> {
    let layout = cage(alloc)?;
    let code = read_listing(alloc, listing)?;
    match verify(alloc, code, &layout, closed, 100_000) {
        Ok(verified) => Ok(Ok((verified.bound(), verified.readings()))),
        Err(refusal) => Ok(Err(refusal)),
    }
}

/// Whether a plan of the scan has the listing's code.
fn plans(rt: &impl Abort, alloc: Global) -> Result<(), Fail> {
    let scan = snapshot(alloc, b"(@1!1&1601,9!2)", &[Chan::new(16, 2)])?;
    let plan = Plan::make(alloc, Boxed::new(alloc, scan)?)?;
    let is_printed = is_printed(alloc, plan.code(), LISTING);
    drop(plan);
    assert!(rt; is_printed?);
    Ok(())
}

#[test]
fn a_scan_of_three_layers_is_compiled_and_printed(rt: HostRuntime) -> Result<(), Fail> {
    plans(&rt, rt.alloc())
}

#[test]
fn its_listing_is_read_and_verified(rt: HostRuntime) -> Result<(), Fail> {
    let alloc = rt.alloc();
    let code = read_listing(alloc, LISTING)?;
    let is_printed = is_printed(alloc, &code, LISTING);
    drop(code);
    assert!(rt; is_printed?);
    assert!(rt; judged(alloc, LISTING, &[])? == Ok(COUNTS));
    assert!(rt; judged(alloc, LISTING, &[Chan::new(16, 99), Chan::new(16, 2)])? == Ok(COUNTS));
    let clash = Err(Refusal::GroupClash);
    assert!(rt; judged(alloc, LISTING, &[Chan::new(8, 4)])? == clash);
    assert!(rt; judged(alloc, LISTING, &[Chan::new(16, 1)])? == clash);
    Ok(())
}

#[test]
fn groups_run_over_slots_8_and_9(rt: HostRuntime) -> Result<(), Fail> {
    let alloc = rt.alloc();
    let clash = Err(Refusal::GroupClash);
    let absent = Err(Refusal::NoChannel);
    assert!(rt; gives(alloc, b"(@1!1&1601,9!2)", &[], Ok(()))?);
    assert!(rt; gives(alloc, b"(@8!1,9!1&16!99)", &[Chan::new(16, 98)], Ok(()))?);
    assert!(rt; gives(alloc, b"(@8!1&9!1)", &[], clash)?);
    assert!(rt; gives(alloc, b"(@9!1)", &[Chan::new(8, 4)], clash)?);
    assert!(rt; gives(alloc, b"(@1699)", &[Chan::new(16, 99)], clash)?);
    assert!(rt; gives(alloc, b"(@9!5)", &[], absent)?);
    assert!(rt; gives(alloc, b"(@10!1)", &[], absent)?);
    assert!(rt; gives(alloc, b"(@15!99)", &[], absent)?);
    Ok(())
}
