//! The code of scans that let positions settle: its listing, and that of the longest list with every wait and pause
//! that a scan can have, which has room, and which the check accepts after printing and reading.

use std::alloc::Global;
use std::process::Abort;
use std::test::Fail;
use sw_base::{ARMS, Boxed, Chan, LayerName, ScpiError, Sequence, Source};
use sw_channel::Position;
use sw_code::{Code, print_listing, read_listing};
use sw_trigger::Settings;
use sw_verify::{Layout, Loaded, Plan, Setup, Slot, Snapshot, verify};

/// 99 channels of no group in slot 16, and a meter in slot 4.
fn cage(alloc: Global) -> Result<Layout, Fail> {
    let mut slots = Vec::new(alloc);
    for slot in 1..=16u8 {
        slots.push(match slot {
            4 => Slot::meter(),
            16 => Slot::relays([0; 99].to_vec(alloc)?),
            _ => Slot::empty(),
        })?;
    }
    Ok(Layout::new(slots))
}

/// A layer that waits for the external trigger, and pauses for an hour.
fn set_layer(settings: &mut Settings, name: LayerName) -> Result<(), ScpiError> {
    settings.set_source(name, Source::External);
    settings.set_delay(name, 3_600_000_000)
}

/// Three readings of 16!1, which settles for a quarter of a second each time.
const LISTING: &[u8] = b"scan 2
meter 4
set 0 1
set 1 1
set 2 1
set 3 3
close 16!1
pause 250000
read
open 16!1
loop 3 4
loop 2 3
loop 1 2
loop 0 1
halt
";

fn set_listed(alloc: Global, settings: &mut Settings) -> Result<(), Fail> {
    let mut list = Vec::new(alloc);
    list.push(Position::new(Chan::new(16, 1)))?;
    settings.set_list(list)?;
    settings.set_count(LayerName::Trigger, 3)?;
    settings.set_settling(250_000)?;
    Ok(())
}

/// 512 positions and then all but the last once more, with an hour to settle for each.
fn set_longest(alloc: Global, settings: &mut Settings) -> Result<(), Fail> {
    let mut list = Vec::new(alloc);
    for number in 0..512u16 {
        let channel = if number % 2 == 0 { 1 } else { 99 };
        list.push(Position::new(Chan::new(16, channel)))?;
    }
    settings.set_list(list)?;
    for arm in ARMS {
        set_layer(settings, LayerName::Arm(arm))?;
    }
    set_layer(settings, LayerName::Trigger)?;
    settings.set_count(LayerName::Trigger, 1_023)?;
    settings.set_points(1_023)?;
    settings.set_settling(3_600_000_000)?;
    Ok(())
}

/// The plan of a scan by these settings, where nothing is closed.
fn planned(alloc: Global, settings: Settings) -> Result<Plan, Fail> {
    let snapshot = Snapshot {
        settings: Setup {
            scan: settings,
            program: Loaded::Nothing,
        },
        layout: cage(alloc)?,
        closed: Sequence::new(Vec::new(alloc)),
    };
    Ok(Plan::make(alloc, Boxed::new(alloc, snapshot)?)?)
}

/// How many things the code awaits, and how many readings it makes, once it was printed and read.
fn counts_of(alloc: Global, code: &Code) -> Result<(u128, u128), Fail> {
    let text = print_listing(alloc, code)?;
    let code = read_listing(alloc, &text)?;
    let layout = cage(alloc)?;
    let verified = verify(alloc, code, &layout, &[], 1_023)?;
    Ok((verified.bound(), verified.readings()))
}

/// Whether the code is printed as the listing, and awaits a pause and a reading on each of three passes.
fn is_listed(rt: &impl Abort, alloc: Global, code: &Code) -> Result<(), Fail> {
    let text = print_listing(alloc, code)?;
    assert!(rt; text.as_slice() == LISTING);
    assert!(rt; counts_of(alloc, code)? == (6, 3));
    Ok(())
}

/// Whether the code has six steps a pass, two of each ARM layer, two of each layer's counter, and its end; and awaits
/// four things a pass, and two of each ARM layer.
fn is_longest(rt: &impl Abort, alloc: Global, code: &Code) -> Result<(), Fail> {
    assert_eq!(rt; code.steps().len(), 6_153);
    assert!(rt; counts_of(alloc, code)? == (4_098, 1_023));
    Ok(())
}

#[test]
fn a_pause_stands_between_a_closing_and_its_reading(rt: HostRuntime) -> Result<(), Fail> {
    let mut settings = Settings::new(rt.alloc());
    set_listed(rt.alloc(), &mut settings)?;
    let plan = planned(rt.alloc(), settings)?;
    let result = is_listed(&rt, rt.alloc(), plan.code());
    drop(plan);
    result
}

#[test]
fn the_longest_list_is_compiled_and_verified_with_every_wait_and_pause(
    rt: HostRuntime,
) -> Result<(), Fail> {
    let mut settings = Settings::new(rt.alloc());
    set_longest(rt.alloc(), &mut settings)?;
    let plan = planned(rt.alloc(), settings)?;
    let result = is_longest(&rt, rt.alloc(), plan.code());
    drop(plan);
    result
}
