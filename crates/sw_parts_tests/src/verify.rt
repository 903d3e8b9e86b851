//! Worked snapshots: what the check says of each.

use crate::positions::one_each;
use std::alloc::Global;
use std::process::Abort;
use std::test::Fail;
use sw_base::{ArmLayer, Boxed, Chan, LayerName, ScpiError, Sequence, Source};
use sw_channel::{Position, read_positions};
use sw_trigger::Settings;
use sw_verify::{Layout, Loaded, Plan, Refusal, Setup, Slot, Snapshot, check, laws};

/// Twenty channels of group 1 in slot 1, sixteen of none in slot 2, ten of group 1 in slot 3, and a meter in slot 4.
fn cage(alloc: Global) -> Result<Layout, Fail> {
    let mut slots = Vec::new(alloc);
    slots.push(Slot::relays([1; 20].to_vec(alloc)?))?;
    slots.push(Slot::relays([0; 16].to_vec(alloc)?))?;
    slots.push(Slot::relays([1; 10].to_vec(alloc)?))?;
    slots.push(Slot::meter())?;
    slots.push(Slot::empty())?;
    Ok(Layout::new(slots))
}

fn snapshot(alloc: Global, list: &[Chan], closed: &[Chan]) -> Result<Snapshot, Fail> {
    snapshot_of(alloc, one_each(alloc, list)?, closed)
}

fn snapshot_of(alloc: Global, positions: Vec<Position>, closed: &[Chan]) -> Result<Snapshot, Fail> {
    let mut settings = Settings::new(alloc);
    settings.set_list(positions)?;
    Ok(Snapshot {
        settings: Setup {
            scan: settings,
            program: Loaded::Nothing,
        },
        layout: cage(alloc)?,
        closed: Sequence::new(closed.to_vec(alloc)?),
    })
}

/// Whether the check says that of a snapshot.
fn is_judged(scan: &Snapshot, wanted: Result<(), Refusal>) -> bool {
    check(scan) == wanted
}

/// Whether the check says that of a scan of this list where these channels are closed.
fn gives(
    alloc: Global,
    list: &[Chan],
    closed: &[Chan],
    wanted: Result<(), Refusal>,
) -> Result<bool, Fail> {
    let scan = snapshot(alloc, list, closed)?;
    let is_so = is_judged(&scan, wanted);
    drop(scan);
    Ok(is_so)
}

/// Whether the check says that of a scan of the positions that the text spells.
fn gives_of(
    alloc: Global,
    text: &[u8],
    closed: &[Chan],
    wanted: Result<(), Refusal>,
) -> Result<bool, Fail> {
    let scan = snapshot_of(alloc, read_positions(alloc, text)?, closed)?;
    let is_so = is_judged(&scan, wanted);
    drop(scan);
    Ok(is_so)
}

/// Sets a count. It promises nothing, so that a test is checked without all that `set_count` promises.
fn set_count(scan: &mut Snapshot, name: LayerName, count: u32) -> Result<(), ScpiError> {
    scan.settings.scan.set_count(name, count)
}

/// Whether the check says that of a scan with `count` passes.
fn gives_with(
    scan: &mut Snapshot,
    count: u32,
    wanted: Result<(), Refusal>,
) -> Result<bool, ScpiError> {
    set_count(scan, LayerName::Trigger, count)?;
    Ok(is_judged(scan, wanted))
}

#[test]
fn passes(rt: HostRuntime) -> Result<(), Fail> {
    let mut scan = snapshot(
        rt.alloc(),
        &[Chan::new(1, 20), Chan::new(2, 16), Chan::new(3, 10)],
        &[Chan::new(2, 1)],
    )?;
    let is_passed = gives_with(&mut scan, 1000, Ok(()));
    drop(scan);
    assert!(rt; is_passed?);
    Ok(())
}

#[test]
fn nothing_is_listed(rt: HostRuntime) -> Result<(), Fail> {
    assert!(rt; gives(rt.alloc(), &[], &[], Err(Refusal::EmptyList))?);
    assert_eq!(rt; Refusal::EmptyList.error(), ScpiError::SettingsConflict);
    Ok(())
}

#[test]
fn used_entries_are_judged_and_no_others(rt: HostRuntime) -> Result<(), Fail> {
    let list = [Chan::new(1, 1), Chan::new(5, 1)];
    assert!(rt; gives(rt.alloc(), &list, &[], Ok(()))?);
    let mut scan = snapshot(rt.alloc(), &list, &[])?;
    let is_refused = gives_with(&mut scan, 2, Err(Refusal::NoChannel));
    drop(scan);
    assert!(rt; is_refused?);
    assert_eq!(rt; Refusal::NoChannel.error(), ScpiError::HardwareMissing);
    assert!(rt;
        gives(
            rt.alloc(),
            &[Chan::new(1, 21)],
            &[],
            Err(Refusal::NoChannel)
        )?
    );
    Ok(())
}

/// Whether the check says that of a scan by the meter of slot 2.
fn gives_in_slot_2(scan: &mut Snapshot, wanted: Result<(), Refusal>) -> Result<bool, ScpiError> {
    scan.settings.scan.set_meter(2)?;
    Ok(is_judged(scan, wanted))
}

#[test]
fn slot_without_meter(rt: HostRuntime) -> Result<(), Fail> {
    let mut scan = snapshot(rt.alloc(), &[Chan::new(1, 1)], &[Chan::new(1, 1)])?;
    let is_refused = gives_in_slot_2(&mut scan, Err(Refusal::NoMeter));
    drop(scan);
    assert!(rt; is_refused?);
    Ok(())
}

#[test]
fn groups_run_over_all_slots(rt: HostRuntime) -> Result<(), Fail> {
    let alloc = rt.alloc();
    let clash = Err(Refusal::GroupClash);
    assert!(rt; gives(alloc, &[Chan::new(1, 1)], &[Chan::new(3, 2)], clash)?);
    assert!(rt; gives(alloc, &[Chan::new(2, 1)], &[Chan::new(2, 1)], clash)?);
    let closed = [Chan::new(2, 2), Chan::new(1, 1)];
    assert!(rt; gives(alloc, &[Chan::new(2, 1)], &closed, Ok(()))?);
    Ok(())
}

#[test]
fn channels_of_a_position_are_judged_together(rt: HostRuntime) -> Result<(), Fail> {
    let alloc = rt.alloc();
    let clash = Err(Refusal::GroupClash);
    assert!(rt; gives_of(alloc, b"(@1!1&2!1,2!3)", &[], Ok(()))?);
    assert!(rt; gives_of(alloc, b"(@1!1&3!1)", &[], clash)?);
    assert!(rt; gives_of(alloc, b"(@2!1&1!1&2!2&1!2)", &[], clash)?);
    assert!(rt; gives_of(alloc, b"(@2!1&2!2)", &[Chan::new(2, 2)], clash)?);
    assert!(rt; gives_of(alloc, b"(@2!1&1!1)", &[Chan::new(3, 10)], clash)?);
    assert!(rt; gives_of(alloc, b"(@2!1&5!1)", &[], Err(Refusal::NoChannel))?);
    // Only the first position is used.
    assert!(rt; gives_of(alloc, b"(@2!1&1!1,1!1&3!1)", &[], Ok(()))?);
    Ok(())
}

/// Six readings, with room for five of them and for all.
fn fit(rt: &impl Abort, scan: &mut Snapshot) -> Result<(), Fail> {
    set_count(scan, LayerName::Arm(ArmLayer::First), 2)?;
    set_count(scan, LayerName::Trigger, 3)?;
    scan.settings.scan.set_points(5)?;
    assert!(rt; is_judged(scan, Err(Refusal::TooManyReadings)));
    scan.settings.scan.set_points(6)?;
    assert!(rt; is_judged(scan, Ok(())));
    Ok(())
}

#[test]
fn readings_fit_the_points(rt: HostRuntime) -> Result<(), Fail> {
    let mut scan = snapshot(rt.alloc(), &[Chan::new(1, 1)], &[])?;
    let result = fit(&rt, &mut scan);
    drop(scan);
    result
}

/// What a layout says of its slots.
fn tell(rt: &impl Abort, layout: &Layout) {
    assert_eq!(rt; layout.group(Chan::new(3, 10)), 1);
    assert_eq!(rt; layout.group(Chan::new(3, 11)), 0);
    assert!(rt; layout.has_channel(Chan::new(2, 16)));
    let slots = layout.slots();
    assert_eq!(rt; slots.len(), 5);
    assert!(rt; slots[3].is_meter());
    assert!(rt; slots[4].groups().is_none());
}

/// The laws of a plan. They cost nothing.
fn obey(plan: &Plan) {
    let snapshot = plan.snapshot();
    laws::ends_as_it_began(snapshot);
    laws::stays_within_its_points(snapshot);
    match &snapshot.settings.program {
        Loaded::Nothing => laws::closes_one_position_at_a_time(snapshot),
        _ => {}
    }
}

#[test]
fn plan_keeps_its_snapshot(rt: HostRuntime) -> Result<(), Fail> {
    let scan = snapshot(rt.alloc(), &[Chan::new(1, 1)], &[Chan::new(2, 16)])?;
    let plan = Plan::make(rt.alloc(), Boxed::new(rt.alloc(), scan)?)?;
    assert_eq!(rt; plan.code().meter(), 4);
    assert_eq!(rt; plan.code().steps().len(), 12);
    obey(&plan);
    tell(&rt, &plan.snapshot().layout);
    let course = plan.into_course();
    let readings = course.readings();
    let (code, sources, points) = course.into_parts();
    let is_kept = readings == 1
        && code.meter() == 4
        && sources.source(LayerName::Trigger) == Source::Immediate
        && points == 1_000;
    drop(code);
    drop(sources);
    assert!(rt; is_kept);
    Ok(())
}
