//! Worked settings, with their agendas and bounds.

use crate::positions::one_each;
use std::alloc::{AllocError, Global};
use std::process::Abort;
use std::test::Fail;
use sw_base::{ARMS, ArmLayer, Chan, LayerName, ScpiError, Source};
use sw_channel::Position;
use sw_trigger::{Awaited, Layer, Settings};

/// The ARM layers, from the outermost.
const FIRST: LayerName = LayerName::Arm(ArmLayer::First);

const SECOND: LayerName = LayerName::Arm(ArmLayer::Second);

const THIRD: LayerName = LayerName::Arm(ArmLayer::Third);

/// Sets a count. It promises nothing, nor do those below it, so that a test is checked without all that is promised.
fn set_count(settings: &mut Settings, name: LayerName, count: u32) -> Result<(), ScpiError> {
    settings.set_count(name, count)
}

fn set_delay(settings: &mut Settings, name: LayerName, delay_us: u64) -> Result<(), ScpiError> {
    settings.set_delay(name, delay_us)
}

fn set_timer(settings: &mut Settings, name: LayerName, timer_us: u64) -> Result<(), ScpiError> {
    settings.set_timer(name, timer_us)
}

fn set_source(settings: &mut Settings, name: LayerName, source: Source) {
    settings.set_source(name, source);
}

fn set_list(settings: &mut Settings, list: Vec<Position>) -> Result<(), ScpiError> {
    settings.set_list(list)
}

/// Whether a setting is refused as out of its range.
fn is_out_of_range(set: Result<(), ScpiError>) -> bool {
    set == Err(ScpiError::DataOutOfRange)
}

/// Whether these are the awaiting items of a scan, and its readings.
fn comes_to(settings: &Settings, bound: u64, readings: u64) -> bool {
    settings.bound() == bound && settings.readings() == readings
}

/// Whether the scan awaits that in this place.
fn awaits(settings: &Settings, n: u64, wanted: Option<Awaited>) -> bool {
    settings.awaited(n) == wanted
}

/// The position of the pass, where there is a list.
fn position_of(settings: &Settings, k: u32) -> Option<Position> {
    if settings.list().is_empty() {
        return None;
    }
    Some(settings.position(k))
}

/// Twice through ARM layer 1 by the bus, three passes each, with half a second before each reading.
fn set_worked(alloc: Global, settings: &mut Settings) -> Result<(), Fail> {
    set_list(settings, one_each(alloc, &[Chan::new(1, 1)])?)?;
    set_count(settings, FIRST, 2)?;
    set_source(settings, FIRST, Source::Bus);
    set_count(settings, LayerName::Trigger, 3)?;
    set_delay(settings, LayerName::Trigger, 500_000)?;
    Ok(())
}

fn entries(alloc: Global, count: usize) -> Result<Vec<Position>, AllocError> {
    let mut list = Vec::new(alloc);
    for _ in 0..count {
        list.push(Position::new(Chan::new(16, 99)))?;
    }
    Ok(list)
}

fn count_worked(rt: &impl Abort, alloc: Global, settings: &mut Settings) -> Result<(), Fail> {
    set_worked(alloc, settings)?;
    assert!(rt; comes_to(settings, 14, 6));
    assert!(rt; awaits(settings, 0, Some(Awaited::Wait(FIRST))));
    assert!(rt; awaits(settings, 1, Some(Awaited::Pause(500_000))));
    assert!(rt; awaits(settings, 2, Some(Awaited::Read)));
    assert!(rt; awaits(settings, 7, Some(Awaited::Wait(FIRST))));
    assert!(rt; awaits(settings, 13, Some(Awaited::Read)));
    assert!(rt; awaits(settings, 14, None));
    assert_eq!(rt; settings.layer(LayerName::Trigger).delay_us, 500_000);
    assert_eq!(rt; settings.list().len(), 1);
    assert!(rt; position_of(settings, 2) == Some(Position::new(Chan::new(1, 1))));
    Ok(())
}

#[test]
fn counts_of_worked_settings(rt: HostRuntime) -> Result<(), Fail> {
    let mut settings = Settings::new(rt.alloc());
    let result = count_worked(&rt, rt.alloc(), &mut settings);
    drop(settings);
    result
}

/// Each layer at its most.
fn set_longest(alloc: Global, settings: &mut Settings) -> Result<(), Fail> {
    set_worked(alloc, settings)?;
    for arm in ARMS {
        let name = LayerName::Arm(arm);
        set_count(settings, name, 1000)?;
        set_source(settings, name, Source::Hold);
        set_delay(settings, name, 3_600_000_000)?;
    }
    set_source(settings, SECOND, Source::Timer);
    set_count(settings, LayerName::Trigger, 100_000)?;
    set_source(settings, LayerName::Trigger, Source::External);
    Ok(())
}

/// Whether each layer of the longest scan awaits its trigger or the end of its timer, and then its delay, on its first
/// and on its second turn.
fn awaits_heads(settings: &Settings) -> bool {
    let pause = Some(Awaited::Pause(3_600_000_000));
    let first = Some(Awaited::Wait(FIRST));
    let second = Some(Awaited::Period(SECOND, 1_000_000));
    let third = Some(Awaited::Wait(THIRD));
    awaits(settings, 0, first)
        && awaits(settings, 1, pause)
        && awaits(settings, 2, second)
        && awaits(settings, 3, pause)
        && awaits(settings, 4, third)
        && awaits(settings, 5, pause)
        && awaits(settings, 300_006, third)
        && awaits(settings, 300_002_004, second)
        && awaits(settings, 300_002_002_002, first)
        && awaits(settings, 300_002_002_003, pause)
}

fn count_longest(rt: &impl Abort, alloc: Global, settings: &mut Settings) -> Result<(), Fail> {
    set_longest(alloc, settings)?;
    assert!(rt; comes_to(settings, 300_002_002_002_000, 100_000_000_000_000));
    assert!(rt; awaits(settings, 300_002_002_002_000, None));
    assert!(rt; awaits(settings, 300_002_002_001_999, Some(Awaited::Read)));
    assert!(rt; awaits(settings, 300_002_002_001_998, Some(Awaited::Pause(500_000))));
    let wait = Awaited::Wait(LayerName::Trigger);
    assert!(rt; awaits(settings, 300_002_002_001_997, Some(wait)));
    assert!(rt; awaits_heads(settings));
    Ok(())
}

#[test]
fn counts_of_the_longest_scan(rt: HostRuntime) -> Result<(), Fail> {
    let mut settings = Settings::new(rt.alloc());
    let result = count_longest(&rt, rt.alloc(), &mut settings);
    drop(settings);
    result
}

/// Whether the settings are as new ones.
fn is_new(alloc: Global, settings: &Settings) -> bool {
    let new = Settings::new(alloc);
    let is_same = settings.is_same(&new);
    drop(new);
    is_same
}

/// A layer at `*RST`.
const AT_RESET: Layer = Layer {
    count: 1,
    source: Source::Immediate,
    delay_us: 0,
    timer_us: 1_000_000,
};

fn reset(rt: &impl Abort, alloc: Global, settings: &mut Settings) -> Result<(), Fail> {
    set_worked(alloc, settings)?;
    set_timer(settings, THIRD, 3_600_000_000)?;
    settings.set_meter(16)?;
    settings.set_points(100_000)?;
    settings.reset();
    assert!(rt; is_new(alloc, settings));
    assert_eq!(rt; settings.layer(THIRD), AT_RESET);
    assert_eq!(rt; settings.bound(), 0);
    assert_eq!(rt; settings.meter(), 4);
    assert_eq!(rt; settings.points(), 1000);
    Ok(())
}

#[test]
fn values_at_reset(rt: HostRuntime) -> Result<(), Fail> {
    let mut settings = Settings::new(rt.alloc());
    let result = reset(&rt, rt.alloc(), &mut settings);
    drop(settings);
    result
}

/// Values past each end of their ranges.
fn refuse(rt: &impl Abort, alloc: Global, settings: &mut Settings) -> Result<(), Fail> {
    assert!(rt; is_out_of_range(set_count(settings, SECOND, 1001)));
    assert!(rt; is_out_of_range(set_count(settings, LayerName::Trigger, 0)));
    assert!(rt; is_out_of_range(set_delay(settings, FIRST, 3_600_000_001)));
    assert!(rt; is_out_of_range(set_count(settings, THIRD, 0)));
    assert!(rt; is_out_of_range(set_timer(settings, THIRD, 0)));
    assert!(rt; is_out_of_range(set_timer(settings, LayerName::Trigger, 3_600_000_001)));
    assert!(rt; is_out_of_range(settings.set_meter(17)));
    assert!(rt; is_out_of_range(settings.set_points(0)));
    let long = set_list(settings, entries(alloc, 513)?);
    assert!(rt; long == Err(ScpiError::TooMuchData));
    Ok(())
}

/// A list that is as long as can be.
fn fill(rt: &impl Abort, alloc: Global, settings: &mut Settings) -> Result<(), Fail> {
    let full = set_list(settings, entries(alloc, 512)?);
    assert!(rt; full == Ok(()));
    assert_eq!(rt; settings.list().len(), 512);
    assert_eq!(rt; settings.used().len(), 3);
    Ok(())
}

/// What is refused changes nothing; the longest list does.
fn refuse_beside(
    rt: &impl Abort,
    alloc: Global,
    settings: &mut Settings,
    before: &Settings,
) -> Result<(), Fail> {
    refuse(rt, alloc, settings)?;
    assert!(rt; settings.is_same(before));
    fill(rt, alloc, settings)?;
    assert!(rt; !settings.is_same(before));
    Ok(())
}

fn keep(rt: &impl Abort, alloc: Global, settings: &mut Settings) -> Result<(), Fail> {
    set_worked(alloc, settings)?;
    let before = settings.try_copy(alloc)?;
    let result = refuse_beside(rt, alloc, settings, &before);
    drop(before);
    result
}

#[test]
fn refused_settings(rt: HostRuntime) -> Result<(), Fail> {
    let mut settings = Settings::new(rt.alloc());
    let result = keep(&rt, rt.alloc(), &mut settings);
    drop(settings);
    result
}

/// Three readings of one channel, each behind the end of TRIGger's timer.
fn set_paced(alloc: Global, settings: &mut Settings) -> Result<(), Fail> {
    set_list(settings, one_each(alloc, &[Chan::new(1, 1)])?)?;
    set_count(settings, LayerName::Trigger, 3)?;
    set_source(settings, LayerName::Trigger, Source::Timer);
    set_timer(settings, LayerName::Trigger, 250_000)?;
    Ok(())
}

/// Whether a timer is kept across changes of its layer's source, and counts only where it is the source.
fn keeps_its_timer(settings: &mut Settings) -> bool {
    set_source(settings, LayerName::Trigger, Source::Hold);
    let is_held = awaits(settings, 2, Some(Awaited::Wait(LayerName::Trigger)));
    set_source(settings, LayerName::Trigger, Source::Immediate);
    let is_left_out = comes_to(settings, 3, 3) && awaits(settings, 0, Some(Awaited::Read));
    set_source(settings, LayerName::Trigger, Source::Timer);
    is_held && is_left_out && awaits_periods(settings)
}

/// Whether a timer and a reading are awaited in turn, three times.
fn awaits_periods(settings: &Settings) -> bool {
    let period = Some(Awaited::Period(LayerName::Trigger, 250_000));
    comes_to(settings, 6, 3)
        && awaits(settings, 0, period)
        && awaits(settings, 1, Some(Awaited::Read))
        && awaits(settings, 4, period)
        && awaits(settings, 5, Some(Awaited::Read))
        && awaits(settings, 6, None)
}

/// Settings that differ in one timer are others, though no layer waits for it.
fn compare(rt: &impl Abort, settings: &mut Settings, other: &mut Settings) -> Result<(), Fail> {
    assert!(rt; settings.is_same(other));
    set_timer(other, THIRD, 1_000_001)?;
    assert!(rt; !settings.is_same(other));
    set_timer(other, THIRD, 1_000_000)?;
    assert!(rt; settings.is_same(other));
    Ok(())
}

fn pace(rt: &impl Abort, alloc: Global, settings: &mut Settings) -> Result<(), Fail> {
    set_paced(alloc, settings)?;
    assert!(rt; awaits_periods(settings));
    assert!(rt; keeps_its_timer(settings));
    let mut other = settings.try_copy(alloc)?;
    let result = compare(rt, settings, &mut other);
    drop(other);
    result
}

#[test]
fn timers_of_layers(rt: HostRuntime) -> Result<(), Fail> {
    let mut settings = Settings::new(rt.alloc());
    let result = pace(&rt, rt.alloc(), &mut settings);
    drop(settings);
    result
}

/// Whether a position settles between its closing and its reading, wherever a pass awaits more before it.
fn settles(alloc: Global, settings: &mut Settings) -> Result<bool, Fail> {
    set_worked(alloc, settings)?;
    settings.set_settling(250_000)?;
    Ok(
        comes_to(settings, 20, 6)
            && awaits(settings, 0, Some(Awaited::Wait(FIRST)))
            && awaits(settings, 1, Some(Awaited::Pause(500_000)))
            && awaits(settings, 2, Some(Awaited::Pause(250_000)))
            && awaits(settings, 3, Some(Awaited::Read))
            && awaits(settings, 10, Some(Awaited::Wait(FIRST)))
            && awaits(settings, 18, Some(Awaited::Pause(250_000)))
            && awaits(settings, 19, Some(Awaited::Read))
            && awaits(settings, 20, None),
    )
}

/// Whether the settings keep the time in its range, answer, copy and compare it, and drop it at a reset.
fn keeps_its_settling(alloc: Global, settings: &mut Settings) -> Result<bool, Fail> {
    let is_refused = is_out_of_range(settings.set_settling(3_600_000_001));
    let mut copy = settings.try_copy(alloc)?;
    let is_same = settings.is_same(&copy) && copy.settle_us() == 250_000;
    let set = copy.set_settling(0);
    let is_other = set == Ok(()) && !settings.is_same(&copy) && comes_to(&copy, 14, 6);
    drop(copy);
    settings.reset();
    Ok(is_refused && is_same && is_other && settings.settle_us() == 0)
}

fn settle(rt: &impl Abort, alloc: Global, settings: &mut Settings) -> Result<(), Fail> {
    assert!(rt; settles(alloc, settings)?);
    assert!(rt; keeps_its_settling(alloc, settings)?);
    Ok(())
}

#[test]
fn positions_settle(rt: HostRuntime) -> Result<(), Fail> {
    let mut settings = Settings::new(rt.alloc());
    let result = settle(&rt, rt.alloc(), &mut settings);
    drop(settings);
    result
}
