//! Each kind through its box and as itself, over a driver that writes what it does into a record outside.

ghost use Rattle.std.specs.Prelude.{ℕ, Bool};

use std::alloc::{AllocError, Global};
use std::sync::Arc;
use std::sync::atomic::{AtomicU64, Ordering};
use std::test::Fail;
use sw_base::Reading;
use sw_card::{Board, CardFault, Meter, Relay};
use sw_kinds::{
    Driver, Fuse, Matrix, Mux, OpenFuse, SimDriver, SimSource, Source, SourceFuse, Volt,
};

type Record = Arc<AtomicU64, Global>;

/// Records the channel that it was last asked to drive, and 0 once nothing is driven.
#[derive(Drop)]
struct Recorder {
    coils: SimDriver,
    record: Record,
}

impl Driver for Recorder {
    ghost driven = { λ r k. ⟦<SimDriver as Driver>⟧.driven r.coils k };

    fn drive(&mut self, ch: u8, on: bool) -> Result<(), CardFault> {
        let driving = if on { ch } else { 0 };
        self.record.store(driving as u64, Ordering::SeqCst);
        self.coils.drive(ch, on)
    }

    fn is_sure(&self) -> bool {
        true
    }

    fn cut(&mut self) {
        self.record.store(0, Ordering::SeqCst);
        self.coils.cut();
    }
}

fn recording(record: &Record) -> Result<Recorder, AllocError> {
    let record = record.clone()?;
    Ok(Recorder {
        coils: SimDriver::new(),
        record,
    })
}

/// Whether the driver drives this channel; none for 0.
fn drives(record: &Record, channel: u64) -> bool {
    record.load(Ordering::SeqCst) == channel
}

/// Whether a card is one of three open channels of that group.
fn is_new<R: Relay>(card: &R, group: u8) -> bool {
    card.serial() == 7
        && card.failures() == 0
        && card.channels() == 3
        && card.group(0) == 0
        && card.group(3) == group
        && card.group(4) == 0
        && !card.is_closed(2)
}

/// Closes the channel, which is open.
fn close<R: Relay>(card: &mut R, ch: u8) -> bool {
    ch >= 1
        && ch <= card.channels()
        && !card.is_closed(ch)
        && card.close(ch).is_ok()
        && card.is_closed(ch)
}

/// Opens the channel, which is closed.
fn open<R: Relay>(card: &mut R, ch: u8) -> bool {
    card.is_closed(ch) && card.open(ch).is_ok() && !card.is_closed(ch)
}

/// Whether the channel is open once every one is.
fn opens_all<R: Relay>(card: &mut R, ch: u8) -> bool {
    card.open_all();
    !card.is_closed(ch)
}

/// Opens and closes relays of a card of three, and leaves one closed.
fn exercises<R: Relay>(card: &mut R, record: &Record) -> bool {
    close(card, 2)
        && drives(record, 2)
        && open(card, 2)
        && drives(record, 0)
        && close(card, 3)
        && opens_all(card, 3)
        && drives(record, 0)
        && close(card, 3)
        && drives(record, 3)
}

/// Uses a card of three relays, and drops it with one closed: its driver is cut then.
fn uses_relays<R: Relay>(mut card: R, group: u8, record: &Record) -> bool {
    let is_used = drives(record, 0) && is_new(&card, group) && exercises(&mut card, record);
    drop(card);
    is_used && drives(record, 0)
}

fn mux(record: &Record) -> Result<Mux<Recorder>, AllocError> {
    Ok(Mux::new(7, 3, 5, recording(record)?))
}

fn matrix(record: &Record) -> Result<Matrix<Recorder>, AllocError> {
    Ok(Matrix::new(7, 3, recording(record)?))
}

#[test]
fn dropped_multiplexer_leaves_its_driver_cut(rt: HostRuntime) -> Result<(), Fail> {
    let record = Arc::new(rt.alloc(), AtomicU64::new(9))?;
    let boxed: Box<dyn Relay + Send> = Box::new(rt.alloc(), mux(&record)?)?;
    assert!(rt; uses_relays(boxed, 5, &record));
    assert!(rt; uses_relays(mux(&record)?, 5, &record));
    Ok(())
}

#[test]
fn dropped_matrix_leaves_its_driver_cut(rt: HostRuntime) -> Result<(), Fail> {
    let record = Arc::new(rt.alloc(), AtomicU64::new(9))?;
    let boxed: Box<dyn Relay + Send> = Box::new(rt.alloc(), matrix(&record)?)?;
    assert!(rt; uses_relays(boxed, 0, &record));
    assert!(rt; uses_relays(matrix(&record)?, 0, &record));
    Ok(())
}

/// Whether the closing of an open channel fails, and closes it.
fn fails_closing<R: Relay>(card: &mut R, ch: u8) -> bool {
    ch >= 1
        && ch <= card.channels()
        && !card.is_closed(ch)
        && card.close(ch) == Err(CardFault)
        && card.is_closed(ch)
}

/// Whether the second closing fails, and closes all the same.
fn blows<R: Relay>(card: &mut R, record: &Record) -> bool {
    close(card, 1)
        && open(card, 1)
        && card.channels() == 20
        && fails_closing(card, 2)
        && drives(record, 2)
        && card.failures() == 1
        && opens_all(card, 2)
        && drives(record, 0)
        && close(card, 2)
}

#[test]
fn second_closing_fails_and_closes(rt: HostRuntime) -> Result<(), Fail> {
    let record = Arc::new(rt.alloc(), AtomicU64::new(9))?;
    let mut mux = Mux::new(7, 20, 1, Fuse::new(recording(&record)?, Some(2)));
    let is_blown = blows(&mut mux, &record);
    drop(mux);
    assert!(rt; is_blown);
    Ok(())
}

/// Whether the opening of a closed channel fails, and leaves it closed.
fn fails_opening<R: Relay>(card: &mut R, ch: u8) -> bool {
    card.is_closed(ch) && card.open(ch) == Err(CardFault) && card.is_closed(ch)
}

/// Whether the second opening fails, and leaves its channel closed.
fn sticks<R: Relay>(card: &mut R, record: &Record) -> bool {
    close(card, 1)
        && open(card, 1)
        && close(card, 2)
        && fails_opening(card, 2)
        && drives(record, 2)
        && card.failures() == 1
        && open(card, 2)
        && drives(record, 0)
}

#[test]
fn second_opening_fails(rt: HostRuntime) -> Result<(), Fail> {
    let record = Arc::new(rt.alloc(), AtomicU64::new(9))?;
    let mut mux = Mux::new(7, 20, 1, OpenFuse::new(recording(&record)?, Some(2)));
    let is_stuck = sticks(&mut mux, &record);
    drop(mux);
    assert!(rt; is_stuck);
    Ok(())
}

/// Whether a measurement gives this.
fn gives<M: Meter>(meter: &mut M, wanted: Result<Reading, CardFault>) -> bool {
    meter.measure() == wanted
}

/// Whether this many measurements failed, and the last reading was this.
fn has<M: Meter>(meter: &M, failures: u64, last: Option<Reading>) -> bool {
    meter.failures() == failures && meter.last() == last
}

/// Whether a meter gives a volt, then a nanovolt more.
fn measures<M: Meter>(mut meter: M) -> bool {
    let is_so = meter.serial() == 8
        && has(&meter, 0, None)
        && gives(&mut meter, Ok(Reading::Volts(1_000_000_000)))
        && gives(&mut meter, Ok(Reading::Volts(1_000_000_001)))
        && has(&meter, 0, Some(Reading::Volts(1_000_000_001)));
    drop(meter);
    is_so
}

/// Whether the second reading fails, and the third is what it would have been.
fn misses<M: Meter>(meter: &mut M) -> bool {
    gives(meter, Ok(Reading::Volts(5)))
        && gives(meter, Err(CardFault))
        && has(meter, 1, Some(Reading::Volts(5)))
        && gives(meter, Ok(Reading::Volts(6)))
}

#[test]
fn second_reading_fails(rt: HostRuntime) {
    let mut meter = Volt::new(8, SourceFuse::new(SimSource::new(5, 1), Some(2)));
    let is_missed = misses(&mut meter);
    drop(meter);
    assert!(rt; is_missed);
}

#[test]
fn voltmeter_counts_nanovolts(rt: HostRuntime) -> Result<(), Fail> {
    let meter: Box<dyn Meter + Send> = Box::new(
        rt.alloc(),
        Volt::new(8, SimSource::new(1_000_000_000, 1)),
    )?;
    assert!(rt; measures(meter));
    assert!(rt; measures(Volt::new(8, SimSource::new(1_000_000_000, 1))));
    Ok(())
}

/// Whether a source gives this next.
fn samples<S: Source>(source: &mut S, wanted: Reading) -> bool {
    source.sample() == Ok(wanted)
}

#[test]
fn overload_stays(rt: HostRuntime) {
    let mut source = SimSource::new(i64::MIN + 1, -1);
    let is_so = samples(&mut source, Reading::Volts(i64::MIN + 1))
        && samples(&mut source, Reading::Volts(i64::MIN))
        && samples(&mut source, Reading::Overload)
        && samples(&mut source, Reading::Overload);
    drop(source);
    assert!(rt; is_so);
}
