//! The order of a scan's calls on its drivers, over cards with drivers that write into one record.

ghost use Rattle.std.specs.Prelude.{ℕ, Bool};

use crate::boxes::{Relays, voltmeter};
use crate::cage_calls::{
    begin, fill, give_back, is_fault, is_over, job_of, lists_closed, settings_for, settings_of,
};
use std::alloc::{AllocError, Global};
use std::sync::Arc;
use std::sync::atomic::{AtomicU64, Ordering};
use std::test::Fail;
use sw_base::Chan;
use sw_cage::{Cage, Taken};
use sw_card::{CardFault, Meter, Relay};
use sw_kinds::{Driver, Fuse, Mux, SimDriver};

/// What the drivers of several cards did, in order: by threes of decimal digits the slot, the channel, and 1 for on.
pub type Record = Arc<AtomicU64, Global>;

/// A driver that writes into the record what it drives.
#[derive(Drop)]
struct Recorder {
    coils: SimDriver,
    slot: u8,
    record: Record,
}

impl Driver for Recorder {
    ghost driven = { λ r k. ⟦<SimDriver as Driver>⟧.driven r.coils k };

    fn drive(&mut self, ch: u8, on: bool) -> Result<(), CardFault> {
        let entry = u64::from(self.slot) * 100 + u64::from(ch) * 10 + u64::from(on);
        let before = self.record.load(Ordering::SeqCst);
        let after = before.wrapping_mul(1000).wrapping_add(entry);
        self.record.store(after, Ordering::SeqCst);
        self.coils.drive(ch, on)
    }

    fn is_sure(&self) -> bool {
        true
    }

    fn cut(&mut self) {
        self.coils.cut();
    }
}

/// A card of two relays of the group, with a driver that writes into the record.
fn recording(slot: u8, group: u8, record: &Record) -> Result<Mux<Recorder>, AllocError> {
    let driver = Recorder {
        coils: SimDriver::new(),
        slot,
        record: record.clone()?,
    };
    Ok(Mux::new(u32::from(slot), 2, group, driver))
}

/// Whether `count` readings end the scan.
fn ends_after<R: Relay, M: Meter>(
    cage: &mut Cage<R, M>,
    first: Option<Taken<M>>,
    count: u32,
) -> bool {
    let mut taken = first;
    for _ in 0..count {
        let Some(job) = job_of(taken) else {
            return false;
        };
        taken = give_back(cage, job);
    }
    is_over(taken)
}

/// Whether a scan of these channels with `count` readings drives them in this order.
fn drives<R: Relay, M: Meter>(
    alloc: Global,
    cage: &mut Cage<R, M>,
    record: &Record,
    chans: &[Chan],
    count: u32,
    wanted: u64,
) -> bool {
    record.store(0, Ordering::SeqCst);
    match settings_of(alloc, chans, count) {
        Ok(settings) => {
            let taken = begin(alloc, cage, settings);
            ends_after(cage, taken, count) && record.load(Ordering::SeqCst) == wanted
        }
        Err(_) => false,
    }
}

/// Whether channels of two cards, of one card of no group, and of one group are driven one after another.
fn keeps_order<R: Relay, M: Meter>(alloc: Global, cage: &mut Cage<R, M>, record: &Record) -> bool {
    let two_cards = [Chan::new(1, 1), Chan::new(3, 1)];
    let one_card = [Chan::new(2, 1), Chan::new(2, 2)];
    let one_group = [Chan::new(1, 1), Chan::new(1, 2)];
    drives(alloc, cage, record, &two_cards, 2, 111_110_311_310)
        && drives(alloc, cage, record, &one_card, 2, 211_210_221_220)
        && drives(alloc, cage, record, &one_group, 3, 111_110_121_120_111_110)
        && cage.readings().len() == 3
}

/// The same over a cage that is at rest.
fn keeps_order_at_rest<R: Relay, M: Meter>(
    alloc: Global,
    cards: (R, R, R),
    meter: M,
    record: &Record,
) -> bool {
    let Ok(mut cage) = Cage::new(alloc) else {
        return false;
    };
    let is_filled = fill(&mut cage, cards, meter);
    let is_so = is_filled && keeps_order(alloc, &mut cage, record);
    drop(cage);
    is_so
}

/// Two cards of group 1 and between them one of no group, which write into the record.
pub fn recorded(alloc: Global, record: &Record) -> Result<(Relays, Relays, Relays), AllocError> {
    let first: Relays = Box::new(alloc, recording(1, 1, record)?)?;
    let second: Relays = Box::new(alloc, recording(2, 0, record)?)?;
    let third: Relays = Box::new(alloc, recording(3, 1, record)?)?;
    Ok((first, second, third))
}

/// Whether a scan of the positions that the text spells drives their channels in this order.
fn drives_each<R: Relay, M: Meter>(
    alloc: Global,
    cage: &mut Cage<R, M>,
    record: &Record,
    text: &[u8],
    wanted: u64,
) -> bool {
    record.store(0, Ordering::SeqCst);
    match settings_for(alloc, text) {
        Ok(settings) => {
            let taken = begin(alloc, cage, settings);
            ends_after(cage, taken, 1) && record.load(Ordering::SeqCst) == wanted
        }
        Err(_) => false,
    }
}

/// Whether the channels of a position are closed in the order written, and opened so.
fn keeps_order_within<R: Relay, M: Meter>(
    alloc: Global,
    cards: (R, R, R),
    meter: M,
    record: &Record,
) -> bool {
    let Ok(mut cage) = Cage::new(alloc) else {
        return false;
    };
    let is_so = fill(&mut cage, cards, meter)
        && drives_each(alloc, &mut cage, record, b"(@1!1&2!1)", 111_211_110_210)
        && drives_each(alloc, &mut cage, record, b"(@2!1&1!1)", 211_111_210_110)
        && drives_each(
            alloc,
            &mut cage,
            record,
            b"(@2!2&3!1&2!1)",
            221_311_211_220_310_210,
        );
    drop(cage);
    is_so
}

#[test]
fn the_channels_of_a_position_keep_their_order(rt: HostRuntime) -> Result<(), Fail> {
    let record = Arc::new(rt.alloc(), AtomicU64::new(0))?;
    let cards = recorded(rt.alloc(), &record)?;
    let meter = voltmeter(rt.alloc())?;
    assert!(rt; keeps_order_within(rt.alloc(), cards, meter, &record));
    Ok(())
}

/// Two cards and one that fails its first closing; all write into the record.
pub fn recorded_with_fuse(
    alloc: Global,
    record: &Record,
) -> Result<(Relays, Relays, Relays), AllocError> {
    let first: Relays = Box::new(alloc, recording(1, 1, record)?)?;
    let driver = Recorder {
        coils: SimDriver::new(),
        slot: 2,
        record: record.clone()?,
    };
    let second: Relays = Box::new(alloc, Mux::new(2, 2, 0, Fuse::new(driver, Some(1))))?;
    let third: Relays = Box::new(alloc, recording(3, 2, record)?)?;
    Ok((first, second, third))
}

/// Whether no channel behind the one that fails is closed, and none of the position is left closed.
fn stops_at_failure<R: Relay, M: Meter>(
    alloc: Global,
    cards: (R, R, R),
    meter: M,
    record: &Record,
) -> bool {
    let Ok(mut cage) = Cage::new(alloc) else {
        return false;
    };
    let is_so = match settings_for(alloc, b"(@1!1&2!2&3!1)") {
        Ok(settings) => {
            fill(&mut cage, cards, meter)
                && is_fault(begin(alloc, &mut cage, settings))
                && record.load(Ordering::SeqCst) == 111_221
                && lists_closed(alloc, &cage, &[])
        }
        Err(_) => false,
    };
    drop(cage);
    is_so
}

#[test]
fn a_position_stops_at_its_first_failure(rt: HostRuntime) -> Result<(), Fail> {
    let record = Arc::new(rt.alloc(), AtomicU64::new(0))?;
    let cards = recorded_with_fuse(rt.alloc(), &record)?;
    let meter = voltmeter(rt.alloc())?;
    assert!(rt; stops_at_failure(rt.alloc(), cards, meter, &record));
    Ok(())
}

/// A channel opens before the next one closes; the list begins anew after its end.
#[test]
fn opens_before_it_closes(rt: HostRuntime) -> Result<(), Fail> {
    let record = Arc::new(rt.alloc(), AtomicU64::new(0))?;
    let cards = recorded(rt.alloc(), &record)?;
    let meter = voltmeter(rt.alloc())?;
    assert!(rt; keeps_order_at_rest(rt.alloc(), cards, meter, &record));
    Ok(())
}
