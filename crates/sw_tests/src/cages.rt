//! Cards that come and go, and a card that fails, over a core of boxed cards.

ghost use Rattle.std.specs.Prelude.{ℕ, Bool};

use crate::asks::{
    does, eject, fit, has_closed, install, joined, refused_card, refuses, refuses_eject, tells,
};
use crate::boxes::{Relays, closed, mux, three, voltmeter};
use std::alloc::{AllocError, Global};
use std::sync::Arc;
use std::sync::atomic::{AtomicU64, Ordering};
use std::test::Fail;
use sw_base::ScpiError;
use sw_cage::{EjectRefusal, InstallRefusal};
use sw_card::{Card, CardFault, Meter, Relay};
use sw_core::{Core, Sid};
use sw_kinds::{Driver, Fuse, Matrix, Mux, SimDriver};

/// How many calls asked a driver to drive a channel, and how many cut its supply.
#[derive(Drop)]
struct Tally {
    drives: AtomicU64,
    cuts: AtomicU64,
}

type Record = Arc<Tally, Global>;

/// A driver that writes its calls into a record outside.
#[derive(Drop)]
struct Recorder {
    coils: SimDriver,
    record: Record,
}

impl Driver for Recorder {
    ghost driven = { λ r k. ⟦<SimDriver as Driver>⟧.driven r.coils k };

    fn drive(&mut self, ch: u8, on: bool) -> Result<(), CardFault> {
        let _ = self.record.drives.fetch_add(1, Ordering::SeqCst);
        self.coils.drive(ch, on)
    }

    fn is_sure(&self) -> bool {
        true
    }

    fn cut(&mut self) {
        let _ = self.record.cuts.fetch_add(1, Ordering::SeqCst);
        self.coils.cut();
    }
}

fn empty_record(alloc: Global) -> Result<Record, AllocError> {
    let tally = Tally {
        drives: AtomicU64::new(0),
        cuts: AtomicU64::new(0),
    };
    Ok(Arc::new(alloc, tally)?)
}

fn recording(record: &Record) -> Result<Recorder, AllocError> {
    let record = record.clone()?;
    Ok(Recorder {
        coils: SimDriver::new(),
        record,
    })
}

/// The drives and the cuts since the last call of this.
fn calls(record: &Record) -> (u64, u64) {
    (
        record.drives.swap(0, Ordering::SeqCst),
        record.cuts.swap(0, Ordering::SeqCst),
    )
}

/// Whether the mainframe refuses a card with a closed channel, and gives it back with that closed.
fn hands_closed_back<R: Relay, M: Meter>(alloc: Global, core: &mut Core<R, M>, closed: R) -> bool {
    match refused_card(alloc, core, 5, Card::relays(closed)) {
        Some((refusal, card)) => {
            let is_back = card.serial() == 7 && card.is_closed(1);
            drop(card);
            is_back && refusal == InstallRefusal::BadLayout
        }
        None => false,
    }
}

/// Whether the card of slot 1 is not taken by slot 2, which has one, and then by slot 1.
fn comes_back<R: Relay, M: Meter>(alloc: Global, core: &mut Core<R, M>, card: Card<R, M>) -> bool {
    match refused_card(alloc, core, 2, card) {
        Some((refusal, card)) => {
            let is_back = refusal == InstallRefusal::Occupied && card.serial() == 1;
            install(alloc, core, 1, card) && is_back
        }
        None => false,
    }
}

/// Whether slot 1 is empty, and 2!1 stayed closed.
fn is_vacant<R: Relay, M: Meter>(alloc: Global, core: &mut Core<R, M>, sid: Sid) -> bool {
    has_closed(alloc, core, sid, b"(@2!1)") && refuses_eject(alloc, core, 1, EjectRefusal::Vacant)
}

/// Whether the card of slot 1 leaves with its relays open, and comes back.
fn goes_and_comes<R: Relay, M: Meter>(alloc: Global, core: &mut Core<R, M>, sid: Sid) -> bool {
    match eject(alloc, core, 1) {
        Some(card) => {
            let is_safe = card.serial() == 1 && !card.any_closed();
            let is_vacant = is_vacant(alloc, core, sid);
            comes_back(alloc, core, card) && is_safe && is_vacant
        }
        None => false,
    }
}

/// Offers a card with a closed channel, takes the card of slot 1 out while 1!1 and 2!1 are closed, and puts it back.
fn exchanges<R: Relay, M: Meter>(
    alloc: Global,
    core: &mut Core<R, M>,
    cards: (R, R, R),
    closed: R,
    meter: M,
) -> bool {
    let Some(sid) = fit(alloc, core, cards, meter) else {
        return false;
    };
    hands_closed_back(alloc, core, closed)
        && does(alloc, core, sid, b"ROUT:CLOS (@1!1,2!1)")
        && has_closed(alloc, core, sid, b"(@1!1,2!1)")
        && goes_and_comes(alloc, core, sid)
        && has_closed(alloc, core, sid, b"(@2!1)")
}

/// The same over a core that is at rest.
fn exchanges_at_rest<R: Relay, M: Meter>(
    alloc: Global,
    cards: (R, R, R),
    closed: R,
    meter: M,
) -> bool {
    let Ok(mut core) = Core::new(alloc) else {
        return false;
    };
    let is_so = exchanges(alloc, &mut core, cards, closed, meter);
    drop(core);
    is_so
}

#[test]
fn cards_come_and_go(rt: HostRuntime) -> Result<(), Fail> {
    let cards = three(rt.alloc())?;
    let closed = closed(rt.alloc())?;
    let meter = voltmeter(rt.alloc())?;
    assert!(rt; exchanges_at_rest(rt.alloc(), cards, closed, meter));
    Ok(())
}

/// Whether the first two cards' drivers each got one call to drive a channel, and the third's none.
fn were_driven(records: &[Record; 3]) -> bool {
    calls(&records[0]).0 == 1 && calls(&records[1]).0 == 1 && calls(&records[2]).0 == 0
}

/// Whether the first card's driver got one call to drive a channel, and every card's one cut.
fn were_cut(records: &[Record; 3]) -> bool {
    calls(&records[0]) == (1, 1) && calls(&records[1]) == (0, 1) && calls(&records[2]) == (0, 1)
}

/// Closes 1!1 and 2!1, and fails at the closing of 1!2: then every card is called once, the third one too, which
/// has nothing closed.
fn blows<R: Relay, M: Meter>(
    alloc: Global,
    core: &mut Core<R, M>,
    cards: (R, R, R),
    meter: M,
    records: &[Record; 3],
) -> bool {
    let Some(sid) = fit(alloc, core, cards, meter) else {
        return false;
    };
    does(alloc, core, sid, b"ROUT:CLOS (@1!1,2!1)")
        && were_driven(records)
        && refuses(
            alloc,
            core,
            sid,
            b"ROUT:CLOS (@1!2)",
            ScpiError::HardwareError,
        )
        && were_cut(records)
        && has_closed(alloc, core, sid, b"(@)")
}

/// The same over a core that is at rest.
fn blows_at_rest<R: Relay, M: Meter>(
    alloc: Global,
    cards: (R, R, R),
    meter: M,
    records: &[Record; 3],
) -> bool {
    let Ok(mut core) = Core::new(alloc) else {
        return false;
    };
    let is_so = blows(alloc, &mut core, cards, meter, records);
    drop(core);
    is_so
}

fn records(alloc: Global) -> Result<[Record; 3], AllocError> {
    Ok([
        empty_record(alloc)?,
        empty_record(alloc)?,
        empty_record(alloc)?,
    ])
}

/// A matrix of 20 channels that fails its second closing, a matrix and a multiplexer; all write into these records.
fn recorded(alloc: Global, records: &[Record; 3]) -> Result<(Relays, Relays, Relays), AllocError> {
    let fuse = Fuse::new(recording(&records[0])?, Some(2));
    let first: Relays = Box::new(alloc, Matrix::new(1, 20, fuse))?;
    let second: Relays = Box::new(alloc, Matrix::new(2, 16, recording(&records[1])?))?;
    let third: Relays = Box::new(alloc, Mux::new(3, 10, 1, recording(&records[2])?))?;
    Ok((first, second, third))
}

#[test]
fn a_failure_opens_every_card(rt: HostRuntime) -> Result<(), Fail> {
    let records = records(rt.alloc())?;
    let cards = recorded(rt.alloc(), &records)?;
    let meter = voltmeter(rt.alloc())?;
    assert!(rt; blows_at_rest(rt.alloc(), cards, meter, &records));
    Ok(())
}

/// A driver that each cut turns: the first one, which a new card does, makes it sure, the next one unsure, and so on.
#[derive(Drop)]
struct Doubter {
    coils: SimDriver,
    is_sure: bool,
}

impl Driver for Doubter {
    ghost driven = { λ d k. ⟦<SimDriver as Driver>⟧.driven d.coils k };

    ghost sure = { λ d. d.is_sure };

    fn drive(&mut self, ch: u8, on: bool) -> Result<(), CardFault> {
        self.coils.drive(ch, on)
    }

    fn is_sure(&self) -> bool {
        self.is_sure
    }

    fn cut(&mut self) {
        self.is_sure = !self.is_sure;
        self.coils.cut();
    }
}

/// Two multiplexers, and a matrix for slot 3 that is sure of its relays until the next cut.
fn doubtful(alloc: Global) -> Result<(Relays, Relays, Relays), AllocError> {
    let doubter = Doubter {
        coils: SimDriver::new(),
        is_sure: false,
    };
    let last: Relays = Box::new(alloc, Matrix::new(3, 8, doubter))?;
    Ok((mux(alloc, 1, 1)?, mux(alloc, 2, 1)?, last))
}

/// Whether QUEStionable's condition is this while slot 3 says so of its relays; all other answers of the groups are 0.
fn is_told<R: Relay, M: Meter>(
    alloc: Global,
    core: &mut Core<R, M>,
    sid: Sid,
    condition: &[u8],
    word: &[u8],
) -> bool {
    tells(alloc, core, sid, b"STAT:QUES:COND?", condition)
        && tells(alloc, core, sid, b"SYST:CTYP:STAT? 3", word)
        && tells(alloc, core, sid, b"STAT:OPER:COND?", b"0")
        && tells(alloc, core, sid, b"STAT:QUES?", b"0")
        && tells(alloc, core, sid, b"STAT:QUES:ENAB?", b"0")
}

/// Whether the condition follows the card of slot 3 while each cut turns what it says.
fn doubts<R: Relay, M: Meter>(alloc: Global, core: &mut Core<R, M>, sid: Sid) -> bool {
    is_told(alloc, core, sid, b"0", b"SURE")
        && does(alloc, core, sid, b"ROUT:OPEN:ALL")
        && is_told(alloc, core, sid, b"512", b"UNS")
        && does(alloc, core, sid, b"ROUT:OPEN:ALL")
        && is_told(alloc, core, sid, b"0", b"SURE")
}

/// The same over a core that is at rest.
fn doubts_at_rest<R: Relay, M: Meter>(alloc: Global, cards: (R, R, R), meter: M) -> bool {
    let Ok(mut core) = Core::new(alloc) else {
        return false;
    };
    let is_so = match fit(alloc, &mut core, cards, meter) {
        Some(sid) => doubts(alloc, &mut core, sid),
        None => false,
    };
    drop(core);
    is_so
}

#[test]
fn the_condition_tells_of_an_unsure_card(rt: HostRuntime) -> Result<(), Fail> {
    let cards = doubtful(rt.alloc())?;
    let meter = voltmeter(rt.alloc())?;
    assert!(rt; doubts_at_rest(rt.alloc(), cards, meter));
    Ok(())
}

/// Whether a card of 99 channels in slot 8 closes each of them, and then opens the last one.
fn closes_each<R: Relay, M: Meter>(alloc: Global, core: &mut Core<R, M>, wide: R) -> bool {
    let Some(sid) = joined(alloc, core) else {
        return false;
    };
    install(alloc, core, 8, Card::relays(wide))
        && does(alloc, core, sid, b"ROUT:CLOS (@8!1:8!99)")
        && tells(alloc, core, sid, b"ROUT:CLOS? (@8!99,8!1)", b"1,1")
        && does(alloc, core, sid, b"ROUT:OPEN (@8!99)")
        && tells(alloc, core, sid, b"ROUT:CLOS? (@8!99,8!1)", b"0,1")
}

/// The same over a mainframe that has no card, and then takes a meter.
fn closes_each_at_rest<R: Relay, M: Meter>(alloc: Global, wide: R, meter: M) -> bool {
    let Ok(mut core) = Core::new(alloc) else {
        return false;
    };
    let is_so = closes_each(alloc, &mut core, wide)
        && install(alloc, &mut core, 4, Card::meter(meter));
    drop(core);
    is_so
}

#[test]
fn a_card_of_99_channels(rt: HostRuntime) -> Result<(), Fail> {
    let wide: Relays = Box::new(rt.alloc(), Matrix::new(8, 99, SimDriver::new()))?;
    let meter = voltmeter(rt.alloc())?;
    assert!(rt; closes_each_at_rest(rt.alloc(), wide, meter));
    Ok(())
}
