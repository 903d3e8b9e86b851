//! Every query of a core, answered with ample memory: a contract lets each of them report a lack of memory.

use crate::asks::{answer_of, does, eject, fit, take, unit, was_refused};
use crate::boxes::{three, voltmeter};
use crate::scans::{carry_out, done, initiate};
use std::alloc::Global;
use std::test::Fail;
use sw_base::ScpiError;
use sw_card::{Meter, Relay};
use sw_core::{Core, SessionAnswer, SessionAsk, Sid, Work};
use sw_lex::Command;

/// Queries of relays and settings.
const SETTINGS: [&[u8]; 22] = [
    b"ROUT:CLOS? (@1!1)",
    b"ROUT:OPEN? (@1!1,2!1)",
    b"ROUT:CLOS:STAT?",
    b"ROUT:CHAN:DEL?",
    b"ROUT:SCAN?",
    b"ROUT:SCAN:MET?",
    b"ARM:COUN?",
    b"ARM:LAY3:COUN?",
    b"TRIG:COUN?",
    b"ARM:LAY2:SOUR?",
    b"TRIG:SOUR?",
    b"ARM:DEL?",
    b"TRIG:DEL?",
    b"ARM:LAY3:TIM?",
    b"TRIG:TIM?",
    b"TRAC:POIN?",
    b"TRAC:POIN:ACT?",
    b"DIAG:SCAN:BOUN?",
    b"DIAG:SCAN:CHEC?",
    b"INIT:CONT?",
    b"FETC?",
    b"*OPC?",
];

/// Queries of status, errors and the instrument.
const STATUS: [&[u8]; 27] = [
    b"*IDN?",
    b"*TST?",
    b"*STB?",
    b"*ESR?",
    b"*ESE?",
    b"*SRE?",
    b"STAT:OPER?",
    b"STAT:OPER:COND?",
    b"STAT:OPER:ENAB?",
    b"STAT:OPER:PTR?",
    b"STAT:OPER:NTR?",
    b"STAT:QUES?",
    b"STAT:QUES:COND?",
    b"STAT:QUES:ENAB?",
    b"STAT:QUES:PTR?",
    b"STAT:QUES:NTR?",
    b"SYST:ERR?",
    b"SYST:ERR:ALL?",
    b"SYST:ERR:COUN?",
    b"SYST:HELP:HEAD?",
    b"SYST:VERS?",
    b"SYST:ERR:NEXT?",
    b"SYST:CTYP? 1",
    b"SYST:CTYP? 4",
    b"SYST:CTYP:GRO? 1",
    b"SYST:CTYP:STAT? 1",
    b"SYST:CTYP:STAT? 16",
];

/// Whether the answer is a text.
fn is_text(answer: &Option<SessionAnswer>) -> bool {
    matches!(answer, Some(SessionAnswer::Done(Some(_))))
}

/// Whether a query has some text as its answer.
fn answers<R: Relay, M: Meter>(
    alloc: Global,
    core: &mut Core<R, M>,
    sid: Sid,
    query: &[u8],
) -> bool {
    let answer = unit(alloc, core, sid, query);
    let is_so = is_text(&answer);
    drop(answer);
    is_so
}

/// Whether each query is.
fn answers_each<R: Relay, M: Meter>(
    alloc: Global,
    core: &mut Core<R, M>,
    sid: Sid,
    queries: &[&[u8]],
) -> bool {
    let mut is_so = true;
    for query in queries {
        is_so = is_so && answers(alloc, core, sid, query);
    }
    is_so
}

/// Whether a scan of one reading is over.
fn reads_once<R: Relay, M: Meter>(alloc: Global, core: &mut Core<R, M>, sid: Sid) -> bool {
    if !does(alloc, core, sid, b"ROUT:SCAN (@1!1)") {
        return false;
    }
    let work = initiate(alloc, core, sid);
    matches!(carry_out(alloc, core, work), Ok(1))
}

/// Whether all queries have answers after a scan has read.
fn tells_all<R: Relay, M: Meter>(alloc: Global, cards: (R, R, R), meter: M) -> bool {
    let Ok(mut core) = Core::new(alloc) else {
        return false;
    };
    let is_so = match fit(alloc, &mut core, cards, meter) {
        Some(sid) => {
            reads_once(alloc, &mut core, sid)
                && answers_each(alloc, &mut core, sid, &SETTINGS)
                && answers_each(alloc, &mut core, sid, &STATUS)
        }
        None => false,
    };
    drop(core);
    is_so
}

#[test]
fn no_query_lacks_memory(rt: HostRuntime) -> Result<(), Fail> {
    let cards = three(rt.alloc())?;
    let meter = voltmeter(rt.alloc())?;
    assert!(rt; tells_all(rt.alloc(), cards, meter));
    Ok(())
}

/// The answer to an ask for `count` readings of the scan with this number.
fn readings<R: Relay, M: Meter>(
    alloc: Global,
    core: &mut Core<R, M>,
    sid: Sid,
    number: u64,
    count: u64,
) -> Option<SessionAnswer> {
    let command = Command::ScanReadings(number, count);
    answer_of(alloc, core, SessionAsk::Unit(sid, command, false))
}

/// Whether the mainframe answers them.
fn has_readings<R: Relay, M: Meter>(
    alloc: Global,
    core: &mut Core<R, M>,
    sid: Sid,
    number: u64,
    count: u64,
) -> bool {
    let answer = readings(alloc, core, sid, number, count);
    let is_so = is_text(&answer);
    drop(answer);
    is_so
}

/// Whether the mainframe refuses them as stale.
fn lacks_readings<R: Relay, M: Meter>(
    alloc: Global,
    core: &mut Core<R, M>,
    sid: Sid,
    number: u64,
    count: u64,
) -> bool {
    let answer = readings(alloc, core, sid, number, count);
    was_refused(answer, ScpiError::DataCorruptOrStale)
}

/// Whether of two scans the mainframe answers only the last one's readings, until a reset drops them.
fn tells_last_readings<R: Relay, M: Meter>(alloc: Global, core: &mut Core<R, M>, sid: Sid) -> bool {
    reads_once(alloc, core, sid)
        && has_readings(alloc, core, sid, 1, 1)
        && lacks_readings(alloc, core, sid, 0, 1)
        && lacks_readings(alloc, core, sid, 2, 1)
        && lacks_readings(alloc, core, sid, 1, 2)
        && reads_once(alloc, core, sid)
        && lacks_readings(alloc, core, sid, 1, 1)
        && has_readings(alloc, core, sid, 2, 1)
        && does(alloc, core, sid, b"*RST")
        && lacks_readings(alloc, core, sid, 2, 1)
}

/// Whether a mainframe of these cards does so.
fn keeps_scans_apart<R: Relay, M: Meter>(alloc: Global, cards: (R, R, R), meter: M) -> bool {
    let Ok(mut core) = Core::new(alloc) else {
        return false;
    };
    let is_so = match fit(alloc, &mut core, cards, meter) {
        Some(sid) => tells_last_readings(alloc, &mut core, sid),
        None => false,
    };
    drop(core);
    is_so
}

#[test]
fn readings_are_those_of_one_scan(rt: HostRuntime) -> Result<(), Fail> {
    let cards = three(rt.alloc())?;
    let meter = voltmeter(rt.alloc())?;
    assert!(rt; keeps_scans_apart(rt.alloc(), cards, meter));
    Ok(())
}

/// What is awaited once this piece of work is done.
fn next_of<R: Relay, M: Meter>(
    alloc: Global,
    core: &mut Core<R, M>,
    work: Option<Work<M>>,
) -> Option<Work<M>> {
    match work {
        Some(work) => match take(alloc, core, done(work)) {
            Ok(next) => next,
            Err(_) => None,
        },
        None => None,
    }
}

/// Whether the slot's card comes out.
fn comes_out<R: Relay, M: Meter>(alloc: Global, core: &mut Core<R, M>, slot: u8) -> bool {
    let card = eject(alloc, core, slot);
    let is_so = card.is_some();
    drop(card);
    is_so
}

/// Whether an eject after the first of two readings leaves a scan that has not all of its own.
fn lacks_ejected<R: Relay, M: Meter>(alloc: Global, core: &mut Core<R, M>, sid: Sid) -> bool {
    let is_set = does(alloc, core, sid, b"ROUT:SCAN (@1!1)")
        && does(alloc, core, sid, b"TRIG:COUN 2");
    let first = initiate(alloc, core, sid);
    let second = next_of(alloc, core, first);
    let is_out = second.is_some() && comes_out(alloc, core, 1);
    drop(second);
    is_set
        && is_out
        && lacks_readings(alloc, core, sid, 1, 2)
        && has_readings(alloc, core, sid, 1, 1)
}

/// Whether a mainframe of these cards does so.
fn ejects_from_a_scan<R: Relay, M: Meter>(alloc: Global, cards: (R, R, R), meter: M) -> bool {
    let Ok(mut core) = Core::new(alloc) else {
        return false;
    };
    let is_so = match fit(alloc, &mut core, cards, meter) {
        Some(sid) => lacks_ejected(alloc, &mut core, sid),
        None => false,
    };
    drop(core);
    is_so
}

#[test]
fn an_eject_leaves_readings_that_are_not_all(rt: HostRuntime) -> Result<(), Fail> {
    let cards = three(rt.alloc())?;
    let meter = voltmeter(rt.alloc())?;
    assert!(rt; ejects_from_a_scan(rt.alloc(), cards, meter));
    Ok(())
}
