//! READ? while another session meddles with its scan.

use crate::session::{Bench, bench, joins};
use std::alloc::Global;
use std::mem::replace;
use sw_core::{SessionAnswer, SessionAsk, Sid};
use sw_session::{Desk, Talker, View, Wake};

/// A desk; at its first wait another session sends a message.
#[derive(Drop)]
struct Meddled {
    alloc: Global,
    desk: Bench,
    other: Sid,
    /// The message, until the desk sends it.
    message: &'static [u8],
}

impl Desk for Meddled {
    ghost passes = { λ old entry new. Unit {0} };

    fn ask(&mut self, ask: SessionAsk) -> SessionAnswer {
        self.desk.ask(ask)
    }

    fn wait(&mut self, limit_ms: Option<u32>) -> Wake {
        if self.message.is_empty() {
            return self.desk.wait(limit_ms);
        }
        let message = replace(&mut self.message, b"");
        drop(line_of(self.alloc, &mut self.desk, self.other, message));
        Wake::Again(limit_ms)
    }

    fn poll(&mut self, sid: Sid) -> View {
        self.desk.poll(sid)
    }

    fn note(&mut self, sid: Sid, mav: bool) {
        self.desk.note(sid, mav);
    }
}

/// What a session answers to a message.
fn line_of<D: Desk>(alloc: Global, desk: &mut D, sid: Sid, message: &[u8]) -> Vec<u8> {
    let mut session = Talker::new(alloc, sid);
    let line = session.message(message, desk);
    drop(session);
    line
}

/// Whether a session answers this to a message.
fn tells<D: Desk>(alloc: Global, desk: &mut D, sid: Sid, message: &[u8], wanted: &[u8]) -> bool {
    let line = line_of(alloc, desk, sid, message);
    line.as_slice() == wanted
}

/// A message that reads a scan, what another session sends meanwhile, the answer, and the errors then.
#[derive(Clone, Copy)]
struct Row {
    read: &'static [u8],
    meddling: &'static [u8],
    answer: &'static [u8],
    errors: &'static [u8],
}

/// Whether it comes so over a desk of its own.
fn comes_so(alloc: Global, row: &Row) -> bool {
    let Some((mut desk, sid)) = bench(alloc) else {
        return false;
    };
    let Some(other) = joins(&mut desk) else {
        drop(desk);
        return false;
    };
    let mut meddled = Meddled {
        alloc,
        desk,
        other,
        message: row.meddling,
    };
    let is_so = tells(alloc, &mut meddled, sid, row.read, row.answer)
        && tells(alloc, &mut meddled, sid, b"SYST:ERR:ALL?", row.errors);
    drop(meddled);
    is_so
}

const AT_ONCE: &[u8] = b"ROUT:SCAN (@1!1);:TRIG:COUN 3;:READ?";

const BY_BUS: &[u8] = b"ROUT:SCAN (@1!1);:TRIG:SOUR BUS;:READ?";

const NONE: &[u8] = b"0,\"No error\"\n";

const STALE: &[u8] = b"-230,\"Data corrupt or stale\"\n";

#[test]
fn reads_its_scan_beside_others(rt: HostRuntime) {
    let alloc = rt.alloc();
    let looked_on = Row {
        read: AT_ONCE,
        meddling: b"*IDN?;:ROUT:CLOS:STAT?",
        answer: b"0.000000001,0.000000002,0.000000003\n",
        errors: NONE,
    };
    let triggered = Row {
        read: BY_BUS,
        meddling: b"*TRG",
        answer: b"0.000000001\n",
        errors: NONE,
    };
    assert!(rt; comes_so(alloc, &looked_on) && comes_so(alloc, &triggered));
}

#[test]
fn reads_nothing_of_a_scan_that_was_broken_off(rt: HostRuntime) {
    let alloc = rt.alloc();
    let aborted = Row {
        read: AT_ONCE,
        meddling: b"ABOR",
        answer: b"",
        errors: STALE,
    };
    let reset = Row {
        read: BY_BUS,
        meddling: b"*RST",
        answer: b"",
        errors: STALE,
    };
    assert!(rt; comes_so(alloc, &aborted) && comes_so(alloc, &reset));
}

#[test]
fn reads_nothing_of_a_scan_that_another_began_since(rt: HostRuntime) {
    let another = Row {
        read: BY_BUS,
        meddling: b"ABOR;:TRIG:SOUR IMM;:INIT;*WAI",
        answer: b"",
        errors: STALE,
    };
    assert!(rt; comes_so(rt.alloc(), &another));
}
