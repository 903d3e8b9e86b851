//! Messages over a desk with canned answers.

use crate::asks::{install, joined};
use crate::positions::one_each;
use std::alloc::Global;
use std::process::Abort;
use std::test::Fail;
use sw_base::{Boxed, Chan, ScpiError, Sequence};
use sw_card::Card;
use sw_core::{AnswerText, Core, SessionAnswer, SessionAsk, Sid};
use sw_kinds::{Mux, SimDriver, SimSource, Volt};
use sw_lex::{Command, PlainQuery};
use sw_session::{CoreDesk, Desk, Talker, View, Wake};
use sw_trigger::Settings;
use sw_verify::{Layout, Loaded, Setup, Slot, Snapshot};

/// A desk that identifies itself, finds no hardware for anything else, and holds the first units.
#[derive(Drop)]
struct Canned {
    alloc: Global,
    /// How many units are still held.
    held: u32,
    /// How many waits are still followed by another.
    waits: u32,
    /// Whether a wait had a limit.
    limited: bool,
    /// The numbers of the errors that were queued.
    faults: Vec<i16>,
    /// Whether the last unit came with the flag that its message had answered before.
    answered: bool,
    /// What the next scan would begin from; where there is nothing, a snapshot is refused.
    snapshot: Option<Boxed<Snapshot>>,
    /// How many scans were started.
    started: u32,
    /// The number of the scan of the last ask for readings, and how many that asked for.
    due: (u64, u64),
}

impl Canned {
    fn new(alloc: Global, held: u32, waits: u32) -> Self {
        Canned {
            alloc,
            held,
            waits,
            limited: false,
            faults: Vec::new(alloc),
            answered: false,
            snapshot: None,
            started: 0,
            due: (0, 0),
        }
    }

    fn unit(&mut self, command: Command, answered: bool) -> Result<Sequence<u8>, ScpiError> {
        self.answered = answered;
        let due = asked_readings(&command);
        if let Some(due) = due {
            self.due = due;
        }
        let is_known = due.is_some() || asks_identity(&command);
        drop(command);
        if !is_known {
            return Err(ScpiError::HardwareMissing);
        }
        let text = Vec::from_slice(self.alloc, b"OPENBENCH,SWM8,0,1.0")?;
        Ok(Sequence::new(text))
    }
}

fn asks_identity(command: &Command) -> bool {
    matches!(command, Command::Query(PlainQuery::Identify))
}

/// The number of the scan of an ask for readings, and how many it asks for.
fn asked_readings(command: &Command) -> Option<(u64, u64)> {
    match command {
        Command::ScanReadings(number, count) => Some((*number, *count)),
        _ => None,
    }
}

impl Desk for Canned {
    ghost passes = { λ old entry new. Unit {0} };

    fn ask(&mut self, ask: SessionAsk) -> SessionAnswer {
        match ask {
            SessionAsk::Unit(sid, command, answered) => {
                if self.held > 0 {
                    self.held -= 1;
                    return SessionAnswer::Hold(SessionAsk::Unit(sid, command, answered));
                }
                match self.unit(command, answered) {
                    Ok(text) => SessionAnswer::Done(Some(AnswerText::bytes(text))),
                    Err(error) => SessionAnswer::Refused(error),
                }
            }
            SessionAsk::Fault(_, error) => {
                let _ = self.faults.push(error.code());
                SessionAnswer::Done(None)
            }
            SessionAsk::Snapshot(_) => match self.snapshot.take() {
                Some(snapshot) => SessionAnswer::Snapshot(snapshot, 6),
                None => SessionAnswer::Refused(ScpiError::InitIgnored),
            },
            SessionAsk::Start(_, plan) => {
                drop(plan);
                self.started = self.started.saturating_add(1);
                SessionAnswer::Done(None)
            }
            other => {
                drop(other);
                SessionAnswer::Stranger
            }
        }
    }

    fn wait(&mut self, limit_ms: Option<u32>) -> Wake {
        self.limited = self.limited || limit_ms.is_some();
        if self.waits == 0 {
            return Wake::Over;
        }
        self.waits -= 1;
        Wake::Again(limit_ms)
    }

    fn poll(&mut self, _sid: Sid) -> View {
        View {
            byte: 0,
            requests: 0,
            mav: false,
        }
    }

    fn note(&mut self, _sid: Sid, _mav: bool) {}
}

fn talker(alloc: Global) -> Talker {
    Talker::new(
        alloc,
        Sid {
            number: 1,
            joined: 0,
        },
    )
}

/// Whether a session answers this to a message.
fn tells(session: &mut Talker, desk: &mut Canned, message: &[u8], wanted: &[u8]) -> bool {
    let line = session.message(message, desk);
    line.as_slice() == wanted
}

/// Whether a new session answers this to a message.
fn answers(alloc: Global, desk: &mut Canned, message: &[u8], wanted: &[u8]) -> bool {
    let mut session = talker(alloc);
    let is_so = tells(&mut session, desk, message, wanted);
    drop(session);
    is_so
}

/// Whether these are the numbers of the errors that were queued.
fn has_faults(desk: &Canned, wanted: &[i16]) -> bool {
    desk.faults.as_slice() == wanted
}

const IDENTITY: &[u8] = b"OPENBENCH,SWM8,0,1.0\n";

#[test]
fn joins_answers(rt: HostRuntime) {
    let mut desk = Canned::new(rt.alloc(), 0, 0);
    assert!(rt;
        answers(
            rt.alloc(),
            &mut desk,
            b"*IDN?;;*IDN?\n",
            b"OPENBENCH,SWM8,0,1.0;OPENBENCH,SWM8,0,1.0\n"
        )
    );
    assert!(rt; desk.answered);
    drop(desk);
}

#[test]
fn drops_rest_after_unknown_header(rt: HostRuntime) {
    let mut desk = Canned::new(rt.alloc(), 0, 0);
    assert!(rt; answers(rt.alloc(), &mut desk, b"*IDN?;FOO;*IDN?", IDENTITY));
    assert!(rt; has_faults(&desk, &[-113]));
    drop(desk);
}

#[test]
fn goes_on_after_missing_hardware(rt: HostRuntime) {
    let mut desk = Canned::new(rt.alloc(), 0, 0);
    assert!(rt; answers(rt.alloc(), &mut desk, b"ROUT:CLOS (@5!1);*IDN?", IDENTITY));
    assert!(rt; !desk.answered);
    drop(desk);
}

#[test]
fn asks_again_until_waiting_is_over(rt: HostRuntime) {
    let mut desk = Canned::new(rt.alloc(), 3, 2);
    assert!(rt; answers(rt.alloc(), &mut desk, b"*IDN?;*IDN?", IDENTITY));
    assert!(rt; has_faults(&desk, &[-221]));
    assert!(rt; !desk.limited);
    drop(desk);
}

/// Blanks, and this behind them.
fn long_message(alloc: Global, end: &[u8]) -> Result<Vec<u8>, Fail> {
    let mut text = Vec::new(alloc);
    text.resize(65_530, b' ')?;
    text.extend_from_slice(end)?;
    Ok(text)
}

/// Whether a new session answers this to a message of 65,530 blanks and the given end.
fn answers_long(alloc: Global, desk: &mut Canned, end: &[u8], wanted: &[u8]) -> Result<bool, Fail> {
    let text = long_message(alloc, end)?;
    Ok(answers(alloc, desk, text.as_slice(), wanted))
}

fn take_65536(rt: &impl Abort, alloc: Global, desk: &mut Canned) -> Result<(), Fail> {
    assert!(rt; answers_long(alloc, desk, b"*IDN?;\n", IDENTITY)?);
    assert!(rt; answers_long(alloc, desk, b"*IDN?;\n\n", b"")?);
    assert!(rt; has_faults(desk, &[-363]));
    Ok(())
}

#[test]
fn takes_65536_bytes(rt: HostRuntime) -> Result<(), Fail> {
    let mut desk = Canned::new(rt.alloc(), 0, 0);
    let result = take_65536(&rt, rt.alloc(), &mut desk);
    drop(desk);
    result
}

/// A cage of four channels in slot 1 and a meter in slot 4, with these channels in the scan's list.
fn snapshot(alloc: Global, list: &[Chan]) -> Result<Boxed<Snapshot>, Fail> {
    let mut settings = Settings::new(alloc);
    settings.set_list(one_each(alloc, list)?)?;
    let mut slots = Vec::new(alloc);
    slots.push(Slot::relays([1; 4].to_vec(alloc)?))?;
    slots.push(Slot::empty())?;
    slots.push(Slot::empty())?;
    slots.push(Slot::meter())?;
    let snapshot = Snapshot {
        settings: Setup {
            scan: settings,
            program: Loaded::Nothing,
        },
        layout: Layout::new(slots),
        closed: Sequence::new(Vec::new(alloc)),
    };
    Ok(Boxed::new(alloc, snapshot)?)
}

/// The desk's next scan would begin from these channels.
fn offer(alloc: Global, desk: &mut Canned, list: &[Chan]) -> Result<(), Fail> {
    let snapshot = snapshot(alloc, list)?;
    let before = desk.snapshot.replace(snapshot);
    drop(before);
    Ok(())
}

#[test]
fn starts_the_scan_of_a_snapshot(rt: HostRuntime) -> Result<(), Fail> {
    let mut desk = Canned::new(rt.alloc(), 0, 0);
    let offered = offer(rt.alloc(), &mut desk, &[Chan::new(1, 1)]);
    assert!(rt; answers(rt.alloc(), &mut desk, b"INIT;*IDN?", IDENTITY));
    assert_eq!(rt; desk.started, 1);
    assert!(rt; desk.faults.is_empty());
    drop(desk);
    offered
}

#[test]
fn reads_the_scan_that_it_began(rt: HostRuntime) -> Result<(), Fail> {
    let mut desk = Canned::new(rt.alloc(), 2, 2);
    let offered = offer(rt.alloc(), &mut desk, &[Chan::new(1, 1)]);
    assert!(rt; answers(rt.alloc(), &mut desk, b"READ?", IDENTITY));
    assert_eq!(rt; desk.started, 1);
    assert!(rt; desk.due == (7, 1) && desk.faults.is_empty());
    drop(desk);
    offered
}

/// Scans that are asked to be read, of no channel, and where the snapshot is refused.
fn read_nothing(rt: &impl Abort, alloc: Global, desk: &mut Canned) -> Result<(), Fail> {
    offer(alloc, desk, &[])?;
    assert!(rt; answers(alloc, desk, b"READ?;*IDN?", IDENTITY));
    assert!(rt; answers(alloc, desk, b"READ?", b""));
    assert!(rt; has_faults(desk, &[-221]));
    assert!(rt; desk.started == 0 && desk.due == (0, 0));
    Ok(())
}

#[test]
fn reads_nothing_of_a_scan_that_may_not_begin(rt: HostRuntime) -> Result<(), Fail> {
    let mut desk = Canned::new(rt.alloc(), 0, 0);
    let result = read_nothing(&rt, rt.alloc(), &mut desk);
    drop(desk);
    result
}

/// A scan of no channel, and one of a channel that the cage lacks.
fn begin_nothing(rt: &impl Abort, alloc: Global, desk: &mut Canned) -> Result<(), Fail> {
    offer(alloc, desk, &[])?;
    assert!(rt; answers(alloc, desk, b"INIT", b""));
    offer(alloc, desk, &[Chan::new(5, 1)])?;
    assert!(rt; answers(alloc, desk, b"INIT;*IDN?", IDENTITY));
    assert!(rt; has_faults(desk, &[-221, -241]));
    assert_eq!(rt; desk.started, 0);
    Ok(())
}

#[test]
fn queues_why_a_scan_may_not_begin(rt: HostRuntime) -> Result<(), Fail> {
    let mut desk = Canned::new(rt.alloc(), 0, 0);
    let result = begin_nothing(&rt, rt.alloc(), &mut desk);
    drop(desk);
    result
}

#[test]
fn starts_nothing_where_the_snapshot_is_refused(rt: HostRuntime) {
    let mut desk = Canned::new(rt.alloc(), 0, 0);
    assert!(rt; answers(rt.alloc(), &mut desk, b"INIT;*IDN?", IDENTITY));
    assert_eq!(rt; desk.started, 0);
    assert!(rt; desk.faults.is_empty());
    drop(desk);
}

#[test]
fn a_refused_reset_leaves_macros_on(rt: HostRuntime) {
    let mut desk = Canned::new(rt.alloc(), 0, 0);
    let mut session = talker(rt.alloc());
    assert!(rt;
        tells(
            &mut session,
            &mut desk,
            b"*DMC 'A',#15*IDN?;*EMC 1;*RST;A;*EMC?",
            b"OPENBENCH,SWM8,0,1.0;1\n"
        )
    );
    assert!(rt; desk.faults.is_empty());
    assert!(rt; tells(&mut session, &mut desk, b"*RMC 'B';A 1,2\n", IDENTITY));
    assert!(rt; has_faults(&desk, &[-278]));
    drop(session);
    drop(desk);
}

#[test]
fn a_label_of_one_session_is_none_of_another(rt: HostRuntime) {
    let mut desk = Canned::new(rt.alloc(), 0, 0);
    assert!(rt; answers(rt.alloc(), &mut desk, b"*DMC 'A',#15*IDN?", b""));
    assert!(rt; answers(rt.alloc(), &mut desk, b"*EMC?;*LMC?;*EMC 1;A", b"0;\"\"\n"));
    assert!(rt; has_faults(&desk, &[-113]));
    drop(desk);
}

pub type Bench = CoreDesk<Mux<SimDriver>, Volt<SimSource>>;

/// Puts four channels into slot 1 and a meter into slot 4, and joins as a session.
fn fit_bench(alloc: Global, core: &mut Core<Mux<SimDriver>, Volt<SimSource>>) -> Option<Sid> {
    let mux = Mux::new(1, 4, 1, SimDriver::new());
    let has_mux = install(alloc, core, 1, Card::relays(mux));
    let volt = Volt::new(4, SimSource::new(1, 1));
    let has_meter = install(alloc, core, 4, Card::meter(volt));
    if has_mux && has_meter {
        return joined(alloc, core);
    }
    None
}

/// A desk over such a mainframe, and a session.
pub fn bench(alloc: Global) -> Option<(Bench, Sid)> {
    let Ok(mut core) = Core::new(alloc) else {
        return None;
    };
    match fit_bench(alloc, &mut core) {
        Some(sid) => Some((CoreDesk::new(alloc, core), sid)),
        None => {
            drop(core);
            None
        }
    }
}

/// Whether a message has no answer.
fn is_silent<D: Desk>(alloc: Global, desk: &mut D, sid: Sid, message: &[u8]) -> bool {
    let mut session = Talker::new(alloc, sid);
    let line = session.message(message, desk);
    drop(session);
    line.is_empty()
}

/// Whether a wait with this limit answers that.
fn waits<D: Desk>(desk: &mut D, limit_ms: Option<u32>, wanted: Wake) -> bool {
    desk.wait(limit_ms) == wanted
}

/// Waits for a pause and a measurement, and once more.
fn wait_out<D: Desk>(rt: &impl Abort, alloc: Global, desk: &mut D, sid: Sid) {
    assert!(rt; is_silent(alloc, desk, sid, b"ROUT:SCAN (@1!1);:TRIG:DEL 1;:INIT"));
    assert!(rt; waits(desk, Some(500), Wake::Again(Some(500))));
    assert!(rt; waits(desk, None, Wake::Again(None)));
    assert!(rt; waits(desk, Some(500), Wake::Over));
}

#[test]
fn all_of_a_limit_is_left_until_nothing_is_outstanding(rt: HostRuntime) -> Result<(), Fail> {
    let Some((mut desk, sid)) = bench(rt.alloc()) else {
        return Err("no session was joined")?;
    };
    wait_out(&rt, rt.alloc(), &mut desk, sid);
    drop(desk);
    Ok(())
}

/// Whether the desk shows this session error and service request, and whether a message is available for it.
fn shows<D: Desk>(desk: &mut D, sid: Sid, mav: bool) -> bool {
    let view = View {
        byte: 4,
        requests: 1,
        mav,
    };
    desk.poll(sid) == view
}

/// The session that joins by the desk.
pub fn joins<D: Desk>(desk: &mut D) -> Option<Sid> {
    match desk.ask(SessionAsk::Join) {
        SessionAnswer::Joined(sid) => Some(sid),
        other => {
            drop(other);
            None
        }
    }
}

/// Notes of a session, and of one of its number that isn't joined, after an error that asks for service.
fn note<D: Desk>(rt: &impl Abort, alloc: Global, desk: &mut D, sid: Sid) {
    let later = Sid {
        number: sid.number,
        joined: sid.joined.saturating_add(1),
    };
    assert!(rt; is_silent(alloc, desk, sid, b"*SRE 4;FOO"));
    assert!(rt; shows(desk, sid, false));
    desk.note(sid, true);
    desk.note(later, true);
    assert!(rt; shows(desk, sid, true) && shows(desk, later, false));
    desk.note(later, false);
    assert!(rt; shows(desk, sid, true));
    desk.note(sid, false);
    assert!(rt; shows(desk, sid, false));
}

#[test]
fn a_desk_tells_the_status_and_what_a_session_noted(rt: HostRuntime) -> Result<(), Fail> {
    let Some((mut desk, _)) = bench(rt.alloc()) else {
        return Err("no session was joined")?;
    };
    let second = joins(&mut desk);
    if let Some(sid) = second {
        note(&rt, rt.alloc(), &mut desk, sid);
    }
    drop(desk);
    assert!(rt; second.is_some());
    Ok(())
}
