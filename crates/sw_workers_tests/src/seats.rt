//! A seat that was split from a desk's own, and what is read of it while another thread has the mainframe's lock.

ghost use Rattle.std.specs.Prelude.{◌≡◌};
ghost use Rattle.sw_core.specs.Opening.{IsFresh};
ghost use Rattle.sw_history.specs.Came.{AllCame};

use crate::board::{holds, reads};
use crate::shop::fitted;
use std::alloc::Global;
use std::marker::Brand;
use std::process::Abort;
use std::sync::atomic::AtomicBool;
use std::sync::{Arc, Mutex, Wait};
use std::test::*;
use std::thread::{Threads, join};
use std::time::Clock;
use sw_base::ScpiError;
use sw_card::{Meter, Relay};
use sw_core::{Answer, Ask, SessionAnswer, SessionAsk, Sid};
use sw_history::Recorded;
use sw_kinds::{SimDriver, SimSource};
use sw_lex::{Command, StatusSetting};
use sw_workers::{DeskPart, Held, Mainframe, Opening, StatusBoard, StatusSeat};

/// A mainframe behind its lock, and the desk of its second session.
#[derive(Drop)]
struct Scene<H: Mainframe, R: Relay, M: Meter> {
    board: Arc<StatusBoard<H>, Global>,
    held: Held<H, R, M>,
    part: DeskPart<H>,
    sid: Sid,
}

/// Joins as a session, by a desk.
fn joins<H: Mainframe, R: Relay, M: Meter>(
    held: &mut Held<H, R, M>,
    part: &mut DeskPart<H>,
) -> Option<Sid> {
    let answer = held.ask(part, Ask::Session(SessionAsk::Join));
    let sid = joined(&answer);
    drop(answer);
    sid
}

/// The session that the answer says has joined.
fn joined<R: Relay, M: Meter>(answer: &Answer<R, M>) -> Option<Sid> {
    match answer {
        Answer::Session(SessionAnswer::Joined(sid), _) => Some(*sid),
        _ => None,
    }
}

impl<H: Mainframe, R: Relay, M: Meter> Scene<H, R, M> {
    /// A mainframe with two sessions.
    fn open(alloc: Global, opening: Opening<R, M>) -> Option<Self>
        requires first { (opening.core.seen ≡ H.first) × IsFresh opening.core.seen }
        requires came { AllCame H.came opening.core.cards }
        requires ledger { (opening.blank.name ≡ H.name) × (opening.blank.parts ≡ H.parts) }
        requires board { (opening.board.table.shared.table_id ≡ H.table)
            × (opening.board.table.shared.key ≡ H.opening) }
    {
        let Opening { core, blank, board } = opening;
        let (events, spare) = blank.open::<H>();
        let (board, pass) = board.open::<H>();
        let board = Arc::new(alloc, board).ok()?;
        let recorded = Recorded::new(core, pass, Arc::try_clone(&board).ok()?);
        let mut held = Held::new(alloc, recorded, events, spare).ok()?;
        let mut first = held.new_part()?;
        let mut part = held.new_part()?;
        joins(&mut held, &mut first)?;
        let sid = joins(&mut held, &mut part)?;
        Some(Scene {
            board,
            held,
            part,
            sid,
        })
    }

    /// The session wants to be served at an error.
    fn enables(&mut self) {
        let enable = Command::SetStatus(StatusSetting::ServiceEnable(4));
        let enables = SessionAsk::Unit(self.sid, enable, false);
        drop(self.held.ask(&mut self.part, Ask::Session(enables)));
    }

    /// It is at fault.
    fn errs(&mut self) {
        let fault = SessionAsk::Fault(self.sid, ScpiError::UndefinedHeader);
        drop(self.held.ask(&mut self.part, Ask::Session(fault)));
    }

    /// A seat of no desk that has seen the same as the session's desk.
    fn splits(&mut self) -> StatusSeat<H> {
        self.part.reader(&self.board)
    }
}

/// What seats read that were split before the two events, between them and after them, the last one while a thread has
/// the mainframe's lock.
fn tell<
    H: Mainframe + Send + Sync,
    R: Relay + Send,
    M: Meter + Send,
    W: Threads + Wait + Clock + Abort + Sync,
>(rt: &W, scene: Scene<H, R, M>) {
    let mut scene = scene;
    let mut early = scene.splits();
    assert!(rt; early.read(&scene.board) == (0, 0));
    scene.enables();
    let mut between = scene.splits();
    assert!(rt; between.read(&scene.board) == (0, 0));
    scene.errs();
    let mut late = scene.splits();
    assert!(rt; late.read(&scene.board) == (4, 1));
    let seat = scene.splits();
    let Scene {
        board,
        held,
        part: _,
        sid,
    } = scene;
    assert!(rt; sid.number == 2);
    let lock = Mutex::new(held);
    let is_held = AtomicBool::new(false);
    let is_read = AtomicBool::new(false);
    let (in_time, pair) = join(
        rt,
        || holds(rt, &lock, &is_held, &is_read),
        || reads(rt, &board, seat, &is_held, &is_read),
    );
    assert!(rt; in_time && pair == (4, 1));
}

/// The mainframe's name is chosen where a test begins.
fn play<
    H: Mainframe + Send + Sync,
    R: Relay + Send,
    M: Meter + Send,
    W: Threads + Wait + Clock + Abort + Sync,
>(rt: &W, alloc: Global, opening: Opening<R, M>)
    requires first { (opening.core.seen ≡ H.first) × IsFresh opening.core.seen }
    requires came { AllCame H.came opening.core.cards }
    requires ledger { (opening.blank.name ≡ H.name) × (opening.blank.parts ≡ H.parts) }
    requires board { (opening.board.table.shared.table_id ≡ H.table) × (opening.board.table.shared.key ≡ H.opening) }
{
    match Scene::<H, R, M>::open(alloc, opening) {
        Some(scene) => tell(rt, scene),
        None => assert!(rt; false),
    }
}

#[test]
fn a_seat_tells_the_events_of_its_desk_while_the_mainframe_is_locked(
    rt: HostRuntime,
) -> Result<(), Fail> {
    let alloc = rt.alloc();
    let Some(core) = fitted(alloc, SimDriver::new(), SimSource::new(1, 1)) else {
        assert!(rt; false);
        return Ok(());
    };
    let opening = Opening::new(alloc, core)?;
    play::<Brand, _, _, _>(&rt, alloc, opening);
    Ok(())
}
