//! A mainframe that its workers and the desks of sessions share.
//!
//! These promise nothing, and most answer yes or no.

ghost use Rattle.std.specs.Prelude.{◌≡◌, IfSome};
ghost use Rattle.sw_core.specs.Opening.{IsFresh};
ghost use Rattle.sw_core.specs.Panel.{opening};
ghost use Rattle.sw_history.specs.Came.{AllCame};

use crate::latches::{TURNS, turn};
use crate::threads::Scene;
use std::alloc::Global;
use std::marker::Brand;
use std::sync::{Arc, Wait};
use std::thread;
use std::thread::{JoinHandle, Threads};
use std::time::Clock;
use sw_base::Sequence;
use sw_card::{Card, Meter, Relay};
use sw_core::{Answer, Ask, Core, SessionAnswer, SessionAsk, Sid, runs_go_on};
use sw_kinds::{Driver, Mux, SimDriver, Source, Volt};
use sw_session::{Desk, Talker};
use sw_workers::{
    Closed, Gate, Mainframe, Note, Opening, Shared, SharedDesk, WorkReceivers, close_down,
    run_card_worker, run_timer_worker,
};

/// Whether a card comes into the slot. The mainframe stays fresh.
pub fn install<R: Relay, M: Meter>(
    alloc: Global,
    core: &mut Core<R, M>,
    slot: u8,
    card: Card<R, M>,
) -> bool
    requires { IsFresh core.old.seen }
    ensures { IsFresh core.new.seen }
{
    runs_go_on();
    let answer = core.apply(alloc, Ask::Install(slot, card));
    let is_installed = matches!(answer, Answer::Installed);
    drop(answer);
    is_installed
}

/// A mainframe as it opens, which is fresh.
pub fn opened<R: Relay, M: Meter>(core: Core<R, M>) -> Core<R, M>
    requires { core.seen ≡ opening }
    ensures { IsFresh result.seen }
{
    runs_go_on();
    core
}

/// A mainframe with four channels of one group in slot 1 and a meter in slot 4. It is fresh.
pub fn fitted<D: Driver, S: Source>(
    alloc: Global,
    driver: D,
    source: S,
) -> Option<Core<Mux<D>, Volt<S>>>
    ensures { IfSome result (λ core. IsFresh core.seen) }
{
    let Ok(core) = Core::new(alloc) else {
        return None;
    };
    let mut core = opened(core);
    let mux = Mux::new(1, 4, 1, driver);
    let has_mux = install(alloc, &mut core, 1, Card::relays(mux));
    let volt = Volt::new(4, source);
    let has_volt = install(alloc, &mut core, 4, Card::meter(volt));
    if has_mux && has_volt {
        return Some(core);
    }
    drop(core);
    None
}

/// A thread that gives the desk back by which it works.
pub type DeskThread<H, R, M, G, W> = JoinHandle<SharedDesk<H, R, M, G, W>>;

/// A mainframe that threads share, and its workers.
#[derive(Drop)]
pub struct Shop<
    H: Mainframe + Send + Sync + 'static,
    R: Relay + Send + 'static,
    M: Meter + Send + 'static,
    G: Gate + Drop + Send + Sync + 'static,
    W: Threads + Wait + Clock + Copy + Drop + Send + Sync + 'static,
> {
    pub shared: Arc<Shared<H, R, M, G>, Global>,
    card_worker: DeskThread<H, R, M, G, W>,
    timer_worker: DeskThread<H, R, M, G, W>,
}

impl<
    H: Mainframe + Send + Sync + 'static,
    R: Relay + Send + 'static,
    M: Meter + Send + 'static,
    G: Gate + Drop + Send + Sync + 'static,
    W: Threads + Wait + Clock + Copy + Drop + Send + Sync + 'static,
> Shop<H, R, M, G, W> {
    /// Puts a mainframe behind its lock, with its workers.
    pub fn open(rt: W, alloc: Global, opening: Opening<R, M>, gate: G) -> Option<Self>
        requires first { (opening.core.seen ≡ H.first) × IsFresh opening.core.seen }
        requires came { AllCame H.came opening.core.cards }
        requires ledger { (opening.blank.name ≡ H.name) × (opening.blank.parts ≡ H.parts) }
        requires board { (opening.board.table.shared.table_id ≡ H.table)
            × (opening.board.table.shared.key ≡ H.opening) }
    {
        let Ok((shared, receivers)) = Shared::<H, R, M, G>::new(alloc, opening, gate) else {
            return None;
        };
        let Ok(shared) = Arc::new(alloc, shared) else {
            return None;
        };
        Shop::staff(rt, alloc, shared, receivers)
    }

    /// Starts the workers.
    fn staff(
        rt: W,
        alloc: Global,
        shared: Arc<Shared<H, R, M, G>, Global>,
        receivers: WorkReceivers<M>,
    ) -> Option<Self> {
        let WorkReceivers { jobs, pauses } = receivers;
        let for_jobs = SharedDesk::open(rt, &shared)?;
        let for_pauses = SharedDesk::open(rt, &shared)?;
        let card_worker = thread::spawn(&rt, move || run_card_worker(for_jobs, jobs)).ok()?;
        let timer_worker = thread::spawn(&rt, move || run_timer_worker(for_pauses, pauses)).ok()?;
        Some(Shop {
            shared,
            card_worker,
            timer_worker,
        })
    }

    /// Plays a scene by three desks, and closes the mainframe down.
    fn host(self, rt: W, alloc: Global, scene: &Scene<W>) -> Option<Note> {
        let first = SharedDesk::open(rt, &self.shared)?;
        let second = SharedDesk::open(rt, &self.shared)?;
        let third = SharedDesk::open(rt, &self.shared)?;
        let (first, second, third) = scene.play(rt, alloc, first, second, third)?;
        let mut desks = Vec::new(alloc);
        desks.push(first).ok()?;
        desks.push(second).ok()?;
        desks.push(third).ok()?;
        self.close(rt, alloc, desks)
    }

    /// Opens every relay, closes the mainframe down, and gives the last note before that where the events since are
    /// those of the opening and its cards come out by slot, with nothing closed.
    pub fn close(
        self,
        rt: W,
        alloc: Global,
        sessions: Vec<SharedDesk<H, R, M, G, W>>,
    ) -> Option<Note> {
        let Shop {
            shared,
            card_worker,
            timer_worker,
        } = self;
        shared.end_work(&rt);
        let desks = join_both(&rt, sessions, (card_worker, timer_worker))?;
        let last = last_note(&rt, &shared);
        let mut own = SharedDesk::open(rt, &shared)?;
        own.open_all();
        let desks = with_one(desks, own)?;
        let closed = close_down(&rt, alloc, shared, desks).ok()?;
        last_if_whole(closed, last)
    }
}

/// These and one more.
pub fn with_one<T: Drop>(list: Vec<T>, one: T) -> Option<Vec<T>> {
    let mut list = list;
    list.push(one).ok()?;
    Some(list)
}

/// These desks and those of two threads, once they have ended.
pub fn join_both<T: Drop, W: Threads>(
    rt: &W,
    desks: Vec<T>,
    threads: (JoinHandle<T>, JoinHandle<T>),
) -> Option<Vec<T>> {
    let mut desks = desks;
    let (first, second) = threads;
    desks.reserve(2).ok()?;
    desks.push(first.join(rt)).unwrap();
    desks.push(second.join(rt)).unwrap();
    Some(desks)
}

/// The note of the last event.
fn last_note<H: Mainframe, R: Relay, M: Meter, G: Gate + Drop, W: Wait>(
    rt: &W,
    shared: &Shared<H, R, M, G>,
) -> Option<Note> {
    let notes = shared.recent(rt).ok()?;
    notes.as_slice().last().copied()
}

/// The last note before every relay was opened, where the events since are those of the opening and the cards come out
/// by slot, with nothing closed.
fn last_if_whole<R: Relay, M: Meter>(closed: Closed<R, M>, last: Option<Note>) -> Option<Note> {
    let has_come_out = come_out(&closed, &SERIALS);
    let events = closed.events;
    drop(closed);
    let last = last?;
    if has_come_out && events.wrapping_sub(last.number) == OPENING {
        return Some(last);
    }
    None
}

/// How many events open every relay of it: each of 16 slots is asked for its card, and two have one, which goes back.
const OPENING: u64 = 18;

/// The serial numbers of a fitted mainframe's cards, by slot, with 0 for no card.
const SERIALS: [u32; 16] = [1, 0, 0, 4, 0, 0, 0, 0, 0, 0, 0, 0, 0, 0, 0, 0];

/// Whether these are the cards that came out, by slot, with nothing closed.
pub fn come_out<R: Relay, M: Meter>(closed: &Closed<R, M>, serials: &[u32; 16]) -> bool {
    let cards = closed.cards.as_slice();
    cards.len() == 16 && (0..16).all(|place| is_card(&cards[place], serials[place]))
}

/// Whether the slot gave this card, with nothing closed.
fn is_card<R: Relay, M: Meter>(slot: &Option<Card<R, M>>, serial: u32) -> bool {
    match slot {
        Some(card) => card.serial() == serial && !card.any_closed(),
        None => serial == 0,
    }
}

/// Plays a scene over a mainframe that is put behind its lock.
fn play_behind<
    H: Mainframe + Send + Sync + 'static,
    R: Relay + Send + 'static,
    M: Meter + Send + 'static,
    G: Gate + Drop + Send + Sync + 'static,
    W: Threads + Wait + Clock + Copy + Drop + Send + Sync + 'static,
>(rt: W, alloc: Global, opening: Opening<R, M>, gate: G, scene: &Scene<W>) -> Option<Note>
    requires first { (opening.core.seen ≡ H.first) × IsFresh opening.core.seen }
    requires came { AllCame H.came opening.core.cards }
    requires ledger { (opening.blank.name ≡ H.name) × (opening.blank.parts ≡ H.parts) }
    requires board { (opening.board.table.shared.table_id ≡ H.table) × (opening.board.table.shared.key ≡ H.opening) }
{
    match Shop::<H, R, M, G, W>::open(rt, alloc, opening, gate) {
        Some(shop) => shop.host(rt, alloc, scene),
        None => None,
    }
}

/// Plays a scene over a new mainframe with a meter that has this source, closes it down, and gives its last note where
/// all went as it should.
pub fn played<
    I: Source + Send + 'static,
    G: Gate + Drop + Send + Sync + 'static,
    W: Threads + Wait + Clock + Copy + Drop + Send + Sync + 'static,
>(rt: W, alloc: Global, source: I, gate: G, scene: &Scene<W>) -> Option<Note> {
    played_by(rt, alloc, SimDriver::new(), source, gate, scene)
}

/// The same of a mainframe with a relay card that has this driver.
pub fn played_by<
    D: Driver + Send + 'static,
    I: Source + Send + 'static,
    G: Gate + Drop + Send + Sync + 'static,
    W: Threads + Wait + Clock + Copy + Drop + Send + Sync + 'static,
>(rt: W, alloc: Global, driver: D, source: I, gate: G, scene: &Scene<W>) -> Option<Note> {
    let core = fitted(alloc, driver, source)?;
    match Opening::new(alloc, core) {
        Ok(opening) => play_behind::<Brand, _, _, G, W>(rt, alloc, opening, gate, scene),
        Err(_) => None,
    }
}

/// Joins as a session.
pub fn join<D: Desk>(desk: &mut D) -> Option<Sid> {
    match desk.ask(SessionAsk::Join) {
        SessionAnswer::Joined(sid) => Some(sid),
        other => {
            drop(other);
            None
        }
    }
}

/// Whether a session is answered that by a message.
pub fn tells<D: Desk>(
    alloc: Global,
    desk: &mut D,
    sid: Sid,
    message: &[u8],
    wanted: &[u8],
) -> bool {
    let mut talker = Talker::new(alloc, sid);
    let line = talker.message(message, desk);
    drop(talker);
    line.as_slice() == wanted
}

/// Whether a message gets a session this answer in the end, within `TURNS` turns.
pub fn comes_to_tell<D: Desk, C: Clock>(
    alloc: Global,
    clock: &C,
    desk: &mut D,
    sid: Sid,
    message: &[u8],
    wanted: &[u8],
) -> bool {
    for _ in 0..TURNS {
        if tells(alloc, desk, sid, message, wanted) {
            return true;
        }
        turn(clock);
    }
    false
}

/// Whether the session is granted the exclusive lock.
pub fn locks<D: Desk>(alloc: Global, desk: &mut D, sid: Sid) -> bool {
    is_lock(desk.ask(SessionAsk::Lock(sid, Sequence::new(Vec::new(alloc)))))
}

/// Whether the session frees the exclusive lock.
pub fn releases<D: Desk>(desk: &mut D, sid: Sid) -> bool {
    is_lock(desk.ask(SessionAsk::Release(sid)))
}

/// Whether the answer is that an exclusive lock was granted or freed. It drops the answer.
fn is_lock(answer: SessionAnswer) -> bool {
    let is_so = matches!(answer, SessionAnswer::Lock(1));
    drop(answer);
    is_so
}

/// Joins as `crowd` sessions by one desk, and gives it as a list where all are joined.
pub fn gathers<D: Desk + Drop>(alloc: Global, desk: D, crowd: u8) -> Option<Vec<D>> {
    let mut desk = desk;
    for _ in 0..crowd {
        join(&mut desk)?;
    }
    with_one(Vec::new(alloc), desk)
}
