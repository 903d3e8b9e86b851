//! Connections, each served by a thread of its own.

ghost use Rattle.std.specs.Prelude.{◌≡◌, ◌≢◌, ◌≤◌, ◌+◌, ◌<◌, ◌^◌, true, false, All, IfOk, IfErr, OnOk, IfSome};
ghost use Rattle.sw_cage.specs.Accounts.{accounts_of};
ghost use Rattle.sw_core.specs.Opening.{IsFresh};
ghost use Rattle.sw_core.specs.Panel.{opening};
ghost use Rattle.sw_serve.specs.Arrivals.{TakesUpTo, count_after};
ghost use Rattle.sw_serve.specs.Fitting.{IsUnfitted, AreWelcome};
ghost use Rattle.sw_serve.specs.SlotCards.{cards_seen, relay_seen, meter_seen};
ghost use Rattle.sw_serve.specs.Serving.{ClosesDown};
ghost use Rattle.sw_talk.specs.Talk.{turns};
ghost use Rattle.sw_history.specs.Came.{AllCame};
ghost use Rattle.sw_history.specs.Closing.{IsOpen, IsClosedDown};
ghost use Rattle.sw_workers.specs.Connected.{mishaps, connection_seen, RunsSession};
ghost use Rattle.sw_workers.specs.Work.{DeskPasses, desk_seen};

use crate::desk_pool::DeskPool;
use crate::log::Log;
use crate::logged_connection::{LoggedConnection, LoggedReader};
use crate::port::{Arrival, Port};
use crate::slot_card::{SlotCard, fit};
use crate::thread_pool::ThreadPool;
use crate::unfit::FitError;
use crossbeam_channel::Receiver;
use std::alloc::{AllocError, Global};
use std::marker::Brand;
use std::sync::{Arc, Wait};
use std::thread;
use std::thread::Threads;
use std::time::{Clock, Duration};
use sw_cage::Job;
use sw_card::{Meter, Relay};
use sw_workers::{
    Closed, Connection, Ended, Gate, Line, Mainframe, Open, Opening, Pause, Shared, SharedDesk,
    WorkReceivers, close_down, run_card_worker, run_session, run_timer_worker,
};

/// Takes `limit` connections, or fewer where the port ends, each served by a thread of its own over these cards, and
/// then closes down. A connection that fails counts. The server closes a connection for which there is no memory or no
/// thread. Once the port has ended, the server ends the scan that runs and opens every relay. Each session ends after
/// its current message; one that continues for 0.7 seconds is cut off. Once all have ended, the server also ends a scan
/// that they began meanwhile.
///
/// Where the mainframe refuses a card, the error names the first such, and no connection is taken.
pub fn serve_cards<
    R: Relay + Send + 'static,
    M: Meter + Send + 'static,
    W: Threads + Wait + Clock + Copy + Drop + Send + Sync + 'static,
    P: Port,
>(
    rt: W,
    alloc: Global,
    port: &mut P,
    limit: u32,
    cards: Vec<SlotCard<R, M>>,
) -> Result<Closed<R, M>, FitError>
    requires { P.taken port.old + limit < 2 ^ 32 }
    ensures taken { OnOk result (TakesUpTo limit (P.taken port.old) (P.taken port.new) (P.ended port.new)) }
    ensures cards { IfOk result (λ closed. ClosesDown (cards_seen
        (relay_seen R.the_serial R.failed R.groups R.closed)
        (meter_seen M.the_serial M.failed M.last_reading) cards.items)
        closed.events (accounts_of closed.cards.items)) }
    ensures open { IfOk result (λ closed.
        All (λ slot. IfSome slot (λ card. IsOpen card.1)) closed.cards.items) }
    ensures refused { IfErr result (λ error. IsUnfitted opening (cards_seen
        (relay_seen R.the_serial R.failed R.groups R.closed)
        (meter_seen M.the_serial M.failed M.last_reading) cards.items) error) }
    ensures unserved { IfErr result (λ error. error ≢ FitError.Memory → port.new ≡ port.old) }
    ensures welcome { AreWelcome (cards_seen (relay_seen R.the_serial R.failed R.groups R.closed)
        (meter_seen M.the_serial M.failed M.last_reading) cards.items)
        → IfErr result (λ error. error ≡ FitError.Memory) }
{
    let core = fit(alloc, cards)?;
    let opening = Opening::new(alloc, core)?;
    let closed = serve_over::<Brand, R, M, Open, W, P>(rt, alloc, port, limit, opening, Open)?;
    Ok(closed)
}

/// Takes `limit` connections over a mainframe that has a name, or fewer where the port ends, and then closes it down.
pub fn serve_over<
    H: Mainframe + Send + Sync + 'static,
    R: Relay + Send + 'static,
    M: Meter + Send + 'static,
    G: Gate + Drop + Send + Sync + 'static,
    W: Threads + Wait + Clock + Copy + Drop + Send + Sync + 'static,
    P: Port,
>(
    rt: W,
    alloc: Global,
    port: &mut P,
    limit: u32,
    opening: Opening<R, M>,
    gate: G,
) -> Result<Closed<R, M>, AllocError>
    requires first { (opening.core.seen ≡ H.first) × IsFresh opening.core.seen }
    requires came { AllCame H.came opening.core.cards }
    requires ledger { (opening.blank.name ≡ H.name) × (opening.blank.parts ≡ H.parts) }
    requires board { (opening.board.table.shared.table_id ≡ H.table)
        × (opening.board.table.shared.key ≡ H.opening) }
    requires room { P.taken port.old + limit < 2 ^ 32 }
    ensures events { IfOk result (λ closed. H.first.events ≤ closed.events) }
    ensures cards { IfOk result (λ closed.
        IsClosedDown H.first closed.events (accounts_of closed.cards.items)) }
    ensures open { IfOk result (λ closed.
        All (λ slot. IfSome slot (λ card. IsOpen card.1)) closed.cards.items) }
    ensures came { IfOk result (λ closed. AllCame H.came closed.cards.items) }
    ensures taken { OnOk result (TakesUpTo limit (P.taken port.old) (P.taken port.new) (P.ended port.new)) }
{
    let (shared, receivers) = Shared::<H, R, M, G>::new(alloc, opening, gate)?;
    let Ok((shared, pool)) = with_desks(rt, alloc, shared) else {
        drop(receivers);
        return Err(AllocError);
    };
    if serve_pool(rt, alloc, &pool, receivers, port, limit) {
        let desks = pool.take_desks(alloc);
        drop(pool);
        closed_down(&rt, alloc, shared, desks)
    } else {
        drop(pool);
        drop(shared);
        Err(AllocError)
    }
}

/// Takes `limit` connections, or fewer where the port ends, each served by a desk of this pool, and then ends every
/// session and every worker, with every relay open. Gives false where there is no memory for the threads; then it takes
/// no connection.
fn serve_pool<
    H: Mainframe + Send + Sync + 'static,
    R: Relay + Send + 'static,
    M: Meter + Send + 'static,
    G: Gate + Drop + Send + Sync + 'static,
    W: Threads + Wait + Clock + Copy + Drop + Send + Sync + 'static,
    P: Port,
>(
    rt: W,
    alloc: Global,
    pool: &Arc<DeskPool<H, R, M, G, W>, Global>,
    receivers: WorkReceivers<M>,
    port: &mut P,
    limit: u32,
) -> bool
    requires { P.taken port.old + limit < 2 ^ 32 }
    ensures taken { result ≡ true → TakesUpTo limit (P.taken port.old) (P.taken port.new) (P.ended port.new) }
    ensures unserved { result ≡ false → port.new ≡ port.old }
{
    let Ok((mut workers, mut sessions)) = ThreadPool::two(alloc) else {
        drop(receivers);
        return false;
    };
    start_workers(rt, alloc, pool, &mut workers, receivers);
    if serve_each(rt, alloc, pool, &mut sessions, port, limit) {
        pool.open_all();
        end_sessions(&rt, &**pool, &mut sessions);
    }
    join_all(&rt, &**pool, sessions);
    pool.open_all();
    pool.end_work();
    join_all(&rt, &**pool, workers);
    true
}

/// Closes down a mainframe whose desks these are. Where a desk is missing, or there is no memory, it lets all of them
/// go.
fn closed_down<H: Mainframe, R: Relay, M: Meter, G: Gate + Drop, W: Wait + Clock + Copy + Drop>(
    rt: &W,
    alloc: Global,
    shared: Arc<Shared<H, R, M, G>, Global>,
    desks: Vec<SharedDesk<H, R, M, G, W>>,
) -> Result<Closed<R, M>, AllocError>
    ensures events { IfOk result (λ closed. H.first.events ≤ closed.events) }
    ensures cards { IfOk result (λ closed.
        IsClosedDown H.first closed.events (accounts_of closed.cards.items)) }
    ensures open { IfOk result (λ closed.
        All (λ slot. IfSome slot (λ card. IsOpen card.1)) closed.cards.items) }
    ensures came { IfOk result (λ closed. AllCame H.came closed.cards.items) }
{
    match close_down(rt, alloc, shared, desks) {
        Ok(closed) => Ok(closed),
        Err(left) => {
            drop(left);
            Err(AllocError)
        }
    }
}

/// A mainframe for many threads, and the pool of its desks.
fn with_desks<H: Mainframe, R: Relay, M: Meter, G: Gate + Drop, W: Wait + Clock + Copy + Drop>(
    rt: W,
    alloc: Global,
    shared: Shared<H, R, M, G>,
) -> Result<
    (
        Arc<Shared<H, R, M, G>, Global>,
        Arc<DeskPool<H, R, M, G, W>, Global>,
    ),
    AllocError,
> {
    let shared = Arc::new(alloc, shared)?;
    match pool_of(rt, alloc, &shared) {
        Ok(pool) => Ok((shared, pool)),
        Err(error) => {
            drop(shared);
            Err(error)
        }
    }
}

/// The pool of a mainframe's desks.
fn pool_of<H: Mainframe, R: Relay, M: Meter, G: Gate + Drop, W: Wait + Clock + Copy + Drop>(
    rt: W,
    alloc: Global,
    shared: &Arc<Shared<H, R, M, G>, Global>,
) -> Result<Arc<DeskPool<H, R, M, G, W>, Global>, AllocError> {
    let pool = DeskPool::new(rt, alloc, Arc::try_clone(shared)?)?;
    Ok(Arc::new(alloc, pool)?)
}

/// What a thread gives back.
type Left<H, R, M, G, W> = Option<SharedDesk<H, R, M, G, W>>;

/// Starts a thread for measurements and one for pauses. Where there is none, the thread that has such work carries it
/// out.
fn start_workers<
    H: Mainframe + Send + Sync + 'static,
    R: Relay + Send + 'static,
    M: Meter + Send + 'static,
    G: Gate + Drop + Send + Sync + 'static,
    W: Threads + Wait + Clock + Copy + Drop + Send + Sync + 'static,
>(
    rt: W,
    alloc: Global,
    pool: &Arc<DeskPool<H, R, M, G, W>, Global>,
    workers: &mut ThreadPool<Left<H, R, M, G, W>>,
    receivers: WorkReceivers<M>,
) {
    let WorkReceivers { jobs, pauses } = receivers;
    match Arc::try_clone(pool) {
        Ok(theirs) => {
            workers.start(rt, 0, move || measure(theirs, jobs));
        }
        Err(_) => drop(jobs),
    }
    match Arc::try_clone(pool) {
        Ok(theirs) => {
            workers.start(rt, 1, move || wait_out(theirs, pauses));
        }
        Err(_) => drop(pauses),
    }
}

/// What the thread for measurements does.
fn measure<H: Mainframe, R: Relay, M: Meter, G: Gate + Drop, W: Wait + Clock + Copy + Drop>(
    pool: Arc<DeskPool<H, R, M, G, W>, Global>,
    jobs: Receiver<Job<M>>,
) -> Left<H, R, M, G, W> {
    let desk = pool.desk();
    drop(pool);
    match desk {
        Some(desk) => Some(run_card_worker(desk, jobs)),
        None => {
            drop(jobs);
            None
        }
    }
}

/// What the thread for pauses does.
fn wait_out<H: Mainframe, R: Relay, M: Meter, G: Gate + Drop, W: Wait + Clock + Copy + Drop>(
    pool: Arc<DeskPool<H, R, M, G, W>, Global>,
    pauses: Receiver<Pause>,
) -> Left<H, R, M, G, W> {
    let desk = pool.desk();
    drop(pool);
    match desk {
        Some(desk) => Some(run_timer_worker(desk, pauses)),
        None => {
            drop(pauses);
            None
        }
    }
}

/// Takes `limit` connections, or fewer where the port ends, and starts a thread for each. It gives whether the port has
/// ended. It joins the threads that ended before it starts the next one, so that their desks serve again.
fn serve_each<
    H: Mainframe + Send + Sync + 'static,
    R: Relay + Send + 'static,
    M: Meter + Send + 'static,
    G: Gate + Drop + Send + Sync + 'static,
    W: Threads + Wait + Clock + Copy + Drop + Send + Sync + 'static,
    P: Port,
>(
    rt: W,
    alloc: Global,
    pool: &Arc<DeskPool<H, R, M, G, W>, Global>,
    sessions: &mut ThreadPool<Left<H, R, M, G, W>>,
    port: &mut P,
    limit: u32,
) -> bool
    requires { P.taken port.old + limit < 2 ^ 32 }
    ensures taken { TakesUpTo limit (P.taken port.old) (P.taken port.new) (P.ended port.new) }
    ensures all { result ≡ false → P.taken port.new ≡ P.taken port.old + limit }
{
    for number in 0..limit {
        let arrival = next_arrival(&rt, &**pool, port);
        join_ended(&rt, &**pool, sessions);
        match arrival {
            Arrival::Connected(connection) => {
                serve_connection(rt, alloc, pool, sessions, number, connection);
            }
            Arrival::Failed | Arrival::Aborts => {}
            Arrival::Ended => return true,
        }
    }
    false
}

/// The next arrival at the port but aborts. It carries each abort out at once.
fn next_arrival<
    H: Mainframe,
    R: Relay,
    M: Meter,
    G: Gate + Drop,
    W: Wait + Clock + Copy + Drop,
    P: Port,
>(rt: &W, pool: &DeskPool<H, R, M, G, W>, port: &mut P) -> Arrival<LoggedConnection<P::Book>>
    requires { P.taken port.old + 1 < 2 ^ 32 }
    ensures taken { P.taken port.new ≡ count_after result (P.taken port.old) }
    ensures ended { result ≡ Arrival.Ended → P.ended port.new }
    ensures aborts { result ≢ Arrival.Aborts }
{
    for _ in rt.forever() {
        match port.accept() {
            Arrival::Aborts => pool.open_all(),
            arrival => return arrival,
        }
    }
    unreachable!()
}

/// How often the server looks whether all sessions have ended, and how many milliseconds lie between.
const LOOKS: u32 = 70;

const LOOK_MS: u64 = 10;

/// Ends the sessions: each after its current message, and after 0.7 seconds at once.
fn end_sessions<
    H: Mainframe + Send + Sync + 'static,
    R: Relay + Send + 'static,
    M: Meter + Send + 'static,
    G: Gate + Drop + Send + Sync + 'static,
    W: Threads + Wait + Clock + Copy + Drop + Send + Sync + 'static,
>(rt: &W, pool: &DeskPool<H, R, M, G, W>, sessions: &mut ThreadPool<Left<H, R, M, G, W>>) {
    pool.end_lines(false);
    for _ in 0..LOOKS {
        join_ended(rt, pool, sessions);
        if sessions.is_empty() {
            return;
        }
        thread::sleep(rt, Duration::from_millis(LOOK_MS));
    }
    pool.end_lines(true);
}

/// Starts a thread for a connection. Where there is no memory or no thread, it closes the connection.
fn serve_connection<
    H: Mainframe + Send + Sync + 'static,
    R: Relay + Send + 'static,
    M: Meter + Send + 'static,
    G: Gate + Drop + Send + Sync + 'static,
    W: Threads + Wait + Clock + Copy + Drop + Send + Sync + 'static,
    L: Log + Drop + Send + 'static,
>(
    rt: W,
    alloc: Global,
    pool: &Arc<DeskPool<H, R, M, G, W>, Global>,
    sessions: &mut ThreadPool<Left<H, R, M, G, W>>,
    number: u32,
    connection: LoggedConnection<L>,
) {
    let Ok(theirs) = Arc::try_clone(pool) else {
        drop(connection);
        return;
    };
    sessions.start(
        rt,
        number,
        move || desk_of::<H, R, M, G, W, L>(attend(alloc, theirs, connection)),
    );
}

/// What the thread of a connection does: by a desk from the pool it serves the connection, from its first byte on.
fn attend<
    H: Mainframe,
    R: Relay,
    M: Meter,
    G: Gate + Drop,
    W: Wait + Clock + Copy + Drop,
    C: Connection + Drop,
>(
    alloc: Global,
    pool: Arc<DeskPool<H, R, M, G, W>, Global>,
    connection: C,
) -> Option<Ended<SharedDesk<H, R, M, G, W>, C::In, C::Out, C::Aside>>
    ensures { IfSome result (λ ended. (desk : _)
        × RunsSession (λ before entry after. DeskPasses H.first H.over H.client_gone
        (desk_seen before.part before.serves) entry (desk_seen after.part after.serves))
        (mishaps C.In.ByteSource C.Out.Sink C.Aside.Sink H.refused ended.reader ended.writer ended.aside)
        H.turned_away turns
        (connection_seen desk (C.input connection) (C.pauses connection) (C.output connection))
        (connection_seen ended.desk (C.In.remaining ended.reader) (C.In.pauses ended.reader)
        (C.Out.contents ended.writer)) ended.unserved ended.result) }
{
    let desk = pool.desk();
    drop(pool);
    match desk {
        Some(desk) => Some(run_session(connection, desk, alloc)),
        None => {
            drop(connection);
            None
        }
    }
}

/// The desk of a connection that was served. It reports to the connection's log that the connection has left.
fn desk_of<
    H: Mainframe,
    R: Relay,
    M: Meter,
    G: Gate + Drop,
    W: Wait + Clock + Copy + Drop,
    L: Log + Drop,
>(
    served: Option<Ended<SharedDesk<H, R, M, G, W>, LoggedReader<L>, Line, Line>>,
) -> Left<H, R, M, G, W> {
    let Ended {
        desk,
        reader,
        writer,
        aside,
        unserved,
        result,
    } = served?;
    reader.tell_end(unserved, result);
    drop(reader);
    drop(writer);
    drop(aside);
    Some(desk)
}

/// Joins the threads that reported their end.
fn join_ended<
    H: Mainframe + Send + Sync + 'static,
    R: Relay + Send + 'static,
    M: Meter + Send + 'static,
    G: Gate + Drop + Send + Sync + 'static,
    W: Threads + Wait + Clock + Copy + Drop + Send + Sync + 'static,
>(rt: &W, pool: &DeskPool<H, R, M, G, W>, threads: &mut ThreadPool<Left<H, R, M, G, W>>) {
    while let Some(left) = threads.join_ended(rt) {
        pool.take_back(left);
    }
}

/// Joins all threads.
fn join_all<
    H: Mainframe + Send + Sync + 'static,
    R: Relay + Send + 'static,
    M: Meter + Send + 'static,
    G: Gate + Drop + Send + Sync + 'static,
    W: Threads + Wait + Clock + Copy + Drop + Send + Sync + 'static,
>(rt: &W, pool: &DeskPool<H, R, M, G, W>, mut threads: ThreadPool<Left<H, R, M, G, W>>) {
    while let Some(left) = threads.join_any(rt) {
        pool.take_back(left);
    }
}
