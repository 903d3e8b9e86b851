//! The threads that carry out work.

ghost use Rattle.std.specs.Prelude.{ℕ, None, Some};
ghost use Rattle.sw_core.specs.Seen.{Pauses};
ghost use Rattle.sw_workers.specs.Pauses.{EndsStanding, BeginsArrived};
ghost use Rattle.sw_workers.specs.Work.{Works, IsReceivedJob, IsOverPause, none_own};

use crate::desk::SharedDesk;
use crate::gate::{Gate, Point};
use crate::mainframe::Mainframe;
use crate::pauses::{Next, Pause, Standing};
use crate::work_channels::Receiving;
use crossbeam_channel::{Receiver, RecvTimeoutError};
use std::sync::Wait;
use std::time::Clock;
use sw_cage::{Job, Ticket};
use sw_card::{Meter, Relay};
use sw_core::{Ask, Work};

/// Makes measurements until no more can come, and gives its desk back. It measures under no lock.
pub fn run_card_worker<
    H: Mainframe,
    R: Relay,
    M: Meter,
    G: Gate + Drop,
    W: Wait + Clock + Copy + Drop,
>(desk: SharedDesk<H, R, M, G, W>, jobs: Receiver<Job<M>>) -> SharedDesk<H, R, M, G, W>
    ensures { Works H.first (IsReceivedJob H.received) None desk.part result.part }
{
    let mut own = desk;
    let rt = own.rt;
    for _ in rt.forever() {
        let Ok(job) = H::receive_job(&rt, &jobs) else {
            return own;
        };
        own.work_off(Work::Measure(job));
    }
    unreachable!()
}

/// Waits out the current pause, until no more can come, and gives its desk back. It drops a stale pause, and at the end
/// waits none out.
pub fn run_timer_worker<
    H: Mainframe,
    R: Relay,
    M: Meter,
    G: Gate + Drop,
    W: Wait + Clock + Copy + Drop,
>(desk: SharedDesk<H, R, M, G, W>, pauses: Receiver<Pause>) -> SharedDesk<H, R, M, G, W>
    ensures { Works H.first (IsOverPause H.arrived H.reached) None desk.part result.part }
{
    let mut own = desk;
    let rt = own.rt;
    let mut standing = Standing::new();
    for _ in rt.forever() {
        let next = await_next::<H, W>(&rt, &pauses, standing.pause());
        standing = standing.after(next);
        match next {
            Next::Begins(_) => {}
            Next::Ends(ticket) => end_pause(&mut own, ticket),
            Next::Over => return own,
        }
    }
    unreachable!()
}

/// Waits for the next pause that comes, or for the end of the current one.
fn await_next<H: Receiving, W: Wait + Clock>(
    rt: &W,
    pauses: &Receiver<Pause>,
    stands: Option<Pause>,
) -> Next
    ensures ends { EndsStanding H.reached stands result }
    ensures begins { BeginsArrived H.arrived result }
{
    let Some(stands) = stands else {
        return match H::receive_pause(rt, pauses) {
            Ok(pause) => Next::Begins(pause),
            Err(_) => Next::Over,
        };
    };
    match H::receive_until(rt, pauses, stands.at) {
        Ok(pause) => Next::Begins(pause),
        Err(RecvTimeoutError::Timeout) => Next::Ends(stands.ticket),
        Err(RecvTimeoutError::Disconnected) => Next::Over,
    }
}

/// Reports the end of a pause, and sees to what comes next.
fn end_pause<H: Mainframe, R: Relay, M: Meter, G: Gate + Drop, W: Wait + Clock + Copy + Drop>(
    desk: &mut SharedDesk<H, R, M, G, W>,
    ticket: Ticket,
)
    ensures { (micros : ℕ) → Works H.first none_own (Some (Pauses ticket micros)) desk.old.part desk.new.part }
{
    desk.shared.gate().pass(&desk.rt, Point::Pause);
    let next = desk.tell(Ask::Elapsed(ticket));
    desk.carry(next);
}
