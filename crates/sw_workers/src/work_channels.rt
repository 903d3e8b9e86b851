//! The ways of work to the threads that carry it out.

ghost use Rattle.std.specs.Prelude.{◌≡◌, IfSome, IfNone};
ghost use Rattle.sw_talk.specs.CoreDesk.{piece_seen};

use crate::pauses::Pause;
use crossbeam_channel::{Receiver, RecvError, RecvTimeoutError, SendError, Sender};
use std::alloc::{AllocError, Global};
use std::marker::Brand;
use std::sync::Wait;
use std::thread;
use std::time::{Clock, Duration, Instant};
use sw_cage::Job;
use sw_card::Meter;
use sw_core::Work;

/// Which mainframe it is, to the work that its desks send or carry out. Only the one call here that does it proves that
/// a piece was sent, or a pause waited out.
pub trait Carrier {
    ghost use Rattle.std.specs.Prelude.{◌≡◌, ℕ, IfErr, OnOk, true};
    ghost use Rattle.crossbeam_channel.specs.Err.{send_message};
    ghost use Rattle.sw_core.specs.Seen.{WorkSeen, Measures, Pauses};
    ghost use Rattle.sw_workers.specs.Pauses.{IsPause};

    /// A desk sent this piece of work to the thread that carries it out.
    ghost sent: { WorkSeen → Type 0 };

    /// A desk waited this many microseconds out.
    ghost rested: { ℕ → Type 0 };

    /// Sends a measurement, or gives it back where the way can't grow or no worker is left.
    fn send_job<M: Meter, W: Wait>(
        rt: &W,
        way: &Sender<Job<M>>,
        job: Job<M>,
    ) -> Result<(), SendError<Job<M>>>
        ensures sent { OnOk result (sent (Measures job.1)) }
        ensures back { IfErr result (λ e. send_message e ≡ job) };

    /// Sends a pause, which is whole: it ends as many microseconds after it began as it is long.
    fn send_pause<W: Wait>(rt: &W, way: &Sender<Pause>, pause: Pause) -> bool
        requires { IsPause pause }
        ensures { result ≡ true → sent (Pauses pause.ticket pause.micros) };

    /// Waits `micros` microseconds out.
    fn rest<C: Clock>(clock: &C, micros: u64)
        ensures { rested micros };
}

/// Which mainframe it is, to its workers. Only the call here that waited for it proves that a piece of work, or the end
/// of a pause, came.
pub trait Receiving {
    ghost use Rattle.std.specs.Prelude.{IfOk, ◌≡◌, Err};
    ghost use Rattle.std.specs.declared.time.Instant.{Instant};
    ghost use Rattle.sw_core.specs.Seen.{WorkSeen, Measures};
    ghost use Rattle.sw_workers.specs.declared.pauses.Pause.{Pause};

    /// The thread that makes measurements received this one.
    ghost received: { WorkSeen → Type 0 };

    /// The thread that waits pauses out received this one.
    ghost arrived: { Pause → Type 0 };

    /// This instant has come.
    ghost reached: { Instant → Type 0 };

    /// Waits for the next measurement.
    fn receive_job<M: Meter, W: Wait>(rt: &W, way: &Receiver<Job<M>>) -> Result<Job<M>, RecvError>
        ensures { IfOk result (λ job. received (Measures job.1)) };

    /// Waits for the next pause.
    fn receive_pause<W: Wait>(rt: &W, way: &Receiver<Pause>) -> Result<Pause, RecvError>
        ensures { IfOk result arrived };

    /// Waits for the next pause until this instant.
    fn receive_until<W: Wait + Clock>(
        rt: &W,
        way: &Receiver<Pause>,
        at: Instant,
    ) -> Result<Pause, RecvTimeoutError>
        ensures came { IfOk result arrived }
        ensures over { result ≡ Err RecvTimeoutError.Timeout → reached at };
}

impl Receiving for Brand {
    ghost received = { λ piece. Unit {0} };

    ghost arrived = { λ pause. Unit {0} };

    ghost reached = { λ at. Unit {0} };

    fn receive_job<M: Meter, W: Wait>(rt: &W, way: &Receiver<Job<M>>) -> Result<Job<M>, RecvError> {
        way.recv(rt)
    }

    fn receive_pause<W: Wait>(rt: &W, way: &Receiver<Pause>) -> Result<Pause, RecvError> {
        way.recv(rt)
    }

    fn receive_until<W: Wait + Clock>(
        rt: &W,
        way: &Receiver<Pause>,
        at: Instant,
    ) -> Result<Pause, RecvTimeoutError> {
        way.recv_deadline(rt, at)
    }
}

impl Carrier for Brand {
    ghost sent = { λ piece. Unit {0} };

    ghost rested = { λ micros. Unit {0} };

    fn send_job<M: Meter, W: Wait>(
        rt: &W,
        way: &Sender<Job<M>>,
        job: Job<M>,
    ) -> Result<(), SendError<Job<M>>> {
        way.send(rt, job)
    }

    fn send_pause<W: Wait>(rt: &W, way: &Sender<Pause>, pause: Pause) -> bool {
        way.send(rt, pause).is_ok()
    }

    fn rest<C: Clock>(clock: &C, micros: u64) {
        thread::sleep(clock, Duration::from_micros(micros));
    }
}

/// The sending ends.
#[derive(Drop)]
pub struct WorkSenders<M: Meter> {
    jobs: Sender<Job<M>>,
    pauses: Sender<Pause>,
}

/// The receiving ends: one for the card worker, one for the timer worker.
#[derive(Drop)]
pub struct WorkReceivers<M: Meter> {
    /// Measurements.
    pub jobs: Receiver<Job<M>>,
    /// Pauses.
    pub pauses: Receiver<Pause>,
}

/// Makes both ways.
pub fn work_posts<M: Meter>(
    alloc: Global,
) -> Result<(WorkSenders<M>, WorkReceivers<M>), AllocError> {
    let (jobs, jobs_in) = crossbeam_channel::unbounded(alloc)?;
    let (pauses, pauses_in) = crossbeam_channel::unbounded(alloc)?;
    Ok((
        WorkSenders { jobs, pauses },
        WorkReceivers {
            jobs: jobs_in,
            pauses: pauses_in,
        },
    ))
}

impl<M: Meter> WorkSenders<M> {
    /// Sends a piece of work whole, or gives it back where the way can't grow or no worker is left. A pause begins now.
    pub fn send<H: Carrier, W: Wait + Clock>(&self, rt: &W, piece: Work<M>) -> Option<Work<M>>
        ensures sent { IfNone result (H.sent (piece_seen piece)) }
        ensures back { IfSome result (λ back. piece_seen back ≡ piece_seen piece) }
    {
        match piece {
            Work::Measure(job) => match H::send_job(rt, &self.jobs, job) {
                Ok(()) => None,
                Err(refused) => Some(Work::Measure(refused.into_inner())),
            },
            Work::Pause(ticket, micros) => match Pause::begun(rt, ticket, micros) {
                Some(pause) if H::send_pause(rt, &self.pauses, pause) => None,
                _ => Some(Work::Pause(ticket, micros)),
            },
        }
    }
}
