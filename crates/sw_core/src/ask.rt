//! The mainframe's asks, and its answers.

use crate::answer_text::AnswerText;
use sw_base::{Boxed, ScpiError, Sequence};
use sw_cage::{EjectRefusal, Finished, InstallRefusal, Job, Ticket};
use sw_card::{Card, Meter, Relay};
use sw_lex::Command;
use sw_verify::{Plan, Snapshot};

/// A session: its number, 1 to `SESSIONS`, and the number of events after its Join, which distinguishes it from an
/// earlier session of that number.
#[derive(Clone, Copy, Debug, PartialEq, Eq)]
pub struct Sid {
    /// The session's number.
    pub number: u8,
    /// The number of events after its Join.
    pub joined: u64,
}

/// A session's ask. It carries no card.
#[derive(Drop)]
pub enum SessionAsk {
    /// To be one of the sessions.
    Join,
    /// To be the second channel of the session with this number.
    Attach(u8),
    /// Whether the session has its second channel.
    Attached(Sid),
    /// To leave the sessions. The mainframe frees its locks.
    Leave(Sid),
    /// To note the size of a message that the session takes, in bytes.
    Size(Sid, u64),
    /// The size that was noted last.
    MaxSize(Sid),
    /// To drop what the session asks from now on.
    Clear(Sid),
    /// To take what the session asks again.
    Cleared(Sid),
    /// To lock the others out: by an empty key exclusively, else beside the sessions with the same key.
    Lock(Sid, Sequence<u8>),
    /// To free a lock.
    Release(Sid),
    /// Whether a session holds the exclusive lock, and how many sessions hold a lock.
    LockInfo(Sid),
    /// To carry out a command. The flag says whether its program message has answered before.
    Unit(Sid, Command, bool),
    /// To queue an error that the session found outside the mainframe.
    Fault(Sid, ScpiError),
    /// To give a bus trigger, as the interface's trigger message does.
    Bus(Sid),
    /// What a scan would begin from now, to be checked outside.
    Snapshot(Sid),
    /// To begin a scan that passed the check.
    Start(Sid, Plan),
}

/// The answer to a session. It carries no card.
#[derive(Drop)]
pub enum SessionAnswer {
    /// It is this session now.
    Joined(Sid),
    /// All session numbers are taken.
    Full,
    /// No such session is joined.
    Stranger,
    /// The session is being cleared: the mainframe dropped the ask.
    Broken,
    /// The mainframe did it. A query's answer comes with it.
    Done(Option<AnswerText>),
    /// It is not so yet.
    Missed,
    /// The size that was noted last, in bytes.
    Max(u64),
    /// The outcome of a lock's ask, by the code of HiSLIP's response (IVI-6.1 HiSLIP, lock transaction): 1 where it was
    /// granted or the exclusive one freed, 2 where the shared one was freed, 3 for an error or where the session held
    /// none.
    Lock(u8),
    /// Whether a session holds the exclusive lock, and how many sessions hold a lock.
    Info(bool, u8),
    /// What a scan would begin from, and the number of the last scan that began.
    Snapshot(Boxed<Snapshot>, u64),
    /// The mainframe refused it, for this error.
    Refused(ScpiError),
    /// The mainframe can't do it yet: the session asks it again after a wait.
    Hold(SessionAsk),
    /// The mainframe has numbered all the events that it can.
    Worn(SessionAsk),
}

/// Work outside the mainframe that its scan awaits before it continues.
#[derive(Drop)]
pub enum Work<M: Meter> {
    /// A measurement.
    Measure(Job<M>),
    /// A pause of this many microseconds; the ask `Elapsed` with this ticket ends it.
    Pause(Ticket, u64),
}

/// An ask of the mainframe.
#[derive(Drop)]
pub enum Ask<R: Relay, M: Meter> {
    /// An ask of a session, or to become one.
    Session(SessionAsk),
    /// To take a card into a slot.
    Install(u8, Card<R, M>),
    /// To take the card out of a slot.
    Eject(u8),
    /// The external trigger came.
    External,
    /// The pause under this ticket is over.
    Elapsed(Ticket),
    /// A meter has measured.
    Finished(Finished<M>),
}

/// An answer of the mainframe.
#[derive(Drop)]
pub enum Answer<R: Relay, M: Meter> {
    /// The answer to a session, and the work that its scan awaits now.
    Session(SessionAnswer, Option<Work<M>>),
    /// The card is in its slot.
    Installed,
    /// The slot did not take this card, which comes back.
    NotInstalled(InstallRefusal, Card<R, M>),
    /// The card, with its relays open.
    Ejected(Card<R, M>),
    /// No card came out.
    NotEjected(EjectRefusal),
    /// The scan took it, and awaits this work now.
    Taken(Option<Work<M>>),
    /// No scan takes it. A meter that it brought is back in its slot.
    Missed,
    /// The scan took it and is over, for a card failed.
    Failed,
    /// The meter is not out under its ticket here, and comes back.
    Back(Finished<M>),
    /// The mainframe has numbered all the events that it can.
    Worn(Ask<R, M>),
}
