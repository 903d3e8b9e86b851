//! The engine of one channel: which channel of which session it is, from the first message on.

ghost use Rattle.std.specs.Prelude.{◌≡◌, ◌≤◌, [], true, false, IfOk, OnErr, OnOk, vec_capacity};
ghost use Rattle.sw_channels.specs.Engine.{fresh_engine, TakesMessage, session_of, Falters, FaltersAt, too_large};
ghost use Rattle.sw_channels.specs.Engine.{notice_from, skips};
ghost use Rattle.sw_channels.specs.Engine.{channel_of_state, noticed_from, opened_sync, opened_async};
ghost use Rattle.sw_channels.specs.EngineSync as EngineSync;
ghost use Rattle.sw_channels.specs.EngineAsync as EngineAsync;
ghost use Rattle.sw_channels.specs.EngineStep.{LedBy, reply_step};

use crate::asynchronous::AsyncSession;
use crate::initialization::{second_welcome, welcome};
use crate::program::SyncSession;
use crate::refusals::{ErrorCode, error};
use crate::step::{Channel, Reply, Sent, Step, step_of};
use crate::synchronous;
use std::alloc::{AllocError, Global};
use std::marker::Model;
use sw_core::Sid;
use sw_hislip::{Kind, Message};
use sw_talk::{Desk, View};

/// The state of a channel.
#[derive(Drop)]
pub enum State {
    /// No session is begun on it.
    Unopened(Channel),
    /// It is the first channel of a session.
    Synchronized(SyncSession),
    /// It is the second channel of a session.
    Attached(AsyncSession),
}

/// One channel of a HiSLIP session: for each message it asks a desk, and gives what is said and whether the channel
/// ends (IVI-6.1 HiSLIP, synchronized mode). Contracts see an `EngineStanding`.
#[derive(Drop)]
pub struct Engine {
    alloc: Global,
    state: State,
    spent: bool,
}

impl Model for Engine {
    ghost use Rattle.sw_channels.specs.Engine.{EngineStanding};

    ghost Value = { EngineStanding };

    ghost view = { λ e. record { state = e.state; spent = e.spent } };
}

impl Engine {
    /// This channel, on which nothing has come yet.
    pub fn new(alloc: Global, channel: Channel) -> Self
        ensures { result ≡ fresh_engine channel }
    {
        Engine {
            alloc,
            state: State::Unopened(channel),
            spent: false,
        }
    }

    /// Serves a message. Where a growth was refused, it drops the message, and the part that has come of a program
    /// message. From then on it asks nothing, and answers want of memory again.
    pub fn take<D: Desk>(&mut self, message: Message, desk: &mut D) -> Result<Step, AllocError>
        ensures ok { IfOk result (λ step. LedBy D.passes desk.old desk.new (λ asked.
            TakesMessage self.old.state message asked step self.new.state)) }
        ensures processed { OnOk result ((self.old.spent ≡ false) × (self.new.spent ≡ false)) }
        ensures err { OnErr result (LedBy D.passes desk.old desk.new (λ asked. Falters self.old message asked)) }
        ensures spent { OnErr result (self.new.spent ≡ true) }
        ensures session { OnErr result (session_of self.new.state ≡ session_of self.old.state) }
    {
        if self.spent {
            return Err(AllocError);
        }
        let step = self.state.take(self.alloc, message, desk);
        self.spent = step.is_err();
        step
    }

    /// Answers a message of this kind that was skipped since its payload is too long: Error 4. A part of a program
    /// message drops that message whole.
    pub fn skip(&mut self, kind: Kind) -> Message
        ensures says { result ≡ too_large }
        ensures state { self.new.state ≡ skips kind self.old.state }
        ensures same { self.new.spent ≡ self.old.spent }
    {
        if let State::Synchronized(session) = &mut self.state {
            session.skip(kind);
        }
        error(self.alloc, ErrorCode::TooLarge)
    }

    /// Says service requests that it has not said yet: AsyncServiceRequest, on the second channel alone.
    pub fn notice(&mut self, view: View) -> Option<Message>
        ensures told { result ≡ notice_from self.old.state view }
        ensures state { self.new.state ≡ noticed_from self.old.state view }
        ensures same { self.new.spent ≡ self.old.spent }
    {
        match &mut self.state {
            State::Attached(session) => session.notice(self.alloc, view),
            _ => None,
        }
    }

    /// The session that the channel belongs to, once it does.
    pub fn session(&self) -> Option<Sid>
        ensures { result ≡ session_of self.now.state }
    {
        match &self.state {
            State::Unopened(_) => None,
            State::Synchronized(session) => Some(session.sid()),
            State::Attached(session) => Some(session.sid()),
        }
    }

    /// Which connection the channel is.
    pub fn channel(&self) -> Channel
        ensures { result ≡ channel_of_state self.now.state }
    {
        match &self.state {
            State::Unopened(channel) => *channel,
            State::Synchronized(_) => Channel::Synchronous,
            State::Attached(_) => Channel::Asynchronous,
        }
    }
}

impl State {
    /// Serves a message.
    fn take<D: Desk>(
        &mut self,
        alloc: Global,
        message: Message,
        desk: &mut D,
    ) -> Result<Step, AllocError>
        ensures ok { IfOk result (λ step. LedBy D.passes desk.old desk.new (λ asked.
            TakesMessage self.old message asked step self.new)) }
        ensures err { OnErr result (LedBy D.passes desk.old desk.new (λ asked. FaltersAt self.old message asked)) }
        ensures session { OnErr result (session_of self.new ≡ session_of self.old) }
    {
        match self {
            State::Unopened(channel) => {
                let opened = open(alloc, *channel, message, desk)?;
                *self = opened.state;
                Ok(opened.step)
            }
            State::Synchronized(session) => session.take(alloc, message, desk),
            State::Attached(session) => session.take(alloc, message, desk),
        }
    }
}

/// What is said to the first message, and the channel's state after it.
#[derive(Drop)]
struct Opened {
    step: Step,
    state: State,
}

/// Serves the first message of a channel.
fn open<D: Desk>(
    alloc: Global,
    channel: Channel,
    message: Message,
    desk: &mut D,
) -> Result<Opened, AllocError>
    ensures ok { IfOk result (λ opened. LedBy D.passes desk.old desk.new (λ asked.
        TakesMessage (State.Unopened channel) message asked opened.step opened.state)) }
    ensures unasked { OnErr result (desk.new ≡ desk.old) }
{
    let room = Vec::with_capacity(alloc, 1)?;
    match channel {
        Channel::Synchronous => Ok(join(alloc, room, message, desk)),
        Channel::Asynchronous => Ok(attach(alloc, room, message, desk)),
    }
}

/// Begins the synchronous channel.
fn join<D: Desk>(alloc: Global, room: Vec<Sent>, message: Message, desk: &mut D) -> Opened
    requires empty { room.items ≡ [] }
    requires room { 1 ≤ vec_capacity room }
    ensures { LedBy D.passes desk.old desk.new (λ asked.
        TakesMessage (State.Unopened Channel.Synchronous) message asked result.step result.state) }
{
    let parameter = message.parameter;
    let session = synchronous::open(&message, desk);
    joined(alloc, room, parameter, session)
}

/// The synchronous channel's state once a session was asked for, and what is said.
fn joined(alloc: Global, room: Vec<Sent>, parameter: u32, session: Result<Sid, Reply>) -> Opened
    requires empty { room.items ≡ [] }
    requires room { 1 ≤ vec_capacity room }
    ensures step { result.step ≡ EngineSync.opened_step parameter session }
    ensures state { result.state ≡ opened_sync (EngineSync.opened_session session) }
{
    match session {
        Ok(sid) => Opened {
            step: step_of(
                alloc,
                Channel::Synchronous,
                room,
                Reply::Says(welcome(alloc, parameter, sid.number)),
            ),
            state: State::Synchronized(SyncSession::new(alloc, sid)),
        },
        Err(reply) => unopened(alloc, Channel::Synchronous, room, reply),
    }
}

/// Begins the asynchronous channel.
fn attach<D: Desk>(alloc: Global, room: Vec<Sent>, message: Message, desk: &mut D) -> Opened
    requires empty { room.items ≡ [] }
    requires room { 1 ≤ vec_capacity room }
    ensures { LedBy D.passes desk.old desk.new (λ asked.
        TakesMessage (State.Unopened Channel.Asynchronous) message asked result.step result.state) }
{
    let session = AsyncSession::open(message.kind, message.parameter, desk);
    attached(alloc, room, session)
}

/// The asynchronous channel's state once it was asked for, and what is said.
fn attached(alloc: Global, room: Vec<Sent>, session: Result<AsyncSession, Reply>) -> Opened
    requires empty { room.items ≡ [] }
    requires room { 1 ≤ vec_capacity room }
    ensures step { result.step ≡ EngineAsync.attached_step session }
    ensures state { result.state ≡ opened_async (EngineAsync.attached_session session) }
{
    match session {
        Ok(session) => Opened {
            step: step_of(
                alloc,
                Channel::Asynchronous,
                room,
                Reply::Says(second_welcome(alloc)),
            ),
            state: State::Attached(session),
        },
        Err(reply) => unopened(alloc, Channel::Asynchronous, room, reply),
    }
}

/// What is said where no session is begun on this channel.
fn unopened(alloc: Global, channel: Channel, room: Vec<Sent>, reply: Reply) -> Opened
    requires empty { room.items ≡ [] }
    requires room { 1 ≤ vec_capacity room }
    ensures step { result.step ≡ reply_step channel reply }
    ensures state { result.state ≡ State.Unopened channel }
{
    Opened {
        step: step_of(alloc, channel, room, reply),
        state: State::Unopened(channel),
    }
}
