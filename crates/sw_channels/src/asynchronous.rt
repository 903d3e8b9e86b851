//! The asynchronous channel of a session: its first message, the messages after it, and service requests.

ghost use Rattle.std.specs.Prelude.{◌≡◌, ◌≢◌, IfOk, OnErr};
ghost use Rattle.sw_talk.specs.Trace.{Leads};
ghost use Rattle.sw_channels.specs.EngineStep.{LedBy, OnDone, reply_step, on_done};
ghost use Rattle.sw_channels.specs.EngineMessages.{size_told, size_response, plain};
ghost use Rattle.sw_channels.specs.EngineAsync.{OpensAsync, AttachesNumber, is_second, AsksToAttach, attached_step};
ghost use Rattle.sw_channels.specs.EngineAsync.{attached_session, TakesAsync, delivered, RepliesAsync, TellsStatus};
ghost use Rattle.sw_channels.specs.EngineAsync.{notice_of, noticed, control_reply};
ghost use Rattle.sw_channels.specs.declared.step.Channel.TheVariants.{Asynchronous};
ghost use Rattle.sw_core.specs.declared.ask.SessionAsk.TheVariants as Ask;

use crate::locks::{lock, tell_locks};
use crate::refusals::{ErrorCode, FatalCode, error};
use crate::requests::{AsyncRequest, async_request};
use crate::responses::{plain, size_response, size_told, status_byte, tells_delivery};
use crate::step::{Channel, Reply, Step, step_of};
use crate::synchronous::is_done;
use std::alloc::{AllocError, Global};
use std::marker::Model;
use sw_core::{SessionAnswer, SessionAsk, Sid};
use sw_hislip::{Kind, Message};
use sw_talk::{Desk, View};

/// The asynchronous channel of a session. Contracts see an `AsyncStanding`.
#[derive(Debug, Drop)]
pub struct AsyncSession {
    sid: Sid,
    /// How many service requests there were when the channel sent the last one.
    told: u64,
    /// Up to which count they were asked for.
    polled: u64,
}

impl Model for AsyncSession {
    ghost use Rattle.sw_channels.specs.EngineAsync.{AsyncStanding};

    ghost Value = { AsyncStanding };

    ghost view = { λ s. record { sid = s.sid; told = s.told; polled = s.polled } };
}

impl AsyncSession {
    /// The session whose second channel it is.
    pub fn sid(&self) -> Sid
        ensures { result ≡ self.now.sid }
    {
        self.sid
    }

    /// Begins the channel by its first message; else gives what is said.
    pub fn open<D: Desk>(kind: Kind, parameter: u32, desk: &mut D) -> Result<AsyncSession, Reply>
        ensures { LedBy D.passes desk.old desk.new (λ asked.
            OpensAsync kind parameter asked (attached_step result) (attached_session result)) }
    {
        if is_second(kind) {
            return AsyncSession::attach_number(parameter, desk);
        }
        Err(Reply::Fails(FatalCode::InvalidInitialization))
    }

    /// Asks to be the second channel of the session with the number in a parameter; else gives what is said.
    fn attach_number<D: Desk>(parameter: u32, desk: &mut D) -> Result<AsyncSession, Reply>
        ensures { LedBy D.passes desk.old desk.new (λ asked.
            AttachesNumber parameter asked (attached_step result) (attached_session result)) }
    {
        if parameter <= 255 {
            return AsyncSession::attach(parameter as u8, desk);
        }
        Err(Reply::Fails(FatalCode::InvalidInitialization))
    }

    /// Asks to be the second channel of the session with this number; else gives what is said.
    fn attach<D: Desk>(number: u8, desk: &mut D) -> Result<AsyncSession, Reply>
        ensures { LedBy D.passes desk.old desk.new (λ asked.
            AsksToAttach number asked (attached_step result) (attached_session result)) }
    {
        match desk.ask(SessionAsk::Attach(number)) {
            SessionAnswer::Joined(sid) => {
                let requests = desk.poll(sid).requests;
                Ok(AsyncSession {
                    sid,
                    told: requests,
                    polled: requests,
                })
            }
            SessionAnswer::Stranger => Err(Reply::Fails(FatalCode::InvalidInitialization)),
            answer => {
                drop(answer);
                Err(Reply::Leaves)
            }
        }
    }

    /// Serves a message after the first. Want of memory is met before anything is asked, and changes nothing.
    pub fn take<D: Desk>(
        &mut self,
        alloc: Global,
        message: Message,
        desk: &mut D,
    ) -> Result<Step, AllocError>
        ensures ok { IfOk result (λ step. LedBy D.passes desk.old desk.new (λ asked.
            TakesAsync self.old message asked step self.new)) }
        ensures same { OnErr result (self.new ≡ self.old) }
        ensures unasked { OnErr result (desk.new ≡ desk.old) }
    {
        let room = Vec::with_capacity(alloc, 1)?;
        let reply = self.reply(alloc, message, desk)?;
        Ok(step_of(alloc, Channel::Asynchronous, room, reply))
    }

    /// The reply to a message after the first.
    fn reply<D: Desk>(
        &mut self,
        alloc: Global,
        message: Message,
        desk: &mut D,
    ) -> Result<Reply, AllocError>
        ensures ok { IfOk result (λ reply. LedBy D.passes desk.old desk.new (λ asked.
            TakesAsync self.old message asked (reply_step Asynchronous reply) self.new)) }
        ensures same { OnErr result (self.new ≡ self.old) }
        ensures unasked { OnErr result (desk.new ≡ desk.old) }
    {
        match async_request(message.kind) {
            AsyncRequest::Status => {
                let control = message.control;
                drop(message);
                Ok(self.tell_status(alloc, control, desk))
            }
            request => reply(alloc, self.sid, request, message, desk),
        }
    }

    /// Answers an AsyncStatusQuery.
    fn tell_status<D: Desk>(&mut self, alloc: Global, control: u8, desk: &mut D) -> Reply
        ensures { LedBy D.passes desk.old desk.new (λ asked.
            TellsStatus self.old control asked (reply_step Asynchronous result) self.new) }
    {
        note_delivery(self.sid, control, desk);
        let view = desk.poll(self.sid);
        let requests = self.polled < view.requests;
        self.polled = self.polled.max(view.requests);
        let byte = status_byte(view.byte, view.mav, requests);
        Reply::Says(plain(alloc, Kind::AsyncStatusResponse, byte, 0))
    }

    /// Says service requests that it has not said yet.
    pub fn notice(&mut self, alloc: Global, view: View) -> Option<Message>
        ensures told { result ≡ notice_of self.old view }
        ensures counted { self.new ≡ noticed self.old view }
    {
        if self.told >= view.requests {
            return None;
        }
        self.told = view.requests;
        let byte = status_byte(view.byte, view.mav, true);
        Some(plain(alloc, Kind::AsyncServiceRequest, byte, 0))
    }
}

/// Whether a message of this kind begins the asynchronous channel.
fn is_second(kind: Kind) -> bool
    ensures { result ≡ is_second kind }
{
    matches!(kind, Kind::AsyncInitialize)
}

/// Notes that no message is available where a control code says that the client has taken the last answer whole.
fn note_delivery<D: Desk>(sid: Sid, control: u8, desk: &mut D)
    ensures { Leads D.passes desk.old (delivered sid control) desk.new }
{
    if tells_delivery(control) {
        desk.note(sid, false);
    }
}

/// Serves a message that asks for this, and not for the status.
fn reply<D: Desk>(
    alloc: Global,
    sid: Sid,
    request: AsyncRequest,
    message: Message,
    desk: &mut D,
) -> Result<Reply, AllocError>
    requires { request ≢ AsyncRequest.Status }
    ensures ok { IfOk result (λ reply. LedBy D.passes desk.old desk.new (λ asked.
        RepliesAsync request sid message asked (reply_step Asynchronous reply))) }
    ensures unasked { OnErr result (desk.new ≡ desk.old) }
{
    match request {
        AsyncRequest::Size => note_size(alloc, sid, message.payload.as_slice(), desk),
        AsyncRequest::Lock => Ok(lock(alloc, sid, message, desk)),
        AsyncRequest::LockInfo => Ok(tell_locks(alloc, sid, desk)),
        AsyncRequest::RemoteLocal => Ok(control_reply(alloc, message.control)),
        AsyncRequest::Clear => Ok(clear(alloc, sid, desk)),
        AsyncRequest::Status => unreachable!(),
        AsyncRequest::Leave => Ok(Reply::Leaves),
        AsyncRequest::Nothing => Ok(Reply::Silence),
        AsyncRequest::Initialize => Ok(Reply::Fails(FatalCode::InvalidInitialization)),
        AsyncRequest::Vendor => Ok(Reply::Says(error(alloc, ErrorCode::UnrecognizedVendor))),
        AsyncRequest::Misplaced => Ok(Reply::Says(error(alloc, ErrorCode::UnrecognizedType))),
    }
}

/// Answers an AsyncMaximumMessageSize.
fn note_size<D: Desk>(
    alloc: Global,
    sid: Sid,
    payload: &[u8],
    desk: &mut D,
) -> Result<Reply, AllocError>
    ensures ok { IfOk result (λ reply. LedBy D.passes desk.old desk.new (λ asked.
        OnDone (Ask.Size sid (size_told payload.now)) Asynchronous size_response asked
        (reply_step Asynchronous reply))) }
    ensures unasked { OnErr result (desk.new ≡ desk.old) }
{
    let response = size_response(alloc)?;
    let answer = desk.ask(SessionAsk::Size(sid, size_told(payload)));
    Ok(on_done(answer, response))
}

/// Answers an AsyncDeviceClear.
fn clear<D: Desk>(alloc: Global, sid: Sid, desk: &mut D) -> Reply
    ensures { LedBy D.passes desk.old desk.new (λ asked.
        OnDone (Ask.Clear sid) Asynchronous (plain Kind.AsyncDeviceClearAcknowledge 0 0) asked
        (reply_step Asynchronous result)) }
{
    let response = plain(alloc, Kind::AsyncDeviceClearAcknowledge, 0, 0);
    let answer = desk.ask(SessionAsk::Clear(sid));
    on_done(answer, response)
}

/// The response where what was asked is done; else the channel ends.
fn on_done(answer: SessionAnswer, response: Message) -> Reply
    ensures { reply_step Asynchronous result ≡ on_done Asynchronous response answer }
{
    if is_done(answer) {
        Reply::Says(response)
    } else {
        Reply::Leaves
    }
}

/// Answers an AsyncRemoteLocalControl.
fn control_reply(alloc: Global, control: u8) -> Reply
    ensures { reply_step Asynchronous result ≡ control_reply control }
{
    if control <= 6 {
        Reply::Says(plain(alloc, Kind::AsyncRemoteLocalResponse, 0, 0))
    } else {
        Reply::Says(error(alloc, ErrorCode::UnrecognizedControl))
    }
}
