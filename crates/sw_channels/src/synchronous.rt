//! What the synchronous channel asks of a desk beside program messages: its session, whether that has its second
//! channel, what became of the last answer, a trigger, the end of a device clear.

ghost use Rattle.std.specs.Prelude.{◌≡◌, ℕ, true, false, [], IfSome};
ghost use Rattle.sw_channels.specs.EngineMessages.{tells_delivery};
ghost use Rattle.sw_talk.specs.Trace.{Led};
ghost use Rattle.sw_channels.specs.EngineStep.{LedBy, is_gone, reply_step};
ghost use Rattle.sw_channels.specs.EngineSync.{OpensSync, JoinsAt, is_first, AsksToJoin, joins_step, joins_session};
ghost use Rattle.sw_channels.specs.EngineSync.{opened_step, opened_session, Attends, attended, gate_step, Delivers};
ghost use Rattle.sw_channels.specs.EngineSync.{Interrupts, delivery_step, interrupted, Triggers, GivesTrigger};
ghost use Rattle.sw_channels.specs.EngineSync.{Completes};
ghost use Rattle.sw_talk.specs.Talk.{is_done};
ghost use Rattle.sw_channels.specs.declared.step.Channel.TheVariants.{Synchronous};

use crate::initialization::is_sub_address;
use crate::refusals::FatalCode;
use crate::responses::{plain, tells_delivery};
use crate::step::Reply;
use std::alloc::Global;
use sw_base::ScpiError;
use sw_core::{SessionAnswer, SessionAsk, Sid};
use sw_hislip::{Kind, Message};
use sw_talk::{Desk, queue, settle};

/// What became of the last answer.
#[derive(Clone, Copy, Debug, PartialEq, Eq)]
pub enum Delivery {
    /// The client has it, or there was none.
    Quiet,
    /// It was dropped.
    Interrupted,
    /// The session is none any more.
    Gone,
}

/// Begins the synchronous channel by its first message: joins a session; else gives what is said.
pub fn open<D: Desk>(message: &Message, desk: &mut D) -> Result<Sid, Reply>
    ensures { LedBy D.passes desk.old desk.new (λ asked.
        OpensSync message.now asked (opened_step message.now.parameter result) (opened_session result)) }
{
    if is_first(message.kind) {
        return join_at(message, desk);
    }
    Err(Reply::Fails(FatalCode::InvalidInitialization))
}

/// Joins a session where the payload is a sub-address; else gives what is said.
fn join_at<D: Desk>(message: &Message, desk: &mut D) -> Result<Sid, Reply>
    ensures { LedBy D.passes desk.old desk.new (λ asked.
        JoinsAt message.now.payload message.now.parameter asked
        (opened_step message.now.parameter result) (opened_session result)) }
{
    if is_sub_address(message.payload.as_slice()) {
        return join(desk);
    }
    Err(Reply::Fails(FatalCode::InvalidInitialization))
}

/// Whether a message of this kind begins the synchronous channel.
fn is_first(kind: Kind) -> bool
    ensures { result ≡ is_first kind }
{
    matches!(kind, Kind::Initialize)
}

/// Asks for a session; else gives what is said.
fn join<D: Desk>(desk: &mut D) -> Result<Sid, Reply>
    ensures { (parameter : ℕ) → LedBy D.passes desk.old desk.new (λ asked.
        AsksToJoin parameter asked (opened_step parameter result) (opened_session result)) }
{
    let answer = desk.ask(SessionAsk::Join);
    joined(answer)
}

/// The session that was joined.
fn joined(answer: SessionAnswer) -> Result<Sid, Reply>
    ensures step { (parameter : ℕ) → opened_step parameter result ≡ joins_step parameter answer }
    ensures session { opened_session result ≡ joins_session answer }
{
    let session = match &answer {
        SessionAnswer::Joined(sid) => Ok(*sid),
        SessionAnswer::Full => Err(Reply::Fails(FatalCode::TooManyClients)),
        _ => Err(Reply::Leaves),
    };
    drop(answer);
    session
}

/// Asks whether the session has its second channel, unless it was seen to have it. Where a message can't be served it
/// gives what is said, with which the channel ends.
pub fn attend<D: Desk>(sid: Sid, attached: bool, desk: &mut D) -> Option<Reply>
    ensures led { Led D.passes desk.old desk.new (λ t rest. Attends attached sid t (gate_step result) rest) }
    ensures fresh { IfSome result (λ _. attached ≡ false) }
    ensures ends { IfSome result (λ reply. (reply_step Synchronous reply).ends ≡ true) }
{
    if attached {
        return None;
    }
    let answer = desk.ask(SessionAsk::Attached(sid));
    attended(answer)
}

/// What is said where the session doesn't have its second channel.
fn attended(answer: SessionAnswer) -> Option<Reply>
    ensures step { gate_step result ≡ attended answer }
    ensures ends { IfSome result (λ reply. (reply_step Synchronous reply).ends ≡ true) }
{
    let gate = match &answer {
        SessionAnswer::Done(_) => None,
        SessionAnswer::Missed => Some(Reply::Fails(FatalCode::WithoutBothChannels)),
        _ => Some(Reply::Leaves),
    };
    drop(answer);
    gate
}

/// Looks at the last answer before a message with this control code is served. It drops an answer that is available and
/// wasn't taken, with error -410.
pub fn deliver<D: Desk>(sid: Sid, control: u8, desk: &mut D) -> Delivery
    ensures delivers { (id : ℕ) → Led D.passes desk.old desk.new (λ t rest.
        Delivers sid control id t (delivery_step id result) rest) }
    ensures untaken { result ≡ Delivery.Interrupted → tells_delivery control ≡ false }
{
    if tells_delivery(control) {
        desk.note(sid, false);
        return Delivery::Quiet;
    }
    let view = desk.poll(sid);
    if view.mav {
        return interrupt(sid, desk);
    }
    Delivery::Quiet
}

/// Drops the answer that is available.
fn interrupt<D: Desk>(sid: Sid, desk: &mut D) -> Delivery
    ensures { (id : ℕ) → Led D.passes desk.old desk.new (λ t rest. Interrupts sid id t (delivery_step id result) rest) }
{
    desk.note(sid, false);
    let answer = desk.ask(SessionAsk::Fault(sid, ScpiError::QueryInterrupted));
    if is_gone(answer) {
        Delivery::Gone
    } else {
        Delivery::Interrupted
    }
}

/// Gives a trigger; within a program message that is an error. It says nothing, and returns whether the channel ends.
pub fn trigger<D: Desk>(sid: Sid, within: bool, desk: &mut D) -> bool
    ensures { LedBy D.passes desk.old desk.new (λ asked.
        Triggers within sid asked (record { out = []; ends = result })) }
{
    let answer = give_trigger(sid, within, desk);
    is_gone(answer)
}

/// Asks for a bus trigger, or queues the error.
fn give_trigger<D: Desk>(sid: Sid, within: bool, desk: &mut D) -> SessionAnswer
    ensures { LedBy D.passes desk.old desk.new (λ asked. GivesTrigger within sid asked result) }
{
    if within {
        return queue(desk, sid, ScpiError::GetNotAllowed);
    }
    settle(desk, sid, SessionAsk::Bus(sid))
}

/// Answers a DeviceClearComplete.
pub fn complete<D: Desk>(alloc: Global, sid: Sid, desk: &mut D) -> Reply
    ensures { LedBy D.passes desk.old desk.new (λ asked. Completes sid asked (reply_step Synchronous result)) }
{
    let answer = desk.ask(SessionAsk::Cleared(sid));
    if is_done(answer) {
        desk.note(sid, false);
        return Reply::Says(plain(alloc, Kind::DeviceClearAcknowledge, 0, 0));
    }
    Reply::Leaves
}

/// Whether what was asked is done.
pub fn is_done(answer: SessionAnswer) -> bool
    ensures { result ≡ is_done answer }
{
    let done = matches!(&answer, SessionAnswer::Done(_));
    drop(answer);
    done
}

/// Whether the session is none any more, or nothing more can be numbered.
fn is_gone(answer: SessionAnswer) -> bool
    ensures { result ≡ is_gone answer }
{
    let gone = matches!(&answer, SessionAnswer::Stranger | SessionAnswer::Worn(_));
    drop(answer);
    gone
}
