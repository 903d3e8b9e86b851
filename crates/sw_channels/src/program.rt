//! The synchronous channel of a session after its first message: program messages in parts, and their answers.

ghost use Rattle.std.specs.Prelude.{◌≡◌, ◌<◌, ◌≤◌, List, [], length, map, true, false, IfOk, OnErr, vec_capacity};
ghost use Rattle.sw_channels.specs.EngineSync as EngineSync;
ghost use Rattle.sw_channels.specs.EngineStep.{LedBy, on, goes, joined, reply_step};
ghost use Rattle.sw_channels.specs.EngineSync.{newly_joined, TakesSync, RepliesSync, Completes, message_completed};
ghost use Rattle.sw_channels.specs.EngineSync.{Triggers};
ghost use Rattle.sw_channels.specs.EngineSync.{is_within, ServesProgram, Attended, Programs};
ghost use Rattle.sw_channels.specs.EngineSync.{Finishes, Converses, Answers, CutsTo, said_by_delivery, skipped};
ghost use Rattle.sw_channels.specs.EngineSync.{SaysMore};
ghost use Rattle.sw_channels.specs.EngineSync.{is_program};
ghost use Rattle.sw_channels.specs.EngineKinds.{sync_request};
ghost use Rattle.sw_channels.specs.EngineMessages.{tells_delivery};
ghost use Rattle.sw_channels.specs.EngineSync.{FallsShort, FaltersSync};
ghost use Rattle.sw_channels.specs.declared.step.Channel.TheVariants.{Synchronous};

use crate::answers::{Parts, room_of};
use crate::partial_message::{PartialMessage, is_within, skipped, whole, with_part};
use crate::refusals::{ErrorCode, FatalCode, error};
use crate::requests::{SyncRequest, is_program, sync_request};
use crate::responses::{plain, tells_delivery};
use crate::step::{Channel, Reply, Sent, Step, step_of};
use crate::synchronous::{Delivery, attend, complete, deliver, trigger};
use std::alloc::{AllocError, Global};
use std::marker::Model;
use std::mem::replace;
use sw_base::Sequence;
use sw_core::{SessionAnswer, SessionAsk, Sid};
use sw_hislip::{Kind, Message};
use sw_talk::{Desk, Talker};

/// The synchronous channel of a session. Contracts see a `SyncStanding`.
#[derive(Drop)]
pub struct SyncSession {
    sid: Sid,
    talker: Talker,
    /// Whether the session was seen to have its second channel.
    attached: bool,
    partial: PartialMessage,
}

impl Model for SyncSession {
    ghost use Rattle.std.specs.Prelude.{◌≡◌};
    ghost use Rattle.sw_channels.specs.EngineSync.{SyncStanding};

    ghost Value = { SyncStanding };

    ghost view = { λ s. record { sid = s.sid; macros = s.talker.macros; attached = s.attached; partial = s.partial } };

    ghost invariant = { λ s. s.talker.sid ≡ s.sid };
}

impl SyncSession {
    /// The session that was just joined.
    pub fn new(alloc: Global, sid: Sid) -> Self
        ensures { result ≡ newly_joined sid }
    {
        SyncSession {
            sid,
            talker: Talker::new(alloc, sid),
            attached: false,
            partial: PartialMessage::Nothing,
        }
    }

    /// The session whose channel it is.
    pub fn sid(&self) -> Sid
        ensures { result ≡ self.now.sid }
    {
        self.sid
    }

    /// Drops what belongs to a message of this kind that was skipped for its size.
    pub fn skip(&mut self, kind: Kind)
        ensures { self.new ≡ record self.old { partial = skipped (sync_request kind) self.old.partial } }
    {
        let partial = replace(&mut self.partial, PartialMessage::Nothing);
        self.partial = skipped(sync_request(kind), partial);
    }

    /// Serves a message after the first.
    pub fn take<D: Desk>(
        &mut self,
        alloc: Global,
        message: Message,
        desk: &mut D,
    ) -> Result<Step, AllocError>
        ensures ok { IfOk result (λ step. LedBy D.passes desk.old desk.new (λ asked.
            TakesSync self.old message asked step self.new)) }
        ensures err { OnErr result (LedBy D.passes desk.old desk.new (λ asked. FaltersSync self.old message asked)) }
        ensures same { self.new.sid ≡ self.old.sid }
    {
        let request = sync_request(message.kind);
        if is_program(request) {
            let room = room_for(alloc, self.attached, message.control)?;
            return self.program(alloc, request, message, room, desk);
        }
        let room = Vec::with_capacity(alloc, 1)?;
        drop(message);
        let reply = self.reply(alloc, request, desk);
        Ok(step_of(alloc, Channel::Synchronous, room, reply))
    }

    /// The reply to a message that is no part of a program.
    fn reply<D: Desk>(&mut self, alloc: Global, request: SyncRequest, desk: &mut D) -> Reply
        requires { is_program request ≡ false }
        ensures replies { LedBy D.passes desk.old desk.new (λ asked.
            RepliesSync request self.old asked (reply_step Synchronous result) self.new) }
        ensures same { self.new.sid ≡ self.old.sid }
    {
        match request {
            SyncRequest::ClearComplete => self.complete(alloc, desk),
            SyncRequest::Leave => Reply::Leaves,
            SyncRequest::Nothing => Reply::Silence,
            SyncRequest::Initialize => Reply::Fails(FatalCode::InvalidInitialization),
            SyncRequest::Vendor => Reply::Says(error(alloc, ErrorCode::UnrecognizedVendor)),
            SyncRequest::Misplaced => Reply::Says(error(alloc, ErrorCode::UnrecognizedType)),
            SyncRequest::Part | SyncRequest::End | SyncRequest::Trigger => unreachable!(),
        }
    }

    /// Answers a DeviceClearComplete, and drops the part that has come of a program message.
    fn complete<D: Desk>(&mut self, alloc: Global, desk: &mut D) -> Reply
        ensures asked { LedBy D.passes desk.old desk.new (λ asked.
            Completes self.old.sid asked (reply_step Synchronous result)) }
        ensures state { self.new ≡ message_completed self.old (reply_step Synchronous result) }
        ensures same { self.new.sid ≡ self.old.sid }
    {
        let reply = complete(alloc, self.sid, desk);
        if !ends(&reply) {
            self.partial = PartialMessage::Nothing;
        }
        reply
    }

    /// Serves a message of a program once the session has its second channel.
    fn program<D: Desk>(
        &mut self,
        alloc: Global,
        request: SyncRequest,
        message: Message,
        room: Vec<Sent>,
        desk: &mut D,
    ) -> Result<Step, AllocError>
        requires program { is_program request ≡ true }
        requires empty { room.items ≡ [] }
        requires fresh { self.old.attached ≡ false → 2 ≤ vec_capacity room }
        requires untaken { tells_delivery message.control ≡ false → 2 ≤ vec_capacity room }
        ensures ok { IfOk result (λ step. LedBy D.passes desk.old desk.new (λ asked.
            ServesProgram false request self.old message asked step self.new)) }
        ensures err { OnErr result (LedBy D.passes desk.old desk.new (λ asked.
            FallsShort (ServesProgram true request self.old message) asked)) }
        ensures same { self.new.sid ≡ self.old.sid }
    {
        match attend(self.sid, self.attached, desk) {
            Some(reply) => {
                drop(message);
                Ok(step_of(alloc, Channel::Synchronous, room, reply))
            }
            None => {
                self.attached = true;
                self.process(alloc, request, message, room, desk)
            }
        }
    }

    /// Looks at the last answer, and serves a message of a program.
    fn process<D: Desk>(
        &mut self,
        alloc: Global,
        request: SyncRequest,
        message: Message,
        room: Vec<Sent>,
        desk: &mut D,
    ) -> Result<Step, AllocError>
        requires program { is_program request ≡ true }
        requires empty { room.items ≡ [] }
        requires untaken { tells_delivery message.control ≡ false → 2 ≤ vec_capacity room }
        ensures ok { IfOk result (λ step. LedBy D.passes desk.old desk.new (λ asked.
            Attended false request self.old message asked step self.new)) }
        ensures err { OnErr result (LedBy D.passes desk.old desk.new (λ asked.
            FallsShort (Attended true request self.old message) asked)) }
        ensures same { self.new.sid ≡ self.old.sid }
    {
        match deliver(self.sid, message.control, desk) {
            Delivery::Gone => {
                drop(message);
                Ok(told(room, true))
            }
            delivery => {
                let said = interruption(alloc, room, message.parameter, delivery);
                self.serve(alloc, request, message, said, desk)
            }
        }
    }

    /// Serves a message of a program; this was said before.
    fn serve<D: Desk>(
        &mut self,
        alloc: Global,
        request: SyncRequest,
        message: Message,
        said: Vec<Sent>,
        desk: &mut D,
    ) -> Result<Step, AllocError>
        requires { is_program request ≡ true }
        ensures ok { IfOk result (λ step. LedBy D.passes desk.old desk.new (λ asked.
            SaysMore said.items step (λ own. Programs false request self.old message asked own self.new))) }
        ensures err { OnErr result (LedBy D.passes desk.old desk.new (λ asked.
            FallsShort (Programs true request self.old message) asked)) }
        ensures same { self.new.sid ≡ self.old.sid }
    {
        match request {
            SyncRequest::Part => self.keep(message.payload, said),
            SyncRequest::End => self.finish(message.parameter, message.payload, said, desk),
            SyncRequest::Trigger => {
                drop(message);
                Ok(self.trigger(said, desk))
            }
            SyncRequest::ClearComplete
            | SyncRequest::Leave
            | SyncRequest::Nothing
            | SyncRequest::Initialize
            | SyncRequest::Vendor
            | SyncRequest::Misplaced => unreachable!(),
        }
    }

    /// Keeps a part of a program message.
    fn keep(&mut self, part: Sequence<u8>, said: Vec<Sent>) -> Result<Step, AllocError>
        ensures kept { IfOk result (λ step. (step ≡ joined (goes said.items) (goes []))
            × (self.new ≡ record self.old { partial = EngineSync.with_part self.old.partial part })) }
        ensures same { self.new.sid ≡ self.old.sid }
    {
        let partial = replace(&mut self.partial, PartialMessage::Nothing);
        self.partial = with_part(partial, part)?;
        Ok(told(said, false))
    }

    /// Gives a trigger, and drops the part that has come of a program message.
    fn trigger<D: Desk>(&mut self, said: Vec<Sent>, desk: &mut D) -> Step
        ensures ok { LedBy D.passes desk.old desk.new (λ asked.
            SaysMore said.items result (λ own. Triggers (is_within self.old.partial) self.old.sid asked own)) }
        ensures state { self.new ≡ record self.old { partial = PartialMessage.Nothing } }
        ensures same { self.new.sid ≡ self.old.sid }
    {
        let within = is_within(&self.partial);
        let ends = trigger(self.sid, within, desk);
        self.partial = PartialMessage::Nothing;
        told(said, ends)
    }

    /// Ends a program message with its last part.
    fn finish<D: Desk>(
        &mut self,
        id: u32,
        part: Sequence<u8>,
        said: Vec<Sent>,
        desk: &mut D,
    ) -> Result<Step, AllocError>
        ensures ok { IfOk result (λ step. LedBy D.passes desk.old desk.new (λ asked.
            SaysMore said.items step (λ own.
            Finishes self.old id (EngineSync.whole self.old.partial part) asked own self.new))) }
        ensures err { OnErr result (LedBy D.passes desk.old desk.new (λ asked. asked ≡ [])) }
        ensures same { self.new.sid ≡ self.old.sid }
    {
        let partial = replace(&mut self.partial, PartialMessage::Nothing);
        match whole(partial, part)? {
            Some(text) => Ok(self.converse(id, text, said, desk)),
            None => Ok(told(said, false)),
        }
    }

    /// Talks over a program message, and says its answer, if there is one, in parts of the client's size. The next
    /// answer reuses the message's memory.
    fn converse<D: Desk>(
        &mut self,
        id: u32,
        text: Sequence<u8>,
        said: Vec<Sent>,
        desk: &mut D,
    ) -> Step
        ensures talks { LedBy D.passes desk.old desk.new (λ asked.
            SaysMore said.items result (λ own. Converses self.old id text asked own self.new.macros)) }
        ensures kept { self.new ≡ record self.old { macros = self.new.macros } }
    {
        let (bytes, lasts) = self.talker.talk_over(text.as_slice(), desk);
        self.talker.reuse(text.into_vec());
        if is_silent(&bytes, lasts) {
            return told(said, false);
        }
        let mut size = SessionAnswer::Stranger;
        desk.ask_into(SessionAsk::MaxSize(self.sid), &mut size);
        respond(id, bytes, size, said)
    }
}

/// Room for what may have to be said before a message of a program is served: none where the session was seen to have
/// its second channel, and the client has taken the last answer.
fn room_for(alloc: Global, attached: bool, control: u8) -> Result<Vec<Sent>, AllocError>
    ensures empty { IfOk result (λ room. room.items ≡ []) }
    ensures fresh { attached ≡ false → IfOk result (λ room. 2 ≤ vec_capacity room) }
    ensures untaken { tells_delivery control ≡ false → IfOk result (λ room. 2 ≤ vec_capacity room) }
{
    if attached && tells_delivery(control) {
        return Ok(Vec::new(alloc));
    }
    Vec::with_capacity(alloc, 2)
}

/// Whether the channel ends with a reply.
fn ends(reply: &Reply) -> bool
    ensures { result ≡ (reply_step Synchronous reply.now).ends }
{
    matches!(reply, Reply::Fails(_) | Reply::Leaves)
}

/// What was said before, with nothing more; whether the channel ends.
fn told(said: Vec<Sent>, ends: bool) -> Step
    ensures { result ≡ joined (goes said.items) (record { out = []; ends = ends }) }
{
    Step::new(said, ends)
}

/// The messages of an interrupt, where there was one.
fn interruption(alloc: Global, room: Vec<Sent>, id: u32, delivery: Delivery) -> Vec<Sent>
    requires empty { room.items ≡ [] }
    requires room { delivery ≡ Delivery.Interrupted → 2 ≤ vec_capacity room }
    ensures { result.items ≡ said_by_delivery id delivery }
{
    let mut said = room;
    if delivery == Delivery::Interrupted {
        let message = plain(alloc, Kind::AsyncInterrupted, 0, id);
        let channel = Channel::Asynchronous;
        said.push(Sent { channel, message }).unwrap();
        let message = plain(alloc, Kind::Interrupted, 0, id);
        let channel = Channel::Synchronous;
        said.push(Sent { channel, message }).unwrap();
    }
    said
}

/// Whether a message is not answered, of a session that lasts.
fn is_silent(bytes: &Vec<u8>, lasts: bool) -> bool
    ensures silent { result ≡ true → (lasts ≡ true) × (length bytes.now.items ≡ 0) }
    ensures answers { result ≡ false → lasts ≡ true → 0 < length bytes.now.items }
{
    lasts && bytes.is_empty()
}

/// What was said before, and an answer, cut to the size that the desk answers. Where it answers none, the channel ends.
fn respond(id: u32, bytes: Vec<u8>, size: SessionAnswer, said: Vec<Sent>) -> Step
    ensures { SaysMore said.items result (λ own. Answers id bytes.items size own) }
{
    match size {
        SessionAnswer::Max(size) => answer(id, size, bytes, said),
        answer => {
            drop(answer);
            told(said, true)
        }
    }
}

/// What was said before, and an answer cut to this size; an empty one is none.
fn answer(id: u32, size: u64, bytes: Vec<u8>, said: Vec<Sent>) -> Step
    ensures { (parts : List Message) × CutsTo size id bytes.items parts
        × (result ≡ joined (goes said.items) (goes (map (on Synchronous) parts))) }
{
    if bytes.is_empty() {
        return told(said, false);
    }
    Step::answering(said, Parts::of(id, room_of(size), bytes))
}
