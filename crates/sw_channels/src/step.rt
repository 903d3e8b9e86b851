//! What an engine says to one message, and on which connection.

ghost use Rattle.std.specs.Prelude.{◌≡◌, ◌≤◌, ◌++◌, [], true, false, vec_capacity};
ghost use Rattle.sw_channels.specs.EngineStep.{reply_step};
ghost use Rattle.sw_channels.specs.InParts.{GivesFirst};
ghost use Rattle.sw_channels.specs.Said.{answering, is_fatal, fatal_code};
ghost use Rattle.sw_channels.specs.declared.step.Sent.{Sent};

use crate::answers::Parts;
use crate::refusals::{FatalCode, fatal};
use std::alloc::{AllocError, Global};
use std::marker::Model;
use sw_hislip::{Kind, Message};

/// The two connections of a session.
#[derive(Clone, Copy, Debug, PartialEq, Eq)]
pub enum Channel {
    Synchronous,
    Asynchronous,
}

/// A message, and the connection that it goes out on.
#[derive(Debug, Drop)]
pub struct Sent {
    pub channel: Channel,
    pub message: Message,
}

/// What follows the messages that are said.
#[derive(Debug, Drop)]
enum Rest {
    /// Nothing, and the channel continues.
    Nothing,
    /// Nothing, and the channel ends.
    End,
    /// The parts of an answer, and the channel continues.
    Answer(Parts),
}

/// What is said to one message: messages, then the parts of an answer, and whether the channel ends then. Contracts see
/// all its messages in order.
#[derive(Debug, Drop)]
pub struct Step {
    said: Vec<Sent>,
    rest: Rest,
}

impl Model for Step {
    ghost use Rattle.std.specs.Prelude.{◌++◌};
    ghost use Rattle.sw_channels.specs.Said.{StepSeen, answering, left_of, is_end};

    ghost Value = { StepSeen };

    ghost view = { λ s. record { out = s.said.items ++ answering (left_of s.rest); ends = is_end s.rest } };
}

impl Step {
    /// These messages are said, and whether the channel ends.
    pub fn new(said: Vec<Sent>, ends: bool) -> Self
        ensures { result ≡ record { out = said.items; ends = ends } }
    {
        let rest = if ends { Rest::End } else { Rest::Nothing };
        Step { said, rest }
    }

    /// These messages are said, and then the parts of an answer.
    pub fn answering(said: Vec<Sent>, parts: Parts) -> Self
        ensures { result ≡ record { out = said.items ++ answering parts; ends = false } }
    {
        let rest = Rest::Answer(parts);
        Step { said, rest }
    }

    /// Whether the channel ends.
    pub fn ends(&self) -> bool
        ensures { result ≡ self.now.ends }
    {
        matches!(self.rest, Rest::End)
    }

    /// The code of the first fatal error among the messages, where the channel ends.
    pub fn fatal_code(&self) -> Option<u8>
        requires { self.now.ends ≡ true }
        ensures { result ≡ fatal_code self.now.out }
    {
        let said = self.said.as_slice();
        said.iter()
            .find(|sent| matches!(sent.message.kind, Kind::FatalError))
            .map(|sent| sent.message.control)
    }

    /// The next message. Only want of memory for a part of an answer is refused.
    #[inline(always)]
    pub fn next(&mut self, alloc: Global) -> Result<Option<Sent>, AllocError>
        ensures gives { GivesFirst self.old.out result self.new.out }
        ensures same { self.new.ends ≡ self.old.ends }
    {
        if !self.said.is_empty() {
            return Ok(Some(self.said.remove(0)));
        }
        match &mut self.rest {
            Rest::Answer(parts) => match parts.next(alloc) {
                Ok(Some(message)) => Ok(Some(Sent {
                    channel: Channel::Synchronous,
                    message,
                })),
                Ok(None) => Ok(None),
                Err(refused) => Err(refused),
            },
            Rest::Nothing | Rest::End => Ok(None),
        }
    }
}

/// What is said to a message, where it is one message at most.
#[derive(Debug, Drop)]
pub enum Reply {
    /// This message, and the channel continues.
    Says(Message),
    /// Nothing, and the channel continues.
    Silence,
    /// This fault, and the channel ends.
    Fails(FatalCode),
    /// Nothing, and the channel ends.
    Leaves,
}

/// The step for a reply on this channel, in a list that has room for it.
pub fn step_of(alloc: Global, channel: Channel, room: Vec<Sent>, reply: Reply) -> Step
    requires empty { room.items ≡ [] }
    requires room { 1 ≤ vec_capacity room }
    ensures { result ≡ reply_step channel reply }
{
    let mut out = room;
    let mut ends = false;
    match reply {
        Reply::Says(message) => out.push(Sent { channel, message }).unwrap(),
        Reply::Silence => {}
        Reply::Fails(code) => {
            let message = fatal(alloc, code);
            out.push(Sent { channel, message }).unwrap();
            ends = true;
        }
        Reply::Leaves => ends = true,
    }
    Step::new(out, ends)
}
