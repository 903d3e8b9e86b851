//! Answers, cut to the client's size.

ghost use Rattle.std.specs.Prelude.{◌≡◌, ◌<◌, ◌≤◌, IfOk, drop, length};
ghost use Rattle.sw_channels.specs.EngineMessages.{room_of, part};
ghost use Rattle.sw_channels.specs.InParts.{parts_of, GivesFirst};

use std::alloc::{AllocError, Global};
use std::marker::Model;
use std::mem;
use sw_base::Sequence;
use sw_hislip::{Kind, LONGEST_PAYLOAD, Message};

/// The bytes of a header, which count into the size that a client sends.
const HEADER: u64 = 16;

/// How many bytes of an answer go into one payload, for a client that takes messages of this size.
pub fn room_of(size: u64) -> usize
    ensures value { result ≡ room_of size }
    ensures some { 0 < result }
{
    size.min(LONGEST_PAYLOAD).saturating_sub(HEADER).max(1) as usize
}

/// The parts of an answer that are still to be said. It keeps the answer as it is and makes each part when asked for
/// it, so that all of them are never in memory together. Contracts see their messages.
#[derive(Debug, Drop)]
pub struct Parts {
    id: u32,
    /// How many bytes go into one part.
    room: usize,
    answer: Vec<u8>,
    /// How many bytes of the answer were given.
    given: usize,
    /// Whether the last part was given.
    is_over: bool,
}

impl Model for Parts {
    ghost use Rattle.std.specs.Prelude.{◌<◌, ◌≤◌, drop, length, List, [], if◌then◌else◌};
    ghost use Rattle.sw_hislip.specs.declared.message.Message.{Message};
    ghost use Rattle.sw_channels.specs.InParts.{parts_of};

    ghost Value = { List Message };

    ghost view = { λ p. if p.is_over then [] else parts_of p.room p.id (drop p.given p.answer.items) };

    ghost invariant = { λ p. (0 < p.room) × (p.given ≤ length p.answer.items) };
}

impl Parts {
    /// All parts of an answer under this identifier, of `room` bytes each, but for the last, which may have fewer.
    pub fn of(id: u32, room: usize, answer: Vec<u8>) -> Self
        requires { 0 < room }
        ensures { result ≡ parts_of room id answer.items }
    {
        Parts {
            id,
            room,
            answer,
            given: 0,
            is_over: false,
        }
    }

    /// The next part. Only want of memory is refused. An answer that is one part is given as it is, and not copied.
    #[inline(always)]
    pub fn next(&mut self, alloc: Global) -> Result<Option<Message>, AllocError>
        ensures { GivesFirst self.old result self.new }
    {
        if self.is_over {
            return Ok(None);
        }
        let left = &self.answer[self.given..];
        if left.len() > self.room {
            let message = part(alloc, Kind::Data, self.id, &left[..self.room])?;
            self.given += self.room;
            return Ok(Some(message));
        }
        if self.given == 0 {
            self.is_over = true;
            let answer = mem::replace(&mut self.answer, Vec::new(alloc));
            return Ok(Some(holding(Kind::DataEnd, self.id, answer)));
        }
        let message = part(alloc, Kind::DataEnd, self.id, left)?;
        self.is_over = true;
        Ok(Some(message))
    }
}

/// A part of an answer.
fn part(alloc: Global, kind: Kind, id: u32, bytes: &[u8]) -> Result<Message, AllocError>
    ensures { IfOk result (λ m. m ≡ part kind id bytes.now) }
{
    Ok(holding(kind, id, Vec::from_slice(alloc, bytes)?))
}

/// A part that is these bytes.
fn holding(kind: Kind, id: u32, bytes: Vec<u8>) -> Message
    ensures { result ≡ part kind id bytes.items }
{
    Message {
        kind,
        control: 0,
        parameter: id,
        payload: Sequence::new(bytes),
    }
}
