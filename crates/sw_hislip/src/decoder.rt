//! Bytes to messages.

ghost use Rattle.std.specs.Prelude.{◌≡◌, ◌≤◌, ◌+◌, drop, length, IsOk, OnOk, OnErr};
ghost use Rattle.sw_hislip.specs.Pending.{nothing_fed, fed, heard, without_front, skipping, GivesNext, IsFrontKind};
ghost use Rattle.sw_hislip.specs.Pending.{IsLean};

use crate::fault::WireFault;
use crate::header::{HEADER, read_header};
use crate::kind::Kind;
use crate::message::{LONGEST_PAYLOAD, Message};
use std::alloc::{AllocError, Global};
use std::marker::Model;
use std::mem::replace;
use sw_base::Sequence;

/// The bytes of a connection, fed in any pieces, as messages.
///
/// Contracts see a `DecoderSeen`: the bytes that were fed and not taken, how many of the bytes to come are skipped, and
/// how many bytes of the stream are kept in memory.
#[derive(Drop)]
pub struct Decoder {
    buffer: Vec<u8>,
    /// How many bytes at the front of the buffer were taken.
    taken: usize,
    skip: u64,
}

impl Model for Decoder {
    ghost use Rattle.std.specs.Prelude.{◌≡◌, ◌≤◌, ◌<◌, ◌*◌, drop, vec_len};
    ghost use Rattle.sw_hislip.specs.Pending.{DecoderSeen};

    ghost Value = { DecoderSeen };

    ghost view = { λ d. record {
      pending = record { bytes = drop d.taken d.buffer.items; skip = d.skip };
      room = vec_len d.buffer;
    } };

    ghost invariant = { λ d. (2 * d.taken ≤ vec_len d.buffer) × (0 < d.skip → vec_len d.buffer ≡ 0) };
}

impl Decoder {
    /// A decoder that was fed nothing.
    pub fn new(alloc: Global) -> Decoder
        ensures nothing { result.pending ≡ nothing_fed }
        ensures lean { IsLean result }
    {
        Decoder {
            buffer: Vec::new(alloc),
            taken: 0,
            skip: 0,
        }
    }

    /// A decoder that was fed these bytes, in the memory that they are in.
    pub fn of(bytes: Vec<u8>) -> Decoder
        ensures heard { result.pending ≡ heard bytes.items }
        ensures lean { IsLean result }
    {
        Decoder {
            buffer: bytes,
            taken: 0,
            skip: 0,
        }
    }

    /// Takes the next piece of the stream. It drops bytes of a payload that it skips; they take no memory. The only
    /// error is a lack of memory, and then nothing changed.
    pub fn feed(&mut self, piece: &[u8]) -> Result<(), AllocError>
        ensures fed { OnOk result (self.new.pending ≡ fed self.old.pending piece.now) }
        ensures kept { OnErr result (self.new ≡ self.old) }
        ensures skipped { length piece.now ≤ self.old.pending.skip → IsOk result }
        ensures lean { IsLean self.new }
    {
        if piece.len() as u64 <= self.skip {
            self.skip -= piece.len() as u64;
            return Ok(());
        }
        let (_, kept) = piece.split_at(self.skip as usize);
        self.buffer.extend_from_slice(kept)?;
        self.skip = 0;
        Ok(())
    }

    /// The next message; none where it is not whole yet. A header is judged once its 16 bytes are there.
    ///
    /// `BadPrologue` changes nothing, so it comes again. `TooLarge` comes once; then the decoder skips the payload.
    /// `NoMemory` changes nothing.
    pub fn next(&mut self, alloc: Global) -> Result<Option<Message>, WireFault>
        ensures given { GivesNext self.old.pending result self.new.pending }
        ensures lean { IsLean self.new }
    {
        let mut spare = Vec::new(alloc);
        self.next_in(alloc, &mut spare)
    }

    /// The next message as `next` gives it, its payload in the memory of `spare`, which is left empty.
    pub fn next_in(
        &mut self,
        alloc: Global,
        spare: &mut Vec<u8>,
    ) -> Result<Option<Message>, WireFault>
        ensures given { GivesNext self.old.pending result self.new.pending }
        ensures lean { IsLean self.new }
    {
        let (_, unread) = self.buffer.as_slice().split_at(self.taken);
        let header = match read_header(unread)? {
            None => return Ok(None),
            Some(header) => header,
        };
        let (_, body) = unread.split_at(HEADER);
        if header.length > LONGEST_PAYLOAD {
            self.skip_payload(header.length);
            return Err(WireFault::TooLarge(header.kind));
        }
        let length = header.length as usize;
        if body.len() < length {
            return Ok(None);
        }
        let (payload, _) = body.split_at(length);
        spare.clear();
        match spare.extend_from_slice(payload) {
            Err(_) => Err(WireFault::NoMemory),
            Ok(()) => {
                self.take(HEADER + length);
                let payload = replace(spare, Vec::new(alloc));
                Ok(Some(Message {
                    kind: header.kind,
                    control: header.control,
                    parameter: header.parameter,
                    payload: Sequence::new(payload),
                }))
            }
        }
    }

    /// The kind of the message whose header is at the front; none where that is not whole, or doesn't begin with `HS`.
    pub fn front_kind(&self) -> Option<Kind>
        ensures { IsFrontKind self.now.pending.bytes result }
    {
        let (_, unread) = self.buffer.as_slice().split_at(self.taken);
        match read_header(unread) {
            Ok(Some(header)) => Some(header.kind),
            _ => None,
        }
    }

    /// How many bytes of the stream are kept in memory.
    pub fn room(&self) -> usize
        ensures room { result ≡ self.now.room }
        ensures lean { IsLean self.now }
    {
        self.buffer.len()
    }

    /// Drops what is there of a payload after its header at the front, and skips the rest of it.
    fn skip_payload(&mut self, size: u64)
        requires { 16 ≤ length self.old.pending.bytes }
        ensures skipped { self.new.pending ≡ skipping (drop 16 self.old.pending.bytes) size }
        ensures lean { IsLean self.new }
    {
        let there = (self.buffer.len() - self.taken - HEADER) as u64;
        if size <= there {
            self.take(HEADER + size as usize);
        } else {
            self.buffer.clear();
            self.taken = 0;
            self.skip = size - there;
        }
    }

    /// Takes bytes from the front. What was taken is given up once it is more than what is left, so that a byte is
    /// moved no more often than one is taken.
    fn take(&mut self, count: usize)
        requires { count ≤ length self.old.pending.bytes }
        ensures taken { self.new.pending ≡ without_front self.old.pending count }
        ensures lean { IsLean self.new }
    {
        self.taken += count;
        if self.taken == self.buffer.len() {
            self.buffer.clear();
            self.taken = 0;
            return;
        }
        if self.taken > self.buffer.len() - self.taken {
            let _ = self.buffer.drain(..self.taken);
            self.taken = 0;
        }
    }
}
