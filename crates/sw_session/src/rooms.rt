//! Room for bytes that a server keeps from one message to the next.

ghost use Rattle.std.specs.Prelude.{◌<◌, length};

use std::alloc::Global;
use std::marker::Model;
use std::mem::replace;
use sw_hislip::Message;

/// How many bytes a read takes at most.
const READ_BYTES: usize = 512;

/// How many it takes at most where the one before it was full.
const LONG_READ_BYTES: usize = 65_536;

/// Room for what is read, heard and said. Contracts see nothing of it.
#[derive(Drop)]
pub struct Rooms {
    alloc: Global,
    /// For what one read gives.
    heard: [u8; READ_BYTES],
    /// For what one read gives where the one before it was full: empty until one was.
    heard_long: Vec<u8>,
    /// The last read was full.
    was_full: bool,
    said: Vec<u8>,
    /// For the payload of the message that is heard next: the memory of what was said last.
    pub spare: Vec<u8>,
}

impl Model for Rooms {
    ghost Value = { Unit {0} };

    ghost view = { λ _. tt };
}

impl Rooms {
    /// No room yet for what is said.
    pub fn new(alloc: Global) -> Self {
        Rooms {
            alloc,
            heard: [0; READ_BYTES],
            heard_long: Vec::new(alloc),
            was_full: false,
            said: Vec::new(alloc),
            spare: Vec::new(alloc),
        }
    }

    /// The room for the next read: a larger one where the last was full, if there is memory for it.
    pub fn heard(&mut self) -> &mut [u8]
        ensures { 0 < length result.now }
    {
        if !self.was_full {
            return &mut self.heard;
        }
        if self.heard_long.is_empty() {
            let made = self.heard_long.resize(LONG_READ_BYTES, 0);
            if made.is_err() {
                return &mut self.heard;
            }
        }
        self.heard_long.as_mut_slice()
    }

    /// Notes how many bytes the last read gave.
    pub fn note_read(&mut self, bytes: usize) {
        self.was_full = bytes >= READ_BYTES;
    }

    /// Takes the room for the bytes of a message that is said. It may have other bytes in it.
    pub fn take(&mut self) -> Vec<u8> {
        replace(&mut self.said, Vec::new(self.alloc))
    }

    /// Keeps it for the next message that is said, and the memory of this one for the next that is heard.
    pub fn keep(&mut self, said: Vec<u8>, message: Message) {
        self.said = said;
        self.spare = message.payload.into_vec();
    }
}
