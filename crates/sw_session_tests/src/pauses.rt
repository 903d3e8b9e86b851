//! HiSLIP's second channel over readers that time limits end.

use crate::servers::{Pieces, SECOND, SECOND_SAID, SECOND_SAID_MORE, is_served, serve};
use std::alloc::Global;
use std::io::{ErrorKind, Read};
use sw_session::{ByteSource, Channel, ServeFault, Unread};

/// Time limits end its first `limits` reads, which it counts; then its bytes come.
#[derive(Drop)]
struct Late<'a> {
    limits: u32,
    paused: u32,
    left: &'a [u8],
}

impl ByteSource for Late<'_> {
    ghost use Rattle.std.specs.Prelude.{Some};

    ghost remaining = { λ s. Some s.left.now };

    ghost pauses = { λ s. Some s.paused };

    ghost failed = { λ _ _. ⊥ };

    fn receive(&mut self, buffer: &mut [u8]) -> Result<usize, Unread> {
        if self.paused < self.limits {
            self.paused += 1;
            return Err(Unread::Paused);
        }
        match self.left.read(buffer) {
            Ok(n) => Ok(n),
            Err(_) => unreachable!(),
        }
    }
}

/// Whether over a reader that pauses three times the asynchronous server ends so and says this, after `paused` pauses
/// and with `left` bytes left.
fn is_late(
    alloc: Global,
    turns: u64,
    end: Result<(), ServeFault>,
    said: &[u8],
    paused: u32,
    left: usize,
) -> bool {
    let mut reader = Late {
        limits: 3,
        paused: 0,
        left: SECOND,
    };
    let served = serve(alloc, Channel::Asynchronous, &mut reader, turns);
    let leaves = if left == 0 { 1 } else { 0 };
    reader.paused == paused
        && reader.left.len() == left
        && is_served(served, end, said, b"", leaves)
}

#[test]
fn each_pause_is_a_turn(rt: HostRuntime) {
    let bound = Err(ServeFault::ReadBound);
    assert!(rt;
        is_late(rt.alloc(), 0, bound, b"", 0, 16)
            && is_late(rt.alloc(), 2, bound, b"", 2, 16)
            && is_late(rt.alloc(), 3, bound, b"", 3, 16)
            && is_late(rt.alloc(), 4, bound, SECOND_SAID, 3, 0)
            && is_late(rt.alloc(), 5, Ok(()), SECOND_SAID, 3, 0)
    );
}

/// Whether a pause of a plain reader is one turn, behind those of its 16 bytes.
fn pauses_once(alloc: Global, turns: u64, end: Result<(), ServeFault>, said: &[u8]) -> bool {
    let mut reader = Pieces::broken(SECOND, 16, ErrorKind::TimedOut, false);
    let served = serve(alloc, Channel::Asynchronous, &mut reader, turns);
    is_served(served, end, said, b"", 1)
}

#[test]
fn a_pause_of_a_reader_is_a_turn(rt: HostRuntime) {
    let bound = Err(ServeFault::ReadBound);
    assert!(rt;
        pauses_once(rt.alloc(), 16, bound, SECOND_SAID)
            && pauses_once(rt.alloc(), 17, bound, SECOND_SAID_MORE)
            && pauses_once(rt.alloc(), 18, Ok(()), SECOND_SAID_MORE)
    );
}

/// Whether the asynchronous channel says a service request where such an error ended the read after its first message.
fn tells_of_requests(alloc: Global, error: ErrorKind) -> bool {
    let mut reader = Pieces::broken(SECOND, 16, error, false);
    let served = serve(alloc, Channel::Asynchronous, &mut reader, 1000);
    is_served(served, Ok(()), SECOND_SAID_MORE, b"", 1)
}

/// Whether an interrupted read is asked again, with no look at the status.
fn looks_no_more(alloc: Global) -> bool {
    let mut reader = Pieces::broken(SECOND, 16, ErrorKind::Interrupted, false);
    let served = serve(alloc, Channel::Asynchronous, &mut reader, 1000);
    is_served(served, Ok(()), SECOND_SAID, b"", 1)
}

#[test]
fn a_time_limit_tells_of_requests(rt: HostRuntime) {
    assert!(rt;
        tells_of_requests(rt.alloc(), ErrorKind::TimedOut)
            && tells_of_requests(rt.alloc(), ErrorKind::WouldBlock)
            && looks_no_more(rt.alloc())
    );
}
