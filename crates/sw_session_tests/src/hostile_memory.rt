//! HiSLIP's servers, and the mainframe behind them, where a growth of memory is refused: what is written is a front of
//! what a want of memory explains. `tests/growths/run --tests` runs these while each growth is refused in turn.

use crate::clients::bench;
use crate::hostile::{Halves, Row, Served, Watched, line, plain, quiet, sent_by, serve_on};
use std::alloc::Global;
use sw_session::{Channel, Desk, ServeFault};

/// Whether these bytes are a front of the parts, each of them whole.
fn is_front(bytes: &[u8], parts: &[&[u8]]) -> bool {
    let mut left = bytes;
    for part in parts {
        if left.is_empty() {
            return true;
        }
        match left.strip_prefix(*part) {
            Some(rest) => left = rest,
            None => return false,
        }
    }
    left.is_empty()
}

/// InitializeResponse of session 1.
const WELCOME: &[u8] = b"HS\x01\x00\x01\x00\x00\x01\x00\x00\x00\x00\x00\x00\x00\x00";

const NAME: &[u8] =
    b"HS\x07\x00\x00\x00\x00\x07\x00\x00\x00\x00\x00\x00\x00\x15OPENBENCH,SWM8,0,1.0\n";

/// That the channel is closed, and that it is open.
const CLOSED: &[u8] = b"HS\x07\x00\x00\x00\x00\x07\x00\x00\x00\x00\x00\x00\x00\x021\n";

const OPEN: &[u8] = b"HS\x07\x00\x00\x00\x00\x07\x00\x00\x00\x00\x00\x00\x00\x020\n";

/// That there is no error, and that there was no memory.
const NO_ERROR: &[u8] =
    b"HS\x07\x00\x00\x00\x00\x07\x00\x00\x00\x00\x00\x00\x00\x0d0,\"No error\"\n";

const NO_MEMORY: &[u8] =
    b"HS\x07\x00\x00\x00\x00\x07\x00\x00\x00\x00\x00\x00\x00\x15-225,\"Out of memory\"\n";

/// All that is written on the first connection where memory is ample.
pub const FIRST: [&[u8]; 4] = [WELCOME, NAME, CLOSED, NO_ERROR];

/// Whether what was written on the first connection is all, or says what unit or answer found no memory.
fn is_explained_first(main: &[u8]) -> bool {
    is_front(main, &FIRST)
        || is_front(main, &[WELCOME, CLOSED, NO_MEMORY])
        || is_front(main, &[WELCOME, NAME, OPEN, NO_MEMORY])
        || is_front(main, &[WELCOME, NAME, NO_MEMORY])
}

/// AsyncInitializeResponse.
const JOINED: &[u8] = b"HS\x12\x00\x00\x00SW\x00\x00\x00\x00\x00\x00\x00\x00";

/// AsyncMaximumMessageSizeResponse: 65,536 bytes.
const SIZE: &[u8] =
    b"HS\x10\x00\x00\x00\x00\x00\x00\x00\x00\x00\x00\x00\x00\x08\x00\x00\x00\x00\x00\x01\x00\x00";

/// AsyncLockResponse: granted, and an error.
const GRANTED: &[u8] = b"HS\x05\x01\x00\x00\x00\x00\x00\x00\x00\x00\x00\x00\x00\x00";

const REFUSED: &[u8] = b"HS\x05\x03\x00\x00\x00\x00\x00\x00\x00\x00\x00\x00\x00\x00";

/// AsyncLockInfoResponse: one session holds a lock, and none does.
const HELD: &[u8] = b"HS\x19\x00\x00\x00\x00\x01\x00\x00\x00\x00\x00\x00\x00\x00";

const FREE: &[u8] = b"HS\x19\x00\x00\x00\x00\x00\x00\x00\x00\x00\x00\x00\x00\x00";

/// AsyncStatusResponse with no bit.
const STATUS: &[u8] = b"HS\x16\x00\x00\x00\x00\x00\x00\x00\x00\x00\x00\x00\x00\x00";

/// All that is written on the second connection where memory is ample.
pub const SECOND: [&[u8]; 5] = [JOINED, SIZE, GRANTED, HELD, STATUS];

/// Whether what was written on the second connection is all, or says that the key found no memory.
fn is_explained_second(main: &[u8]) -> bool {
    is_front(main, &SECOND) || is_front(main, &[JOINED, SIZE, REFUSED, FREE, STATUS])
}

/// Whether a server ended with its input or for want of memory, its own or that of its writer, and its session left
/// once.
fn is_left(served: &Served) -> bool {
    let is_known = served.result == Ok(())
        || served.result == Err(ServeFault::NoMemory)
        || served.result == Err(ServeFault::Write);
    let is_once = served.leaves == 1 || served.leaves == 0 && served.main.is_empty();
    is_known && is_once && served.side.is_empty()
}

/// What a server does on a connection to these bytes, with a mainframe of its own, where there is memory for that.
pub fn served_by(alloc: Global, channel: Channel, bytes: &[u8], attaches: bool) -> Option<Served> {
    match bench(alloc) {
        Some(desk) => {
            let mut desk = Watched {
                desk,
                attaches,
                leaves: 0,
            };
            let mut reader = Halves {
                front: bytes,
                rest: b"",
            };
            let served = serve_on(alloc, channel, &mut reader, &mut desk);
            drop(desk);
            Some(served)
        }
        None => None,
    }
}

/// Initialize, and four program messages with the last answer taken.
pub fn first_rows() -> [Row<'static>; 5] {
    [
        quiet(line(0, 0, 0x0100_5858, b"hislip0")),
        quiet(line(7, 1, 7, b"*IDN?")),
        quiet(line(7, 1, 7, b"ROUT:CLOS (@1!1)")),
        quiet(line(7, 1, 7, b"ROUT:CLOS? (@1!1)")),
        quiet(line(7, 1, 7, b"SYST:ERR:ALL?")),
    ]
}

/// AsyncInitialize, a size of 65,536 bytes, an ask for a shared lock, AsyncLockInfo and AsyncStatusQuery.
pub fn second_rows() -> [Row<'static>; 5] {
    [
        quiet(line(17, 0, 1, b"")),
        quiet(line(15, 0, 0, &[0, 0, 0, 0, 0, 1, 0, 0])),
        quiet(line(4, 1, 0, b"key")),
        quiet(plain(24)),
        quiet(plain(21)),
    ]
}

/// Whether a first connection is served as a want of memory explains.
fn serves_first(alloc: Global) -> bool {
    let Some(bytes) = sent_by(alloc, &first_rows()) else {
        return true;
    };
    match served_by(alloc, Channel::Synchronous, bytes.as_slice(), true) {
        Some(served) => {
            let is_so = is_left(&served) && is_explained_first(served.main.as_slice());
            drop(served);
            is_so
        }
        None => true,
    }
}

/// Whether a second connection is served as a want of memory explains.
fn serves_second(alloc: Global) -> bool {
    let Some(bytes) = sent_by(alloc, &second_rows()) else {
        return true;
    };
    match served_by(alloc, Channel::Asynchronous, bytes.as_slice(), false) {
        Some(served) => {
            let is_so = is_left(&served) && is_explained_second(served.main.as_slice());
            drop(served);
            is_so
        }
        None => true,
    }
}

#[test]
fn a_first_connection_is_served_or_lacks_memory(rt: HostRuntime) {
    assert!(rt; serves_first(rt.alloc()));
}

#[test]
fn a_second_connection_is_served_or_lacks_memory(rt: HostRuntime) {
    assert!(rt; serves_second(rt.alloc()));
}
