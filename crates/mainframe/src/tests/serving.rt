//! `serve` over the loopback.

use crate::tests::clients::serves;
use std::io::{Read, Write};
use std::net::{Net, Shutdown, SocketAddr, TcpListener, TcpStream};
use std::test::Fail;
use std::thread::join;

/// Initialize with the sub-address `hislip0`, and the answer to the client that becomes session 1.
const INITIALIZE: &[u8] = b"HS\x00\x00\x01\x00XX\x00\x00\x00\x00\x00\x00\x00\x07hislip0";

const INITIALIZED: &[u8] = b"HS\x01\x00\x01\x00\x00\x01\x00\x00\x00\x00\x00\x00\x00\x00";

/// AsyncInitialize of session 1, and its answer.
const JOIN: &[u8] = b"HS\x11\x00\x00\x00\x00\x01\x00\x00\x00\x00\x00\x00\x00\x00";

const JOINED: &[u8] = b"HS\x12\x00\x00\x00SW\x00\x00\x00\x00\x00\x00\x00\x00";

/// `*IDN?`, and its answer.
const ASKED: &[u8] = b"HS\x07\x00\xff\xff\xff\x00\x00\x00\x00\x00\x00\x00\x00\x06*IDN?\n";

const TOLD: &[u8] =
    b"HS\x07\x00\xff\xff\xff\x00\x00\x00\x00\x00\x00\x00\x00\x15OPENBENCH,SWM8,0,1.0\n";

/// AsyncMaximumMessageSize of 32, and its answer.
const SMALL: &[u8] =
    b"HS\x0f\x00\x00\x00\x00\x00\x00\x00\x00\x00\x00\x00\x00\x08\x00\x00\x00\x00\x00\x00\x00\x20";

const LARGEST: &[u8] =
    b"HS\x10\x00\x00\x00\x00\x00\x00\x00\x00\x00\x00\x00\x00\x08\x00\x00\x00\x00\x00\x01\x00\x00";

/// `*IDN?` of a client that has read the answer before, and its answer in two parts.
const ASKED_AGAIN: &[u8] = b"HS\x07\x01\xff\xff\xff\x02\x00\x00\x00\x00\x00\x00\x00\x06*IDN?\n";

const TOLD_IN_PARTS: &[u8] =
    b"HS\x06\x00\xff\xff\xff\x02\x00\x00\x00\x00\x00\x00\x00\x10OPENBENCH,SWM8,0\
    HS\x07\x00\xff\xff\xff\x02\x00\x00\x00\x00\x00\x00\x00\x05,1.0\n";

/// `*IDN?` of a client that has not said that it read the answer, what both connections say of that, and the answer.
const ASKED_UNREAD: &[u8] = b"HS\x07\x00\xff\xff\xff\x04\x00\x00\x00\x00\x00\x00\x00\x06*IDN?\n";

const INTERRUPTED: &[u8] = b"HS\x0d\x00\xff\xff\xff\x04\x00\x00\x00\x00\x00\x00\x00\x00";

const INTERRUPTED_ASIDE: &[u8] = b"HS\x0e\x00\xff\xff\xff\x04\x00\x00\x00\x00\x00\x00\x00\x00";

const TOLD_ALL_THE_SAME: &[u8] =
    b"HS\x06\x00\xff\xff\xff\x04\x00\x00\x00\x00\x00\x00\x00\x10OPENBENCH,SWM8,0\
    HS\x07\x00\xff\xff\xff\x04\x00\x00\x00\x00\x00\x00\x00\x05,1.0\n";

/// `SYST:ERR?` of a client that has read that answer, and its answer.
const ASKED_WHY: &[u8] = b"HS\x07\x01\xff\xff\xff\x06\x00\x00\x00\x00\x00\x00\x00\x0aSYST:ERR?\n";

const TOLD_WHY: &[u8] =
    b"HS\x06\x00\xff\xff\xff\x06\x00\x00\x00\x00\x00\x00\x00\x10-410,\"Query INTE\
    HS\x07\x00\xff\xff\xff\x06\x00\x00\x00\x00\x00\x00\x00\x09RRUPTED\"\n";

/// AsyncStatusQuery, and its answer while a message is available.
const STATUS: &[u8] = b"HS\x15\x00\x00\x00\x00\x00\x00\x00\x00\x00\x00\x00\x00\x00";

const AVAILABLE: &[u8] = b"HS\x16\x10\x00\x00\x00\x00\x00\x00\x00\x00\x00\x00\x00\x00";

/// How often the status is asked for.
const TRIES: u32 = 100_000;

/// Whether these bytes are answered by those.
fn answers(stream: &mut TcpStream, asked: &[u8], told: &[u8]) -> bool {
    let mut came = [0u8; 64];
    if told.len() > came.len() {
        return false;
    }
    let came = &mut came[..told.len()];
    stream.write_all(asked).is_ok() && stream.read_exact(came).is_ok() && &*came == told
}

/// Whether the status says in the end that a message is available. It does once the answer's end was written, which may
/// come after its reader asks.
fn tells_of_a_message(second: &mut TcpStream) -> bool {
    for _ in 0..TRIES {
        if answers(second, STATUS, AVAILABLE) {
            return true;
        }
    }
    false
}

/// Whether the server closes the connection once no more is sent.
fn leaves(stream: &mut TcpStream) -> bool {
    let mut rest = [0u8; 1];
    stream.shutdown(Shutdown::Write).is_ok() && matches!(stream.read(&mut rest), Ok(0))
}

/// Whether both connections say that a query interrupted the answer before it, and the query is answered.
fn is_interrupted(first: &mut TcpStream, second: &mut TcpStream) -> bool {
    answers(first, ASKED_UNREAD, INTERRUPTED)
        && answers(first, &[], TOLD_ALL_THE_SAME)
        && answers(second, &[], INTERRUPTED_ASIDE)
        && answers(first, ASKED_WHY, TOLD_WHY)
}

/// Whether a session's two connections are answered.
fn converses<R: Net<Stream = TcpStream>>(rt: &R, addr: SocketAddr) -> bool {
    let Ok(mut first) = TcpStream::connect(rt, addr) else {
        return false;
    };
    let Ok(mut second) = TcpStream::connect(rt, addr) else {
        return false;
    };
    answers(&mut first, INITIALIZE, INITIALIZED)
        && answers(&mut second, JOIN, JOINED)
        && answers(&mut first, ASKED, TOLD)
        && answers(&mut second, SMALL, LARGEST)
        && tells_of_a_message(&mut second)
        && answers(&mut first, ASKED_AGAIN, TOLD_IN_PARTS)
        && tells_of_a_message(&mut second)
        && is_interrupted(&mut first, &mut second)
        && leaves(&mut first)
        && leaves(&mut second)
}

#[test]
fn a_session_over_two_connections(rt: HostRuntime) -> Result<(), Fail> {
    let listener = TcpListener::bind(&rt, "127.0.0.1:0")?;
    let addr = listener.local_addr()?;
    let alloc = rt.alloc();
    let (served, converses) = join(
        &rt,
        || serves(rt, alloc, &listener, 2),
        || converses(&rt, addr),
    );
    assert!(rt; converses && served);
    Ok(())
}

/// Whether `count` connections, one after another, each become session 1: none that ended is left.
fn each_is_the_first<R: Net<Stream = TcpStream>>(rt: &R, addr: SocketAddr, count: u32) -> bool {
    (0..count).all(|_| comes_and_goes(rt, addr))
}

/// Whether a connection becomes session 1, and ends.
fn comes_and_goes<R: Net<Stream = TcpStream>>(rt: &R, addr: SocketAddr) -> bool {
    let Ok(mut first) = TcpStream::connect(rt, addr) else {
        return false;
    };
    answers(&mut first, INITIALIZE, INITIALIZED) && leaves(&mut first)
}

#[test]
fn no_session_is_left_behind(rt: HostRuntime) -> Result<(), Fail> {
    let listener = TcpListener::bind(&rt, "127.0.0.1:0")?;
    let addr = listener.local_addr()?;
    let alloc = rt.alloc();
    let (served, first) = join(
        &rt,
        || serves(rt, alloc, &listener, 20),
        || each_is_the_first(&rt, addr, 20),
    );
    assert!(rt; first && served);
    Ok(())
}
