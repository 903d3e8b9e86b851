//! `serve` and clients that go away, over the loopback.

use crate::tests::clients::{Client, LOCK, LOCKED, answers, serves};
use std::io::Write;
use std::net::{Net, Shutdown, SocketAddr, TcpListener, TcpStream};
use std::test::Fail;
use std::thread::join;

/// `ROUTe:CLOSe (@1!1)`; whether it is closed; and that it isn't.
const CLOSE: &[u8] =
    b"HS\x07\x00\xff\xff\xff\x00\x00\x00\x00\x00\x00\x00\x00\x11ROUT:CLOS (@1!1)\n";

const CLOSED_QUERY: &[u8] =
    b"HS\x07\x00\xff\xff\xff\x00\x00\x00\x00\x00\x00\x00\x00\x12ROUT:CLOS? (@1!1)\n";

const ZERO: &[u8] = b"HS\x07\x00\xff\xff\xff\x00\x00\x00\x00\x00\x00\x00\x00\x020\n";

/// AsyncLock for the exclusive lock within 2^32 - 1 milliseconds, and its release.
const LOCK_LATER: &[u8] = b"HS\x04\x01\xff\xff\xff\xff\x00\x00\x00\x00\x00\x00\x00\x00";

const RELEASE: &[u8] = b"HS\x04\x00\x00\x00\x00\x00\x00\x00\x00\x00\x00\x00\x00\x00";

/// Sixteen bytes that are no header, and FatalError 1.
const NO_HEADER: &[u8] = b"GET / HTTP/1.0\r\n";

const FATAL: &[u8] = b"HS\x02\x01\x00\x00\x00\x00\x00\x00\x00\x00\x00\x00\x00\x00";

/// Makes asks that the mainframe holds, on both connections, and closes them.
fn asks_and_vanishes(client: &mut Client) -> bool {
    client.first.write_all(CLOSE).is_ok()
        && client.second.write_all(LOCK_LATER).is_ok()
        && client.first.shutdown(Shutdown::Write).is_ok()
        && client.second.shutdown(Shutdown::Write).is_ok()
}

/// Two clients ask while another has the lock, and vanish: they are gone before it is freed, and did nothing.
fn vanish<R: Net<Stream = TcpStream>>(rt: &R, addr: SocketAddr) -> Option<bool> {
    let mut holder = Client::new(rt, addr, 1)?;
    let mut second = Client::new(rt, addr, 2)?;
    let mut third = Client::new(rt, addr, 3)?;
    let are_gone = answers(&mut holder.second, LOCK, LOCKED)
        && asks_and_vanishes(&mut second)
        && asks_and_vanishes(&mut third)
        && second.is_ended()
        && third.is_ended();
    let mut next = Client::new(rt, addr, 2)?;
    let is_undone = answers(&mut holder.second, RELEASE, LOCKED)
        && answers(&mut holder.first, CLOSED_QUERY, ZERO)
        && answers(&mut next.first, CLOSED_QUERY, ZERO);
    Some(are_gone && is_undone && next.leaves() && holder.leaves())
}

#[test]
fn a_client_that_vanished_does_nothing_more(rt: HostRuntime) -> Result<(), Fail> {
    let listener = TcpListener::bind(&rt, "127.0.0.1:0")?;
    let addr = listener.local_addr()?;
    let alloc = rt.alloc();
    let (served, goes) = join(
        &rt,
        || serves(rt, alloc, &listener, 8),
        || vanish(&rt, addr) == Some(true),
    );
    assert!(rt; goes && served);
    Ok(())
}

/// A session's connections end together: after a fatal error, and where the client ends either of them.
fn end_together<R: Net<Stream = TcpStream>>(rt: &R, addr: SocketAddr) -> Option<bool> {
    let mut other = Client::new(rt, addr, 1)?;
    let mut broken = Client::new(rt, addr, 2)?;
    let is_broken = answers(&mut broken.first, NO_HEADER, FATAL) && broken.is_ended();
    let mut one_ended = Client::new(rt, addr, 2)?;
    let ends_second = one_ended.leaves();
    let mut other_ended = Client::new(rt, addr, 2)?;
    let ends_first = other_ended.second.shutdown(Shutdown::Write).is_ok() && other_ended.is_ended();
    let stands = answers(&mut other.first, CLOSED_QUERY, ZERO);
    Some(is_broken && ends_second && ends_first && stands && other.leaves())
}

#[test]
fn both_connections_of_a_session_end_together(rt: HostRuntime) -> Result<(), Fail> {
    let listener = TcpListener::bind(&rt, "127.0.0.1:0")?;
    let addr = listener.local_addr()?;
    let alloc = rt.alloc();
    let (served, goes) = join(
        &rt,
        || serves(rt, alloc, &listener, 8),
        || end_together(&rt, addr) == Some(true),
    );
    assert!(rt; goes && served);
    Ok(())
}
