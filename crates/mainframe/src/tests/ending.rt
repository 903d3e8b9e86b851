//! `serve` until its input ends, over the loopback: idle clients, a held query, a lock, a pause of an hour.

use crate::serving::serve_on;
use crate::tests::clients::{Client, LOCK, LOCKED, answers, header};
use std::alloc::Global;
use std::io::{self, Write};
use std::net::{Net, Shutdown, SocketAddr, TcpListener, TcpStream};
use std::sync::Wait;
use std::test::Fail;
use std::thread::{Threads, join};
use std::time::{Clock, Instant};
use sw_serve::{Silent, TcpPort};

/// Within how many milliseconds of its input's end a server ends.
const END_MS: u128 = 2_000;

/// A scan with a pause of an hour, and a query that waits for its end.
const LONG: &[u8] = b"HS\x07\x00\xff\xff\xff\x00\x00\x00\x00\x00\x00\x00\x00\x30\
    ROUT:SCAN (@1!1);:TRIG:DEL 3600;:INIT;*OPC;*OPC?";

/// AsyncLock for the exclusive lock within 2^32 - 1 milliseconds.
const LOCK_LATER: &[u8] = b"HS\x04\x01\xff\xff\xff\xff\x00\x00\x00\x00\x00\x00\x00\x00";

/// Whether a server ends with its mainframe closed down once this input ends, and when.
fn serves_until<W: Threads + Wait + Clock + Copy + Drop + Send + Sync + 'static>(
    rt: W,
    alloc: Global,
    listener: &TcpListener,
    input: TcpStream,
) -> Option<Instant> {
    let mut connections = TcpPort::new(rt, alloc, listener, Some(input), Silent);
    if serve_on(rt, alloc, &mut connections, u32::MAX, Silent).is_err() {
        return None;
    }
    Instant::now(&rt).ok()
}

/// As many clients as `count`, the sessions from 1 on.
fn clients<R: Net<Stream = TcpStream>>(
    rt: &R,
    alloc: Global,
    addr: SocketAddr,
    count: u8,
) -> Option<Vec<Client>> {
    let mut clients = Vec::new(alloc);
    for before in 0..count {
        clients
            .push(Client::new(rt, addr, before.saturating_add(1))?)
            .ok()?;
    }
    Some(clients)
}

/// Ends the input, and gives when, where the server then leaves all clients.
fn all_are_left<C: Clock>(rt: &C, clients: &mut [Client], output: &TcpStream) -> Option<Instant> {
    let start = Instant::now(rt).ok()?;
    output.shutdown(Shutdown::Write).ok()?;
    for client in clients.iter_mut() {
        if !client.is_left() {
            return None;
        }
    }
    Some(start)
}

/// Makes clients busy: session 2 waits for a pause of an hour, session 3 has the lock, session 16 waits for it, and
/// session 4 has only begun a message. Whether all that was sent, and session 3 got the lock; none where a client isn't
/// there.
fn are_busy(clients: &mut [Client]) -> Option<bool> {
    let pauses = clients.get_mut(1)?.first.write_all(LONG).is_ok();
    let has_lock = answers(&mut clients.get_mut(2)?.second, LOCK, LOCKED);
    let waits = clients.get_mut(15)?.second.write_all(LOCK_LATER).is_ok();
    let begun = header(7, 0, [255, 255, 255, 0], 9);
    let begins = clients.get_mut(3)?.first.write_all(&begun).is_ok();
    Some(pauses && has_lock && waits && begins)
}

/// Sixteen clients, four busy and the others idle, and a connection that has only begun a header.
fn busy<R: Net<Stream = TcpStream> + Clock>(
    rt: &R,
    alloc: Global,
    addr: SocketAddr,
    output: &TcpStream,
) -> Option<Instant> {
    let mut standing = TcpStream::connect(rt, addr).ok()?;
    let mut clients = clients(rt, alloc, addr, 16)?;
    let stands = standing.write_all(b"HS\x00").is_ok();
    if !stands || are_busy(clients.as_mut_slice()) != Some(true) {
        return None;
    }
    all_are_left(rt, clients.as_mut_slice(), output)
}

/// Sixteen clients that do nothing.
fn idle<R: Net<Stream = TcpStream> + Clock>(
    rt: &R,
    alloc: Global,
    addr: SocketAddr,
    output: &TcpStream,
) -> Option<Instant> {
    let mut clients = clients(rt, alloc, addr, 16)?;
    all_are_left(rt, clients.as_mut_slice(), output)
}

/// Whether a server ends soon after its input did, by these two times.
fn ends_soon(start: Option<Instant>, end: Option<Instant>) -> bool {
    match (start, end) {
        (Some(start), Some(end)) => { end.saturating_duration_since(start).as_millis() < END_MS }
        _ => false,
    }
}

/// An input, and what ends it.
fn input_of<R: Net<Listener = TcpListener, Stream = TcpStream>>(
    rt: &R,
) -> io::Result<(TcpStream, TcpStream)> {
    let listener = TcpListener::bind(rt, "127.0.0.1:0")?;
    let output = TcpStream::connect(rt, listener.local_addr()?)?;
    let (input, _) = listener.accept()?;
    Ok((input, output))
}

#[test]
fn idle_clients_hold_no_end_up(rt: HostRuntime) -> Result<(), Fail> {
    let listener = TcpListener::bind(&rt, "127.0.0.1:0")?;
    let addr = listener.local_addr()?;
    let alloc = rt.alloc();
    let (input, output) = input_of(&rt)?;
    let (end, start) = join(
        &rt,
        || serves_until(rt, alloc, &listener, input),
        || idle(&rt, alloc, addr, &output),
    );
    assert!(rt; ends_soon(start, end));
    Ok(())
}

#[test]
fn busy_clients_hold_no_end_up(rt: HostRuntime) -> Result<(), Fail> {
    let listener = TcpListener::bind(&rt, "127.0.0.1:0")?;
    let addr = listener.local_addr()?;
    let alloc = rt.alloc();
    let (input, output) = input_of(&rt)?;
    let (end, start) = join(
        &rt,
        || serves_until(rt, alloc, &listener, input),
        || busy(&rt, alloc, addr, &output),
    );
    assert!(rt; ends_soon(start, end));
    Ok(())
}
