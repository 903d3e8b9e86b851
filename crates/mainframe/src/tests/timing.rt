//! `serve`: limits and pauses that are over in time, over the loopback.

use crate::tests::clients::{Client, LOCK, LOCKED, answers, header, serves};
use std::alloc::Global;
use std::io::Write;
use std::net::{Net, SocketAddr, TcpListener, TcpStream};
use std::sync::atomic::{AtomicBool, Ordering};
use std::test::Fail;
use std::thread::{Threads, join};
use std::time::{Clock, Instant};

/// AsyncLock for the exclusive lock within 500 milliseconds, and that it was not granted in time.
const LOCK_SOON: &[u8] = b"HS\x04\x01\x00\x00\x01\xf4\x00\x00\x00\x00\x00\x00\x00\x00";

const NOT_IN_TIME: &[u8] = b"HS\x05\x00\x00\x00\x00\x00\x00\x00\x00\x00\x00\x00\x00\x00";

/// Two Triggers that no scan awaits, and `ABORt` and `*RST` where none runs.
const POURED: &[u8] = b"HS\x0c\x00\xff\xff\xff\x00\x00\x00\x00\x00\x00\x00\x00\x00\
    HS\x0c\x00\xff\xff\xff\x02\x00\x00\x00\x00\x00\x00\x00\x00\
    HS\x07\x00\xff\xff\xff\x04\x00\x00\x00\x00\x00\x00\x00\x05ABOR\n\
    HS\x07\x00\xff\xff\xff\x06\x00\x00\x00\x00\x00\x00\x00\x05*RST\n";

/// How many seconds at most a test takes for what is to be over at once.
const SOON: u64 = 5;

/// Whether it is soon after this instant.
fn is_soon<C: Clock>(rt: &C, start: Instant) -> bool {
    match start.elapsed(rt) {
        Ok(spent) => spent.as_secs() < SOON,
        Err(_) => false,
    }
}

/// Pours until `stop` is set, and says whether all went.
fn pours(stream: &mut TcpStream, stop: &AtomicBool) -> bool {
    for _ in 0..1_000_000u32 {
        if stop.load(Ordering::SeqCst) {
            return true;
        }
        if stream.write_all(POURED).is_err() {
            return false;
        }
    }
    false
}

/// Asks for the lock within half a second, and says whether the answer that it didn't get it comes in time.
fn is_refused<C: Clock>(rt: &C, stream: &mut TcpStream, stop: &AtomicBool) -> bool {
    let Ok(start) = Instant::now(rt) else {
        return false;
    };
    let is_told = answers(stream, LOCK_SOON, NOT_IN_TIME);
    stop.store(true, Ordering::SeqCst);
    is_told && is_soon(rt, start)
}

/// The limit of session 3 runs out while session 2, which has the lock, wakes the threads that wait again and again.
fn runs_out<R: Net<Stream = TcpStream> + Threads + Clock + Sync>(
    rt: &R,
    addr: SocketAddr,
) -> Option<bool> {
    let mut other = Client::new(rt, addr, 1)?;
    let mut holder = Client::new(rt, addr, 2)?;
    let mut waiting = Client::new(rt, addr, 3)?;
    if !answers(&mut holder.second, LOCK, LOCKED) {
        return None;
    }
    let stop = AtomicBool::new(false);
    let (has_poured, is_refused) = join(
        rt,
        || pours(&mut holder.first, &stop),
        || is_refused(rt, &mut waiting.second, &stop),
    );
    Some(has_poured && is_refused && waiting.leaves() && holder.leaves() && other.leaves())
}

#[test]
fn a_limit_runs_out_while_others_work(rt: HostRuntime) -> Result<(), Fail> {
    let listener = TcpListener::bind(&rt, "127.0.0.1:0")?;
    let addr = listener.local_addr()?;
    let alloc = rt.alloc();
    let (served, goes) = join(
        &rt,
        || serves(rt, alloc, &listener, 6),
        || runs_out(&rt, addr) == Some(true),
    );
    assert!(rt; goes && served);
    Ok(())
}

/// How many pauses of an hour are begun and aborted by one message, and by how many of these.
const PAUSES: usize = 2_000;

const MESSAGES: u8 = 4;

/// DataEnd with this control code and text.
fn program(alloc: Global, control: u8, text: &[u8]) -> Option<Vec<u8>> {
    let [_, _, high, low] = u32::try_from(text.len()).ok()?.to_be_bytes();
    let mut bytes = Vec::new(alloc);
    bytes
        .extend_from_slice(&header(7, control, [255, 255, 255, 0], low))
        .ok()?;
    bytes[14] = high;
    bytes.extend_from_slice(text).ok()?;
    Some(bytes)
}

/// A message by which pauses of an hour are begun and aborted.
fn stale_pauses(alloc: Global) -> Option<Vec<u8>> {
    let mut text = Vec::new(alloc);
    text.extend_from_slice(b"ROUT:SCAN (@1!1);:TRIG:DEL 3600;")
        .ok()?;
    for _ in 0..PAUSES {
        text.extend_from_slice(b":INIT;:ABOR;").ok()?;
    }
    text.extend_from_slice(b"\n").ok()?;
    program(alloc, 0, text.as_slice())
}

/// A scan with a pause of 10 milliseconds, and that it has ended.
const SHORT: &[u8] = b"TRIG:DEL 0.01;:INIT;*OPC?\n";

const ENDED: &[u8] = b"HS\x07\x00\xff\xff\xff\x00\x00\x00\x00\x00\x00\x00\x00\x021\n";

/// A scan with a pause of an hour.
const LONG: &[u8] = b"TRIG:DEL 3600;:INIT\n";

/// Begins many pauses and aborts them, and says whether all is done then.
fn aborts_pauses(alloc: Global, stream: &mut TcpStream) -> Option<bool> {
    let stale = stale_pauses(alloc)?;
    for _ in 0..MESSAGES {
        stream.write_all(stale.as_slice()).ok()?;
    }
    drop(stale);
    let asked = program(alloc, 0, b"*OPC?\n")?;
    Some(answers(stream, asked.as_slice(), ENDED))
}

/// Begins a short pause, and says whether it is over in time.
fn is_over_soon<C: Clock>(rt: &C, alloc: Global, stream: &mut TcpStream) -> Option<bool> {
    let short = program(alloc, 0, SHORT)?;
    let start = Instant::now(rt).ok()?;
    let is_ended = answers(stream, short.as_slice(), ENDED);
    Some(is_ended && is_soon(rt, start))
}

/// Begins a long pause, and says whether that was sent.
fn begins_long(alloc: Global, stream: &mut TcpStream) -> Option<bool> {
    let long = program(alloc, 1, LONG)?;
    Some(stream.write_all(long.as_slice()).is_ok())
}

/// One session begins many pauses that it aborts, and then another one a short pause that is over in time, and a long
/// one. Whether all goes so.
fn pauses_in_time<C: Clock>(
    rt: &C,
    alloc: Global,
    first: &mut TcpStream,
    other: &mut TcpStream,
) -> Option<bool> {
    let is_aborted = aborts_pauses(alloc, first)?;
    let is_over_soon = is_over_soon(rt, alloc, other)?;
    let is_begun = begins_long(alloc, other)?;
    Some(is_aborted && is_over_soon && is_begun)
}

/// Session 2 begins many pauses that it aborts, then session 1 a short one that is over in time, and leaves within a
/// long one.
fn is_on_time<R: Net<Stream = TcpStream> + Clock>(
    rt: &R,
    alloc: Global,
    addr: SocketAddr,
) -> Option<bool> {
    let mut other = Client::new(rt, addr, 1)?;
    let mut client = Client::new(rt, addr, 2)?;
    let goes = pauses_in_time(rt, alloc, &mut client.first, &mut other.first);
    Some(goes == Some(true) && client.leaves() && other.leaves())
}

#[test]
fn stale_pauses_hold_nobody_up(rt: HostRuntime) -> Result<(), Fail> {
    let listener = TcpListener::bind(&rt, "127.0.0.1:0")?;
    let addr = listener.local_addr()?;
    let alloc = rt.alloc();
    let (served, goes) = join(
        &rt,
        || serves(rt, alloc, &listener, 4),
        || is_on_time(&rt, alloc, addr) == Some(true),
    );
    assert!(rt; goes && served);
    Ok(())
}
