//! Clients of `serve`, over the loopback.

use crate::serving::serve_on;
use std::alloc::Global;
use std::io::{Read, Write};
use std::net::{Net, Shutdown, SocketAddr, TcpListener, TcpStream};
use std::sync::Wait;
use std::thread::Threads;
use std::time::Clock;
use sw_serve::{Silent, TcpPort};

/// Whether `limit` connections are served on a listener, and the mainframe then closed down.
pub fn serves<W: Threads + Wait + Clock + Copy + Drop + Send + Sync + 'static>(
    rt: W,
    alloc: Global,
    listener: &TcpListener,
    limit: u32,
) -> bool {
    let mut connections = TcpPort::new(rt, alloc, listener, None::<TcpStream>, Silent);
    serve_on(rt, alloc, &mut connections, limit, Silent).is_ok()
}

/// A client with both connections of its session.
#[derive(Drop)]
pub struct Client {
    pub first: TcpStream,
    pub second: TcpStream,
}

/// A header of this kind, control code and parameter, for a payload of `length` bytes.
pub fn header(kind: u8, control: u8, parameter: [u8; 4], length: u8) -> [u8; 16] {
    let mut bytes = *b"HS\x00\x00\x00\x00\x00\x00\x00\x00\x00\x00\x00\x00\x00\x00";
    bytes[2] = kind;
    bytes[3] = control;
    bytes[4..8].copy_from_slice(&parameter);
    bytes[15] = length;
    bytes
}

/// Initialize for `hislip0`.
const INITIALIZE: &[u8] = b"HS\x00\x00\x01\x00XX\x00\x00\x00\x00\x00\x00\x00\x07hislip0";

/// AsyncInitializeResponse.
const ATTACHED: &[u8] = b"HS\x12\x00\x00\x00SW\x00\x00\x00\x00\x00\x00\x00\x00";

/// AsyncLock for the exclusive lock at once, and that it was granted or freed.
pub const LOCK: &[u8] = b"HS\x04\x01\x00\x00\x00\x00\x00\x00\x00\x00\x00\x00\x00\x00";

pub const LOCKED: &[u8] = b"HS\x05\x01\x00\x00\x00\x00\x00\x00\x00\x00\x00\x00\x00\x00";

/// Whether these bytes are answered by those.
pub fn answers(stream: &mut TcpStream, asked: &[u8], told: &[u8]) -> bool {
    let mut came = [0u8; 64];
    if told.len() > came.len() {
        return false;
    }
    let came = &mut came[..told.len()];
    stream.write_all(asked).is_ok() && stream.read_exact(came).is_ok() && &*came == told
}

/// Whether the connection ends with at most `most` bytes more.
fn ends_after(stream: &mut TcpStream, most: usize) -> bool {
    let mut rest = [0u8; 64];
    let mut came = 0;
    for _ in 0..64u8 {
        match stream.read(&mut rest) {
            Ok(0) => return came <= most,
            Ok(n) => came = n.saturating_add(came),
            Err(_) => return came <= most,
        }
    }
    false
}

impl Client {
    /// A session that gets this number.
    pub fn new<R: Net<Stream = TcpStream>>(rt: &R, addr: SocketAddr, number: u8) -> Option<Client> {
        let mut first = TcpStream::connect(rt, addr).ok()?;
        let mut second = TcpStream::connect(rt, addr).ok()?;
        let joined = header(1, 0, [1, 0, 0, number], 0);
        let attach = header(17, 0, [0, 0, 0, number], 0);
        if answers(&mut first, INITIALIZE, &joined) && answers(&mut second, &attach, ATTACHED) {
            return Some(Client { first, second });
        }
        None
    }

    /// Whether both connections end, with no answer but that of the lock.
    pub fn is_ended(&mut self) -> bool {
        ends_after(&mut self.first, 0) && ends_after(&mut self.second, 16)
    }

    /// Whether the server ends both connections; it may say anything before that.
    pub fn is_left(&mut self) -> bool {
        ends_after(&mut self.first, 64) && ends_after(&mut self.second, 64)
    }

    /// Leaves, and says whether the server ends both connections.
    pub fn leaves(&mut self) -> bool {
        self.first.shutdown(Shutdown::Write).is_ok() && self.is_ended()
    }
}
