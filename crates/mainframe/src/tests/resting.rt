//! A server's port where a connection fails as it comes.

use std::alloc::Global;
use std::io;
use std::io::ErrorKind;
use std::net::{TcpListener, TcpStream};
use std::sync::Wait;
use std::sync::atomic::{AtomicU64, Ordering};
use std::test::Fail;
use std::time::{Clock, Duration};
use sw_serve::{Arrival, Port, Silent, TcpPort};

/// A clock of the test's own: no thread sleeps by it, and it adds up for how many milliseconds it was asked.
#[derive(Clone, Copy, Drop)]
struct Watch<'a, W: Wait + Copy + Drop> {
    _rt: W,
    asked: &'a AtomicU64,
}

impl<W: Wait + Copy + Drop> Wait for Watch<'_, W> {}

impl<W: Wait + Copy + Drop> Clock for Watch<'_, W> {
    fn monotonic(&self) -> io::Result<Duration> {
        Err(io::Error::from(ErrorKind::Unsupported))
    }

    fn since_1970(&self) -> io::Result<Duration> {
        Err(io::Error::from(ErrorKind::Unsupported))
    }

    fn sleep(&self, duration: Duration) {
        let ms = u64::try_from(duration.as_millis()).unwrap_or(u64::MAX);
        let before = self.asked.load(Ordering::SeqCst);
        self.asked
            .store(before.saturating_add(ms), Ordering::SeqCst);
    }
}

/// For how many milliseconds a port at this listener rests after its first connection, where that fails.
fn rest_at<W: Wait + Copy + Drop>(rt: W, alloc: Global, listener: &TcpListener) -> Option<u64> {
    let asked = AtomicU64::new(0);
    let watch = Watch {
        _rt: rt,
        asked: &asked,
    };
    let mut port = TcpPort::new(watch, alloc, listener, None::<TcpStream>, Silent);
    match port.accept() {
        Arrival::Failed => Some(asked.load(Ordering::SeqCst)),
        _ => None,
    }
}

#[test]
fn a_port_rests_for_a_moment_after_a_failure(rt: HostRuntime) -> Result<(), Fail> {
    let listener = TcpListener::bind(&rt, "127.0.0.1:0")?;
    listener.set_nonblocking(true)?;
    assert!(rt; rest_at(rt, rt.alloc(), &listener) == Some(10));
    Ok(())
}
