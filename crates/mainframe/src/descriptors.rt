//! Standard input, output and error, whose numbers a connection must not take.

use libc::net::{POLLNVAL, poll};
use libc::types::pollfd;
use std::os::fd::RawFd;

/// What to ask the system of a descriptor: only whether it is open.
fn of(fd: RawFd) -> pollfd {
    pollfd {
        fd,
        events: 0,
        revents: 0,
    }
}

/// Whether standard input, output and error are open. Where the system doesn't say, they count as open.
pub fn are_open() -> bool {
    let mut looks = [of(0), of(1), of(2)];
    poll(&mut looks, 0) <= 0 || looks.iter().all(|look| look.revents & POLLNVAL == 0)
}
