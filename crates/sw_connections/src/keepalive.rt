//! Clients that are gone without a word, as by a cut cable.

use libc::net::{
    IPPROTO_TCP, SO_KEEPALIVE, SOL_SOCKET, TCP_KEEPCNT, TCP_KEEPIDLE, TCP_KEEPINTVL, setsockopt,
};
use std::os::fd::RawFd;

/// After how many seconds of silence the system asks a client's system whether it is still there.
const IDLE_S: u8 = 10;

/// How many seconds lie between two such questions.
const INTERVAL_S: u8 = 5;

/// After how many of them without an answer the connection has ended.
const QUESTIONS: u8 = 3;

/// An option's value as the system takes it: an int, the lowest byte first, in the front of its room.
fn option_value(number: u8) -> [u8; 16] {
    let mut value = [0; 16];
    value[0] = number;
    value
}

/// Lets the system notice a client that is gone without a word. It ignores a failure of that.
pub fn keep_alive(fd: RawFd) {
    unsafe {
        let _ = setsockopt(fd, SOL_SOCKET, SO_KEEPALIVE, &option_value(1), 4);
        let _ = setsockopt(fd, IPPROTO_TCP, TCP_KEEPIDLE, &option_value(IDLE_S), 4);
        let _ = setsockopt(fd, IPPROTO_TCP, TCP_KEEPINTVL, &option_value(INTERVAL_S), 4);
        let _ = setsockopt(fd, IPPROTO_TCP, TCP_KEEPCNT, &option_value(QUESTIONS), 4);
    }
}
