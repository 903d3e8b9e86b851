//! That the connections of `hostile_memory.rt` are served whole where memory is ample: its own tests pass where nothing
//! began, since each growth of theirs may be refused.

use crate::hostile::sent_by;
use crate::hostile_memory::{FIRST, SECOND, first_rows, second_rows, served_by};
use std::alloc::Global;
use sw_session::Channel;

/// Whether these bytes are the parts, each of them whole, and nothing else.
fn is_whole(bytes: &[u8], parts: &[&[u8]]) -> bool {
    let mut left = bytes;
    for part in parts {
        match left.strip_prefix(*part) {
            Some(rest) => left = rest,
            None => return false,
        }
    }
    left.is_empty()
}

/// Whether a server writes all these parts on a connection to these bytes, and ends with its input.
fn writes(alloc: Global, channel: Channel, bytes: &[u8], attaches: bool, parts: &[&[u8]]) -> bool {
    match served_by(alloc, channel, bytes, attaches) {
        Some(served) => {
            let is_so = served.result == Ok(()) && is_whole(served.main.as_slice(), parts);
            drop(served);
            is_so
        }
        None => false,
    }
}

fn serves_first(alloc: Global) -> bool {
    match sent_by(alloc, &first_rows()) {
        Some(bytes) => writes(alloc, Channel::Synchronous, bytes.as_slice(), true, &FIRST),
        None => false,
    }
}

fn serves_second(alloc: Global) -> bool {
    match sent_by(alloc, &second_rows()) {
        Some(bytes) => writes(
            alloc,
            Channel::Asynchronous,
            bytes.as_slice(),
            false,
            &SECOND,
        ),
        None => false,
    }
}

#[test]
fn a_first_connection_is_served_whole(rt: HostRuntime) {
    assert!(rt; serves_first(rt.alloc()));
}

#[test]
fn a_second_connection_is_served_whole(rt: HostRuntime) {
    assert!(rt; serves_second(rt.alloc()));
}
