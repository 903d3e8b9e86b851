//! Messages.

use crate::kind::Kind;
use sw_base::{MESSAGE_BYTES, Sequence};

/// The most bytes of a payload that is taken (own choice).
pub const LONGEST_PAYLOAD: u64 = MESSAGE_BYTES as u64;

/// A message: its kind, the two fields, their meaning by the kind, and its payload (IVI-6.1 HiSLIP, message header).
#[derive(Debug, Drop)]
pub struct Message {
    pub kind: Kind,
    /// The control code.
    pub control: u8,
    /// The message parameter.
    pub parameter: u32,
    pub payload: Sequence<u8>,
}
