//! The messages by which a session begins.

ghost use Rattle.std.specs.Prelude.{◌≡◌, ◌↔◌, IsTrue};
ghost use Rattle.sw_channels.specs.EngineMessages.{IsSubAddress, welcome, second_welcome};

use crate::responses::plain;
use std::alloc::Global;
use sw_hislip::{Kind, Message};

/// The most bytes of a sub-address.
const LONGEST_SUB_ADDRESS: usize = 256;

/// The version of the protocol that this instrument speaks: 1.0.
const VERSION: u32 = 0x0100;

/// The vendor of this instrument: `SW`.
const VENDOR: u32 = 0x5357;

/// Whether a payload is a sub-address.
pub fn is_sub_address(payload: &[u8]) -> bool
    ensures { IsTrue result ↔ IsSubAddress payload.now }
{
    payload.len() <= LONGEST_SUB_ADDRESS && payload.is_ascii()
}

/// Answers an Initialize with this parameter: the version that both sides speak, and the session's number.
pub fn welcome(alloc: Global, parameter: u32, number: u8) -> Message
    ensures { result ≡ welcome parameter number }
{
    let version = (parameter >> 16).min(VERSION);
    plain(
        alloc,
        Kind::InitializeResponse,
        0,
        (version << 16) + u32::from(number),
    )
}

/// Answers an AsyncInitialize.
pub fn second_welcome(alloc: Global) -> Message
    ensures { result ≡ second_welcome }
{
    plain(alloc, Kind::AsyncInitializeResponse, 0, VENDOR)
}
