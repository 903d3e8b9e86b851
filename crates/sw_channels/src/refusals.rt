//! Faults that the channel reports to the client.

ghost use Rattle.std.specs.Prelude.{◌≡◌};
ghost use Rattle.sw_channels.specs.EngineMessages.{error_number, fatal_number, error_message, fatal_of};

use crate::responses::plain;
use std::alloc::Global;
use sw_hislip::{Kind, Message};

/// A fault that drops one message (IVI-6.1 HiSLIP, error codes of Error).
#[derive(Clone, Copy, Debug, PartialEq, Eq)]
pub enum ErrorCode {
    UnrecognizedType,
    UnrecognizedControl,
    UnrecognizedVendor,
    TooLarge,
}

/// A fault that ends the session (IVI-6.1 HiSLIP, error codes of FatalError).
#[derive(Clone, Copy, Debug, PartialEq, Eq)]
pub enum FatalCode {
    PoorlyFormed,
    WithoutBothChannels,
    InvalidInitialization,
    TooManyClients,
}

impl ErrorCode {
    /// Its number in the message.
    fn number(self) -> u8
        ensures { result ≡ error_number self }
    {
        match self {
            ErrorCode::UnrecognizedType => 1,
            ErrorCode::UnrecognizedControl => 2,
            ErrorCode::UnrecognizedVendor => 3,
            ErrorCode::TooLarge => 4,
        }
    }
}

impl FatalCode {
    /// Its number in the message.
    fn number(self) -> u8
        ensures { result ≡ fatal_number self }
    {
        match self {
            FatalCode::PoorlyFormed => 1,
            FatalCode::WithoutBothChannels => 2,
            FatalCode::InvalidInitialization => 3,
            FatalCode::TooManyClients => 4,
        }
    }
}

/// The message that reports this fault, after which the channel continues.
pub fn error(alloc: Global, code: ErrorCode) -> Message
    ensures { result ≡ error_message code }
{
    plain(alloc, Kind::Error, code.number(), 0)
}

/// The message that reports this fault, and ends the session.
pub fn fatal(alloc: Global, code: FatalCode) -> Message
    ensures { result ≡ fatal_of code }
{
    plain(alloc, Kind::FatalError, code.number(), 0)
}
