//! Kinds of messages.

ghost use Rattle.std.specs.Prelude.{◌≡◌};
ghost use Rattle.sw_hislip.specs.Kinds.{kind_number, IsKind};

/// What a message is, by the number of its type (IVI-6.1 HiSLIP, message type value definitions).
#[derive(Clone, Copy, Debug, PartialEq, Eq)]
pub enum Kind {
    Initialize,
    InitializeResponse,
    FatalError,
    Error,
    AsyncLock,
    AsyncLockResponse,
    Data,
    DataEnd,
    DeviceClearComplete,
    DeviceClearAcknowledge,
    AsyncRemoteLocalControl,
    AsyncRemoteLocalResponse,
    Trigger,
    Interrupted,
    AsyncInterrupted,
    AsyncMaximumMessageSize,
    AsyncMaximumMessageSizeResponse,
    AsyncInitialize,
    AsyncInitializeResponse,
    AsyncDeviceClear,
    AsyncServiceRequest,
    AsyncStatusQuery,
    AsyncStatusResponse,
    AsyncDeviceClearAcknowledge,
    AsyncLockInfo,
    AsyncLockInfoResponse,
    /// A number from 26 to 127, which version 1.0 gives no meaning.
    Undefined(u8),
    /// A number from 128 to 255, which is left to vendors.
    Vendor(u8),
}

impl Kind {
    /// The kind with this number in the header.
    pub fn of(number: u8) -> Kind
        ensures value { kind_number result ≡ number }
        ensures proper { IsKind result }
    {
        match number {
            0 => Kind::Initialize,
            1 => Kind::InitializeResponse,
            2 => Kind::FatalError,
            3 => Kind::Error,
            4 => Kind::AsyncLock,
            5 => Kind::AsyncLockResponse,
            6 => Kind::Data,
            7 => Kind::DataEnd,
            8 => Kind::DeviceClearComplete,
            9 => Kind::DeviceClearAcknowledge,
            10 => Kind::AsyncRemoteLocalControl,
            11 => Kind::AsyncRemoteLocalResponse,
            12 => Kind::Trigger,
            13 => Kind::Interrupted,
            14 => Kind::AsyncInterrupted,
            15 => Kind::AsyncMaximumMessageSize,
            16 => Kind::AsyncMaximumMessageSizeResponse,
            17 => Kind::AsyncInitialize,
            18 => Kind::AsyncInitializeResponse,
            19 => Kind::AsyncDeviceClear,
            20 => Kind::AsyncServiceRequest,
            21 => Kind::AsyncStatusQuery,
            22 => Kind::AsyncStatusResponse,
            23 => Kind::AsyncDeviceClearAcknowledge,
            24 => Kind::AsyncLockInfo,
            25 => Kind::AsyncLockInfoResponse,
            26..=127 => Kind::Undefined(number),
            _ => Kind::Vendor(number),
        }
    }

    /// Its number in the header.
    pub fn number(self) -> u8
        ensures { result ≡ kind_number self }
    {
        match self {
            Kind::Initialize => 0,
            Kind::InitializeResponse => 1,
            Kind::FatalError => 2,
            Kind::Error => 3,
            Kind::AsyncLock => 4,
            Kind::AsyncLockResponse => 5,
            Kind::Data => 6,
            Kind::DataEnd => 7,
            Kind::DeviceClearComplete => 8,
            Kind::DeviceClearAcknowledge => 9,
            Kind::AsyncRemoteLocalControl => 10,
            Kind::AsyncRemoteLocalResponse => 11,
            Kind::Trigger => 12,
            Kind::Interrupted => 13,
            Kind::AsyncInterrupted => 14,
            Kind::AsyncMaximumMessageSize => 15,
            Kind::AsyncMaximumMessageSizeResponse => 16,
            Kind::AsyncInitialize => 17,
            Kind::AsyncInitializeResponse => 18,
            Kind::AsyncDeviceClear => 19,
            Kind::AsyncServiceRequest => 20,
            Kind::AsyncStatusQuery => 21,
            Kind::AsyncStatusResponse => 22,
            Kind::AsyncDeviceClearAcknowledge => 23,
            Kind::AsyncLockInfo => 24,
            Kind::AsyncLockInfoResponse => 25,
            Kind::Undefined(number) | Kind::Vendor(number) => number,
        }
    }
}
