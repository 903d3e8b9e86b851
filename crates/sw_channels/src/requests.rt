//! What a message asks for on each of the two channels, by its kind.

ghost use Rattle.std.specs.Prelude.{◌≡◌};
ghost use Rattle.sw_channels.specs.EngineKinds.{sync_request, async_request};
ghost use Rattle.sw_channels.specs.EngineSync.{is_program};

use sw_hislip::Kind;

/// What a message of the synchronous channel asks for.
#[derive(Clone, Copy, Debug, PartialEq, Eq)]
pub enum SyncRequest {
    /// A part of a program message.
    Part,
    /// The last part of one.
    End,
    /// A trigger.
    Trigger,
    /// The end of a device clear.
    ClearComplete,
    /// The end of the session.
    Leave,
    /// Nothing.
    Nothing,
    /// A session, once there is one.
    Initialize,
    /// Something of a vendor's own.
    Vendor,
    /// What this channel doesn't serve.
    Misplaced,
}

/// What a message of the asynchronous channel asks for.
#[derive(Clone, Copy, Debug, PartialEq, Eq)]
pub enum AsyncRequest {
    /// To note the size of a message that the client takes.
    Size,
    /// A lock, or its release.
    Lock,
    /// Whether a session holds the exclusive lock, and how many hold a lock.
    LockInfo,
    /// Remote or local control.
    RemoteLocal,
    /// The status byte.
    Status,
    /// A device clear.
    Clear,
    /// The end of the session.
    Leave,
    /// Nothing.
    Nothing,
    /// A session, once there is one.
    Initialize,
    /// Something of a vendor's own.
    Vendor,
    /// What this channel doesn't serve.
    Misplaced,
}

/// What a message of this kind asks for on the synchronous channel.
pub fn sync_request(kind: Kind) -> SyncRequest
    ensures { result ≡ sync_request kind }
{
    match kind {
        Kind::Data => SyncRequest::Part,
        Kind::DataEnd => SyncRequest::End,
        Kind::Trigger => SyncRequest::Trigger,
        Kind::DeviceClearComplete => SyncRequest::ClearComplete,
        Kind::FatalError => SyncRequest::Leave,
        Kind::Error => SyncRequest::Nothing,
        Kind::Initialize | Kind::AsyncInitialize => SyncRequest::Initialize,
        Kind::Vendor(_) => SyncRequest::Vendor,
        _ => SyncRequest::Misplaced,
    }
}

/// What a message of this kind asks for on the asynchronous channel.
pub fn async_request(kind: Kind) -> AsyncRequest
    ensures { result ≡ async_request kind }
{
    match kind {
        Kind::AsyncMaximumMessageSize => AsyncRequest::Size,
        Kind::AsyncLock => AsyncRequest::Lock,
        Kind::AsyncLockInfo => AsyncRequest::LockInfo,
        Kind::AsyncRemoteLocalControl => AsyncRequest::RemoteLocal,
        Kind::AsyncStatusQuery => AsyncRequest::Status,
        Kind::AsyncDeviceClear => AsyncRequest::Clear,
        Kind::FatalError => AsyncRequest::Leave,
        Kind::Error => AsyncRequest::Nothing,
        Kind::Initialize | Kind::AsyncInitialize => AsyncRequest::Initialize,
        Kind::Vendor(_) => AsyncRequest::Vendor,
        _ => AsyncRequest::Misplaced,
    }
}

/// Whether this is asked by a message of a program.
pub fn is_program(request: SyncRequest) -> bool
    ensures { result ≡ is_program request }
{
    matches!(
        request,
        SyncRequest::Part | SyncRequest::End | SyncRequest::Trigger
    )
}
