//! The parts of a program message that came so far.

ghost use Rattle.std.specs.Prelude.{◌≡◌, ◌++◌, take, IfOk};
ghost use Rattle.sw_base.specs.Limits.{most_kept};
ghost use Rattle.sw_channels.specs.EngineSync.{with_part, whole, skipped, is_within};

use crate::requests::SyncRequest;
use std::alloc::AllocError;
use sw_base::{KEPT_BYTES, Sequence};

/// The part that has come of a program message without its end.
#[derive(Debug, Drop)]
pub enum PartialMessage {
    /// No part of it.
    Nothing,
    /// Parts with these bytes, or with more after the first `KEPT_BYTES`.
    Kept(Sequence<u8>),
    /// A part that was too large: the whole message is dropped.
    Lost,
}

/// The front with one more part. It takes no more of that than there is room for. Want of memory loses the whole
/// message.
#[inline(always)]
pub fn with_part(partial: PartialMessage, part: Sequence<u8>) -> Result<PartialMessage, AllocError>
    ensures { IfOk result (λ after. after ≡ with_part partial part) }
{
    match partial {
        PartialMessage::Nothing => {
            let mut first = part.into_vec();
            first.truncate(KEPT_BYTES);
            Ok(PartialMessage::Kept(Sequence::new(first)))
        }
        PartialMessage::Kept(partial) => {
            let bytes = extended(partial.into_vec(), part.as_slice())?;
            Ok(PartialMessage::Kept(Sequence::new(bytes)))
        }
        PartialMessage::Lost => {
            drop(part);
            Ok(PartialMessage::Lost)
        }
    }
}

/// The first `KEPT_BYTES` of these bytes and then those.
fn extended(partial: Vec<u8>, part: &[u8]) -> Result<Vec<u8>, AllocError>
    ensures { IfOk result (λ all. all.items ≡ take most_kept (partial.items ++ part.now)) }
{
    let mut bytes = partial;
    let room = KEPT_BYTES.saturating_sub(bytes.len());
    bytes.extend_from_slice(&part[..part.len().min(room)])?;
    bytes.truncate(KEPT_BYTES);
    Ok(bytes)
}

/// The message with its last part, as far as it is kept; none where a part of it was skipped.
#[inline(always)]
pub fn whole(
    partial: PartialMessage,
    part: Sequence<u8>,
) -> Result<Option<Sequence<u8>>, AllocError>
    ensures { IfOk result (λ text. text ≡ whole partial part) }
{
    match with_part(partial, part)? {
        PartialMessage::Kept(text) => Ok(Some(text)),
        _ => Ok(None),
    }
}

/// The front once a message that asks for this was skipped for its size.
pub fn skipped(request: SyncRequest, partial: PartialMessage) -> PartialMessage
    ensures { result ≡ skipped request partial }
{
    match request {
        SyncRequest::Part => {
            drop(partial);
            PartialMessage::Lost
        }
        SyncRequest::End => {
            drop(partial);
            PartialMessage::Nothing
        }
        _ => partial,
    }
}

/// Whether some part of a program message has come.
pub fn is_within(partial: &PartialMessage) -> bool
    ensures { result ≡ is_within partial.now }
{
    !matches!(partial, PartialMessage::Nothing)
}
