//! Data that a command owns: the content of a string, and the bytes of a block.

ghost use Rattle.std.specs.Prelude.{◌≡◌, ◌++◌, ◌∷◌, [], ℕ, List, IfOk, Ok, Err};
ghost use Rattle.std.specs.Result.{result_map_both};
ghost use Rattle.sw_lex.specs.Elements.{doubled};
ghost use Rattle.sw_lex.specs.Values.{ReadsString, ReadsBlock};

use crate::elements::{block_bytes, closing};
use std::alloc::{AllocError, Global};
use sw_base::{ScpiError, Sequence, split_once, strip_prefix};

/// The bytes before the closing mark, each doubled mark as one.
fn undoubled(alloc: Global, text: &[u8], mark: u8) -> Result<Vec<u8>, AllocError>
    ensures { (content : List ℕ) → text.now ≡ doubled mark content ++ mark ∷ [] → IfOk result (λ v. v.items ≡ content) }
{
    let mut bytes = Vec::new(alloc);
    let mut rest = text;
    'marks: loop {
        match split_once(rest, mark) {
            None => return Ok(bytes),
            Some((left, more)) => {
                bytes.extend_from_slice(left)?;
                match strip_prefix(more, mark) {
                    None => return Ok(bytes),
                    Some(others) => {
                        bytes.push(mark)?;
                        rest = others;
                    }
                }
            }
        }
    }
}

/// The content of a string that begins with the mark, each doubled mark as one.
fn content_after(alloc: Global, mark: u8, more: &[u8]) -> Result<Sequence<u8>, ScpiError>
    ensures { ReadsString (mark ∷ more.now) result }
{
    if mark != b'"' && mark != b'\'' {
        return Err(ScpiError::InvalidStringData);
    }
    match closing(more, mark) {
        None => Err(ScpiError::InvalidStringData),
        Some(rest) => {
            if rest.is_empty() {
                Ok(Sequence::new(undoubled(alloc, more, mark)?))
            } else {
                Err(ScpiError::InvalidStringData)
            }
        }
    }
}

/// The content of a string, each doubled mark as one.
pub fn content(alloc: Global, text: &[u8]) -> Result<Sequence<u8>, ScpiError>
    ensures { ReadsString text.now result }
{
    match text {
        [] => Err(ScpiError::InvalidStringData),
        [mark, more @ ..] => content_after(alloc, *mark, more),
    }
}

/// The bytes of a block.
pub fn body(alloc: Global, text: &[u8]) -> Result<Sequence<u8>, ScpiError>
    ensures { ReadsBlock text.now result }
{
    match block_bytes(text) {
        None => Err(ScpiError::InvalidBlockData),
        Some(bytes) => Ok(Sequence::new(bytes.to_vec(alloc)?)),
    }
}
