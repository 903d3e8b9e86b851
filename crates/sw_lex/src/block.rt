//! Blocks as answers.

ghost use Rattle.std.specs.Prelude.{◌≡◌, IfOk};
ghost use Rattle.sw_lex.specs.Block.{block_of};

use std::alloc::{AllocError, Global};
use sw_base::{Sequence, print_number};

/// A definite block of these bytes (IEEE 488.2, 8.7.9).
pub fn block_of(alloc: Global, bytes: &[u8]) -> Result<Sequence<u8>, AllocError>
    ensures { IfOk result (λ text. text ≡ block_of bytes.now) }
{
    let mut size = [0; 32];
    let digits = print_number(bytes.len() as u64, &mut size);
    let mut text = Vec::new(alloc);
    text.push(b'#')?;
    text.push(b'0' + digits as u8)?;
    text.extend_from_slice(&size[..digits])?;
    text.extend_from_slice(bytes)?;
    Ok(Sequence::new(text))
}
