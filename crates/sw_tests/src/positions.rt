//! Entries of a scan, for tests.

use std::alloc::{AllocError, Global};
use sw_base::Chan;
use sw_channel::Position;

/// A position of each of the channels.
pub fn one_each(alloc: Global, chans: &[Chan]) -> Result<Vec<Position>, AllocError> {
    let mut positions = Vec::with_capacity(alloc, chans.len())?;
    for chan in chans {
        positions.push(Position::new(*chan))?;
    }
    Ok(positions)
}
