//! The program on bytes: what is read, and what is written.

mod clients;
mod command_line;
mod ending;
mod listing;
mod resting;
mod rows;
mod serving;
mod streams;
mod timing;
mod vanishing;

use crate::run::run_lines;
use std::alloc::Global;
use std::process::Abort;
use std::test::Fail;

/// Types these bytes, and compares what comes back. The `fuse`-th closing of slot 1 fails.
fn check(
    rt: &impl Abort,
    alloc: Global,
    fuse: Option<u32>,
    typed: &[u8],
    told: &[u8],
) -> Result<(), Fail> {
    let mut reader = typed;
    let mut out = Vec::new(alloc);
    run_lines(alloc, &mut reader, &mut out, fuse)?;
    assert_eq!(rt; out.as_slice(), told);
    Ok(())
}
