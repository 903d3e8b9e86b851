//! Gates: where a thread may be stopped before it acts.

use std::sync::Wait;

/// What a thread is about to do.
#[derive(Clone, Copy, Debug, PartialEq, Eq)]
pub enum Point {
    /// To run a measurement.
    Job,
    /// To report the end of a pause.
    Pause,
    /// To make a session's ask.
    Ask,
}

/// What a thread passes before a `Point`. It holds no lock there.
pub trait Gate {
    /// Returns when the thread may continue.
    fn pass<W: Wait>(&self, rt: &W, point: Point);
}

/// A gate that is always open.
#[derive(Clone, Copy, Debug)]
pub struct Open;

impl Gate for Open {
    fn pass<W: Wait>(&self, _rt: &W, _point: Point) {}
}
