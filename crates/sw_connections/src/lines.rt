//! The lines of a session, which end together.

use crate::line::Line;
use sw_session::Channel;

/// The lines of a session, by channel.
#[derive(Drop)]
pub struct Lines {
    /// The session has left.
    is_over: bool,
    first: Option<Line>,
    second: Option<Line>,
}

impl Lines {
    /// The session has no line yet.
    pub fn new() -> Self {
        Lines {
            is_over: false,
            first: None,
            second: None,
        }
    }

    /// Adds the line of a channel, which ends with the session: at once where that has left. Once the session has both
    /// lines, their writes wait as long as it takes.
    pub fn enlist(&mut self, channel: Channel, line: Line) {
        if self.is_over {
            line.close();
            return;
        }
        match channel {
            Channel::Synchronous => self.first = Some(line),
            Channel::Asynchronous => self.second = Some(line),
        }
        if let (Some(first), Some(second)) = (&self.first, &self.second) {
            first.be_patient();
            second.be_patient();
        }
    }

    /// Whether the session has both lines.
    pub fn are_paired(&self) -> bool {
        self.first.is_some() && self.second.is_some()
    }

    /// The first line, until the session has left.
    pub fn first(&self) -> Option<Line> {
        match &self.first {
            Some(line) => line.try_clone().ok(),
            None => None,
        }
    }

    /// The session has left: its lines end.
    pub fn end(&mut self) {
        self.is_over = true;
        end_line(self.first.take());
        end_line(self.second.take());
    }
}

/// Ends a line, if there is one.
fn end_line(line: Option<Line>) {
    if let Some(line) = line {
        line.close();
    }
}
