//! Standard error as a log.

use std::alloc::Global;
use sw_serve::{Log, Remark};

/// Standard error, where a line is written for each remark if that is asked for, and else for an operator's orders.
#[derive(Clone, Copy, Drop)]
pub struct ErrorLog<W: Eprint + Copy + Drop> {
    pub rt: W,
    pub alloc: Global,
    pub is_on: bool,
}

impl<W: Eprint + Copy + Drop> Log for ErrorLog<W> {
    fn tell(&self, remark: Remark) {
        if !self.is_on && !remark.is_answer() {
            return;
        }
        if let Ok(line) = format!(in self.alloc; "mainframe: {remark}\n") {
            let _ = eprint!(self.rt; "{line}");
        }
    }
}
