//! Which mainframe it is, to those who serve its clients.

use crate::connections::Admission;
use crate::line::Hearing;
use crate::side::Outbox;
use std::marker::Brand;
use sw_history::History;

/// Which mainframe it is: its history, the connections that come, its clients' lines, and what its sessions' threads
/// leave to each other.
pub trait Clients: History + Admission + Hearing + Outbox {}

impl Clients for Brand {}
