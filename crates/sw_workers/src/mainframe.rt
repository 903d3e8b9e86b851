//! Which mainframe it is, to its threads.

use crate::work_channels::{Carrier, Receiving};
use std::marker::Brand;
use sw_connections::Clients;

/// Which mainframe it is: its history and its clients, and the work that is sent and received.
pub trait Mainframe: Clients + Carrier + Receiving {}

impl Mainframe for Brand {}
