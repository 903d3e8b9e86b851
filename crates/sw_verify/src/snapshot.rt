//! What a scan would begin from.

use crate::layout::Layout;
use crate::setup::Setup;
use sw_base::{Chan, Sequence};

/// The settings of a scan, the cards in the cage and the channels that are closed, at one moment.
#[derive(Debug, Drop)]
pub struct Snapshot {
    pub settings: Setup,
    pub layout: Layout,
    pub closed: Sequence<Chan>,
}
