//! A link over the host's network and files, a type of its own: the prover does not get through the generic one where
//! the server takes a whole rack's cards.

use std::io;
use std::time::Duration;
use sw_drivers::{Link, Place, Wire};

/// A connection or a device file of the host.
#[derive(Drop)]
pub struct HostLink {
    link: Link<HostRuntime>,
}

impl HostLink {
    /// A link that is not open yet. An exchange takes at most `limit`, and begins after `silence`.
    pub fn new(rt: HostRuntime, place: Place, limit: Duration, silence: Duration) -> Self {
        HostLink {
            link: Link::new(rt, place, limit, silence),
        }
    }
}

impl Wire for HostLink {
    ghost use Rattle.std.specs.Prelude.{None, false};

    ghost asked = { λ _. None };

    ghost answered = { λ _. None };

    ghost on = { λ _ _ _. false };

    fn open(&mut self) -> io::Result<()> {
        self.link.open()
    }

    fn is_open(&self) -> bool {
        self.link.is_open()
    }

    fn begin(&mut self) -> io::Result<()> {
        self.link.begin()
    }

    fn send(&mut self, bytes: &[u8]) -> io::Result<()> {
        self.link.send(bytes)
    }

    fn hear(&mut self, room: &mut [u8]) -> io::Result<()> {
        self.link.hear(room)
    }

    fn hear_some(&mut self, room: &mut [u8]) -> io::Result<usize> {
        self.link.hear_some(room)
    }

    fn close(&mut self) {
        self.link.close();
    }

    fn rest(&mut self) {
        self.link.rest();
    }
}
