//! What connections come from.

use crate::log::Log;
use crate::logged_connection::LoggedConnection;

/// How a wait for a connection ends.
#[derive(Drop)]
pub enum Arrival<C: Drop> {
    /// One came.
    Connected(C),
    /// One failed as it came.
    Failed,
    /// Every relay is to be opened, and the scan ended; then more connections are taken.
    Aborts,
    /// No further connection is to be taken.
    Ended,
}

/// What connections come from, one after another.
pub trait Port {
    ghost use Rattle.std.specs.Prelude.{◌≡◌, ◌+◌, ◌<◌, ◌^◌, ℕ};
    ghost use Rattle.sw_serve.specs.Arrivals.{count_after};

    /// The log of the connections.
    type Book: Log + Copy + Drop + Send + 'static;

    /// How many connections have come, those among them that failed.
    ghost taken: { Self → ℕ };

    /// No further connection is to be taken.
    ghost ended: { Self → Type 0 };

    /// Waits for the next connection, an abort, or the end.
    fn accept(&mut self) -> Arrival<LoggedConnection<Self::Book>>
        requires { taken self.old + 1 < 2 ^ 32 }
        ensures taken { taken self.new ≡ count_after result (taken self.old) }
        ensures ended { result ≡ Arrival.Ended → ended self.new };
}
