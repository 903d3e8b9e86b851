//! A connection that reports its coming and leaving to a log.

use crate::log::{Log, Remark, parting_of};
use std::io::{self, Read};
use sw_session::ServeFault;
use sw_workers::{Connection, Line, Tcp, Unserved};

/// A connection of this number.
#[derive(Drop)]
pub struct LoggedConnection<L: Log + Drop> {
    pub connection: Tcp,
    pub log: L,
    pub number: u32,
}

/// What a connection reads from, with its number and the log.
#[derive(Drop)]
pub struct LoggedReader<L: Log + Drop> {
    reader: Line,
    log: L,
    number: u32,
}

impl<L: Log + Drop> LoggedReader<L> {
    /// Reports that the connection has left, which was served so.
    pub fn tell_end(&self, unserved: Option<Unserved>, served: Result<(), ServeFault>) {
        let parting = parting_of(unserved, served);
        self.log.tell(Remark::Left(self.number, parting));
    }
}

impl<L: Log + Drop> Read for LoggedReader<L> {
    fn read(&mut self, buffer: &mut [u8]) -> io::Result<usize> {
        self.reader.read(buffer)
    }
}

impl<L: Log + Drop> Connection for LoggedConnection<L> {
    ghost use Rattle.std.specs.Prelude.{None};

    type In = LoggedReader<L>;

    type Out = Line;

    type Aside = Line;

    ghost input = { λ _. None };

    ghost pauses = { λ _. None };

    ghost output = { λ _. None };

    fn line(&self) -> Option<Line> {
        self.connection.line()
    }

    fn into_parts(self) -> (LoggedReader<L>, Line, Line) {
        let LoggedConnection {
            connection,
            log,
            number,
        } = self;
        let (reader, writer, aside) = connection.into_parts();
        let heard = LoggedReader {
            reader,
            log,
            number,
        };
        (heard, writer, aside)
    }

    fn set_limit(reader: &mut LoggedReader<L>, ms: u32) -> io::Result<()> {
        reader.reader.set_limit(ms)
    }

    fn joined(reader: &LoggedReader<L>, session: u8) {
        reader.log.tell(Remark::Joined(reader.number, session));
    }
}
