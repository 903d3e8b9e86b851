//! What a session reads from and writes to.

use crate::line::Line;
use std::alloc::Global;
use std::io;
use std::net::TcpStream;
use sw_session::{ByteSource, Sink};

/// A connection of one channel of a session: what it reads from, what it writes to, and a second way to the same
/// client. By that way it writes a message that another thread left between two of its own.
pub trait Connection {
    ghost use Rattle.std.specs.Prelude.{◌≡◌, ℕ, List, Option, OnErr};

    type In: ByteSource + Drop;

    type Out: Sink + Drop;

    type Aside: Sink + Drop;

    /// The bytes that reads will give, where they are known.
    ghost input: { Self → Option (List ℕ) };

    /// How many reads a time limit has ended so far, where that is known.
    ghost pauses: { Self → Option ℕ };

    /// The bytes that were written, where they are known.
    ghost output: { Self → Option (List ℕ) };

    /// Its line, where it has one.
    fn line(&self) -> Option<Line>;

    /// Takes the connection apart.
    fn into_parts(self) -> (Self::In, Self::Out, Self::Aside)
        ensures input { Self.In.remaining result.0 ≡ input self }
        ensures pauses { Self.In.pauses result.0 ≡ pauses self }
        ensures output { Self.Out.contents result.1 ≡ output self };

    /// Limits each read from now on to `ms` milliseconds. A limit that can't be set counts as a failed read.
    fn set_limit(reader: &mut Self::In, ms: u32) -> io::Result<()>
        ensures bytes { Self.In.remaining reader.new ≡ Self.In.remaining reader.old }
        ensures pauses { Self.In.pauses reader.new ≡ Self.In.pauses reader.old }
        ensures failed { OnErr result (Self.In.failed reader.old reader.new) };

    /// The connection has joined as the session with this number. It is told so once, before the next read.
    fn joined(_reader: &Self::In, _session: u8) {}
}

/// A connection of any reader and two writers. Its reads have no limit.
#[derive(Drop)]
pub struct Wired<I: ByteSource + Drop, O: Sink + Drop, A: Sink + Drop> {
    pub reader: I,
    pub writer: O,
    pub aside: A,
}

impl<I: ByteSource + Drop, O: Sink + Drop, A: Sink + Drop> Connection for Wired<I, O, A> {
    type In = I;

    type Out = O;

    type Aside = A;

    ghost input = { λ c. I.remaining c.reader };

    ghost pauses = { λ c. I.pauses c.reader };

    ghost output = { λ c. O.contents c.writer };

    fn line(&self) -> Option<Line> {
        None
    }

    fn into_parts(self) -> (I, O, A) {
        let Wired {
            reader,
            writer,
            aside,
        } = self;
        (reader, writer, aside)
    }

    fn set_limit(_reader: &mut I, _ms: u32) -> io::Result<()> {
        Ok(())
    }
}

/// A connection over TCP.
#[derive(Drop)]
pub struct Tcp {
    reader: Line,
    writer: Line,
    aside: Line,
    line: Line,
}

impl Tcp {
    /// The connection of this stream.
    pub fn new(alloc: Global, stream: TcpStream) -> io::Result<Tcp> {
        let line = Line::new(alloc, stream)?;
        Ok(Tcp {
            reader: line.try_clone()?,
            writer: line.try_clone()?,
            aside: line.try_clone()?,
            line,
        })
    }
}

impl Connection for Tcp {
    ghost use Rattle.std.specs.Prelude.{None};

    type In = Line;

    type Out = Line;

    type Aside = Line;

    ghost input = { λ _. None };

    ghost pauses = { λ _. None };

    ghost output = { λ _. None };

    fn line(&self) -> Option<Line> {
        self.line.try_clone().ok()
    }

    fn into_parts(self) -> (Line, Line, Line) {
        let Tcp {
            reader,
            writer,
            aside,
            line: _,
        } = self;
        (reader, writer, aside)
    }

    fn set_limit(reader: &mut Line, ms: u32) -> io::Result<()> {
        reader.set_limit(ms)
    }
}
