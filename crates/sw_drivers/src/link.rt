//! TCP connections and device files.

ghost use Rattle.std.specs.Io.{ReadsAtMost};

use crate::wire::Wire;
use libc::net::{POLLIN, POLLOUT, poll};
use libc::types::pollfd;
use std::fs::{File, OpenOptions};
use std::io::{self, ErrorKind, Read, Write};
use std::net::{Net, SocketAddr, TcpStream};
use std::os::fd::AsRawFd;
use std::rt::Files;
use std::thread;
use std::time::{Clock, Duration, Instant};

/// Where something is reached.
#[derive(Drop)]
pub enum Place {
    Tcp(SocketAddr),
    /// A file of a device, as `/dev/ttyUSB0`.
    Device(String),
    /// The file of a device; its kernel driver waits by itself, as that of `/dev/usbtmc0`.
    Waiting(String),
}

#[derive(Drop)]
enum Ends {
    Nothing,
    Tcp(TcpStream),
    Device(File),
}

/// The most reads that drop unasked bytes before an exchange.
const LEFTOVERS: u32 = 64;

/// How long nothing opens the connection anew after an opening has failed, in milliseconds.
const REST_MS: u64 = 1000;

/// A connection or a device file, with a limit of time for each exchange.
#[derive(Drop)]
pub struct Link<R: Net<Stream = TcpStream> + Files<File = File> + Clock + Copy + Drop> {
    rt: R,
    place: Place,
    limit: Duration,
    silence: Duration,
    ends: Ends,
    until: Option<Instant>,
    failed_at: Option<Instant>,
}

impl<R: Net<Stream = TcpStream> + Files<File = File> + Clock + Copy + Drop> Link<R> {
    /// One that is not open yet. An exchange takes no longer than `limit`, and begins after this `silence`.
    pub fn new(rt: R, place: Place, limit: Duration, silence: Duration) -> Self {
        Link {
            rt,
            place,
            limit,
            silence,
            ends: Ends::Nothing,
            until: None,
            failed_at: None,
        }
    }

    fn try_open(&self) -> io::Result<Ends> {
        match &self.place {
            Place::Tcp(at) => {
                let stream = TcpStream::connect_timeout(&self.rt, at, self.limit)?;
                stream.set_nodelay(true)?;
                Ok(Ends::Tcp(stream))
            }
            Place::Device(path) | Place::Waiting(path) => {
                let mut options = OpenOptions::new();
                options.read(true).write(true);
                Ok(Ends::Device(options.open(&self.rt, path.as_str())?))
            }
        }
    }

    fn rests(&self) -> bool {
        let Some(at) = self.failed_at else {
            return false;
        };
        match Instant::now(&self.rt) {
            Ok(now) => now.duration_since(at) < Duration::from_millis(REST_MS),
            Err(_) => false,
        }
    }

    /// How many milliseconds of the exchange are left.
    fn left(&self) -> io::Result<i32> {
        let Some(until) = self.until else {
            return Err(io::Error::from(ErrorKind::TimedOut));
        };
        let left = until.duration_since(Instant::now(&self.rt)?);
        if left.is_zero() {
            return Err(io::Error::from(ErrorKind::TimedOut));
        }
        Ok(i32::try_from(left.as_millis()).unwrap_or(i32::MAX).max(1))
    }

    /// Waits until it can be read or written, or the time is over.
    fn wait(&self, events: i16) -> io::Result<()> {
        let ms = self.left()?;
        if let Place::Waiting(_) = &self.place {
            return Ok(());
        }
        let fd = match &self.ends {
            Ends::Nothing => return Err(io::Error::from(ErrorKind::NotConnected)),
            Ends::Tcp(stream) => stream.as_raw_fd(),
            Ends::Device(file) => file.as_raw_fd(),
        };
        let mut looks = [pollfd {
            fd,
            events,
            revents: 0,
        }];
        if poll(&mut looks, ms) > 0 {
            Ok(())
        } else {
            Err(io::Error::from(ErrorKind::TimedOut))
        }
    }

    /// Whether something has come.
    fn has_input(&self) -> bool {
        let fd = match &self.ends {
            Ends::Nothing => return false,
            Ends::Tcp(stream) => stream.as_raw_fd(),
            Ends::Device(file) => file.as_raw_fd(),
        };
        let mut looks = [pollfd {
            fd,
            events: POLLIN,
            revents: 0,
        }];
        poll(&mut looks, 0) > 0
    }

    fn read_now(&mut self, buffer: &mut [u8]) -> io::Result<usize>
        ensures { ReadsAtMost result buffer.new }
    {
        match &mut self.ends {
            Ends::Nothing => Err(io::Error::from(ErrorKind::NotConnected)),
            Ends::Tcp(stream) => stream.read(buffer),
            Ends::Device(file) => file.read(buffer),
        }
    }
}

impl<R: Net<Stream = TcpStream> + Files<File = File> + Clock + Copy + Drop> Read for Link<R> {
    fn read(&mut self, buffer: &mut [u8]) -> io::Result<usize> {
        self.wait(POLLIN)?;
        self.read_now(buffer)
    }
}

impl<R: Net<Stream = TcpStream> + Files<File = File> + Clock + Copy + Drop> Write for Link<R> {
    fn write(&mut self, bytes: &[u8]) -> io::Result<usize> {
        self.wait(POLLOUT)?;
        match &mut self.ends {
            Ends::Nothing => Err(io::Error::from(ErrorKind::NotConnected)),
            Ends::Tcp(stream) => stream.write(bytes),
            Ends::Device(file) => file.write(bytes),
        }
    }

    fn flush(&mut self) -> io::Result<()> {
        Ok(())
    }
}

impl<R: Net<Stream = TcpStream> + Files<File = File> + Clock + Copy + Drop> Wire for Link<R> {
    ghost use Rattle.std.specs.Prelude.{None, false};

    ghost asked = { λ _. None };

    ghost answered = { λ _. None };

    ghost on = { λ _ _ _. false };

    fn open(&mut self) -> io::Result<()> {
        self.ends = Ends::Nothing;
        if self.rests() {
            return Err(io::Error::from(ErrorKind::NotConnected));
        }
        match self.try_open() {
            Ok(ends) => {
                self.ends = ends;
                self.failed_at = None;
                Ok(())
            }
            Err(error) => {
                self.failed_at = Instant::now(&self.rt).ok();
                Err(error)
            }
        }
    }

    fn is_open(&self) -> bool {
        !matches!(&self.ends, Ends::Nothing)
    }

    fn begin(&mut self) -> io::Result<()> {
        if !self.is_open() {
            return Err(io::Error::from(ErrorKind::NotConnected));
        }
        if !self.silence.is_zero() {
            thread::sleep(&self.rt, self.silence);
        }
        self.until = Instant::now(&self.rt)?.checked_add(self.limit);
        if let Place::Waiting(_) = &self.place {
            return Ok(());
        }
        let mut leftover = [0_u8; 256];
        for _ in 0..LEFTOVERS {
            if !self.has_input() {
                return Ok(());
            }
            if self.read_now(&mut leftover)? == 0 {
                return Err(io::Error::from(ErrorKind::UnexpectedEof));
            }
        }
        Ok(())
    }

    fn send(&mut self, bytes: &[u8]) -> io::Result<()> {
        self.write_all(bytes)
    }

    fn hear(&mut self, room: &mut [u8]) -> io::Result<()> {
        self.read_exact(room)
    }

    fn hear_some(&mut self, room: &mut [u8]) -> io::Result<usize> {
        self.read(room)
    }

    fn close(&mut self) {
        self.ends = Ends::Nothing;
    }

    fn rest(&mut self) {
        self.ends = Ends::Nothing;
        self.failed_at = Instant::now(&self.rt).ok();
    }
}
