//! The command line: what its words ask for, and the exit status where they are refused.

ghost use Rattle.std.specs.Prelude.{◌≡◌};
ghost use Rattle.mainframe.specs.Address.{IsBoundAt};
ghost use Rattle.mainframe.specs.Statuses.{unrun_status};

use clap::error::ErrorKind;
use clap::{Arg, ArgAction, ArgMatches, Command, Error};
use std::alloc::{AllocError, Global};
use std::net::{IpAddr, Ipv4Addr, SocketAddr};

/// What a listing is, for the help of `check`.
const LISTING: &str =
    "A listing is scan code as text: the line `scan 2`, the line `meter S` with the slot of its \
    meter, 1 to 16, and one step a line, the first of number 0:\n\n  \
    set K N         counter K, 0 to 3, becomes N, 1 to 100000\n  \
    wait LAYER      await arm1, arm2, arm3 or trig\n  \
    timer LAYER U   await the end of that layer's timer, U microseconds\n  \
    pause U         await the end of U microseconds\n  \
    close S!C       close channel C of slot S, or up to four joined by &\n  \
    read            take a reading of the meter\n  \
    open S!C        open channel C of slot S, or up to four joined by &\n  \
    loop K T        counter K goes down by one; where it isn't 0, go to step T\n  \
    halt            the end\n\n\
    One that begins with `scan 1` is read too: its slots are 1 to 8, its counters 0 to 2, and it \
    has no arm3 and no timer.\n\n\
    The answer is `ok bound B readings R`, `refused N Name` or `line L: Name`; why, on standard error.";

/// What is served, for the help of `serve`.
const SERVED: &str =
    "Sixteen sessions share the cards of `run`. A client opens two connections for each, as IVI-6.1 \
    tells; its resource name at port 4880 is TCPIP::127.0.0.1::hislip0::INSTR.\n\n\
    `mainframe: listening on 127.0.0.1:P` on standard error says that connections are taken.\n\n\
    HiSLIP knows no user: whoever reaches the address moves relays.";

/// The port of HiSLIP.
const PORT: u16 = 4880;

/// What a command line asks for.
#[derive(Debug, PartialEq, Eq, Drop)]
pub enum Order {
    /// To answer standard input. The closing of slot 1 that has this number, from 1, fails.
    Run(Option<u32>),
    /// The same with the scan program that this file lists.
    Program(Option<u32>, String),
    /// To answer standard input by the cards of this file's rack.
    RunRack(String),
    /// To check a listing on standard input, against this file's rack or the simulated cards.
    Check(Option<String>),
    /// To serve connections, by the cards of this file's rack or by simulated ones.
    Serve(Serving, Option<String>),
    /// To say what this file asks for, and to reach each card.
    Rack(String),
    /// To switch off every relay of this file's rack.
    Off(String),
}

/// How connections are served.
#[derive(Clone, Copy, Debug, PartialEq, Eq, Drop)]
pub struct Serving {
    /// At which address; without one at this machine's own.
    pub address: Option<IpAddr>,
    pub port: u16,
    /// Until the end of standard input, and not for ever.
    pub until_end_of_input: bool,
    /// The server logs each connection on standard error.
    pub is_logged: bool,
}

impl Serving {
    /// Where connections are taken.
    pub fn bound_at(&self) -> SocketAddr
        ensures { IsBoundAt self.now.address self.now.port result }
    {
        let ip = match self.address {
            Some(ip) => ip,
            None => IpAddr::V4(Ipv4Addr::new(127, 0, 0, 1)),
        };
        SocketAddr::new(ip, self.port)
    }
}

/// Why words ask for nothing to be run.
#[derive(Drop)]
pub enum Unrun {
    /// What `clap` says of them: of a mistake, of want of memory, or the help or the version that they ask for.
    Words(Error),
    /// The word behind `--address` is no address.
    Address,
    /// There was no memory for the word behind `--program`.
    Memory,
}

impl Unrun {
    /// What kind it is of.
    pub fn kind(&self) -> ErrorKind {
        match self {
            Unrun::Words(error) => error.kind(),
            Unrun::Address => ErrorKind::ValueValidation,
            Unrun::Memory => ErrorKind::OutOfMemory,
        }
    }
}

/// What these words ask for, or why they ask for nothing to be run. The first word is the program's name.
pub fn parse_words(alloc: Global, words: &[String]) -> Result<Order, Unrun> {
    match matches_of(alloc, words) {
        Ok(matches) => order_of(alloc, &matches),
        Err(error) => Err(Unrun::Words(error)),
    }
}

/// What `clap` reads of the words.
fn matches_of<'a>(alloc: Global, words: &'a [String]) -> Result<ArgMatches<'a>, Error> {
    command_line(alloc)?.try_get_matches_from(words)
}

/// The words that are understood.
fn command_line<'a>(alloc: Global) -> Result<Command<'a>, AllocError> {
    let program = Command::new(alloc, "mainframe")
        .about("A SCPI switch mainframe, of simulated cards or of a rack's")
        .version("1.0")
        .subcommand_required(true);
    let program = with_order(program, run_words(alloc))?;
    let program = with_order(program, check_words(alloc))?;
    let program = with_order(program, serve_words(alloc))?;
    let program = with_order(program, rack_words(alloc))?;
    with_order(program, off_words(alloc))
}

/// The program's words with those of an order, where there was memory for them.
fn with_order<'a>(
    program: Command<'a>,
    order: Result<Command<'a>, AllocError>,
) -> Result<Command<'a>, AllocError> {
    match order {
        Ok(order) => program.subcommand(order),
        Err(error) => {
            drop(program);
            Err(error)
        }
    }
}

/// An order's words with one more, where there was memory for it.
fn with_word<'a>(
    order: Command<'a>,
    word: Result<Arg<'a>, AllocError>,
) -> Result<Command<'a>, AllocError> {
    match word {
        Ok(word) => order.arg(word),
        Err(error) => {
            drop(order);
            Err(error)
        }
    }
}

/// The words of `run`.
fn run_words<'a>(alloc: Global) -> Result<Command<'a>, AllocError> {
    let run = Command::new(alloc, "run").about(
        "Answer each line of standard input on standard output",
    );
    let run = with_word(run, fuse_word(alloc))?;
    let run = with_word(run, program_word(alloc))?;
    run.arg(rack_word(alloc))
}

/// The word that says which closing fails.
fn fuse_word<'a>(alloc: Global) -> Result<Arg<'a>, AllocError> {
    Arg::new(alloc, "fuse")
        .long("fuse")
        .value_name("K")
        .help("Let the K-th closing of slot 1 fail, K from 1 to 1000000")
        .value_parser(clap::value_parser!(u32).range(1..1_000_001))
        .conflicts_with("rack")
}

/// The word that names a scan program's file.
fn program_word<'a>(alloc: Global) -> Result<Arg<'a>, AllocError> {
    Arg::new(alloc, "program")
        .long("program")
        .value_name("FILE")
        .help("Begin with the listing in FILE as the scan program, on")
        .conflicts_with("rack")
}

/// The words of `check`.
fn check_words<'a>(alloc: Global) -> Result<Command<'a>, AllocError> {
    Command::new(alloc, "check")
        .about("Check a listing of scan code on standard input")
        .after_help(LISTING)
        .arg(rack_word(alloc))
}

/// The word that names a rack's file.
fn rack_word<'a>(alloc: Global) -> Arg<'a> {
    Arg::new(alloc, "rack")
        .long("rack")
        .value_name("FILE")
        .help("Use the cards of this file, in place of simulated ones")
}

/// The words of `rack`.
fn rack_words<'a>(alloc: Global) -> Result<Command<'a>, AllocError> {
    let file = Arg::new(alloc, "file")
        .value_name("FILE")
        .required(true)
        .help("The rack's file");
    Command::new(alloc, "rack")
        .about("Say what a rack's file asks for, and reach each card; nothing moves")
        .arg(file)
}

/// The words of `off`.
fn off_words<'a>(alloc: Global) -> Result<Command<'a>, AllocError> {
    Command::new(alloc, "off")
        .about("Switch off every relay of a rack, and read back that it is")
        .arg(rack_word(alloc).required(true))
}

/// The words of `serve`.
fn serve_words<'a>(alloc: Global) -> Result<Command<'a>, AllocError> {
    Command::new(alloc, "serve")
        .about("Serve HiSLIP sessions over TCP, each connection by a thread of its own")
        .after_help(SERVED)
        .arg(address_word(alloc))?
        .arg(port_word(alloc))?
        .arg(until_word(alloc))?
        .arg(rack_word(alloc))?
        .arg(log_word(alloc))
}

/// The word that names an address.
fn address_word<'a>(alloc: Global) -> Arg<'a> {
    Arg::new(alloc, "address")
        .long("address")
        .value_name("ADDRESS")
        .help("Listen on this IPv4 or IPv6 address [default: 127.0.0.1]")
}

/// The word that names a port.
fn port_word<'a>(alloc: Global) -> Arg<'a> {
    Arg::new(alloc, "port")
        .long("port")
        .value_name("P")
        .help("Listen on port P, from 1 to 65535")
        .default_value("4880")
        .value_parser(clap::value_parser!(u16).range(1..65_536))
}

/// The word that ends a server with standard input.
fn until_word<'a>(alloc: Global) -> Arg<'a> {
    Arg::new(alloc, "until-end-of-input")
        .long("until-end-of-input")
        .action(ArgAction::SetTrue)
        .help("End with standard input, every relay open")
}

/// The word that has connections told of.
fn log_word<'a>(alloc: Global) -> Arg<'a> {
    Arg::new(alloc, "log")
        .long("log")
        .action(ArgAction::SetTrue)
        .help("Tell each connection's coming and leaving on standard error")
}

/// What the words that were understood ask for.
fn order_of(alloc: Global, matches: &ArgMatches) -> Result<Order, Unrun> {
    match matches.subcommand() {
        Some(("check", check)) => Ok(Order::Check(file_of(alloc, check, "rack")?)),
        Some(("serve", serve)) => {
            Ok(Order::Serve(serving_of(serve)?, file_of(alloc, serve, "rack")?))
        }
        Some(("rack", rack)) => Ok(Order::Rack(named(alloc, rack, "file")?)),
        Some(("off", off)) => Ok(Order::Off(named(alloc, off, "rack")?)),
        Some((_, run)) => match file_of(alloc, run, "rack")? {
            Some(path) => Ok(Order::RunRack(path)),
            None => run_of(alloc, run),
        },
        None => Ok(Order::Run(None)),
    }
}

/// The file that this word names, where it is there.
fn file_of(alloc: Global, matches: &ArgMatches, word: &str) -> Result<Option<String>, Unrun> {
    let Some(path) = matches.get_str(word) else {
        return Ok(None);
    };
    match String::from_str(alloc, path) {
        Ok(path) => Ok(Some(path)),
        Err(error) => Err(Unrun::Words(Error::from(error))),
    }
}

/// The file that this word names, which `clap` has seen to it is there.
fn named(alloc: Global, matches: &ArgMatches, word: &str) -> Result<String, Unrun> {
    Ok(file_of(alloc, matches, word)?.unwrap_or(String::new(alloc)))
}

/// How the words of `run` ask for lines to be answered by the simulated cards.
fn run_of(alloc: Global, matches: &ArgMatches) -> Result<Order, Unrun> {
    let fuse = matches.get_one::<u32>("fuse");
    let Some(path) = matches.get_str("program") else {
        return Ok(Order::Run(fuse));
    };
    match String::from_str(alloc, path) {
        Ok(path) => Ok(Order::Program(fuse, path)),
        Err(_) => Err(Unrun::Memory),
    }
}

/// How the words of `serve` ask for connections to be served.
fn serving_of(serve: &ArgMatches) -> Result<Serving, Unrun> {
    Ok(Serving {
        address: address_of(serve.get_str("address"))?,
        port: serve.get_one::<u16>("port").unwrap_or(PORT),
        until_end_of_input: serve.get_flag("until-end-of-input"),
        is_logged: serve.get_flag("log"),
    })
}

/// The address that a word gives.
fn address_of(word: Option<&str>) -> Result<Option<IpAddr>, Unrun> {
    let Some(word) = word else {
        return Ok(None);
    };
    match word.parse::<IpAddr>() {
        Ok(ip) => Ok(Some(ip)),
        Err(_) => Err(Unrun::Address),
    }
}

/// The exit status where nothing is run: 0 where the help or the version was asked for, 1 where there was no memory to
/// read the words, 2 where they are refused.
pub fn unrun_status(kind: ErrorKind) -> u8
    ensures { result ≡ unrun_status kind }
{
    match kind {
        ErrorKind::DisplayHelp | ErrorKind::DisplayVersion => 0,
        ErrorKind::OutOfMemory => 1,
        _ => 2,
    }
}
