//! HiSLIP clients that the tests play: what they send, and whether what comes back is as it should be; and a desk for
//! them. These promise nothing, and most answer yes or no.

use std::alloc::{AllocError, Global};
use sw_base::Sequence;
use sw_card::Card;
use sw_core::{Answer, Ask, Core};
use sw_hislip::{Kind, Message};
use sw_kinds::{Mux, SimDriver, SimSource, Volt};
use sw_session::{Channel, CoreDesk, Desk, Engine, Sent, Step};

pub type Bench = CoreDesk<Mux<SimDriver>, Volt<SimSource>>;

/// Whether a card comes into the slot.
fn install(
    alloc: Global,
    core: &mut Core<Mux<SimDriver>, Volt<SimSource>>,
    slot: u8,
    card: Card<Mux<SimDriver>, Volt<SimSource>>,
) -> bool {
    let answer = core.apply(alloc, Ask::Install(slot, card));
    let is_installed = matches!(answer, Answer::Installed);
    drop(answer);
    is_installed
}

/// Whether four channels come into slot 1 and a meter into slot 4.
fn fits(alloc: Global, core: &mut Core<Mux<SimDriver>, Volt<SimSource>>) -> bool {
    let mux = Mux::new(1, 4, 1, SimDriver::new());
    let volt = Volt::new(4, SimSource::new(1, 1));
    install(alloc, core, 1, Card::relays(mux)) && install(alloc, core, 4, Card::meter(volt))
}

/// A desk over such a mainframe, with no session.
pub fn bench(alloc: Global) -> Option<Bench> {
    let Ok(mut core) = Core::new(alloc) else {
        return None;
    };
    if fits(alloc, &mut core) {
        return Some(CoreDesk::new(alloc, core));
    }
    drop(core);
    None
}

/// The fields of a message.
#[derive(Clone, Copy)]
pub struct Fields<'a> {
    kind: Kind,
    control: u8,
    parameter: u32,
    payload: &'a [u8],
}

pub fn carrying<'a>(kind: Kind, control: u8, parameter: u32, payload: &'a [u8]) -> Fields<'a> {
    Fields {
        kind,
        control,
        parameter,
        payload,
    }
}

/// A message without a payload.
pub fn plain(kind: Kind, control: u8, parameter: u32) -> Fields<'static> {
    carrying(kind, control, parameter, b"")
}

fn message(alloc: Global, it: Fields<'_>) -> Result<Message, AllocError> {
    let payload = Vec::from_slice(alloc, it.payload)?;
    Ok(Message {
        kind: it.kind,
        control: it.control,
        parameter: it.parameter,
        payload: Sequence::new(payload),
    })
}

/// The identifier of a client's first message.
pub const FIRST: u32 = 0xffff_ff00;

pub const IDENTITY: &[u8] = b"OPENBENCH,SWM8,0,1.0\n";

/// Bit 0 of a control code: the client has taken the last answer whole.
pub const TAKEN: u8 = 1;

fn is_said(sent: &Sent, channel: Channel, wanted: Fields<'_>) -> bool {
    sent.channel == channel
        && sent.message.kind == wanted.kind
        && sent.message.control == wanted.control
        && sent.message.parameter == wanted.parameter
        && sent.message.payload.as_slice() == wanted.payload
}

/// What is said to one message, one after another, and whether the channel ends then.
#[derive(Drop)]
pub struct Said {
    pub out: Vec<Sent>,
    pub ends: bool,
}

/// How many messages are said to one at most.
const MOST_SAID: u32 = 1_000_000;

/// All that is said.
fn all_said(alloc: Global, step: Step) -> Option<Said> {
    let mut step = step;
    let mut out = Vec::new(alloc);
    for _ in 0..MOST_SAID {
        let Some(sent) = step.next(alloc).ok()? else {
            let ends = step.ends();
            return Some(Said { out, ends });
        };
        out.push(sent).ok()?;
    }
    None
}

/// Whether nothing is said.
fn is_silent(said: &Said) -> bool {
    said.out.is_empty() && !said.ends
}

/// Whether this alone is said, and whether the channel ends with it.
pub fn is_answer(said: &Said, channel: Channel, wanted: Fields<'_>, ends: bool) -> bool {
    match said.out.as_slice() {
        [sent] => said.ends == ends && is_said(sent, channel, wanted),
        _ => false,
    }
}

/// Whether these two are said, each on its channel, and the channel continues.
fn is_pair(said: &Said, first: (Channel, Fields<'_>), second: (Channel, Fields<'_>)) -> bool {
    match said.out.as_slice() {
        [one, two] => {
            !said.ends && is_said(one, first.0, first.1) && is_said(two, second.0, second.1)
        }
        _ => false,
    }
}

/// What is said to a message.
pub fn take<D: Desk>(
    alloc: Global,
    engine: &mut Engine,
    desk: &mut D,
    it: Fields<'_>,
) -> Option<Said> {
    match message(alloc, it) {
        Ok(message) => all_said(alloc, engine.take(message, desk).ok()?),
        Err(_) => None,
    }
}

/// A client: its two connections.
#[derive(Drop)]
pub struct Client {
    pub alloc: Global,
    pub main: Engine,
    pub side: Engine,
}

impl Client {
    pub fn new(alloc: Global) -> Self {
        Client {
            alloc,
            main: Engine::new(alloc, Channel::Synchronous),
            side: Engine::new(alloc, Channel::Asynchronous),
        }
    }

    /// What is said to a message on a channel.
    pub fn hears<D: Desk>(
        &mut self,
        desk: &mut D,
        channel: Channel,
        it: Fields<'_>,
    ) -> Option<Said> {
        match channel {
            Channel::Synchronous => take(self.alloc, &mut self.main, desk, it),
            Channel::Asynchronous => take(self.alloc, &mut self.side, desk, it),
        }
    }

    /// Whether a message is answered on its channel by this alone, and whether the channel ends with it.
    pub fn exchanges<D: Desk>(
        &mut self,
        desk: &mut D,
        channel: Channel,
        it: Fields<'_>,
        wanted: Fields<'_>,
        ends: bool,
    ) -> bool {
        match self.hears(desk, channel, it) {
            Some(step) => {
                let is_so = is_answer(&step, channel, wanted, ends);
                drop(step);
                is_so
            }
            None => false,
        }
    }

    /// Whether a message on the first connection is answered by this.
    pub fn tells<D: Desk>(&mut self, desk: &mut D, it: Fields<'_>, wanted: Fields<'_>) -> bool {
        self.exchanges(desk, Channel::Synchronous, it, wanted, false)
    }

    /// Whether a message on the second connection is answered by this.
    pub fn adds<D: Desk>(&mut self, desk: &mut D, it: Fields<'_>, wanted: Fields<'_>) -> bool {
        self.exchanges(desk, Channel::Asynchronous, it, wanted, false)
    }

    /// Whether nothing is said to a message on the first connection.
    pub fn is_quiet<D: Desk>(&mut self, desk: &mut D, it: Fields<'_>) -> bool {
        match self.hears(desk, Channel::Synchronous, it) {
            Some(step) => {
                let is_so = is_silent(&step);
                drop(step);
                is_so
            }
            None => false,
        }
    }

    /// Whether a whole program message, sent with the last answer taken, is answered by this text.
    pub fn asks<D: Desk>(&mut self, desk: &mut D, text: &[u8], wanted: &[u8]) -> bool {
        let it = carrying(Kind::DataEnd, TAKEN, FIRST, text);
        self.tells(desk, it, carrying(Kind::DataEnd, 0, FIRST, wanted))
    }

    /// Whether a whole program message is not answered.
    pub fn bids<D: Desk>(&mut self, desk: &mut D, text: &[u8]) -> bool {
        self.is_quiet(desk, carrying(Kind::DataEnd, TAKEN, FIRST, text))
    }

    /// Whether a session begins, with this number.
    pub fn begins<D: Desk>(&mut self, desk: &mut D, number: u32) -> bool {
        let it = carrying(Kind::Initialize, 0, 0x0100_5858, b"hislip0");
        let welcome = plain(Kind::InitializeResponse, 0, 0x0100_0000 | number);
        self.tells(desk, it, welcome)
    }

    /// Whether its second connection begins.
    pub fn attaches<D: Desk>(&mut self, desk: &mut D, number: u32) -> bool {
        let it = plain(Kind::AsyncInitialize, 0, number);
        self.adds(desk, it, plain(Kind::AsyncInitializeResponse, 0, 0x5357))
    }

    pub fn joins<D: Desk>(&mut self, desk: &mut D, number: u32) -> bool {
        self.begins(desk, number) && self.attaches(desk, number)
    }

    /// Whether an ask for a lock that may not wait is answered by this code.
    pub fn locks<D: Desk>(&mut self, desk: &mut D, key: &[u8], code: u8) -> bool {
        let it = carrying(Kind::AsyncLock, 1, 0, key);
        self.adds(desk, it, plain(Kind::AsyncLockResponse, code, 0))
    }

    /// Whether a release is answered by this code.
    pub fn releases<D: Desk>(&mut self, desk: &mut D, code: u8) -> bool {
        let it = plain(Kind::AsyncLock, 0, 0);
        self.adds(desk, it, plain(Kind::AsyncLockResponse, code, 0))
    }

    /// Whether a status query is answered by this byte.
    pub fn shows<D: Desk>(&mut self, desk: &mut D, control: u8, byte: u8) -> bool {
        let it = plain(Kind::AsyncStatusQuery, control, 0);
        self.adds(desk, it, plain(Kind::AsyncStatusResponse, byte, 0))
    }

    /// Whether this message says two, each on its channel.
    pub fn says_pair<D: Desk>(
        &mut self,
        desk: &mut D,
        it: Fields<'_>,
        first: (Channel, Fields<'_>),
        second: (Channel, Fields<'_>),
    ) -> bool {
        match self.hears(desk, Channel::Synchronous, it) {
            Some(step) => {
                let is_so = is_pair(&step, first, second);
                drop(step);
                is_so
            }
            None => false,
        }
    }

    /// Whether it was noted that a message is available for it.
    pub fn has_message<D: Desk>(&self, desk: &mut D) -> bool {
        match self.main.session() {
            Some(sid) => desk.poll(sid).mav,
            None => false,
        }
    }

    /// Notes that its answer was written.
    pub fn note_answer<D: Desk>(&self, desk: &mut D) {
        if let Some(sid) = self.main.session() {
            desk.note(sid, true);
        }
    }

    /// Whether the channel says a service request with this byte.
    pub fn notices<D: Desk>(&mut self, desk: &mut D, byte: u8) -> bool {
        match self.side.session() {
            Some(sid) => {
                let told = self.side.notice(desk.poll(sid));
                is_request(&told, byte)
            }
            None => false,
        }
    }

    /// Whether the channel says no service request.
    pub fn notices_none<D: Desk>(&mut self, desk: &mut D) -> bool {
        match self.side.session() {
            Some(sid) => self.side.notice(desk.poll(sid)).is_none(),
            None => false,
        }
    }
}

fn is_request(told: &Option<Message>, byte: u8) -> bool {
    match told {
        Some(it) => {
            it.kind == Kind::AsyncServiceRequest && it.control == byte && it.parameter == 0
        }
        None => false,
    }
}
