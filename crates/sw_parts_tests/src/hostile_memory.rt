//! Library calls where the allocator refuses a growth of memory: their answer is right or reports that lack, and what
//! they work on stays as it was. `tests/growths/run --tests` runs these while the allocator refuses each growth in
//! turn.

use crate::positions::one_each;
use std::alloc::{AllocError, Global};
use sw_base::{Chan, LayerName, ScpiError};
use sw_channel::{print_list, print_positions, read_list, read_positions};
use sw_code::{Code, ListFault, compile, print_listing, read_listing};
use sw_hislip::{Decoder, Kind, LockReply, Locks, Message, WireFault, encode};
use sw_lex::{Command, Elements, Path, RelayCommand, next_unit, resolve};
use sw_macro::Macros;
use sw_status::Status;
use sw_trigger::Settings;
use sw_verify::{Layout, Refusal, Slot, verify};

pub const LIST: &[u8] = b"(@1!5:1!3,8!99)";

/// Whether a text is read as these channels, if there is memory.
fn reads_list(alloc: Global, text: &[u8], wanted: &[Chan]) -> bool {
    match read_list(alloc, text) {
        Ok(list) => list.as_slice() == wanted,
        Err(error) => error == ScpiError::OutOfMemory,
    }
}

/// Whether a text is refused so, or there is no memory.
fn refuses_list(alloc: Global, text: &[u8], wanted: ScpiError) -> bool {
    match read_list(alloc, text) {
        Ok(list) => {
            drop(list);
            false
        }
        Err(error) => error == wanted || error == ScpiError::OutOfMemory,
    }
}

/// Whether a list is printed so, if there is memory.
fn prints_list(alloc: Global, list: &[Chan], wanted: &[u8]) -> bool {
    match print_list(alloc, list) {
        Ok(text) => text.as_slice() == wanted,
        Err(error) => error == ScpiError::OutOfMemory,
    }
}

/// Whether a text is read as positions that are printed so, if there is memory.
fn reads_positions(alloc: Global, text: &[u8], wanted: &[u8]) -> bool {
    let Ok(positions) = read_positions(alloc, text) else {
        return true;
    };
    match print_positions(alloc, &positions) {
        Ok(printed) => printed.as_slice() == wanted,
        Err(error) => error == ScpiError::OutOfMemory,
    }
}

/// Whether a text is refused so as a list of positions, or there is no memory.
fn refuses_positions(alloc: Global, text: &[u8], wanted: ScpiError) -> bool {
    match read_positions(alloc, text) {
        Ok(positions) => {
            drop(positions);
            false
        }
        Err(error) => error == wanted || error == ScpiError::OutOfMemory,
    }
}

#[test]
fn positions_are_right_or_lack_memory(rt: HostRuntime) {
    for _ in 0..2u8 {
        assert!(rt;
            reads_positions(rt.alloc(), b"(@1!1&2!1,2!3:2!2)", b"(@1!1&2!1,2!3,2!2)")
                && refuses_positions(rt.alloc(), b"(@1!1&1!1)", ScpiError::DataOutOfRange)
                && refuses_positions(rt.alloc(), b"(@1!1&1!2:1!3)", ScpiError::InvalidExpression)
        );
    }
}

#[test]
fn lists_are_right_or_lack_memory(rt: HostRuntime) {
    let range = [
        Chan::new(1, 5),
        Chan::new(1, 4),
        Chan::new(1, 3),
        Chan::new(8, 99),
    ];
    for _ in 0..2u8 {
        assert!(rt;
            reads_list(rt.alloc(), LIST, &range)
                && refuses_list(rt.alloc(), b"(@1!1,17!1)", ScpiError::DataOutOfRange)
                && refuses_list(rt.alloc(), b"(@1!1,)", ScpiError::InvalidExpression)
                && prints_list(rt.alloc(), &range, b"(@1!5,1!4,1!3,8!99)")
        );
    }
}

/// Whether a command closes these channels.
fn closes(command: &Command, wanted: &[Chan]) -> bool {
    match command {
        Command::Relays(RelayCommand::Close, list) => list.as_slice() == wanted,
        _ => false,
    }
}

/// Whether the unit of a text closes these channels, if there is memory.
fn resolves(alloc: Global, text: &[u8], wanted: &[Chan]) -> bool {
    let mut room = Elements::new();
    let Ok(Some((unit, _))) = next_unit(text, &mut room) else {
        return false;
    };
    let mut path = Path::root();
    match resolve(alloc, &unit, &mut path) {
        Ok(command) => {
            let is_so = closes(&command, wanted);
            drop(command);
            is_so
        }
        Err(error) => error == ScpiError::OutOfMemory,
    }
}

#[test]
fn units_are_right_or_lack_memory(rt: HostRuntime) {
    let list = [Chan::new(1, 1), Chan::new(1, 2)];
    for _ in 0..2u8 {
        assert!(rt; resolves(rt.alloc(), b"ROUT:CLOS (@1!1:1!2)", &list));
    }
}

/// Whether the macro is one of the table's, with this body.
fn has_body(macros: &Macros, label: &[u8], wanted: &[u8]) -> bool {
    match macros.body(label) {
        Ok(body) => body == wanted,
        Err(_) => false,
    }
}

/// Whether a macro is defined, or there is no memory and the table is as it was.
fn defines(alloc: Global, macros: &mut Macros, label: &[u8], body: &[u8]) -> bool {
    let count = macros.len();
    match macros.define(alloc, label, body) {
        Ok(()) => has_body(macros, label, body) && macros.len() == count.saturating_add(1),
        Err(ScpiError::MacroRedefinitionNotAllowed) => has_body(macros, label, body),
        Err(error) => error == ScpiError::OutOfMemory && macros.len() == count,
    }
}

/// Whether the unit of a text becomes this, or stays as it is where its macro is missing, if there is memory.
fn becomes(alloc: Global, macros: &Macros, text: &[u8], wanted: &[u8]) -> bool {
    let mut room = Elements::new();
    let Ok(Some((unit, _))) = next_unit(text, &mut room) else {
        return false;
    };
    let mut told = Vec::new(alloc);
    match macros.expand(alloc, &unit, &mut told) {
        Ok(true) => told.as_slice() == wanted,
        Ok(false) => macros.len() < 2,
        Err(error) => error == ScpiError::OutOfMemory,
    }
}

/// Whether a macro can be removed where it is defined, and takes no memory.
fn removes(macros: &mut Macros, label: &[u8]) -> bool {
    let is_there = macros.body(label).is_ok();
    macros.remove(label).is_ok() == is_there && macros.body(label).is_err()
}

/// Whether macros are defined, expanded and removed, or lack memory.
fn plays_macros(alloc: Global, macros: &mut Macros) -> bool {
    macros.enable(true);
    let mut is_so = true;
    for _ in 0..2u8 {
        is_so = is_so
            && defines(alloc, macros, b"A", b"*GMC? $1;*IDN?")
            && defines(alloc, macros, b"B", b"*OPC?")
            && becomes(alloc, macros, b"A 'B'", b"*GMC? 'B';*IDN?");
    }
    is_so && removes(macros, b"A") && removes(macros, b"B") && macros.len() == 0
}

#[test]
fn macros_are_right_or_lack_memory(rt: HostRuntime) {
    let mut macros = Macros::new(rt.alloc());
    let is_so = plays_macros(rt.alloc(), &mut macros);
    drop(macros);
    assert!(rt; is_so);
}

/// Three passes round a list of two channels.
pub const EXAMPLE: &[u8] =
    b"scan 2\nmeter 4\nset 0 1\nset 1 1\nset 2 1\nset 3 1\nclose 1!1\nread\nopen 1!1\nclose 1!2\nread\n\
open 1!2\nloop 3 4\nclose 1!1\nread\nopen 1!1\nloop 2 3\nloop 1 2\nloop 0 1\nhalt\n";

/// Settings of that, if there is memory.
pub fn example(alloc: Global) -> Option<Settings> {
    let mut settings = Settings::new(alloc);
    let list = one_each(alloc, &[Chan::new(1, 1), Chan::new(1, 2)]).ok()?;
    settings.set_list(list).ok()?;
    settings.set_count(LayerName::Trigger, 3).ok()?;
    Some(settings)
}

/// Whether a code is listed so, if there is memory.
fn is_listed(alloc: Global, code: &Code, wanted: &[u8]) -> bool {
    match print_listing(alloc, code) {
        Ok(text) => text.as_slice() == wanted,
        Err(error) => error == ScpiError::OutOfMemory,
    }
}

/// Whether settings are compiled to this, if there is memory.
fn compiles(alloc: Global, settings: &Settings, wanted: &[u8]) -> bool {
    if settings.list().is_empty() {
        return false;
    }
    match compile(alloc, settings) {
        Ok(code) => {
            let is_so = is_listed(alloc, &code, wanted);
            drop(code);
            is_so
        }
        Err(error) => error == ScpiError::OutOfMemory,
    }
}

/// Whether a copy of settings compiles to the same, if there is memory.
fn copies(alloc: Global, settings: &Settings, wanted: &[u8]) -> bool {
    match settings.try_copy(alloc) {
        Ok(copy) => {
            let is_so = compiles(alloc, &copy, wanted) && copy.list() == settings.list();
            drop(copy);
            is_so
        }
        Err(AllocError) => true,
    }
}

/// Whether the example is copied and compiled right, or lacks memory.
fn compiles_example(alloc: Global) -> bool {
    match example(alloc) {
        Some(settings) => {
            let is_so = copies(alloc, &settings, EXAMPLE) && compiles(alloc, &settings, EXAMPLE);
            drop(settings);
            is_so
        }
        None => true,
    }
}

/// Whether a listing is read as itself, if there is memory.
fn reads_listing(alloc: Global, text: &[u8]) -> bool {
    match read_listing(alloc, text) {
        Ok(code) => {
            let is_so = is_listed(alloc, &code, text);
            drop(code);
            is_so
        }
        Err(error) => error.kind == ListFault::NoMemory,
    }
}

/// Whether a listing is refused by its line, or lacks memory.
fn refuses_listing(alloc: Global, text: &[u8], line: u32, kind: ListFault) -> bool {
    match read_listing(alloc, text) {
        Ok(code) => {
            drop(code);
            false
        }
        Err(error) => error.kind == ListFault::NoMemory || error.line == line && error.kind == kind,
    }
}

#[test]
fn codes_are_right_or_lack_memory(rt: HostRuntime) {
    let wrong = b"scan 1\nmeter 4\nread\nread\nread\nread\nread\nclose 9!1\n";
    for _ in 0..2u8 {
        assert!(rt;
            compiles_example(rt.alloc())
                && reads_listing(rt.alloc(), EXAMPLE)
                && refuses_listing(rt.alloc(), wrong, 8, ListFault::BadNumber)
        );
    }
}

/// Twenty channels of group 1 in slot 1, and a meter in slot 4.
pub fn cage(alloc: Global) -> Option<Layout> {
    let mut slots = Vec::new(alloc);
    slots.push(Slot::relays([1; 20].to_vec(alloc).ok()?)).ok()?;
    slots.push(Slot::relays([0; 16].to_vec(alloc).ok()?)).ok()?;
    slots.push(Slot::relays([1; 10].to_vec(alloc).ok()?)).ok()?;
    slots.push(Slot::meter()).ok()?;
    Some(Layout::new(slots))
}

/// Whether a code has this bound, if there is memory.
fn is_verified(alloc: Global, code: Code, layout: &Layout, bound: u128) -> bool {
    match verify(alloc, code, layout, &[], 100_000) {
        Ok(verified) => {
            let is_so = verified.bound() == bound;
            drop(verified);
            is_so
        }
        Err(refusal) => refusal == Refusal::NoMemory,
    }
}

/// Whether a code is refused so, or lacks memory.
fn is_refused(alloc: Global, code: Code, layout: &Layout, wanted: Refusal) -> bool {
    match verify(alloc, code, layout, &[], 100_000) {
        Ok(verified) => {
            drop(verified);
            false
        }
        Err(refusal) => refusal == Refusal::NoMemory || refusal == wanted,
    }
}

/// Whether listings are verified right, or lack memory.
fn verifies(alloc: Global, layout: &Layout) -> bool {
    let good = match read_listing(alloc, EXAMPLE) {
        Ok(code) => is_verified(alloc, code, layout, 3),
        Err(error) => error.kind == ListFault::NoMemory,
    };
    let clashes = b"scan 1\nmeter 4\nclose 1!1\nclose 3!1\nhalt\n";
    let bad = match read_listing(alloc, clashes) {
        Ok(code) => is_refused(alloc, code, layout, Refusal::GroupClash),
        Err(error) => error.kind == ListFault::NoMemory,
    };
    good && bad
}

#[test]
fn scans_are_judged_right_or_lack_memory(rt: HostRuntime) {
    if let Some(layout) = cage(rt.alloc()) {
        let is_so = verifies(rt.alloc(), &layout) && verifies(rt.alloc(), &layout);
        drop(layout);
        assert!(rt; is_so);
    }
}

/// Initialize with the sub-address `hislip0`.
const INITIALIZE: &[u8] = b"HS\x00\x00\x01\x00XX\x00\x00\x00\x00\x00\x00\x00\x07hislip0";

const SUB_ADDRESS: &[u8] = b"hislip0";

/// Whether a piece is taken at the second try, or the first; or there is none at all.
fn feeds(decoder: &mut Decoder, piece: &[u8]) -> bool {
    let room = decoder.room();
    decoder.feed(piece).is_ok() || decoder.room() == room && decoder.feed(piece).is_ok()
}

/// Whether a message is that Initialize, on the wire too if there is memory.
fn is_initialize(alloc: Global, message: &Message) -> bool {
    let is_same = message.kind == Kind::Initialize && message.payload.as_slice() == SUB_ADDRESS;
    match encode(alloc, message) {
        Ok(bytes) => is_same && bytes.as_slice() == INITIALIZE,
        Err(AllocError) => is_same,
    }
}

/// Whether the message in front is that Initialize, or lacks memory and is still there.
fn gives(alloc: Global, decoder: &mut Decoder) -> bool {
    let room = decoder.room();
    match decoder.next(alloc) {
        Ok(Some(message)) => {
            let is_so = is_initialize(alloc, &message);
            drop(message);
            is_so && decoder.room() == 0
        }
        Ok(None) => room == 0,
        Err(fault) => fault == WireFault::NoMemory && decoder.room() == room,
    }
}

/// Whether a message that comes in two pieces is given once, or lacks memory.
fn decodes(alloc: Global, decoder: &mut Decoder) -> bool {
    let (front, rest) = INITIALIZE.split_at(9);
    if !feeds(decoder, front) || !feeds(decoder, rest) {
        return decoder.room() < 23;
    }
    gives(alloc, decoder) && gives(alloc, decoder)
}

#[test]
fn messages_are_right_or_lack_memory(rt: HostRuntime) {
    let mut decoder = Decoder::new(rt.alloc());
    let is_so = decodes(rt.alloc(), &mut decoder);
    drop(decoder);
    assert!(rt; is_so);
}

/// Whether the table grants a shared lock, or finds no memory for its key and no session holds one.
fn locks_shared(alloc: Global, locks: &mut Locks) -> bool {
    match locks.ask(alloc, 1, b"key") {
        Ok(reply) => reply == LockReply::Granted && locks.info() == (false, 1),
        Err(AllocError) => locks.info() == (false, 0),
    }
}

/// Whether an exclusive lock takes no memory.
fn locks_exclusive(alloc: Global, locks: &mut Locks) -> bool {
    locks.leave(1);
    locks.ask(alloc, 2, b"") == Ok(LockReply::Granted) && locks.info() == (true, 1)
}

#[test]
fn locks_are_right_or_lack_memory(rt: HostRuntime) {
    let mut locks = Locks::new();
    let is_so = locks_shared(rt.alloc(), &mut locks) && locks_exclusive(rt.alloc(), &mut locks);
    drop(locks);
    assert!(rt; is_so);
}

/// Whether a queue takes as many errors as it has room for.
fn is_filled(status: &mut Status) -> bool {
    for _ in 0..40u8 {
        status.push_error(ScpiError::DataOutOfRange);
    }
    status.count() == 32
}

/// Whether a status takes all its errors without memory, once there is one.
fn keeps_errors(alloc: Global) -> bool {
    match Status::new(alloc) {
        Ok(status) => {
            let mut status = status;
            let is_so = is_filled(&mut status);
            drop(status);
            is_so
        }
        Err(AllocError) => true,
    }
}

#[test]
fn a_status_is_right_or_lacks_memory(rt: HostRuntime) {
    assert!(rt; keeps_errors(rt.alloc()) && keeps_errors(rt.alloc()));
}
