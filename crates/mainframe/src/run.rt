//! Lines in, lines out: each line that is read is one program message of one session.

ghost use Rattle.std.specs.Prelude.{◌≡◌, ◌⊎◌, ℕ, OnOk, IfSome, IfErr, []};
ghost use Rattle.std.specs.Io.KnownBytes.{IsAtEnd};
ghost use Rattle.sw_serve.specs.SlotCards.{cards_seen, relay_seen, meter_seen};
ghost use Rattle.mainframe.specs.Cards.{program_cards};
ghost use Rattle.sw_macro.specs.Table.{no_macros};
ghost use Rattle.mainframe.specs.Turns.{AsksInTurn, AnswersAtHand, StopsAtHand, FailsAfter, IsInVain, stand, streams};
ghost use Rattle.sw_talk.specs.CoreDesk.{CorePasses};
ghost use Rattle.sw_talk.specs.Talk.{state, turns};
ghost use Rattle.sw_talk.specs.Trace.{Leads};
ghost use Rattle.mainframe.specs.Run.{AnsweredFrom, EndsFrom, Runs, RunsFrom, asked_first};

use crate::cards::{first_card, in_slots, meter_card, second_card, third_card};
use crate::fault::RunFault;
use crate::loading::load;
use crate::reading::{LineSource, read_line};
use crate::writing::{gather, write_out};
use std::alloc::Global;
use std::io::{BufRead, Write};
use sw_base::Boxed;
use sw_card::{Meter, Relay};
use sw_core::{Sid, every_run_is_good};
use sw_serve::{SlotCard, desk_for_one};
use sw_session::{CoreDesk, TURNS, Talker};
use sw_verify::ScanProgram;

/// Answers each line of the reader as a program message, by the program's cards: a multiplexer of 20 channels in group
/// 1, a matrix of 16, a multiplexer of 10 in group 1 and a meter. `fuse` says which closing of slot 1 fails, from 1.
///
/// It writes and flushes an answer before it asks the reader for more (`run_on`). At a fault the answers to the lines
/// before are written, and nothing was read but those lines; at a fault of the reader or for want of memory also a part
/// of the next.
pub fn run_lines<Rd: BufRead, W: Write>(
    alloc: Global,
    reader: &mut Rd,
    writer: &mut W,
    fuse: Option<u32>,
) -> Result<(), RunFault>
    ensures { IfSome (Rd.remaining reader.old) (λ input. Runs (asked_first None) program_cards result input
        (Rd.remaining reader.new) (W.contents writer.old) (W.contents writer.new)) }
{
    run_cards(alloc, reader, writer, fuse, None)
}

/// The same with this scan program on before the first line.
pub fn run_program_lines<Rd: BufRead, W: Write>(
    alloc: Global,
    reader: &mut Rd,
    writer: &mut W,
    fuse: Option<u32>,
    program: Boxed<ScanProgram>,
) -> Result<(), RunFault>
    ensures { IfSome (Rd.remaining reader.old) (λ input. Runs (asked_first (Some program)) program_cards result input
        (Rd.remaining reader.new) (W.contents writer.old) (W.contents writer.new)) }
{
    run_cards(alloc, reader, writer, fuse, Some(program))
}

/// Answers the reader's lines by the program's cards, with this scan program on where there is one.
fn run_cards<Rd: BufRead, W: Write>(
    alloc: Global,
    reader: &mut Rd,
    writer: &mut W,
    fuse: Option<u32>,
    program: Option<Boxed<ScanProgram>>,
) -> Result<(), RunFault>
    ensures { IfSome (Rd.remaining reader.old) (λ input. Runs (asked_first program) program_cards result input
        (Rd.remaining reader.new) (W.contents writer.old) (W.contents writer.new)) }
{
    let first: Box<dyn Relay + Send> = Box::new(alloc, first_card(fuse))?;
    let second: Box<dyn Relay + Send> = Box::new(alloc, second_card())?;
    let third: Box<dyn Relay + Send> = Box::new(alloc, third_card())?;
    let meter: Box<dyn Meter + Send> = Box::new(alloc, meter_card())?;
    let cards = in_slots(alloc, first, second, third, meter)?;
    run_with(alloc, reader, writer, cards, program)
}

/// Answers each line of the source as a program message, by a mainframe that takes these cards. A mainframe never
/// refuses the program's cards (`cards_are_welcome`), so a failure to make it is want of memory.
pub fn run_over<R: Relay, M: Meter, S: LineSource<W>, W: Write>(
    alloc: Global,
    source: &mut S,
    writer: &mut W,
    cards: Vec<SlotCard<R, M>>,
) -> Result<(), RunFault>
    ensures { IfSome (S.remaining source.old) (λ input. Runs (asked_first None) (cards_seen
        (relay_seen R.the_serial R.failed R.groups R.closed)
        (meter_seen M.the_serial M.failed M.last_reading) cards.items)
        result input (S.remaining source.new) (W.contents writer.old) (W.contents writer.new)) }
{
    run_with(alloc, source, writer, cards, None)
}

/// The same with this scan program on before the first line, where there is one.
fn run_with<R: Relay, M: Meter, S: LineSource<W>, W: Write>(
    alloc: Global,
    source: &mut S,
    writer: &mut W,
    cards: Vec<SlotCard<R, M>>,
    program: Option<Boxed<ScanProgram>>,
) -> Result<(), RunFault>
    ensures { IfSome (S.remaining source.old) (λ input. Runs (asked_first program) (cards_seen
        (relay_seen R.the_serial R.failed R.groups R.closed)
        (meter_seen M.the_serial M.failed M.last_reading) cards.items)
        result input (S.remaining source.new) (W.contents writer.old) (W.contents writer.new)) }
{
    every_run_is_good();
    match desk_for_one(alloc, cards) {
        Ok((desk, sid)) => {
            let mut desk = desk;
            run_from(alloc, source, writer, &mut desk, sid, program)
        }
        Err(_) => Err(RunFault::Memory),
    }
}

/// Has the desk take the scan program, where there is one, and answers each line of the source by it.
fn run_from<R: Relay, M: Meter, S: LineSource<W>, W: Write>(
    alloc: Global,
    source: &mut S,
    writer: &mut W,
    desk: &mut CoreDesk<R, M>,
    sid: Sid,
    program: Option<Boxed<ScanProgram>>,
) -> Result<(), RunFault>
    ensures { IfSome (S.remaining source.old) (λ input. RunsFrom sid (asked_first program sid) desk.old result input
        (S.remaining source.new) (W.contents writer.old) (W.contents writer.new)) }
{
    begin(desk, sid, program)?;
    run_on(alloc, source, writer, desk, sid)
}

/// Has the desk take the scan program, where there is one.
fn begin<R: Relay, M: Meter>(
    desk: &mut CoreDesk<R, M>,
    sid: Sid,
    program: Option<Boxed<ScanProgram>>,
) -> Result<(), RunFault>
    ensures asked { OnOk result (Leads CorePasses desk.old (asked_first program sid) desk.new) }
    ensures memory { IfErr result (λ fault. fault ≡ RunFault.Memory) }
{
    match program {
        Some(program) => load(desk, sid, program),
        None => Ok(()),
    }
}

/// Answers each line of the source by the desk. Each time that it asks the source for bytes, it has written and flushed
/// all answers so far.
pub fn run_on<R: Relay, M: Meter, S: LineSource<W>, W: Write>(
    alloc: Global,
    source: &mut S,
    writer: &mut W,
    desk: &mut CoreDesk<R, M>,
    sid: Sid,
) -> Result<(), RunFault>
    ensures ok { OnOk result (IfSome (S.remaining source.old) (λ input. AnsweredFrom sid
        (state desk.old no_macros) input [] (W.contents writer.old) (W.contents writer.new))) }
    ensures all { OnOk result (IfSome (S.remaining source.old) (λ _. IsAtEnd (S.remaining source.new))) }
    ensures err { IfErr result (λ fault. IfSome (S.remaining source.old) (λ input. EndsFrom sid
        (state desk.old no_macros) fault input (S.remaining source.new)
        (W.contents writer.old) (W.contents writer.new))) }
    ensures turns { (left : ℕ)
        × AsksInTurn (streams S.remaining S.asked S.unasked W.contents) sid
        (stand (state desk.old no_macros) source.old writer.old [] turns) left source.new
        × (result ≡ Err RunFault.Input → FailsAfter S.failed left source.new ⊎ IsInVain desk.new) }
{
    answer_all(source, writer, desk, &mut Answering::new(alloc, sid))
}

/// Answers each line of the source as `run_on` does.
fn answer_all<R: Relay, M: Meter, S: LineSource<W>, W: Write>(
    source: &mut S,
    writer: &mut W,
    desk: &mut CoreDesk<R, M>,
    answering: &mut Answering,
) -> Result<(), RunFault>
    requires { answering.old.unwritten.items ≡ [] }
    ensures ok { OnOk result (IfSome (S.remaining source.old) (λ input. AnsweredFrom answering.old.talker.sid
        (state desk.old answering.old.talker.macros) input [] (W.contents writer.old) (W.contents writer.new))) }
    ensures all { OnOk result (IfSome (S.remaining source.old) (λ _. IsAtEnd (S.remaining source.new))) }
    ensures err { IfErr result (λ fault. IfSome (S.remaining source.old) (λ input. EndsFrom answering.old.talker.sid
        (state desk.old answering.old.talker.macros) fault input (S.remaining source.new)
        (W.contents writer.old) (W.contents writer.new))) }
    ensures turns { (left : ℕ)
        × AsksInTurn (streams S.remaining S.asked S.unasked W.contents) answering.old.talker.sid
        (stand (state desk.old answering.old.talker.macros) source.old writer.old [] answering.old.turns)
        left source.new
        × (result ≡ Err RunFault.Input → FailsAfter S.failed left source.new ⊎ IsInVain desk.new) }
{
    while answering.turns > 0 {
        answering.answer_at_hand(source, writer, desk)?;
        write_out(writer, &mut answering.unwritten)?;
        read_line(
            source,
            writer,
            &mut answering.turns,
            &mut answering.at_hand,
            &mut answering.line,
        )?;
        if answering.line.is_empty() {
            return Ok(());
        }
        answering
            .talker
            .message_into(&answering.line, desk, &mut answering.told);
        if !desk.rest() {
            return Err(RunFault::Input);
        }
        gather(writer, &mut answering.unwritten, &answering.told)?;
    }
    write_out(writer, &mut answering.unwritten)?;
    Err(RunFault::Input)
}

/// What answering lines works on beside its source, its writer and its desk.
#[derive(Drop)]
struct Answering {
    talker: Talker,
    /// The line that was read last.
    line: Vec<u8>,
    /// What was answered to it.
    told: Vec<u8>,
    /// What was answered and not written yet.
    unwritten: Vec<u8>,
    /// How many bytes the source has at hand.
    at_hand: usize,
    /// How often the source may still be asked for bytes.
    turns: u64,
}

impl Answering {
    /// With nothing read, and nothing at hand.
    fn new(alloc: Global, sid: Sid) -> Self
        ensures sid { result.talker.sid ≡ sid }
        ensures macros { result.talker.macros ≡ no_macros }
        ensures unwritten { result.unwritten.items ≡ [] }
        ensures turns { result.turns ≡ turns }
    {
        Answering {
            talker: Talker::new(alloc, sid),
            line: Vec::new(alloc),
            told: Vec::new(alloc),
            unwritten: Vec::new(alloc),
            at_hand: 0,
            turns: TURNS,
        }
    }

    /// Answers the whole lines that the source has at hand. It is asked for nothing. A line is taken once all that was
    /// outstanding after it is carried out.
    fn answer_at_hand<R: Relay, M: Meter, S: LineSource<W>, W: Write>(
        &mut self,
        source: &mut S,
        writer: &mut W,
        desk: &mut CoreDesk<R, M>,
    ) -> Result<(), RunFault>
        ensures ok { OnOk result (AnswersAtHand
            (streams S.remaining S.asked S.unasked W.contents) self.old.talker.sid
            (stand (state desk.old self.old.talker.macros)
            source.old writer.old self.old.unwritten.items self.old.turns)
            (stand (state desk.new self.new.talker.macros)
            source.new writer.new self.new.unwritten.items self.new.turns)) }
        ensures err { IfErr result (λ fault.
            StopsAtHand (streams S.remaining S.asked S.unasked W.contents) self.old.talker.sid
            (stand (state desk.old self.old.talker.macros)
            source.old writer.old self.old.unwritten.items self.old.turns)
            fault source.new writer.new desk.new) }
        ensures same { self.new.talker.sid ≡ self.old.talker.sid }
        ensures turns { self.new.turns ≡ self.old.turns }
    {
        while self.at_hand > 0 {
            let length = source.look(self.at_hand, &mut self.line);
            if length == 0 {
                return Ok(());
            }
            self.talker.message_into(&self.line, desk, &mut self.told);
            if !desk.rest() {
                write_out(writer, &mut self.unwritten)?;
                return Err(RunFault::Input);
            }
            source.take(length);
            self.at_hand -= length;
            gather(writer, &mut self.unwritten, &self.told)?;
        }
        Ok(())
    }
}
