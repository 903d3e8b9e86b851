//! The talk about one program message.

ghost use Rattle.std.specs.Prelude.{◌≡◌, ◌+◌, ◌≤◌, [], length, Ok, Err, true, false};
ghost use Rattle.std.specs.Io.BufRead.{strip_last};
ghost use Rattle.std.specs.Vec.{vec_capacity};
ghost use Rattle.sw_lex.specs.Unit.{unit_of};
ghost use Rattle.sw_lex.specs.Meaning.{Nodes, path_of};
ghost use Rattle.sw_macro.specs.Table.{Table, no_macros};
ghost use Rattle.sw_talk.specs.Talk.{Talked, TalksLine, OnLine, Itself, Expanded, ServesUnit, ConcludesLine};
ghost use Rattle.sw_talk.specs.Talk.{state, talker_at, after_unit, lasts_after, is_command_error, TellsAnswered};
ghost use Rattle.sw_talk.specs.Talk.{is_own, reads_out};

use crate::asking::{ask_command, carry_out, is_own, queue, reads_out};
use crate::desk::Desk;
use crate::line::{join, make_room};
use std::alloc::Global;
use std::mem;
use sw_base::{MESSAGE_BYTES, ScpiError};
use sw_core::{SessionAnswer, Sid};
use sw_lex::{Command, Elements, Path, RawUnit, next_unit, resolve};
use sw_macro::Macros;

/// How many bytes of memory a line of answers keeps at most from one message to the next.
const KEPT_BYTES: usize = 65_536;

/// What a session keeps for its messages.
#[derive(Drop)]
pub struct Talker {
    alloc: Global,
    sid: Sid,
    macros: Macros,
    /// Room for the expansion of a unit, which is kept from one unit to the next.
    expansion: Vec<u8>,
    /// Room for the answers to the next message.
    line: Vec<u8>,
}

impl Talker {
    /// What the session that was joined under this number keeps: no macro, and macros off.
    pub fn new(alloc: Global, sid: Sid) -> Self
        ensures sid { result.sid ≡ sid }
        ensures macros { result.macros ≡ no_macros }
    {
        Talker {
            alloc,
            sid,
            macros: Macros::new(alloc),
            expansion: Vec::new(alloc),
            line: Vec::new(alloc),
        }
    }

    /// Talks over one program message: asks its commands, one unit after another, and gives the answers, joined by
    /// semicolons and ended by a line feed, or nothing (IEEE 488.2, 6.3 and 8.4).
    ///
    /// It drops one line feed at the message's end. It drops a message that has more than `MESSAGE_BYTES` without it as
    /// a whole, with error -363. Its macro's expansion replaces a unit that calls a macro, and the expansion's units
    /// are final. An error from -100 to -199 drops the rest of the message, any other its unit alone. Where the desk
    /// answers that the session is being cleared, is joined no more, or that nothing more can be numbered, nothing is
    /// written. It drops an answer or an expansion that finds no memory, with error -225, and likewise an answer with
    /// which the line would have more than `ANSWER_BYTES`. Where there is no memory for one register or one error that
    /// a query would take out of the status, it doesn't ask for that, so that it stays.
    pub fn message<D: Desk>(&mut self, text: &[u8], desk: &mut D) -> Vec<u8>
        ensures talked { Talked D.passes self.old.sid (state desk.old self.old.macros)
            text.now result.items (state desk.new self.new.macros) }
        ensures same { self.new.sid ≡ self.old.sid }
    {
        let (answers, _) = self.talk_over(text, desk);
        answers
    }

    /// The answers to one program message, as `message` gives them, and whether the session lasts, as `message_into`
    /// tells.
    pub fn talk_over<D: Desk>(&mut self, text: &[u8], desk: &mut D) -> (Vec<u8>, bool)
        ensures talked { (t : Talked D.passes self.old.sid (state desk.old self.old.macros)
            text.now result.0.items (state desk.new self.new.macros)) × (t.lasts ≡ result.1) }
        ensures same { self.new.sid ≡ self.old.sid }
    {
        let mut answers = mem::replace(&mut self.line, Vec::new(self.alloc));
        let lasts = self.message_into(text, desk, &mut answers);
        (answers, lasts)
    }

    /// Uses this memory for the answers to the next message, and drops what is in it.
    pub fn reuse(&mut self, line: Vec<u8>)
        ensures sid { self.new.sid ≡ self.old.sid }
        ensures macros { self.new.macros ≡ self.old.macros }
    {
        self.line = line;
    }

    /// Talks over one program message as `message` does, and leaves the answers in `out` in place of what was there.
    /// Its memory is used again, where it is no more than `KEPT_BYTES`. It is false where the desk has answered that
    /// the session is being cleared, is joined no more, or that nothing more can be numbered.
    pub fn message_into<D: Desk>(&mut self, text: &[u8], desk: &mut D, out: &mut Vec<u8>) -> bool
        ensures talked { (t : Talked D.passes self.old.sid (state desk.old self.old.macros)
            text.now out.new.items (state desk.new self.new.macros)) × (t.lasts ≡ result) }
        ensures same { self.new.sid ≡ self.old.sid }
    {
        if out.capacity() > KEPT_BYTES {
            *out = Vec::new(self.alloc);
        }
        out.clear();
        let text = without_line_feed(text);
        if text.len() > MESSAGE_BYTES {
            return lasts(go_on(queue(desk, self.sid, ScpiError::InputBufferOverrun)));
        }
        let mut path = Path::root();
        if let AfterUnit::Ends = self.talk::<ByExpansion, D>(desk, text, &mut path, out) {
            out.clear();
            return false;
        }
        true
    }

    /// Talks over the units of a text, each in this way, below this path.
    #[inline(never)]
    fn talk<W: Way, D: Desk>(
        &mut self,
        desk: &mut D,
        text: &[u8],
        path: &mut Path,
        out: &mut Vec<u8>,
    ) -> AfterUnit
        ensures talks { TalksLine (W.way self.old.sid) D.passes self.old.sid text.now
            (talker_at desk.old (path_of path.old) self.old.macros out.old.items)
            result (talker_at desk.new (path_of path.new) self.new.macros out.new.items) }
        ensures same { self.new.sid ≡ self.old.sid }
    {
        let mut room = Elements::new();
        let mut left = text;
        'units: loop {
            match next_unit(left, &mut room) {
                Ok(None) => return AfterUnit::Goes,
                Err(misfit) => return self.serve(desk, Err(misfit), out),
                Ok(Some((unit, rest))) => {
                    left = rest;
                    match W::unit(self, desk, &unit, path, out) {
                        AfterUnit::Goes => {}
                        after => return after,
                    }
                }
            }
        }
    }

    /// Talks over the units of the expansion, each as itself, below this path.
    #[inline(never)]
    fn talk_expansion<D: Desk>(
        &mut self,
        desk: &mut D,
        path: &mut Path,
        out: &mut Vec<u8>,
    ) -> AfterUnit
        ensures talks { TalksLine (Itself self.old.sid) D.passes self.old.sid self.old.expansion.items
            (talker_at desk.old (path_of path.old) self.old.macros out.old.items)
            result (talker_at desk.new (path_of path.new) self.new.macros out.new.items) }
        ensures same { self.new.sid ≡ self.old.sid }
    {
        let text = mem::replace(&mut self.expansion, Vec::new(self.alloc));
        let after = self.talk::<ByItself, D>(desk, &text, path, out);
        self.expansion = text;
        after
    }

    /// Serves a unit's command or refusal, and leaves its path.
    fn unit<D: Desk>(
        &mut self,
        desk: &mut D,
        unit: &RawUnit<'_>,
        path: &mut Path,
        out: &mut Vec<u8>,
    ) -> AfterUnit
        ensures unit { OnLine D.passes
            (talker_at desk.old (path_of path.old) self.old.macros out.old.items)
            (talker_at desk.new (path_of path.new) self.new.macros out.new.items)
            (λ s s'. Itself self.old.sid (unit_of unit.now) s result s') }
        ensures same { self.new.sid ≡ self.old.sid }
    {
        let command = resolve(self.alloc, unit, path);
        self.serve(desk, command, out)
    }

    /// Serves one unit that is this command or error, and adds its answer to those that are written.
    #[inline(always)]
    fn serve<D: Desk>(
        &mut self,
        desk: &mut D,
        command: Result<Command, ScpiError>,
        out: &mut Vec<u8>,
    ) -> AfterUnit
        ensures serves { (path : Nodes) → OnLine D.passes
            (talker_at desk.old path self.old.macros out.old.items)
            (talker_at desk.new path self.new.macros out.new.items)
            (λ s s'. ServesUnit self.old.sid command s result s') }
        ensures same { self.new.sid ≡ self.old.sid }
    {
        match command {
            Err(error) => self.serve_error(desk, error, out),
            Ok(command) => {
                if is_own(&command) {
                    self.serve_own(desk, command, out)
                } else {
                    self.serve_asked(desk, command, out)
                }
            }
        }
    }

    /// Serves a unit that is this command, which the desk is asked for.
    #[inline(always)]
    fn serve_asked<D: Desk>(
        &mut self,
        desk: &mut D,
        command: Command,
        out: &mut Vec<u8>,
    ) -> AfterUnit
        requires { is_own command ≡ false }
        ensures serves { (path : Nodes) → OnLine D.passes
            (talker_at desk.old path self.old.macros out.old.items)
            (talker_at desk.new path self.new.macros out.new.items)
            (λ s s'. ServesUnit self.old.sid (Ok command) s result s') }
        ensures same { self.new.sid ≡ self.old.sid }
    {
        if lacks_room(&command, out) {
            return self.serve_unread(desk, command, out);
        }
        let answered = has_answers(out);
        let mut answer = SessionAnswer::Stranger;
        ask_command(desk, self.sid, command, answered, &mut answer);
        let after = conclude(desk, self.sid, &mut answer, out);
        drop(answer);
        after
    }

    /// Serves a unit that is this command. There is no memory for its answer, so that nothing is read out.
    #[inline(never)]
    fn serve_unread<D: Desk>(
        &mut self,
        desk: &mut D,
        command: Command,
        out: &mut Vec<u8>,
    ) -> AfterUnit
        requires { reads_out command ≡ true }
        ensures serves { (path : Nodes) → OnLine D.passes
            (talker_at desk.old path self.old.macros out.old.items)
            (talker_at desk.new path self.new.macros out.new.items)
            (λ s s'. ServesUnit self.old.sid (Ok command) s result s') }
        ensures same { self.new.sid ≡ self.old.sid }
    {
        drop(command);
        let mut answer = queue(desk, self.sid, ScpiError::OutOfMemory);
        let after = conclude(desk, self.sid, &mut answer, out);
        drop(answer);
        after
    }

    /// Serves a unit that is this command, one of the session's own.
    #[inline(never)]
    fn serve_own<D: Desk>(&mut self, desk: &mut D, command: Command, out: &mut Vec<u8>) -> AfterUnit
        ensures serves { (path : Nodes) → OnLine D.passes
            (talker_at desk.old path self.old.macros out.old.items)
            (talker_at desk.new path self.new.macros out.new.items)
            (λ s s'. ServesUnit self.old.sid (Ok command) s result s') }
        ensures same { self.new.sid ≡ self.old.sid }
    {
        let answered = has_answers(out);
        let answer = carry_out(
            desk,
            self.sid,
            self.alloc,
            &mut self.macros,
            command,
            answered,
        );
        let mut answer = answer;
        let after = conclude(desk, self.sid, &mut answer, out);
        drop(answer);
        after
    }

    /// Serves a unit that is refused by this error.
    #[inline(never)]
    fn serve_error<D: Desk>(
        &mut self,
        desk: &mut D,
        error: ScpiError,
        out: &mut Vec<u8>,
    ) -> AfterUnit
        ensures serves { (path : Nodes) → OnLine D.passes
            (talker_at desk.old path self.old.macros out.old.items)
            (talker_at desk.new path self.new.macros out.new.items)
            (λ s s'. ServesUnit self.old.sid (Err error) s result s') }
        ensures same { self.new.sid ≡ self.old.sid }
    {
        let mut answer = queue(desk, self.sid, error);
        let after = conclude(desk, self.sid, &mut answer, out);
        drop(answer);
        after
    }
}

/// How a unit of a text is talked over.
trait Way {
    ghost use Rattle.std.specs.Prelude.{◌≡◌};
    ghost use Rattle.sw_lex.specs.Unit.{unit_of};
    ghost use Rattle.sw_lex.specs.Meaning.{path_of};
    ghost use Rattle.sw_core.specs.declared.ask.Sid.{Sid};
    ghost use Rattle.sw_talk.specs.Talk.{OnLine, talker_at, Way};

    /// The way by its definition.
    ghost way: { Sid → Way };

    /// Talks over one unit, below this path.
    fn unit<D: Desk>(
        talker: &mut Talker,
        desk: &mut D,
        unit: &RawUnit<'_>,
        path: &mut Path,
        out: &mut Vec<u8>,
    ) -> AfterUnit
        ensures unit { OnLine D.passes
            (talker_at desk.old (path_of path.old) talker.old.macros out.old.items)
            (talker_at desk.new (path_of path.new) talker.new.macros out.new.items)
            (λ s s'. way talker.old.sid (unit_of unit.now) s result s') }
        ensures same { talker.new.sid ≡ talker.old.sid };
}

/// The way of a message's units: a unit that calls a macro is its expansion, any other is itself.
struct ByExpansion;

impl Way for ByExpansion {
    ghost way = { Expanded };

    fn unit<D: Desk>(
        talker: &mut Talker,
        desk: &mut D,
        unit: &RawUnit<'_>,
        path: &mut Path,
        out: &mut Vec<u8>,
    ) -> AfterUnit {
        match talker
            .macros
            .expand(talker.alloc, unit, &mut talker.expansion)
        {
            Ok(is_replaced) => {
                if is_replaced {
                    talker.talk_expansion(desk, path, out)
                } else {
                    talker.unit(desk, unit, path, out)
                }
            }
            Err(error) => talker.serve_error(desk, error, out),
        }
    }
}

/// The way of an expansion's units: each is itself.
struct ByItself;

impl Way for ByItself {
    ghost way = { Itself };

    fn unit<D: Desk>(
        talker: &mut Talker,
        desk: &mut D,
        unit: &RawUnit<'_>,
        path: &mut Path,
        out: &mut Vec<u8>,
    ) -> AfterUnit {
        talker.unit(desk, unit, path, out)
    }
}

/// The message without the line feed at its end.
fn without_line_feed(text: &[u8]) -> &[u8]
    ensures { result.now ≡ strip_last 10 text.now }
{
    match text {
        [front @ .., b'\n'] => front,
        _ => text,
    }
}

/// How a message continues after a unit.
#[derive(Clone, Copy, Debug, PartialEq, Eq)]
pub enum AfterUnit {
    /// With the next unit.
    Goes,
    /// The rest is dropped; the answers given are written.
    Drops,
    /// The session is being cleared, is none any more, or nothing more can be numbered: the rest is dropped, and
    /// nothing is written.
    Ends,
}

/// Whether the session lasts, as far as the desk's answers tell.
fn lasts(after: AfterUnit) -> bool
    ensures { result ≡ lasts_after after }
{
    matches!(after, AfterUnit::Goes | AfterUnit::Drops)
}

/// Whether anything was answered.
fn has_answers(out: &[u8]) -> bool
    ensures { TellsAnswered out.now result }
{
    !out.is_empty()
}

/// Whether a command reads out what is then gone, and there is no memory for its answer.
#[inline(always)]
fn lacks_room(command: &Command, out: &mut Vec<u8>) -> bool
    ensures reads { result ≡ true → reads_out command.now ≡ true }
    ensures same { out.new.items ≡ out.old.items }
    ensures room { result ≡ false → reads_out command.now ≡ true → length out.new.items + 64 ≤ vec_capacity out.new }
{
    reads_out(command) && make_room(out).is_err()
}

/// Takes the text out of a unit's answer, and adds it to those that are written. Where there is no room or no memory
/// for it, it drops it and queues that error.
#[inline(always)]
fn conclude<D: Desk>(
    desk: &mut D,
    sid: Sid,
    answer: &mut SessionAnswer,
    out: &mut Vec<u8>,
) -> AfterUnit
    ensures { (path : Nodes) (macros : Table) → ConcludesLine D.passes sid answer.old
        (talker_at desk.old path macros out.old.items) result (talker_at desk.new path macros out.new.items) }
{
    match answer {
        SessionAnswer::Done(told) => match told.take() {
            None => AfterUnit::Goes,
            Some(text) => match join(out, text) {
                Ok(()) => AfterUnit::Goes,
                Err(_) => go_on(queue(desk, sid, ScpiError::OutOfMemory)),
            },
        },
        answer => after_unit(answer),
    }
}

/// How a message continues after an answer, which is dropped.
#[inline(never)]
fn go_on(answer: SessionAnswer) -> AfterUnit
    ensures { result ≡ after_unit answer }
{
    let after = after_unit(&answer);
    drop(answer);
    after
}

/// How a message continues after an answer.
fn after_unit(answer: &SessionAnswer) -> AfterUnit
    ensures { result ≡ after_unit answer.now }
{
    match answer {
        SessionAnswer::Done(_) => AfterUnit::Goes,
        SessionAnswer::Refused(error) if is_command_error(*error) => AfterUnit::Drops,
        SessionAnswer::Refused(_) => AfterUnit::Goes,
        _ => AfterUnit::Ends,
    }
}

/// Whether an error is one from -100 to -199, which drops the rest of its message.
fn is_command_error(error: ScpiError) -> bool
    ensures { result ≡ is_command_error error }
{
    (-199..=-100).contains(&error.code())
}
