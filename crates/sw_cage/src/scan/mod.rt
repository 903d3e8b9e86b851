//! A scan that runs: its code, and its place in it.

ghost use Rattle.std.specs.Prelude.{◌≡◌, ◌+◌, ◌<◌, ◌≤◌, drop, length, ◌↔◌, IsTrue, Some};
ghost use Rattle.sw_verify.specs.Course.{source_at};
ghost use Rattle.sw_base.specs.Limits.{most_slots};
ghost use Rattle.sw_cage.specs.Advance.{awaits};
ghost use Rattle.sw_cage.specs.Cage.{ticket_of};
ghost use Rattle.sw_cage.specs.Steps.{next_move};
ghost use Rattle.sw_cage.specs.Takes.{TakesIf, TakesWait, TakesPeriod, TakesPause, AwaitsReturn, awaited_after};

pub(crate) mod machine;
mod steps;
pub(crate) mod tickets;

use self::steps::{Move, ScanPlace, awaited, first, go_past, next_move};
use crate::job::Ticket;
use crate::taken::Happening;
use std::marker::Model;
use sw_base::{LayerName, Source};
use sw_code::Code;
use sw_trigger::Awaited;
use sw_verify::{Course, Sources};

/// A scan that runs.
///
/// Contracts see its course and which of its items it awaits, and not the steps that lead there.
#[derive(Drop)]
pub(crate) struct Scan {
    code: Code,
    sources: Sources,
    points: u32,
    at: ScanPlace,
    index: u64,
}

impl Model for Scan {
    ghost use Rattle.sw_cage.specs.Cage.{ScanSeen};

    ghost Value = { ScanSeen };

    ghost use Rattle.sw_cage.specs.ScanPlace.{scan_seen, IsPlaced};

    ghost view = { scan_seen };

    ghost invariant = { IsPlaced };
}

impl Scan {
    /// A scan before its first item.
    pub(crate) fn begin(course: Course) -> Scan
        ensures scan { result ≡ record { course = course; index = 0 } }
        ensures slot_in { (1 ≤ course.meter) × (course.meter ≤ most_slots) }
    {
        let (code, sources, points) = course.into_parts();
        let at = first(code.steps());
        Scan {
            code,
            sources,
            points,
            at,
            index: 0,
        }
    }

    /// What the scan awaits; nothing, where it moves relays, or is over.
    #[inline(always)]
    pub(crate) fn awaited(&self) -> Option<Awaited>
        ensures { result ≡ awaits self.now }
    {
        awaited(self.code.steps(), &self.at)
    }

    /// What the scan awaits right after what it awaits now; nothing, where it moves relays first, or is over.
    pub(crate) fn awaited_after(&self) -> Option<Awaited>
        ensures { result ≡ awaited_after (Some self.now) }
    {
        self.awaited()?;
        let mut at = self.at;
        go_past(self.code.steps(), &mut at);
        awaited(self.code.steps(), &at)
    }

    /// What the scan opens or closes next; nothing, where it awaits something or is over.
    #[inline(always)]
    pub(crate) fn next_move(&self) -> Option<Move>
        ensures { result ≡ next_move (drop self.now.index self.now.course.items) }
    {
        next_move(self.code.steps(), &self.at)
    }

    /// Goes past the item at the scan's place.
    #[inline(always)]
    pub(crate) fn go_past(&mut self)
        requires { self.old.index < length self.old.course.items }
        ensures { self.new ≡ record self.old { index = self.old.index + 1 } }
    {
        go_past(self.code.steps(), &mut self.at);
        self.index += 1;
    }

    /// Whether the scan, of this number, takes the happening.
    #[inline(always)]
    pub(crate) fn takes(&self, number: u64, happening: Happening) -> bool
        ensures { IsTrue result ↔ TakesIf self.now.course (ticket_of number self.now) (awaits self.now) happening }
    {
        let present = Ticket {
            scan: number,
            index: self.index,
        };
        match self.awaited() {
            Some(Awaited::Wait(name)) => return self.wait_takes(name, happening),
            Some(Awaited::Period(name, _)) => return period_takes(present, name, happening),
            Some(Awaited::Pause(_)) => return pause_takes(present, happening),
            Some(Awaited::Read) => return false,
            None => return false,
        }
    }

    /// Whether a wait of the layer takes the happening.
    fn wait_takes(&self, name: LayerName, happening: Happening) -> bool
        ensures { IsTrue result ↔ TakesWait self.now.course name happening }
    {
        match happening {
            Happening::Bus => return self.source(name) == Source::Bus,
            Happening::External => return self.source(name) == Source::External,
            Happening::Signal(signalled) => return name == signalled,
            Happening::Elapsed(_) => return false,
        }
    }

    /// Whether the scan, of this number, awaits the return of the slot's meter under the ticket.
    #[inline(always)]
    pub(crate) fn takes_return(&self, number: u64, slot: u8, ticket: Ticket) -> bool
        ensures { IsTrue result ↔ AwaitsReturn number self.now slot ticket }
    {
        let present = Ticket {
            scan: number,
            index: self.index,
        };
        match self.awaited() {
            Some(Awaited::Read) => return self.meter() == slot && present.is_same(ticket),
            _ => return false,
        }
    }

    /// Which of its items the scan awaits.
    #[inline(always)]
    pub(crate) fn index(&self) -> u64
        ensures { result ≡ self.now.index }
    {
        self.index
    }

    /// The slot of the scan's meter.
    #[inline(always)]
    pub(crate) fn meter(&self) -> u8
        ensures { result ≡ self.now.course.meter }
    {
        self.code.meter()
    }

    /// Where the layer's wait takes its trigger from.
    pub(crate) fn source(&self, name: LayerName) -> Source
        ensures { result ≡ source_at self.now.course.sources name }
    {
        self.sources.source(name)
    }
}

/// Whether a pause under the present ticket takes the happening.
fn pause_takes(present: Ticket, happening: Happening) -> bool
    ensures { IsTrue result ↔ TakesPause present happening }
{
    match happening {
        Happening::Elapsed(ticket) => return present.is_same(ticket),
        _ => return false,
    }
}

/// Whether a layer's timer under the present ticket takes the happening.
fn period_takes(present: Ticket, name: LayerName, happening: Happening) -> bool
    ensures { IsTrue result ↔ TakesPeriod present name happening }
{
    match happening {
        Happening::Signal(layer) => return name == layer,
        _ => return pause_takes(present, happening),
    }
}
