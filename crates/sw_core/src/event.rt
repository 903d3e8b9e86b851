//! The end of an event.

ghost use Rattle.std.specs.Prelude.{◌≡◌};
ghost use Rattle.sw_core.specs.Seen.{answer_seen};
ghost use Rattle.sw_core.specs.Event.{concluded, session_concluded, ended, scan_bits, pause_bits, waiting_bits};

use crate::ask::{Answer, SessionAnswer};
use crate::state::Core;
use sw_base::{LayerName, ScpiError, StatusGroup};
use sw_card::{Meter, Relay};
use sw_trigger::Awaited;

/// OPERation's condition: settling (SCPI-1999, 20.2).
const SETTLING: u16 = 1 << 1;
/// Measuring.
const MEASURING: u16 = 1 << 4;
/// Waiting for TRIGger.
const WAITING_FOR_TRIGGER: u16 = 1 << 5;
/// Waiting for ARM.
const WAITING_FOR_ARM: u16 = 1 << 6;

/// OPERation's condition at a pause after which a scan awaits this.
fn pause_bits(after: Option<Awaited>) -> u16
    ensures { result ≡ pause_bits after }
{
    match after {
        Some(Awaited::Read) => SETTLING,
        _ => 0,
    }
}

/// OPERation's condition where a scan waits at this layer.
fn waiting_bits(name: LayerName) -> u16
    ensures { result ≡ waiting_bits name }
{
    match name {
        LayerName::Trigger => WAITING_FOR_TRIGGER,
        LayerName::Arm(_) => WAITING_FOR_ARM,
    }
}

impl<R: Relay, M: Meter> Core<R, M> {
    /// Queues the error of a refusal, and ends the event. An ask that was no event changes nothing.
    pub(crate) fn end_event(&mut self, answer: &Answer<R, M>)
        ensures ended { self.new.seen ≡ concluded (answer_seen answer.now) self.old.seen }
        ensures cards { self.new.cards ≡ self.old.cards }
    {
        match answer {
            Answer::Session(answer, _) => self.end_session_event(answer),
            Answer::Failed => {
                self.status.push_error(ScpiError::HardwareError);
                self.count_event();
            }
            Answer::Back(_) | Answer::Worn(_) => {}
            _ => self.count_event(),
        }
    }

    /// Queues the error of a session's refusal, and ends the event.
    pub(crate) fn end_session_event(&mut self, answer: &SessionAnswer)
        ensures ended { self.new.seen ≡ session_concluded answer.now self.old.seen }
        ensures cards { self.new.cards ≡ self.old.cards }
    {
        match answer {
            SessionAnswer::Stranger
            | SessionAnswer::Broken
            | SessionAnswer::Hold(_)
            | SessionAnswer::Worn(_) => return,
            SessionAnswer::Refused(error) => self.status.push_error(*error),
            _ => {}
        }
        self.count_event();
    }

    /// `*OPC` completes where no scan runs, OPERation shows what the scan awaits, a service request arises or not, and
    /// the mainframe counts the event.
    pub(crate) fn count_event(&mut self)
        ensures ended { self.new.seen ≡ ended self.old.seen }
        ensures cards { self.new.cards ≡ self.old.cards }
    {
        let running = self.cage.is_running();
        if self.opc_waits && !running {
            self.status.operation_complete();
            self.opc_waits = false;
        }
        let bits = self.scan_bits();
        self.status.set_condition(StatusGroup::Operation, bits);
        self.status.end_event();
        self.events = self.events.saturating_add(1);
    }

    /// OPERation's condition by the scan that runs, if any.
    fn scan_bits(&self) -> u16
        ensures { result ≡ scan_bits self.now.seen.cage.scan }
    {
        match self.cage.awaited() {
            Some(Awaited::Read) => MEASURING,
            Some(Awaited::Wait(name) | Awaited::Period(name, _)) => waiting_bits(name),
            Some(Awaited::Pause(_)) => pause_bits(self.cage.awaited_after()),
            None => 0,
        }
    }
}
