//! The status that all sessions share.

ghost use Rattle.std.specs.Prelude.{◌≡◌, ◌<◌, ◌≤◌, ◌^◌, ◌++◌, ◌∷◌, [], length, slice_get, IfOk};
ghost use Rattle.sw_base.specs.Limits.{most_errors};
ghost use Rattle.sw_status.specs.Registers.{group_conditioned, event_taken, with_enable, with_ptr, with_ntr};
ghost use Rattle.sw_status.specs.StatusModel.{first_status, pushed, popped, cleared, preset, enabled, registers_of};
ghost use Rattle.sw_status.specs.StatusModel.{with_group, with_bit, summary_of, byte_of, event_ended, counted_of};
ghost use Rattle.sw_status.specs.StatusModel.{asking_of, flag_of, IsStatus};

use crate::group::Group;
use std::alloc::{AllocError, Global};
use std::marker::Model;
use std::mem;
use sw_base::{QUEUED_ERRORS, ScpiError, StatusGroup};

/// The greatest count of service requests, which it keeps.
const MOST_REQUESTS: u64 = 0xff_ffff_ffff_ffff;

/// Bit 7 of the event status register: the power came on.
const POWER_ON: u8 = 0x80;

/// Error queue, event status register, both groups, service request enable and the count of service requests.
///
/// Contracts see a `StatusSeen`.
#[derive(Debug, Drop)]
pub struct Status {
    errors: Vec<ScpiError>,
    esr: u8,
    ese: u8,
    sre: u8,
    operation: Group,
    questionable: Group,
    asking: u8,
    requests: u64,
}

impl Model for Status {
    ghost use Rattle.std.specs.Prelude.{◌≤◌, ◌<◌, ◌^◌, vec_len, vec_capacity};
    ghost use Rattle.sw_base.specs.Limits.{most_errors};
    ghost use Rattle.sw_status.specs.StatusModel.{StatusSeen};

    ghost Value = { StatusSeen };

    ghost view = { λ s. record {
      errors = s.errors.items;
      esr = s.esr;
      ese = s.ese;
      sre = s.sre;
      operation = s.operation;
      questionable = s.questionable;
      asking = s.asking;
      requests = s.requests;
    } };

    ghost invariant = { λ s.
        (most_errors ≤ vec_capacity s.errors) × (vec_len s.errors ≤ most_errors) × (s.requests < 2 ^ 56) };
}

impl Status {
    /// The status at the start, with room for 32 errors.
    pub fn new(alloc: Global) -> Result<Status, AllocError>
        ensures { IfOk result (λ s. s ≡ first_status) }
    {
        Ok(Status {
            errors: Vec::with_capacity(alloc, QUEUED_ERRORS)?,
            esr: POWER_ON,
            ese: 0,
            sre: 0,
            operation: Group::new(),
            questionable: Group::new(),
            asking: 0,
            requests: 0,
        })
    }

    /// A law: every status has at most 32 errors, fewer than 2^56 requests, and in each group's registers bit 15 is 0.
    ///
    /// It gives a caller what holds of a status of any history.
    pub fn keeps_its_limits(&self)
        ensures { IsStatus self.now }
    {
        let _ = self.summary();
    }

    /// Queues an error and sets its event bit. Where the queue is full, the newest entry becomes -350, and both errors
    /// set their bits.
    #[tactic(auto, unfolding(crate::specs::StatusModel::queued, crate::specs::StatusModel::marked))]
    pub fn push_error(&mut self, error: ScpiError)
        ensures { self.new ≡ pushed self.old error }
    {
        self.esr |= 1 << error.event_bit();
        if self.errors.len() < QUEUED_ERRORS {
            self.errors.push_reserved(error);
        } else {
            self.esr |= 1 << ScpiError::QueueOverflow.event_bit();
            self.errors.truncate(QUEUED_ERRORS - 1);
            self.errors.push_reserved(ScpiError::QueueOverflow);
        }
    }

    /// Takes the oldest error out of the queue.
    pub fn pop_error(&mut self) -> Option<ScpiError>
        ensures error { result ≡ slice_get self.old.errors 0 }
        ensures rest { self.new ≡ popped self.old }
    {
        if self.errors.is_empty() {
            None
        } else {
            Some(self.errors.remove(0))
        }
    }

    /// The queue, the oldest error first.
    pub fn all_errors(&self) -> &[ScpiError]
        ensures value { result.now ≡ self.now.errors }
        ensures most { length result.now ≤ most_errors }
    {
        self.errors.as_slice()
    }

    /// Empties the queue, as SYSTem:ERRor:ALL? does once it was read.
    pub fn clear_errors(&mut self)
        ensures { self.new ≡ record self.old { errors = [] } }
    {
        self.errors.clear();
    }

    /// The number of errors in the queue, at most 32.
    pub fn count(&self) -> usize
        ensures value { result ≡ length self.now.errors }
        ensures most { result ≤ most_errors }
    {
        self.errors.len()
    }

    /// *CLS: clears the queue and the event registers.
    pub fn clear(&mut self)
        ensures { self.new ≡ cleared self.old }
    {
        self.clear_errors();
        self.esr = 0;
        let _ = self.operation.take_event();
        let _ = self.questionable.take_event();
    }

    /// STATus:PRESet.
    pub fn preset(&mut self)
        ensures { self.new ≡ preset self.old }
    {
        self.operation.preset();
        self.questionable.preset();
    }

    /// The status byte without bits 4 and 6: bit 2 where the queue has an error, bit 3 for QUEStionable, bit 5 for the
    /// event status register, bit 7 for OPERation (IEEE 488.2, 11.2; SCPI-1999, 20).
    #[inline]
    #[tactic(auto, unfolding(crate::specs::StatusModel::summary_of))]
    pub fn summary(&self) -> u8
        ensures value { result ≡ summary_of self.now }
        ensures range { result ≤ 0xac }
        ensures limits { IsStatus self.now }
    {
        flag(2, !self.errors.is_empty())
            + flag(3, self.questionable.summary())
            + flag(5, self.esr & self.ese != 0)
            + flag(7, self.operation.summary())
    }

    /// The status byte with MSS in bit 6 (IEEE 488.2, 11.2.2); `mav` says whether a message is available.
    #[inline]
    #[tactic(auto, unfolding(crate::specs::StatusModel::byte_of))]
    pub fn byte(&self, mav: bool) -> u8
        ensures { result ≡ byte_of self.now mav }
    {
        let shown = self.summary() + flag(4, mav);
        shown + flag(6, shown & self.sre != 0)
    }

    /// The event status register, which stays as it is.
    pub fn esr(&self) -> u8
        ensures { result ≡ self.now.esr }
    {
        self.esr
    }

    /// Reads the event status register and clears it.
    pub fn read_esr(&mut self) -> u8
        ensures value { result ≡ self.old.esr }
        ensures rest { self.new ≡ record self.old { esr = 0 } }
    {
        mem::replace(&mut self.esr, 0)
    }

    /// Sets bit 0 of the event status register, operation complete.
    pub fn operation_complete(&mut self)
        ensures { self.new ≡ record self.old { esr = with_bit self.old.esr 0 } }
    {
        self.esr |= 1 << 0;
    }

    /// *ESE?
    pub fn ese(&self) -> u8
        ensures { result ≡ self.now.ese }
    {
        self.ese
    }

    /// *ESE: the mask of the event status register.
    pub fn set_ese(&mut self, mask: u8)
        ensures { self.new ≡ record self.old { ese = mask } }
    {
        self.ese = mask;
    }

    /// *SRE?
    pub fn sre(&self) -> u8
        ensures { result ≡ self.now.sre }
    {
        self.sre
    }

    /// *SRE: the mask of the status byte; bit 6 is dropped.
    pub fn set_sre(&mut self, mask: u8)
        ensures { self.new ≡ enabled self.old mask }
    {
        self.sre = mask & !(1 << 6);
    }

    /// The registers of a group.
    pub fn group(&self, which: StatusGroup) -> &Group
        ensures { result.now ≡ registers_of self.now which }
    {
        match which {
            StatusGroup::Operation => &self.operation,
            StatusGroup::Questionable => &self.questionable,
        }
    }

    /// Reads a group's event register and clears it.
    pub fn take_event(&mut self, which: StatusGroup) -> u16
        ensures event { result ≡ (registers_of self.old which).event }
        ensures rest { self.new ≡ with_group self.old which (event_taken (registers_of self.old which)) }
    {
        match which {
            StatusGroup::Operation => self.operation.take_event(),
            StatusGroup::Questionable => self.questionable.take_event(),
        }
    }

    /// Sets a group's enable register; bit 15 is dropped.
    pub fn set_enable(&mut self, which: StatusGroup, bits: u16)
        ensures { self.new ≡ with_group self.old which (with_enable (registers_of self.old which) bits) }
    {
        match which {
            StatusGroup::Operation => self.operation.set_enable(bits),
            StatusGroup::Questionable => self.questionable.set_enable(bits),
        }
    }

    /// Sets a group's positive transition filter; bit 15 is dropped.
    pub fn set_ptr(&mut self, which: StatusGroup, bits: u16)
        ensures { self.new ≡ with_group self.old which (with_ptr (registers_of self.old which) bits) }
    {
        match which {
            StatusGroup::Operation => self.operation.set_ptr(bits),
            StatusGroup::Questionable => self.questionable.set_ptr(bits),
        }
    }

    /// Sets a group's negative transition filter; bit 15 is dropped.
    pub fn set_ntr(&mut self, which: StatusGroup, bits: u16)
        ensures { self.new ≡ with_group self.old which (with_ntr (registers_of self.old which) bits) }
    {
        match which {
            StatusGroup::Operation => self.operation.set_ntr(bits),
            StatusGroup::Questionable => self.questionable.set_ntr(bits),
        }
    }

    /// Makes these bits a group's condition, bit 15 dropped. A bit that rises or falls sets its event bit where
    /// PTRansition or NTRansition has it.
    pub fn set_condition(&mut self, which: StatusGroup, bits: u16)
        ensures { self.new ≡ with_group self.old which (group_conditioned (registers_of self.old which) bits) }
    {
        match which {
            StatusGroup::Operation => self.operation.set_condition(bits),
            StatusGroup::Questionable => self.questionable.set_condition(bits),
        }
    }

    /// The number of service requests so far, which stays at 2^56 - 1.
    #[inline]
    pub fn requests(&self) -> u64
        ensures value { result ≡ self.now.requests }
        ensures range { result < 2 ^ 56 }
    {
        self.requests
    }

    /// Ends an event. A service request arises where a bit of the summary is set and enabled in *SRE, and wasn't both
    /// when the last event ended (own choice). A second call in a row counts none.
    pub fn end_event(&mut self)
        ensures { self.new ≡ event_ended self.old }
    {
        let asking = self.asking_now();
        if asking == self.asking {
            return;
        }
        self.requests = counted(self.requests, self.asking, asking);
        self.asking = asking;
    }

    /// The bits of the summary that are enabled in *SRE. Where none is enabled, the summary isn't made.
    #[inline]
    fn asking_now(&self) -> u8
        ensures { result ≡ asking_of self.now }
    {
        if self.sre == 0 {
            return 0;
        }
        self.summary() & self.sre
    }
}

/// The bit, where it is on.
#[inline]
fn flag(bit: u8, on: bool) -> u8
    requires { bit < 8 }
    ensures { result ≡ flag_of bit on }
{
    if on { 1 << bit } else { 0 }
}

/// The count of service requests after an event before which the bits `before` asked for service, and after it `now`.
#[inline]
#[tactic(auto, using(crate::proofs::Bits::arises_is))]
fn counted(requests: u64, before: u8, now: u8) -> u64
    requires { requests < 2 ^ 56 }
    ensures value { result ≡ counted_of requests before now }
    ensures range { result < 2 ^ 56 }
{
    if now & !before != 0 {
        MOST_REQUESTS.min(requests + 1)
    } else {
        requests
    }
}
