//! The registers of one status group.

ghost use Rattle.std.specs.Prelude.{◌≡◌, ◌<◌, ◌^◌, ◌↔◌, IsTrue};
ghost use Rattle.sw_status.specs.Registers.{first_group, event_taken, with_enable, with_ptr, with_ntr, group_preset};
ghost use Rattle.sw_status.specs.Registers.{group_summary, group_conditioned, IsGroup};

use std::marker::Model;
use std::mem;

/// Bit 15 of a group's registers is always 0 (SCPI-1999, 20).
const LOW_15: u16 = 0x7fff;

/// Condition, transition filters, event and enable registers of a group (SCPI-1999, 20).
#[derive(Debug, Drop)]
pub struct Group {
    condition: u16,
    event: u16,
    enable: u16,
    ptr: u16,
    ntr: u16,
}

impl Model for Group {
    ghost use Rattle.sw_status.specs.Registers.{GroupSeen, IsGroup};

    ghost Value = { GroupSeen };

    ghost view = { λ g. record {
      condition = g.condition;
      event = g.event;
      enable = g.enable;
      ptr = g.ptr;
      ntr = g.ntr;
    } };

    ghost invariant = { λ g. IsGroup (record {
      condition = g.condition;
      event = g.event;
      enable = g.enable;
      ptr = g.ptr;
      ntr = g.ntr;
    }) };
}

impl Group {
    /// A group at the start: no condition, no event, nothing enabled, and each bit that rises is an event.
    pub fn new() -> Group
        ensures { result ≡ first_group }
    {
        Group {
            condition: 0,
            event: 0,
            enable: 0,
            ptr: LOW_15,
            ntr: 0,
        }
    }

    /// The condition register.
    pub fn condition(&self) -> u16
        ensures { result ≡ self.now.condition }
    {
        self.condition
    }

    /// The event register, which stays as it is.
    pub fn event(&self) -> u16
        ensures { result ≡ self.now.event }
    {
        self.event
    }

    /// The enable register.
    pub fn enable(&self) -> u16
        ensures { result ≡ self.now.enable }
    {
        self.enable
    }

    /// The positive transition filter.
    pub fn ptr(&self) -> u16
        ensures { result ≡ self.now.ptr }
    {
        self.ptr
    }

    /// The negative transition filter.
    pub fn ntr(&self) -> u16
        ensures { result ≡ self.now.ntr }
    {
        self.ntr
    }

    /// Whether an event is set and enabled. Of every group bit 15 of each register is 0.
    #[inline]
    pub fn summary(&self) -> bool
        ensures value { result ≡ group_summary self.now }
        ensures limits { IsGroup self.now }
    {
        self.event & self.enable != 0
    }

    /// Reads the event register and clears it.
    pub fn take_event(&mut self) -> u16
        ensures event { result ≡ self.old.event }
        ensures rest { self.new ≡ event_taken self.old }
    {
        mem::replace(&mut self.event, 0)
    }

    /// Sets the enable register; bit 15 is dropped.
    pub fn set_enable(&mut self, bits: u16)
        ensures { self.new ≡ with_enable self.old bits }
    {
        self.enable = bits & LOW_15;
    }

    /// Sets the positive transition filter; bit 15 is dropped.
    pub fn set_ptr(&mut self, bits: u16)
        ensures { self.new ≡ with_ptr self.old bits }
    {
        self.ptr = bits & LOW_15;
    }

    /// Sets the negative transition filter; bit 15 is dropped.
    pub fn set_ntr(&mut self, bits: u16)
        ensures { self.new ≡ with_ntr self.old bits }
    {
        self.ntr = bits & LOW_15;
    }

    /// Makes these bits the condition, bit 15 dropped; what rises or falls sets its event where the filters let it.
    pub fn set_condition(&mut self, bits: u16)
        ensures { self.new ≡ group_conditioned self.old bits }
    {
        let old = self.condition;
        let new = bits & LOW_15;
        let passed = (!old & new & self.ptr) | (old & !new & self.ntr);
        let event = self.event | passed;
        set(&mut self.event, event);
        set(&mut self.condition, new);
    }

    /// STATus:PRESet of this group.
    pub fn preset(&mut self)
        ensures { self.new ≡ group_preset self.old }
    {
        self.enable = 0;
        self.ptr = LOW_15;
        self.ntr = 0;
    }
}

/// Sets a register where it holds something else: a mainframe that is shared writes no memory for nothing.
#[inline(always)]
fn set(register: &mut u16, bits: u16)
    ensures { register.new ≡ bits }
{
    if *register != bits {
        *register = bits;
    }
}
