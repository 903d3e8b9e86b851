//! What INITiate would run.

ghost use Rattle.std.specs.Prelude.{◌≡◌, ◌↔◌, IfOk, IfErr, IsTrue, is_some, option_map};
ghost use Rattle.sw_base.specs.declared.error.ScpiError.TheVariants.{SettingsConflict};
ghost use Rattle.sw_verify.specs.Setup.{setup_at_reset, meter_of, bound_of, readings_of, running, kept};
ghost use Rattle.sw_verify.specs.Setup.{switched, CanSwitch};
ghost use Rattle.sw_verify.specs.declared.setup.Loaded.TheVariants.{Nothing, On};

use crate::program::ScanProgram;
use std::alloc::{AllocError, Global};
use std::mem;
use sw_base::ScpiError;
use sw_trigger::Settings;

/// A scan program that was loaded, and whether INITiate runs it.
#[derive(Debug, Drop)]
pub enum Loaded {
    /// None was.
    Nothing,
    /// It is kept; INITiate runs what the settings say.
    Off(ScanProgram),
    /// INITiate runs it in place of what the settings say.
    On(ScanProgram),
}

/// The settings of a scan, and a program that takes the place of what they say where one is on.
#[derive(Debug, Drop)]
pub struct Setup {
    pub scan: Settings,
    pub program: Loaded,
}

impl Loaded {
    /// The program that INITiate runs.
    pub fn running(&self) -> Option<&ScanProgram>
        ensures { option_map (λ p. p.now) result ≡ running self.now }
    {
        match self {
            Loaded::On(program) => Some(program),
            _ => None,
        }
    }

    /// The program, whether it is on or not.
    pub fn kept(&self) -> Option<&ScanProgram>
        ensures { option_map (λ p. p.now) result ≡ kept self.now }
    {
        match self {
            Loaded::On(program) | Loaded::Off(program) => Some(program),
            Loaded::Nothing => None,
        }
    }

    /// A copy of it.
    fn try_copy(&self, alloc: Global) -> Result<Loaded, AllocError>
        ensures { IfOk result (λ copy. copy ≡ self.now) }
    {
        match self {
            Loaded::Nothing => Ok(Loaded::Nothing),
            Loaded::Off(program) => Ok(Loaded::Off(program.try_copy(alloc)?)),
            Loaded::On(program) => Ok(Loaded::On(program.try_copy(alloc)?)),
        }
    }

    /// Whether the two are the same program, both on or both off.
    fn is_same(&self, other: &Loaded) -> bool
        ensures { IsTrue result ↔ (self.now ≡ other.now) }
    {
        match (self, other) {
            (Loaded::Nothing, Loaded::Nothing) => true,
            (Loaded::Off(own), Loaded::Off(their)) => own.is_same(their),
            (Loaded::On(own), Loaded::On(their)) => own.is_same(their),
            _ => false,
        }
    }
}

impl Setup {
    /// The settings at `*RST`, and no program.
    pub fn new(alloc: Global) -> Setup
        ensures { result ≡ setup_at_reset }
    {
        Setup {
            scan: Settings::new(alloc),
            program: Loaded::Nothing,
        }
    }

    /// Back to the settings at `*RST`, and no program.
    pub fn reset(&mut self)
        ensures { self.new ≡ setup_at_reset }
    {
        self.scan.reset();
        self.unload();
    }

    /// Takes a program in place of the one before, and switches it on.
    pub fn load(&mut self, program: ScanProgram)
        ensures { self.new ≡ record self.old { program = On program } }
    {
        self.program = Loaded::On(program);
    }

    /// Lets the program go.
    pub fn unload(&mut self)
        ensures { self.new ≡ record self.old { program = Nothing } }
    {
        self.program = Loaded::Nothing;
    }

    /// Switches the program on or off. With none there is nothing to switch on: -221.
    pub fn switch(&mut self, on: bool) -> Result<(), ScpiError>
        ensures ok { IfOk result (λ u. CanSwitch on self.old × (self.new ≡ switched on self.old)) }
        ensures err { IfErr result (λ e. (CanSwitch on self.old → ⊥) × (e ≡ SettingsConflict) × (self.new ≡ self.old)) }
    {
        match mem::replace(&mut self.program, Loaded::Nothing) {
            Loaded::Nothing if on => Err(ScpiError::SettingsConflict),
            Loaded::Nothing => Ok(()),
            Loaded::Off(program) | Loaded::On(program) => {
                self.program = if on {
                    Loaded::On(program)
                } else {
                    Loaded::Off(program)
                };
                Ok(())
            }
        }
    }

    /// Whether INITiate runs a program.
    pub fn is_programmed(&self) -> bool
        ensures { result ≡ is_some (running self.now.program) }
    {
        matches!(&self.program, Loaded::On(_))
    }

    /// The slot of the meter that reads.
    pub fn meter(&self) -> u8
        ensures { result ≡ meter_of self.now }
    {
        match self.program.running() {
            Some(program) => program.code().meter(),
            None => self.scan.meter(),
        }
    }

    /// How many things a scan awaits.
    pub fn bound(&self) -> u64
        ensures { result ≡ bound_of self.now }
    {
        match self.program.running() {
            Some(program) => program.bound(),
            None => self.scan.bound(),
        }
    }

    /// How many readings a scan makes.
    pub fn readings(&self) -> u64
        ensures { result ≡ readings_of self.now }
    {
        match self.program.running() {
            Some(program) => program.readings(),
            None => self.scan.readings(),
        }
    }

    /// A copy of both.
    pub fn try_copy(&self, alloc: Global) -> Result<Setup, AllocError>
        ensures { IfOk result (λ copy. copy ≡ self.now) }
    {
        let program = self.program.try_copy(alloc)?;
        Ok(Setup {
            scan: self.scan.try_copy(alloc)?,
            program,
        })
    }

    /// Whether the two have the same settings and the same program.
    pub fn is_same(&self, other: &Setup) -> bool
        ensures { IsTrue result ↔ (self.now ≡ other.now) }
    {
        self.scan.is_same(&other.scan) && self.program.is_same(&other.program)
    }
}
