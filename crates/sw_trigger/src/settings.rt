//! The settings of a scan, each kept in its range.

ghost use Rattle.std.specs.Prelude.{◌≡◌, ◌%◌, ◌<◌, ◌≤◌, ◌↔◌, [], length, IsOk, IsTrue, IfOk, IfErr, OnOk, OnErr};
ghost use Rattle.sw_base.specs.declared.error.ScpiError.TheVariants.{DataOutOfRange, TooMuchData};
ghost use Rattle.sw_base.specs.Limits.{most_slots, most_entries, most_points, longest_delay};
ghost use Rattle.sw_trigger.specs.Settings.{IsInRange, IsLayer, layer_of, with_layer, most_of, at_reset};
ghost use Rattle.sw_trigger.specs.Agenda.{position_at, used_of};

use crate::layer::Layer;
use std::alloc::{AllocError, Global};
use std::marker::Model;
use sw_base::{
    ARM_COUNT, ARM_LAYERS, LIST_ENTRIES, LONGEST_DELAY, LayerName, POINTS, SLOTS, ScpiError,
    Source, TRIGGER_COUNT,
};
use sw_channel::Position;

/// What a scan does: the layers of the trigger model, a list of positions, how long each settles, the slot of its meter
/// and its room for readings.
///
/// Contracts see a plain record. Counts are 1 to `ARM_COUNT` for an ARM layer and 1 to `TRIGGER_COUNT` for TRIGger,
/// delays at most an hour, timers 1 microsecond to an hour, the meter's slot 1 to `SLOTS`, the points 1 to `POINTS`,
/// a position settles for an hour at most, and the list has at most `LIST_ENTRIES` positions.
#[derive(Debug, Drop)]
pub struct Settings {
    /// The ARM layers, the outermost first.
    arms: [Layer; ARMS],
    trigger: Layer,
    list: Vec<Position>,
    meter: u8,
    points: u32,
    /// Microseconds between the closing of a position and its reading, 0 for no pause.
    settle_us: u64,
}

impl Model for Settings {
    ghost use Rattle.sw_trigger.specs.Settings.{SettingsSeen};

    ghost Value = { SettingsSeen };

    ghost use Rattle.sw_trigger.specs.Seen.{setup_of, HoldsRange};

    ghost view = { setup_of };

    ghost invariant = { HoldsRange };
}

impl Settings {
    /// The settings at `*RST`: each layer once and at once, nothing listed, the meter in slot 4, 1,000 points, no time
    /// to settle.
    pub fn new(alloc: Global) -> Settings
        ensures { result ≡ at_reset }
    {
        Settings {
            arms: [PLAIN; ARMS],
            trigger: PLAIN,
            list: Vec::new(alloc),
            meter: 4,
            points: 1000,
            settle_us: 0,
        }
    }

    /// Back to the settings at `*RST`.
    pub fn reset(&mut self)
        ensures { self.new ≡ at_reset }
    {
        self.arms = [PLAIN; ARMS];
        self.trigger = PLAIN;
        self.list.clear();
        self.meter = 4;
        self.points = 1000;
        self.settle_us = 0;
    }

    /// Sets a layer's count; -222 outside its range.
    pub fn set_count(&mut self, name: LayerName, count: u32) -> Result<(), ScpiError>
        ensures taken { IsOk result ↔ (1 ≤ count) × (count ≤ most_of name) }
        ensures set { OnOk result (self.new
            ≡ with_layer self.old name (record (layer_of self.old name) { count = count })) }
        ensures kept { OnErr result (self.new ≡ self.old) }
        ensures error { IfErr result (λ e. e ≡ DataOutOfRange) }
    {
        if count < 1 || count > most(name) {
            return Err(ScpiError::DataOutOfRange);
        }
        let layer = self.layer(name);
        self.put(name, Layer { count, ..layer });
        Ok(())
    }

    /// Sets where a layer's wait takes its trigger from.
    pub fn set_source(&mut self, name: LayerName, source: Source)
        ensures { self.new ≡ with_layer self.old name (record (layer_of self.old name) { source = source }) }
    {
        let layer = self.layer(name);
        self.put(name, Layer { source, ..layer });
    }

    /// Sets a layer's delay, in microseconds; -222 above an hour.
    pub fn set_delay(&mut self, name: LayerName, delay_us: u64) -> Result<(), ScpiError>
        ensures taken { IsOk result ↔ (delay_us ≤ longest_delay) }
        ensures set { OnOk result (self.new
            ≡ with_layer self.old name (record (layer_of self.old name) { delay_us = delay_us })) }
        ensures kept { OnErr result (self.new ≡ self.old) }
        ensures error { IfErr result (λ e. e ≡ DataOutOfRange) }
    {
        if delay_us > LONGEST_DELAY {
            return Err(ScpiError::DataOutOfRange);
        }
        let layer = self.layer(name);
        self.put(name, Layer { delay_us, ..layer });
        Ok(())
    }

    /// Sets how long the wait of a layer with source Timer lasts, in microseconds; -222 for none or above an hour.
    pub fn set_timer(&mut self, name: LayerName, timer_us: u64) -> Result<(), ScpiError>
        ensures taken { IsOk result ↔ (1 ≤ timer_us) × (timer_us ≤ longest_delay) }
        ensures set { OnOk result (self.new
            ≡ with_layer self.old name (record (layer_of self.old name) { timer_us = timer_us })) }
        ensures kept { OnErr result (self.new ≡ self.old) }
        ensures error { IfErr result (λ e. e ≡ DataOutOfRange) }
    {
        if timer_us < 1 || timer_us > LONGEST_DELAY {
            return Err(ScpiError::DataOutOfRange);
        }
        let layer = self.layer(name);
        self.put(name, Layer { timer_us, ..layer });
        Ok(())
    }

    /// Sets the list of positions; their channels need not exist; -223 for more than `LIST_ENTRIES`, which keeps the
    /// old list.
    pub fn set_list(&mut self, list: Vec<Position>) -> Result<(), ScpiError>
        ensures taken { IsOk result ↔ (length list.items ≤ most_entries) }
        ensures set { OnOk result (self.new ≡ record self.old { list = list.items }) }
        ensures kept { OnErr result (self.new ≡ self.old) }
        ensures error { IfErr result (λ e. e ≡ TooMuchData) }
    {
        if list.len() > LIST_ENTRIES {
            return Err(ScpiError::TooMuchData);
        }
        self.list = list;
        Ok(())
    }

    /// Sets the slot of the meter; -222 outside 1 to `SLOTS`.
    pub fn set_meter(&mut self, slot: u8) -> Result<(), ScpiError>
        ensures taken { IsOk result ↔ (1 ≤ slot) × (slot ≤ most_slots) }
        ensures set { OnOk result (self.new ≡ record self.old { meter = slot }) }
        ensures kept { OnErr result (self.new ≡ self.old) }
        ensures error { IfErr result (λ e. e ≡ DataOutOfRange) }
    {
        if slot < 1 || slot > SLOTS {
            return Err(ScpiError::DataOutOfRange);
        }
        self.meter = slot;
        Ok(())
    }

    /// Sets the room for readings; -222 outside 1 to 100,000.
    pub fn set_points(&mut self, points: u32) -> Result<(), ScpiError>
        ensures taken { IsOk result ↔ (1 ≤ points) × (points ≤ most_points) }
        ensures set { OnOk result (self.new ≡ record self.old { points = points }) }
        ensures kept { OnErr result (self.new ≡ self.old) }
        ensures error { IfErr result (λ e. e ≡ DataOutOfRange) }
    {
        if points < 1 || points > POINTS {
            return Err(ScpiError::DataOutOfRange);
        }
        self.points = points;
        Ok(())
    }

    /// Sets how long a position settles between its closing and its reading, in microseconds; -222 above an hour.
    pub fn set_settling(&mut self, settle_us: u64) -> Result<(), ScpiError>
        ensures taken { IsOk result ↔ (settle_us ≤ longest_delay) }
        ensures set { OnOk result (self.new ≡ record self.old { settle_us = settle_us }) }
        ensures kept { OnErr result (self.new ≡ self.old) }
        ensures error { IfErr result (λ e. e ≡ DataOutOfRange) }
    {
        if settle_us > LONGEST_DELAY {
            return Err(ScpiError::DataOutOfRange);
        }
        self.settle_us = settle_us;
        Ok(())
    }

    /// A layer's settings.
    pub fn layer(&self, name: LayerName) -> Layer
        ensures layer { result ≡ layer_of self.now name }
        ensures range { IsInRange self.now }
    {
        match name {
            LayerName::Arm(arm) => self.arms[usize::from(arm.number()) - 1],
            LayerName::Trigger => self.trigger,
        }
    }

    /// The positions, in the order of the scan.
    pub fn list(&self) -> &[Position]
        ensures list { result.now ≡ self.now.list }
        ensures range { IsInRange self.now }
    {
        self.list.as_slice()
    }

    /// The entries that a scan uses: the first ones, as many as TRIGger's count.
    pub fn used(&self) -> &[Position]
        ensures { result.now ≡ used_of self.now }
    {
        let count = self.trigger.count as usize;
        if count < self.list.len() {
            &self.list[..count]
        } else {
            self.list.as_slice()
        }
    }

    /// The position of TRIGger's pass number `k`, from 0.
    pub fn position(&self, k: u32) -> Position
        requires listed { 0 < length self.now.list }
        ensures { result ≡ position_at self.now.list k }
    {
        self.list[k as usize % self.list.len()]
    }

    /// The slot of the meter.
    pub fn meter(&self) -> u8
        ensures { result ≡ self.now.meter }
    {
        self.meter
    }

    /// How many readings there is room for.
    pub fn points(&self) -> u32
        ensures points { result ≡ self.now.points }
        ensures range { IsInRange self.now }
    {
        self.points
    }

    /// How long a position settles between its closing and its reading, in microseconds; 0 for no pause.
    pub fn settle_us(&self) -> u64
        ensures settle { result ≡ self.now.settle_us }
        ensures range { IsInRange self.now }
    {
        self.settle_us
    }

    /// A copy of the settings.
    pub fn try_copy(&self, alloc: Global) -> Result<Settings, AllocError>
        ensures { IfOk result (λ copy. copy ≡ self.now) }
    {
        let list = self.list.as_slice().to_vec(alloc)?;
        Ok(Settings {
            arms: self.arms,
            trigger: self.trigger,
            list,
            meter: self.meter,
            points: self.points,
            settle_us: self.settle_us,
        })
    }

    /// Whether the two have the same value in each setting.
    pub fn is_same(&self, other: &Settings) -> bool
        ensures { IsTrue result ↔ (self.now ≡ other.now) }
    {
        if self.arms != other.arms || self.trigger != other.trigger {
            return false;
        }
        if self.meter != other.meter || self.points != other.points {
            return false;
        }
        if self.settle_us != other.settle_us {
            return false;
        }
        self.list.as_slice() == other.list.as_slice()
    }

    fn put(&mut self, name: LayerName, layer: Layer)
        requires { IsLayer (most_of name) layer }
        ensures { self.new ≡ with_layer self.old name layer }
    {
        match name {
            LayerName::Arm(arm) => self.arms[usize::from(arm.number()) - 1] = layer,
            LayerName::Trigger => self.trigger = layer,
        }
    }
}

/// How many ARM layers there are.
const ARMS: usize = ARM_LAYERS as usize;

/// A layer at `*RST`: once, at once, and a second for its timer.
const PLAIN: Layer = Layer {
    count: 1,
    source: Source::Immediate,
    delay_us: 0,
    timer_us: 1_000_000,
};

/// The greatest count of a layer.
fn most(name: LayerName) -> u32
    ensures { result ≡ most_of name }
{
    match name {
        LayerName::Arm(_) => ARM_COUNT,
        LayerName::Trigger => TRIGGER_COUNT,
    }
}
