//! The bound, the readings and the n-th awaited item of a scan's settings, by multiplication and division.

ghost use Rattle.std.specs.Prelude.{◌≡◌, ◌≢◌, ◌<◌, ◌≤◌, ◌+◌, ◌*◌, ◌^◌, ◌↔◌, ◌∷◌, [], List, length, Some, IsNone};
ghost use Rattle.std.specs.List.{slice_get};
ghost use Rattle.sw_base.specs.declared.terms.Source.TheVariants.{Immediate};
ghost use Rattle.sw_trigger.specs.declared.layer.Awaited.{Awaited as Await};
ghost use Rattle.sw_trigger.specs.Agenda.{agenda, head_of, wait_of};
ghost use Rattle.sw_base.specs.Limits.{most_arm_layers, most_trigger_count};
ghost use Rattle.sw_trigger.specs.Counts.{awaiting, bound_of, readings_of, in_turns, in_arms, in_passes, in_visit};
ghost use Rattle.sw_trigger.specs.Counts.{times, most_awaited, most_read};
ghost use Rattle.sw_trigger.specs.Found.{Finds};
ghost use Rattle.sw_trigger.specs.Settings.{named, IsLayer};

use crate::layer::{Awaited, Layer};
use crate::settings::Settings;
use sw_base::{ARMS, ArmLayer, LayerName, Source};

impl Settings {
    /// How many things a scan awaits; 0 where nothing is listed.
    pub fn bound(&self) -> u64
        ensures bound { result ≡ bound_of self.now }
        ensures most { result ≤ most_awaited (length (in_visit self.now.settle_us)) most_arm_layers }
    {
        if self.list().is_empty() {
            return 0;
        }
        arms_len(self, &ARMS)
    }

    /// How many readings a scan makes; 0 where nothing is listed.
    pub fn readings(&self) -> u64
        ensures readings { result ≡ readings_of self.now }
        ensures most { result ≤ most_read most_arm_layers }
    {
        if self.list().is_empty() {
            return 0;
        }
        arms_times(self, &ARMS)
    }

    /// The n-th thing that a scan awaits, from 0; none from the bound on.
    pub fn awaited(&self, n: u64) -> Option<Awaited>
        ensures item { result ≡ slice_get (awaiting (agenda self.now)) n }
        ensures over { IsNone result ↔ (bound_of self.now ≤ n) }
    {
        if n >= self.bound() {
            return None;
        }
        Some(find_in_arms(self, &ARMS, n))
    }
}

/// How many things all turns of these ARM layers await, the passes inside them.
fn arms_len(settings: &Settings, arms: &[ArmLayer]) -> u64
    requires few { length arms.now ≤ most_arm_layers }
    ensures len { result ≡ length (in_arms (named settings.now arms.now)
        (in_passes settings.now.settle_us settings.now.trigger)) }
    ensures some { 0 < result }
    ensures most { result ≤ most_awaited (length (in_visit settings.now.settle_us)) (length arms.now) }
{
    match arms {
        [] => passes_len(settings.layer(LayerName::Trigger), settings.settle_us()),
        [arm, inner @ ..] => {
            let name = LayerName::Arm(*arm);
            turns_len(name, settings.layer(name), arms_len(settings, inner))
        }
    }
}

/// How many readings all turns of these ARM layers make, the passes inside them.
fn arms_times(settings: &Settings, arms: &[ArmLayer]) -> u64
    requires few { length arms.now ≤ most_arm_layers }
    ensures times { result ≡ times (named settings.now arms.now) settings.now.trigger.count }
    ensures most { result ≤ most_read (length arms.now) }
{
    match arms {
        [] => u64::from(settings.layer(LayerName::Trigger).count),
        [arm, inner @ ..] => {
            u64::from(settings.layer(LayerName::Arm(*arm)).count) * arms_times(settings, inner)
        }
    }
}

/// The n-th thing that all turns of these ARM layers await, the passes inside them.
fn find_in_arms(settings: &Settings, arms: &[ArmLayer], n: u64) -> Awaited
    requires few { length arms.now ≤ most_arm_layers }
    requires within { n < length (in_arms (named settings.now arms.now)
        (in_passes settings.now.settle_us settings.now.trigger)) }
    ensures { slice_get (in_arms (named settings.now arms.now)
        (in_passes settings.now.settle_us settings.now.trigger)) n ≡ Some result }
{
    match arms {
        [] => find_in_passes(settings.layer(LayerName::Trigger), settings.settle_us(), n),
        [arm, inner @ ..] => {
            let name = LayerName::Arm(*arm);
            match find(name, settings.layer(name), arms_len(settings, inner), n) {
                Found::Here(what) => what,
                Found::Inside(i) => find_in_arms(settings, inner, i),
            }
        }
    }
}

/// How many things the passes of one turn of the inmost ARM layer await.
fn passes_len(trigger: Layer, settle_us: u64) -> u64
    requires { IsLayer most_trigger_count trigger }
    ensures len { result ≡ length (in_passes settle_us trigger) }
    ensures some { 0 < result }
    ensures most { result ≤ most_awaited (length (in_visit settle_us)) 0 }
{
    turns_len(LayerName::Trigger, trigger, visit_len(settle_us))
}

/// The n-th thing that the passes of one turn of the inmost ARM layer await.
fn find_in_passes(trigger: Layer, settle_us: u64, n: u64) -> Awaited
    requires within { n < length (in_passes settle_us trigger) }
    ensures { slice_get (in_passes settle_us trigger) n ≡ Some result }
{
    match find(LayerName::Trigger, trigger, visit_len(settle_us), n) {
        Found::Here(what) => what,
        Found::Inside(i) => visit_at(settle_us, i),
    }
}

/// How many things are awaited of a position that is closed.
fn visit_len(settle_us: u64) -> u64
    ensures len { result ≡ length (in_visit settle_us) }
    ensures some { 1 ≤ result }
    ensures small { result ≤ 2 }
{
    if settle_us == 0 { 1 } else { 2 }
}

/// The n-th of them, from 0.
fn visit_at(settle_us: u64, n: u64) -> Awaited
    requires within { n < length (in_visit settle_us) }
    ensures { slice_get (in_visit settle_us) n ≡ Some result }
{
    if settle_us != 0 && n == 0 {
        return Awaited::Pause(settle_us);
    }
    Awaited::Read
}

/// Where in all turns of a layer a thing is awaited.
#[derive(Clone, Copy, Debug, PartialEq, Eq)]
enum Found {
    /// At the head of a turn.
    Here(Awaited),
    /// At this index, from 0, of what is inside a turn.
    Inside(u64),
}

/// How many things all turns of a layer await, with `inside` of them inside each turn.
fn turns_len(name: LayerName, layer: Layer, inside: u64) -> u64
    requires some { 1 ≤ layer.count }
    requires fits { (2 + inside) * layer.count < 2 ^ 64 }
    ensures len { (xs : List Await) → length xs ≡ inside → result ≡ length (in_turns name layer xs) }
    ensures least { inside ≤ result }
    ensures most { result ≤ (2 + inside) * layer.count }
{
    u64::from(layer.count) * (head_len(name, layer) + inside)
}

/// The n-th thing that all turns of a layer await.
fn find(name: LayerName, layer: Layer, inside: u64, n: u64) -> Found
    requires fits { 2 + inside < 2 ^ 64 }
    requires some { 0 < inside }
    ensures { (xs : List Await) → length xs ≡ inside → n < length (in_turns name layer xs)
        → Finds (in_turns name layer xs) n xs result }
{
    let head = head_len(name, layer);
    let at = n % (head + inside);
    if at < head {
        match head_at(name, layer, at) {
            Some(what) => Found::Here(what),
            None => unreachable!(),
        }
    } else {
        Found::Inside(at - head)
    }
}

/// How many things a layer awaits on each turn before the next layer inwards.
fn head_len(name: LayerName, layer: Layer) -> u64
    ensures len { result ≡ length (head_of name layer) }
    ensures small { result ≤ 2 }
{
    let wait = if layer.source == Source::Immediate {
        0
    } else {
        1
    };
    let pause = if layer.delay_us == 0 { 0 } else { 1 };
    wait + pause
}

/// The n-th of them, from 0.
fn head_at(name: LayerName, layer: Layer, n: u64) -> Option<Awaited>
    ensures { result ≡ slice_get (head_of name layer) n }
{
    let wait = layer.source != Source::Immediate;
    let pause = layer.delay_us != 0;
    if n == 0 && wait {
        return Some(wait_at(name, layer));
    }
    if pause && ((n == 0 && !wait) || (n == 1 && wait)) {
        return Some(Awaited::Pause(layer.delay_us));
    }
    None
}

/// What a layer that isn't immediate awaits first.
fn wait_at(name: LayerName, layer: Layer) -> Awaited
    requires { layer.source ≢ Immediate }
    ensures { wait_of name layer ≡ result ∷ [] }
{
    if layer.source == Source::Timer {
        Awaited::Period(name, layer.timer_us)
    } else {
        Awaited::Wait(name)
    }
}
