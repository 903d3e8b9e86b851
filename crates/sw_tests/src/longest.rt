//! A cage that runs the longest list of positions with every wait and pause that a scan can have.

use crate::boxes::{three, voltmeter};
use crate::cage_calls::{begin, fill, give_back, has_closed};
use std::alloc::Global;
use std::test::Fail;
use sw_base::{ARMS, Chan, LayerName, ScpiError, Source};
use sw_cage::{Cage, Happening, Taken};
use sw_card::{Meter, Relay};
use sw_channel::Position;
use sw_trigger::Settings;

/// Two rounds of 512 positions but for the last position of the second.
const PASSES: u32 = 1_023;

/// Each layer by the external trigger with a second's delay, and half a second for each of 512 positions to settle.
fn set_longest(alloc: Global, settings: &mut Settings) -> Result<(), ScpiError> {
    let mut list = Vec::new(alloc);
    for number in 0..512u16 {
        let channel = if number % 2 == 0 { 1 } else { 20 };
        list.push(Position::new(Chan::new(1, channel)))?;
    }
    settings.set_list(list)?;
    for arm in ARMS {
        set_layer(settings, LayerName::Arm(arm))?;
    }
    set_layer(settings, LayerName::Trigger)?;
    settings.set_count(LayerName::Trigger, PASSES)?;
    settings.set_points(PASSES)?;
    settings.set_settling(500_000)
}

fn set_layer(settings: &mut Settings, name: LayerName) -> Result<(), ScpiError> {
    settings.set_source(name, Source::External);
    settings.set_delay(name, 1_000_000)
}

/// What a scan awaited until it was over.
#[derive(Clone, Copy, Debug, PartialEq, Eq)]
struct Awaited {
    triggers: u32,
    micros: u64,
    readings: u32,
}

impl Awaited {
    /// Takes note of what the scan awaits next.
    fn note<M: Meter>(self, taken: &Taken<M>) -> Awaited {
        match taken {
            Taken::Waits => Awaited {
                triggers: self.triggers.saturating_add(1),
                ..self
            },
            Taken::Pause(_, micros) => Awaited {
                micros: self.micros.saturating_add(*micros),
                ..self
            },
            Taken::Job(_) => Awaited {
                readings: self.readings.saturating_add(1),
                ..self
            },
            _ => self,
        }
    }
}

/// Brings about what the scan awaits.
fn brought<R: Relay, M: Meter>(cage: &mut Cage<R, M>, taken: Taken<M>) -> Option<Taken<M>> {
    match taken {
        Taken::Waits => Some(cage.take(Happening::External)),
        Taken::Pause(ticket, _) => Some(cage.take(Happening::Elapsed(ticket))),
        Taken::Job(job) => give_back(cage, job),
        other => {
            drop(other);
            None
        }
    }
}

/// What the scan awaits from there to its end.
fn ran<R: Relay, M: Meter>(cage: &mut Cage<R, M>, begun: Option<Taken<M>>) -> Awaited {
    let mut awaited = Awaited {
        triggers: 0,
        micros: 0,
        readings: 0,
    };
    let mut next = begun;
    for _ in 0..5_000u16 {
        let Some(taken) = next else {
            return awaited;
        };
        awaited = awaited.note(&taken);
        next = brought(cage, taken);
    }
    drop(next);
    awaited
}

/// What each of its layers and positions awaits: three waits and pauses of ARM layers, and in each pass a wait, two
/// pauses and a reading.
const WANTED: Awaited = Awaited {
    triggers: 1_026,
    micros: 1_537_500_000,
    readings: 1_023,
};

/// Whether the longest scan awaits just that, and leaves its readings with nothing closed.
fn runs<R: Relay, M: Meter>(alloc: Global, cage: &mut Cage<R, M>) -> bool {
    let mut settings = Settings::new(alloc);
    if set_longest(alloc, &mut settings).is_err() {
        drop(settings);
        return false;
    }
    let begun = begin(alloc, cage, settings);
    ran(cage, begun) == WANTED
        && !cage.is_running()
        && cage.readings().len() == 1_023
        && has_closed(cage, &[])
}

/// The same over a cage that is at rest.
fn runs_at_rest<R: Relay, M: Meter>(alloc: Global, cards: (R, R, R), meter: M) -> bool {
    let Ok(mut cage) = Cage::new(alloc) else {
        return false;
    };
    let is_filled = fill(&mut cage, cards, meter);
    let is_so = runs(alloc, &mut cage);
    drop(cage);
    is_so && is_filled
}

#[test]
fn the_longest_list_runs_with_every_wait_and_pause(rt: HostRuntime) -> Result<(), Fail> {
    let alloc = rt.alloc();
    assert!(rt; runs_at_rest(alloc, three(alloc)?, voltmeter(alloc)?));
    Ok(())
}
