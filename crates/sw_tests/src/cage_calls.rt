//! A cage that the tests use by one call at a time. These promise nothing, and most answer yes or no, so that a test is
//! checked without all that the cage promises.

use crate::positions::one_each;
use std::alloc::Global;
use sw_base::{Boxed, Chan, LayerName, ScpiError, Sequence};
use sw_cage::{Cage, CloseRefusal, EjectRefusal, InstallRefusal, Job, Taken};
use sw_card::{Card, Meter, Relay};
use sw_channel::read_positions;
use sw_trigger::Settings;
use sw_verify::{Loaded, Plan, Setup, Snapshot};

/// Whether a card comes into the slot.
pub fn install<R: Relay, M: Meter>(cage: &mut Cage<R, M>, slot: u8, card: Card<R, M>) -> bool {
    match cage.install(slot, card) {
        Ok(()) => true,
        Err(refused) => {
            drop(refused);
            false
        }
    }
}

/// Offers a card to the slot that does not take it, and gives it back.
pub fn refused_card<R: Relay, M: Meter>(
    cage: &mut Cage<R, M>,
    slot: u8,
    card: Card<R, M>,
) -> Option<(InstallRefusal, Card<R, M>)> {
    match cage.install(slot, card) {
        Ok(()) => None,
        Err(refused) => Some(refused),
    }
}

/// Takes the slot's card out.
pub fn ejected<R: Relay, M: Meter>(cage: &mut Cage<R, M>, slot: u8) -> Option<Card<R, M>> {
    match cage.eject(slot) {
        Ok(card) => Some(card),
        Err(_) => None,
    }
}

/// Whether no card comes out of the slot, for that.
pub fn refuses_eject<R: Relay, M: Meter>(
    cage: &mut Cage<R, M>,
    slot: u8,
    why: EjectRefusal,
) -> bool {
    match cage.eject(slot) {
        Ok(card) => {
            drop(card);
            false
        }
        Err(refusal) => refusal == why,
    }
}

/// Whether relay cards come into slots 1 to 3 and a meter into slot 4.
pub fn fill<R: Relay, M: Meter>(cage: &mut Cage<R, M>, cards: (R, R, R), meter: M) -> bool {
    let (first, second, third) = cards;
    let has_first = install(cage, 1, Card::relays(first));
    let has_second = install(cage, 2, Card::relays(second));
    let has_third = install(cage, 3, Card::relays(third));
    let has_meter = install(cage, 4, Card::meter(meter));
    has_first && has_second && has_third && has_meter
}

/// Closes the channels, which may be closed together.
pub fn close<R: Relay, M: Meter>(cage: &mut Cage<R, M>, chans: &[Chan]) -> bool {
    if cage.is_running() || cage.judge(chans).is_err() {
        return false;
    }
    cage.close_listed(chans).is_ok()
}

/// Begins a scan of these settings.
pub fn begin<R: Relay, M: Meter>(
    alloc: Global,
    cage: &mut Cage<R, M>,
    settings: Settings,
) -> Option<Taken<M>> {
    if cage.is_running() || cage.number() == u64::MAX || cage.has_out(settings.meter()) {
        return None;
    }
    let Ok(layout) = cage.layout(alloc) else {
        return None;
    };
    let Ok(closed) = cage.closed_chans(alloc) else {
        return None;
    };
    let snapshot = Snapshot {
        settings: Setup {
            scan: settings,
            program: Loaded::Nothing,
        },
        layout,
        closed: Sequence::new(closed),
    };
    let Ok(boxed) = Boxed::new(alloc, snapshot) else {
        return None;
    };
    let Ok(plan) = Plan::make(alloc, boxed) else {
        return None;
    };
    match cage.start(alloc, plan.into_course()) {
        Ok(taken) => Some(taken),
        Err(_) => None,
    }
}

/// The settings of a scan of these channels with `count` readings.
pub fn settings_of(alloc: Global, chans: &[Chan], count: u32) -> Result<Settings, ScpiError> {
    let mut settings = Settings::new(alloc);
    let set = set(alloc, &mut settings, chans, count);
    match set {
        Ok(()) => Ok(settings),
        Err(error) => {
            drop(settings);
            Err(error)
        }
    }
}

fn set(
    alloc: Global,
    settings: &mut Settings,
    chans: &[Chan],
    count: u32,
) -> Result<(), ScpiError> {
    settings.set_list(one_each(alloc, chans)?)?;
    settings.set_count(LayerName::Trigger, count)
}

/// The settings of a scan with a reading of each of the positions that the text spells.
pub fn settings_for(alloc: Global, text: &[u8]) -> Result<Settings, ScpiError> {
    let mut settings = Settings::new(alloc);
    let set = set_positions(alloc, &mut settings, text);
    match set {
        Ok(()) => Ok(settings),
        Err(error) => {
            drop(settings);
            Err(error)
        }
    }
}

fn set_positions(alloc: Global, settings: &mut Settings, text: &[u8]) -> Result<(), ScpiError> {
    let positions = read_positions(alloc, text)?;
    let count = positions.len() as u32;
    settings.set_list(positions)?;
    settings.set_count(LayerName::Trigger, count)
}

/// Gives the meter that has measured back to the cage.
pub fn give_back<R: Relay, M: Meter>(cage: &mut Cage<R, M>, job: Job<M>) -> Option<Taken<M>> {
    match cage.finish(job.run()) {
        Ok(taken) => Some(taken),
        Err(back) => {
            drop(back);
            None
        }
    }
}

/// The measurement that the scan awaits.
pub fn job_of<M: Meter>(taken: Option<Taken<M>>) -> Option<Job<M>> {
    match taken {
        Some(Taken::Job(job)) => Some(job),
        other => {
            drop(other);
            None
        }
    }
}

pub fn is_over<M: Meter>(taken: Option<Taken<M>>) -> bool {
    let over = matches!(&taken, Some(Taken::Ended));
    drop(taken);
    over
}

pub fn is_fault<M: Meter>(taken: Option<Taken<M>>) -> bool {
    let fault = matches!(&taken, Some(Taken::Fault));
    drop(taken);
    fault
}

pub fn is_ignored<M: Meter>(taken: Option<Taken<M>>) -> bool {
    let ignored = matches!(&taken, Some(Taken::Ignored));
    drop(taken);
    ignored
}

/// Whether the channels may not be closed together, for that.
pub fn refuses<R: Relay, M: Meter>(cage: &Cage<R, M>, chans: &[Chan], why: CloseRefusal) -> bool {
    cage.judge(chans) == Err(why)
}

pub fn has<R: Relay, M: Meter>(cage: &Cage<R, M>, chan: Chan) -> bool {
    cage.is_present(chan)
}

pub fn has_all<R: Relay, M: Meter>(cage: &Cage<R, M>, chans: &[Chan]) -> bool {
    cage.all_present(chans)
}

pub fn has_closed<R: Relay, M: Meter>(cage: &Cage<R, M>, chans: &[Chan]) -> bool {
    cage.has_closed(chans)
}

pub fn is_closed<R: Relay, M: Meter>(cage: &Cage<R, M>, chan: Chan) -> bool {
    cage.is_closed(chan)
}

/// Whether these are listed as the closed channels.
pub fn lists_closed<R: Relay, M: Meter>(alloc: Global, cage: &Cage<R, M>, chans: &[Chan]) -> bool {
    match cage.closed_chans(alloc) {
        Ok(closed) => closed.as_slice() == chans,
        Err(_) => false,
    }
}
