//! The cage: cards that come and go, and what a scan takes.

use crate::boxes::{closed, mux, voltmeter};
use crate::cage_calls::{
    begin, close, ejected, fill, give_back, has, has_all, has_closed, install, is_closed,
    is_ignored, is_over, job_of, lists_closed, refused_card, refuses, refuses_eject, settings_of,
};
use std::alloc::Global;
use std::test::Fail;
use sw_base::{ArmLayer, Chan, LayerName, ScpiError, Source};
use sw_cage::{Cage, CloseRefusal, EjectRefusal, Happening, InstallRefusal, Job, Taken, Ticket};
use sw_card::{Card, Meter, Relay};
use sw_trigger::Settings;
use sw_verify::Layout;

/// Whether channels of several cards are judged together, before any is closed.
fn judges_together<R: Relay, M: Meter>(cage: &Cage<R, M>) -> bool {
    refuses(
        cage,
        &[Chan::new(1, 1), Chan::new(3, 1)],
        CloseRefusal::Clash,
    ) && refuses(cage, &[Chan::new(5, 1)], CloseRefusal::Absent)
        && refuses(cage, &[Chan::new(4, 1)], CloseRefusal::Absent)
}

/// Whether the cage closes channels of two cards together, and lists them.
fn closes_together<R: Relay, M: Meter>(alloc: Global, cage: &mut Cage<R, M>) -> bool {
    let pair = [Chan::new(1, 1), Chan::new(2, 1)];
    has_all(cage, &pair)
        && !has(cage, Chan::new(1, 5))
        && close(cage, &pair)
        && refuses(cage, &[Chan::new(3, 1)], CloseRefusal::Clash)
        && lists_closed(alloc, cage, &pair)
        && has_closed(cage, &pair)
        && !has_closed(cage, &pair[..1])
}

/// Whether every relay of the card of that serial number is open.
fn is_safe<R: Relay, M: Meter>(card: &Card<R, M>, serial: u32) -> bool {
    card.serial() == serial && !card.any_closed()
}

/// Whether the cage refuses a card with a closed channel, and gives it back with that closed.
fn hands_closed_back<R: Relay, M: Meter>(cage: &mut Cage<R, M>, closed: R) -> bool {
    match refused_card(cage, 5, Card::relays(closed)) {
        Some((refusal, card)) => {
            let is_back = card.serial() == 7 && card.is_closed(1);
            drop(card);
            is_back && refusal == InstallRefusal::BadLayout
        }
        None => false,
    }
}

/// Whether the card of slot 1 is not taken by slot 2, which has one, and then by slot 1.
fn comes_back<R: Relay, M: Meter>(cage: &mut Cage<R, M>, card: Card<R, M>) -> bool {
    match refused_card(cage, 2, card) {
        Some((refusal, card)) => {
            let is_back = refusal == InstallRefusal::Occupied && card.serial() == 1;
            install(cage, 1, card) && is_back
        }
        None => false,
    }
}

/// Whether the card of slot 1 leaves with its relays open, while slot 2 stays as it was, and comes back.
fn goes_and_comes<R: Relay, M: Meter>(cage: &mut Cage<R, M>) -> bool {
    match ejected(cage, 1) {
        Some(card) => {
            let is_safe = is_safe(&card, 1) && is_closed(cage, Chan::new(2, 1));
            let is_vacant = refuses_eject(cage, 1, EjectRefusal::Vacant);
            comes_back(cage, card) && is_safe && is_vacant
        }
        None => false,
    }
}

/// Whether cards that come into a cage are used, leave it and come back.
fn exchanges<R: Relay, M: Meter>(alloc: Global, cage: &mut Cage<R, M>, closed: R) -> bool {
    hands_closed_back(cage, closed)
        && judges_together(cage)
        && closes_together(alloc, cage)
        && goes_and_comes(cage)
}

/// The same over a cage that is at rest.
fn exchanges_at_rest<R: Relay, M: Meter>(
    alloc: Global,
    cards: (R, R, R),
    closed: R,
    meter: M,
) -> bool {
    let Ok(mut cage) = Cage::new(alloc) else {
        return false;
    };
    let is_filled = fill(&mut cage, cards, meter);
    let is_so = exchanges(alloc, &mut cage, closed);
    drop(cage);
    is_so && is_filled
}

#[test]
fn cards_come_and_go(rt: HostRuntime) -> Result<(), Fail> {
    let cards = (
        mux(rt.alloc(), 1, 1)?,
        mux(rt.alloc(), 2, 0)?,
        mux(rt.alloc(), 3, 1)?,
    );
    let closed = closed(rt.alloc())?;
    let meter = voltmeter(rt.alloc())?;
    assert!(rt; exchanges_at_rest(rt.alloc(), cards, closed, meter));
    Ok(())
}

/// Begins a scan of one reading of 1!1, and gives its measurement.
fn measuring_first<R: Relay, M: Meter>(alloc: Global, cage: &mut Cage<R, M>) -> Option<Job<M>> {
    match settings_of(alloc, &[Chan::new(1, 1)], 1) {
        Ok(settings) => job_of(begin(alloc, cage, settings)),
        Err(_) => None,
    }
}

/// Whether no card comes in while a scan runs, and no meter leaves that measures.
fn keeps_its_cards<R: Relay, M: Meter>(cage: &mut Cage<R, M>, other: R) -> bool {
    match refused_card(cage, 2, Card::relays(other)) {
        Some((refusal, other)) => {
            let is_back = refusal == InstallRefusal::Busy && other.serial() == 7;
            drop(other);
            is_back
                && refuses_eject(cage, 4, EjectRefusal::Out)
                && refuses_eject(cage, 5, EjectRefusal::Vacant)
        }
        None => false,
    }
}

/// Whether the card of that serial number comes out of the slot, with no relay closed.
fn comes_out_safe<R: Relay, M: Meter>(cage: &mut Cage<R, M>, slot: u8, serial: u32) -> bool {
    match ejected(cage, slot) {
        Some(card) => {
            let is_safe = is_safe(&card, serial);
            drop(card);
            is_safe
        }
        None => false,
    }
}

/// Whether a relay card leaves and ends the scan, with every relay open.
fn leaves<R: Relay, M: Meter>(cage: &mut Cage<R, M>) -> bool {
    comes_out_safe(cage, 1, 1) && !is_closed(cage, Chan::new(2, 1)) && !cage.is_running()
}

/// Whether the meter of a scan that is over is put back, adds no reading, and can leave.
fn returns_late<R: Relay, M: Meter>(cage: &mut Cage<R, M>, job: Job<M>) -> bool {
    is_ignored(give_back(cage, job))
        && !cage.has_out(4)
        && cage.readings().is_empty()
        && comes_out_safe(cage, 4, 4)
}

/// Whether cards leave a running scan of 1!1 with 2!1 closed, and its meter when it is back.
fn pulls<R: Relay, M: Meter>(alloc: Global, cage: &mut Cage<R, M>, other: R) -> bool {
    let is_closed = close(cage, &[Chan::new(2, 1)]);
    match measuring_first(alloc, cage) {
        Some(job) => {
            let is_out = has_closed(cage, &[Chan::new(1, 1), Chan::new(2, 1)]) && cage.has_out(4);
            let is_left = keeps_its_cards(cage, other) && leaves(cage);
            returns_late(cage, job) && is_closed && is_out && is_left
        }
        None => false,
    }
}

/// The same over a cage that is at rest.
fn pulls_at_rest<R: Relay, M: Meter>(alloc: Global, cards: (R, R, R), other: R, meter: M) -> bool {
    let Ok(mut cage) = Cage::new(alloc) else {
        return false;
    };
    let is_filled = fill(&mut cage, cards, meter);
    let is_so = pulls(alloc, &mut cage, other);
    drop(cage);
    is_so && is_filled
}

#[test]
fn cards_leave_a_running_scan(rt: HostRuntime) -> Result<(), Fail> {
    let cards = (
        mux(rt.alloc(), 1, 1)?,
        mux(rt.alloc(), 2, 0)?,
        mux(rt.alloc(), 3, 1)?,
    );
    let other = mux(rt.alloc(), 7, 1)?;
    let meter = voltmeter(rt.alloc())?;
    assert!(rt; pulls_at_rest(rt.alloc(), cards, other, meter));
    Ok(())
}

fn ignores<R: Relay, M: Meter>(cage: &mut Cage<R, M>, happening: Happening) -> bool {
    is_ignored(Some(cage.take(happening)))
}

/// The pause to which a bus trigger advances the scan.
fn triggered<R: Relay, M: Meter>(cage: &mut Cage<R, M>) -> Option<(Ticket, u64)> {
    match cage.take(Happening::Bus) {
        Taken::Pause(ticket, micros) => Some((ticket, micros)),
        other => {
            drop(other);
            None
        }
    }
}

/// Whether the bus alone advances the scan to this pause.
fn pauses<R: Relay, M: Meter>(cage: &mut Cage<R, M>, wanted: (Ticket, u64)) -> bool {
    ignores(cage, Happening::External)
        && ignores(cage, Happening::Signal(LayerName::Arm(ArmLayer::Second)))
        && triggered(cage) == Some(wanted)
}

/// Whether, while it measures, the cage awaits that and has the layout of before, and then its scan is over.
fn ends_by_its_meter<R: Relay, M: Meter>(
    cage: &mut Cage<R, M>,
    layout: &Layout,
    job: Job<M>,
) -> bool {
    let is_awaited = cage.awaited().is_some() && cage.has_layout(layout);
    let is_closed = has_closed(cage, &[Chan::new(1, 1)]);
    is_over(give_back(cage, job))
        && is_awaited
        && is_closed
        && has_closed(cage, &[])
        && cage.readings().len() == 1
}

/// Whether a scan that awaits the bus, then a pause, then its meter continues by each of these alone.
fn goes_on_alone<R: Relay, M: Meter>(cage: &mut Cage<R, M>, layout: &Layout) -> bool {
    let ticket = Ticket { scan: 1, index: 1 };
    let is_paused = pauses(cage, (ticket, 500_000))
        && ignores(cage, Happening::Elapsed(Ticket { scan: 0, index: 1 }));
    match job_of(Some(cage.take(Happening::Elapsed(ticket)))) {
        Some(job) => ends_by_its_meter(cage, layout, job) && is_paused,
        None => false,
    }
}

/// One reading by the bus, behind half a second.
fn set_pause(settings: &mut Settings) -> Result<(), ScpiError> {
    settings.set_source(LayerName::Arm(ArmLayer::First), Source::Bus);
    settings.set_delay(LayerName::Trigger, 500_000)
}

/// Begins a scan of 1!1 that awaits the bus.
fn begins_paused<R: Relay, M: Meter>(alloc: Global, cage: &mut Cage<R, M>) -> bool {
    let Ok(mut settings) = settings_of(alloc, &[Chan::new(1, 1)], 1) else {
        return false;
    };
    let is_set = set_pause(&mut settings).is_ok();
    let taken = begin(alloc, cage, settings);
    let is_waiting = matches!(&taken, Some(Taken::Waits));
    drop(taken);
    is_set && is_waiting
}

fn takes_alone<R: Relay, M: Meter>(alloc: Global, cage: &mut Cage<R, M>) -> bool {
    match cage.layout(alloc) {
        Ok(layout) => {
            let is_so = begins_paused(alloc, cage) && goes_on_alone(cage, &layout);
            drop(layout);
            is_so
        }
        Err(_) => false,
    }
}

/// The same over a cage that is at rest.
fn takes_alone_at_rest<R: Relay, M: Meter>(alloc: Global, card: R, meter: M) -> bool {
    let Ok(mut cage) = Cage::new(alloc) else {
        return false;
    };
    let has_card = install(&mut cage, 1, Card::relays(card));
    let has_meter = install(&mut cage, 4, Card::meter(meter));
    let is_so = takes_alone(alloc, &mut cage);
    drop(cage);
    is_so && has_card && has_meter
}

#[test]
fn takes_what_is_awaited(rt: HostRuntime) -> Result<(), Fail> {
    let card = mux(rt.alloc(), 1, 1)?;
    let meter = voltmeter(rt.alloc())?;
    assert!(rt; takes_alone_at_rest(rt.alloc(), card, meter));
    Ok(())
}

/// Whether these channels, which are closed, are opened.
fn opens<R: Relay, M: Meter>(cage: &mut Cage<R, M>, chans: &[Chan]) -> bool {
    has_closed(cage, chans)
        && !cage.is_running()
        && cage.open_listed(chans).is_ok()
        && has_closed(cage, &[])
}

/// Whether a scan ends at once, with nothing closed and no reading kept.
fn aborts<R: Relay, M: Meter>(cage: &mut Cage<R, M>) -> bool {
    cage.abort();
    if cage.is_running() {
        return false;
    }
    cage.reset_readings();
    cage.readings().is_empty() && has_closed(cage, &[])
}

/// Whether a channel is closed and opened, and a scan begun under that number and ended.
fn begins_under<R: Relay, M: Meter>(alloc: Global, cage: &mut Cage<R, M>, number: u64) -> bool {
    close(cage, &[Chan::new(1, 1)])
        && opens(cage, &[Chan::new(1, 1)])
        && begins_paused(alloc, cage)
        && cage.number() == number
        && aborts(cage)
}

/// Whether a cage of these cards that had eight scans begins its ninth.
fn begins_ninth<R: Relay, M: Meter>(alloc: Global, card: R, meter: M) -> bool {
    let Ok(mut cage) = Cage::with_number(alloc, 8) else {
        return false;
    };
    let has_card = install(&mut cage, 1, Card::relays(card));
    let has_meter = install(&mut cage, 4, Card::meter(meter));
    let is_so = begins_under(alloc, &mut cage, 9);
    drop(cage);
    is_so && has_card && has_meter
}

#[test]
fn numbers_go_on(rt: HostRuntime) -> Result<(), Fail> {
    let card = mux(rt.alloc(), 1, 1)?;
    let meter = voltmeter(rt.alloc())?;
    assert!(rt; begins_ninth(rt.alloc(), card, meter));
    Ok(())
}
