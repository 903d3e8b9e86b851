//! Cards of either kind, driven through their boxes.

use std::test::Fail;
use sw_base::Reading;
use sw_card::{Card, Mask, Meter, MeterCard, Relay, RelayCard};
use sw_kinds::{Mux, SimDriver, SimSource, Volt};

/// Whether the card is one of one channel in group 7, which is open.
fn is_new<R: Relay, M: Meter>(card: &Card<R, M>) -> bool {
    !card.is_meter()
        && card.serial() == 5
        && card.failures() == 0
        && card.channels() == 1
        && card.group(1) == 7
        && card.group(2) == 0
        && !card.is_closed(1)
}

/// Closes its channel, where it has one that is open.
fn close<R: Relay, M: Meter>(card: &mut Card<R, M>) -> bool {
    card.channels() == 1 && !card.is_closed(1) && card.close(1).is_ok() && card.any_closed()
}

/// Whether its channel is closed and no other.
fn is_all_closed<R: Relay, M: Meter>(card: &Card<R, M>) -> bool {
    let mask = card.closed_mask();
    mask.has(1) && !mask.has(2)
}

/// Opens every channel.
fn open<R: Relay, M: Meter>(card: &mut Card<R, M>) -> bool {
    card.open_all();
    !card.any_closed() && card.closed_mask().is_empty()
}

/// Whether what is left of a relay card are relays of that serial number.
fn is_made_of<R: Relay>(card: RelayCard<R>, serial: u32) -> bool {
    let is_open = card.closed_mask().is_empty();
    let relay = card.into_relay();
    let is_so = relay.serial() == serial;
    drop(relay);
    is_open && is_so
}

/// Whether the card is one of open relays of serial number 5.
fn has_relays<R: Relay, M: Meter>(card: Card<R, M>) -> bool {
    match card.into_relay() {
        Ok(relays) => is_made_of(relays, 5),
        Err(other) => {
            drop(other);
            false
        }
    }
}

/// Whether a relay card of one channel in group 7 can be used.
fn uses_relays<R: Relay, M: Meter>(relay: R) -> bool {
    let mut card: Card<R, M> = Card::relays(relay);
    let is_used = is_new(&card) && close(&mut card) && is_all_closed(&card) && open(&mut card);
    has_relays(card) && is_used
}

/// Whether a meter that has not measured gives two nanovolts.
fn measures<M: Meter>(meter: &mut MeterCard<M>) -> bool {
    meter.serial() == 6
        && meter.failures() == 0
        && meter.last() == None
        && meter.measure() == Ok(Reading::Volts(2))
}

/// Whether what is left of a meter card is a meter that has measured two nanovolts.
fn has_measured<M: Meter>(card: MeterCard<M>) -> bool {
    let meter = card.into_meter();
    let is_so = meter.last() == Some(Reading::Volts(2));
    drop(meter);
    is_so
}

/// Whether a meter that has not measured can be used.
fn uses_meter<R: Relay, M: Meter>(meter: M) -> bool {
    let card: Card<R, M> = Card::meter(meter);
    let is_meter = card.is_meter() && card.closed_mask().is_empty();
    match card.into_meter() {
        Ok(card) => {
            let mut card = card;
            let is_used = measures(&mut card);
            has_measured(card) && is_used && is_meter
        }
        Err(other) => {
            drop(other);
            false
        }
    }
}

/// Whether a relay card and a meter can be used.
fn uses_both<R: Relay, M: Meter>(relay: R, meter: M) -> bool {
    let uses_relays = uses_relays::<R, M>(relay);
    uses_meter::<R, M>(meter) && uses_relays
}

#[test]
fn cards_through_their_boxes(rt: HostRuntime) -> Result<(), Fail> {
    let relay = Mux::new(5, 1, 7, SimDriver::new());
    let relay: Box<dyn Relay + Send> = Box::new(rt.alloc(), relay)?;
    let meter = Volt::new(6, SimSource::new(2, 0));
    let meter: Box<dyn Meter + Send> = Box::new(rt.alloc(), meter)?;
    assert!(rt; uses_both(relay, meter));
    Ok(())
}

/// Whether the set has this channel and no lower one.
fn begins_with(mask: Mask, ch: u8) -> bool {
    !mask.is_empty() && mask.has(ch) && mask.lowest() == Some(ch)
}

#[test]
fn sets_of_channels(rt: HostRuntime) {
    let mut mask = Mask::new();
    assert!(rt; mask.is_empty() && mask.lowest() == None);
    mask.insert(99);
    assert!(rt; begins_with(mask, 99) && !mask.has(98));
    mask.insert(2);
    assert!(rt; begins_with(mask, 2) && mask.has(99));
    mask.remove(2);
    assert!(rt; begins_with(mask, 99) && !mask.has(2));
}
