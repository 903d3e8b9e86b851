//! The calls on one slot and its card.

ghost use Rattle.std.specs.Prelude.{◌≡◌, ◌≢◌, ℕ, ◌≤◌, length, true, false, None, Some, OnOk, OnErr, IfOk, ◌↔◌};
ghost use Rattle.std.specs.Prelude.{IfSome, IfNone, IsTrue};
ghost use Rattle.std.proofs.Common.{inr};
ghost use Rattle.sw_base.specs.Limits.{most_slots, most_channels};
ghost use Rattle.sw_base.specs.Layout.{contents_have, contents_group, contents_are_meter, group_at};
ghost use Rattle.sw_card.specs.Account.{closed_at, is_meter, of_meter, at_rest};
ghost use Rattle.sw_cage.specs.Accounts.{accounts_of, option_account, slot_contents, option_closed, option_set};
ghost use Rattle.sw_cage.specs.Accounts.{option_rest, OptionWellFormed};
ghost use Rattle.sw_cage.specs.Accounts.{all_open, is_closed, IsSlotFault};
ghost use Rattle.sw_cage.specs.Cards.{meter_only, meters_of, option_sure};
ghost use Rattle.sw_cage.specs.Install.{IsUnfit};
ghost use Rattle.sw_cage.specs.Masks.{IsSlotMask};
ghost use Rattle.sw_cage.specs.Shared.{IsShared};

use std::alloc::{AllocError, Global};
use std::marker::Model;
use sw_base::{CHANNELS, Chan};
use sw_card::{Card, CardFault, Mask, Meter, MeterCard, Relay};
use sw_verify::Slot;

/// A slot: its card, if it has one, which of the card's channels are closed, and the group that they share, if they do.
/// Contracts see the card.
#[derive(Drop)]
pub(super) struct CageSlot<R: Relay, M: Meter> {
    pub(super) card: Option<Card<R, M>>,
    closed: Mask,
    shared: Option<u8>,
}

impl<R: Relay, M: Meter> Model for CageSlot<R, M> {
    ghost use Rattle.std.specs.Prelude.{◌⊎◌, Option};
    ghost use Rattle.sw_card.specs.Account.{Account};
    ghost use Rattle.sw_cage.specs.Accounts.{option_account};
    ghost use Rattle.sw_cage.specs.Masks.{IsSlotMask};
    ghost use Rattle.sw_cage.specs.Shared.{IsShared};

    ghost Value = { Option ((R ⊎ M) × Account) };

    ghost view = { λ p. p.card };

    ghost invariant = { λ p.
        IsSlotMask p.closed (option_account p.card) × IsShared p.shared (option_account p.card) };
}

impl<R: Relay, M: Meter> CageSlot<R, M> {
    /// A slot without a card.
    pub(super) fn empty() -> Self
        ensures { result ≡ None }
    {
        CageSlot {
            card: None,
            closed: Mask::new(),
            shared: None,
        }
    }

    /// A slot with this card.
    pub(super) fn with(card: Card<R, M>) -> Self
        ensures { result ≡ Some card }
    {
        let closed = card.closed_mask();
        let shared = shared_group(&card);
        CageSlot {
            card: Some(card),
            closed,
            shared,
        }
    }

    /// A slot with this meter, which has no channels to ask for.
    pub(super) fn with_meter(meter: MeterCard<M>) -> Self
        ensures { result ≡ Some (inr meter.0, of_meter meter.1) }
    {
        CageSlot {
            card: Some(Card::of_meter(meter)),
            closed: Mask::new(),
            shared: None,
        }
    }

    /// The closed channels.
    pub(super) fn closed(&self) -> Mask
        ensures { IsSlotMask result (option_account self.now) }
    {
        self.closed
    }
}

/// The group that all of the card's channels are in, if there is one; 0 where they are in none.
fn shared_group<R: Relay, M: Meter>(card: &Card<R, M>) -> Option<u8>
    ensures shared { IfSome result (λ group. (ch : ℕ) → 1 ≤ ch → ch ≤ length card.now.1.groups
        → group_at card.now.1.groups ch ≡ group) }
    ensures apart { IfNone result ((ch : ℕ) × (1 ≤ ch) × (ch ≤ length card.now.1.groups)
        × (group_at card.now.1.groups ch ≢ group_at card.now.1.groups 1)) }
{
    let group = card.group(1);
    for before in 0..card.channels() {
        if card.group(before + 1) != group {
            return None;
        }
    }
    Some(group)
}

/// Whether the card may be installed: a meter, or 1 to [`CHANNELS`] channels, all of them open.
pub(super) fn is_fit<R: Relay, M: Meter>(card: &Card<R, M>) -> bool
    ensures open { result ≡ true → (ch : ℕ) → closed_at card.now.1.closed ch ≡ false }
    ensures few { result ≡ true → is_meter card.now.1 ≡ false
        → (1 ≤ length card.now.1.groups) × (length card.now.1.groups ≤ most_channels) }
    ensures unfit { result ≡ false → (is_meter card.now.1 ≡ false) × IsUnfit card.now.1 }
    ensures states { length card.now.1.closed ≡ length card.now.1.groups }
{
    let channels = card.channels();
    if card.any_closed() {
        return false;
    }
    if card.is_meter() {
        return true;
    }
    if channels == 0 {
        return false;
    }
    channels <= CHANNELS
}

/// Closes a channel of the card in the slot.
#[inline(always)]
pub(super) fn close_in<R: Relay, M: Meter>(
    slot: &mut CageSlot<R, M>,
    ch: u8,
) -> Result<(), CardFault>
    requires few { ch ≤ most_channels }
    requires formed { OptionWellFormed (option_account slot.old) }
    requires present { contents_have (slot_contents (option_account slot.old)) ch ≡ true }
    requires open { option_closed (option_account slot.old) ch ≡ false }
    ensures ok { OnOk result (option_account slot.new ≡ option_set (option_account slot.old) ch true) }
    ensures err { OnErr result (IsSlotFault (option_account slot.old) (option_set (option_account slot.old) ch true)
        (option_account slot.new)) }
    ensures meter { meter_only slot.new ≡ meter_only slot.old }
{
    let Some(card) = &mut slot.card else {
        unreachable!();
    };
    match card.close(ch) {
        Ok(()) => {
            slot.closed.insert(ch);
            Ok(())
        }
        Err(fault) => {
            slot.closed = card.closed_mask();
            Err(fault)
        }
    }
}

/// Opens a channel of the card in the slot.
#[inline(always)]
pub(super) fn open_in<R: Relay, M: Meter>(
    slot: &mut CageSlot<R, M>,
    ch: u8,
) -> Result<(), CardFault>
    requires range { (1 ≤ ch) × (ch ≤ most_channels) }
    requires present { contents_have (slot_contents (option_account slot.old)) ch ≡ true }
    requires closed { option_closed (option_account slot.old) ch ≡ true }
    ensures ok { OnOk result (option_account slot.new ≡ option_set (option_account slot.old) ch false) }
    ensures err { OnErr result
        (IsSlotFault (option_account slot.old) (option_account slot.old) (option_account slot.new)) }
    ensures meter { meter_only slot.new ≡ meter_only slot.old }
{
    let Some(card) = &mut slot.card else {
        unreachable!();
    };
    match card.open(ch) {
        Ok(()) => {
            slot.closed.remove(ch);
            Ok(())
        }
        Err(fault) => {
            slot.closed = card.closed_mask();
            Err(fault)
        }
    }
}

/// Whether it is a meter, of which there is nothing to open.
fn is_meter_at_rest<R: Relay, M: Meter>(card: &Card<R, M>) -> bool
    ensures meter { result ≡ is_meter card.now.1 }
    ensures rest { result ≡ true → at_rest card.now.1 ≡ card.now.1 }
{
    card.is_meter() && !card.any_closed()
}

/// Opens every channel of the card in the slot. A meter is not touched.
pub(super) fn rest_in<R: Relay, M: Meter>(slot: &mut CageSlot<R, M>)
    ensures rest { option_account slot.new ≡ option_rest (option_account slot.old) }
    ensures meter { meter_only slot.new ≡ meter_only slot.old }
{
    let Some(card) = &mut slot.card else {
        return;
    };
    if is_meter_at_rest(card) {
        return;
    }
    card.open_all();
    slot.closed = Mask::new();
}

/// Takes the card out of the slot with every channel open.
pub(super) fn take_rested<R: Relay, M: Meter>(slot: &mut CageSlot<R, M>) -> Option<Card<R, M>>
    ensures card { option_account result ≡ option_rest (option_account slot.old) }
    ensures meter { meter_only result ≡ meter_only slot.old }
    ensures empty { slot.new ≡ None }
{
    rest_in(slot);
    slot.closed = Mask::new();
    slot.card.take()
}

/// Opens every channel of the cards in the slots.
pub(super) fn rest_all<R: Relay, M: Meter>(slots: &mut [CageSlot<R, M>])
    ensures open { accounts_of slots.new ≡ all_open (accounts_of slots.old) }
    ensures meters { meters_of slots.new ≡ meters_of slots.old }
{
    for slot in slots {
        rest_in(slot);
    }
}

/// Whether the card in the slot has the channel.
pub(super) fn present_in<R: Relay, M: Meter>(slot: &CageSlot<R, M>, ch: u8) -> bool
    ensures { result ≡ contents_have (slot_contents (option_account slot.now)) ch }
{
    match &slot.card {
        Some(card) => !card.is_meter() && ch >= 1 && ch <= card.channels(),
        None => false,
    }
}

/// Whether the card in the slot is sure of its relays; an empty slot has none.
pub(super) fn is_sure_in<R: Relay, M: Meter>(slot: &CageSlot<R, M>) -> bool
    ensures { result ≡ option_sure R.sure slot.now }
{
    match &slot.card {
        Some(card) => card.is_sure(),
        None => true,
    }
}

/// The group of a channel that the card in the slot has. Of the card it is asked only where its channels share none.
#[inline(always)]
pub(super) fn group_in<R: Relay, M: Meter>(slot: &CageSlot<R, M>, ch: u8) -> u8
    requires present { contents_have (slot_contents (option_account slot.now)) ch ≡ true }
    ensures { result ≡ contents_group (slot_contents (option_account slot.now)) ch }
{
    if let Some(group) = slot.shared {
        return group;
    }
    match &slot.card {
        Some(card) => card.group(ch),
        None => unreachable!(),
    }
}

/// Whether the channel is closed.
pub(super) fn closed_in<R: Relay, M: Meter>(slots: &[CageSlot<R, M>], chan: Chan) -> bool
    requires { length slots.now ≡ most_slots }
    ensures { result ≡ is_closed (accounts_of slots.now) chan }
{
    let slot = &slots[chan.slot() as usize - 1];
    slot.closed.has(chan.ch())
}

/// Takes the meter out of the slot.
#[inline(always)]
pub(super) fn take_meter<R: Relay, M: Meter>(slot: &mut CageSlot<R, M>) -> MeterCard<M>
    requires { contents_are_meter (slot_contents (option_account slot.old)) ≡ true }
    ensures meter { slot.old ≡ Some (inr result.0, of_meter result.1) }
    ensures empty { slot.new ≡ None }
{
    slot.closed = Mask::new();
    match slot.card.take() {
        Some(card) => match card.into_meter() {
            Ok(meter) => meter,
            Err(_) => unreachable!(),
        },
        None => unreachable!(),
    }
}

/// The group of each of the card's channels, from channel 1 on.
fn groups<R: Relay, M: Meter>(alloc: Global, card: &Card<R, M>) -> Result<Vec<u8>, AllocError>
    ensures { IfOk result (λ groups. groups.items ≡ card.now.1.groups) }
{
    let count = card.channels();
    let mut groups = Vec::with_capacity(alloc, count as usize)?;
    for before in 0..count {
        groups.push_reserved(card.group(before + 1));
    }
    Ok(groups)
}

/// What the slot holds, as a layout has it.
pub(super) fn contents_in<R: Relay, M: Meter>(
    alloc: Global,
    slot: &CageSlot<R, M>,
) -> Result<Slot, AllocError>
    ensures { IfOk result (λ contents. contents ≡ slot_contents (option_account slot.now)) }
{
    let Some(card) = &slot.card else {
        return Ok(Slot::empty());
    };
    if card.is_meter() {
        return Ok(Slot::meter());
    }
    Ok(Slot::relays(groups(alloc, card)?))
}

/// Whether these are the groups of the card's channels, from channel 1 on.
fn has_groups<R: Relay, M: Meter>(card: &Card<R, M>, groups: &[u8]) -> bool
    ensures { IsTrue result ↔ (groups.now ≡ card.now.1.groups) }
{
    let count = card.channels();
    if groups.len() != count as usize {
        return false;
    }
    for before in 0..count {
        if card.group(before + 1) != groups[before as usize] {
            return false;
        }
    }
    true
}

/// Whether the slot holds what the layout's slot says.
pub(super) fn is_as_in<R: Relay, M: Meter>(slot: &CageSlot<R, M>, contents: &Slot) -> bool
    ensures { IsTrue result ↔ (contents.now ≡ slot_contents (option_account slot.now)) }
{
    let Some(card) = &slot.card else {
        return !contents.is_meter() && contents.groups().is_none();
    };
    if card.is_meter() {
        return contents.is_meter();
    }
    match contents.groups() {
        Some(groups) => has_groups(card, groups),
        None => false,
    }
}
