//! The slots and their cards.

ghost use Rattle.std.specs.Prelude.{◌≡◌, ℕ, ◌+◌, ◌-◌, ◌≤◌, ◌<◌, ◌++◌, ◌∷◌, [], length, take, replicate, slice_set};
ghost use Rattle.std.specs.Prelude.{true, false, None, Some, is_some, OnOk, OnErr, IfOk, IfErr, IfSome, IfNone};
ghost use Rattle.std.specs.Prelude.{◌↔◌, ◌≢◌, IsTrue};
ghost use Rattle.std.specs.List.{filter};
ghost use Rattle.std.proofs.Common.{inr};
ghost use Rattle.sw_base.specs.Limits.{most_slots, most_channels};
ghost use Rattle.sw_base.specs.Layout.{Channel, slot_at, is_present, group_of, IsClash, has_meter};
ghost use Rattle.sw_card.specs.Account.{closed_at, is_meter, of_meter};
ghost use Rattle.sw_cage.specs.Accounts.{accounts_of, layout_of, is_closed, AreSafe, with_chan, option_rest};
ghost use Rattle.sw_cage.specs.Accounts.{all_open, IsChannelFault};
ghost use Rattle.sw_cage.specs.Cards.{KeepsOthers, meters_of, all_sure};
ghost use Rattle.sw_cage.specs.Change.{Sets, IsDisturbed};
ghost use Rattle.sw_cage.specs.Install.{CanInstall, SlotsRefuseInstall, SlotsRefuseEject};
ghost use Rattle.sw_cage.specs.Close.{closed_with, HasClash, all_present, CanClose, RefusesClose};
ghost use Rattle.sw_cage.specs.Claims.{IndexesClaims};
ghost use Rattle.sw_cage.specs.Channels.{row, rows, closed_list};

mod claims;
mod slot;

use self::claims::Claims;
use self::slot::CageSlot;
use crate::refusal::{CloseRefusal, EjectRefusal, InstallRefusal};
use std::alloc::{AllocError, Global};
use std::marker::Model;
use sw_base::{CHANNELS, Chan, SLOTS};
use sw_card::{Card, CardFault, Meter, MeterCard, Relay};
use sw_verify::Slot;

/// How many slots there are.
pub(crate) const SLOT_PLACES: usize = SLOTS as usize;

/// All slots, the cards in them, and by group the closed channel that it has. Contracts see the cards.
#[derive(Drop)]
pub(crate) struct Slots<R: Relay, M: Meter> {
    slots: Vec<CageSlot<R, M>>,
    claims: Claims,
}

impl<R: Relay, M: Meter> Model for Slots<R, M> {
    ghost use Rattle.std.specs.Prelude.{◌⊎◌};
    ghost use Rattle.sw_cage.specs.Accounts.{accounts_of};
    ghost use Rattle.sw_cage.specs.Cards.{Cards};
    ghost use Rattle.sw_cage.specs.Claims.{AreClaimed};

    ghost Value = { Cards (R ⊎ M) };

    ghost view = { λ c. c.slots.items };

    ghost invariant = { λ c. AreClaimed (accounts_of c.slots.items) c.claims };
}

impl<R: Relay, M: Meter> Slots<R, M> {
    /// Empty slots.
    pub(crate) fn new(alloc: Global) -> Result<Self, AllocError>
        ensures { IfOk result (λ slots. slots ≡ replicate most_slots None) }
    {
        let mut slots = Vec::with_capacity(alloc, SLOT_PLACES)?;
        for _ in 0..SLOT_PLACES {
            slots.push(CageSlot::empty())?;
        }
        Ok(Slots {
            slots,
            claims: Claims::new(),
        })
    }

    /// Whether the slot is one of the cage's and has a card.
    pub(crate) fn has_card(&self, slot: u8) -> bool
        ensures { result ≡ is_some (slot_at (accounts_of self.now) slot) }
    {
        slot >= 1 && slot <= SLOTS && self.slots[slot as usize - 1].card.is_some()
    }

    /// The slot's card.
    #[tactic(auto, using(crate::proofs::SlotChangeLemmas::slot_past))]
    pub(crate) fn card(&self, slot: u8) -> Option<&Card<R, M>>
        ensures some { IfSome result (λ card. slot_at self.now slot ≡ Some card.now) }
        ensures account { IfSome result (λ card. slot_at (accounts_of self.now) slot ≡ Some card.now.1) }
        ensures none { IfNone result (slot_at (accounts_of self.now) slot ≡ None) }
    {
        if slot >= 1 && slot <= SLOTS {
            self.slots[slot as usize - 1].card.as_ref()
        } else {
            None
        }
    }

    /// Puts a card into an empty slot.
    pub(crate) fn install(
        &mut self,
        slot: u8,
        card: Card<R, M>,
    ) -> Result<(), (InstallRefusal, Card<R, M>)>
        ensures ok { OnOk result (self.new ≡ slice_set self.old (slot - 1) (Some card)) }
        ensures account { OnOk result
            (accounts_of self.new ≡ slice_set (accounts_of self.old) (slot - 1) (Some card.1)) }
        ensures accepted { OnOk result (CanInstall (accounts_of self.old) slot card.1) }
        ensures refused { IfErr result (λ refusal. SlotsRefuseInstall (accounts_of self.old) slot card.1 refusal.0) }
        ensures err { OnErr result (self.new ≡ self.old) }
        ensures back { IfErr result (λ refusal. refusal.1 ≡ card) }
    {
        if self.has_card(slot) {
            return Err((InstallRefusal::Occupied, card));
        }
        if slot < 1 || slot > SLOTS {
            return Err((InstallRefusal::BadLayout, card));
        }
        if !slot::is_fit(&card) {
            return Err((InstallRefusal::BadLayout, card));
        }
        self.slots[slot as usize - 1] = CageSlot::with(card);
        Ok(())
    }

    /// Opens the card's relays and takes it out.
    pub(crate) fn eject(&mut self, slot: u8) -> Result<Card<R, M>, EjectRefusal>
        ensures ok { IfOk result (λ card. option_rest (slot_at (accounts_of self.old) slot) ≡ Some card.1) }
        ensures open { IfOk result (λ card. (ch : ℕ) → closed_at card.1.closed ch ≡ false) }
        ensures meter { IfOk result (λ card. is_meter card.1 ≡ true → slot_at self.old slot ≡ Some card) }
        ensures taken { OnOk result (self.new ≡ slice_set self.old (slot - 1) None) }
        ensures emptied { OnOk result (accounts_of self.new ≡ slice_set (accounts_of self.old) (slot - 1) None) }
        ensures refused { IfErr result (λ refusal. SlotsRefuseEject (accounts_of self.old) slot refusal) }
        ensures err { OnErr result (self.new ≡ self.old) }
    {
        if !self.has_card(slot) {
            return Err(EjectRefusal::Vacant);
        }
        match slot::take_rested(&mut self.slots[slot as usize - 1]) {
            Some(card) => {
                self.claims.keep_closed(&self.slots);
                Ok(card)
            }
            None => unreachable!(),
        }
    }

    /// Closes one channel.
    #[inline(always)]
    pub(crate) fn close(&mut self, chan: Chan) -> Result<(), CardFault>
        requires present { is_present (layout_of (accounts_of self.old)) chan ≡ true }
        requires open { is_closed (accounts_of self.old) chan ≡ false }
        requires apart { (c : Channel) → is_closed (accounts_of self.old) c ≡ true
            → IsClash (layout_of (accounts_of self.old)) chan c → ⊥ }
        ensures ok { OnOk result (Sets (accounts_of self.old) (chan ∷ []) true (accounts_of self.new)) }
        ensures err { OnErr result (IsChannelFault (accounts_of self.old) chan
            (with_chan (accounts_of self.old) chan true) (accounts_of self.new)) }
        ensures disturbed { OnErr result (IsDisturbed (accounts_of self.old) (chan ∷ []) (accounts_of self.new)) }
        ensures others { self.new ≡ slice_set self.old (chan.0 - 1) (slot_at self.new chan.0) }
        ensures elsewhere { (slot : ℕ) → chan.0 ≢ slot → slot_at self.new slot ≡ slot_at self.old slot }
        ensures meters { meters_of self.new ≡ meters_of self.old }
    {
        let group = self.group(chan);
        self.claims.hold(group, chan);
        match slot::close_in(&mut self.slots[chan.slot() as usize - 1], chan.ch()) {
            Ok(()) => return Ok(()),
            Err(fault) => {
                self.claims.keep_closed(&self.slots);
                return Err(fault);
            }
        }
    }

    /// Opens one channel.
    #[inline(always)]
    pub(crate) fn open(&mut self, chan: Chan) -> Result<(), CardFault>
        requires { is_closed (accounts_of self.old) chan ≡ true }
        ensures ok { OnOk result (Sets (accounts_of self.old) (chan ∷ []) false (accounts_of self.new)) }
        ensures err { OnErr result
            (IsChannelFault (accounts_of self.old) chan (accounts_of self.old) (accounts_of self.new)) }
        ensures disturbed { OnErr result (IsDisturbed (accounts_of self.old) (chan ∷ []) (accounts_of self.new)) }
        ensures others { self.new ≡ slice_set self.old (chan.0 - 1) (slot_at self.new chan.0) }
        ensures elsewhere { (slot : ℕ) → chan.0 ≢ slot → slot_at self.new slot ≡ slot_at self.old slot }
        ensures meters { meters_of self.new ≡ meters_of self.old }
    {
        let group = self.group(chan);
        match slot::open_in(&mut self.slots[chan.slot() as usize - 1], chan.ch()) {
            Ok(()) => {
                self.claims.release(group);
                return Ok(());
            }
            Err(fault) => {
                self.claims.keep_closed(&self.slots);
                return Err(fault);
            }
        }
    }

    /// Opens every relay of every card.
    #[inline(never)]
    pub(crate) fn open_all(&mut self)
        ensures open { accounts_of self.new ≡ all_open (accounts_of self.old) }
        ensures meters { meters_of self.new ≡ meters_of self.old }
    {
        slot::rest_all(&mut self.slots);
        self.claims = Claims::new();
    }

    /// Whether every card is sure of its relays.
    pub(crate) fn is_sure(&self) -> bool
        ensures { result ≡ all_sure R.sure self.now }
    {
        self.slots.iter().all(|slot| slot::is_sure_in(slot))
    }

    /// Whether the cage has the channel.
    pub(crate) fn is_present(&self, chan: Chan) -> bool
        ensures { result ≡ is_present (layout_of (accounts_of self.now)) chan }
    {
        slot::present_in(&self.slots[chan.slot() as usize - 1], chan.ch())
    }

    /// Whether the channel is closed.
    pub(crate) fn is_closed(&self, chan: Chan) -> bool
        ensures { result ≡ is_closed (accounts_of self.now) chan }
    {
        slot::closed_in(&self.slots, chan)
    }

    /// The group of a channel that the cage has.
    #[inline(always)]
    fn group(&self, chan: Chan) -> u8
        requires { is_present (layout_of (accounts_of self.now)) chan ≡ true }
        ensures { result ≡ group_of (layout_of (accounts_of self.now)) chan }
    {
        slot::group_in(&self.slots[chan.slot() as usize - 1], chan.ch())
    }

    /// Whether the cage has every channel of the list.
    pub(crate) fn all_present(&self, chans: &[Chan]) -> bool
        ensures { result ≡ all_present (layout_of (accounts_of self.now)) chans.now }
    {
        chans.iter().all(|chan| self.is_present(*chan))
    }

    /// Closes the channels that are open, in order.
    pub(crate) fn close_listed(&mut self, chans: &[Chan]) -> Result<(), CardFault>
        requires { CanClose (layout_of (accounts_of self.old)) (is_closed (accounts_of self.old)) chans.now }
        ensures ok { OnOk result (Sets (accounts_of self.old) chans.now true (accounts_of self.new)) }
        ensures err { OnErr result (IsDisturbed (accounts_of self.old) chans.now (accounts_of self.new)) }
        ensures others { KeepsOthers self.old chans.now self.new }
        ensures meters { meters_of self.new ≡ meters_of self.old }
    {
        for chan in chans {
            if !self.is_closed(*chan) {
                self.close(*chan)?;
            }
        }
        Ok(())
    }

    /// Opens the channels that are closed, in order.
    pub(crate) fn open_listed(&mut self, chans: &[Chan]) -> Result<(), CardFault>
        ensures ok { OnOk result (Sets (accounts_of self.old) chans.now false (accounts_of self.new)) }
        ensures err { OnErr result (IsDisturbed (accounts_of self.old) chans.now (accounts_of self.new)) }
        ensures others { KeepsOthers self.old chans.now self.new }
        ensures meters { meters_of self.new ≡ meters_of self.old }
    {
        for chan in chans {
            if self.is_closed(*chan) {
                self.open(*chan)?;
            }
        }
        Ok(())
    }

    /// Claims for each channel of the list its group, unless another channel has it.
    fn claim_listed(&self, chans: &[Chan], claims: &mut Claims) -> bool
        requires present { all_present (layout_of (accounts_of self.now)) chans.now ≡ true }
        requires held { IndexesClaims (layout_of (accounts_of self.now))
            (λ c. is_closed (accounts_of self.now) c ≡ true) claims.old }
        ensures apart { result ≡ true → HasClash (layout_of (accounts_of self.now))
            (closed_with (is_closed (accounts_of self.now)) chans.now) → ⊥ }
        ensures clash { result ≡ false → HasClash (layout_of (accounts_of self.now))
            (closed_with (is_closed (accounts_of self.now)) chans.now) }
    {
        for chan in chans {
            if !claims.claim(self.group(*chan), *chan) {
                return false;
            }
        }
        true
    }

    /// Whether the channels may be closed together.
    pub(crate) fn judge(&self, chans: &[Chan]) -> Result<(), CloseRefusal>
        ensures ok { OnOk result
            (CanClose (layout_of (accounts_of self.now)) (is_closed (accounts_of self.now)) chans.now) }
        ensures err { IfErr result (λ refusal.
            RefusesClose (layout_of (accounts_of self.now)) (is_closed (accounts_of self.now)) chans.now refusal) }
    {
        if !self.all_present(chans) {
            return Err(CloseRefusal::Absent);
        }
        if !self.are_apart(chans) {
            return Err(CloseRefusal::Clash);
        }
        Ok(())
    }

    /// Whether no two channels clash once those of the list are closed too. One alone takes no copy of the claims.
    fn are_apart(&self, chans: &[Chan]) -> bool
        requires { all_present (layout_of (accounts_of self.now)) chans.now ≡ true }
        ensures apart { result ≡ true → HasClash (layout_of (accounts_of self.now))
            (closed_with (is_closed (accounts_of self.now)) chans.now) → ⊥ }
        ensures clash { result ≡ false → HasClash (layout_of (accounts_of self.now))
            (closed_with (is_closed (accounts_of self.now)) chans.now) }
    {
        if let [chan] = chans {
            return self.claims.is_free(self.group(*chan), *chan);
        }
        let mut claims = self.claims;
        self.claim_listed(chans, &mut claims)
    }

    /// Appends the closed channels of the slot.
    fn push_closed(&self, slot: u8, chans: &mut Vec<Chan>) -> Result<(), AllocError>
        requires { (1 ≤ slot) × (slot ≤ most_slots) }
        ensures { OnOk result (chans.new.items
            ≡ chans.old.items ++ filter (is_closed (accounts_of self.now)) (row slot most_channels)) }
    {
        let mut left = self.slots[slot as usize - 1].closed();
        for _ in 0..CHANNELS {
            let Some(ch) = left.lowest() else {
                return Ok(());
            };
            chans.push(Chan::new(slot, ch))?;
            left.remove(ch);
        }
        Ok(())
    }

    /// The closed channels, by slot and channel.
    pub(crate) fn closed_chans(&self, alloc: Global) -> Result<Vec<Chan>, AllocError>
        ensures { IfOk result (λ chans. chans.items ≡ closed_list (accounts_of self.now)) }
    {
        let mut chans = Vec::new(alloc);
        for before in 0..SLOTS {
            self.push_closed(before + 1, &mut chans)?;
        }
        Ok(chans)
    }

    /// Where the closed channels of one more slot end in the list, unless it is not the list of the closed ones.
    fn past_closed(&self, before: u8, chans: &[Chan], at: usize) -> Option<usize>
        requires slot_in { before < most_slots }
        requires within { at ≤ length chans.now }
        requires kept { take at chans.now ≡ filter (is_closed (accounts_of self.now)) (rows before) }
        ensures within { IfSome result (λ past. past ≤ length chans.now) }
        ensures kept { IfSome result (λ past.
            take past chans.now ≡ filter (is_closed (accounts_of self.now)) (rows (before + 1))) }
        ensures other { IfNone result (chans.now ≡ closed_list (accounts_of self.now) → ⊥) }
    {
        let mut past = at;
        let mut left = self.slots[before as usize].closed();
        for _ in 0..CHANNELS {
            let Some(ch) = left.lowest() else {
                return Some(past);
            };
            let chan = Chan::new(before + 1, ch);
            if past >= chans.len() || chans[past] != chan {
                return None;
            }
            past += 1;
            left.remove(ch);
        }
        Some(past)
    }

    /// Whether these are the closed channels, by slot and channel.
    pub(crate) fn has_closed(&self, chans: &[Chan]) -> bool
        ensures { IsTrue result ↔ (chans.now ≡ closed_list (accounts_of self.now)) }
    {
        let mut at = 0;
        for before in 0..SLOTS {
            let Some(past) = self.past_closed(before, chans, at) else {
                return false;
            };
            at = past;
        }
        at == chans.len()
    }

    /// Takes the slot's meter out.
    #[inline(always)]
    pub(crate) fn take_meter(&mut self, slot: u8) -> MeterCard<M>
        requires slot_in { (1 ≤ slot) × (slot ≤ most_slots) }
        requires meter { has_meter (layout_of (accounts_of self.old)) slot ≡ true }
        ensures meter { slot_at self.old slot ≡ Some (inr result.0, of_meter result.1) }
        ensures empty { self.new ≡ slice_set self.old (slot - 1) None }
        ensures account { slot_at (accounts_of self.old) slot ≡ Some (of_meter result.1) }
        ensures emptied { accounts_of self.new ≡ slice_set (accounts_of self.old) (slot - 1) None }
    {
        slot::take_meter(&mut self.slots[slot as usize - 1])
    }

    /// Puts a meter into the slot.
    #[inline(always)]
    pub(crate) fn put_meter(&mut self, slot: u8, meter: MeterCard<M>)
        requires { (1 ≤ slot) × (slot ≤ most_slots) }
        ensures card { self.new ≡ slice_set self.old (slot - 1) (Some (inr meter.0, of_meter meter.1)) }
        ensures account { accounts_of self.new ≡ slice_set (accounts_of self.old) (slot - 1) (Some (of_meter meter.1)) }
    {
        let had_none = self.slots[slot as usize - 1].closed().is_empty();
        self.slots[slot as usize - 1] = CageSlot::with_meter(meter);
        if had_none {
            return;
        }
        self.claims.keep_closed(&self.slots);
    }

    /// What the slot holds, as a layout has it.
    pub(crate) fn contents(&self, alloc: Global, slot: u8) -> Result<Slot, AllocError>
        requires { (1 ≤ slot) × (slot ≤ most_slots) }
        ensures { IfOk result (λ contents. contents ≡ slot_at (layout_of (accounts_of self.now)) slot) }
    {
        slot::contents_in(alloc, &self.slots[slot as usize - 1])
    }

    /// Whether the slot holds what the layout's slot says.
    pub(crate) fn is_as(&self, slot: u8, contents: &Slot) -> bool
        requires { (1 ≤ slot) × (slot ≤ most_slots) }
        ensures { IsTrue result ↔ (contents.now ≡ slot_at (layout_of (accounts_of self.now)) slot) }
    {
        slot::is_as_in(&self.slots[slot as usize - 1], contents)
    }

    /// A law: of all slots only present channels are closed, with a number in its range, and no two of them clash.
    pub(crate) fn stay_safe(&self)
        ensures safe { AreSafe (accounts_of self.now) }
        ensures range { (c : Channel) → is_closed (accounts_of self.now) c ≡ true
            → (1 ≤ c.0) × (c.0 ≤ most_slots) × (1 ≤ c.1) × (c.1 ≤ most_channels) }
    {
        // Reading a field gives the proof what holds of every `Slots`.
        let _ = &self.slots;
    }
}
