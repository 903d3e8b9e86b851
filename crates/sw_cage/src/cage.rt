//! The cage as the layers above see it.

ghost use Rattle.std.specs.Prelude.{◌≡◌, ℕ, ◌-◌, ◌≤◌, List, [], ◌∷◌, Bool, true, false, None, Some, IsOk, OnOk, OnErr};
ghost use Rattle.std.specs.Prelude.{IfOk, IfErr, IfSome, IfNone, slice_set, replicate, is_some, ◌↔◌, IsTrue, ◌+◌, ◌<◌, ◌^◌, ◌||◌};
ghost use Rattle.std.specs.Prelude.{is_err, vec_capacity};
ghost use Rattle.sw_base.specs.Limits.{most_slots};
ghost use Rattle.sw_base.specs.Layout.{Channel, slot_at, is_present, has_meter, IsClash, IsExclusive};
ghost use Rattle.sw_card.specs.Account.{closed_at, is_meter};
ghost use Rattle.sw_cage.specs.Accounts.{accounts_of, layout_of, is_closed, with_chan, option_rest, all_open};
ghost use Rattle.sw_cage.specs.Accounts.{IsChannelFault};
ghost use Rattle.sw_cage.specs.Cards.{KeepsOthers, meters_of, with_card_back, KeepsMeters};
ghost use Rattle.sw_cage.specs.Change.{Sets, IsDisturbed, any_failed};
ghost use Rattle.sw_cage.specs.Install.{CanInstall, RefusesInstall, RefusesEject, stopped, without_card};
ghost use Rattle.sw_cage.specs.Close.{all_present, CanClose, RefusesClose};
ghost use Rattle.sw_cage.specs.Cage.{empty_cage, cage_with_cards, safe_state, cage_layout};
ghost use Rattle.sw_verify.specs.Channels.{is_among};
ghost use Rattle.sw_verify.specs.Sound.{IsSound};
ghost use Rattle.sw_cage.specs.Channels.{closed_list};
ghost use Rattle.sw_cage.specs.Work.{IsTold};
ghost use Rattle.sw_cage.specs.Good.{IsGood};
ghost use Rattle.sw_cage.specs.TakenSeen.{taken_seen, tells_fault, SaysIgnored};
ghost use Rattle.sw_cage.specs.Takes.{Takes, TakesReturn, AwaitsOther};
ghost use Rattle.sw_cage.specs.Outcome.{Advances, AdvancesPast, Counts, begun, with_back, readings_with};

mod awaiting;
mod layout;
mod surety;

use crate::job::{Finished, Ticket};
use crate::refusal::{CloseRefusal, EjectRefusal, InstallRefusal};
use crate::scan::Scan;
use crate::scan::machine::{go_on, go_past, take_in};
use crate::scan::tickets::Tickets;
use crate::slots::Slots;
use crate::taken::{Happening, Taken};
use std::alloc::{AllocError, Global};
use std::marker::Model;
use std::mem::replace;
use sw_base::{Chan, Reading};
use sw_card::{Card, CardFault, Meter, Relay};
use sw_verify::Course;

/// Slots, numbered from 1, that hold relay and meter cards.
///
/// Contracts see the cards themselves by slot (`cards`), and the cage as data (`seen`), in which each card is its own
/// account. A meter stays the very card in every call on the others. A relay card whose relays a call drives gets
/// another state of its driver; of that, contracts know only its account.
#[derive(Drop)]
pub struct Cage<R: Relay, M: Meter> {
    slots: Slots<R, M>,
    out: Tickets,
    number: u64,
    scan: Option<Scan>,
    readings: Vec<Reading>,
}

impl<R: Relay, M: Meter> Model for Cage<R, M> {
    ghost use Rattle.std.specs.Prelude.{◌⊎◌, vec_capacity};
    ghost use Rattle.sw_cage.specs.Accounts.{accounts_of};
    ghost use Rattle.sw_cage.specs.Cards.{CageState};
    ghost use Rattle.sw_cage.specs.Good.{IsGoodWithRoom};

    ghost Value = { CageState (R ⊎ M) };

    ghost view = { λ c. record {
      cards = c.slots;
      seen = record {
        cards = accounts_of c.slots;
        out = c.out;
        number = c.number;
        scan = c.scan;
        readings = c.readings.items;
      };
    } };

    ghost invariant = { λ c. IsGoodWithRoom (record {
      cards = accounts_of c.slots;
      out = c.out;
      number = c.number;
      scan = c.scan;
      readings = c.readings.items;
    }) (vec_capacity c.readings) };
}

impl<R: Relay, M: Meter> Cage<R, M> {
    /// An empty cage.
    pub fn new(alloc: Global) -> Result<Self, AllocError>
        ensures seen { IfOk result (λ cage. cage.seen ≡ empty_cage) }
        ensures cards { IfOk result (λ cage. cage.cards ≡ replicate most_slots None) }
    {
        Cage::with_number(alloc, 0)
    }

    /// An empty cage that counts its scans on from this number.
    pub fn with_number(alloc: Global, number: u64) -> Result<Self, AllocError>
        ensures seen { IfOk result (λ cage. cage.seen ≡ record empty_cage { number = number }) }
        ensures cards { IfOk result (λ cage. cage.cards ≡ replicate most_slots None) }
    {
        Ok(Cage {
            slots: Slots::new(alloc)?,
            out: Tickets::new(),
            number,
            scan: None,
            readings: Vec::new(alloc),
        })
    }

    /// Puts a card into an empty slot. A refused card comes back.
    pub fn install(
        &mut self,
        slot: u8,
        card: Card<R, M>,
    ) -> Result<(), (InstallRefusal, Card<R, M>)>
        ensures ok { OnOk result (self.new.seen ≡
            record self.old.seen { cards = slice_set self.old.seen.cards (slot - 1) (Some card.1) }) }
        ensures cards { OnOk result (self.new.cards ≡ slice_set self.old.cards (slot - 1) (Some card)) }
        ensures accepted { OnOk result (CanInstall self.old.seen.cards slot card.1) }
        ensures free { OnOk result ((self.old.seen.scan ≡ None) × (slot_at self.old.seen.out slot ≡ None)) }
        ensures refused { IfErr result (λ refusal. RefusesInstall self.old.seen slot card.1 refusal.0) }
        ensures err { OnErr result (self.new ≡ self.old) }
        ensures back { IfErr result (λ refusal. refusal.1 ≡ card) }
    {
        if self.scan.is_some() {
            return Err((InstallRefusal::Busy, card));
        }
        if self.out.at(slot).is_some() {
            return Err((InstallRefusal::Occupied, card));
        }
        self.slots.install(slot, card)
    }

    /// Opens the card's relays and takes it out; it first ends a scan that runs, as [`Cage::abort`] does.
    ///
    /// A meter is the very card that was there. Of a relay card contracts know its account, with every relay open.
    pub fn eject(&mut self, slot: u8) -> Result<Card<R, M>, EjectRefusal>
        ensures ok { IfOk result (λ card. option_rest (slot_at self.old.seen.cards slot) ≡ Some card.1) }
        ensures open { IfOk result (λ card. (ch : ℕ) → closed_at card.1.closed ch ≡ false) }
        ensures meter { IfOk result (λ card. is_meter card.1 ≡ true → slot_at self.old.cards slot ≡ Some card) }
        ensures taken { OnOk result (self.new.seen ≡ without_card (stopped self.old.seen) slot) }
        ensures idle { OnOk result (self.old.seen.scan ≡ None
            → self.new.cards ≡ slice_set self.old.cards (slot - 1) None) }
        ensures meters { OnOk result
            (meters_of self.new.cards ≡ slice_set (meters_of self.old.cards) (slot - 1) None) }
        ensures home { OnOk result (slot_at self.old.seen.out slot ≡ None) }
        ensures refused { IfErr result (λ refusal. RefusesEject self.old.seen slot refusal) }
        ensures err { OnErr result (self.new ≡ self.old) }
    {
        if self.out.at(slot).is_some() {
            return Err(EjectRefusal::Out);
        }
        if !self.slots.has_card(slot) {
            return Err(EjectRefusal::Vacant);
        }
        if self.scan.is_some() {
            self.abort();
        }
        self.take_card(slot)
    }

    /// Opens the card's relays and takes it out of the slot, which has one.
    fn take_card(&mut self, slot: u8) -> Result<Card<R, M>, EjectRefusal>
        requires idle { self.old.seen.scan ≡ None }
        requires home { slot_at self.old.seen.out slot ≡ None }
        requires card { is_some (slot_at self.old.seen.cards slot) ≡ true }
        ensures card { IfOk result (λ card. option_rest (slot_at self.old.seen.cards slot) ≡ Some card.1) }
        ensures meter { IfOk result (λ card. is_meter card.1 ≡ true → slot_at self.old.cards slot ≡ Some card) }
        ensures open { IfOk result (λ card. (ch : ℕ) → closed_at card.1.closed ch ≡ false) }
        ensures taken { self.new.seen ≡ without_card self.old.seen slot }
        ensures cards { self.new.cards ≡ slice_set self.old.cards (slot - 1) None }
        ensures there { IsOk result }
    {
        self.slots.eject(slot)
    }

    /// Ends the scan that runs, if one does, and opens every relay of every card. It cannot fail.
    pub fn abort(&mut self)
        ensures safe { self.new.seen ≡ safe_state self.old.seen }
        ensures meters { meters_of self.new.cards ≡ meters_of self.old.cards }
    {
        self.scan = None;
        self.open_all();
    }

    /// Closes one channel that clashes with no closed one, over all slots. No scan may run.
    pub fn close(&mut self, chan: Chan) -> Result<(), CardFault>
        requires idle { self.old.seen.scan ≡ None }
        requires present { is_present (layout_of self.old.seen.cards) chan ≡ true }
        requires open { is_closed self.old.seen.cards chan ≡ false }
        requires apart { (c : Channel) → is_closed self.old.seen.cards c ≡ true
            → IsClash (layout_of self.old.seen.cards) chan c → ⊥ }
        ensures ok { OnOk result (Sets self.old.seen.cards (chan ∷ []) true self.new.seen.cards) }
        ensures err { OnErr result (IsChannelFault self.old.seen.cards chan (with_chan self.old.seen.cards chan true)
            self.new.seen.cards) }
        ensures disturbed { OnErr result (IsDisturbed self.old.seen.cards (chan ∷ []) self.new.seen.cards) }
        ensures rest { self.new.seen ≡ cage_with_cards self.old.seen self.new.seen.cards }
        ensures others { self.new.cards ≡ slice_set self.old.cards (chan.0 - 1) (slot_at self.new.cards chan.0) }
        ensures meters { meters_of self.new.cards ≡ meters_of self.old.cards }
    {
        self.slots.close(chan)
    }

    /// Opens one channel. No scan may run.
    pub fn open(&mut self, chan: Chan) -> Result<(), CardFault>
        requires idle { self.old.seen.scan ≡ None }
        requires closed { is_closed self.old.seen.cards chan ≡ true }
        ensures ok { OnOk result (Sets self.old.seen.cards (chan ∷ []) false self.new.seen.cards) }
        ensures err { OnErr result (IsChannelFault self.old.seen.cards chan self.old.seen.cards self.new.seen.cards) }
        ensures disturbed { OnErr result (IsDisturbed self.old.seen.cards (chan ∷ []) self.new.seen.cards) }
        ensures rest { self.new.seen ≡ cage_with_cards self.old.seen self.new.seen.cards }
        ensures others { self.new.cards ≡ slice_set self.old.cards (chan.0 - 1) (slot_at self.new.cards chan.0) }
        ensures meters { meters_of self.new.cards ≡ meters_of self.old.cards }
    {
        self.slots.open(chan)
    }

    /// Opens every relay of every card. It cannot fail. No scan may run.
    pub fn open_all(&mut self)
        requires idle { self.old.seen.scan ≡ None }
        ensures open { self.new.seen ≡ record self.old.seen { cards = all_open self.old.seen.cards } }
        ensures meters { meters_of self.new.cards ≡ meters_of self.old.cards }
    {
        self.slots.open_all();
    }

    /// Whether the cage has the channel.
    pub fn is_present(&self, chan: Chan) -> bool
        ensures { result ≡ is_present (layout_of self.now.seen.cards) chan }
    {
        self.slots.is_present(chan)
    }

    /// Whether the cage has every channel of the list.
    pub fn all_present(&self, chans: &[Chan]) -> bool
        ensures { result ≡ all_present (layout_of self.now.seen.cards) chans.now }
    {
        self.slots.all_present(chans)
    }

    /// Whether the channel is closed.
    pub fn is_closed(&self, chan: Chan) -> bool
        ensures { result ≡ is_closed self.now.seen.cards chan }
    {
        self.slots.is_closed(chan)
    }

    /// Whether the channels may be closed together, beside what is closed.
    pub fn judge(&self, chans: &[Chan]) -> Result<(), CloseRefusal>
        ensures ok { OnOk result (CanClose (layout_of self.now.seen.cards) (is_closed self.now.seen.cards) chans.now) }
        ensures err { IfErr result (λ refusal.
            RefusesClose (layout_of self.now.seen.cards) (is_closed self.now.seen.cards) chans.now refusal) }
    {
        self.slots.judge(chans)
    }

    /// Closes the channels that are open, in order. It stops at the first fault. No scan may run.
    pub fn close_listed(&mut self, chans: &[Chan]) -> Result<(), CardFault>
        requires idle { self.old.seen.scan ≡ None }
        requires apart { CanClose (layout_of self.old.seen.cards) (is_closed self.old.seen.cards) chans.now }
        ensures ok { OnOk result (Sets self.old.seen.cards chans.now true self.new.seen.cards) }
        ensures err { OnErr result (IsDisturbed self.old.seen.cards chans.now self.new.seen.cards) }
        ensures rest { self.new.seen ≡ cage_with_cards self.old.seen self.new.seen.cards }
        ensures others { KeepsOthers self.old.cards chans.now self.new.cards }
        ensures meters { meters_of self.new.cards ≡ meters_of self.old.cards }
    {
        self.slots.close_listed(chans)
    }

    /// Opens the channels that are closed, in order. It stops at the first fault. No scan may run.
    pub fn open_listed(&mut self, chans: &[Chan]) -> Result<(), CardFault>
        requires idle { self.old.seen.scan ≡ None }
        ensures ok { OnOk result (Sets self.old.seen.cards chans.now false self.new.seen.cards) }
        ensures err { OnErr result (IsDisturbed self.old.seen.cards chans.now self.new.seen.cards) }
        ensures rest { self.new.seen ≡ cage_with_cards self.old.seen self.new.seen.cards }
        ensures others { KeepsOthers self.old.cards chans.now self.new.cards }
        ensures meters { meters_of self.new.cards ≡ meters_of self.old.cards }
    {
        self.slots.open_listed(chans)
    }

    /// The card in the slot; none, where it is empty, or its meter is out.
    pub fn card(&self, slot: u8) -> Option<&Card<R, M>>
        ensures some { IfSome result (λ card. slot_at self.now.cards slot ≡ Some card.now) }
        ensures account { IfSome result (λ card. slot_at self.now.seen.cards slot ≡ Some card.now.1) }
        ensures none { IfNone result (slot_at self.now.seen.cards slot ≡ None) }
    {
        self.slots.card(slot)
    }

    /// Whether the slot's meter is out.
    pub fn has_out(&self, slot: u8) -> bool
        ensures { result ≡ is_some (slot_at self.now.seen.out slot) }
    {
        self.out.at(slot).is_some()
    }

    /// How many scans have begun.
    pub fn number(&self) -> u64
        ensures { result ≡ self.now.seen.number }
    {
        self.number
    }

    /// The readings of the last scan, the oldest first.
    pub fn readings(&self) -> &[Reading]
        ensures { result.now ≡ self.now.seen.readings }
    {
        self.readings.as_slice()
    }

    /// Drops the readings. No scan may run.
    pub fn reset_readings(&mut self)
        requires idle { self.old.seen.scan ≡ None }
        ensures { self.new ≡ record self.old { seen = record self.old.seen { readings = [] } } }
    {
        self.readings.clear();
    }

    /// A law: what holds of every cage. It costs nothing.
    pub fn stays_good(&self)
        ensures good { IsGood self.now.seen }
        ensures accounts { self.now.seen.cards ≡ accounts_of self.now.cards }
        ensures exclusive { IsExclusive (layout_of self.now.seen.cards) (is_closed self.now.seen.cards) }
    {
        self.slots.stay_safe();
    }

    /// Whether a scan runs.
    pub fn is_running(&self) -> bool
        ensures { result ≡ is_some self.now.seen.scan }
    {
        self.scan.is_some()
    }

    /// Begins the scan of a course that is sound for the cards and what is closed: its number is one more, and the cage
    /// drops the readings of the last one. It first takes memory for its readings, or uses theirs, so that no happening
    /// of the scan needs memory; after an error nothing changed.
    pub fn start(&mut self, alloc: Global, course: Course) -> Result<Taken<M>, AllocError>
        requires idle { self.old.seen.scan ≡ None }
        requires number { self.old.seen.number + 1 < 2 ^ 64 }
        requires home { slot_at self.old.seen.out course.meter ≡ None }
        requires measured { has_meter (cage_layout self.old.seen) course.meter ≡ true }
        requires sound { IsSound (cage_layout self.old.seen) (is_among (closed_list self.old.seen.cards)) course.points
            course.items }
        ensures ok { IfOk result (λ taken. Advances (begun self.old.seen) course 0 (taken_seen taken) self.new.seen) }
        ensures meters { IfOk result (λ taken. KeepsMeters self.old.cards taken self.new.cards) }
        ensures failed { IfOk result (λ taken.
            tells_fault (taken_seen taken) ≡ any_failed self.old.seen.cards self.new.seen.cards) }
        ensures err { OnErr result (self.new ≡ self.old) }
    {
        self.slots.stay_safe();
        let readings = room_for(alloc, &mut self.readings, course.readings() as usize)?;
        self.number += 1;
        self.readings = readings;
        self.scan = Some(Scan::begin(course));
        let taken = go_on(&mut self.slots, &mut self.out, &mut self.scan, self.number);
        Ok(taken)
    }

    /// Offers a happening to the scan that runs. One that it does not take changes nothing.
    #[inline(always)]
    pub fn take(&mut self, happening: Happening) -> Taken<M>
        ensures ignored { (Takes self.old.seen happening → ⊥)
            → (taken_seen result ≡ SaysIgnored) × (self.new ≡ self.old) }
        ensures taken { Takes self.old.seen happening → AdvancesPast self.old.seen (taken_seen result) self.new.seen }
        ensures takes { (taken_seen result ≡ SaysIgnored → ⊥) → Takes self.old.seen happening }
        ensures failed { tells_fault (taken_seen result) ≡ any_failed self.old.seen.cards self.new.seen.cards }
        ensures readings { self.new.seen.readings ≡ self.old.seen.readings }
        ensures meters { KeepsMeters self.old.cards result self.new.cards }
    {
        if !self.takes(happening) {
            return Taken::Ignored;
        }
        self.go_past()
    }

    #[inline(always)]
    fn takes(&self, happening: Happening) -> bool
        ensures { IsTrue result ↔ Takes self.now.seen happening }
    {
        match &self.scan {
            Some(scan) => scan.takes(self.number, happening),
            None => false,
        }
    }

    /// Goes past what the scan awaits, which is no reading.
    #[inline(always)]
    fn go_past(&mut self) -> Taken<M>
        requires { AwaitsOther self.old.seen.scan }
        ensures past { AdvancesPast self.old.seen (taken_seen result) self.new.seen }
        ensures meters { KeepsMeters self.old.cards result self.new.cards }
    {
        go_past(&mut self.slots, &mut self.out, &mut self.scan, self.number)
    }

    /// Takes a meter back. `Err` gives back one that is not out of its slot under its ticket.
    ///
    /// Where the scan that runs awaits it, the scan adds its reading and continues; its failure ends the scan, as that
    /// of any card call. The late return of a scan that is over adds nothing, and its failure ends nothing.
    ///
    /// The slot has the very meter that came, unless the scan sent it out again: then it is that of the job.
    #[inline(always)]
    pub fn finish(&mut self, finished: Finished<M>) -> Result<Taken<M>, Finished<M>>
        ensures in_slot { OnOk result (slot_at self.old.seen.out finished.1.slot ≡ Some finished.1.ticket) }
        ensures late { IfOk result (λ taken. (TakesReturn self.old.seen finished.1.slot finished.1.ticket → ⊥)
            → (taken_seen taken ≡ SaysIgnored) × (self.new.seen ≡ with_back self.old.seen finished.1)) }
        ensures late_cards { IfOk result (λ taken. (TakesReturn self.old.seen finished.1.slot finished.1.ticket → ⊥)
            → self.new.cards ≡ with_card_back self.old.cards finished) }
        ensures meters { IfOk result (λ taken.
            KeepsMeters (with_card_back self.old.cards finished) taken self.new.cards) }
        ensures taken { IfOk result (λ taken. TakesReturn self.old.seen finished.1.slot finished.1.ticket
            → Counts (with_back self.old.seen finished.1) finished.1.outcome (taken_seen taken) self.new.seen) }
        ensures takes { IfOk result (λ taken. (taken_seen taken ≡ SaysIgnored → ⊥)
            → TakesReturn self.old.seen finished.1.slot finished.1.ticket) }
        ensures failed { IfOk result (λ taken. TakesReturn self.old.seen finished.1.slot finished.1.ticket
            → tells_fault (taken_seen taken) ≡ (is_err finished.1.outcome
            || any_failed (with_back self.old.seen finished.1).cards self.new.seen.cards)) }
        ensures readings { IfOk result (λ taken. TakesReturn self.old.seen finished.1.slot finished.1.ticket
            → self.new.seen.readings ≡ readings_with self.old.seen.readings finished.1.outcome) }
        ensures told { IsTold finished.1 }
        ensures elsewhere { OnErr result (slot_at self.old.seen.out finished.1.slot ≡ Some finished.1.ticket → ⊥) }
        ensures err { OnErr result (self.new ≡ self.old) }
        ensures back { IfErr result (λ back. back ≡ finished) }
    {
        if !self.out.has(finished.slot, finished.ticket) {
            return Err(finished);
        }
        if self.takes_return(finished.slot, finished.ticket) {
            return Ok(self.count(finished));
        }
        self.put_back(finished);
        Ok(Taken::Ignored)
    }

    #[inline(always)]
    fn takes_return(&self, slot: u8, ticket: Ticket) -> bool
        ensures { IsTrue result ↔ TakesReturn self.now.seen slot ticket }
    {
        match &self.scan {
            Some(scan) => scan.takes_return(self.number, slot, ticket),
            None => false,
        }
    }

    /// Puts a meter back that the scan does not await.
    #[inline(never)]
    fn put_back(&mut self, finished: Finished<M>)
        requires out { slot_at self.old.seen.out finished.1.slot ≡ Some finished.1.ticket }
        requires late { TakesReturn self.old.seen finished.1.slot finished.1.ticket → ⊥ }
        ensures back { self.new.seen ≡ with_back self.old.seen finished.1 }
        ensures cards { self.new.cards ≡ with_card_back self.old.cards finished }
    {
        let Finished { slot, meter, .. } = finished;
        take_in(&mut self.slots, &mut self.out, slot, meter);
    }

    /// Puts the meter back that the scan awaits, adds its reading and advances the scan; its failure ends the scan.
    #[inline(always)]
    fn count(&mut self, finished: Finished<M>) -> Taken<M>
        requires out { slot_at self.old.seen.out finished.1.slot ≡ Some finished.1.ticket }
        requires taken { TakesReturn self.old.seen finished.1.slot finished.1.ticket }
        ensures meters { KeepsMeters (with_card_back self.old.cards finished) result self.new.cards }
        ensures counts { Counts (with_back self.old.seen finished.1) finished.1.outcome (taken_seen result)
            self.new.seen }
    {
        let Finished {
            slot,
            meter,
            outcome,
            ..
        } = finished;
        take_in(&mut self.slots, &mut self.out, slot, meter);
        let Ok(reading) = outcome else {
            self.slots.open_all();
            self.scan = None;
            return Taken::Fault;
        };
        self.readings.push_reserved(reading);
        go_past(&mut self.slots, &mut self.out, &mut self.scan, self.number)
    }
}

/// Room for `count` readings, with none in it: that of the last ones where it is enough. After an error the last ones
/// are unchanged.
fn room_for(
    alloc: Global,
    last: &mut Vec<Reading>,
    count: usize,
) -> Result<Vec<Reading>, AllocError>
    ensures items { IfOk result (λ room. room.items ≡ []) }
    ensures enough { IfOk result (λ room. count ≤ vec_capacity room) }
    ensures same { OnErr result (last.new ≡ last.old) }
{
    if last.capacity() < count {
        return Vec::with_capacity(alloc, count);
    }
    let mut room = replace(last, Vec::new(alloc));
    room.clear();
    Ok(room)
}
