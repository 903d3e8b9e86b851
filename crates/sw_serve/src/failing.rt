//! Cards that report to a log where a call of them fails.

ghost use Rattle.std.specs.Prelude.{◌≡◌, ◌++◌, ◌∷◌, [], List, IfOk};
ghost use Rattle.sw_serve.specs.SlotCards.{cards_seen, own_seen, relay_seen, meter_seen};

use crate::log::{Log, Remark};
use crate::slot_card::{OwnCard, SlotCard};
use std::alloc::{AllocError, Global};
use sw_base::Reading;
use sw_card::{Board, CardFault, Meter, Relay};

/// A card that reports to a log where a call of it fails.
#[derive(Drop)]
pub struct LoggedCard<C: Board, L: Log + Drop> {
    card: C,
    slot: u8,
    log: L,
}

impl<C: Board, L: Log + Drop> LoggedCard<C, L> {
    /// Reports that a call has failed.
    fn tell(&self) {
        self.log.tell(Remark::CardFailed(self.slot));
    }
}

impl<C: Board, L: Log + Drop> Board for LoggedCard<C, L> {
    ghost the_serial = { λ t. C.the_serial t.card };

    ghost failed = { λ t. C.failed t.card };

    fn serial(&self) -> u32 {
        self.card.serial()
    }

    fn failures(&self) -> u64 {
        self.card.failures()
    }
}

impl<R: Relay, L: Log + Drop> Relay for LoggedCard<R, L> {
    ghost groups = { λ t. R.groups t.card };

    ghost closed = { λ t. R.closed t.card };

    ghost sure = { λ t. R.sure t.card };

    fn channels(&self) -> u8 {
        self.card.channels()
    }

    fn group(&self, ch: u8) -> u8 {
        self.card.group(ch)
    }

    fn is_closed(&self, ch: u8) -> bool {
        self.card.is_closed(ch)
    }

    fn is_sure(&self) -> bool {
        self.card.is_sure()
    }

    fn close(&mut self, ch: u8) -> Result<(), CardFault> {
        let done = self.card.close(ch);
        if done.is_err() {
            self.tell();
        }
        done
    }

    fn open(&mut self, ch: u8) -> Result<(), CardFault> {
        let done = self.card.open(ch);
        if done.is_err() {
            self.tell();
        }
        done
    }

    fn open_all(&mut self) {
        self.card.open_all();
    }
}

impl<M: Meter, L: Log + Drop> Meter for LoggedCard<M, L> {
    ghost last_reading = { λ t. M.last_reading t.card };

    fn measure(&mut self) -> Result<Reading, CardFault> {
        let read = self.card.measure();
        if read.is_err() {
            self.tell();
        }
        read
    }

    fn last(&self) -> Option<Reading> {
        self.card.last()
    }
}

/// The card, which reports to a log.
fn with_log<R: Relay, M: Meter, L: Log + Drop>(
    own: OwnCard<R, M>,
    slot: u8,
    log: L,
) -> OwnCard<LoggedCard<R, L>, LoggedCard<M, L>>
    ensures { own_seen (relay_seen (λ t. R.the_serial t.card) (λ t. R.failed t.card) (λ t. R.groups t.card)
        (λ t. R.closed t.card)) (meter_seen (λ t. M.the_serial t.card) (λ t. M.failed t.card)
        (λ t. M.last_reading t.card)) result ≡ own_seen
        (relay_seen R.the_serial R.failed R.groups R.closed)
        (meter_seen M.the_serial M.failed M.last_reading) own }
{
    match own {
        OwnCard::Relays(card) => OwnCard::Relays(LoggedCard { card, slot, log }),
        OwnCard::Measures(card) => OwnCard::Measures(LoggedCard { card, slot, log }),
    }
}

/// The same cards, which report to a log where a call of them fails.
pub fn tell_failures<R: Relay, M: Meter, L: Log + Copy + Drop>(
    alloc: Global,
    cards: Vec<SlotCard<R, M>>,
    log: L,
) -> Result<Vec<SlotCard<LoggedCard<R, L>, LoggedCard<M, L>>>, AllocError>
    ensures { IfOk result (λ told. cards_seen (relay_seen (λ t. R.the_serial t.card) (λ t. R.failed t.card)
        (λ t. R.groups t.card) (λ t. R.closed t.card)) (meter_seen (λ t. M.the_serial t.card)
        (λ t. M.failed t.card) (λ t. M.last_reading t.card)) told.items ≡ cards_seen
        (relay_seen R.the_serial R.failed R.groups R.closed)
        (meter_seen M.the_serial M.failed M.last_reading) cards.items) }
{
    let mut told = Ok(Vec::new(alloc));
    for placed in cards {
        told = with_card(told, placed, log);
    }
    told
}

/// The cards so far and one more, which reports to a log, unless there was no memory.
fn with_card<R: Relay, M: Meter, L: Log + Drop>(
    told: Result<Vec<SlotCard<LoggedCard<R, L>, LoggedCard<M, L>>>, AllocError>,
    placed: SlotCard<R, M>,
    log: L,
) -> Result<Vec<SlotCard<LoggedCard<R, L>, LoggedCard<M, L>>>, AllocError>
    ensures { (cards : List (SlotCard R M)) → IfOk told (λ told. cards_seen (relay_seen (λ t. R.the_serial t.card)
        (λ t. R.failed t.card) (λ t. R.groups t.card) (λ t. R.closed t.card)) (meter_seen (λ t. M.the_serial t.card)
        (λ t. M.failed t.card) (λ t. M.last_reading t.card)) told.items ≡ cards_seen
        (relay_seen R.the_serial R.failed R.groups R.closed)
        (meter_seen M.the_serial M.failed M.last_reading) cards)
        → IfOk result (λ told. cards_seen (relay_seen (λ t. R.the_serial t.card)
        (λ t. R.failed t.card) (λ t. R.groups t.card) (λ t. R.closed t.card)) (meter_seen (λ t. M.the_serial t.card)
        (λ t. M.failed t.card) (λ t. M.last_reading t.card)) told.items ≡ cards_seen
        (relay_seen R.the_serial R.failed R.groups R.closed)
        (meter_seen M.the_serial M.failed M.last_reading) (cards ++ placed ∷ [])) }
{
    let mut told = told?;
    let SlotCard { slot, card } = placed;
    told.push(SlotCard {
        slot,
        card: with_log(card, slot, log),
    })?;
    Ok(told)
}
