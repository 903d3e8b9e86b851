//! The status board: one word, from which the status byte and the number of service requests are read without a lock.

ghost use Rattle.std.specs.Prelude.{◌≡◌, ◌<◌, ◌^◌, ℕ, [], IfOk};
ghost use Rattle.atomic_table.specs.Seated.{TableId};
ghost use Rattle.sw_history.specs.Board.{first_seat, pair_in};

use crate::seat::LockedPass;
use atomic_table::{Join, Play, Seat, Shared, Split, Table, TableRule};
use std::alloc::{AllocError, Global};
use std::marker::{Brand, Model, PhantomData};

/// What a seat knows, which contracts see. No value of it is made.
pub struct SeatState;

impl Model for SeatState {
    ghost use Rattle.sw_history.specs.Board.{Known, spent};

    ghost Value = { Known };

    ghost view = { λ _. spent };
}

/// The rule of the board: its word is the last pair of one history; each seat has seen a beginning of that.
pub struct BoardRule;

impl TableRule<(), SeatState, (u8, u64)> for BoardRule {
    ghost use Rattle.sw_history.specs.Board.{Kept, first_seat};

    ghost holds = { Kept };

    ghost first = { first_seat };
}

/// A step that reads.
pub struct Reads;

impl Play<(), SeatState> for Reads {
    ghost use Rattle.sw_history.specs.Board.{Sees};

    ghost then = { Sees };
}

/// A step that reads, after a join: it settles which of the two had seen more.
pub struct Compares;

impl Play<(), SeatState> for Compares {
    ghost use Rattle.sw_history.specs.Board.{SettlesStep};

    ghost then = { SettlesStep };
}

/// What a step that publishes says of an event.
pub trait Telling {
    ghost use Rattle.sw_history.specs.Board.{Said};

    ghost said: { Said };
}

impl Telling for Brand {
    ghost use Rattle.sw_history.specs.Board.{nothing_said};

    ghost said = { nothing_said };
}

/// A step that publishes.
pub struct Publishes<T: Telling> {
    of: PhantomData<T>,
}

impl<T: Telling> Play<(), SeatState> for Publishes<T> {
    ghost use Rattle.sw_history.specs.Board.{Published};

    ghost then = { Published T.said };
}

/// A seat of no desk that has seen the same; and back, so that the other has seen no less.
pub struct CopySeat;

impl Split<SeatState> for CopySeat {
    ghost use Rattle.sw_history.specs.Board.{reader};

    ghost left = { λ v. v };

    ghost right = { reader };
}

impl Join<SeatState> for CopySeat {
    ghost use Rattle.sw_history.specs.Board.{told_known, spent};

    ghost both = { told_known };

    ghost spent = { spent };
}

/// A seat of a new desk, from the pass that publishes.
pub struct NewDesk;

impl Split<SeatState> for NewDesk {
    ghost use Rattle.sw_history.specs.Board.{after_desk, new_desk};

    ghost left = { after_desk };

    ghost right = { new_desk };
}

/// A desk leaves its seat, and moves to the pass that publishes.
pub struct LendDesk;

impl Split<SeatState> for LendDesk {
    ghost use Rattle.sw_history.specs.Board.{without_desk, of_desk};

    ghost left = { without_desk };

    ghost right = { of_desk };
}

impl Join<SeatState> for LendDesk {
    ghost use Rattle.sw_history.specs.Board.{desk_taken_over, spent};

    ghost both = { desk_taken_over };

    ghost spent = { spent };
}

/// A desk returns to its seat.
pub struct ReturnDesk;

impl Join<SeatState> for ReturnDesk {
    ghost use Rattle.sw_history.specs.Board.{replaced, spent};

    ghost both = { replaced };

    ghost spent = { spent };
}

/// The word.
pub type Word = Table<(), SeatState, (u8, u64), BoardRule, Global>;

/// The steps on the word.
pub type Steps = Shared<(), SeatState, (u8, u64), BoardRule>;

/// A seat at the word.
pub type RawSeat = Seat<(), SeatState>;

/// Which board it is, and its opening pair.
pub trait BoardName {
    ghost table: { TableId };

    ghost opening: { ℕ × ℕ };
}

impl BoardName for Brand {
    ghost use Rattle.sw_history.specs.Board.{no_table};

    ghost table = { no_table };

    ghost opening = { (0, 0) };
}

/// A status byte and a number of service requests as one word.
pub fn word_of(pair: (u8, u64)) -> u64
    requires { pair.1 < 2 ^ 56 }
    ensures { pair ≡ pair_in result }
{
    pair.1 * 256 + pair.0 as u64
}

/// A board that has no name yet, and the pass that publishes on it.
#[derive(Drop)]
pub struct BlankBoard {
    pub table: Word,
    pass: RawSeat,
    word: u64,
    pub ghost one_word: { table.shared.table_id.words ≡ 1 },
    pub ghost same: { pass.table_id ≡ table.shared.table_id },
    pub ghost knows: { pass.me ≡ (first_seat table.shared.key, []) },
    pub ghost first: { table.shared.key ≡ pair_in word },
}

impl BlankBoard {
    /// A board with this pair.
    pub fn new(alloc: Global, pair: (u8, u64)) -> Result<BlankBoard, AllocError>
        requires { pair.1 < 2 ^ 56 }
        ensures { IfOk result (λ board. board.table.shared.key ≡ pair) }
    {
        let word = word_of(pair);
        let (table, pass) = Word::of_words(alloc, &[word], &pair)?;
        Ok(BlankBoard { table, pass, word })
    }

    /// The board by its name, and the pass, which has published nothing.
    pub fn open<B: BoardName>(self) -> (StatusBoard<B>, LockedPass<B>)
        requires { (self.table.shared.table_id ≡ B.table) × (self.table.shared.key ≡ B.opening) }
        ensures { result.1 ≡ [] }
    {
        let BlankBoard { table, pass, word } = self;
        let board = StatusBoard {
            table,
            of: PhantomData,
        };
        (board, LockedPass::new(pass, word))
    }
}

/// The board, which all threads share.
#[derive(Drop)]
pub struct StatusBoard<B: BoardName> {
    pub table: Word,
    of: PhantomData<B>,
    pub ghost named: { table.shared.table_id ≡ B.table },
    pub ghost opened: { table.shared.key ≡ B.opening },
    pub ghost one_word: { table.shared.table_id.words ≡ 1 },
}
