//! Seats at the status board: seats to read by, and the pass that publishes.

ghost use Rattle.std.specs.Prelude.{◌≡◌, ◌⊎◌, ◌<◌, ◌^◌, ℕ, List, [], ◌∷◌, ◌++◌, true, false, Some, None};
ghost use mathlib.Core.List.{IsPrefix};
ghost use Rattle.sw_history.specs.Entries.{last_pair, made_by};
ghost use Rattle.sw_history.specs.Board.{first_seat, pair_in, Saw, entry_of, published};
ghost use Rattle.sw_history.specs.Board.{reader, new_desk, without_desk, of_desk, desk_taken_over};

use crate::board::{
    BoardName, Compares, CopySeat, LendDesk, NewDesk, Publishes, RawSeat, Reads, ReturnDesk,
    StatusBoard, Steps, Telling, word_of,
};
use std::marker::{Model, PhantomData};

/// A seat. Contracts see what it knows: above all how far it has seen the history.
#[derive(Drop)]
pub struct StatusSeat<B: BoardName> {
    seat: RawSeat,
    of: PhantomData<B>,
}

impl<B: BoardName> Model for StatusSeat<B> {
    ghost use Rattle.std.specs.Prelude.{◌≡◌, [], true, false};
    ghost use Rattle.sw_history.specs.Board.{Known};

    ghost Value = { Known };

    ghost view = { λ s. s.seat.me.0 };

    ghost invariant = { λ s. (s.seat.table_id ≡ B.table) × (s.seat.me.1 ≡ []) × (s.seat.me.0.live ≡ true)
        × (s.seat.me.0.opening ≡ B.opening) × (s.seat.me.0.publishes ≡ false) };
}

impl<B: BoardName> StatusSeat<B> {
    /// The status byte without bits 4 and 6, and the number of service requests so far, after some event or before any:
    /// not earlier than any that the seat had seen.
    pub fn read(&mut self, board: &StatusBoard<B>) -> (u8, u64)
        ensures later { IsPrefix self.old.seen self.new.seen }
        ensures pair { result ≡ last_pair B.opening self.new.seen }
        ensures desk { (self.new.desk ≡ self.old.desk) × (self.new.mine ≡ self.old.mine) }
        ensures own { (d : ℕ) → self.old.desk ≡ Some d → made_by d self.new.seen ≡ self.old.mine }
    {
        let found = board.table.shared.load::<Reads>(&mut self.seat, 0);
        ((found % 256) as u8, found / 256)
    }

    /// A seat of no desk that has seen the same.
    pub fn split(&mut self, board: &StatusBoard<B>) -> StatusSeat<B>
        ensures same { self.new ≡ self.old }
        ensures new { result ≡ reader self.old }
    {
        let seat = board.table.shared.split_seat::<CopySeat>(&mut self.seat);
        StatusSeat {
            seat,
            of: PhantomData,
        }
    }

    /// It has then seen as much as the further of both.
    pub fn join(&mut self, board: &StatusBoard<B>, other: StatusSeat<B>)
        ensures later { IsPrefix self.old.seen self.new.seen × IsPrefix other.seen self.new.seen }
        ensures one { (self.new.seen ≡ self.old.seen) ⊎ (self.new.seen ≡ other.seen) }
        ensures desk { (self.new.desk ≡ self.old.desk) × (self.new.mine ≡ self.old.mine) }
    {
        let StatusSeat { seat, of: _ } = other;
        board
            .table
            .shared
            .join_seat::<CopySeat>(&mut self.seat, seat);
        board.table.shared.load::<Compares>(&mut self.seat, 0);
    }
}

/// The pass that publishes, for the thread that holds the mainframe lock. Contracts see the whole history.
#[derive(Drop)]
pub struct LockedPass<B: BoardName> {
    pass: RawSeat,
    /// What was published last.
    word: u64,
    of: PhantomData<B>,
}

impl<B: BoardName> Model for LockedPass<B> {
    ghost use Rattle.std.specs.Prelude.{◌≡◌, [], true, None, List};
    ghost use Rattle.sw_history.specs.Entries.{HistoryEntry, last_pair};
    ghost use Rattle.sw_history.specs.Board.{pair_in};

    ghost Value = { List HistoryEntry };

    ghost view = { λ p. p.pass.me.0.seen };

    ghost invariant = { λ p. (p.pass.table_id ≡ B.table) × (p.pass.me.1 ≡ []) × (p.pass.me.0.live ≡ true)
        × (p.pass.me.0.opening ≡ B.opening) × (p.pass.me.0.publishes ≡ true) × (p.pass.me.0.desk ≡ None)
        × (last_pair B.opening p.pass.me.0.seen ≡ pair_in p.word) };
}

/// The desk moves to the pass, which learns that the history begins with all that the desk had seen, and has all
/// entries of the desk.
fn attach_desk(on: &Steps, pass: &mut RawSeat, desk: &mut RawSeat)
    requires table { (pass.old.table_id ≡ on.now.table_id) × (desk.old.table_id ≡ on.now.table_id)
        × (on.now.table_id.words ≡ 1) }
    requires live { (pass.old.me.0.publishes ≡ true) × (pass.old.me.0.live ≡ true) × (desk.old.me.0.live ≡ true) }
    requires desk { (d : ℕ) × (desk.old.me.0.desk ≡ Some d) }
    ensures same { (pass.new.table_id ≡ pass.old.table_id) × (desk.new.table_id ≡ desk.old.table_id) }
    ensures pass { pass.new.me ≡ (desk_taken_over pass.old.me.0 desk.old.me.0, pass.old.me.1) }
    ensures desk { desk.new.me ≡ (without_desk desk.old.me.0, desk.old.me.1) }
    ensures later { IsPrefix desk.old.me.0.seen pass.old.me.0.seen }
    ensures own { (d : ℕ) → desk.old.me.0.desk ≡ Some d → made_by d pass.old.me.0.seen ≡ desk.old.me.0.mine }
{
    let lent = on.split_seat::<LendDesk>(desk);
    on.join_seat::<LendDesk>(pass, lent);
    on.load::<Reads>(pass, 0);
}

/// The desk returns to its seat, and has seen what the pass has.
fn detach_desk(on: &Steps, pass: &mut RawSeat, desk: &mut RawSeat)
    requires table { (pass.old.table_id ≡ on.now.table_id) × (desk.old.table_id ≡ on.now.table_id)
        × (on.now.table_id.words ≡ 1) }
    requires desk { (d : ℕ) × (pass.old.me.0.desk ≡ Some d) }
    ensures same { (pass.new.table_id ≡ pass.old.table_id) × (desk.new.table_id ≡ desk.old.table_id) }
    ensures pass { pass.new.me ≡ (without_desk pass.old.me.0, pass.old.me.1) }
    ensures desk { desk.new.me ≡ (of_desk pass.old.me.0, desk.old.me.1) }
{
    let lent = on.split_seat::<LendDesk>(pass);
    on.join_seat::<ReturnDesk>(desk, lent);
}

/// The desk at the pass has one more entry: what is said.
fn put<T: Telling>(on: &Steps, pass: &mut RawSeat, old: u64, new: u64)
    requires table { (pass.old.table_id ≡ on.now.table_id) × (on.now.table_id.words ≡ 1) }
    requires live { (pass.old.me.0.publishes ≡ true) × (pass.old.me.0.live ≡ true) }
    requires desk { (d : ℕ) × (pass.old.me.0.desk ≡ Some d) }
    requires word { (last_pair pass.old.me.0.opening pass.old.me.0.seen ≡ pair_in old) × (T.said.pair ≡ pair_in new) }
    ensures same { pass.new.table_id ≡ pass.old.table_id }
    ensures pass { pass.new.me ≡ (published pass.old.me.0 T.said, pass.old.me.1) }
{
    on.compare_exchange::<Publishes<T>>(pass, 0, old, new);
}

impl<B: BoardName> LockedPass<B> {
    pub(crate) fn new(pass: RawSeat, word: u64) -> Self
        requires { (pass.table_id ≡ B.table) × (pass.me ≡ (first_seat B.opening, [])) × (B.opening ≡ pair_in word) }
        ensures { result ≡ [] }
    {
        LockedPass {
            pass,
            word,
            of: PhantomData,
        }
    }

    /// A seat of a new desk, which has seen the whole history and has no entry in it.
    pub fn new_desk(&mut self, board: &StatusBoard<B>) -> StatusSeat<B>
        ensures same { self.new ≡ self.old }
        ensures desk { (d : ℕ) × (result.desk ≡ Some d) }
        ensures seen { (result.seen ≡ self.old) × (result.mine ≡ []) }
    {
        let seat = board.table.shared.split_seat::<NewDesk>(&mut self.pass);
        StatusSeat {
            seat,
            of: PhantomData,
        }
    }

    /// The desk has then seen the whole history.
    pub fn tell(&mut self, board: &StatusBoard<B>, desk: &mut StatusSeat<B>)
        requires desk { (d : ℕ) × (desk.old.desk ≡ Some d) }
        ensures history { self.new ≡ self.old }
        ensures seen { IsPrefix desk.old.seen self.old × (desk.new.seen ≡ self.new) }
        ensures same { (desk.new.desk ≡ desk.old.desk) × (desk.new.mine ≡ desk.old.mine) }
        ensures own { (d : ℕ) → desk.new.desk ≡ Some d → made_by d desk.new.seen ≡ desk.new.mine }
    {
        let on = &board.table.shared;
        attach_desk(on, &mut self.pass, &mut desk.seat);
        detach_desk(on, &mut self.pass, &mut desk.seat);
    }

    /// Publishes an event of the desk with the pair after it: the history has one more entry, of what is said, and the
    /// desk has seen it.
    pub fn publish<T: Telling>(
        &mut self,
        board: &StatusBoard<B>,
        desk: &mut StatusSeat<B>,
        pair: (u8, u64),
    )
        requires desk { (d : ℕ) × (desk.old.desk ≡ Some d) }
        requires fits { pair.1 < 2 ^ 56 }
        requires said { T.said.pair ≡ pair }
        ensures history { self.new ≡ self.old ++ entry_of desk.old T.said ∷ [] }
        ensures seen { IsPrefix desk.old.seen self.old × (desk.new.seen ≡ self.new) }
        ensures mine { (desk.new.desk ≡ desk.old.desk)
            × (desk.new.mine ≡ desk.old.mine ++ entry_of desk.old T.said ∷ []) }
        ensures own { (d : ℕ) → desk.new.desk ≡ Some d → made_by d desk.new.seen ≡ desk.new.mine }
    {
        let on = &board.table.shared;
        attach_desk(on, &mut self.pass, &mut desk.seat);
        let word = word_of(pair);
        put::<T>(on, &mut self.pass, self.word, word);
        self.word = word;
        detach_desk(on, &mut self.pass, &mut desk.seat);
    }
}
