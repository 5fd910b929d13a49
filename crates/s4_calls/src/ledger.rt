//! Ledgers and their tokens.

ghost use Rattle.std.specs.Prelude.{◌≡◌, ◌<◌, ◌≤◌, true, [], ◌∷◌, ◌++◌, Some, IfOk};
ghost use Rattle.s4_calls.specs.Hands.{fresh, first, rest, noted_in, told_in, widened, told_to_all, cell_cut, left_by_cell, pass_cut, left_by_pass, reader_cut, followed, HaveParts, parts_of, shares_of};
ghost use Rattle.s4_calls.specs.Rule.{IsLinearized};
ghost use Rattle.s4_calls.specs.Tokens.{CanCutCell, CanCutPass, CanFollow, CanNoteItem, IsRow, SecondIsPrefix};

use crate::hand::{
    CutsCell, CutsPass, CutsReader, Follows, GivesAll, GivesFirst, Hands, Item, Joins, Learns,
    Notes, NotesWide, OneLog, Tells, Told,
};
use atomic_table::{Seat, Table};
use std::alloc::{AllocError, Global};
use std::marker::{Brand, Model};

/// What the tokens of a front's cells and passes are of. It keeps that there is one log of all calls, and
/// takes no byte of them.
#[derive(Drop)]
pub struct Ledger<T: Item> {
    table: Table<(), Hands<T>, usize, OneLog, Global>,
}

impl<T: Item> Model for Ledger<T> {
    ghost use Rattle.std.specs.Prelude.{◌≡◌, ◌<◌};
    ghost use Rattle.atomic_table.specs.Seated.{TableId};

    ghost Value = { TableId };

    ghost view = { λ l. l.table.shared.table_id };

    ghost invariant = { λ l. (0 < l.table.shared.table_id.words)
        × (l.table.shared.key ≡ l.table.shared.table_id.words) };
}

/// A token of a ledger. It has no bytes. Callers see its ledger and what it knows.
#[derive(Drop)]
pub struct Token<T> {
    seat: Seat<(), Hands<T>>,
}

impl<T> Model for Token<T> {
    ghost use Rattle.std.specs.Prelude.{◌≡◌, []};
    ghost use Rattle.s4_calls.specs.Hands.{HaveParts};
    ghost use Rattle.s4_calls.specs.Tokens.{Known};

    ghost Value = { Known T };

    ghost view = { λ t. record { ledger = t.seat.table_id; hands = t.seat.me.0 } };

    ghost invariant = { λ t. (t.seat.me.1 ≡ []) × HaveParts t.seat.me.0 };
}

/// A reader's token. It has no part, so it can't stand where a call is noted.
#[derive(Drop)]
pub(crate) struct ReaderToken<T> {
    seat: Seat<(), Hands<T>>,
}

impl<T> Model for ReaderToken<T> {
    ghost use Rattle.std.specs.Prelude.{◌≡◌, []};
    ghost use Rattle.s4_calls.specs.Tokens.{Known};

    ghost Value = { Known T };

    ghost view = { λ t. record { ledger = t.seat.table_id; hands = t.seat.me.0 } };

    ghost invariant = { λ t. t.seat.me.1 ≡ [] };
}

impl<T: Item> Ledger<T> {
    /// A ledger for 1 to 16 cells, and a token that has all its parts. `AllocError` where a growth was
    /// refused.
    pub fn open(alloc: Global, cells: usize) -> Result<(Ledger<T>, Token<T>), AllocError>
        requires some { 0 < cells }
        requires few { cells ≤ 16 }
        ensures cells { IfOk result (λ opened. opened.0.words ≡ cells) }
        ensures ledger { IfOk result (λ opened. opened.1.ledger ≡ opened.0) }
        ensures hands { IfOk result (λ opened. opened.1.hands ≡ fresh cells ∷ []) }
    {
        let words = [0; 16];
        let (table, seat) = Table::of_words(alloc, &words[..cells], &cells)?;
        Ok((Ledger { table }, Token { seat }))
    }

    /// For how many cells the ledger was opened.
    pub fn cells(&self) -> usize
        ensures { result ≡ self.now.words }
    {
        self.table.word_count()
    }

    /// Cuts off a token with one part, for the next cell.
    pub fn cut_cell(&self, token: &mut Token<T>) -> Token<T>
        requires ledger { token.old.ledger ≡ self.now }
        requires parts { CanCutCell token.old.hands }
        ensures left { token.new.hands ≡ left_by_cell token.old.hands }
        ensures ledger { token.new.ledger ≡ self.now }
        ensures given { result.hands ≡ cell_cut token.old.hands }
        ensures ledger_given { result.ledger ≡ self.now }
    {
        let seat = self.table.shared.split_seat::<CutsCell>(&mut token.seat);
        Token { seat }
    }

    /// Cuts off a token with one part, for a pass.
    pub fn cut_pass(&self, token: &mut Token<T>) -> Token<T>
        requires ledger { token.old.ledger ≡ self.now }
        requires parts { CanCutPass token.old.hands }
        ensures left { token.new.hands ≡ left_by_pass token.old.hands }
        ensures ledger { token.new.ledger ≡ self.now }
        ensures given { result.hands ≡ pass_cut token.old.hands }
        ensures ledger_given { result.ledger ≡ self.now }
    {
        let seat = self.table.shared.split_seat::<CutsPass>(&mut token.seat);
        Token { seat }
    }

    /// Cuts off a token for a reader of the first hand's cell. It takes no part.
    pub(crate) fn cut_reader(&self, token: &mut Token<T>) -> ReaderToken<T>
        requires ledger { token.old.ledger ≡ self.now }
        ensures same { token.new ≡ token.old }
        ensures given { result.hands ≡ reader_cut token.old.hands }
        ensures ledger_given { result.ledger ≡ self.now }
    {
        let seat = self.table.shared.split_seat::<CutsReader>(&mut token.seat);
        ReaderToken { seat }
    }

    /// A reader's token takes in all that another token knows.
    pub(crate) fn lend(&self, reader: &mut ReaderToken<T>, token: Token<T>)
        requires ledger { reader.old.ledger ≡ self.now }
        requires ledger_lent { token.ledger ≡ self.now }
        ensures hands { reader.new.hands ≡ token.hands ++ reader.old.hands }
        ensures ledger { reader.new.ledger ≡ self.now }
    {
        self.table
            .shared
            .join_seat::<Joins>(&mut reader.seat, token.seat);
    }

    /// The second hand, a reader's, knows what the first does, which begins with what it knew before.
    pub(crate) fn follow(&self, reader: &mut ReaderToken<T>)
        requires ledger { reader.old.ledger ≡ self.now }
        requires hands { CanFollow reader.old.hands }
        ensures hands { reader.new.hands ≡ followed reader.old.hands }
        ensures ledger { reader.new.ledger ≡ self.now }
        ensures known { SecondIsPrefix reader.old.hands }
    {
        self.table.shared.load::<Follows>(&mut reader.seat, 0);
    }

    /// Gives back the hand that a reader's token took in last.
    pub(crate) fn give_back(&self, reader: &mut ReaderToken<T>) -> Token<T>
        requires ledger { reader.old.ledger ≡ self.now }
        requires part { HaveParts (first reader.old.hands) }
        ensures hands { reader.new.hands ≡ rest reader.old.hands }
        ensures ledger { reader.new.ledger ≡ self.now }
        ensures given { result.hands ≡ first reader.old.hands }
        ensures ledger_given { result.ledger ≡ self.now }
    {
        let seat = self.table.shared.split_seat::<GivesFirst>(&mut reader.seat);
        Token { seat }
    }

    /// Takes in all that another token knows.
    pub fn join(&self, token: &mut Token<T>, other: Token<T>)
        requires ledger { token.old.ledger ≡ self.now }
        requires ledger_joined { other.ledger ≡ self.now }
        ensures hands { token.new.hands ≡ other.hands ++ token.old.hands }
        ensures ledger { token.new.ledger ≡ self.now }
    {
        self.table
            .shared
            .join_seat::<Joins>(&mut token.seat, other.seat);
    }

    /// Gives out the hand that was taken in last.
    pub fn part(&self, token: &mut Token<T>) -> Token<T>
        requires ledger { token.old.ledger ≡ self.now }
        ensures hands { token.new.hands ≡ rest token.old.hands }
        ensures ledger { token.new.ledger ≡ self.now }
        ensures given { result.hands ≡ first token.old.hands }
        ensures ledger_given { result.ledger ≡ self.now }
    {
        let seat = self.table.shared.split_seat::<GivesFirst>(&mut token.seat);
        Token { seat }
    }

    /// Gives out all that the token knows.
    pub fn take(&self, token: &mut Token<T>) -> Token<T>
        requires ledger { token.old.ledger ≡ self.now }
        ensures hands { token.new.hands ≡ [] }
        ensures ledger { token.new.ledger ≡ self.now }
        ensures given { result.hands ≡ token.old.hands }
        ensures ledger_given { result.ledger ≡ self.now }
    {
        let seat = self.table.shared.split_seat::<GivesAll>(&mut token.seat);
        Token { seat }
    }

    /// The item, an ordinary one, is recorded by the first hand, a cell's, and its call is noted by the
    /// second. What tells of the item is for the proof alone.
    pub fn note<A: Tells<T>>(&self, token: &mut Token<T>, call: &A)
        requires ledger { token.old.ledger ≡ self.now }
        requires item { CanNoteItem T.is_wide T.range self.now.words (A.item call.now)
            token.old.hands }
        ensures hands { token.new.hands ≡ noted_in (A.item call.now) token.old.hands }
        ensures ledger { token.new.ledger ≡ self.now }
    {
        self.note_as::<A, Brand>(token, call);
    }

    fn note_as<A: Tells<T>, W: Told<T>>(&self, token: &mut Token<T>, call: &A)
        requires ledger { token.old.ledger ≡ self.now }
        requires told { W.told ≡ Some (A.item call.now) }
        requires item { CanNoteItem T.is_wide T.range self.now.words (A.item call.now)
            token.old.hands }
        ensures hands { token.new.hands ≡ told_in W.told token.old.hands }
        ensures ledger { token.new.ledger ≡ self.now }
    {
        self.table.shared.load::<Notes<W>>(&mut token.seat, 0);
    }

    /// The item, a wide one, is recorded by the hands of all cells, and its call is noted by the hand
    /// behind them. What tells of the item is for the proof alone.
    pub fn note_wide<A: Tells<T>>(&self, token: &mut Token<T>, call: &A)
        requires ledger { token.old.ledger ≡ self.now }
        requires hands { IsRow self.now.words token.old.hands }
        requires wide { T.is_wide (A.item call.now) ≡ true }
        ensures hands { token.new.hands ≡ widened (A.item call.now) token.old.hands }
        ensures ledger { token.new.ledger ≡ self.now }
    {
        self.note_wide_as::<A, Brand>(token, call);
    }

    fn note_wide_as<A: Tells<T>, W: Told<T>>(&self, token: &mut Token<T>, call: &A)
        requires ledger { token.old.ledger ≡ self.now }
        requires told { W.told ≡ Some (A.item call.now) }
        requires hands { IsRow self.now.words token.old.hands }
        requires wide { T.is_wide (A.item call.now) ≡ true }
        ensures hands { token.new.hands ≡ told_to_all W.told token.old.hands }
        ensures ledger { token.new.ledger ≡ self.now }
    {
        self.table.shared.load::<NotesWide<W>>(&mut token.seat, 0);
    }

    /// Changes nothing. Who has all parts knows one log of all calls.
    pub fn audit(&self, token: &mut Token<T>)
        requires ledger { token.old.ledger ≡ self.now }
        ensures same { token.new ≡ token.old }
        ensures log { 64 ≤ parts_of token.old.hands
            → IsLinearized T.is_wide T.range (shares_of token.old.hands) token.old.hands }
    {
        self.table.shared.load::<Learns>(&mut token.seat, 0);
    }
}
