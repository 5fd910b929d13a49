//! What a token knows, and the rule of all tokens of a ledger.

use atomic_table::{Join, Play, Split, TableRule};
use std::collections::LinkedList;
use std::marker::Brand;

/// What a call records. A wide item is one of all cells; of n cells an ordinary one is of the cell whose
/// number is that of its range, modulo n.
pub trait Item {
    ghost use Rattle.std.specs.Prelude.{Bool, ℕ};

    /// Whether it is one of all cells.
    ghost is_wide: { Self → Bool };

    /// The number of its range.
    ghost range: { Self → ℕ };
}

/// What tells of an item, so that its call can be noted: the item itself, or parts that make it.
pub trait Tells<T> {
    /// The item.
    ghost item: { Self → T };
}

impl<T: Item> Tells<T> for T {
    ghost item = { λ x. x };
}

/// What one step of a ledger is told.
pub trait Told<T> {
    ghost use Rattle.std.specs.Prelude.{Option};

    /// The item, if one is told.
    ghost told: { Option T };
}

impl<T> Told<T> for Brand {
    ghost use Rattle.std.specs.Prelude.{None};

    ghost told = { None };
}

/// A call: the cell that it names, its place there, and the item that was recorded. A wide call names
/// the first cell.
#[derive(Drop)]
pub struct Noted<T> {
    /// The number of the cell.
    pub cell: usize,
    /// How many items the cell had before.
    pub place: u64,
    /// What was recorded.
    pub item: T,
}

/// What one who takes part knows: a cell all items that were ever recorded there, a pass all calls that
/// were ever made with it, and a reader a beginning of what a cell recorded. No value of it is made.
pub struct Hand<T> {
    /// How many of the 64 parts of the ledger it has. Who has all of them knows all calls. A reader has
    /// none.
    pub parts: u64,
    /// For how many cells it stands: one is a cell's, none a pass's or a reader's.
    pub shares: u64,
    /// The number of the first of these cells.
    pub cell: u64,
    /// What was recorded there, in its order.
    pub items: LinkedList<T>,
    /// The calls, in their order.
    pub calls: LinkedList<Noted<T>>,
}

/// What a token knows: one hand, or the hands of those that it took in, the last one first.
pub type Hands<T> = LinkedList<Hand<T>>;

/// There is one log of all calls: it has the calls of each hand in their order and no others, what a
/// cell recorded are the log's items of that cell, and what a reader knows is a beginning of these. The
/// key is how many cells there are.
pub struct OneLog;

impl<T: Item> TableRule<(), Hands<T>, usize> for OneLog {
    ghost use Rattle.std.specs.Prelude.{[], ◌∷◌};
    ghost use Rattle.s4_calls.specs.Hands.{fresh};
    ghost use Rattle.s4_calls.specs.Rule.{Balanced};

    ghost holds = { λ cells s. Balanced T.is_wide T.range cells s.views };

    ghost first = { λ cells. fresh cells ∷ [] };
}

/// What is told is recorded in the first hand's cell, and its call noted by the second hand.
pub struct Notes<W>(W);

impl<T: Item, W: Told<T>> Play<(), Hands<T>> for Notes<W> {
    ghost use Rattle.std.specs.Prelude.{◌≡◌};
    ghost use Rattle.s4_calls.specs.Hands.{told_in};

    ghost then = { λ _ me _ after. after ≡ (told_in W.told me.0, me.1) };
}

/// What is told is recorded in the cells of all hands before the caller's, which notes it as a call of
/// the first cell.
pub struct NotesWide<W>(W);

impl<T: Item, W: Told<T>> Play<(), Hands<T>> for NotesWide<W> {
    ghost use Rattle.std.specs.Prelude.{◌≡◌};
    ghost use Rattle.s4_calls.specs.Hands.{told_to_all};

    ghost then = { λ _ me _ after. after ≡ (told_to_all W.told me.0, me.1) };
}

/// Who has all parts knows that there is one log.
pub struct Learns;

impl<T: Item> Play<(), Hands<T>> for Learns {
    ghost use Rattle.std.specs.Prelude.{◌≡◌, ◌≤◌};
    ghost use Rattle.s4_calls.specs.Hands.{parts_of, shares_of};
    ghost use Rattle.s4_calls.specs.Rule.{IsLinearized};

    ghost then = { λ _ me _ after. (after ≡ me)
        × (64 ≤ parts_of me.0 → IsLinearized T.is_wide T.range (shares_of me.0) me.0) };
}

/// The second hand, a reader's, knows what the first does, a cell's, and that this begins with what it
/// knew before.
pub struct Follows;

impl<T: Item> Play<(), Hands<T>> for Follows {
    ghost use Rattle.std.specs.Prelude.{◌≡◌};
    ghost use Rattle.s4_calls.specs.Hands.{followed};
    ghost use Rattle.s4_calls.specs.Tokens.{SecondIsPrefix};

    ghost then = { λ _ me _ after. (after ≡ (followed me.0, me.1)) × SecondIsPrefix me.0 };
}

/// Another token's hands are taken in.
pub struct Joins;

impl<T> Join<Hands<T>> for Joins {
    ghost use Rattle.std.specs.Prelude.{[], ◌++◌};

    ghost both = { λ hands others. others ++ hands };

    ghost spent = { [] };
}

/// The first hand is given out.
pub struct GivesFirst;

impl<T> Split<Hands<T>> for GivesFirst {
    ghost use Rattle.s4_calls.specs.Hands.{first, rest};

    ghost left = { rest };

    ghost right = { first };
}

/// All hands are given out.
pub struct GivesAll;

impl<T> Split<Hands<T>> for GivesAll {
    ghost use Rattle.std.specs.Prelude.{[]};

    ghost left = { λ _. [] };

    ghost right = { λ hands. hands };
}

/// A hand for the next cell is cut off, with one part and one share.
pub struct CutsCell;

impl<T> Split<Hands<T>> for CutsCell {
    ghost use Rattle.s4_calls.specs.Hands.{cell_cut, left_by_cell};

    ghost left = { left_by_cell };

    ghost right = { cell_cut };
}

/// A hand for a pass is cut off, with one part.
pub struct CutsPass;

impl<T> Split<Hands<T>> for CutsPass {
    ghost use Rattle.s4_calls.specs.Hands.{pass_cut, left_by_pass};

    ghost left = { left_by_pass };

    ghost right = { pass_cut };
}

/// A hand for a reader of the first hand's cell is cut off, with no part.
pub struct CutsReader;

impl<T> Split<Hands<T>> for CutsReader {
    ghost use Rattle.s4_calls.specs.Hands.{reader_cut};

    ghost left = { λ hands. hands };

    ghost right = { reader_cut };
}
