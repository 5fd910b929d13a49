//! A cell as it lies under its lock.

ghost use Rattle.std.specs.Prelude.{◌≡◌, ◌≤◌, min};
ghost use Rattle.s4_types.specs.Log.{expired_in, horizon_in, swept};
ghost use Rattle.s4_cuts.specs.CutLog.{cut_log};
ghost use Rattle.s4_drive.specs.Alike.{AnswersAlike};

use s4_calls::{Book, Names};
use s4_cells::{Cell, cut_all};
use s4_types::{Moment, Record};
use std::slice;

/// A cell with its book, which knows all records that the cell ever had.
#[derive(Drop)]
pub struct Locked<N: Names> {
    pub cell: Cell,
    pub book: Book<N, Record>,
    pub ghost kept: { book.items ≡ cell.history },
    pub ghost window: { cell.opened ≡ N.window },
}

impl<N: Names> Locked<N> {
    /// Cuts the cell at the least of the moment and of its horizon, and gives that moment. It goes
    /// on as the uncut one would, and its book knows the records that went as well. It takes no
    /// memory.
    pub fn cut(&mut self, moment: Moment) -> Moment
        ensures least { result ≡ min moment (horizon_in self.old.cell) }
        ensures bound { result ≤ moment }
        ensures cut { self.new.cell ≡ cut_log result self.old.cell }
        ensures replies { AnswersAlike self.old.cell self.new.cell }
        ensures book { self.new.book ≡ self.old.book }
    {
        let Locked { cell, .. } = self;
        cut_all(slice::from_mut(cell), moment)
    }

    /// Frees at most so many values of the cell that are expired and still held, and tells how many.
    pub fn sweep(&mut self, most: u64) -> u64
        ensures freed { result ≡ min most (expired_in self.old.cell) }
        ensures swept { self.new.cell ≡ swept most self.old.cell }
    {
        self.cell.sweep(most)
    }
}
