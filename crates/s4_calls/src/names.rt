//! What names a front.

use std::marker::Brand;

/// A front: its ledger, and what it was opened with. There is a word of the ledger for each cell.
pub trait Names {
    ghost use Rattle.std.specs.Prelude.{ℕ};
    ghost use Rattle.atomic_table.specs.Seated.{TableId};

    /// The ledger of its cells and passes.
    ghost ledger: { TableId };

    /// The window that its cells were opened with.
    ghost window: { ℕ };

    /// How many passes it has.
    ghost passes: { ℕ };
}

impl Names for Brand {
    ghost use Rattle.s4_calls.specs.Tokens.{no_ledger};

    ghost ledger = { no_ledger };

    ghost window = { 0 };

    ghost passes = { 0 };
}
