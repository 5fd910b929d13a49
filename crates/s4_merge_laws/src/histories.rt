//! Histories that are merged.

ghost use Rattle.std.specs.Prelude.{◌≡◌, ◌<◌, ℕ, List};
ghost use Rattle.s4_types.specs.declared.record.Record.{Record};
ghost use Rattle.s4_types.specs.Base.{Base};
ghost use Rattle.s4_merge_laws.specs.Cells.{records_in, IsPlain};

/// A list of records is the plain log of its own requests, where what it has of each cell is: so
/// histories of cells that are merged in any way are one history, as long as each keeps its order and
/// a wide record, which all cells have, stands there once.
pub fn merged_histories_are_plain()
    ensures { (base : Base) (cells : ℕ) (all : List Record) → 0 < cells
        → ((cell : ℕ) → cell < cells → IsPlain base (records_in cells cell all)) → IsPlain base all }
{}
