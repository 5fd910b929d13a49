//! Cells that were cut at one moment.

ghost use Rattle.std.specs.Prelude.{◌<◌, ℕ, [], List};
ghost use Rattle.s4_types.specs.declared.record.Record.{Record};
ghost use Rattle.s4_calls.specs.declared.hand.Noted.{Noted};
ghost use Rattle.s4_calls.specs.Logs.{ArePlaced, IsSublist, StandInCells, items_of};
ghost use Rattle.s4_call_laws.specs.Left.{AreLeftOf, BelongTogether, HaveRecords, IsOneLog, whole};

use s4_calls::Item;
use s4_types::Record;

/// Of one log of all that several cells ever had, the records before a cut, by moment, and then those
/// that are left of the cells, merged in any way, are the plain log of their own requests. They have of
/// each cell all that it ever had. So each principal other than the administrator was replied what it
/// would have been without its strangers, whatever was cut. And if the moments of what is left never go
/// down, those of all never do.
pub fn what_went_and_what_is_left_is_one_plain_log()
    ensures { (window n cut : ℕ) (log left : List Record) → 0 < n
        → AreLeftOf window n cut log left → IsOneLog window n cut log left }
{}

/// What is left of the cells of one log, cut at one moment, needs no look: each record is of its cell,
/// and all cells have the same wide records.
pub fn what_is_left_belongs_together()
    ensures { (n cut : ℕ) (log : List Record) → BelongTogether n cut log }
{}

/// Of such cells, whose log is one of calls that each name their cell and their place there, each call
/// has its record at its place in the cell, among what went and what is left.
pub fn each_call_has_its_record()
    ensures { (window n cut : ℕ) (log : List (Noted Record)) (left : List Record) → 0 < n
        → ArePlaced ⟦<Record as Item>⟧.is_wide ⟦<Record as Item>⟧.range n [] log
        → AreLeftOf window n cut (items_of log) left
        → HaveRecords n (whole cut (items_of log) left) log }
{}

/// And of two calls of a pass that touch one cell, as its own or as wide ones, the earlier one's record
/// stands first among them: whatever was cut, and however the rest was merged.
pub fn calls_of_a_pass_keep_their_order()
    ensures { (window n cut : ℕ) (log calls : List (Noted Record)) (left : List Record) → 0 < n
        → ArePlaced ⟦<Record as Item>⟧.is_wide ⟦<Record as Item>⟧.range n [] log
        → AreLeftOf window n cut (items_of log) left → IsSublist calls log
        → StandInCells ⟦<Record as Item>⟧.is_wide ⟦<Record as Item>⟧.range n
        (whole cut (items_of log) left) calls }
{}
