//! Whether cells belong together.

ghost use Rattle.std.specs.Prelude.{◌<◌, length, MatchBool};
ghost use Rattle.s4_closing.specs.Merged.{AreWhole, HaveWindow, StartAlike, AllStartAlike};
ghost use Rattle.s4_closing.specs.Closing.{NoneWent};

use s4_cells::Cell;

/// Whether all cells were opened with this window.
fn have_window(window: u64, cells: &[Cell]) -> bool
    ensures { MatchBool result (HaveWindow window cells.now) (¬ HaveWindow window cells.now) }
{
    for k in 0..cells.len() {
        if cells[k].opened() != window {
            return false;
        }
    }
    true
}

/// Whether two cells were cut at one moment, and what went left one window and one floor.
fn start_alike(a: &Cell, b: &Cell) -> bool
    ensures { MatchBool result (StartAlike a.now b.now) (¬ StartAlike a.now b.now) }
{
    let (first, second) = (a.window_left(), b.window_left());
    a.cut_at() == b.cut_at() && first.ticks() == second.ticks() && first.floor() == second.floor()
}

/// Whether all cells start as the first.
fn all_start_alike(cells: &[Cell]) -> bool
    requires { 0 < length cells.now }
    ensures { MatchBool result (AllStartAlike cells.now) (¬ AllStartAlike cells.now) }
{
    for k in 0..cells.len() {
        if !start_alike(&cells[k], &cells[0]) {
            return false;
        }
    }
    true
}

/// Whether the cells belong together: they were opened with this window, and start alike.
pub fn are_whole(window: u64, cells: &[Cell]) -> bool
    requires { 0 < length cells.now }
    ensures { MatchBool result (AreWhole window cells.now) (¬ AreWhole window cells.now) }
{
    have_window(window, cells) && all_start_alike(cells)
}

/// Whether no record of any cell went.
pub fn none_went(cells: &[Cell]) -> bool
    ensures { MatchBool result (NoneWent cells.now) (¬ NoneWent cells.now) }
{
    for k in 0..cells.len() {
        if cells[k].gone() != 0 {
            return false;
        }
    }
    true
}
