//! What a closing gives, and why it doesn't.

ghost use Rattle.std.specs.Prelude.{◌≡◌, MatchBool};
ghost use Rattle.s4_pool.specs.Numbers.{numbered, HasAll};

use crate::front::Front;
use crate::gate::Gate;
use s4_calls::Names;
use s4_cells::Cell;
use s4_passes::Pass;
use s4_types::Record;

/// A front that was closed.
#[derive(Drop)]
pub struct Closed<N: Names> {
    /// The cells, in the order of their numbers.
    pub cells: Vec<Cell>,
    /// The passes, as they were handed in.
    pub passes: Vec<Pass<N>>,
    /// The one history of what is left of all cells: between two wide records by moment, then by
    /// cell, then by place.
    pub history: Vec<Record>,
}

/// Why a front can't be closed.
#[derive(Clone, Copy)]
pub enum Why {
    /// The passes aren't those that the front was opened with, each once.
    Missing,
    /// A cell has another window than the front, or the cells weren't cut at one moment to one
    /// window and floor.
    Torn,
    /// A growth was refused.
    NoMemory,
}

/// What is left of a front that couldn't be closed.
#[derive(Drop)]
pub enum Left<G: Gate, N: Names> {
    /// The front as it was: it may be closed again.
    Front(Front<G, N>),
    /// Its cells, out of their locks.
    Cells(Vec<Cell>),
}

/// Why a front wasn't closed, and all that it was to be closed with.
#[derive(Drop)]
pub struct CloseFault<G: Gate, N: Names> {
    pub why: Why,
    pub left: Left<G, N>,
    pub passes: Vec<Pass<N>>,
}

/// How many of the passes have this number.
fn count_numbered<N: Names>(passes: &[Pass<N>], number: u64) -> usize
    ensures { result ≡ numbered number passes.now }
{
    passes.iter().filter(|pass| pass.number() == number).count()
}

/// Whether each of so many numbers from 0 on is that of just one pass.
pub fn has_all<N: Names>(count: u64, passes: &[Pass<N>]) -> bool
    ensures { MatchBool result (HasAll count passes.now) (¬ HasAll count passes.now) }
{
    for number in 0..count {
        if count_numbered(passes, number) != 1 {
            return false;
        }
    }
    true
}
