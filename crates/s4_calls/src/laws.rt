//! What one log says of calls, and of what was recorded.

ghost use Rattle.std.specs.Prelude.{◌<◌, ℕ, [], List};
ghost use Rattle.s4_calls.specs.declared.hand.Noted.{Noted};
ghost use Rattle.s4_calls.specs.Logs.{ArePlaced, AreOneToOne, IsMergeOf, IsSublist, StandInCells, StandInOrder, StandThere, items_of};

use crate::hand::Item;

/// Where each call of a log names its cell and its place there, calls and what was recorded match one
/// to one.
pub fn placed_calls_are_one_to_one<T: Item>()
    ensures { (n : ℕ) (log : List (Noted T)) → ArePlaced T.is_wide T.range n [] log
        → AreOneToOne T.is_wide T.range n log }
{}

/// Calls that the log has in their order have their items there in that order, by the cells and places
/// that they name.
pub fn calls_stand_in_their_order<T: Item>()
    ensures { (n : ℕ) (log calls : List (Noted T)) → ArePlaced T.is_wide T.range n [] log
        → IsSublist calls log → StandInOrder T.is_wide T.range n (items_of log) calls }
{}

/// A list that has the items of each cell in the order of a log, as each merge of the cells has, has the
/// item of each call where its cell and its place say. Of two calls of one cell that the log has in
/// their order, the earlier one's item stands first there; a wide call counts as one of every cell.
pub fn merges_keep_the_order_of_calls<T: Item>()
    ensures there { (n : ℕ) (log : List (Noted T)) (all : List T) → 0 < n
        → ArePlaced T.is_wide T.range n [] log → IsMergeOf T.is_wide T.range n all (items_of log)
        → StandThere T.is_wide T.range n all log }
    ensures order { (n : ℕ) (log calls : List (Noted T)) (all : List T) → 0 < n
        → ArePlaced T.is_wide T.range n [] log → IsMergeOf T.is_wide T.range n all (items_of log)
        → IsSublist calls log → StandInCells T.is_wide T.range n all calls }
{}
