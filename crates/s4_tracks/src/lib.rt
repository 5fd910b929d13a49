//! Tracks: the values that one thing had, each from its begin to its end, on a chain of a store.
#![tactic(auto)]

mod end_eraser;
mod eraser;
mod track;

pub use end_eraser::EndEraser;
pub use eraser::Eraser;
pub use track::{Track, cost_of};
