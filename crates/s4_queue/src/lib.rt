//! A queue whose items never move.
#![tactic(auto)]

mod blocks;
mod queue;

pub use queue::Queue;
