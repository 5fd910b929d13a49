//! A store whose items stand in nodes, linked both ways by raw pointers, that lie in blocks of 64.
#![tactic(auto)]

mod arena;
mod block;
mod chain;
mod forest;
mod heap;
mod leap;
mod node;
mod reach;
mod search;
mod spans;
mod stop;
mod table;
mod walk;

pub use arena::{Arena, ArenaPlace};
pub use walk::Walk;
