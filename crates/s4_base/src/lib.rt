//! What the records before a cut leave: kept by tables, and brought on by one record after the
//! other.
#![tactic(auto)]

mod base;
mod bounds;
mod change;
mod follow;
mod follow_first;
mod kept;
mod keys;
mod laws;
mod moments;
mod names;
mod numbers;
mod objects;
mod table;
mod tables;

pub use base::Base;
pub use kept::{Bound, Kept};
pub use laws::{bases_can_follow_what_was_answered, cuts_can_be_followed};
pub use moments::count_before;
