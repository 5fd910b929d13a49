//! Partitions: the names of each purse, and the objects that they are bound to, now and at each
//! moment of the past.
#![tactic(auto)]

mod ends;
mod page;
mod parts;
mod shelf;

pub use ends::Ended;
pub use page::{Page, Visible};
pub use parts::Parts;
