//! The serials of each purse: 1, 2, 3 and so on, each drawn once.
#![tactic(auto)]

mod names;

pub use names::{DrawError, Names};
