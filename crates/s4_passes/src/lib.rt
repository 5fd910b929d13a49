//! Passes, and what they keep of each call: what was asked, and the receipt (docs/ARCHITECTURE.md,
//! "Fronts").
#![tactic(auto)]

mod call;
mod list;
mod pass;

pub use call::{Asked, Call, Receipt};
pub use list::Calls;
pub use pass::{Pass, audit, keep_last};
