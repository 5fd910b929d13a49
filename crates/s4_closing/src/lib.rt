//! One history of several cells (docs/ARCHITECTURE.md, "Fronts"): what is known of all calls that were ever
//! made, which cells belong together, and how the histories of what is left of them are merged.
#![tactic(auto)]

mod merge;
mod reconciling;
mod torn;

pub use reconciling::{Verdict, reconcile};
pub use torn::none_went;
