//! Cells: drives that stand side by side, each with a history of its own (docs/ARCHITECTURE.md).
#![tactic(auto)]

mod all_cells;
mod cell;
mod cuts;
mod measure;

pub use all_cells::{wide, wide_with_copy};
pub use cell::Cell;
pub use cuts::cut_all;
pub use measure::Measure;
pub use s4_drive::Answered;
