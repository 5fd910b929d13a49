//! Laws of histories that are kept apart: each cell, of several, has the records of its ranges and the
//! wide ones. The definitions of what the drive answers are those of `s4_types`. Each law is the
//! contract of a function that does nothing (docs/MODEL.md, "Cells").
#![tactic(auto)]

mod answers;
mod histories;

pub use answers::{answers_depend_on_their_cell, wide_answers_depend_on_no_record};
pub use histories::merged_histories_are_plain;
