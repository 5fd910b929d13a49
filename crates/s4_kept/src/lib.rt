//! A drive that can tell as a value what the records before a moment leave (docs/MODEL.md, "Histories
//! that are cut").
#![tactic(auto)]

mod drive;

pub use drive::Drive;
