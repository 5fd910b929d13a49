//! What a drive keeps of its history, so that it need not go through its records.
#![tactic(auto)]

mod acl;
mod append;
mod attributes;
mod change;
mod create;
mod delete;
mod flush;
mod follow;
mod history;
mod moments;
mod partitions;
mod parts;
mod start;
mod state;
mod sweep;
mod truncate;
mod values;
mod write;

pub use s4_objects::Refund;
pub use state::State;
pub use values::Stored;
