//! Objects: what is held of their tracks, on chains of a store.
#![tactic(auto)]

mod begin;
mod ends;
mod flushes;
mod free;
mod kept;
mod objects;

pub use flushes::Refund;
pub use kept::Which;
pub use objects::Objects;
