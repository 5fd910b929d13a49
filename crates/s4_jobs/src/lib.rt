//! A queue of jobs for threads: it has a fixed number of places and of seats, and each thread puts
//! and takes with a seat of its own (docs/ARCHITECTURE.md, "The queue of jobs").
#![tactic(auto)]

mod closing;
mod numbered;
mod opening;
mod queue;
mod rule;
mod worker;

pub use numbered::Numbered;
pub use queue::{Jobs, NoMemory, Seat};
pub use worker::{Job, work};
