//! Runs from a reader to a writer: of scripts on a fresh drive, and of arrivals on a fresh hall;
//! and scripts without what a principal's strangers ask.
#![tactic(auto)]

mod arrivals;
mod fault;
mod hall;
mod script;
mod strike;
mod text;

pub use arrivals::Arrivals;
pub use fault::RunFault;
pub use hall::run_hall;
pub use script::run_script;
pub use strike::run_strike;
