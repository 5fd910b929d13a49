//! Requests of a served drive that stand in lines of an input, one behind the other, and their replies
//! (docs/SCRIPTS.md, "Lines of calls").
#![tactic(auto)]

mod ahead;
mod dialogue;
mod fault;
mod greeting;
mod line_fault;
mod line_reader;
mod rehearsal;
mod secrets;
mod spelling;
mod telling;

pub use ahead::MOST_DEPTH;
pub use dialogue::{ask_over, exchange};
pub use fault::AskFault;
pub use greeting::greet;
pub use line_fault::LineFault;
pub use rehearsal::{Peers, rehearse};
pub use secrets::Secrets;
