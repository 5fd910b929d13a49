//! The command line of `s4d`: the command that its words spell, or the fault of words that spell
//! none.
#![tactic(auto)]

mod asking;
mod causes;
mod command_line;
mod duration;
mod history;
mod meaning;
mod parser;
mod selecting;
mod telling;
mod times;

pub use command_line::{given, parse};
