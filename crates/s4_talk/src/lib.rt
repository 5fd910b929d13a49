//! A talk with a peer over a reader and a writer, whole or turn by turn (docs/PROTOCOL.md says in
//! prose what is said in it).
#![tactic(auto)]

mod answer;
mod serving;
mod turns;
mod whole;

pub use answer::Answer;
pub use turns::{TalkEnd, Talking, TurnEnd};
pub use whole::talk;
