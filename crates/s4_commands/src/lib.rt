//! What the commands of `s4d` do, whatever words they were asked by (docs/ARCHITECTURE.md, "The
//! commands").
#![tactic(auto)]

mod asking;
mod calling;
mod checking;
mod checking_files;
mod descriptors;
mod ending;
mod explaining;
mod fault;
mod history;
mod keeping;
mod memory;
mod obeying;
mod reasons;
mod serving;
mod setting_up;
mod stamped;

pub use calling::call_over;
pub use fault::{Fault, FaultText};
pub use obeying::obey;
pub use stamped::Stamped;
