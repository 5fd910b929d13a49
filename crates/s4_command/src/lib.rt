//! What a command line may ask of `s4d`, and why its words may ask nothing (docs/ARCHITECTURE.md,
//! "The commands").
#![tactic(auto)]

mod asking;
mod call;
mod checks;
mod command;
mod fault;
mod history;
mod service;

pub use asking::{Asker, Askers, Asking, Company};
pub use call::Call;
pub use checks::{FileCheck, TextKind};
pub use command::{Command, Explained};
pub use fault::WordsFault;
pub use history::{Form, History, Peer, Records, Starts, Subject, Telling, Time};
pub use service::{Journal, Service};
