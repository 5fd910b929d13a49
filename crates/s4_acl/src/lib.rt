//! ACLs: looking an entry up, and giving a user rights (docs/MODEL.md, "ACLs"). Only `set` takes
//! memory.
#![tactic(auto)]

mod change;
mod look;

pub use change::{set, settable};
pub use look::{asked_entry, by_index, entry_of};
