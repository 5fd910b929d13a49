//! How a server is set up (docs/OPERATIONS.md, "Flags"), and of which version it is.
#![tactic(auto)]

mod settings;

pub use settings::{Patience, Settings};

/// The program's version.
pub const VERSION: &str = "0.1.0";
