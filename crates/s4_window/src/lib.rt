//! The detection window, and how far back it lets the drive tell.
#![tactic(auto)]

mod window;

pub use window::Window;
