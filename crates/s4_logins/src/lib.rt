//! Files of logins: how one is read, and read again where it has changed.
#![tactic(auto)]

mod fault;
mod reading;
mod reloading;

pub use fault::LoginsFault;
pub use reading::{open_guarded, open_logins, read_logins};
pub use reloading::Reloading;
