//! Calls of a served drive: a Hello and a request, or requests one behind the other, and what is answered
//! (docs/PROTOCOL.md, "Calls").
#![tactic(auto)]

mod fault;
mod hearing;
mod peer;
mod sending;

pub use fault::CallFault;
pub use hearing::{call, hear_reply, hear_welcome, send};
pub use peer::connect;
pub use sending::{asking, greeting, message};
