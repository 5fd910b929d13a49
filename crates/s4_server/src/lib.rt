//! A server over sockets: workers that serve connections, each with a pass of its own, one thread
//! that accepts them, and one that sweeps the cells (docs/ARCHITECTURE.md, "The server").
#![tactic(auto)]

mod board;
mod context;
mod cutting;
mod desk;
mod fault;
mod noting;
mod places;
mod quiet;
mod reloads;
mod server;
mod start;
mod sweeping;
mod threads;
mod upkeep;
mod workers;

pub use fault::ServerFault;
pub use server::Server;
pub use upkeep::Upkeep;
