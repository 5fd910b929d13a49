//! The drive: one step answers one request, and the history gains its record.
#![tactic(auto)]

mod acl;
mod administrator;
mod append;
mod attributes;
mod audit;
mod copies;
mod create;
mod delete;
mod drive;
mod limits;
mod moments;
mod partitions;
mod past;
mod read;
mod step;
mod strangers;
mod truncate;
mod window;
mod write;

pub use drive::{Answered, Drive};
pub use moments::never_down;
pub use strangers::{Near, strike};
