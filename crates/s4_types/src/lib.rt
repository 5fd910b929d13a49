//! The types that every crate of the drive speaks of, and the definitions of what the drive
//! answers (docs/MODEL.md says them in prose).
#![tactic(auto)]

mod acl;
mod audit;
mod byte_changes;
mod byte_string;
mod memory;
mod moment;
mod name;
mod object;
mod principal;
mod readiness;
mod record;
mod reply;
mod request;
mod rights;
mod user;
mod version;

pub use acl::{Acl, AclEntry};
pub use audit::{AuditLine, AuditLines, AuditPage};
pub use byte_string::Bytes;
pub use memory::NoMemory;
pub use moment::Moment;
pub use name::Name;
pub use object::{ObjectId, Purse, PurseNo, Serial};
pub use principal::{Caller, Principal, WireVersion};
pub use readiness::Readiness;
pub use record::{Record, Step};
pub use reply::{Grant, NameLine, NameLines, Refusal, Reply};
pub use request::{After, Request};
pub use rights::{Right, Rights};
pub use user::User;
pub use version::{Item, Version};
