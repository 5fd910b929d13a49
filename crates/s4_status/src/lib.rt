//! What a server tells of itself in a file (docs/OPERATIONS.md, "Status"). Who knows how the server is
//! is a parameter.
#![tactic(auto)]

mod journal;
mod metrics;
mod status;
mod summing;
mod tally;
mod telling;
mod unwritten;

pub use journal::{FileStatus, JournalStatus};
pub use status::{CellStatus, Connections, LoginsStatus, Refusals, Status};
pub use summing::{Summing, may_sum};
pub use tally::Tally;
pub use telling::{Teller, Telling, may_write};
