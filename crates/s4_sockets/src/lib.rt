//! The connections of a server: who accepts them, and the peers of a worker, turn by turn
//! (docs/THREADS.md, "A server's threads"). Who answers requests is a parameter.
#![tactic(auto)]

mod accepting;
mod attempts;
mod clock;
mod connection;
mod conversation;
mod counts;
mod ending;
mod gauge;
mod hold;
mod host;
mod left;
mod lobby;
mod open_by;
mod opening;
mod peer;
mod peers;
mod post;
mod proxy_line;
mod rota;
mod share;
mod states;
mod tables;
mod trail;
mod trails;
mod watch;

pub use accepting::{Door, accept_all};
pub use attempts::{FailedBy, FailedLogins};
pub use clock::{Stopwatch, Ticks, wall_clock};
pub use connection::Connection;
pub use hold::Awaited;
pub use host::Host;
pub use left::record_bytes;
pub use lobby::{Lobby, OpenFrom, OpenOf};
pub use peers::Peers;
pub use post::{Post, wake_all};
pub use states::States;
pub use trail::Trail;
pub use trails::{LeftBy, TrailTable};
pub use watch::Watch;
