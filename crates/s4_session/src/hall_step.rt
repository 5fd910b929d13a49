//! What a hall is told to do.

use s4_types::{Bytes, Moment};

/// One step of a run of the hall.
#[derive(Drop)]
pub enum HallStep {
    /// Bytes that come on a connection at a moment.
    Arrive {
        conn: u32,
        moment: Moment,
        piece: Bytes,
    },
    /// Leave to free at most `n` values that no request can reach any more.
    Sweep {
        n: u64,
    },
}
