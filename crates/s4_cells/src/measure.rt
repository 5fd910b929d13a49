//! What is told of a cell.

use s4_types::Moment;

/// How much a cell holds, and up to when and from when on it tells.
#[derive(Clone, Copy)]
pub struct Measure {
    /// How many records there are.
    pub records: u64,
    /// How many values and bindings are held.
    pub values: u64,
    /// The moment of the newest record.
    pub last: Moment,
    /// The horizon at that moment.
    pub horizon: Moment,
}
