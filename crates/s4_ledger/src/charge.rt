//! What one past value costs.

use crate::accounts::Payer;
use s4_types::{Moment, Purse};

/// What a past value or a past binding costs its purse, until the horizon reaches its end.
#[derive(Clone, Copy)]
pub struct Charge {
    /// The moment at which the value became past.
    pub end: Moment,
    /// The purse that it is charged to.
    pub purse: Purse,
    /// What it costs, in bytes.
    pub cost: u32,
}

/// A charge that waits for its end. One that was forgiven waits on, and costs nothing.
#[derive(Clone, Copy)]
pub struct Entry {
    /// The moment at which the value became past.
    pub end: Moment,
    /// Whom it is charged to.
    pub payer: Payer,
    /// What it costs, in bytes; 0 once it was forgiven.
    pub cost: u32,
}
