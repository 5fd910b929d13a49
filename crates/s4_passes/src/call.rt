//! What is kept of a call.

use s4_calls::Tells;
use s4_types::{Caller, Moment, Record, Reply, Request};

/// What was asked: by whom, at which moment of the caller's clock, and what.
#[derive(Drop)]
pub struct Asked {
    pub caller: Caller,
    pub clock: Moment,
    pub request: Request,
}

/// What a caller has in hand of a call: where its record stands, at which moment it was carried out,
/// and what was replied.
#[derive(Drop)]
pub struct Receipt {
    /// The number of the cell, from 0. It is 0 where the request was wide.
    pub cell: usize,
    /// The record's number in the cell's history, from 0.
    pub place: u64,
    pub moment: Moment,
    pub reply: Reply,
}

/// A call: what was asked, and what was told of it. It tells of the record that it left.
#[derive(Drop)]
pub struct Call {
    pub asked: Asked,
    pub receipt: Receipt,
}

impl Tells<Record> for Call {
    ghost use Rattle.s4_passes.specs.Calls.{record_of};

    ghost item = { record_of };
}
