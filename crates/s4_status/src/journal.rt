//! What is told of a server's journal.

ghost use Rattle.std.specs.Prelude.{◌≡◌, ◌-◌, IfOk};

use s4_keeping::{FileKept, Kept};
use s4_types::NoMemory;
use serde::Serialize;
use std::alloc::Global;

/// The journal of a server.
#[derive(Drop, Serialize)]
pub struct JournalStatus {
    /// The number of the start.
    pub start: u64,
    /// How many bytes its records have.
    pub bytes: u64,
    /// The newest sum of the records, as hexadecimal digits.
    pub sum: String,
    pub calls: FileStatus,
    pub connections: FileStatus,
    /// For how many milliseconds no record can wait longer that it lacks.
    pub behind: u64,
    /// Whether it couldn't be written when that was last tried.
    pub fails: bool,
}

/// A further file of a journal.
#[derive(Drop, Serialize)]
pub struct FileStatus {
    /// How many bytes it has.
    pub bytes: u64,
    /// The newest sum, as hexadecimal digits.
    pub sum: String,
}

impl JournalStatus {
    /// What is told now of a journal that is so far.
    pub fn of(alloc: Global, kept: Kept, now: u64) -> Result<JournalStatus, NoMemory>
        ensures behind { IfOk result (λ told. told.behind ≡ now - kept.reached) }
        ensures start { IfOk result (λ told. told.start ≡ kept.start) }
        ensures bytes { IfOk result (λ told. told.bytes ≡ kept.records.bytes) }
        ensures fails { IfOk result (λ told. told.fails ≡ kept.fails) }
    {
        Ok(JournalStatus {
            start: kept.start,
            bytes: kept.records.bytes,
            sum: hex::encode(alloc, kept.records.sum.as_slice())?,
            calls: FileStatus::of(alloc, kept.calls)?,
            connections: FileStatus::of(alloc, kept.events)?,
            behind: now.saturating_sub(kept.reached),
            fails: kept.fails,
        })
    }
}

impl FileStatus {
    /// What is told of a file that is so far.
    fn of(alloc: Global, kept: FileKept) -> Result<FileStatus, NoMemory> {
        Ok(FileStatus {
            bytes: kept.bytes,
            sum: hex::encode(alloc, kept.sum.as_slice())?,
        })
    }
}
