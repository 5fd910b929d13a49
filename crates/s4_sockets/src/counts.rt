//! The records of one principal, as they are counted.

ghost use Rattle.std.specs.Prelude.{◌≡◌, ◌+◌, IfOk, nat_lt, if◌then◌else◌};
ghost use Rattle.s4_sockets.specs.Records.{awaited_of, fit, left_at};

use crate::hold::Awaited;
use crate::left::Left;
use s4_types::{Moment, NoMemory, Principal};
use std::alloc::Global;

/// How many bytes of a principal's records the journal may lack, before requests of that principal wait for
/// it. The keeper rests for a tenth of a second behind each walk over the cells, in which four processors
/// leave some 26 MiB of small records: so one principal alone seldom leaves as much where the journal keeps
/// up. And a hundred principals who all do leave no more than some 6 GiB.
const UNWRITTEN: u64 = 67_108_864;

/// How many ticks are of one span of those records, at least: so often the journal is written.
const TICKS: u64 = 100;

/// What the requests of a principal have left of records.
#[derive(Drop)]
pub(crate) struct Counts {
    /// Those that aren't cut yet.
    pub(crate) uncut: Left,
    /// Those that the journal lacks.
    pub(crate) unwritten: Left,
}

impl Counts {
    /// No records.
    pub(crate) fn new(alloc: Global) -> Result<Counts, NoMemory>
        ensures uncut { IfOk result (λ counts. counts.uncut.bytes ≡ 0) }
        ensures unwritten { IfOk result (λ counts. counts.unwritten.bytes ≡ 0) }
    {
        Ok(Counts {
            uncut: Left::new(alloc)?,
            unwritten: Left::new(alloc)?,
        })
    }

    /// A record of so many bytes was made at this moment. Of those that aren't cut yet so many ticks are of
    /// one span.
    pub(crate) fn add(&mut self, moment: Moment, bytes: u64, ticks: u64)
        ensures uncut { self.new.uncut.bytes ≡ fit (self.old.uncut.bytes + bytes) }
        ensures unwritten { self.new.unwritten.bytes ≡ fit (self.old.unwritten.bytes + bytes) }
    {
        self.uncut.add(moment, bytes, ticks);
        self.unwritten.add(moment, bytes, TICKS);
    }

    /// What a request of this principal, whose records they are, is to wait for, if anything: where those
    /// before a moment were cut, and those before another one are written.
    pub(crate) fn awaited(
        &mut self,
        who: &Principal,
        most: Option<u64>,
        cut: Moment,
        written: Moment,
    ) -> Option<Awaited>
        ensures cut { self.new.uncut.older.items ≡ left_at cut self.old.uncut.older.items }
        ensures written { self.new.unwritten.older.items
            ≡ left_at written self.old.unwritten.older.items }
        ensures newest { self.new.unwritten.newest.bytes
            ≡ (if nat_lt self.old.unwritten.newest.last written then 0
            else self.old.unwritten.newest.bytes) }
        ensures told { result ≡ awaited_of who.now most self.new.uncut.bytes self.new.unwritten.bytes }
    {
        self.uncut.cut(cut);
        self.unwritten.cut(written);
        if !self.uncut.has_room(who, most) {
            Some(Awaited::Room)
        } else if !self.unwritten.has_room(who, Some(UNWRITTEN)) {
            Some(Awaited::Journal)
        } else {
            None
        }
    }
}
