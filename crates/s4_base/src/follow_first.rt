//! A base brought on by many records.

ghost use Rattle.std.specs.Prelude.{◌≡◌, ◌+◌, ◌<◌, ◌≤◌, ◌^◌, length, take, OnOk};
ghost use Rattle.s4_types.specs.Play.{InOrder, UpTo};
ghost use Rattle.s4_laws.specs.Bases.{IsBase};
ghost use Rattle.s4_cuts.specs.Cut.{left};
ghost use Rattle.s4_base.specs.Changes.{CanFollowAll};

use crate::tables::Tables;
use s4_queue::Queue;
use s4_types::{Moment, NoMemory, Record};
use std::alloc::Global;

impl Tables {
    ghost use Rattle.s4_base.specs.Tables.{base_in};

    /// Brings the tables to what they and the first of the records leave, so many, all of which are up to
    /// the moment. Where memory is refused a part of that may be done.
    pub fn follow_first(
        &mut self,
        alloc: Global,
        records: &Queue<Record>,
        count: usize,
        cut: Moment,
    ) -> Result<(), NoMemory>
        requires within { count ≤ length records.now.items }
        requires is_base { IsBase (base_in self.old) }
        requires order { InOrder (base_in self.old).cut (take count records.now.items) }
        requires last { UpTo cut (take count records.now.items) }
        requires counts { self.old.count + count < 2 ^ 64 }
        requires fits { CanFollowAll (base_in self.old) (take count records.now.items) }
        ensures { OnOk result (base_in self.new
            ≡ left (base_in self.old) cut (take count records.now.items)) }
    {
        for at in 0..count {
            self.follow(alloc, &records[at])?;
        }
        self.reach(cut);
        Ok(())
    }
}
