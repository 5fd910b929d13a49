//! Answers by a drive.

use s4_drive::Drive;
use s4_store::PlainStore;
use s4_talk::Answer;
use s4_types::{Caller, Moment, Reply, Request, Version};
use std::alloc::Global;

/// A drive with a window of 100 ticks, and the moment of the newest request. The first one has the
/// moment 6 where `pace` is 1.
#[derive(Drop)]
pub struct Desk {
    pub drive: Drive<PlainStore<Version>>,
    tick: u64,
    pace: u64,
}

impl Desk {
    /// A desk at moment 5, whose moments go up by `pace` from request to request.
    pub fn open(alloc: Global, pace: u64) -> Desk {
        Desk {
            drive: Drive::new(alloc, PlainStore::new(alloc), 100),
            tick: 5,
            pace,
        }
    }
}

impl Answer for Desk {
    ghost use Rattle.std.specs.Prelude.{map};
    ghost use Rattle.s4_bytes_tests.specs.Desks.{call_of};

    ghost calls = { λ desk. map call_of desk.drive.history };

    fn answer(&mut self, caller: Caller, request: Request) -> Reply {
        self.tick = self.tick.saturating_add(self.pace);
        let last = self.drive.last();
        let now = Moment::new(self.tick);
        let moment = if now < last { last } else { now };
        self.drive.step(moment, caller, &request)
    }
}
