//! The records of one principal.

ghost use Rattle.std.specs.Prelude.{◌≡◌, ◌≢◌, true, None, Some, IfOk};
ghost use Rattle.s4_sockets.specs.declared.hold.Awaited.TheVariants.{Room};

use crate::counts::Counts;
use crate::hold::Awaited;
use s4_types::{Caller, Moment, NoMemory, Principal};
use std::alloc::Global;
use std::sync::{Mutex, Wait};

/// How the records of principals are counted.
#[derive(Clone, Copy)]
pub(crate) struct Terms {
    /// How many bytes those of one principal may take; none where there is no bound.
    pub(crate) most: Option<u64>,
    /// How many ticks are of one span, at least.
    pub(crate) ticks: u64,
}

/// What the requests of one principal have left of records that aren't cut yet, or that the journal lacks,
/// for all workers of a server.
#[derive(Drop)]
pub struct Trail {
    who: Principal,
    terms: Terms,
    counts: Mutex<Counts>,
}

impl Trail {
    /// The trail of a principal that has asked nothing.
    pub(crate) fn new(alloc: Global, who: &Principal, terms: Terms) -> Result<Trail, NoMemory>
        ensures who { IfOk result (λ trail. trail.who ≡ who.now) }
        ensures terms { IfOk result (λ trail. trail.terms ≡ terms) }
    {
        Ok(Trail {
            who: *who,
            terms,
            counts: Mutex::new(Counts::new(alloc)?),
        })
    }

    /// Whose it is.
    pub(crate) fn who(&self) -> Principal
        ensures { result ≡ self.now.who }
    {
        self.who
    }

    /// Whether a request of this caller may leave one record more, where those before a moment were cut:
    /// their bytes are less than the most that they may be. The administrator's always may. It waits.
    pub fn has_room<R: Wait>(&self, rt: &R, caller: &Caller, cut: Moment) -> bool
        requires own { self.now.who ≡ caller.now.who }
        ensures administrator { caller.now.who ≡ 0 → result ≡ true }
        ensures unbounded { self.now.terms.most ≡ None → result ≡ true }
    {
        let mut counts = self.counts.lock(rt);
        counts.uncut.cut(cut);
        counts.uncut.has_room(&caller.who, self.terms.most)
    }

    /// A request of this caller left a record of so many bytes at this moment. Tells whether one more may
    /// be. It waits.
    pub fn add<R: Wait>(&self, rt: &R, caller: &Caller, moment: Moment, bytes: u64) -> bool
        requires own { self.now.who ≡ caller.now.who }
        ensures administrator { caller.now.who ≡ 0 → result ≡ true }
        ensures unbounded { self.now.terms.most ≡ None → result ≡ true }
    {
        let mut counts = self.counts.lock(rt);
        counts.add(moment, bytes, self.terms.ticks);
        counts.uncut.has_room(&caller.who, self.terms.most)
    }

    /// What a request of this caller is to wait for, if anything, where the records before a moment were
    /// cut, and the journal has those before another one. The administrator's never waits. It waits.
    pub fn awaited<R: Wait>(
        &self,
        rt: &R,
        caller: &Caller,
        cut: Moment,
        written: Moment,
    ) -> Option<Awaited>
        requires own { self.now.who ≡ caller.now.who }
        ensures administrator { caller.now.who ≡ 0 → result ≡ None }
        ensures unbounded { self.now.terms.most ≡ None → result ≢ Some Room }
    {
        let mut counts = self.counts.lock(rt);
        counts.awaited(&caller.who, self.terms.most, cut, written)
    }

    /// How many bytes they take, where those before a moment were cut. It waits.
    pub(crate) fn bytes<R: Wait>(&self, rt: &R, cut: Moment) -> u64 {
        let mut counts = self.counts.lock(rt);
        counts.uncut.cut(cut);
        counts.uncut.bytes()
    }
}
