//! A plain drive, and what the records left that went of it.

ghost use Rattle.std.specs.Prelude.{◌≡◌, ◌+◌, ◌<◌, ◌≤◌, ◌^◌, min, true, false, IsTrue, List, IfOk, OnOk, OnErr, length};
ghost use Rattle.std.specs.FinMap as finmap;
ghost use Rattle.s4_types.specs.declared.record.Step.{Step};
ghost use Rattle.s4_types.specs.Answer.{answer as answer_of};
ghost use Rattle.s4_types.specs.Kinds.{is_wide};
ghost use Rattle.s4_types.specs.Limits.{data_asked, data_in, is_within_limits};
ghost use Rattle.s4_types.specs.Play.{NeverDown, last_of, is_no_memory};
ghost use Rattle.s4_types.specs.Log.{fresh_log, is_ready_for, base_of, horizon_in, needed, expired_in, swept};
ghost use Rattle.s4_cuts.specs.Cut.{base_at, told};
ghost use Rattle.s4_cuts.specs.CutLog.{cut_log, gone_of, left_of, base_left};
ghost use Rattle.s4_base.specs.Lists.{base_of_lists};
ghost use Rattle.s4_drive.specs.Alike.{AnswersAlike};
ghost use Rattle.s4_drive.specs.Step.{Steps};

use s4_base::{Base, count_before};
use s4_store::Store;
use s4_types::{Caller, Moment, NoMemory, Reply, Request, Version};
use std::alloc::{AllocError, Global};
use std::marker::Model;

/// The most records that a base may tell of, so that the place of each later record is a number of
/// 63 bits as well.
const MOST_GONE: u64 = 9223372036854775807;

/// A drive beside what the records left that went. Callers see the log of the plain drive. A plain
/// drive alone, which keeps no byte of records that went, can't tell later what they left.
pub struct Drive<S: Store<Version>> {
    alloc: Global,
    plain: s4_drive::Drive<S>,
    base: Base,
}

// Written out, so that no crate above proves how the parts of a drive are dropped.
impl<S: Store<Version> + Drop> Drop for Drive<S> {
    fn drop(self) {
        let Drive {
            alloc: _,
            plain: _,
            base: _,
        } = self;
    }
}

impl<S: Store<Version>> Model for Drive<S> {
    ghost use Rattle.s4_types.specs.Log.{Log};

    ghost Value = { Log };

    ghost use Rattle.s4_kept.specs.Kept.{IsKept};

    ghost view = { λ d. d.plain };

    ghost invariant = { λ d. IsKept d.plain d.base };
}

impl<S: Store<Version>> Drive<S> {
    /// A fresh drive over an empty store, with a window of so many ticks. Takes no memory.
    pub fn new(alloc: Global, store: S, window: u64) -> Drive<S>
        requires { S.chains store ≡ finmap.empty }
        ensures { result ≡ fresh_log window }
    {
        Drive {
            alloc,
            plain: s4_drive::Drive::new(alloc, store, window),
            base: Base::fresh(alloc, window),
        }
    }

    /// The plain drive, which tells all else.
    pub fn plain(&self) -> &s4_drive::Drive<S>
        ensures { result.now ≡ self.now }
    {
        &self.plain
    }

    /// What the records left that went, from which the history goes on.
    pub fn base(&self) -> &Base
        ensures { base_of_lists result.now ≡ base_left self.now }
    {
        &self.base
    }

    /// Answers a request as the plain drive does: by all records that there were, which is by the
    /// base and the records that are left.
    pub fn step(&mut self, moment: Moment, caller: Caller, request: &Request) -> Reply
        requires { last_of self.old.history ≤ moment }
        ensures steps { Steps self.old self.new moment caller request.now result }
        ensures rest { is_no_memory result ≡ false → result
            ≡ answer_of (base_left self.old) (left_of self.old) moment caller request.now }
        ensures limits { IsTrue (is_within_limits caller.version result) }
        ensures asked { data_in result ≤ data_asked request.now }
        ensures ready { is_ready_for self.old.ready request.now ≡ true
            → is_wide caller request.now ≡ true → is_no_memory result ≡ false }
    {
        self.plain.step(moment, caller, request)
    }

    /// Frees at most so many of the values and bindings that are expired at the horizon and still
    /// held, and tells how many, as the plain drive does.
    pub fn sweep(&mut self, most: u64) -> u64
        ensures freed { result ≡ min most (expired_in self.old) }
        ensures swept { self.new ≡ swept most self.old }
    {
        self.plain.sweep(most)
    }

    /// What the records before the moment leave, at any moment; before the last cut it is what that
    /// cut left. It goes through the records that are left before the moment, and copies what those
    /// leave that went. `NoMemory` is also for a moment before which there were more than
    /// 9,223,372,036,854,775,807 records.
    pub fn base_at(&self, moment: Moment) -> Result<Base, NoMemory>
        ensures base { IfOk result (λ base. base_of_lists base
            ≡ base_at (base_left self.now) (left_of self.now) moment) }
        ensures whole { self.now.cut ≤ moment → IfOk result (λ base. base_of_lists base
            ≡ base_at (base_of self.now) self.now.history moment) }
        ensures bound { IfOk result (λ base. base.count < 2 ^ 63) }
    {
        let records = self.plain.history();
        let staying = (records.len() - count_before(records, moment)) as u64;
        if self.plain.next_place() - staying > MOST_GONE {
            return Err(AllocError);
        }
        self.base.after(self.alloc, records, moment)
    }

    /// Drops the records before a moment that isn't above the horizon, and tells how many went. The
    /// base that is given is what they leave. It takes no memory, and the drive goes on as the uncut
    /// one would, and as the base and the records that are left would.
    pub fn cut_to(&mut self, moment: Moment, base: Base) -> u64
        requires told { moment ≤ horizon_in self.old }
        requires base { base_of_lists base
            ≡ base_at (base_left self.old) (left_of self.old) moment }
        ensures cut { self.new ≡ cut_log moment self.old }
        ensures went { length (gone_of self.old) + result ≡ length (gone_of self.new) }
        ensures replies { AnswersAlike self.old self.new }
        ensures last { last_of self.new.history ≡ last_of self.old.history }
        ensures horizon { horizon_in self.new ≡ horizon_in self.old }
        ensures needed { needed self.new ≡ needed self.old }
        ensures left { (steps : List Step) → NeverDown (last_of self.new.history) steps
            → told (base_left self.new) (left_of self.new) steps
            ≡ told (base_of self.new) self.new.history steps }
    {
        self.base = base;
        self.plain.cut(moment)
    }

    /// The same cut, with the base that the drive makes for it. An `Err` leaves the drive uncut.
    pub fn cut(&mut self, moment: Moment) -> Result<u64, NoMemory>
        requires told { moment ≤ horizon_in self.old }
        ensures cut { OnOk result (self.new ≡ cut_log moment self.old) }
        ensures went { IfOk result (λ went.
            length (gone_of self.old) + went ≡ length (gone_of self.new)) }
        ensures bound { OnOk result ((base_left self.new).count < 2 ^ 63) }
        ensures replies { AnswersAlike self.old self.new }
        ensures last { last_of self.new.history ≡ last_of self.old.history }
        ensures horizon { horizon_in self.new ≡ horizon_in self.old }
        ensures needed { needed self.new ≡ needed self.old }
        ensures left { OnOk result ((steps : List Step)
            → NeverDown (last_of self.new.history) steps
            → told (base_left self.new) (left_of self.new) steps
            ≡ told (base_of self.new) self.new.history steps) }
        ensures err { OnErr result (self.new ≡ self.old) }
    {
        let base = self.base_at(moment)?;
        Ok(self.cut_to(moment, base))
    }
}
