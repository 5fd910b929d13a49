//! Failed logins: how many there were, and how long each answer waits.

ghost use Rattle.std.specs.Prelude.{◌≡◌, ◌+◌, ◌-◌, ◌^◌, ◌==◌, ℕ, false, min, Some, None, IsTrue, unwrap_or};
ghost use Rattle.std.specs.Ordering.{nat_cmp};
ghost use Rattle.std.specs.BTreeMap.{get};
ghost use Rattle.s4_sockets.specs.Guesses.{IsCounted, answered, next_of, no_failures};

use s4_stream::SessionFault;
use s4_types::NoMemory;
use serde::Serialize;
use std::alloc::Global;
use std::collections::BTreeMap;
use std::sync::{Mutex, Wait};

/// How long the answer to a failed login waits, in milliseconds: whoever was tried, and however often.
/// So it tells nothing but that the login failed.
const DELAY: u64 = 1000;

/// For how long the failed logins of a principal are known behind the last one, in milliseconds: a day.
const KNOWN: u64 = 86400000;

/// Until when the answer to a peer's first words waits that ended by this fault, in milliseconds, if it
/// does: that to a failed login comes a second late.
pub(crate) fn answered_at(fault: Option<SessionFault>, now: u64) -> Option<u64>
    ensures { result ≡ answered fault now }
{
    match fault {
        Some(SessionFault::BadLogin) => Some(now.saturating_add(DELAY)),
        _ => None,
    }
}

/// The failed logins of a principal: their count, and when the last one came, in milliseconds.
#[derive(Clone, Copy)]
pub(crate) struct Failures {
    pub count: u64,
    pub last: u64,
}

impl Failures {
    /// No failed login.
    const NONE: Failures = Failures { count: 0, last: 0 };

    /// These with one more, which comes now. They are counted anew where the last one came a day ago.
    fn and_one(self, now: u64) -> Failures
        ensures { result ≡ next_of self now }
    {
        let is_forgotten = now.saturating_sub(self.last) >= KNOWN;
        let count = if is_forgotten {
            1
        } else {
            self.count.saturating_add(1)
        };
        Failures { count, last: now }
    }
}

/// The failed logins of all principals.
#[derive(Drop)]
pub(crate) struct Attempts {
    counts: Mutex<Counts>,
}

/// How many logins failed in all, those of each principal whom the logins name, and how many were of
/// others.
#[derive(Drop)]
struct Counts {
    all: u64,
    named: BTreeMap<u32, Failures>,
    others: u64,
}

impl Counts {
    /// Counts a failed login that comes now: of this principal, whom the logins name, or of one whom they
    /// don't. So nobody who invents principals is counted with one of theirs. Where there is no memory for
    /// another principal, it is counted with the others.
    fn add(&mut self, who: Option<u32>, now: u64)
        ensures all { self.new.all ≡ min (self.old.all + 1) (2 ^ 64 - 1) }
        ensures invented { who ≡ None → (w : ℕ)
            → get nat_cmp self.new.named w ≡ get nat_cmp self.old.named w }
        ensures others { who ≡ None → self.new.others ≡ min (self.old.others + 1) (2 ^ 64 - 1) }
        ensures named { (w : ℕ) → who ≡ Some w
            → IsCounted now (get nat_cmp self.old.named w) (get nat_cmp self.new.named w)
            self.old.others self.new.others }
        ensures apart { (named w : ℕ) → who ≡ Some named → (w == named) ≡ false
            → get nat_cmp self.new.named w ≡ get nat_cmp self.old.named w }
    {
        self.all = self.all.saturating_add(1);
        let is_counted = match who {
            Some(who) => self.add_to(who, now),
            None => false,
        };
        if !is_counted {
            self.others = self.others.saturating_add(1);
        }
    }

    /// Counts it for a principal. Tells whether there was memory for that.
    fn add_to(&mut self, who: u32, now: u64) -> bool
        ensures counted { IsTrue result → get nat_cmp self.new.named who
            ≡ Some (next_of (unwrap_or (get nat_cmp self.old.named who) no_failures) now) }
        ensures refused { result ≡ false
            → get nat_cmp self.new.named who ≡ get nat_cmp self.old.named who }
        ensures apart { (w : ℕ) → (w == who) ≡ false
            → get nat_cmp self.new.named w ≡ get nat_cmp self.old.named w }
        ensures all { self.new.all ≡ self.old.all }
        ensures others { self.new.others ≡ self.old.others }
    {
        let failures = self.named.get(&who).copied().unwrap_or(Failures::NONE);
        self.named.insert(who, failures.and_one(now)).is_ok()
    }
}

impl Attempts {
    /// No failed logins. Takes no memory.
    pub(crate) fn new(alloc: Global) -> Attempts {
        Attempts {
            counts: Mutex::new(Counts {
                all: 0,
                named: BTreeMap::new(alloc),
                others: 0,
            }),
        }
    }

    /// Counts a failed login that comes now, in milliseconds: of this principal, whom the logins name, or
    /// of one whom they don't.
    pub(crate) fn failed<R: Wait>(&self, rt: &R, who: Option<u32>, now: u64) {
        self.counts.lock(rt).add(who, now);
    }

    /// How many there were: of each principal those of the last day, and of the days before in which they
    /// went on.
    pub(crate) fn told<R: Wait>(
        &self,
        rt: &R,
        alloc: Global,
        now: u64,
    ) -> Result<FailedLogins, NoMemory> {
        let counts = self.counts.lock(rt);
        let mut principals = Vec::new(alloc);
        for (who, failures) in counts.named.iter() {
            if now.saturating_sub(failures.last) < KNOWN {
                principals.push(FailedBy {
                    who: *who,
                    count: failures.count,
                })?;
            }
        }
        Ok(FailedLogins {
            all: counts.all,
            others: counts.others,
            principals,
        })
    }
}

/// How many logins failed: in all, by principal, and of those whom the logins don't name.
#[derive(Serialize)]
pub struct FailedLogins {
    pub all: u64,
    pub others: u64,
    pub principals: Vec<FailedBy>,
}

// Written out, so that no crate above proves how they are dropped.
impl Drop for FailedLogins {
    fn drop(self) {
        let FailedLogins {
            all: _,
            others: _,
            principals: _,
        } = self;
    }
}

/// How many logins of a principal failed.
#[derive(Clone, Copy, Serialize)]
pub struct FailedBy {
    pub who: u32,
    pub count: u64,
}
