//! What a principal has of a server's time.

ghost use Rattle.std.specs.Prelude.{◌≡◌, ◌/◌, max};

use s4_types::NoMemory;
use std::alloc::Global;
use std::collections::BTreeMap;
use std::sync::atomic::{AtomicU64, Ordering};
use std::sync::{Arc, Mutex, Wait};

/// For how long a principal's peers go on in a round of turns, in nanoseconds, where they have those of
/// one worker alone.
const WHOLE: u64 = 100_000;

/// A principal's share of a server's time: it counts the workers at which peers of his wait for a turn.
#[derive(Drop)]
pub(crate) struct Share {
    workers: AtomicU64,
}

impl Share {
    fn new() -> Share {
        Share {
            workers: AtomicU64::new(0),
        }
    }

    /// Peers wait at one worker more.
    pub(crate) fn enter(&self) {
        self.workers.fetch_add(1, Ordering::SeqCst);
    }

    /// Peers wait at one worker less.
    pub(crate) fn leave(&self) {
        self.workers.fetch_sub(1, Ordering::SeqCst);
    }

    /// For how long they go on in a round of a worker, in nanoseconds.
    pub(crate) fn part(&self) -> u64 {
        part_of(self.workers.load(Ordering::SeqCst))
    }
}

/// What each of so many workers gives of a share.
fn part_of(workers: u64) -> u64
    ensures { result ≡ 100000 / max workers 1 }
{
    WHOLE / workers.max(1)
}

/// The shares of all principals, and that of all peers who aren't welcomed.
#[derive(Drop)]
pub(crate) struct Shares {
    alloc: Global,
    each: Mutex<BTreeMap<Option<u32>, Arc<Share>>>,
}

impl Shares {
    /// No shares. Takes no memory.
    pub(crate) fn new(alloc: Global) -> Shares {
        Shares {
            alloc,
            each: Mutex::new(BTreeMap::new(alloc)),
        }
    }

    /// The share of a principal, or of those who aren't welcomed.
    pub(crate) fn of<R: Wait>(&self, rt: &R, who: Option<u32>) -> Result<Arc<Share>, NoMemory> {
        let mut each = self.each.lock(rt);
        if let Some(share) = each.get(&who) {
            return Arc::try_clone(share);
        }
        let share = Arc::new(self.alloc, Share::new())?;
        let kept = Arc::try_clone(&share)?;
        each.insert(who, kept)?;
        Ok(share)
    }
}
