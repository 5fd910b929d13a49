//! The threads of a server start together, or not at all.

ghost use Rattle.std.specs.Prelude.{◌≡◌, ◌+◌, ◌-◌, ◌^◌, min};

use std::sync::atomic::{AtomicBool, AtomicU64, Ordering};
use std::thread;
use std::time::{Clock, Duration};

/// How many threads a server has beside its workers: one that accepts, one that sweeps, one that keeps
/// its journal, and one that looks after its other files.
const OTHERS: u64 = 4;

/// How often a thread looks whether all others have started.
const LOOKS: u32 = 5000;

/// How long it rests in between, in milliseconds.
const REST: u64 = 1;

/// Where the threads of a server wait for each other. A thread that the system doesn't give is run
/// when another one has ended, so it would never be there.
#[derive(Drop)]
pub(crate) struct Start {
    wanted: u64,
    here: AtomicU64,
    failed: AtomicBool,
}

impl Start {
    /// The start of the threads of a server with so many workers.
    pub(crate) fn new(workers: u64) -> Start
        ensures { result.wanted ≡ min (workers + 4) (2 ^ 64 - 1) }
    {
        Start {
            wanted: workers.saturating_add(OTHERS),
            here: AtomicU64::new(0),
            failed: AtomicBool::new(false),
        }
    }

    /// Waits until all threads have come here. Tells whether they have: it waits for five seconds
    /// at most, and once one thread has given up, all others do.
    pub(crate) fn is_made<R: Clock>(&self, rt: &R) -> bool {
        self.here.fetch_add(1, Ordering::SeqCst);
        for _ in 0..LOOKS {
            if self.has_failed() {
                return false;
            }
            if self.here.load(Ordering::SeqCst) >= self.wanted {
                return true;
            }
            thread::sleep(rt, Duration::from_millis(REST));
        }
        self.failed.store(true, Ordering::SeqCst);
        false
    }

    /// Whether a thread has given up.
    pub(crate) fn has_failed(&self) -> bool {
        self.failed.load(Ordering::SeqCst)
    }
}
