//! What a server counts.

use s4_types::{NoMemory, Reply};
use std::alloc::Global;
use std::sync::atomic::{AtomicU64, Ordering};

/// How many numbers there are of refusals, 0 among them, which stands for all other replies.
pub(crate) const KINDS: usize = 17;

/// What the threads of a server count together.
pub struct Tally {
    /// The replies, by the number of their refusal.
    replies: Vec<AtomicU64>,
}

// Written out, so that no crate above proves how counts are dropped.
impl Drop for Tally {
    fn drop(self) {
        let Tally { replies: _ } = self;
    }
}

impl Tally {
    /// Nothing was counted.
    pub fn new(alloc: Global) -> Result<Tally, NoMemory> {
        let mut replies = Vec::new(alloc);
        for _ in 0..KINDS {
            replies.push(AtomicU64::new(0))?;
        }
        Ok(Tally { replies })
    }

    /// Counts a reply.
    pub fn reply(&self, reply: &Reply) {
        if let Some(count) = self.replies.get(usize::from(reply.number())) {
            count.fetch_add(1, Ordering::SeqCst);
        }
    }

    /// How many replies there were with this number of a refusal.
    pub(crate) fn replies(&self, number: usize) -> u64 {
        match self.replies.get(number) {
            Some(count) => count.load(Ordering::SeqCst),
            None => 0,
        }
    }
}
