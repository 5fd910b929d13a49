//! Where connections are left for a worker.

use crate::states::States;
use crate::watch::Watch;
use mio::Waker;
use std::alloc::Global;
use std::io;
use std::net::Net;
use std::sync::atomic::{AtomicBool, AtomicU64, Ordering};

/// A worker's post: where it is woken, and how many connections it was given and has ended.
pub struct Post {
    waker: Waker,
    begun: AtomicBool,
    given: AtomicU64,
    ended: AtomicU64,
    greeting: AtomicU64,
    welcomed: AtomicU64,
    leaving: AtomicU64,
    unwelcomed: AtomicU64,
    /// How many connections the worker is to turn out.
    outward: AtomicU64,
}

// Written out, so that no crate above proves how a waker is dropped.
impl Drop for Post {
    fn drop(self) {
        let Post {
            waker: _,
            begun: _,
            given: _,
            ended: _,
            greeting: _,
            welcomed: _,
            leaving: _,
            unwelcomed: _,
            outward: _,
        } = self;
    }
}

impl Post {
    /// A watch over nothing yet, and the post of the worker that waits there.
    pub fn with_watch<N: Net>(net: &N, alloc: Global) -> io::Result<(Watch, Post)> {
        let (watch, waker) = Watch::open(net, alloc)?;
        let post = Post {
            waker,
            begun: AtomicBool::new(false),
            given: AtomicU64::new(0),
            ended: AtomicU64::new(0),
            greeting: AtomicU64::new(0),
            welcomed: AtomicU64::new(0),
            leaving: AtomicU64::new(0),
            unwelcomed: AtomicU64::new(u64::MAX),
            outward: AtomicU64::new(0),
        };
        Ok((watch, post))
    }

    /// The worker is at its post.
    pub fn begin(&self) {
        self.begun.store(true, Ordering::SeqCst);
    }

    /// Whether the worker is at its post.
    pub(crate) fn has_begun(&self) -> bool {
        self.begun.load(Ordering::SeqCst)
    }

    /// How many connections the worker was given so far.
    pub fn given(&self) -> u64 {
        self.given.load(Ordering::SeqCst)
    }

    /// How many of them have not ended.
    pub fn open(&self) -> u64 {
        self.given().wrapping_sub(self.ended.load(Ordering::SeqCst))
    }

    /// Gives the worker one connection more, which has that number, and wakes it.
    pub(crate) fn give(&self, number: u64) {
        // Where one is known that isn't welcomed, that is older.
        let _ = self
            .unwelcomed
            .compare_exchange(u64::MAX, number, Ordering::SeqCst, Ordering::SeqCst);
        self.given.fetch_add(1, Ordering::SeqCst);
        self.wake();
    }

    /// So many of the connections have ended.
    pub fn end(&self, connections: u64) {
        self.ended.fetch_add(connections, Ordering::SeqCst);
    }

    /// Tells how far it is with the connections.
    pub fn show(&self, states: &States) {
        self.greeting.store(states.greeting, Ordering::SeqCst);
        self.welcomed.store(states.welcomed, Ordering::SeqCst);
        self.leaving.store(states.leaving, Ordering::SeqCst);
        self.unwelcomed.store(states.unwelcomed, Ordering::SeqCst);
    }

    /// How far it was with the connections when that was last told.
    pub fn states(&self) -> States {
        States {
            greeting: self.greeting.load(Ordering::SeqCst),
            welcomed: self.welcomed.load(Ordering::SeqCst),
            leaving: self.leaving.load(Ordering::SeqCst),
            unwelcomed: self.unwelcomed.load(Ordering::SeqCst),
        }
    }

    /// Asks the worker to turn out so many of its oldest connections that aren't welcomed.
    pub(crate) fn ask_to_turn_out(&self, connections: u64) {
        self.outward.store(connections, Ordering::SeqCst);
        self.wake();
    }

    /// How many connections the worker is to turn out. It is told once.
    pub(crate) fn to_turn_out(&self) -> u64 {
        self.outward.swap(0, Ordering::SeqCst)
    }

    /// Ends the worker's wait, or its next one.
    pub(crate) fn wake(&self) {
        // This fails only where the worker's counter of wakes is full, and then it is woken.
        let _ = self.waker.wake();
    }
}

/// The post with the fewest open connections, of those whose workers are there.
pub(crate) fn least(posts: &[Post]) -> Option<&Post> {
    posts
        .iter()
        .filter(|post| post.has_begun())
        .min_by_key(|post| post.open())
}

/// The post with the oldest connection that isn't welcomed, where there is any.
pub(crate) fn with_oldest_unwelcomed(posts: &[Post]) -> Option<&Post> {
    posts
        .iter()
        .filter(|post| post.states().unwelcomed < u64::MAX)
        .min_by_key(|post| post.states().unwelcomed)
}

/// How many connections are open.
pub(crate) fn open(posts: &[Post]) -> u64 {
    posts
        .iter()
        .fold(0u64, |sum, post| sum.saturating_add(post.open()))
}

/// Wakes all workers.
pub fn wake_all(posts: &[Post]) {
    for post in posts {
        post.wake();
    }
}
