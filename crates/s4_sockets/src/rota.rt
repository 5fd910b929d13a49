//! Whose turn is next at a worker.

ghost use Rattle.std.specs.Prelude.{◌≡◌, ◌+◌, ◌-◌, ◌<◌, ◌==◌, ◌^◌, min, nat_lt};
ghost use Rattle.std.specs.VecDeque.{deque_capacity, deque_len};

use crate::lobby::Lobby;
use crate::share::Share;
use s4_types::NoMemory;
use slab::Slab;
use std::alloc::Global;
use std::collections::{BTreeMap, VecDeque};
use std::sync::{Arc, Wait};

/// How much longer turns may have been than they were to be, in nanoseconds: what is beyond that is
/// forgotten.
const MOST_OWED: u64 = 100_000_000;

/// The turns of a worker's peers: principals follow each other round by round, each for its share of
/// the time, and so do the peers of one of them. Those who aren't welcomed are as one principal.
#[derive(Drop)]
pub(crate) struct Rota {
    alloc: Global,
    queues: Slab<Queue>,
    names: BTreeMap<Option<u32>, usize>,
    /// The queues in which a peer waits.
    ring: VecDeque<usize>,
}

/// Those of a principal's peers that wait for a turn.
#[derive(Drop)]
struct Queue {
    share: Arc<Share>,
    /// Their places.
    waiting: VecDeque<usize>,
    account: Account,
    is_in_ring: bool,
}

/// What a principal was given of a worker's time so far, and what of that is spent, in nanoseconds.
/// More may be spent than was given, where a turn was longer than it was to be.
#[derive(Clone, Copy)]
pub(crate) struct Account {
    given: u64,
    spent: u64,
}

impl Account {
    /// Nothing was given.
    const NONE: Account = Account { given: 0, spent: 0 };

    /// Whether something is left.
    fn has_some(&self) -> bool
        ensures { result ≡ nat_lt self.now.spent self.now.given }
    {
        self.spent < self.given
    }

    /// So much more is given.
    fn give(&mut self, part: u64)
        ensures given { self.new.given ≡ min (self.old.given + part) (2 ^ 64 - 1) }
        ensures spent { self.new.spent ≡ self.old.spent }
    {
        self.given = self.given.saturating_add(part);
    }

    /// So much is spent.
    fn spend(&mut self, time: u64)
        ensures given { self.new.given ≡ self.old.given }
        ensures spent { self.new.spent
            ≡ min (min (self.old.spent + time) (2 ^ 64 - 1)) (min (self.old.given + 100000000) (2 ^ 64 - 1)) }
    {
        let most = self.given.saturating_add(MOST_OWED);
        self.spent = self.spent.saturating_add(time).min(most);
    }

    /// What is left is lost. What was spent beyond what was given isn't forgotten.
    fn lose(&mut self)
        ensures given { self.new.given ≡ min self.old.given self.old.spent }
        ensures spent { self.new.spent ≡ self.old.spent }
    {
        self.given = self.given.min(self.spent);
    }
}

/// A turn: the queue that pays for it, and the place of the peer that has it.
#[derive(Clone, Copy)]
pub(crate) struct Turn {
    pub(crate) queue: usize,
    pub(crate) place: usize,
}

impl Queue {
    /// Peers wait in it from now on.
    fn enter(&mut self) {
        self.is_in_ring = true;
        self.share.enter();
        self.account.give(self.share.part());
    }

    /// No peer waits in it any more.
    fn leave(&mut self) {
        self.is_in_ring = false;
        self.share.leave();
        self.account.lose();
    }
}

impl Rota {
    /// Nobody waits. Takes no memory.
    pub(crate) fn new(alloc: Global) -> Rota
        ensures none { deque_len result.ring ≡ 0 }
    {
        Rota {
            alloc,
            queues: Slab::new(alloc),
            names: BTreeMap::new(alloc),
            ring: VecDeque::new(alloc),
        }
    }

    /// Whether nobody waits for a turn.
    pub(crate) fn is_empty(&self) -> bool
        ensures { result ≡ (deque_len self.now.ring == 0) }
    {
        self.ring.is_empty()
    }

    /// The queue of a principal's peers, or of those that aren't welcomed.
    pub(crate) fn queue_of<R: Wait>(
        &mut self,
        lobby: &Lobby<'_, R>,
        who: Option<u32>,
    ) -> Result<usize, NoMemory> {
        if let Some(queue) = self.names.get(&who) {
            return Ok(*queue);
        }
        let queue = self.queues.insert(Queue {
            share: lobby.share(who)?,
            waiting: VecDeque::new(self.alloc),
            account: Account::NONE,
            is_in_ring: false,
        })?;
        let named = self.names.insert(who, queue);
        if named.is_err() {
            self.queues.try_remove(queue);
        }
        named?;
        Ok(queue)
    }

    /// The peer at a place waits for a turn from now on, in this queue.
    pub(crate) fn add(&mut self, turn: Turn) -> Result<(), NoMemory> {
        let Some(queue) = self.queues.get_mut(turn.queue) else {
            return Ok(());
        };
        queue.waiting.push_back(turn.place)?;
        if !queue.is_in_ring {
            self.ring.push_back(turn.queue)?;
            queue.enter();
        }
        Ok(())
    }

    /// The next turn. A queue that has spent its share of the round comes last, and has that of the next
    /// one then.
    pub(crate) fn next(&mut self) -> Option<Turn> {
        for _ in 0..u64::MAX {
            let queue = self.ring.pop_front()?;
            if let Some(place) = self.visit(queue) {
                return Some(Turn { queue, place });
            }
        }
        None
    }

    /// Takes the next place from the queue that came first, and was taken out of the ring: it comes first
    /// again then. Where it has spent its share it comes last, and where nobody waits in it it leaves.
    fn visit(&mut self, number: usize) -> Option<usize>
        requires room { deque_len self.old.ring < deque_capacity self.old.ring }
    {
        let Rota { queues, ring, .. } = self;
        let queue = queues.get_mut(number)?;
        if queue.waiting.is_empty() {
            queue.leave();
            return None;
        }
        if queue.account.has_some() {
            ring.push_front_reserved(number);
            return queue.waiting.pop_front();
        }
        queue.account.give(queue.share.part());
        ring.push_back_reserved(number);
        None
    }

    /// The peers of the queue had so many nanoseconds.
    pub(crate) fn spend(&mut self, queue: usize, nanoseconds: u64) {
        if let Some(queue) = self.queues.get_mut(queue) {
            queue.account.spend(nanoseconds);
        }
    }
}
