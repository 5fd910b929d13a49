//! Workers, which serve connections.

ghost use Rattle.std.specs.Prelude.{◌≡◌, ◌≤◌, ◌-◌, length};
ghost use Rattle.s4_passes.specs.Changes.{Forgets};
ghost use Rattle.s4_server.specs.Places.{AreOf};

use crate::context::Context;
use crate::desk::Desk;
use crate::quiet::move_on;
use s4_jobs::{Jobs, Seat};
use s4_pool::{Names, Pass};
use s4_sockets::{Connection, Peers, Post, Ticks, TrailTable, Watch};
use s4_types::NoMemory;
use std::alloc::Global;
use std::sync::Wait;
use std::sync::atomic::Ordering;
use std::time::Clock;

/// A worker's place: where it takes connections, where it waits for what their peers say, and where
/// it answers their requests.
#[derive(Drop)]
pub(crate) struct Worker<'a, R, C, N: Names> {
    jobs: &'a Jobs<Connection>,
    seat: Seat<Connection>,
    /// How many connections it took.
    taken: u64,
    post: &'a Post,
    watch: Watch,
    peers: Peers,
    desk: Desk<'a, R, C, N>,
    pub(crate) ghost same: { seat.queue ≡ jobs.now.queue },
}

/// A worker for each seat, pass, watch and post.
pub(crate) fn staff<'a, R, C, N: Names>(
    context: &'a Context<'a, R, C, N>,
    jobs: &'a Jobs<Connection>,
    seats: Vec<Seat<Connection>>,
    passes: Vec<Pass<N>>,
    watches: Vec<Watch>,
) -> Result<Vec<Worker<'a, R, C, N>>, NoMemory>
    requires { AreOf jobs.now.queue seats.items }
{
    let mut seats = seats;
    let mut workers = Vec::new(context.alloc);
    let places = context
        .posts
        .iter()
        .zip(context.board.notebook.workers().iter());
    let places = watches.into_iter().zip(places);
    for (pass, (watch, (post, notes))) in passes.into_iter().zip(places) {
        if let Some(seat) = seats.pop() {
            let desk = Desk {
                context,
                notes,
                connection: 0,
                turn: None,
                pass,
                trails: TrailTable::new(context.alloc),
                is_full: false,
            };
            workers.push(Worker {
                jobs,
                seat,
                taken: 0,
                post,
                watch,
                peers: Peers::new(context.alloc),
                desk,
            })?;
        }
    }
    Ok(workers)
}

/// The passes of all workers.
pub(crate) fn gather<R, C, N: Names>(
    alloc: Global,
    workers: Vec<Worker<'_, R, C, N>>,
) -> Result<Vec<Pass<N>>, NoMemory> {
    let mut passes = Vec::new(alloc);
    for worker in workers {
        let desk = worker.desk;
        passes.push(desk.pass)?;
    }
    Ok(passes)
}

impl<R: Wait + Clock, C: Ticks, N: Names> Worker<'_, R, C, N> {
    /// Serves the connections that it is given, until no more are accepted and all of its own have
    /// ended.
    pub(crate) fn run(&mut self) {
        let context = self.desk.context;
        self.post.begin();
        if !context.board.start.is_made(context.rt) {
            return;
        }
        for _ in context.rt.forever() {
            let last = context.board.accepted.load(Ordering::SeqCst);
            self.take();
            if last && self.taken == self.post.given() && self.peers.is_empty() {
                return;
            }
            self.go_round();
        }
    }

    /// Takes in the connections that it was given. One for which there is no memory, or that can't
    /// be watched, is closed.
    fn take(&mut self) {
        for _ in self.taken..self.post.given() {
            let Worker {
                jobs,
                seat,
                taken,
                post,
                watch,
                peers,
                desk,
                ..
            } = &mut *self;
            let context = desk.context;
            if let Some(connection) = jobs.take(context.rt, seat) {
                *taken = taken.wrapping_add(1);
                let now = context.board.time.load(Ordering::SeqCst);
                if !peers.admit(context.lobby, desk, watch, connection, now) {
                    post.end(1);
                }
                post.show(&peers.states());
            }
        }
    }

    /// Waits until something is told, and serves whom it is told of. Of its calls it keeps the newest.
    fn go_round(&mut self)
        ensures few { length self.new.desk.pass.calls ≤ 1 }
    {
        let Worker {
            post,
            watch,
            peers,
            desk,
            ..
        } = self;
        let context = desk.context;
        let before = peers.len();
        let events = watch.wait(peers.patience());
        let now = context.board.time.load(Ordering::SeqCst);
        peers.serve(context.lobby, desk, events, now);
        if peers.look(context.lobby, desk, now) {
            post.show(&peers.states());
            move_on(desk);
        }
        keep_newest(&mut desk.pass);
        peers.make_room(context.lobby, desk, post);
        if context.lobby.is_over() {
            peers.end(context.lobby, desk, now);
        }
        let ended = before.saturating_sub(peers.len());
        if ended > 0 {
            post.end(ended as u64);
        }
    }
}

/// Keeps no call of the pass but the newest. All that there ever were stay known.
#[tactic(auto, using(crate::proofs::Newest::as_many_receipts))]
fn keep_newest<N: Names>(pass: &mut Pass<N>)
    ensures { Forgets (length pass.old.calls - 1) pass.old pass.new }
{
    let older = pass.receipts().len().saturating_sub(1);
    pass.forget(older);
}
