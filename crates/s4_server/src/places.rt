//! The places of a server's threads.

ghost use Rattle.std.specs.Prelude.{◌≡◌};
ghost use Rattle.s4_server.specs.Places.{AreOf};

use crate::context::Context;
use crate::fault::ServerFault;
use crate::threads::run_threads;
use crate::workers::{gather, staff};
use s4_jobs::{Jobs, Seat};
use s4_keeping::Keeper;
use s4_logins::Reloading;
use s4_pool::{Names, Pass};
use s4_settings::Settings;
use s4_sockets::{Connection, Door, Post, Ticks, Watch};
use std::alloc::Global;
use std::net::{Net, TcpListener};
use std::sync::Wait;
use std::thread::Threads;
use std::time::Clock;

/// How many connections wait for a worker at most; a further one waits to be accepted.
const WAITING: usize = 64;

/// The queue of connections, and where a server's threads take their places: the one who accepts has a
/// seat and a watch over the listener, and so has each worker, over its peers.
#[derive(Drop)]
pub(crate) struct Places {
    jobs: Jobs<Connection>,
    /// The seat of the one who accepts.
    seat: Seat<Connection>,
    /// The seats of the workers.
    seats: Vec<Seat<Connection>>,
    watches: Vec<Watch>,
    /// Over the listener.
    outer: Watch,
    ghost own: { seat.queue ≡ jobs.queue },
    ghost all: { AreOf jobs.queue seats.items },
}

impl Places {
    /// The places of a server of these settings, and each worker's post.
    pub(crate) fn open<S: Net>(
        net: &S,
        alloc: Global,
        settings: &Settings,
    ) -> Result<(Places, Vec<Post>), ServerFault> {
        let (jobs, mut seats) = Jobs::open(alloc, WAITING, settings.workers + 1)?;
        let seat = seats.remove(0);
        let (outer, _) = open_watch(net, alloc)?;
        let mut watches = Vec::new(alloc);
        let mut posts = Vec::new(alloc);
        for _ in 0..settings.workers {
            let (watch, post) = open_watch(net, alloc)?;
            watches.push(watch)?;
            posts.push(post)?;
        }
        let places = Places {
            jobs,
            seat,
            seats,
            watches,
            outer,
        };
        Ok((places, posts))
    }

    /// Serves the connections of the listener by these passes, until the last of them has ended, and
    /// gives the passes back. `NoMemory` where a thread can't be had, or a growth was refused.
    pub(crate) fn serve<
        R: Threads + Wait + Clock + Eprint + Sync,
        C: Ticks,
        N: Names + Send + Sync,
    >(
        self,
        context: &Context<'_, R, C, N>,
        settings: &Settings,
        listener: &TcpListener,
        passes: Vec<Pass<N>>,
        reloading: Reloading<'_>,
        keeper: Option<Keeper>,
    ) -> Result<Vec<Pass<N>>, ServerFault> {
        let Places {
            jobs,
            seat,
            seats,
            watches,
            outer,
        } = self;
        let mut workers = staff(context, &jobs, seats, passes, watches)?;
        let door = Door::new(
            listener,
            outer,
            context.posts,
            settings.open,
            context.lobby,
            context.board.notebook.door(),
        );
        let serving = workers.as_mut_slice();
        run_threads(
            context, settings, door, &jobs, seat, serving, reloading, keeper,
        );
        if context.board.start.has_failed() {
            return Err(ServerFault::NoMemory);
        }
        Ok(gather(context.alloc, workers)?)
    }
}

/// A watch and its post.
fn open_watch<N: Net>(net: &N, alloc: Global) -> Result<(Watch, Post), ServerFault> {
    Post::with_watch(net, alloc).map_err(ServerFault::of_watch)
}
