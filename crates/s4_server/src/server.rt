//! The server.

ghost use Rattle.std.specs.Prelude.{◌≡◌, ◌≤◌, [], false, true, length, IfOk, IsTrue};
ghost use Rattle.s4_types.specs.Limits.{data_asked, data_in, is_within_limits};
ghost use Rattle.s4_closing.specs.Merged.{AreWhole};
ghost use Rattle.s4_closing.specs.Closing.{IsClosing, NoneUncounted, NoneWent};
ghost use Rattle.s4_pool.specs.Numbers.{HasAll};
ghost use Rattle.s4_server.specs.Setup.{CarriesOut, IsNamed};

use crate::board::Board;
use crate::context::Context;
use crate::fault::ServerFault;
use crate::noting::note_passes;
use crate::places::Places;
use crate::upkeep::Upkeep;
use s4_cells::Cell;
use s4_closing::none_went;
use s4_keeping::{Keeper, Kept};
use s4_pool::{Blank, Closed, Front, Names, OpenGate, Pass};
use s4_settings::Settings;
use s4_sockets::{Lobby, Post, Ticks, wall_clock};
use s4_stream::Logins;
use s4_types::{Caller, Moment, NoMemory, Record, Reply, Request};
use std::alloc::Global;
use std::marker::Model;
use std::net::{Net, TcpListener};
use std::sync::atomic::Ordering;
use std::sync::{Arc, Wait};
use std::thread::Threads;
use std::time::Clock;

/// How many expired values are freed at most behind a request. It ends three at most (docs/THREADS.md,
/// "A server's threads"), so no more expire than are freed.
const FREED_BEHIND: u64 = 4;

/// A server that is set up, and accepts nothing yet. Callers see its settings, and its first pass.
#[derive(Drop)]
pub struct Server<N: Names> {
    alloc: Global,
    settings: Settings,
    front: Front<OpenGate, N>,
    passes: Vec<Pass<N>>,
    posts: Vec<Post>,
    places: Places,
}

impl<N: Names> Model for Server<N> {
    ghost use Rattle.std.specs.Prelude.{◌≡◌, length};
    ghost use Rattle.s4_server.specs.Setup.{Setup, first_of};

    ghost Value = { Setup };

    ghost view = { λ s. record { settings = s.settings; first = first_of s.passes.items } };

    ghost invariant = { λ s. (s.front.window ≡ s.settings.window)
        × (s.front.cells ≡ s.settings.cells)
        × (s.front.passes ≡ s.settings.workers)
        × (length s.passes.items ≡ s.settings.workers)
        × (s.front.freed_behind ≡ 4) };
}

impl<N: Names + Send + Sync> Server<N> {
    /// A server of these settings: its cells, a pass, a seat and a watch for each worker, and the
    /// queue of connections. It consumes a blank ledger for its front. `NoMemory` where a growth was
    /// refused, and `NoWatch` where the system gives no watch.
    pub fn open<S: Net>(
        net: &S,
        alloc: Global,
        settings: Settings,
        blank: Blank<Record>,
    ) -> Result<Server<N>, ServerFault>
        requires named { IsNamed N.ledger N.window N.passes blank.ledger settings }
        ensures settings { IfOk result (λ server. server.settings ≡ settings) }
        ensures none { IfOk result (λ server. server.first.calls ≡ []) }
        ensures never { IfOk result (λ server. server.first.ever ≡ []) }
    {
        let Settings {
            window,
            cells,
            workers,
            ..
        } = settings;
        let (mut front, passes) = Front::open(alloc, window, cells, workers, OpenGate, blank)?;
        front.set_freed_behind(FREED_BEHIND);
        let (places, posts) = Places::open(net, alloc, &settings)?;
        Ok(Server {
            alloc,
            settings,
            front,
            passes,
            posts,
            places,
        })
    }

    /// Carries out a request before connections are served, at the moment that the clock tells. Its
    /// call is one of the first pass.
    pub fn ask<R: Wait, C: Ticks>(
        &mut self,
        rt: &R,
        clock: &C,
        caller: Caller,
        request: &Request,
    ) -> Reply
        ensures carried_out { CarriesOut self.old self.new caller request.now result }
        ensures limits { IsTrue (is_within_limits caller.version result) }
        ensures asked { data_in result ≤ data_asked request.now }
    {
        match self.passes.get_mut(0) {
            Some(pass) => self.front.serve(rt, pass, caller, clock.moment(), request),
            None => unreachable!(),
        }
    }

    /// Serves the connections of the listener, each by one worker until it ends, while one thread
    /// more sweeps the cells in turn. Where the settings name a number of connections it ends after
    /// so many: they are served to their ends, the workers are joined, and the front is closed.
    /// What it then gives is what the closing of a front gives (docs/ARCHITECTURE.md, "Fronts").
    /// Once the file that ends it is there it ends too: no connection is accepted or read any more,
    /// and each is closed once all that it was answered is written. `keeper` writes the history into
    /// a journal meanwhile. It waits.
    pub fn run<'x, R: Threads + Wait + Clock + Eprint + Sync, C: Ticks>(
        self,
        rt: &'x R,
        clock: &'x C,
        upkeep: &'x Upkeep<'x>,
        listener: &TcpListener,
        logins: Logins,
        keeper: Option<Keeper>,
    ) -> Result<Closed<N>, ServerFault>
        ensures there { IfOk result (λ closed. HasAll self.settings.workers closed.passes.items) }
        ensures count { IfOk result (λ closed. length closed.cells.items ≡ self.settings.cells) }
        ensures counted { IfOk result
            (λ closed. NoneUncounted closed.cells.items closed.passes.items) }
        ensures whole { IfOk result (λ closed. AreWhole self.settings.window closed.cells.items) }
        ensures history { IfOk result
            (λ closed. IsClosing self.settings.window closed.cells.items closed.passes.items
            closed.history.items) }
        ensures uncut { IfOk result (λ closed. self.settings.cuts ≡ false
            → NoneWent closed.cells.items) }
    {
        let Server {
            alloc,
            settings,
            front,
            passes,
            posts,
            places,
        } = self;
        let now = clock.moment().tick();
        let kept = keeper.as_ref().map(Keeper::kept);
        let (lobby, board, table) = begun(rt, alloc, &settings, logins, kept, now, &passes)?;
        let context = Context {
            rt,
            alloc,
            front: &front,
            cells: settings.cells,
            clock,
            upkeep,
            window: settings.window,
            board: &board,
            lobby: &lobby,
            port: port_of(listener),
            posts: posts.as_slice(),
            cuts: settings.cuts,
        };
        let reloading = upkeep.reloading(alloc, table, now);
        let passes = places.serve(&context, &settings, listener, passes, reloading, keeper)?;
        align(rt, &front, &board);
        let closed = match front.close(alloc, passes) {
            Ok(closed) => closed,
            Err(fault) => return Err(ServerFault::of(fault.why)),
        };
        let cells = closed.cells.as_slice();
        if !is_as_wanted(cells, settings.cuts) {
            return Err(ServerFault::Torn);
        }
        Ok(closed)
    }
}

/// What connections go by, what threads tell each other, and the login table, in a server that begins
/// now. Where it keeps a journal, which is so far, the calls that the passes have are noted.
fn begun<'a, R: Wait + Clock, N: Names>(
    rt: &'a R,
    alloc: Global,
    settings: &Settings,
    logins: Logins,
    journal: Option<Kept>,
    now: u64,
    passes: &[Pass<N>],
) -> Result<(Lobby<'a, R>, Board, Arc<Logins>), NoMemory> {
    let lobby = Lobby::new(rt, alloc, logins, settings)?;
    let board = Board::new(alloc, settings.workers, now, wall_clock(rt), journal)?;
    note_passes(rt, &board.notebook, passes)?;
    let table = lobby.logins()?;
    Ok((lobby, board, table))
}

/// Has all cells be cut at one moment: the greatest to which one of them was.
fn align<R: Wait, N: Names>(rt: &R, front: &Front<OpenGate, N>, board: &Board) {
    let ahead = board.ahead.load(Ordering::SeqCst);
    if ahead > 0 {
        front.cut(rt, Moment::new(ahead));
    }
}

/// Whether no record of any cell went, or records were to go.
fn is_as_wanted(cells: &[Cell], cuts: bool) -> bool
    ensures { result ≡ true → cuts ≡ false → NoneWent cells.now }
{
    cuts || none_went(cells)
}

/// The port at which it is listened; 0 where that can't be told.
fn port_of(listener: &TcpListener) -> u16 {
    listener.local_addr().map_or(0, |address| address.port())
}
