//! The peers of a worker.

ghost use Rattle.std.specs.Prelude.{◌≡◌, ◌≢◌, ◌==◌, ◌<◌, true, false, None, IsSome};
ghost use Rattle.std.specs.VecDeque.{deque_len};
ghost use Rattle.slab.specs.Slab.{slab_len};

use crate::connection::Connection;
use crate::host::{Host, tell};
use crate::lobby::Lobby;
use crate::peer::{Next, Peer};
use crate::post::Post;
use crate::rota::Rota;
use crate::states::States;
use crate::tables::Table;
use crate::watch::{Watch, place_of};
use mio::Events;
use mio::event::Event;
use mio::net::TcpStream;
use s4_keeping::{Entrant, Kind};
use slab::Slab;
use std::alloc::Global;
use std::io;
use std::sync::Wait;
use std::time::Duration;

/// For how long turns are given until it is looked again for whom something is told, in nanoseconds.
const WHILE: u64 = 1_000_000;

/// How many turns are given at most until then.
const TURNS: u32 = 512;

/// What a turn takes at least, in nanoseconds, also where nothing was asked in it.
const LEAST: u64 = 2_000;

/// The peers of a worker, each at its place.
pub struct Peers {
    alloc: Global,
    places: Slab<Peer>,
    /// The turns of those that go on at once.
    rota: Rota,
    /// The time when it was looked for idle ones.
    looked: u64,
}

// Written out, so that no crate above proves how peers are dropped.
impl Drop for Peers {
    fn drop(self) {
        let Peers {
            alloc: _,
            places: _,
            rota: _,
            looked: _,
        } = self;
    }
}

impl Peers {
    /// No peers. Takes no memory.
    pub fn new(alloc: Global) -> Peers
        ensures none { slab_len result.places ≡ 0 }
        ensures looked { result.looked ≡ 0 }
    {
        Peers {
            alloc,
            places: Slab::new(alloc),
            rota: Rota::new(alloc),
            looked: 0,
        }
    }

    /// How many peers there are.
    pub fn len(&self) -> usize
        ensures { result ≡ slab_len self.now.places }
    {
        self.places.len()
    }

    /// Whether there are none.
    pub fn is_empty(&self) -> bool
        ensures { result ≡ (slab_len self.now.places == 0) }
    {
        self.places.is_empty()
    }

    /// How long a wait may be: not at all where some go on at once, else until something is told.
    pub fn patience(&self) -> Option<Duration>
        ensures waits { deque_len self.now.rota.ring ≡ 0 → result ≡ None }
        ensures at_once { 0 < deque_len self.now.rota.ring → IsSome result }
    {
        if self.rota.is_empty() {
            None
        } else {
            Some(Duration::from_millis(0))
        }
    }

    /// Takes in the peer of a connection, and has its stream watched. Tells whether that could be done:
    /// a connection for which there is no memory, or that can't be watched, is closed.
    pub fn admit<R: Wait, H: Host>(
        &mut self,
        lobby: &Lobby<'_, R>,
        host: &H,
        watch: &Watch,
        connection: Connection,
        now: u64,
    ) -> bool
        ensures looked { self.new.looked ≡ self.old.looked }
    {
        let entrant = connection.entrant();
        let is_proxied = connection.is_proxied;
        let stream = TcpStream::from_std(connection.stream);
        let table = lobby.newest();
        if !is_proxied {
            tell(host, &entrant, Kind::Opened);
        }
        let is_in = match table {
            Ok(table) => self
                .add(lobby, watch, entrant, is_proxied, stream, table, now)
                .is_ok(),
            Err(_) => false,
        };
        if !is_in {
            if let Some(address) = entrant.address {
                lobby.lets_out(address.ip());
            }
            if is_proxied {
                tell(host, &entrant, Kind::Opened);
            }
            tell(host, &entrant, Kind::NoMemory);
        }
        is_in
    }

    /// Takes in a peer, and has its stream watched.
    fn add<R: Wait>(
        &mut self,
        lobby: &Lobby<'_, R>,
        watch: &Watch,
        entrant: Entrant,
        is_proxied: bool,
        stream: TcpStream,
        table: Table,
        now: u64,
    ) -> io::Result<()>
        ensures looked { self.new.looked ≡ self.old.looked }
    {
        let queue = self.rota.queue_of(lobby, None)?;
        let peer = Peer::new(self.alloc, entrant, is_proxied, stream, table, queue, now);
        let place = self.places.insert(peer)?;
        let watched = match self.places.get_mut(place) {
            Some(peer) => watch.add(peer.stream_mut(), place),
            None => Ok(()),
        };
        if watched.is_err() {
            self.places.try_remove(place);
        }
        watched
    }

    /// Serves those of whom these events tell, and those that go on, turn by turn, for a while.
    pub fn serve<R: Wait, H: Host>(
        &mut self,
        lobby: &Lobby<'_, R>,
        host: &mut H,
        events: &Events,
        now: u64,
    ) {
        if let Some(told) = only_one(events)
            && self.rota.is_empty()
        {
            // Nobody else waits, so nobody counts for how long it goes on.
            return self.serve_alone(lobby, host, told, now);
        }
        for told in events.iter().filter_map(|event| Told::by(event)) {
            self.await_turn(lobby, host, told);
        }
        self.give_turns(lobby, host, now);
    }

    /// Serves the only peer of whom something is told, where none goes on.
    fn serve_alone<R: Wait, H: Host>(
        &mut self,
        lobby: &Lobby<'_, R>,
        host: &mut H,
        told: Told,
        now: u64,
    ) {
        if let Some(peer) = self.places.get_mut(told.place) {
            peer.hears_last(told.last);
        }
        self.give_turn(lobby, host, now, told.place);
    }

    /// Gives turns for a while, or until nobody waits for one.
    fn give_turns<R: Wait, H: Host>(&mut self, lobby: &Lobby<'_, R>, host: &mut H, now: u64) {
        let mut spent = 0u64;
        for _ in 0..TURNS {
            let Some(turn) = self.rota.next() else {
                return;
            };
            self.give_turn(lobby, host, now, turn.place);
            let more = host.spent().max(LEAST);
            self.rota.spend(turn.queue, more);
            spent = spent.saturating_add(more);
            if spent >= WHILE {
                return;
            }
        }
    }

    /// Has the peer of whom something is told wait for a turn, where it is there.
    fn await_turn<R: Wait, H: Host>(&mut self, lobby: &Lobby<'_, R>, host: &H, told: Told) {
        let Told { place, last } = told;
        let Some(peer) = self.places.get_mut(place) else {
            return;
        };
        peer.hears_last(last);
        let parting = noted(&mut self.rota, peer, place);
        if !stays(lobby, host, peer, parting) {
            self.places.try_remove(place);
        }
    }

    /// Serves the peer of this place, where there is one.
    fn give_turn<R: Wait, H: Host>(
        &mut self,
        lobby: &Lobby<'_, R>,
        host: &mut H,
        now: u64,
        place: usize,
    ) {
        let Some(peer) = self.places.get_mut(place) else {
            return;
        };
        peer.becomes_patient();
        let next = peer.take_turn(lobby, host, now);
        let parting = match next {
            Next::Over(parting) => Some(parting),
            _ if peer.queue_up(lobby, &mut self.rota).is_err() => Some(Kind::NoMemory),
            Next::Waits => None,
            Next::GoesOn => noted(&mut self.rota, peer, place),
        };
        if !stays(lobby, host, peer, parting) {
            self.places.try_remove(place);
        }
    }

    /// Ends with those for whom nothing waits to be written.
    pub fn end<R: Wait, H: Host>(&mut self, lobby: &Lobby<'_, R>, host: &H, now: u64)
        ensures looked { self.new.looked ≡ self.old.looked }
    {
        let Peers { places, rota, .. } = self;
        places.retain(|place, peer| {
            let parting = if peer.ends(now) {
                noted(rota, peer, place)
            } else {
                None
            };
            stays(lobby, host, peer, parting)
        });
    }

    /// Looks after all, once at each time: closes those that were idle for too long, or whose login
    /// isn't in the newest table any more, and has those go on whose answer had to wait and is due.
    /// Tells whether it was time for that.
    pub fn look<R: Wait, H: Host>(&mut self, lobby: &Lobby<'_, R>, host: &H, now: u64) -> bool
        ensures once { now ≡ self.old.looked → result ≡ false }
        ensures again { now ≢ self.old.looked → result ≡ true }
        ensures looked { self.new.looked ≡ now }
    {
        if now == self.looked {
            return false;
        }
        self.looked = now;
        let Peers { places, rota, .. } = self;
        places.retain(|place, peer| {
            let parting = match peer.overdue(lobby, now) {
                None if peer.is_due(host, now) => noted(rota, peer, place),
                parting => parting,
            };
            stays(lobby, host, peer, parting)
        });
        true
    }

    /// Turns out so many of the oldest that aren't welcomed as the post asks for, and shows there how
    /// far it is with the others.
    pub fn make_room<R: Wait, H: Host>(&mut self, lobby: &Lobby<'_, R>, host: &H, post: &Post)
        ensures looked { self.new.looked ≡ self.old.looked }
    {
        let connections = post.to_turn_out();
        if connections > 0 {
            for _ in 0..connections {
                self.turn_out(lobby, host);
            }
            post.show(&self.states());
        }
    }

    /// Turns out the oldest that isn't welcomed, where there is any.
    fn turn_out<R: Wait, H: Host>(&mut self, lobby: &Lobby<'_, R>, host: &H)
        ensures looked { self.new.looked ≡ self.old.looked }
    {
        let oldest = self.states().unwelcomed;
        self.places.retain(|_, peer| {
            let is_oldest = peer.entrant().connection == oldest;
            stays(lobby, host, peer, is_oldest.then_some(Kind::TurnedAway))
        });
    }

    /// How far it is with them.
    pub fn states(&self) -> States {
        let mut states = States::NONE;
        for (_, peer) in self.places.iter() {
            states.count(peer.state(), peer.entrant().connection);
        }
        states
    }
}

/// What is told of a peer: its place, and whether it sends no more.
#[derive(Clone, Copy)]
struct Told {
    place: usize,
    last: bool,
}

impl Told {
    /// What an event tells of a peer, if it does.
    fn by(event: &Event) -> Option<Told> {
        Some(Told {
            place: place_of(event.token())?,
            last: event.is_read_closed(),
        })
    }
}

/// What is told of a peer, where nothing is told of another.
fn only_one(events: &Events) -> Option<Told> {
    let mut each = events.iter().filter_map(|event| Told::by(event));
    let first = each.next()?;
    match each.next() {
        Some(_) => None,
        None => Some(first),
    }
}

/// Has a peer wait for a turn, unless it does. Where there is no memory for that it leaves.
fn noted(rota: &mut Rota, peer: &mut Peer, place: usize) -> Option<Kind> {
    if peer.becomes_eager() && rota.add(peer.turn_at(place)).is_err() {
        return Some(Kind::NoMemory);
    }
    None
}

/// Whether the peer stays: where it doesn't, its places are free, and word is left why.
fn stays<R: Wait, H: Host>(
    lobby: &Lobby<'_, R>,
    host: &H,
    peer: &Peer,
    parting: Option<Kind>,
) -> bool {
    match parting {
        Some(parting) => {
            peer.leave_places(lobby);
            if matches!(parting, Kind::TurnedAway) {
                lobby.turn_away();
            }
            if peer.is_announced() {
                tell(host, peer.entrant(), Kind::Opened);
            }
            tell(host, peer.entrant(), parting);
            false
        }
        None => true,
    }
}
