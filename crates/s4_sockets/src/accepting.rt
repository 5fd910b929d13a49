//! Accepting connections, and giving them to the workers.

ghost use Rattle.std.specs.Prelude.{◌≡◌, ◌<◌, ◌++◌, IsTrue};
ghost use Rattle.s4_jobs.specs.Seats.{having_put};
ghost use Rattle.s4_sockets.specs.Accepted.{PutsSome, numbers_to};

use crate::clock::Ticks;
use crate::connection::{Connection, number_after};
use crate::lobby::Lobby;
use crate::post::{Post, least, open, with_oldest_unwelcomed};
use crate::watch::Watch;
use s4_jobs::{Jobs, Seat};
use s4_keeping::{Entrant, Event, Kind, Notes};
use std::io::ErrorKind;
use std::net::{SocketAddr, TcpListener, TcpStream};
use std::sync::Wait;
use std::time::{Clock, Duration};
use std::{io, thread};

/// How long it waits before it tries again, in milliseconds, where no connection can be accepted,
/// or all places of the queue are taken, or no worker is there.
const PAUSE: u64 = 10;

/// How often it looks, each millisecond, whether a place became free that was asked for.
const LOOKS: u32 = 100;

/// One of so many places is asked for at once, where all are taken, and one more.
const SHARE: u32 = 32;

/// How many milliseconds it waits for a connection before it looks whether the server is to end.
const LOOK: u64 = 100;

/// Where connections come in: a listener that is watched, and which connections are let in.
pub struct Door<'a, R> {
    listener: &'a TcpListener,
    watch: Watch,
    posts: &'a [Post],
    /// How many may be open. For a further one the oldest is turned out that isn't welcomed; where there
    /// is none it is closed at once.
    most: u32,
    lobby: &'a Lobby<'a, R>,
    /// Where word is left of a connection for which there is no place.
    notes: &'a Notes,
}

// Written out, so that no crate above proves how a watch is dropped.
impl<R> Drop for Door<'_, R> {
    fn drop(self) {
        let Door {
            listener: _,
            watch: _,
            posts: _,
            most: _,
            lobby: _,
            notes: _,
        } = self;
    }
}

impl<'a, R> Door<'a, R> {
    /// A door at this listener.
    pub fn new(
        listener: &'a TcpListener,
        watch: Watch,
        posts: &'a [Post],
        most: u32,
        lobby: &'a Lobby<'a, R>,
        notes: &'a Notes,
    ) -> Door<'a, R>
        ensures { result.most ≡ most }
    {
        // Where this fails each connection may wait for some tenths of a second.
        let _ = watch.add_listener(listener);
        Door {
            listener,
            watch,
            posts,
            most,
            lobby,
            notes,
        }
    }
}

impl<R: Wait + Clock> Door<'_, R> {
    /// Accepts a connection, and tries again where that fails or where there are too many; none
    /// once the server is to end.
    fn accept<C: Ticks>(&mut self, rt: &R, clock: &C) -> Option<(TcpStream, SocketAddr)> {
        for _ in rt.forever() {
            if self.lobby.is_over() {
                return None;
            }
            match self.listener.accept() {
                Ok((stream, address)) => {
                    if self.lets_in(rt, clock, &stream, address) {
                        return Some((stream, address));
                    }
                }
                Err(error) => self.rest(rt, &error),
            }
        }
        unreachable!()
    }

    /// Whether the connection is let in.
    fn lets_in<C: Ticks>(
        &self,
        rt: &R,
        clock: &C,
        stream: &TcpStream,
        address: SocketAddr,
    ) -> bool {
        // A reply is sent at once, also where the peer has not yet told that it has the last one.
        let _ = stream.set_nodelay(true);
        let is_ready = stream.set_nonblocking(true).is_ok();
        let is_in = is_ready && self.lobby.lets_in(address.ip());
        if is_in && self.finds_place(rt) {
            return true;
        }
        if is_in {
            self.lobby.lets_out(address.ip());
        }
        self.lobby.turn_away();
        self.tell_turned_away(rt, clock, address);
        false
    }

    /// Whether a connection more has a place. Where all are taken it asks for those of the oldest
    /// connections that aren't welcomed, and waits a while until one is free.
    fn finds_place(&self, rt: &R) -> bool {
        for _ in 0..LOOKS {
            if open(self.posts) < u64::from(self.most) {
                return true;
            }
            match with_oldest_unwelcomed(self.posts) {
                Some(post) => post.ask_to_turn_out(u64::from(self.most / SHARE) + 1),
                None => return false,
            }
            thread::sleep(rt, Duration::from_millis(1));
        }
        false
    }

    /// Leaves word of a connection for which there is no place.
    fn tell_turned_away<C: Ticks>(&self, rt: &R, clock: &C, address: SocketAddr) {
        let entrant = Entrant {
            connection: 0,
            address: Some(address),
        };
        let event = Event::new(&entrant, clock.moment().tick(), Kind::TurnedAway);
        self.notes.tell(rt, event);
    }

    /// Waits for a connection where there is none now, and else for a while.
    fn rest(&mut self, rt: &R, error: &io::Error) {
        match error.kind() {
            ErrorKind::WouldBlock => {
                self.watch.wait(Some(Duration::from_millis(LOOK)));
            }
            _ => thread::sleep(rt, Duration::from_millis(PAUSE)),
        }
    }
}

/// Accepts so many connections, by their numbers from 1 on, or without end where that is 0. Each is
/// put into the queue, and given to the worker with the fewest. Tells whether there were so many
/// before the server was to end.
pub fn accept_all<R: Wait + Clock, C: Ticks>(
    rt: &R,
    clock: &C,
    door: &mut Door<'_, R>,
    jobs: &Jobs<Connection>,
    seat: &mut Seat<Connection>,
    connections: u32,
) -> bool
    requires { seat.old.queue ≡ jobs.now.queue }
    ensures queue { seat.new.queue ≡ seat.old.queue }
    ensures put { IsTrue result → seat.new.put ≡ seat.old.put ++ numbers_to connections }
    ensures fewer { 0 < connections → PutsSome connections seat.old.put seat.new.put }
{
    let mut number = 0u64;
    for _ in rt.forever() {
        let Some((stream, address)) = door.accept(rt, clock) else {
            return false;
        };
        number = number_after(number);
        let connection = Connection {
            number,
            address,
            stream,
            is_proxied: door.lobby.is_proxy(address.ip()),
        };
        put(rt, jobs, seat, connection);
        give(rt, door.posts, number);
        if number == u64::from(connections) {
            return true;
        }
    }
    unreachable!()
}

/// Gives the connection of that number to the worker that has the fewest, once one is there.
fn give<R: Wait + Clock>(rt: &R, posts: &[Post], number: u64) {
    for _ in rt.forever() {
        if let Some(post) = least(posts) {
            post.give(number);
            return;
        }
        thread::sleep(rt, Duration::from_millis(PAUSE));
    }
}

/// Puts a connection, and tries again while the queue is full.
fn put<R: Wait + Clock>(
    rt: &R,
    jobs: &Jobs<Connection>,
    seat: &mut Seat<Connection>,
    connection: Connection,
)
    requires { seat.old.queue ≡ jobs.now.queue }
    ensures { seat.new ≡ having_put seat.old connection.number }
{
    let mut job = connection;
    for _ in rt.forever() {
        match jobs.put(rt, seat, job) {
            Ok(()) => return,
            Err(back) => job = back,
        }
        thread::sleep(rt, Duration::from_millis(PAUSE));
    }
}
