//! What a worker waits for.

use mio::net::TcpStream;
use mio::unix::SourceFd;
use mio::{Events, Interest, Poll, Token, Waker};
use std::alloc::Global;
use std::io;
use std::net::{Net, TcpListener};
use std::os::fd::AsRawFd;
use std::time::Duration;

/// What stands for the worker's post. A peer is known by its place and one more.
const WAKE: Token = Token(0);

/// How much is told at a time at most.
const EVENTS: usize = 256;

/// A worker's watch over its post and over the streams of its peers.
pub struct Watch {
    poll: Poll,
    events: Events,
}

// Written out, so that no crate above proves how what a poll tells is dropped.
impl Drop for Watch {
    fn drop(self) {
        let Watch { poll: _, events: _ } = self;
    }
}

impl Watch {
    /// A watch over nothing yet, and what ends its waits.
    pub(crate) fn open<N: Net>(net: &N, alloc: Global) -> io::Result<(Watch, Waker)> {
        let poll = Poll::new(net)?;
        let events = Events::with_capacity(alloc, EVENTS)?;
        let waker = Waker::new(poll.registry(), WAKE)?;
        Ok((Watch { poll, events }, waker))
    }

    /// Watches the stream of the peer of this place too.
    pub(crate) fn add(&self, stream: &mut TcpStream, place: usize) -> io::Result<()> {
        let both = Interest::READABLE | Interest::WRITABLE;
        self.poll.registry().register(stream, token_of(place), both)
    }

    /// Watches a listener too, which from now on has nobody wait for a connection.
    pub(crate) fn add_listener(&self, listener: &TcpListener) -> io::Result<()> {
        listener.set_nonblocking(true)?;
        let descriptor = listener.as_raw_fd();
        let mut source = SourceFd(&descriptor);
        let token = token_of(0);
        self.poll
            .registry()
            .register(&mut source, token, Interest::READABLE)
    }

    /// Waits until something is told, and for so long at most. Where the system can't, nothing is.
    pub fn wait(&mut self, most: Option<Duration>) -> &Events {
        let Watch { poll, events } = self;
        // Where it fails no event is left there.
        let _ = poll.poll(events, most);
        events
    }
}

/// What stands for the peer of this place.
fn token_of(place: usize) -> Token {
    Token(place.wrapping_add(1))
}

/// The place of the peer that this stands for; none where it stands for the post.
pub(crate) fn place_of(token: Token) -> Option<usize> {
    token.0.checked_sub(1)
}
