//! A peer that a worker serves beside others.

use crate::attempts::answered_at;
use crate::conversation::Conversation;
use crate::ending::{Drained, Leaving, drain_some};
use crate::gauge::{Gauge, Tap};
use crate::hold::{Awaited, Hold, hold_for};
use crate::host::{Host, event_now, tell};
use crate::lobby::Lobby;
use crate::opening::Opening;
use crate::proxy_line::{Heard, MOST, Origin, hear};
use crate::rota::{Rota, Turn};
use crate::states::State;
use crate::tables::Table;
use mio::net::TcpStream;
use s4_keeping::{Entrant, Kind};
use s4_settings::Patience;
use s4_stream::SessionFault;
use s4_talk::{TalkEnd, TurnEnd};
use s4_types::{NoMemory, Principal};
use std::alloc::Global;
use std::io::{ErrorKind, Read};
use std::mem::replace;
use std::net::Shutdown;
use std::sync::Wait;

/// How many turns a peer has at a time at most, where others may wait for theirs.
const TURNS: u32 = 8;

/// How long it is listened to a peer who leaves, in milliseconds.
const FAREWELL: u64 = 1000;

/// How many bytes the frame of a fault has.
const FAULT_FRAME: usize = 6;

/// A peer: its connection, and what was said there.
#[derive(Drop)]
pub(crate) struct Peer {
    entrant: Entrant,
    /// A proxy passes it on, and the line isn't there yet that says whose it is.
    announced: bool,
    /// It counts among the connections of its address.
    counted: bool,
    stream: TcpStream,
    stage: Stage,
    opening: Opening,
    /// When it was accepted, in milliseconds.
    begun: u64,
    /// When a whole frame last came from it, or it last took bytes.
    since: u64,
    /// For how long the answer to its failed login waits, or its next request.
    held: Option<Hold>,
    /// It has a place as one that is welcomed.
    seated: bool,
    /// It sends no more, so no further event tells of its stream.
    last: bool,
    /// It waits for a turn.
    eager: bool,
    /// The queue in which it waits then.
    queue: usize,
    /// Whether that is the one of its principal's peers.
    is_in_own: bool,
}

/// How far it is with a peer.
#[derive(Drop)]
enum Stage {
    Talks(Conversation),
    /// It was told a fault.
    Leaves(Leaving),
    /// The server is to end, and it was told all.
    Ends,
}

/// What is next with a peer.
#[derive(Clone, Copy)]
pub(crate) enum Next {
    /// Nothing, until something is told of its stream.
    Waits,
    /// There may be more to read at once.
    GoesOn,
    /// Its connection is over.
    Over(Kind),
}

impl Peer {
    /// A peer with whom nothing was said. `is_proxied` says that a proxy passes it on. Takes no memory.
    pub(crate) fn new(
        alloc: Global,
        entrant: Entrant,
        is_proxied: bool,
        stream: TcpStream,
        table: Table,
        queue: usize,
        now: u64,
    ) -> Peer {
        Peer {
            entrant,
            announced: is_proxied,
            counted: !is_proxied,
            stream,
            stage: Stage::Talks(Conversation::open(alloc, table)),
            opening: Opening::new(),
            begun: now,
            since: now,
            held: None,
            seated: false,
            last: false,
            eager: false,
            queue,
            is_in_own: false,
        }
    }

    /// Who it is.
    pub(crate) fn entrant(&self) -> &Entrant {
        &self.entrant
    }

    /// Whether a proxy passes it on, and the line isn't there yet that says whose it is.
    pub(crate) fn is_announced(&self) -> bool {
        self.announced
    }

    /// The stream, to be watched.
    pub(crate) fn stream_mut(&mut self) -> &mut TcpStream {
        &mut self.stream
    }

    /// From now on it waits for a turn. Tells whether that is new.
    pub(crate) fn becomes_eager(&mut self) -> bool {
        !replace(&mut self.eager, true)
    }

    /// It sends no more, where that is so.
    pub(crate) fn hears_last(&mut self, last: bool) {
        self.last = self.last || last;
    }

    /// From now on it waits for an event.
    pub(crate) fn becomes_patient(&mut self) {
        self.eager = false;
    }

    /// Serves the peer for some turns, until that is enough.
    pub(crate) fn take_turn<R: Wait, H: Host>(
        &mut self,
        lobby: &Lobby<'_, R>,
        host: &mut H,
        now: u64,
    ) -> Next {
        if !self.meets(lobby) {
            return Next::Over(Kind::Revoked);
        }
        if self.announced && !lobby.is_over() {
            match self.hear_proxy(lobby, host) {
                Next::GoesOn => {}
                next => return next,
            }
        }
        host.turn_to(self.entrant.connection);
        for _ in 0..TURNS {
            let end = self.talk(lobby, host, now);
            if !self.has_place(lobby) {
                return Next::Over(Kind::TurnedAway);
            }
            match end {
                Some(TurnEnd::More) | Some(TurnEnd::Enough) => {}
                Some(TurnEnd::Waits) | Some(TurnEnd::Stuck) => return Next::Waits,
                Some(TurnEnd::Ended(TalkEnd::Faulted(_))) => return self.leave(now),
                Some(TurnEnd::Ended(end)) => return Next::Over(parting_of(end)),
                None => match self.hear_out() {
                    Next::GoesOn => {}
                    next => return next,
                },
            }
            if host.is_enough() {
                return Next::GoesOn;
            }
        }
        Next::GoesOn
    }

    /// Hears the line of the proxy that passes the peer on: nothing behind it is taken.
    fn hear_proxy<R: Wait, H: Host>(&mut self, lobby: &Lobby<'_, R>, host: &H) -> Next {
        let mut bytes = [0; MOST];
        let heard = match self.stream.peek(&mut bytes) {
            Ok(0) => return Next::Over(Kind::Closed),
            Ok(count) => hear(&bytes[..count]),
            Err(error) => match error.kind() {
                ErrorKind::WouldBlock | ErrorKind::Interrupted => return Next::Waits,
                _ => return Next::Over(Kind::Reset),
            },
        };
        match heard {
            Heard::Line(count, origin) if self.skip(count) => self.comes_from(lobby, host, origin),
            Heard::Torn if !self.last => Next::Waits,
            _ => {
                self.opens(host);
                tell(host, &self.entrant, Kind::Malformed);
                Next::Over(Kind::Closed)
            }
        }
    }

    /// Takes so many bytes that are there. Tells whether it did.
    fn skip(&self, count: usize) -> bool {
        let mut bytes = [0; MOST];
        let mut reader: &TcpStream = &self.stream;
        match reader.read(&mut bytes[..count.min(MOST)]) {
            Ok(read) => read == count,
            Err(_) => false,
        }
    }

    /// The proxy says whose connection this is. It has to have a place among those of its address.
    fn comes_from<R: Wait, H: Host>(
        &mut self,
        lobby: &Lobby<'_, R>,
        host: &H,
        origin: Origin,
    ) -> Next {
        if let Origin::Peer(address) = origin {
            self.entrant.address = Some(address);
            self.counted = lobby.enter(address.ip());
            if !self.counted {
                return Next::Over(Kind::TurnedAway);
            }
        }
        self.opens(host);
        Next::GoesOn
    }

    /// Leaves word that it was opened, once it is known whose it is.
    fn opens<H: Host>(&mut self, host: &H) {
        self.announced = false;
        tell(host, &self.entrant, Kind::Opened);
    }

    /// The turn that it waits for at this place.
    pub(crate) fn turn_at(&self, place: usize) -> Turn {
        Turn {
            queue: self.queue,
            place,
        }
    }

    /// Has it wait in the queue of its principal's peers, once it is welcomed.
    pub(crate) fn queue_up<R: Wait>(
        &mut self,
        lobby: &Lobby<'_, R>,
        rota: &mut Rota,
    ) -> Result<(), NoMemory> {
        if self.seated && !self.is_in_own {
            self.queue = rota.queue_of(lobby, Some(self.opening.who()))?;
            self.is_in_own = true;
        }
        Ok(())
    }

    /// Takes a turn with the peer, where it is told replies. Once the server is to end it isn't
    /// read. Until it is welcomed nothing is written in the turn that reads: so the answer to a
    /// failed login can wait. There is no more to read where a read was shorter than it could have
    /// been, but for the end, of which no further event may tell.
    fn talk<R: Wait, H: Host>(
        &mut self,
        lobby: &Lobby<'_, R>,
        host: &mut H,
        now: u64,
    ) -> Option<TurnEnd> {
        if self.waits(host, now) {
            return Some(TurnEnd::Stuck);
        }
        let Peer {
            entrant,
            stream,
            stage,
            opening,
            since,
            held,
            last,
            ..
        } = self;
        let Stage::Talks(talk) = stage else {
            return None;
        };
        let waited = talk.waiting();
        let greets = talk.is_greeting();
        let heard = talk.fault().is_some();
        let stream: &TcpStream = stream;
        let mut reader = Gauge::new(stream, lobby.is_over(), *opening);
        let mut writer = Tap::new(stream, greets);
        let end = talk.turn(host, &mut reader, &mut writer);
        *opening = reader.opening();
        if writer.has_given() || talk.waiting() != waited {
            *since = now;
        }
        if greets {
            tell_welcome(host, entrant, talk, opening);
        }
        if !heard {
            tell_fault(host, entrant, talk, opening);
        }
        match end {
            TurnEnd::Stuck if greets => {
                count_failure(lobby, talk, opening, now);
                *held = answered_at(talk.fault(), now).map(Hold::Until);
                Some(TurnEnd::More)
            }
            TurnEnd::More if reader.is_short() && !*last => Some(TurnEnd::Waits),
            end => Some(end),
        }
    }

    /// Whether it waits now: for the answer to its failed login, or for what its next request awaits before
    /// it is heard.
    fn waits<H: Host>(&mut self, host: &H, now: u64) -> bool {
        let Stage::Talks(talk) = &self.stage else {
            return false;
        };
        if self.seated && talk.waiting() == 0 {
            self.held = hold_for(awaited(host, &self.opening), self.held, now);
        }
        self.held.is_some_and(|hold| hold.lasts(now))
    }

    /// Whether there is a place for it: for one that is welcomed now where there is one left. Nothing
    /// was written to it by then.
    fn has_place<R: Wait>(&mut self, lobby: &Lobby<'_, R>) -> bool {
        let is_new = self.state().is_welcomed() && !self.seated;
        match self.opening.caller() {
            Some(caller) if is_new => {
                self.seated = lobby.seat(&caller);
                self.seated
            }
            _ => true,
        }
    }

    /// Gives its places back. Its connection is over.
    pub(crate) fn leave_places<R: Wait>(&self, lobby: &Lobby<'_, R>) {
        if let Some(address) = self.entrant.address
            && self.counted
        {
            lobby.leave(address.ip());
        }
        match self.opening.caller() {
            Some(caller) if self.seated => lobby.unseat(&caller),
            _ => {}
        }
    }

    /// Says that no more is sent, and hears out the peer, within bounds: a close with bytes that
    /// nobody read would reset the connection, and the peer could lose the frame that tells the
    /// fault.
    fn leave(&mut self, now: u64) -> Next {
        // Where this fails the connection is lost already.
        let _ = self.stream.shutdown(Shutdown::Write);
        self.stage = Stage::Leaves(Leaving::new());
        self.since = now;
        self.hear_out()
    }

    /// Says that no more is sent, where nothing waits to be written for the peer. What it still
    /// says is read from then on: else a close could reset the connection, and the peer lose what
    /// it was sent. Tells whether it is to go on at once for that.
    pub(crate) fn ends(&mut self, now: u64) -> bool {
        let is_told = match &self.stage {
            Stage::Talks(talk) => talk.waiting() == 0,
            _ => false,
        };
        if is_told {
            // Where this fails the connection is lost already.
            let _ = self.stream.shutdown(Shutdown::Write);
            self.stage = Stage::Ends;
            self.since = now;
        }
        is_told
    }

    /// Reads what the peer still says, and forgets it.
    fn hear_out(&mut self) -> Next {
        let Peer { stream, stage, .. } = self;
        let mut reader: &TcpStream = stream;
        match stage {
            Stage::Leaves(leaving) => {
                if leaving.hear(&mut reader) {
                    Next::Waits
                } else {
                    Next::Over(Kind::Closed)
                }
            }
            Stage::Ends => next_after(drain_some(&mut reader)),
            Stage::Talks(_) => Next::Over(Kind::Closed),
        }
    }

    /// Why the peer may not stay, if so: it was silent, or took nothing of what waits for it, for
    /// too long; or it isn't welcomed yet and should be; or its login isn't in the newest table.
    pub(crate) fn overdue<R: Wait>(&mut self, lobby: &Lobby<'_, R>, now: u64) -> Option<Kind> {
        match self.tires(now, &lobby.patience) {
            None if !self.meets(lobby) => Some(Kind::Revoked),
            parting => parting,
        }
    }

    /// Why nobody has patience with the peer any more, if so. While it waits for the journal it isn't idle.
    fn tires(&self, now: u64, patience: &Patience) -> Option<Kind> {
        let passed = now.saturating_sub(self.since);
        let begun = now.saturating_sub(self.begun);
        match &self.stage {
            Stage::Talks(_) if matches!(self.held, Some(Hold::Unbounded)) => None,
            Stage::Talks(_) if is_past(passed, patience.idle) => Some(Kind::Idle),
            Stage::Talks(talk) if !talk.is_welcomed() && is_past(begun, patience.hello) => {
                Some(Kind::Late)
            }
            Stage::Leaves(_) | Stage::Ends if passed >= FAREWELL => Some(Kind::Closed),
            _ => None,
        }
    }

    /// How far it is.
    pub(crate) fn state(&self) -> State {
        match &self.stage {
            Stage::Talks(talk) if talk.is_greeting() => State::Greeting,
            Stage::Talks(talk) if talk.is_welcomed() => State::Welcomed,
            _ => State::Leaving,
        }
    }

    /// Whether an answer that had to wait is due, or a request has to wait no more.
    pub(crate) fn is_due<H: Host>(&self, host: &H, now: u64) -> bool {
        match self.held {
            None => false,
            Some(hold) if !hold.lasts(now) => true,
            Some(Hold::Until(_)) => self.seated && awaited(host, &self.opening).is_none(),
            Some(Hold::Unbounded) => {
                !matches!(awaited(host, &self.opening), Some(Awaited::Journal))
            }
        }
    }

    /// Meets the newest login table, unless it has met that. Tells whether it may stay.
    fn meets<R: Wait>(&mut self, lobby: &Lobby<'_, R>) -> bool {
        let Stage::Talks(talk) = &mut self.stage else {
            return true;
        };
        if talk.has_met(lobby.edition()) {
            return true;
        }
        match lobby.newest() {
            Ok(newest) => talk.meets(newest, self.opening.is_empty()),
            Err(_) => false,
        }
    }
}

/// Whether a time is over, in milliseconds; 0 never is.
fn is_past(passed: u64, most: u64) -> bool {
    most > 0 && passed >= most
}

/// What the requests await of a peer that is welcomed, if anything.
fn awaited<H: Host>(host: &H, opening: &Opening) -> Option<Awaited> {
    opening.caller().and_then(|caller| host.holds_up(&caller))
}

/// Counts the failed login that ended a peer's first words, where one did.
fn count_failure<R: Wait>(lobby: &Lobby<'_, R>, talk: &Conversation, opening: &Opening, now: u64) {
    if talk.fault() == Some(SessionFault::BadLogin) {
        lobby.failed(named(talk, opening), now);
    }
}

/// The principal whom a peer's first words name, where its login table has them.
fn named(talk: &Conversation, opening: &Opening) -> Option<u32> {
    match Principal::new(opening.who()) {
        Some(who) if talk.names(&who) => Some(who.number()),
        _ => None,
    }
}

/// What is next after such a read.
fn next_after(drained: Drained) -> Next {
    match drained {
        Drained::Some => Next::GoesOn,
        Drained::Waits => Next::Waits,
        Drained::Over => Next::Over(Kind::Closed),
    }
}

/// Why the connection is over whose talk ended so.
fn parting_of(end: TalkEnd) -> Kind {
    match end {
        TalkEnd::PeerClosed | TalkEnd::Faulted(_) => Kind::Closed,
        TalkEnd::ReadFailed | TalkEnd::WriteFailed => Kind::Reset,
        TalkEnd::NoMemory => Kind::NoMemory,
    }
}

/// What becomes of a connection whose session ended by this fault.
fn kind_of(fault: SessionFault) -> Kind {
    match fault {
        SessionFault::Malformed => Kind::Malformed,
        SessionFault::BadLogin => Kind::BadLogin,
        SessionFault::FrameLength => Kind::FrameLength,
    }
}

/// Leaves word of the peer's welcome, where the turn brought it. A fault in the same turn ends it
/// again; then more waits than the frame that tells the fault.
fn tell_welcome<H: Host>(host: &H, entrant: &Entrant, talk: &Conversation, opening: &Opening) {
    let is_welcome = match talk.fault() {
        Some(_) => talk.waiting() > FAULT_FRAME,
        None => talk.is_welcomed(),
    };
    if let Some(caller) = opening.caller() {
        if is_welcome {
            host.tell(event_now(host, entrant, Kind::Welcome).welcoming(&caller));
        }
    }
}

/// Leaves word of the fault that ended the peer's session, where there is one.
fn tell_fault<H: Host>(host: &H, entrant: &Entrant, talk: &Conversation, opening: &Opening) {
    match talk.fault() {
        Some(SessionFault::BadLogin) => {
            host.tell(event_now(host, entrant, Kind::BadLogin).naming(opening.who()))
        }
        Some(fault) => tell(host, entrant, kind_of(fault)),
        None => {}
    }
}
