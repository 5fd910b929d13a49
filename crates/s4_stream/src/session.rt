//! What a connection's bytes say, however they are cut.

ghost use Rattle.std.specs.Prelude.{◌≡◌, ◌≤◌, ◌↔◌, length, drop, [], IfOk, IfSome, IsErrOf, OnOk, OnErr};
ghost use Rattle.std.specs.Io.KnownBytes.{IsAtEnd, Keeps};
ghost use Rattle.s4_stream.specs.Hello.{greeted, hello_in};
ghost use Rattle.s4_stream.specs.Stream.{caller_at, hear, limit_at, said, state_after};
ghost use Rattle.s4_stream.specs.Feeding.{Fills, HearsOne, StandsFirst, TakesNext, heard_so_far, hear_piece, left_by};
ghost use Rattle.s4_stream.specs.Talk.{room_for};
ghost use Rattle.s4_stream.specs.declared.event.SessionState.TheVariants as states;
ghost use Rattle.s4_stream.specs.declared.session.FeedError.TheVariants as feed_error;

use crate::event::{Event, SessionFault, SessionState};
use crate::frames::reserve_answer;
use crate::hello::read_hello;
use crate::logins::Logins;
use bytes::BytesMut;
use s4_codec::{Front, ReadError, frame_limit, read_frame, read_request};
use s4_types::{Caller, NoMemory, WireVersion};
use std::alloc::{AllocError, Global};
use std::io;
use std::io::Read;
use std::marker::Model;

/// How many bytes a session makes room for before it reads.
const PIECE: usize = 4096;

/// The most bytes that a session's buffer keeps where it holds nothing.
const KEPT: usize = 16384;

/// Why a piece was not taken.
#[derive(Clone, Copy)]
pub enum FeedError {
    /// A fault ended the session.
    Closed,
    /// A growth was refused, and the session is as it was.
    NoMemory,
}

/// Why no bytes came.
#[derive(Drop)]
pub enum FillError {
    /// A growth was refused, and nothing was read.
    NoMemory,
    /// The reader failed so.
    Failed(io::Error),
}

/// One connection: where it stands, and the bytes that came and aren't heard yet. A caller who takes
/// all events, by `feed` or by `next`, leaves it the bytes of the frame that isn't whole.
pub struct Session {
    alloc: Global,
    state: SessionState,
    pending: BytesMut,
}

// Written out, so that no crate above proves how what is pending is dropped.
impl Drop for Session {
    fn drop(self) {
        let Session {
            alloc: _,
            state: _,
            pending: _,
        } = self;
    }
}

impl Model for Session {
    ghost use Rattle.s4_stream.specs.Feeding.{Listening};

    ghost Value = { Listening };

    ghost view = { λ s. record { state = s.state; pending = s.pending.items } };

    ghost use Rattle.std.specs.Prelude.{◌≡◌, []};
    ghost use Rattle.s4_stream.specs.declared.event.SessionState.TheVariants as states;

    ghost invariant = { λ s. s.state ≡ states.Closed → s.pending.items ≡ [] };
}

impl Session {
    /// A connection on which nothing came yet. Takes no memory.
    pub fn open(alloc: Global) -> Session
        ensures { result ≡ record { state = states.Greeting; pending = [] } }
    {
        Session {
            alloc,
            state: SessionState::Greeting,
            pending: BytesMut::new(alloc),
        }
    }

    /// Hears a piece: what is held, followed by the piece, says the events, and what is left of it
    /// is held. The cost is in the bytes of the piece and of the frames that it makes whole.
    pub fn feed(&mut self, logins: &Logins, piece: &[u8]) -> Result<Vec<Event>, FeedError>
        // The events, where the connection stands then and what is held are the definition's.
        ensures events { IfOk result (λ events. hear_piece logins.now self.old piece.now
            ≡ heard_so_far events.items self.new.state self.new.pending) }
        // After a fault nothing is heard.
        ensures closed { IsErrOf result feed_error.Closed ↔ (self.old.state ≡ states.Closed) }
        ensures err { OnErr result (self.new ≡ self.old) }
    {
        if matches!(&self.state, SessionState::Closed) {
            return Err(FeedError::Closed);
        }
        let before = self.pending.len();
        if self.pending.extend_from_slice(piece).is_err() {
            return Err(FeedError::NoMemory);
        }
        match hear_all(self.alloc, logins, &self.state, self.pending.as_slice()) {
            Ok(hearing) => {
                let Hearing {
                    events,
                    state,
                    count,
                } = hearing;
                self.state = state;
                self.pending.advance(count);
                Ok(events)
            }
            Err(_) => {
                self.pending.truncate(before);
                Err(FeedError::NoMemory)
            }
        }
    }
}

impl Session {
    /// Who calls on this connection, after a good Hello and up to a fault.
    pub fn caller(&self) -> Option<Caller>
        ensures { result ≡ caller_at self.now.state }
    {
        match &self.state {
            SessionState::Open(caller) => Some(*caller),
            SessionState::Greeting | SessionState::Closed => None,
        }
    }

    /// The same as `feed`, but after a fault a piece says nothing.
    pub fn hear(&mut self, logins: &Logins, piece: &[u8]) -> Result<Vec<Event>, NoMemory>
        ensures events { IfOk result
            (λ events. events.items ≡ (hear_piece logins.now self.old piece.now).events) }
        ensures session { OnOk result
            (self.new ≡ left_by (hear_piece logins.now self.old piece.now)) }
    {
        match self.feed(logins, piece) {
            Ok(events) => Ok(events),
            Err(FeedError::Closed) => Ok(Vec::new(self.alloc)),
            Err(FeedError::NoMemory) => Err(AllocError),
        }
    }
}

impl Session {
    /// Reads once, and holds what came behind what it held. Tells how many bytes came: none where
    /// the reader is at its end.
    pub fn fill<R: Read>(&mut self, reader: &mut R) -> Result<usize, FillError>
        // After a fault nothing is heard, so there is nothing to read for.
        requires { self.old.state ≡ states.Closed → ⊥ }
        ensures fills { IfOk result
            (λ n. Fills (R.remaining reader.old) (R.remaining reader.new) n self.old self.new) }
        ensures end { IfOk result (λ n. n ≡ 0 → IsAtEnd (R.remaining reader.new)) }
        ensures err { OnErr result ((self.new ≡ self.old)
            × Keeps (R.remaining reader.old) (R.remaining reader.new)) }
    {
        if self.pending.reserve(PIECE).is_err() {
            return Err(FillError::NoMemory);
        }
        match self.pending.read_from(reader) {
            Ok(count) => Ok(count),
            Err(error) => {
                self.give_back(0);
                Err(FillError::Failed(error))
            }
        }
    }

    /// The next event that is held, taken once there is room in `out` for the frame that answers it.
    /// There is none where no whole frame is held, and after a fault. Where a growth was refused all
    /// is as it was.
    pub fn next(&mut self, logins: &Logins, out: &mut BytesMut) -> Result<Option<Event>, NoMemory>
        ensures next { IfOk result (λ event. TakesNext logins.now self.old self.new event) }
        ensures room { IfOk result
            (λ event. IfSome event (λ some. room_for some ≤ out.new.spare)) }
        ensures err { OnErr result (self.new ≡ self.old) }
        ensures out { out.new.items ≡ out.old.items }
    {
        if matches!(&self.state, SessionState::Closed) {
            return Ok(None);
        }
        let first = hear_first(self.alloc, logins, &self.state, self.pending.as_slice())?;
        let Some(Next { event, count }) = first else {
            return Ok(None);
        };
        reserve_answer(out, &event)?;
        self.state = state_after(&event);
        self.pending.advance(count);
        self.leave_room_of(count);
        self.give_back(KEPT);
        Ok(Some(event))
    }

    /// Moves what is held behind a large frame of so many bytes to a buffer of its own size: that in
    /// which the frame became whole may be twice as large as any frame. No more is moved than the
    /// frame had. Without memory for it all stays where it is.
    fn leave_room_of(&mut self, count: usize)
        ensures { self.new ≡ self.old }
    {
        if count > KEPT && self.pending.len() <= count {
            if let Ok(held) = BytesMut::copy_from_slice(self.alloc, self.pending.as_slice()) {
                self.pending = held;
            }
        }
    }

    /// Gives back the buffer where it holds nothing and is larger than that.
    fn give_back(&mut self, most: usize)
        ensures { self.new ≡ self.old }
    {
        if !self.pending.is_empty() {
            return;
        }
        // Only then does its capacity count the bytes that were taken from its front.
        self.pending.clear();
        if self.pending.capacity() > most {
            self.pending = BytesMut::new(self.alloc);
        }
    }
}

/// What was heard so far of bytes, and how many of them.
#[derive(Drop)]
struct Hearing {
    events: Vec<Event>,
    state: SessionState,
    count: usize,
}

/// Hears all whole frames.
fn hear_all(
    alloc: Global,
    logins: &Logins,
    state: &SessionState,
    bytes: &[u8],
) -> Result<Hearing, NoMemory>
    requires { state.now ≡ states.Closed → ⊥ }
    ensures within { IfOk result (λ h. h.count ≤ length bytes.now) }
    ensures heard { IfOk result
        (λ h. hear logins.now state.now bytes.now
        ≡ heard_so_far h.events.items h.state (drop h.count bytes.now)) }
{
    let mut hearing = Hearing {
        events: Vec::new(alloc),
        state: *state,
        count: 0,
    };
    for _ in 0..bytes.len() {
        if !hear_frame(alloc, logins, bytes, &mut hearing)? {
            return Ok(hearing);
        }
    }
    Ok(hearing)
}

/// Hears the next frame, if a whole one or a wrong length stands there, and tells whether there may
/// be more.
fn hear_frame(
    alloc: Global,
    logins: &Logins,
    bytes: &[u8],
    hearing: &mut Hearing,
) -> Result<bool, NoMemory>
    requires live { hearing.old.state ≡ states.Closed → ⊥ }
    requires within { hearing.old.count ≤ length bytes.now }
    ensures within { IfOk result (λ more. hearing.new.count ≤ length bytes.now) }
    ensures heard { IfOk result (λ more. HearsOne more logins.now
        (heard_so_far hearing.old.events.items hearing.old.state (drop hearing.old.count bytes.now))
        (heard_so_far hearing.new.events.items hearing.new.state
        (drop hearing.new.count bytes.now))) }
{
    let left = &bytes[hearing.count..];
    let Some(Next { event, count }) = hear_first(alloc, logins, &hearing.state, left)? else {
        return Ok(false);
    };
    let state = state_after(&event);
    hearing.events.push(event)?;
    hearing.state = state;
    hearing.count += count;
    Ok(!matches!(&state, SessionState::Closed))
}

/// An event, and how many bytes say it.
#[derive(Drop)]
struct Next {
    event: Event,
    count: usize,
}

/// The event that stands first, if a whole frame or a wrong length stands there. With a fault all
/// bytes are heard.
fn hear_first(
    alloc: Global,
    logins: &Logins,
    state: &SessionState,
    bytes: &[u8],
) -> Result<Option<Next>, NoMemory>
    requires live { state.now ≡ states.Closed → ⊥ }
    ensures within { IfOk result (λ next. IfSome next (λ n. n.count ≤ length bytes.now)) }
    ensures first { IfOk result (λ next. StandsFirst logins.now state.now bytes.now next) }
    ensures all { IfOk result (λ next. IfSome next
        (λ n. state_after n.event ≡ states.Closed → n.count ≡ length bytes.now)) }
{
    match read_frame(limit_at(state), bytes) {
        Front::Whole { body, rest } => {
            let event = said(alloc, logins, state, body)?;
            let count = match &event {
                Event::Fault(_) => bytes.len(),
                _ => bytes.len() - rest.len(),
            };
            Ok(Some(Next { event, count }))
        }
        Front::Part => Ok(None),
        Front::BadLength => Ok(Some(Next {
            event: Event::Fault(SessionFault::FrameLength),
            count: bytes.len(),
        })),
    }
}

/// The most bytes that a body has there.
fn limit_at(state: &SessionState) -> usize
    ensures { result ≡ limit_at state.now }
{
    match state {
        SessionState::Open(caller) => frame_limit(caller.version),
        SessionState::Greeting | SessionState::Closed => frame_limit(WireVersion::One),
    }
}

/// What a whole body says.
fn said(
    alloc: Global,
    logins: &Logins,
    state: &SessionState,
    body: &[u8],
) -> Result<Event, NoMemory>
    ensures { IfOk result (λ event. event ≡ said logins.now state.now body.now) }
{
    match state {
        SessionState::Open(caller) => match read_request(caller.version, alloc, body) {
            Ok(request) => Ok(Event::Request(*caller, request)),
            Err(ReadError::Malformed) => Ok(Event::Fault(SessionFault::Malformed)),
            Err(ReadError::NoMemory) => Err(AllocError),
        },
        _ => Ok(greeted(logins, body)),
    }
}

/// What a first body says.
fn greeted(logins: &Logins, body: &[u8]) -> Event
    ensures { result ≡ greeted logins.now (hello_in body.now) }
{
    match read_hello(body) {
        Some(hello) => {
            if logins.accepts(&hello.caller.who, &hello.secret) {
                Event::Welcome(hello.caller)
            } else {
                Event::Fault(SessionFault::BadLogin)
            }
        }
        None => Event::Fault(SessionFault::Malformed),
    }
}

/// Where an event leaves the connection.
fn state_after(event: &Event) -> SessionState
    ensures { result ≡ state_after event.now }
{
    match event {
        Event::Welcome(caller) => SessionState::Open(*caller),
        Event::Request(caller, _) => SessionState::Open(*caller),
        Event::Fault(_) => SessionState::Closed,
    }
}
