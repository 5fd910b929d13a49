//! What a talk holds beside what was carried out in it, by what its peer did. That is measured
//! (`tools/lib/calls.py`).

use crate::calls::asked::asked;
use crate::calls::case::Case;
use crate::texts::well;
use crate::ways::conversations::Desk;
use s4_pool::{Front, Names, OpenGate, Pass};
use s4_stream::Logins;
use s4_talk::{Answer, Talking, TurnEnd};
use s4_types::{Reply, WireVersion};
use std::io;
use std::io::{Error, ErrorKind, Read, Write};
use std::sync::Wait;

/// What a peer does behind its Hello, by version 2 of the wire.
#[derive(Clone, Copy)]
pub enum Peer {
    /// It says nothing.
    Silent,
    /// It says how long a greatest frame's body is, and nothing of that.
    Announcing,
    /// It says half of such a frame.
    HalfAFrame,
    /// It reads a whole object, and says nothing then.
    ReadingAll,
    /// It asks for a whole object again and again, and takes nothing but the Welcome.
    ReadingNothing,
    /// It says a greatest frame, and asks in turn for a whole object and for so much that a byte more
    /// would be enough for a turn. It takes nothing of that.
    BehindAGreatestFrame,
}

/// The Hello of 7.
const HELLO: &[u8] = b"\x00\x00\x00\x1a\x00\x02\x00\x00\x00\x07\x00\x00\x00\x01\x00\
      \x01\x02\x03\x04\x05\x06\x07\x08\x09\x0a\x0b\x0c\x0d\x0e\x0f";

const LOGINS: &[u8] = b"7 000102030405060708090a0b0c0d0e0f\n";

/// How many bytes the Welcome takes, and the refusal of a Write that is too long.
const WELCOME: usize = 6;

const TOO_LONG: usize = 6;

/// The length of a greatest frame's body.
const LENGTH: &[u8] = b"\x00\x02\x00\x00";

/// A greatest frame up to its data: a Write to 7.0.1 of 131055 bytes.
const WRITE: &[u8] = b"\x00\x02\x00\x00\x04\x00\x00\x00\x07\x00\x00\x00\x01\
      \x00\x00\x00\x00\x00\x01\xff\xef";

const WRITTEN: usize = 131055;

/// A Read of 7.0.1, of 65536 bytes and of 65516.
const READ: &[u8] = b"\x00\x00\x00\x12\x03\x00\x00\x00\x07\x00\x00\x00\x01\
      \x00\x00\x00\x00\x00\x01\x00\x00\x00";

const READ_LESS: &[u8] = b"\x00\x00\x00\x12\x03\x00\x00\x00\x07\x00\x00\x00\x01\
      \x00\x00\x00\x00\x00\x00\xff\xec\x00";

/// How often a peer asks that takes nothing.
const READS: u32 = 2000;

impl Peer {
    /// What it says behind its Hello, and behind so many zeros, and how often it says the last.
    fn says(self) -> (&'static [u8], usize, &'static [&'static [u8]], u32) {
        match self {
            Peer::Silent => (b"", 0, &[], 0),
            Peer::Announcing => (LENGTH, 0, &[], 0),
            Peer::HalfAFrame => (LENGTH, 65536, &[], 0),
            Peer::ReadingAll => (b"", 0, &[READ], 1),
            Peer::ReadingNothing => (b"", 0, &[READ], READS),
            Peer::BehindAGreatestFrame => (WRITE, WRITTEN, &[READ_LESS, READ], READS),
        }
    }

    /// How many bytes it takes.
    fn takes(self) -> usize {
        match self {
            Peer::ReadingNothing => WELCOME,
            Peer::BehindAGreatestFrame => WELCOME + TOO_LONG,
            _ => usize::MAX,
        }
    }
}

/// More turns than a talk has here before it waits for its peer.
const TURNS: u32 = 1000;

/// Talks with a peer who may ask for an object of 65536 bytes, until the talk waits for it. The turns
/// are what is marked, all at once.
pub fn talk<N: Names, R: Wait>(
    case: &mut Case,
    rt: &R,
    front: &Front<OpenGate, N>,
    pass: Pass<N>,
    peer: Peer,
) -> io::Result<()> {
    let logins = well(Logins::read(case.alloc(), LOGINS))?;
    let mut desk = Desk::new(rt, front, pass);
    for line in ["0 7 create 0", "0 7 truncate 7.0.1 65536"] {
        make(case, &mut desk, line)?;
    }
    let said = said(case, peer)?;
    let mut source = Source { left: &said };
    let mut sink = Sink {
        takes: peer.takes(),
    };
    let mut talking = Talking::open(case.alloc());
    case.begins();
    let end = turn_often(&mut talking, &logins, &mut source, &mut sink, &mut desk);
    case.ends();
    let waits = matches!(end, TurnEnd::Waits | TurnEnd::Stuck);
    case.check(waits, "the talk doesn't wait for its peer");
    case.check(talking.fault().is_none(), "a fault was told");
    Ok(())
}

/// Carries out what a line asks, before the talk.
fn make<N: Names, R: Wait>(
    case: &mut Case,
    desk: &mut Desk<'_, N, R>,
    line: &str,
) -> io::Result<()> {
    let mut asked = asked(case.alloc(), line)?;
    asked.caller.version = WireVersion::Two;
    let reply = desk.answer(asked.caller, asked.request);
    case.check(!matches!(reply, Reply::Refused(_)), "there is no object");
    Ok(())
}

/// All that a peer says.
fn said(case: &Case, peer: Peer) -> io::Result<Vec<u8>> {
    let (first, zeros, then, times) = peer.says();
    let mut said = Vec::from_slice(case.alloc(), HELLO)?;
    said.extend_from_slice(first)?;
    said.resize(said.len().saturating_add(zeros), 0)?;
    for _ in 0..times {
        for frame in then {
            said.extend_from_slice(frame)?;
        }
    }
    Ok(said)
}

/// How the first turn ends behind which the talk waits for its peer.
fn turn_often<A: Answer>(
    talking: &mut Talking,
    logins: &Logins,
    source: &mut Source<'_>,
    sink: &mut Sink,
    answer: &mut A,
) -> TurnEnd {
    for _ in 0..TURNS {
        match talking.turn(logins, source, sink, answer) {
            TurnEnd::More | TurnEnd::Enough => {}
            end => return end,
        }
    }
    TurnEnd::More
}

/// Gives these bytes, and then tells that it would wait.
#[derive(Drop)]
struct Source<'a> {
    left: &'a [u8],
}

impl Read for Source<'_> {
    fn read(&mut self, buf: &mut [u8]) -> io::Result<usize> {
        if self.left.is_empty() {
            return Err(Error::from(ErrorKind::WouldBlock));
        }
        self.left.read(buf)
    }
}

/// Takes so many bytes in all, and then tells that it would wait.
#[derive(Drop)]
struct Sink {
    takes: usize,
}

impl Write for Sink {
    fn write(&mut self, buf: &[u8]) -> io::Result<usize> {
        let count = buf.len().min(self.takes);
        if count == 0 {
            return Err(Error::from(ErrorKind::WouldBlock));
        }
        self.takes = self.takes.saturating_sub(count);
        Ok(count)
    }

    fn flush(&mut self) -> io::Result<()> {
        Ok(())
    }
}
