//! The bytes of principal 7, who makes an object, writes to it and reads it: heard by a session in
//! pieces, and by a hall a frame at a time.

use crate::calls::asked::asked;
use crate::calls::case::Case;
use crate::texts::{invalid, text, well};
use s4_session::{Event, FeedError, Hall, Logins, Session};
use s4_types::{Caller, Moment, WireVersion};
use std::alloc::Global;
use std::io;

/// A frame that comes at a moment, the line that says what it asks (or none for the Hello), and what is
/// sent for it.
#[derive(Clone, Copy)]
struct Row(u64, &'static [u8], &'static str, &'static [u8]);

const ROWS: [Row; 4] = [
    Row(
        5,
        b"\x00\x00\x00\x1a\x00\x01\x00\x00\x00\x07\x00\x00\x00\x01\x00\x01\x02\x03\x04\x05\x06\x07\x08\x09\x0a\x0b\x0c\x0d\x0e\x0f",
        "",
        b"\x00\x00\x00\x02\x10\x01",
    ),
    Row(
        6,
        b"\x00\x00\x00\x02\x01\x00",
        "6 7 create 0",
        b"\x00\x00\x00\x09\x01\x00\x00\x00\x07\x00\x00\x00\x01",
    ),
    Row(
        7,
        b"\x00\x00\x00\x14\x04\x00\x00\x00\x07\x00\x00\x00\x01\x00\x00\x00\x00\x00\x05hello",
        "7 7 write 7.0.1 0 68656c6c6f",
        b"\x00\x00\x00\x01\x00",
    ),
    Row(
        8,
        b"\x00\x00\x00\x12\x03\x00\x00\x00\x07\x00\x00\x00\x01\x00\x00\x00\x00\x00\x00\x00\x05\x00",
        "8 7 read 7.0.1 0 5",
        b"\x00\x00\x00\x12\x02\x01\x00\x00\x00\x00\x00\x00\x00\x00\x06\x00\x05hello",
    ),
];

/// What is sent for a request that met want of memory.
const NO_MEMORY: &[u8] = b"\x00\x00\x00\x02\x08\x10";

fn logins(case: &Case) -> io::Result<Logins> {
    let text = text(case.rt, "seven", "logins")?;
    well(Logins::read(case.alloc(), &text))
}

/// Feeds a session with the stream. Where there is no memory for a piece, the same piece gives the
/// same events then.
pub fn feed(case: &mut Case, size: usize) -> io::Result<()> {
    let logins = logins(case)?;
    let stream = stream(case.alloc())?;
    let mut session = Session::open(case.alloc());
    hear_all(case, &mut session, &logins, (&stream, size))
}

fn stream(alloc: Global) -> io::Result<Vec<u8>> {
    let mut stream = Vec::new(alloc);
    for row in ROWS {
        stream.extend_from_slice(row.1)?;
    }
    Ok(stream)
}

/// Hears a stream in pieces of so many bytes.
fn hear_all(
    case: &mut Case,
    session: &mut Session,
    logins: &Logins,
    (stream, size): (&[u8], usize),
) -> io::Result<()> {
    let (mut fed, mut heard) = (0usize, 0usize);
    for piece in stream.chunks(size.max(1)) {
        let events = hear(case, session, logins, piece)?;
        fed = fed.saturating_add(piece.len());
        check_heard(case, &events, heard)?;
        heard = heard.saturating_add(events.len());
        case.check(
            heard == frames_in(fed),
            "a frame was heard at another place",
        );
    }
    Ok(())
}

/// That events are those of the stream, behind so many others.
fn check_heard(case: &mut Case, events: &[Event], before: usize) -> io::Result<()> {
    for (event, row) in events.iter().zip(ROWS.iter().skip(before)) {
        let is_same = is_heard(case.alloc(), event, row.2)?;
        case.check(is_same, "another event was heard");
    }
    Ok(())
}

/// Whether an event is the Welcome, or the request of the line.
fn is_heard(alloc: Global, event: &Event, line: &str) -> io::Result<bool> {
    match event {
        Event::Welcome(caller) => Ok(line.is_empty() && is_first(caller)),
        Event::Request(caller, request) => {
            let asked = asked(alloc, line)?;
            Ok(is_first(caller) && *request == asked.request)
        }
        Event::Fault(_) => Ok(false),
    }
}

/// Whether this is the client who said the Hello.
fn is_first(caller: &Caller) -> bool {
    (caller.who.number(), caller.client) == (7, 1) && caller.version == WireVersion::One
}

/// How many frames of the stream end within so many bytes.
fn frames_in(bytes: usize) -> usize {
    let mut left = bytes;
    for (count, row) in ROWS.iter().enumerate() {
        match left.checked_sub(row.1.len()) {
            Some(less) => left = less,
            None => return count,
        }
    }
    ROWS.len()
}

/// What a session hears of a piece, with which it is fed again where there was no memory.
fn hear(
    case: &mut Case,
    session: &mut Session,
    logins: &Logins,
    piece: &[u8],
) -> io::Result<Vec<Event>> {
    case.begins();
    let heard = session.feed(logins, piece);
    case.ends();
    let heard = match heard {
        Err(FeedError::NoMemory) => {
            case.refuse_by_error();
            session.feed(logins, piece)
        }
        heard => heard,
    };
    well(heard)
}

/// Gives a fresh hall the stream, a frame at a time.
pub fn arrive(case: &mut Case) -> io::Result<()> {
    let logins = logins(case)?;
    arrive_at(case, &mut Hall::open(case.alloc(), 100, logins))
}

/// Gives a hall the frames in turn, up to one for which it had no memory.
fn arrive_at(case: &mut Case, hall: &mut Hall) -> io::Result<()> {
    for (index, row) in ROWS.iter().enumerate() {
        if !is_sent(case, hall, row)? {
            return check_after(case, hall, index);
        }
    }
    Ok(())
}

/// Gives a hall a frame, and compares what is sent. A request that is told that there was no memory
/// changed nothing, and is given again. Tells whether there was an answer at all.
fn is_sent(case: &mut Case, hall: &mut Hall, row: &Row) -> io::Result<bool> {
    let before = hall.used();
    let Some(sent) = arrived(case, hall, 1, row)? else {
        case.refuse_by_error();
        return Ok(false);
    };
    if sent.as_slice() != NO_MEMORY {
        case.check(sent.as_slice() == row.3, "something else was sent");
        return Ok(true);
    }
    case.refuse_by_reply();
    case.check(hall.used() == before, "without memory the hall changed");
    case.is_marking = false;
    let sent = arrived(case, hall, 1, row)?;
    case.is_marking = true;
    let is_same = matches!(&sent, Some(sent) if sent.as_slice() == row.3);
    case.check(is_same, "something else was sent then");
    Ok(true)
}

/// What a hall sends for a frame, or none where there was no memory.
fn arrived(
    case: &Case,
    hall: &mut Hall,
    connection: u32,
    row: &Row,
) -> io::Result<Option<Vec<u8>>> {
    let moment = Moment::new(row.0);
    if hall.last() <= moment {
        case.begins();
        let sent = hall.arrive(connection, moment, row.1);
        case.ends();
        Ok(sent.ok())
    } else {
        Err(invalid())
    }
}

/// That a hall that had no memory at a frame has none ever after, on each connection.
fn check_after(case: &mut Case, hall: &mut Hall, index: usize) -> io::Result<()> {
    case.is_marking = false;
    for row in ROWS.iter().skip(index) {
        for connection in [1, 2] {
            let sent = arrived(case, hall, connection, row)?;
            case.check(sent.is_none(), "it went on without memory");
        }
    }
    Ok(())
}
