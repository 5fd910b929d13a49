//! What requests, replies, frames and lines are spelled as, in tables of text. A row has what is given,
//! and behind a `|` what comes of it; rows have a `;` between them. Where the same comes of all rows of a
//! table, it stands beside them.

mod frames;
pub mod limits;
mod lines;
mod replies;
mod requests;
mod texts;

use crate::spelled::{frames as front, lines as line, replies as reply, requests as request};
use s4_codec::{read_frame, read_reply, read_request, write_reply, write_request};
use s4_script::{
    Line, ReplyText, RequestLine, RequestText, parse_arrival, parse_line, parse_opening,
    parse_window,
};
use s4_types::{Caller, Moment, Request, Step, WireVersion};
use std::alloc::Global;
use std::fmt::Debug;
use std::process::Abort;
use std::test::Fail;

/// What is given in a table, and what comes of it.
enum Kind {
    /// A line of a script, and the body of the request that it asks for.
    Asked,
    /// Words that ask for a request, whichever version their caller speaks, and its body by version 1.
    Words,
    /// A body, and what is read instead of a request.
    NoRequest,
    /// The body of a reply, and its text.
    Reply,
    /// A body, and what is read instead of a reply.
    NoReply,
    /// A limit and bytes, and what stands at their front.
    Front,
    /// A first line of a script, and what it opens.
    Opening,
    /// The same, and what that is written as.
    Opened,
    /// A first line of arrivals, and the window that it tells.
    Window,
    /// A line of a script, and what it asks for.
    Line,
    /// A line of arrivals, and what it tells.
    Arrival,
}

/// Rows, by these versions, and what comes of those that don't say it themselves.
struct Table(Kind, &'static [WireVersion], &'static str, &'static str);

const ONE: &[WireVersion] = &[WireVersion::One];

const TWO: &[WireVersion] = &[WireVersion::Two];

const BOTH: &[WireVersion] = &[WireVersion::One, WireVersion::Two];

const TABLES: [Table; 20] = [
    Table(Kind::Asked, ONE, request::REQUESTS, ""),
    Table(Kind::Asked, TWO, request::REQUESTS_TWO, ""),
    Table(Kind::Words, BOTH, request::WORDS, ""),
    Table(Kind::NoRequest, ONE, request::NO_REQUESTS, "Err(Malformed)"),
    Table(Kind::Reply, BOTH, reply::REPLIES, ""),
    Table(Kind::Reply, ONE, reply::DATA, ""),
    Table(Kind::Reply, TWO, reply::DATA_TWO, ""),
    Table(Kind::NoReply, ONE, reply::NO_REPLIES, "Err(Malformed)"),
    Table(Kind::NoReply, TWO, reply::NO_REPLIES_TWO, "Err(Malformed)"),
    Table(Kind::Front, ONE, front::FRONTS, ""),
    Table(Kind::Opening, ONE, line::OPENINGS, ""),
    Table(Kind::Opened, ONE, line::OPENED, ""),
    Table(Kind::Opening, ONE, line::NO_OPENINGS, "Err(Bad)"),
    Table(Kind::Window, ONE, line::WINDOWS, ""),
    Table(Kind::Line, ONE, line::LINES, ""),
    Table(Kind::Line, TWO, line::LINES_TWO, ""),
    Table(Kind::Line, ONE, line::NO_LINES, "Err(Bad)"),
    Table(Kind::Line, TWO, line::NO_LINES_TWO, "Err(Bad)"),
    Table(Kind::Arrival, ONE, line::ARRIVALS, ""),
    Table(Kind::Arrival, ONE, line::NO_ARRIVALS, "Err(Bad)"),
];

#[test]
fn rows_come_to_what_they_say(rt: HostRuntime) -> Result<(), Fail> {
    for table in &TABLES {
        for version in table.1 {
            check(&rt, rt.alloc(), *version, table)?;
        }
    }
    Ok(())
}

/// That of each row of a table comes what it says, by that version.
fn check<R: Abort>(rt: &R, alloc: Global, version: WireVersion, table: &Table) -> Result<(), Fail> {
    for row in table.2.split(";\n") {
        let (given, wanted) = row.split_once('|').unwrap_or((row, table.3));
        let told = told(&table.0, version, alloc, given)?;
        assert!(rt; told.as_str() == wanted, "{row}: {told}");
    }
    Ok(())
}

/// What comes of what is given.
fn told(kind: &Kind, version: WireVersion, alloc: Global, given: &str) -> Result<String, Fail> {
    let line = given.as_bytes();
    match kind {
        Kind::Asked => body_of(version, version, alloc, given),
        Kind::Words => by_greatest(version, alloc, given),
        Kind::NoRequest => shown(
            alloc,
            read_request(version, alloc, &hex::decode(alloc, given)?),
        ),
        Kind::Reply => text_of(version, alloc, given),
        Kind::NoReply => shown(
            alloc,
            read_reply(version, alloc, &hex::decode(alloc, given)?),
        ),
        Kind::Front => front_of(alloc, given),
        Kind::Opening => shown(alloc, parse_opening(alloc, line)),
        Kind::Opened => Ok(parse_opening(alloc, line)?.to_string(alloc)?),
        Kind::Window => shown(alloc, parse_window(alloc, line)),
        Kind::Line => shown(alloc, parse_line(version, alloc, line)),
        Kind::Arrival => shown(alloc, parse_arrival(alloc, line)),
    }
}

/// The names and values of all fields.
fn shown<T: Debug + Drop>(alloc: Global, it: T) -> Result<String, Fail> {
    Ok(format!(in alloc; "{it:?}")?)
}

/// What stands at the front of bytes, where a limit and the bytes are given.
fn front_of(alloc: Global, given: &str) -> Result<String, Fail> {
    let (limit, bytes) = given.split_once(' ').ok_or("a limit")?;
    let bytes = hex::decode(alloc, bytes)?;
    shown(alloc, read_frame(limit.parse::<usize>()?, &bytes))
}

/// The body, by version 1, of the request that words ask for at the last moment and of the greatest
/// principal, who speaks that version.
fn by_greatest(spoken: WireVersion, alloc: Global, words: &str) -> Result<String, Fail> {
    let line = format!(in alloc; "18446744073709551615 4294967294 {words}")?;
    body_of(WireVersion::One, spoken, alloc, line.as_str())
}

/// The body, by that version, of the request that a line asks for where its caller speaks the other one.
/// The request is read back from its body, and is written as this line.
fn body_of(
    version: WireVersion,
    spoken: WireVersion,
    alloc: Global,
    line: &str,
) -> Result<String, Fail> {
    let read = parse_line(spoken, alloc, line.as_bytes())?;
    let Line::Step(
        Step::Request {
            moment,
            caller,
            request,
        },
    ) = &read
    else {
        return Err("no request".into());
    };
    let is_his = caller.client == 0 && caller.version == spoken;
    if !is_his || !is_written(alloc, *moment, *caller, request, line)? {
        return Err("another line".into());
    }
    let body = write_request(version, alloc, request)?;
    if read_request(version, alloc, &body)? != *request {
        return Err("another request".into());
    }
    Ok(hex::encode(alloc, &body)?)
}

/// Whether a request of that caller at that moment is written as this line, where the first line gives
/// their version, and else with the number of their version behind a slash.
fn is_written(
    alloc: Global,
    moment: Moment,
    caller: Caller,
    request: &Request,
    line: &str,
) -> Result<bool, Fail> {
    let (tick, number) = (moment.tick(), caller.who.number());
    let spoken = caller.version.number();
    let words = RequestText(request).to_string(alloc)?;
    let plain = format!(in alloc; "{tick} {number} {words}")?;
    let marked = format!(in alloc; "{tick} {number}/{spoken} {words}")?;
    for version in BOTH {
        let written = RequestLine {
            version: *version,
            moment,
            caller,
            request,
        };
        let wanted = if *version == caller.version {
            &plain
        } else {
            &marked
        };
        if written.to_string(alloc)? != *wanted {
            return Ok(false);
        }
    }
    Ok(plain.as_str() == line)
}

/// The text of the reply that a body spells, which is written as this body.
fn text_of(version: WireVersion, alloc: Global, body: &str) -> Result<String, Fail> {
    let reply = read_reply(version, alloc, &hex::decode(alloc, body)?)?;
    let written = write_reply(version, alloc, &reply)?;
    if hex::encode(alloc, &written)?.as_str() != body {
        return Err("another body".into());
    }
    Ok(ReplyText(&reply).to_string(alloc)?)
}
