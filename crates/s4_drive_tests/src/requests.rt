//! Each public call of bytes, requests, replies, records and lists of names, and what audits show of
//! them.

use crate::asked::{Asked, Row, Told, record, request};
use s4_types::{
    AuditLine, AuditLines, AuditPage, Bytes, Grant, Moment, NameLine, NameLines, Refusal, Reply,
    Right,
};
use s4_values_for_tests::{caller, name, object};
use std::alloc::Global;
use std::process::Abort;
use std::test::Fail;

/// A text, from where to where a part of it is taken, and the part: at least half of it, which shares
/// its block, and less; and no bytes.
const PARTS: [(&[u8], usize, usize, &[u8]); 10] = [
    (b"hello", 0, 5, b"hello"),
    (b"hello", 0, 3, b"hel"),
    (b"hello", 2, 5, b"llo"),
    (b"hello", 1, 4, b"ell"),
    (b"hello", 0, 2, b"he"),
    (b"hello", 3, 5, b"lo"),
    (b"hello", 2, 3, b"l"),
    (b"hello", 0, 0, b""),
    (b"hello", 5, 5, b""),
    (b"", 0, 0, b""),
];

/// That all is so that is said of values.
fn check(rt: &impl Abort, facts: &[(&str, bool)]) {
    for (what, holds) in facts {
        assert!(rt; *holds, "{what}");
    }
}

#[test]
fn parts_are_what_stands_there(rt: HostRuntime) -> Result<(), Fail> {
    let alloc = rt.alloc();
    for (index, (text, start, end, wanted)) in PARTS.iter().enumerate() {
        let whole = Bytes::from_vec(Vec::from_slice(alloc, text)?)?;
        assert!(rt; *start <= *end && *end <= whole.len());
        let part = whole.part(alloc, *start, *end)?;
        assert_eq!(rt; part.as_slice(), *wanted, "part {index}");
        let is_empty = wanted.is_empty();
        assert!(rt; part.is_empty() == is_empty && (part == Bytes::new()) == is_empty);
    }
    Ok(())
}

/// Requests of principal 7 for object 65535 of a purse: what is asked, the moment that it names, and
/// the purse that it names.
const REQUESTS: [(Asked, Option<u64>, (u32, u8)); 13] = [
    (Asked::Read(0, 1, None), None, (0, 15)),
    (Asked::Read(0, 1, Some(0)), Some(0), (0, 15)),
    (Asked::Read(0, 1, Some(u64::MAX)), Some(u64::MAX), (0, 15)),
    (Asked::Mount("home", None), None, (0, 15)),
    (Asked::Mount("home", Some(0)), Some(0), (0, 15)),
    (
        Asked::Mount("home", Some(u64::MAX)),
        Some(u64::MAX),
        (0, 15),
    ),
    (Asked::Write(u32::MAX, b"hello"), None, (0, 15)),
    (Asked::Bind("home"), None, (0, 15)),
    (Asked::Delete, None, (0, 15)),
    (Asked::Flush(0, 5), None, (0, 15)),
    (Asked::SetBudget(u32::MAX), None, (0, 15)),
    (Asked::Create, None, (7, 3)),
    (Asked::Unbind("home"), None, (7, 3)),
];

#[test]
fn requests_name_moments_and_purses(rt: HostRuntime) -> Result<(), Fail> {
    let caller = caller(7)?;
    for (index, (asked, tick, named)) in REQUESTS.iter().enumerate() {
        let object = object(*named, 65535)?;
        let request = request(rt.alloc(), &object, asked)?;
        let copy = request.copy()?;
        let named = (request.at(), request.purse(&caller));
        let wanted = (tick.map(Moment::new), Some(object.purse));
        assert!(rt; named == wanted && copy == request, "request {index}");
    }
    Ok(())
}

/// Bytes stay as given, none and five.
fn check_bytes(rt: &impl Abort, alloc: Global) -> Result<(), Fail> {
    let (empty, hello) = (Bytes::new(), Bytes::from_slice(alloc, b"hello")?);
    let copy = hello.copy()?;
    check(
        rt,
        &[
            ("no bytes", empty.is_empty() && empty.len() == 0),
            ("five bytes", !hello.is_empty() && hello.len() == 5),
            ("other bytes", hello != empty),
            ("the bytes", hello.as_slice() == b"hello".as_slice()),
            ("their copy", copy == hello),
        ],
    );
    Ok(())
}

fn listed(alloc: Global) -> Result<NameLines, Fail> {
    let line = NameLine {
        name: name("home")?,
        object: object((0, 15), 65535)?,
        grant: Grant::Entry {
            index: 1,
            since: Moment::new(5),
        },
    };
    Ok(NameLines::new(vec![in alloc; line]?))
}

/// A list of a line stays as given, and isn't equal to one of none.
fn check_lists(rt: &impl Abort, alloc: Global) -> Result<(), Fail> {
    let (lines, empty) = (listed(alloc)?, NameLines::new(Vec::new(alloc)));
    let (copy, same) = (lines.clone()?, listed(alloc)?);
    check(
        rt,
        &[
            ("no lines", empty.as_slice().is_empty()),
            ("the copy of a line", copy == lines),
            ("other lines", copy != empty),
            ("a line", copy.as_slice() == same.as_slice()),
        ],
    );
    Ok(())
}

/// Whether a copy of the reply is equal to it, and it is of that number: 0 where it isn't refused.
fn is_numbered(reply: &Reply, number: u8) -> Result<bool, Fail> {
    let copy = reply.copy()?;
    Ok(copy == *reply && reply.number() == number && reply.is_refused() == (number > 0))
}

/// Replies are copied, and have their numbers.
fn check_replies(rt: &impl Abort, alloc: Global) -> Result<(), Fail> {
    let denied = Reply::Refused(Refusal::Denied(Right::Admin));
    let data = Reply::Data {
        grant: Grant::Admin,
        bytes: Bytes::from_slice(alloc, b"hello")?,
    };
    let names = Reply::Names {
        lines: listed(alloc)?,
        more: true,
    };
    assert!(rt; is_numbered(&denied, 1)?, "denied");
    assert!(rt; is_numbered(&Reply::Done, 0)?, "done");
    assert!(rt; is_numbered(&data, 0)?, "data");
    assert!(rt; is_numbered(&names, 0)?, "names");
    Ok(())
}

/// Principal 7 asks for the names of principal 9, at moment 5.
const LISTED: Row = (
    5,
    7,
    (9, 0),
    1,
    Asked::List,
    Told::Refused(Refusal::TooLong),
);

/// Facts of that record, of its line, of a flush of an object of principal 9 and of a window.
fn check_records(rt: &impl Abort, alloc: Global) -> Result<(), Fail> {
    let (record, administrator) = (record(alloc, &LISTED)?, caller(0)?);
    let line = AuditLine::of(&record);
    let of = object((9, 0), 1)?;
    let window = request(alloc, &of, &Asked::SetWindow(1))?;
    let flush = request(alloc, &of, &Asked::Flush(1, 2))?;
    let range = record.request.range(&record.caller);
    check(
        rt,
        &[
            ("code of a list", record.request.code() == 14),
            ("its range", range.number() == 9),
            ("it isn't wide", !record.is_wide()),
            ("too long", record.reply.number() == 7),
            ("moment of the line", line.moment.tick() == 5),
            ("client of the line", line.client == 2),
            ("a window of another", !window.is_wide(&record.caller)),
            ("a window", window.is_wide(&administrator)),
            ("code of a flush", flush.code() == 17),
            ("a flush of an object", !flush.is_wide(&administrator)),
            (
                "range of a flush",
                flush.range(&administrator).number() == 9,
            ),
        ],
    );
    Ok(())
}

/// A page of one line stays as given, and is a reply.
fn check_page(rt: &impl Abort, alloc: Global) -> Result<(), Fail> {
    let line = AuditLine::of(&record(alloc, &LISTED)?);
    let page = AuditPage {
        lines: AuditLines::new(vec![in alloc; line]?),
        more: false,
    };
    let copy = page.clone()?;
    assert!(rt; page.lines.as_slice().len() == 1 && copy == page);
    let AuditPage { lines, more } = page;
    assert!(rt; is_numbered(&Reply::Audit { lines, more }, 0)?);
    Ok(())
}

#[test]
fn bytes_and_lists_and_replies_and_records_stay_as_given(rt: HostRuntime) -> Result<(), Fail> {
    let alloc = rt.alloc();
    check_bytes(&rt, alloc)?;
    check_lists(&rt, alloc)?;
    check_replies(&rt, alloc)?;
    check_records(&rt, alloc)?;
    check_page(&rt, alloc)?;
    Ok(())
}
