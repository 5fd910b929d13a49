//! The largest requests and replies, and those that have no spelling.

use s4_codec::{WriteError, frame_limit, read_reply, read_request, write_reply, write_request};
use s4_types::{
    AuditLine, AuditLines, Bytes, Grant, Moment, Name, NameLine, NameLines, ObjectId, Principal,
    Purse, PurseNo, Reply, Request, Rights, Serial, User, WireVersion,
};
use std::alloc::Global;
use std::test::Fail;

/// How long a body is.
type Length = Result<usize, WriteError>;

const TOO_BIG: Length = Err(WriteError::TooBig);

/// Of each version, how many bytes of data a write has, and how long its body is then.
const WRITES: [(WireVersion, usize, Length); 5] = [
    (WireVersion::One, 8177, Ok(8192)),
    (WireVersion::One, 8178, TOO_BIG),
    (WireVersion::One, 65536, TOO_BIG),
    (WireVersion::Two, 131055, Ok(131072)),
    (WireVersion::Two, 131056, TOO_BIG),
];

/// A reply.
enum Told {
    /// So many bytes.
    Data(usize),
    /// A page of so many equal names, the last one.
    Names(usize),
    /// A page of one record, of a request with this code that was answered with that one.
    Audit(u8, u8),
}

/// Replies by a version, and how long their bodies are. A line with the name `home` has 14 bytes.
const REPLIES: [(WireVersion, Told, Length); 11] = [
    (WireVersion::One, Told::Data(8188), Ok(8192)),
    (WireVersion::One, Told::Data(8189), TOO_BIG),
    (WireVersion::Two, Told::Data(131066), Ok(131072)),
    (WireVersion::Two, Told::Data(131067), TOO_BIG),
    (WireVersion::One, Told::Names(64), Ok(3 + 64 * 14)),
    (WireVersion::One, Told::Names(65), TOO_BIG),
    (WireVersion::Two, Told::Names(64), Ok(3 + 64 * 14)),
    (WireVersion::Two, Told::Names(65), TOO_BIG),
    (WireVersion::One, Told::Audit(0, 0), TOO_BIG),
    (WireVersion::One, Told::Audit(21, 0), TOO_BIG),
    (WireVersion::One, Told::Audit(20, 16), TOO_BIG),
];

/// The object 7.0.1.
pub fn object() -> Result<ObjectId, Fail> {
    let purse = Purse {
        creator: Principal::new(7).ok_or("a principal")?,
        number: PurseNo::new(0).ok_or("a purse number")?,
    };
    Ok(ObjectId {
        purse,
        serial: Serial::new(1).ok_or("a serial")?,
    })
}

/// A write of so many bytes.
pub fn write_of(alloc: Global, count: usize) -> Result<Request, Fail> {
    Ok(Request::Write {
        object: object()?,
        offset: 0,
        bytes: Bytes::from_vec(vec![in alloc; 97; count]?)?,
    })
}

/// A reply of so many bytes.
pub fn data_of(alloc: Global, grant: Grant, count: usize) -> Result<Reply, Fail> {
    Ok(Reply::Data {
        grant,
        bytes: Bytes::from_vec(vec![in alloc; 97; count]?)?,
    })
}

fn reply_of(alloc: Global, told: &Told) -> Result<Reply, Fail> {
    match told {
        Told::Data(count) => data_of(alloc, Grant::Admin, *count),
        Told::Names(count) => names_of(alloc, *count),
        Told::Audit(code, reply) => {
            let line = AuditLine {
                moment: Moment::new(8),
                who: object()?.purse.creator,
                client: 0,
                code: *code,
                is_wide: false,
                reply: *reply,
            };
            Ok(Reply::Audit {
                lines: AuditLines::new(vec![in alloc; line]?),
                more: false,
            })
        }
    }
}

fn names_of(alloc: Global, count: usize) -> Result<Reply, Fail> {
    let object = object()?;
    let mut lines = Vec::new(alloc);
    for _ in 0..count {
        lines.push(NameLine {
            name: Name::new(b"home").ok_or("a name")?,
            object,
            grant: Grant::Admin,
        })?;
    }
    Ok(Reply::Names {
        lines: NameLines::new(lines),
        more: false,
    })
}

/// How long the request's body is, which is read as that request.
fn length_of_request(
    version: WireVersion,
    alloc: Global,
    request: &Request,
) -> Result<Length, Fail> {
    match write_request(version, alloc, request) {
        Ok(body) if read_request(version, alloc, &body)? == *request => Ok(Ok(body.len())),
        Ok(_) => Err("another request".into()),
        Err(error) => Ok(Err(error)),
    }
}

/// How long the reply's body is, which is read as that reply.
fn length_of_reply(version: WireVersion, alloc: Global, reply: &Reply) -> Result<Length, Fail> {
    match write_reply(version, alloc, reply) {
        Ok(body) if read_reply(version, alloc, &body)? == *reply => Ok(Ok(body.len())),
        Ok(_) => Err("another reply".into()),
        Err(error) => Ok(Err(error)),
    }
}

#[test]
fn largest_requests_and_replies(rt: HostRuntime) -> Result<(), Fail> {
    let alloc = rt.alloc();
    assert!(rt; frame_limit(WireVersion::One) == 8192);
    assert!(rt; frame_limit(WireVersion::Two) == 131072);
    for (version, count, length) in &WRITES {
        let request = write_of(alloc, *count)?;
        assert!(rt;
            length_of_request(*version, alloc, &request)? == *length,
            "{count}"
        );
    }
    for (version, told, length) in &REPLIES {
        let reply = reply_of(alloc, told)?;
        assert!(rt;
            length_of_reply(*version, alloc, &reply)? == *length,
            "{reply:?}"
        );
    }
    Ok(())
}

#[test]
fn entries_without_a_spelling(rt: HostRuntime) -> Result<(), Fail> {
    let no_entry = Grant::Entry {
        index: 16,
        since: Moment::new(6),
    };
    for (grant, index, rights) in [
        (Grant::Owner, 0, Rights::all()),
        (no_entry, 0, Rights::all()),
        (Grant::Admin, 16, Rights::all()),
        (Grant::Admin, 0, Rights::none()),
    ] {
        let reply = Reply::Entry {
            grant,
            index,
            user: User::everyone(),
            rights,
        };
        let written = write_reply(WireVersion::One, rt.alloc(), &reply);
        assert!(rt; written == Err(WriteError::TooBig), "{reply:?}");
    }
    Ok(())
}
