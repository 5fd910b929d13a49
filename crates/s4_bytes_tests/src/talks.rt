//! Talks over a drive: small streams, streams that end anywhere, and readers and writers that fail.

mod desk;
mod failures;
mod memory;
mod peers;
mod random;
mod stream;
mod turns;

use crate::talks::desk::Desk;
use crate::talks::peers::{Peer, Sink, Source, WIDE};
use crate::talks::stream::{
    BAD_HELLO, BAD_LENGTH, BAD_LOGIN, CREATE, DATA, DATA_TWO, DONE, HELLO, HELLO_THREE, HELLO_TWO,
    MADE, MALFORMED, READ, TOO_LONG, WELCOME, WELCOME_TWO, WRITE, WRITE_TWO, joined, logins,
};
use s4_session::SessionFault;
use s4_talk::{TalkEnd, talk};
use std::alloc::Global;
use std::process::Abort;
use std::sync::Wait;
use std::test::Fail;

/// What came of a talk: how it ended, what was written, and how many requests were carried out.
#[derive(Drop)]
struct Outcome {
    end: TalkEnd,
    written: Vec<u8>,
    carried_out: usize,
}

/// What comes of a talk of this peer with a fresh drive, whose moments go up by `pace` from request
/// to request.
fn talk_with<R: Wait>(rt: &R, alloc: Global, peer: &Peer<'_>, pace: u64) -> Result<Outcome, Fail> {
    let logins = logins(alloc)?;
    let mut source = Source {
        bytes: peer.said,
        gives: peer.gives,
        mishap: peer.at_read,
        calls: 0,
    };
    let mut sink = Sink {
        taken: Vec::new(alloc),
        takes: peer.takes,
        mishap: peer.at_write,
        calls: 0,
    };
    let mut desk = Desk::open(alloc, pace);
    let end = talk(rt, alloc, &mut source, &mut sink, &logins, &mut desk);
    Ok(Outcome {
        end,
        written: sink.taken,
        carried_out: desk.drive.history().len(),
    })
}

/// That this comes of a talk of this peer.
fn check_talk<R: Abort + Wait>(
    rt: &R,
    alloc: Global,
    peer: &Peer<'_>,
    wanted: &Outcome,
) -> Result<(), Fail> {
    let came = talk_with(rt, alloc, peer, 1)?;
    let is_so = came.end == wanted.end
        && came.written == wanted.written
        && came.carried_out == wanted.carried_out;
    assert!(rt; is_so, "{:?} and not {:?}", came.end, wanted.end);
    Ok(())
}

/// What a peer says, and what comes of it.
struct Row {
    said: &'static [&'static [u8]],
    /// So many times the byte 61 is said behind that.
    letters: usize,
    end: TalkEnd,
    written: &'static [&'static [u8]],
    carried_out: usize,
}

const FRAME_LENGTH: TalkEnd = TalkEnd::Faulted(SessionFault::FrameLength);

const MISPLACED: TalkEnd = TalkEnd::Faulted(SessionFault::Malformed);

/// The greatest frame: a Write to 7.0.1 whose data is as long as the two bytes behind this say.
const GREATEST_WRITE: &[u8] =
    b"\x00\x00\x20\x00\x04\x00\x00\x00\x07\x00\x00\x00\x01\x00\x00\x00\x00";

/// The greatest frame of version 2: a Write to 7.0.1 whose data is as long as the four bytes behind
/// this say.
const GREATEST_WRITE_TWO: &[u8] =
    b"\x00\x02\x00\x00\x04\x00\x00\x00\x07\x00\x00\x00\x01\x00\x00\x00\x00";

const ROWS: [Row; 20] = [
    Row {
        said: &[HELLO, CREATE, WRITE, READ],
        letters: 0,
        end: TalkEnd::PeerClosed,
        written: &[WELCOME, MADE, DONE, DATA],
        carried_out: 3,
    },
    // All of the greatest frame is its data, or a byte is left over.
    Row {
        said: &[HELLO, GREATEST_WRITE, b"\x1f\xf1"],
        letters: 8177,
        end: TalkEnd::PeerClosed,
        written: &[WELCOME, TOO_LONG],
        carried_out: 1,
    },
    Row {
        said: &[HELLO, GREATEST_WRITE, b"\x1f\xf0"],
        letters: 8177,
        end: MISPLACED,
        written: &[WELCOME, MALFORMED],
        carried_out: 0,
    },
    // By version 2 lengths have four bytes, and frames more: so has one of 131072, and none more.
    Row {
        said: &[HELLO_TWO, CREATE, WRITE_TWO, READ],
        letters: 0,
        end: TalkEnd::PeerClosed,
        written: &[WELCOME_TWO, MADE, DONE, DATA_TWO],
        carried_out: 3,
    },
    Row {
        said: &[HELLO_TWO, GREATEST_WRITE_TWO, b"\x00\x01\xff\xef"],
        letters: 131055,
        end: TalkEnd::PeerClosed,
        written: &[WELCOME_TWO, TOO_LONG],
        carried_out: 1,
    },
    Row {
        said: &[HELLO_TWO, b"\x00\x02\x00\x01"],
        letters: 0,
        end: FRAME_LENGTH,
        written: &[WELCOME_TWO, BAD_LENGTH],
        carried_out: 0,
    },
    // Before a Hello it is held to version 1, and so is one of version 1.
    Row {
        said: &[b"\x00\x00\x20\x01", HELLO_TWO],
        letters: 0,
        end: FRAME_LENGTH,
        written: &[BAD_LENGTH],
        carried_out: 0,
    },
    Row {
        said: &[HELLO, CREATE, WRITE_TWO],
        letters: 0,
        end: MISPLACED,
        written: &[WELCOME, MADE, MALFORMED],
        carried_out: 1,
    },
    Row {
        said: &[HELLO_THREE, CREATE],
        letters: 0,
        end: MISPLACED,
        written: &[MALFORMED],
        carried_out: 0,
    },
    // A wrong length is told at once, behind a Hello and before it.
    Row {
        said: &[HELLO, b"\x00\x00\x20\x01"],
        letters: 0,
        end: FRAME_LENGTH,
        written: &[WELCOME, BAD_LENGTH],
        carried_out: 0,
    },
    Row {
        said: &[b"\x00\x00\x20\x01"],
        letters: 0,
        end: FRAME_LENGTH,
        written: &[BAD_LENGTH],
        carried_out: 0,
    },
    Row {
        said: &[HELLO, b"\x00\x00\x00\x00"],
        letters: 0,
        end: FRAME_LENGTH,
        written: &[WELCOME, BAD_LENGTH],
        carried_out: 0,
    },
    Row {
        said: &[b"\x00\x00\x00\x00"],
        letters: 0,
        end: FRAME_LENGTH,
        written: &[BAD_LENGTH],
        carried_out: 0,
    },
    Row {
        said: &[HELLO, b"\xff\xff\xff\xff"],
        letters: 0,
        end: FRAME_LENGTH,
        written: &[WELCOME, BAD_LENGTH],
        carried_out: 0,
    },
    Row {
        said: &[b"\xff\xff\xff\xff"],
        letters: 0,
        end: FRAME_LENGTH,
        written: &[BAD_LENGTH],
        carried_out: 0,
    },
    // A body in the wrong place, and a wrong secret.
    Row {
        said: &[HELLO, HELLO, CREATE],
        letters: 0,
        end: MISPLACED,
        written: &[WELCOME, MALFORMED],
        carried_out: 0,
    },
    Row {
        said: &[CREATE],
        letters: 0,
        end: MISPLACED,
        written: &[MALFORMED],
        carried_out: 0,
    },
    Row {
        said: &[BAD_HELLO, CREATE],
        letters: 0,
        end: TalkEnd::Faulted(SessionFault::BadLogin),
        written: &[BAD_LOGIN],
        carried_out: 0,
    },
    // Nothing is answered before a Hello, and nothing after a fault.
    Row {
        said: &[CREATE, HELLO, CREATE],
        letters: 0,
        end: MISPLACED,
        written: &[MALFORMED],
        carried_out: 0,
    },
    Row {
        said: &[HELLO, CREATE, HELLO, CREATE, WRITE, READ],
        letters: 0,
        end: MISPLACED,
        written: &[WELCOME, MADE, MALFORMED],
        carried_out: 1,
    },
];

#[test]
fn talks_go_as_their_rows_tell(rt: HostRuntime) -> Result<(), Fail> {
    for row in &ROWS {
        check_row(&rt, rt.alloc(), row)?;
    }
    Ok(())
}

/// That what comes of the row's bytes is what it tells, however many of them a reader gives at a time.
fn check_row<R: Abort + Wait>(rt: &R, alloc: Global, row: &Row) -> Result<(), Fail> {
    let mut said = joined(alloc, row.said)?;
    said.resize(said.len().saturating_add(row.letters), 0x61)?;
    let wanted = Outcome {
        end: row.end,
        written: joined(alloc, row.written)?,
        carried_out: row.carried_out,
    };
    for gives in [1, 7, WIDE] {
        let mut peer = Peer::wide(&said);
        peer.gives = gives;
        check_talk(rt, alloc, &peer, &wanted)?;
    }
    Ok(())
}
