//! Turns with a reader and a writer that don't wait.

use crate::talks::desk::Desk;
use crate::talks::peers::{Mishap, Sink, Source, WIDE};
use crate::talks::stream::{
    CREATE, HELLO, HELLO_TWO, MADE, READ_WHOLE, SENT, STREAM, TRUNCATE_WHOLE, WELCOME, joined,
    logins,
};
use s4_session::Logins;
use s4_talk::{TalkEnd, Talking, TurnEnd};
use std::alloc::Global;
use std::io::ErrorKind;
use std::process::Abort;
use std::test::Fail;

/// A talk with a fresh drive, turn by turn.
struct Case {
    /// What the peer says in all: these frames, and then the last one so many times.
    said: &'static [&'static [u8]],
    last: &'static [u8],
    times: usize,
    /// How many bytes the writer takes at a time.
    takes: usize,
    at_read: Mishap,
    at_write: Mishap,
    turns: &'static [Turn],
    /// What is sent first.
    sent: &'static [&'static [u8]],
}

/// A turn, before which the peer says so many bytes more; how it ends, and what is so by then.
struct Turn {
    says: usize,
    end: TurnEnd,
    carried_out: usize,
    /// How many bytes were sent, and how many wait.
    sent: usize,
    waiting: usize,
    /// How many reads and writes there were.
    calls: (u64, u64),
}

/// The call of a reader or a writer that tells that it would wait.
const FIRST_WAITS: Mishap = Some((0, ErrorKind::WouldBlock));

const SECOND_WAITS: Mishap = Some((1, ErrorKind::WouldBlock));

const CASES: [Case; 4] = [
    // A turn goes on where the last one stopped.
    Case {
        said: STREAM,
        last: b"",
        times: 0,
        takes: 4,
        at_read: SECOND_WAITS,
        at_write: SECOND_WAITS,
        turns: &[
            Turn {
                says: 36,
                end: TurnEnd::Stuck,
                carried_out: 1,
                sent: 4,
                waiting: 15,
                calls: (1, 2),
            },
            Turn {
                says: 0,
                end: TurnEnd::Waits,
                carried_out: 1,
                sent: 19,
                waiting: 0,
                calls: (2, 6),
            },
            Turn {
                says: 46,
                end: TurnEnd::More,
                carried_out: 3,
                sent: 46,
                waiting: 0,
                calls: (3, 13),
            },
            Turn {
                says: 0,
                end: TurnEnd::Ended(TalkEnd::PeerClosed),
                carried_out: 3,
                sent: 46,
                waiting: 0,
                calls: (4, 13),
            },
        ],
        sent: SENT,
    },
    // Replies to one read are one write.
    Case {
        said: STREAM,
        last: b"",
        times: 0,
        takes: WIDE,
        at_read: None,
        at_write: None,
        turns: &[Turn {
            says: 82,
            end: TurnEnd::More,
            carried_out: 3,
            sent: 46,
            waiting: 0,
            calls: (1, 1),
        }],
        sent: SENT,
    },
    // A turn serves 64 frames, and the next one goes on.
    Case {
        said: &[HELLO],
        last: CREATE,
        times: 100,
        takes: WIDE,
        at_read: None,
        at_write: None,
        turns: &[
            Turn {
                says: 630,
                end: TurnEnd::Enough,
                carried_out: 63,
                sent: 6 + 63 * 13,
                waiting: 0,
                calls: (1, 1),
            },
            Turn {
                says: 0,
                end: TurnEnd::More,
                carried_out: 100,
                sent: 6 + 100 * 13,
                waiting: 0,
                calls: (1, 2),
            },
            Turn {
                says: 0,
                end: TurnEnd::Ended(TalkEnd::PeerClosed),
                carried_out: 100,
                sent: 6 + 100 * 13,
                waiting: 0,
                calls: (2, 2),
            },
        ],
        sent: &[WELCOME, MADE],
    },
    // Who reads nothing is served until enough waits. The next turn writes that, and serves one read
    // more.
    Case {
        said: &[HELLO_TWO, CREATE, TRUNCATE_WHOLE],
        last: READ_WHOLE,
        times: 100,
        takes: WIDE,
        at_read: None,
        at_write: FIRST_WAITS,
        turns: &[
            Turn {
                says: 2253,
                end: TurnEnd::Stuck,
                carried_out: 3,
                sent: 0,
                waiting: 6 + 13 + 5 + 65555,
                calls: (1, 1),
            },
            Turn {
                says: 0,
                end: TurnEnd::Enough,
                carried_out: 4,
                sent: 6 + 13 + 5 + 2 * 65555,
                waiting: 0,
                calls: (1, 5),
            },
        ],
        sent: &[],
    },
];

#[test]
fn turns_go_as_their_rows_tell(rt: HostRuntime) -> Result<(), Fail> {
    for case in &CASES {
        check_case(&rt, rt.alloc(), case)?;
    }
    Ok(())
}

fn check_case<R: Abort>(rt: &R, alloc: Global, case: &Case) -> Result<(), Fail> {
    let logins = logins(alloc)?;
    let wanted = joined(alloc, case.sent)?;
    let said = said_in(alloc, case)?;
    let mut left = said.as_slice();
    let mut table = Table::open(alloc, case);
    let mut source = Source {
        bytes: &[],
        gives: WIDE,
        mishap: case.at_read,
        calls: 0,
    };
    for (place, turn) in case.turns.iter().enumerate() {
        if turn.says > 0 {
            let (says, later) = left.split_at(turn.says.min(left.len()));
            source.bytes = says;
            left = later;
        }
        let end = table.turn(&logins, &mut source);
        let is_so = end == turn.end
            && table.is_at(turn, &wanted)
            && (source.calls, table.sink.calls) == turn.calls;
        assert!(rt; is_so, "turn {place}: {end:?}");
    }
    Ok(())
}

/// All that the peer says.
fn said_in(alloc: Global, case: &Case) -> Result<Vec<u8>, Fail> {
    let mut said = joined(alloc, case.said)?;
    for _ in 0..case.times {
        said.extend_from_slice(case.last)?;
    }
    Ok(said)
}

/// A talk with a fresh drive, and what takes the bytes that are sent.
#[derive(Drop)]
struct Table {
    talking: Talking,
    desk: Desk,
    sink: Sink,
}

impl Table {
    fn open(alloc: Global, case: &Case) -> Table {
        Table {
            talking: Talking::open(alloc),
            desk: Desk::open(alloc, 1),
            sink: Sink {
                taken: Vec::new(alloc),
                takes: case.takes,
                mishap: case.at_write,
                calls: 0,
            },
        }
    }

    /// How a turn ends whose peer says these bytes.
    fn turn(&mut self, logins: &Logins, source: &mut Source<'_>) -> TurnEnd {
        self.talking
            .turn(logins, source, &mut self.sink, &mut self.desk)
    }

    /// Whether so much was carried out and sent as the turn tells, and what was sent begins so.
    fn is_at(&self, turn: &Turn, wanted: &[u8]) -> bool {
        let sent = self.sink.taken.as_slice();
        self.desk.drive.history().len() == turn.carried_out
            && (sent.len(), self.talking.waiting()) == (turn.sent, turn.waiting)
            && (sent.starts_with(wanted) || wanted.starts_with(sent))
    }
}
