//! A whole talk.

ghost use Rattle.s4_talk.specs.Turning.{Talked};

use crate::answer::Answer;
use crate::turns::{TalkEnd, Talking, TurnEnd};
use s4_stream::Logins;
use std::alloc::Global;
use std::io::{Read, Write};
use std::sync::Wait;

/// Talks with a peer until the end: reads what it says, hands its requests to the answer, each once
/// and in order, and writes what it is told (docs/PROTOCOL.md). Nothing is handed on before a good
/// Hello, after a fault, or after a read or a write that failed.
///
/// `PeerClosed` is the end of what the reader gives. `Faulted` tells which fault was told.
/// `ReadFailed` and `WriteFailed` come where the reader or the writer failed, and where a write
/// took no byte; `NoMemory` where a growth was refused outside a reply. What was carried out by
/// then stays. It waits where the reader, the writer or the answer does.
pub fn talk<R: Read, W: Write, A: Answer, H: Wait>(
    rt: &H,
    alloc: Global,
    reader: &mut R,
    writer: &mut W,
    logins: &Logins,
    answer: &mut A,
) -> TalkEnd
    ensures { Talked result logins.now (R.remaining reader.old) (R.remaining reader.new)
        (W.contents writer.old) (W.contents writer.new) (A.calls answer.old) (A.calls answer.new) }
{
    let mut talking = Talking::open(alloc);
    for _ in rt.forever() {
        if let TurnEnd::Ended(end) = talking.turn(logins, reader, writer, answer) {
            return end;
        }
    }
    unreachable!()
}
