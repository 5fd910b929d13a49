//! Streams that end anywhere, and readers and writers that are narrow, stay away or fail.

use crate::talks::peers::{Peer, WIDE};
use crate::talks::stream::{EXCHANGES, STREAM, joined};
use crate::talks::{Outcome, check_talk};
use s4_talk::TalkEnd;
use std::alloc::Global;
use std::io::ErrorKind;
use std::process::Abort;
use std::sync::Wait;
use std::test::Fail;

/// What happens to a talk over the stream, at a number that the row counts up.
enum Mischief {
    /// Nothing.
    Nothing,
    /// The stream ends behind so many bytes.
    End,
    /// The read of that number fails.
    Read,
    /// The write of that number fails.
    Write,
    /// Writes take nothing.
    TakesNothing,
    /// The read and the write of that number fail so, and are tried again.
    Pause(ErrorKind),
}

/// What happens, at each number below this one, to a peer that gives so many bytes at a time, and
/// takes so many.
struct Row(Mischief, u64, usize, usize);

const ROWS: [Row; 15] = [
    // A stream of 82 bytes may end anywhere.
    Row(Mischief::End, 83, 1, WIDE),
    Row(Mischief::End, 83, 3, WIDE),
    Row(Mischief::End, 83, WIDE, WIDE),
    // Each read may fail.
    Row(Mischief::Read, 83, 1, WIDE),
    Row(Mischief::Read, 17, 5, WIDE),
    Row(Mischief::Read, 2, WIDE, WIDE),
    // Each write may fail.
    Row(Mischief::Write, 46, 1, 1),
    Row(Mischief::Write, 46, WIDE, 1),
    Row(Mischief::Write, 16, WIDE, 3),
    Row(Mischief::Write, 1, WIDE, WIDE),
    // A write that takes nothing has failed.
    Row(Mischief::TakesNothing, 1, WIDE, 0),
    // Narrow writers and interruptions change nothing.
    Row(Mischief::Nothing, 1, WIDE, 1),
    Row(Mischief::Nothing, 1, WIDE, 3),
    Row(Mischief::Pause(ErrorKind::Interrupted), 20, 5, 3),
    Row(Mischief::Pause(ErrorKind::WouldBlock), 20, 5, 3),
];

#[test]
fn talks_that_fail_anywhere(rt: HostRuntime) -> Result<(), Fail> {
    let all = joined(rt.alloc(), STREAM)?;
    for row in &ROWS {
        for number in 0..row.1 {
            check_row(&rt, rt.alloc(), &all, row, number)?;
        }
    }
    Ok(())
}

/// That what is wanted comes of a talk over the stream to which that happens at that number.
fn check_row<R: Abort + Wait>(
    rt: &R,
    alloc: Global,
    all: &[u8],
    row: &Row,
    number: u64,
) -> Result<(), Fail> {
    let count = number as usize;
    let mut peer = Peer::wide(all);
    peer.gives = row.2;
    peer.takes = row.3;
    let (end, read, written) = match row.0 {
        Mischief::Nothing => (TalkEnd::PeerClosed, WIDE, WIDE),
        Mischief::End => {
            peer.said = all.get(..count).ok_or("a longer stream")?;
            (TalkEnd::PeerClosed, count, WIDE)
        }
        Mischief::Read => {
            peer.at_read = Some((number, ErrorKind::BrokenPipe));
            (TalkEnd::ReadFailed, count.saturating_mul(row.2), WIDE)
        }
        Mischief::Write => {
            peer.at_write = Some((number, ErrorKind::BrokenPipe));
            (TalkEnd::WriteFailed, WIDE, count.saturating_mul(row.3))
        }
        Mischief::TakesNothing => (TalkEnd::WriteFailed, WIDE, 0),
        Mischief::Pause(kind) => {
            peer.at_read = Some((number, kind));
            peer.at_write = Some((number, kind));
            (TalkEnd::PeerClosed, WIDE, WIDE)
        }
    };
    let in_turn = end == TalkEnd::WriteFailed && row.2 == 1;
    let wanted = wanted(alloc, end, read, written, in_turn)?;
    check_talk(rt, alloc, &peer, &wanted)
}

/// What comes of the stream's first bytes, so many of them, where only so many of the replies' first
/// bytes could be written. Each frame that is whole is answered, and all but the first one, the Hello,
/// are carried out. Where a write fails and each byte is read by itself, the next request is read once
/// the reply before it is written; where all come at once, all are carried out before the first write.
fn wanted(
    alloc: Global,
    end: TalkEnd,
    read: usize,
    count: usize,
    in_turn: bool,
) -> Result<Outcome, Fail> {
    let mut written = Vec::new(alloc);
    let mut carried_out: usize = 0;
    let mut left = read;
    for (place, (frame, reply, start)) in EXCHANGES.iter().enumerate() {
        match left.checked_sub(frame.len()) {
            Some(less) => left = less,
            None => break,
        }
        written.extend_from_slice(reply)?;
        if !in_turn || *start <= count {
            carried_out = place;
        }
    }
    written.truncate(count);
    Ok(Outcome {
        end,
        written,
        carried_out,
    })
}
