//! Calls over peers that are narrow, and over ones that fail.

use crate::frames::{ANSWER, ANSWER_AND_MORE, CALL};
use crate::peers::{Failure, Sink, Source};
use s4_client::{CallFault, call};
use s4_types::{ObjectId, Purse, Reply, WireVersion};
use std::alloc::Global;
use std::io::ErrorKind;
use std::process::Abort;
use std::test::Fail;

/// What a call is answered.
#[derive(Clone, Copy, Debug, PartialEq, Eq)]
enum Answer {
    /// The object 7.0.1 was made.
    Made,
    /// The connection was lost.
    Lost,
    Other,
}

/// What a peer says, how many bytes it says and hears at a time, and where that fails.
#[derive(Clone, Copy)]
struct Peer<'a> {
    says: &'a [u8],
    width: usize,
    reading: Failure,
    writing: Failure,
}

/// What became of a call.
#[derive(Drop)]
struct Outcome<'a> {
    answer: Answer,
    /// What wasn't read of what the peer says.
    unread: &'a [u8],
    /// What the peer was sent, and in how many writes.
    taken: Vec<u8>,
    writes: u64,
}

/// Calls a peer.
fn called<'a>(alloc: Global, peer: Peer<'a>) -> Outcome<'a> {
    let mut reader = Source {
        bytes: peer.says,
        width: peer.width,
        calls: 0,
        fails: peer.reading,
    };
    let mut writer = Sink {
        taken: Vec::new(alloc),
        width: peer.width,
        calls: 0,
        fails: peer.writing,
    };
    let answer = call(WireVersion::One, alloc, &mut reader, &mut writer, CALL);
    Outcome {
        answer: answer_in(&answer),
        unread: reader.bytes,
        taken: writer.taken,
        writes: writer.calls,
    }
}

fn answer_in(outcome: &Result<Reply, CallFault>) -> Answer {
    match outcome {
        Ok(Reply::Made(object)) if is_first(*object) => Answer::Made,
        Err(CallFault::ConnectionLost) => Answer::Lost,
        _ => Answer::Other,
    }
}

/// Whether it is 7.0.1.
fn is_first(object: ObjectId) -> bool {
    let Purse { creator, number } = object.purse;
    (creator.number(), number.number(), object.serial.number()) == (7, 0, 1)
}

/// That a call is answered so by a peer, who takes these bytes of it.
fn check<R: Abort>(rt: &R, alloc: Global, peer: Peer, wanted: Answer, taken: &[u8]) {
    let called = called(alloc, peer);
    let answer = called.answer;
    let is_as_wanted = answer == wanted && called.taken.as_slice() == taken;
    assert!(rt; is_as_wanted, "{wanted:?} of {taken:?}: {answer:?}");
}

/// The message goes out in one write. What is said behind the reply isn't heard.
#[test]
fn a_call_is_answered(rt: HostRuntime) -> Result<(), Fail> {
    let called = called(
        rt.alloc(),
        Peer {
            says: ANSWER_AND_MORE,
            width: 65536,
            reading: None,
            writing: None,
        },
    );
    assert_eq!(rt; called.answer, Answer::Made);
    assert!(rt; called.unread == b"\x00".as_slice());
    assert!(rt; called.taken.as_slice() == CALL);
    assert_eq!(rt; called.writes, 1);
    Ok(())
}

/// Peers that are interrupted once; ones that say no more, or whose reader fails, at each byte of
/// the answer; ones whose writer fails at each byte of the call.
#[test]
fn narrow_peers_change_nothing_and_broken_ones_are_lost(rt: HostRuntime) -> Result<(), Fail> {
    let alloc = rt.alloc();
    let whole = Peer {
        says: ANSWER,
        width: 1,
        reading: None,
        writing: None,
    };
    for width in [1, 2, 3, 4, 5, 7, 16, 35] {
        let interrupted = Some((1, ErrorKind::Interrupted));
        let peer = Peer {
            says: ANSWER,
            width,
            reading: interrupted,
            writing: interrupted,
        };
        check(&rt, alloc, peer, Answer::Made, CALL);
    }
    for count in 0..ANSWER.len() {
        let mut peer = whole;
        peer.reading = Some((count as u64, ErrorKind::ConnectionReset));
        check(&rt, alloc, peer, Answer::Lost, CALL);
        let mut peer = whole;
        peer.says = &ANSWER[..count];
        peer.width = 65536;
        check(&rt, alloc, peer, Answer::Lost, CALL);
    }
    for count in 0..CALL.len() {
        let mut peer = whole;
        peer.writing = Some((count as u64, ErrorKind::BrokenPipe));
        check(&rt, alloc, peer, Answer::Lost, &CALL[..count]);
    }
    Ok(())
}

#[test]
fn a_call_that_has_no_room_is_lost(rt: HostRuntime) -> Result<(), Fail> {
    let mut room = [0; 8];
    let mut answer = ANSWER;
    let told = call(
        WireVersion::One,
        rt.alloc(),
        &mut answer,
        &mut room.as_mut_slice(),
        CALL,
    );
    assert_eq!(rt; answer_in(&told), Answer::Lost);
    Ok(())
}
