//! Random streams: a talk is sent what the hall sends.

use crate::talks::peers::Peer;
use crate::talks::stream::{
    CREATE, HELLO, HELLO_TWO, READ, READ_WHOLE, TRUNCATE_WHOLE, WRITE, WRITE_TWO, logins,
};
use crate::talks::talk_with;
use rand_core::utils::NextWord;
use rand_pcg::Pcg32;
use s4_session::Hall;
use s4_types::Moment;
use std::alloc::Global;
use std::process::Abort;
use std::sync::Wait;
use std::test::Fail;

/// How many streams there are.
const STREAMS: u32 = 10000;

/// The most frames of a stream, and the most bytes of one that is made at random.
const FRAMES: usize = 10;

const BYTES: usize = 40;

/// A number below `sides`, or 0 where that is 0.
fn roll(dice: &mut Pcg32, sides: usize) -> usize {
    (dice.next_word() as usize).checked_rem(sides).unwrap_or(0)
}

/// Adds so many random bytes below `sides`.
fn add_bytes(
    stream: &mut Vec<u8>,
    dice: &mut Pcg32,
    count: usize,
    sides: usize,
) -> Result<(), Fail> {
    for _ in 0..count {
        let [byte, ..] = roll(dice, sides).to_le_bytes();
        stream.push(byte)?;
    }
    Ok(())
}

/// Adds what comes next: a frame of a Hello or a request, a Write of one version or the other, bytes that
/// are no frame, or a frame of random bytes, of which the first one is small, as that of most requests.
fn add_next(stream: &mut Vec<u8>, dice: &mut Pcg32, write: &[u8]) -> Result<(), Fail> {
    let count = roll(dice, BYTES);
    let frame = match roll(dice, 64) {
        0 => HELLO,
        1 => HELLO_TWO,
        2 => return add_bytes(stream, dice, count, 256),
        3 => WRITE,
        4 => WRITE_TWO,
        5 => TRUNCATE_WHOLE,
        6 => READ_WHOLE,
        7..20 => CREATE,
        20..32 => write,
        32..45 => READ,
        _ => {
            let [length, ..] = count.wrapping_add(1).to_le_bytes();
            stream.extend_from_slice(&[0, 0, 0, length])?;
            add_bytes(stream, dice, 1, 24)?;
            return add_bytes(stream, dice, count, 8);
        }
    };
    Ok(stream.extend_from_slice(frame)?)
}

/// A stream: mostly with a Hello of one version or the other before all else, then frames of requests,
/// some of them at random, and here and there bytes that are no frame, or a Write of the other version.
fn random_stream(alloc: Global, dice: &mut Pcg32) -> Result<Vec<u8>, Fail> {
    let mut stream = Vec::new(alloc);
    let (hello, write) = match roll(dice, 2) {
        0 => (HELLO, WRITE),
        _ => (HELLO_TWO, WRITE_TWO),
    };
    if roll(dice, 16) > 0 {
        stream.extend_from_slice(hello)?;
    }
    for _ in 0..roll(dice, FRAMES) {
        add_next(&mut stream, dice, write)?;
    }
    let count = stream.len();
    if roll(dice, 4) == 0 {
        stream.truncate(roll(dice, count));
    }
    Ok(stream)
}

/// How many bytes a talk sends for a stream, once it is seen that a hall sends the same. All is asked
/// at 5.
fn check_stream<R: Abort + Wait>(rt: &R, alloc: Global, dice: &mut Pcg32) -> Result<usize, Fail> {
    let said = random_stream(alloc, dice)?;
    let mut peer = Peer::wide(&said);
    peer.gives = roll(dice, 64).wrapping_add(1);
    peer.takes = peer.gives;
    let sent = talk_with(rt, alloc, &peer, 0)?.written;
    let mut hall = Hall::open(alloc, 100, logins(alloc)?);
    let wanted = hall.arrive(1, Moment::new(5), &said)?;
    assert!(rt; sent == wanted, "{said:?} {}", peer.gives);
    Ok(sent.len())
}

#[test]
fn random_streams_are_sent_what_the_hall_sends(rt: HostRuntime) -> Result<(), Fail> {
    let mut dice = Pcg32::new(42, 54);
    let mut sent = 0usize;
    for _ in 0..STREAMS {
        sent = sent.saturating_add(check_stream(&rt, rt.alloc(), &mut dice)?);
    }
    assert!(rt; sent > 100000);
    Ok(())
}
