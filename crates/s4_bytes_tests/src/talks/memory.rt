//! Want of memory. With `rt try --test --fail-alloc N` the Nth allocation of each test is refused;
//! what is asserted here holds for each N. Where the sink of the test meets it, the write fails.

use crate::talks::peers::Peer;
use crate::talks::stream::{STREAM, joined};
use crate::talks::talk_with;
use s4_codec::{Front, frame_limit, read_frame};
use s4_talk::TalkEnd;
use s4_types::WireVersion;
use std::test::Fail;

/// The reply to a request that met want of memory.
const NO_MEMORY: &[u8] = b"\x08\x10";

/// How many frames were written, and how many of them tell of want of memory.
fn count_frames(written: &[u8]) -> (usize, usize) {
    let mut left = written;
    let mut frames: usize = 0;
    let mut wanting: usize = 0;
    for _ in 0..written.len() {
        match read_frame(frame_limit(WireVersion::One), left) {
            Front::Whole { body, rest } => {
                frames = frames.saturating_add(1);
                wanting = wanting.saturating_add(usize::from(body == NO_MEMORY));
                left = rest;
            }
            _ => break,
        }
    }
    (frames, wanting)
}

/// All requests are answered, but behind want of memory that ended the talk; and what was carried out
/// is what was answered.
#[test]
fn want_of_memory_is_told_or_ends_a_talk(rt: HostRuntime) -> Result<(), Fail> {
    let alloc = rt.alloc();
    let all = joined(alloc, STREAM)?;
    for gives in [1, 3, 64] {
        let mut peer = Peer::wide(&all);
        peer.gives = gives;
        peer.takes = 64;
        let came = talk_with(&rt, alloc, &peer, 1)?;
        let (frames, wanting) = count_frames(&came.written);
        let told = frames.saturating_sub(1).saturating_sub(wanting);
        let is_so = match came.end {
            TalkEnd::PeerClosed => frames == 4 && came.carried_out == told,
            TalkEnd::NoMemory => came.carried_out == told,
            TalkEnd::WriteFailed => true,
            _ => false,
        };
        assert!(rt; is_so, "{:?} of {:?}", came.end, came.written);
    }
    Ok(())
}
