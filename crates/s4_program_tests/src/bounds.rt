//! How far a text is read.

use crate::fakes::{Endless, Slow};
use s4_run::{RunFault, run_script};
use s4_script::{TextFault, read_up_to};
use std::cell::Cell;
use std::test::Fail;

/// How a reader gives `abc`, so many bytes at a time with interruptions or without, and how many bytes and
/// reads that takes: all at once, and a read that finds the end; three reads of a byte, and one that finds
/// the end; and the same reads, each behind one that is interrupted.
const READERS: [(usize, bool, u32); 3] = [(4096, false, 3), (1, false, 4), (1, true, 8)];

#[test]
fn bounds_of_bytes_and_reads(rt: HostRuntime) -> Result<(), Fail> {
    let alloc = rt.alloc();
    for (width, interrupts, limit) in READERS {
        let text = read_up_to(alloc, &mut Slow::new(b"abc", width, interrupts), limit);
        assert!(rt;
            matches!(&text, Ok(text) if text.as_slice() == b"abc".as_slice()),
            "at {limit}"
        );
        let limit = limit.saturating_sub(1);
        let refused = read_up_to(alloc, &mut Slow::new(b"abc", width, interrupts), limit);
        assert_eq!(rt; refused.err(), Some(TextFault::CannotRead), "at {limit}");
    }
    Ok(())
}

/// Reads that never come to an end, bytes that don't, and a script, which is read up to the byte
/// behind its bound.
#[test]
fn inputs_without_an_end(rt: HostRuntime) -> Result<(), Fail> {
    let alloc = rt.alloc();
    let counted = Cell::new(0);
    for (interrupts, count) in [(true, 1000), (false, 1001)] {
        counted.set(0);
        let mut endless = Endless {
            counted: &counted,
            interrupts,
        };
        let refused = read_up_to(alloc, &mut endless, 1000);
        assert_eq!(rt; refused.err(), Some(TextFault::CannotRead));
        assert_eq!(rt; counted.get(), count);
    }
    counted.set(0);
    let endless = Endless {
        counted: &counted,
        interrupts: false,
    };
    let outcome = run_script(alloc, endless, &mut Vec::new(alloc));
    assert_eq!(rt; outcome, Err(RunFault::CannotRead));
    assert_eq!(rt; counted.get(), 268435457);
    Ok(())
}
