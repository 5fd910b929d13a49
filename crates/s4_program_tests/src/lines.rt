//! Lines under sums, of a file that another program made.

use crate::fakes::Slow;
use s4_history::{HistoryFault, LineSource, NextLine, tally_lines};
use s4_journal::Ending;
use std::alloc::Global;
use std::io::{BufReader, ErrorKind};
use std::process::Abort;
use std::test::Fail;

/// Two lines, the first under a sum of zeros.
const LINES: &str = "\
{\"connection\":1,\"peer\":\"127.0.0.1:5000\",\"sum\":\"eb8dd0fecdbb870daf9936ca47f06d7a6d5c1d0e257d6ed0cf22ffaf9aac7fa2\"}
{\"connection\":1,\"ended\":\"closed\",\"sum\":\"ddf2fb0347d965c003c463cf7e0def744d0cc8822c432d0e8e9b714b6393202c\"}
";

/// Where the first line ends, behind its line feed, and where the second one ends.
const FIRST: usize = 114;

const SECOND: usize = 221;

/// What stands in front of the first line.
const NONE: [u8; 32] = [0; 32];

type Source<'a> = LineSource<BufReader<Slow<'a>>>;

/// The lines that a reader gives, through a window of so many bytes.
fn source(alloc: Global, reader: Slow<'_>, window: usize) -> Result<Source<'_>, Fail> {
    let reader = BufReader::with_capacity(alloc, window, reader)?;
    Ok(LineSource::new(reader, NONE))
}

/// That these bytes come as a line next, or else the end, and that the file stands at that byte then.
fn check_next<A: Abort>(
    rt: &A,
    alloc: Global,
    source: &mut Source<'_>,
    line: Option<&str>,
    place: usize,
) -> Result<(), Fail> {
    match (source.next(alloc)?, line) {
        (NextLine::Line(came), Some(line)) => {
            assert_eq!(rt; came.as_slice(), line.as_bytes());
        }
        (NextLine::Stop(ending), None) => assert_eq!(rt; ending, Ending::Whole),
        _ => return Err(Fail::from("another line or end")),
    }
    assert_eq!(rt; source.place(), place as u64);
    Ok(())
}

/// Through windows of some bytes; a byte at a time, each after an interruption.
#[test]
fn lines_are_read(rt: HostRuntime) -> Result<(), Fail> {
    let alloc = rt.alloc();
    assert_eq!(rt; LINES.len(), SECOND);
    for window in [1, 2, 3, 4, 5, 6, 7, 8, 8192] {
        for reader in [
            Slow::new(LINES.as_bytes(), 8192, false),
            Slow::trickle(LINES.as_bytes()),
        ] {
            let mut source = source(alloc, reader, window)?;
            check_next(&rt, alloc, &mut source, LINES.get(..FIRST - 1), FIRST)?;
            check_next(
                &rt,
                alloc,
                &mut source,
                LINES.get(FIRST..SECOND - 1),
                SECOND,
            )?;
            check_next(&rt, alloc, &mut source, None, SECOND)?;
        }
    }
    Ok(())
}

/// A file that fails behind its first line isn't one that ends there.
#[test]
fn failures_are_told(rt: HostRuntime) -> Result<(), Fail> {
    let alloc = rt.alloc();
    for (kind, fault) in [
        (ErrorKind::Other, HistoryFault::CannotRead),
        (ErrorKind::OutOfMemory, HistoryFault::NoMemory),
    ] {
        let failing = Slow::failing(&LINES.as_bytes()[..FIRST], kind);
        let found = tally_lines(alloc, &mut source(alloc, failing, 8192)?);
        assert_eq!(rt; found, Err(fault));
    }
    Ok(())
}
