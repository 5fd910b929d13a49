//! Faults of histories, and journals that the program finds at fault sooner, of one cell each. Their
//! bytes were made by another program (docs/JOURNAL.md).

use s4_history::{HistoryFault, Merge, Replayed, Source, Span, look, write_script};
use s4_script::Opening;
use s4_types::WireVersion;
use std::process::Abort;
use std::test::Fail;

/// What is written of a history that isn't told.
const TEXTS: [(HistoryFault, &str); 14] = [
    (HistoryFault::NoJournal, "no journal"),
    (HistoryFault::NoBlock(76), "byte 76: no block"),
    (HistoryFault::NoLine(114), "byte 114: no line"),
    (HistoryFault::NoCell(4), "no cell 4"),
    (
        HistoryFault::GoesBack(1, 2),
        "cell 1 record 2: moment goes back",
    ),
    (
        HistoryFault::Differs(1, 2),
        "cell 1 record 2: another reply",
    ),
    (HistoryFault::NoCall(1, 2), "cell 1 record 2: no call"),
    (
        HistoryFault::ManyCalls(1, 2),
        "cell 1 record 2: too many calls",
    ),
    (
        HistoryFault::MergeGoesBack(3),
        "merged record 3: moment goes back",
    ),
    (HistoryFault::Stray(1), "cell 1: a record of another cell"),
    (HistoryFault::Torn(1), "cell 1: another record of all cells"),
    (HistoryFault::CannotRead, "cannot read"),
    (HistoryFault::CannotWrite, "cannot write"),
    (HistoryFault::NoMemory, "no memory"),
];

#[test]
fn faults_are_written(rt: HostRuntime) -> Result<(), Fail> {
    for (fault, wanted) in &TEXTS {
        assert_eq!(rt; fault.to_string(rt.alloc())?.as_str(), *wanted);
    }
    Ok(())
}

/// Two records of principal 7, each a Create that was told the next serial. The moment of the second is
/// before that of the first.
const BACK: &[u8] =
    b"S4DJRNL1\x00\x00\x00\x00\x00\x00\x00\x0a\x00\x00\x00\x01\x00\x00\x00\x00\x00\x00\x00\
      \x00\x00\x00\x00\x00\x00\x00\x00\x00\x00\x00\x00\x00\x00\x00\x00\x00\x1f\xa2\x99\xb0\
      ,CIB\x17\xedl\xf8\x87\xfa\x00\x5cu\x08Xz\xff\xd4\xbb\x12\xcaz15\xb4a)\x16\x00\x00\
      \x00,\x00\x00\x00\x00\x00\x00\x00\x01\x00\x00\x00\x00\x00\x00\x00\x06\x00\x00\x00\
      \x07\x00\x00\x00\x00\x01\x00\x00\x00\x02\x01\x00\x00\x00\x00\x09\x01\x00\x00\x00\x07\
      \x00\x00\x00\x01\xa3\xfdf`\xbd>\xe8\x19\x9c\x88|\x04\x0d\xddQk\x98v\x88\x19\xd1\xac\
      \x84I\xd0Z\xe0\xa2.\xd6E\xf4\x00\x00\x00,\x00\x00\x00\x00\x00\x00\x00\x01\x00\x00\
      \x00\x00\x00\x00\x00\x05\x00\x00\x00\x07\x00\x00\x00\x00\x01\x00\x00\x00\x02\x01\x00\
      \x00\x00\x00\x09\x01\x00\x00\x00\x07\x00\x00\x00\x02;\xf6H\x931\xdb+\xb6Y\xf6}\x13\
      \x1bT\xdc4\xd9\xdb\xf1\xd4En\xf0\x05\x02\xeb\x0d\xd5\x1aT\xca\xc5";

#[test]
fn a_moment_that_goes_back_is_found(rt: HostRuntime) -> Result<(), Fail> {
    let alloc = rt.alloc();
    let (heading, mut source) = Source::open(alloc, BACK)?;
    let header = heading.header;
    let cells = look(alloc, header.window, header.cells, &mut source)?;
    let looked = cells.first().ok_or("a cell")?;
    assert_eq!(rt; looked.replayed(), Replayed::GoesBack(1));
    Ok(())
}

/// Two records of principal 2: a Create by version 2, and a Write by version 1.
const BOTH: &[u8] =
    b"S4DJRNL1\x00\x00\x00\x00\x00\x00\x00\x0a\x00\x00\x00\x01\x00\x00\x00\x00\x00\x00\x00\
      \x00\x00\x00\x00\x00\x00\x00\x00\x00\x00\x00\x00\x00\x00\x00\x00\x00\x1f\xa2\x99\xb0\
      ,CIB\x17\xedl\xf8\x87\xfa\x00\x5cu\x08Xz\xff\xd4\xbb\x12\xcaz15\xb4a)\x16\x00\x00\
      \x00,\x00\x00\x00\x00\x00\x00\x00\x01\x00\x00\x00\x00\x00\x00\x00\x05\x00\x00\x00\
      \x02\x00\x00\x00\x00\x02\x00\x00\x00\x02\x01\x00\x00\x00\x00\x09\x01\x00\x00\x00\x02\
      \x00\x00\x00\x01\x0dBa\x17\xbe\xf8\x0b\xb6\xe2\x050x\x1e\xf6)\xafsfk\xcdP4\xbat\x137\
      \x92Z\xb4D6\xfc\x00\x00\x002\x00\x00\x00\x00\x00\x00\x00\x01\x00\x00\x00\x00\x00\x00\
      \x00\x06\x00\x00\x00\x02\x00\x00\x00\x00\x01\x00\x00\x00\x10\x04\x00\x00\x00\x02\x00\
      \x00\x00\x01\x00\x00\x00\x00\x00\x01a\x00\x00\x00\x01\x00\x96\x04\xfb\x0c\xe2\x8b\
      \xe8\xbb\xcd\x1d\xf6[\x19\x9c\x0ar\x1fM\xe1\xcf\xdc~\xcf\xde\xb4\xb4,1/\x1cm\x96";

/// Their scripts, whichever version the first line gives: the line of a caller who speaks the other one
/// says so.
const SCRIPTS: [(WireVersion, &[u8]); 2] = [
    (
        WireVersion::One,
        b"window 10\n5 2/2 create 0\n6 2 write 2.0.1 0 61\n",
    ),
    (
        WireVersion::Two,
        b"window 10 wire 2\n5 2 create 0\n6 2/1 write 2.0.1 0 61\n",
    ),
];

#[test]
fn callers_of_both_versions_have_a_script(rt: HostRuntime) -> Result<(), Fail> {
    let alloc = rt.alloc();
    for (version, wanted) in &SCRIPTS {
        let (_, source) = Source::open(alloc, BOTH)?;
        let mut merge = Merge::new(alloc, source, 1)?;
        let opening = Opening {
            window: 10,
            version: *version,
        };
        let mut written = Vec::new(alloc);
        write_script(alloc, &opening, &Span::whole(), &mut merge, &mut written)?;
        assert!(rt; written.as_slice() == *wanted);
    }
    Ok(())
}
