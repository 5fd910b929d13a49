//! Journals that are written into files.

use crate::journals::blocks::{Made, record_of};
use crate::journals::disks::{AMPLE, Narrow, on_disk};
use crate::journals::example::{FIRST, FRONT, JOURNAL, LAST_SUM, WHOLE, header, link, record};
use s4_journal::{Entries, Entry, JournalFormat, Next, Sum, open_heading};
use s4_scribe::{Scribe, ScribeFault, file_path};
use s4_types::{Record, WireVersion};
use std::alloc::Global;
use std::process::Abort;
use std::test::Fail;
use std::{fs, process};

/// How what is done ends.
type Done = Result<(), ScribeFault>;

const OUT_OF_TURN: Done = Err(ScribeFault::OutOfTurn);

const WRITING: Done = Err(ScribeFault::Writing);

const SYNCING: Done = Err(ScribeFault::Syncing);

/// What is done with a scribe, or happens to the disk of its file, and how that ends; or what is seen.
enum Deed {
    /// As the record of that cell with that number, that of the example's first block is written, or
    /// that of its second one.
    Write(u32, u64, usize, Done),
    Sync(Done),
    /// It goes on in another file, on a disk with that room.
    GoOn(usize, Done),
    /// The disk has room for so many more bytes.
    Room(usize),
    /// From now on no sync works, or each one.
    Breaks(bool),
    /// That is the number of the next record of that cell.
    Next(usize, Option<u64>),
    /// It is known to last up to that place, its file is lost or not, and so many bytes aren't synced.
    Lasts(u64, bool, usize),
}

/// What is done on each disk that has room for so many bytes at first: from this number on, and below
/// that one.
struct Case {
    room: usize,
    limit: usize,
    /// How a journal is begun there.
    begun: Done,
    deeds: &'static [Deed],
    /// How much of the example the first file has. Where it isn't all, another file has the rest.
    first: usize,
}

const CASES: [Case; 4] = [
    // A disk without room for a header has no journal.
    Case {
        room: 0,
        limit: FRONT,
        begun: WRITING,
        deeds: &[],
        first: 0,
    },
    // Records are written in turn.
    Case {
        room: AMPLE,
        limit: AMPLE + 1,
        begun: Ok(()),
        deeds: &[
            Deed::Write(3, 1, 0, OUT_OF_TURN),
            Deed::Write(3, 0, 0, Ok(())),
            Deed::Write(3, 0, 0, OUT_OF_TURN),
            Deed::Write(4, 0, 1, OUT_OF_TURN),
            Deed::Write(0, 0, 1, Ok(())),
            Deed::Sync(Ok(())),
            Deed::Lasts(333, false, 0),
            Deed::Next(3, Some(1)),
            Deed::Next(0, Some(1)),
            Deed::Next(1, Some(0)),
            Deed::Next(4, None),
        ],
        first: WHOLE,
    },
    // A disk that is full after any byte of a block holds up the journal, and what stands there at the
    // end is what would have stood there without.
    Case {
        room: FRONT,
        limit: FIRST,
        begun: Ok(()),
        deeds: &[
            Deed::Write(3, 0, 0, WRITING),
            Deed::Write(3, 0, 0, WRITING),
            Deed::Next(3, Some(0)),
            Deed::Room(AMPLE),
            Deed::Write(3, 0, 0, Ok(())),
            Deed::Write(0, 0, 1, Ok(())),
        ],
        first: WHOLE,
    },
    // A file of which a sync failed takes nothing more. It goes on in another one at the place up to
    // which it is known to last.
    Case {
        room: AMPLE,
        limit: AMPLE + 1,
        begun: Ok(()),
        deeds: &[
            Deed::Sync(Ok(())),
            Deed::Lasts(172, false, 0),
            Deed::Write(3, 0, 0, Ok(())),
            Deed::Breaks(true),
            Deed::Sync(SYNCING),
            Deed::Breaks(false),
            Deed::Sync(SYNCING),
            Deed::Lasts(172, true, 80),
            Deed::Write(0, 0, 1, SYNCING),
            Deed::GoOn(10, WRITING),
            Deed::GoOn(AMPLE, Ok(())),
            Deed::Lasts(172, false, 80),
            Deed::Write(0, 0, 1, Ok(())),
            Deed::Sync(Ok(())),
            Deed::Lasts(333, false, 0),
        ],
        first: FRONT,
    },
];

#[test]
fn scribes_write_what_their_rows_tell(rt: HostRuntime) -> Result<(), Fail> {
    let id = process::id(rt.process());
    let path = format!(in rt.alloc(); "/tmp/s4d_first_{id}")?;
    let further = format!(in rt.alloc(); "/tmp/s4d_further_{id}")?;
    for case in &CASES {
        for room in case.room..case.limit {
            check_case(&rt, &rt, case, room, (path.as_str(), further.as_str()))?;
        }
    }
    fs::remove_file(&rt, path.as_str())?;
    Ok(fs::remove_file(&rt, further.as_str())?)
}

/// That each deed of a case ends as it tells, and what stands in the files then.
fn check_case<R: Abort>(
    rt: &R,
    files: &HostRuntime,
    case: &Case,
    room: usize,
    (path, further): (&str, &str),
) -> Result<(), Fail> {
    let alloc = files.alloc();
    let file = on_disk(files, path, room)?;
    let mut scribe = match Scribe::begin(alloc, file, &header(), &link()?, true) {
        Ok(scribe) => scribe,
        Err(fault) => {
            assert!(rt; case.begun == Err(fault), "{room}: {fault}");
            return Ok(());
        }
    };
    assert!(rt; case.begun.is_ok(), "{room}");
    for (place, deed) in case.deeds.iter().enumerate() {
        assert!(rt;
            is_done(files, &mut scribe, deed, further)?,
            "{room}: deed {place}"
        );
    }
    let (sum, end) = scribe.roll.sum();
    let stands = stands(files, sum, (path, further), case.first)?;
    assert!(rt; stands && end == WHOLE as u64, "{room}");
    Ok(())
}

/// Whether the example has that last sum, and stands in the files: so many bytes of it in the first, and
/// the others behind them or in the further one.
fn stands(
    files: &HostRuntime,
    sum: Sum,
    (path, further): (&str, &str),
    first: usize,
) -> Result<bool, Fail> {
    let mut written = fs::read(files, path)?;
    if first < WHOLE {
        written.truncate(first);
        written.extend_from_slice(&fs::read(files, further)?)?;
    }
    let journal = hex::decode(files.alloc(), JOURNAL)?;
    Ok(written == journal && journal.get(LAST_SUM..) == Some(sum.as_slice()))
}

/// Whether a deed ends as it tells.
fn is_done(
    files: &HostRuntime,
    scribe: &mut Scribe<Narrow>,
    deed: &Deed,
    further: &str,
) -> Result<bool, Fail> {
    let alloc = files.alloc();
    let scroll = &mut scribe.roll.scroll;
    match deed {
        Deed::Write(cell, place, which, done) => {
            let records = vec![in alloc; record(*which)?]?;
            Ok(scribe.write(alloc, *cell, *place, records) == *done)
        }
        Deed::Sync(done) => Ok(scroll.sync() == *done),
        Deed::GoOn(room, done) => Ok(scroll.go_on(on_disk(files, further, *room)?) == *done),
        Deed::Room(room) => {
            scroll.file.room = *room;
            Ok(true)
        }
        Deed::Breaks(breaks) => {
            scroll.file.broken = *breaks;
            Ok(true)
        }
        Deed::Next(cell, place) => Ok(scribe.place(*cell) == *place),
        Deed::Lasts(place, is_lost, unsynced) => Ok(
            scroll.lasting() == *place
                && scroll.is_lost() == *is_lost
                && scroll.unsynced.len() == *unsynced,
        ),
    }
}

const LARGE: Made = Made::Write(131050);

fn large(alloc: Global, count: usize) -> Result<Vec<Record>, Fail> {
    let mut records = Vec::new(alloc);
    for _ in 0..count {
        records.push(record_of(alloc, WireVersion::Two, &LARGE)?)?;
    }
    Ok(records)
}

/// Whether the file has a header, and so many blocks behind it, each with the entry of one large record of
/// cell 3, of which the last has that sum.
fn stand_alone(files: &HostRuntime, path: &str, count: usize, sum: Sum) -> Result<bool, Fail> {
    let alloc = files.alloc();
    let written = fs::read(files, path)?;
    let mut reader = match open_heading(&written) {
        Ok((_, reader)) => reader,
        Err(_) => return Ok(false),
    };
    let mut alone = true;
    for _ in 0..count {
        let next: Next<Entries> = reader.next_in(JournalFormat::Two, alloc)?;
        let Next::Block(one) = next else {
            return Ok(false);
        };
        let wanted = Entry::of(record_of(alloc, WireVersion::Two, &LARGE)?);
        alone = alone && one.cell() == 3 && matches!(one.entries(), [it] if it.is_same(&wanted));
    }
    Ok(alone && reader.rest.is_empty() && reader.sum == sum)
}

/// Records of which one block doesn't hold all stand each in one of its own.
#[test]
fn large_records_stand_alone(rt: HostRuntime) -> Result<(), Fail> {
    let alloc = rt.alloc();
    let path = format!(in alloc; "/tmp/s4d_large_{}", process::id(rt.process()))?;
    let file = on_disk(&rt, path.as_str(), 100 * AMPLE * AMPLE)?;
    let mut scribe = Scribe::begin(alloc, file, &header(), &link()?, true)?;
    scribe.write(alloc, 3, 0, large(alloc, 8)?)?;
    assert!(rt; scribe.place(3) == Some(8));
    assert!(rt; stand_alone(&rt, path.as_str(), 8, scribe.roll.sum().0)?);
    Ok(fs::remove_file(&rt, path.as_str())?)
}

#[test]
fn files_of_a_start_are_named(rt: HostRuntime) -> Result<(), Fail> {
    let alloc = rt.alloc();
    let first = file_path(alloc, "kept/1", "calls", 0)?;
    let further = file_path(alloc, "kept/1", "calls", 44)?;
    assert!(rt; first.as_str() == "kept/1/calls" && further.as_str() == "kept/1/calls-44");
    Ok(())
}
