//! Each public call of the audit, and a page at its border.

use crate::asked::{Asked, Told, record};
use s4_audit::Audit;
use s4_types::{Moment, Refusal, Right};
use s4_values_for_tests::{caller, principal};
use std::alloc::Global;
use std::test::Fail;

/// What is shown: how many lines, the first one's moment, and whether there are more.
type Shown = (usize, Option<u64>, bool);

enum Step {
    /// A principal asks in vain for the data of an object: the moment, who asks, and the creator of
    /// the object.
    Add(u64, u32, u32),
    /// Principal 7 asks so at each moment from 0 on, so often.
    AddMany(u64),
    /// So many of the oldest records go.
    Cut(usize),
    /// Of the range of principal 9 this is shown: by whom it is asked for, how many lines are
    /// skipped, and the horizon.
    Page(u32, u32, u64, Shown),
    /// There are so many records.
    Len(usize),
    /// The moment of the newest one.
    Last(u64),
    /// How many have gone in all.
    First(u64),
    /// The moment of the record at a place.
    At(u64, Option<u64>),
}

/// Pages of four records: an ordinary caller sees its own alone, also where it skips; the
/// administrator sees all but what is below the horizon.
const OF_FOUR: [Step; 11] = [
    Step::Add(5, 7, 9),
    Step::Add(6, 9, 9),
    Step::Add(7, 7, 8),
    Step::Add(8, 7, 9),
    Step::Len(4),
    Step::Last(8),
    Step::At(1, Some(6)),
    Step::Page(7, 0, 0, (2, Some(5), false)),
    Step::Page(7, 1, 0, (1, Some(8), false)),
    Step::Page(0, 0, 0, (3, Some(5), false)),
    Step::Page(0, 0, 6, (2, Some(6), false)),
];

/// Pages of 33 records of principal 7: a page has 32 lines.
const OF_MANY: [Step; 3] = [
    Step::AddMany(33),
    Step::Page(7, 0, 0, (32, Some(0), true)),
    Step::Page(7, 1, 0, (32, Some(1), false)),
];

/// A cut leaves the others at their places, where the next ones go on, and all may go.
const CUTS: [Step; 29] = [
    Step::Add(5, 7, 9),
    Step::Add(6, 9, 9),
    Step::Add(7, 7, 8),
    Step::Add(8, 7, 9),
    Step::Cut(2),
    Step::First(2),
    Step::At(2, Some(7)),
    Step::At(1, None),
    Step::Page(7, 0, 0, (1, Some(8), false)),
    Step::Page(0, 0, 0, (1, Some(8), false)),
    Step::Add(9, 9, 9),
    Step::Add(10, 7, 9),
    Step::Cut(0),
    Step::First(2),
    Step::At(2, Some(7)),
    Step::At(1, None),
    Step::Page(7, 0, 0, (2, Some(8), false)),
    Step::Page(0, 0, 0, (3, Some(8), false)),
    Step::Cut(4),
    Step::First(6),
    Step::At(6, None),
    Step::At(5, None),
    Step::Page(0, 0, 0, (0, None, false)),
    Step::Add(11, 7, 9),
    Step::Cut(0),
    Step::First(6),
    Step::At(6, Some(11)),
    Step::At(5, None),
    Step::Page(7, 0, 0, (1, Some(11), false)),
];

fn add(alloc: Global, audit: &mut Audit, tick: u64, who: u32, creator: u32) -> Result<(), Fail> {
    let (asked, told) = (
        Asked::Read(0, 1, None),
        Told::Refused(Refusal::Denied(Right::Read)),
    );
    let added = record(alloc, &(tick, who, (creator, 0), 1, asked, told))?;
    audit.reserve()?;
    if !audit.has_room() || added.moment < audit.last() {
        return Err(Fail::from("a record that can't be added"));
    }
    audit.append(added);
    Ok(())
}

fn shown(alloc: Global, audit: &Audit, who: u32, skip: u32, horizon: u64) -> Result<Shown, Fail> {
    let page = audit.page(
        alloc,
        &caller(who)?,
        principal(9)?,
        skip,
        Moment::new(horizon),
    )?;
    let lines = page.lines.as_slice();
    let first = match lines.first() {
        Some(line) => Some(line.moment.tick()),
        None => None,
    };
    Ok((lines.len(), first, page.more))
}

/// Takes a step, and tells whether it could be taken and the answer is what is wanted.
fn holds(alloc: Global, audit: &mut Audit, step: &Step) -> Result<bool, Fail> {
    match *step {
        Step::Add(tick, who, creator) => {
            add(alloc, audit, tick, who, creator)?;
            Ok(true)
        }
        Step::AddMany(count) => {
            for tick in 0..count {
                add(alloc, audit, tick, 7, 9)?;
            }
            Ok(true)
        }
        Step::Cut(count) => {
            if count > audit.len() {
                return Ok(false);
            }
            audit.cut(count);
            Ok(true)
        }
        Step::Page(who, skip, horizon, wanted) => {
            Ok(shown(alloc, audit, who, skip, horizon)? == wanted)
        }
        Step::Len(wanted) => {
            let is_so = audit.len() == wanted && audit.records().len() == wanted;
            Ok(is_so && audit.is_empty() == (wanted == 0))
        }
        Step::Last(wanted) => Ok(audit.last().tick() == wanted),
        Step::First(wanted) => Ok(audit.first() == wanted),
        Step::At(place, wanted) => match audit.get(place) {
            Some(found) => Ok(wanted == Some(found.moment.tick())),
            None => Ok(wanted.is_none()),
        },
    }
}

#[test]
fn pages_of_32_lines_and_cuts_keep_places(rt: HostRuntime) -> Result<(), Fail> {
    for (what, steps) in [
        ("four", OF_FOUR.as_slice()),
        ("many", OF_MANY.as_slice()),
        ("cuts", CUTS.as_slice()),
    ] {
        let mut audit = Audit::new(rt.alloc());
        for (index, step) in steps.iter().enumerate() {
            assert!(rt;
                holds(rt.alloc(), &mut audit, step)?,
                "{what}, step {index}"
            );
        }
    }
    Ok(())
}
