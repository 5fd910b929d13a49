//! The requests of a row, given to a drive one by one. Where one is answered that there was no
//! memory, the drive is as before, and the same request then gets the row's reply.

use crate::calls::asked::{asked_in, is_no_memory, text_of};
use crate::calls::case::Case;
use crate::texts::{invalid, text};
use crate::ways::scripts::Script;
use s4_arena::Arena;
use s4_drive::Drive;
use s4_pool::Asked;
use s4_script::Line;
use s4_store::{PlainStore, Store};
use s4_types::{Moment, Principal, Purse, PurseNo, Reply, Version};
use std::io;

/// The script of a row, and what is replied.
#[derive(Drop)]
struct Row {
    script: Script,
    replies: Vec<u8>,
}

impl Row {
    fn read(rt: &HostRuntime, name: &str) -> io::Result<Row> {
        Ok(Row {
            script: Script::read(rt.alloc(), &text(rt, name, "script")?)?,
            replies: text(rt, name, "expected")?,
        })
    }
}

pub fn over_plain_store(case: &mut Case, name: &str) -> io::Result<()> {
    let row = Row::read(case.rt, name)?;
    let store = PlainStore::new(case.alloc());
    give_all(
        case,
        &mut Drive::new(case.alloc(), store, row.script.window),
        &row,
    )
}

pub fn over_arena(case: &mut Case, name: &str) -> io::Result<()> {
    let row = Row::read(case.rt, name)?;
    let store = Arena::new(case.alloc());
    give_all(
        case,
        &mut Drive::new(case.alloc(), store, row.script.window),
        &row,
    )
}

/// Gives a drive the requests of a row, and compares its replies.
fn give_all<S: Store<Version>>(case: &mut Case, drive: &mut Drive<S>, row: &Row) -> io::Result<()> {
    let mut told = String::new(case.alloc());
    for line in &row.script.lines {
        give(case, drive, line, &mut told)?;
    }
    let is_same = told.as_bytes() == row.replies.as_slice();
    case.check(is_same, "other replies");
    Ok(())
}

/// Gives a drive the request of a line, and puts the line of its reply behind those of before.
fn give<S: Store<Version>>(
    case: &mut Case,
    drive: &mut Drive<S>,
    line: &Line,
    told: &mut String,
) -> io::Result<()> {
    let asked = asked_in(line)?;
    let reply = replied(case, drive, &asked)?;
    told.push_str(text_of(case.alloc(), &reply)?.as_str())?;
    Ok(told.push('\n')?)
}

/// The reply to a request, which is given again where there was no memory.
fn replied<S: Store<Version>>(
    case: &mut Case,
    drive: &mut Drive<S>,
    asked: &Asked,
) -> io::Result<Reply> {
    let before = stand_of(drive)?;
    let reply = step(case, drive, asked)?;
    if !is_no_memory(&reply) {
        let is_longer = drive.history().len() > before.records;
        case.check(is_longer, "a request left no record");
        return Ok(reply);
    }
    case.refuse_by_reply();
    case.check(
        stand_of(drive)? == before,
        "without memory the drive changed",
    );
    case.is_marking = false;
    let reply = step(case, drive, asked);
    case.is_marking = true;
    reply
}

/// The call that the case is about.
fn step<S: Store<Version>>(case: &Case, drive: &mut Drive<S>, asked: &Asked) -> io::Result<Reply> {
    if drive.last() <= asked.clock {
        case.begins();
        let reply = drive.step(asked.clock, asked.caller, &asked.request);
        case.ends();
        Ok(reply)
    } else {
        Err(invalid())
    }
}

/// The purses of the rows.
const PURSES: [(u32, u8); 3] = [(7, 0), (9, 0), (9, 1)];

/// What a drive tells of itself.
#[derive(Clone, Copy, PartialEq)]
struct Stand {
    records: usize,
    used: u64,
    spent: [u32; 3],
    last: Moment,
}

fn stand_of<S: Store<Version>>(drive: &Drive<S>) -> io::Result<Stand> {
    let [one, two, three] = PURSES;
    Ok(Stand {
        records: drive.history().len(),
        used: drive.used(),
        spent: [spent(drive, one)?, spent(drive, two)?, spent(drive, three)?],
        last: drive.last(),
    })
}

fn spent<S: Store<Version>>(drive: &Drive<S>, (creator, number): (u32, u8)) -> io::Result<u32> {
    match (Principal::new(creator), PurseNo::new(number)) {
        (Some(creator), Some(number)) => Ok(drive.spent(&Purse { creator, number })),
        _ => Err(invalid()),
    }
}
