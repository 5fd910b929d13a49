//! Cells, line by line: what is asked of them, and what comes of it. Where a growth is refused no cell
//! changes, and the same is asked again.

ghost use Rattle.std.specs.Prelude.{◌≤◌};
ghost use Rattle.s4_types.specs.Play.{last_of};
ghost use Rattle.s4_cells.specs.Many.{Each};

use s4_calls_for_tests::asked::{Told, What, caller, reply, request};
use s4_calls_for_tests::same::same;
use s4_cells::{Cell, cut_all, wide};
use s4_types::{Moment, Refusal, Reply};
use std::alloc::{AllocError, Global};
use std::test::Fail;

/// What is done with several cells, and what comes of it.
pub enum Line {
    /// With each of them.
    Each(Act),
    /// With the one of that number.
    One(usize, Act),
    /// The administrator asks all of them at once, no sooner than at a moment. Each has so many records
    /// before, and one more then.
    Wide(u64, What, usize),
    /// All of them, which so many records went of, are cut at a moment, at that one.
    Cut(u64, u64, u64),
}

/// What is done with a cell, and what comes of it.
pub enum Act {
    /// Principal 7 asks it at a moment.
    Step(u64, What, Told),
    /// It tells what it would answer, which leaves no record. Then it gives that answer twice, which leaves
    /// one.
    Twice(u64, What, Told),
    /// It frees at most so many values: so many.
    Sweep(u64, u64),
    /// It has this window, and no record.
    Fresh(u64),
    /// Its newest record is of that moment.
    Last(u64),
    /// It was cut at a moment: so many records went, and so many are left, the first of that moment.
    Left(u64, u64, usize, u64),
}

/// So many cells with this window.
pub fn open(alloc: Global, count: usize, window: u64) -> Result<Vec<Cell>, AllocError> {
    let mut cells = Vec::new(alloc);
    for _ in 0..count {
        cells.push(Cell::open(alloc, window)?)?;
    }
    Ok(cells)
}

/// That all lines come out as they have to.
pub fn check(alloc: Global, cells: &mut [Cell], lines: &[Line]) -> Result<(), Fail> {
    for line in lines {
        match line {
            Line::Each(act) => {
                for place in 0..cells.len() {
                    check_act(alloc, &mut cells[place], act)?;
                }
            }
            Line::One(place, act) => match cells.get_mut(*place) {
                Some(cell) => check_act(alloc, cell, act)?,
                None => return Err("a cell".into()),
            },
            Line::Wide(moment, what, count) => check_wide(alloc, cells, *moment, what, *count)?,
            Line::Cut(moment, gone, at) => check_cut(cells, *moment, *gone, *at)?,
        }
    }
    Ok(())
}

fn check_act(alloc: Global, cell: &mut Cell, act: &Act) -> Result<(), Fail> {
    match act {
        Act::Step(moment, what, told) => check_step(alloc, cell, *moment, what, told),
        Act::Twice(moment, what, told) => check_twice(alloc, cell, *moment, what, told),
        Act::Sweep(most, freed) => same("what is freed", &cell.sweep(*most), freed),
        Act::Fresh(window) => {
            same("the window", &cell.opened(), window)?;
            same("the newest record", &cell.last(), &Moment::new(0))?;
            same("how many records", &cell.history().len(), &0)
        }
        Act::Last(moment) => same("the newest record", &cell.last(), &Moment::new(*moment)),
        Act::Left(cut, gone, count, first) => {
            same("how many went", &cell.gone(), gone)?;
            same("the cut", &cell.cut_at(), &Moment::new(*cut))?;
            same("the window left", &cell.window_left().ticks(), &10)?;
            same(
                "the floor left",
                &cell.window_left().floor(),
                &Moment::new(0),
            )?;
            same("how many are left", &cell.history().len(), count)?;
            let oldest = cell.history().front().ok_or("a record")?;
            same("the oldest", &oldest.moment, &Moment::new(*first))
        }
    }
}

/// That principal 7 is answered so at a moment.
pub fn check_step(
    alloc: Global,
    cell: &mut Cell,
    moment: u64,
    what: &What,
    told: &Told,
) -> Result<(), Fail> {
    let by = caller(7).ok_or("a caller")?;
    let request = request(alloc, what).ok_or("a request")?;
    let wanted = reply(alloc, told).ok_or("a reply")?;
    let moment = Moment::new(moment);
    let count = cell.history().len();
    for _ in 0..2u8 {
        if request.is_wide(&by) || cell.last() > moment {
            return Err("an ordinary request in time".into());
        }
        let found = cell.step(moment, by, &request);
        if found != Reply::Refused(Refusal::NoMemory) {
            return same("the reply", &found, &wanted);
        }
        same(
            "how many records without memory",
            &cell.history().len(),
            &count,
        )?;
    }
    Err("no memory".into())
}

/// That principal 7 would be answered so at a moment, and then is.
pub fn check_twice(
    alloc: Global,
    cell: &mut Cell,
    moment: u64,
    what: &What,
    told: &Told,
) -> Result<(), Fail> {
    let by = caller(7).ok_or("a caller")?;
    let request = request(alloc, what).ok_or("a request")?;
    let wanted = reply(alloc, told).ok_or("a reply")?;
    let moment = Moment::new(moment);
    if request.is_wide(&by) || cell.last() > moment {
        return Err("an ordinary request in time".into());
    }
    let count = cell.history().len();
    let answer = cell.answer(moment, by, &request)?;
    same("the answer", &answer, &wanted)?;
    same(
        "how many records behind an answer",
        &cell.history().len(),
        &count,
    )?;
    let twice = cell.step_with_copy(moment, by, &request)?;
    same("the reply", &twice.reply, &wanted)?;
    same("its copy", &twice.copy, &wanted)?;
    same(
        "how many records",
        &cell.history().len(),
        &count.saturating_add(1),
    )
}

// The latest of a moment and the last ones of the cells.
fn latest(cells: &[Cell], from: u64) -> Moment
    ensures { Each (λ c. last_of c.history ≤ result) cells.now }
{
    let mut latest = Moment::new(from);
    for place in 0..cells.len() {
        if latest < cells[place].last() {
            latest = cells[place].last();
        }
    }
    latest
}

/// That the administrator's request is done in all cells, each of which has so many records before.
pub fn check_wide(
    alloc: Global,
    cells: &mut [Cell],
    moment: u64,
    what: &What,
    count: usize,
) -> Result<(), Fail> {
    let by = caller(0).ok_or("a caller")?;
    let request = request(alloc, what).ok_or("a request")?;
    for _ in 0..2u8 {
        if cells.is_empty() || !request.is_wide(&by) {
            return Err("a wide request".into());
        }
        let at = latest(cells, moment);
        let found = wide(cells, at, by, &request);
        if found != Reply::Refused(Refusal::NoMemory) {
            same("the reply", &found, &Reply::Done)?;
            return check_counts(cells, count.saturating_add(1));
        }
        check_counts(cells, count)?;
    }
    Err("no memory".into())
}

// That each cell has so many records.
fn check_counts(cells: &[Cell], count: usize) -> Result<(), Fail> {
    for cell in cells {
        same("how many records", &cell.history().len(), &count)?;
    }
    Ok(())
}

// That all cells, which so many records went of, are cut at that moment.
fn check_cut(cells: &mut [Cell], moment: u64, gone: u64, at: u64) -> Result<(), Fail> {
    if cells.is_empty() {
        return Err("a cell".into());
    }
    for cell in &*cells {
        same("how many went before", &cell.gone(), &gone)?;
    }
    let found = cut_all(cells, Moment::new(moment));
    same("the cut", &found, &Moment::new(at))
}
