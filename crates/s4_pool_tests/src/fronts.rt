//! The runner of fronts: it carries out what stands in lines.

ghost use Rattle.std.specs.Prelude.{◌≡◌, ◌<◌, ◌≤◌};

use crate::closed::close;
use crate::counted::forget;
use crate::gate::{Holding, Marks};
use crate::lines::{Call, End, Line};
use crate::often::ask_often;
use crate::parts::together;
use s4_calls_for_tests::asked::{Told, What, asked, reply};
use s4_calls_for_tests::same::same;
use s4_pool::{Blank, Front, Names, Pass};
use s4_types::{Moment, Record, Reply};
use std::alloc::Global;
use std::marker::Brand;
use std::slice;
use std::sync::Wait;
use std::sync::atomic::Ordering;
use std::test::Fail;
use std::thread::Threads;

/// That a front of so many cells, with a window and so many passes, comes out as it has to.
pub fn check<R: Threads + Wait + Sync>(
    rt: &R,
    alloc: Global,
    opened: (usize, u64, u64),
    lines: &[Line],
    end: &End,
) -> Result<(), Fail> {
    let (cells, _, passes) = opened;
    if cells == 0 || cells > 16 || passes == 0 || passes > 32 {
        return Err("cells and passes".into());
    }
    let marks = Marks::new();
    let blank = Blank::new(alloc, cells)?;
    check_front::<Brand, R>(rt, alloc, &marks, blank, opened, lines, end)
}

// The same with this ledger.
fn check_front<N: Names + Send + Sync, R: Threads + Wait + Sync>(
    rt: &R,
    alloc: Global,
    marks: &Marks,
    blank: Blank<Record>,
    opened: (usize, u64, u64),
    lines: &[Line],
    end: &End,
) -> Result<(), Fail>
    requires ledger { blank.ledger ≡ N.ledger }
    requires cells { N.ledger.words ≡ opened.0 }
    requires window { N.window ≡ opened.1 }
    requires passes { N.passes ≡ opened.2 }
    requires some { (0 < opened.0) × (0 < opened.2) }
    requires few { (opened.0 ≤ 16) × (opened.2 ≤ 32) }
{
    let (cells, window, passes) = opened;
    let gate = Holding { marks };
    let (mut front, mut passes) = Front::<Holding, N>::open(
        alloc, window, cells, passes, gate, blank,
    )?;
    same("the window", &front.window(), &window)?;
    for line in lines {
        carry_out(rt, alloc, marks, &mut front, cells, &mut passes, line)?;
    }
    same(
        "what the gate marked",
        &marks.marked.load(Ordering::SeqCst),
        &0,
    )?;
    close(alloc, front, passes, end)
}

fn carry_out<N: Names + Send + Sync, R: Threads + Wait + Sync>(
    rt: &R,
    alloc: Global,
    marks: &Marks,
    front: &mut Front<Holding<'_>, N>,
    cells: usize,
    passes: &mut Vec<Pass<N>>,
    line: &Line,
) -> Result<(), Fail>
    requires { front.old.cells ≡ cells }
    ensures { front.new.cells ≡ cells }
{
    match line {
        Line::Calls(calls) => serve_all(rt, alloc, &*front, passes.as_mut_slice(), calls),
        Line::Forget(number, count, left, last) => {
            let pass = passes.get_mut(*number).ok_or("a pass")?;
            forget(pass, *count);
            same("how many calls are left", &pass.receipts().len(), left)?;
            same("the last call", &pass.last().tick(), last)
        }
        Line::Cut(moment, at) => {
            let found = front.cut(rt, Moment::new(*moment));
            same("the cut", &found.tick(), at)
        }
        Line::CutOne(cell, moment, at) if *cell < cells => {
            let found = front.cut_one(rt, *cell, Moment::new(*moment));
            same("the cut of a cell", &found.tick(), at)
        }
        Line::Sweep(cell, most, freed) if *cell < cells => {
            same("what is freed", &front.sweep(rt, *cell, *most), freed)
        }
        Line::CutOne(..) | Line::Sweep(..) => Err("a cell".into()),
        Line::FreedBehind(most) => {
            front.set_freed_behind(*most);
            Ok(())
        }
        Line::Since(cell, place, most, wanted) => {
            let found = records_since(rt, &*front, *cell, *place, *most)?;
            same("the records from a place on", &found, wanted)
        }
        Line::Often(what) => {
            let pass = passes.first_mut().ok_or("a pass")?;
            ask_often(rt, alloc, &*front, cells, pass, what)
        }
        Line::Arm => {
            marks.armed.store(1, Ordering::SeqCst);
            Ok(())
        }
        Line::Together(what) => together(rt, alloc, marks, &*front, passes, what),
    }
}

/// What is replied to a request. None where there is no memory for the request.
pub fn ask<N: Names, R: Wait>(
    rt: &R,
    alloc: Global,
    front: &Front<Holding<'_>, N>,
    pass: &mut Pass<N>,
    (who, tick): (u32, u64),
    what: &What,
) -> Option<Reply> {
    let asked = asked(alloc, who, tick, what)?;
    Some(front.serve(rt, pass, asked.caller, asked.clock, &asked.request))
}

/// That this is replied to a request.
pub fn serve<N: Names, R: Wait>(
    rt: &R,
    alloc: Global,
    front: &Front<Holding<'_>, N>,
    pass: &mut Pass<N>,
    at: (u32, u64),
    what: &What,
    told: &Told,
) -> Result<(), Fail> {
    let found = ask(rt, alloc, front, pass, at, what).ok_or("a request")?;
    let wanted = reply(alloc, told).ok_or("a reply")?;
    same("the reply", &found, &wanted)
}

// That these calls have their replies and receipts, one after the other.
fn serve_all<N: Names, R: Wait>(
    rt: &R,
    alloc: Global,
    front: &Front<Holding<'_>, N>,
    passes: &mut [Pass<N>],
    calls: &[Call],
) -> Result<(), Fail> {
    for call in calls {
        let pass = passes.get_mut(call.0).ok_or("a pass")?;
        serve(rt, alloc, front, pass, (call.1, call.2), &call.3, &call.4)?;
        check_receipts(alloc, pass, slice::from_ref(call))?;
    }
    Ok(())
}

/// That the last receipts of a pass are those of its own ones of these calls.
pub fn check_receipts<N: Names>(alloc: Global, pass: &Pass<N>, calls: &[Call]) -> Result<(), Fail> {
    let mut place = pass.receipts().len();
    for call in calls.iter().rev() {
        if call.0 as u64 != pass.number() {
            continue;
        }
        place = place.checked_sub(1).ok_or("a receipt")?;
        let receipt = pass.receipts().get(place).ok_or("a receipt")?;
        let found = (receipt.moment.tick(), receipt.cell, receipt.place);
        same("the receipt", &found, &call.5)?;
        let wanted = reply(alloc, &call.4).ok_or("a reply")?;
        same("the reply of the receipt", &receipt.reply, &wanted)?;
    }
    Ok(())
}

// The place of the first of these records, how many they are, and the moment of the last.
fn records_since<N: Names, R: Wait>(
    rt: &R,
    front: &Front<Holding<'_>, N>,
    cell: usize,
    place: u64,
    most: usize,
) -> Result<Option<(u64, usize, Option<u64>)>, Fail> {
    let Some(found) = front.records_since(rt, cell, place, most)? else {
        return Ok(None);
    };
    let newest = match found.records.last() {
        Some(record) => Some(record.moment.tick()),
        None => None,
    };
    Ok(Some((found.first, found.records.len(), newest)))
}
