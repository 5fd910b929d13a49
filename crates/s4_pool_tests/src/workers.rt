//! Calls as jobs, which two workers take.

use crate::fronts::ask;
use crate::gate::{Holding, Marks};
use crate::lines::Call;
use crate::parts::{Part, take_parts, wait};
use s4_calls_for_tests::places::{Place, Task, places};
use s4_jobs::{Job, Jobs, work};
use s4_pool::{Front, Names, Pass};
use std::alloc::Global;
use std::sync::Wait;
use std::sync::atomic::Ordering;
use std::test::Fail;
use std::thread::Threads;

/// One thread puts the calls, and each of the others makes those that it takes with a pass.
pub fn by_workers<N: Names + Send + Sync, R: Threads + Wait + Sync>(
    rt: &R,
    alloc: Global,
    marks: &Marks,
    front: &Front<Holding<'_>, N>,
    passes: &mut Vec<Pass<N>>,
    calls: &[Call],
) -> Result<(), Fail> {
    let (jobs, seats) = Jobs::open(alloc, 4, 3)?;
    let parts = parts_of(alloc, places(alloc, &jobs, seats)?, passes)?;
    take_parts(rt, alloc, marks, front, parts, calls, passes)
}

// A part for each place: one puts, and each other works with a pass.
fn parts_of<'a, N: Names>(
    alloc: Global,
    places: Vec<Place<'a>>,
    passes: &mut Vec<Pass<N>>,
) -> Result<Vec<Part<'a, N>>, Fail> {
    let mut parts = Vec::new(alloc);
    for place in places {
        let part = if place.puts {
            Part::Puts(place)
        } else {
            let pass = passes.pop().ok_or("a pass")?;
            Part::Works(place, pass)
        };
        parts.push(part)?;
    }
    Ok(parts)
}

/// Puts the call that is held, once that is at the gate the call that lets it go on, and two stops. Marks
/// where one of them isn't put.
pub fn put_jobs<R: Wait>(rt: &R, marks: &Marks, place: Place<'_>) {
    let Place { jobs, mut seat, .. } = place;
    let mut put = jobs.put(rt, &mut seat, Job::Run(Task(0))).is_ok();
    wait(rt, marks);
    put = put && jobs.put(rt, &mut seat, Job::Run(Task(1))).is_ok();
    put = put && jobs.put(rt, &mut seat, Job::Stop).is_ok();
    put = put && jobs.put(rt, &mut seat, Job::Stop).is_ok();
    if !put {
        marks.marked.store(1, Ordering::SeqCst);
    }
}

/// Makes the calls that it takes, and lets the gate's call go on after the second.
pub fn serve_jobs<N: Names, R: Wait>(
    rt: &R,
    alloc: Global,
    marks: &Marks,
    front: &Front<Holding<'_>, N>,
    place: Place<'_>,
    pass: Pass<N>,
    calls: &[Call],
) -> Pass<N> {
    let Place { jobs, mut seat, .. } = place;
    let mut pass = pass;
    work(rt, jobs, &mut seat, |task: Task| {
        if let Some(call) = calls.get(task.0 as usize) {
            let _reply = ask(rt, alloc, front, &mut pass, (call.1, call.2), &call.3);
        }
        if task.0 == 1 {
            marks.served.store(1, Ordering::SeqCst);
        }
    });
    pass
}
