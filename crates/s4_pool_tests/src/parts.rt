//! What threads do with a front, each with a pass of its own.

use crate::counted::call_often;
use crate::fronts::{ask, check_receipts};
use crate::gate::{Holding, Marks};
use crate::lines::{Call, Together};
use crate::workers::{by_workers, put_jobs, serve_jobs};
use s4_calls_for_tests::places::Place;
use s4_pool::{Front, Names, Pass};
use std::alloc::Global;
use std::sync::Wait;
use std::sync::atomic::Ordering;
use std::test::Fail;
use std::thread::{self, Threads};

/// What a thread does.
#[derive(Drop)]
pub enum Part<'a, N: Names> {
    /// It makes the calls of a pass.
    Calls(Pass<N>),
    /// It makes 105 calls.
    Often(Pass<N>),
    /// It makes the calls that it takes as jobs.
    Works(Place<'a>, Pass<N>),
    /// It puts calls as jobs.
    Puts(Place<'a>),
}

/// That all comes out as it has to.
pub fn together<N: Names + Send + Sync, R: Threads + Wait + Sync>(
    rt: &R,
    alloc: Global,
    marks: &Marks,
    front: &Front<Holding<'_>, N>,
    passes: &mut Vec<Pass<N>>,
    what: &Together,
) -> Result<(), Fail> {
    let calls: &[Call] = match what {
        Together::Jobs(calls) => return by_workers(rt, alloc, marks, front, passes, calls),
        Together::Calls(calls) => calls,
        Together::Often => &[],
    };
    let mut parts = Vec::new(alloc);
    for _ in 0..passes.len() {
        let pass = passes.pop().ok_or("a pass")?;
        let part = match what {
            Together::Often => Part::Often(pass),
            _ => Part::Calls(pass),
        };
        parts.push(part)?;
    }
    take_parts(rt, alloc, marks, front, parts, calls, passes)?;
    for pass in &*passes {
        check_receipts(alloc, pass, calls)?;
    }
    Ok(())
}

/// Has threads take these parts, of which there are three at most, and puts their passes to the others.
pub fn take_parts<N: Names + Send + Sync, R: Threads + Wait + Sync>(
    rt: &R,
    alloc: Global,
    marks: &Marks,
    front: &Front<Holding<'_>, N>,
    parts: Vec<Part<'_, N>>,
    calls: &[Call],
    passes: &mut Vec<Pass<N>>,
) -> Result<(), Fail> {
    let mut parts = parts;
    let (third, second, first) = (parts.pop(), parts.pop(), parts.pop());
    if !parts.is_empty() {
        return Err("three parts".into());
    }
    let (first, (second, third)) = thread::join(
        rt,
        || take_part(rt, alloc, marks, front, first, calls),
        || {
            thread::join(
                rt,
                || take_part(rt, alloc, marks, front, second, calls),
                || take_part(rt, alloc, marks, front, third, calls),
            )
        },
    );
    for pass in [first, second, third] {
        if let Some(pass) = pass {
            passes.push(pass)?;
        }
    }
    Ok(())
}

// What comes of a part, where there is one.
fn take_part<N: Names, R: Wait>(
    rt: &R,
    alloc: Global,
    marks: &Marks,
    front: &Front<Holding<'_>, N>,
    part: Option<Part<'_, N>>,
    calls: &[Call],
) -> Option<Pass<N>> {
    match part? {
        Part::Calls(mut pass) => {
            call_in_turn(rt, alloc, marks, front, &mut pass, calls);
            Some(pass)
        }
        Part::Often(mut pass) => {
            call_often(rt, alloc, front, &mut pass);
            Some(pass)
        }
        Part::Works(place, pass) => Some(serve_jobs(rt, alloc, marks, front, place, pass, calls)),
        Part::Puts(place) => {
            put_jobs(rt, marks, place);
            None
        }
    }
}

// Makes the pass's own calls of these.
fn call_in_turn<N: Names, R: Wait>(
    rt: &R,
    alloc: Global,
    marks: &Marks,
    front: &Front<Holding<'_>, N>,
    pass: &mut Pass<N>,
    calls: &[Call],
) {
    let number = pass.number();
    if number == 1 {
        wait(rt, marks);
    }
    for call in calls {
        if call.0 as u64 == number {
            let _reply = ask(rt, alloc, front, pass, (call.1, call.2), &call.3);
        }
    }
    let mark = if number == 0 {
        &marks.entered
    } else {
        &marks.served
    };
    mark.store(1, Ordering::SeqCst);
}

/// Waits until a call is at the gate, or was answered.
pub fn wait<R: Wait>(rt: &R, marks: &Marks) {
    for _ in rt.forever() {
        if marks.entered.load(Ordering::SeqCst) != 0 {
            return;
        }
        thread::yield_now();
    }
}
