//! Opening a queue with its seats.

ghost use Rattle.std.specs.Prelude.{◌≡◌, ◌<◌, ◌+◌, IfOk, OnOk, length};
ghost use Rattle.s4_jobs.specs.Seats.{AreAll, AreFresh, AreNewcomers, beginner};

use crate::numbered::Numbered;
use crate::queue::{Jobs, Line, NoMemory, Seat};
use crate::rule::Seats;
use crossbeam_utils::sync::EventCount;
use std::alloc::Global;
use std::collections::VecDeque;

impl<J: Numbered + Drop> Jobs<J> {
    /// A queue that holds at most `capacity` jobs, and its seats, by their numbers from 0. Both
    /// numbers have to be above 0. The room for what is left at the end is made here.
    pub fn open(
        alloc: Global,
        capacity: usize,
        seats: u64,
    ) -> Result<(Jobs<J>, Vec<Seat<J>>), NoMemory>
        requires { (0 < capacity) × (0 < seats) }
        ensures capacity { IfOk result (λ opened. opened.0.capacity ≡ capacity) }
        ensures count { IfOk result (λ opened. length opened.1.items ≡ seats) }
        ensures all { IfOk result (λ opened. AreAll opened.0 opened.1.items) }
        ensures fresh { IfOk result (λ opened. AreFresh opened.1.items) }
    {
        let (jobs, mut first) = open_first(alloc, capacity)?;
        let mut rest = add_seats(alloc, &jobs, &mut first, seats - 1)?;
        let mut all = Vec::new(alloc);
        all.push(first)?;
        all.append(&mut rest)?;
        Ok((jobs, all))
    }
}

/// The queue with its first seat.
fn open_first<J: Numbered + Drop>(
    alloc: Global,
    capacity: usize,
) -> Result<(Jobs<J>, Seat<J>), NoMemory>
    requires { 0 < capacity }
    ensures { IfOk result (λ opened. (opened.0.capacity ≡ capacity) × (opened.1 ≡ beginner opened.0.queue 0 1)) }
{
    let room = VecDeque::with_capacity(alloc, capacity)?;
    let (line, pass) = Line::<J>::ruled(alloc, capacity)?;
    let idle = EventCount::new();
    Ok((Jobs { line, room, idle }, Seat { number: 0, pass }))
}

/// So many seats more, which the first makes, in their order.
fn add_seats<J: Numbered + Drop>(
    alloc: Global,
    jobs: &Jobs<J>,
    first: &mut Seat<J>,
    count: u64,
) -> Result<Vec<Seat<J>>, NoMemory>
    requires { first.old ≡ beginner jobs.now.queue 0 1 }
    ensures first { OnOk result (first.new ≡ beginner jobs.now.queue 0 (count + 1)) }
    ensures count { IfOk result (λ rest. length rest.items ≡ count) }
    ensures rest { IfOk result (λ rest. AreNewcomers jobs.now.queue rest.items) }
{
    let mut rest = Vec::new(alloc);
    for number in 0..count {
        rest.push(add_seat(jobs, first, number + 1))?;
    }
    Ok(rest)
}

/// One seat more, of that number.
fn add_seat<J: Numbered>(jobs: &Jobs<J>, first: &mut Seat<J>, number: u64) -> Seat<J>
    requires { first.old ≡ beginner jobs.now.queue 0 number }
    ensures first { first.new ≡ beginner jobs.now.queue 0 (number + 1) }
    ensures seat { result ≡ beginner jobs.now.queue number 0 }
{
    let pass = jobs.line.another::<Seats>(&mut first.pass);
    Seat { number, pass }
}
