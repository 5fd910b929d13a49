//! Workers in threads of their own, and one thread that puts.

use s4_calls_for_tests::places::{Place, Task, places};
use s4_jobs::{Job, Jobs, work};
use std::alloc::Global;
use std::sync::Wait;
use std::test::Fail;
use std::thread;

/// How many tasks are put.
const TASKS: u64 = 1000;

/// How many workers there are.
const WORKERS: u64 = 2;

/// Puts all tasks and a stop for each worker, or works until a stop. Tells the numbers of the tasks that
/// it was handed, in order.
fn take_part<R: Wait>(rt: &R, alloc: Global, mut place: Place<'_>) -> Vec<u64> {
    let mut handed = Vec::new(alloc);
    if place.puts {
        for number in 0..TASKS {
            place.put(rt, Job::Run(Task(number)));
        }
        for _ in 0..WORKERS {
            place.put(rt, Job::Stop);
        }
        return handed;
    }
    let Place { jobs, mut seat, .. } = place;
    work(rt, jobs, &mut seat, |task: Task| {
        let _ = handed.push(task.0);
    });
    handed
}

/// Whether each number is greater than the one before.
fn climbs(numbers: &[u64]) -> bool {
    for place in 1..numbers.len() {
        if numbers[place] <= numbers[place - 1] {
            return false;
        }
    }
    true
}

/// How often the number stands in the lists.
fn times(lists: &[Vec<u64>], number: u64) -> usize {
    let mut times = 0usize;
    for list in lists {
        if list.contains(&number) {
            times = times.saturating_add(1);
        }
    }
    times
}

#[test]
fn two_workers_take_all_tasks_up_to_their_stops(rt: HostRuntime) -> Result<(), Fail> {
    let alloc = rt.alloc();
    let (jobs, seats) = Jobs::open(alloc, 4, WORKERS + 1)?;
    let places = places(alloc, &jobs, seats)?;
    let handle = &rt;
    let handed = thread::map_vec(
        handle,
        places,
        &|place: Place<'_>| take_part(handle, alloc, place),
    )?;
    for list in handed.as_slice() {
        assert!(rt; climbs(list.as_slice()));
    }
    for number in 0..TASKS {
        assert_eq!(rt; times(handed.as_slice(), number), 1);
    }
    Ok(())
}
