//! A worker that goes to sleep while a job is put.

use s4_calls_for_tests::places::{Place, Task, places};
use s4_jobs::{Job, Jobs, work};
use std::sync::Wait;
use std::sync::atomic::{AtomicU64, Ordering};
use std::test::Fail;
use std::thread;
use std::time::{Clock, Duration};

/// How many tasks are put, each once the one before is done.
const TASKS: u64 = 20000;

/// At how many moments, before a worker sleeps or once it does, its next task comes.
const MOMENTS: u64 = 400;

/// So often it is looked for the other thread's mark without a rest; so often other threads are let
/// run in between; and so often it rests for a millisecond.
const LOOKS: u32 = 10000;

/// The task that the worker has done, and the one of which the other thread knows that.
#[derive(Drop)]
struct Marks {
    done: AtomicU64,
    known: AtomicU64,
}

// Whether the mark gets to that task.
fn is_marked<R: Clock>(rt: &R, mark: &AtomicU64, task: u64) -> bool {
    for look in 0..3 * LOOKS {
        if mark.load(Ordering::SeqCst) == task {
            return true;
        }
        if look >= 2 * LOOKS {
            thread::sleep(rt, Duration::from_millis(1));
        } else if look >= LOOKS {
            thread::yield_now();
        }
    }
    false
}

// Puts each task once the one before is done, and then a stop. Tells how many were done by then: a
// worker that misses a task sleeps until the stop is put.
fn put_in_turn<R: Wait + Clock>(rt: &R, place: &mut Place<'_>, marks: &Marks) -> u64 {
    let mut count = 0;
    for task in 1..=TASKS {
        place.put(rt, Job::Run(Task(task)));
        if !is_marked(rt, &marks.done, task) {
            break;
        }
        marks.known.store(task, Ordering::SeqCst);
        count = task;
    }
    place.put(rt, Job::Stop);
    count
}

// Puts all tasks, or does each. Once the thread that puts knows of one, the worker stays for a while that
// differs from task to task, and then goes to sleep while that puts the next one. Tells how many tasks were
// put and done.
fn take_turns<R: Wait + Clock>(rt: &R, mut place: Place<'_>, marks: &Marks) -> u64 {
    if place.puts {
        return put_in_turn(rt, &mut place, marks);
    }
    let Place { jobs, mut seat, .. } = place;
    work(rt, jobs, &mut seat, |task: Task| {
        marks.done.store(task.0, Ordering::SeqCst);
        let _is_known = is_marked(rt, &marks.known, task.0);
        for _ in 0..task.0 % MOMENTS {
            let _task = marks.done.load(Ordering::SeqCst);
        }
    });
    0
}

#[test]
fn no_task_is_missed_by_a_worker_that_goes_to_sleep(rt: HostRuntime) -> Result<(), Fail> {
    let (jobs, seats) = Jobs::open(rt.alloc(), 4, 2)?;
    let places = places(rt.alloc(), &jobs, seats)?;
    let marks = Marks {
        done: AtomicU64::new(0),
        known: AtomicU64::new(0),
    };
    let (handle, shared) = (&rt, &marks);
    let counts = thread::map_vec(
        handle,
        places,
        &|place: Place<'_>| take_turns(handle, place, shared),
    )?;
    assert_eq!(rt; counts.as_slice(), [TASKS, 0].as_slice());
    Ok(())
}
