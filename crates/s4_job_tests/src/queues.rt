//! Queues of jobs, of which one thread has both seats, line by line.

ghost use Rattle.std.specs.Prelude.{◌≡◌, ◌<◌, length, true};
ghost use Rattle.s4_jobs.specs.Seats.{AreAll};

use s4_calls_for_tests::places::Task;
use s4_calls_for_tests::same::same;
use s4_jobs::{Job, Jobs, Numbered, Seat};
use std::alloc::Global;
use std::sync::Wait;
use std::test::Fail;

/// What is done from a seat, and what comes of it.
enum Line {
    /// A job of that number is put.
    Put(usize, u64),
    /// It comes back, since the queue is full.
    Full(usize, u64),
    /// A job of that number is taken, or there is none.
    Take(usize, Option<u64>),
}

/// How many jobs a queue holds, what is done, and the jobs that are left, front first.
struct Case {
    capacity: usize,
    lines: &'static [Line],
    left: &'static [u64],
}

const CASES: [Case; 3] = [
    // Jobs are taken in their order.
    Case {
        capacity: 2,
        lines: &[
            Line::Take(0, None),
            Line::Put(0, 5),
            Line::Put(1, 3),
            Line::Take(0, Some(5)),
            Line::Put(0, 9),
            Line::Take(1, Some(3)),
            Line::Take(1, Some(9)),
            Line::Take(1, None),
        ],
        left: &[],
    },
    // A full queue gives the job back.
    Case {
        capacity: 2,
        lines: &[
            Line::Put(0, 5),
            Line::Put(1, 3),
            Line::Full(1, 9),
            Line::Take(1, Some(5)),
            Line::Put(1, 9),
            Line::Full(0, 5),
        ],
        left: &[3, 9],
    },
    // Jobs that are left come back front first.
    Case {
        capacity: 3,
        lines: &[
            Line::Put(0, 1),
            Line::Put(1, 2),
            Line::Put(0, 3),
            Line::Take(0, Some(1)),
            Line::Put(1, 4),
        ],
        left: &[2, 3, 4],
    },
];

/// A queue with all of its seats.
#[derive(Drop)]
struct Seated {
    jobs: Jobs<Task>,
    seats: Vec<Seat<Task>>,
    ghost all: { AreAll jobs seats.items },
}

impl Seated {
    /// That a line comes out as it has to.
    fn check<R: Wait>(&mut self, rt: &R, line: &Line) -> Result<(), Fail> {
        let (Line::Put(seat, _) | Line::Full(seat, _) | Line::Take(seat, _)) = line;
        if *seat >= self.seats.len() {
            return Err("a seat".into());
        }
        let seat = &mut self.seats[*seat];
        match line {
            Line::Put(_, number) => match self.jobs.put(rt, seat, Task(*number)) {
                Ok(()) => Ok(()),
                Err(back) => same("a job comes back", &Some(back.0), &None),
            },
            Line::Full(_, number) => match self.jobs.put(rt, seat, Task(*number)) {
                Ok(()) => same("no job comes back", &None, &Some(*number)),
                Err(back) => same("the job that comes back", &back.0, number),
            },
            Line::Take(_, wanted) => {
                let taken = match self.jobs.take(rt, seat) {
                    Some(task) => Some(task.0),
                    None => None,
                };
                same("the job that is taken", &taken, wanted)
            }
        }
    }
}

/// That all lines come out as they have to, and that these jobs are left.
fn check_lines<R: Wait>(rt: &R, alloc: Global, case: &Case) -> Result<(), Fail> {
    if case.capacity == 0 {
        return Err("a capacity".into());
    }
    let (jobs, seats) = Jobs::open(alloc, case.capacity, 2)?;
    let mut queue = Seated { jobs, seats };
    for line in case.lines {
        queue.check(rt, line)?;
    }
    let Seated { jobs, seats } = queue;
    let mut left = jobs.close(rt, seats);
    for number in case.left {
        let task = left.pop_front().ok_or("a job")?;
        same("the job that is left", &task.0, number)?;
    }
    same("how many jobs are left", &left.len(), &0)
}

#[test]
fn jobs_are_taken_given_back_and_left_in_their_order(rt: HostRuntime) -> Result<(), Fail> {
    for case in &CASES {
        check_lines(&rt, rt.alloc(), case)?;
    }
    Ok(())
}

#[test]
fn number_is_the_task_s_and_0_for_a_stop(rt: HostRuntime) -> Result<(), Fail> {
    assert_eq!(rt; Job::Run(Task(7)).number(), 7);
    assert_eq!(rt; Job::<Task>::Stop.number(), 0);
    Ok(())
}
