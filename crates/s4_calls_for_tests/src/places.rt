//! Jobs of the tests, and places at their queue for threads of their own.

ghost use Rattle.std.specs.Prelude.{◌≡◌, All};

use s4_jobs::{Job, Jobs, NoMemory, Numbered, Seat};
use std::alloc::Global;
use std::sync::Wait;
use std::thread;

/// A job that is its number.
#[derive(Drop)]
pub struct Task(pub u64);

impl Numbered for Task {
    ghost numbered = { λ task. task.0 };

    fn number(&self) -> u64 {
        self.0
    }
}

/// A seat with its queue: the first puts, and each other works.
#[derive(Drop)]
pub struct Place<'a> {
    pub jobs: &'a Jobs<Job<Task>>,
    pub seat: Seat<Job<Task>>,
    pub puts: bool,
    ghost same: { seat.queue ≡ jobs.now.queue },
}

/// A place for each seat.
pub fn places<'a>(
    alloc: Global,
    jobs: &'a Jobs<Job<Task>>,
    seats: Vec<Seat<Job<Task>>>,
) -> Result<Vec<Place<'a>>, NoMemory>
    requires { All (λ s. s.queue ≡ jobs.now.queue) seats.items }
{
    let mut seats = seats;
    let mut places = Vec::new(alloc);
    for _ in 0..seats.len() {
        if let Some(seat) = seats.pop() {
            let puts = places.is_empty();
            places.push(Place { jobs, seat, puts })?;
        }
    }
    Ok(places)
}

impl Place<'_> {
    /// Puts a job, and tries again while the queue is full.
    pub fn put<R: Wait>(&mut self, rt: &R, job: Job<Task>) {
        let mut job = job;
        for _ in rt.forever() {
            match self.jobs.put(rt, &mut self.seat, job) {
                Ok(()) => return,
                Err(back) => job = back,
            }
            thread::yield_now();
        }
    }
}
