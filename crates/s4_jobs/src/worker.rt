//! A worker's loop.

ghost use Rattle.std.specs.Prelude.{◌≡◌, ℕ};
ghost use Rattle.s4_jobs.specs.Log.{tag};
ghost use Rattle.s4_jobs.specs.Seats.{having_taken};
ghost use Rattle.s4_jobs.specs.Work.{Worked};

use crate::numbered::Numbered;
use crate::queue::{Jobs, Seat};
use std::sync::Wait;

/// A job, or the end of a worker, whose number is 0.
#[derive(Drop)]
pub enum Job<J> {
    Run(J),
    Stop,
}

impl<J: Numbered> Numbered for Job<J> {
    ghost use Rattle.s4_jobs.specs.Work.{job_number};

    ghost numbered = { job_number J.numbered };

    fn number(&self) -> u64 {
        match self {
            Job::Run(job) => job.number(),
            Job::Stop => 0,
        }
    }
}

/// Hands each job that it takes to the handler, in their order, until it takes a stop. Where there
/// is none to take it sleeps until one is put.
pub fn work<J: Numbered + Drop, F: FnMut(J) + Drop, R: Wait>(
    rt: &R,
    jobs: &Jobs<Job<J>>,
    seat: &mut Seat<Job<J>>,
    handler: F,
)
    requires seat { seat.old.queue ≡ jobs.now.queue }
    requires handler { F.IsAlwaysCallable handler }
    ensures { Worked J.numbered (λ before job after. F.step before job tt after) handler seat.old seat.new }
{
    let mut handler = handler;
    for _round in rt.forever() {
        match next_job(rt, jobs, seat) {
            Job::Run(job) => handler(job),
            Job::Stop => return,
        }
    }
}

/// Takes the job at the front, and sleeps while there is none.
fn next_job<J: Numbered, R: Wait>(rt: &R, jobs: &Jobs<J>, seat: &mut Seat<J>) -> J
    requires { seat.old.queue ≡ jobs.now.queue }
    ensures taken { (from : ℕ) × (seat.new ≡ having_taken seat.old (tag from (J.numbered result))) }
{
    for _try in rt.forever() {
        let sleep = jobs.idle.prepare_wait();
        if let Some(job) = jobs.take(rt, seat) {
            return job;
        }
        sleep.wait(rt);
    }
    unreachable!()
}
