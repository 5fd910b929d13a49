//! The queue, and the seats by which threads use it.

ghost use Rattle.std.specs.Prelude.{◌≡◌, ℕ, IfErr, IfSome, IsNone, OnOk, OnErr};
ghost use Rattle.crossbeam_queue.specs.Fifo.{Held};
ghost use Rattle.s4_jobs.specs.Seats.{having_put, having_taken, WasFull, WasEmpty};
ghost use Rattle.s4_jobs.specs.Log.{tag};
ghost use Rattle.s4_jobs.specs.declared.rule.Posted.{Posted};

use crate::numbered::Numbered;
use crate::rule::{Kept, Posted, Puts, Takes, View};
use crossbeam_queue::{Pass, RuledArrayQueue};
use crossbeam_utils::sync::EventCount;
use std::alloc::AllocError;
use std::collections::VecDeque;
use std::marker::Model;
use std::sync::Wait;

/// A growth was refused.
pub type NoMemory = AllocError;

/// What a thread puts and takes with. Contracts see of it which queue it is of, its number, of the
/// first seat how many there are, and the jobs that it put and took, in order.
#[derive(Drop)]
pub struct Seat<J: Numbered> {
    pub(crate) number: u64,
    pub(crate) pass: Pass<Posted<J>, View>,
}

impl<J: Numbered> Model for Seat<J> {
    ghost use Rattle.std.specs.Prelude.{◌≡◌, true, []};
    ghost use Rattle.crossbeam_queue.specs.Passes.{view as known_by};
    ghost use Rattle.s4_jobs.specs.Seats as seats;
    ghost use Rattle.s4_jobs.specs.Rule.{IsSeated};

    ghost Value = { seats.Seat };

    ghost view = { λ s. seats.seat_of s.pass.table_id (known_by s.pass) };

    ghost invariant = { λ s. IsSeated s.number (known_by s.pass) × (s.pass.me.1 ≡ []) };
}

pub(crate) type Line<J> = RuledArrayQueue<Posted<J>, View, Kept>;

/// A queue of jobs, which threads share. Contracts see of it which queue it is, and how many jobs
/// it holds at most. It may be shared among threads where its jobs may.
#[derive(Drop)]
pub struct Jobs<J: Numbered> {
    pub(crate) line: RuledArrayQueue<Posted<J>, View, Kept>,
    /// Room for the jobs that are left at the end.
    pub(crate) room: VecDeque<J>,
    /// Where threads sleep until a job is put.
    pub(crate) idle: EventCount,
}

impl<J: Numbered> Model for Jobs<J> {
    ghost use Rattle.std.specs.Prelude.{◌≡◌, ◌≤◌, []};
    ghost use Rattle.std.specs.VecDeque.{deque_capacity};
    ghost use Rattle.s4_jobs.specs.Seats as seats;

    ghost Value = { seats.Jobs };

    ghost view = { λ j. record { queue = j.line.table.shared.table_id; capacity = j.line.cap } };

    ghost invariant = { λ j. (j.room.items ≡ []) × (j.line.cap ≤ deque_capacity j.room) };
}

impl<J: Numbered> Jobs<J> {
    /// Puts a job at the back, or gives it back where the queue was full at one moment of the call.
    /// The seat has to be one of this queue's. May wait for other threads. It wakes one that sleeps.
    pub fn put<R: Wait>(&self, rt: &R, seat: &mut Seat<J>, job: J) -> Result<(), J>
        requires { seat.old.queue ≡ self.now.queue }
        ensures put { OnOk result (seat.new ≡ having_put seat.old (J.numbered job)) }
        ensures back { IfErr result (λ back. back ≡ job) }
        ensures full { OnErr result ((seat.new ≡ seat.old) × WasFull J.numbered self.now seat.old) }
        ensures queue { seat.new.queue ≡ seat.old.queue }
    {
        let from = seat.number;
        let put = self
            .line
            .push_as::<Puts, R>(rt, &mut seat.pass, Posted { from, job })
            .map_err(|posted| posted.job);
        if put.is_ok() {
            self.idle.notify_one();
        }
        put
    }

    /// Takes the job at the front. There is none only where the queue was empty at one moment of the
    /// call. The seat has to be one of this queue's. May wait for other threads.
    pub fn take<R: Wait>(&self, rt: &R, seat: &mut Seat<J>) -> Option<J>
        requires { seat.old.queue ≡ self.now.queue }
        ensures taken { IfSome result (λ job. (from : ℕ) × (seat.new ≡ having_taken seat.old (tag from (J.numbered job)))) }
        ensures empty { IsNone result → (seat.new ≡ seat.old) × WasEmpty J.numbered seat.old }
        ensures queue { seat.new.queue ≡ seat.old.queue }
    {
        let posted = self.line.pop_as::<Takes, R>(rt, &mut seat.pass)?;
        Some(posted.job)
    }
}
