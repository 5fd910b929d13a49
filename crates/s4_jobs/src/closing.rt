//! Closing a queue with all its seats.

ghost use Rattle.std.specs.Prelude.{◌≡◌, ◌<◌, ◌≤◌, ◌+◌, ℕ, [], ◌∷◌, ◌++◌, length, map, MatchOption};
ghost use Rattle.std.specs.VecDeque.{deque_capacity, deque_len};
ghost use Rattle.crossbeam_queue.specs.Fifo.{Held};
ghost use Rattle.crossbeam_queue.specs.Passes.{view, IsPassOf};
ghost use Rattle.s4_jobs.specs.Seats.{AreAll, AreRest, Settled, hand_of, hands_of};
ghost use Rattle.s4_jobs.specs.Rule.{Drained, IsFirst, IsWhole, LeftOne, SettlesOf, puts_of, takes_of, with_all_ended};
ghost use Rattle.s4_jobs.specs.declared.rule.Posted.{Posted};

use crate::numbered::Numbered;
use crate::queue::{Jobs, Line, Seat};
use crate::rule::{Ends, Leaves, Posted, View};
use crossbeam_queue::Pass;
use std::collections::VecDeque;
use std::sync::Wait;

impl<J: Numbered + Drop> Jobs<J> {
    /// Ends the queue with all its seats, by their numbers, and gives the jobs that are left, front
    /// first, in the room that `open` made: it takes no memory. May wait, as `take` may.
    pub fn close<R: Wait>(self, rt: &R, seats: Vec<Seat<J>>) -> VecDeque<J>
        requires { AreAll self seats.items }
        ensures { Settled seats.items (map J.numbered result.items) }
    {
        let mut rest = seats;
        let first = rest.remove(0);
        let Seat {
            number: _,
            mut pass,
        } = first;
        end_all(&self.line, &mut pass, rest);
        let Jobs { line, room, .. } = self;
        drain(rt, &line, pass, room)
    }
}

/// Ends the other seats in the first.
fn end_all<J: Numbered>(line: &Line<J>, first: &mut Pass<Posted<J>, View>, rest: Vec<Seat<J>>)
    requires queue { IsPassOf line.now first.old }
    requires first { IsFirst (view first.old) × ((view first.old).closed ≡ []) }
    requires rest { AreRest line.now.table.shared.table_id rest.items }
    ensures queue { IsPassOf line.now first.new }
    ensures ended { view first.new ≡ with_all_ended (view first.old) (hands_of rest.items) }
{
    for seat in rest {
        end_seat(line, first, seat);
    }
}

/// Ends the next seat in the first.
fn end_seat<J: Numbered>(line: &Line<J>, first: &mut Pass<Posted<J>, View>, seat: Seat<J>)
    requires queue { IsPassOf line.now first.old × (seat.queue ≡ line.now.table.shared.table_id) }
    requires first { IsFirst (view first.old) }
    requires next { seat.number ≡ length (view first.old).closed + 1 }
    ensures queue { IsPassOf line.now first.new }
    ensures ended { view first.new ≡ with_all_ended (view first.old) (hand_of seat ∷ []) }
{
    line.absorb::<Ends>(first, seat.pass);
}

/// Takes all that is left, and puts it into the room.
fn drain<J: Numbered + Drop, R: Wait>(
    rt: &R,
    line: &Line<J>,
    first: Pass<Posted<J>, View>,
    room: VecDeque<J>,
) -> VecDeque<J>
    requires queue { IsPassOf line.now first }
    requires whole { IsWhole (view first) × ((view first).left ≡ []) }
    requires room { (room.items ≡ []) × (line.now.cap ≤ deque_capacity room) }
    ensures { Drained J.numbered (view first) result.items }
{
    let mut first = first;
    let mut left = room;
    count_left(rt, line, &mut first);
    while let Some(job) = take_left(rt, line, &mut first) {
        keep(&mut left, job);
    }
    left
}

/// Sees that no more jobs are left than the queue has places.
fn count_left<J: Numbered, R: Wait>(rt: &R, line: &Line<J>, first: &mut Pass<Posted<J>, View>)
    requires queue { IsPassOf line.now first.old }
    requires whole { IsWhole (view first.old) × ((view first.old).left ≡ []) }
    ensures queue { IsPassOf line.now first.new × (view first.new ≡ view first.old) }
    ensures few { puts_of (view first.old) ≤ takes_of (view first.old) + line.now.cap }
{
    line.len_as::<Leaves, R>(rt, first);
}

/// Takes a job that is left, where there is one.
fn take_left<J: Numbered, R: Wait>(
    rt: &R,
    line: &Line<J>,
    first: &mut Pass<Posted<J>, View>,
) -> Option<J>
    requires queue { IsPassOf line.now first.old }
    requires whole { IsWhole (view first.old) }
    ensures queue { IsPassOf line.now first.new }
    ensures taken { MatchOption result
        ((view first.new ≡ view first.old) × Held {T = Posted J} 0 (SettlesOf J.numbered (view first.old)))
        (λ job. LeftOne (J.numbered job) (view first.old) (view first.new)) }
{
    let posted = line.pop_as::<Leaves, R>(rt, first)?;
    Some(posted.job)
}

/// Keeps a job in the room.
fn keep<J: Drop>(left: &mut VecDeque<J>, job: J)
    requires { deque_len left.old < deque_capacity left.old }
    ensures items { left.new.items ≡ left.old.items ++ job ∷ [] }
    ensures room { deque_capacity left.old ≤ deque_capacity left.new }
{
    let pushed: Result<_, _> = left.push_back(job);
    pushed.unwrap();
}
