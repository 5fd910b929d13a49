//! The rule of the queue: what it keeps true of the jobs in it and of what each seat knows.

use crate::numbered::Numbered;
use crossbeam_queue::protocol::{Join, Lesson, Outcome, Protocol, Split};
use std::collections::LinkedList;

/// A job's number, and the number of the seat that put it.
#[derive(Clone, Copy)]
pub struct Tag {
    pub from: u64,
    pub number: u64,
}

/// A job in the queue, and the number of the seat that put it.
#[derive(Drop)]
pub struct Posted<J> {
    pub from: u64,
    pub job: J,
}

/// What a seat knows. No value of it is made.
pub struct View {
    /// False once the seat has ended.
    pub live: bool,
    /// Of the first seat: how many seats there are. 0 in others.
    pub made: u64,
    pub seat: u64,
    pub put: LinkedList<u64>,
    pub taken: LinkedList<Tag>,
    /// Of the first seat: the others that have ended in it, by their numbers.
    pub closed: LinkedList<Hand>,
    /// Of the first seat: what it took from the queue once all others had ended.
    pub left: LinkedList<Tag>,
}

/// What a seat that has ended put and took. No value of it is made.
pub struct Hand {
    pub put: LinkedList<u64>,
    pub taken: LinkedList<Tag>,
}

pub struct Kept;

impl<J: Numbered> Protocol<Posted<J>, View> for Kept {
    ghost use Rattle.s4_jobs.specs.Rule.{first_view, HoldsOf};

    ghost holds = { HoldsOf J.numbered };

    ghost first = { first_view 1 };
}

/// One seat more is made.
pub struct Seats;

impl Split<View> for Seats {
    ghost use Rattle.s4_jobs.specs.Rule.{one_made, newcomer};

    ghost left = { one_made };

    ghost right = { newcomer };
}

/// A job is put.
pub struct Puts;

impl<J: Numbered> Outcome<Posted<J>, View> for Puts {
    ghost use Rattle.std.specs.Prelude.{◌≡◌};
    ghost use Rattle.s4_jobs.specs.Rule.{with_put, tag_of};

    ghost then = { λ v x w. w ≡ with_put v (tag_of J.numbered x) };
}

impl<J: Numbered> Lesson<Posted<J>, View> for Puts {
    ghost use Rattle.s4_jobs.specs.Rule.{SeenBy};

    ghost fact = { SeenBy J.numbered };
}

/// A job is taken.
pub struct Takes;

impl<J: Numbered> Outcome<Posted<J>, View> for Takes {
    ghost use Rattle.std.specs.Prelude.{◌≡◌};
    ghost use Rattle.s4_jobs.specs.Rule.{with_taken, tag_of};

    ghost then = { λ v x w. w ≡ with_taken v (tag_of J.numbered x) };
}

impl<J: Numbered> Lesson<Posted<J>, View> for Takes {
    ghost use Rattle.s4_jobs.specs.Rule.{SeenBy};

    ghost fact = { SeenBy J.numbered };
}

/// A seat ends in the first.
pub struct Ends;

impl Join<View> for Ends {
    ghost use Rattle.s4_jobs.specs.Rule.{with_ended, ended};

    ghost both = { with_ended };

    ghost spent = { ended };
}

/// A job that is left is taken, once all other seats have ended.
pub struct Leaves;

impl<J: Numbered> Outcome<Posted<J>, View> for Leaves {
    ghost use Rattle.s4_jobs.specs.Rule.{LeftBy};

    ghost then = { LeftBy J.numbered };
}

impl<J: Numbered> Lesson<Posted<J>, View> for Leaves {
    ghost use Rattle.s4_jobs.specs.Rule.{SettlesOf};

    ghost fact = { SettlesOf J.numbered };
}
