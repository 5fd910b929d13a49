//! The ends of past values, in the order in which they came.

ghost use Rattle.std.specs.Prelude.{◌≡◌, ◌+◌, ◌∷◌, IfSome, IfNone, OnSome, true, false, take};
ghost use Rattle.std.specs.List.{list_any};
ghost use Rattle.s4_objects.specs.Ends.{is_gone, all_ends};

use crate::kept::Which;
use s4_queue::Queue;
use s4_types::{Moment, ObjectId};

/// The end of a past value that is held: when it ended, and on which track.
#[derive(Clone, Copy)]
pub struct Ended {
    pub end: Moment,
    pub object: ObjectId,
    pub which: Which,
}

/// Takes the first end, where it is at most the horizon.
pub fn take_gone(ends: &mut Queue<Ended>, horizon: Moment) -> Option<Ended>
    ensures taken { IfSome result (λ e. ends.old.items ≡ e ∷ ends.new.items) }
    ensures gone { IfSome result (λ e. is_gone horizon e.end ≡ true) }
    ensures none { IfNone result
        (list_any (is_gone horizon) (take 1 (all_ends ends.old.items)) ≡ false) }
    ensures same { IfNone result (ends.new.items ≡ ends.old.items) }
    ensures room { OnSome result (ends.new.room ≡ ends.old.room + 1) }
    ensures same_room { IfNone result (ends.new.room ≡ ends.old.room) }
{
    if begins_gone(ends, horizon) {
        ends.pop()
    } else {
        None
    }
}

// Whether the first end is at most the horizon.
fn begins_gone(ends: &Queue<Ended>, horizon: Moment) -> bool
    ensures { result ≡ list_any (is_gone horizon) (take 1 (all_ends ends.now.items)) }
{
    match ends.front() {
        Some(ended) => ended.end <= horizon,
        None => false,
    }
}
