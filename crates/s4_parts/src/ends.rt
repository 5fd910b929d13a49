//! The ends of bindings, in the order in which they came.

ghost use Rattle.std.specs.Prelude.{◌≡◌, ◌+◌, ◌<◌, ◌≤◌, [], ◌∷◌, ◌++◌, OnOk, IsOk, IfSome, IfNone, true, false, take};
ghost use Rattle.std.specs.List.{list_any};
ghost use Rattle.s4_parts.specs.Waiting.{is_gone};

use s4_queue::Queue;
use s4_types::{Moment, Name, NoMemory, Purse};
use std::alloc::Global;
use std::marker::Model;

/// The end of a binding that is still held: when it ended, and of which name in which purse.
#[derive(Drop)]
pub struct Ended {
    pub end: Moment,
    pub purse: Purse,
    pub name: Name,
}

impl Ended {
    /// The end of a binding of the name in the purse.
    pub fn new(end: Moment, purse: &Purse, name: &Name) -> Ended
        ensures end { result.end ≡ end }
        ensures purse { result.purse ≡ purse.now }
        ensures name { result.name ≡ name.now }
    {
        let copied: Result<_, _> = name.clone();
        Ended {
            end,
            purse: *purse,
            name: copied.unwrap(),
        }
    }
}

/// A queue of ends with room for those that are awaited.
#[derive(Drop)]
pub struct Ends {
    entries: Queue<Ended>,
    awaited: usize,
}

impl Model for Ends {
    ghost use Rattle.std.specs.Prelude.{◌-◌, ◌≤◌};
    ghost use Rattle.s4_parts.specs.Ends.{Queue};

    ghost Value = { Queue };

    ghost view = { λ q. record {
      ended = q.entries.items;
      awaited = q.awaited;
      spare = q.entries.room - q.awaited;
    } };

    ghost invariant = { λ q. q.awaited ≤ q.entries.room };
}

impl Ends {
    /// No ends, and none awaited. Takes no memory.
    pub fn new(alloc: Global) -> Ends
        ensures ended { result.ended ≡ [] }
        ensures awaited { result.awaited ≡ 0 }
    {
        Ends {
            entries: Queue::new(alloc),
            awaited: 0,
        }
    }

    /// Makes room for one more than are awaited. Where there is room it stays as it was.
    pub fn make_room(&mut self) -> Result<(), NoMemory>
        ensures ok { OnOk result (0 < self.new.spare) }
        ensures there { 0 < self.old.spare → IsOk result }
        ensures grown { self.old.spare ≤ self.new.spare }
        ensures still { 0 < self.old.spare → self.new.spare ≡ self.old.spare }
        ensures ended { self.new.ended ≡ self.old.ended }
        ensures awaited { self.new.awaited ≡ self.old.awaited }
    {
        if self.awaited < self.entries.room() {
            return Ok(());
        }
        self.entries.reserve(self.awaited + 1)
    }

    /// Awaits one more end. Takes no memory.
    pub fn await_one(&mut self)
        requires { 0 < self.old.spare }
        ensures ended { self.new.ended ≡ self.old.ended }
        ensures awaited { self.new.awaited ≡ self.old.awaited + 1 }
        ensures spare { self.new.spare + 1 ≡ self.old.spare }
    {
        // There is room for it, and the room of a queue can be counted, so the sum fits.
        let _room = self.entries.room();
        self.awaited += 1;
    }

    /// Puts an end that was awaited behind the others. Takes no memory.
    pub fn put(&mut self, ended: Ended)
        requires { 0 < self.old.awaited }
        ensures ended { self.new.ended ≡ self.old.ended ++ ended ∷ [] }
        ensures awaited { self.new.awaited + 1 ≡ self.old.awaited }
        ensures spare { self.new.spare ≡ self.old.spare }
    {
        self.awaited -= 1;
        self.entries.push(ended);
    }

    /// Takes the first end, where it is at most the horizon.
    pub fn take_gone(&mut self, horizon: Moment) -> Option<Ended>
        ensures taken { IfSome result (λ e. self.old.ended ≡ e ∷ self.new.ended) }
        ensures gone { IfSome result (λ e. is_gone horizon e ≡ true) }
        ensures none { IfNone result (list_any (is_gone horizon) (take 1 self.old.ended) ≡ false) }
        ensures same { IfNone result (self.new.ended ≡ self.old.ended) }
        ensures awaited { self.new.awaited ≡ self.old.awaited }
        ensures spare { self.old.spare ≤ self.new.spare }
    {
        if begins_gone(&self.entries, horizon) {
            self.entries.pop()
        } else {
            None
        }
    }
}

// Whether the first end is at most the horizon.
fn begins_gone(entries: &Queue<Ended>, horizon: Moment) -> bool
    ensures { result ≡ list_any (is_gone horizon) (take 1 entries.now.items) }
{
    match entries.front() {
        Some(ended) => ended.end.tick() <= horizon.tick(),
        None => false,
    }
}
