//! What is kept of the records that went.

ghost use Rattle.std.specs.Prelude.{◌≡◌, ◌≤◌, max, length, fold, take};
ghost use Rattle.s4_types.specs.Horizon.{guarded_after};

use s4_queue::Queue;
use s4_types::{Moment, Record, Request};
use s4_window::Window;

/// The window at the opening, in ticks, and of the records that went: before which moment they
/// were, and the window and the floor that they left.
#[derive(Drop)]
pub struct Start {
    pub opened: u64,
    pub cut: Moment,
    pub window: Window,
}

impl Start {
    /// None went.
    pub fn new(opened: u64) -> Start
        ensures { result ≡ record {
          opened = opened;
          cut = 0;
          window = record { window = opened; floor = 0 };
        } }
    {
        Start {
            opened,
            cut: Moment::new(0),
            window: Window::new(opened),
        }
    }

    /// The first of the records went, so many of them, all before the moment.
    pub fn follow_first(&mut self, records: &Queue<Record>, count: usize, cut: Moment)
        requires { count ≤ length records.now.items }
        ensures { self.new ≡ record {
          opened = self.old.opened;
          cut = max self.old.cut cut;
          window = fold guarded_after self.old.window (take count records.now.items);
        } }
    {
        for place in 0..count {
            follow(&mut self.window, &records[place]);
        }
        self.cut = self.cut.max(cut);
    }
}

/// Brings the window to where the record leaves it.
fn follow(window: &mut Window, added: &Record)
    ensures { window.new ≡ guarded_after window.old added.now }
{
    match added.request {
        Request::SetWindow { ticks }
            if added.caller.who.is_administrator() && !added.reply.is_refused() => {
            window.set(added.moment, ticks)
        }
        _ => {}
    }
}
