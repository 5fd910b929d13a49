//! How far back the drive promises to remember.

ghost use Rattle.std.specs.Prelude.{◌≡◌};
ghost use Rattle.s4_types.specs.Horizon.{guarded_after};

use s4_types::{Record, Request};
use s4_window::Window;

/// Brings the window to where the record leaves it.
pub fn follow(window: &mut Window, added: &Record)
    ensures { window.new ≡ guarded_after window.old added.now }
{
    match added.request {
        Request::SetWindow { ticks }
            if added.caller.who.is_administrator() && !added.reply.is_refused() => {
            window.set(added.moment, ticks)
        }
        _ => {}
    }
}
