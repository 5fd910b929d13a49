//! Which moments a run and a request may name.

ghost use Rattle.std.specs.Prelude.{◌≡◌, ◌↔◌, false, IsTrue, OnOk};
ghost use Rattle.s4_types.specs.Answer.{timely as timely_at};
ghost use Rattle.s4_types.specs.Play.{NeverDown};
ghost use Rattle.s4_tracks.specs.Swept.{IsFrom};
ghost use Rattle.s4_drive.specs.Step.{is_wanting};

use s4_types::{Moment, Refusal, Step};

/// Whether the moments of the steps never go down, from this moment on: what `Drive::run` wants.
pub fn never_down(from: Moment, steps: &[Step]) -> bool
    ensures { IsTrue result ↔ NeverDown from steps.now }
{
    let mut last = from;
    for step in steps {
        match step {
            Step::Request { moment, .. } => {
                if *moment < last {
                    return false;
                }
                last = *moment;
            }
            Step::Sweep { .. } => {}
        }
    }
    true
}

/// Refuses a moment that is to come, and one below the horizon.
pub fn timely(horizon: Moment, moment: Moment, at: Option<Moment>) -> Result<(), Refusal>
    ensures value { result ≡ timely_at horizon moment at }
    ensures told { OnOk result (IsFrom horizon at) }
    ensures known { is_wanting result ≡ false }
{
    match at {
        Some(at) if at > moment => Err(Refusal::Future),
        Some(at) if at < horizon => Err(Refusal::TooOld { horizon }),
        _ => Ok(()),
    }
}
