//! Flush, FlushO, SetWindow and SetBudget: what the administrator alone may ask.

ghost use Rattle.std.specs.Prelude.{◌≡◌, false};
ghost use Rattle.s4_types.specs.Answer.{administered, flushed};
ghost use Rattle.s4_drive.specs.Step.{is_wanting};

use s4_types::{Caller, Moment, Refusal, Reply, Right};

/// The outcome of a request that the administrator alone may make.
pub fn outcome(caller: Caller) -> Result<Reply, Refusal>
    ensures value { result ≡ administered caller }
    ensures known { is_wanting result ≡ false }
{
    if caller.who.is_administrator() {
        Ok(Reply::Done)
    } else {
        Err(Refusal::Denied(Right::Admin))
    }
}

/// The outcome of a flush between two moments, of which the first may not come after the second.
pub fn flush_outcome(from: Moment, to: Moment, caller: Caller) -> Result<Reply, Refusal>
    ensures value { result ≡ flushed from to caller }
    ensures known { is_wanting result ≡ false }
{
    if to < from {
        return Err(Refusal::BadRange);
    }
    outcome(caller)
}
