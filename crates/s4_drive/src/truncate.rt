//! Truncate: an object's data cut, or filled with zeros.

ghost use Rattle.std.specs.Prelude.{◌≡◌, ◌≤◌};
ghost use Rattle.s4_types.specs.declared.request.Request.TheVariants as request;
ghost use Rattle.s4_types.specs.Answer.{outcome_by_kind};
ghost use Rattle.s4_types.specs.Play.{last_of};
ghost use Rattle.s4_types.specs.Log.{base_of};

use s4_state::State;
use s4_store::Store;
use s4_types::{Caller, Moment, ObjectId, Refusal, Reply, Right, Version};

/// The outcome of a Truncate.
pub fn outcome<S: Store<Version>>(
    state: &State<S>,
    moment: Moment,
    caller: Caller,
    object: &ObjectId,
    length: u32,
) -> Result<Reply, Refusal>
    requires later { last_of state.now.history ≤ moment }
    ensures { result ≡ outcome_by_kind (base_of state.now) state.now.history moment caller
        (request.Truncate object.now length) }
{
    if length > caller.version.data_limit() {
        return Err(Refusal::TooLong);
    }
    state.judge(caller, object, Right::Write, None)?;
    Ok(Reply::Done)
}
