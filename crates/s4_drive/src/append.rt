//! Append: bytes after an object's data.

ghost use Rattle.std.specs.Prelude.{◌≡◌, ◌≤◌};
ghost use Rattle.s4_types.specs.declared.request.Request.TheVariants as request;
ghost use Rattle.s4_types.specs.Answer.{outcome_by_kind};
ghost use Rattle.s4_types.specs.Play.{last_of};
ghost use Rattle.s4_types.specs.Log.{base_of};

use s4_state::State;
use s4_store::Store;
use s4_types::{Bytes, Caller, Moment, ObjectId, Refusal, Reply, Right, Version};

/// The outcome of an Append.
pub fn outcome<S: Store<Version>>(
    state: &State<S>,
    moment: Moment,
    caller: Caller,
    object: &ObjectId,
    bytes: &Bytes,
) -> Result<Reply, Refusal>
    requires later { last_of state.now.history ≤ moment }
    ensures { result ≡ outcome_by_kind (base_of state.now) state.now.history moment caller
        (request.Append object.now bytes.now) }
{
    let limit = caller.version.data_limit() as usize;
    let more = bytes.len();
    if more > limit {
        return Err(Refusal::TooLong);
    }
    state.judge(caller, object, Right::Write, None)?;
    if state.current_data(object).len() > limit - more {
        return Err(Refusal::TooLong);
    }
    Ok(Reply::Done)
}
