//! Write: bytes over an object's data, from an offset on.

ghost use Rattle.std.specs.Prelude.{◌≡◌, ◌≤◌};
ghost use Rattle.s4_types.specs.declared.request.Request.TheVariants as request;
ghost use Rattle.s4_types.specs.Answer.{outcome_by_kind};
ghost use Rattle.s4_types.specs.Play.{last_of};
ghost use Rattle.s4_types.specs.Log.{base_of};

use s4_state::State;
use s4_store::Store;
use s4_types::{Bytes, Caller, Moment, ObjectId, Refusal, Reply, Right, Version};

/// The outcome of a Write.
pub fn outcome<S: Store<Version>>(
    state: &State<S>,
    moment: Moment,
    caller: Caller,
    object: &ObjectId,
    offset: u32,
    bytes: &Bytes,
) -> Result<Reply, Refusal>
    requires later { last_of state.now.history ≤ moment }
    ensures { result ≡ outcome_by_kind (base_of state.now) state.now.history moment caller
        (request.Write object.now offset bytes.now) }
{
    let limit = caller.version.data_limit() as usize;
    if bytes.len() > limit.saturating_sub(offset as usize) || offset as usize > limit {
        return Err(Refusal::TooLong);
    }
    state.judge(caller, object, Right::Write, None)?;
    Ok(Reply::Done)
}
