//! Delete: an object ends.

ghost use Rattle.std.specs.Prelude.{◌≡◌, ◌≤◌};
ghost use Rattle.s4_types.specs.declared.request.Request.TheVariants as request;
ghost use Rattle.s4_types.specs.Answer.{outcome_by_kind};
ghost use Rattle.s4_types.specs.Play.{last_of};
ghost use Rattle.s4_types.specs.Log.{base_of};

use s4_state::State;
use s4_store::Store;
use s4_types::{Caller, Moment, ObjectId, Refusal, Reply, Right, Version};

/// The outcome of a Delete.
pub fn outcome<S: Store<Version>>(
    state: &State<S>,
    moment: Moment,
    caller: Caller,
    object: &ObjectId,
) -> Result<Reply, Refusal>
    requires later { last_of state.now.history ≤ moment }
    ensures { result ≡ outcome_by_kind (base_of state.now) state.now.history moment caller
        (request.Delete object.now) }
{
    state.judge(caller, object, Right::Delete, None)?;
    if state.has_name(object) {
        return Err(Refusal::Named);
    }
    Ok(Reply::Done)
}
