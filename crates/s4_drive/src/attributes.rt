//! GetAttr and SetAttr: an object's attributes, which the drive doesn't look into.

ghost use Rattle.std.specs.Prelude.{◌≡◌, ◌≤◌, IfOk, IfErr};
ghost use Rattle.s4_types.specs.declared.request.Request.TheVariants as request;
ghost use Rattle.s4_types.specs.Answer.{outcome_by_kind};
ghost use Rattle.s4_types.specs.Play.{last_of};
ghost use Rattle.s4_types.specs.Log.{base_of};
ghost use Rattle.s4_state.specs.Told.{IsTold};
ghost use Rattle.s4_drive.specs.Step.{IsOutcome};

use s4_state::{State, Stored};
use s4_store::Store;
use s4_types::{Bytes, Caller, Moment, ObjectId, Refusal, Reply, Request, Right, Version};

/// The outcome of a GetAttr.
pub fn get_outcome<S: Store<Version>>(
    state: &State<S>,
    moment: Moment,
    caller: Caller,
    object: &ObjectId,
    at: &Option<Moment>,
) -> Result<Reply, Refusal>
    requires later { last_of state.now.history ≤ moment }
    requires told { IsTold state.now at.now }
    ensures { IsOutcome result (outcome_by_kind (base_of state.now) state.now.history moment caller
        (request.GetAttr object.now at.now)) }
{
    let grant = state.judge(caller, object, Right::Read, *at)?;
    let bytes = match state.attributes(object, *at) {
        Stored::Nothing => Bytes::new(),
        Stored::Bytes(attributes) => copied(attributes)?,
        Stored::Erased => return Err(Refusal::Flushed),
    };
    Ok(Reply::Attr { grant, bytes })
}

// These bytes once more; want of memory is a refusal.
fn copied(bytes: &Bytes) -> Result<Bytes, Refusal>
    ensures value { IfOk result (λ copy. copy ≡ bytes.now) }
    ensures refused { IfErr result (λ refusal. refusal ≡ Refusal.NoMemory) }
{
    match bytes.copy() {
        Ok(copy) => Ok(copy),
        Err(_) => Err(Refusal::NoMemory),
    }
}

/// The outcome of a SetAttr.
pub fn set_outcome<S: Store<Version>>(
    state: &State<S>,
    moment: Moment,
    caller: Caller,
    object: &ObjectId,
    bytes: &Bytes,
) -> Result<Reply, Refusal>
    requires later { last_of state.now.history ≤ moment }
    ensures { result ≡ outcome_by_kind (base_of state.now) state.now.history moment caller
        (request.SetAttr object.now bytes.now) }
{
    if bytes.len() > Request::ATTRIBUTE_LIMIT as usize {
        return Err(Refusal::TooLong);
    }
    state.judge(caller, object, Right::Write, None)?;
    Ok(Reply::Done)
}
