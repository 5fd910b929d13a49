//! Read: a range of an object's data.

ghost use Rattle.std.specs.Prelude.{◌≡◌, ◌≤◌, take, drop, IfOk, IfErr};
ghost use Rattle.s4_types.specs.declared.request.Request.TheVariants as request;
ghost use Rattle.s4_types.specs.Answer.{outcome_by_kind};
ghost use Rattle.s4_types.specs.Play.{last_of};
ghost use Rattle.s4_types.specs.Log.{base_of};
ghost use Rattle.s4_state.specs.Told.{IsTold};
ghost use Rattle.s4_drive.specs.Step.{IsOutcome};

use s4_state::{State, Stored};
use s4_store::Store;
use s4_types::{Bytes, Caller, Moment, ObjectId, Refusal, Reply, Right, Version};
use std::alloc::Global;

/// What a Read asks for.
#[derive(Clone, Copy)]
pub struct Range {
    pub offset: u32,
    pub length: u32,
    pub at: Option<Moment>,
}

/// The outcome of a Read, which gives no more than the caller's version has.
pub fn outcome<S: Store<Version>>(
    alloc: Global,
    state: &State<S>,
    moment: Moment,
    caller: Caller,
    object: &ObjectId,
    range: Range,
) -> Result<Reply, Refusal>
    requires later { last_of state.now.history ≤ moment }
    requires told { IsTold state.now range.at }
    ensures { IsOutcome result (outcome_by_kind (base_of state.now) state.now.history moment caller
        (request.Read object.now range.offset range.length range.at)) }
{
    let length = range.length.min(caller.version.data_limit());
    let grant = state.judge(caller, object, Right::Read, range.at)?;
    let bytes = match state.data(object, range.at) {
        Stored::Nothing => Bytes::new(),
        Stored::Bytes(data) => part(alloc, data, range.offset, length)?,
        Stored::Erased => return Err(Refusal::Flushed),
    };
    Ok(Reply::Data { grant, bytes })
}

// The bytes from the offset on, at most so many; want of memory is a refusal.
fn part(alloc: Global, bytes: &Bytes, offset: u32, length: u32) -> Result<Bytes, Refusal>
    ensures value { IfOk result (λ part. part ≡ take length (drop offset bytes.now)) }
    ensures refused { IfErr result (λ refusal. refusal ≡ Refusal.NoMemory) }
{
    let start = (offset as usize).min(bytes.len());
    let end = start + (length as usize).min(bytes.len() - start);
    match bytes.part(alloc, start, end) {
        Ok(part) => Ok(part),
        Err(_) => Err(Refusal::NoMemory),
    }
}
