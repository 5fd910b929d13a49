//! What a request is answered. Nothing changes by it.

ghost use Rattle.std.specs.Prelude.{◌≡◌, ◌≤◌, true, false, IfOk, IsOk};
ghost use Rattle.s4_types.specs.Answer.{answer as answer_of, outcome as outcome_of, outcome_by_kind as outcome_by_kind_of};
ghost use Rattle.s4_types.specs.Horizon.{horizon_at};
ghost use Rattle.s4_types.specs.Kinds.{at_of, is_wide};
ghost use Rattle.s4_types.specs.Play.{last_of};
ghost use Rattle.s4_types.specs.Log.{base_of};
ghost use Rattle.s4_state.specs.Told.{IsTold};
ghost use Rattle.s4_drive.specs.Stands.{LimitsStand};
ghost use Rattle.s4_drive.specs.Step.{IsOutcome, is_wanting};

use crate::limits::{Limits, afford};
use crate::moments::timely;
use crate::past::Past;
use crate::read::Range;
use crate::{
    acl, administrator, append, attributes, audit, create, delete, partitions, read, truncate,
    write,
};
use s4_state::State;
use s4_store::Store;
use s4_types::{Caller, Moment, NoMemory, Purse, Refusal, Reply, Request, Version};
use std::alloc::{AllocError, Global};

/// The reply that the history so far gives. That to a wide request takes no memory.
pub fn answer<S: Store<Version>>(
    alloc: Global,
    state: &State<S>,
    limits: &Limits,
    moment: Moment,
    caller: Caller,
    request: &Request,
) -> Result<Reply, NoMemory>
    requires stand { LimitsStand (base_of state.now) state.now.history limits.now }
    requires later { last_of state.now.history ≤ moment }
    ensures value { IfOk result (λ reply. reply
        ≡ answer_of (base_of state.now) state.now.history moment caller request.now) }
    ensures wide { is_wide caller request.now ≡ true → IsOk result }
{
    match outcome(alloc, state, limits, moment, caller, request) {
        Ok(reply) => Ok(reply),
        Err(Refusal::NoMemory) => Err(AllocError),
        Err(refusal) => Ok(Reply::Refused(refusal)),
    }
}

// What comes of the request: a moment that it names is looked at first, and the budget last.
fn outcome<S: Store<Version>>(
    alloc: Global,
    state: &State<S>,
    limits: &Limits,
    moment: Moment,
    caller: Caller,
    request: &Request,
) -> Result<Reply, Refusal>
    requires stand { LimitsStand (base_of state.now) state.now.history limits.now }
    requires later { last_of state.now.history ≤ moment }
    ensures value { IsOutcome result
        (outcome_of (base_of state.now) state.now.history moment caller request.now) }
    ensures wide { is_wide caller request.now ≡ true → is_wanting result ≡ false }
{
    let horizon = limits.window.horizon(moment);
    timely(horizon, moment, request.at())?;
    let reply = outcome_by_kind(alloc, state, horizon, moment, caller, request)?;
    if let Some(purse) = request.purse(&caller) {
        let charge = Past::of(state, request).charge();
        afford(state, limits, moment, &purse, charge)?;
    }
    Ok(reply)
}

// What comes of the request, by its kind.
fn outcome_by_kind<S: Store<Version>>(
    alloc: Global,
    state: &State<S>,
    horizon: Moment,
    moment: Moment,
    caller: Caller,
    request: &Request,
) -> Result<Reply, Refusal>
    requires horizon { horizon ≡ horizon_at (base_of state.now) state.now.history moment }
    requires later { last_of state.now.history ≤ moment }
    requires told { IsTold state.now (at_of request.now) }
    ensures value { IsOutcome result
        (outcome_by_kind_of (base_of state.now) state.now.history moment caller request.now) }
    ensures wide { is_wide caller request.now ≡ true → is_wanting result ≡ false }
{
    match request {
        Request::Create { number } => {
            let purse = Purse {
                creator: caller.who,
                number: *number,
            };
            create::outcome(state, &purse)
        }
        Request::Delete { object } => delete::outcome(state, moment, caller, object),
        &Request::Read {
            ref object,
            offset,
            length,
            at,
        } => {
            let range = Range { offset, length, at };
            read::outcome(alloc, state, moment, caller, object, range)
        }
        Request::Write {
            object,
            offset,
            bytes,
        } => write::outcome(state, moment, caller, object, *offset, bytes),
        Request::Append { object, bytes } => append::outcome(state, moment, caller, object, bytes),
        Request::Truncate { object, length } => {
            truncate::outcome(state, moment, caller, object, *length)
        }
        Request::GetAttr { object, at } => {
            attributes::get_outcome(state, moment, caller, object, at)
        }
        Request::SetAttr { object, bytes } => {
            attributes::set_outcome(state, moment, caller, object, bytes)
        }
        Request::GetAclByUser { object, user, at } => {
            acl::by_user_outcome(state, moment, caller, object, *user, at)
        }
        Request::GetAclByIndex { object, index, at } => {
            acl::by_index_outcome(state, moment, caller, object, *index, at)
        }
        Request::SetAcl {
            object,
            user,
            rights,
        } => acl::set_outcome(state, moment, caller, object, *user, *rights),
        Request::PCreate { name, object } => {
            partitions::bind_outcome(state, moment, caller, name, object)
        }
        Request::PDelete { purse, name } => {
            partitions::unbind_outcome(state, moment, caller, purse, name)
        }
        Request::PList { range, after, at } => {
            partitions::list_outcome(state, moment, caller, *range, after, at)
        }
        Request::PMount { purse, name, at } => {
            partitions::mount_outcome(state, moment, caller, purse, name, at)
        }
        Request::Flush { from, to } | Request::FlushO { from, to, .. } => {
            administrator::flush_outcome(*from, *to, caller)
        }
        Request::SetWindow { .. } | Request::SetBudget { .. } => administrator::outcome(caller),
        Request::ReadAudit { range, skip } => {
            audit::outcome(state, horizon, &caller, *range, *skip)
        }
    }
}
