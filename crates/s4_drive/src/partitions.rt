//! PCreate, PDelete, PList and PMount: names of objects.

ghost use Rattle.std.specs.Prelude.{◌≡◌, ◌≤◌};
ghost use Rattle.s4_types.specs.declared.request.Request.TheVariants as request;
ghost use Rattle.s4_types.specs.Answer.{outcome_by_kind};
ghost use Rattle.s4_types.specs.Judgement.{denied_absent};
ghost use Rattle.s4_types.specs.declared.reply.Refusal.TheVariants as refusal;
ghost use Rattle.s4_types.specs.Play.{last_of};
ghost use Rattle.s4_types.specs.Log.{base_of};
ghost use Rattle.s4_state.specs.Told.{IsTold};
ghost use Rattle.s4_drive.specs.Step.{IsOutcome};

use s4_state::State;
use s4_store::Store;
use s4_types::{
    After, Caller, Moment, Name, ObjectId, Principal, Purse, Refusal, Reply, Right, Version,
};

/// The outcome of a PCreate.
pub fn bind_outcome<S: Store<Version>>(
    state: &State<S>,
    moment: Moment,
    caller: Caller,
    name: &Name,
    object: &ObjectId,
) -> Result<Reply, Refusal>
    requires later { last_of state.now.history ≤ moment }
    ensures { result ≡ outcome_by_kind (base_of state.now) state.now.history moment caller
        (request.PCreate name.now object.now) }
{
    state.judge(caller, object, Right::Control, None)?;
    if state.bound(&object.purse, name, None).is_some() {
        return Err(Refusal::Exists);
    }
    if state.bound_count(&object.purse) >= 64 {
        return Err(Refusal::PartsFull);
    }
    Ok(Reply::Done)
}

/// The outcome of a PDelete.
pub fn unbind_outcome<S: Store<Version>>(
    state: &State<S>,
    moment: Moment,
    caller: Caller,
    purse: &Purse,
    name: &Name,
) -> Result<Reply, Refusal>
    requires later { last_of state.now.history ≤ moment }
    ensures { result ≡ outcome_by_kind (base_of state.now) state.now.history moment caller
        (request.PDelete purse.now name.now) }
{
    let Some(object) = state.bound(purse, name, None) else {
        return Err(unbound(caller, purse, Right::Control));
    };
    state.judge(caller, &object, Right::Control, None)?;
    Ok(Reply::Done)
}

/// The outcome of a PList.
pub fn list_outcome<S: Store<Version>>(
    state: &State<S>,
    moment: Moment,
    caller: Caller,
    range: Principal,
    after: &Option<After>,
    at: &Option<Moment>,
) -> Result<Reply, Refusal>
    requires later { last_of state.now.history ≤ moment }
    requires told { IsTold state.now at.now }
    ensures { IsOutcome result (outcome_by_kind (base_of state.now) state.now.history moment caller
        (request.PList range after.now at.now)) }
{
    match state.page(moment, caller, range, after, at) {
        Ok(page) => Ok(Reply::Names {
            lines: page.lines,
            more: page.more,
        }),
        Err(_) => Err(Refusal::NoMemory),
    }
}

/// The outcome of a PMount.
pub fn mount_outcome<S: Store<Version>>(
    state: &State<S>,
    moment: Moment,
    caller: Caller,
    purse: &Purse,
    name: &Name,
    at: &Option<Moment>,
) -> Result<Reply, Refusal>
    requires later { last_of state.now.history ≤ moment }
    requires told { IsTold state.now at.now }
    ensures { result ≡ outcome_by_kind (base_of state.now) state.now.history moment caller
        (request.PMount purse.now name.now at.now) }
{
    let Some(object) = state.bound(purse, name, *at) else {
        return Err(unbound(caller, purse, Right::Read));
    };
    let grant = state.judge(caller, &object, Right::Read, *at)?;
    Ok(Reply::Mounted { grant, object })
}

// What is told of a name that isn't bound.
fn unbound(caller: Caller, purse: &Purse, right: Right) -> Refusal
    ensures { result ≡ denied_absent caller purse.now.creator refusal.NoPartition right }
{
    if caller.who.is_administrator() || caller.who == purse.creator {
        Refusal::NoPartition
    } else {
        Refusal::Denied(right)
    }
}
