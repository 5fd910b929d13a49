//! GetAclByUser, GetAclByIndex and SetAcl: who may do what to an object.

ghost use Rattle.std.specs.Prelude.{◌≡◌, ◌≤◌};
ghost use Rattle.s4_types.specs.declared.request.Request.TheVariants as request;
ghost use Rattle.s4_types.specs.Answer.{outcome_by_kind};
ghost use Rattle.s4_types.specs.Play.{last_of};
ghost use Rattle.s4_types.specs.Log.{base_of};
ghost use Rattle.s4_state.specs.Told.{IsTold};

use s4_acl::{by_index, entry_of, settable};
use s4_state::State;
use s4_store::Store;
use s4_types::{Caller, Moment, ObjectId, Refusal, Reply, Right, Rights, User, Version};

/// The outcome of a GetAclByUser.
pub fn by_user_outcome<S: Store<Version>>(
    state: &State<S>,
    moment: Moment,
    caller: Caller,
    object: &ObjectId,
    user: User,
    at: &Option<Moment>,
) -> Result<Reply, Refusal>
    requires later { last_of state.now.history ≤ moment }
    requires told { IsTold state.now at.now }
    ensures { result ≡ outcome_by_kind (base_of state.now) state.now.history moment caller
        (request.GetAclByUser object.now user at.now) }
{
    let grant = state.judge(caller, object, Right::Read, *at)?;
    match entry_of(state.acl(object, *at), user) {
        Some((index, rights)) => Ok(Reply::Entry {
            grant,
            index,
            user,
            rights,
        }),
        None => Err(Refusal::NoEntry),
    }
}

/// The outcome of a GetAclByIndex.
pub fn by_index_outcome<S: Store<Version>>(
    state: &State<S>,
    moment: Moment,
    caller: Caller,
    object: &ObjectId,
    index: u8,
    at: &Option<Moment>,
) -> Result<Reply, Refusal>
    requires later { last_of state.now.history ≤ moment }
    requires told { IsTold state.now at.now }
    ensures { result ≡ outcome_by_kind (base_of state.now) state.now.history moment caller
        (request.GetAclByIndex object.now index at.now) }
{
    let grant = state.judge(caller, object, Right::Read, *at)?;
    match by_index(state.acl(object, *at), index) {
        Some(entry) => Ok(Reply::Entry {
            grant,
            index,
            user: entry.who,
            rights: entry.rights,
        }),
        None => Err(Refusal::NoEntry),
    }
}

/// The outcome of a SetAcl.
pub fn set_outcome<S: Store<Version>>(
    state: &State<S>,
    moment: Moment,
    caller: Caller,
    object: &ObjectId,
    user: User,
    rights: Rights,
) -> Result<Reply, Refusal>
    requires later { last_of state.now.history ≤ moment }
    ensures { result ≡ outcome_by_kind (base_of state.now) state.now.history moment caller
        (request.SetAcl object.now user rights) }
{
    state.judge(caller, object, Right::Control, None)?;
    settable(state.acl(object, None), user, rights)?;
    Ok(Reply::Done)
}
