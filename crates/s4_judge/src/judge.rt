//! Who may do what.

ghost use Rattle.std.specs.Prelude.{◌≡◌};
ghost use Rattle.s4_types.specs.declared.reply.Refusal.TheVariants as refusal;
ghost use Rattle.s4_types.specs.Judgement.{judge_now as judged, judge_past as judged_past, denied_absent};
ghost use Rattle.s4_judge.specs.Held.{shown_held};

use s4_acl::asked_entry;
use s4_types::{Acl, Caller, Grant, Moment, ObjectId, Refusal, Right};

/// An ACL that is in force, and since when.
#[derive(Clone, Copy)]
pub struct Held<'a> {
    pub acl: &'a Acl,
    pub since: Moment,
}

/// Grants or refuses what needs the right now, by the ACL in force. There is none where the object
/// doesn't live.
///
/// `NoObject` is told to the object's creator and to the administrator alone, and anyone else is
/// told `Denied` with the right. The administrator is granted all, and the creator what needs
/// Control. Anyone else is granted what the entry asked has the right for, and else told `Denied`
/// with the right. The entry asked is the caller's own, or where there is none that for everyone.
pub fn judge_now(
    caller: Caller,
    object: &ObjectId,
    held: &Option<Held<'_>>,
    right: Right,
) -> Result<Grant, Refusal>
    ensures { result ≡ judged caller object.now right (shown_held held.now) }
{
    let Some(held) = held else {
        return Err(absent(caller, object, right));
    };
    if caller.who.is_administrator() {
        return Ok(Grant::Admin);
    }
    if right == Right::Control && caller.who == object.purse.creator {
        return Ok(Grant::Owner);
    }
    match asked_entry(held.acl.entries(), caller.who) {
        Some((index, rights)) if rights.has(right) => Ok(Grant::Entry {
            index,
            since: held.since,
        }),
        _ => Err(Refusal::Denied(right)),
    }
}

/// Grants or refuses a request that names a moment, by the ACL that was in force then. It needs
/// Read and then Recover.
///
/// As `judge_now` where the object didn't live, with Read as the right. `Denied` names Read where
/// that lacks, and Recover where it alone lacks.
pub fn judge_past(
    caller: Caller,
    object: &ObjectId,
    held: &Option<Held<'_>>,
) -> Result<Grant, Refusal>
    ensures { result ≡ judged_past caller object.now (shown_held held.now) }
{
    let Some(held) = held else {
        return Err(absent(caller, object, Right::Read));
    };
    if caller.who.is_administrator() {
        return Ok(Grant::Admin);
    }
    let Some((index, rights)) = asked_entry(held.acl.entries(), caller.who) else {
        return Err(Refusal::Denied(Right::Read));
    };
    if !rights.has(Right::Read) {
        Err(Refusal::Denied(Right::Read))
    } else if !rights.has(Right::Recover) {
        Err(Refusal::Denied(Right::Recover))
    } else {
        Ok(Grant::Entry {
            index,
            since: held.since,
        })
    }
}

// What the caller is told of an object that doesn't live.
fn absent(caller: Caller, object: &ObjectId, right: Right) -> Refusal
    ensures { result ≡ denied_absent caller object.now.purse.creator refusal.NoObject right }
{
    if caller.who.is_administrator() || caller.who == object.purse.creator {
        Refusal::NoObject
    } else {
        Refusal::Denied(right)
    }
}
