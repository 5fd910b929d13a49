//! What the parts of requests are: each is in the range that scripts have for it. The functions do
//! nothing.

ghost use Rattle.std.specs.Prelude.{◌<◌, ◌^◌, IfSome};
ghost use Rattle.hex.specs.Hex.{IsBytes};
ghost use Rattle.s4_script.specs.Scripted.{AreRights, IsCount, IsMoment, IsMomentIfAny, IsName, IsObject, IsPlace, IsPrincipal, IsPurse, IsPurseNumber, IsScriptable, IsUser};

use s4_types::{After, Moment, Name, ObjectId, Principal, Purse, PurseNo, Request, Rights, User};

/// Every request is in the ranges that scripts have.
pub(crate) fn of_request(request: &Request)
    ensures { IsScriptable request.now }
{
    match request {
        Request::Create { number } => of_purse_number(*number),
        Request::Delete { object } => of_object(*object, None),
        Request::Read {
            object,
            offset,
            length,
            at,
        } => of_part(*object, *offset, *length, *at),
        Request::Write {
            object,
            offset,
            bytes,
        } => of_bytes(*object, *offset, bytes.as_slice()),
        Request::Append { object, bytes } => of_bytes(*object, 0, bytes.as_slice()),
        Request::Truncate { object, length } => of_part(*object, 0, *length, None),
        Request::GetAttr { object, at } => of_object(*object, *at),
        Request::SetAttr { object, bytes } => of_bytes(*object, 0, bytes.as_slice()),
        Request::GetAclByUser { object, user, at } => of_entry(*object, *user, *at),
        Request::GetAclByIndex { object, index, at } => of_index(*object, *index, *at),
        Request::SetAcl {
            object,
            user,
            rights,
        } => of_rights(*object, *user, *rights),
        Request::PCreate { name, object } => of_binding(name, *object),
        Request::PDelete { purse, name } => of_name(*purse, name, None),
        Request::PList { range, after, at } => of_page(*range, after, *at),
        Request::PMount { purse, name, at } => of_name(*purse, name, *at),
        Request::Flush { from, to } => of_time(*from, *to),
        Request::FlushO { object, from, to } => of_past(*object, *from, *to),
        Request::SetWindow { ticks } => of_ticks(*ticks),
        Request::SetBudget { purse, budget } => of_budget(*purse, *budget),
        Request::ReadAudit { range, skip } => of_audit(*range, *skip),
    }
}

fn of_purse_number(number: PurseNo)
    ensures { IsPurseNumber number }
{}

fn of_object(object: ObjectId, at: Option<Moment>)
    ensures object { IsObject object }
    ensures at { IsMomentIfAny at }
{}

fn of_part(object: ObjectId, offset: u32, length: u32, at: Option<Moment>)
    ensures object { IsObject object }
    ensures offset { IsCount offset }
    ensures length { IsCount length }
    ensures at { IsMomentIfAny at }
{}

fn of_bytes(object: ObjectId, offset: u32, bytes: &[u8])
    ensures object { IsObject object }
    ensures offset { IsCount offset }
    ensures bytes { IsBytes bytes.now }
{}

fn of_entry(object: ObjectId, user: User, at: Option<Moment>)
    ensures object { IsObject object }
    ensures user { IsUser user }
    ensures at { IsMomentIfAny at }
{}

fn of_index(object: ObjectId, index: u8, at: Option<Moment>)
    ensures object { IsObject object }
    ensures index { index < 2 ^ 8 }
    ensures at { IsMomentIfAny at }
{}

fn of_rights(object: ObjectId, user: User, rights: Rights)
    ensures object { IsObject object }
    ensures user { IsUser user }
    ensures rights { AreRights rights }
{}

fn of_name(purse: Purse, name: &Name, at: Option<Moment>)
    ensures purse { IsPurse purse }
    ensures name { IsName name.now }
    ensures at { IsMomentIfAny at }
{
    let _bytes = name.as_slice();
}

fn of_binding(name: &Name, object: ObjectId)
    ensures name { IsName name.now }
    ensures object { IsObject object }
{
    let _bytes = name.as_slice();
}

fn of_page(range: Principal, after: &Option<After>, at: Option<Moment>)
    ensures range { IsPrincipal range }
    ensures after { IfSome after.now IsPlace }
    ensures at { IsMomentIfAny at }
{
    if let Some(after) = after {
        of_purse_number(after.number);
        let _bytes = after.name.as_slice();
    }
}

fn of_time(from: Moment, to: Moment)
    ensures from { IsMoment from }
    ensures to { IsMoment to }
{}

fn of_past(object: ObjectId, from: Moment, to: Moment)
    ensures object { IsObject object }
    ensures from { IsMoment from }
    ensures to { IsMoment to }
{}

fn of_ticks(ticks: u64)
    ensures { IsMoment ticks }
{}

fn of_budget(purse: Purse, budget: u32)
    ensures purse { IsPurse purse }
    ensures budget { IsCount budget }
{}

fn of_audit(range: Principal, skip: u32)
    ensures range { IsPrincipal range }
    ensures skip { IsCount skip }
{}
