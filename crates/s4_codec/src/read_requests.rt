//! Reading requests.

ghost use Rattle.std.specs.Prelude.{◌≡◌, ◌≢◌, IfOk, IsErrOf};
ghost use Rattle.s4_types.specs.declared.request.Request.{Request};
ghost use Rattle.s4_codec.specs.Format.{in_place};
ghost use Rattle.s4_codec.specs.Requests as format;
ghost use Rattle.s4_codec.specs.Requests.{bodies, request_in, IsRequestBody};
ghost use Rattle.s4_codec.specs.Readings.{Gives, Reads, Takes};
ghost use Rattle.s4_types.specs.declared.principal.WireVersion as versions;
ghost use Rattle.s4_codec.specs.declared.error.ReadError.TheVariants as read_error;

use crate::error::ReadError;
use crate::input::Input;
use crate::read_bodies::{Message, read_whole};
use crate::read_parts::{Part, read_byte, read_bytes, read_u64};
use s4_types::{ObjectId, PurseNo, Request, WireVersion};
use std::alloc::Global;

/// The request that the body spells (docs/PROTOCOL.md, "Requests").
pub fn read_request(version: WireVersion, alloc: Global, body: &[u8]) -> Result<Request, ReadError>
    // The body is the spelling of what is read.
    ensures read { IfOk result (λ request. IsRequestBody version body.now request) }
    // What is malformed is the spelling of no request.
    ensures malformed { IsErrOf result read_error.Malformed
        → (request : Request) → IsRequestBody version body.now request → ⊥ }
    // What a stream's meaning says of the body.
    ensures meaning { Gives result (request_in version body.now) }
{
    read_whole(version, alloc, body)
}

impl Message for Request {
    ghost format = { format.request };

    fn read(version: WireVersion, alloc: Global, input: &mut Input) -> Result<Request, ReadError> {
        match read_byte(input) {
            Some(code) => read_fields(version, alloc, code, input),
            None => Err(ReadError::Malformed),
        }
    }
}

fn read_fields(
    version: WireVersion,
    alloc: Global,
    code: u8,
    input: &mut Input,
) -> Result<Request, ReadError>
    ensures { Takes result input.new.left.now
        ((in_place (bodies version) code).at input.old.left.now) }
{
    match code {
        4 => read_write(version, alloc, input),
        5 => read_append(version, alloc, input),
        8 => read_set_attr(version, alloc, input),
        _ => read_plain_fields(code, input).ok_or(ReadError::Malformed),
    }
}

/// The fields of a request that has no bytes among them.
fn read_plain_fields(code: u8, input: &mut Input) -> Option<Request>
    requires no_write { code ≢ 4 }
    requires no_append { code ≢ 5 }
    requires no_set_attr { code ≢ 8 }
    ensures { (version : versions.WireVersion) → Reads result input.new.left.now
        ((in_place (bodies version) code).at input.old.left.now) }
{
    match code {
        1 => Some(Request::Create {
            number: PurseNo::read(input)?,
        }),
        2 => Some(Request::Delete {
            object: ObjectId::read(input)?,
        }),
        3 => read_read(input),
        6 => read_truncate(input),
        7 => read_get_attr(input),
        9 => read_get_acl_by_user(input),
        10 => read_get_acl_by_index(input),
        11 => read_set_acl(input),
        12 => read_pcreate(input),
        13 => read_pdelete(input),
        14 => read_plist(input),
        15 => read_pmount(input),
        16 => read_flush(input),
        17 => read_flush_object(input),
        18 => Some(Request::SetWindow {
            ticks: read_u64(input)?,
        }),
        19 => read_set_budget(input),
        20 => read_read_audit(input),
        _ => None,
    }
}

fn read_read(input: &mut Input) -> Option<Request>
    ensures { Reads result input.new.left.now (format.read.at input.old.left.now) }
{
    let (object, (offset, (length, at))) = Part::read(input)?;
    Some(Request::Read {
        object,
        offset,
        length,
        at,
    })
}

fn read_write(version: WireVersion, alloc: Global, input: &mut Input) -> Result<Request, ReadError>
    ensures { Takes result input.new.left.now ((format.write version).at input.old.left.now) }
{
    let (object, offset) = Part::read(input).ok_or(ReadError::Malformed)?;
    let bytes = read_bytes(version, alloc, input)?;
    Ok(Request::Write {
        object,
        offset,
        bytes,
    })
}

fn read_append(version: WireVersion, alloc: Global, input: &mut Input) -> Result<Request, ReadError>
    ensures { Takes result input.new.left.now ((format.append version).at input.old.left.now) }
{
    let object = ObjectId::read(input).ok_or(ReadError::Malformed)?;
    let bytes = read_bytes(version, alloc, input)?;
    Ok(Request::Append { object, bytes })
}

fn read_truncate(input: &mut Input) -> Option<Request>
    ensures { Reads result input.new.left.now (format.truncate.at input.old.left.now) }
{
    let (object, length) = Part::read(input)?;
    Some(Request::Truncate { object, length })
}

fn read_get_attr(input: &mut Input) -> Option<Request>
    ensures { Reads result input.new.left.now (format.get_attr.at input.old.left.now) }
{
    let (object, at) = Part::read(input)?;
    Some(Request::GetAttr { object, at })
}

fn read_set_attr(
    version: WireVersion,
    alloc: Global,
    input: &mut Input,
) -> Result<Request, ReadError>
    ensures { Takes result input.new.left.now ((format.set_attr version).at input.old.left.now) }
{
    let object = ObjectId::read(input).ok_or(ReadError::Malformed)?;
    let bytes = read_bytes(version, alloc, input)?;
    Ok(Request::SetAttr { object, bytes })
}

fn read_get_acl_by_user(input: &mut Input) -> Option<Request>
    ensures { Reads result input.new.left.now (format.get_acl_by_user.at input.old.left.now) }
{
    let (object, (user, at)) = Part::read(input)?;
    Some(Request::GetAclByUser { object, user, at })
}

fn read_get_acl_by_index(input: &mut Input) -> Option<Request>
    ensures { Reads result input.new.left.now (format.get_acl_by_index.at input.old.left.now) }
{
    let (object, (index, at)) = Part::read(input)?;
    Some(Request::GetAclByIndex { object, index, at })
}

fn read_set_acl(input: &mut Input) -> Option<Request>
    ensures { Reads result input.new.left.now (format.set_acl.at input.old.left.now) }
{
    let (object, (user, rights)) = Part::read(input)?;
    Some(Request::SetAcl {
        object,
        user,
        rights,
    })
}

fn read_pcreate(input: &mut Input) -> Option<Request>
    ensures { Reads result input.new.left.now (format.pcreate.at input.old.left.now) }
{
    let (name, object) = Part::read(input)?;
    Some(Request::PCreate { name, object })
}

fn read_pdelete(input: &mut Input) -> Option<Request>
    ensures { Reads result input.new.left.now (format.pdelete.at input.old.left.now) }
{
    let (purse, name) = Part::read(input)?;
    Some(Request::PDelete { purse, name })
}

fn read_plist(input: &mut Input) -> Option<Request>
    ensures { Reads result input.new.left.now (format.plist.at input.old.left.now) }
{
    let (range, (after, at)) = Part::read(input)?;
    Some(Request::PList { range, after, at })
}

fn read_pmount(input: &mut Input) -> Option<Request>
    ensures { Reads result input.new.left.now (format.pmount.at input.old.left.now) }
{
    let (purse, (name, at)) = Part::read(input)?;
    Some(Request::PMount { purse, name, at })
}

fn read_flush(input: &mut Input) -> Option<Request>
    ensures { Reads result input.new.left.now (format.flush.at input.old.left.now) }
{
    let (from, to) = Part::read(input)?;
    Some(Request::Flush { from, to })
}

fn read_flush_object(input: &mut Input) -> Option<Request>
    ensures { Reads result input.new.left.now (format.flush_object.at input.old.left.now) }
{
    let (object, (from, to)) = Part::read(input)?;
    Some(Request::FlushO { object, from, to })
}

fn read_set_budget(input: &mut Input) -> Option<Request>
    ensures { Reads result input.new.left.now (format.set_budget.at input.old.left.now) }
{
    let (purse, budget) = Part::read(input)?;
    Some(Request::SetBudget { purse, budget })
}

fn read_read_audit(input: &mut Input) -> Option<Request>
    ensures { Reads result input.new.left.now (format.read_audit.at input.old.left.now) }
{
    let (range, skip) = Part::read(input)?;
    Some(Request::ReadAudit { range, skip })
}
