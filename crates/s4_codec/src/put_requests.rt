//! Putting requests into room that is there.

ghost use Rattle.std.specs.Prelude.{◌+◌, ◌<◌, ◌^◌, ◌≤◌, length};
ghost use Rattle.s4_types.specs.declared.request.Request.TheVariants as requests;
ghost use Rattle.s4_types.specs.Audit.{code_of};
ghost use Rattle.s4_codec.specs.Format.{◌&◌, in_place};
ghost use Rattle.s4_codec.specs.Parts as parts;
ghost use Rattle.s4_codec.specs.Requests as format;
ghost use Rattle.s4_codec.specs.Requests.{bodies};
ghost use Rattle.s4_codec.specs.Rooms.{data_given, request_room};
ghost use Rattle.s4_codec.specs.Versions.{length_width};
ghost use Rattle.s4_codec.specs.Writings.{Adds};

use crate::put_parts::{
    put_byte, put_bytes, put_moment, put_name, put_object, put_optional_after, put_optional_moment,
    put_principal, put_purse, put_purse_number, put_rights, put_u32, put_u64, put_user,
};
use crate::room::Room;
use s4_types::{
    After, Bytes, Moment, Name, ObjectId, Principal, Purse, Request, Rights, User, WireVersion,
};

/// Adds the request's spelling.
pub fn put_request<R: Room>(version: WireVersion, out: &mut R, request: &Request)
    requires data { data_given request.now < 256 ^ length_width version }
    requires room { request_room request.now ≤ R.spare out.old }
    ensures { Adds (format.request version) request.now (R.items out.old) (R.items out.new) }
{
    put_byte(out, request.code());
    put_fields(version, out, request);
}

/// Adds what follows the number of the request's kind.
fn put_fields<R: Room>(version: WireVersion, out: &mut R, request: &Request)
    requires data { data_given request.now < 256 ^ length_width version }
    requires room { request_room request.now ≤ R.spare out.old + 1 }
    ensures { Adds (in_place (bodies version) (code_of request.now)) request.now
        (R.items out.old) (R.items out.new) }
{
    match request {
        Request::Create { number } => put_purse_number(out, number),
        Request::Delete { object } => put_object(out, object),
        Request::Read {
            object,
            offset,
            length,
            at,
        } => put_read(out, object, *offset, *length, at),
        Request::Write {
            object,
            offset,
            bytes,
        } => put_write(version, out, object, *offset, bytes),
        Request::Append { object, bytes } => put_object_and_bytes(version, out, object, bytes),
        Request::Truncate { object, length } => put_truncate(out, object, *length),
        Request::GetAttr { object, at } => put_get_attr(out, object, at),
        Request::SetAttr { object, bytes } => put_object_and_bytes(version, out, object, bytes),
        Request::GetAclByUser { object, user, at } => put_get_acl_by_user(out, object, user, at),
        Request::GetAclByIndex { object, index, at } => put_get_acl_by_index(
            out, object, *index, at,
        ),
        Request::SetAcl {
            object,
            user,
            rights,
        } => put_set_acl(out, object, user, rights),
        Request::PCreate { name, object } => put_pcreate(out, name, object),
        Request::PDelete { purse, name } => put_pdelete(out, purse, name),
        Request::PList { range, after, at } => put_plist(out, range, after, at),
        Request::PMount { purse, name, at } => put_pmount(out, purse, name, at),
        Request::Flush { from, to } => put_flush(out, from, to),
        Request::FlushO { object, from, to } => put_flush_object(out, object, from, to),
        Request::SetWindow { ticks } => put_u64(out, *ticks),
        Request::SetBudget { purse, budget } => put_set_budget(out, purse, *budget),
        Request::ReadAudit { range, skip } => put_read_audit(out, range, *skip),
    }
}

fn put_read<R: Room>(out: &mut R, object: &ObjectId, offset: u32, length: u32, at: &Option<Moment>)
    requires room { 25 ≤ R.spare out.old }
    ensures { Adds format.read (requests.Read object.now offset length at.now)
        (R.items out.old) (R.items out.new) }
{
    put_object(out, object);
    put_u32(out, offset);
    put_u32(out, length);
    put_optional_moment(out, at);
}

fn put_write<R: Room>(
    version: WireVersion,
    out: &mut R,
    object: &ObjectId,
    offset: u32,
    bytes: &Bytes,
)
    requires data { length bytes.now < 256 ^ length_width version }
    requires room { 16 + length bytes.now ≤ R.spare out.old }
    ensures { Adds (format.write version) (requests.Write object.now offset bytes.now)
        (R.items out.old) (R.items out.new) }
{
    put_object(out, object);
    put_u32(out, offset);
    put_bytes(version, out, bytes);
}

fn put_object_and_bytes<R: Room>(
    version: WireVersion,
    out: &mut R,
    object: &ObjectId,
    bytes: &Bytes,
)
    requires data { length bytes.now < 256 ^ length_width version }
    requires room { 12 + length bytes.now ≤ R.spare out.old }
    ensures { Adds (parts.object & parts.byte_string version) (object.now, bytes.now)
        (R.items out.old) (R.items out.new) }
{
    put_object(out, object);
    put_bytes(version, out, bytes);
}

fn put_truncate<R: Room>(out: &mut R, object: &ObjectId, length: u32)
    requires room { 12 ≤ R.spare out.old }
    ensures { Adds format.truncate (requests.Truncate object.now length)
        (R.items out.old) (R.items out.new) }
{
    put_object(out, object);
    put_u32(out, length);
}

fn put_get_attr<R: Room>(out: &mut R, object: &ObjectId, at: &Option<Moment>)
    requires room { 17 ≤ R.spare out.old }
    ensures { Adds format.get_attr (requests.GetAttr object.now at.now)
        (R.items out.old) (R.items out.new) }
{
    put_object(out, object);
    put_optional_moment(out, at);
}

fn put_get_acl_by_user<R: Room>(out: &mut R, object: &ObjectId, user: &User, at: &Option<Moment>)
    requires room { 21 ≤ R.spare out.old }
    ensures { Adds format.get_acl_by_user (requests.GetAclByUser object.now user.now at.now)
        (R.items out.old) (R.items out.new) }
{
    put_object(out, object);
    put_user(out, user);
    put_optional_moment(out, at);
}

fn put_get_acl_by_index<R: Room>(out: &mut R, object: &ObjectId, index: u8, at: &Option<Moment>)
    requires room { 18 ≤ R.spare out.old }
    ensures { Adds format.get_acl_by_index (requests.GetAclByIndex object.now index at.now)
        (R.items out.old) (R.items out.new) }
{
    put_object(out, object);
    put_byte(out, index);
    put_optional_moment(out, at);
}

fn put_set_acl<R: Room>(out: &mut R, object: &ObjectId, user: &User, rights: &Rights)
    requires room { 13 ≤ R.spare out.old }
    ensures { Adds format.set_acl (requests.SetAcl object.now user.now rights.now)
        (R.items out.old) (R.items out.new) }
{
    put_object(out, object);
    put_user(out, user);
    put_rights(out, rights);
}

fn put_pcreate<R: Room>(out: &mut R, name: &Name, object: &ObjectId)
    requires room { 41 ≤ R.spare out.old }
    ensures { Adds format.pcreate (requests.PCreate name.now object.now)
        (R.items out.old) (R.items out.new) }
{
    put_name(out, name);
    put_object(out, object);
}

fn put_pdelete<R: Room>(out: &mut R, purse: &Purse, name: &Name)
    requires room { 38 ≤ R.spare out.old }
    ensures { Adds format.pdelete (requests.PDelete purse.now name.now)
        (R.items out.old) (R.items out.new) }
{
    put_purse(out, purse);
    put_name(out, name);
}

fn put_plist<R: Room>(out: &mut R, range: &Principal, after: &Option<After>, at: &Option<Moment>)
    requires room { 48 ≤ R.spare out.old }
    ensures { Adds format.plist (requests.PList range.now after.now at.now)
        (R.items out.old) (R.items out.new) }
{
    put_principal(out, range);
    put_optional_after(out, after);
    put_optional_moment(out, at);
}

fn put_pmount<R: Room>(out: &mut R, purse: &Purse, name: &Name, at: &Option<Moment>)
    requires room { 47 ≤ R.spare out.old }
    ensures { Adds format.pmount (requests.PMount purse.now name.now at.now)
        (R.items out.old) (R.items out.new) }
{
    put_purse(out, purse);
    put_name(out, name);
    put_optional_moment(out, at);
}

fn put_flush<R: Room>(out: &mut R, from: &Moment, to: &Moment)
    requires room { 16 ≤ R.spare out.old }
    ensures { Adds format.flush (requests.Flush from.now to.now)
        (R.items out.old) (R.items out.new) }
{
    put_moment(out, from);
    put_moment(out, to);
}

fn put_flush_object<R: Room>(out: &mut R, object: &ObjectId, from: &Moment, to: &Moment)
    requires room { 24 ≤ R.spare out.old }
    ensures { Adds format.flush_object (requests.FlushO object.now from.now to.now)
        (R.items out.old) (R.items out.new) }
{
    put_object(out, object);
    put_moment(out, from);
    put_moment(out, to);
}

fn put_set_budget<R: Room>(out: &mut R, purse: &Purse, budget: u32)
    requires room { 9 ≤ R.spare out.old }
    ensures { Adds format.set_budget (requests.SetBudget purse.now budget)
        (R.items out.old) (R.items out.new) }
{
    put_purse(out, purse);
    put_u32(out, budget);
}

fn put_read_audit<R: Room>(out: &mut R, range: &Principal, skip: u32)
    requires room { 8 ≤ R.spare out.old }
    ensures { Adds format.read_audit (requests.ReadAudit range.now skip)
        (R.items out.old) (R.items out.new) }
{
    put_principal(out, range);
    put_u32(out, skip);
}
