//! Putting replies into room that is there.

ghost use Rattle.std.specs.Prelude.{◌*◌, ◌+◌, ◌++◌, ◌<◌, ◌^◌, ◌≡◌, ◌≤◌, length, drop, take, IsTrue};
ghost use Rattle.s4_types.specs.Audit.{number_of_refusal};
ghost use Rattle.s4_types.specs.Limits.{data_in, is_shown_grant, is_within_limits};
ghost use Rattle.s4_types.specs.declared.principal.WireVersion.TheVariants.{One};
ghost use Rattle.s4_types.specs.declared.reply.Refusal.TheVariants as refusals_of;
ghost use Rattle.s4_types.specs.declared.reply.Reply.TheVariants as replies;
ghost use Rattle.s4_codec.specs.Format.{◌&◌, in_place};
ghost use Rattle.s4_codec.specs.Frames.{framed};
ghost use Rattle.s4_codec.specs.Replies as format;
ghost use Rattle.s4_codec.specs.Replies.{bodies, has_body, kind_of, refusals};
ghost use Rattle.s4_codec.specs.Rooms as rooms;
ghost use Rattle.s4_codec.specs.Rooms.{body_room, is_spellable};
ghost use Rattle.s4_codec.specs.Parts as parts;
ghost use Rattle.s4_codec.specs.Versions.{length_width};
ghost use Rattle.s4_codec.specs.Writings.{Adds};

use crate::put_lines::{put_audit_lines, put_name_lines};
use crate::put_parts::{
    put_byte, put_bytes, put_flag, put_grant, put_index, put_moment, put_object, put_right,
    put_rights_given, put_u32, put_user,
};
use crate::room::Room;
use byteorder::{BigEndian, ByteOrder};
use bytes::BytesMut;
use s4_types::{
    AuditLines, Bytes, Grant, NameLines, ObjectId, Refusal, Reply, Rights, User, WireVersion,
};

/// The most bytes of a frame whose reply is within the limits of the version and gives at most
/// `count` bytes of data. In so much room `put_reply` puts any such reply.
pub fn reply_room(version: WireVersion, count: u32) -> usize
    ensures { result ≡ rooms.reply_room version count }
{
    let data = 15 + count.min(version.data_limit()) as usize;
    4 + data.max(3267)
}

/// Adds the reply's frame: the length of its spelling in four bytes, and that spelling
/// (docs/PROTOCOL.md, "Frames" and "Replies"). It takes no memory, so it can't fail.
pub fn put_reply(version: WireVersion, out: &mut BytesMut, reply: &Reply)
    requires within { IsTrue (is_within_limits version reply.now) }
    requires room { rooms.reply_room version (data_in reply.now) ≤ out.old.spare }
    ensures added { out.new.items
        ≡ out.old.items ++ framed ((format.reply version).spell reply.now) }
    // The reply has a spelling that fits in a frame.
    ensures body { IsTrue (has_body version reply.now) }
    ensures left { out.old.spare ≤ out.new.spare + rooms.reply_room version (data_in reply.now) }
{
    let start = out.len();
    put_u32(out, 0);
    put_body(version, out, reply);
    set_length(out, start);
}

/// Has the four bytes from `start` on say how many bytes stand behind them.
fn set_length(out: &mut BytesMut, start: usize)
    requires there { start + 4 ≤ length out.old.items }
    requires few { length (drop (start + 4) out.old.items) < 2 ^ 32 }
    ensures items { out.new.items
        ≡ take start out.old.items ++ framed (drop (start + 4) out.old.items) }
    ensures spare { out.new.spare ≡ out.old.spare }
{
    let count = out.len() - (start + 4);
    BigEndian::write_u32(&mut out.as_mut_slice()[start..], count as u32);
}

/// Adds the reply's spelling.
pub fn put_body<R: Room>(version: WireVersion, out: &mut R, reply: &Reply)
    requires spellable { IsTrue (is_spellable version reply.now) }
    requires room { body_room reply.now ≤ R.spare out.old }
    ensures added { Adds (format.reply version) reply.now (R.items out.old) (R.items out.new) }
    ensures left { R.spare out.old ≤ R.spare out.new + body_room reply.now }
{
    put_byte(out, kind(reply));
    put_fields(version, out, reply);
}

/// The number of a kind of reply.
fn kind(reply: &Reply) -> u8
    ensures { result ≡ kind_of reply.now }
{
    match reply {
        Reply::Done => 0,
        Reply::Made(_) => 1,
        Reply::Data { .. } => 2,
        Reply::Attr { .. } => 3,
        Reply::Entry { .. } => 4,
        Reply::Mounted { .. } => 5,
        Reply::Names { .. } => 6,
        Reply::Audit { .. } => 7,
        Reply::Refused(_) => 8,
    }
}

/// Adds what follows the number of the reply's kind.
fn put_fields<R: Room>(version: WireVersion, out: &mut R, reply: &Reply)
    requires spellable { IsTrue (is_spellable version reply.now) }
    requires room { body_room reply.now ≤ R.spare out.old + 1 }
    ensures added { Adds (in_place (bodies version) (kind_of reply.now)) reply.now
        (R.items out.old) (R.items out.new) }
    ensures left { R.spare out.old + 1 ≤ R.spare out.new + body_room reply.now }
{
    match reply {
        Reply::Done => {}
        Reply::Made(object) => put_object(out, object),
        Reply::Data { grant, bytes } => put_grant_and_bytes(version, out, grant, bytes),
        Reply::Attr { grant, bytes } => put_grant_and_bytes(version, out, grant, bytes),
        Reply::Entry {
            grant,
            index,
            user,
            rights,
        } => put_entry(out, grant, *index, user, rights),
        Reply::Mounted { grant, object } => put_mounted(out, grant, object),
        Reply::Names { lines, more } => put_names(out, lines, *more),
        Reply::Audit { lines, more } => put_audit(out, lines, *more),
        Reply::Refused(refusal) => put_refused(out, refusal),
    }
}

fn put_grant_and_bytes<R: Room>(version: WireVersion, out: &mut R, grant: &Grant, bytes: &Bytes)
    requires shown { IsTrue (is_shown_grant grant.now) }
    requires data { length bytes.now < 256 ^ length_width version }
    requires room { 14 + length bytes.now ≤ R.spare out.old }
    ensures added { Adds (parts.grant & parts.byte_string version) (grant.now, bytes.now)
        (R.items out.old) (R.items out.new) }
    ensures left { R.spare out.old ≤ R.spare out.new + (14 + length bytes.now) }
{
    put_grant(out, grant);
    put_bytes(version, out, bytes);
}

fn put_entry<R: Room>(out: &mut R, grant: &Grant, index: u8, user: &User, rights: &Rights)
    requires spellable { IsTrue
        (is_spellable One (replies.Entry grant.now index user.now rights.now)) }
    requires room { 16 ≤ R.spare out.old }
    ensures added { Adds format.entry (replies.Entry grant.now index user.now rights.now)
        (R.items out.old) (R.items out.new) }
    ensures left { R.spare out.old ≤ R.spare out.new + 16 }
{
    put_grant(out, grant);
    put_index(out, index);
    put_user(out, user);
    put_rights_given(out, rights);
}

fn put_mounted<R: Room>(out: &mut R, grant: &Grant, object: &ObjectId)
    requires spellable { IsTrue (is_spellable One (replies.Mounted grant.now object.now)) }
    requires room { 18 ≤ R.spare out.old }
    ensures added { Adds format.mounted (replies.Mounted grant.now object.now)
        (R.items out.old) (R.items out.new) }
    ensures left { R.spare out.old ≤ R.spare out.new + 18 }
{
    put_grant(out, grant);
    put_object(out, object);
}

fn put_names<R: Room>(out: &mut R, lines: &NameLines, more: bool)
    requires spellable { IsTrue (is_spellable One (replies.Names lines.now more)) }
    requires room { 2 + 51 * length lines.now ≤ R.spare out.old }
    ensures added { Adds format.names (replies.Names lines.now more)
        (R.items out.old) (R.items out.new) }
    ensures left { R.spare out.old ≤ R.spare out.new + (2 + 51 * length lines.now) }
{
    put_name_lines(out, lines.as_slice());
    put_flag(out, more);
}

fn put_audit<R: Room>(out: &mut R, lines: &AuditLines, more: bool)
    requires spellable { IsTrue (is_spellable One (replies.Audit lines.now more)) }
    requires room { 2 + 19 * length lines.now ≤ R.spare out.old }
    ensures added { Adds format.audit (replies.Audit lines.now more)
        (R.items out.old) (R.items out.new) }
    ensures left { R.spare out.old ≤ R.spare out.new + (2 + 19 * length lines.now) }
{
    put_audit_lines(out, lines.as_slice());
    put_flag(out, more);
}

fn put_refused<R: Room>(out: &mut R, refusal: &Refusal)
    requires room { 13 ≤ R.spare out.old }
    ensures added { Adds format.refused (replies.Refused refusal.now)
        (R.items out.old) (R.items out.new) }
    ensures left { R.spare out.old ≤ R.spare out.new + 13 }
{
    put_byte(out, refusal.number());
    put_refusal(out, refusal);
}

/// Adds what a refusal tells, after its number.
fn put_refusal<R: Room>(out: &mut R, refusal: &Refusal)
    requires room { 12 ≤ R.spare out.old }
    ensures added { Adds (in_place refusals (number_of_refusal refusal.now)) refusal.now
        (R.items out.old) (R.items out.new) }
    ensures left { R.spare out.old ≤ R.spare out.new + 12 }
{
    match refusal {
        Refusal::Denied(right) => put_right(out, right),
        Refusal::TooOld { horizon } => put_moment(out, horizon),
        Refusal::OverBudget {
            spent,
            charge,
            budget,
        } => put_over_budget(out, *spent, *charge, *budget),
        Refusal::NoObject
        | Refusal::NoPartition
        | Refusal::Future
        | Refusal::Flushed
        | Refusal::TooLong
        | Refusal::AclFull
        | Refusal::NoEntry
        | Refusal::Exists
        | Refusal::PartsFull
        | Refusal::Named
        | Refusal::NamesSpent
        | Refusal::BadRange
        | Refusal::NoMemory => return,
    }
}

fn put_over_budget<R: Room>(out: &mut R, spent: u32, charge: u32, budget: u32)
    requires room { 12 ≤ R.spare out.old }
    ensures added { Adds format.over_budget (refusals_of.OverBudget spent charge budget)
        (R.items out.old) (R.items out.new) }
    ensures left { R.spare out.old ≤ R.spare out.new + 12 }
{
    put_u32(out, spent);
    put_u32(out, charge);
    put_u32(out, budget);
}
