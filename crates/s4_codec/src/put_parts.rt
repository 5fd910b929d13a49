//! Putting the parts of requests and replies into room that is there.

ghost use Rattle.std.specs.Prelude.{◌+◌, ◌<◌, ◌^◌, ◌≤◌, length, IsTrue};
ghost use Rattle.s4_types.specs.Limits.{is_shown_grant};
ghost use Rattle.s4_codec.specs.Format.{byte, number};
ghost use Rattle.s4_codec.specs.Parts as parts;
ghost use Rattle.s4_codec.specs.Versions.{length_width};
ghost use Rattle.s4_codec.specs.Writings.{Adds};

use crate::room::Room;
use byteorder::{BigEndian, ByteOrder};
use s4_types::{
    After, Bytes, Grant, Moment, Name, ObjectId, Principal, Purse, PurseNo, Right, Rights, Serial,
    User, WireVersion,
};

pub fn put_byte<R: Room>(out: &mut R, value: u8)
    requires room { 1 ≤ R.spare out.old }
    ensures added { Adds byte value (R.items out.old) (R.items out.new) }
    ensures left { R.spare out.old ≤ R.spare out.new + 1 }
{
    out.put(&[value]);
}

fn put_u16<R: Room>(out: &mut R, value: u16)
    requires room { 2 ≤ R.spare out.old }
    ensures added { Adds (number 2) value (R.items out.old) (R.items out.new) }
    ensures left { R.spare out.old ≤ R.spare out.new + 2 }
{
    let mut bytes = [0; 2];
    BigEndian::write_u16(&mut bytes, value);
    out.put(&bytes);
}

pub fn put_u32<R: Room>(out: &mut R, value: u32)
    requires room { 4 ≤ R.spare out.old }
    ensures added { Adds (number 4) value (R.items out.old) (R.items out.new) }
    ensures left { R.spare out.old ≤ R.spare out.new + 4 }
{
    let mut bytes = [0; 4];
    BigEndian::write_u32(&mut bytes, value);
    out.put(&bytes);
}

pub fn put_u64<R: Room>(out: &mut R, value: u64)
    requires room { 8 ≤ R.spare out.old }
    ensures added { Adds (number 8) value (R.items out.old) (R.items out.new) }
    ensures left { R.spare out.old ≤ R.spare out.new + 8 }
{
    let mut bytes = [0; 8];
    BigEndian::write_u64(&mut bytes, value);
    out.put(&bytes);
}

pub fn put_moment<R: Room>(out: &mut R, moment: &Moment)
    requires room { 8 ≤ R.spare out.old }
    ensures added { Adds parts.moment moment.now (R.items out.old) (R.items out.new) }
    ensures left { R.spare out.old ≤ R.spare out.new + 8 }
{
    put_u64(out, moment.tick());
}

pub fn put_principal<R: Room>(out: &mut R, principal: &Principal)
    requires room { 4 ≤ R.spare out.old }
    ensures added { Adds parts.principal principal.now (R.items out.old) (R.items out.new) }
    ensures left { R.spare out.old ≤ R.spare out.new + 4 }
{
    put_u32(out, principal.number());
}

pub fn put_user<R: Room>(out: &mut R, user: &User)
    requires room { 4 ≤ R.spare out.old }
    ensures added { Adds parts.user user.now (R.items out.old) (R.items out.new) }
    ensures left { R.spare out.old ≤ R.spare out.new + 4 }
{
    put_u32(out, user.number());
}

pub fn put_purse_number<R: Room>(out: &mut R, number: &PurseNo)
    requires room { 1 ≤ R.spare out.old }
    ensures added { Adds parts.purse_number number.now (R.items out.old) (R.items out.new) }
    ensures left { R.spare out.old ≤ R.spare out.new + 1 }
{
    put_byte(out, number.number());
}

fn put_serial<R: Room>(out: &mut R, serial: &Serial)
    requires room { 2 ≤ R.spare out.old }
    ensures added { Adds parts.serial serial.now (R.items out.old) (R.items out.new) }
    ensures left { R.spare out.old ≤ R.spare out.new + 2 }
{
    put_u16(out, serial.number());
}

fn put_pad<R: Room>(out: &mut R)
    requires room { 1 ≤ R.spare out.old }
    ensures added { Adds parts.pad 0 (R.items out.old) (R.items out.new) }
    ensures left { R.spare out.old ≤ R.spare out.new + 1 }
{
    put_byte(out, 0);
}

pub fn put_purse<R: Room>(out: &mut R, purse: &Purse)
    requires room { 5 ≤ R.spare out.old }
    ensures added { Adds parts.purse purse.now (R.items out.old) (R.items out.new) }
    ensures left { R.spare out.old ≤ R.spare out.new + 5 }
{
    put_principal(out, &purse.creator);
    put_purse_number(out, &purse.number);
}

pub fn put_object<R: Room>(out: &mut R, object: &ObjectId)
    requires room { 8 ≤ R.spare out.old }
    ensures added { Adds parts.object object.now (R.items out.old) (R.items out.new) }
    ensures left { R.spare out.old ≤ R.spare out.new + 8 }
{
    put_principal(out, &object.purse.creator);
    put_pad(out);
    put_purse_number(out, &object.purse.number);
    put_serial(out, &object.serial);
}

pub fn put_name<R: Room>(out: &mut R, name: &Name)
    requires room { 33 ≤ R.spare out.old }
    ensures added { Adds parts.name name.now (R.items out.old) (R.items out.new) }
    ensures left { R.spare out.old ≤ R.spare out.new + 33 }
{
    let bytes = name.as_slice();
    put_byte(out, bytes.len() as u8);
    out.put(bytes);
}

/// How many bytes of data follow.
fn put_length<R: Room>(version: WireVersion, out: &mut R, count: usize)
    requires fits { count < 256 ^ length_width version }
    requires room { 4 ≤ R.spare out.old }
    ensures added { Adds (number (length_width version)) count
        (R.items out.old) (R.items out.new) }
    ensures left { R.spare out.old ≤ R.spare out.new + 4 }
{
    match version {
        WireVersion::One => put_u16(out, count as u16),
        WireVersion::Two => put_u32(out, count as u32),
    }
}

pub fn put_bytes<R: Room>(version: WireVersion, out: &mut R, bytes: &Bytes)
    requires fits { length bytes.now < 256 ^ length_width version }
    requires room { 4 + length bytes.now ≤ R.spare out.old }
    ensures added { Adds (parts.byte_string version) bytes.now
        (R.items out.old) (R.items out.new) }
    ensures left { R.spare out.old ≤ R.spare out.new + (4 + length bytes.now) }
{
    put_length(version, out, bytes.len());
    out.put(bytes.as_slice());
}

pub fn put_rights<R: Room>(out: &mut R, rights: &Rights)
    requires room { 1 ≤ R.spare out.old }
    ensures added { Adds parts.rights rights.now (R.items out.old) (R.items out.new) }
    ensures left { R.spare out.old ≤ R.spare out.new + 1 }
{
    put_byte(out, rights.number());
}

pub fn put_optional_moment<R: Room>(out: &mut R, at: &Option<Moment>)
    requires room { 9 ≤ R.spare out.old }
    ensures added { Adds parts.optional_moment at.now (R.items out.old) (R.items out.new) }
    ensures left { R.spare out.old ≤ R.spare out.new + 9 }
{
    match at {
        None => put_byte(out, 0),
        Some(moment) => {
            put_byte(out, 1);
            put_moment(out, moment);
        }
    }
}

fn put_after<R: Room>(out: &mut R, after: &After)
    requires room { 34 ≤ R.spare out.old }
    ensures added { Adds parts.after after.now (R.items out.old) (R.items out.new) }
    ensures left { R.spare out.old ≤ R.spare out.new + 34 }
{
    put_purse_number(out, &after.number);
    put_name(out, &after.name);
}

pub fn put_optional_after<R: Room>(out: &mut R, after: &Option<After>)
    requires room { 35 ≤ R.spare out.old }
    ensures added { Adds parts.optional_after after.now (R.items out.old) (R.items out.new) }
    ensures left { R.spare out.old ≤ R.spare out.new + 35 }
{
    match after {
        None => put_byte(out, 0),
        Some(place) => {
            put_byte(out, 1);
            put_after(out, place);
        }
    }
}

pub fn put_rights_given<R: Room>(out: &mut R, rights: &Rights)
    requires some { 0 < rights.now }
    requires room { 1 ≤ R.spare out.old }
    ensures added { Adds parts.rights_given rights.now (R.items out.old) (R.items out.new) }
    ensures left { R.spare out.old ≤ R.spare out.new + 1 }
{
    put_byte(out, rights.number());
}

pub fn put_index<R: Room>(out: &mut R, index: u8)
    requires fits { index < 16 }
    requires room { 1 ≤ R.spare out.old }
    ensures added { Adds parts.index index (R.items out.old) (R.items out.new) }
    ensures left { R.spare out.old ≤ R.spare out.new + 1 }
{
    put_byte(out, index);
}

pub fn put_grant<R: Room>(out: &mut R, grant: &Grant)
    requires shown { IsTrue (is_shown_grant grant.now) }
    requires room { 10 ≤ R.spare out.old }
    ensures added { Adds parts.grant grant.now (R.items out.old) (R.items out.new) }
    ensures left { R.spare out.old ≤ R.spare out.new + 10 }
{
    match grant {
        Grant::Admin => put_byte(out, 0),
        Grant::Owner => {}
        Grant::Entry { index, since } => {
            put_byte(out, 1);
            put_index(out, *index);
            put_moment(out, since);
        }
    }
}

pub fn put_flag<R: Room>(out: &mut R, flag: bool)
    requires room { 1 ≤ R.spare out.old }
    ensures added { Adds parts.flag flag (R.items out.old) (R.items out.new) }
    ensures left { R.spare out.old ≤ R.spare out.new + 1 }
{
    put_byte(out, u8::from(flag));
}

pub fn put_right<R: Room>(out: &mut R, right: &Right)
    requires room { 1 ≤ R.spare out.old }
    ensures added { Adds parts.right_needed right.now (R.items out.old) (R.items out.new) }
    ensures left { R.spare out.old ≤ R.spare out.new + 1 }
{
    put_byte(out, right.number());
}
