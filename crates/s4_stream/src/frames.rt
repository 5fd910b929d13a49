//! The frames that are sent for what is heard.

ghost use Rattle.std.specs.Prelude.{◌≡◌, ◌≤◌, ◌++◌, ◌∷◌, [], OnOk};
ghost use Rattle.s4_codec.specs.Frames.{framed};
ghost use Rattle.s4_stream.specs.Talk.{welcome, fault_frame, room_for};

use crate::event::{Event, SessionFault};
use bytes::BytesMut;
use s4_codec::reply_room;
use s4_types::{NoMemory, WireVersion};

/// The kind of the body that answers a good Hello.
pub const WELCOME: u8 = 16;

/// The kind of the body that tells a fault.
pub const FAULT: u8 = 17;

/// How many bytes the frames of a welcome and of a fault have.
const NOTICE: usize = 6;

/// Makes room for the frame that answers an event, behind the bytes that are there.
pub fn reserve_answer(out: &mut BytesMut, event: &Event) -> Result<(), NoMemory>
    ensures bytes { out.new.items ≡ out.old.items }
    ensures room { OnOk result (room_for event.now ≤ out.new.spare) }
{
    match event {
        Event::Request(caller, request) => {
            out.reserve(reply_room(caller.version, request.data_asked()))
        }
        Event::Welcome(_) | Event::Fault(_) => out.reserve(NOTICE),
    }
}

/// Adds the frame that answers a good Hello of that version, in room that is there.
pub fn put_welcome(out: &mut BytesMut, version: WireVersion)
    requires { 6 ≤ out.old.spare }
    ensures { out.new.items ≡ out.old.items ++ welcome version }
{
    put_notice(out, WELCOME, version.number())
}

/// Adds the frame that tells a fault, in room that is there.
pub fn put_fault(out: &mut BytesMut, fault: SessionFault)
    requires { 6 ≤ out.old.spare }
    ensures { out.new.items ≡ out.old.items ++ fault_frame fault }
{
    put_notice(out, FAULT, fault.number())
}

/// Adds the frame of a kind and a number.
fn put_notice(out: &mut BytesMut, kind: u8, number: u8)
    requires { 6 ≤ out.old.spare }
    ensures { out.new.items ≡ out.old.items ++ framed (kind ∷ number ∷ []) }
{
    out.extend_reserved(&[0, 0, 0, 2, kind, number]);
}
