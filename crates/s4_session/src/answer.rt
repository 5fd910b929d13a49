//! What is sent for what a connection's bytes say.

ghost use Rattle.std.specs.Prelude.{◌≤◌, ◌∷◌, [], IfOk, OnOk};
ghost use Rattle.s4_types.specs.Play.{last_of};
ghost use Rattle.s4_session.specs.Answered.{Answered};

use bytes::BytesMut;
use s4_arena::Arena;
use s4_codec::put_reply;
use s4_drive::Drive;
use s4_stream::{Event, put_fault, put_welcome, reserve_answer};
use s4_types::{Moment, NoMemory, Version};
use std::alloc::Global;

/// Answers events at a moment, the requests by the drive, and gives what is sent for them.
pub fn answer_all(
    alloc: Global,
    drive: &mut Drive<Arena<Version>>,
    moment: Moment,
    events: &[Event],
) -> Result<Vec<u8>, NoMemory>
    requires later { last_of drive.old.history ≤ moment }
    ensures answered { IfOk result
        (λ sent. Answered moment events.now drive.old drive.new [] sent.items) }
    ensures last { last_of drive.new.history ≤ moment }
{
    let mut sent = BytesMut::new(alloc);
    for event in events {
        answer(drive, moment, event, &mut sent)?;
    }
    Ok(sent.into_vec()?)
}

/// Answers an event. Room for what is sent is made before a request is carried out.
fn answer(
    drive: &mut Drive<Arena<Version>>,
    moment: Moment,
    event: &Event,
    out: &mut BytesMut,
) -> Result<(), NoMemory>
    requires later { last_of drive.old.history ≤ moment }
    ensures answered { OnOk result
        (Answered moment (event.now ∷ []) drive.old drive.new out.old.items out.new.items) }
    ensures last { last_of drive.new.history ≤ moment }
{
    reserve_answer(out, event)?;
    match event {
        Event::Welcome(caller) => put_welcome(out, caller.version),
        Event::Request(caller, request) => {
            let reply = drive.step(moment, *caller, request);
            put_reply(caller.version, out, &reply);
        }
        Event::Fault(fault) => put_fault(out, *fault),
    }
    Ok(())
}
