//! What a session holds is served.

ghost use Rattle.std.specs.Prelude.{◌≡◌, ◌≤◌, ◌∷◌, []};
ghost use Rattle.s4_stream.specs.Talk.{room_for};
ghost use Rattle.s4_talk.specs.Turning.{FaultIsMet, Serves, ServesSo, Takes, told};

use crate::answer::Answer;
use bytes::BytesMut;
use s4_codec::put_reply;
use s4_stream::{Event, Logins, Session, SessionFault, put_fault, put_welcome};
use s4_types::NoMemory;

/// How many frames a turn serves at most.
const FRAMES: usize = 64;

/// Once so many bytes wait to be written, a turn serves no further frame.
const BYTES: usize = 65536;

/// How much of what a session holds was served.
#[derive(Clone, Copy)]
pub enum Service {
    /// Nothing, since it held no whole frame.
    Nothing,
    /// All whole frames.
    All,
    /// As much as is enough for a turn. It may hold more.
    Enough,
}

/// Serves the whole frames that the session holds, in turn, until that is enough, as the answer says
/// too, or there is no memory for one. A frame for which there was none is still held.
pub fn serve_held<A: Answer>(
    session: &mut Session,
    fault: &mut Option<SessionFault>,
    waiting: &mut BytesMut,
    logins: &Logins,
    answer: &mut A,
) -> Result<Service, NoMemory>
    requires { FaultIsMet session.old fault.old }
    ensures takes { Takes logins.now [] (A.calls answer.old) (A.calls answer.new)
        (told session.old fault.old waiting.old.items)
        (told session.new fault.new waiting.new.items) }
    ensures so { ServesSo result logins.now (told session.old fault.old waiting.old.items)
        (told session.new fault.new waiting.new.items) }
    ensures met { FaultIsMet session.new fault.new }
{
    for served in 0..FRAMES {
        let Some(event) = session.next(logins, waiting)? else {
            return Ok(if served == 0 {
                Service::Nothing
            } else {
                Service::All
            });
        };
        answer_event(fault, waiting, event, answer);
        if waiting.len() >= BYTES || answer.is_enough() {
            return Ok(Service::Enough);
        }
    }
    Ok(Service::Enough)
}

/// Serves an event in room that is there: a good Hello by the Welcome, a request by its reply, a
/// fault by its frame.
fn answer_event<A: Answer>(
    fault: &mut Option<SessionFault>,
    waiting: &mut BytesMut,
    event: Event,
    answer: &mut A,
)
    requires { room_for event ≤ waiting.old.spare }
    ensures { Serves (event ∷ []) (A.calls answer.old) (A.calls answer.new)
        fault.old fault.new waiting.old.items waiting.new.items }
{
    match event {
        Event::Welcome(caller) => put_welcome(waiting, caller.version),
        Event::Request(caller, request) => {
            let version = caller.version;
            let reply = answer.answer(caller, request);
            put_reply(version, waiting, &reply);
        }
        Event::Fault(told) => {
            put_fault(waiting, told);
            *fault = Some(told);
        }
    }
}
