//! A talk, turn by turn.

ghost use Rattle.std.specs.Prelude.{◌≡◌, [], length};
ghost use Rattle.s4_stream.specs.Stream.{caller_at};
ghost use Rattle.s4_talk.specs.Turning.{FaultIsMet, Intakes, IntakesSo, Sends, Turns, TurnsSo, fresh_talk, scene, told};

use crate::answer::Answer;
use crate::serving::{Service, serve_held};
use bytes::BytesMut;
use s4_stream::{FillError, Logins, Session, SessionFault};
use s4_types::Caller;
use std::alloc::Global;
use std::io::{ErrorKind, Read, Write};
use std::marker::Model;

/// How a talk ends.
#[derive(Clone, Copy, Debug, PartialEq, Eq)]
pub enum TalkEnd {
    /// The peer says no more, and was told all.
    PeerClosed,
    /// The peer was told this fault after all else.
    Faulted(SessionFault),
    /// A read failed. All that was answered before is written.
    ReadFailed,
    /// A write failed, or took no byte.
    WriteFailed,
    /// A growth was refused.
    NoMemory,
}

/// How a turn ends.
#[derive(Clone, Copy, Debug, PartialEq, Eq)]
pub enum TurnEnd {
    /// There may be more to read. All that was read is served.
    More,
    /// Enough was served for a turn. What was read may say more, which the next turn serves.
    Enough,
    /// Nothing is there to read now. All is written.
    Waits,
    /// The writer takes nothing now, and something waits to be written.
    Stuck,
    /// The talk is over.
    Ended(TalkEnd),
}

/// The most bytes that the buffer of what waits keeps where nothing waits.
const KEPT: usize = 16384;

/// A talk with a peer that goes on: its session, the fault that ended that, and the bytes that wait
/// to be written.
#[derive(Drop)]
pub struct Talking {
    alloc: Global,
    session: Session,
    fault: Option<SessionFault>,
    waiting: BytesMut,
}

impl Model for Talking {
    ghost use Rattle.s4_talk.specs.Turning.{Told, told};

    ghost Value = { Told };

    ghost view = { λ t. told t.session t.fault t.waiting.items };

    ghost use Rattle.s4_talk.specs.Turning.{FaultIsMet};

    ghost invariant = { λ t. FaultIsMet t.session t.fault };
}

impl Talking {
    /// A talk in which nothing was said. Takes no memory.
    pub fn open(alloc: Global) -> Talking
        ensures { result ≡ fresh_talk }
    {
        Talking {
            alloc,
            session: Session::open(alloc),
            fault: None,
            waiting: BytesMut::new(alloc),
        }
    }

    /// Writes what waits, serves whole frames, and writes what they are answered. It reads once
    /// where it holds no whole frame, and serves 64 frames at most, and none once 65536 bytes wait or the
    /// answer says that it is enough.
    /// It waits where the reader, the writer or the answer does; with a reader and a writer that
    /// tell `WouldBlock` it ends by `Waits` or `Stuck`, and goes on at the next turn. A read or a
    /// write that was interrupted is tried again.
    pub fn turn<R: Read, W: Write, A: Answer>(
        &mut self,
        logins: &Logins,
        reader: &mut R,
        writer: &mut W,
        answer: &mut A,
    ) -> TurnEnd
        // Of what is held and read a beginning is served, each frame once and in order, and what it
        // is answered is written behind what waited, or waits. The rest is held.
        ensures turns { Turns logins.now
            (scene (R.remaining reader.old) (W.contents writer.old) (A.calls answer.old) self.old)
            (scene (R.remaining reader.new) (W.contents writer.new) (A.calls answer.new) self.new) }
        // What each end says.
        ensures so { TurnsSo result logins.now (R.remaining reader.new) self.new }
    {
        let Talking {
            alloc,
            session,
            fault,
            waiting,
        } = self;
        let end = turn(session, fault, waiting, logins, reader, writer, answer);
        if waiting.is_empty() {
            // Only then does its capacity count the bytes that were taken from its front.
            waiting.clear();
            if waiting.capacity() > KEPT {
                *waiting = BytesMut::new(*alloc);
            }
        }
        end
    }

    /// Who calls in this talk, after a good Hello and up to a fault.
    pub fn caller(&self) -> Option<Caller>
        ensures { result ≡ caller_at self.now.session.state }
    {
        self.session.caller()
    }

    /// The fault that ended the session, also where its frame still waits.
    pub fn fault(&self) -> Option<SessionFault>
        ensures { result ≡ self.now.fault }
    {
        self.fault
    }

    /// How many bytes wait to be written.
    pub fn waiting(&self) -> usize
        ensures { result ≡ length self.now.waiting }
    {
        self.waiting.len()
    }
}

fn turn<R: Read, W: Write, A: Answer>(
    session: &mut Session,
    fault: &mut Option<SessionFault>,
    waiting: &mut BytesMut,
    logins: &Logins,
    reader: &mut R,
    writer: &mut W,
    answer: &mut A,
) -> TurnEnd
    requires { FaultIsMet session.old fault.old }
    ensures turns { Turns logins.now
        (scene (R.remaining reader.old) (W.contents writer.old) (A.calls answer.old)
        (told session.old fault.old waiting.old.items))
        (scene (R.remaining reader.new) (W.contents writer.new) (A.calls answer.new)
        (told session.new fault.new waiting.new.items)) }
    ensures so { TurnsSo result logins.now
        (R.remaining reader.new) (told session.new fault.new waiting.new.items) }
    ensures met { FaultIsMet session.new fault.new }
{
    match send(waiting, writer) {
        Sending::All => {}
        Sending::Later => return TurnEnd::Stuck,
        Sending::Failed => return TurnEnd::Ended(TalkEnd::WriteFailed),
    }
    if let Some(told) = *fault {
        return TurnEnd::Ended(TalkEnd::Faulted(told));
    }
    let end = match take_in(session, fault, waiting, logins, reader, answer) {
        Intake::Served => TurnEnd::More,
        Intake::Enough => TurnEnd::Enough,
        Intake::Waits => return TurnEnd::Waits,
        Intake::AtEnd => return TurnEnd::Ended(TalkEnd::PeerClosed),
        Intake::Failed => return TurnEnd::Ended(TalkEnd::ReadFailed),
        Intake::NoMemory => return TurnEnd::Ended(TalkEnd::NoMemory),
    };
    match send(waiting, writer) {
        Sending::All => {}
        Sending::Later => return TurnEnd::Stuck,
        Sending::Failed => return TurnEnd::Ended(TalkEnd::WriteFailed),
    }
    if let Some(told) = *fault {
        return TurnEnd::Ended(TalkEnd::Faulted(told));
    }
    end
}

/// What a read came to.
#[derive(Clone, Copy)]
enum Intake {
    Served,
    Enough,
    Waits,
    AtEnd,
    Failed,
    NoMemory,
}

/// Serves whole frames. Where none is held it reads once, and serves those that are held then.
fn take_in<R: Read, A: Answer>(
    session: &mut Session,
    fault: &mut Option<SessionFault>,
    waiting: &mut BytesMut,
    logins: &Logins,
    reader: &mut R,
    answer: &mut A,
) -> Intake
    requires met { FaultIsMet session.old fault.old }
    requires none { fault.old ≡ None }
    ensures takes { Intakes logins.now
        (R.remaining reader.old) (R.remaining reader.new)
        (A.calls answer.old) (A.calls answer.new)
        (told session.old fault.old waiting.old.items)
        (told session.new fault.new waiting.new.items) }
    ensures so { IntakesSo result logins.now (R.remaining reader.new)
        (told session.old fault.old waiting.old.items)
        (told session.new fault.new waiting.new.items) }
    ensures met { FaultIsMet session.new fault.new }
{
    match serve_held(session, fault, waiting, logins, answer) {
        Ok(Service::Nothing) => {}
        Ok(Service::All) => return Intake::Served,
        Ok(Service::Enough) => return Intake::Enough,
        Err(_) => return Intake::NoMemory,
    }
    match session.fill(reader) {
        Ok(0) => Intake::AtEnd,
        Ok(_) => match serve_held(session, fault, waiting, logins, answer) {
            Ok(Service::Nothing) | Ok(Service::All) => Intake::Served,
            Ok(Service::Enough) => Intake::Enough,
            Err(_) => Intake::NoMemory,
        },
        Err(FillError::NoMemory) => Intake::NoMemory,
        Err(FillError::Failed(error)) => match error.kind() {
            ErrorKind::WouldBlock => Intake::Waits,
            ErrorKind::Interrupted => Intake::Served,
            _ => Intake::Failed,
        },
    }
}

/// What a writer took.
#[derive(Clone, Copy)]
enum Sending {
    All,
    Later,
    Failed,
}

/// Writes what waits. A write that takes no byte has failed.
fn send<W: Write>(waiting: &mut BytesMut, writer: &mut W) -> Sending
    ensures sends { Sends
        (W.contents writer.old) (W.contents writer.new) waiting.old.items waiting.new.items }
    ensures all { result ≡ Sending.All → waiting.new.items ≡ [] }
{
    for _ in 0..u64::MAX {
        if waiting.is_empty() {
            return Sending::All;
        }
        match writer.write(waiting.as_slice()) {
            Ok(0) => return Sending::Failed,
            Ok(n) => waiting.advance(n),
            Err(error) => match error.kind() {
                ErrorKind::WouldBlock => return Sending::Later,
                ErrorKind::Interrupted => {}
                _ => return Sending::Failed,
            },
        }
    }
    Sending::Later
}
