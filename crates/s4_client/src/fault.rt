//! Why a call has no reply.

ghost use Rattle.std.specs.Prelude.{◌≡◌, Some};
ghost use Rattle.s4_client.specs.Texts.{call_fault_text, fault_name};
ghost use Rattle.s4_client.specs.declared.fault.CallFault.TheVariants as fault;

use s4_stream::SessionFault;
use std::alloc::{AllocError, AllocFailed};
use std::fmt;
use thiserror::Error;

/// Why a call has no reply; docs/SCRIPTS.md says when each comes.
#[derive(Clone, Copy, Debug, PartialEq, Eq, Error)]
pub enum CallFault {
    /// The request has no spelling within a frame.
    BadRequest,
    /// The connection failed or ended before the reply, or gave no spelling of one.
    ConnectionLost,
    /// The session told this fault.
    Session(SessionFault),
    /// There isn't enough memory.
    NoMemory,
}

impl fmt::Display for CallFault {
    ghost output = { λ fault. Some (call_fault_text fault) };

    fn fmt<W: fmt::Write>(&self, f: &mut fmt::Formatter<W>) -> fmt::Result {
        match self {
            CallFault::BadRequest => write!(f, "bad request"),
            CallFault::ConnectionLost => write!(f, "connection lost"),
            CallFault::Session(fault) => {
                let number = fault.number();
                write!(f, "session fault {number}: {}", name_of(*fault))
            }
            CallFault::NoMemory => write!(f, "no memory"),
        }
    }
}

/// The name of a fault of a session (docs/PROTOCOL.md, "Faults").
fn name_of(fault: SessionFault) -> &'static str
    ensures { result.now ≡ fault_name fault }
{
    match fault {
        SessionFault::Malformed => "malformed",
        SessionFault::BadLogin => "bad login",
        SessionFault::FrameLength => "frame length",
    }
}

impl From<AllocError> for CallFault {
    ghost from_gives = { λ _ why. why ≡ fault.NoMemory };

    fn from(_: AllocError) -> CallFault {
        CallFault::NoMemory
    }
}

impl<T: Drop> From<AllocFailed<T>> for CallFault {
    ghost from_gives = { λ _ why. why ≡ fault.NoMemory };

    fn from(_: AllocFailed<T>) -> CallFault {
        CallFault::NoMemory
    }
}
