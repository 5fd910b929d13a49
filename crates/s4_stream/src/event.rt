//! What a connection's bytes say.

ghost use Rattle.std.specs.Prelude.{◌≡◌};
ghost use Rattle.s4_stream.specs.Talk.{fault_number};

use s4_types::{Caller, Request};

/// Why a connection ends.
#[derive(Clone, Copy, Debug, PartialEq, Eq)]
pub enum SessionFault {
    /// A body is no spelling of what may stand there.
    Malformed,
    /// A Hello's principal may not log in, or its secret is another one.
    BadLogin,
    /// A frame has no body, or one above the limit.
    FrameLength,
}

impl SessionFault {
    /// The number that tells it in a frame, 1 to 3 (docs/PROTOCOL.md, "Faults").
    pub fn number(&self) -> u8
        ensures { result ≡ fault_number self.now }
    {
        match self {
            SessionFault::Malformed => 1,
            SessionFault::BadLogin => 2,
            SessionFault::FrameLength => 3,
        }
    }
}

/// What a whole frame says.
#[derive(Drop)]
pub enum Event {
    /// A good Hello.
    Welcome(Caller),
    /// A request of the caller whom the Hello named.
    Request(Caller, Request),
    /// What ends the connection.
    Fault(SessionFault),
}

/// Where a connection stands.
#[derive(Clone, Copy)]
pub enum SessionState {
    /// Its Hello is still to come.
    Greeting,
    /// Its requests come from this caller.
    Open(Caller),
    /// A fault ended it.
    Closed,
}
