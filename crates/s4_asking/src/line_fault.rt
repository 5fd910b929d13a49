//! What ends requests at a line.

ghost use Rattle.std.specs.Prelude.{◌≡◌, Some};
ghost use Rattle.std.specs.Fmt.{DisplaysOnOk};
ghost use Rattle.s4_asking.specs.Faults.{line_fault_text, unlike_text};
ghost use Rattle.s4_asking.specs.declared.line_fault.LineFault.TheVariants as fault;

use s4_client::CallFault;
use std::alloc::{AllocError, AllocFailed};
use std::fmt;
use thiserror::Error;

/// The most bytes of a line, without the line feed behind it.
pub const LINE_LIMIT: usize = 524288;

/// What ends requests at a line (docs/SCRIPTS.md, "Lines of calls").
#[derive(Debug, Drop, Error)]
pub enum LineFault {
    /// The input failed.
    CannotRead,
    /// The input ends within the line.
    Cut,
    /// It has more bytes than `LINE_LIMIT`.
    TooLong,
    /// It has no bytes.
    Empty,
    /// A carriage return stands behind the reply that is wanted.
    Return,
    /// It asks for nothing; the text says which word is wrong.
    BadRequest(String),
    /// It asks for what has no spelling within a frame.
    TooBig,
    /// The logins don't have its principal, whose number this is.
    NoLogin(u32),
    /// Its principal has no connection; the text says why.
    CannotConnect(String),
    /// Its request has no reply.
    Call(CallFault),
    /// Its request has a reply with the first text, and the second one was wanted.
    Unlike(String, String),
    /// There isn't enough memory.
    NoMemory,
}

impl fmt::Display for LineFault {
    ghost output = { λ fault. Some (line_fault_text fault) };

    fn fmt<W: fmt::Write>(&self, f: &mut fmt::Formatter<W>) -> fmt::Result {
        match self {
            LineFault::CannotRead => write!(f, "cannot read"),
            LineFault::Cut => write!(f, "bad request: no line feed stands behind it"),
            LineFault::TooLong => write!(f, "bad request: it has more than 524288 bytes"),
            LineFault::Empty => write!(f, "bad request: the line is empty"),
            LineFault::Return => {
                write!(f, "bad request: a carriage return stands behind the reply")
            }
            LineFault::BadRequest(cause) => write!(f, "bad request: {cause}"),
            LineFault::TooBig => write!(f, "bad request: it is longer than a frame takes"),
            LineFault::NoLogin(who) => write!(f, "the logins have no principal {who}"),
            LineFault::CannotConnect(cause) => write!(f, "cannot connect: {cause}"),
            LineFault::Call(fault) => write!(f, "{fault}"),
            LineFault::Unlike(told, wanted) => write_unlike(told.as_str(), wanted.as_str(), f),
            LineFault::NoMemory => write!(f, "no memory"),
        }
    }
}

/// Writes that a reply isn't the one that is wanted.
fn write_unlike<W: fmt::Write>(told: &str, wanted: &str, f: &mut fmt::Formatter<W>) -> fmt::Result
    ensures { DisplaysOnOk W.write_str_gives f.old result (Some (unlike_text told.now wanted.now)) f.new }
{
    write!(f, "the reply is '{told}'")?;
    write!(f, ", and '{wanted}' is wanted")
}

impl From<CallFault> for LineFault {
    ghost from_gives = { λ call why. why ≡ fault.Call call };

    fn from(fault: CallFault) -> LineFault {
        LineFault::Call(fault)
    }
}

impl From<AllocError> for LineFault {
    ghost from_gives = { λ _ why. why ≡ fault.NoMemory };

    fn from(_: AllocError) -> LineFault {
        LineFault::NoMemory
    }
}

impl<T: Drop> From<AllocFailed<T>> for LineFault {
    ghost from_gives = { λ _ why. why ≡ fault.NoMemory };

    fn from(_: AllocFailed<T>) -> LineFault {
        LineFault::NoMemory
    }
}
