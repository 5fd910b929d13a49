//! Why a server ends without success.

ghost use Rattle.std.specs.Prelude.{◌≡◌, Some};
ghost use Rattle.s4_server.specs.Faults.{fault_of, fault_text};
ghost use Rattle.s4_server.specs.declared.fault.ServerFault.TheVariants as fault;

use s4_pool::Why;
use std::alloc::{AllocError, AllocFailed};
use std::io::ErrorKind;
use std::{fmt, io};
use thiserror::Error;

/// Why a server ends without success (docs/OPERATIONS.md, "Faults").
#[derive(Debug, Drop, Error)]
pub enum ServerFault {
    /// Not all passes came back.
    Missing,
    /// The cells weren't cut at one moment, or have another window.
    Torn,
    /// There isn't enough memory.
    NoMemory,
    /// The system gives no watch over sockets.
    NoWatch,
}

impl ServerFault {
    /// The fault of a front that can't be closed.
    pub(crate) fn of(why: Why) -> ServerFault
        ensures { result ≡ fault_of why }
    {
        match why {
            Why::Missing => ServerFault::Missing,
            Why::Torn => ServerFault::Torn,
            Why::NoMemory => ServerFault::NoMemory,
        }
    }

    /// The fault where the system gives no watch.
    pub(crate) fn of_watch(error: io::Error) -> ServerFault {
        match error.kind() {
            ErrorKind::OutOfMemory => ServerFault::NoMemory,
            _ => ServerFault::NoWatch,
        }
    }
}

impl fmt::Display for ServerFault {
    ghost output = { λ fault. Some (fault_text fault) };

    fn fmt<W: fmt::Write>(&self, f: &mut fmt::Formatter<W>) -> fmt::Result {
        match self {
            ServerFault::Missing => write!(f, "missing"),
            ServerFault::Torn => write!(f, "torn"),
            ServerFault::NoMemory => write!(f, "no memory"),
            ServerFault::NoWatch => write!(f, "cannot listen"),
        }
    }
}

impl From<AllocError> for ServerFault {
    ghost from_gives = { λ _ why. why ≡ fault.NoMemory };

    fn from(_: AllocError) -> ServerFault {
        ServerFault::NoMemory
    }
}

impl<T: Drop> From<AllocFailed<T>> for ServerFault {
    ghost from_gives = { λ _ why. why ≡ fault.NoMemory };

    fn from(_: AllocFailed<T>) -> ServerFault {
        ServerFault::NoMemory
    }
}
