//! Why there is no table of logins.

ghost use Rattle.std.specs.Prelude.{◌≡◌, Some};
ghost use Rattle.s4_logins.specs.Faults.{fault_of_logins, fault_of_text, fault_text};
ghost use Rattle.s4_logins.specs.declared.fault.LoginsFault.TheVariants as fault;

use s4_script::TextFault;
use s4_stream::LoginFault;
use std::alloc::{AllocError, AllocFailed};
use std::fmt;
use thiserror::Error;

/// Why there is no table of logins. Lines count from 1.
#[derive(Debug, Drop, Error)]
pub enum LoginsFault {
    /// This line isn't one, or names a principal again.
    Line(usize),
    /// The logins can't be read, or are no text.
    CannotRead,
    /// Others than the file's owner may write it.
    Unguarded,
    /// There isn't enough memory.
    NoMemory,
}

impl LoginsFault {
    /// The fault of a text that is no table of logins.
    pub fn of(error: LoginFault) -> LoginsFault
        ensures { result ≡ fault_of_logins error }
    {
        match error {
            LoginFault::BadLine(number) | LoginFault::Doubled(number) => LoginsFault::Line(number),
            LoginFault::NoMemory => LoginsFault::NoMemory,
        }
    }
}

impl fmt::Display for LoginsFault {
    ghost output = { λ fault. Some (fault_text fault) };

    fn fmt<W: fmt::Write>(&self, f: &mut fmt::Formatter<W>) -> fmt::Result {
        match self {
            LoginsFault::Line(number) => write!(f, "logins line {number}"),
            LoginsFault::CannotRead => write!(f, "cannot read logins"),
            LoginsFault::Unguarded => write!(f, "others may write the logins"),
            LoginsFault::NoMemory => write!(f, "no memory"),
        }
    }
}

impl From<TextFault> for LoginsFault {
    ghost from_gives = { λ text why. why ≡ fault_of_text text };

    fn from(fault: TextFault) -> LoginsFault {
        match fault {
            TextFault::CannotRead => LoginsFault::CannotRead,
            TextFault::NoMemory => LoginsFault::NoMemory,
        }
    }
}

impl From<AllocError> for LoginsFault {
    ghost from_gives = { λ _ why. why ≡ fault.NoMemory };

    fn from(_: AllocError) -> LoginsFault {
        LoginsFault::NoMemory
    }
}

impl<T: Drop> From<AllocFailed<T>> for LoginsFault {
    ghost from_gives = { λ _ why. why ≡ fault.NoMemory };

    fn from(_: AllocFailed<T>) -> LoginsFault {
        LoginsFault::NoMemory
    }
}
