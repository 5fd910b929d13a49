//! What ends a run before its end.

ghost use Rattle.std.specs.Prelude.{◌≡◌, ◌≢◌, Some};
ghost use Rattle.std.specs.IoError.{error_kind};
ghost use Rattle.s4_run.specs.Faults.{fault_of_line, fault_of_logins, fault_of_text};
ghost use Rattle.s4_run.specs.Texts.{fault_text};
ghost use Rattle.s4_run.specs.declared.fault.RunFault.TheVariants as fault;

use s4_logins::LoginsFault;
use s4_script::{ParseError, TextFault};
use std::alloc::{AllocError, AllocFailed};
use std::io::ErrorKind;
use std::{fmt, io};
use thiserror::Error;

/// Why a run ends before its end. Lines count from 1; docs/SCRIPTS.md says when each comes.
#[derive(Debug, PartialEq, Drop, Error)]
pub enum RunFault {
    /// This line isn't written as a line of its place is.
    BadLine(usize),
    /// The moment of this line is before one above it.
    MomentGoesBack(usize),
    /// The moment of this line's cut is above the horizon.
    CutAboveHorizon(usize),
    /// This line of the logins isn't one, or names a principal again.
    LoginsLine(usize),
    /// The logins can't be read.
    CannotReadLogins,
    /// Others than the owner of the file of the logins may write it.
    UnguardedLogins,
    /// The input failed, or is too long.
    CannotRead,
    /// The output failed.
    CannotWrite,
    /// There isn't enough memory.
    NoMemory,
}

impl RunFault {
    /// The fault of the line with that number, which isn't taken.
    pub fn parsing(error: ParseError, number: usize) -> RunFault
        ensures { result ≡ fault_of_line error number }
    {
        match error {
            ParseError::Bad => RunFault::BadLine(number),
            ParseError::NoMemory => RunFault::NoMemory,
        }
    }

    /// The fault of an output that failed.
    pub fn writing(error: io::Error) -> RunFault
        ensures no_memory { error_kind error ≡ ErrorKind.OutOfMemory → result ≡ fault.NoMemory }
        ensures other { error_kind error ≢ ErrorKind.OutOfMemory → result ≡ fault.CannotWrite }
    {
        match error.kind() {
            ErrorKind::OutOfMemory => RunFault::NoMemory,
            _ => RunFault::CannotWrite,
        }
    }
}

impl fmt::Display for RunFault {
    ghost output = { λ fault. Some (fault_text fault) };

    fn fmt<W: fmt::Write>(&self, f: &mut fmt::Formatter<W>) -> fmt::Result {
        match self {
            RunFault::BadLine(number) => write!(f, "line {number}: bad line"),
            RunFault::MomentGoesBack(number) => write!(f, "line {number}: moment goes back"),
            RunFault::CutAboveHorizon(number) => write!(f, "line {number}: cut above horizon"),
            RunFault::LoginsLine(number) => write!(f, "logins line {number}"),
            RunFault::CannotReadLogins => write!(f, "cannot read logins"),
            RunFault::UnguardedLogins => write!(f, "others may write the logins"),
            RunFault::CannotRead => write!(f, "cannot read"),
            RunFault::CannotWrite => write!(f, "cannot write"),
            RunFault::NoMemory => write!(f, "no memory"),
        }
    }
}

impl From<TextFault> for RunFault {
    ghost from_gives = { λ text why. why ≡ fault_of_text text };

    fn from(fault: TextFault) -> RunFault {
        match fault {
            TextFault::CannotRead => RunFault::CannotRead,
            TextFault::NoMemory => RunFault::NoMemory,
        }
    }
}

impl From<LoginsFault> for RunFault {
    ghost from_gives = { λ logins why. why ≡ fault_of_logins logins };

    fn from(fault: LoginsFault) -> RunFault {
        match fault {
            LoginsFault::Line(number) => RunFault::LoginsLine(number),
            LoginsFault::CannotRead => RunFault::CannotReadLogins,
            LoginsFault::Unguarded => RunFault::UnguardedLogins,
            LoginsFault::NoMemory => RunFault::NoMemory,
        }
    }
}

impl From<AllocError> for RunFault {
    ghost from_gives = { λ _ why. why ≡ fault.NoMemory };

    fn from(_: AllocError) -> RunFault {
        RunFault::NoMemory
    }
}

impl<T: Drop> From<AllocFailed<T>> for RunFault {
    ghost from_gives = { λ _ why. why ≡ fault.NoMemory };

    fn from(_: AllocFailed<T>) -> RunFault {
        RunFault::NoMemory
    }
}
