//! Why words spell no command.

ghost use Rattle.std.specs.Prelude.{◌≡◌, Some};
ghost use Rattle.s4_command.specs.Faults.{IsFaultOf, exit_status, fault_of_call, fault_text};
ghost use Rattle.s4_command.specs.declared.fault.WordsFault.TheVariants as fault;

use s4_client::CallFault;
use std::alloc::{AllocError, AllocFailed, Global};
use std::fmt;
use thiserror::Error;

/// Why the words of a command line spell no command.
#[derive(Debug, Drop, Error)]
pub enum WordsFault {
    /// They are wrong; the text says how.
    Wrong(String),
    /// A file that one of them names can't be read, or is no text. The text is its path, and why.
    CannotReadFile(String),
    /// They spell no request; the text says which word is wrong.
    BadRequest(String),
    /// They spell a request that has no spelling within a frame.
    TooLong,
    /// There isn't enough memory.
    NoMemory,
}

impl WordsFault {
    /// The fault of words that are wrong, of which the text says how.
    pub fn wrong(alloc: Global, text: &str) -> WordsFault
        ensures { IsFaultOf text.now result }
    {
        String::from_str(alloc, text).map_or_else(WordsFault::from, WordsFault::Wrong)
    }

    /// What the program exits with.
    pub fn status(&self) -> u8
        ensures { result ≡ exit_status self.now }
    {
        match self {
            WordsFault::Wrong(_) => 2,
            _ => 1,
        }
    }
}

impl fmt::Display for WordsFault {
    ghost output = { λ fault. Some (fault_text fault) };

    fn fmt<W: fmt::Write>(&self, f: &mut fmt::Formatter<W>) -> fmt::Result {
        match self {
            WordsFault::Wrong(text) => write!(f, "{text}"),
            WordsFault::CannotReadFile(told) => write!(f, "cannot read {told}"),
            WordsFault::BadRequest(cause) => write!(f, "bad request: {cause}"),
            WordsFault::TooLong => write!(f, "bad request: it is longer than a frame takes"),
            WordsFault::NoMemory => write!(f, "no memory"),
        }
    }
}

impl From<CallFault> for WordsFault {
    ghost from_gives = { λ call why. why ≡ fault_of_call call };

    fn from(fault: CallFault) -> WordsFault {
        match fault {
            CallFault::NoMemory => WordsFault::NoMemory,
            _ => WordsFault::TooLong,
        }
    }
}

impl From<AllocError> for WordsFault {
    ghost from_gives = { λ _ why. why ≡ fault.NoMemory };

    fn from(_: AllocError) -> WordsFault {
        WordsFault::NoMemory
    }
}

impl<T: Drop> From<AllocFailed<T>> for WordsFault {
    ghost from_gives = { λ _ why. why ≡ fault.NoMemory };

    fn from(_: AllocFailed<T>) -> WordsFault {
        WordsFault::NoMemory
    }
}
