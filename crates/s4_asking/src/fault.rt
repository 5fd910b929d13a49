//! What ends requests before all are replied.

ghost use Rattle.std.specs.Prelude.{◌≡◌, Some};
ghost use Rattle.s4_asking.specs.Faults.{ask_fault_text, exit_status};
ghost use Rattle.s4_asking.specs.declared.fault.AskFault.TheVariants as fault;

use crate::line_fault::LineFault;
use s4_client::CallFault;
use std::fmt;
use thiserror::Error;

/// Why not all was asked, or not all was granted.
#[derive(Debug, Drop, Error)]
pub enum AskFault {
    /// There is no connection, or no Welcome.
    Call(CallFault),
    /// This line, which counts from 1, ended it.
    Line(u64, LineFault),
    /// The output failed.
    CannotWrite,
    /// All was asked and replied, and a request was refused.
    Refused,
}

impl AskFault {
    /// What the program exits with.
    pub fn status(&self) -> u8
        ensures { result ≡ exit_status self.now }
    {
        match self {
            AskFault::Refused | AskFault::Line(_, LineFault::Unlike(..)) => 3,
            _ => 1,
        }
    }
}

impl fmt::Display for AskFault {
    ghost output = { λ fault. Some (ask_fault_text fault) };

    fn fmt<W: fmt::Write>(&self, f: &mut fmt::Formatter<W>) -> fmt::Result {
        match self {
            AskFault::Call(fault) => write!(f, "{fault}"),
            AskFault::Line(number, fault) => write!(f, "line {number}: {fault}"),
            AskFault::CannotWrite => write!(f, "cannot write"),
            AskFault::Refused => write!(f, "a request was refused"),
        }
    }
}

impl From<CallFault> for AskFault {
    ghost from_gives = { λ call why. why ≡ fault.Call call };

    fn from(fault: CallFault) -> AskFault {
        AskFault::Call(fault)
    }
}
