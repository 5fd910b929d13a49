//! What ends the program without success.

ghost use Rattle.std.specs.Prelude.{◌≡◌, ◌++◌, Some, codes};
ghost use Rattle.s4_commands.specs.Faults.{exit_status, fault_text};
ghost use Rattle.s4_commands.specs.declared.fault.Fault.TheVariants as fault;
ghost use Rattle.s4_run.specs.Faults.{fault_of_logins};
ghost use Rattle.s4_run.specs.declared.fault.RunFault.TheVariants as run_fault;

use s4_asking::AskFault;
use s4_client::CallFault;
use s4_command::WordsFault;
use s4_logins::LoginsFault;
use s4_run::RunFault;
use s4_server::ServerFault;
use s4_starts::StartFault;
use std::alloc::{AllocError, AllocFailed};
use std::fmt;
use thiserror::Error;

/// Why the program ends without success.
#[derive(Debug, Drop, Error)]
pub enum Fault {
    /// The words of the command line spell no command.
    CommandLine(WordsFault),
    /// The run ended so.
    Run(RunFault),
    /// It ended so, and the text says why.
    RunCaused(RunFault, String),
    /// The same, where why is told in a second line.
    Explained(RunFault, String),
    /// So many of so many files have lines that aren't taken, or can't be read.
    BadFiles(usize, usize),
    /// The file with the setup of a server can't be read, or is no text. The text is its path, and why.
    CannotReadFile(String),
    /// The call has no reply.
    Call(CallFault),
    /// No connection was made; the text says why.
    CannotConnect(String),
    /// Not all lines of requests were asked, or not all was granted.
    Ask(AskFault),
    /// The file that ends a server is there before it begins.
    EndIsThere,
    /// It can't be told whether the file that ends a server is there; the text says why.
    CannotLook(String),
    /// The line of this number in the setup of a server is none, and the text says why; or it is refused,
    /// and that is the text of the reply.
    SetupLine(usize, String),
    /// A file in which a server tells of itself can't be written. The text is its path, and why.
    CannotWriteFile(String),
    /// The address of a server can't be had; the text says why.
    CannotListen(String),
    /// The server ended so.
    Serve(ServerFault),
    /// The journal can't be told of, or isn't sound.
    History(StartFault),
    /// It can't be told of, and the text says why.
    HistoryCaused(StartFault, String),
}

impl Fault {
    /// What the program exits with.
    pub fn status(&self) -> u8
        ensures { result ≡ exit_status self.now }
    {
        match self {
            Fault::CommandLine(fault) => fault.status(),
            Fault::History(fault) => fault.status(),
            Fault::Ask(fault) => fault.status(),
            _ => 1,
        }
    }
}

impl fmt::Display for Fault {
    ghost output = { λ fault. Some (fault_text fault) };

    fn fmt<W: fmt::Write>(&self, f: &mut fmt::Formatter<W>) -> fmt::Result {
        match self {
            Fault::CommandLine(fault) => write!(f, "{fault}"),
            Fault::Run(fault) => write!(f, "{fault}"),
            Fault::RunCaused(fault, cause) => write!(f, "{fault}: {cause}"),
            Fault::Explained(fault, cause) => write!(f, "{fault}\ns4d: why: {cause}"),
            Fault::BadFiles(bad, all) => write!(f, "bad files: {bad} of {all}"),
            Fault::CannotReadFile(path) => write!(f, "cannot read {path}"),
            Fault::Call(fault) => write!(f, "{fault}"),
            Fault::CannotConnect(cause) => write!(f, "cannot connect: {cause}"),
            Fault::Ask(fault) => write!(f, "{fault}"),
            Fault::EndIsThere => write!(f, "the file of --until is there already"),
            Fault::CannotLook(cause) => write!(f, "cannot look for the file of --until: {cause}"),
            Fault::SetupLine(number, cause) => write!(f, "setup line {number}: {cause}"),
            Fault::CannotWriteFile(path) => write!(f, "cannot write {path}"),
            Fault::CannotListen(cause) => write!(f, "cannot listen: {cause}"),
            Fault::Serve(fault) => write!(f, "{fault}"),
            Fault::History(fault) => write!(f, "{fault}"),
            Fault::HistoryCaused(fault, cause) => write!(f, "{fault}: {cause}"),
        }
    }
}

impl From<WordsFault> for Fault {
    ghost from_gives = { λ words why. why ≡ fault.CommandLine words };

    fn from(fault: WordsFault) -> Fault {
        Fault::CommandLine(fault)
    }
}

impl From<RunFault> for Fault {
    ghost from_gives = { λ run why. why ≡ fault.Run run };

    fn from(fault: RunFault) -> Fault {
        Fault::Run(fault)
    }
}

impl From<LoginsFault> for Fault {
    ghost from_gives = { λ logins why. why ≡ fault.Run (fault_of_logins logins) };

    fn from(fault: LoginsFault) -> Fault {
        Fault::Run(RunFault::from(fault))
    }
}

impl From<CallFault> for Fault {
    ghost from_gives = { λ call why. why ≡ fault.Call call };

    fn from(fault: CallFault) -> Fault {
        Fault::Call(fault)
    }
}

impl From<AskFault> for Fault {
    ghost from_gives = { λ ask why. why ≡ fault.Ask ask };

    fn from(fault: AskFault) -> Fault {
        Fault::Ask(fault)
    }
}

impl From<ServerFault> for Fault {
    ghost from_gives = { λ server why. why ≡ fault.Serve server };

    fn from(fault: ServerFault) -> Fault {
        Fault::Serve(fault)
    }
}

impl From<StartFault> for Fault {
    ghost from_gives = { λ start why. why ≡ fault.History start };

    fn from(fault: StartFault) -> Fault {
        Fault::History(fault)
    }
}

impl From<AllocError> for Fault {
    ghost from_gives = { λ _ why. why ≡ fault.Run run_fault.NoMemory };

    fn from(_: AllocError) -> Fault {
        Fault::Run(RunFault::NoMemory)
    }
}

impl<T: Drop> From<AllocFailed<T>> for Fault {
    ghost from_gives = { λ _ why. why ≡ fault.Run run_fault.NoMemory };

    fn from(_: AllocFailed<T>) -> Fault {
        Fault::Run(RunFault::NoMemory)
    }
}

/// A fault as its line on standard error.
#[derive(Clone, Copy)]
pub struct FaultText<'a>(pub &'a Fault);

impl fmt::Display for FaultText<'_> {
    ghost output = { λ t. Some (codes "s4d: " ++ fault_text t.0.now) };

    fn fmt<W: fmt::Write>(&self, f: &mut fmt::Formatter<W>) -> fmt::Result {
        write!(f, "s4d: {}", self.0)
    }
}
