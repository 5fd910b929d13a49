//! Commands.

use crate::asking::Asking;
use crate::call::Call;
use crate::checks::FileCheck;
use crate::history::History;
use crate::service::Service;
use s4_types::Principal;

/// Whether the cause of a fault is told too, in a second line.
#[derive(Clone, Copy, PartialEq, Eq)]
pub enum Explained {
    No,
    Yes,
}

/// What the program is asked to do.
#[derive(Drop)]
pub enum Command {
    /// To show this text, which was asked for.
    Show(String),
    /// To run a script.
    Run(Explained),
    /// To run arrivals on a hall of the logins in the file with this path.
    Hall(String, Explained),
    /// To write a script without what this principal's strangers ask.
    Strike(Principal, Explained),
    /// To look at each line of files.
    CheckFiles(FileCheck),
    /// To call a served drive.
    Call(Call),
    /// To ask a served drive for what lines spell.
    Ask(Asking),
    /// To serve a drive.
    Serve(Service),
    /// To look whether a drive could be served.
    Check(Service),
    /// To tell of a journal.
    History(History),
}

impl Command {
    /// Whether lines on standard error are to begin with the time.
    pub fn logs_times(&self) -> bool {
        match self {
            Command::Serve(service) | Command::Check(service) => service.logs_times,
            _ => false,
        }
    }
}
