//! Runs whose faults are explained, in a second line (docs/SCRIPTS.md, "Causes").

use crate::fault::Fault;
use crate::reasons::reason_of_output;
use s4_causes::{
    Kind, cause_in_arrivals, cause_in_script, newest_above, reason_of_logins, system_word,
};
use s4_logins::open_logins;
use s4_run::RunFault;
use s4_script::{TextFault, read_up_to};
use s4_types::{NoMemory, Principal};
use std::alloc::Global;
use std::io::{Read, Write};
use std::rt::Files;

/// The most bytes of a text.
const TEXT_LIMIT: u32 = 268435456;

/// Runs a script, as `s4_run` does.
pub fn run_script<R: Read, W: Write>(
    alloc: Global,
    input: &mut R,
    output: &mut W,
) -> Result<(), Fault> {
    let text = text_in(alloc, input)?;
    let run = s4_run::run_script(alloc, text.as_slice(), output);
    explained(alloc, Kind::Script, &text, run, output)
}

/// Strikes a script for this principal, as `s4_run` does.
pub fn run_strike<R: Read, W: Write>(
    alloc: Global,
    who: Principal,
    input: &mut R,
    output: &mut W,
) -> Result<(), Fault> {
    let text = text_in(alloc, input)?;
    let run = s4_run::run_strike(alloc, who, text.as_slice(), output);
    explained(alloc, Kind::Script, &text, run, output)
}

/// Runs arrivals on a hall of the logins in the file with that path, as `s4_run` does.
pub fn run_hall<F: Files + AllocGlobal, R: Read, W: Write>(
    files: &F,
    path: &str,
    input: &mut R,
    output: &mut W,
) -> Result<(), Fault> {
    let logins = match open_logins(files, path) {
        Ok(logins) => logins,
        Err(fault) => {
            let reason = reason_of_logins(files, path, &fault)?;
            return Err(Fault::Explained(RunFault::from(fault), reason));
        }
    };
    let text = text_in(files.alloc(), input)?;
    let run = s4_run::run_hall(files.alloc(), logins, text.as_slice(), output);
    explained(files.alloc(), Kind::Arrivals, &text, run, output)
}

/// The text of the input.
fn text_in<R: Read>(alloc: Global, input: &mut R) -> Result<Vec<u8>, Fault> {
    match read_up_to(alloc, input, TEXT_LIMIT) {
        Ok(text) => Ok(text),
        Err(TextFault::CannotRead) => {
            let cause = cause_of_input(alloc, input)?;
            Err(Fault::Explained(RunFault::CannotRead, cause))
        }
        Err(fault) => Err(Fault::Run(RunFault::from(fault))),
    }
}

/// Why an input failed, by trying once more to read it.
fn cause_of_input<R: Read>(alloc: Global, input: &mut R) -> Result<String, NoMemory> {
    match input.read(&mut [0; 1]) {
        Err(error) => system_word(alloc, &error),
        Ok(_) => format!(in alloc; "it is longer than {TEXT_LIMIT} bytes, or takes as many reads"),
    }
}

/// What comes of the run of a text of that kind, with the cause of its fault.
fn explained<W: Write>(
    alloc: Global,
    kind: Kind,
    text: &[u8],
    run: Result<(), RunFault>,
    output: &mut W,
) -> Result<(), Fault> {
    let Err(fault) = run else {
        return Ok(());
    };
    match cause_of(alloc, kind, text, &fault, output)? {
        Some(cause) => Err(Fault::Explained(fault, cause)),
        None => Err(Fault::Run(fault)),
    }
}

/// The cause of a fault, where it has one beside itself.
fn cause_of<W: Write>(
    alloc: Global,
    kind: Kind,
    text: &[u8],
    fault: &RunFault,
    output: &mut W,
) -> Result<Option<String>, NoMemory> {
    match fault {
        RunFault::BadLine(number) => cause_of_line(alloc, kind, text, *number),
        RunFault::MomentGoesBack(number) => {
            let newest = newest_above(alloc, kind, text, *number)?.tick();
            Ok(Some(format!(in alloc; "a line above has the moment {newest}")?))
        }
        RunFault::CannotWrite => Ok(Some(reason_of_output(alloc, output)?)),
        _ => Ok(None),
    }
}

/// Why the line of that number isn't taken.
fn cause_of_line(
    alloc: Global,
    kind: Kind,
    text: &[u8],
    number: usize,
) -> Result<Option<String>, NoMemory> {
    let cause = match kind {
        Kind::Arrivals => cause_in_arrivals(alloc, text, number)?,
        _ => cause_in_script(alloc, text, number)?,
    };
    match cause {
        Some(cause) => Ok(Some(cause.to_string(alloc)?)),
        None => Ok(None),
    }
}
