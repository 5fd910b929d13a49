//! Why the system refused what a command wanted: it is asked again, once the command ended.

ghost use Rattle.std.specs.Prelude.{◌≡◌, ◌++◌, IfOk, codes, string_bytes};

use crate::fault::Fault;
use s4_causes::{reason_of_logins, system_word};
use s4_logins::LoginsFault;
use s4_run::RunFault;
use s4_starts::StartFault;
use s4_types::NoMemory;
use std::alloc::Global;
use std::fs;
use std::fs::{DirBuilder, OpenOptions};
use std::io::Write;
use std::os::unix::fs::{DirBuilderExt, OpenOptionsExt};

/// Who may do what with a folder of journals, and with what is in it: their owner alone.
const FOLDER_MODE: u32 = 0o700;

const FILE_MODE: u32 = 0o600;

/// What is told where it isn't refused any more.
const PASSED: &str = "it could be had by now";

/// The fault, and behind it why, where the system still tells.
pub fn with_reason<W: Write>(
    files: &HostRuntime,
    output: &mut W,
    fault: Fault,
) -> Result<Fault, NoMemory> {
    let reason = reason_of(files, output, &fault)?;
    Ok(match reason {
        Some(reason) => caused(fault, reason),
        None => fault,
    })
}

/// The fault, and behind it that cause, where its text has room for one.
fn caused(fault: Fault, reason: String) -> Fault {
    match fault {
        Fault::Run(why) => Fault::RunCaused(why, reason),
        Fault::History(why) => Fault::HistoryCaused(why, reason),
        other => other,
    }
}

/// Why a fault came, where the system still tells.
fn reason_of<W: Write>(
    files: &HostRuntime,
    output: &mut W,
    fault: &Fault,
) -> Result<Option<String>, NoMemory> {
    match fault {
        Fault::Run(RunFault::CannotWrite) | Fault::History(StartFault::CannotWrite) => {
            Ok(Some(reason_of_output(files.alloc(), output)?))
        }
        Fault::History(StartFault::CannotReadFolder(path)) => {
            Ok(Some(reason_of_folder(files, path.as_str())?))
        }
        Fault::History(StartFault::CannotMake(path)) => {
            Ok(Some(reason_of_making(files, path.as_str())?))
        }
        _ => Ok(None),
    }
}

/// The fault of the logins in the file with this path, and behind it that path and why.
pub fn fault_of_logins(
    files: &HostRuntime,
    path: &str,
    fault: LoginsFault,
) -> Result<Fault, NoMemory> {
    match fault {
        LoginsFault::NoMemory => Ok(Fault::from(fault)),
        fault => {
            let reason = reason_of_logins(files, path, &fault)?;
            Ok(Fault::RunCaused(RunFault::from(fault), reason))
        }
    }
}

/// A path, and behind it why what has it can't be had.
pub fn named(alloc: Global, path: &str, reason: &str) -> Result<String, NoMemory>
    ensures { IfOk result
        (λ text. string_bytes text ≡ path.now ++ codes ": " ++ reason.now) }
{
    format!(in alloc; "{path}: {reason}")
}

/// Why an output failed, by trying once more to write what it still has.
pub fn reason_of_output<W: Write>(alloc: Global, output: &mut W) -> Result<String, NoMemory> {
    match output.flush() {
        Err(error) => system_word(alloc, &error),
        Ok(()) => String::from_str(alloc, PASSED),
    }
}

/// Why a folder can't be read.
fn reason_of_folder(files: &HostRuntime, path: &str) -> Result<String, NoMemory> {
    match fs::read_dir(files, path) {
        Err(error) => system_word(files.alloc(), &error),
        Ok(_) => String::from_str(files.alloc(), PASSED),
    }
}

/// Why no journal can be begun in a folder.
fn reason_of_making(files: &HostRuntime, folder: &str) -> Result<String, NoMemory> {
    let alloc = files.alloc();
    let made = DirBuilder::new()
        .recursive(true)
        .mode(FOLDER_MODE)
        .create(files, folder);
    if let Err(error) = made {
        return system_word(alloc, &error);
    }
    let lock = format!(in alloc; "{folder}/lock")?;
    if fs::symlink_metadata(files, lock.as_str()).is_ok_and(|it| !it.is_file()) {
        return String::from_str(alloc, "its lock is no regular file");
    }
    let opened = OpenOptions::new()
        .write(true)
        .create(true)
        .mode(FILE_MODE)
        .open(files, lock.as_str());
    match opened {
        Err(error) => system_word(alloc, &error),
        Ok(_) => reason_of_folder_in(files, folder),
    }
}

/// Why no folder can be made in a folder; one is made for that, and removed again.
fn reason_of_folder_in(files: &HostRuntime, folder: &str) -> Result<String, NoMemory> {
    let alloc = files.alloc();
    let path = format!(in alloc; "{folder}/tried")?;
    let made = DirBuilder::new()
        .mode(FOLDER_MODE)
        .create(files, path.as_str());
    if let Err(error) = made {
        return system_word(alloc, &error);
    }
    match fs::remove_dir(files, path.as_str()) {
        Err(error) => system_word(alloc, &error),
        Ok(()) => String::from_str(alloc, PASSED),
    }
}
