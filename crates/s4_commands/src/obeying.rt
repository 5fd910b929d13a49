//! What is done for each command.

ghost use Rattle.std.specs.Prelude.{OnOk};
ghost use Rattle.std.specs.Io.KnownBytes.{Appends};
ghost use Rattle.s4_commands.specs.Commands.{IsObeyed};

use crate::asking::ask_at;
use crate::calling::call_at;
use crate::checking::check_at;
use crate::checking_files::check_files;
use crate::explaining;
use crate::fault::Fault;
use crate::history::tell_history;
use crate::reasons::with_reason;
use crate::serving::serve_at;
use s4_command::{Asking, Command, Explained};
use s4_logins::open_logins;
use s4_run::RunFault;
use s4_types::Principal;
use std::alloc::Global;
use std::io::{Read, Write};
use std::net::{Net, TcpListener, TcpStream};
use std::rt::Files;
use std::sync::Wait;
use std::thread::Threads;
use std::time::Clock;

/// Does what the command asks for, from the input to the output. Sockets, threads and the clock are
/// those of `system`; files are the machine's.
pub fn obey<
    S: Net<Listener = TcpListener, Stream = TcpStream>
        + Threads
        + Wait
        + Clock
        + Eprint
        + Sync
        + AllocGlobal,
    R: Read + Drop,
    W: Write,
>(system: &S, files: &HostRuntime, command: &Command, input: R, output: &mut W) -> Result<(), Fault>
    ensures shown { OnOk result
        (IsObeyed command.now (W.contents output.old) (W.contents output.new)) }
{
    let done = carry_out(system, files, command, input, output);
    match done {
        Ok(()) => Ok(()),
        Err(fault) if stays_whole(command) => Err(fault),
        Err(fault) => Err(with_reason(files, output, fault)?),
    }
}

/// Whether the lines of a command's faults stay as they are.
fn stays_whole(command: &Command) -> bool {
    matches!(
        command,
        Command::Run(_) | Command::Hall(..) | Command::Strike(..)
    )
}

/// Does what the command asks for.
fn carry_out<
    S: Net<Listener = TcpListener, Stream = TcpStream>
        + Threads
        + Wait
        + Clock
        + Eprint
        + Sync
        + AllocGlobal,
    R: Read + Drop,
    W: Write,
>(system: &S, files: &HostRuntime, command: &Command, input: R, output: &mut W) -> Result<(), Fault>
    ensures shown { OnOk result
        (IsObeyed command.now (W.contents output.old) (W.contents output.new)) }
{
    match command {
        Command::Show(text) => show(output, text)?,
        Command::Run(explained) => run_script(system.alloc(), *explained, input, output)?,
        Command::Hall(path, explained) => run_hall(files, path, *explained, input, output)?,
        Command::Strike(who, explained) => {
            run_strike(system.alloc(), *who, *explained, input, output)?
        }
        Command::CheckFiles(check) => check_files(files, check, output)?,
        Command::Serve(service) => serve_at(system, files, service, output)?,
        Command::Check(service) => check_at(system, files, service, output)?,
        Command::Call(call) => call_at(system, system.alloc(), call, output)?,
        Command::Ask(asking) => ask_lines(system, files, asking, input, output)?,
        Command::History(history) => tell_history(system, files, history, output)?,
    }
    Ok(())
}

/// Asks at the address for what the lines of the input spell.
fn ask_lines<N: Net<Stream = TcpStream> + Wait + Clock, R: Read + Drop, W: Write>(
    net: &N,
    files: &HostRuntime,
    asking: &Asking,
    input: R,
    output: &mut W,
) -> Result<(), Fault> {
    let mut input = input;
    ask_at(net, files, asking, &mut input, output)
}

/// Writes the text.
fn show<W: Write>(output: &mut W, text: &str) -> Result<(), RunFault>
    ensures shown { OnOk result (Appends (W.contents output.old) (W.contents output.new) text.now) }
{
    output
        .write_all(text.as_bytes())
        .map_err(RunFault::writing)?;
    output.flush().map_err(RunFault::writing)
}

/// Runs the script of the input.
fn run_script<R: Read + Drop, W: Write>(
    alloc: Global,
    explained: Explained,
    mut input: R,
    output: &mut W,
) -> Result<(), Fault> {
    match explained {
        Explained::No => Ok(s4_run::run_script(alloc, input, output)?),
        Explained::Yes => explaining::run_script(alloc, &mut input, output),
    }
}

/// Strikes the script of the input for this principal.
fn run_strike<R: Read + Drop, W: Write>(
    alloc: Global,
    who: Principal,
    explained: Explained,
    mut input: R,
    output: &mut W,
) -> Result<(), Fault> {
    match explained {
        Explained::No => Ok(s4_run::run_strike(alloc, who, input, output)?),
        Explained::Yes => explaining::run_strike(alloc, who, &mut input, output),
    }
}

/// Runs the arrivals of the input on a hall of the logins in the file with that path, and writes
/// what each connection is sent.
fn run_hall<F: Files + AllocGlobal, R: Read + Drop, W: Write>(
    files: &F,
    path: &str,
    explained: Explained,
    mut input: R,
    output: &mut W,
) -> Result<(), Fault> {
    match explained {
        Explained::Yes => explaining::run_hall(files, path, &mut input, output),
        Explained::No => {
            let logins = open_logins(files, path)?;
            Ok(s4_run::run_hall(files.alloc(), logins, input, output)?)
        }
    }
}
