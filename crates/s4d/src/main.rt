//! The command `s4d`, by which the drive is used.
#![tactic(auto)]

ghost use Rattle.std.specs.Prelude.{◌≡◌, IsOk, IfErr};
ghost use Rattle.std.specs.Process.{exit_status as code_of};
ghost use Rattle.s4_commands.specs.Faults.{exit_status};

use s4_command::Command;
use s4_commands::{Fault, FaultText, Stamped, obey};
use s4_run::RunFault;
use std::io;
use std::io::BufWriter;
use std::net::{Net, TcpListener, TcpStream};
use std::process::ExitCode;
use std::sync::Wait;
use std::thread::Threads;
use std::time::Clock;

fn main(rt: HostRuntime) -> ExitCode {
    match s4_command_line::given(&rt, &rt) {
        Ok(command) => {
            let told = Stamped::new(&rt, command.logs_times());
            ended(&told, &answer(&rt, &rt, &command))
        }
        Err(fault) => ended(&rt, &Err(Fault::from(fault))),
    }
}

/// What the program exits with; a fault is told on standard error.
fn ended<R: Eprint>(rt: &R, outcome: &Result<(), Fault>) -> ExitCode
    ensures done { IsOk outcome.now → code_of result ≡ 0 }
    ensures fault { IfErr outcome.now (λ fault. code_of result ≡ exit_status fault) }
{
    match outcome {
        Ok(()) => ExitCode::SUCCESS,
        Err(fault) => {
            let _ = eprintln!(rt; "{}", FaultText(fault));
            ExitCode::from(fault.status())
        }
    }
}

/// Does what the command asks for, from standard input to standard output.
fn answer<
    R: Net<Listener = TcpListener, Stream = TcpStream>
        + Threads
        + Wait
        + Clock
        + Eprint
        + Sync
        + Input
        + Print
        + AllocGlobal,
>(rt: &R, files: &HostRuntime, command: &Command) -> Result<(), Fault> {
    match BufWriter::new(rt.alloc(), io::writer(rt)) {
        Ok(mut output) => obey(rt, files, command, rt.reader(), &mut output),
        Err(error) => Err(Fault::Run(RunFault::writing(error))),
    }
}
