//! What a server needs, looked at without one (docs/OPERATIONS.md, "Flags").

ghost use Rattle.std.specs.Prelude.{OnOk, string_bytes};
ghost use Rattle.std.specs.Io.KnownBytes.{Appends};
ghost use Rattle.s4_server.specs.Setup.{IsNamed};
ghost use Rattle.s4_commands.specs.Serving.{checked_line};

use crate::fault::Fault;
use crate::serving::{beginning, look_around, path_in};
use crate::setting_up;
use s4_calls::{Blank, Names};
use s4_command::Service;
use s4_run::RunFault;
use s4_server::Server;
use s4_settings::Settings;
use s4_sockets::{Stopwatch, Ticks};
use s4_starts::try_start;
use s4_types::Record;
use std::io::Write;
use std::marker::Brand;
use std::net::Net;
use std::sync::Wait;
use std::time::Clock;

/// Looks at what the service needs, in the order in which a server does before it listens; its setup is carried out on a
/// drive that serves nobody. Tells that it would listen.
pub fn check_at<R: Net + Wait + Clock + Eprint + Sync + AllocGlobal, W: Write>(
    rt: &R,
    files: &HostRuntime,
    service: &Service,
    output: &mut W,
) -> Result<(), Fault>
    ensures told { OnOk result (Appends (W.contents output.old) (W.contents output.new)
        (checked_line (string_bytes service.now.address))) }
{
    let (settings, _) = look_around(rt, files, service)?;
    if let Some(journal) = &service.journal {
        try_start(files, journal.folder.as_str())?;
    }
    let settings = beginning(rt, service, settings);
    let clock = Stopwatch::start(rt, settings.first);
    try_setup(rt, files, service, settings, &clock)?;
    tell_checked(output, service.address.as_str())?;
    Ok(())
}

/// Carries out the setup of the service on a drive of its own.
fn try_setup<R: Net + Wait + AllocGlobal, C: Ticks>(
    rt: &R,
    files: &HostRuntime,
    service: &Service,
    settings: Settings,
    clock: &C,
) -> Result<(), Fault> {
    let blank = Blank::new(rt.alloc(), settings.cells)?;
    try_named::<R, C, Brand>(rt, files, service, settings, clock, blank)
}

/// The same, with this ledger for its front.
fn try_named<R: Net + Wait + AllocGlobal, C: Ticks, N: Names + Send + Sync>(
    rt: &R,
    files: &HostRuntime,
    service: &Service,
    settings: Settings,
    clock: &C,
    blank: Blank<Record>,
) -> Result<(), Fault>
    requires named { IsNamed N.ledger N.window N.passes blank.ledger settings }
{
    let mut server = Server::<N>::open(rt, rt.alloc(), settings, blank)?;
    setting_up::set_up(rt, files, &mut server, clock, path_in(&service.setup))
}

/// Writes where it would listen.
fn tell_checked<W: Write>(output: &mut W, address: &str) -> Result<(), RunFault>
    ensures { OnOk result
        (Appends (W.contents output.old) (W.contents output.new) (checked_line address.now)) }
{
    writeln!(output, "would listen {address}").map_err(RunFault::writing)?;
    output.flush().map_err(RunFault::writing)
}
