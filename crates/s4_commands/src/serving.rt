//! A served drive (docs/OPERATIONS.md).

ghost use Rattle.std.specs.Prelude.{◌≡◌, false, IfOk, OnOk};
ghost use Rattle.std.specs.Io.KnownBytes.{Appends};
ghost use Rattle.s4_server.specs.Setup.{IsNamed};
ghost use Rattle.s4_commands.specs.Serving.{TellsService, listening_line};

use crate::ending::tell_end;
use crate::fault::Fault;
use crate::reasons::{fault_of_logins, named};
use crate::stamped::Stamped;
use crate::{descriptors, keeping, memory, setting_up};
use s4_calls::{Blank, Names};
use s4_causes::system_word;
use s4_command::Service;
use s4_logins::open_guarded;
use s4_run::RunFault;
use s4_server::{Server, Upkeep};
use s4_settings::Settings;
use s4_sockets::{Stopwatch, Ticks, wall_clock};
use s4_status::{may_sum, may_write};
use s4_stream::Logins;
use s4_types::{NoMemory, Record};
use std::alloc::Global;
use std::io::Write;
use std::marker::Brand;
use std::net::{Net, TcpListener, TcpStream};
use std::rt::Files;
use std::sync::Wait;
use std::thread::Threads;
use std::time::Clock;
use std::{fs, io};

/// Serves at the address of the service. Logins are read, and it is looked for the file that ends
/// it, before it listens.
pub fn serve_at<
    R: Net<Listener = TcpListener, Stream = TcpStream>
        + Threads
        + Wait
        + Clock
        + Eprint
        + Sync
        + AllocGlobal,
    W: Write,
>(rt: &R, files: &HostRuntime, service: &Service, output: &mut W) -> Result<(), Fault>
    ensures told { OnOk result
        (TellsService service.now (W.contents output.old) (W.contents output.new)) }
{
    let (settings, logins) = look_around(rt, files, service)?;
    let listener = match TcpListener::bind(rt, service.address.as_str()) {
        Ok(listener) => listener,
        Err(error) => return Err(Fault::CannotListen(system_word(files.alloc(), &error)?)),
    };
    let settings = beginning(rt, service, settings);
    let clock = Stopwatch::start(rt, settings.first);
    serve_on(
        rt, files, service, settings, &clock, &listener, logins, output,
    )
}

/// The settings and the logins of a service, once it was looked at its files.
pub fn look_around<R: Eprint + Clock>(
    rt: &R,
    files: &HostRuntime,
    service: &Service,
) -> Result<(Settings, Logins), Fault>
    ensures cells { IfOk result (λ found. found.0.cells ≡ service.now.settings.cells) }
    ensures window { IfOk result (λ found. found.0.window ≡ service.now.settings.window) }
{
    look(files, path_in(&service.until))?;
    try_status(files, path_in(&service.status))?;
    try_status(files, path_in(&service.status_text))?;
    try_sums(files, sums_of(service))?;
    let told = Stamped::new(rt, service.logs_times);
    let settings = descriptors::fitting(&told, files, &service.settings);
    let logins = logins_of(files, service.logins.as_str())?;
    let settings = memory::fitting(files, settings, service.logins.as_str());
    Ok((settings, logins))
}

/// The settings, with the moment at the start: the time now where the service begins so.
pub fn beginning<C: Clock>(clock: &C, service: &Service, settings: Settings) -> Settings
    ensures cells { result.cells ≡ settings.cells }
    ensures window { result.window ≡ settings.window }
    ensures told { service.now.begins_now ≡ false → result ≡ settings }
{
    let mut beginning = settings;
    if service.begins_now {
        beginning.first = wall_clock(clock);
    }
    beginning
}

/// The logins of the file with this path.
fn logins_of(files: &HostRuntime, path: &str) -> Result<Logins, Fault> {
    match open_guarded(files, path) {
        Ok(logins) => Ok(logins),
        Err(fault) => Err(fault_of_logins(files, path, fault)?),
    }
}

/// That nothing is there yet which ends the server.
fn look<F: Files + AllocGlobal>(files: &F, until: Option<&str>) -> Result<(), Fault> {
    match until.map(|path| fs::exists(files, path)) {
        None | Some(Ok(false)) => Ok(()),
        Some(Ok(true)) => Err(Fault::EndIsThere),
        Some(Err(error)) => Err(Fault::CannotLook(system_word(files.alloc(), &error)?)),
    }
}

/// That the file in which the server tells of itself can be written.
fn try_status(files: &HostRuntime, path: Option<&str>) -> Result<(), Fault> {
    match path.map(|path| (path, may_write(files, path))) {
        Some((path, Err(error))) => Err(unwritten(files.alloc(), path, &error)?),
        _ => Ok(()),
    }
}

/// That the file of the sums of its journal can be written.
fn try_sums(files: &HostRuntime, path: Option<&str>) -> Result<(), Fault> {
    match path.map(|path| (path, may_sum(files, path))) {
        Some((path, Err(error))) => Err(unwritten(files.alloc(), path, &error)?),
        _ => Ok(()),
    }
}

/// The fault of a file that can't be written.
fn unwritten(alloc: Global, path: &str, error: &io::Error) -> Result<Fault, NoMemory> {
    let word = system_word(alloc, error)?;
    Ok(Fault::CannotWriteFile(named(alloc, path, word.as_str())?))
}

/// The path of the file of the sums of its journal, where one is named.
fn sums_of(service: &Service) -> Option<&str> {
    match &service.journal {
        Some(journal) => path_in(&journal.sums),
        None => None,
    }
}

/// The path that is named, where one is.
pub fn path_in(path: &Option<String>) -> Option<&str> {
    path.as_ref().map(|path| path.as_str())
}

/// Serves the connections of the listener to the end of the service by these settings, and tells that
/// it listens, and how many records there are at its end; before that the counts of its cells, where
/// the service has a file for its status.
fn serve_on<R: Net + Threads + Wait + Clock + Eprint + Sync + AllocGlobal, C: Ticks, W: Write>(
    rt: &R,
    files: &HostRuntime,
    service: &Service,
    settings: Settings,
    clock: &C,
    listener: &TcpListener,
    logins: Logins,
    output: &mut W,
) -> Result<(), Fault>
    requires cells { settings.cells ≡ service.now.settings.cells }
    requires window { settings.window ≡ service.now.settings.window }
    ensures told { OnOk result
        (TellsService service.now (W.contents output.old) (W.contents output.new)) }
{
    let blank = Blank::new(rt.alloc(), settings.cells)?;
    serve_named::<R, C, W, Brand>(
        rt, files, service, settings, clock, listener, logins, blank, output,
    )
}

/// The same, with this ledger for its front.
fn serve_named<
    R: Net + Threads + Wait + Clock + Eprint + Sync + AllocGlobal,
    C: Ticks,
    W: Write,
    N: Names + Send + Sync,
>(
    rt: &R,
    files: &HostRuntime,
    service: &Service,
    settings: Settings,
    clock: &C,
    listener: &TcpListener,
    logins: Logins,
    blank: Blank<Record>,
    output: &mut W,
) -> Result<(), Fault>
    requires named { IsNamed N.ledger N.window N.passes blank.ledger settings }
    requires cells { settings.cells ≡ service.now.settings.cells }
    requires window { settings.window ≡ service.now.settings.window }
    ensures told { OnOk result
        (TellsService service.now (W.contents output.old) (W.contents output.new)) }
{
    let keeper = keeping::keeper(rt, files, service, &settings)?;
    let mut server = Server::<N>::open(rt, rt.alloc(), settings, blank)?;
    setting_up::set_up(rt, files, &mut server, clock, path_in(&service.setup))?;
    tell_listening(output, service.address.as_str())?;
    let upkeep = upkeep_of(files, service);
    let told = Stamped::new(rt, service.logs_times);
    let closed = server.run(&told, clock, &upkeep, listener, logins, keeper)?;
    let counts = service.status.is_some();
    let records = closed.history.as_slice();
    tell_end(output, counts, closed.cells.as_slice(), records.len())?;
    Ok(())
}

/// What the server looks after in files.
fn upkeep_of<'a>(files: &'a HostRuntime, service: &'a Service) -> Upkeep<'a> {
    Upkeep {
        files,
        until: path_in(&service.until),
        logins: service.logins.as_str(),
        reload: service.reload,
        status: path_in(&service.status),
        status_text: path_in(&service.status_text),
        sums: sums_of(service),
    }
}

/// Writes where it listens, at once.
fn tell_listening<W: Write>(output: &mut W, address: &str) -> Result<(), RunFault>
    ensures { OnOk result
        (Appends (W.contents output.old) (W.contents output.new) (listening_line address.now)) }
{
    writeln!(output, "listening {address}").map_err(RunFault::writing)?;
    output.flush().map_err(RunFault::writing)
}
