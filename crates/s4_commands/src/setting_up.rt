//! What is carried out before a server listens (docs/OPERATIONS.md, "Flags").

ghost use Rattle.std.specs.Prelude.{◌≡◌};

use crate::fault::Fault;
use crate::reasons::named;
use s4_calls::Names;
use s4_causes::{Cause, Form, cause_of_unread};
use s4_script::{NumberedLines, ReplyText, parse_principal, parse_request, read_file};
use s4_server::Server;
use s4_sockets::Ticks;
use s4_types::{Caller, Reply, Request, WireVersion};
use std::alloc::Global;
use std::str;
use std::sync::Wait;

/// The most bytes of the file.
const FILE_LIMIT: u32 = 268435456;

/// The client that is recorded.
const CLIENT: u32 = 0;

/// A line: who asks, and for what.
#[derive(Drop)]
struct Line {
    caller: Caller,
    request: Request,
}

/// Has the server carry out the lines of the file with this path, where one is named.
pub fn set_up<R: Wait, C: Ticks, N: Names + Send + Sync>(
    rt: &R,
    files: &HostRuntime,
    server: &mut Server<N>,
    clock: &C,
    path: Option<&str>,
) -> Result<(), Fault>
    ensures { server.new.settings ≡ server.old.settings }
{
    match path {
        Some(path) => carry_out(
            rt,
            files.alloc(),
            server,
            clock,
            read(files, path)?.as_str(),
        ),
        None => Ok(()),
    }
}

/// What the file with this path has, or the fault that names it.
fn read(files: &HostRuntime, path: &str) -> Result<String, Fault> {
    match text_of(files, path) {
        Some(text) => Ok(text),
        None => {
            let cause = cause_of_unread(files, path, FILE_LIMIT)?;
            Err(Fault::CannotReadFile(named(files.alloc(), path, cause.as_str())?))
        }
    }
}

/// The text of the file with this path, where it is one.
fn text_of(files: &HostRuntime, path: &str) -> Option<String> {
    let bytes = read_file(files, path, FILE_LIMIT).ok()?;
    String::from_str(files.alloc(), str::from_utf8(&bytes).ok()?).ok()
}

/// Has the server carry out the lines of a text in turn. The first one that is none, or is refused,
/// ends that.
fn carry_out<R: Wait, C: Ticks, N: Names + Send + Sync>(
    rt: &R,
    alloc: Global,
    server: &mut Server<N>,
    clock: &C,
    text: &str,
) -> Result<(), Fault>
    ensures { server.new.settings ≡ server.old.settings }
{
    for (number, words) in NumberedLines::of(text.as_bytes()) {
        let Some(line) = line_in(alloc, words)? else {
            return Err(Fault::SetupLine(number, cause_of(alloc, words)?));
        };
        if let Reply::Refused(refusal) = server.ask(rt, clock, line.caller, &line.request) {
            let reply = Reply::Refused(refusal);
            let told = ReplyText(&reply).to_string(alloc)?;
            return Err(Fault::SetupLine(number, told));
        }
    }
    Ok(())
}

/// Why a line isn't taken that spells no request.
fn cause_of(alloc: Global, line: &[u8]) -> Result<String, Fault> {
    match Cause::of(Form::Setup, alloc, line)? {
        Some(cause) => Ok(cause.to_string(alloc)?),
        None => Ok(String::from_str(alloc, "it spells no request")?),
    }
}

/// The request that a line spells: a principal, and the words of a request.
fn line_in(alloc: Global, line: &[u8]) -> Result<Option<Line>, Fault> {
    let Ok(line) = str::from_utf8(line) else {
        return Ok(None);
    };
    let mut words = Vec::new(alloc);
    for word in line.split(' ') {
        words.push(word)?;
    }
    let [who, verb, words @ ..] = words.as_slice() else {
        return Ok(None);
    };
    let Ok(who) = parse_principal(who) else {
        return Ok(None);
    };
    let caller = Caller {
        who,
        client: CLIENT,
        version: WireVersion::One,
    };
    let request = parse_request(alloc, verb, words).ok();
    Ok(request.map(|request| Line { caller, request }))
}
