//! Calls of a served drive (docs/SCRIPTS.md, "Calls").

ghost use Rattle.std.specs.Prelude.{◌++◌, ◌∷◌, [], IsErrOf, OnOk};
ghost use Rattle.std.specs.Io.KnownBytes.{Appends, Keeps};
ghost use Rattle.s4_script.specs.Texts.{reply_text};
ghost use Rattle.s4_stream.specs.declared.event.SessionFault as faults;
ghost use Rattle.s4_client.specs.Calls.{Begins, HearsFault, message_of};
ghost use Rattle.s4_client.specs.declared.fault.CallFault as call_faults;
ghost use Rattle.s4_client.specs.declared.fault.CallFault.TheVariants as call_fault;
ghost use Rattle.s4_commands.specs.Calling.{TellsReply, TellsSomeReply};
ghost use Rattle.s4_commands.specs.declared.fault.Fault.TheVariants as fault;

use crate::fault::Fault;
use s4_causes::system_word;
use s4_client::connect;
use s4_command::Call;
use s4_run::RunFault;
use s4_script::ReplyText;
use s4_types::Reply;
use std::alloc::Global;
use std::io::{Read, Write};
use std::net::{Net, TcpStream};
use std::sync::Wait;
use std::time::{Clock, Duration, Instant};
use std::{io, thread};

/// How long it waits before it tries to connect again, in milliseconds.
const PAUSE: u64 = 10;

/// Calls at the address, and writes the text of the reply.
pub fn call_at<N: Net<Stream = TcpStream> + Wait + Clock, W: Write>(
    net: &N,
    alloc: Global,
    call: &Call,
    output: &mut W,
) -> Result<(), Fault>
    ensures told { OnOk result (TellsSomeReply (W.contents output.old) (W.contents output.new)) }
{
    let stream = match reach(net, call.address.as_str(), call.wait) {
        Ok(stream) => stream,
        Err(error) => return Err(Fault::CannotConnect(system_word(alloc, &error)?)),
    };
    call_over(alloc, call, &mut &stream, &mut &stream, output)
}

/// Connects, and tries again for so many milliseconds while that fails. Where the clock can't be
/// read it tries once.
pub fn reach<N: Net<Stream = TcpStream> + Wait + Clock>(
    net: &N,
    address: &str,
    wait: u64,
) -> io::Result<TcpStream> {
    let start = Instant::now(net).ok();
    for _ in net.forever() {
        let reached = connect(net, address);
        if reached.is_ok() || is_over(net, start, wait) {
            return reached;
        }
        thread::sleep(net, Duration::from_millis(PAUSE));
    }
    unreachable!()
}

/// Whether so many milliseconds have passed since the start, as far as the clock tells.
fn is_over<C: Clock>(clock: &C, start: Option<Instant>, wait: u64) -> bool {
    match start.and_then(|start| start.elapsed(clock).ok()) {
        Some(passed) => passed >= Duration::from_millis(wait),
        None => true,
    }
}

/// Calls over a reader and a writer, and writes the text of the reply, which ends in a line feed.
pub fn call_over<R: Read, W: Write, O: Write>(
    alloc: Global,
    call: &Call,
    reader: &mut R,
    writer: &mut W,
    output: &mut O,
) -> Result<(), Fault>
    // Nothing but the call's Hello and its request is sent, and where a reply is told both are.
    ensures sent { Begins (W.contents writer.old) (W.contents writer.new)
        (message_of call.now.hello call.now.request) }
    ensures all_sent { OnOk result (Appends (W.contents writer.old) (W.contents writer.new)
        (message_of call.now.hello call.now.request)) }
    ensures told { OnOk result (TellsReply call.now.hello.caller.version
        (R.remaining reader.old) (R.remaining reader.new)
        (O.contents output.old) (O.contents output.new)) }
    // A fault of the session is told where the peer told it, and then no reply is.
    ensures fault { (f : faults.SessionFault) → IsErrOf result (fault.Call (call_fault.Session f))
        → HearsFault call.now.hello.caller.version
        (R.remaining reader.old) (R.remaining reader.new) f }
    ensures silent { (why : call_faults.CallFault) → IsErrOf result (fault.Call why)
        → Keeps (O.contents output.old) (O.contents output.new) }
{
    let version = call.hello.caller.version;
    let reply = s4_client::call(version, alloc, reader, writer, call.message())?;
    tell(output, &reply)?;
    Ok(())
}

/// Writes the text of a reply.
fn tell<W: Write>(output: &mut W, reply: &Reply) -> Result<(), RunFault>
    ensures { OnOk result (Appends (W.contents output.old) (W.contents output.new)
        (reply_text reply.now ++ 10 ∷ [])) }
{
    writeln!(output, "{}", ReplyText(reply)).map_err(RunFault::writing)?;
    output.flush().map_err(RunFault::writing)
}
