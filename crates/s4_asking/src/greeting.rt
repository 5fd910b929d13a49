//! How a connection begins.

ghost use Rattle.std.specs.Prelude.{OnOk};
ghost use Rattle.std.specs.Io.KnownBytes.{Appends, Consumes};
ghost use Rattle.s4_stream.specs.Talk.{welcome};
ghost use Rattle.s4_client.specs.Calls.{Begins, greeting_of};

use s4_client::{CallFault, greeting, hear_welcome, send};
use s4_stream::Hello;
use std::alloc::Global;
use std::io::{Read, Write};

/// Sends a Hello, and hears the Welcome.
pub fn greet<R: Read, W: Write>(
    alloc: Global,
    hello: &Hello,
    reader: &mut R,
    writer: &mut W,
) -> Result<(), CallFault>
    ensures sent { Begins (W.contents writer.old) (W.contents writer.new) (greeting_of hello.now) }
    ensures all_sent { OnOk result
        (Appends (W.contents writer.old) (W.contents writer.new) (greeting_of hello.now)) }
    ensures welcome { OnOk result (Consumes (R.remaining reader.old) (R.remaining reader.new)
        (welcome hello.now.caller.version)) }
{
    let greeting = greeting(alloc, hello)?;
    send(writer, greeting.as_slice())?;
    hear_welcome(hello.caller.version, alloc, reader)
}
