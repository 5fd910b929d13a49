//! Requests of lines over one connection.

ghost use Rattle.std.specs.Prelude.{◌≡◌, ◌+◌, ◌<◌, ◌≤◌, ℕ, List, [], Some, IfNone, IfOk, IfSome, IsSome, OnOk};
ghost use Rattle.std.specs.Io.KnownBytes.{Appends, Consumes, IsAtEnd, Keeps, prepend_known};
ghost use Rattle.s4_types.specs.declared.request.Request as asked;
ghost use Rattle.s4_types.specs.declared.reply.Reply as replies;
ghost use Rattle.s4_types.specs.Kinds.{is_refused};
ghost use Rattle.s4_stream.specs.Talk.{reply_frame};
ghost use Rattle.s4_client.specs.Calls.{Begins, request_frame};
ghost use Rattle.s4_asking.specs.Dialogue.{Asks, AsksSome, IfUntold, Tells, TellsOn, TellsSome, TellsSomeOn};
ghost use Rattle.s4_asking.specs.Lines.{with_feed};
ghost use Rattle.s4_asking.specs.Spelling.{request_in, told_line};

use crate::ahead::Ahead;
use crate::fault::AskFault;
use crate::line_fault::LineFault;
use crate::line_reader::{has_line, next_line};
use crate::spelling::request_in;
use crate::telling::{tell, text_of};
use bytes::BytesMut;
use s4_client::{CallFault, asking, hear_reply, send};
use s4_types::{Reply, Request, WireVersion};
use std::alloc::Global;
use std::io::{Read, Write};

/// Asks for what the lines of the input spell over a connection whose Hello was welcomed, and tells the
/// replies in their order, each in a line. At most so many requests are ahead of their replies, and none
/// is read ahead for which it would have to be waited. Tells whether one was refused.
///
/// At a line that asks for nothing all replies to those before it are told first.
pub fn ask_over<L: Read, R: Read, W: Write, O: Write>(
    version: WireVersion,
    depth: u32,
    alloc: Global,
    input: &mut L,
    reader: &mut R,
    writer: &mut W,
    output: &mut O,
) -> Result<bool, AskFault>
    requires { 0 < depth }
    // Nothing is sent but what the lines spell, in their order.
    ensures sent { AsksSome version (L.remaining input.old)
        (W.contents writer.old) (W.contents writer.new) }
    // Without a fault each line was asked for, and each reply was told.
    ensures all { IfOk result (λ refused. (count : ℕ)
        × Asks version (L.remaining input.old) (Some []) (W.contents writer.old) (W.contents writer.new) count
        × Tells version (R.remaining reader.old) (R.remaining reader.new)
        (O.contents output.old) (O.contents output.new) count refused) }
    // At a fault those replies are told that were heard, but where the output failed.
    ensures told { IfUntold result (TellsSome version (R.remaining reader.old)
        (O.contents output.old) (O.contents output.new)) }
{
    let asked = ask_on(version, depth, alloc, input, reader, writer, output)?;
    let Asked { mut ahead, fault } = asked;
    hear_rest(version, alloc, &mut ahead, reader, output)?;
    match fault {
        Some(fault) => Err(fault),
        None => Ok(ahead.refused),
    }
}

/// What was asked, and what ended that, where it isn't the end of the input.
#[derive(Drop)]
struct Asked {
    ahead: Ahead,
    fault: Option<AskFault>,
}

/// Asks for what the lines spell up to the end of the input or to a fault of a line, and tells replies
/// where no more requests may be ahead, or it would have to be waited for a line.
#[tactic(auto, using(crate::proofs::Turns::asks_begin, crate::proofs::Turns::tells_begin, crate::proofs::Turns::asks_all, crate::proofs::Turns::asks_some))]
fn ask_on<L: Read, R: Read, W: Write, O: Write>(
    version: WireVersion,
    depth: u32,
    alloc: Global,
    input: &mut L,
    reader: &mut R,
    writer: &mut W,
    output: &mut O,
) -> Result<Asked, AskFault>
    requires { 0 < depth }
    ensures sent { AsksSome version (L.remaining input.old)
        (W.contents writer.old) (W.contents writer.new) }
    ensures all { IfOk result (λ it. IfNone it.fault (Asks version (L.remaining input.old) (Some [])
        (W.contents writer.old) (W.contents writer.new) it.ahead.asked)) }
    ensures tells { IfOk result (λ it. Tells version
        (R.remaining reader.old) (R.remaining reader.new)
        (O.contents output.old) (O.contents output.new) it.ahead.told it.ahead.refused) }
    ensures told { IfUntold result (TellsSome version (R.remaining reader.old)
        (O.contents output.old) (O.contents output.new)) }
{
    let mut held = BytesMut::new(alloc);
    let mut ahead = Ahead::new(depth);
    for asked in 0..u64::MAX {
        hear_due(version, alloc, has_line(&held), &mut ahead, reader, output)?;
        let number = asked + 1;
        match next_message(version, alloc, &mut held, input) {
            Ok(Some(message)) => {
                make_room(version, alloc, message.len(), &mut ahead, reader, output)?;
                match send(writer, message.as_slice()) {
                    Ok(()) => ahead.ask(message.len()),
                    Err(fault) => return Ok(ended(ahead, number, LineFault::Call(fault))),
                }
            }
            Ok(None) => return Ok(Asked { ahead, fault: None }),
            Err(fault) => return Ok(ended(ahead, number, fault)),
        }
    }
    Ok(ended(ahead, u64::MAX, LineFault::CannotRead))
}

/// What was asked up to a line of this number, which ended it.
fn ended(ahead: Ahead, number: u64, fault: LineFault) -> Asked
    ensures ahead { result.ahead ≡ ahead }
    ensures fault { IsSome result.fault }
{
    Asked {
        ahead,
        fault: Some(AskFault::Line(number, fault)),
    }
}

/// The frame of the request that the next line asks for; none at the end of the input.
fn next_message<L: Read>(
    version: WireVersion,
    alloc: Global,
    held: &mut BytesMut,
    input: &mut L,
) -> Result<Option<Vec<u8>>, LineFault>
    ensures message { IfOk result (λ message. IfSome message (λ frame.
        (line : List ℕ) × (request : asked.Request) × Consumes
        (prepend_known held.old.items (L.remaining input.old))
        (prepend_known held.new.items (L.remaining input.new)) (with_feed line)
        × (request_in line ≡ Some request) × (frame.items ≡ request_frame version request))) }
    ensures end { IfOk result (λ message. IfNone message
        (IsAtEnd (prepend_known held.old.items (L.remaining input.old)))) }
{
    let Some(line) = next_line(alloc, held, input)? else {
        return Ok(None);
    };
    let request = request_in(alloc, line.as_slice())?;
    Ok(Some(message_of(version, alloc, &request)?))
}

/// The frame of a request. `TooBig` where it has no spelling within one.
fn message_of(version: WireVersion, alloc: Global, request: &Request) -> Result<Vec<u8>, LineFault>
    ensures { IfOk result (λ frame. frame.items ≡ request_frame version request.now) }
{
    match asking(version, alloc, request) {
        Ok(frame) => Ok(frame),
        Err(CallFault::NoMemory) => Err(LineFault::NoMemory),
        Err(_) => Err(LineFault::TooBig),
    }
}

/// Tells replies that are missing before a further line is taken: all where it would have to be waited for
/// that, and one where no more requests may be ahead.
fn hear_due<R: Read, O: Write>(
    version: WireVersion,
    alloc: Global,
    has_line: bool,
    ahead: &mut Ahead,
    reader: &mut R,
    output: &mut O,
) -> Result<(), AskFault>
    ensures on { OnOk result (TellsOn version (R.remaining reader.old) (R.remaining reader.new)
        (O.contents output.old) (O.contents output.new)
        ahead.old.told ahead.old.refused ahead.new.told ahead.new.refused) }
    ensures asked { ahead.new.asked ≡ ahead.old.asked }
    ensures room { OnOk result (ahead.new.asked < ahead.new.told + ahead.new.depth) }
    ensures some { IfUntold result (TellsSomeOn version
        (R.remaining reader.old) (O.contents output.old) (O.contents output.new)
        ahead.old.told ahead.old.refused) }
{
    if !has_line {
        return hear_rest(version, alloc, ahead, reader, output);
    }
    if ahead.is_full() {
        let number = ahead.told + 1;
        return hear_next(version, alloc, number, ahead, reader, output);
    }
    Ok(())
}

/// Tells all replies that are missing, where a request of so many bytes isn't to be ahead of them.
fn make_room<R: Read, O: Write>(
    version: WireVersion,
    alloc: Global,
    bytes: usize,
    ahead: &mut Ahead,
    reader: &mut R,
    output: &mut O,
) -> Result<(), AskFault>
    ensures on { OnOk result (TellsOn version (R.remaining reader.old) (R.remaining reader.new)
        (O.contents output.old) (O.contents output.new)
        ahead.old.told ahead.old.refused ahead.new.told ahead.new.refused) }
    ensures asked { ahead.new.asked ≡ ahead.old.asked }
    ensures more { ahead.old.told ≤ ahead.new.told }
    ensures depth { ahead.new.depth ≡ ahead.old.depth }
    ensures some { IfUntold result (TellsSomeOn version
        (R.remaining reader.old) (O.contents output.old) (O.contents output.new)
        ahead.old.told ahead.old.refused) }
{
    if ahead.has_room(bytes) {
        return Ok(());
    }
    hear_rest(version, alloc, ahead, reader, output)
}

/// Tells all replies that are missing.
fn hear_rest<R: Read, O: Write>(
    version: WireVersion,
    alloc: Global,
    ahead: &mut Ahead,
    reader: &mut R,
    output: &mut O,
) -> Result<(), AskFault>
    ensures on { OnOk result (TellsOn version (R.remaining reader.old) (R.remaining reader.new)
        (O.contents output.old) (O.contents output.new)
        ahead.old.told ahead.old.refused ahead.new.told ahead.new.refused) }
    ensures asked { ahead.new.asked ≡ ahead.old.asked }
    ensures more { ahead.old.told ≤ ahead.new.told }
    ensures depth { ahead.new.depth ≡ ahead.old.depth }
    ensures all { OnOk result (ahead.new.told ≡ ahead.new.asked) }
    ensures some { IfUntold result (TellsSomeOn version
        (R.remaining reader.old) (O.contents output.old) (O.contents output.new)
        ahead.old.told ahead.old.refused) }
{
    for told in ahead.told..ahead.asked {
        hear_next(version, alloc, told + 1, ahead, reader, output)?;
    }
    Ok(())
}

/// Tells the next reply, which is that of the line of this number.
fn hear_next<R: Read, O: Write>(
    version: WireVersion,
    alloc: Global,
    number: u64,
    ahead: &mut Ahead,
    reader: &mut R,
    output: &mut O,
) -> Result<(), AskFault>
    requires { ahead.old.told < ahead.old.asked }
    ensures on { OnOk result (TellsOn version (R.remaining reader.old) (R.remaining reader.new)
        (O.contents output.old) (O.contents output.new)
        ahead.old.told ahead.old.refused ahead.new.told ahead.new.refused) }
    ensures asked { ahead.new.asked ≡ ahead.old.asked }
    ensures depth { ahead.new.depth ≡ ahead.old.depth }
    ensures one { OnOk result (ahead.new.told ≡ ahead.old.told + 1) }
    ensures more { ahead.old.told ≤ ahead.new.told }
    ensures some { IfUntold result (TellsSomeOn version
        (R.remaining reader.old) (O.contents output.old) (O.contents output.new)
        ahead.old.told ahead.old.refused) }
{
    let is_refusal = hear_told(version, alloc, number, reader, output)?;
    ahead.tell(is_refusal);
    Ok(())
}

/// Hears a reply, which is that of the line of this number, and tells it. Gives whether it is a refusal.
fn hear_told<R: Read, O: Write>(
    version: WireVersion,
    alloc: Global,
    number: u64,
    reader: &mut R,
    output: &mut O,
) -> Result<bool, AskFault>
    ensures told { IfOk result (λ is_refusal. (reply : replies.Reply)
        × Consumes (R.remaining reader.old) (R.remaining reader.new) (reply_frame version reply)
        × Appends (O.contents output.old) (O.contents output.new) (told_line reply)
        × (is_refusal ≡ is_refused reply)) }
    ensures kept { IfUntold result (Keeps (O.contents output.old) (O.contents output.new)) }
{
    let reply = match hear_reply(version, alloc, reader) {
        Ok(reply) => reply,
        Err(fault) => return Err(AskFault::Line(number, LineFault::Call(fault))),
    };
    let Ok(text) = text_of(alloc, &reply) else {
        return Err(AskFault::Line(number, LineFault::NoMemory));
    };
    tell(alloc, number, text.as_slice(), output)?;
    Ok(reply.is_refused())
}

/// Sends a request over a connection whose Hello was welcomed, and hears its reply.
pub fn exchange<R: Read, W: Write>(
    version: WireVersion,
    alloc: Global,
    request: &Request,
    reader: &mut R,
    writer: &mut W,
) -> Result<Reply, LineFault>
    ensures sent { Begins (W.contents writer.old) (W.contents writer.new)
        (request_frame version request.now) }
    ensures all_sent { OnOk result (Appends (W.contents writer.old) (W.contents writer.new)
        (request_frame version request.now)) }
    ensures reply { IfOk result (λ reply. Consumes
        (R.remaining reader.old) (R.remaining reader.new) (reply_frame version reply)) }
{
    let message = message_of(version, alloc, request)?;
    send(writer, message.as_slice())?;
    Ok(hear_reply(version, alloc, reader)?)
}
