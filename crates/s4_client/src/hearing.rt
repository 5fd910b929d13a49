//! A call over a reader and a writer.

ghost use Rattle.std.specs.Prelude.{◌≡◌, ◌≤◌, ◌++◌, ◌∷◌, [], IfErr, IfOk, IsErrOf, OnOk, OnErr, length, take};
ghost use Rattle.std.specs.Io.KnownBytes.{Appends, Consumes, Keeps};
ghost use Rattle.byteorder.specs.Endian.{big_bytes};
ghost use Rattle.s4_codec.specs.Frames.{framed};
ghost use Rattle.s4_stream.specs.declared.event.SessionFault as faults;
ghost use Rattle.s4_stream.specs.Talk.{welcome, reply_frame, fault_frame, fault_number};
ghost use Rattle.s4_client.specs.Calls.{Begins, HearsFault, IfFault, IsLoss, IsMet};
ghost use Rattle.s4_client.specs.declared.fault.CallFault.TheVariants as fault;

use crate::fault::CallFault;
use s4_codec::{ReadError, frame_limit, read_reply};
use s4_stream::{FAULT, SessionFault, WELCOME};
use s4_types::{Reply, WireVersion};
use std::alloc::Global;
use std::io::{ErrorKind, Read, Write};

/// Sends a message, as `message` makes it of a Hello of that version, and hears what is answered:
/// the Welcome, and then the reply. `Session` where a fault is told in place of one of them; `ConnectionLost` where the
/// reader or the writer fails or ends before, or where something else is told.
#[tactic(auto, using(crate::proofs::Chains::consumes_both))]
pub fn call<R: Read, W: Write>(
    version: WireVersion,
    alloc: Global,
    reader: &mut R,
    writer: &mut W,
    message: &[u8],
) -> Result<Reply, CallFault>
    // A beginning of the message is sent, and nothing else; with a reply all of it.
    ensures sent { Begins (W.contents writer.old) (W.contents writer.new) message.now }
    ensures all_sent { OnOk result
        (Appends (W.contents writer.old) (W.contents writer.new) message.now) }
    // What was heard is the Welcome and the frame of the reply, or ends by the frame of the fault.
    ensures reply { IfOk result (λ reply. Consumes
        (R.remaining reader.old) (R.remaining reader.new)
        (welcome version ++ reply_frame version reply)) }
    ensures fault { IfFault result
        (HearsFault version (R.remaining reader.old) (R.remaining reader.new)) }
    ensures met { IfErr result IsMet }
{
    send(writer, message)?;
    hear_welcome(version, alloc, reader)?;
    hear_reply(version, alloc, reader)
}

/// Writes all of the bytes. `ConnectionLost` where the writer fails before.
pub fn send<W: Write>(writer: &mut W, bytes: &[u8]) -> Result<(), CallFault>
    ensures sent { Begins (W.contents writer.old) (W.contents writer.new) bytes.now }
    ensures all_sent { OnOk result
        (Appends (W.contents writer.old) (W.contents writer.new) bytes.now) }
    ensures lost { IfErr result IsLoss }
{
    let mut sent = 0;
    for _ in 0..u64::MAX {
        if sent == bytes.len() {
            return Ok(());
        }
        sent += send_some(writer, &bytes[sent..])?;
    }
    Err(CallFault::ConnectionLost)
}

/// Writes some of the bytes, and gives how many; none where the write was interrupted. A write that
/// takes no byte has failed.
#[tactic(auto, using(crate::proofs::Chains::kept_none, crate::proofs::Chains::none_kept))]
fn send_some<W: Write>(writer: &mut W, bytes: &[u8]) -> Result<usize, CallFault>
    ensures some { IfOk result
        (λ n. (n ≤ length bytes.now)
        × Appends (W.contents writer.old) (W.contents writer.new) (take n bytes.now)) }
    ensures none { OnErr result (Keeps (W.contents writer.old) (W.contents writer.new)) }
    ensures lost { IfErr result IsLoss }
{
    match writer.write(bytes) {
        Ok(0) => Err(CallFault::ConnectionLost),
        Ok(count) => Ok(count),
        Err(error) => match error.kind() {
            ErrorKind::Interrupted => Ok(0),
            _ => Err(CallFault::ConnectionLost),
        },
    }
}

/// Hears the Welcome of the version. `Session` where a fault is told in its place, and `ConnectionLost` where
/// the reader fails or ends before, or where something else is told.
pub fn hear_welcome<R: Read>(
    version: WireVersion,
    alloc: Global,
    reader: &mut R,
) -> Result<(), CallFault>
    ensures welcome { OnOk result
        (Consumes (R.remaining reader.old) (R.remaining reader.new) (welcome version)) }
    ensures fault { IfFault result
        (λ f. Consumes (R.remaining reader.old) (R.remaining reader.new) (fault_frame f)) }
    ensures met { IfErr result IsMet }
{
    let body = hear_body(frame_limit(WireVersion::One), alloc, reader)?;
    match body.as_slice() {
        [WELCOME, number] if *number == version.number() => Ok(()),
        said => Err(fault_in(said)),
    }
}

/// Hears the next reply of that version. It ends otherwise as `hear_welcome` does.
pub fn hear_reply<R: Read>(
    version: WireVersion,
    alloc: Global,
    reader: &mut R,
) -> Result<Reply, CallFault>
    ensures reply { IfOk result (λ reply. Consumes
        (R.remaining reader.old) (R.remaining reader.new) (reply_frame version reply)) }
    ensures fault { IfFault result
        (λ f. Consumes (R.remaining reader.old) (R.remaining reader.new) (fault_frame f)) }
    ensures met { IfErr result IsMet }
{
    let body = hear_body(frame_limit(version), alloc, reader)?;
    match read_reply(version, alloc, body.as_slice()) {
        Ok(reply) => Ok(reply),
        Err(ReadError::Malformed) => Err(fault_in(body.as_slice())),
        Err(ReadError::NoMemory) => Err(CallFault::NoMemory),
    }
}

/// Hears a frame whose body has at most `limit` bytes, and gives that.
#[tactic(auto, using(crate::proofs::Chains::consumes_both))]
fn hear_body<R: Read>(limit: usize, alloc: Global, reader: &mut R) -> Result<Vec<u8>, CallFault>
    ensures body { IfOk result
        (λ body. Consumes (R.remaining reader.old) (R.remaining reader.new) (framed body.items)) }
    ensures lost { IfErr result IsLoss }
{
    let length = hear_length(limit, reader)?;
    hear_bytes(alloc, reader, length as usize)
}

/// Hears the length of a body, in four bytes: at most that.
fn hear_length<R: Read>(limit: usize, reader: &mut R) -> Result<u32, CallFault>
    ensures length { IfOk result
        (λ length. Consumes
        (R.remaining reader.old) (R.remaining reader.new) (big_bytes 4 length)) }
    ensures lost { IfErr result IsLoss }
{
    let mut head = [0; 4];
    fill(reader, &mut head)?;
    let length = length_in(head);
    if length == 0 || length as usize > limit {
        return Err(CallFault::ConnectionLost);
    }
    Ok(length)
}

/// The length that four bytes spell.
fn length_in(head: [u8; 4]) -> u32
    ensures { head ≡ big_bytes 4 result }
{
    let [first, second, third, fourth] = head;
    u32::from_be_bytes([first, second, third, fourth])
}

/// Hears that many bytes.
fn hear_bytes<R: Read>(alloc: Global, reader: &mut R, count: usize) -> Result<Vec<u8>, CallFault>
    ensures bytes { IfOk result
        (λ bytes. Consumes (R.remaining reader.old) (R.remaining reader.new) bytes.items) }
    ensures count { IfOk result (λ bytes. length bytes.items ≡ count) }
    ensures lost { IfErr result IsLoss }
{
    let mut bytes = Vec::from_elem(alloc, 0, count)?;
    fill(reader, bytes.as_mut_slice())?;
    Ok(bytes)
}

/// Reads until the bytes are full.
fn fill<R: Read>(reader: &mut R, bytes: &mut [u8]) -> Result<(), CallFault>
    ensures bytes { OnOk result
        (Consumes (R.remaining reader.old) (R.remaining reader.new) bytes.new) }
    ensures lost { IfErr result IsLoss }
{
    match reader.read_exact(bytes) {
        Ok(()) => Ok(()),
        Err(_) => Err(CallFault::ConnectionLost),
    }
}

/// The fault that a body tells; the connection is lost where it tells none.
fn fault_in(body: &[u8]) -> CallFault
    ensures fault { (f : faults.SessionFault) → result ≡ fault.Session f
        → body.now ≡ 17 ∷ fault_number f ∷ [] }
    ensures met { IsMet result }
{
    match body {
        [FAULT, 1] => CallFault::Session(SessionFault::Malformed),
        [FAULT, 2] => CallFault::Session(SessionFault::BadLogin),
        [FAULT, 3] => CallFault::Session(SessionFault::FrameLength),
        _ => CallFault::ConnectionLost,
    }
}
