//! What a call sends.

ghost use Rattle.std.specs.Prelude.{◌≡◌, ◌<◌, ◌≤◌, ◌^◌, ◌++◌, ◌⊎◌, ℕ, List, IfErr, IfOk, IsErrOf, OnOk, length};
ghost use Rattle.byteorder.specs.Endian.{big_bytes};
ghost use Rattle.s4_codec.specs.Frames.{framed};
ghost use Rattle.s4_codec.specs.Requests.{IsRequestBody};
ghost use Rattle.s4_codec.specs.Versions.{frame_limit};
ghost use Rattle.s4_stream.specs.Hello as format;
ghost use Rattle.s4_client.specs.Calls.{greeting_of, message_of, request_frame};
ghost use Rattle.s4_client.specs.declared.fault.CallFault.TheVariants as fault;

use crate::fault::CallFault;
use byteorder::{BigEndian, ByteOrder};
use bytes::BytesMut;
use s4_codec::{WriteError, write_request};
use s4_stream::Hello;
use s4_types::{NoMemory, Request, WireVersion};
use std::alloc::Global;

/// The code of a Hello.
const HELLO: u8 = 0;

/// The bytes of a call: the frame of its Hello, and then that of its request, in the Hello's
/// version. `BadRequest` where the request has no spelling within a frame of that.
pub fn message(alloc: Global, hello: &Hello, request: &Request) -> Result<Vec<u8>, CallFault>
    ensures message { IfOk result (λ message. message.items ≡ message_of hello.now request.now) }
    ensures bad { IsErrOf result fault.BadRequest
        → (body : List ℕ) → IsRequestBody hello.now.caller.version body request.now → ⊥ }
    ensures why { IfErr result (λ why. (why ≡ fault.BadRequest) ⊎ (why ≡ fault.NoMemory)) }
{
    let body = match write_request(hello.caller.version, alloc, request) {
        Ok(body) => body,
        Err(WriteError::TooBig) => return Err(CallFault::BadRequest),
        Err(WriteError::NoMemory) => return Err(CallFault::NoMemory),
    };
    Ok(framed(alloc, hello, body.as_slice())?)
}

/// The frame of a Hello, by which a connection begins.
#[tactic(auto, using(crate::proofs::Limits::in_four_bytes))]
pub fn greeting(alloc: Global, hello: &Hello) -> Result<Vec<u8>, NoMemory>
    ensures { IfOk result (λ greeting. greeting.items ≡ greeting_of hello.now) }
{
    let mut greeting = BytesMut::new(alloc);
    add_frame(&mut greeting, write_hello(alloc, hello)?.as_slice())?;
    Ok(greeting.into_vec()?)
}

/// The frame of a request in a version of the wire. `BadRequest` where the request has no spelling within
/// a frame of that.
#[tactic(auto, using(crate::proofs::Limits::in_four_bytes))]
pub fn asking(version: WireVersion, alloc: Global, request: &Request) -> Result<Vec<u8>, CallFault>
    ensures frame { IfOk result (λ frame. frame.items ≡ request_frame version request.now) }
    ensures bad { IsErrOf result fault.BadRequest
        → (body : List ℕ) → IsRequestBody version body request.now → ⊥ }
    ensures why { IfErr result (λ why. (why ≡ fault.BadRequest) ⊎ (why ≡ fault.NoMemory)) }
{
    let body = match write_request(version, alloc, request) {
        Ok(body) => body,
        Err(WriteError::TooBig) => return Err(CallFault::BadRequest),
        Err(WriteError::NoMemory) => return Err(CallFault::NoMemory),
    };
    let mut frame = BytesMut::new(alloc);
    add_frame(&mut frame, body.as_slice())?;
    Ok(frame.into_vec()?)
}

/// The frame of a Hello, and then that of a body.
#[tactic(auto, using(crate::proofs::Limits::in_four_bytes))]
fn framed(alloc: Global, hello: &Hello, body: &[u8]) -> Result<Vec<u8>, NoMemory>
    requires { length body.now ≤ frame_limit hello.now.caller.version }
    ensures { IfOk result
        (λ message. message.items ≡ framed (format.hello.spell hello.now) ++ framed body.now) }
{
    let mut message = BytesMut::new(alloc);
    add_frame(&mut message, write_hello(alloc, hello)?.as_slice())?;
    add_frame(&mut message, body)?;
    Ok(message.into_vec()?)
}

/// Adds the frame of a body.
fn add_frame(out: &mut BytesMut, body: &[u8]) -> Result<(), NoMemory>
    requires { length body.now < 2 ^ 32 }
    ensures { OnOk result (out.new.items ≡ out.old.items ++ framed body.now) }
{
    let mut length = [0; 4];
    BigEndian::write_u32(&mut length, body.len() as u32);
    out.extend_from_slice(&length)?;
    out.extend_from_slice(body)
}

/// The body that spells a Hello, 26 bytes.
fn write_hello(alloc: Global, hello: &Hello) -> Result<Vec<u8>, NoMemory>
    ensures body { IfOk result (λ body. body.items ≡ format.hello.spell hello.now) }
    ensures length { IfOk result (λ body. length body.items ≡ 26) }
{
    let mut body = Vec::new(alloc);
    body.extend_from_slice(&[HELLO, hello.caller.version.number()])?;
    write_u32(&mut body, hello.caller.who.number())?;
    write_u32(&mut body, hello.caller.client)?;
    body.extend_from_slice(&hello.secret)?;
    Ok(body)
}

fn write_u32(out: &mut Vec<u8>, number: u32) -> Result<(), NoMemory>
    ensures { OnOk result (out.new.items ≡ out.old.items ++ big_bytes 4 number) }
{
    let mut bytes = [0; 4];
    BigEndian::write_u32(&mut bytes, number);
    out.extend_from_slice(&bytes)
}
