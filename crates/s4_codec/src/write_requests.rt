//! Writing requests into vectors.

ghost use Rattle.std.specs.Prelude.{◌≡◌, IfOk, IsErrOf, OnOk, ℕ, List};
ghost use Rattle.s4_codec.specs.Requests.{IsRequestBody};
ghost use Rattle.s4_codec.specs.Rooms as rooms;
ghost use Rattle.s4_codec.specs.declared.error.WriteError.TheVariants as write_error;

use crate::error::WriteError;
use crate::frames::{frame_limit, has_length};
use crate::put_requests::put_request;
use s4_types::{Request, WireVersion};
use std::alloc::Global;

/// The request's spelling (docs/PROTOCOL.md, "Requests").
pub fn write_request(
    version: WireVersion,
    alloc: Global,
    request: &Request,
) -> Result<Vec<u8>, WriteError>
    // What is written is the spelling.
    ensures written { IfOk result (λ body. IsRequestBody version body.items request.now) }
    // A request that is too big has no spelling within a frame.
    ensures too_big { IsErrOf result write_error.TooBig
        → (body : List ℕ) → IsRequestBody version body request.now → ⊥ }
{
    let mut body = Vec::new(alloc);
    spell_request(version, &mut body, request)?;
    Ok(body)
}

/// Has the buffer hold the request's spelling and nothing else. It takes memory only where the
/// buffer has too little.
pub fn spell_request(
    version: WireVersion,
    body: &mut Vec<u8>,
    request: &Request,
) -> Result<(), WriteError>
    ensures written { OnOk result (IsRequestBody version body.new.items request.now) }
    ensures too_big { IsErrOf result write_error.TooBig
        → (body : List ℕ) → IsRequestBody version body request.now → ⊥ }
{
    let count = data_given(request);
    if !has_length(version, count) {
        return Err(WriteError::TooBig);
    }
    body.clear();
    body.reserve(49 + count)?;
    put_request(version, body, request);
    if body.len() > frame_limit(version) {
        return Err(WriteError::TooBig);
    }
    Ok(())
}

/// How many bytes of data or of attributes the request gives.
fn data_given(request: &Request) -> usize
    ensures { result ≡ rooms.data_given request.now }
{
    match request {
        Request::Write { bytes, .. }
        | Request::Append { bytes, .. }
        | Request::SetAttr { bytes, .. } => bytes.len(),
        _ => 0,
    }
}
