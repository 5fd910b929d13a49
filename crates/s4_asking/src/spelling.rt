//! What lines ask for.

ghost use Rattle.std.specs.Prelude.{◌≡◌, ◌++◌, Some, IfOk};
ghost use Rattle.std.specs.Option.{option_map};
ghost use Rattle.s4_script.specs.Readings.{line_in_text, Gives};
ghost use Rattle.s4_asking.specs.Spelling.{asked_in, before_arrow, behind_arrow, request_in, version_by};

use crate::line_fault::LineFault;
use s4_causes::{Cause, Form};
use s4_script::{Line, ParseError, parse_line};
use s4_stream::split_at_byte;
use s4_types::{Caller, NoMemory, Request, Step, WireVersion};
use std::alloc::Global;

/// What stands between a request and the reply that is wanted.
const ARROW: &[u8] = b" => ";

/// What stands before the request of a line of a script: a moment and a caller.
const BEFORE_REQUEST: &[u8] = b"0 0 ";

/// What stands before the caller of a line of a script.
const BEFORE_CALLER: &[u8] = b"0 ";

/// Who asks for what in a line, and the text of the reply that is wanted, where the line has one.
#[derive(Drop)]
pub struct Rehearsed {
    pub caller: Caller,
    pub request: Request,
    pub wanted: Option<Vec<u8>>,
}

/// The request that a line asks for: its verb and its words, as in a script behind the moment and the
/// caller. `Empty` or `BadRequest` where it asks for none.
pub fn request_in(alloc: Global, line: &[u8]) -> Result<Request, LineFault>
    ensures { IfOk result (λ request. request_in line.now ≡ Some request) }
{
    match parse_behind(WireVersion::One, alloc, BEFORE_REQUEST, line) {
        Ok(Line::Step(Step::Request { request, .. })) => Ok(request),
        Err(ParseError::NoMemory) => Err(LineFault::NoMemory),
        _ => Err(bad_request(alloc, line)),
    }
}

/// What is asked in a line: a caller and a request, as in a script behind the moment, and behind an arrow
/// the text of the reply that is wanted. A caller without a mark speaks that version. `Empty` or
/// `BadRequest` where nothing is asked.
pub fn rehearsed_in(
    version: WireVersion,
    client: u32,
    alloc: Global,
    line: &[u8],
) -> Result<Rehearsed, LineFault>
    ensures asked { IfOk result (λ it. asked_in version client (before_arrow line.now)
        ≡ Some (record { caller = it.caller; request = it.request })) }
    ensures wanted { IfOk result (λ it. option_map (λ bytes. bytes.items) it.wanted
        ≡ behind_arrow line.now) }
{
    let (text, wanted) = split_at_arrow(line);
    let (caller, request) = asked_in(version, client, alloc, text)?;
    let wanted = match wanted {
        Some([.., b'\r']) => return Err(LineFault::Return),
        Some(wanted) => Some(Vec::from_slice(alloc, wanted)?),
        None => None,
    };
    Ok(Rehearsed {
        caller,
        request,
        wanted,
    })
}

/// Who asks for what in a text, as that client.
#[tactic(auto, using(crate::proofs::Asked::asked_found))]
fn asked_in(
    version: WireVersion,
    client: u32,
    alloc: Global,
    text: &[u8],
) -> Result<(Caller, Request), LineFault>
    ensures { IfOk result (λ it. asked_in version client text.now
        ≡ Some (record { caller = it.0; request = it.1 })) }
{
    let (who, _) = split_at_byte(text, b' ');
    let (_, mark) = split_at_byte(who, b'/');
    let version = version_by(version, mark);
    match parse_behind(version, alloc, BEFORE_CALLER, text) {
        Ok(
            Line::Step(
                Step::Request {
                    caller,
                    request,
                    ..
                },
            ),
        ) => {
            let who = caller.who;
            let version = caller.version;
            let caller = Caller {
                who,
                client,
                version,
            };
            Ok((caller, request))
        }
        Err(ParseError::NoMemory) => Err(LineFault::NoMemory),
        _ => Err(bad_line(version, alloc, text)),
    }
}

/// The version of scripts in which a caller has this mark: one without any is of that version.
fn version_by(version: WireVersion, mark: &[u8]) -> WireVersion
    ensures { result ≡ version_by version mark.now }
{
    match mark {
        [b'1'] => WireVersion::Two,
        [b'2'] => WireVersion::One,
        _ => version,
    }
}

/// A line of a script that begins with these words.
fn parse_behind(
    version: WireVersion,
    alloc: Global,
    words: &[u8],
    line: &[u8],
) -> Result<Line, ParseError>
    ensures { Gives result (line_in_text version (words.now ++ line.now)) }
{
    let whole = joined(alloc, words, line)?;
    parse_line(version, alloc, whole.as_slice())
}

/// Both, one behind the other.
fn joined(alloc: Global, front: &[u8], rest: &[u8]) -> Result<Vec<u8>, NoMemory>
    ensures { IfOk result (λ whole. whole.items ≡ front.now ++ rest.now) }
{
    let mut whole = Vec::new(alloc);
    whole.extend_from_slice(front)?;
    whole.extend_from_slice(rest)?;
    Ok(whole)
}

/// The bytes before and behind the first arrow, where there is one.
#[tactic(auto, using(crate::proofs::Arrows::behind_here, crate::proofs::Arrows::before_here))]
fn split_at_arrow(line: &[u8]) -> (&[u8], Option<&[u8]>)
    ensures front { result.0.now ≡ before_arrow line.now }
    ensures rest { option_map (λ rest. rest.now) result.1 ≡ behind_arrow line.now }
{
    for i in 0..line.len() {
        if line[i..].starts_with(ARROW) {
            return (&line[..i], Some(&line[i + ARROW.len()..]));
        }
    }
    (line, None)
}

/// The fault of a line whose words are no request.
fn bad_request(alloc: Global, line: &[u8]) -> LineFault {
    told(alloc, Cause::of(Form::Request, alloc, line), line)
}

/// The fault of a line whose words are no caller and a request. Its words count from the caller on.
fn bad_line(version: WireVersion, alloc: Global, line: &[u8]) -> LineFault {
    let Ok(whole) = joined(alloc, BEFORE_CALLER, line) else {
        return LineFault::NoMemory;
    };
    let cause = Cause::of(Form::Line(version), alloc, whole.as_slice());
    let cause = cause.map(|cause| cause.map(|mut cause| {
        cause.number = cause.number.saturating_sub(1);
        cause
    }));
    told(alloc, cause, line)
}

/// The fault of a line, by its cause.
fn told(alloc: Global, cause: Result<Option<Cause>, NoMemory>, line: &[u8]) -> LineFault {
    match cause {
        Ok(_) if line.is_empty() => LineFault::Empty,
        Ok(Some(cause)) => cause
            .to_string(alloc)
            .map_or_else(LineFault::from, LineFault::BadRequest),
        _ => LineFault::NoMemory,
    }
}
