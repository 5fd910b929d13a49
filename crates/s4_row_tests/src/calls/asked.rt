//! What is asked in the cases, as lines of scripts say it, and whether a reply is what a line says.

use crate::texts::{invalid, well};
use s4_pool::Asked;
use s4_script::{Line, ReplyText, parse_line};
use s4_types::{Refusal, Reply, Step, WireVersion};
use std::alloc::{AllocError, Global};
use std::io;

/// Who asks in a line, at which moment, and for what.
pub fn asked(alloc: Global, line: &str) -> io::Result<Asked> {
    asked_in(&well(parse_line(WireVersion::One, alloc, line.as_bytes()))?)
}

/// The same of a line that is read.
pub fn asked_in(line: &Line) -> io::Result<Asked> {
    match line {
        Line::Step(
            Step::Request {
                moment,
                caller,
                request,
            },
        ) => Ok(Asked {
            caller: *caller,
            clock: *moment,
            request: request.copy()?,
        }),
        _ => Err(invalid()),
    }
}

/// The text of a reply, without a line feed behind it.
pub fn text_of(alloc: Global, reply: &Reply) -> Result<String, AllocError> {
    format!(in alloc; "{}", ReplyText(reply))
}

/// Whether a reply is what the line says.
pub fn is_told(alloc: Global, reply: &Reply, line: &str) -> Result<bool, AllocError> {
    Ok(text_of(alloc, reply)?.as_str() == line)
}

/// Whether a reply tells that there was no memory.
pub fn is_no_memory(reply: &Reply) -> bool {
    matches!(reply, Reply::Refused(Refusal::NoMemory))
}
