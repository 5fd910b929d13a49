//! Why a line of a whole text isn't taken.

use crate::cause::Cause;
use crate::form::Form;
use s4_script::{NumberedLines, parse_opening};
use s4_types::{NoMemory, WireVersion};
use std::alloc::Global;

/// Why the line of this number of a script isn't taken; none where it is, or isn't there.
pub fn cause_in_script(
    alloc: Global,
    text: &[u8],
    number: usize,
) -> Result<Option<Cause>, NoMemory> {
    let version = version_of(alloc, text);
    cause_at(alloc, text, number, Form::Opening, Form::Line(version))
}

/// Why the line of this number of arrivals isn't taken; none where it is, or isn't there.
pub fn cause_in_arrivals(
    alloc: Global,
    text: &[u8],
    number: usize,
) -> Result<Option<Cause>, NoMemory> {
    cause_at(alloc, text, number, Form::Window, Form::Arrival)
}

/// Why the line of this number isn't taken, where the first line has a form of its own.
fn cause_at(
    alloc: Global,
    text: &[u8],
    number: usize,
    first: Form,
    further: Form,
) -> Result<Option<Cause>, NoMemory> {
    for (count, line) in NumberedLines::of(text) {
        if count == number {
            let form = if number == 1 { first } else { further };
            return Cause::of(form, alloc, line);
        }
    }
    Ok(None)
}

/// The version of the wire that the first line of a script gives; the first where it gives none.
pub fn version_of(alloc: Global, text: &[u8]) -> WireVersion {
    for (_, line) in NumberedLines::of(text) {
        return match parse_opening(alloc, line) {
            Ok(opening) => opening.version,
            Err(_) => WireVersion::One,
        };
    }
    WireVersion::One
}
