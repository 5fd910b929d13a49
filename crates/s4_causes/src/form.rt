//! The lines that there are.

ghost use Rattle.std.specs.Prelude.{◌≡◌, false, IfOk, is_some};
ghost use Rattle.s4_script.specs.Readings.{arrival_in_text, line_in_text, opening_in_text, window_in_text};
ghost use Rattle.s4_script.specs.declared.error.ParseError.TheVariants as parse_error;
ghost use Rattle.s4_causes.specs.Taken.{behind, is_marked, takes};

use s4_script::{ParseError, parse_arrival, parse_line, parse_opening, parse_window};
use s4_stream::split_at_byte;
use s4_types::{NoMemory, WireVersion};
use std::alloc::{AllocError, Global};

/// What a line is to be.
#[derive(Clone, Copy)]
pub enum Form {
    /// The first line of a script.
    Opening,
    /// A further line of a script whose first line gives that version.
    Line(WireVersion),
    /// The first line of arrivals.
    Window,
    /// A further line of arrivals.
    Arrival,
    /// A line of a server's setup.
    Setup,
    /// The words of a call, with a space between each two.
    Request,
}

impl Form {
    /// Whether a line is one of these.
    pub fn takes(self, alloc: Global, line: &[u8]) -> Result<bool, NoMemory>
        ensures { IfOk result (λ is_taken. is_taken ≡ takes self line.now) }
    {
        match self {
            Form::Opening => takes_opening(alloc, line),
            Form::Line(version) => takes_line(version, alloc, line),
            Form::Window => takes_window(alloc, line),
            Form::Arrival => takes_arrival(alloc, line),
            Form::Setup => Ok(!is_marked(line) && takes_behind(alloc, b"0 ", line)?),
            Form::Request => takes_behind(alloc, b"0 0 ", line),
        }
    }
}

fn takes_opening(alloc: Global, line: &[u8]) -> Result<bool, NoMemory>
    ensures { IfOk result (λ is_taken. is_taken ≡ is_some (opening_in_text line.now)) }
{
    match parse_opening(alloc, line) {
        Ok(_) => Ok(true),
        Err(why) => refused(why),
    }
}

fn takes_line(version: WireVersion, alloc: Global, line: &[u8]) -> Result<bool, NoMemory>
    ensures { IfOk result (λ is_taken. is_taken ≡ is_some (line_in_text version line.now)) }
{
    match parse_line(version, alloc, line) {
        Ok(_) => Ok(true),
        Err(why) => refused(why),
    }
}

fn takes_window(alloc: Global, line: &[u8]) -> Result<bool, NoMemory>
    ensures { IfOk result (λ is_taken. is_taken ≡ is_some (window_in_text line.now)) }
{
    match parse_window(alloc, line) {
        Ok(_) => Ok(true),
        Err(why) => refused(why),
    }
}

fn takes_arrival(alloc: Global, line: &[u8]) -> Result<bool, NoMemory>
    ensures { IfOk result (λ is_taken. is_taken ≡ is_some (arrival_in_text line.now)) }
{
    match parse_arrival(alloc, line) {
        Ok(_) => Ok(true),
        Err(why) => refused(why),
    }
}

/// Whether a line is one of a script of version 1 behind these words.
fn takes_behind(alloc: Global, words: &[u8], line: &[u8]) -> Result<bool, NoMemory>
    ensures { IfOk result (λ is_taken. is_taken ≡ behind words.now line.now) }
{
    let mut whole = Vec::new(alloc);
    whole.extend_from_slice(words)?;
    whole.extend_from_slice(line)?;
    takes_line(WireVersion::One, alloc, whole.as_slice())
}

/// Whether the first word has a slash.
fn is_marked(line: &[u8]) -> bool
    ensures { result ≡ is_marked line.now }
{
    let (first, _) = split_at_byte(line, b' ');
    let (who, _) = split_at_byte(first, b'/');
    who.len() < first.len()
}

/// What comes of a line that a reader refused: it isn't taken, unless memory ran out.
fn refused(why: ParseError) -> Result<bool, NoMemory>
    ensures { IfOk result (λ is_taken. (is_taken ≡ false) × (why ≡ parse_error.Bad)) }
{
    match why {
        ParseError::Bad => Ok(false),
        ParseError::NoMemory => Err(AllocError),
    }
}
