//! The lines of a script.

ghost use Rattle.s4_script.specs.Readings.{asked_in, counted_in, line_in, line_in_text, texts, used_in, Gives};

use crate::error::ParseError;
use crate::{callers, requests, words};
use s4_types::{Moment, Principal, Step, WireVersion};
use std::alloc::Global;

/// A line after the first.
#[derive(Debug, Drop)]
pub enum Line {
    /// What the drive is to do: a request at a moment, or a sweep.
    Step(Step),
    /// It asks how many values and bindings the drive holds.
    Used,
    /// The records before the moment are to go.
    Cut(Moment),
}

/// The number that a word spells in decimal digits, without leading zeros and in the range of its
/// type.
pub fn parse_number<T: TryFrom<u64>>(word: &str) -> Result<T, ParseError>
where
    T::Error: Drop,
{
    words::number(word)
}

/// The principal that a word names.
pub fn parse_principal(word: &str) -> Result<Principal, ParseError> {
    words::principal(word)
}

/// What a line after the first asks for, where the first line gives that version of the wire: the
/// caller of a line speaks it, unless their word says that they speak the other one
/// (docs/SCRIPTS.md, "Requests").
///
/// `Bad` where it asks for nothing: it is no text, or its words spell nothing; `NoMemory` where its
/// words or its bytes don't fit in memory.
pub fn parse_line(version: WireVersion, alloc: Global, line: &[u8]) -> Result<Line, ParseError>
    ensures { Gives result (line_in_text version line.now) }
{
    of_words(version, alloc, words::of_line(alloc, line)?.as_slice())
}

fn of_words(version: WireVersion, alloc: Global, words: &[&str]) -> Result<Line, ParseError>
    ensures { Gives result (line_in version (texts words.now)) }
{
    match words {
        [word] => used(word),
        [word, number] => counted(word, number),
        [moment, who, verb, words @ ..] => request(version, alloc, moment, who, verb, words),
        [] => Err(ParseError::Bad),
    }
}

fn used(word: &str) -> Result<Line, ParseError>
    ensures { Gives result (used_in word.now) }
{
    match word {
        "used" => Ok(Line::Used),
        _ => Err(ParseError::Bad),
    }
}

// A line of a word and a number: a cut or a sweep.
fn counted(word: &str, number: &str) -> Result<Line, ParseError>
    ensures { Gives result (counted_in word.now number.now) }
{
    match word {
        "cut" => Ok(Line::Cut(words::moment(number)?)),
        "sweep" => Ok(Line::Step(Step::Sweep {
            n: words::number_u64(number)?,
        })),
        _ => Err(ParseError::Bad),
    }
}

fn request(
    version: WireVersion,
    alloc: Global,
    moment: &str,
    who: &str,
    verb: &str,
    words: &[&str],
) -> Result<Line, ParseError>
    ensures { Gives result (asked_in version moment.now who.now verb.now (texts words.now)) }
{
    Ok(Line::Step(Step::Request {
        moment: words::moment(moment)?,
        caller: callers::caller(version, who)?,
        request: requests::parse_request(alloc, verb, words)?,
    }))
}
