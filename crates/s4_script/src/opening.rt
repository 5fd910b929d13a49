//! The first line of a script, and that of arrivals.

ghost use Rattle.std.specs.Prelude.{Some, ◌∷◌, []};
ghost use Rattle.s4_script.specs.Readings.{opened_in, opening_in, opening_in_text, texts, window_in, window_in_text, Gives};
ghost use Rattle.s4_script.specs.Requests.{opening_text};

use crate::error::ParseError;
use crate::words;
use s4_types::WireVersion;
use std::alloc::Global;
use std::fmt;

/// What the first line of a script opens, and the line itself.
#[derive(Clone, Copy, Debug)]
pub struct Opening {
    /// The window that the drive begins with, in ticks.
    pub window: u64,
    /// The version of the wire that the callers of further lines speak, but for those whose line says
    /// that they speak the other one.
    pub version: WireVersion,
}

impl fmt::Display for Opening {
    ghost output = { λ opening. Some (opening_text opening) };

    fn fmt<W: fmt::Write>(&self, f: &mut fmt::Formatter<W>) -> fmt::Result {
        match self.version {
            WireVersion::One => write!(f, "window {}", self.window),
            WireVersion::Two => write!(f, "window {} wire 2", self.window),
        }
    }
}

/// What the first line of a script opens (docs/SCRIPTS.md, "The first line").
///
/// `Bad` where it opens nothing: it is no text, or its words spell no window, or behind it no
/// version 2; `NoMemory` where its words don't fit in memory.
pub fn parse_opening(alloc: Global, line: &[u8]) -> Result<Opening, ParseError>
    ensures { Gives result (opening_in_text line.now) }
{
    of_words(words::of_line(alloc, line)?.as_slice())
}

fn of_words(words: &[&str]) -> Result<Opening, ParseError>
    ensures { Gives result (opening_in (texts words.now)) }
{
    match words {
        [word, ticks] => opened(WireVersion::One, word, ticks),
        [word, ticks, wire, number] => second(word, ticks, wire, number),
        _ => Err(ParseError::Bad),
    }
}

// A window, and behind it version 2.
fn second(word: &str, ticks: &str, wire: &str, number: &str) -> Result<Opening, ParseError>
    ensures { Gives result (opening_in (word.now ∷ ticks.now ∷ wire.now ∷ number.now ∷ [])) }
{
    if wire != "wire" || number != "2" {
        return Err(ParseError::Bad);
    }
    opened(WireVersion::Two, word, ticks)
}

fn opened(version: WireVersion, word: &str, ticks: &str) -> Result<Opening, ParseError>
    ensures { Gives result (opened_in version word.now ticks.now) }
{
    if word != "window" {
        return Err(ParseError::Bad);
    }
    let window = words::number_u64(ticks)?;
    Ok(Opening { window, version })
}

/// The window that the first line of arrivals opens a hall with (docs/SCRIPTS.md, "Arrivals"). The
/// callers of a hall say by themselves which version they speak, so no version stands behind it.
///
/// `Bad` where it opens none: it is no text, or its words spell no window; `NoMemory` where its
/// words don't fit in memory.
pub fn parse_window(alloc: Global, line: &[u8]) -> Result<u64, ParseError>
    ensures { Gives result (window_in_text line.now) }
{
    window(words::of_line(alloc, line)?.as_slice())
}

fn window(words: &[&str]) -> Result<u64, ParseError>
    ensures { Gives result (window_in (texts words.now)) }
{
    let [word, ticks] = words else {
        return Err(ParseError::Bad);
    };
    if *word != "window" {
        return Err(ParseError::Bad);
    }
    words::number_u64(ticks)
}
