//! What is told of a line that isn't taken.

ghost use Rattle.std.specs.Prelude.{◌≡◌, ◌<◌, ◌-◌, not, take, IfOk, IfSome, is_some, string_len};
ghost use Rattle.s4_causes.specs.Begun.{Begins};
ghost use Rattle.s4_causes.specs.Taken.{takes};

use crate::form::Form;
use crate::place::Place;
use crate::slots::slots_of;
use crate::spot::{Spot, spot_in};
use s4_types::NoMemory;
use std::alloc::Global;
use std::{fmt, str};

/// The most bytes of a word that are shown. A secret has 32 digits, so none is shown whole.
const MOST_SHOWN: usize = 24;

/// How many hexadecimal digits in a row a word has that isn't shown at all: they may be of a secret.
const DIGITS: usize = 24;

/// The most words of a line that are looked at.
const MOST_WORDS: usize = 16;

/// Why a line isn't taken: a word, and what belongs there.
#[derive(Drop)]
pub struct Cause {
    /// The number of the word, from 1.
    pub number: usize,
    /// At which byte of the line it begins; one that lacks begins behind the line.
    pub start: usize,
    /// The word as it is shown: its first bytes, or none.
    shown: String,
    why: Why,
}

/// What is wrong with a word.
#[derive(Clone, Copy)]
enum Why {
    /// It isn't what belongs there.
    Other(Place),
    /// It lacks.
    Lacks(Place),
    /// Nothing belongs there.
    More,
    /// It has no characters, so a space is too many.
    Space,
    /// It has a space in it, where each word stands by itself.
    Spaced,
    /// It is the only one, and has no characters.
    Empty,
    /// A carriage return stands behind it.
    Return,
    /// It is no UTF-8.
    NoText,
}

impl Cause {
    /// Why a line of this form isn't taken; none where it is.
    pub fn of(form: Form, alloc: Global, line: &[u8]) -> Result<Option<Cause>, NoMemory>
        ensures told { IfOk result (λ cause. is_some cause ≡ not (takes form line.now)) }
        // A line that is taken begins with the words before the one that is told.
        ensures begins { IfOk result (λ cause. IfSome cause
            (λ c. 0 < c.start → Begins form (take (c.start - 1) line.now))) }
    {
        if form.takes(alloc, line)? {
            return Ok(None);
        }
        Ok(Some(Cause::in_line(form, alloc, line)?))
    }

    /// Why the words of a call are no request, which were refused.
    pub fn of_words(alloc: Global, words: &[&str]) -> Result<Cause, NoMemory> {
        let mut line = Vec::new(alloc);
        for (before, word) in words.iter().enumerate() {
            if word.contains(' ') {
                let start = line.len();
                let number = before.saturating_add(1);
                return Cause::new(alloc, number, start, word.as_bytes(), Why::Spaced);
            }
            if before > 0 {
                line.push(b' ')?;
            }
            line.extend_from_slice(word.as_bytes())?;
        }
        Cause::in_line(Form::Request, alloc, line.as_slice())
    }

    /// Why a line of this form isn't taken that was refused.
    fn in_line(form: Form, alloc: Global, line: &[u8]) -> Result<Cause, NoMemory>
        ensures begins { IfOk result
            (λ c. 0 < c.start → Begins form (take (c.start - 1) line.now)) }
    {
        let words = text_of(line).split(' ');
        let words: Vec<&str> = words.take(MOST_WORDS).collect(alloc)?;
        let slots = slots_of(form, alloc, words.as_slice())?;
        let spot = spot_in(form, alloc, line, slots.as_slice())?;
        let word = line.get(spot.start..spot.end).unwrap_or_default();
        let why = why_at(form, line, word, &spot);
        Cause::new(alloc, spot.number, spot.start, without_return(word), why)
    }

    /// The cause at the word of this number.
    fn new(
        alloc: Global,
        number: usize,
        start: usize,
        word: &[u8],
        why: Why,
    ) -> Result<Cause, NoMemory>
        ensures number { IfOk result (λ cause. cause.number ≡ number) }
        ensures start { IfOk result (λ cause. cause.start ≡ start) }
    {
        Ok(Cause {
            number,
            start,
            shown: shown(alloc, word)?,
            why,
        })
    }
}

/// The text of a line, as far as it is UTF-8.
fn text_of(line: &[u8]) -> &str {
    match str::from_utf8(line) {
        Ok(text) => text,
        Err(error) => {
            let front = line.get(..error.valid_up_to()).unwrap_or_default();
            str::from_utf8(front).unwrap_or_default()
        }
    }
}

/// What is wrong with this word of a line.
fn why_at(form: Form, line: &[u8], word: &[u8], spot: &Spot) -> Why {
    match spot.place {
        Some(place) if spot.start > line.len() => Why::Lacks(place),
        _ if str::from_utf8(word).is_err() => Why::NoText,
        _ if without_return(word).len() < word.len() => Why::Return,
        _ if line.is_empty() && !matches!(form, Form::Request) => Why::Empty,
        _ if word.is_empty() && !matches!(form, Form::Request) => Why::Space,
        Some(place) => Why::Other(place),
        None => Why::More,
    }
}

/// The word without a carriage return at its end.
fn without_return(word: &[u8]) -> &[u8] {
    match word {
        [front @ .., b'\r'] => front,
        _ => word,
    }
}

impl fmt::Display for Cause {
    fn fmt<W: fmt::Write>(&self, f: &mut fmt::Formatter<W>) -> fmt::Result {
        let number = self.number;
        match self.why {
            Why::Empty => return write!(f, "the line is empty"),
            Why::Lacks(place) => return write!(f, "word {number} is missing: {place}"),
            _ if self.shown.is_empty() => write!(f, "word {number}: ")?,
            _ => write!(f, "word {number} '{}': ", self.shown.as_str())?,
        }
        match self.why {
            Why::Other(place) | Why::Lacks(place) => write!(f, "{place}"),
            Why::More => write!(f, "the line ends before it"),
            Why::Empty => Ok(()),
            Why::Space => write!(f, "one space stands between words, and none at the ends"),
            Why::Spaced => write!(f, "each word stands by itself, and this one has a space"),
            Why::Return => write!(f, "a carriage return stands behind it"),
            Why::NoText => write!(f, "it isn't UTF-8"),
        }
    }
}

/// A word as it is shown: its first bytes, with a `?` for each that is no sign of ASCII; nothing of one
/// that may have a secret.
fn shown(alloc: Global, word: &[u8]) -> Result<String, NoMemory>
    ensures { IfOk result (λ shown. string_len shown < 32) }
{
    let mut text = Vec::new(alloc);
    if has_digits(word) {
        return Ok(String::new(alloc));
    }
    let front = &word[..word.len().min(MOST_SHOWN)];
    for byte in front {
        text.push(if byte.is_ascii_graphic() { *byte } else { b'?' })?;
    }
    if word.len() > MOST_SHOWN {
        text.extend_from_slice(b"..")?;
    }
    match String::from_utf8(text) {
        Ok(text) => Ok(text),
        Err(_) => Ok(String::new(alloc)),
    }
}

/// Whether so many hexadecimal digits stand in a row as may be of a secret.
fn has_digits(word: &[u8]) -> bool {
    let mut count: usize = 0;
    for byte in word {
        count = if byte.is_ascii_hexdigit() {
            count.saturating_add(1)
        } else {
            0
        };
        if count >= DIGITS {
            return true;
        }
    }
    false
}
