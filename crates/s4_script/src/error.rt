//! What is told of a line that isn't taken.

ghost use Rattle.std.specs.Prelude.{◌≡◌, Some};
ghost use Rattle.s4_script.specs.Texts.{parse_error_text};
ghost use Rattle.s4_script.specs.declared.error.ParseError.TheVariants as parse_error;

use std::alloc::AllocError;
use std::fmt;
use thiserror::Error;

/// Why a line or a word of it isn't taken.
#[derive(Clone, Copy, Debug, Error)]
pub enum ParseError {
    /// It spells nothing.
    Bad,
    /// There wasn't enough memory to read it.
    NoMemory,
}

impl fmt::Display for ParseError {
    ghost output = { λ error. Some (parse_error_text error) };

    fn fmt<W: fmt::Write>(&self, f: &mut fmt::Formatter<W>) -> fmt::Result {
        match self {
            ParseError::Bad => write!(f, "bad line"),
            ParseError::NoMemory => write!(f, "no memory"),
        }
    }
}

impl From<AllocError> for ParseError {
    ghost from_gives = { λ _ why. why ≡ parse_error.NoMemory };

    fn from(_: AllocError) -> ParseError {
        ParseError::NoMemory
    }
}
