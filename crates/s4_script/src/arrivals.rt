//! The lines of arrivals.

ghost use Rattle.s4_script.specs.Readings.{arrival_in, arrival_in_text, arrived_in, swept_in, texts, Gives};

use crate::error::ParseError;
use crate::words;
use s4_types::{Bytes, Moment};
use std::alloc::Global;

/// A line of arrivals after the first.
#[derive(Debug, Drop)]
pub enum ArrivalLine {
    /// Bytes come on a connection at a moment.
    Arrive {
        moment: Moment,
        conn: u32,
        piece: Bytes,
    },
    /// At most `n` values and bindings are freed that are expired and still held.
    Sweep {
        n: u64,
    },
}

/// What a line of arrivals after the first tells (docs/SCRIPTS.md, "Arrivals").
///
/// `Bad` where it tells nothing: it is no text, or its words spell nothing; `NoMemory` where its
/// words or its bytes don't fit in memory.
pub fn parse_arrival(alloc: Global, line: &[u8]) -> Result<ArrivalLine, ParseError>
    ensures { Gives result (arrival_in_text line.now) }
{
    of_words(alloc, words::of_line(alloc, line)?.as_slice())
}

fn of_words(alloc: Global, words: &[&str]) -> Result<ArrivalLine, ParseError>
    ensures { Gives result (arrival_in (texts words.now)) }
{
    match words {
        [word, most] => sweep(word, most),
        [moment, conn, piece] => arrive(alloc, moment, conn, piece),
        _ => Err(ParseError::Bad),
    }
}

fn sweep(word: &str, most: &str) -> Result<ArrivalLine, ParseError>
    ensures { Gives result (swept_in word.now most.now) }
{
    match word {
        "sweep" => Ok(ArrivalLine::Sweep {
            n: words::number_u64(most)?,
        }),
        _ => Err(ParseError::Bad),
    }
}

fn arrive(alloc: Global, moment: &str, conn: &str, piece: &str) -> Result<ArrivalLine, ParseError>
    ensures { Gives result (arrived_in moment.now conn.now piece.now) }
{
    Ok(ArrivalLine::Arrive {
        moment: words::moment(moment)?,
        conn: words::number_u32(conn)?,
        piece: words::bytes(alloc, piece)?,
    })
}
