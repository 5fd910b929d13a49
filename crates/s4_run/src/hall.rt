//! Runs of a hall, whose arrivals come from standard input.

use crate::arrivals::Arrivals;
use crate::fault::RunFault;
use crate::text;
use s4_script::SentText;
use s4_stream::Logins;
use std::alloc::Global;
use std::io::{Read, Write};

/// Runs arrivals on a fresh hall of these logins, and writes what each connection is sent, by
/// rising number. What is written of the arrivals is said by docs/SCRIPTS.md, "Arrivals".
pub fn run_hall<R: Read + Drop, W: Write>(
    alloc: Global,
    logins: Logins,
    mut reader: R,
    writer: &mut W,
) -> Result<(), RunFault> {
    let text = text::read_text(alloc, &mut reader)?;
    match sent_by(alloc, logins, &text)? {
        Some(sent) => write_sent(writer, &sent),
        None => Ok(()),
    }
}

/// What each connection is sent by the arrivals of a text, or none of an empty one.
fn sent_by(
    alloc: Global,
    logins: Logins,
    text: &[u8],
) -> Result<Option<Vec<(u32, Vec<u8>)>>, RunFault> {
    let Some(arrivals) = Arrivals::read(alloc, text)? else {
        return Ok(None);
    };
    Ok(Some(arrivals.run(alloc, logins)?))
}

/// Writes a line for each connection.
fn write_sent<W: Write>(writer: &mut W, sent: &[(u32, Vec<u8>)]) -> Result<(), RunFault> {
    for (conn, bytes) in sent {
        writeln!(writer, "{}", SentText(*conn, bytes)).map_err(RunFault::writing)?;
    }
    writer.flush().map_err(RunFault::writing)
}
