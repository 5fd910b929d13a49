//! Where a server takes its peers' addresses from, and where it tells of itself.

use crate::command_line::path;
use crate::parser::{PROXY, STATUS, STATUS_TEXT};
use clap::ArgMatches;
use s4_command::WordsFault;
use std::alloc::Global;
use std::net::IpAddr;

/// The address from which a proxy passes connections on, where one is given.
pub fn proxy(alloc: Global, words: &ArgMatches) -> Result<Option<IpAddr>, WordsFault> {
    let Some(word) = words.get_str(PROXY) else {
        return Ok(None);
    };
    match IpAddr::parse_ascii(word.as_bytes()) {
        Ok(address) => Ok(Some(address.to_canonical())),
        Err(_) => {
            let text = format!(in alloc;
                "error: invalid value for '--{PROXY} <ADDRESS>': it is no IP address\n\n\
                 For more information, try '--help'."
            )?;
            Err(WordsFault::Wrong(text))
        }
    }
}

/// The path of the file in which a server tells of itself as text. It isn't that in which it does as JSON.
pub fn status_text(alloc: Global, words: &ArgMatches) -> Result<Option<String>, WordsFault> {
    let text = path(alloc, words, STATUS_TEXT, "FILE")?;
    if text.is_some() && words.get_str(STATUS_TEXT) == words.get_str(STATUS) {
        return Err(WordsFault::wrong(
            alloc,
            "error: '--status' and '--status-text' name one file\n\n\
             For more information, try '--help'.",
        ));
    }
    Ok(text)
}
