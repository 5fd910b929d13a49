//! Texts of files and of standard input.

use std::io::{ErrorKind, Read};
use std::{fs, io};

/// The text of that name and kind, which stands as a file where the program runs.
pub fn text(rt: &HostRuntime, name: &str, kind: &str) -> io::Result<Vec<u8>> {
    fs::read(rt, format!(in rt.alloc(); "{name}.{kind}")?.as_str())
}

/// All bytes of standard input.
pub fn input(rt: &HostRuntime) -> io::Result<Vec<u8>> {
    let mut bytes = Vec::new(rt.alloc());
    rt.reader().read_to_end(&mut bytes)?;
    Ok(bytes)
}

/// The text that these bytes are.
pub fn utf8(bytes: &[u8]) -> io::Result<&str> {
    well(std::str::from_utf8(bytes))
}

/// What there is, where there is no fault.
pub fn well<T, E: Drop>(found: Result<T, E>) -> io::Result<T> {
    match found {
        Ok(found) => Ok(found),
        Err(_) => Err(invalid()),
    }
}

/// That a text isn't written as it has to be.
pub fn invalid() -> io::Error {
    io::Error::from(ErrorKind::InvalidData)
}
