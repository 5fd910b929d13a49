//! Why the file of a server's logins isn't taken.

use crate::logins::cause_in_logins;
use crate::system::{cause_of_unread, system_word};
use s4_logins::LoginsFault;
use s4_script::read_file;
use s4_types::NoMemory;
use std::fs;
use std::os::unix::fs::MetadataExt;
use std::rt::Files;

/// The most bytes of a text of logins.
const TEXT_LIMIT: u32 = 268435456;

/// What a mode has of who may do what.
const MODES: u32 = 0o7777;

/// The path of a file of logins, and behind it why it had this fault, as far as the file still tells. Nothing
/// of its lines is told.
pub fn reason_of_logins<R: Files + AllocGlobal>(
    files: &R,
    path: &str,
    fault: &LoginsFault,
) -> Result<String, NoMemory> {
    let alloc = files.alloc();
    let cause = match fault {
        LoginsFault::Line(number) => cause_of_line(files, path, *number)?,
        LoginsFault::CannotRead => cause_of_unread(files, path, TEXT_LIMIT)?,
        LoginsFault::Unguarded => cause_of_mode(files, path)?,
        LoginsFault::NoMemory => String::new(alloc),
    };
    if cause.is_empty() {
        return String::from_str(alloc, path);
    }
    format!(in alloc; "{path}: {cause}")
}

/// Why the line of that number isn't taken; nothing where it is by now.
fn cause_of_line<R: Files + AllocGlobal>(
    files: &R,
    path: &str,
    number: usize,
) -> Result<String, NoMemory> {
    let alloc = files.alloc();
    // A pipe isn't opened, since nobody may ever write into it.
    if !fs::metadata(files, path).is_ok_and(|metadata| metadata.is_file()) {
        return Ok(String::new(alloc));
    }
    let Ok(text) = read_file(files, path, TEXT_LIMIT) else {
        return Ok(String::new(alloc));
    };
    match cause_in_logins(alloc, &text)? {
        Some((told, cause)) if told == number => cause.to_string(alloc),
        _ => Ok(String::new(alloc)),
    }
}

/// What the mode of a file is.
fn cause_of_mode<R: Files + AllocGlobal>(files: &R, path: &str) -> Result<String, NoMemory> {
    match fs::metadata(files, path) {
        Ok(metadata) => format!(in files.alloc(); "its mode is {:o}", metadata.mode() & MODES),
        Err(error) => system_word(files.alloc(), &error),
    }
}
