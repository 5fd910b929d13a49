//! What is told of a file that can't be written.

use s4_causes::system_word;
use std::alloc::Global;
use std::io;

/// Says on standard error that the file with this path can't be written, and why: by the system's error, or,
/// where there is none, for want of memory.
pub fn tell_unwritten<R: Eprint>(rt: &R, alloc: Global, path: &str, error: Option<io::Error>) {
    // Where this can't be written, nobody is told.
    let _ = match error.map(|error| system_word(alloc, &error)) {
        Some(Ok(word)) => eprintln!(rt; "s4d: cannot write {path}: {}", word.as_str()),
        _ => eprintln!(rt; "s4d: cannot write {path}: no memory"),
    };
}
