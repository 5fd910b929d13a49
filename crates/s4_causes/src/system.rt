//! Why the system refuses something, and why a file gives no text.

ghost use Rattle.std.specs.Prelude.{◌≡◌, ◌++◌, ℕ, List};

use s4_script::read_file;
use s4_types::NoMemory;
use std::alloc::{AllocError, Global};
use std::io::Read;
use std::rt::Files;
use std::{fs, io, str};

/// What stands before the number of an error of the system, behind its word.
const NUMBER: &str = " (os error ";

/// The system's word for why it refused something, as `Connection refused`.
pub fn system_word(alloc: Global, error: &io::Error) -> Result<String, NoMemory> {
    let text = error.to_string(alloc)?;
    String::from_str(alloc, without_number(text.as_str()))
}

/// The text of an error without the number that the system's have at their end.
pub fn without_number(text: &str) -> &str
    // It is a beginning of that text.
    ensures { (rest : List ℕ) × (text.now ≡ result.now ++ rest) }
{
    match text.split_once(NUMBER) {
        Some((word, _)) => word,
        None => text,
    }
}

/// Why the file with this path gives no text of at most so many bytes. A pipe isn't opened, since nobody may
/// ever write into it.
pub fn cause_of_unread<R: Files + AllocGlobal>(
    files: &R,
    path: &str,
    limit: u32,
) -> Result<String, NoMemory> {
    let alloc = files.alloc();
    match fs::metadata(files, path) {
        Err(error) => system_word(alloc, &error),
        Ok(metadata) if metadata.is_file() || metadata.is_dir() => cause_in(files, path, limit),
        Ok(_) => String::from_str(alloc, "it is no regular file, and gave no text"),
    }
}

/// The same of a regular file, or of a folder.
fn cause_in<R: Files + AllocGlobal>(files: &R, path: &str, limit: u32) -> Result<String, NoMemory> {
    let alloc = files.alloc();
    let mut file = match fs::open(files, path) {
        Ok(file) => file,
        Err(error) => return system_word(alloc, &error),
    };
    if let Err(error) = file.read(&mut [0; 1]) {
        return system_word(alloc, &error);
    }
    match read_file(files, path, limit) {
        Ok(text) if str::from_utf8(&text).is_ok() => {
            String::from_str(alloc, "it could be had by now")
        }
        Ok(_) => String::from_str(alloc, "it isn't UTF-8"),
        Err(_) => format!(in alloc; "it is longer than {limit} bytes"),
    }
}
