//! What words mean that may name a file.

ghost use Rattle.std.specs.Prelude.{◌≡◌, false, IfOk, string_bytes};
ghost use Rattle.s4_stream.specs.LoginText.{secret_in};
ghost use Rattle.s4_command_line.specs.Words.{names_file};

use s4_causes::cause_of_unread;
use s4_command::WordsFault;
use s4_script::{TextFault, read_file};
use s4_stream::secret_in;
use std::rt::Files;
use std::str;

/// The most bytes of a file that a word names: the digits of a frame's data, and blanks around them.
const FILE_LIMIT: u32 = 262144;

/// What a word means. Where it is `@` and a path that is what the file there has, without blanks
/// and line ends around it; else the word itself.
pub fn meant<R: Files + AllocGlobal>(rt: &R, word: &str) -> Result<String, WordsFault>
    ensures typed { names_file word.now ≡ false
        → IfOk result (λ text. string_bytes text ≡ word.now) }
{
    match word.as_bytes() {
        [b'@', path @ ..] => text_at(rt, str::from_utf8(path).unwrap_or_default()),
        _ => Ok(String::from_str(rt.alloc(), word)?),
    }
}

/// The secret that is meant by a word, where it is one.
pub fn secret_of<R: Files + AllocGlobal>(rt: &R, word: &str) -> Result<Option<[u8; 16]>, WordsFault>
    ensures typed { names_file word.now ≡ false
        → IfOk result (λ secret. secret ≡ secret_in word.now) }
{
    let text = meant(rt, word)?;
    Ok(secret_in(text.as_bytes()))
}

/// What all of the words mean.
pub fn all_meant<R: Files + AllocGlobal>(
    rt: &R,
    words: &[&str],
) -> Result<Vec<String>, WordsFault> {
    let mut texts = Vec::new(rt.alloc());
    for word in words {
        texts.push(meant(rt, word)?)?;
    }
    Ok(texts)
}

/// What the file with this path has, or the fault that names it.
fn text_at<R: Files + AllocGlobal>(rt: &R, path: &str) -> Result<String, WordsFault> {
    match text_of(rt, path) {
        Ok(text) => Ok(text),
        Err(TextFault::CannotRead) => {
            let cause = cause_of_unread(rt, path, FILE_LIMIT)?;
            let told = format!(in rt.alloc(); "{path}: {cause}")?;
            Err(WordsFault::CannotReadFile(told))
        }
        Err(TextFault::NoMemory) => Err(WordsFault::NoMemory),
    }
}

/// The text of the file with this path, without blanks and line ends around it.
fn text_of<R: Files + AllocGlobal>(rt: &R, path: &str) -> Result<String, TextFault> {
    let bytes = read_file(rt, path, FILE_LIMIT)?;
    let text = str::from_utf8(&bytes).map_err(|_| TextFault::CannotRead)?;
    Ok(String::from_str(rt.alloc(), text.trim())?)
}
