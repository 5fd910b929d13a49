//! The words that ask for causes.

ghost use Rattle.std.specs.Prelude.{◌≡◌, IfOk, None, Some, codes, map, string_bytes};
ghost use Rattle.clap.specs.Matches.{found_of, one_text};
ghost use Rattle.s4_command_line.specs.Words.{kind_word};

use crate::parser::{AS, FILE, WHY};
use clap::ArgMatches;
use s4_command::{Command, Explained, FileCheck, TextKind, WordsFault};
use std::alloc::{AllocError, Global};

/// Whether the cause of a fault is to be told.
pub fn explained(words: &ArgMatches) -> Explained
    ensures yes { one_text (found_of words.now) (codes "why") ≡ Some (codes "true")
        → result ≡ Explained.Yes }
    ensures no { one_text (found_of words.now) (codes "why") ≡ None → result ≡ Explained.No }
{
    if words.get_flag(WHY) {
        Explained::Yes
    } else {
        Explained::No
    }
}

/// The check of the files that the words name.
pub fn file_check(alloc: Global, words: &ArgMatches) -> Result<Command, WordsFault> {
    let kind = match words.get_str(AS) {
        Some(word) => Some(kind_in(alloc, word)?),
        None => None,
    };
    let paths = paths_in(alloc, words.get_strs(FILE).unwrap_or_default())?;
    Ok(Command::CheckFiles(FileCheck { paths, kind }))
}

/// The paths that these words are.
fn paths_in(alloc: Global, words: &[&str]) -> Result<Vec<String>, AllocError>
    ensures { IfOk result
        (λ paths. map (λ path. string_bytes path) paths.items ≡ map (λ word. word.now) words.now) }
{
    let mut paths = Vec::new(alloc);
    for word in words {
        paths.push(String::from_str(alloc, word)?)?;
    }
    Ok(paths)
}

/// The kind of text that a word names.
fn kind_in(alloc: Global, word: &str) -> Result<TextKind, WordsFault>
    ensures { IfOk result (λ kind. word.now ≡ kind_word kind) }
{
    match word {
        "script" => Ok(TextKind::Script),
        "arrivals" => Ok(TextKind::Arrivals),
        "logins" => Ok(TextKind::Logins),
        "setup" => Ok(TextKind::Setup),
        _ => {
            let text = format!(in alloc;
                "error: invalid value '{word}' for '--{AS} <KIND>': it isn't script, arrivals, logins or setup\n\n\
                 For more information, try '--help'."
            )?;
            Err(WordsFault::Wrong(text))
        }
    }
}
