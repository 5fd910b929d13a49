//! The words of a history.

use crate::parser::{CSV, FOLDER, FOLLOW, FROM, JSON, SUM, SUMS, TELLING, TO};
use crate::selecting::{records, starts, time, unwanted};
use crate::times::time_in;
use clap::ArgMatches;
use s4_command::{Command, Form, History, Starts, Telling, WordsFault};
use s4_script::parse_number;
use std::alloc::Global;

/// The history that the words spell.
pub fn history(alloc: Global, words: &ArgMatches) -> Result<Command, WordsFault> {
    let telling = telling(alloc, words)?;
    let starts = starts(alloc, words)?;
    if telling == Telling::Script && starts == Some(Starts::All) {
        return Err(WordsFault::wrong(
            alloc,
            "error: a script is of one start, and '--start all' names all\n\n\
             For more information, try '--help'.",
        ));
    }
    let follows = follows(alloc, words, starts)?;
    let (from, to) = (time(alloc, words, FROM)?, time(alloc, words, TO)?);
    if is_behind(words) {
        return Err(WordsFault::wrong(
            alloc,
            "error: '--from <TIME>' is greater than '--to <TIME>'\n\n\
             For more information, try '--help'.",
        ));
    }
    Ok(Command::History(History {
        telling,
        folder: String::from_str(alloc, words.get_str(FOLDER).unwrap_or_default())?,
        starts,
        from,
        to,
        records: records(alloc, words)?,
        follows,
        sums: sums(alloc, words)?,
    }))
}

/// Whether the list goes on while its start does, which has to be one, and without a last time.
fn follows(alloc: Global, words: &ArgMatches, starts: Option<Starts>) -> Result<bool, WordsFault> {
    let follows = words.get_flag(FOLLOW);
    if follows && (words.get_str(TO).is_some() || starts == Some(Starts::All)) {
        return Err(WordsFault::wrong(
            alloc,
            "error: the argument '--follow' cannot be used with '--to' or '--start all'\n\n\
             For more information, try '--help'.",
        ));
    }
    Ok(follows)
}

/// The paths of files of sums.
fn sums(alloc: Global, words: &ArgMatches) -> Result<Vec<String>, WordsFault> {
    let mut paths = Vec::new(alloc);
    for path in words.get_strs(SUMS).unwrap_or_default() {
        if path.is_empty() {
            return Err(WordsFault::wrong(
                alloc,
                "error: invalid value for '--sums <FILE>': it is no path\n\n\
                 For more information, try '--help'.",
            ));
        }
        paths.push(String::from_str(alloc, path)?)?;
    }
    Ok(paths)
}

/// Whether the first time lies behind the last one, as far as that can be told without a journal.
fn is_behind(words: &ArgMatches) -> bool {
    let (Some(from), Some(to)) = (words.get_str(FROM), words.get_str(TO)) else {
        return false;
    };
    if let (Ok(from), Ok(to)) = (parse_number::<u64>(from), parse_number::<u64>(to)) {
        return from > to;
    }
    match (time_in(from), time_in(to)) {
        (Some(from), Some(to)) => from > to,
        _ => false,
    }
}

/// What is told.
fn telling(alloc: Global, words: &ArgMatches) -> Result<Telling, WordsFault> {
    let sum = match words.get_str(SUM) {
        Some(word) => Some(sum_in(alloc, word)?),
        None => None,
    };
    let word = words.get_str(TELLING).unwrap_or_default();
    if word != "check" {
        want_no_sums(alloc, words)?;
    }
    let telling = match word {
        "list" => return Ok(Telling::List(form(alloc, words)?)),
        "script" => Telling::Script,
        "check" => Telling::Check(sum),
        word => {
            let text = format!(in alloc;
                "error: invalid value '{word}' for '<TELLING>': it isn't list, script or check\n\n\
                 For more information, try '--help'."
            )?;
            return Err(WordsFault::Wrong(text));
        }
    };
    match unwanted(words, telling) {
        None => Ok(telling),
        Some((flag, wanted)) => {
            let text = format!(in alloc;
                "error: the argument '--{flag}' cannot be used but with {wanted}\n\n\
                 For more information, try '--help'."
            )?;
            Err(WordsFault::Wrong(text))
        }
    }
}

/// That no flag is given that is for a check.
fn want_no_sums(alloc: Global, words: &ArgMatches) -> Result<(), WordsFault> {
    for flag in [SUM, SUMS] {
        if words.get_strs(flag).is_some() {
            let text = format!(in alloc;
                "error: the argument '--{flag}' cannot be used but with 'check'\n\n\
                 For more information, try '--help'."
            )?;
            return Err(WordsFault::Wrong(text));
        }
    }
    Ok(())
}

/// What a list is made of.
fn form(alloc: Global, words: &ArgMatches) -> Result<Form, WordsFault> {
    match (words.get_flag(JSON), words.get_flag(CSV)) {
        (false, false) => Ok(Form::Lines),
        (true, false) => Ok(Form::Json),
        (false, true) => Ok(Form::Csv),
        (true, true) => Err(WordsFault::wrong(
            alloc,
            "error: the argument '--csv' cannot be used with '--json'\n\n\
             For more information, try '--help'.",
        )),
    }
}

/// The sum that a word spells.
fn sum_in(alloc: Global, word: &str) -> Result<[u8; 32], WordsFault> {
    let mut sum = [0; 32];
    match hex::decode_to_slice(word, &mut sum) {
        Ok(()) => Ok(sum),
        Err(_) => {
            let text = format!(in alloc;
                "error: invalid value for '--{SUM} <HEX>': it isn't 64 hexadecimal digits\n\n\
                 For more information, try '--help'."
            )?;
            Err(WordsFault::Wrong(text))
        }
    }
}
