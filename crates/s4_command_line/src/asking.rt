//! The words of calls whose requests stand in lines.

ghost use Rattle.std.specs.Prelude.{◌≡◌, ◌≤◌, ◌<◌, IfOk};
ghost use Rattle.clap.specs.Matches.{found_of};
ghost use Rattle.s4_command_line.specs.Asking.{IsAskingOf, IsCompanyOf};
ghost use Rattle.s4_command_line.specs.Words.{IsHelloOf};

use crate::command_line::{client_in, hello, misfit, time, version, word};
use crate::parser::{ADDRESS, CLIENT, DEPTH, SECRET, SECRETS, WAIT, WHO, WORD};
use clap::ArgMatches;
use s4_command::{Asker, Askers, Asking, Command, Company, WordsFault};
use s4_script::parse_number;
use std::alloc::Global;
use std::rt::Files;

/// The word that stands for lines.
const LINES: &str = "-";

/// How many requests may be ahead of their replies where that isn't said, and at most.
const DEPTHS: (u32, u32) = (1, 1024);

/// Whether the words of a call say that its requests stand in lines.
pub fn is_asking(words: &ArgMatches) -> bool {
    words.get_str(SECRETS).is_some() || words.get_str(DEPTH).is_some() || has_lines(words)
}

/// Whether a dash stands in the place of a request.
fn has_lines(words: &ArgMatches) -> bool {
    matches!(words.get_strs(WORD).unwrap_or_default(), [only] if *only == LINES)
}

/// The asking that the words of a call spell.
pub fn asking<R: Files + AllocGlobal>(rt: &R, words: &ArgMatches) -> Result<Command, WordsFault>
    ensures { IfOk result (IsAskingOf (found_of words.now)) }
{
    let alloc = rt.alloc();
    let wait = time(alloc, words, WAIT)?;
    let askers = match words.get_str(SECRETS) {
        Some(path) => Askers::Each(company(alloc, words, path)?),
        None => Askers::One(asker(rt, words)?),
    };
    let address = String::from_str(alloc, word(words, ADDRESS))?;
    Ok(Command::Ask(Asking {
        address,
        wait,
        askers,
    }))
}

/// The caller of all lines.
fn asker<R: Files + AllocGlobal>(rt: &R, words: &ArgMatches) -> Result<Asker, WordsFault>
    ensures hello { IfOk result (λ asker. IsHelloOf (found_of words.now) asker.hello) }
    ensures depth { IfOk result (λ asker. 0 < asker.depth) }
{
    let alloc = rt.alloc();
    if !has_lines(words) {
        return Err(WordsFault::wrong(
            alloc,
            "error: the argument '--depth' cannot be used but with '-' in place of a request\n\n\
             For more information, try '--help'.",
        ));
    }
    let depth = depth(alloc, words)?;
    let hello = hello(rt, words)?;
    Ok(Asker { hello, depth })
}

/// How many requests may be ahead of their replies.
fn depth(alloc: Global, words: &ArgMatches) -> Result<u32, WordsFault>
    ensures some { IfOk result (λ depth. 0 < depth) }
    ensures few { IfOk result (λ depth. depth ≤ 1024) }
{
    let (standard, most) = DEPTHS;
    match words.get_str(DEPTH).map(|word| parse_number::<u32>(word)) {
        None => Ok(standard),
        Some(Ok(depth)) if 1 <= depth && depth <= most => Ok(depth),
        Some(_) => {
            let text = format!(in alloc;
                "error: invalid value for '--{DEPTH} <N>': it isn't a number from 1 to {most}\n\n\
                 For more information, try '--help'."
            )?;
            Err(WordsFault::Wrong(text))
        }
    }
}

/// The callers of lines that name one each: behind the address the words are the client and a dash.
fn company(alloc: Global, words: &ArgMatches, path: &str) -> Result<Company, WordsFault>
    ensures { IfOk result (IsCompanyOf (found_of words.now) path.now) }
{
    if words.get_str(DEPTH).is_some() {
        return Err(WordsFault::wrong(
            alloc,
            "error: the argument '--depth' cannot be used with '--logins'\n\n\
             For more information, try '--help'.",
        ));
    }
    if words.get_str(SECRET).is_some() || word(words, CLIENT) != LINES {
        return Err(WordsFault::wrong(
            alloc,
            "error: with '--logins' the words behind <ADDRESS> are <CLIENT> and '-'\n\n\
             For more information, try '--help'.",
        ));
    }
    let Some(client) = client_in(word(words, WHO)) else {
        return Err(misfit(alloc, CLIENT, "a number from 0 to 4294967295"));
    };
    let version = version(alloc, words)?;
    let logins = String::from_str(alloc, path)?;
    Ok(Company {
        client,
        version,
        logins,
    })
}
