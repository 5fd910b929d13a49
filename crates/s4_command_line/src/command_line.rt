//! The command that a command line spells, or the fault of one that spells none.

ghost use Rattle.std.specs.Prelude.{◌≡◌, ◌≢◌, ◌≤◌, ◌⊎◌, IfOk, IfSome, Some, Err, codes};
ghost use Rattle.clap.specs.Matches.{found_of};
ghost use Rattle.std.specs.IoError.{error_kind};
ghost use Rattle.std.specs.declared.io.ErrorKind.TheVariants as io_kind;
ghost use Rattle.clap.specs.Values.{kind_of};
ghost use Rattle.s4_stream.specs.LoginText.{principal_in};
ghost use Rattle.s4_command.specs.Faults.{IsFaultOf};
ghost use Rattle.s4_command.specs.declared.fault.WordsFault.TheVariants as fault;
ghost use Rattle.s4_command_line.specs.Durations.{duration_in};
ghost use Rattle.s4_command_line.specs.Words.{IsCallOf, IsForTenant, IsHelloOf, client_in, version_word, word_of};

use crate::asking::{asking, is_asking};
use crate::causes::{explained, file_check};
use crate::duration::duration_in;
use crate::history::history;
use crate::meaning::{all_meant, secret_of};
use crate::parser::{
    ADDRESS, CELLS, CHECK, CLIENT, CONNECTIONS, CUT, FIRST, HELLO, IDLE, JOURNAL, LOG_TIMES,
    LOGINS, OPEN, OPEN_EACH, RECORDS, RELOAD, SECRET, SETUP, STATUS, SUMS, SYNC, UNTIL, WAIT, WHO,
    WINDOW, WIRE, WORD, WORKERS, parser,
};
use crate::telling::{proxy, status_text};
use clap::error::ErrorKind;
use clap::{ArgMatches, Error};
use s4_causes::Cause;
use s4_command::{Call, Command, Journal, Service, WordsFault};
use s4_script::{ParseError, parse_number, parse_principal, parse_request};
use s4_settings::{Patience, Settings};
use s4_stream::{Hello, principal_in};
use s4_types::{Caller, Principal, Request, WireVersion};
use std::alloc::Global;
use std::rt::{Env, Files};
use std::{env, io};

/// The greatest moment at the start of a server. Those behind it last more than 292 million years.
const LAST_FIRST: u64 = 9223372036854775807;

/// The word that stands for the time at the start.
const NOW: &str = "now";

/// The command that the program's arguments spell. Files that these name are read.
pub fn given<E: Env + AllocGlobal, R: Files + AllocGlobal>(
    env: &E,
    rt: &R,
) -> Result<Command, WordsFault> {
    let alloc = rt.alloc();
    let words: Vec<String> = match env::args(env) {
        Ok(arguments) => arguments.collect(alloc)?,
        Err(error) => return Err(unread(alloc, &error)),
    };
    parse(rt, &words)
}

/// The command that the words spell, of which the first is the program's name.
pub fn parse<R: Files + AllocGlobal>(rt: &R, words: &[String]) -> Result<Command, WordsFault> {
    match parser(rt.alloc())?.try_get_matches_from(words) {
        Ok(matches) => chosen(rt, &matches),
        Err(error) => told(rt.alloc(), &error),
    }
}

fn chosen<R: Files + AllocGlobal>(rt: &R, matches: &ArgMatches) -> Result<Command, WordsFault> {
    let alloc = rt.alloc();
    match matches.subcommand() {
        Some(("run", words)) => Ok(Command::Run(explained(words))),
        Some(("hall", words)) => hall(alloc, words),
        Some(("strike", words)) => strike(alloc, words),
        Some(("check", words)) => file_check(alloc, words),
        Some(("serve", words)) => serve(alloc, words),
        Some(("call", words)) if is_asking(words) => asking(rt, words),
        Some(("call", words)) => call(rt, words),
        Some(("history", words)) => history(alloc, words),
        _ => Err(WordsFault::wrong(alloc, "error: a command is wanted, as run")),
    }
}

fn hall(alloc: Global, words: &ArgMatches) -> Result<Command, WordsFault> {
    match words.get_str(LOGINS) {
        Some(path) => Ok(Command::Hall(String::from_str(alloc, path)?, explained(words))),
        None => Err(WordsFault::wrong(alloc, "error: a file of logins is wanted")),
    }
}

/// A script is to be struck for the principal of that number, which isn't the administrator.
fn strike(alloc: Global, words: &ArgMatches) -> Result<Command, WordsFault>
    ensures { IfOk result (λ command. IsForTenant command) }
{
    let word = word(words, WHO);
    match parse_principal(word) {
        Ok(who) if !who.is_administrator() => Ok(Command::Strike(who, explained(words))),
        _ => {
            let text = format!(in alloc;
                "error: invalid value '{word}' for '<WHO>': it isn't a number from 1 to 4294967294\n\n\
                 For more information, try '--help'."
            )?;
            Err(WordsFault::Wrong(text))
        }
    }
}

fn serve(alloc: Global, words: &ArgMatches) -> Result<Command, WordsFault> {
    let settings = Settings {
        window: time(alloc, words, WINDOW)?,
        cells: number(alloc, words, CELLS, 1, 16)? as usize,
        workers: number(alloc, words, WORKERS, 1, 8)?,
        connections: number(alloc, words, CONNECTIONS, 0, u64::from(u32::MAX))? as u32,
        patience: Patience {
            idle: time(alloc, words, IDLE)?,
            hello: time(alloc, words, HELLO)?,
        },
        open: number(alloc, words, OPEN, 1, u64::from(u32::MAX))? as u32,
        open_each: number(alloc, words, OPEN_EACH, 0, u64::from(u32::MAX))? as u32,
        proxy: proxy(alloc, words)?,
        first: first(alloc, words)?.unwrap_or_default(),
        cuts: words.get_flag(CUT),
        records: records(alloc, words)?,
    };
    let address = String::from_str(alloc, word(words, ADDRESS))?;
    let logins = String::from_str(alloc, word(words, LOGINS))?;
    let until = path(alloc, words, UNTIL, "FILE")?;
    let setup = path(alloc, words, SETUP, "FILE")?;
    let status = path(alloc, words, STATUS, "FILE")?;
    let status_text = status_text(alloc, words)?;
    let journal = journal(alloc, words)?;
    let reload = time(alloc, words, RELOAD)?;
    let service = Service {
        address,
        logins,
        until,
        reload,
        setup,
        status,
        status_text,
        logs_times: words.get_flag(LOG_TIMES),
        begins_now: word(words, FIRST) == NOW,
        journal,
        settings,
    };
    if words.get_flag(CHECK) {
        return Ok(Command::Check(service));
    }
    Ok(Command::Serve(service))
}

/// The moment at the start, where it is a number; none where it is the time then.
fn first(alloc: Global, words: &ArgMatches) -> Result<Option<u64>, WordsFault>
    ensures few { IfOk result (λ first. IfSome first (λ moment. moment ≤ 9223372036854775807)) }
{
    match parse_number(word(words, FIRST)) {
        Ok(moment) if moment <= LAST_FIRST => Ok(Some(moment)),
        _ if word(words, FIRST) == NOW => Ok(None),
        _ => {
            let text = format!(in alloc;
                "error: invalid value for '--{FIRST} <N>': it isn't {NOW}, or a number from 0 to {LAST_FIRST}\n\n\
                 For more information, try '--help'."
            )?;
            Err(WordsFault::Wrong(text))
        }
    }
}

/// How many bytes of records the requests of a principal may leave, where that is given.
fn records(alloc: Global, words: &ArgMatches) -> Result<Option<u64>, WordsFault>
    ensures some { IfOk result (λ records. IfSome records (λ most. 1 ≤ most)) }
{
    match words.get_str(RECORDS) {
        Some(_) => Ok(Some(number(alloc, words, RECORDS, 1, u64::MAX)?)),
        None => Ok(None),
    }
}

/// Where a server keeps its history.
fn journal(alloc: Global, words: &ArgMatches) -> Result<Option<Journal>, WordsFault> {
    let syncs = syncs(alloc, words)?;
    let sums = path(alloc, words, SUMS, "FILE")?;
    match path(alloc, words, JOURNAL, "FOLDER")? {
        Some(folder) => Ok(Some(Journal {
            folder,
            syncs,
            sums,
        })),
        None if sums.is_some() => Err(alone(alloc, SUMS, "no '--journal'")),
        None if words.get_str(SYNC).is_some() => Err(alone(alloc, SYNC, "no '--journal'")),
        None => Ok(None),
    }
}

/// The fault of a flag that is given where it means nothing.
fn alone(alloc: Global, flag: &str, why: &str) -> WordsFault {
    let text = format!(in alloc;
        "error: '--{flag}' is given, and {why}\n\nFor more information, try '--help'."
    );
    text.map_or_else(WordsFault::from, WordsFault::Wrong)
}

/// Whether the journal is synced each second, as it is where that isn't said.
fn syncs(alloc: Global, words: &ArgMatches) -> Result<bool, WordsFault> {
    match words.get_str(SYNC) {
        None | Some("second") => Ok(true),
        Some("never") => Ok(false),
        Some(word) => {
            let text = format!(in alloc;
                "error: invalid value '{word}' for '--{SYNC} <WHEN>': it isn't second or never\n\n\
                 For more information, try '--help'."
            )?;
            Err(WordsFault::Wrong(text))
        }
    }
}

/// The path of a file or a folder behind a flag, where that is given.
pub fn path(
    alloc: Global,
    words: &ArgMatches,
    flag: &str,
    named: &str,
) -> Result<Option<String>, WordsFault> {
    match words.get_str(flag) {
        Some("") => {
            let text = format!(in alloc;
                "error: invalid value for '--{flag} <{named}>': it is no path\n\n\
                 For more information, try '--help'."
            )?;
            Err(WordsFault::Wrong(text))
        }
        Some(path) => Ok(Some(String::from_str(alloc, path)?)),
        None => Ok(None),
    }
}

/// The milliseconds behind a flag, which may have a unit.
pub fn time(alloc: Global, words: &ArgMatches, flag: &str) -> Result<u64, WordsFault>
    ensures { IfOk result
        (λ time. duration_in (word_of (found_of words.now) flag.now) ≡ Some time) }
{
    match duration_in(word(words, flag).as_bytes()) {
        Some(time) => Ok(time),
        None => {
            let text = format!(in alloc;
                "error: invalid value for '--{flag} <TIME>': it isn't a number of milliseconds up to {}, or one with \
                 ms, s, m, h or d behind it\n\nFor more information, try '--help'.",
                u64::MAX
            )?;
            Err(WordsFault::Wrong(text))
        }
    }
}

/// The number behind a flag, which has to be within these bounds.
fn number(
    alloc: Global,
    words: &ArgMatches,
    flag: &str,
    least: u64,
    most: u64,
) -> Result<u64, WordsFault>
    ensures least { IfOk result (λ number. least ≤ number) }
    ensures most { IfOk result (λ number. number ≤ most) }
{
    match parse_number(word(words, flag)) {
        Ok(number) if least <= number && number <= most => Ok(number),
        _ => {
            let text = format!(in alloc;
                "error: invalid value for '--{flag} <N>': it isn't a number from {least} to {most}\n\n\
                 For more information, try '--help'."
            )?;
            Err(WordsFault::Wrong(text))
        }
    }
}

fn call<R: Files + AllocGlobal>(rt: &R, words: &ArgMatches) -> Result<Command, WordsFault>
    ensures { IfOk result (IsCallOf (found_of words.now)) }
{
    let alloc = rt.alloc();
    let wait = time(alloc, words, WAIT)?;
    let hello = hello(rt, words)?;
    let request = request(rt, words.get_strs(WORD).unwrap_or_default())?;
    let call = Call::new(alloc, word(words, ADDRESS), hello, request)?;
    Ok(Command::Call(call.waiting(wait)))
}

/// The request that the words spell, of which the first is its verb.
fn request<R: Files + AllocGlobal>(rt: &R, words: &[&str]) -> Result<Request, WordsFault> {
    let texts = all_meant(rt, words)?;
    let mut words = Vec::new(rt.alloc());
    for text in &texts {
        words.push(text.as_str())?;
    }
    request_of(rt.alloc(), words.as_slice())
}

fn request_of(alloc: Global, words: &[&str]) -> Result<Request, WordsFault> {
    let (verb, behind) = match words {
        [verb, behind @ ..] => (*verb, behind),
        [] => ("", words),
    };
    match parse_request(alloc, verb, behind) {
        Ok(request) => Ok(request),
        Err(ParseError::Bad) => {
            let cause = Cause::of_words(alloc, words)?;
            Err(WordsFault::BadRequest(cause.to_string(alloc)?))
        }
        Err(ParseError::NoMemory) => Err(WordsFault::NoMemory),
    }
}

/// The Hello of a call.
pub fn hello<R: Files + AllocGlobal>(rt: &R, words: &ArgMatches) -> Result<Hello, WordsFault>
    ensures { IfOk result (IsHelloOf (found_of words.now)) }
{
    let alloc = rt.alloc();
    let Some(who) = who_in(word(words, WHO)) else {
        return Err(misfit(alloc, WHO, "a number from 0 to 4294967294"));
    };
    let Some(client) = client_in(word(words, CLIENT)) else {
        return Err(misfit(alloc, CLIENT, "a number from 0 to 4294967295"));
    };
    let Some(secret) = secret_of(rt, word(words, SECRET))? else {
        return Err(misfit(alloc, SECRET, "32 hexadecimal digits"));
    };
    let version = version(alloc, words)?;
    let caller = Caller {
        who,
        client,
        version,
    };
    Ok(Hello { caller, secret })
}

/// The version of the wire that a call speaks.
pub fn version(alloc: Global, words: &ArgMatches) -> Result<WireVersion, WordsFault>
    ensures { IfOk result
        (λ version. word_of (found_of words.now) (codes "wire") ≡ version_word version) }
{
    match word(words, WIRE) {
        "1" => Ok(WireVersion::One),
        "2" => Ok(WireVersion::Two),
        word => {
            let text = format!(in alloc;
                "error: invalid value '{word}' for '--{WIRE} <VERSION>': it isn't 1 or 2\n\n\
                 For more information, try '--help'."
            )?;
            Err(WordsFault::Wrong(text))
        }
    }
}

/// The word of that name, or an empty one where there is none.
pub fn word<'a>(words: &ArgMatches<'a>, name: &str) -> &'a str
    ensures { result.now ≡ word_of (found_of words.now) name.now }
{
    match words.get_str(name) {
        Some(word) => word,
        None => "",
    }
}

/// The principal that a word spells.
fn who_in(word: &str) -> Option<Principal>
    ensures { result ≡ principal_in word.now }
{
    Principal::new(principal_in(word.as_bytes())?)
}

/// The client that a word spells, up to 4294967295, which is no principal.
pub fn client_in(word: &str) -> Option<u32>
    ensures { result ≡ client_in word.now }
{
    if word == "4294967295" {
        return Some(u32::MAX);
    }
    principal_in(word.as_bytes())
}

/// The fault of an argument that isn't what it has to be. It doesn't tell the word, which may be a
/// secret.
pub fn misfit(alloc: Global, name: &str, wanted: &str) -> WordsFault {
    let text = format!(in alloc;
        "error: invalid value for '<{name}>': it isn't {wanted}\n\nFor more information, try '--help'."
    );
    text.map_or_else(WordsFault::from, WordsFault::Wrong)
}

/// What comes of words that spell no command: a text, which was asked for, or a fault.
fn told(alloc: Global, error: &Error) -> Result<Command, WordsFault>
    ensures no_memory { kind_of error.now ≡ ErrorKind.OutOfMemory → result ≡ Err fault.NoMemory }
    ensures asked_for { IfOk result
        (λ _. (kind_of error.now ≡ ErrorKind.DisplayHelp)
        ⊎ (kind_of error.now ≡ ErrorKind.DisplayVersion)) }
{
    if error.kind() == ErrorKind::OutOfMemory {
        return Err(WordsFault::NoMemory);
    }
    let text = format!(in alloc; "{error}")?;
    if error.use_stderr() {
        Err(WordsFault::wrong(alloc, text.trim_end()))
    } else {
        Ok(Command::Show(text))
    }
}

/// The fault of arguments that can't be read, as those that aren't UTF-8.
fn unread(alloc: Global, error: &io::Error) -> WordsFault
    ensures no_memory { error_kind error.now ≡ io_kind.OutOfMemory → result ≡ fault.NoMemory }
    ensures not_utf8 { error_kind error.now ≡ io_kind.InvalidData
        → IsFaultOf (codes "error: an argument isn't UTF-8") result }
    ensures other { error_kind error.now ≢ io_kind.OutOfMemory
        → error_kind error.now ≢ io_kind.InvalidData
        → IsFaultOf (codes "error: the arguments can't be read") result }
{
    match error.kind() {
        io::ErrorKind::OutOfMemory => WordsFault::NoMemory,
        io::ErrorKind::InvalidData => WordsFault::wrong(alloc, "error: an argument isn't UTF-8"),
        _ => WordsFault::wrong(alloc, "error: the arguments can't be read"),
    }
}
