//! The words that say of which records is told.

use crate::parser::{
    CHANGES, CLIENT_ASKED, CONNECTION, CSV, FOLLOW, FROM, JSON, OBJECT, PEER, READS, REFUSED,
    START, TO, VERB, WHO_ASKED,
};
use crate::times::time_in;
use clap::ArgMatches;
use s4_command::{Peer, Records, Starts, Subject, Telling, Time, WordsFault};
use s4_script::{parse_number, parse_principal};
use s4_types::{Moment, ObjectId, Principal, Purse, PurseNo, Serial};
use std::alloc::Global;
use std::net::{IpAddr, SocketAddr};

/// The verbs of requests.
const VERBS: [&str; 20] = [
    "create",
    "delete",
    "read",
    "write",
    "append",
    "truncate",
    "getattr",
    "setattr",
    "acl-user",
    "acl-index",
    "setacl",
    "pcreate",
    "pdelete",
    "plist",
    "pmount",
    "flush",
    "flusho",
    "setwindow",
    "setbudget",
    "audit",
];

/// The flags with a value, and those without, that are for a list alone.
const VALUES: [&str; 6] = [WHO_ASKED, CLIENT_ASKED, CONNECTION, PEER, OBJECT, VERB];

const FLAGS: [&str; 6] = [REFUSED, CHANGES, READS, JSON, CSV, FOLLOW];

/// A flag that isn't for what is told, which is no list, and for what it is.
pub fn unwanted(words: &ArgMatches, telling: Telling) -> Option<(&'static str, &'static str)> {
    for flag in VALUES {
        if words.get_str(flag).is_some() {
            return Some((flag, "'list'"));
        }
    }
    for flag in FLAGS {
        if words.get_flag(flag) {
            return Some((flag, "'list'"));
        }
    }
    for flag in [FROM, TO] {
        if telling != Telling::Script && words.get_str(flag).is_some() {
            return Some((flag, "'list' and 'script'"));
        }
    }
    None
}

/// The starts that the words name, where they name any.
pub fn starts(alloc: Global, words: &ArgMatches) -> Result<Option<Starts>, WordsFault> {
    match words.get_str(START) {
        None => Ok(None),
        Some("all") => Ok(Some(Starts::All)),
        Some(word) => match parse_number(word) {
            Ok(number) => Ok(Some(Starts::One(number))),
            Err(_) => Err(misfit(
                alloc,
                START,
                "N",
                "a number from 0 to 18446744073709551615, or all",
            )),
        },
    }
}

/// The time that a flag names, where it is given.
pub fn time(alloc: Global, words: &ArgMatches, flag: &str) -> Result<Option<Time>, WordsFault> {
    let Some(word) = words.get_str(flag) else {
        return Ok(None);
    };
    if let Ok(tick) = parse_number(word) {
        return Ok(Some(Time::Moment(Moment::new(tick))));
    }
    match time_in(word) {
        Some(wall) => Ok(Some(Time::Wall(wall))),
        None => Err(misfit(
            alloc,
            flag,
            "TIME",
            "a number from 0 to 18446744073709551615, or a time as 2026-11-29T10:03",
        )),
    }
}

/// Which records are listed.
pub fn records(alloc: Global, words: &ArgMatches) -> Result<Records, WordsFault> {
    let (changes, refused) = (words.get_flag(CHANGES), words.get_flag(REFUSED));
    let reads = words.get_flag(READS);
    if changes && (refused || reads) {
        return Err(WordsFault::wrong(
            alloc,
            "error: the argument '--changes' cannot be used with '--refused' or '--reads'\n\n\
             For more information, try '--help'.",
        ));
    }
    Ok(Records {
        who: who(alloc, words)?,
        client: number(alloc, words, CLIENT_ASKED, 0, u64::from(u32::MAX))?.and_then(
            |it| u32::try_from(it).ok(),
        ),
        connection: number(alloc, words, CONNECTION, 1, u64::MAX)?,
        peer: peer(alloc, words)?,
        about: about(alloc, words)?,
        verb: verb(alloc, words)?,
        refused,
        changes,
        reads,
    })
}

/// Who asked, where the words name them.
fn who(alloc: Global, words: &ArgMatches) -> Result<Option<Principal>, WordsFault> {
    match words.get_str(WHO_ASKED) {
        None => Ok(None),
        Some(word) => match parse_principal(word) {
            Ok(who) => Ok(Some(who)),
            Err(_) => Err(misfit(alloc, WHO_ASKED, "WHO", "a number from 0 to 4294967294")),
        },
    }
}

/// The verb that the words name, where they name one.
fn verb(alloc: Global, words: &ArgMatches) -> Result<Option<String>, WordsFault> {
    match words.get_str(VERB) {
        None => Ok(None),
        Some(word) if VERBS.contains(&word) => Ok(Some(String::from_str(alloc, word)?)),
        Some(_) => Err(misfit(alloc, VERB, "VERB", "a request's verb, as read")),
    }
}

/// The number behind a flag, where it is given, which has to be within these bounds.
fn number(
    alloc: Global,
    words: &ArgMatches,
    flag: &str,
    least: u64,
    most: u64,
) -> Result<Option<u64>, WordsFault> {
    match words.get_str(flag) {
        None => Ok(None),
        Some(word) => match parse_number(word) {
            Ok(number) if least <= number && number <= most => Ok(Some(number)),
            _ => {
                let wanted = format!(in alloc; "a number from {least} to {most}")?;
                Err(misfit(alloc, flag, "N", wanted.as_str()))
            }
        },
    }
}

/// The peer that the words name, where they name one: an address, or an address and a port.
fn peer(alloc: Global, words: &ArgMatches) -> Result<Option<Peer>, WordsFault> {
    let Some(word) = words.get_str(PEER) else {
        return Ok(None);
    };
    if let Ok(address) = IpAddr::parse_ascii(word.as_bytes()) {
        let address = address.to_canonical();
        return Ok(Some(Peer {
            address,
            port: None,
        }));
    }
    match SocketAddr::parse_ascii(word.as_bytes()) {
        Ok(peer) => Ok(Some(Peer {
            address: peer.ip().to_canonical(),
            port: Some(peer.port()),
        })),
        Err(_) => Err(misfit(
            alloc,
            PEER,
            "ADDRESS",
            "an IP address, or one with a port as 127.0.0.1:4710",
        )),
    }
}

/// What the words name that records may be about, where they name anything.
fn about(alloc: Global, words: &ArgMatches) -> Result<Option<Subject>, WordsFault> {
    let Some(word) = words.get_str(OBJECT) else {
        return Ok(None);
    };
    match subject_in(word) {
        Some(subject) => Ok(Some(subject)),
        None => Err(misfit(
            alloc,
            OBJECT,
            "OBJECT",
            "an object as 7.0.1, a purse as 7.0, or a principal as 7",
        )),
    }
}

/// What a word names that records may be about.
fn subject_in(word: &str) -> Option<Subject> {
    let Some((creator, rest)) = word.split_once('.') else {
        return Some(Subject::InRange(parse_principal(word).ok()?));
    };
    let creator = parse_principal(creator).ok()?;
    let Some((number, serial)) = rest.split_once('.') else {
        let number = PurseNo::new(parse_number(rest).ok()?)?;
        return Some(Subject::InPurse(Purse { creator, number }));
    };
    let number = PurseNo::new(parse_number(number).ok()?)?;
    let purse = Purse { creator, number };
    let serial = Serial::new(parse_number(serial).ok()?)?;
    Some(Subject::Object(ObjectId { purse, serial }))
}

/// The fault of a flag whose value isn't what it has to be.
fn misfit(alloc: Global, flag: &str, named: &str, wanted: &str) -> WordsFault {
    let text = format!(in alloc;
        "error: invalid value for '--{flag} <{named}>': it isn't {wanted}\n\n\
         For more information, try '--help'."
    );
    text.map_or_else(WordsFault::from, WordsFault::Wrong)
}
