//! Command lines of servers, of which only the parsed command tells all, and one of a history.

use s4_command::{Command, Service, Telling};
use s4_command_line::given;
use s4_settings::{Patience, Settings};
use std::env::FillError;
use std::process::Abort;
use std::rt::Env;
use std::str;
use std::test::Fail;

/// The words of a command line, with a `|` between each two.
#[derive(Drop)]
struct Words<'a>(&'a [u8]);

impl Env for Words<'_> {
    fn arg(&self, i: usize, buf: &mut [u8]) -> Result<usize, FillError> {
        let mut words = self.0.split(|byte| *byte == b'|');
        let word = words.nth(i).ok_or(FillError::NotPresent)?;
        if word.len() > buf.len() {
            return Err(FillError::TooLong);
        }
        buf[..word.len()].copy_from_slice(word);
        Ok(word.len())
    }

    fn var(&self, _name: &str, _buf: &mut [u8]) -> Result<usize, FillError> {
        Err(FillError::NotPresent)
    }

    fn var_at(&self, _i: usize, _buf: &mut [u8]) -> Result<usize, FillError> {
        Err(FillError::NotPresent)
    }
}

/// The words of a server at 127.0.0.1:4710, whose logins are in `first.logins`, and what they spell: its
/// settings; whether it cuts; how often it looks at its logins; the files that end it, that it carries out
/// first and in which it tells of itself; and whether it syncs its journal in `a folder/kept`, where it
/// keeps one.
#[derive(Clone, Copy)]
struct Row(
    &'static [u8],
    Settings,
    bool,
    u64,
    [Option<&'static str>; 3],
    Option<bool>,
);

/// The settings of a server where no flag is given.
const STANDARD: Settings = Settings {
    window: 86400000,
    cells: 4,
    workers: 4,
    connections: 0,
    patience: Patience {
        idle: 60000,
        hello: 10000,
    },
    open: 1024,
    open_each: 0,
    proxy: None,
    first: 0,
    cuts: false,
    records: None,
};

/// The greatest settings, but for the least number of open connections. The first moment is 2^63 - 1.
const GREATEST: Settings = Settings {
    window: u64::MAX,
    cells: 16,
    workers: 8,
    connections: u32::MAX,
    patience: Patience {
        idle: u64::MAX,
        hello: u64::MAX,
    },
    open: 1,
    open_each: u32::MAX,
    proxy: None,
    first: 9223372036854775807,
    cuts: true,
    records: Some(u64::MAX),
};

const NO_FILES: [Option<&str>; 3] = [None, None, None];

const FILES: [Option<&str>; 3] = [
    Some("a folder/end"),
    Some("a folder/begin"),
    Some("a folder/told"),
];

const ROWS: [Row; 5] = [
    Row(
        b"s4d|serve|127.0.0.1:4710|first.logins",
        STANDARD,
        false,
        0,
        NO_FILES,
        None,
    ),
    Row(
        b"s4d|serve|127.0.0.1:4710|first.logins|--window|18446744073709551615\
            |--cells|16|--workers|8|--connections|4294967295|--idle|18446744073709551615|--hello|18446744073709551615|--open|1\
            |--open-each|4294967295|--first-moment|9223372036854775807|--reload|18446744073709551615|--until|a folder/end\
            |--setup|a folder/begin|--status|a folder/told|--cut\
            |--records|18446744073709551615",
        GREATEST,
        true,
        u64::MAX,
        FILES,
        None,
    ),
    Row(
        b"s4d|serve|127.0.0.1:4710|first.logins|--journal|a folder/kept",
        STANDARD,
        false,
        0,
        NO_FILES,
        Some(true),
    ),
    Row(
        b"s4d|serve|127.0.0.1:4710|first.logins|--journal|a folder/kept|--sync|never\
            |--sums|a folder/sums",
        STANDARD,
        false,
        0,
        NO_FILES,
        Some(false),
    ),
    Row(
        b"s4d|serve|127.0.0.1:4710|first.logins|--cut|--journal|a folder/kept",
        STANDARD,
        true,
        0,
        NO_FILES,
        Some(true),
    ),
];

/// Whether a service is what the row says.
fn is_spelled(service: &Service, row: &Row) -> bool {
    let Row(_, mut settings, cuts, reload, files, syncs) = *row;
    settings.cuts = cuts;
    let journal = service.journal.as_ref();
    service.settings == settings
        && service.reload == reload
        && path(&service.until) == files[0]
        && path(&service.setup) == files[1]
        && path(&service.status) == files[2]
        && journal.map(|it| it.syncs) == syncs
        && journal.is_none_or(|it| it.folder.as_str() == "a folder/kept")
        && journal.is_none_or(|it| path(&it.sums)
            == if it.syncs {
                None
            } else {
                Some("a folder/sums")
            })
        && service.address.as_str() == "127.0.0.1:4710"
        && service.logins.as_str() == "first.logins"
}

fn path(it: &Option<String>) -> Option<&str> {
    it.as_ref().map(|path| path.as_str())
}

#[test]
fn servers_are_what_their_words_spell(rt: HostRuntime) -> Result<(), Fail> {
    for row in &ROWS {
        match given(&(Words(row.0), rt.alloc()), &rt)? {
            Command::Serve(service) => assert!(rt;
                is_spelled(&service, row),
                "{:?}",
                str::from_utf8(row.0)
            ),
            _ => return Err(Fail::from("a server")),
        }
    }
    Ok(())
}

/// The last sum that a check has to find is of the bytes 0 to 31.
#[test]
fn a_sum_is_what_its_words_spell(rt: HostRuntime) -> Result<(), Fail> {
    let words = b"s4d|history|check|a folder/kept|--sum\
        |000102030405060708090a0b0c0d0e0f101112131415161718191a1b1c1d1e1f";
    let mut sum = [0; 32];
    for place in 0..32 {
        sum[place] = place as u8;
    }
    match given(&(Words(words), rt.alloc()), &rt)? {
        Command::History(history) => {
            assert!(rt; history.telling == Telling::Check(Some(sum)));
            assert_eq!(rt; history.folder.as_str(), "a folder/kept");
            assert!(rt; history.starts.is_none() && history.from.is_none() && history.to.is_none());
            Ok(())
        }
        _ => Err(Fail::from("a history")),
    }
}
