//! What a command line may have: commands, arguments, flags, and the texts of the help.

use clap::{Arg, ArgAction, Command as Parser};
use s4_settings::VERSION;
use std::alloc::{AllocError, Global};

/// What the help ends with.
const PAGES: &str = "\
Example: s4d run < examples/intrusion.script
docs/TUTORIAL.md tells that example step by step; docs/SCRIPTS.md says what each line asks and is answered.";

/// How `run` is called.
const RUN_USAGE: &str = "s4d run [OPTIONS] < SCRIPT (the script goes to standard input)";

/// What the help of `run` ends with.
const RUN_PAGES: &str = "\
The script is read to its end before its first line is run.

Example: s4d run < examples/first.script
docs/SCRIPTS.md says what each line asks and is answered.";

/// How `hall` is called.
const HALL_USAGE: &str =
    "s4d hall [OPTIONS] <LOGINS> < ARRIVALS (the arrivals go to standard input)";

/// What the help of `hall` ends with.
const HALL_PAGES: &str = "\
Example: s4d hall examples/first.logins < examples/first.arrivals
docs/SCRIPTS.md has the lines of both files under \"Arrivals\"; docs/PROTOCOL.md has the bytes.";

/// How `strike` is called.
const STRIKE_USAGE: &str =
    "s4d strike [OPTIONS] <WHO> < SCRIPT (the script goes to standard input)";

/// What the help of `strike` ends with.
const STRIKE_PAGES: &str = "\
The principal is replied the same by the whole script and by what is written.

Example: s4d strike 8 < examples/intrusion.script | s4d run
docs/TUTORIAL.md tells that example; docs/SCRIPTS.md says which lines stay.";

/// What the help of `check` ends with.
const CHECK_PAGES: &str = "\
Example: s4d check examples/first.script examples/first.logins
docs/SCRIPTS.md says what each line may be, and what is told of one that isn't.";

/// What the help of `serve` ends with.
const SERVE_PAGES: &str = "\
A TIME is a number of milliseconds, or one with a unit behind it: ms, s, m, h or d, as 7d.

Example: s4d serve 127.0.0.1:4710 examples/first.logins
docs/OPERATIONS.md says what it writes, what it holds in memory, and what ends it.";

/// What the help of `call` ends with.
const CALL_PAGES: &str = "\
A TIME is a number of milliseconds, or one with a unit behind it: ms, s, m, h or d, as 90s.

With - in place of WORD.. the lines of standard input are requests, and each reply is a line:
s4d call <ADDRESS> <WHO> <CLIENT> <SECRET> - asks all as WHO
s4d call <ADDRESS> <CLIENT> --logins <LOGINS> - asks each as its principal: WHO WORD.. => REPLY

Example: s4d call 127.0.0.1:4710 7 1 000102030405060708090a0b0c0d0e0f read 7.0.1 0 100 at 9
docs/SCRIPTS.md has the words and the replies; \"Calls\" there says what else is told.";

/// What the help of `history` ends with.
const HISTORY_PAGES: &str = "\
Example: s4d history list journal --peer 127.0.0.1 --object 7.0.1
docs/JOURNAL.md says what each tells, and what the sums find.";

/// What the bound of records is, and which it is where it isn't given.
const RECORDS_HELP: &str =
    "How many bytes of records the requests of a principal may leave that aren't dropped yet; else half of the memory \
     that is there, by the principals of LOGINS, as far as the system tells";

/// What a proxy's address is for.
const PROXY_HELP: &str =
    "A connection from this IP address begins with a line of the PROXY protocol, version 1, that names its peer";

/// The argument that is the path of a file of logins.
pub const LOGINS: &str = "LOGINS";

/// The argument that is the number of a principal.
pub const WHO: &str = "WHO";

/// The arguments of a call beside its principal: the address, the client, the secret, and the words
/// of the request.
pub const ADDRESS: &str = "ADDRESS";

pub const CLIENT: &str = "CLIENT";

pub const SECRET: &str = "SECRET";

pub const WORD: &str = "WORD";

/// The flags of a call.
pub const WAIT: &str = "wait";

pub const WIRE: &str = "wire";

/// The argument of a check: the files.
pub const FILE: &str = "FILE";

/// Its flag: what they are.
pub const AS: &str = "as";

/// The flag of runs that has a fault's cause told.
pub const WHY: &str = "why";

pub const DEPTH: &str = "depth";

pub const SECRETS: &str = "logins";

/// The arguments of a history: what is told, and of which folder.
pub const TELLING: &str = "TELLING";

pub const FOLDER: &str = "FOLDER";

/// The flags of a history; it has `SUMS` too.
pub const START: &str = "start";

pub const FROM: &str = "from";

pub const TO: &str = "to";

pub const SUM: &str = "sum";

pub const JSON: &str = "json";

pub const CSV: &str = "csv";

pub const FOLLOW: &str = "follow";

/// The flags that choose the records of a list.
pub const WHO_ASKED: &str = "who";

pub const CLIENT_ASKED: &str = "client";

pub const CONNECTION: &str = "connection";

pub const PEER: &str = "peer";

pub const OBJECT: &str = "object";

pub const VERB: &str = "verb";

pub const REFUSED: &str = "refused";

pub const CHANGES: &str = "changes";

pub const READS: &str = "reads";

/// The flags of a server.
pub const WINDOW: &str = "window";

pub const CELLS: &str = "cells";

pub const WORKERS: &str = "workers";

pub const CONNECTIONS: &str = "connections";

pub const IDLE: &str = "idle";

pub const HELLO: &str = "hello";

pub const OPEN: &str = "open";

pub const OPEN_EACH: &str = "open-each";

pub const FIRST: &str = "first-moment";

pub const CUT: &str = "cut";

pub const RECORDS: &str = "records";

pub const UNTIL: &str = "until";

pub const RELOAD: &str = "reload";

pub const SETUP: &str = "setup";

pub const STATUS: &str = "status";

pub const JOURNAL: &str = "journal";

pub const SYNC: &str = "sync";

pub const PROXY: &str = "proxy-from";

pub const STATUS_TEXT: &str = "status-text";

pub const LOG_TIMES: &str = "log-times";

pub const CHECK: &str = "check";

pub const SUMS: &str = "sums";

/// What parses a command line.
pub fn parser<'a>(alloc: Global) -> Result<Parser<'a>, AllocError> {
    let parser = Parser::new(alloc, "s4d")
        .about("A drive that keeps what was written, and answers each principal by its rights")
        .version(VERSION)
        .after_help(PAGES)
        .subcommand_required(true);
    let parser = with(parser, run_parser(alloc))?;
    let parser = with(parser, hall_parser(alloc))?;
    let parser = with(parser, strike_parser(alloc))?;
    let parser = with(parser, check_parser(alloc))?;
    let parser = with(parser, serve_parser(alloc))?;
    let parser = with(parser, call_parser(alloc))?;
    with(parser, history_parser(alloc))
}

/// Adds a command.
fn with<'a>(
    parser: Parser<'a>,
    command: Result<Parser<'a>, AllocError>,
) -> Result<Parser<'a>, AllocError> {
    parser.subcommand(command?)
}

fn run_parser<'a>(alloc: Global) -> Result<Parser<'a>, AllocError> {
    Parser::new(alloc, "run")
        .about("Runs a script from standard input, and writes the replies")
        .override_usage(RUN_USAGE)
        .after_help(RUN_PAGES)
        .arg(why(alloc))
}

fn hall_parser<'a>(alloc: Global) -> Result<Parser<'a>, AllocError> {
    let logins = Arg::new(alloc, LOGINS)
        .help("A file of the principals that may log in, each with its secret")
        .required(true);
    Parser::new(alloc, "hall")
        .about("Runs arrivals from standard input, and writes what each connection is sent")
        .override_usage(HALL_USAGE)
        .after_help(HALL_PAGES)
        .arg(logins)?
        .arg(why(alloc))
}

fn strike_parser<'a>(alloc: Global) -> Result<Parser<'a>, AllocError> {
    let who = Arg::new(alloc, WHO)
        .help("The principal, a number from 1 to 4294967294")
        .required(true);
    Parser::new(alloc, "strike")
        .about("Writes a script from standard input without what a principal's strangers ask")
        .override_usage(STRIKE_USAGE)
        .after_help(STRIKE_PAGES)
        .arg(who)?
        .arg(why(alloc))
}

/// The flag that has a fault's cause told.
fn why<'a>(alloc: Global) -> Arg<'a> {
    set(
        alloc,
        WHY,
        "Tells the cause of a fault too, in a second line",
    )
}

fn check_parser<'a>(alloc: Global) -> Result<Parser<'a>, AllocError> {
    let files = wanted(
        alloc,
        FILE,
        "A script, arrivals, logins or a setup; its lines tell which",
    );
    let kind = chosen(
        alloc,
        AS,
        "KIND",
        "What the files are: script, arrivals, logins or setup",
    );
    Parser::new(alloc, "check")
        .about("Tells which lines of files aren't taken, and why")
        .after_help(CHECK_PAGES)
        .arg(files.num_args(1..))?
        .arg(kind)
}

fn serve_parser<'a>(alloc: Global) -> Result<Parser<'a>, AllocError> {
    let parser = Parser::new(alloc, "serve")
        .about("Serves a drive over TCP, and writes where it listens")
        .after_help(SERVE_PAGES)
        .arg(wanted(alloc, ADDRESS, "Where it listens, a host and a port"))?
        .arg(wanted(
            alloc,
            LOGINS,
            "A file of the principals that may log in, each with its secret",
        ))?;
    let parser = with_flags_of_drives(alloc, parser)?;
    let parser = with_flags_of_peers(alloc, parser)?;
    let parser = with_flags_of_times(alloc, parser)?;
    let parser = with_flags_of_files(alloc, parser)?;
    with_flags_of_telling(alloc, parser)
}

/// Adds the flags that say how a drive is set up.
fn with_flags_of_drives<'a>(alloc: Global, parser: Parser<'a>) -> Result<Parser<'a>, AllocError> {
    let window = time(
        alloc,
        WINDOW,
        "The detection window at the start",
        "86400000",
    );
    let cells = flag(alloc, CELLS, "How many cells there are, from 1 to 16", "4");
    let workers = flag(
        alloc,
        WORKERS,
        "How many threads serve connections, from 1 to 8",
        "4",
    );
    parser.arg(window)?.arg(cells)?.arg(workers)
}

/// Adds the flags that say which connections are served.
fn with_flags_of_peers<'a>(alloc: Global, parser: Parser<'a>) -> Result<Parser<'a>, AllocError> {
    let connections = flag(
        alloc,
        CONNECTIONS,
        "After how many connections it ends, or 0 for never",
        "0",
    );
    let idle = time(
        alloc,
        IDLE,
        "How long a peer may be silent, or 0 for ever",
        "60000",
    );
    let hello = time(
        alloc,
        HELLO,
        "How long a peer may take up to its welcome, or 0 for ever",
        "10000",
    );
    let open = flag(alloc, OPEN, "How many connections may be open", "1024");
    let each = flag(
        alloc,
        OPEN_EACH,
        "How many of them may come from one address, or 0 for any",
        "0",
    );
    let parser = parser.arg(connections)?.arg(idle)?.arg(hello)?;
    parser.arg(open)?.arg(each)
}

/// Adds the flags that say how the clock begins, how often logins are looked at, whether the history is
/// cut, and how much of it a principal may leave.
fn with_flags_of_times<'a>(alloc: Global, parser: Parser<'a>) -> Result<Parser<'a>, AllocError> {
    let first = flag(
        alloc,
        FIRST,
        "The moment at the start, in milliseconds, or now for the time then",
        "0",
    );
    let reload = time(
        alloc,
        RELOAD,
        "After how long it looks again at LOGINS, or 0 for never",
        "0",
    );
    let cut = Arg::new(alloc, CUT)
        .long(CUT)
        .action(ArgAction::SetTrue)
        .help("It drops the records that no reply needs any more");
    let records = Arg::new(alloc, RECORDS)
        .long(RECORDS)
        .value_name("N")
        .help(RECORDS_HELP);
    parser.arg(first)?.arg(reload)?.arg(cut)?.arg(records)
}

/// Adds the flags that name files.
fn with_flags_of_files<'a>(alloc: Global, parser: Parser<'a>) -> Result<Parser<'a>, AllocError> {
    let until = file(alloc, UNTIL, "It ends once there is this file");
    let setup = file(
        alloc,
        SETUP,
        "It carries out the lines of this file before it listens",
    );
    let status = file(
        alloc,
        STATUS,
        "It tells of itself in this file each second, as JSON",
    );
    let journal = Arg::new(alloc, JOURNAL)
        .long(JOURNAL)
        .value_name("FOLDER")
        .help("It keeps its history in this folder");
    let sync = Arg::new(alloc, SYNC).long(SYNC).value_name("WHEN").help(
        "When the system writes the journal to where it lasts: second or never; else second",
    );
    let sums = file(
        alloc,
        SUMS,
        "It adds a line to this file each minute that tells how far the journal is",
    );
    parser
        .arg(until)?
        .arg(setup)?
        .arg(status)?
        .arg(journal)?
        .arg(sync)?
        .arg(sums)
}

/// Adds the flags that say whose connections a proxy's are, and what else is told.
fn with_flags_of_telling<'a>(alloc: Global, parser: Parser<'a>) -> Result<Parser<'a>, AllocError> {
    let proxy = Arg::new(alloc, PROXY)
        .long(PROXY)
        .value_name("ADDRESS")
        .help(PROXY_HELP);
    let text = file(
        alloc,
        STATUS_TEXT,
        "It tells of itself in this file too, as text for Prometheus",
    );
    let times = Arg::new(alloc, LOG_TIMES)
        .long(LOG_TIMES)
        .action(ArgAction::SetTrue)
        .help("Its lines on standard error begin with the time");
    let check = Arg::new(alloc, CHECK)
        .long(CHECK)
        .action(ArgAction::SetTrue)
        .help("It looks at its files, its setup and the journal's lock, and serves nothing");
    parser.arg(proxy)?.arg(text)?.arg(times)?.arg(check)
}

/// A flag with a file.
fn file<'a>(alloc: Global, name: &'a str, help: &'a str) -> Arg<'a> {
    Arg::new(alloc, name)
        .long(name)
        .value_name("FILE")
        .help(help)
}

/// A flag with a time, which is this one where it isn't given.
fn time<'a>(alloc: Global, name: &'a str, help: &'a str, standard: &'a str) -> Arg<'a> {
    Arg::new(alloc, name)
        .long(name)
        .value_name("TIME")
        .help(help)
        .default_value(standard)
}

/// A flag with a number, which is this one where it isn't given.
fn flag<'a>(alloc: Global, name: &'a str, help: &'a str, standard: &'a str) -> Arg<'a> {
    Arg::new(alloc, name)
        .long(name)
        .value_name("N")
        .help(help)
        .default_value(standard)
}

fn call_parser<'a>(alloc: Global) -> Result<Parser<'a>, AllocError> {
    let address = wanted(
        alloc,
        ADDRESS,
        "Where the drive is served, a host and a port",
    );
    let parser = Parser::new(alloc, "call")
        .about("Asks a served drive once, and writes the reply")
        .after_help(CALL_PAGES)
        .arg(address)?;
    let parser = with_caller(alloc, parser)?;
    let word = Arg::new(alloc, WORD)
        .help(
            "The request, as in a line of a script from its verb on; @ and a file for what it has; or -",
        )
        .required_unless_present(SECRETS)?;
    let wait = time(
        alloc,
        WAIT,
        "For how long it is tried to connect again",
        "0",
    );
    let wire = Arg::new(alloc, WIRE)
        .long(WIRE)
        .value_name("VERSION")
        .help("The version of the wire that it speaks, 1 or 2")
        .default_value("1");
    let parser = parser.arg(word.num_args(1..))?.arg(wire)?.arg(wait)?;
    with_flags_of_lines(alloc, parser)
}

/// Adds the flags for requests in lines.
fn with_flags_of_lines<'a>(alloc: Global, parser: Parser<'a>) -> Result<Parser<'a>, AllocError> {
    let depth = Arg::new(alloc, DEPTH).long(DEPTH).value_name("N").help(
        "How many requests of lines may be ahead of their replies, from 1 to 1024; else 1",
    );
    let secrets = Arg::new(alloc, SECRETS)
        .long(SECRETS)
        .value_name("LOGINS")
        .help("Lines name their principals, whose secrets are in this file");
    parser.arg(depth)?.arg(secrets)
}

/// Adds the arguments that say who calls.
fn with_caller<'a>(alloc: Global, parser: Parser<'a>) -> Result<Parser<'a>, AllocError> {
    let who = wanted(
        alloc,
        WHO,
        "The principal that asks, a number from 0 to 4294967294",
    );
    let client = wanted(
        alloc,
        CLIENT,
        "The client that is recorded, a number from 0 to 4294967295",
    );
    let secret = Arg::new(alloc, SECRET)
        .help("The principal's secret, 32 hexadecimal digits, or @ and a file that has them")
        .required_unless_present(SECRETS)?;
    parser.arg(who)?.arg(client)?.arg(secret)
}

fn history_parser<'a>(alloc: Global) -> Result<Parser<'a>, AllocError> {
    let parser = Parser::new(alloc, "history")
        .about("Tells of the journals in a folder")
        .after_help(HISTORY_PAGES)
        .arg(wanted(alloc, TELLING, "What is told: list, script or check"))?
        .arg(wanted(alloc, FOLDER, "The folder of the journals"))?;
    let parser = with_flags_of_starts(alloc, parser)?;
    let parser = with_flags_of_lists(alloc, parser)?;
    let parser = with_flags_of_callers(alloc, parser)?;
    with_flags_of_requests(alloc, parser)
}

/// Adds the flags that say of which starts and which times is told, and which sums have to be there.
fn with_flags_of_starts<'a>(alloc: Global, parser: Parser<'a>) -> Result<Parser<'a>, AllocError> {
    let start = Arg::new(alloc, START).long(START).value_name("N").help(
        "The number of the start, or all; else the newest, or all for check",
    );
    let from = chosen(
        alloc,
        FROM,
        "TIME",
        "The first moment of which is told, or a time in UTC as 2026-11-29T10:03",
    );
    let to = chosen(
        alloc,
        TO,
        "TIME",
        "The last moment of which is told, or a time in UTC",
    );
    let sum = chosen(
        alloc,
        SUM,
        "HEX",
        "A last sum that check has to find, as was told before",
    );
    let sums = chosen(
        alloc,
        SUMS,
        "FILE",
        "Sums that check has to find, lines START BYTES HEX as serve adds them; may be given again",
    );
    let sums = sums.action(ArgAction::Append);
    let parser = parser.arg(start)?.arg(from)?.arg(to)?;
    parser.arg(sum)?.arg(sums)
}

/// Adds the flags that say how a list is written.
fn with_flags_of_lists<'a>(alloc: Global, parser: Parser<'a>) -> Result<Parser<'a>, AllocError> {
    let json = set(
        alloc,
        JSON,
        "The list has lines of JSON, with connections and peers",
    );
    let csv = set(alloc, CSV, "The list has lines of CSV, with the same");
    let follow = set(
        alloc,
        FOLLOW,
        "The list goes on while the start does, and its records have no numbers",
    );
    parser.arg(json)?.arg(csv)?.arg(follow)
}

/// Adds the flags that choose records by whom they came from.
fn with_flags_of_callers<'a>(alloc: Global, parser: Parser<'a>) -> Result<Parser<'a>, AllocError> {
    let who = chosen(
        alloc,
        WHO_ASKED,
        "WHO",
        "The list has what this principal asked",
    );
    let client = chosen(
        alloc,
        CLIENT_ASKED,
        "N",
        "The list has what was asked as this client",
    );
    let connection = chosen(
        alloc,
        CONNECTION,
        "N",
        "The list has what came by the connection of this number",
    );
    let peer = chosen(
        alloc,
        PEER,
        "ADDRESS",
        "The list has what came from this address, or from its port as 127.0.0.1:4710",
    );
    let parser = parser.arg(who)?.arg(client)?;
    parser.arg(connection)?.arg(peer)
}

/// Adds the flags that choose records by what was asked.
fn with_flags_of_requests<'a>(alloc: Global, parser: Parser<'a>) -> Result<Parser<'a>, AllocError> {
    let object = chosen(
        alloc,
        OBJECT,
        "OBJECT",
        "The list has what is about this object as 7.0.1, purse as 7.0, or principal's range as 7",
    );
    let verb = chosen(
        alloc,
        VERB,
        "VERB",
        "The list has requests of this verb, as read",
    );
    let refused = set(alloc, REFUSED, "The list has what was refused");
    let changes = set(alloc, CHANGES, "The list has what changed something");
    let reads = set(alloc, READS, "The list has what only asked, refused or not");
    let parser = parser.arg(object)?.arg(verb)?.arg(refused)?;
    parser.arg(changes)?.arg(reads)
}

/// A flag with a value of that name.
fn chosen<'a>(alloc: Global, name: &'a str, value: &'a str, help: &'a str) -> Arg<'a> {
    Arg::new(alloc, name)
        .long(name)
        .value_name(value)
        .help(help)
}

/// A flag without a value.
fn set<'a>(alloc: Global, name: &'a str, help: &'a str) -> Arg<'a> {
    Arg::new(alloc, name)
        .long(name)
        .action(ArgAction::SetTrue)
        .help(help)
}

/// An argument that has to be given.
fn wanted<'a>(alloc: Global, name: &'a str, help: &'a str) -> Arg<'a> {
    Arg::new(alloc, name).help(help).required(true)
}
