//! What a server tells of itself as text for Prometheus (docs/OPERATIONS.md, "Status").

use crate::journal::JournalStatus;
use crate::status::{CellStatus, Connections, Refusals, Status};
use s4_sockets::{FailedLogins, LeftBy};
use std::fmt;
use std::fmt::{Formatter, Write};

/// A status as text: of each figure what it is, and lines of it.
#[derive(Clone, Copy)]
pub(crate) struct Metrics<'a>(pub(crate) &'a Status);

impl fmt::Display for Metrics<'_> {
    fn fmt<W: Write>(&self, f: &mut Formatter<W>) -> fmt::Result {
        let status = self.0;
        write_begin(status, f)?;
        write_connections(&status.connections, f)?;
        write_logins(&status.failed_logins, f)?;
        write_cells(status.cells.as_slice(), f)?;
        write_replies(status.replies, &status.refusals, f)?;
        write_records(status.record_bytes.as_slice(), f)?;
        match &status.journal {
            Some(journal) => write_journal(journal, f),
            None => Ok(()),
        }
    }
}

/// Milliseconds, as seconds.
#[derive(Clone, Copy)]
struct Seconds(u64);

impl fmt::Display for Seconds {
    fn fmt<W: Write>(&self, f: &mut Formatter<W>) -> fmt::Result {
        write!(f, "{}.{:03}", self.0 / 1000, self.0 % 1000)
    }
}

/// What a figure is. One that only grows is a counter, any other one a gauge.
fn write_head<W: Write>(name: &str, what: &str, f: &mut Formatter<W>) -> fmt::Result {
    let kind = if name.ends_with("_total") {
        "counter"
    } else {
        "gauge"
    };
    writeln!(f, "# HELP visorgal_{name} {what}")?;
    writeln!(f, "# TYPE visorgal_{name} {kind}")
}

/// A figure that is a number.
fn write_number<W: Write>(
    name: &str,
    what: &str,
    number: u64,
    f: &mut Formatter<W>,
) -> fmt::Result {
    write_head(name, what, f)?;
    writeln!(f, "visorgal_{name} {number}")
}

/// A figure that is a time, in milliseconds.
fn write_time<W: Write>(name: &str, what: &str, time: u64, f: &mut Formatter<W>) -> fmt::Result {
    write_head(name, what, f)?;
    writeln!(f, "visorgal_{name} {}", Seconds(time))
}

/// A figure that has a line for each of these words.
fn write_each<W: Write>(
    name: &str,
    label: &str,
    what: &str,
    each: &[(&str, u64)],
    f: &mut Formatter<W>,
) -> fmt::Result {
    write_head(name, what, f)?;
    for (word, number) in each {
        writeln!(f, "visorgal_{name}{{{label}=\"{word}\"}} {number}")?;
    }
    Ok(())
}

/// The program, its clock and its memory.
fn write_begin<W: Write>(status: &Status, f: &mut Formatter<W>) -> fmt::Result {
    write_each(
        "info",
        "version",
        "The program's version.",
        &[(status.version, 1)],
        f,
    )?;
    write_time(
        "start_time_seconds",
        "When it began, since 1970.",
        status.began,
        f,
    )?;
    write_time("moment_seconds", "The moment now.", status.moment, f)?;
    write_time(
        "window_seconds",
        "The window at the start.",
        status.window,
        f,
    )?;
    let read = status.logins.read;
    write_time(
        "logins_time_seconds",
        "When LOGINS was last taken, since 1970.",
        read,
        f,
    )?;
    match status.resident_bytes {
        Some(bytes) => write_number("resident_bytes", "The memory of the process.", bytes, f),
        None => Ok(()),
    }
}

/// The connections.
fn write_connections<W: Write>(all: &Connections, f: &mut Formatter<W>) -> fmt::Result {
    let states = [
        ("greeting", all.greeting),
        ("welcomed", all.welcomed),
        ("leaving", all.leaving),
    ];
    write_number(
        "accepted_total",
        "Connections that were let in.",
        all.accepted,
        f,
    )?;
    let away = all.turned_away;
    write_number("turned_away_total", "Connections without a place.", away, f)?;
    write_number(
        "open_connections",
        "Connections that are open.",
        all.open,
        f,
    )?;
    write_each(
        "connections",
        "state",
        "Open connections, by state.",
        &states,
        f,
    )?;
    write_head(
        "principal_connections",
        "Welcomed connections, by principal.",
        f,
    )?;
    for open in &all.principals {
        let (who, count) = (open.who, open.count);
        writeln!(f, "visorgal_principal_connections{{who=\"{who}\"}} {count}")?;
    }
    write_head("address_connections", "Open connections, by address.", f)?;
    for open in &all.addresses {
        let (address, count) = (open.address.as_str(), open.count);
        writeln!(
            f,
            "visorgal_address_connections{{address=\"{address}\"}} {count}"
        )?;
    }
    Ok(())
}

/// The logins that failed.
fn write_logins<W: Write>(failed: &FailedLogins, f: &mut Formatter<W>) -> fmt::Result {
    write_number("failed_logins_total", "Logins that failed.", failed.all, f)?;
    let others = failed.others;
    write_number(
        "foreign_logins_total",
        "Those of principals without a login.",
        others,
        f,
    )?;
    write_head(
        "failed_logins",
        "Logins of the last day that failed, by principal.",
        f,
    )?;
    for by in &failed.principals {
        writeln!(
            f,
            "visorgal_failed_logins{{who=\"{}\"}} {}",
            by.who, by.count
        )?;
    }
    Ok(())
}

/// What the cells hold.
fn write_cells<W: Write>(cells: &[CellStatus], f: &mut Formatter<W>) -> fmt::Result {
    write_head("records", "Records that are held, by cell.", f)?;
    for (number, cell) in cells.iter().enumerate() {
        writeln!(f, "visorgal_records{{cell=\"{number}\"}} {}", cell.records)?;
    }
    write_head("values", "Values that are held, by cell.", f)?;
    for (number, cell) in cells.iter().enumerate() {
        writeln!(f, "visorgal_values{{cell=\"{number}\"}} {}", cell.values)?;
    }
    Ok(())
}

/// What was replied.
fn write_replies<W: Write>(all: u64, refused: &Refusals, f: &mut Formatter<W>) -> fmt::Result {
    let kinds = [
        ("denied", refused.denied),
        ("no_object", refused.no_object),
        ("no_partition", refused.no_partition),
        ("future", refused.future),
        ("too_old", refused.too_old),
        ("flushed", refused.flushed),
        ("too_long", refused.too_long),
        ("acl_full", refused.acl_full),
        ("no_entry", refused.no_entry),
        ("exists", refused.exists),
        ("parts_full", refused.parts_full),
        ("named", refused.named),
        ("names_spent", refused.names_spent),
        ("over_budget", refused.over_budget),
        ("bad_range", refused.bad_range),
        ("no_memory", refused.no_memory),
    ];
    write_number("replies_total", "Requests that were replied.", all, f)?;
    write_each(
        "refusals_total",
        "kind",
        "Those that were refused.",
        &kinds,
        f,
    )
}

/// What the records of principals take.
fn write_records<W: Write>(each: &[LeftBy], f: &mut Formatter<W>) -> fmt::Result {
    write_head(
        "record_bytes",
        "What records take that aren't cut, by principal.",
        f,
    )?;
    for left in each {
        writeln!(
            f,
            "visorgal_record_bytes{{who=\"{}\"}} {}",
            left.who, left.bytes
        )?;
    }
    Ok(())
}

/// The journal.
fn write_journal<W: Write>(journal: &JournalStatus, f: &mut Formatter<W>) -> fmt::Result {
    let files = [
        ("records", journal.bytes),
        ("calls", journal.calls.bytes),
        ("connections", journal.connections.bytes),
    ];
    write_number(
        "journal_start",
        "The number of the start.",
        journal.start,
        f,
    )?;
    write_each("journal_bytes", "file", "What the journal has.", &files, f)?;
    let behind = journal.behind;
    write_time(
        "journal_behind_seconds",
        "No record waits longer for it.",
        behind,
        f,
    )?;
    let fails = u64::from(journal.fails);
    write_number(
        "journal_fails",
        "Whether it can't be written now.",
        fails,
        f,
    )
}
