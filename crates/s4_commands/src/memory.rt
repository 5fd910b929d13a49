//! How much memory the records of a principal may take.

ghost use Rattle.std.specs.Prelude.{◌≡◌, ◌/◌, max, IfSome};

use s4_script::{NumberedLines, read_file};
use s4_settings::Settings;
use std::fs;

/// The most bytes of the file of logins.
const FILE_LIMIT: u32 = 268435456;

/// How many bytes are of one of the system's units.
const UNIT: u64 = 1024;

/// The settings, with a bound for the records that the requests of a principal leave, whose logins are in
/// the file of this path. Where none is given it is half of the memory that is there, by the number of
/// the logins; where that can't be told there is none.
pub fn fitting(files: &HostRuntime, settings: Settings, logins: &str) -> Settings
    ensures window { result.window ≡ settings.window }
    ensures cells { result.cells ≡ settings.cells }
    ensures workers { result.workers ≡ settings.workers }
    ensures given { IfSome settings.records (λ _. result.records ≡ settings.records) }
{
    let mut fitting = settings;
    if settings.records.is_none() {
        fitting.records = bound(files, logins);
    }
    fitting
}

/// The bound of a principal's records, where none is given and it can be told.
fn bound(files: &HostRuntime, logins: &str) -> Option<u64> {
    let text = read_file(files, logins, FILE_LIMIT).ok()?;
    Some(part_of(available(files)?, lines_in(text.as_slice())))
}

/// How many lines a text has.
fn lines_in(text: &[u8]) -> u64 {
    let mut lines = 0;
    for (number, _) in NumberedLines::of(text) {
        lines = number as u64;
    }
    lines
}

/// What each of so many principals may have of so many bytes of memory: half of it is for all that isn't
/// a record.
fn part_of(memory: u64, principals: u64) -> u64
    ensures { result ≡ max (memory / 2 / max principals 1) 1 }
{
    (memory / 2 / principals.max(1)).max(1)
}

/// How many bytes of memory are there that nobody uses, or that can be had, as far as the system tells.
fn available(files: &HostRuntime) -> Option<u64> {
    let text = fs::read_to_string(files, "/proc/meminfo").ok()?;
    let line = text
        .as_str()
        .lines()
        .find(|line| line.starts_with("MemAvailable:"))?;
    let units: u64 = line.split_whitespace().nth(1)?.parse().ok()?;
    units.checked_mul(UNIT)
}
