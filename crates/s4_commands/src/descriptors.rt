//! How many descriptors a server may have.

ghost use Rattle.std.specs.Prelude.{◌≡◌, ◌≤◌};

use s4_settings::Settings;
use std::fs;

/// How many descriptors a server has beside its connections and its workers: its streams, its
/// listener, what it looks at, and some more.
const OTHERS: u64 = 12;

/// How many a worker has, and he who accepts.
const EACH: u64 = 2;

/// The settings, with no more connections than those for which the system gives descriptors. Says on
/// standard error where these are fewer.
pub fn fitting<R: Eprint>(rt: &R, files: &HostRuntime, settings: &Settings) -> Settings
    ensures window { result.window ≡ settings.now.window }
    ensures cells { result.cells ≡ settings.now.cells }
    ensures workers { result.workers ≡ settings.now.workers }
    ensures fewer { result.open ≤ settings.now.open }
{
    let wanted = settings.open;
    let limit = limit(files).unwrap_or(u64::MAX);
    let open = most_open(limit, settings);
    if open < wanted {
        // Where this can't be written, nobody is told.
        let _ = eprintln!(rt;
            "s4d: --open {wanted} is lowered to {open}: the system gives {limit} descriptors"
        );
    }
    let mut fitting = *settings;
    fitting.open = open;
    fitting
}

/// How many connections may be open where the system gives so many descriptors: one at least.
fn most_open(limit: u64, settings: &Settings) -> u32
    ensures fewer { result ≤ settings.now.open }
{
    let left = limit.saturating_sub(EACH * (settings.workers + 1) + OTHERS);
    u64::from(settings.open).min(left.max(1)) as u32
}

/// How many descriptors the system gives, as far as it tells.
fn limit(files: &HostRuntime) -> Option<u64> {
    let text = fs::read_to_string(files, "/proc/self/limits").ok()?;
    let line = text
        .as_str()
        .lines()
        .find(|line| line.starts_with("Max open files"))?;
    line.split_whitespace().nth(3)?.parse().ok()
}
