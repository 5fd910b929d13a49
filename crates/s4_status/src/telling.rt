//! Where a server tells of itself.

ghost use Rattle.std.specs.Prelude.{◌≡◌, ◌++◌, None, IfOk, codes, string_bytes};

use crate::metrics::Metrics;
use crate::status::Status;
use crate::unwritten::tell_unwritten;
use s4_types::NoMemory;
use std::alloc::{AllocError, Global};
use std::fs::{File, OpenOptions};
use std::io::{ErrorKind, Write};
use std::os::unix::fs::{OpenOptionsExt, PermissionsExt};
use std::{fs, io};

/// After how many milliseconds a server tells of itself again.
const EVERY: u64 = 1000;

/// The mode of a file that its owner alone may read.
const PRIVATE: u32 = 0o600;

/// The modes that a file may have by which others may read it.
const MODES: u32 = 0o644;

/// How many bytes a page of memory has.
const PAGE: u64 = 4096;

/// Who knows how a server is.
pub trait Teller {
    /// How the server is now, whose process has so much memory. It may wait.
    fn status(&self, resident: Option<u64>) -> Result<Status, NoMemory>;
}

/// Who tells of the server in files.
#[derive(Drop)]
pub struct Telling<'a> {
    files: &'a HostRuntime,
    json: Place<'a>,
    text: Place<'a>,
    /// When it was last told, in milliseconds.
    told: Option<u64>,
}

/// A file in which it is told.
#[derive(Drop)]
struct Place<'a> {
    /// Its path; none where nothing is told there.
    path: Option<&'a str>,
    /// The last time it couldn't be told, and that was said.
    failed: bool,
}

impl<'a> Telling<'a> {
    /// Nothing was told in these files, as JSON and as text.
    pub fn new(files: &'a HostRuntime, json: Option<&'a str>, text: Option<&'a str>) -> Telling<'a>
        ensures { result.told ≡ None }
    {
        Telling {
            files,
            json: Place::new(json),
            text: Place::new(text),
            told: None,
        }
    }

    /// Tells how the server is, where there is a file for that and it is time. Where it can't, it
    /// says so on standard error, once until it can again.
    pub fn tell<R: Eprint, T: Teller>(&mut self, rt: &R, teller: &T, now: u64)
        ensures { self.old.json.path ≡ None → self.old.text.path ≡ None → self.new ≡ self.old }
    {
        let is_told = self
            .told
            .is_some_and(|told| now.saturating_sub(told) < EVERY);
        if is_told || (self.json.path.is_none() && self.text.path.is_none()) {
            return;
        }
        self.told = Some(now);
        let Telling {
            files,
            json,
            text,
            ..
        } = self;
        let alloc = files.alloc();
        let status = teller.status(resident(*files)).ok();
        let status = status.as_ref();
        json.tell(rt, *files, status.and_then(|it| json_of(alloc, it)));
        text.tell(rt, *files, status.and_then(|it| text_of(alloc, it)));
    }
}

impl<'a> Place<'a> {
    /// The file with this path, where there is one.
    fn new(path: Option<&'a str>) -> Place<'a> {
        Place {
            path,
            failed: false,
        }
    }

    /// Tells this text there, or says on standard error that it can't, once until it can again; so where
    /// there was no memory for a text.
    fn tell<R: Eprint>(&mut self, rt: &R, files: &HostRuntime, text: Option<String>)
        ensures none { self.old.path ≡ None → self.new ≡ self.old }
    {
        let Some(path) = self.path else {
            return;
        };
        let error = match text.map(|text| write(files, path, text.as_str())) {
            Some(Ok(())) => {
                self.failed = false;
                return;
            }
            Some(Err(error)) => Some(error),
            None => None,
        };
        if !self.failed {
            tell_unwritten(rt, files.alloc(), path, error);
        }
        self.failed = true;
    }
}

/// How a server is, as a line of JSON; none where there is no memory for it.
fn json_of(alloc: Global, status: &Status) -> Option<String> {
    serde_json::to_string(alloc, status).ok()
}

/// How a server is, as text; none where there is no memory for it.
fn text_of(alloc: Global, status: &Status) -> Option<String> {
    Metrics(status).to_string(alloc).ok()
}

/// Writes a text into a new file beside the one that is wanted, and has it take that one's place.
fn write(files: &HostRuntime, path: &str, text: &str) -> io::Result<()> {
    let beside = beside(files.alloc(), path)?;
    let mut file = create(files, path, beside.as_str())?;
    file.write_all(text.as_bytes())?;
    fs::rename(files, beside.as_str(), path)
}

/// That the file with this path can be written: it is no folder, and one beside it can be made, and removed
/// again.
pub fn may_write(files: &HostRuntime, path: &str) -> io::Result<()> {
    if fs::metadata(files, path).is_ok_and(|metadata| metadata.is_dir()) {
        return Err(io::Error::new(ErrorKind::IsADirectory, "it is a folder"));
    }
    let beside = beside(files.alloc(), path)?;
    create(files, path, beside.as_str())?;
    fs::remove_file(files, beside.as_str())
}

/// Makes a new file beside the one with this path, which its owner alone may read: others only where they
/// may read that one. What stood there under its name, as a link or a pipe, isn't opened.
fn create(files: &HostRuntime, path: &str, beside: &str) -> io::Result<File> {
    let mode = match fs::symlink_metadata(files, path) {
        Ok(metadata) if metadata.is_file() => metadata.permissions().mode() & MODES,
        _ => PRIVATE,
    };
    // Where it can't be removed it is there, and no new one is made.
    let _ = fs::remove_file(files, beside);
    OpenOptions::new()
        .write(true)
        .create_new(true)
        .mode(mode)
        .open(files, beside)
}

/// The path of the file that is written before it takes the place of the one with this path.
fn beside(alloc: Global, path: &str) -> Result<String, AllocError>
    ensures { IfOk result (λ beside. string_bytes beside ≡ path.now ++ codes ".new") }
{
    format!(in alloc; "{path}.new")
}

/// How many bytes of memory the process has, as far as the system tells.
fn resident(files: &HostRuntime) -> Option<u64> {
    let text = fs::read_to_string(files, "/proc/self/statm").ok()?;
    let pages: u64 = text.as_str().split(' ').nth(1)?.parse().ok()?;
    pages.checked_mul(PAGE)
}
