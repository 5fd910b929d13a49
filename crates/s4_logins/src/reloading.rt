//! A file of logins that is read again where it has changed.

ghost use Rattle.std.specs.Prelude.{◌≡◌, ◌-◌, ◌<◌, false, IfOk, IfSome, IsErr, OnErr};
ghost use Rattle.std_alloc.specs.Arc.{arc_value};
ghost use Rattle.s4_logins.specs.Logins.{is_same_table};

use crate::fault::LoginsFault;
use crate::reading::open_guarded;
use s4_stream::Logins;
use std::alloc::Global;
use std::fs;
use std::os::unix::fs::MetadataExt;
use std::sync::Arc;
use std::time::SystemTime;

/// How a file looks from outside. A file that takes another's place may have its length, and its
/// time too, for times go in steps of some milliseconds; but it isn't the same file.
#[derive(Clone, Copy, PartialEq)]
struct Stamp {
    length: u64,
    modified: Option<SystemTime>,
    inode: u64,
}

/// Who reads the logins again where their file has changed.
pub struct Reloading<'a> {
    alloc: Global,
    /// The machine's files. They aren't those of a type parameter, since a thread looks at them.
    files: &'a HostRuntime,
    /// The path of the file of the logins.
    path: &'a str,
    /// After how many milliseconds it is looked again whether that file has changed; 0 for never.
    every: u64,
    /// The newest table that was read.
    table: Arc<Logins>,
    /// How the file looked when it was last looked at.
    stamp: Option<Stamp>,
    /// Whether it was looked at. Up to then it may have changed since the table was read.
    was_looked_at: bool,
    /// When it was last looked, in milliseconds.
    looked: u64,
}

// Written out, so that no crate above proves how a table is dropped.
impl Drop for Reloading<'_> {
    fn drop(self) {
        let Reloading {
            alloc: _,
            files: _,
            path: _,
            every: _,
            table: _,
            stamp: _,
            was_looked_at: _,
            looked: _,
        } = self;
    }
}

impl<'a> Reloading<'a> {
    /// Begins with the table that was read before the server listened. The file is looked at first when
    /// it is time: then its table is read, and compared with this one.
    pub fn new(
        alloc: Global,
        files: &'a HostRuntime,
        path: &'a str,
        every: u64,
        table: Arc<Logins>,
        now: u64,
    ) -> Reloading<'a>
        ensures table { result.table ≡ table }
        ensures looked { result.looked ≡ now }
        ensures every { result.every ≡ every }
    {
        Reloading {
            alloc,
            files,
            path,
            every,
            table,
            stamp: None,
            was_looked_at: false,
            looked: now,
        }
    }

    /// Whether it is time to look at the file, and that has changed since it was last looked at, or at
    /// first has another table than the one to begin with.
    pub fn is_due(&mut self, now: u64) -> bool
        ensures never { self.old.every ≡ 0 → result ≡ false }
        ensures early { now - self.old.looked < self.old.every → result ≡ false }
        ensures table { self.new.table ≡ self.old.table }
    {
        if self.every == 0 || now.saturating_sub(self.looked) < self.every {
            return false;
        }
        self.looked = now;
        let stamp = stamp_of(self.files, self.path);
        let has_changed = if self.was_looked_at {
            stamp != self.stamp
        } else {
            !self.has_table()
        };
        self.was_looked_at = true;
        self.stamp = stamp;
        has_changed
    }

    /// Whether the file has the newest table. Where that can't be told it hasn't.
    fn has_table(&self) -> bool {
        match open_regular(self.files, self.path) {
            Ok(logins) => is_same(self.alloc, &self.table, &logins).unwrap_or(false),
            Err(_) => false,
        }
    }

    /// Reads the logins, which are the newest table from now on, and gives that. Where they can't be
    /// had, the old table stays, and it is told why.
    pub fn read(&mut self) -> Result<Arc<Logins>, LoginsFault>
        ensures { IfOk result (λ newest. arc_value newest ≡ arc_value self.new.table) }
    {
        self.renew(open_regular(self.files, self.path))?;
        Ok(Arc::try_clone(&self.table)?)
    }

    /// Has this table as the newest one, unless it couldn't be read.
    fn renew(&mut self, read: Result<Logins, LoginsFault>) -> Result<(), LoginsFault>
        ensures good { IfOk result (λ _. IfOk read (λ table. arc_value self.new.table ≡ table)) }
        ensures bad { OnErr result (self.new.table ≡ self.old.table) }
        ensures told { IsErr read → IsErr result }
    {
        self.table = Arc::new(self.alloc, read?)?;
        Ok(())
    }
}

/// The logins of the file with that path, which is looked at first: a pipe isn't opened, since nobody may
/// ever write into it.
fn open_regular(files: &HostRuntime, path: &str) -> Result<Logins, LoginsFault> {
    match fs::metadata(files, path) {
        Ok(metadata) if metadata.is_file() => open_guarded(files, path),
        _ => Err(LoginsFault::CannotRead),
    }
}

/// Whether the newer table has the logins of the older one and no others; none where there is no memory
/// to tell it.
fn is_same(alloc: Global, older: &Logins, newer: &Logins) -> Option<bool>
    ensures { IfSome result (λ same. same ≡ is_same_table older.now newer.now) }
{
    let added = newer.missing_in(alloc, older).ok()?;
    let changed = older.changed_in(alloc, newer).ok()?;
    let removed = older.missing_in(alloc, newer).ok()?;
    Some(added.is_empty() && changed.is_empty() && removed.is_empty())
}

/// How the file with that path looks from outside; none where it can't be told.
fn stamp_of(files: &HostRuntime, path: &str) -> Option<Stamp> {
    let metadata = fs::metadata(files, path).ok()?;
    Some(Stamp {
        length: metadata.len(),
        modified: metadata.modified().ok(),
        inode: metadata.ino(),
    })
}
