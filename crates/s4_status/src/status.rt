//! What a server tells of itself (docs/OPERATIONS.md, "Status").

ghost use Rattle.std.specs.Prelude.{◌≡◌, ◌+◌, ◌-◌, ◌^◌, ◌++◌, ◌∷◌, [], min, OnOk};

use crate::journal::JournalStatus;
use crate::tally::{KINDS, Tally};
use s4_keeping::LoginsChange;
use s4_sockets::{FailedLogins, LeftBy, Lobby, OpenFrom, OpenOf, Post, States};
use s4_types::NoMemory;
use serde::Serialize;
use std::alloc::Global;
use std::sync::Wait;

/// What a server tells of itself at a moment.
#[derive(Serialize)]
pub struct Status {
    /// The program's version.
    pub version: &'static str,
    /// The milliseconds since 1970 when it began.
    pub began: u64,
    pub moment: u64,
    /// The window at the start, in milliseconds.
    pub window: u64,
    /// The port at which it listens.
    pub port: u16,
    /// How many bytes of memory the process has, as far as the system tells.
    pub resident_bytes: Option<u64>,
    pub connections: Connections,
    pub failed_logins: FailedLogins,
    pub logins: LoginsStatus,
    pub records: u64,
    pub values: u64,
    pub cells: Vec<CellStatus>,
    pub replies: u64,
    pub refusals: Refusals,
    /// How many bytes the records take that each principal's requests left, of those that left any.
    pub record_bytes: Vec<LeftBy>,
    /// How far its journal is, where it keeps one.
    pub journal: Option<JournalStatus>,
}

// Written out, so that no crate above proves how its parts are dropped.
impl Drop for Status {
    fn drop(self) {
        let Status {
            version: _,
            began: _,
            moment: _,
            window: _,
            port: _,
            resident_bytes: _,
            connections: _,
            failed_logins: _,
            logins: _,
            records: _,
            values: _,
            cells: _,
            replies: _,
            refusals: _,
            record_bytes: _,
            journal: _,
        } = self;
    }
}

/// The connections of a server.
#[derive(Drop, Serialize)]
pub struct Connections {
    /// Those that were ever accepted and let in.
    pub accepted: u64,
    /// Those that were closed, since there was no place for them.
    pub turned_away: u64,
    /// Those that are open.
    pub open: u64,
    /// The open ones that aren't welcomed.
    pub greeting: u64,
    /// The open ones that are welcomed.
    pub welcomed: u64,
    /// The open ones that were told their end.
    pub leaving: u64,
    /// Of which principals the most are welcomed.
    pub principals: Vec<OpenOf>,
    /// From which addresses the most are open.
    pub addresses: Vec<OpenFrom>,
}

/// The login table of a server.
#[derive(Drop, Serialize)]
pub struct LoginsStatus {
    /// The milliseconds since 1970 when it was read.
    pub read: u64,
    /// What it changed, where it took another one's place.
    pub added: Vec<u32>,
    pub changed: Vec<u32>,
    pub removed: Vec<u32>,
}

impl LoginsStatus {
    /// A table that was read then, and changed that.
    pub fn of(read: u64, change: LoginsChange) -> LoginsStatus {
        let LoginsChange {
            added,
            changed,
            removed,
        } = change;
        LoginsStatus {
            read,
            added,
            changed,
            removed,
        }
    }

    /// The same once more.
    pub fn copy(&self) -> Result<LoginsStatus, NoMemory> {
        let added: Result<_, _> = self.added.clone();
        let changed: Result<_, _> = self.changed.clone();
        let removed: Result<_, _> = self.removed.clone();
        Ok(LoginsStatus {
            read: self.read,
            added: added?,
            changed: changed?,
            removed: removed?,
        })
    }
}

/// A cell of a server.
#[derive(Drop, Serialize)]
pub struct CellStatus {
    pub records: u64,
    pub values: u64,
    /// The moment of the newest record.
    pub last: u64,
    pub horizon: u64,
}

/// How many refusals a server replied, by kind.
#[derive(Drop, Serialize)]
pub struct Refusals {
    pub denied: u64,
    pub no_object: u64,
    pub no_partition: u64,
    pub future: u64,
    pub too_old: u64,
    pub flushed: u64,
    pub too_long: u64,
    pub acl_full: u64,
    pub no_entry: u64,
    pub exists: u64,
    pub parts_full: u64,
    pub named: u64,
    pub names_spent: u64,
    pub over_budget: u64,
    pub bad_range: u64,
    pub no_memory: u64,
}

impl Refusals {
    /// Those that were counted.
    pub fn of(tally: &Tally) -> Refusals {
        Refusals {
            denied: tally.replies(1),
            no_object: tally.replies(2),
            no_partition: tally.replies(3),
            future: tally.replies(4),
            too_old: tally.replies(5),
            flushed: tally.replies(6),
            too_long: tally.replies(7),
            acl_full: tally.replies(8),
            no_entry: tally.replies(9),
            exists: tally.replies(10),
            parts_full: tally.replies(11),
            named: tally.replies(12),
            names_spent: tally.replies(13),
            over_budget: tally.replies(14),
            bad_range: tally.replies(15),
            no_memory: tally.replies(16),
        }
    }
}

impl Connections {
    /// Those that the workers were given.
    pub fn of<R: Wait>(
        alloc: Global,
        posts: &[Post],
        lobby: &Lobby<'_, R>,
    ) -> Result<Connections, NoMemory> {
        let principals = lobby.open_of(alloc)?;
        let addresses = lobby.open_from(alloc)?;
        let mut all = Connections {
            accepted: 0,
            turned_away: lobby.turned_away(),
            open: 0,
            greeting: 0,
            welcomed: 0,
            leaving: 0,
            principals,
            addresses,
        };
        for post in posts {
            let States {
                greeting,
                welcomed,
                leaving,
                ..
            } = post.states();
            all.accepted = all.accepted.saturating_add(post.given());
            all.open = all.open.saturating_add(post.open());
            all.greeting = all.greeting.saturating_add(greeting);
            all.welcomed = all.welcomed.saturating_add(welcomed);
            all.leaving = all.leaving.saturating_add(leaving);
        }
        Ok(all)
    }
}

impl Status {
    /// Adds what a cell holds.
    pub fn add_cell(&mut self, cell: CellStatus) -> Result<(), NoMemory>
        ensures cells { OnOk result (self.new.cells.items ≡ self.old.cells.items ++ cell ∷ []) }
        ensures records { self.new.records ≡ min (self.old.records + cell.records) (2 ^ 64 - 1) }
        ensures values { self.new.values ≡ min (self.old.values + cell.values) (2 ^ 64 - 1) }
    {
        self.records = self.records.saturating_add(cell.records);
        self.values = self.values.saturating_add(cell.values);
        self.cells.push(cell)?;
        Ok(())
    }

    /// Adds up all replies.
    pub fn add_replies(&mut self, tally: &Tally) {
        for number in 0..KINDS {
            self.replies = self.replies.saturating_add(tally.replies(number));
        }
    }
}
