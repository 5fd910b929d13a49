//! How a server is set up.

ghost use Rattle.std.specs.Prelude.{◌≡◌, ◌<◌, ◌≤◌};
ghost use Rattle.s4_settings.specs.Bounds.{tenants_of};

use std::net::IpAddr;

/// For how long a server has patience with a peer, in milliseconds; 0 for ever.
#[derive(Clone, Copy, PartialEq, Eq)]
pub struct Patience {
    /// With one that sends no whole frame, and takes nothing of what it is sent.
    pub idle: u64,
    /// With one that isn't welcomed, from its begin on.
    pub hello: u64,
}

/// What a server is told at its start (docs/OPERATIONS.md, "Flags").
#[derive(Clone, Copy, PartialEq, Eq)]
pub struct Settings {
    /// The window at the opening, in milliseconds.
    pub window: u64,
    /// How many cells there are, from 1 to 16.
    pub cells: usize,
    /// How many workers there are, from 1 to 8.
    pub workers: u64,
    /// After how many connections the server ends; 0 for never.
    pub connections: u32,
    pub patience: Patience,
    /// How many connections may be open.
    pub open: u32,
    /// How many of them may be open from one address; 0 where there is no bound.
    pub open_each: u32,
    /// The address from which a proxy passes connections on, where there is one.
    pub proxy: Option<IpAddr>,
    /// The moment at the start, unless the service begins now.
    pub first: u64,
    /// Whether records that no reply needs any more are cut.
    pub cuts: bool,
    /// How many bytes of records the requests of a principal may leave that aren't cut yet; none where
    /// that isn't bounded, or isn't given, and goes by the memory that is there at the start.
    pub records: Option<u64>,
    ghost some_cells: { 0 < cells },
    ghost few_cells: { cells ≤ 16 },
    ghost some_workers: { 0 < workers },
    ghost few_workers: { workers ≤ 8 },
}

impl Settings {
    /// A window of a day, four cells, four workers, no end, a minute of silence, ten seconds up to
    /// the Welcome, 1024 connections from anywhere, a clock that begins at 0, and all records kept,
    /// as many of a principal as its memory says.
    pub fn standard() -> Settings {
        Settings {
            window: 86400000,
            cells: 4,
            workers: 4,
            connections: 0,
            patience: Patience {
                idle: 60000,
                hello: 10000,
            },
            open: 1024,
            open_each: 0,
            proxy: None,
            first: 0,
            cuts: false,
            records: None,
        }
    }

    /// How many connections of others than the administrator may be welcomed at once: all but one of
    /// sixteen, and all but sixteen where there are many.
    pub fn tenants(&self) -> u32
        ensures { result ≡ tenants_of self.now.open }
    {
        self.open - (self.open / 16).min(16)
    }
}
