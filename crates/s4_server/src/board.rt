//! What the threads of a server tell each other.

ghost use Rattle.std.specs.Prelude.{◌≡◌, ◌-◌, ◌^◌, true, false};

use crate::start::Start;
use s4_keeping::{Kept, LoginsChange, Notebook};
use s4_status::{LoginsStatus, Tally};
use s4_types::{Moment, NoMemory};
use std::alloc::Global;
use std::sync::atomic::{AtomicBool, AtomicU64, Ordering};
use std::sync::{Mutex, Wait};

/// Where each thread of a server reads what the others wrote.
#[derive(Drop)]
pub(crate) struct Board {
    /// The milliseconds since 1970 when the server began.
    pub(crate) began: u64,
    /// The login table by which it goes.
    logins: Mutex<LoginsStatus>,
    /// Where the threads wait for each other at the begin.
    pub(crate) start: Start,
    /// No more connections are accepted.
    pub(crate) accepted: AtomicBool,
    /// The time at which the sweeper began its round, in milliseconds.
    pub(crate) time: AtomicU64,
    /// The cells in which a worker is to ask, since nobody did for long: a bit each.
    pub(crate) quiet: AtomicU64,
    /// The moment of the last request that was refused, since records of its principal took all the memory
    /// that they may; 0 where none was.
    pub(crate) full: AtomicU64,
    /// What is counted.
    pub(crate) tally: Tally,
    /// What is left for the keeper of a journal.
    pub(crate) notebook: Notebook,
    /// Before this moment no record is missing in the journal, as far as that is known to last; the
    /// greatest moment where none is kept.
    pub(crate) kept: AtomicU64,
    /// The records before this moment are written into the journal, whether they last or not; the greatest
    /// moment where none is kept, or none can be written now.
    written: AtomicU64,
    /// How far the journal is; none where none is kept.
    journal: Mutex<Option<Kept>>,
    /// Nothing more is written into the journal.
    pub(crate) is_kept: AtomicBool,
    /// The records before this moment went, of all cells.
    pub(crate) cut: AtomicU64,
    /// The greatest moment to which a cell was cut, or was to be.
    pub(crate) ahead: AtomicU64,
}

impl Board {
    /// The board of a server of so many workers that begins now, so many milliseconds since 1970, and whose
    /// journal is so far, where it keeps one.
    pub(crate) fn new(
        alloc: Global,
        workers: u64,
        now: u64,
        began: u64,
        journal: Option<Kept>,
    ) -> Result<Board, NoMemory> {
        let keeps = journal.is_some();
        let written = journal.as_ref().map_or(u64::MAX, written_to);
        Ok(Board {
            began,
            logins: Mutex::new(LoginsStatus::of(began, LoginsChange::none(alloc))),
            start: Start::new(workers),
            accepted: AtomicBool::new(false),
            time: AtomicU64::new(now),
            quiet: AtomicU64::new(0),
            full: AtomicU64::new(0),
            tally: Tally::new(alloc)?,
            notebook: Notebook::new(alloc, workers, keeps)?,
            kept: AtomicU64::new(if keeps { 0 } else { u64::MAX }),
            written: AtomicU64::new(written),
            journal: Mutex::new(journal),
            is_kept: AtomicBool::new(false),
            cut: AtomicU64::new(0),
            ahead: AtomicU64::new(0),
        })
    }

    /// The records before this moment went, of all cells.
    pub(crate) fn cut(&self) -> Moment {
        Moment::new(self.cut.load(Ordering::SeqCst))
    }

    /// The records before this moment are written into the journal, where it is kept and can be written.
    pub(crate) fn written(&self) -> Moment {
        Moment::new(self.written.load(Ordering::SeqCst))
    }

    /// Notes how far the journal is.
    pub(crate) fn tell_journal<R: Wait>(&self, rt: &R, kept: Kept) {
        self.written.store(written_to(&kept), Ordering::SeqCst);
        *self.journal.lock(rt) = Some(kept);
    }

    /// Notes what the login table changes that is taken now.
    pub(crate) fn tell_logins<R: Wait>(&self, rt: &R, taken: LoginsStatus) {
        *self.logins.lock(rt) = taken;
    }

    /// The login table by which the server goes.
    pub(crate) fn logins<R: Wait>(&self, rt: &R) -> Result<LoginsStatus, NoMemory> {
        self.logins.lock(rt).copy()
    }

    /// How far the journal is; none where none is kept.
    pub(crate) fn journal<R: Wait>(&self, rt: &R) -> Option<Kept> {
        *self.journal.lock(rt)
    }
}

/// Up to which moment nobody waits for a journal that is so far. Where it can't be written nobody waits at
/// all: its disk may be full for long, and `--records` bounds what tenants leave meanwhile.
fn written_to(kept: &Kept) -> u64
    ensures reached { kept.now.fails ≡ false → result ≡ kept.now.reached }
    ensures fails { kept.now.fails ≡ true → result ≡ 2 ^ 64 - 1 }
{
    if kept.fails { u64::MAX } else { kept.reached }
}
