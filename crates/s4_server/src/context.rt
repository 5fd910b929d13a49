//! What the threads of a server share.

ghost use Rattle.std.specs.Prelude.{◌≡◌};

use crate::board::Board;
use crate::upkeep::Upkeep;
use s4_keeping::{Notebook, Source, Stretch};
use s4_pool::{Front, Names, OpenGate};
use s4_settings::VERSION;
use s4_sockets::{Lobby, Post, Ticks};
use s4_status::{CellStatus, Connections, JournalStatus, Refusals, Status, Teller};
use s4_types::NoMemory;
use std::alloc::Global;
use std::sync::Wait;
use std::sync::atomic::Ordering;

/// What the threads of a server share.
#[derive(Drop)]
pub(crate) struct Context<'a, R, C, N: Names> {
    pub(crate) rt: &'a R,
    pub(crate) alloc: Global,
    pub(crate) clock: &'a C,
    pub(crate) front: &'a Front<OpenGate, N>,
    /// How many cells the front has.
    pub(crate) cells: usize,
    pub(crate) upkeep: &'a Upkeep<'a>,
    /// The window at the start, in milliseconds.
    pub(crate) window: u64,
    /// The port at which the server listens; 0 where that can't be told.
    pub(crate) port: u16,
    /// Where connections are left for the workers.
    pub(crate) posts: &'a [Post],
    /// What connections go by.
    pub(crate) lobby: &'a Lobby<'a, R>,
    /// What the threads tell each other.
    pub(crate) board: &'a Board,
    /// Whether records that no reply needs any more are cut.
    pub(crate) cuts: bool,
    pub(crate) ghost same: { cells ≡ front.now.cells },
}

impl<R: Wait, C, N: Names> Source for Context<'_, R, C, N> {
    fn records(&self, cell: usize, place: u64, most: usize) -> Result<Option<Stretch>, NoMemory> {
        let found = self.front.records_since(self.rt, cell, place, most)?;
        match found {
            Some(found) => Ok(Some(Stretch {
                first: found.first,
                records: found.records,
            })),
            None => Ok(None),
        }
    }

    fn notebook(&self) -> &Notebook {
        &self.board.notebook
    }

    fn files(&self) -> &HostRuntime {
        self.upkeep.files
    }
}

impl<R: Wait, C: Ticks, N: Names> Teller for Context<'_, R, C, N> {
    fn status(&self, resident: Option<u64>) -> Result<Status, NoMemory> {
        let kept = self.board.journal(self.rt);
        let now = self.board.time.load(Ordering::SeqCst);
        let moment = self.clock.moment().tick();
        let mut status = Status {
            version: VERSION,
            began: self.board.began,
            moment,
            window: self.window,
            port: self.port,
            resident_bytes: resident,
            connections: Connections::of(self.alloc, self.posts, self.lobby)?,
            failed_logins: self.lobby.failed_logins(self.alloc, now)?,
            logins: self.board.logins(self.rt)?,
            records: 0,
            values: 0,
            cells: Vec::new(self.alloc),
            replies: 0,
            refusals: Refusals::of(&self.board.tally),
            record_bytes: self.lobby.records_left(self.alloc, self.board.cut())?,
            journal: match kept {
                Some(kept) => Some(JournalStatus::of(self.alloc, kept, moment)?),
                None => None,
            },
        };
        self.add_cells(&mut status)?;
        status.add_replies(&self.board.tally);
        Ok(status)
    }
}

impl<R: Wait, C, N: Names> Context<'_, R, C, N> {
    /// Adds what the cells hold.
    fn add_cells(&self, status: &mut Status) -> Result<(), NoMemory> {
        for cell in 0..self.cells {
            if let Some(measure) = self.front.measure(self.rt, cell) {
                status.add_cell(CellStatus {
                    records: measure.records,
                    values: measure.values,
                    last: measure.last.tick(),
                    horizon: measure.horizon.tick(),
                })?;
            }
        }
        Ok(())
    }
}
