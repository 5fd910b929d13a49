//! Records that no reply needs any more, which are cut.

ghost use Rattle.std.specs.Prelude.{◌≡◌, ◌+◌, ◌-◌, ◌*◌, ◌/◌, ◌<◌, ◌≤◌, ◌^◌, max, min};

use crate::context::Context;
use s4_pool::Names;
use s4_sockets::Ticks;
use s4_types::Moment;
use std::sync::Wait;
use std::sync::atomic::Ordering;
use std::thread;
use std::time::{Clock, Duration, Instant};

/// Up to how many milliseconds behind the begin of a round it is cut, where there is always more.
const CUTTING: u64 = 90;

/// How long a piece of a cut is to hold a cell, in microseconds: so long its requests wait for it.
const HELD: u64 = 100;

/// How many microseconds a millisecond of records is to take, rests and all, where it isn't late: so a
/// cut goes at twice the pace of the clock.
const PACE: u64 = 500;

/// How many times as long as a piece took it is rested behind it at most.
const RESTS: u64 = 9;

/// Who cuts, cell by cell and piece by piece, so that nobody waits for long.
#[derive(Drop)]
pub(crate) struct Cutter {
    /// How far the next piece goes, in milliseconds of records.
    step: u64,
    /// Up to which moment it was to cut in the last round.
    due: u64,
    /// Whether it was to cut further before it had cut up to that.
    late: bool,
}

/// How many microseconds a piece took: in all cells, and in the one in which it took the longest.
#[derive(Drop)]
struct Took {
    all: u64,
    longest: u64,
}

impl Took {
    /// How many microseconds to rest behind it, where it is so many ahead of its pace. Who rests a good
    /// deal is seldom stopped while it holds a lock. And each cell is left to its requests at least half
    /// as long as they waited: while the other cells are cut it is.
    fn rest(&self, ahead: u64) -> u64
        ensures { result ≡ max (min ahead (9 * self.now.all))
            (self.now.longest / 2 - (self.now.all - self.now.longest)) }
    {
        let left = (self.longest / 2).saturating_sub(self.all.saturating_sub(self.longest));
        ahead.min(self.all.saturating_mul(RESTS)).max(left)
    }
}

impl Cutter {
    /// One who hasn't cut yet.
    pub(crate) fn new() -> Cutter {
        Cutter {
            step: 1,
            due: 0,
            late: false,
        }
    }

    /// Cuts the cells as far as is due now, in a round that began at this moment.
    pub(crate) fn cut<R: Wait + Clock, C: Ticks, N: Names>(
        &mut self,
        context: &Context<'_, R, C, N>,
        begun: u64,
    ) {
        let due = due_in(context, context.board.kept.load(Ordering::SeqCst));
        let from = context.board.cut.load(Ordering::SeqCst);
        if due > self.due {
            self.late = from < self.due;
            self.due = due;
        }
        let start = Instant::now(context.rt).ok();
        for _ in context.rt.forever() {
            let Some(took) = self.cut_piece(context, due) else {
                return;
            };
            let passed = context.clock.moment().tick().saturating_sub(begun);
            if passed >= CUTTING {
                return;
            }
            let rest = took.rest(self.ahead(context, from, start));
            if rest > 0 {
                thread::sleep(context.rt, Duration::from_micros(rest));
            }
        }
    }

    /// How many microseconds it is ahead of its pace, where it began at this moment then; 0 where it is
    /// late.
    fn ahead<R: Wait + Clock, C, N: Names>(
        &self,
        context: &Context<'_, R, C, N>,
        from: u64,
        start: Option<Instant>,
    ) -> u64 {
        if self.late {
            return 0;
        }
        let went = context
            .board
            .cut
            .load(Ordering::SeqCst)
            .saturating_sub(from);
        went.saturating_mul(PACE)
            .saturating_sub(since(context.rt, start))
    }

    /// Cuts each cell one piece further, and tells how long that took; none where no more is due.
    fn cut_piece<R: Wait + Clock, C, N: Names>(
        &mut self,
        context: &Context<'_, R, C, N>,
        due: u64,
    ) -> Option<Took> {
        let board = context.board;
        let before = board.cut.load(Ordering::SeqCst);
        let end = piece_end(before, self.step, due);
        if end <= before {
            return None;
        }
        board.ahead.store(end, Ordering::SeqCst);
        let mut took = Took { all: 0, longest: 0 };
        for cell in 0..context.cells {
            let begun = Instant::now(context.rt).ok();
            if !cut_cell(context, cell, end) {
                return None;
            }
            let passed = since(context.rt, begun);
            took.all = took.all.saturating_add(passed);
            took.longest = took.longest.max(passed);
        }
        board.cut.store(end, Ordering::SeqCst);
        self.step = step_after(end - before, took.longest);
        Some(took)
    }
}

/// Cuts a cell at this moment, and tells whether it is cut up to that: it always is where the cell's
/// horizon was there before, since no horizon goes down.
fn cut_cell<R: Wait, C, N: Names>(context: &Context<'_, R, C, N>, cell: usize, end: u64) -> bool
    requires { cell < context.now.front.now.cells }
{
    let cut = context.front.cut_one(context.rt, cell, Moment::new(end));
    cut.tick() >= end
}

/// How many whole microseconds have passed since then, as far as they fit; 0 where that can't be told.
fn since<R: Clock>(rt: &R, begun: Option<Instant>) -> u64 {
    let passed = begun.and_then(|begun| begun.elapsed(rt).ok());
    passed.map_or(
        0,
        |time| u64::try_from(time.as_micros()).unwrap_or(u64::MAX),
    )
}

/// Up to which moment the next piece goes, where it is cut up to one, and another is due: one step, but no
/// further than is due.
fn piece_end(before: u64, step: u64, due: u64) -> u64
    ensures due { result ≤ due }
    ensures step { result ≡ min (min (before + step) (2 ^ 64 - 1)) due }
{
    before.saturating_add(step).min(due)
}

/// How far the next piece goes, where one that went so far took so many microseconds.
fn step_after(step: u64, took: u64) -> u64
    ensures some { 0 < step → 0 < result }
    ensures quick { took < 100 → step ≤ result }
    ensures slow { 100 ≤ took → result ≤ step + 1 }
{
    if took < HELD {
        step.saturating_mul(2)
    } else {
        (step.saturating_mul(HELD) / took).max(1)
    }
}

/// Up to which moment it is to be cut, where no record before another is missing in the journal: the least
/// of that one and of the cells' horizons.
fn due_in<R: Wait, C, N: Names>(context: &Context<'_, R, C, N>, kept: u64) -> u64
    ensures { result ≤ kept }
{
    let mut due = kept;
    for cell in 0..context.cells {
        if let Some(measure) = context.front.measure(context.rt, cell) {
            due = due.min(measure.horizon.tick());
        }
    }
    due
}
