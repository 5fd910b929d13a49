//! Cells that nobody asks.

ghost use Rattle.std.specs.Prelude.{◌↔◌, ◌+◌, ◌-◌, ◌<◌, ◌/◌, max, IsTrue};

use crate::context::Context;
use crate::desk::Desk;
use s4_pool::{MOST_CELLS, Names};
use s4_sockets::Ticks;
use s4_talk::Answer;
use s4_types::{Caller, Moment, Principal, Request, WireVersion};
use std::sync::Wait;
use std::sync::atomic::Ordering;

/// Into how many parts a window is cut: a cell may be one of them behind the cell that was asked
/// last.
const PARTS: u64 = 20;

/// How far a cell may be behind it in any case, in milliseconds: rounds come ten times as often.
const LEAST: u64 = 1000;

/// Has a worker ask in each cell that is behind, since it would hold up what is cut. A request that was
/// refused for want of room counts as one that was asked: else nobody who is alone would have room again.
pub(crate) fn find_quiet<R: Wait, C, N: Names>(context: &Context<'_, R, C, N>) {
    let full = context.board.full.load(Ordering::SeqCst);
    let mut newest = full;
    let mut horizon = 0;
    for cell in 0..context.cells {
        if let Some(measure) = context.front.measure(context.rt, cell) {
            newest = newest.max(measure.last.tick());
            horizon = horizon.max(measure.horizon.tick());
        }
    }
    // Until a window is over no cell holds anything up; but who has no room for records waits for that.
    if horizon == 0 && full == 0 {
        return;
    }
    let mut quiet = 0;
    for cell in 0..context.cells {
        let last = context
            .front
            .measure(context.rt, cell)
            .map_or(0, |measure| measure.last.tick());
        if is_behind(last, newest, horizon) {
            quiet |= bit(cell);
        }
    }
    context.board.quiet.store(quiet, Ordering::SeqCst);
}

/// Whether a cell whose newest record has the moment `last` is behind the cells' newest record, by
/// which their greatest horizon is that one.
fn is_behind(last: u64, newest: u64, horizon: u64) -> bool
    ensures { IsTrue result ↔ (last + max ((newest - horizon) / 20) 1000 < newest) }
{
    let window = newest.saturating_sub(horizon);
    let allowed = (window / PARTS).max(LEAST);
    last.saturating_add(allowed) < newest
}

/// The bit of a cell; none where there are no such cells.
fn bit(cell: usize) -> u64 {
    if cell < MOST_CELLS { 1 << cell } else { 0 }
}

/// Asks in each cell that was found behind: the administrator, for the partitions of a principal
/// there at a moment that isn't yet. That is answered Future, looks nothing up, and leaves a record,
/// so the cell's horizon moves on.
pub(crate) fn move_on<R: Wait, C: Ticks, N: Names>(desk: &mut Desk<'_, R, C, N>) {
    let context = desk.context;
    let quiet = context.board.quiet.swap(0, Ordering::SeqCst);
    if quiet == 0 {
        return;
    }
    desk.connection = 0;
    for cell in 0..MOST_CELLS {
        if quiet & bit(cell) != 0 && !is_asked(context, cell) {
            if let Some(range) = Principal::new(cell as u32) {
                desk.answer(steward(), in_the_future(range));
            }
        }
    }
}

/// Whether the cell was asked meanwhile: as when a worker asked there while it was looked for.
fn is_asked<R: Wait, C: Ticks, N: Names>(context: &Context<'_, R, C, N>, cell: usize) -> bool {
    let now = context.clock.moment().tick();
    context
        .front
        .measure(context.rt, cell)
        .is_none_or(|measure| measure.last.tick().saturating_add(LEAST) >= now)
}

/// Who asks there.
fn steward() -> Caller {
    Caller {
        who: Principal::administrator(),
        client: 0,
        version: WireVersion::One,
    }
}

/// What is asked there.
fn in_the_future(range: Principal) -> Request {
    Request::PList {
        range,
        after: None,
        at: Some(Moment::new(u64::MAX)),
    }
}
