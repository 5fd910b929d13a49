//! Values that have expired, which are freed.

ghost use Rattle.std.specs.Prelude.{◌≡◌};

use crate::context::Context;
use s4_pool::Names;
use s4_sockets::Ticks;
use std::sync::Wait;

/// How many values of a cell are freed at a time, while its lock is held.
const SWEPT: u64 = 256;

/// How long it is swept in a round at most, in milliseconds, where there is always more to free.
pub(crate) const SWEEPING: u64 = 10;

/// Sweeps the cells in turn, piece by piece, in a round that began at this moment, until there is no
/// more to free or the time for that is over.
pub(crate) fn sweep_round<R: Wait, C: Ticks, N: Names>(context: &Context<'_, R, C, N>, begun: u64) {
    for _ in context.rt.forever() {
        let has_more = sweep_once(context);
        let passed = context.clock.moment().tick().saturating_sub(begun);
        if !has_more || passed >= SWEEPING {
            return;
        }
    }
}

/// Frees a piece of each cell, and tells whether one may have more.
fn sweep_once<R: Wait, C, N: Names>(context: &Context<'_, R, C, N>) -> bool {
    let mut most = 0;
    for cell in 0..context.cells {
        most = context.front.sweep(context.rt, cell, SWEPT).max(most);
    }
    most == SWEPT
}
