//! Logins that are read again.

ghost use Rattle.std.specs.Prelude.{◌≡◌, IfOk};
ghost use Rattle.s4_stream.specs.Logins.{changed_in, missing_in};

use crate::context::Context;
use s4_causes::reason_of_logins;
use s4_keeping::LoginsChange;
use s4_logins::{LoginsFault, Reloading};
use s4_pool::Names;
use s4_sockets::{Ticks, wall_clock};
use s4_status::LoginsStatus;
use s4_stream::Logins;
use s4_types::NoMemory;
use std::alloc::Global;
use std::sync::{Arc, Wait};
use std::time::Clock;

/// Reads the logins again where it is time and they changed, and tells where they can't be had.
pub(crate) fn reload<R: Wait + Clock + Eprint, C: Ticks, N: Names>(
    context: &Context<'_, R, C, N>,
    reloading: &mut Reloading<'_>,
    now: u64,
) {
    if reloading.is_due(now) {
        if let Err(fault) = take(context, reloading) {
            tell_untaken(context, &fault);
        }
    }
}

/// Says on standard error that the logins weren't taken, and why.
fn tell_untaken<R: Eprint, C, N: Names>(context: &Context<'_, R, C, N>, fault: &LoginsFault) {
    let upkeep = context.upkeep;
    // Where this can't be written, nobody is told.
    let _ = match reason_of_logins(upkeep.files, upkeep.logins, fault) {
        Ok(reason) => eprintln!(context.rt; "s4d: {fault}: {}", reason.as_str()),
        Err(_) => eprintln!(context.rt; "s4d: {fault}"),
    };
}

/// Takes the logins that are read, and leaves word of what they change: where there is no memory for that,
/// the old ones stay.
fn take<R: Wait + Clock, C: Ticks, N: Names>(
    context: &Context<'_, R, C, N>,
    reloading: &mut Reloading<'_>,
) -> Result<(), LoginsFault> {
    let newer = reloading.read()?;
    let moment = context.clock.moment().tick();
    match told(context, &newer, moment) {
        Ok(taken) => {
            context.lobby.replace(newer);
            context.board.tell_logins(context.rt, taken);
            Ok(())
        }
        Err(NoMemory) => Err(LoginsFault::NoMemory),
    }
}

/// Leaves word in the journal of what these logins change, which are taken at this moment. Gives what the
/// status tells of it.
fn told<R: Wait + Clock, C, N: Names>(
    context: &Context<'_, R, C, N>,
    newer: &Logins,
    moment: u64,
) -> Result<LoginsStatus, NoMemory> {
    let older: Arc<Logins> = context.lobby.logins()?;
    let newest = change_of(context.alloc, &older, newer)?;
    let noted = newest.copy()?;
    context
        .board
        .notebook
        .note_logins(context.rt, moment, noted)?;
    Ok(LoginsStatus::of(wall_clock(context.rt), newest))
}

/// What a login table changes that takes the place of an older one.
fn change_of(alloc: Global, older: &Logins, newer: &Logins) -> Result<LoginsChange, NoMemory>
    ensures added { IfOk result (λ change. change.added.items ≡ missing_in newer.now older.now) }
    ensures changed { IfOk result
        (λ change. change.changed.items ≡ changed_in older.now newer.now) }
    ensures removed { IfOk result
        (λ change. change.removed.items ≡ missing_in older.now newer.now) }
{
    Ok(LoginsChange {
        added: newer.missing_in(alloc, older)?,
        changed: older.changed_in(alloc, newer)?,
        removed: older.missing_in(alloc, newer)?,
    })
}
