//! The threads of a server.

ghost use Rattle.std.specs.Prelude.{◌≡◌};

use crate::context::Context;
use crate::cutting::Cutter;
use crate::quiet::find_quiet;
use crate::reloads::reload;
use crate::sweeping::{SWEEPING, sweep_round};
use crate::upkeep::Upkeep;
use crate::workers::Worker;
use s4_jobs::{Jobs, Seat};
use s4_keeping::Keeper;
use s4_logins::Reloading;
use s4_pool::Names;
use s4_settings::Settings;
use s4_sockets::{Connection, Door, Ticks, accept_all, wake_all};
use s4_status::{Summing, Telling};
use std::sync::Wait;
use std::sync::atomic::{AtomicBool, Ordering};
use std::thread;
use std::thread::Threads;
use std::time::{Clock, Duration};

/// How long a round of a thread takes at least, in milliseconds. So often it is looked for idle peers.
const REST: u64 = 100;

/// Serves connections, sweeps and looks after files meanwhile, until the last connection has ended.
pub(crate) fn run_threads<
    R: Threads + Wait + Clock + Eprint + Sync,
    C: Ticks,
    N: Names + Send + Sync,
>(
    context: &Context<'_, R, C, N>,
    settings: &Settings,
    door: Door<'_, R>,
    jobs: &Jobs<Connection>,
    seat: Seat<Connection>,
    workers: &mut [Worker<'_, R, C, N>],
    reloading: Reloading<'_>,
    keeper: Option<Keeper>,
)
    requires seat { seat.queue ≡ jobs.now.queue }
{
    let flag = AtomicBool::new(false);
    let ended = &flag;
    thread::join(
        context.rt,
        || -> ()
            requires { seat.queue ≡ jobs.now.queue }
        { serve_to_the_end(context, settings, door, jobs, seat, workers, ended) },
        || look_after(context, reloading, keeper, ended),
    );
}

/// Sweeps in one thread, and looks after files in others.
fn look_after<R: Threads + Wait + Clock + Eprint + Sync, C: Ticks, N: Names + Send + Sync>(
    context: &Context<'_, R, C, N>,
    reloading: Reloading<'_>,
    keeper: Option<Keeper>,
    ended: &AtomicBool,
) {
    thread::join(
        context.rt,
        || sweep_to_the_end(context, ended),
        || look_after_files(context, reloading, keeper, ended),
    );
}

/// Keeps the journal in one thread, and looks after the other files in another, so that no disk holds up
/// who may log in, nor the end.
fn look_after_files<R: Threads + Wait + Clock + Eprint + Sync, C: Ticks, N: Names + Send + Sync>(
    context: &Context<'_, R, C, N>,
    mut reloading: Reloading<'_>,
    mut keeper: Option<Keeper>,
    ended: &AtomicBool,
) {
    thread::join(
        context.rt,
        || keep_to_the_end(context, &mut keeper, ended),
        || look_to_the_end(context, &mut reloading, ended),
    );
}

/// Accepts connections in one thread, and has each worker serve them in another.
fn serve_to_the_end<R: Threads + Wait + Clock + Eprint + Sync, C: Ticks, N: Names + Send + Sync>(
    context: &Context<'_, R, C, N>,
    settings: &Settings,
    mut door: Door<'_, R>,
    jobs: &Jobs<Connection>,
    mut seat: Seat<Connection>,
    workers: &mut [Worker<'_, R, C, N>],
    ended: &AtomicBool,
)
    requires { seat.queue ≡ jobs.now.queue }
{
    thread::join(
        context.rt,
        || work_all(context, workers),
        || -> ()
            requires { seat.queue ≡ jobs.now.queue }
        { accept_to_the_end(context, settings, &mut door, jobs, &mut seat) },
    );
    ended.store(true, Ordering::SeqCst);
}

/// Accepts connections, and tells the workers of the last one.
fn accept_to_the_end<R: Wait + Clock, C: Ticks, N: Names>(
    context: &Context<'_, R, C, N>,
    settings: &Settings,
    door: &mut Door<'_, R>,
    jobs: &Jobs<Connection>,
    seat: &mut Seat<Connection>,
)
    requires { seat.old.queue ≡ jobs.now.queue }
{
    if context.board.start.is_made(context.rt) {
        accept_all(
            context.rt,
            context.clock,
            door,
            jobs,
            seat,
            settings.connections,
        );
    }
    context.board.accepted.store(true, Ordering::SeqCst);
    wake_all(context.posts);
}

/// Has each worker serve connections in a thread of its own, to the end.
fn work_all<R: Threads + Wait + Clock + Sync, C: Ticks, N: Names + Send + Sync>(
    context: &Context<'_, R, C, N>,
    workers: &mut [Worker<'_, R, C, N>],
) {
    let count = workers.len();
    if count > 0 {
        thread::for_each_mut(context.rt, workers, count, &|_, worker| worker.run());
    }
}

/// Sweeps round by round, and once more at the end. At each round it tells the time, and has the
/// workers look after their peers. Where the server cuts, cells that nobody asks are found, which
/// would hold that up, and what is due is cut.
fn sweep_to_the_end<R: Wait + Clock + Eprint, C: Ticks, N: Names>(
    context: &Context<'_, R, C, N>,
    ended: &AtomicBool,
) {
    if !context.board.start.is_made(context.rt) {
        return;
    }
    let mut cutter = Cutter::new();
    for _ in context.rt.forever() {
        let is_last = ended.load(Ordering::SeqCst);
        let now = context.clock.moment().tick();
        context.board.time.store(now, Ordering::SeqCst);
        wake_all(context.posts);
        sweep_round(context, now);
        if context.cuts {
            find_quiet(context);
            cutter.cut(context, now);
        }
        if is_last {
            return;
        }
        let passed = context.clock.moment().tick().saturating_sub(now);
        let rest = REST.saturating_sub(passed).max(SWEEPING);
        thread::sleep(context.rt, Duration::from_millis(rest));
    }
}

/// Looks after the server's files, round by round, until nothing more is written into its journal: whether
/// it is to end, whether the logins have changed, and what is told of it.
fn look_to_the_end<R: Wait + Clock + Eprint, C: Ticks, N: Names>(
    context: &Context<'_, R, C, N>,
    reloading: &mut Reloading<'_>,
    ended: &AtomicBool,
) {
    if !context.board.start.is_made(context.rt) {
        return;
    }
    let Upkeep {
        files,
        status,
        status_text,
        sums,
        ..
    } = context.upkeep;
    let mut telling = Telling::new(*files, *status, *status_text);
    let mut summing = Summing::new(*files, *sums);
    for _ in context.rt.forever() {
        let is_kept = context.board.is_kept.load(Ordering::SeqCst);
        let is_last = is_kept && ended.load(Ordering::SeqCst);
        let now = context.clock.moment().tick();
        if context.upkeep.is_over() {
            context.lobby.end();
        }
        reload(context, reloading, now);
        telling.tell(context.rt, context, now);
        let kept = context.board.journal(context.rt);
        summing.add(context.rt, kept, now, is_last);
        if is_last {
            return;
        }
        thread::sleep(context.rt, Duration::from_millis(REST));
    }
}

/// Has the journal kept to the end, and says then how far it is.
fn keep_to_the_end<R: Wait + Clock + Eprint, C: Ticks, N: Names>(
    context: &Context<'_, R, C, N>,
    keeper: &mut Option<Keeper>,
    ended: &AtomicBool,
) {
    if context.board.start.is_made(context.rt) {
        if let Some(keeper) = keeper {
            keep(context, keeper, ended);
            keeper.tell(context.rt, context.alloc);
        }
    }
    context.board.is_kept.store(true, Ordering::SeqCst);
}

/// Has the keeper of a journal take piece after piece, and rest where nothing more is there: once more when
/// all connections have ended.
fn keep<R: Wait + Clock + Eprint, C: Ticks, N: Names>(
    context: &Context<'_, R, C, N>,
    keeper: &mut Keeper,
    ended: &AtomicBool,
) {
    let mut is_last = false;
    for _ in context.rt.forever() {
        keep_piece(context, keeper, is_last);
        if keeper.has_more() {
            continue;
        }
        if is_last {
            return;
        }
        is_last = ended.load(Ordering::SeqCst);
        if !is_last {
            thread::sleep(context.rt, Duration::from_millis(REST));
        }
    }
}

/// Has the keeper of a journal take a piece, and notes how far the journal is, and is known to last.
fn keep_piece<R: Wait + Clock + Eprint, C: Ticks, N: Names>(
    context: &Context<'_, R, C, N>,
    keeper: &mut Keeper,
    is_last: bool,
) {
    let now = context.clock.moment().tick();
    if let Some(kept) = keeper.keep(context.rt, context, now, is_last) {
        context.board.kept.store(kept, Ordering::SeqCst);
    }
    context.board.tell_journal(context.rt, keeper.kept());
}
