//! The server's clock.

ghost use Rattle.std.specs.Prelude.{◌≡◌, ◌≤◌, ◌-◌, ◌/◌, ◌^◌, min};
ghost use Rattle.std.specs.Duration.{as_nanos};

use s4_types::Moment;
use std::time::{Clock, Duration, Instant, SystemTime, UNIX_EPOCH};

/// What tells the moments at which requests are carried out.
pub trait Ticks: Sync {
    /// The time since its start.
    fn time(&self) -> Duration;

    /// The moment at such a time.
    fn moment_at(&self, time: Duration) -> Moment;

    /// The moment now.
    fn moment(&self) -> Moment {
        self.moment_at(self.time())
    }
}

/// A clock that tells the milliseconds since its start, beginning with a first moment.
#[derive(Drop)]
pub struct Stopwatch<'a, R> {
    rt: &'a R,
    start: Option<Instant>,
    /// The moment at its start.
    pub first: u64,
}

impl<'a, R: Clock> Stopwatch<'a, R> {
    /// A clock that starts now, at this moment.
    pub fn start(rt: &'a R, first: u64) -> Stopwatch<'a, R>
        ensures { result.first ≡ first }
    {
        let start = Instant::now(rt).ok();
        Stopwatch { rt, start, first }
    }
}

impl<R: Clock + Sync> Ticks for Stopwatch<'_, R> {
    /// None where the system's clock can't be read. A request is then carried out at the moment of
    /// the newest record that its front has for it.
    fn time(&self) -> Duration {
        let passed = self.start.and_then(|start| start.elapsed(self.rt).ok());
        passed.unwrap_or(Duration::ZERO)
    }

    /// The first moment, and the milliseconds since the start; the greatest moment stays.
    fn moment_at(&self, time: Duration) -> Moment
        ensures since { self.now.first ≤ result }
    {
        let passed = milliseconds(time);
        Moment::new(self.first.saturating_add(passed))
    }
}

/// The whole milliseconds of a time, as far as they fit.
fn milliseconds(time: Duration) -> u64
    ensures { result ≡ min (as_nanos time / 1000000) (2 ^ 64 - 1) }
{
    u64::try_from(time.as_millis()).unwrap_or(u64::MAX)
}

/// The milliseconds since 1970, as far as the system tells; else 0.
pub fn wall_clock<R: Clock>(rt: &R) -> u64 {
    let Ok(now) = SystemTime::now(rt) else {
        return 0;
    };
    now.duration_since(UNIX_EPOCH).map_or(0, milliseconds)
}
