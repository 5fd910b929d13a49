//! Lines on standard error that begin with the time.

use jiff_core::civil::Date;
use s4_sockets::wall_clock;
use std::fmt::{Display, Formatter, Write};
use std::sync::Wait;
use std::thread::Threads;
use std::time::{Clock, Duration};
use std::{fmt, io};

/// How many milliseconds a day has.
const DAY: u64 = 86_400_000;

/// A system by which lines on standard error begin with the time, where that is wanted.
pub struct Stamped<'a, R> {
    rt: &'a R,
    is_wanted: bool,
}

// Written out, so that no crate above proves how it is dropped.
impl<R> Drop for Stamped<'_, R> {
    fn drop(self) {
        let Stamped {
            rt: _,
            is_wanted: _,
        } = self;
    }
}

impl<'a, R> Stamped<'a, R> {
    /// The same system, whose lines begin with the time where `is_wanted` says so.
    pub fn new(rt: &'a R, is_wanted: bool) -> Stamped<'a, R> {
        Stamped { rt, is_wanted }
    }
}

impl<R: Wait> Wait for Stamped<'_, R> {}

impl<R: Threads> Threads for Stamped<'_, R> {}

impl<R: Clock> Clock for Stamped<'_, R> {
    fn monotonic(&self) -> io::Result<Duration> {
        self.rt.monotonic()
    }

    fn since_1970(&self) -> io::Result<Duration> {
        self.rt.since_1970()
    }

    fn sleep(&self, duration: Duration) {
        self.rt.sleep(duration)
    }
}

impl<R: Eprint + Clock> Eprint for Stamped<'_, R> {
    fn eprint<D: Display + Drop>(&self, value: D) -> io::Result<()> {
        self.rt.eprint(value)
    }

    fn eprintln<D: Display + Drop>(&self, value: D) -> io::Result<()> {
        let wall = wall_clock(self.rt);
        match Date::from_unix_epoch_day((wall / DAY) as i64) {
            Ok(date) if self.is_wanted => self.rt.eprintln(Stamp {
                date,
                time: wall % DAY,
                value,
            }),
            _ => self.rt.eprintln(value),
        }
    }
}

/// A line behind its time: the milliseconds of a day, in UTC.
#[derive(Drop)]
struct Stamp<D> {
    date: Date,
    time: u64,
    value: D,
}

impl<D: Display> Display for Stamp<D> {
    fn fmt<W: Write>(&self, f: &mut Formatter<W>) -> fmt::Result {
        let Date {
            year,
            month,
            day,
            ..
        } = self.date;
        write!(f, "{year:04}-{month:02}-{day:02}T")?;
        let (seconds, rest) = (self.time / 1000, self.time % 1000);
        let (minutes, second) = (seconds / 60, seconds % 60);
        let (hour, minute) = (minutes / 60, minutes % 60);
        write!(f, "{hour:02}:{minute:02}:{second:02}.{rest:03}Z ")?;
        self.value.fmt(f)
    }
}
