//! Arrivals on a fresh hall: the first ones all at once, and the others one by one.

ghost use Rattle.std.specs.Prelude.{◌↔◌, IsTrue};
ghost use Rattle.s4_session.specs.Arrivals.{NeverDown};
ghost use Rattle.s4_session.specs.Halls.{IsFresh};

use crate::texts::{input, invalid, utf8, well};
use s4_script::{ArrivalLine, SentText, UsedText, parse_arrival, parse_number, parse_window};
use s4_session::{Hall, HallStep, Logins};
use s4_types::Moment;
use std::alloc::Global;
use std::{fs, io};

/// Tells what a hall of the logins in this file sends that is given so many arrivals of standard input at
/// once, and then the others one by one; and what it holds then and behind each of these.
pub fn tell(rt: &HostRuntime, logins: &str, count: &str) -> io::Result<()> {
    let alloc = rt.alloc();
    let count = well(parse_number(count))?;
    let logins = well(Logins::read(alloc, &fs::read(rt, logins)?))?;
    let arrivals = input(rt)?;
    let mut lines = utf8(&arrivals)?.lines();
    let window = parse_window(alloc, lines.next().unwrap_or("").as_bytes());
    let window = well(window)?;
    let mut steps = Vec::new(alloc);
    for line in lines {
        steps.push(step_of(well(parse_arrival(alloc, line.as_bytes()))?))?;
    }
    let mut told = String::new(alloc);
    give(
        &mut Hall::open(alloc, window, logins),
        &steps,
        count,
        &mut told,
    )?;
    print!(rt; "{told}")
}

fn step_of(line: ArrivalLine) -> HallStep {
    match line {
        ArrivalLine::Arrive {
            moment,
            conn,
            piece,
        } => HallStep::Arrive {
            conn,
            moment,
            piece,
        },
        ArrivalLine::Sweep { n } => HallStep::Sweep { n },
    }
}

/// Gives a fresh hall so many of these steps all at once, and then the others.
fn give(hall: &mut Hall, steps: &[HallStep], count: usize, told: &mut String) -> io::Result<()>
    requires { IsFresh hall.old }
{
    let (first, others) = steps.split_at(count.min(steps.len()));
    if !never_down(first) {
        return Err(invalid());
    }
    for (conn, bytes) in &hall.run(first)? {
        writeln!(told, "{}", SentText(*conn, bytes))?;
    }
    writeln!(told, "{}", UsedText(hall.used()))?;
    for step in others {
        give_one(hall, step, told)?;
        writeln!(told, "{}", UsedText(hall.used()))?;
    }
    Ok(())
}

/// Gives a hall a step.
fn give_one(hall: &mut Hall, step: &HallStep, told: &mut String) -> io::Result<()> {
    match step {
        HallStep::Arrive {
            conn,
            moment,
            piece,
        } if hall.last() <= *moment => {
            let bytes = hall.arrive(*conn, *moment, piece.as_slice())?;
            Ok(writeln!(told, "{}", SentText(*conn, &bytes))?)
        }
        HallStep::Arrive { .. } => Err(invalid()),
        HallStep::Sweep { n } => Ok(writeln!(told, "freed {}", hall.sweep(*n))?),
    }
}

/// Whether the moments of the arrivals never go down.
fn never_down(steps: &[HallStep]) -> bool
    ensures { IsTrue result ↔ NeverDown 0 steps.now }
{
    let mut last = Moment::new(0);
    for step in steps {
        match step {
            HallStep::Arrive { moment, .. } => {
                if *moment < last {
                    return false;
                }
                last = *moment;
            }
            HallStep::Sweep { .. } => {}
        }
    }
    true
}
