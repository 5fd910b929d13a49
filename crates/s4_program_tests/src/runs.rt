//! Runs of scripts, of arrivals and of strikes, whose input or output fails.

use crate::fakes::{Narrow, Slow};
use s4_logins::read_logins;
use s4_run::{RunFault, run_hall, run_script, run_strike};
use s4_types::Principal;
use std::alloc::Global;
use std::io::ErrorKind;
use std::process::Abort;
use std::test::Fail;

/// What is run.
#[derive(Clone, Copy)]
enum Kind {
    Script,
    /// Arrivals on a hall of these logins.
    Hall(&'static str),
    /// A script without the strangers of principal 9.
    Strike,
}

/// What is run, its input, and what it writes.
#[derive(Clone, Copy)]
struct Row(Kind, &'static str, &'static str);

/// The login of 7.
const SEVEN: &str = "7 000102030405060708090a0b0c0d0e0f\n";

/// The arrivals of 7, which makes an object, writes to it and reads it.
const STREAM: Row = Row(
    Kind::Hall(SEVEN),
    "window 100\n\
     5 1 0000001a00010000000700000001000102030405060708090a0b0c0d0e0f\n\
     6 1 000000020100\n\
     7 1 0000001404000000070000000100000000000568656c6c6f\n\
     8 1 00000012030000000700000001000000000000000500\n",
    "1 000000021001000000090100000007000000010000000100000000120201000000000000000006000568656c6c6f\n",
);

const ROWS: [Row; 4] = [
    Row(
        Kind::Script,
        "window 100\n\
         5 7 create 0\n\
         10 7 write 7.0.1 0 68656c6c6f\n\
         11 7 read 7.0.1 0 100\n",
        "made 7.0.1\n\
         done\n\
         data 68656c6c6f by 0 since 5\n",
    ),
    STREAM,
    Row(
        Kind::Hall(
            "7 000102030405060708090a0b0c0d0e0f\n\
             9 000102030405060708090a0b0c0d0e10\n",
        ),
        "window 100\n\
         5 1 0000001a00010000000700000001000102030405060708090a0b0c0d0e0f\n\
         5 2 0000001a00010000000900000001000102030405060708090a0b0c0d0e10\n\
         6 1 000000020100\n\
         6 2 000000020100\n\
         7 1 0000001404000000070000000100000000000568656c6c6f\n\
         7 2 00000012030000000700000001000000000000000500\n\
         7 2 000000070e000000070000\n\
         8 1 00000012030000000700000001000000000000000500\n",
        "1 000000021001000000090100000007000000010000000100000000120201000000000000000006000568656c6c6f\n\
         2 000000021001000000090100000009000000010000000308010100000003060000\n",
    ),
    Row(
        Kind::Strike,
        "window 5\n1 9 create 0\n",
        "window 5\n1 9 create 0\n",
    ),
];

/// Runs it from a reader to a writer.
fn run(alloc: Global, kind: Kind, reader: Slow<'_>, writer: &mut Narrow) -> Result<(), RunFault> {
    match kind {
        Kind::Script => run_script(alloc, reader, writer),
        Kind::Hall(logins) => {
            let logins = read_logins(alloc, &mut logins.as_bytes())?;
            run_hall(alloc, logins, reader, writer)
        }
        Kind::Strike => {
            let who = Principal::new(9).ok_or(RunFault::BadLine(0))?;
            run_strike(alloc, who, reader, writer)
        }
    }
}

/// That a run ends so, and that this was written then.
fn check<A: Abort>(
    rt: &A,
    alloc: Global,
    row: &Row,
    reader: Slow<'_>,
    mut writer: Narrow,
    (written, told): (&str, Result<(), RunFault>),
) -> Result<(), Fail> {
    assert_eq!(rt; run(alloc, row.0, reader, &mut writer), told, "{}", row.1);
    assert_eq!(rt; writer.taken.as_slice(), written.as_bytes(), "{}", row.1);
    Ok(())
}

#[test]
fn inputs_that_are_slow_or_fail(rt: HostRuntime) -> Result<(), Fail> {
    let alloc = rt.alloc();
    for row in &ROWS {
        let input = row.1.as_bytes();
        let writer = Narrow::new(alloc, 4096, 4096);
        check(
            &rt,
            alloc,
            row,
            Slow::trickle(input),
            writer,
            (row.2, Ok(())),
        )?;
        let failing = Slow::failing(input, ErrorKind::BrokenPipe);
        let writer = Narrow::new(alloc, 4096, 4096);
        check(
            &rt,
            alloc,
            row,
            failing,
            writer,
            ("", Err(RunFault::CannotRead)),
        )?;
    }
    Ok(())
}

/// A reader that gives all at once.
fn whole(row: &Row) -> Slow<'static> {
    Slow::new(row.1.as_bytes(), 4096, false)
}

/// What is written where there is less and less room is a beginning of the whole.
#[test]
fn outputs_that_are_narrow_or_fail(rt: HostRuntime) -> Result<(), Fail> {
    let alloc = rt.alloc();
    for row in &ROWS {
        for (width, fails) in [(1, true), (3, true), (4096, true), (4096, false)] {
            for room in 0..=row.2.len() {
                let mut writer = Narrow::new(alloc, width, room);
                writer.fails = fails;
                let written = row.2.get(..room).ok_or("a beginning")?;
                let told = if room == row.2.len() {
                    Ok(())
                } else {
                    Err(RunFault::CannotWrite)
                };
                check(&rt, alloc, row, whole(row), writer, (written, told))?;
            }
        }
    }
    Ok(())
}

/// A script of which a line is at fault.
const FAULTY_SCRIPT: Row = Row(
    Kind::Script,
    "window 100\n\
     1 7 create 0\n\
     1 7 create 16\n\
     1 7 create 0\n",
    "made 7.0.1\n",
);

/// Arrivals of which a line is at fault.
const FAULTY_ARRIVALS: Row = Row(
    Kind::Hall(SEVEN),
    "window 100\n\
     5 1 0000001a00010000000700000001000102030405060708090a0b0c0d0e0f\n\
     6 1 0\n",
    "",
);

#[test]
fn outputs_that_cannot_be_flushed(rt: HostRuntime) -> Result<(), Fail> {
    let alloc = rt.alloc();
    for row in ROWS.iter().chain([&FAULTY_SCRIPT]) {
        let mut writer = Narrow::new(alloc, 4096, 4096);
        writer.flushes = false;
        let wanted = (row.2, Err(RunFault::CannotWrite));
        check(&rt, alloc, row, whole(row), writer, wanted)?;
    }
    Ok(())
}

/// Nothing is written to a writer that takes nothing, where a line of arrivals is at fault.
#[test]
fn fault_before_an_output_that_fails(rt: HostRuntime) -> Result<(), Fail> {
    let alloc = rt.alloc();
    let row = &FAULTY_ARRIVALS;
    let writer = Narrow::new(alloc, 1, 0);
    check(
        &rt,
        alloc,
        row,
        whole(row),
        writer,
        ("", Err(RunFault::BadLine(3))),
    )
}
