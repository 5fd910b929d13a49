//! A base that follows a worked history, and what a cut of that history leaves.

ghost use Rattle.std.specs.Prelude.{◌≡◌, IfOk, OnOk};
ghost use Rattle.s4_base.specs.Lists.{base_of_lists};
ghost use Rattle.s4_types.specs.Play.{InOrder};
ghost use Rattle.s4_laws.specs.Bases.{IsBase};

use crate::asked::{Asked, Row, Told, record};
use crate::following::{are_in_order, are_plain, follow};
use s4_base::{Base, count_before};
use s4_queue::Queue;
use s4_types::{Moment, Record, Refusal, Right};
use s4_values_for_tests::{name, object, purse};
use std::alloc::Global;
use std::process::Abort;
use std::test::Fail;

/// Purse 3 of principal 7.
const PURSE: (u32, u8) = (7, 3);

/// Two objects are made, the first is written to, and both have names. The administrator sets a budget
/// and the window.
const HISTORY: [Row; 8] = [
    (5, 7, PURSE, 1, Asked::Create, Told::Made),
    (6, 7, PURSE, 2, Asked::Create, Told::Made),
    (7, 7, PURSE, 1, Asked::Write(2, b"ab"), Told::Done),
    (
        8,
        7,
        PURSE,
        1,
        Asked::Write(0, b"cde"),
        Told::Refused(Refusal::Denied(Right::Write)),
    ),
    (9, 7, PURSE, 1, Asked::Bind("a"), Told::Done),
    (9, 7, PURSE, 2, Asked::Bind("b"), Told::Done),
    (10, 0, PURSE, 1, Asked::SetBudget(500), Told::Done),
    (20, 0, PURSE, 1, Asked::SetWindow(3), Told::Done),
];

/// An object goes with its name, and the other is written to at 30.
const LATE: [Row; 3] = [
    (25, 7, PURSE, 2, Asked::Unbind("b"), Told::Done),
    (26, 7, PURSE, 2, Asked::Delete, Told::Done),
    (30, 7, PURSE, 1, Asked::Write(0, b"x"), Told::Done),
];

/// What a base tells.
enum Question {
    /// The data of the object of a serial, and when they began.
    Data(u16, Option<(&'static [u8], u64)>),
    /// The serial that a name is bound to, and since when.
    Bound(&'static str, Option<(u16, u64)>),
    /// How many serials are drawn.
    Drawn(u16),
    Budget(u32),
    Window(u64),
    Floor(u64),
    Cut(u64),
    Count(u64),
}

/// Before it followed a history.
const FRESH: [Question; 1] = [Question::Budget(1_048_576)];

/// Once it followed the worked history.
const FOLLOWED: [Question; 12] = [
    Question::Data(1, Some((b"\0\0ab", 7))),
    Question::Data(2, Some((b"", 6))),
    Question::Data(3, None),
    Question::Bound("a", Some((1, 9))),
    Question::Bound("b", Some((2, 9))),
    Question::Bound("c", None),
    Question::Drawn(2),
    Question::Budget(500),
    Question::Window(3),
    Question::Floor(10),
    Question::Cut(20),
    Question::Count(8),
];

/// Where all but the last of the late records went.
const LEFT: [Question; 6] = [
    Question::Data(1, Some((b"\0\0ab", 7))),
    Question::Data(2, None),
    Question::Bound("b", None),
    Question::Drawn(2),
    Question::Cut(30),
    Question::Count(10),
];

/// Where all of them went.
const ALL: [Question; 2] = [Question::Data(1, Some((b"x\0ab", 30))), Question::Count(11)];

/// Whether a base tells so.
fn holds(base: &Base, question: &Question) -> Result<bool, Fail> {
    Ok(match *question {
        Question::Data(serial, wanted) => match (base.object(&object(PURSE, serial)?), wanted) {
            (Some(kept), Some((bytes, begin))) => {
                kept.bytes.as_slice() == bytes && kept.bytes_begin.tick() == begin
            }
            (found, _) => found.is_none() && wanted.is_none(),
        },
        Question::Bound(text, wanted) => match base.bound(&purse(PURSE)?, &name(text)?) {
            Some(bound) => Some((bound.serial.number(), bound.begin.tick())) == wanted,
            None => wanted.is_none(),
        },
        Question::Drawn(wanted) => base.drawn(&purse(PURSE)?) == wanted,
        Question::Budget(wanted) => base.budget(&purse(PURSE)?) == wanted,
        Question::Window(wanted) => base.window() == wanted,
        Question::Floor(wanted) => base.floor().tick() == wanted,
        Question::Cut(wanted) => base.cut().tick() == wanted,
        Question::Count(wanted) => base.count() == wanted,
    })
}

fn ask(rt: &impl Abort, base: &Base, what: &str, rows: &[Question]) -> Result<(), Fail> {
    for (index, question) in rows.iter().enumerate() {
        assert!(rt; holds(base, question)?, "{what}, row {index}");
    }
    Ok(())
}

/// The base follows the worked history.
fn follow_history(rt: &impl Abort, alloc: Global, base: &mut Base) -> Result<(), Fail>
    requires { IsBase (base_of_lists base.old) }
    ensures { OnOk result (IsBase (base_of_lists base.new)) }
{
    for row in &HISTORY {
        follow(rt, alloc, base, &record(alloc, row)?)?;
    }
    Ok(())
}

fn records(alloc: Global, rows: &[Row]) -> Result<Vec<Record>, Fail> {
    let mut records = Vec::new(alloc);
    for row in rows {
        records.push(record(alloc, row)?)?;
    }
    Ok(records)
}

/// The records in a queue.
fn queued(alloc: Global, records: Vec<Record>) -> Result<Queue<Record>, Fail>
    ensures { IfOk result (λ queue. queue.items ≡ records.items) }
{
    let mut queue = Queue::new(alloc);
    for record in records {
        queue.reserve(1)?;
        queue.push(record);
    }
    Ok(queue)
}

/// What is left at 30 is told by a new base, and the old one tells what it told.
fn check_after(rt: &impl Abort, alloc: Global, base: &Base) -> Result<(), Fail>
    requires { IsBase (base_of_lists base.now) }
{
    let records = records(alloc, &LATE)?;
    assert!(rt; records.len() < 4);
    assert!(rt; base.count() < 9);
    assert!(rt; are_in_order(base.cut(), records.as_slice()));
    assert!(rt; are_plain(records.as_slice()));
    let records = queued(alloc, records)?;
    ask(
        rt,
        &base.after(alloc, &records, Moment::new(30))?,
        "left",
        &LEFT,
    )?;
    ask(
        rt,
        &base.after(alloc, &records, Moment::new(31))?,
        "all",
        &ALL,
    )?;
    ask(rt, base, "followed", &FOLLOWED)
}

fn check_history(rt: &impl Abort, alloc: Global, base: &mut Base) -> Result<(), Fail>
    requires { IsBase (base_of_lists base.old) }
{
    ask(rt, base, "fresh", &FRESH)?;
    follow_history(rt, alloc, base)?;
    ask(rt, base, "followed", &FOLLOWED)?;
    check_after(rt, alloc, base)
}

#[test]
fn a_base_follows_a_history_and_a_cut_leaves_another(rt: HostRuntime) -> Result<(), Fail> {
    let alloc = rt.alloc();
    let mut base = Base::fresh(alloc, 10);
    check_history(&rt, alloc, &mut base)
}

/// Records at 5, 6, 6 and 8.
const FOUR: [Row; 4] = [
    (5, 0, PURSE, 1, Asked::SetWindow(10), Told::Done),
    (6, 0, PURSE, 1, Asked::SetWindow(10), Told::Done),
    (6, 0, PURSE, 1, Asked::SetWindow(10), Told::Done),
    (8, 0, PURSE, 1, Asked::SetWindow(10), Told::Done),
];

/// How many of them are before a tick.
const BEFORE: [(u64, usize); 6] = [(0, 0), (5, 0), (6, 1), (7, 3), (8, 3), (9, 4)];

fn check_counts(rt: &impl Abort, records: &Queue<Record>)
    requires { InOrder 0 records.now.items }
{
    for (tick, wanted) in BEFORE {
        let found = count_before(records, Moment::new(tick));
        assert_eq!(rt; found, wanted, "before {tick}");
    }
}

#[test]
fn records_at_a_moment_are_not_before_it(rt: HostRuntime) -> Result<(), Fail> {
    let records = records(rt.alloc(), &FOUR)?;
    assert!(&rt; are_in_order(Moment::new(0), records.as_slice()));
    check_counts(&rt, &queued(rt.alloc(), records)?);
    Ok(())
}
