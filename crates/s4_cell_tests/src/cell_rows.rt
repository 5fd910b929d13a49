//! What cells are asked and answer: one after the other and all at once, at each moment, and around cuts
//! (docs/MODEL.md, "Histories that are cut").

use crate::cells::{Act, Line, check, check_step, check_twice, check_wide, open};
use s4_calls_for_tests::asked::{Told, What};
use std::test::Fail;

/// An object is made at 5.
const MADE: Line = Line::Each(Act::Step(5, What::Create, Told::Made(7, 1)));

/// What stands now.
const NOW: What = What::Read(7, 100, None);

/// What stood at 6, and is erased and too old then.
const THEN: What = What::Read(7, 100, Some(6));

/// A cell answers, and keeps its records. The first data ended at 10, and the horizon at 200 is 100.
const ANSWERS: &[Line] = &[
    Line::Each(Act::Fresh(100)),
    MADE,
    Line::Each(Act::Step(10, What::Write(7, b"hello"), Told::Done)),
    Line::Each(Act::Twice(11, NOW, Told::Data(b"hello", 5))),
    Line::Each(Act::Last(11)),
    Line::Each(Act::Sweep(9, 0)),
    Line::Each(Act::Step(200, What::Write(7, b"later"), Told::Done)),
    Line::Each(Act::Sweep(9, 1)),
    Line::Each(Act::Sweep(9, 0)),
];

/// Two cells with a window of ten ticks and the same requests up to 35, whose horizons are 31 and 30 then.
/// A cut takes the Creates, and one at the least horizon the Writes too. The read of 35 stays, which was
/// answered by what is gone.
const CUTS: &[Line] = &[
    MADE,
    Line::Each(Act::Step(10, What::Write(7, b"a"), Told::Done)),
    Line::Each(Act::Step(28, What::Write(7, b"b"), Told::Done)),
    Line::Each(Act::Step(35, What::Read(7, 100, Some(26)), Told::Data(b"a", 5))),
    Line::One(0, Act::Step(41, NOW, Told::Data(b"b", 5))),
    Line::One(1, Act::Step(40, NOW, Told::Data(b"b", 5))),
    Line::Cut(7, 0, 7),
    Line::Each(Act::Left(7, 1, 4, 10)),
    Line::Cut(99, 1, 30),
    Line::Each(Act::Left(30, 3, 2, 35)),
    Line::Each(Act::Step(44, What::Read(7, 100, Some(38)), Told::Data(b"b", 5))),
    Line::Each(Act::Left(30, 3, 3, 35)),
];

/// What was written first is erased in all cells, and is too old once their window is set.
const WIDE: &[Line] = &[
    MADE,
    Line::Each(Act::Step(6, What::Write(7, b"old"), Told::Done)),
    Line::Each(Act::Step(7, What::Write(7, b"new"), Told::Done)),
    Line::Wide(8, What::Flush(6, 7), 3),
    Line::Wide(9, What::SetWindow(50), 4),
    Line::Each(Act::Step(10, THEN, Told::Flushed)),
    Line::Each(Act::Step(100, THEN, Told::TooOld(50))),
];

#[test]
fn a_cell_answers_and_keeps_its_records(rt: HostRuntime) -> Result<(), Fail> {
    let mut cells = open(rt.alloc(), 1, 100)?;
    check(rt.alloc(), &mut cells, ANSWERS)
}

#[test]
fn cells_are_cut_at_the_least_horizon(rt: HostRuntime) -> Result<(), Fail> {
    let mut cells = open(rt.alloc(), 2, 10)?;
    check(rt.alloc(), &mut cells, CUTS)
}

#[test]
fn all_cells_are_asked_at_once(rt: HostRuntime) -> Result<(), Fail> {
    for count in [1, 2, 3, 8, 9, 16, 17] {
        let mut cells = open(rt.alloc(), count, 100)?;
        check(rt.alloc(), &mut cells, WIDE)?;
    }
    Ok(())
}

/// A cell is written and read at each power of two from 8 on, and at the last moment; and the window of two
/// cells is set at each power of two, and at the last moment.
#[test]
fn cells_answer_at_each_moment(rt: HostRuntime) -> Result<(), Fail> {
    let alloc = rt.alloc();
    let (mut one, mut two) = (open(alloc, 1, 100)?, open(alloc, 2, 100)?);
    check(alloc, &mut one, &[MADE])?;
    for cell in &mut one {
        for power in 3..64u32 {
            check_step(
                alloc,
                cell,
                1 << power,
                &What::Write(7, b"then"),
                &Told::Done,
            )?;
            check_twice(alloc, cell, 1 << power, &NOW, &Told::Data(b"then", 5))?;
        }
        check_step(alloc, cell, u64::MAX, &What::Write(7, b"last"), &Told::Done)?;
        check_twice(alloc, cell, u64::MAX, &NOW, &Told::Data(b"last", 5))?;
    }
    for power in 0..64u32 {
        check_wide(
            alloc,
            &mut two,
            1 << power,
            &What::SetWindow(50),
            power as usize,
        )?;
    }
    check_wide(alloc, &mut two, u64::MAX, &What::SetWindow(50), 64)
}
