//! What doesn't fit together is told. Cells that don't start alike aren't closed: a front comes to that
//! only where its cells are cut one by one. A pass of another front can't be handed in, since it has
//! another type.

use crate::fronts::check;
use crate::lines::{Call, Case, Check, End, Line};
use crate::pairs::records_of_two;
use s4_calls_for_tests::asked::{Told, What, asked};
use s4_pool::Blank;
use std::marker::Brand;
use std::test::Fail;

#[test]
fn each_of_two_fronts_has_the_calls_of_its_pass(rt: HostRuntime) -> Result<(), Fail> {
    let alloc = rt.alloc();
    let one = Blank::new(alloc, 1)?;
    let other = Blank::new(alloc, 1)?;
    let asked = asked(alloc, 7, 5, &What::Create).ok_or("a request")?;
    let records = records_of_two::<Brand, Brand, HostRuntime>(
        &rt,
        alloc,
        one,
        other,
        asked.caller,
        &asked.request,
    )?;
    assert_eq!(rt; records, Some((1, 0)));
    Ok(())
}

/// A call in each of two cells with a window of one tick, whose horizons are 4 and 5 then.
const CALLED: Line = Line::Calls(&[
    Call(0, 7, 5, What::Create, Told::Made(7, 1), (5, 1, 0)),
    Call(1, 8, 6, What::Create, Told::Made(8, 1), (6, 0, 0)),
]);

const LATER: Line = Line::Calls(&[Call(0, 7, 6, What::Create, Told::Made(7, 2), (6, 1, 1))]);

const CASES: [Case; 3] = [
    Case {
        name: "cells one of which is cut are torn",
        opened: (2, 1, 2),
        lines: &[CALLED, Line::CutOne(0, 9, 5)],
        end: End::Torn(&[1, 1]),
    },
    Case {
        name: "cells that are cut at two moments are torn",
        opened: (2, 1, 2),
        lines: &[CALLED, LATER, Line::CutOne(0, 9, 5), Line::CutOne(1, 4, 4)],
        end: End::Torn(&[1, 2]),
    },
    Case {
        name: "cells that are cut at one moment are closed",
        opened: (2, 1, 2),
        lines: &[CALLED, Line::CutOne(0, 9, 5), LATER, Line::CutOne(1, 9, 5)],
        end: End::Closed(&[Check::History(&[(5, 7), (6, 8), (6, 7)]), Check::Gone(0)]),
    },
];

#[test]
fn cells_that_start_otherwise_are_torn(rt: HostRuntime) -> Result<(), Fail> {
    for case in &CASES {
        println!(rt; "{}", case.name)?;
        check(&rt, rt.alloc(), case.opened, case.lines, &case.end)?;
    }
    Ok(())
}
