//! A front's cells are cut: places go on, and what is left is closed. So are calls that passes keep no
//! longer.

use crate::fronts::check;
use crate::lines::{Call, Case, Check, End, Line};
use s4_calls_for_tests::asked::{Told, What};
use std::test::Fail;

/// The worked case of two cells, where the window is set to 2 ticks.
const WORKED: Line = Line::Calls(&[
    Call(0, 7, 5, What::Create, Told::Made(7, 1), (5, 1, 0)),
    Call(1, 8, 5, What::Create, Told::Made(8, 1), (5, 0, 0)),
    Call(1, 0, 3, What::SetWindow(2), Told::Done, (5, 0, 1)),
    Call(0, 7, 9, What::Create, Told::Made(7, 2), (9, 1, 2)),
    Call(1, 8, 8, What::Create, Told::Made(8, 2), (8, 0, 2)),
]);

/// The front is cut as far as its horizons let it: the first two records of each cell go.
const CUT: Line = Line::Cut(9, 6);

const LATER: Line = Line::Calls(&[Call(0, 7, 9, What::Create, Told::Made(7, 3), (9, 1, 3))]);

/// The three records that are left then, of all that there ever were.
const LEFT: End = End::Closed(&[
    Check::History(&[(8, 8), (9, 7), (9, 7)]),
    Check::Gone(2),
    Check::Ever(&[3, 4]),
]);

/// A call in the one cell whose horizon is the least of both, and one in the other then.
const LATE: Line = Line::Calls(&[Call(1, 8, 20, What::Create, Told::Made(8, 3), (20, 0, 3))]);

const LATER_THAN_NINE: Line = Line::Calls(&[Call(
    0,
    7,
    15,
    What::Create,
    Told::Made(7, 3),
    (15, 1, 3),
)]);

const CASES: [Case; 8] = [
    Case {
        name: "a front is cut, and places go on",
        opened: (2, 100, 2),
        lines: &[WORKED, CUT, LATER],
        end: LEFT,
    },
    Case {
        name: "a cut goes no further than asked",
        opened: (2, 100, 2),
        lines: &[WORKED, Line::Cut(5, 5)],
        end: End::Closed(&[Check::Records(5), Check::Gone(0)]),
    },
    Case {
        name: "a cut goes no further than the least horizon",
        opened: (2, 100, 2),
        lines: &[
            WORKED,
            CUT,
            CUT,
            LATE,
            Line::Cut(99, 7),
            LATER_THAN_NINE,
            Line::Cut(99, 13),
            Line::Cut(12, 12),
        ],
        end: End::Closed(&[
            Check::History(&[(15, 7), (20, 8)]),
            Check::Gone(3),
            Check::Ever(&[4, 4]),
        ]),
    },
    Case {
        name: "cells are cut one by one, and close once they are cut at one moment",
        opened: (2, 100, 2),
        lines: &[
            WORKED,
            Line::CutOne(0, 5, 5),
            Line::CutOne(1, 4, 4),
            Line::CutOne(0, 9, 6),
            LATER,
            Line::Cut(6, 6),
        ],
        end: LEFT,
    },
    Case {
        name: "calls that passes keep no longer are closed, with their records and without",
        opened: (2, 100, 2),
        lines: &[
            WORKED,
            Line::Forget(0, 2, 0, 9),
            Line::Forget(1, 2, 1, 8),
            CUT,
            Line::Forget(1, 1, 0, 8),
            LATER,
        ],
        end: LEFT,
    },
    Case {
        name: "calls that passes keep no longer leave all records",
        opened: (2, 100, 2),
        lines: &[WORKED, Line::Forget(0, 1, 1, 9), Line::Forget(1, 3, 0, 8)],
        end: End::Closed(&[
            Check::History(&[(5, 8), (5, 7), (5, 0), (8, 8), (9, 7)]),
            Check::Gone(0),
            Check::Ever(&[3, 3]),
        ]),
    },
    Case {
        name: "a pass that keeps no call keeps its moment",
        opened: (2, 100, 2),
        lines: &[
            WORKED,
            Line::Forget(0, 2, 0, 9),
            Line::Forget(1, 3, 0, 8),
            Line::Calls(&[Call(0, 8, 1, What::Create, Told::Made(8, 3), (9, 0, 3))]),
        ],
        end: End::Closed(&[Check::Records(6)]),
    },
    Case {
        name: "records since a place are copied",
        opened: (2, 100, 2),
        lines: &[
            WORKED,
            CUT,
            LATER,
            Line::Since(1, 0, 10, Some((2, 2, Some(9)))),
            Line::Since(1, 3, 10, Some((3, 1, Some(9)))),
            Line::Since(1, 2, 1, Some((2, 1, Some(9)))),
            Line::Since(1, 4, 10, Some((4, 0, None))),
            Line::Since(0, 1, 10, Some((2, 1, Some(8)))),
            Line::Since(0, 2, 0, Some((2, 0, None))),
            Line::Since(2, 0, 10, None),
        ],
        end: End::Open,
    },
];

#[test]
fn cells_of_a_front_are_cut(rt: HostRuntime) -> Result<(), Fail> {
    for case in &CASES {
        println!(rt; "{}", case.name)?;
        check(&rt, rt.alloc(), case.opened, case.lines, &case.end)?;
    }
    Ok(())
}
