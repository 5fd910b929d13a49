//! The worked case of two cells and two passes, and one of clocks that lag.

use crate::fronts::check;
use crate::lines::{Call, Case, Check, End, Line};
use s4_calls_for_tests::asked::{Told, What};
use std::test::Fail;

const FIVE: &[Call] = &[
    Call(0, 7, 5, What::Create, Told::Made(7, 1), (5, 1, 0)),
    Call(1, 8, 5, What::Create, Told::Made(8, 1), (5, 0, 0)),
    Call(1, 0, 3, What::SetWindow(10), Told::Done, (5, 0, 1)),
    Call(0, 7, 9, What::Create, Told::Made(7, 2), (9, 1, 2)),
    Call(1, 8, 8, What::Create, Told::Made(8, 2), (8, 0, 2)),
];

/// A clock lags behind the cell's last moment, the pass's, and another cell's at a request of all.
const LAGGING: &[Call] = &[
    Call(0, 7, 9, What::Create, Told::Made(7, 1), (9, 1, 0)),
    Call(1, 4, 5, What::Create, Told::Made(4, 1), (9, 1, 1)),
    Call(1, 6, 2, What::Create, Told::Made(6, 1), (9, 0, 0)),
    Call(0, 5, 12, What::Create, Told::Made(5, 1), (12, 2, 0)),
    Call(0, 9, 11, What::Create, Told::Made(9, 1), (12, 0, 1)),
    Call(1, 0, 3, What::SetWindow(10), Told::Done, (12, 0, 2)),
    Call(1, 4, 10, What::Create, Told::Made(4, 2), (12, 1, 3)),
    Call(0, 7, 13, What::Create, Told::Made(7, 2), (13, 1, 4)),
    Call(1, 10, 0, What::Create, Told::Made(10, 1), (13, 1, 5)),
    Call(1, 8, 14, What::Create, Told::Made(8, 1), (14, 2, 2)),
    Call(
        0,
        0,
        u64::MAX,
        What::SetWindow(10),
        Told::Done,
        (u64::MAX, 0, 3),
    ),
    Call(1, 4, 15, What::Create, Told::Made(4, 3), (u64::MAX, 1, 7)),
];

const CASES: [Case; 2] = [
    Case {
        name: "two cells",
        opened: (2, 100, 2),
        lines: &[Line::Calls(FIVE)],
        end: End::ClosedAgain(&[Check::History(&[(5, 8), (5, 7), (5, 0), (8, 8), (9, 7)])]),
    },
    Case {
        name: "a clock that lags is put forward no more than it must",
        opened: (3, 100, 2),
        lines: &[Line::Calls(LAGGING)],
        end: End::Closed(&[Check::Records(12)]),
    },
];

#[test]
fn cells_keep_one_history(rt: HostRuntime) -> Result<(), Fail> {
    for case in &CASES {
        println!(rt; "{}", case.name)?;
        check(&rt, rt.alloc(), case.opened, case.lines, &case.end)?;
    }
    Ok(())
}
