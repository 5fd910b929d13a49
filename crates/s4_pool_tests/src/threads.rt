//! Threads call at once: one is held at a gate, one reads what another wrote, and cells count the calls of
//! all.

use crate::fronts::check;
use crate::lines::{Call, Case, Check, End, Line, Together};
use s4_calls_for_tests::asked::{Told, What};
use std::test::Fail;

/// One record in each of two cells.
const ONE_EACH: Line = Line::Calls(&[
    Call(0, 7, 5, What::Create, Told::Made(7, 1), (5, 1, 0)),
    Call(1, 8, 5, What::Create, Told::Made(8, 1), (5, 0, 0)),
]);

/// The call that is held in cell 1, and the one in cell 0 that lets it go on.
const HELD: &[Call] = &[
    Call(0, 7, 5, What::Create, Told::Made(7, 2), (5, 1, 1)),
    Call(1, 8, 5, What::Create, Told::Made(8, 2), (5, 0, 1)),
];

/// Each thread makes 105 calls, and keeps the last of them alone. So each cell ever had the records of
/// two times 50 and two times 5 calls.
const COUNTED: &[Check] = &[Check::Ever(&[110, 110]), Check::Kept(1, 990)];

const CASES: [Case; 5] = [
    Case {
        name: "held in one cell",
        opened: (2, 100, 2),
        lines: &[ONE_EACH, Line::Arm, Line::Together(Together::Calls(HELD))],
        end: End::Closed(&[Check::Records(4)]),
    },
    Case {
        name: "held by one worker",
        opened: (2, 100, 2),
        lines: &[ONE_EACH, Line::Arm, Line::Together(Together::Jobs(HELD))],
        end: End::Closed(&[Check::Records(4)]),
    },
    Case {
        name: "one thread reads what another wrote",
        opened: (1, 100, 2),
        lines: &[Line::Together(Together::Calls(&[
            Call(0, 7, 5, What::Create, Told::Made(7, 1), (5, 0, 0)),
            Call(0, 7, 6, What::Write(7, b"a"), Told::Done, (6, 0, 1)),
            Call(
                1,
                7,
                7,
                What::Read(7, 100, None),
                Told::Data(b"a", 5),
                (7, 0, 2),
            ),
        ]))],
        end: End::Closed(&[Check::Records(3)]),
    },
    Case {
        name: "each cell counts the calls of two threads",
        opened: (2, 100, 2),
        lines: &[Line::Together(Together::Often)],
        end: End::Closed(COUNTED),
    },
    Case {
        name: "a closing that is refused loses no count",
        opened: (2, 100, 2),
        lines: &[Line::Together(Together::Often)],
        end: End::ClosedAgain(COUNTED),
    },
];

#[test]
fn threads_call_at_once(rt: HostRuntime) -> Result<(), Fail> {
    for case in &CASES {
        println!(rt; "{}", case.name)?;
        check(&rt, rt.alloc(), case.opened, case.lines, &case.end)?;
    }
    Ok(())
}
