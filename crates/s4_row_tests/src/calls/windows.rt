//! A SetWindow on two cells, behind as many records of each. Where the cells hold values it asks for no
//! more memory than where they hold none (`tools/lib/calls.py`).

use crate::calls::asked::asked;
use crate::calls::case::Case;
use crate::calls::serving::{Call, ask, serve_one};
use s4_pool::{Front, Names, OpenGate, Pass};
use s4_types::{Reply, Request};
use std::io;
use std::sync::Wait;

/// How many records there are in each cell.
const RECORDS: usize = 5;

const SET: Call = Call(0, "5 0 setwindow 10", "done", (5, 0, 5));

/// Makes the requests of each line so often, which are one for each cell. The SetWindow is what is
/// marked.
pub fn set<N: Names, R: Wait>(
    case: &mut Case,
    rt: &R,
    front: &Front<OpenGate, N>,
    pass: &mut Pass<N>,
    (first, second): (&str, &str),
) -> io::Result<()> {
    ask_before(case, rt, front, pass, first)?;
    ask_before(case, rt, front, pass, second)?;
    serve_one(case, rt, front, pass, &SET)
}

/// Leaves the records of a cell.
fn ask_before<N: Names, R: Wait>(
    case: &mut Case,
    rt: &R,
    front: &Front<OpenGate, N>,
    pass: &mut Pass<N>,
    line: &str,
) -> io::Result<()> {
    let asked = asked(case.alloc(), line)?;
    let makes = matches!(&asked.request, Request::Create { .. });
    for _ in 0..RECORDS {
        let is_made = matches!(ask(rt, front, pass, &asked), Reply::Made(_));
        case.check(is_made == makes, "another reply before it");
    }
    Ok(())
}
