//! Many requests by one pass. One that met want of memory leaves no receipt, and is made again. What
//! is asked for in all is measured (`tools/lib/calls.py`).

use crate::calls::asked::{asked, is_no_memory};
use crate::calls::case::Case;
use crate::calls::serving::ask;
use s4_pool::{Asked, Front, Names, OpenGate, Pass};
use s4_types::{Moment, Refusal, Reply};
use std::io;
use std::sync::Wait;

const CALLS: u64 = 4000;

/// How often a request is made. At most two allocations are refused.
const TRIES: u32 = 3;

/// Reads an object that isn't there. The calls are what is marked, all at once.
pub fn serve<N: Names, R: Wait>(
    case: &mut Case,
    rt: &R,
    front: &Front<OpenGate, N>,
    pass: &mut Pass<N>,
) -> io::Result<()> {
    let mut asked = asked(case.alloc(), "0 7 read 7.0.1 0 1")?;
    case.begins();
    serve_all(case, rt, front, pass, &mut asked);
    case.ends();
    let is_same = pass.receipts().len() as u64 == CALLS;
    case.check(is_same, "there are more or fewer receipts");
    Ok(())
}

/// Makes all calls, at a moment more each.
fn serve_all<N: Names, R: Wait>(
    case: &mut Case,
    rt: &R,
    front: &Front<OpenGate, N>,
    pass: &mut Pass<N>,
    asked: &mut Asked,
) {
    for clock in 0..CALLS {
        asked.clock = Moment::new(clock);
        let is_served = is_served(case, rt, front, pass, asked);
        case.check(is_served, "a request wasn't served in three tries");
    }
}

/// Whether a request is served, which is made again where there was no memory.
fn is_served<N: Names, R: Wait>(
    case: &mut Case,
    rt: &R,
    front: &Front<OpenGate, N>,
    pass: &mut Pass<N>,
    asked: &Asked,
) -> bool {
    let before = pass.receipts().len();
    for _ in 0..TRIES {
        let reply = ask(rt, front, pass, asked);
        if !is_no_memory(&reply) {
            return reply == Reply::Refused(Refusal::NoObject);
        }
        case.refuse_by_reply();
        let is_same = pass.receipts().len() == before;
        case.check(is_same, "without memory there is a receipt");
    }
    false
}
