//! Many calls of a pass, with cuts between them, and calls that it keeps no longer.

use crate::fronts::ask;
use crate::gate::Holding;
use s4_calls_for_tests::asked::What;
use s4_pool::{Front, Names, Pass};
use s4_types::Moment;
use std::alloc::Global;
use std::sync::Wait;

/// What isn't there, in the first of two cells and in the second.
const READS: [What; 2] = [What::Read(8, 1, None), What::Read(9, 1, None)];

/// Makes a hundred calls, of either cell in turn, ten ticks after one another. Behind each twenty it
/// makes a call of both, cuts the front, and keeps no call but the last.
pub fn call_often<N: Names, R: Wait>(
    rt: &R,
    alloc: Global,
    front: &Front<Holding<'_>, N>,
    pass: &mut Pass<N>,
) {
    for number in 0..100usize {
        let tick = number as u64 * 10;
        let _reply = ask(rt, alloc, front, pass, (7, tick), &READS[number % 2]);
        if number % 20 == 19 {
            let _reply = ask(rt, alloc, front, pass, (0, tick), &What::SetWindow(100));
            front.cut(rt, Moment::new(tick));
            let before = pass.receipts().len().saturating_sub(1);
            forget(pass, before);
        }
    }
}

/// Has a pass keep its first calls no longer: so many, or all that it keeps.
#[tactic(auto, using(crate::proofs::Receipts::as_many))]
pub fn forget<N: Names>(pass: &mut Pass<N>, count: usize) {
    let kept = pass.receipts().len();
    pass.forget(count.min(kept));
}
