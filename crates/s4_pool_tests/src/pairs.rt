//! Two fronts side by side. Each has a name of its own, so it takes no pass of the other.

ghost use Rattle.std.specs.Prelude.{◌≡◌};

use s4_pool::{Blank, Front, Names, OpenGate};
use s4_types::{Caller, Moment, NoMemory, Record, Request};
use std::alloc::Global;
use std::sync::Wait;

/// How many records two fronts of one cell and one pass have, of which the first was asked once by its
/// own pass. None where one of them isn't closed.
pub fn records_of_two<N: Names, M: Names, R: Wait>(
    rt: &R,
    alloc: Global,
    one: Blank<Record>,
    other: Blank<Record>,
    caller: Caller,
    request: &Request,
) -> Result<Option<(usize, usize)>, NoMemory>
    requires ledger { one.ledger ≡ N.ledger }
    requires names { (N.ledger.words ≡ 1) × (N.window ≡ 100) × (N.passes ≡ 1) }
    requires other_ledger { other.ledger ≡ M.ledger }
    requires other_names { (M.ledger.words ≡ 1) × (M.window ≡ 100) × (M.passes ≡ 1) }
{
    let (front, mut passes) = Front::<OpenGate, N>::open(alloc, 100, 1, 1, OpenGate, one)?;
    let (second, others) = Front::<OpenGate, M>::open(alloc, 100, 1, 1, OpenGate, other)?;
    front.serve(rt, &mut passes[0], caller, Moment::new(5), request);
    match (front.close(alloc, passes), second.close(alloc, others)) {
        (Ok(first), Ok(second)) => Ok(Some((first.history.len(), second.history.len()))),
        _ => Ok(None),
    }
}
