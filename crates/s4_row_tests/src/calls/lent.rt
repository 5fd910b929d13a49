//! Cases of one front with two cells and one pass, which it lends to them.

ghost use Rattle.std.specs.Prelude.{◌≡◌};

use crate::calls::case::Case;
use crate::calls::talks::Peer;
use crate::calls::{many, reads, talks, windows};
use s4_pool::{Blank, Front, Names, OpenGate};
use s4_types::Record;
use std::io;
use std::marker::Brand;
use std::sync::Wait;

/// What the front serves.
#[derive(Clone, Copy)]
pub enum Served {
    /// Four thousand requests.
    Many,
    /// Two thousand reads of so many bytes of one value.
    Reads(u32),
    /// A SetWindow, behind requests of these lines.
    SetWindow(&'static str, &'static str),
    /// A talk with this peer.
    Talk(Peer),
}

pub fn serve<R: Wait>(case: &mut Case, rt: &R, served: Served) -> io::Result<()> {
    let blank = Blank::new(case.alloc(), 2)?;
    lend::<Brand, R>(case, rt, served, blank)
}

/// Lends the front of that ledger.
fn lend<N: Names, R: Wait>(
    case: &mut Case,
    rt: &R,
    served: Served,
    blank: Blank<Record>,
) -> io::Result<()>
    requires ledger { blank.ledger ≡ N.ledger }
    requires names { (N.ledger.words ≡ 2) × (N.window ≡ 100) × (N.passes ≡ 1) }
{
    let (front, mut passes) = Front::<OpenGate, N>::open(case.alloc(), 100, 2, 1, OpenGate, blank)?;
    let mut pass = passes.remove(0);
    match served {
        Served::Many => many::serve(case, rt, &front, &mut pass),
        Served::Reads(length) => reads::read(case, rt, &front, &mut pass, length),
        Served::SetWindow(first, second) => {
            windows::set(case, rt, &front, &mut pass, (first, second))
        }
        Served::Talk(peer) => talks::talk(case, rt, &front, pass, peer),
    }
}
