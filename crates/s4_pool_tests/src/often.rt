//! What a pass asks again and again.

use crate::fronts::serve;
use crate::gate::Holding;
use crate::lines::Often;
use s4_calls_for_tests::asked::{Told, What};
use s4_calls_for_tests::same::same;
use s4_pool::{Front, Names, Pass};
use std::alloc::Global;
use std::sync::Wait;
use std::test::Fail;

/// That all is replied as it has to be.
pub fn ask_often<N: Names, R: Wait>(
    rt: &R,
    alloc: Global,
    front: &Front<Holding<'_>, N>,
    cells: usize,
    pass: &mut Pass<N>,
    often: &Often,
) -> Result<(), Fail> {
    match *often {
        Often::Ranges => {
            let window = What::SetWindow(front.window());
            ask_ranges(rt, alloc, front, cells, pass, 1)?;
            serve(rt, alloc, front, pass, (0, 5), &window, &Told::Done)?;
            ask_ranges(rt, alloc, front, cells, pass, 2)
        }
        Often::Writes(who, from, count) => {
            for later in 0..count {
                let at = (who, from.saturating_add(later));
                serve(
                    rt,
                    alloc,
                    front,
                    pass,
                    at,
                    &What::Write(who, b"a"),
                    &Told::Done,
                )?;
            }
            Ok(())
        }
        Often::Reads(count) => {
            for number in 0..count {
                let read = What::Read(8 + (number % 100) as u32, 1, None);
                serve(rt, alloc, front, pass, (7, number), &read, &Told::Denied)?;
            }
            Ok(())
        }
    }
}

// That an object with this serial is made in each range, in the cell of its number modulo that of the
// cells.
fn ask_ranges<N: Names, R: Wait>(
    rt: &R,
    alloc: Global,
    front: &Front<Holding<'_>, N>,
    cells: usize,
    pass: &mut Pass<N>,
    serial: u16,
) -> Result<(), Fail> {
    for range in 1..=40u32 {
        let made = Told::Made(range, serial);
        serve(rt, alloc, front, pass, (range, 5), &What::Create, &made)?;
        let receipt = pass.receipts().back().ok_or("a receipt")?;
        same(
            "the cell",
            &Some(receipt.cell),
            &(range as usize).checked_rem(cells),
        )?;
    }
    Ok(())
}
