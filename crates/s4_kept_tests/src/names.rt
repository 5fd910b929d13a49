//! Each public call of the names of objects.

use s4_names::{DrawError, Names};
use s4_types::Purse;
use s4_values_for_tests::purse;
use std::test::Fail;

enum Step {
    Reserve,
    /// So many draws, which tell what they may.
    Draws(u16),
    /// A draw, which tells this serial.
    Draw(Result<u16, DrawError>),
    /// The next draw would tell this serial.
    Next(Option<u16>),
    /// So many serials are drawn.
    Drawn(u16),
}

/// What is done with a purse: each has serials of its own, and its last is 65535.
const STEPS: [((u32, u8), Step); 14] = [
    ((7, 0), Step::Drawn(0)),
    ((7, 0), Step::Reserve),
    ((7, 0), Step::Draw(Ok(1))),
    ((7, 0), Step::Draw(Ok(2))),
    ((7, 1), Step::Draw(Ok(1))),
    ((7, 0), Step::Next(Some(3))),
    ((7, 0), Step::Drawn(2)),
    ((7, 1), Step::Drawn(1)),
    ((0, 15), Step::Draws(65534)),
    ((0, 15), Step::Draw(Ok(65535))),
    ((0, 15), Step::Next(None)),
    ((0, 15), Step::Draw(Err(DrawError::NamesSpent))),
    ((0, 15), Step::Drawn(65535)),
    ((0, 14), Step::Drawn(0)),
];

/// Takes a step, and tells whether the answer is what is wanted.
fn holds(names: &mut Names, purse: &Purse, step: &Step) -> Result<bool, Fail> {
    Ok(match step {
        Step::Reserve => names.reserve(purse).is_ok(),
        Step::Draws(count) => {
            for _ in 0..*count {
                let _ = names.draw(purse);
            }
            true
        }
        Step::Draw(wanted) => match names.draw(purse) {
            Ok(drawn) => *wanted == Ok(drawn.serial.number()),
            Err(refused) => *wanted == Err(refused),
        },
        Step::Next(wanted) => match names.next_object(purse) {
            Some(next) => *wanted == Some(next.serial.number()),
            None => wanted.is_none(),
        },
        Step::Drawn(wanted) => names.drawn(purse) == *wanted,
    })
}

#[test]
fn each_purse_draws_its_own_serials_up_to_65535(rt: HostRuntime) -> Result<(), Fail> {
    let mut names = Names::new(rt.alloc());
    for (index, (of, step)) in STEPS.iter().enumerate() {
        assert!(rt; holds(&mut names, &purse(*of)?, step)?, "step {index}");
    }
    Ok(())
}
