//! Each public call of ledgers.

use s4_ledger::Ledger;
use s4_types::{Moment, Purse};
use s4_values_for_tests::purse;
use std::test::Fail;

enum Step {
    /// A charge that ends at a moment, of so much.
    Charge(u64, u32),
    /// One that is forgiven.
    Forgive(u64, u32),
    Advance(u64),
    Open,
    SetBudget(u32),
    /// The horizon is this.
    Horizon(u64),
    /// So much is spent.
    Spent(u32),
    /// So much is spent by the time of that horizon.
    SpentAt(u64, u32),
    /// The budget is this.
    Budget(u32),
    /// Whether there is room for so much.
    Room(u32, bool),
    /// Whether there is room for so much at that horizon.
    RoomAt(u64, u32, bool),
    /// Whether there is a charge that ends at that moment, of so much.
    HasCharge(u64, u32, bool),
}

type Row = ((u32, u8), Step);

/// Charges of purse 7.0 that end at 10, 20 and 30, and one of purse 3.1 that ends at 20, count
/// until the horizon reaches their end.
const COUNTED: [Row; 13] = [
    ((7, 0), Step::Charge(10, 164)),
    ((3, 1), Step::Charge(20, 80)),
    ((7, 0), Step::Charge(30, 65)),
    ((7, 0), Step::Charge(20, 64)),
    ((7, 0), Step::Spent(293)),
    ((3, 1), Step::Spent(80)),
    ((7, 0), Step::SpentAt(9, 293)),
    ((7, 0), Step::SpentAt(10, 129)),
    ((3, 1), Step::SpentAt(20, 0)),
    ((7, 0), Step::Advance(20)),
    ((7, 0), Step::Horizon(20)),
    ((7, 0), Step::Spent(65)),
    ((3, 1), Step::Spent(0)),
];

/// Two equal charges of purse 7.0, and one of purse 7.1; and one more when those are forgiven.
const FORGIVEN: [Row; 15] = [
    ((7, 1), Step::Charge(5, 64)),
    ((7, 0), Step::Charge(5, 64)),
    ((7, 0), Step::Charge(5, 64)),
    ((7, 0), Step::HasCharge(5, 64, true)),
    ((7, 0), Step::HasCharge(5, 65, false)),
    ((7, 0), Step::Forgive(5, 64)),
    ((7, 0), Step::Spent(64)),
    ((7, 1), Step::Spent(64)),
    ((7, 0), Step::Forgive(5, 64)),
    ((7, 0), Step::Spent(0)),
    ((7, 0), Step::HasCharge(5, 64, false)),
    ((7, 0), Step::Charge(6, 128)),
    ((7, 0), Step::Advance(5)),
    ((7, 0), Step::Forgive(5, 64)),
    ((7, 0), Step::Spent(128)),
];

/// A budget may be met, and no more.
const BUDGETED: [Row; 15] = [
    ((7, 0), Step::Open),
    ((7, 0), Step::Budget(Purse::DEFAULT_BUDGET)),
    ((7, 0), Step::SetBudget(129)),
    ((7, 0), Step::Budget(129)),
    ((7, 1), Step::Budget(Purse::DEFAULT_BUDGET)),
    ((7, 0), Step::Room(129, true)),
    ((7, 0), Step::Room(130, false)),
    ((7, 0), Step::Charge(4, 65)),
    ((7, 0), Step::Room(64, true)),
    ((7, 0), Step::Room(65, false)),
    ((7, 0), Step::RoomAt(3, 65, false)),
    ((7, 0), Step::RoomAt(4, 129, true)),
    ((7, 0), Step::SetBudget(64)),
    ((7, 0), Step::Spent(65)),
    ((7, 0), Step::Room(0, false)),
];

// What a charge requires is looked at before it.
fn charge(ledger: &mut Ledger, purse: &Purse, end: Moment, cost: u32) -> Result<(), Fail> {
    ledger.reserve(1)?;
    let payer = ledger.open(purse)?;
    if cost == 0 || !ledger.room(purse, cost) {
        return Err(Fail::from("a charge for which there is no room"));
    }
    ledger.charge(&payer, end, cost);
    Ok(())
}

/// Takes a step of a purse, and tells whether it could be taken and the answer is what is wanted.
fn holds(ledger: &mut Ledger, purse: &Purse, step: &Step) -> Result<bool, Fail> {
    match *step {
        Step::Charge(end, cost) => charge(ledger, purse, Moment::new(end), cost)?,
        Step::Forgive(end, cost) => {
            let end = Moment::new(end);
            if end > ledger.horizon() && !ledger.has_charge(purse, end, cost) {
                return Ok(false);
            }
            ledger.forgive(purse, end, cost);
        }
        Step::Advance(tick) => {
            let horizon = Moment::new(tick);
            if horizon < ledger.horizon() {
                return Ok(false);
            }
            ledger.advance(horizon);
        }
        Step::Open => {
            ledger.open(purse)?;
        }
        Step::SetBudget(budget) => ledger.set_budget(purse, budget)?,
        _ => return Ok(is_told(ledger, purse, step)),
    }
    Ok(true)
}

/// Whether the answer to a question is what is wanted.
fn is_told(ledger: &Ledger, purse: &Purse, step: &Step) -> bool {
    match *step {
        Step::Horizon(wanted) => ledger.horizon().tick() == wanted,
        Step::Spent(wanted) => ledger.spent(purse) == wanted,
        Step::SpentAt(tick, wanted) => {
            let horizon = Moment::new(tick);
            ledger.horizon() <= horizon && ledger.spent_at(purse, horizon) == wanted
        }
        Step::Budget(wanted) => ledger.budget(purse) == wanted,
        Step::Room(cost, wanted) => ledger.room(purse, cost) == wanted,
        Step::RoomAt(tick, cost, wanted) => {
            let horizon = Moment::new(tick);
            ledger.horizon() <= horizon && ledger.room_at(purse, horizon, cost) == wanted
        }
        Step::HasCharge(end, cost, wanted) => {
            ledger.has_charge(purse, Moment::new(end), cost) == wanted
        }
        _ => false,
    }
}

#[test]
fn charges_count_against_budgets_until_they_end(rt: HostRuntime) -> Result<(), Fail> {
    assert_eq!(rt; Purse::DEFAULT_BUDGET, 1_048_576);
    for (what, rows) in [
        ("counted", COUNTED.as_slice()),
        ("forgiven", FORGIVEN.as_slice()),
        ("budgeted", BUDGETED.as_slice()),
    ] {
        let mut ledger = Ledger::new(rt.alloc());
        for (index, (of, step)) in rows.iter().enumerate() {
            assert!(rt;
                holds(&mut ledger, &purse(*of)?, step)?,
                "{what}, step {index}"
            );
        }
    }
    Ok(())
}
