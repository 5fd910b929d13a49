//! Numbers of purses: the serials that they drew, and their budgets.

ghost use Rattle.std.specs.Prelude.{◌≡◌, OnOk};
ghost use Rattle.s4_types.specs.declared.object.Purse.{Purse};
ghost use Rattle.s4_base.specs.Lists.{drawn_among, budget_among};
ghost use Rattle.s4_base.specs.Changes.{purse_changed};

use crate::table::Table;
use s4_types::{NoMemory, Purse};

/// How many serials the purse drew.
pub(crate) fn drawn(numbers: &Table<Purse, u16>, purse: &Purse) -> u16
    ensures { result ≡ drawn_among numbers.now purse.now }
{
    numbers.get(purse).copied().unwrap_or(0)
}

/// The purse drew so many serials.
pub(crate) fn set_drawn(
    numbers: &mut Table<Purse, u16>,
    purse: &Purse,
    count: u16,
) -> Result<(), NoMemory>
    ensures { OnOk result ((p : Purse) → drawn_among numbers.new p
        ≡ purse_changed purse.now (λ old. count) (drawn_among numbers.old) p) }
{
    numbers.put(*purse, count)
}

/// What the purse may spend.
pub(crate) fn budget(budgets: &Table<Purse, u32>, purse: &Purse) -> u32
    ensures { result ≡ budget_among budgets.now purse.now }
{
    budgets.get(purse).copied().unwrap_or(Purse::DEFAULT_BUDGET)
}

/// The purse may spend so much.
pub(crate) fn set_budget(
    budgets: &mut Table<Purse, u32>,
    purse: &Purse,
    budget: u32,
) -> Result<(), NoMemory>
    ensures { OnOk result ((p : Purse) → budget_among budgets.new p
        ≡ purse_changed purse.now (λ old. budget) (budget_among budgets.old) p) }
{
    budgets.put(*purse, budget)
}
