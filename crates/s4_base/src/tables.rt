//! The tables of a base.

ghost use Rattle.std.specs.Prelude.{◌≡◌, IfOk};

use crate::bounds::Bounds;
use crate::kept::Kept;
use crate::table::Table;
use s4_types::{Moment, NoMemory, ObjectId, Purse};
use std::alloc::Global;

/// The tables of a base. A purse that isn't there has no names, drew no serials, and may spend the
/// default.
#[derive(Drop)]
pub(crate) struct Tables {
    /// The detection window in force, in ticks.
    pub window: u64,
    /// The moment below which the horizon doesn't go any more.
    pub floor: Moment,
    /// The records before this moment are gone.
    pub cut: Moment,
    /// How many records are gone.
    pub count: u64,
    /// The objects that live.
    pub objects: Table<ObjectId, Kept>,
    /// The names that are bound, by their purses.
    pub names: Table<Purse, Bounds>,
    /// How many serials were drawn.
    pub drawn: Table<Purse, u16>,
    /// The budgets that were set.
    pub budgets: Table<Purse, u32>,
}

impl Tables {
    ghost use Rattle.s4_base.specs.Lists.{fresh_lists};
    ghost use Rattle.s4_base.specs.Tables.{lists_of};

    /// Those of a fresh drive. Takes no memory.
    pub fn fresh(alloc: Global, window: u64) -> Tables
        ensures { lists_of result ≡ fresh_lists window }
    {
        Tables {
            window,
            floor: Moment::new(0),
            cut: Moment::new(0),
            count: 0,
            objects: Table::new(alloc),
            names: Table::new(alloc),
            drawn: Table::new(alloc),
            budgets: Table::new(alloc),
        }
    }

    /// Equal ones, or `NoMemory` where a growth was refused.
    pub fn copy(&self) -> Result<Tables, NoMemory>
        ensures { IfOk result (λ tables. lists_of tables ≡ lists_of self.now) }
    {
        Ok(Tables {
            window: self.window,
            floor: self.floor,
            cut: self.cut,
            count: self.count,
            objects: self.objects.copy()?,
            names: self.names.copy()?,
            drawn: self.drawn.copy()?,
            budgets: self.budgets.copy()?,
        })
    }
}
