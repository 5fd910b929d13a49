//! What the records before a moment leave.

ghost use Rattle.std.specs.Prelude.{◌≡◌, ◌+◌, ◌<◌, ◌^◌, length, [], ◌∷◌, IfOk, OnOk, OnErr};
ghost use Rattle.std.specs.Option.{option_copied};
ghost use Rattle.s4_types.specs.Base.{opened};
ghost use Rattle.s4_types.specs.Play.{InOrder, UpTo};
ghost use Rattle.s4_laws.specs.Bases.{IsBase};
ghost use Rattle.s4_cuts.specs.Cut.{left, base_at};
ghost use Rattle.s4_base.specs.Changes.{CanFollow, CanFollowAll};

use crate::kept::{Bound, Kept};
use crate::moments::count_before;
use crate::tables::Tables;
use crate::{names, numbers};
use s4_queue::Queue;
use s4_types::{Moment, Name, NoMemory, ObjectId, Purse, Record};
use std::alloc::Global;
use std::marker::Model;

/// What the records before a moment leave (docs/MODEL.md, "Histories that are cut"): the objects
/// that live, the names that are bound, the serials that were drawn, the budgets, the window and
/// the floor of the horizon. Callers see it by lists (crates/s4_base/specs/Lists.antt), and
/// `base_of_lists` tells the base of the definitions.
pub struct Base {
    tables: Tables,
}

// Written out, so that no crate above proves how tables are dropped.
impl Drop for Base {
    fn drop(self) {
        let Base { tables: _ } = self;
    }
}

impl Model for Base {
    ghost use Rattle.s4_base.specs.Lists.{Lists};
    ghost use Rattle.s4_base.specs.Tables.{lists_of};

    ghost Value = { Lists };

    ghost view = { λ b. lists_of b.tables };
}

impl Base {
    ghost use Rattle.s4_base.specs.Lists.{fresh_lists, base_of_lists};

    /// That of a fresh drive with the window. Takes no memory.
    pub fn fresh(alloc: Global, window: u64) -> Base
        ensures lists { result ≡ fresh_lists window }
        ensures opened { base_of_lists result ≡ opened window }
    {
        Base {
            tables: Tables::fresh(alloc, window),
        }
    }

    /// What the base and the records before the moment leave, at any moment. The base itself stays
    /// as it is, also where memory is refused. This takes the time of a copy and of these records.
    pub fn after(
        &self,
        alloc: Global,
        records: &Queue<Record>,
        cut: Moment,
    ) -> Result<Base, NoMemory>
        requires is_base { IsBase (base_of_lists self.now) }
        requires order { InOrder (base_of_lists self.now).cut records.now.items }
        requires counts { self.now.count + length records.now.items < 2 ^ 64 }
        requires fits { CanFollowAll (base_of_lists self.now) records.now.items }
        ensures { IfOk result (λ base. base_of_lists base
            ≡ base_at (base_of_lists self.now) records.now.items cut) }
    {
        let early = count_before(records, cut);
        let mut base = self.copy()?;
        base.tables.follow_first(alloc, records, early, cut)?;
        Ok(base)
    }

    /// The detection window in force, in ticks.
    pub fn window(&self) -> u64
        ensures { result ≡ (base_of_lists self.now).window }
    {
        self.tables.window
    }

    /// The moment below which the horizon doesn't go any more.
    pub fn floor(&self) -> Moment
        ensures { result ≡ (base_of_lists self.now).floor }
    {
        self.tables.floor
    }

    /// The records before this moment are gone.
    pub fn cut(&self) -> Moment
        ensures { result ≡ (base_of_lists self.now).cut }
    {
        self.tables.cut
    }

    /// How many records are gone.
    pub fn count(&self) -> u64
        ensures { result ≡ (base_of_lists self.now).count }
    {
        self.tables.count
    }

    /// What is kept of the object, if it lives.
    pub fn object(&self, object: &ObjectId) -> Option<&Kept>
        ensures { option_copied result ≡ (base_of_lists self.now).object object.now }
    {
        self.tables.objects.get(object)
    }

    /// What the name in the purse is bound to, if it is bound.
    pub fn bound(&self, purse: &Purse, name: &Name) -> Option<Bound>
        ensures { result ≡ (base_of_lists self.now).binding purse.now name.now }
    {
        names::bound(&self.tables.names, purse, name)
    }

    /// How many serials the purse drew.
    pub fn drawn(&self, purse: &Purse) -> u16
        ensures { result ≡ (base_of_lists self.now).drawn purse.now }
    {
        numbers::drawn(&self.tables.drawn, purse)
    }

    /// What the purse may spend.
    pub fn budget(&self, purse: &Purse) -> u32
        ensures { result ≡ (base_of_lists self.now).budget purse.now }
    {
        numbers::budget(&self.tables.budgets, purse)
    }

    /// Brings the base to what it and the record leave. Where memory is refused nothing has changed.
    /// This takes the time of a copy.
    pub fn follow(&mut self, alloc: Global, added: &Record) -> Result<(), NoMemory>
        requires counts { self.old.count + 1 < 2 ^ 64 }
        requires fits { CanFollow (base_of_lists self.old) added.now }
        ensures ok { OnOk result (base_of_lists self.new
            ≡ left (base_of_lists self.old) added.now.moment (added.now ∷ [])) }
        ensures err { OnErr result (self.new ≡ self.old) }
    {
        let mut next = self.copy()?;
        next.tables.follow(alloc, added)?;
        *self = next;
        Ok(())
    }

    /// Brings the base to what it and the records leave, all of which are up to the moment. Where
    /// memory is refused nothing has changed. This takes the time of a copy and of these records.
    pub fn follow_all(
        &mut self,
        alloc: Global,
        records: &Queue<Record>,
        cut: Moment,
    ) -> Result<(), NoMemory>
        requires is_base { IsBase (base_of_lists self.old) }
        requires order { InOrder (base_of_lists self.old).cut records.now.items }
        requires last { UpTo cut records.now.items }
        requires counts { self.old.count + length records.now.items < 2 ^ 64 }
        requires fits { CanFollowAll (base_of_lists self.old) records.now.items }
        ensures ok { OnOk result (base_of_lists self.new
            ≡ left (base_of_lists self.old) cut records.now.items) }
        ensures err { OnErr result (self.new ≡ self.old) }
    {
        let mut next = self.copy()?;
        next.tables
            .follow_first(alloc, records, records.len(), cut)?;
        *self = next;
        Ok(())
    }

    // An equal base, or `NoMemory` where a growth was refused.
    fn copy(&self) -> Result<Base, NoMemory>
        ensures { IfOk result (λ base. base ≡ self.now) }
    {
        Ok(Base {
            tables: self.tables.copy()?,
        })
    }
}
