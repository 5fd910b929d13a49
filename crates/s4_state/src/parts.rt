//! What the drive keeps beside its history, and what it tells of the objects.

ghost use Rattle.std.specs.Prelude.{◌≡◌, ℕ, ◌≤◌, ◌+◌, IfSome, is_some, nat_le, not};
ghost use Rattle.std.specs.Option.{option_copied};
ghost use Rattle.s4_types.specs.Acl.{IsAcl};
ghost use Rattle.s4_types.specs.Answer.{moment_of};
ghost use Rattle.s4_types.specs.Serials.{drawn};
ghost use Rattle.s4_types.specs.Bindings.{bound_count, has_name};
ghost use Rattle.s4_types.specs.Judgement.{held_at, judge as judge_of};
ghost use Rattle.s4_types.specs.Names.{object_in};
ghost use Rattle.s4_types.specs.Play.{last_of};
ghost use Rattle.s4_judge.specs.Held.{shown_held};
ghost use Rattle.s4_tracks.specs.Swept.{IsFrom};
ghost use Rattle.s4_state.specs.Laid.{version_at};
ghost use Rattle.s4_state.specs.Stored.{told_bytes};
ghost use Rattle.s4_state.specs.Weights.{cost_now};
ghost use Rattle.s4_types.specs.Contents.{data_of, acl_of};

use crate::history::History;
use crate::start::Start;
use crate::values::{Stored, held_of, stored_of};
use s4_judge::{Held, judge_now, judge_past};
use s4_names::Names;
use s4_objects::{Objects, Which};
use s4_store::Store;
use s4_types::{AclEntry, Caller, Grant, Moment, Name, ObjectId, Purse, Refusal, Right, Version};

/// What a value without bytes or entries costs once it is past.
const LEAST_COST: u32 = 64;

/// What the history starts from, the values, the objects and the serials drawn, the partitions, and
/// the records.
#[derive(Drop)]
pub struct Parts<S> {
    pub start: Start,
    pub store: S,
    pub objects: Objects,
    pub names: Names,
    pub partitions: s4_parts::Parts,
    pub history: History,
}

impl<S: Store<Version>> Parts<S> {
    ghost use Rattle.s4_state.specs.Told.{bound_object, data_told, attributes_told};
    ghost use Rattle.s4_state.specs.Stands.{base_in, log_in, horizon_now, IsKept};

    /// The object that the next Create in the purse makes, if a serial is left.
    pub fn next_object(&self, purse: &Purse) -> Option<ObjectId>
        requires { IsKept S.chains self.now }
        ensures some { IfSome result (λ o. o ≡ object_in purse.now
            (drawn (base_in self.now) purse.now self.now.history.records + 1)) }
        ensures left { is_some result
            ≡ not (nat_le 65535 (drawn (base_in self.now) purse.now self.now.history.records)) }
    {
        self.names.next_object(purse)
    }

    /// The object that a name in the purse is bound to, now or at a moment.
    pub fn bound(&self, purse: &Purse, name: &Name, at: Option<Moment>) -> Option<ObjectId>
        requires kept { IsKept S.chains self.now }
        requires told { IsFrom (horizon_now (base_in self.now) self.now.history.records) at }
        ensures { (t : ℕ) → last_of self.now.history.records ≤ t
            → result ≡ bound_object (log_in S.chains self.now) purse.now name.now at t }
    {
        self.partitions.mount(&self.store, purse, name, at)
    }

    /// How many names are bound in the purse.
    pub fn bound_count(&self, purse: &Purse) -> usize
        requires { IsKept S.chains self.now }
        ensures { (t : ℕ) → last_of self.now.history.records ≤ t
            → result ≡ bound_count (base_in self.now) purse.now t self.now.history.records }
    {
        self.partitions.bound_names(purse)
    }

    /// Whether the object has a bound name.
    pub fn has_name(&self, object: &ObjectId) -> bool
        requires { IsKept S.chains self.now }
        ensures { (t : ℕ) → last_of self.now.history.records ≤ t
            → result ≡ has_name (base_in self.now) object.now t self.now.history.records }
    {
        self.partitions.named(object)
    }

    /// The version in force on one of an object's tracks, now or at a moment.
    pub fn version(&self, object: &ObjectId, which: Which, at: Option<Moment>) -> Option<&Version>
        requires kept { IsKept S.chains self.now }
        requires told { IsFrom (horizon_now (base_in self.now) self.now.history.records) at }
        ensures { (t : ℕ) → last_of self.now.history.records ≤ t
            → option_copied result ≡ version_at (base_in self.now) which object.now
            (moment_of t at) self.now.history.records }
    {
        self.objects.version(&self.store, object, which, at)
    }

    /// What the current value of a track costs once it is past. Where the object doesn't live that
    /// is the cost of a value without bytes or entries.
    pub fn cost(&self, object: &ObjectId, which: Which) -> u32
        requires { IsKept S.chains self.now }
        ensures { (t : ℕ) → last_of self.now.history.records ≤ t
            → result ≡ cost_now (base_in self.now) which object.now t self.now.history.records }
    {
        match self.version(object, which, None) {
            Some(version) => version.cost,
            None => LEAST_COST,
        }
    }

    /// The current data, nothing where the object doesn't live. No flush erases them.
    pub fn current_data(&self, object: &ObjectId) -> &[u8]
        requires { IsKept S.chains self.now }
        ensures { (t : ℕ) → last_of self.now.history.records ≤ t
            → result.now ≡ data_of (base_in self.now) object.now t self.now.history.records }
    {
        self.data(object, None).as_slice().unwrap()
    }

    /// The data in force, nothing where the object doesn't live.
    pub fn data(&self, object: &ObjectId, at: Option<Moment>) -> Stored<'_>
        requires kept { IsKept S.chains self.now }
        requires told { IsFrom (horizon_now (base_in self.now) self.now.history.records) at }
        ensures { (t : ℕ) → last_of self.now.history.records ≤ t
            → told_bytes result ≡ data_told (log_in S.chains self.now) object.now at t }
    {
        stored_of(self.version(object, Which::Data, at))
    }

    /// The attributes in force, nothing where the object doesn't live.
    pub fn attributes(&self, object: &ObjectId, at: Option<Moment>) -> Stored<'_>
        requires kept { IsKept S.chains self.now }
        requires told { IsFrom (horizon_now (base_in self.now) self.now.history.records) at }
        ensures { (t : ℕ) → last_of self.now.history.records ≤ t
            → told_bytes result ≡ attributes_told (log_in S.chains self.now) object.now at t }
    {
        stored_of(self.version(object, Which::Attributes, at))
    }

    /// The ACL in force and since when, where the object lives.
    pub fn held(&self, object: &ObjectId, at: Option<Moment>) -> Option<Held<'_>>
        requires kept { IsKept S.chains self.now }
        requires told { IsFrom (horizon_now (base_in self.now) self.now.history.records) at }
        ensures { (t : ℕ) → last_of self.now.history.records ≤ t
            → shown_held result ≡ held_at (base_in self.now) object.now
            (moment_of t at) self.now.history.records }
    {
        held_of(self.version(object, Which::Acl, at))
    }

    /// The entries of the ACL in force, none where the object doesn't live.
    pub fn acl(&self, object: &ObjectId, at: Option<Moment>) -> &[AclEntry]
        requires kept { IsKept S.chains self.now }
        requires told { IsFrom (horizon_now (base_in self.now) self.now.history.records) at }
        ensures value { (t : ℕ) → last_of self.now.history.records ≤ t
            → result.now ≡ acl_of (base_in self.now) object.now
            (moment_of t at) self.now.history.records }
        ensures is_acl { IsAcl result.now }
    {
        match self.held(object, at) {
            Some(held) => held.acl.entries(),
            None => &[],
        }
    }

    /// Grants or refuses by the ACL in force, now or at a moment.
    pub fn judge(
        &self,
        caller: Caller,
        object: &ObjectId,
        right: Right,
        at: Option<Moment>,
    ) -> Result<Grant, Refusal>
        requires kept { IsKept S.chains self.now }
        requires told { IsFrom (horizon_now (base_in self.now) self.now.history.records) at }
        ensures { (t : ℕ) → last_of self.now.history.records ≤ t
            → result ≡ judge_of (base_in self.now) self.now.history.records
            t caller object.now right at }
    {
        let names_a_moment = at.is_some();
        let held = self.held(object, at);
        if names_a_moment {
            judge_past(caller, object, &held)
        } else {
            judge_now(caller, object, &held, right)
        }
    }
}
