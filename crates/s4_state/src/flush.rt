//! Flush and FlushO: past data and attributes that the administrator erases.

ghost use Rattle.std.specs.Prelude.{◌≡◌, ◌≤◌, ℕ, false, IsOk, OnOk, OnErr, vec_capacity, ◌++◌, ◌∷◌, []};
ghost use Rattle.s4_store.specs.Chains.{item_count};
ghost use Rattle.s4_types.specs.declared.request.Request.TheVariants as request;
ghost use Rattle.s4_types.specs.declared.object.Purse.{Purse};
ghost use Rattle.s4_types.specs.Kinds.{is_refused};
ghost use Rattle.s4_state.specs.Flushes.{IsNothingBy, IsCharged};
ghost use Rattle.s4_state.specs.Sound.{IsSound, IsNext};
ghost use Rattle.s4_state.specs.Stands.{base_in, horizon_now, IsKept, StandsWith, StandsStill};

use crate::parts::Parts;
use s4_objects::Refund;
use s4_store::Store;
use s4_types::{Moment, NoMemory, ObjectId, Record, Version};

/// Carries out the Flush that the record tells of, and puts what it takes back of charges into a
/// list that is empty.
pub fn apply<S: Store<Version>>(
    parts: &mut Parts<S>,
    added: &Record,
    from: Moment,
    to: Moment,
    refunds: &mut Vec<Refund>,
) -> Result<(), NoMemory>
    requires kept { IsKept S.chains parts.old }
    requires asked { added.now.request ≡ request.Flush from to }
    requires next { IsNext (base_in parts.old) parts.old.history.records added.now }
    requires granted { is_refused added.now.reply ≡ false }
    requires sound { IsSound (base_in parts.old) (parts.old.history.records ++ added.now ∷ []) }
    requires empty { refunds.old.items ≡ [] }
    ensures ok { OnOk result (StandsWith S.chains parts.old parts.new added.now) }
    ensures charged { OnOk result ((weight : ℕ → ℕ → ℕ) (p : Purse)
        → IsNothingBy (horizon_now (base_in parts.old) parts.old.history.records) weight
        → IsCharged (base_in parts.old) weight p parts.old.history.records
        added.now refunds.new.items) }
    ensures err { OnErr result (StandsStill S.chains parts.old parts.new) }
    ensures none { OnErr result (refunds.new.items ≡ []) }
    ensures capacity { vec_capacity refunds.old ≤ vec_capacity refunds.new }
    ensures enough { item_count (S.chains parts.old.store) ≤ vec_capacity refunds.old
        → IsOk result }
    ensures history { parts.new.history ≡ parts.old.history }
    ensures start { parts.new.start ≡ parts.old.start }
{
    let store = &mut parts.store;
    parts.objects.flush(store, from, to, refunds)
}

/// Carries out the FlushO that the record tells of, and puts what it takes back of charges into a
/// list that is empty.
pub fn apply_to_one<S: Store<Version>>(
    parts: &mut Parts<S>,
    added: &Record,
    object: &ObjectId,
    from: Moment,
    to: Moment,
    refunds: &mut Vec<Refund>,
) -> Result<(), NoMemory>
    requires kept { IsKept S.chains parts.old }
    requires asked { added.now.request ≡ request.FlushO object.now from to }
    requires next { IsNext (base_in parts.old) parts.old.history.records added.now }
    requires granted { is_refused added.now.reply ≡ false }
    requires sound { IsSound (base_in parts.old) (parts.old.history.records ++ added.now ∷ []) }
    requires empty { refunds.old.items ≡ [] }
    ensures ok { OnOk result (StandsWith S.chains parts.old parts.new added.now) }
    ensures charged { OnOk result ((weight : ℕ → ℕ → ℕ) (p : Purse)
        → IsNothingBy (horizon_now (base_in parts.old) parts.old.history.records) weight
        → IsCharged (base_in parts.old) weight p parts.old.history.records
        added.now refunds.new.items) }
    ensures err { OnErr result (StandsStill S.chains parts.old parts.new) }
    ensures none { OnErr result (refunds.new.items ≡ []) }
    ensures capacity { vec_capacity refunds.old ≤ vec_capacity refunds.new }
    ensures history { parts.new.history ≡ parts.old.history }
    ensures start { parts.new.start ≡ parts.old.start }
{
    let store = &mut parts.store;
    parts.objects.flush_object(store, object, from, to, refunds)
}
