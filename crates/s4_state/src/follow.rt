//! One record more: what is kept follows it.

ghost use Rattle.std.specs.Prelude.{◌≡◌, ◌≤◌, ℕ, true, false, IsOk, OnOk, OnErr, vec_capacity, ◌++◌, ◌∷◌, []};
ghost use Rattle.s4_store.specs.Chains.{item_count};
ghost use Rattle.s4_types.specs.declared.object.Purse.{Purse};
ghost use Rattle.s4_types.specs.Kinds.{is_refused, is_wide};
ghost use Rattle.s4_state.specs.Flushes.{is_flush, IsNothingBy, IsCharged};
ghost use Rattle.s4_state.specs.Sound.{IsSound, IsNext};
ghost use Rattle.s4_state.specs.Stands.{base_in, horizon_now, IsKept, StandsWith, StandsStill};

use crate::parts::Parts;
use crate::{acl, append, attributes, create, delete, flush, partitions, truncate, write};
use s4_objects::Refund;
use s4_store::Store;
use s4_types::{NoMemory, Record, Request, Version};
use std::alloc::Global;

/// Brings what is kept of objects and names to where the record leaves it, and puts what a flush
/// takes back of charges into a list that is empty. Every growth comes before any change that a
/// call tells. A wide request's record takes no memory, if for a flush the list has room for as
/// many as the store holds.
pub fn follow<S: Store<Version>>(
    alloc: Global,
    parts: &mut Parts<S>,
    added: &Record,
    refunds: &mut Vec<Refund>,
) -> Result<(), NoMemory>
    requires kept { IsKept S.chains parts.old }
    requires next { IsNext (base_in parts.old) parts.old.history.records added.now }
    requires sound { IsSound (base_in parts.old) (parts.old.history.records ++ added.now ∷ []) }
    requires empty { refunds.old.items ≡ [] }
    ensures ok { OnOk result (StandsWith S.chains parts.old parts.new added.now) }
    ensures charged { OnOk result ((weight : ℕ → ℕ → ℕ) (p : Purse)
        → IsNothingBy (horizon_now (base_in parts.old) parts.old.history.records) weight
        → IsCharged (base_in parts.old) weight p parts.old.history.records
        added.now refunds.new.items) }
    ensures refused { is_refused added.now.reply ≡ true → refunds.new.items ≡ [] }
    ensures err { OnErr result (StandsStill S.chains parts.old parts.new) }
    ensures none { OnErr result (refunds.new.items ≡ []) }
    ensures capacity { vec_capacity refunds.old ≤ vec_capacity refunds.new }
    ensures enough { is_wide added.now.caller added.now.request ≡ true
        → (is_flush added.now.request ≡ true
        → item_count (S.chains parts.old.store) ≤ vec_capacity refunds.old)
        → IsOk result }
    ensures history { parts.new.history ≡ parts.old.history }
    ensures start { parts.new.start ≡ parts.old.start }
{
    if added.reply.is_refused() {
        return Ok(());
    }
    match &added.request {
        Request::Flush { from, to } => flush::apply(parts, added, *from, *to, refunds),
        Request::FlushO { object, from, to } => {
            flush::apply_to_one(parts, added, object, *from, *to, refunds)
        }
        _ => change(alloc, parts, added),
    }
}

// Brings what is kept of objects and names to where a record leaves it that is no flush.
fn change<S: Store<Version>>(
    alloc: Global,
    parts: &mut Parts<S>,
    added: &Record,
) -> Result<(), NoMemory>
    requires kept { IsKept S.chains parts.old }
    requires next { IsNext (base_in parts.old) parts.old.history.records added.now }
    requires granted { is_refused added.now.reply ≡ false }
    requires plain { is_flush added.now.request ≡ false }
    requires sound { IsSound (base_in parts.old) (parts.old.history.records ++ added.now ∷ []) }
    ensures ok { OnOk result (StandsWith S.chains parts.old parts.new added.now) }
    ensures err { OnErr result (StandsStill S.chains parts.old parts.new) }
    ensures wide { is_wide added.now.caller added.now.request ≡ true → IsOk result }
    ensures history { parts.new.history ≡ parts.old.history }
    ensures start { parts.new.start ≡ parts.old.start }
{
    match &added.request {
        Request::Create { number } => create::apply(alloc, parts, added, *number),
        Request::Delete { object } => delete::apply(parts, added, object),
        Request::Write {
            object,
            offset,
            bytes,
        } => write::apply(alloc, parts, added, object, *offset, bytes),
        Request::Append { object, bytes } => append::apply(alloc, parts, added, object, bytes),
        Request::Truncate { object, length } => {
            truncate::apply(alloc, parts, added, object, *length)
        }
        Request::SetAttr { object, bytes } => attributes::set(parts, added, object, bytes),
        Request::SetAcl {
            object,
            user,
            rights,
        } => acl::apply(alloc, parts, added, object, *user, *rights),
        Request::PCreate { name, object } => partitions::bind(parts, added, name, object),
        Request::PDelete { purse, name } => {
            partitions::unbind(parts, added, purse, name);
            Ok(())
        }
        // a read changes nothing, and neither does what holds of budgets or of all purses
        _ => Ok(()),
    }
}
