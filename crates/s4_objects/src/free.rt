//! Freeing: an object's oldest value goes, and with its last one its entry.

ghost use Rattle.std.specs.Prelude.{◌≡◌, ◌+◌, true};
ghost use Rattle.std.specs.BTreeMap.{get};
ghost use Rattle.s4_store.specs.Chains.{item_count, IsOpen};
ghost use Rattle.s4_objects.specs.declared.kept.Which.{Which};
ghost use Rattle.s4_objects.specs.Keys.{object_cmp};
ghost use Rattle.s4_objects.specs.Chains.{chain_of, held, Chained};
ghost use Rattle.s4_objects.specs.Ends.{is_any};
ghost use Rattle.s4_objects.specs.Table.{holds_any, Frees};

use crate::begin::close;
use crate::kept::{Kept, Which};
use s4_store::Store;
use s4_types::{ObjectId, Version};
use std::collections::BTreeMap;

/// Frees the oldest value of a track. An object without values left gives up its entry and its
/// chains. Takes no memory.
pub fn free<S: Store<Version>>(
    store: &mut S,
    objects: &mut BTreeMap<ObjectId, Kept>,
    object: &ObjectId,
    which: Which,
)
    requires chained { Chained (S.chains store.old) (get object_cmp objects.old) }
    requires any { is_any (held (S.chains store.old) (get object_cmp objects.old object.now) which)
        ≡ true }
    ensures frees { Frees (S.chains store.old) (S.chains store.new) (get object_cmp objects.old)
        (get object_cmp objects.new) object.now which }
    ensures used { item_count (S.chains store.new) + 1 ≡ item_count (S.chains store.old) }
    ensures room { S.room store.new ≡ S.room store.old + 1 }
{
    let kept = objects.get(object).copied().unwrap();
    store.drop_oldest(kept.track(which).chain);
    if has_values(store, &kept) {
        return;
    }
    close(store, &kept);
    objects.remove(object);
}

// Whether a value is held on some track of the object.
fn has_values<S: Store<Version>>(store: &S, kept: &Kept) -> bool
    requires { (w : Which) → IsOpen (S.chains store.now) (chain_of w kept.now) }
    ensures { result ≡ holds_any (S.chains store.now) kept.now }
{
    store.len(kept.data.chain) > 0
        || store.len(kept.attributes.chain) > 0
        || store.len(kept.acl.chain) > 0
}
