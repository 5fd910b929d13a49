//! The objects that are kept.

ghost use Rattle.std.specs.Prelude.{◌≡◌, ◌+◌, ◌<◌, ◌≤◌, ℕ, true, false, ◌||◌, ◌&&◌, is_some, Some, IfSome, [], ◌∷◌, ◌++◌, IsOk, OnOk, OnErr, vec_capacity, min, drop, count_by, if◌then◌else◌};
ghost use Rattle.std.specs.List.{prefix_len};
ghost use Rattle.std.specs.BTreeMap.{get};
ghost use Rattle.std.specs.Option.{option_copied};
ghost use Rattle.s4_types.specs.declared.object.ObjectId.{ObjectId};
ghost use Rattle.s4_types.specs.declared.version.Version.{Version};
ghost use Rattle.s4_types.specs.Names.{same_object};
ghost use Rattle.s4_store.specs.Chains.{Chains, items_of, item_count, newest_of, IsOpen};
ghost use Rattle.s4_tracks.specs.Chain.{IsSmall, current_of, version_in, with_end, with_put};
ghost use Rattle.s4_tracks.specs.Swept.{IsSwept};
ghost use Rattle.s4_objects.specs.declared.kept.Which.{Which};
ghost use Rattle.s4_objects.specs.Chains.{same_which};
ghost use Rattle.s4_objects.specs.Keys.{object_cmp};
ghost use Rattle.s4_objects.specs.Ends.{is_gone, all_by, is_later};
ghost use Rattle.s4_objects.specs.Opening.{first_on};
ghost use Rattle.s4_objects.specs.Flushes.{Flushes, erasable_of};
ghost use Rattle.s4_objects.specs.Table.{found_in, kept_in, held_in, ends_in, room_in, Holds, KeepsOthers, LeavesNoChain};

use crate::begin::{begin, close, open};
use crate::ends::{Ended, take_gone};
use crate::flushes::{self, Refund};
use crate::free::free;
use crate::kept::{Kept, Which};
use s4_queue::Queue;
use s4_store::Store;
use s4_tracks::Track;
use s4_types::{Acl, Item, Moment, NoMemory, ObjectId, Version};
use std::alloc::Global;
use std::collections::BTreeMap;

/// The objects that are kept, each with its three tracks. Their values lie on chains of a store,
/// which the calls are lent: each track has a chain of its own. The ends of past values wait in a
/// queue, in their order, until a sweep frees those values.
#[derive(Drop)]
pub struct Objects {
    pub(crate) kept: BTreeMap<ObjectId, Kept>,
    pub(crate) ends: Queue<Ended>,
    // Whether a value ever ended before it began: then its end tells nothing of its begin.
    pub(crate) has_reversed: bool,
}

impl Objects {
    /// No objects. Takes no memory.
    pub fn new(alloc: Global) -> Objects
        ensures none { (o : ObjectId) → kept_in result o ≡ false }
        ensures held { (chains : Chains Version) (o : ObjectId) (w : Which)
            → held_in chains result o w ≡ [] }
        ensures ends { ends_in result ≡ [] }
        ensures holds { (chains : Chains Version) → Holds chains result }
    {
        Objects {
            kept: BTreeMap::new(alloc),
            ends: Queue::new(alloc),
            has_reversed: false,
        }
    }

    /// Makes room for so many ends. Room in the store is reserved apart.
    pub fn reserve(&mut self, ends: usize) -> Result<(), NoMemory>
        ensures room { OnOk result (ends ≤ room_in self.new) }
        ensures grown { room_in self.old ≤ room_in self.new }
        ensures kept { (o : ObjectId) → found_in self.new o ≡ found_in self.old o }
        ensures ends { ends_in self.new ≡ ends_in self.old }
        ensures holds { (chains : Chains Version) → Holds chains self.old → Holds chains self.new }
    {
        self.ends.reserve(ends)
    }

    /// Makes an object, whose three tracks begin at the moment, in room that was reserved in the
    /// store.
    pub fn create<S: Store<Version>>(
        &mut self,
        alloc: Global,
        store: &mut S,
        moment: Moment,
        object: &ObjectId,
    ) -> Result<(), NoMemory>
        requires holds { Holds (S.chains store.old) self.old }
        requires fresh { kept_in self.old object.now ≡ false }
        requires room { 3 ≤ S.room store.old }
        ensures holds { Holds (S.chains store.new) self.new }
        ensures kept { OnOk result ((o : ObjectId)
            → kept_in self.new o ≡ (same_object object.now o || kept_in self.old o)) }
        ensures held { OnOk result ((o : ObjectId) (w : Which)
            → held_in (S.chains store.new) self.new o w
            ≡ (if same_object object.now o then first_on w moment object.now.purse.creator ∷ []
            else held_in (S.chains store.old) self.old o w)) }
        ensures ends { ends_in self.new ≡ ends_in self.old }
        ensures others { KeepsOthers (S.chains store.old) (S.chains store.new) self.old self.new }
        ensures leaves { LeavesNoChain (S.chains store.old) (S.chains store.new) self.old self.new }
        ensures room { room_in self.new ≡ room_in self.old }
        ensures used { OnOk result
            (item_count (S.chains store.new) ≡ item_count (S.chains store.old) + 3) }
        ensures store_room { OnOk result (S.room store.new + 3 ≡ S.room store.old) }
        ensures refused { OnErr result (S.chains store.new ≡ S.chains store.old) }
        ensures unkept { OnErr result ((o : ObjectId) → found_in self.new o ≡ found_in self.old o) }
        ensures refused_room { OnErr result (S.room store.new ≡ S.room store.old) }
    {
        let acl = Acl::of_creator(alloc, object.purse.creator)?;
        let kept = open(store)?;
        match keep(&mut self.kept, object, &kept) {
            Ok(()) => {
                begin(store, &kept, moment, acl);
                Ok(())
            }
            Err(refused) => {
                close(store, &kept);
                Err(refused)
            }
        }
    }

    /// Whether the object is kept.
    pub fn is_kept(&self, object: &ObjectId) -> bool
        ensures { result ≡ kept_in self.now object.now }
    {
        self.kept.contains_key(object)
    }

    /// The version in force on one of an object's tracks, now or at a moment. It looks at the
    /// values from the newest to the one that it finds.
    pub fn version<'a, S: Store<Version>>(
        &self,
        store: &'a S,
        object: &ObjectId,
        which: Which,
        at: Option<Moment>,
    ) -> Option<&'a Version>
        requires { Holds (S.chains store.now) self.now }
        ensures { option_copied result
            ≡ version_in at (held_in (S.chains store.now) self.now object.now which) }
    {
        match self.kept.get(object) {
            Some(kept) => kept.track(which).version(store, at),
            None => None,
        }
    }

    /// Ends the current value of a track and puts another after it, in room that was reserved here
    /// and in the store. The moment isn't before the begin of the current value, nor before the end of
    /// any past value that is held. Takes no memory.
    pub fn put<S: Store<Version>>(
        &mut self,
        store: &mut S,
        moment: Moment,
        object: &ObjectId,
        which: Which,
        item: Item,
    )
        requires holds { Holds (S.chains store.old) self.old }
        requires current { is_some (current_of
            (held_in (S.chains store.old) self.old object.now which)) ≡ true }
        requires later { all_by moment (ends_in self.old) ≡ true }
        requires begun { IfSome (newest_of (held_in (S.chains store.old) self.old object.now which))
            (λ v. v.begin ≤ moment) }
        requires small { IsSmall item }
        requires room { 0 < room_in self.old }
        requires store_room { 0 < S.room store.old }
        ensures holds { Holds (S.chains store.new) self.new }
        ensures kept { (o : ObjectId) → found_in self.new o ≡ found_in self.old o }
        ensures held { (o : ObjectId) (w : Which) → held_in (S.chains store.new) self.new o w
            ≡ (if same_object object.now o && same_which which w
            then with_put moment item (held_in (S.chains store.old) self.old o w)
            else held_in (S.chains store.old) self.old o w) }
        ensures ends { ends_in self.new ≡ ends_in self.old ++ moment ∷ [] }
        ensures by_now { all_by moment (ends_in self.new) ≡ true }
        ensures room { room_in self.new + 1 ≡ room_in self.old }
        ensures others { KeepsOthers (S.chains store.old) (S.chains store.new) self.old self.new }
        ensures leaves { LeavesNoChain (S.chains store.old) (S.chains store.new) self.old self.new }
        ensures used { item_count (S.chains store.new) ≡ item_count (S.chains store.old) + 1 }
        ensures store_room { S.room store.new + 1 ≡ S.room store.old }
    {
        let kept = self.kept.get(object).copied().unwrap();
        kept.track(which).put(store, moment, item);
        self.ends.push(Ended {
            end: moment,
            object: *object,
            which,
        });
    }

    /// Ends the current values of an object, in room that was reserved here. The moment isn't
    /// before the end of any past value that is held. Takes no memory.
    pub fn end_all<S: Store<Version>>(&mut self, store: &mut S, moment: Moment, object: &ObjectId)
        requires holds { Holds (S.chains store.old) self.old }
        requires current { (w : Which)
            → is_some (current_of (held_in (S.chains store.old) self.old object.now w)) ≡ true }
        requires later { all_by moment (ends_in self.old) ≡ true }
        requires room { 3 ≤ room_in self.old }
        ensures holds { Holds (S.chains store.new) self.new }
        ensures kept { (o : ObjectId) → found_in self.new o ≡ found_in self.old o }
        ensures held { (o : ObjectId) (w : Which) → held_in (S.chains store.new) self.new o w
            ≡ (if same_object object.now o
            then with_end moment (held_in (S.chains store.old) self.old o w)
            else held_in (S.chains store.old) self.old o w) }
        ensures ends { ends_in self.new ≡ ends_in self.old ++ moment ∷ moment ∷ moment ∷ [] }
        ensures by_now { all_by moment (ends_in self.new) ≡ true }
        ensures room { room_in self.new + 3 ≡ room_in self.old }
        ensures others { KeepsOthers (S.chains store.old) (S.chains store.new) self.old self.new }
        ensures leaves { LeavesNoChain (S.chains store.old) (S.chains store.new) self.old self.new }
        ensures used { item_count (S.chains store.new) ≡ item_count (S.chains store.old) }
        ensures store_room { S.room store.new ≡ S.room store.old }
    {
        self.end(store, moment, object, Which::Data);
        self.end(store, moment, object, Which::Attributes);
        self.end(store, moment, object, Which::Acl);
    }

    // Ends the current value of a track, in room that was reserved.
    fn end<S: Store<Version>>(
        &mut self,
        store: &mut S,
        moment: Moment,
        object: &ObjectId,
        which: Which,
    )
        requires holds { Holds (S.chains store.old) self.old }
        requires current { is_some (current_of
            (held_in (S.chains store.old) self.old object.now which)) ≡ true }
        requires later { all_by moment (ends_in self.old) ≡ true }
        requires room { 0 < room_in self.old }
        ensures holds { Holds (S.chains store.new) self.new }
        ensures kept { (o : ObjectId) → found_in self.new o ≡ found_in self.old o }
        ensures held { (o : ObjectId) (w : Which) → held_in (S.chains store.new) self.new o w
            ≡ (if same_object object.now o && same_which which w
            then with_end moment (held_in (S.chains store.old) self.old o w)
            else held_in (S.chains store.old) self.old o w) }
        ensures ends { ends_in self.new ≡ ends_in self.old ++ moment ∷ [] }
        ensures by_now { all_by moment (ends_in self.new) ≡ true }
        ensures room { room_in self.new + 1 ≡ room_in self.old }
        ensures others { KeepsOthers (S.chains store.old) (S.chains store.new) self.old self.new }
        ensures leaves { LeavesNoChain (S.chains store.old) (S.chains store.new) self.old self.new }
        ensures used { item_count (S.chains store.new) ≡ item_count (S.chains store.old) }
        ensures store_room { S.room store.new ≡ S.room store.old }
    {
        let kept = self.kept.get(object).copied().unwrap();
        let track = kept.track(which);
        self.has_reversed |= begins_after(store, &track, moment);
        track.end(store, moment);
        self.ends.push(Ended {
            end: moment,
            object: *object,
            which,
        });
    }

    /// Erases the past values of all objects' data and attributes that begin at or after `from` and
    /// end at or before `to`, and puts what that takes back of the purses' charges into a list that
    /// is empty. It goes over the ends that lie between those moments, and finds the value of each in
    /// O(log) looks; where a track had several values at one moment, each of their ends may look at
    /// all of them. It takes no memory where the list has room for as many as the store holds.
    pub fn flush<S: Store<Version>>(
        &self,
        store: &mut S,
        from: Moment,
        to: Moment,
        refunds: &mut Vec<Refund>,
    ) -> Result<(), NoMemory>
        requires holds { Holds (S.chains store.old) self.now }
        requires empty { refunds.old.items ≡ [] }
        ensures ok { OnOk result (Flushes (S.chains store.old) (S.chains store.new)
            (found_in self.now)
            (λ o. true) from to refunds.new.items) }
        ensures err { OnErr result (S.chains store.new ≡ S.chains store.old) }
        ensures none { OnErr result (refunds.new.items ≡ []) }
        ensures capacity { vec_capacity refunds.old ≤ vec_capacity refunds.new }
        ensures enough { item_count (S.chains store.old) ≤ vec_capacity refunds.old → IsOk result }
        ensures holds { Holds (S.chains store.new) self.now }
        ensures leaves { LeavesNoChain (S.chains store.old) (S.chains store.new) self.now self.now }
        ensures room { S.room store.new ≡ S.room store.old }
    {
        flushes::flush(store, self, from, to, refunds)
    }

    /// Erases the past values of one object's data and attributes that begin at or after `from` and
    /// end at or before `to`, and puts what that takes back of its purse's charges into a list that
    /// is empty. It looks at each value that is held of the object. It takes no memory where the
    /// list has room for as many as it erases.
    pub fn flush_object<S: Store<Version>>(
        &self,
        store: &mut S,
        object: &ObjectId,
        from: Moment,
        to: Moment,
        refunds: &mut Vec<Refund>,
    ) -> Result<(), NoMemory>
        requires holds { Holds (S.chains store.old) self.now }
        requires empty { refunds.old.items ≡ [] }
        ensures ok { OnOk result (Flushes (S.chains store.old) (S.chains store.new)
            (found_in self.now)
            (same_object object.now) from to refunds.new.items) }
        ensures err { OnErr result (S.chains store.new ≡ S.chains store.old) }
        ensures none { OnErr result (refunds.new.items ≡ []) }
        ensures capacity { vec_capacity refunds.old ≤ vec_capacity refunds.new }
        ensures enough { erasable_of (S.chains store.old) from to (found_in self.now object.now)
            ≤ vec_capacity refunds.old → IsOk result }
        ensures holds { Holds (S.chains store.new) self.now }
        ensures leaves { LeavesNoChain (S.chains store.old) (S.chains store.new) self.now self.now }
        ensures room { S.room store.new ≡ S.room store.old }
    {
        flushes::flush_object(store, &self.kept, object, from, to, refunds)
    }

    /// Frees at most so many past values that have ended by the horizon, those that ended first
    /// before the others, and tells how many it freed. An object without values left gives up its
    /// entry. It looks at those that it frees, and at one more. Takes no memory.
    pub fn expire<S: Store<Version>>(&mut self, store: &mut S, horizon: Moment, most: u64) -> u64
        requires { Holds (S.chains store.old) self.old }
        ensures freed { result ≡ min most (count_by (is_gone horizon) (ends_in self.old)) }
        ensures first { result ≡ min most (prefix_len (is_gone horizon) (ends_in self.old)) }
        ensures ends { ends_in self.new ≡ drop result (ends_in self.old) }
        ensures by_then { (m : ℕ) → all_by m (ends_in self.old) ≡ true
            → all_by m (ends_in self.new) ≡ true }
        ensures held { (o : ObjectId) (w : Which)
            → IsSwept horizon (held_in (S.chains store.new) self.new o w)
            (held_in (S.chains store.old) self.old o w) }
        ensures kept { (o : ObjectId) → kept_in self.new o ≡ true → kept_in self.old o ≡ true }
        ensures holds { Holds (S.chains store.new) self.new }
        ensures room { room_in self.new ≡ room_in self.old + result }
        ensures others { KeepsOthers (S.chains store.old) (S.chains store.new) self.old self.new }
        ensures leaves { LeavesNoChain (S.chains store.old) (S.chains store.new) self.old self.new }
        ensures used { item_count (S.chains store.new) + result ≡ item_count (S.chains store.old) }
        ensures store_room { S.room store.new ≡ S.room store.old + result }
    {
        // Ends wait as values ended, each track's in its chain's order: the first is its oldest's.
        for freed in 0..most {
            let Some(ended) = take_gone(&mut self.ends, horizon) else {
                return freed;
            };
            free(store, &mut self.kept, &ended.object, ended.which);
        }
        most
    }
}

// Whether the current value of a track begins after the moment.
fn begins_after<S: Store<Version>>(store: &S, track: &Track, moment: Moment) -> bool
    requires { IsOpen (S.chains store.now) track.now.chain }
    ensures { result ≡ is_later moment (current_of (items_of (S.chains store.now) track.now.chain)) }
{
    match track.current(store) {
        Some(version) => moment < version.begin,
        None => false,
    }
}

// Keeps an object that isn't kept yet.
fn keep(
    objects: &mut BTreeMap<ObjectId, Kept>,
    object: &ObjectId,
    kept: &Kept,
) -> Result<(), NoMemory>
    ensures ok { OnOk result ((o : ObjectId) → get object_cmp objects.new o
        ≡ (if same_object object.now o then Some kept.now else get object_cmp objects.old o)) }
    ensures err { OnErr result ((o : ObjectId)
        → get object_cmp objects.new o ≡ get object_cmp objects.old o) }
{
    objects.insert(*object, *kept)?;
    Ok(())
}
