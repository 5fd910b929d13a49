//! Flushes: values of the past lose their items, on all objects or on one.

ghost use Rattle.std.specs.Prelude.{◌≡◌, ◌+◌, ◌<◌, ◌≤◌, ◌==◌, ℕ, true, false, None, Some, map, length, vec_capacity, count_by, [], ◌++◌, IsOk, IfSome, IfNone, OnSome, OnOk, OnErr};
ghost use Rattle.std.specs.BTreeMap.{get};
ghost use Rattle.std.specs.FinMap as finmap;
ghost use Rattle.std.specs.List.{cons_option};
ghost use Rattle.std.specs.List.Sorted.{IsPartitionPoint};
ghost use Rattle.s4_types.specs.Names.{same_object};
ghost use Rattle.s4_store.specs.Chains.{items_of, item_count, IsOpen, StillOpen};
ghost use Rattle.s4_tracks.specs.Chain.{flushed, is_erasable as can_be_erased, IsInOrder};
ghost use Rattle.s4_tracks.specs.EndEraser as eraser;
ghost use Rattle.s4_objects.specs.declared.kept.Kept.{Kept};
ghost use Rattle.s4_objects.specs.Keys.{object_cmp};
ghost use Rattle.s4_objects.specs.Chains.{chain_of, held, Chained};
ghost use Rattle.s4_objects.specs.Ends.{all_ends, IsRising};
ghost use Rattle.s4_objects.specs.Flushes.{Flushes, is_flushed_on, refund_to, refunds_of, erasable_count, erasable_of};
ghost use Rattle.s4_objects.specs.Erasing.{IsPassedBefore, IsOnItsWay, ErasesNext, next_refunds};
ghost use Rattle.s4_objects.specs.Table.{found_in, Holds};

use crate::ends::Ended;
use crate::kept::{Kept, Which};
use crate::objects::Objects;
use s4_queue::Queue;
use s4_store::Store;
use s4_tracks::{EndEraser, Eraser, Track};
use s4_types::{Moment, NoMemory, ObjectId, Purse, Version};
use std::collections::BTreeMap;

/// What a flush takes back of a purse's charges: those for one value, which had that end and that
/// cost.
#[derive(Clone, Copy, PartialEq, Eq)]
pub struct Refund {
    pub purse: Purse,
    pub end: Moment,
    pub cost: u32,
}

/// Erases the past values of all objects' data and attributes that begin at or after `from` and end
/// at or before `to`, and puts what that takes back of the purses' charges into a list that is
/// empty. It goes over the ends that lie between those moments: each is that of one value. It takes
/// no memory where the list has room for as many as the store holds.
///
/// The value of an end is found by halving its track's values, in O(log) looks; where the end before
/// is of the same track and moment, it is the next one. So it looks at values outside of its span
/// only to find those within it. Where a track had several values at one moment, and ends of other
/// tracks stand between theirs, each of these ends may look at all of them.
pub fn flush<S: Store<Version>>(
    store: &mut S,
    objects: &Objects,
    from: Moment,
    to: Moment,
    refunds: &mut Vec<Refund>,
) -> Result<(), NoMemory>
    requires holds { Holds (S.chains store.old) objects.now }
    requires empty { refunds.old.items ≡ [] }
    ensures ok { OnOk result (Flushes (S.chains store.old) (S.chains store.new)
        (found_in objects.now)
        (λ o. true) from to refunds.new.items) }
    ensures err { OnErr result (S.chains store.new ≡ S.chains store.old) }
    ensures none { OnErr result (refunds.new.items ≡ []) }
    ensures capacity { vec_capacity refunds.old ≤ vec_capacity refunds.new }
    ensures enough { item_count (S.chains store.old) ≤ vec_capacity refunds.old → IsOk result }
    ensures room { S.room store.new ≡ S.room store.old }
{
    let first = first_from(objects, from);
    let behind = ends_by(&objects.ends, to);
    refunds.reserve(behind.saturating_sub(first))?;
    let mut eraser = None;
    for at in first..behind {
        let ended = objects.ends[at];
        eraser = erase_ended(store, &objects.kept, &ended, from, eraser, refunds);
    }
    Ok(())
}

// How many ends a flush leaves out that reaches values from the moment on. Where a value ended before
// it began, its end doesn't tell that it is out of reach.
fn first_from(objects: &Objects, from: Moment) -> usize
    requires { IsRising (all_ends objects.now.ends.items) }
    ensures timely { objects.now.has_reversed ≡ false
        → IsPartitionPoint (λ e. e.end < from) (λ e. from ≤ e.end) objects.now.ends.items result }
    ensures reversed { objects.now.has_reversed ≡ true → result ≡ 0 }
{
    if objects.has_reversed {
        return 0;
    }
    ends_before(&objects.ends, from)
}

// How many ends are before the moment.
fn ends_before(ends: &Queue<Ended>, moment: Moment) -> usize
    requires { IsRising (all_ends ends.now.items) }
    ensures { IsPartitionPoint (λ e. e.end < moment) (λ e. moment ≤ e.end) ends.now.items result }
{
    ends.partition_point(|ended| ended.end < moment)
}

// How many ends are at most the moment.
fn ends_by(ends: &Queue<Ended>, moment: Moment) -> usize
    requires { IsRising (all_ends ends.now.items) }
    ensures within { result ≤ length ends.now.items }
    ensures point { IsPartitionPoint (λ e. e.end ≤ moment) (λ e. moment < e.end)
        ends.now.items result }
{
    ends.partition_point(|ended| ended.end <= moment)
}

// Erases the oldest value that is left of those that ended at this end, where a flush reaches its
// track, and adds the refund in room that was reserved. It goes on with the walk of the end before,
// where that is of the same values, and gives the walk for the end behind. Takes no memory.
fn erase_ended<S: Store<Version>>(
    store: &mut S,
    objects: &BTreeMap<ObjectId, Kept>,
    ended: &Ended,
    from: Moment,
    before: Option<EndEraser>,
    refunds: &mut Vec<Refund>,
) -> Option<EndEraser>
    requires chained { Chained (S.chains store.old) (get object_cmp objects.now) }
    requires order { IsInOrder
        (held (S.chains store.old) (get object_cmp objects.now ended.now.object) ended.now.which) }
    requires passed { is_flushed_on ended.now.which ≡ true
        → IsPassedBefore from ended.now.end
        (held (S.chains store.old) (get object_cmp objects.now ended.now.object) ended.now.which) }
    requires walk { IfSome before (IsOnItsWay (S.chains store.old) from) }
    requires room { length refunds.old.items < vec_capacity refunds.old }
    ensures erases { ErasesNext (S.chains store.old) (S.chains store.new)
        (get object_cmp objects.now)
        from ended.now }
    ensures refunds { refunds.new.items ≡ refunds.old.items ++ next_refunds from ended.now
        (held (S.chains store.old) (get object_cmp objects.now ended.now.object) ended.now.which) }
    ensures walk { IfSome result (IsOnItsWay (S.chains store.new) from) }
    ensures capacity { vec_capacity refunds.new ≡ vec_capacity refunds.old }
    ensures room { S.room store.new ≡ S.room store.old }
{
    let Some(track) = flushed_track(objects, ended) else {
        return before;
    };
    let mut eraser = eraser_of(store, &track, from, ended.end, before);
    let told = eraser.erase_next(store);
    add_refund(&ended.object.purse, told, refunds);
    Some(eraser)
}

// The track that had the value, where a flush reaches it.
fn flushed_track(objects: &BTreeMap<ObjectId, Kept>, ended: &Ended) -> Option<Track>
    ensures some { IfSome result (λ track. (k : Kept)
        × (get object_cmp objects.now ended.now.object ≡ Some k)
        × (track.chain ≡ chain_of ended.now.which k)) }
    ensures flushed { OnSome result (is_flushed_on ended.now.which ≡ true) }
    ensures none { IfNone result (is_flushed_on ended.now.which ≡ true
        → get object_cmp objects.now ended.now.object ≡ None) }
{
    let kept = objects.get(&ended.object)?;
    match ended.which {
        Which::Data => Some(kept.data),
        Which::Attributes => Some(kept.attributes),
        Which::Acl => None,
    }
}

// The walk of the end before, where it is along that track and over the values with that end, and
// else a new one.
fn eraser_of<S: Store<Version>>(
    store: &S,
    track: &Track,
    from: Moment,
    end: Moment,
    before: Option<EndEraser>,
) -> EndEraser
    requires open { IsOpen (S.chains store.now) track.now.chain }
    requires order { IsInOrder (items_of (S.chains store.now) track.now.chain) }
    requires passed { IsPassedBefore from end (items_of (S.chains store.now) track.now.chain) }
    requires walk { IfSome before (IsOnItsWay (S.chains store.now) from) }
    ensures chain { eraser.chain_of result ≡ track.now.chain }
    ensures end { eraser.end_of result ≡ end }
    ensures walk { IsOnItsWay (S.chains store.now) from result }
{
    if let Some(eraser) = before {
        if eraser.is_of(track, end) {
            return eraser;
        }
    }
    EndEraser::new(store, track, from, end)
}

// Adds what was told of an erased value, in room that was reserved. Takes no memory.
fn add_refund(purse: &Purse, told: Option<(Moment, u32)>, refunds: &mut Vec<Refund>)
    requires { length refunds.old.items < vec_capacity refunds.old }
    ensures items { refunds.new.items ≡ refunds.old.items
        ++ map (refund_to purse.now) (cons_option told []) }
    ensures capacity { vec_capacity refunds.new ≡ vec_capacity refunds.old }
{
    if let Some((end, cost)) = told {
        refunds.push_reserved(Refund {
            purse: *purse,
            end,
            cost,
        });
    }
}

/// Erases the past values of one object's data and attributes that begin at or after `from` and end
/// at or before `to`, and puts what that takes back of its purse's charges into a list that is
/// empty. It looks at each value that is held of the object. It takes no memory where the list has
/// room for as many as it erases.
pub fn flush_object<S: Store<Version>>(
    store: &mut S,
    objects: &BTreeMap<ObjectId, Kept>,
    object: &ObjectId,
    from: Moment,
    to: Moment,
    refunds: &mut Vec<Refund>,
) -> Result<(), NoMemory>
    requires chained { Chained (S.chains store.old) (get object_cmp objects.now) }
    requires empty { refunds.old.items ≡ [] }
    ensures ok { OnOk result (Flushes (S.chains store.old) (S.chains store.new)
        (get object_cmp objects.now)
        (same_object object.now) from to refunds.new.items) }
    ensures err { OnErr result (S.chains store.new ≡ S.chains store.old) }
    ensures none { OnErr result (refunds.new.items ≡ []) }
    ensures capacity { vec_capacity refunds.old ≤ vec_capacity refunds.new }
    ensures enough { erasable_of (S.chains store.old) from to
        (get object_cmp objects.now object.now)
        ≤ vec_capacity refunds.old → IsOk result }
    ensures room { S.room store.new ≡ S.room store.old }
{
    let Some(kept) = objects.get(object) else {
        return Ok(());
    };
    let count = count_kept(store, kept, from, to);
    refunds.reserve(count)?;
    flush_kept(store, &object.purse, kept, from, to, refunds);
    Ok(())
}

// How many values of one object a flush erases.
fn count_kept<S: Store<Version>>(store: &S, kept: &Kept, from: Moment, to: Moment) -> usize
    requires data { IsOpen (S.chains store.now) kept.now.data.chain }
    requires attributes { IsOpen (S.chains store.now) kept.now.attributes.chain }
    requires apart { (kept.now.attributes.chain == kept.now.data.chain) ≡ false }
    ensures { result ≡ erasable_count (S.chains store.now) from to kept.now }
{
    let data = count_track(store, kept.data, from, to);
    let attributes = count_track(store, kept.attributes, from, to);
    added(store, data, attributes)
}

// The sum of two counts of values that the store holds. The store counts all that it holds, so no
// such sum is too great.
fn added<S: Store<Version>>(store: &S, a: usize, b: usize) -> usize
    requires { a + b ≤ item_count (S.chains store.now) }
    ensures { result ≡ a + b }
{
    let held = store.used();
    prove!(a <= held && b <= held - a);
    a + b
}

// How many values of one track a flush erases. It looks at each value once.
fn count_track<S: Store<Version>>(store: &S, track: Track, from: Moment, to: Moment) -> usize
    requires { IsOpen (S.chains store.now) track.chain }
    ensures { result ≡ count_by (can_be_erased from to)
        (items_of (S.chains store.now) track.chain) }
{
    let mut count: usize = 0;
    let mut at = store.newest_place(track.chain);
    while let Some(place) = at {
        if is_erasable(store.item(place), from, to) {
            count = added(store, count, 1);
        }
        at = store.older(place);
    }
    count
}

// Whether a flush of these moments has yet to erase the value.
fn is_erasable(version: &Version, from: Moment, to: Moment) -> bool
    ensures { result ≡ can_be_erased from to version.now }
{
    let Some(end) = version.end else {
        return false;
    };
    from <= version.begin && end <= to && version.item.is_some()
}

// Flushes one object, and adds the refunds in room that was reserved. Takes no memory.
fn flush_kept<S: Store<Version>>(
    store: &mut S,
    purse: &Purse,
    kept: &Kept,
    from: Moment,
    to: Moment,
    refunds: &mut Vec<Refund>,
)
    requires data { IsOpen (S.chains store.old) kept.now.data.chain }
    requires attributes { IsOpen (S.chains store.old) kept.now.attributes.chain }
    requires apart { (kept.now.attributes.chain == kept.now.data.chain) ≡ false }
    requires room { length refunds.old.items + erasable_count (S.chains store.old) from to kept.now
        ≤ vec_capacity refunds.old }
    ensures data { items_of (S.chains store.new) kept.now.data.chain
        ≡ flushed from to (items_of (S.chains store.old) kept.now.data.chain) }
    ensures attributes { items_of (S.chains store.new) kept.now.attributes.chain
        ≡ flushed from to (items_of (S.chains store.old) kept.now.attributes.chain) }
    ensures others { (c : ℕ) → (c == kept.now.data.chain) ≡ false
        → (c == kept.now.attributes.chain) ≡ false
        → items_of (S.chains store.new) c ≡ items_of (S.chains store.old) c }
    ensures still { StillOpen (S.chains store.old) (S.chains store.new) }
    ensures unopened { StillOpen (S.chains store.new) (S.chains store.old) }
    ensures used { item_count (S.chains store.new) ≡ item_count (S.chains store.old) }
    ensures refunds { refunds.new.items ≡ refunds.old.items
        ++ (refunds_of purse.now from to (items_of (S.chains store.old) kept.now.data.chain)
        ++ refunds_of purse.now from to (items_of (S.chains store.old) kept.now.attributes.chain)) }
    ensures capacity { vec_capacity refunds.new ≡ vec_capacity refunds.old }
    ensures room { S.room store.new ≡ S.room store.old }
{
    flush_track(store, purse, &kept.data, from, to, refunds);
    flush_track(store, purse, &kept.attributes, from, to, refunds);
}

// Flushes one track, and adds the refunds in room that was reserved. It looks at each value once.
// Takes no memory.
fn flush_track<S: Store<Version>>(
    store: &mut S,
    purse: &Purse,
    track: &Track,
    from: Moment,
    to: Moment,
    refunds: &mut Vec<Refund>,
)
    requires open { IsOpen (S.chains store.old) track.now.chain }
    requires room { length refunds.old.items + count_by (can_be_erased from to)
        (items_of (S.chains store.old) track.now.chain)
        ≤ vec_capacity refunds.old }
    ensures chains { S.chains store.new ≡ finmap.insert (S.chains store.old) track.now.chain
        (flushed from to (items_of (S.chains store.old) track.now.chain)) }
    ensures refunds { refunds.new.items ≡ refunds.old.items
        ++ refunds_of purse.now from to (items_of (S.chains store.old) track.now.chain) }
    ensures capacity { vec_capacity refunds.new ≡ vec_capacity refunds.old }
    ensures room { S.room store.new ≡ S.room store.old }
{
    let mut eraser = Eraser::new(track, from, to);
    while let Some(told) = eraser.erase_next(store) {
        let (end, cost) = told;
        refunds.push_reserved(Refund {
            purse: *purse,
            end,
            cost,
        });
    }
}
