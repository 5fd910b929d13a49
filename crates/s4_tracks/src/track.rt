//! One track: a chain of a store, and what is done to it.

ghost use Rattle.std.specs.Prelude.{◌≡◌, ◌+◌, ◌<◌, ◌++◌, ◌∷◌, [], nat_le, min, take, drop, count_by};
ghost use Rattle.std.specs.List.{list_any, prefix_len};
ghost use Rattle.std.specs.Option.{option_copied};
ghost use Rattle.std.specs.FinMap as finmap;
ghost use Rattle.s4_store.specs.Chains.{items_of, IsOpen, StillOpen};
ghost use Rattle.s4_types.specs.Versions.{ends_by};
ghost use Rattle.s4_tracks.specs.Chain.{IsSmall, begun, in_force, current_of, latest as latest_of, version_in, with_end, with_put, cost_of as cost, first_told, with_first_erased, is_expired, IsInOrder};
ghost use Rattle.std.specs.List.Sorted.{IsNonDecreasingBy};

use crate::eraser::Eraser;
use s4_store::{Chain, Key, Store};
use s4_types::{Item, Moment, Version};

/// The values of one track, oldest first, on a chain of a store that its calls are lent
/// (docs/MODEL.md, "Tracks").
#[derive(Clone, Copy)]
pub struct Track {
    pub chain: Chain,
}

/// A value by its begin.
struct Began;

impl Key<Version> for Began {
    ghost key = { λ v. v.begin };

    fn of(item: &Version) -> u64 {
        item.begin.tick()
    }
}

impl Track {
    /// The value in force at the moment, with its begin and its end. The values stand in the order of
    /// their begins. The store finds it.
    pub fn at<'a, S: Store<Version>>(&self, store: &'a S, moment: Moment) -> Option<&'a Version>
        requires open { IsOpen (S.chains store.now) self.now.chain }
        requires order { IsNonDecreasingBy (λ v. v.begin)
            (items_of (S.chains store.now) self.now.chain) }
        ensures { option_copied result ≡ in_force moment (items_of (S.chains store.now) self.now.chain) }
    {
        let found = store.newest_by::<Began>(self.chain, moment.tick())?;
        if is_by(found.end, moment) {
            None
        } else {
            Some(found)
        }
    }

    /// The current value: the newest, where it has no end.
    pub fn current<'a, S: Store<Version>>(&self, store: &'a S) -> Option<&'a Version>
        requires { IsOpen (S.chains store.now) self.now.chain }
        ensures { option_copied result ≡ current_of (items_of (S.chains store.now) self.now.chain) }
    {
        let newest = store.newest(self.chain)?;
        if newest.end.is_some() {
            None
        } else {
            Some(newest)
        }
    }

    /// The current value, or the one in force at a moment.
    pub fn version<'a, S: Store<Version>>(
        &self,
        store: &'a S,
        at: Option<Moment>,
    ) -> Option<&'a Version>
        requires open { IsOpen (S.chains store.now) self.now.chain }
        requires order { IsNonDecreasingBy (λ v. v.begin)
            (items_of (S.chains store.now) self.now.chain) }
        ensures { option_copied result ≡ version_in at (items_of (S.chains store.now) self.now.chain) }
    {
        match at {
            None => self.current(store),
            Some(moment) => self.at(store, moment),
        }
    }

    /// Puts a value at the end, in room that was reserved. Takes no memory.
    pub fn begin<S: Store<Version>>(&self, store: &mut S, moment: Moment, item: Item)
        requires open { IsOpen (S.chains store.old) self.now.chain }
        requires room { 0 < S.room store.old }
        requires small { IsSmall item }
        ensures chains { S.chains store.new ≡ finmap.insert (S.chains store.old) self.now.chain
            (items_of (S.chains store.old) self.now.chain ++ begun moment item ∷ []) }
        ensures still { StillOpen (S.chains store.old) (S.chains store.new) }
        ensures room { S.room store.new + 1 ≡ S.room store.old }
    {
        let cost = cost_of(&item);
        let begun = Version {
            begin: moment,
            end: None,
            item: Some(item),
            cost,
        };
        store.push(self.chain, begun);
    }

    /// Ends the current value, if there is one. Takes no memory.
    pub fn end<S: Store<Version>>(&self, store: &mut S, moment: Moment)
        requires { IsOpen (S.chains store.old) self.now.chain }
        ensures chains { S.chains store.new ≡ finmap.insert (S.chains store.old) self.now.chain
            (with_end moment (items_of (S.chains store.old) self.now.chain)) }
        ensures still { StillOpen (S.chains store.old) (S.chains store.new) }
        ensures room { S.room store.new ≡ S.room store.old }
    {
        let count = store.len(self.chain);
        if count == 0 {
            return;
        }
        let newest = store.get(self.chain, count - 1);
        if newest.end.is_some() {
            return;
        }
        let nothing = Version {
            begin: moment,
            end: None,
            item: None,
            cost: 0,
        };
        let mut ended = store.set(self.chain, count - 1, nothing);
        ended.end = Some(moment);
        store.set(self.chain, count - 1, ended);
    }

    /// Ends the current value, if there is one, and puts another after it, in room that was
    /// reserved. Takes no memory.
    pub fn put<S: Store<Version>>(&self, store: &mut S, moment: Moment, item: Item)
        requires open { IsOpen (S.chains store.old) self.now.chain }
        requires room { 0 < S.room store.old }
        requires small { IsSmall item }
        ensures chains { S.chains store.new ≡ finmap.insert (S.chains store.old) self.now.chain
            (with_put moment item (items_of (S.chains store.old) self.now.chain)) }
        ensures still { StillOpen (S.chains store.old) (S.chains store.new) }
        ensures room { S.room store.new + 1 ≡ S.room store.old }
    {
        self.end(store, moment);
        self.begin(store, moment, item);
    }

    /// Erases the oldest past value that begins at or after `from`, ends at or before `to` and isn't
    /// erased yet, and tells its end and its cost. None where there is none. Takes no memory. It looks
    /// from the oldest value on; to erase all of them an [`Eraser`] keeps its place.
    pub fn erase_next<S: Store<Version>>(
        &self,
        store: &mut S,
        from: Moment,
        to: Moment,
    ) -> Option<(Moment, u32)>
        requires { IsOpen (S.chains store.old) self.now.chain }
        ensures told { result ≡ first_told from to (items_of (S.chains store.old) self.now.chain) }
        ensures chains { S.chains store.new ≡ finmap.insert (S.chains store.old) self.now.chain
            (with_first_erased from to (items_of (S.chains store.old) self.now.chain)) }
        ensures still { StillOpen (S.chains store.old) (S.chains store.new) }
        ensures room { S.room store.new ≡ S.room store.old }
    {
        let mut eraser = Eraser::new(self, from, to);
        eraser.erase_next(store)
    }

    /// Frees at most so many values from the oldest on, as long as they have ended by the horizon, and
    /// tells how many it freed. Where the values stand in the order of their ends that is the smaller
    /// of the two numbers. It looks at those that it frees, and at one more. Takes no memory.
    pub fn expire<S: Store<Version>>(&self, store: &mut S, horizon: Moment, most: u64) -> u64
        requires { IsOpen (S.chains store.old) self.now.chain }
        ensures freed { result ≡ min most (prefix_len (is_expired horizon) (items_of (S.chains store.old) self.now.chain)) }
        ensures all { IsInOrder (items_of (S.chains store.old) self.now.chain)
            → result ≡ min most (count_by (is_expired horizon) (items_of (S.chains store.old) self.now.chain)) }
        ensures chains { S.chains store.new ≡ finmap.insert (S.chains store.old) self.now.chain
            (drop result (items_of (S.chains store.old) self.now.chain)) }
        ensures still { StillOpen (S.chains store.old) (S.chains store.new) }
        ensures room { S.room store.new ≡ S.room store.old + result }
    {
        for freed in 0..most {
            if !self.begins_expired(store, horizon) {
                return freed;
            }
            store.drop_oldest(self.chain);
        }
        most
    }

    // Whether the oldest value has ended by the horizon.
    fn begins_expired<S: Store<Version>>(&self, store: &S, horizon: Moment) -> bool
        requires { IsOpen (S.chains store.now) self.now.chain }
        ensures { result ≡ list_any (is_expired horizon) (take 1 (items_of (S.chains store.now) self.now.chain)) }
    {
        if store.len(self.chain) == 0 {
            return false;
        }
        is_by(store.get(self.chain, 0).end, horizon)
    }
}

/// What a value costs once it is past: 64 and its length, or 64 and 16 for each entry of an ACL. For
/// a binding it is 64, to which the length of its name comes.
pub fn cost_of(item: &Item) -> u32
    requires { IsSmall item.now }
    ensures { result ≡ cost item.now }
{
    match item {
        Item::Data(bytes) | Item::Attr(bytes) => 64 + bytes.len() as u32,
        Item::Acl(acl) => 64 + 16 * acl.entries().len() as u32,
        Item::Bind(_) => 64,
    }
}

// Whether there is an end, and it is at most the moment.
pub(crate) fn is_by(end: Option<Moment>, moment: Moment) -> bool
    ensures { result ≡ ends_by moment end }
{
    match end {
        Some(end) => end.tick() <= moment.tick(),
        None => false,
    }
}
