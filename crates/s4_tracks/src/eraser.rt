//! Erasing: values of the past lose their items, and keep begin, end and cost.

ghost use Rattle.std.specs.Prelude.{◌≡◌, ◌+◌, ◌<◌, ◌≤◌, Some, None, false, length, slice_get, slice_set, IfSome, IfNone};
ghost use Rattle.std.specs.List.{list_any};
ghost use Rattle.std.specs.FinMap as finmap;
ghost use Rattle.s4_types.specs.declared.version.Version.{Version};
ghost use Rattle.s4_store.specs.Chains.{items_of, IsOpen, StillOpen};
ghost use Rattle.s4_tracks.specs.Chain.{erased, is_erasable as can_be_erased, told_of, first_told, with_first_erased};
ghost use Rattle.s4_tracks.specs.Eraser.{chain_of, from_of, to_of, last_of, looked, Stands, IsPassed, IsNext, SameWalk};

use crate::track::{Track, is_by};
use s4_store::{Chain, Store};
use s4_types::{Moment, Version};

/// A walk along a track that erases the past values that begin at or after a moment and end at or
/// before another, one after the other. It goes from each place of the store to the next newer one,
/// and looks at no value twice.
#[derive(Clone, Copy)]
pub struct Eraser<P> {
    chain: Chain,
    from: Moment,
    to: Moment,
    // Where the value stands that it looked at last.
    last: Option<P>,
}

impl<P: Copy> Eraser<P> {
    /// A walk that has looked at no value yet.
    pub fn new(track: &Track, from: Moment, to: Moment) -> Eraser<P>
        ensures chain { chain_of result ≡ track.now.chain }
        ensures from { from_of result ≡ from }
        ensures to { to_of result ≡ to }
        ensures last { last_of result ≡ None }
    {
        Eraser {
            chain: track.chain,
            from,
            to,
            last: None,
        }
    }

    /// Erases the next value, and tells its end and its cost. None where there is none left. Takes no
    /// memory.
    pub fn erase_next<S: Store<Version, Place = P>>(
        &mut self,
        store: &mut S,
    ) -> Option<(Moment, u32)>
        requires open { IsOpen (S.chains store.old) (chain_of self.old) }
        requires stands { Stands (S.is_place store.old) S.chain_at self.old }
        requires passed { IsPassed S.index_at self.old (items_of (S.chains store.old) (chain_of self.old)) }
        ensures told { result ≡ first_told (from_of self.old) (to_of self.old) (items_of (S.chains store.old) (chain_of self.old)) }
        ensures chains { S.chains store.new ≡ finmap.insert (S.chains store.old) (chain_of self.old)
            (with_first_erased (from_of self.old) (to_of self.old) (items_of (S.chains store.old) (chain_of self.old))) }
        ensures still { StillOpen (S.chains store.old) (S.chains store.new) }
        ensures room { S.room store.new ≡ S.room store.old }
        ensures same { SameWalk self.old self.new }
        ensures stands { Stands (S.is_place store.new) S.chain_at self.new }
        ensures passed { IsPassed S.index_at self.new (items_of (S.chains store.new) (chain_of self.new)) }
        // It never goes back, so it looks at no value twice.
        ensures onward { IfSome result (λ _. looked S.index_at self.old < looked S.index_at self.new) }
        ensures ended { IfNone result (looked S.index_at self.new ≡ length (items_of (S.chains store.old) (chain_of self.old))) }
    {
        let place = self.find_next(store)?;
        erase(store, place)
    }

    // Goes on to the next value that is yet to be erased, or else to the newest value.
    fn find_next<S: Store<Version, Place = P>>(&mut self, store: &S) -> Option<P>
        requires open { IsOpen (S.chains store.now) (chain_of self.old) }
        requires stands { Stands (S.is_place store.now) S.chain_at self.old }
        requires passed { IsPassed S.index_at self.old (items_of (S.chains store.now) (chain_of self.old)) }
        ensures same { SameWalk self.old self.new }
        ensures stands { Stands (S.is_place store.now) S.chain_at self.new }
        ensures last { IfSome result (λ place. last_of self.new ≡ Some place) }
        ensures onward { IfSome result (λ place. looked S.index_at self.old ≤ S.index_at place) }
        ensures next { IfSome result (λ place. IsNext (from_of self.old) (to_of self.old)
            (items_of (S.chains store.now) (chain_of self.old)) (S.index_at place)) }
        ensures none { IfNone result (list_any (can_be_erased (from_of self.old) (to_of self.old))
            (items_of (S.chains store.now) (chain_of self.old)) ≡ false) }
        ensures ended { IfNone result (looked S.index_at self.new ≡ length (items_of (S.chains store.now) (chain_of self.old))) }
    {
        while let Some(place) = self.next_place(store) {
            self.last = Some(place);
            if is_erasable(store.item(place), self.from, self.to) {
                return Some(place);
            }
        }
        None
    }

    // Where the value stands that comes after those that it has looked at.
    fn next_place<S: Store<Version, Place = P>>(&self, store: &S) -> Option<P>
        requires open { IsOpen (S.chains store.now) (chain_of self.now) }
        requires stands { Stands (S.is_place store.now) S.chain_at self.now }
        ensures place { IfSome result (λ place. S.is_place store.now place) }
        ensures chain { IfSome result (λ place. S.chain_at place ≡ chain_of self.now) }
        ensures index { IfSome result (λ place. S.index_at place ≡ looked S.index_at self.now) }
        ensures none { IfNone result (looked S.index_at self.now ≡ length (items_of (S.chains store.now) (chain_of self.now))) }
    {
        match self.last {
            Some(last) => store.newer(last),
            None => store.oldest_place(self.chain),
        }
    }
}

// Whether a flush of these moments has yet to erase the value.
pub(crate) fn is_erasable(version: &Version, from: Moment, to: Moment) -> bool
    ensures { result ≡ can_be_erased from to version.now }
{
    from.tick() <= version.begin.tick() && is_by(version.end, to) && version.item.is_some()
}

// Erases the value at that place, and tells its end and its cost.
fn erase<S: Store<Version>>(store: &mut S, place: S::Place) -> Option<(Moment, u32)>
    requires { S.is_place store.old place }
    ensures told { (v : Version) → slice_get (items_of (S.chains store.old) (S.chain_at place)) (S.index_at place) ≡ Some v
        → result ≡ told_of v }
    ensures chains { (v : Version) → slice_get (items_of (S.chains store.old) (S.chain_at place)) (S.index_at place) ≡ Some v
        → S.chains store.new ≡ finmap.insert (S.chains store.old) (S.chain_at place)
        (slice_set (items_of (S.chains store.old) (S.chain_at place)) (S.index_at place) (erased v)) }
    ensures still { StillOpen (S.chains store.old) (S.chains store.new) }
    ensures places { (other : S.Place) → S.is_place store.old other → S.is_place store.new other }
    ensures room { S.room store.new ≡ S.room store.old }
{
    let nothing = Version {
        begin: Moment::new(0),
        end: None,
        item: None,
        cost: 0,
    };
    let mut version = store.set_at(place, nothing);
    version.item = None;
    let end = version.end;
    let cost = version.cost;
    store.set_at(place, version);
    end.map(|end| (end, cost))
}
