//! Erasing by ends: the values of a track that ended at one moment lose their items.

ghost use Rattle.std.specs.Prelude.{◌≡◌, ◌==◌, ◌&&◌, ◌+◌, ◌<◌, Some, false, take, length, slice_get, slice_set, IfSome, IfNone};
ghost use Rattle.std.specs.List.{list_any, prefix_len};
ghost use Rattle.std.specs.FinMap as finmap;
ghost use Rattle.s4_types.specs.declared.version.Version.{Version};
ghost use Rattle.s4_store.specs.Chains.{items_of, IsOpen, StillOpen};
ghost use Rattle.s4_tracks.specs.Chain.{erased, is_erasable as can_be_erased, ended_before, told_of, first_told, with_first_erased, IsInOrder};
ghost use Rattle.s4_tracks.specs.Eraser.{IsNext};
ghost use Rattle.s4_tracks.specs.EndEraser.{chain_of, from_of, end_of, next_of, HasPassed, SameSpan};

use crate::eraser::is_erasable;
use crate::track::{Track, is_by};
use s4_store::{Chain, Store};
use s4_types::{Moment, Version};

/// A walk along the values of a track that ended at one moment. It erases those that begin at or
/// after another moment, one after the other. It goes over no value that ended earlier, and looks at
/// none twice.
#[derive(Clone, Copy)]
pub struct EndEraser {
    chain: Chain,
    from: Moment,
    end: Moment,
    // The index of the value that it looks at next.
    next: usize,
}

impl EndEraser {
    /// A walk that has looked at no value yet. It begins at the first value that ended at the moment
    /// or later, and finds it by looking at as many as their number has binary digits.
    pub fn new<S: Store<Version>>(store: &S, track: &Track, from: Moment, end: Moment) -> EndEraser
        requires open { IsOpen (S.chains store.now) track.now.chain }
        requires order { IsInOrder (items_of (S.chains store.now) track.now.chain) }
        ensures chain { chain_of result ≡ track.now.chain }
        ensures from { from_of result ≡ from }
        ensures end { end_of result ≡ end }
        ensures next { next_of result
            ≡ prefix_len (ended_before end) (items_of (S.chains store.now) track.now.chain) }
    {
        EndEraser {
            chain: track.chain,
            from,
            end,
            next: count_ended(store, track.chain, end),
        }
    }

    /// Whether it goes along this track, over the values that ended at this moment.
    pub fn is_of(&self, track: &Track, end: Moment) -> bool
        ensures { result ≡ (chain_of self.now == track.now.chain && end_of self.now == end) }
    {
        self.chain.number() == track.chain.number() && self.end.tick() == end.tick()
    }

    /// Erases the next value, and tells its end and its cost. None where there is none left. Takes no
    /// memory.
    pub fn erase_next<S: Store<Version>>(&mut self, store: &mut S) -> Option<(Moment, u32)>
        requires open { IsOpen (S.chains store.old) (chain_of self.old) }
        requires order { IsInOrder (items_of (S.chains store.old) (chain_of self.old)) }
        requires passed { HasPassed self.old (items_of (S.chains store.old) (chain_of self.old)) }
        ensures told { result ≡ first_told (from_of self.old) (end_of self.old)
            (items_of (S.chains store.old) (chain_of self.old)) }
        ensures chains { S.chains store.new
            ≡ finmap.insert (S.chains store.old) (chain_of self.old)
            (with_first_erased (from_of self.old) (end_of self.old)
            (items_of (S.chains store.old) (chain_of self.old))) }
        ensures still { StillOpen (S.chains store.old) (S.chains store.new) }
        ensures room { S.room store.new ≡ S.room store.old }
        ensures same { SameSpan self.old self.new }
        ensures passed { HasPassed self.new (items_of (S.chains store.new) (chain_of self.new)) }
        // It never goes back, so it looks at no value twice.
        ensures onward { IfSome result (λ _. next_of self.old < next_of self.new) }
    {
        let index = self.find_next(store)?;
        erase_at(store, self.chain, index)
    }

    // Goes on to the next value that is yet to be erased, and tells its index.
    fn find_next<S: Store<Version>>(&mut self, store: &S) -> Option<usize>
        requires open { IsOpen (S.chains store.now) (chain_of self.old) }
        requires order { IsInOrder (items_of (S.chains store.now) (chain_of self.old)) }
        requires passed { HasPassed self.old (items_of (S.chains store.now) (chain_of self.old)) }
        ensures same { SameSpan self.old self.new }
        ensures next { IfSome result (λ index. IsNext (from_of self.old) (end_of self.old)
            (items_of (S.chains store.now) (chain_of self.old)) index) }
        ensures reached { IfSome result (λ index. next_of self.new ≡ index + 1) }
        ensures onward { IfSome result (λ index. next_of self.old < index + 1) }
        ensures none { IfNone result (list_any (can_be_erased (from_of self.old) (end_of self.old))
            (items_of (S.chains store.now) (chain_of self.old)) ≡ false) }
    {
        while self.next < store.len(self.chain) {
            let index = self.next;
            let version = store.get(self.chain, index);
            if !is_by(version.end, self.end) {
                return None;
            }
            self.next = index + 1;
            if is_erasable(version, self.from, self.end) {
                return Some(index);
            }
        }
        None
    }
}

// How many values of a chain ended before the moment. It halves the part that they end in until
// nothing of it is left.
fn count_ended<S: Store<Version>>(store: &S, chain: Chain, moment: Moment) -> usize
    requires open { IsOpen (S.chains store.now) chain }
    requires order { IsInOrder (items_of (S.chains store.now) chain) }
    ensures { result ≡ prefix_len (ended_before moment) (items_of (S.chains store.now) chain) }
{
    let mut low = 0;
    let mut high = store.len(chain);
    while low < high {
        let middle = low + (high - low) / 2;
        if is_before(store.get(chain, middle), moment) {
            low = middle + 1;
        } else {
            high = middle;
        }
    }
    low
}

// Whether the value ended before the moment.
fn is_before(version: &Version, moment: Moment) -> bool
    ensures { result ≡ ended_before moment version.now }
{
    match version.end {
        Some(end) => end.tick() < moment.tick(),
        None => false,
    }
}

// Erases the value with that index, and tells its end and its cost.
fn erase_at<S: Store<Version>>(store: &mut S, chain: Chain, index: usize) -> Option<(Moment, u32)>
    requires open { IsOpen (S.chains store.old) chain }
    requires within { index < length (items_of (S.chains store.old) chain) }
    ensures told { (v : Version) → slice_get (items_of (S.chains store.old) chain) index ≡ Some v
        → result ≡ told_of v }
    ensures chains { (v : Version) → slice_get (items_of (S.chains store.old) chain) index ≡ Some v
        → S.chains store.new ≡ finmap.insert (S.chains store.old) chain
        (slice_set (items_of (S.chains store.old) chain) index (erased v)) }
    ensures still { StillOpen (S.chains store.old) (S.chains store.new) }
    ensures room { S.room store.new ≡ S.room store.old }
{
    let nothing = Version {
        begin: Moment::new(0),
        end: None,
        item: None,
        cost: 0,
    };
    let mut version = store.set(chain, index, nothing);
    version.item = None;
    let end = version.end;
    let cost = version.cost;
    store.set(chain, index, version);
    end.map(|end| (end, cost))
}
