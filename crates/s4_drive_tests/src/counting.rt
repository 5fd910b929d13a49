//! A store that tells whether it was looked into.

use s4_store::{Chain, PlainPlace, PlainStore, Store};
use s4_types::{Item, NoMemory, Version};
use std::cell::Cell;

/// A plain store that counts how often `get`, `newest` and `item` show the data of an object, and so the
/// steps of a search.
#[derive(Drop)]
pub struct Counting<'a> {
    pub store: PlainStore<Version>,
    pub reads: &'a Cell<usize>,
}

impl Counting<'_> {
    fn count(&self, shown: &Version) {
        if let Some(Item::Data(_)) = &shown.item {
            self.reads.set(self.reads.get().wrapping_add(1));
        }
    }
}

impl Store<Version> for Counting<'_> {
    ghost use Rattle.s4_store.specs.PlainStore.{chains_of, room_of};

    ghost chains = { λ s. chains_of s.store };

    ghost room = { λ s. room_of s.store };

    type Place = PlainPlace;

    ghost chain_at = { ⟦<PlainStore<Version> as Store<Version>>⟧.chain_at };

    ghost index_at = { ⟦<PlainStore<Version> as Store<Version>>⟧.index_at };

    ghost is_place = { λ s place. ⟦<PlainStore<Version> as Store<Version>>⟧.is_place s.store place };

    fn open(&mut self) -> Result<Chain, NoMemory> {
        self.store.open()
    }

    fn reserve(&mut self, count: usize) -> Result<(), NoMemory> {
        self.store.reserve(count)
    }

    fn room(&self) -> usize {
        self.store.room()
    }

    fn push(&mut self, chain: Chain, item: Version) {
        self.store.push(chain, item);
    }

    fn len(&self, chain: Chain) -> usize {
        self.store.len(chain)
    }

    fn get(&self, chain: Chain, index: usize) -> &Version {
        let shown = self.store.get(chain, index);
        self.count(shown);
        shown
    }

    fn newest(&self, chain: Chain) -> Option<&Version> {
        let shown = self.store.newest(chain)?;
        self.count(shown);
        Some(shown)
    }

    fn newest_place(&self, chain: Chain) -> Option<PlainPlace> {
        self.store.newest_place(chain)
    }

    fn older(&self, place: PlainPlace) -> Option<PlainPlace> {
        self.store.older(place)
    }

    fn oldest_place(&self, chain: Chain) -> Option<PlainPlace> {
        self.store.oldest_place(chain)
    }

    fn newer(&self, place: PlainPlace) -> Option<PlainPlace> {
        self.store.newer(place)
    }

    fn item(&self, place: PlainPlace) -> &Version {
        let shown = self.store.item(place);
        self.count(shown);
        shown
    }

    fn set_at(&mut self, place: PlainPlace, item: Version) -> Version {
        self.store.set_at(place, item)
    }

    fn used(&self) -> usize {
        self.store.used()
    }

    fn set(&mut self, chain: Chain, index: usize, item: Version) -> Version {
        self.store.set(chain, index, item)
    }

    fn drop_oldest(&mut self, chain: Chain) -> Option<Version> {
        self.store.drop_oldest(chain)
    }

    fn close(&mut self, chain: Chain) {
        self.store.close(chain);
    }
}
