//! The names of one purse.

ghost use Rattle.std.specs.Prelude.{◌≡◌, ℕ, ◌+◌, ◌<◌, ◌≤◌, true, is_some, Some, List, [], OnOk, OnErr, IsOk, vec_len, vec_capacity};
ghost use Rattle.std.specs.Option.{option_map};
ghost use Rattle.s4_store.specs.Chains.{items_of, item_count, IsOpen};
ghost use Rattle.s4_parts.specs.Table.{chain_on, is_any, serials_spare};
ghost use Rattle.s4_parts.specs.Shelf.{Grows, Frees};

use s4_store::Store;
use s4_tracks::Track;
use s4_types::{Name, NoMemory, Serial, Version};
use std::alloc::{AllocError, Global};
use std::collections::BTreeMap;

/// The names of a purse, each with its chain, and for each name that is bound now the serial of its
/// object.
#[derive(Drop)]
pub struct Shelf {
    pub tracks: BTreeMap<Name, Track>,
    pub bound: Vec<Serial>,
}

impl Shelf {
    /// A shelf without names.
    pub fn new(alloc: Global) -> Shelf
        ensures tracks { result.tracks.entries ≡ [] }
        ensures bound { result.bound.items ≡ [] }
    {
        Shelf {
            tracks: BTreeMap::new(alloc),
            bound: Vec::new(alloc),
        }
    }

    /// The track of a name.
    pub fn track(&self, name: &Name) -> Option<Track>
        ensures { option_map (λ t. t.chain) result ≡ chain_on (Some self.now) name.now }
    {
        self.tracks.get(name).copied()
    }

    /// Gives a name a chain, if it has none, and makes room for one more that is bound.
    pub fn reserve<S: Store<Version>>(&mut self, store: &mut S, name: &Name) -> Result<(), NoMemory>
        requires { (c : ℕ) (n : List ℕ) → chain_on (Some self.old) n ≡ Some c → IsOpen (S.chains store.old) c }
        ensures grows { Grows (S.chains store.old) (S.chains store.new) self.old self.new name.now }
        ensures chain { OnOk result (is_some (chain_on (Some self.new) name.now) ≡ true) }
        ensures refused { OnErr result ((n : List ℕ)
            → chain_on (Some self.new) n ≡ chain_on (Some self.old) n) }
        ensures serials { OnOk result (vec_len self.new.bound < vec_capacity self.new.bound) }
        ensures spare { serials_spare (Some self.old) ≤ serials_spare (Some self.new) }
        ensures there { is_some (chain_on (Some self.old) name.now) ≡ true → 0 < serials_spare (Some self.old) → IsOk result }
        ensures room { S.room store.new ≡ S.room store.old }
    {
        self.bound.reserve(1)?;
        if self.tracks.contains_key(name) {
            return Ok(());
        }
        let key = name.clone()?;
        let chain = store.open()?;
        match self.tracks.insert(key, Track { chain }) {
            Ok(_) => Ok(()),
            Err(_) => {
                store.close(chain);
                Err(AllocError)
            }
        }
    }

    /// Frees the oldest binding of a name. A name without bindings left gives up its chain. Takes no
    /// memory.
    pub fn free<S: Store<Version>>(&mut self, store: &mut S, name: &Name)
        requires there { is_some (chain_on (Some self.old) name.now) ≡ true }
        requires open { (c : ℕ) → chain_on (Some self.old) name.now ≡ Some c → IsOpen (S.chains store.old) c }
        requires any { (c : ℕ) → chain_on (Some self.old) name.now ≡ Some c → is_any (items_of (S.chains store.old) c) ≡ true }
        ensures frees { Frees (S.chains store.old) (S.chains store.new) self.old self.new name.now }
        ensures bound { self.new.bound ≡ self.old.bound }
        ensures room { S.room store.new ≡ S.room store.old + 1 }
        ensures used { item_count (S.chains store.new) + 1 ≡ item_count (S.chains store.old) }
    {
        let track = self.track(name).unwrap();
        store.drop_oldest(track.chain);
        if store.len(track.chain) == 0 {
            store.close(track.chain);
            self.tracks.remove(name);
        }
    }
}
