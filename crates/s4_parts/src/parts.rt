//! The table of partitions.

ghost use Rattle.std.specs.Prelude.{◌≡◌, ◌<◌, ◌≤◌, ◌+◌, ◌==◌, ◌&&◌, ℕ, true, IfSome, slice_get, Some, None, List, [], ◌∷◌, ◌++◌, OnOk, OnErr, IsOk, is_some, count_by, min, drop, filter, if◌then◌else◌};
ghost use Rattle.std.specs.List.{list_any};
ghost use Rattle.std.specs.List.Sorted.{IsNonDecreasingBy};
ghost use Rattle.s4_types.specs.declared.object.Purse.{Purse};
ghost use Rattle.s4_types.specs.declared.version.Version.{Version};
ghost use Rattle.s4_types.specs.Bindings.{is_serial, with_name};
ghost use Rattle.s4_types.specs.Name.{same_name};
ghost use Rattle.s4_types.specs.Names.{same_purse};
ghost use Rattle.s4_store.specs.Chains.{Chains, items_of, item_count, newest_of, IsOpen, StillOpen};
ghost use Rattle.s4_tracks.specs.Chain.{current_of, version_in, with_end};
ghost use Rattle.s4_parts.specs.Table.{bindings_in, binding, chain_at, names_in, names_on, object_of, serial_now, serials_on, shelf_of, is_any, names_room, HasRoom, KeepsRoom, TakesRoom, Holds, KeepsOthers, KeepsForeign, KeepsChains, LeavesNoChain, GivesUpEmpty, OpensFor};
ghost use Rattle.s4_parts.specs.Waiting.{waiting_in, all_by, bound_in, is_gone, Waits, Sweeps};
ghost use Rattle.s4_parts.specs.Telling.{TellsSame};

use crate::ends::{Ended, Ends};
use crate::shelf::Shelf;
use s4_store::Store;
use s4_tracks::Track;
use s4_types::{Item, Moment, Name, NoMemory, ObjectId, Purse, Serial, Version};
use std::alloc::Global;
use std::collections::BTreeMap;

/// The names of each purse with their bindings (docs/MODEL.md, "Partitions"). The bindings lie on
/// chains of a store, which the calls are lent: each name has a chain of its own.
#[derive(Drop)]
pub struct Parts {
    pub(crate) alloc: Global,
    pub(crate) shelves: BTreeMap<Purse, Shelf>,
    pub(crate) ends: Ends,
}

impl Parts {
    /// A table without names. Takes no memory.
    pub fn new(alloc: Global) -> Parts
        ensures names { (chains : Chains Version) (p : Purse) → names_in chains result p ≡ [] }
        ensures bindings { (chains : Chains Version) (p : Purse) (n : List ℕ) → bindings_in chains result p n ≡ [] }
        ensures holds { (chains : Chains Version) → Holds chains result }
        ensures waiting { waiting_in result ≡ [] }
        ensures waits { (chains : Chains Version) → Waits chains result }
    {
        Parts {
            alloc,
            shelves: BTreeMap::new(alloc),
            ends: Ends::new(alloc),
        }
    }

    /// Makes room for the next binding of a name in the purse, and opens a chain for the name where it
    /// has none; an `Err` leaves it without one. Where there is room already it takes no memory. Room in
    /// the store is reserved apart.
    pub fn reserve<S: Store<Version>>(
        &mut self,
        store: &mut S,
        purse: &Purse,
        name: &Name,
    ) -> Result<(), NoMemory>
        requires holds { Holds (S.chains store.old) self.old }
        requires waits { Waits (S.chains store.old) self.old }
        ensures holds { Holds (S.chains store.new) self.new }
        ensures waits { Waits (S.chains store.new) self.new }
        ensures waiting { waiting_in self.new ≡ waiting_in self.old }
        ensures names { (p : Purse) → names_in (S.chains store.new) self.new p ≡ names_in (S.chains store.old) self.old p }
        ensures bindings { (p : Purse) (n : List ℕ)
            → bindings_in (S.chains store.new) self.new p n ≡ bindings_in (S.chains store.old) self.old p n }
        ensures room { OnOk result (HasRoom self.new purse.now name.now) }
        ensures there { HasRoom self.old purse.now name.now → IsOk result }
        ensures rooms { (p : Purse) (n : List ℕ) → HasRoom self.old p n → HasRoom self.new p n }
        ensures keeps_room { KeepsRoom self.old self.new }
        ensures others { (c : ℕ) → IsOpen (S.chains store.old) c → items_of (S.chains store.new) c ≡ items_of (S.chains store.old) c }
        ensures still { StillOpen (S.chains store.old) (S.chains store.new) }
        ensures own { (p : Purse) (n : List ℕ) (c : ℕ) → chain_at self.new p n ≡ Some c → IsOpen (S.chains store.old) c
            → chain_at self.old p n ≡ Some c }
        ensures asked { OpensFor self.old self.new purse.now name.now }
        ensures refused { OnErr result (KeepsChains self.old self.new) }
        ensures leaves { LeavesNoChain (S.chains store.old) (S.chains store.new) self.old self.new }
        ensures used { item_count (S.chains store.new) ≡ item_count (S.chains store.old) }
        ensures store_room { S.room store.new ≡ S.room store.old }
    {
        self.ends.make_room()?;
        self.shelve(purse)?;
        let shelf = self.shelves.get_mut(purse).unwrap();
        shelf.reserve(store, name)
    }

    // Gives the purse a shelf, if it has none.
    fn shelve(&mut self, purse: &Purse) -> Result<(), NoMemory>
        ensures chains { KeepsChains self.old self.new }
        ensures names { (p : Purse) → names_on (shelf_of self.new p) ≡ names_on (shelf_of self.old p) }
        ensures serials { (p : Purse) → serials_on (shelf_of self.new p) ≡ serials_on (shelf_of self.old p) }
        ensures there { OnOk result (is_some (shelf_of self.new purse.now) ≡ true) }
        ensures known { is_some (shelf_of self.old purse.now) ≡ true → IsOk result }
        ensures room { (p : Purse) → names_room self.old p ≤ names_room self.new p }
        ensures bound { bound_in self.new ≡ bound_in self.old }
        ensures ends { self.new.ends ≡ self.old.ends }
    {
        if self.shelves.contains_key(purse) {
            return Ok(());
        }
        self.shelves.insert(*purse, Shelf::new(self.alloc))?;
        Ok(())
    }

    /// Binds a name to an object, in the object's purse, from the moment on, in room that was
    /// reserved here and in the store. The moment isn't before the end of any binding that is still held.
    /// Takes no memory. Another name that has room keeps it, where there was room for two.
    pub fn bind<S: Store<Version>>(
        &mut self,
        store: &mut S,
        moment: Moment,
        name: &Name,
        object: &ObjectId,
    )
        requires holds { Holds (S.chains store.old) self.old }
        requires waits { Waits (S.chains store.old) self.old }
        requires reserved { HasRoom self.old object.now.purse name.now }
        requires unbound { object_of (current_of (bindings_in (S.chains store.old) self.old object.now.purse name.now)) ≡ None }
        requires later { all_by moment (waiting_in self.old) ≡ true }
        requires room { 0 < S.room store.old }
        ensures holds { Holds (S.chains store.new) self.new }
        ensures waits { Waits (S.chains store.new) self.new }
        ensures waiting { waiting_in self.new ≡ waiting_in self.old }
        ensures names { (p : Purse) → names_in (S.chains store.new) self.new p
            ≡ (if same_purse object.now.purse p then with_name name.now (names_in (S.chains store.old) self.old p)
            else names_in (S.chains store.old) self.old p) }
        ensures bindings { (p : Purse) (n : List ℕ) → bindings_in (S.chains store.new) self.new p n
            ≡ (if same_purse object.now.purse p && same_name name.now n
            then bindings_in (S.chains store.old) self.old p n ++ binding moment name.now object.now ∷ []
            else bindings_in (S.chains store.old) self.old p n) }
        ensures others { KeepsOthers (S.chains store.old) (S.chains store.new) self.old }
        ensures own { KeepsChains self.old self.new }
        ensures leaves { LeavesNoChain (S.chains store.old) (S.chains store.new) self.old self.new }
        ensures rooms { TakesRoom self.old self.new object.now.purse }
        ensures used { item_count (S.chains store.new) ≡ item_count (S.chains store.old) + 1 }
        ensures store_room { S.room store.new + 1 ≡ S.room store.old }
    {
        self.ends.await_one();
        let shelf = self.shelves.get_mut(&object.purse).unwrap();
        let track = shelf.track(name).unwrap();
        shelf.bound.push_reserved(object.serial);
        let begun = Version {
            begin: moment,
            end: None,
            item: Some(Item::Bind(*object)),
            cost: 64 + name.as_slice().len() as u32,
        };
        store.push(track.chain, begun);
    }

    /// Ends the binding of a name that is bound. The moment isn't before its begin, nor before the end
    /// of any binding that is still held. Takes no memory.
    pub fn unbind<S: Store<Version>>(
        &mut self,
        store: &mut S,
        moment: Moment,
        purse: &Purse,
        name: &Name,
    )
        requires holds { Holds (S.chains store.old) self.old }
        requires waits { Waits (S.chains store.old) self.old }
        requires later { all_by moment (waiting_in self.old) ≡ true }
        requires bound { is_some (serial_now (bindings_in (S.chains store.old) self.old purse.now name.now)) ≡ true }
        requires begun { IfSome
            (newest_of (bindings_in (S.chains store.old) self.old purse.now name.now))
            (λ v. v.begin ≤ moment) }
        ensures holds { Holds (S.chains store.new) self.new }
        ensures waits { Waits (S.chains store.new) self.new }
        ensures waiting { waiting_in self.new ≡ waiting_in self.old ++ record { end = moment; purse = purse.now; name = name.now } ∷ [] }
        ensures names { (p : Purse) → names_in (S.chains store.new) self.new p ≡ names_in (S.chains store.old) self.old p }
        ensures bindings { (p : Purse) (n : List ℕ) → bindings_in (S.chains store.new) self.new p n
            ≡ (if same_purse purse.now p && same_name name.now n
            then with_end moment (bindings_in (S.chains store.old) self.old p n) else bindings_in (S.chains store.old) self.old p n) }
        ensures others { KeepsOthers (S.chains store.old) (S.chains store.new) self.old }
        ensures own { KeepsChains self.old self.new }
        ensures leaves { LeavesNoChain (S.chains store.old) (S.chains store.new) self.old self.new }
        ensures rooms { (p : Purse) (n : List ℕ) → HasRoom self.old p n → HasRoom self.new p n }
        ensures keeps_room { KeepsRoom self.old self.new }
        ensures used { item_count (S.chains store.new) ≡ item_count (S.chains store.old) }
        ensures store_room { S.room store.new ≡ S.room store.old }
    {
        let shelf = self.shelves.get_mut(purse).unwrap();
        let track = shelf.track(name).unwrap();
        let object = bound_object(store, track, None).unwrap();
        let place = place_of(&shelf.bound, object.serial).unwrap();
        shelf.bound.remove(place);
        track.end(store, moment);
        self.ends.put(Ended::new(moment, purse, name));
    }

    /// Frees at most so many bindings that have ended by the horizon, those that ended first before the
    /// others, and tells how many it freed: the smaller of the number that was asked for and of those
    /// that have ended. A name without bindings left gives up its entry. It looks at those that it
    /// frees, and at one more. Takes no memory.
    pub fn expire<S: Store<Version>>(&mut self, store: &mut S, horizon: Moment, most: u64) -> u64
        requires holds { Holds (S.chains store.old) self.old }
        requires waits { Waits (S.chains store.old) self.old }
        ensures freed { result ≡ min most (count_by (is_gone horizon) (waiting_in self.old)) }
        ensures sweeps { Sweeps horizon (S.chains store.old) (S.chains store.new) self.old self.new result }
        ensures rooms { (p : Purse) (n : List ℕ) → is_some (chain_at self.new p n) ≡ true → HasRoom self.old p n → HasRoom self.new p n }
        ensures keeps_room { KeepsRoom self.old self.new }
        ensures tells { TellsSame horizon (S.chains store.old) (S.chains store.new) self.old self.new }
        ensures holds { Holds (S.chains store.new) self.new }
        ensures waits { Waits (S.chains store.new) self.new }
        ensures store_room { S.room store.new ≡ S.room store.old + result }
    {
        for freed in 0..most {
            let Some(ended) = self.ends.take_gone(horizon) else {
                return freed;
            };
            self.free(store, &ended.purse, &ended.name);
        }
        most
    }

    // Frees the oldest binding of a name in the purse, which has ended.
    fn free<S: Store<Version>>(&mut self, store: &mut S, purse: &Purse, name: &Name)
        requires holds { Holds (S.chains store.old) self.old }
        requires any { is_any (bindings_in (S.chains store.old) self.old purse.now name.now) ≡ true }
        requires ended { serial_now (drop 1 (bindings_in (S.chains store.old) self.old purse.now name.now))
            ≡ serial_now (bindings_in (S.chains store.old) self.old purse.now name.now) }
        ensures holds { Holds (S.chains store.new) self.new }
        ensures bindings { (p : Purse) (n : List ℕ) → bindings_in (S.chains store.new) self.new p n
            ≡ (if same_purse purse.now p && same_name name.now n then drop 1 (bindings_in (S.chains store.old) self.old p n)
            else bindings_in (S.chains store.old) self.old p n) }
        ensures names { (p : Purse) → names_in (S.chains store.new) self.new p
            ≡ filter (λ n. is_any (bindings_in (S.chains store.new) self.new p n)) (names_in (S.chains store.old) self.old p) }
        ensures own { (p : Purse) (n : List ℕ) (c : ℕ) → chain_at self.new p n ≡ Some c → chain_at self.old p n ≡ Some c }
        ensures given_up { GivesUpEmpty (S.chains store.old) (S.chains store.new)
            self.old self.new }
        ensures others { KeepsForeign (S.chains store.old) (S.chains store.new) self.old }
        ensures leaves { LeavesNoChain (S.chains store.old) (S.chains store.new) self.old self.new }
        ensures keeps_room { KeepsRoom self.old self.new }
        ensures bound { bound_in self.new ≡ bound_in self.old }
        ensures ends { self.new.ends ≡ self.old.ends }
        ensures room { S.room store.new ≡ S.room store.old + 1 }
        ensures used { item_count (S.chains store.new) + 1 ≡ item_count (S.chains store.old) }
    {
        let shelf = self.shelves.get_mut(purse).unwrap();
        shelf.free(store, name);
    }

    /// The object that a name in the purse is bound to, now or at a moment. It looks at the bindings of
    /// that name from the newest to the one that it finds, each once.
    pub fn mount<S: Store<Version>>(
        &self,
        store: &S,
        purse: &Purse,
        name: &Name,
        at: Option<Moment>,
    ) -> Option<ObjectId>
        requires { Holds (S.chains store.now) self.now }
        ensures { result ≡ object_of (version_in at (bindings_in (S.chains store.now) self.now purse.now name.now)) }
    {
        let track = self.shelves.get(purse)?.track(name)?;
        bound_object(store, track, at)
    }

    /// How many names are bound in the purse.
    pub fn bound_names(&self, purse: &Purse) -> usize
        ensures { (chains : Chains Version) → Holds chains self.now
            → result ≡ count_by (λ name. is_some (serial_now (bindings_in chains self.now purse.now name)))
            (names_in chains self.now purse.now) }
    {
        match self.shelves.get(purse) {
            Some(shelf) => shelf.bound.len(),
            None => 0,
        }
    }

    /// Whether the object has a name that is bound in its purse.
    pub fn named(&self, object: &ObjectId) -> bool
        ensures { (chains : Chains Version) → Holds chains self.now
            → result ≡ list_any (λ name. is_serial object.now.serial
            (serial_now (bindings_in chains self.now object.now.purse name))) (names_in chains self.now object.now.purse) }
    {
        match self.shelves.get(&object.purse) {
            Some(shelf) => shelf.bound.contains(&object.serial),
            None => false,
        }
    }
}

// The object of the binding on a track, now or at a moment.
pub(crate) fn bound_object<S: Store<Version>>(
    store: &S,
    track: Track,
    at: Option<Moment>,
) -> Option<ObjectId>
    requires open { IsOpen (S.chains store.now) track.chain }
    requires order { IsNonDecreasingBy (λ v. v.begin) (items_of (S.chains store.now) track.chain) }
    ensures { result ≡ object_of (version_in at (items_of (S.chains store.now) track.chain)) }
{
    match track.version(store, at) {
        Some(
            Version {
                item: Some(Item::Bind(object)),
                ..
            },
        ) => Some(*object),
        _ => None,
    }
}

// Where a serial stands among others.
fn place_of(serials: &[Serial], serial: Serial) -> Option<usize>
    ensures there { is_some result ≡ list_any (λ y. y == serial) serials.now }
    ensures place { IfSome result (λ i. slice_get serials.now i ≡ Some serial) }
{
    for place in 0..serials.len() {
        if serials[place] == serial {
            return Some(place);
        }
    }
    None
}
