//! The records of all principals.

ghost use Rattle.std.specs.Prelude.{◌≡◌, ℕ, IfOk, IfSome, IsSome, OnOk, max, ◌/◌};
ghost use Rattle.std.specs.Ordering.{nat_cmp};
ghost use Rattle.std.specs.Option.{ForSome};
ghost use Rattle.std.specs.BTreeMap.{get};
ghost use Rattle.std_alloc.specs.Arc.{arc_value};

use crate::lobby::Lobby;
use crate::trail::{Terms, Trail};
use s4_types::{Moment, NoMemory, Principal};
use serde::Serialize;
use std::alloc::Global;
use std::collections::BTreeMap;
use std::sync::{Arc, Mutex, Wait};

/// Into how many spans a window is cut by which records are counted.
const PARTS: u64 = 64;

/// How many ticks such a span has at least: so often it is cut.
const LEAST: u64 = 100;

/// The trails of some principals, each under its own number.
#[derive(Drop)]
pub struct TrailTable {
    each: BTreeMap<u32, Arc<Trail>>,
    ghost own: { (who : ℕ) → ForSome (get nat_cmp each who) (λ trail. (arc_value trail).who ≡ who) },
}

impl TrailTable {
    /// No trails. Takes no memory.
    pub fn new(alloc: Global) -> TrailTable {
        TrailTable {
            each: BTreeMap::new(alloc),
        }
    }

    /// That of a principal. Where it isn't there it is that of the lobby, and is there from then on.
    pub fn of<R: Wait>(
        &mut self,
        lobby: &Lobby<'_, R>,
        who: &Principal,
    ) -> Result<&Arc<Trail>, NoMemory>
        ensures own { IfOk result (λ trail. (arc_value trail.now).who ≡ who.now) }
    {
        self.learn(lobby, who)?;
        Ok(self.each.get(&who.number()).unwrap())
    }

    /// Takes that of a principal from the lobby, unless it is there.
    fn learn<R: Wait>(&mut self, lobby: &Lobby<'_, R>, who: &Principal) -> Result<(), NoMemory>
        ensures there { OnOk result (IsSome (get nat_cmp self.new.each who.now)) }
    {
        if self.each.contains_key(&who.number()) {
            return Ok(());
        }
        self.add(lobby.trail(who)?)
    }

    /// That of a principal, where it is there.
    pub fn get(&self, who: &Principal) -> Option<&Arc<Trail>>
        ensures own { IfSome result (λ trail. (arc_value trail.now).who ≡ who.now) }
    {
        self.each.get(&who.number())
    }

    /// Adds that of a principal, where it isn't there.
    fn add(&mut self, trail: Arc<Trail>) -> Result<(), NoMemory>
        ensures there { OnOk result (IsSome (get nat_cmp self.new.each (arc_value trail).who)) }
    {
        self.each.insert(trail.who().number(), trail)?;
        Ok(())
    }
}

/// How many bytes the records take that requests of one principal left.
#[derive(Clone, Copy, Serialize)]
pub struct LeftBy {
    pub who: u32,
    pub bytes: u64,
}

/// The trails of all principals who asked something, for all workers of a server.
#[derive(Drop)]
pub(crate) struct Trails {
    alloc: Global,
    terms: Terms,
    trails: Mutex<TrailTable>,
}

impl Trails {
    /// Nobody has asked anything. Records of one principal may take so many bytes, and are cut some time
    /// behind a window of so many ticks. Takes no memory.
    pub(crate) fn new(alloc: Global, most: Option<u64>, window: u64) -> Trails
        ensures most { result.terms.most ≡ most }
        ensures ticks { result.terms.ticks ≡ max (window / 64) 100 }
    {
        let ticks = (window / PARTS).max(LEAST);
        Trails {
            alloc,
            terms: Terms { most, ticks },
            trails: Mutex::new(TrailTable::new(alloc)),
        }
    }

    /// The trail of a principal.
    pub(crate) fn trail<R: Wait>(&self, rt: &R, who: &Principal) -> Result<Arc<Trail>, NoMemory>
        ensures own { IfOk result (λ trail. (arc_value trail).who ≡ who.now) }
    {
        let mut trails = self.trails.lock(rt);
        if let Some(trail) = trails.get(who) {
            return Ok(Arc::try_clone(trail)?);
        }
        let trail = Arc::new(self.alloc, Trail::new(self.alloc, who, self.terms)?)?;
        let kept = Arc::try_clone(&trail)?;
        trails.add(kept)?;
        Ok(trail)
    }

    /// How many bytes the records of each principal take, where those before a moment were cut, of those
    /// principals that have any. It waits.
    pub(crate) fn told<R: Wait>(
        &self,
        rt: &R,
        alloc: Global,
        cut: Moment,
    ) -> Result<Vec<LeftBy>, NoMemory> {
        let trails = self.trails.lock(rt);
        let mut told = Vec::new(alloc);
        for (who, trail) in trails.each.iter() {
            let bytes = trail.bytes(rt, cut);
            if bytes > 0 {
                told.push(LeftBy { who: *who, bytes })?;
            }
        }
        Ok(told)
    }
}
