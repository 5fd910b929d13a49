//! How many connections are open of each: from an address, or of a principal.

use s4_types::NoMemory;
use std::alloc::Global;
use std::collections::BTreeMap;
use std::sync::{Mutex, Wait};

/// Of how many it is told at most: of those that have the most connections (docs/LIMITS.md, "Numbers").
const TOLD: usize = 100;

/// How many connections are open of each.
#[derive(Drop)]
pub(crate) struct OpenBy<K: Ord + Copy + Drop> {
    alloc: Global,
    /// How many may be open of one; 0 where there is no bound.
    most: u32,
    open: Mutex<BTreeMap<K, u32>>,
}

impl<K: Ord + Copy + Drop> OpenBy<K> {
    /// No connections. Takes no memory.
    pub(crate) fn new(alloc: Global, most: u32) -> OpenBy<K> {
        OpenBy {
            alloc,
            most,
            open: Mutex::new(BTreeMap::new(alloc)),
        }
    }

    /// Counts a connection of this one. Tells whether it may be open: not where as many are as may be. Where
    /// there is no memory to count another one, it may be only where there is no bound, and isn't counted.
    pub(crate) fn enter<R: Wait>(&self, rt: &R, of: K) -> bool {
        add(&mut self.open.lock(rt), of, self.most).unwrap_or(self.most == 0)
    }

    /// A connection of this one, which was counted, is open no more.
    pub(crate) fn leave<R: Wait>(&self, rt: &R, of: K) {
        take_away(&mut self.open.lock(rt), of);
    }

    /// Of which there are the most, and how many of each.
    pub(crate) fn told<R: Wait>(&self, rt: &R) -> Result<Vec<(K, u32)>, NoMemory> {
        let mut told = Vec::new(self.alloc);
        let open = self.open.lock(rt);
        for (of, count) in open.iter() {
            told.push((*of, *count))?;
        }
        told.sort_by(|one, other| other.1.cmp(&one.1))?;
        told.truncate(TOLD);
        Ok(told)
    }
}

/// Counts one connection more, unless there are so many. Tells whether it did.
fn add<K: Ord + Copy + Drop>(
    open: &mut BTreeMap<K, u32>,
    of: K,
    most: u32,
) -> Result<bool, NoMemory> {
    match open.get_mut(&of) {
        Some(count) if most > 0 && *count >= most => Ok(false),
        Some(count) => {
            *count = count.saturating_add(1);
            Ok(true)
        }
        None => {
            open.insert(of, 1)?;
            Ok(true)
        }
    }
}

/// Counts one connection less. Of one without connections nothing is left.
fn take_away<K: Ord + Copy + Drop>(open: &mut BTreeMap<K, u32>, of: K) {
    match open.get_mut(&of) {
        Some(count) if *count > 1 => *count -= 1,
        _ => {
            open.remove(&of);
        }
    }
}
