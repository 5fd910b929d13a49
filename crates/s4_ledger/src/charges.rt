//! The charges, in the order of their ends.

ghost use Rattle.std.specs.Prelude.{◌≡◌, ◌+◌, ◌<◌, ◌≤◌, ◌^◌, ◌↔◌, [], ◌∷◌, Contains, OnOk, IsOk, IfSome, IfNone, IsTrue, IsSome, length, true};
ghost use Rattle.std.specs.List.{HoldsAt};
ghost use Rattle.std.specs.List.Sorted.{IsPermutation};
ghost use Rattle.s4_ledger.specs.declared.accounts.Payer.{Payer};
ghost use Rattle.s4_ledger.specs.declared.charge.Charge.{Charge};
ghost use Rattle.s4_ledger.specs.declared.charge.Entry.{Entry};
ghost use Rattle.s4_ledger.specs.Books.{spending, lasting};
ghost use Rattle.s4_ledger.specs.Queue.{charge_of, charges_of, payers_of, counts_as};

use crate::accounts::Payer;
use crate::charge::{Charge, Entry};
use s4_queue::Queue;
use s4_types::{Moment, NoMemory, Purse};
use std::alloc::Global;
use std::marker::Model;

/// The charges in the order of their ends, with those among them that were forgiven and wait for
/// their end.
#[derive(Drop)]
pub struct Charges {
    queue: Queue<Entry>,
}

impl Model for Charges {
    ghost use Rattle.s4_ledger.specs.Queue.{Queue, IsInOrder};

    ghost Value = { Queue };

    ghost view = { λ c. record { entries = c.queue.items; room = c.queue.room } };

    ghost invariant = { λ c. IsInOrder c.queue.items };
}

impl Charges {
    /// No charges. Takes no memory.
    pub fn new(alloc: Global) -> Charges
        ensures { result.entries ≡ [] }
    {
        Charges {
            queue: Queue::new(alloc),
        }
    }

    /// Makes room for so many more.
    pub fn reserve(&mut self, more: usize) -> Result<(), NoMemory>
        ensures ok { OnOk result (more ≤ self.new.room) }
        ensures there { more ≤ self.old.room → IsOk result }
        ensures room { self.old.room ≤ self.new.room }
        ensures entries { self.new.entries ≡ self.old.entries }
    {
        self.queue.reserve(more)
    }

    /// Whether such a charge counts.
    pub fn holds(&self, charge: &Charge) -> bool
        ensures { IsTrue result ↔ Contains (charges_of self.now.entries) charge.now }
    {
        self.find(charge).is_some()
    }

    /// Puts an entry behind those that end by its end. Takes no memory.
    pub fn put(&mut self, entry: Entry)
        requires costs { 0 < entry.cost }
        requires room { 0 < self.old.room }
        ensures charges { IsPermutation (charge_of entry ∷ charges_of self.old.entries)
            (charges_of self.new.entries) }
        ensures payers { (p : Payer) → Contains (payers_of self.new.entries) p
            → Contains (entry.payer ∷ payers_of self.old.entries) p }
        ensures room { self.old.room ≤ self.new.room + 1 }
    {
        if self.ends_by(entry.end) {
            self.queue.push(entry);
            return;
        }
        let index = self.queue.partition_point(|other| other.end <= entry.end);
        self.queue.insert(index, entry);
    }

    /// Takes out one such charge, and tells who paid for it.
    pub fn take_out(&mut self, charge: &Charge) -> Payer
        requires { Contains (charges_of self.old.entries) charge.now }
        ensures charges { IsPermutation (charges_of self.old.entries)
            (charge.now ∷ charges_of self.new.entries) }
        ensures payers { payers_of self.new.entries ≡ payers_of self.old.entries }
        ensures payer { Contains (payers_of self.old.entries) result }
        ensures purse { result.purse ≡ charge.now.purse }
        ensures room { self.new.room ≡ self.old.room }
    {
        let index = self.find(charge).unwrap();
        let payer = self.queue[index].payer;
        let mut entry = self.queue[index];
        entry.cost = 0;
        self.queue.set(index, entry);
        payer
    }

    /// Takes out the first entry, where its end is at most the horizon.
    pub fn take_ended(&mut self, horizon: Moment) -> Option<Entry>
        ensures taken { IfSome result (λ e. self.old.entries ≡ e ∷ self.new.entries) }
        ensures ended { IfSome result (λ e. e.end ≤ horizon) }
        ensures none { IfNone result (self.new ≡ self.old) }
        ensures lasting { IfNone result (lasting horizon (charges_of self.old.entries)
            ≡ charges_of self.old.entries) }
        ensures room { self.old.room ≤ self.new.room }
    {
        let first = self.queue.front()?;
        if first.end > horizon {
            return None;
        }
        self.queue.pop()
    }

    /// What the purse's charges cost whose ends are at most the horizon, in bytes.
    pub fn ended(&self, purse: &Purse, horizon: Moment) -> u32
        requires { spending purse.now (charges_of self.now.entries) < 2 ^ 32 }
        ensures { result + spending purse.now (lasting horizon (charges_of self.now.entries))
            ≡ spending purse.now (charges_of self.now.entries) }
    {
        let mut ended = 0;
        let mut index = 0;
        while index < self.queue.len() {
            let entry = &self.queue[index];
            if entry.end > horizon {
                return ended;
            }
            if entry.payer.purse == *purse {
                ended += entry.cost;
            }
            index += 1;
        }
        ended
    }

    // Whether all entries end by that moment.
    fn ends_by(&self, end: Moment) -> bool
        ensures { IsTrue result → (e : Entry) → Contains self.now.entries e → e.end ≤ end }
    {
        match self.queue.back() {
            Some(last) => last.end <= end,
            None => true,
        }
    }

    // The place of the first entry that counts as such a charge.
    fn find(&self, charge: &Charge) -> Option<usize>
        ensures found { IsSome result ↔ Contains (charges_of self.now.entries) charge.now }
        ensures within { IfSome result (λ i. i < length self.now.entries) }
        ensures here { IfSome result
            (HoldsAt (λ e. counts_as charge.now e ≡ true) self.now.entries) }
    {
        let mut index = self.queue.partition_point(|entry| entry.end < charge.end);
        while index < self.queue.len() {
            let entry = &self.queue[index];
            if entry.end > charge.end {
                return None;
            }
            if is_charge(entry, charge) {
                return Some(index);
            }
            index += 1;
        }
        None
    }
}

// Whether the entry counts, and as such a charge.
fn is_charge(entry: &Entry, charge: &Charge) -> bool
    ensures { result ≡ counts_as charge.now entry.now }
{
    entry.cost > 0
        && entry.end == charge.end
        && entry.payer.purse == charge.purse
        && entry.cost == charge.cost
}
