//! A list of calls.

ghost use Rattle.std.specs.Prelude.{◌≡◌, ◌<◌, ◌≤◌, [], ◌∷◌, ◌++◌, OnOk, OnErr, drop, length};
ghost use Rattle.std.specs.VecDeque.{deque_len, deque_capacity};
ghost use Rattle.s4_passes.specs.Calls.{calls_of, receipts_of};

use crate::call::{Asked, Call, Receipt};
use s4_types::{Moment, NoMemory};
use std::alloc::Global;
use std::collections::VecDeque;
use std::marker::Model;

/// A list of calls with a number. Callers see what was asked and what was told of each call as one.
/// Calls at the front may be dropped; the moment of the last one that there ever was stays.
pub struct Calls {
    number: u64,
    last: Moment,
    asked: VecDeque<Asked>,
    receipts: VecDeque<Receipt>,
}

// Written out, so that no crate above proves how calls are dropped.
impl Drop for Calls {
    fn drop(self) {
        let Calls {
            number: _,
            last: _,
            asked: _,
            receipts: _,
        } = self;
    }
}

impl Model for Calls {
    ghost use Rattle.std.specs.Prelude.{◌≡◌, ◌-◌, length, min};
    ghost use Rattle.std.specs.VecDeque.{deque_len, deque_capacity};
    ghost use Rattle.s4_passes.specs.Calls.{calls_of};
    ghost use Rattle.s4_passes.specs.Tokens.{KeptCalls};

    ghost Value = { KeptCalls };

    ghost view = { λ c. record {
      number = c.number;
      last = c.last;
      calls = calls_of c.asked.items c.receipts.items;
      room = min (deque_capacity c.asked - deque_len c.asked)
          (deque_capacity c.receipts - deque_len c.receipts);
    } };

    ghost invariant = { λ c. length c.asked.items ≡ length c.receipts.items };
}

impl Calls {
    /// A list of that number without calls. Takes no memory.
    pub fn new(alloc: Global, number: u64) -> Calls
        ensures number { result.number ≡ number }
        ensures last { result.last ≡ 0 }
        ensures calls { result.calls ≡ [] }
    {
        Calls {
            number,
            last: Moment::new(0),
            asked: VecDeque::new(alloc),
            receipts: VecDeque::new(alloc),
        }
    }

    /// The list's number.
    pub fn number(&self) -> u64
        ensures { result ≡ self.now.number }
    {
        self.number
    }

    /// The moment of the last call that there ever was, 0 where there was none.
    pub fn last(&self) -> Moment
        ensures { result ≡ self.now.last }
    {
        self.last
    }

    /// The receipts of the calls, in their order.
    pub fn receipts(&self) -> &VecDeque<Receipt>
        ensures { result.now.items ≡ receipts_of self.now.calls }
    {
        &self.receipts
    }

    /// What was asked, and the receipts: of each call at one place.
    pub fn sides(&self) -> (&VecDeque<Asked>, &VecDeque<Receipt>)
        ensures calls { calls_of result.0.now.items result.1.now.items ≡ self.now.calls }
        ensures even { length result.0.now.items ≡ length result.1.now.items }
    {
        (&self.asked, &self.receipts)
    }

    /// Makes room for one more call, or answers `NoMemory` where there was none and a growth was refused:
    /// then there is as much as before.
    pub fn reserve(&mut self) -> Result<(), NoMemory>
        ensures number { self.new.number ≡ self.old.number }
        ensures last { self.new.last ≡ self.old.last }
        ensures calls { self.new.calls ≡ self.old.calls }
        ensures room { OnOk result (0 < self.new.room) }
        ensures refused { OnErr result (self.new.room ≡ self.old.room) }
        ensures wanting { OnErr result (self.old.room ≡ 0) }
    {
        make_room(&mut self.asked)?;
        make_room(&mut self.receipts)
    }

    /// Adds a call, in the room for it. Takes no memory.
    pub fn add(&mut self, call: Call)
        requires { 0 < self.old.room }
        ensures number { self.new.number ≡ self.old.number }
        ensures last { self.new.last ≡ call.receipt.moment }
        ensures calls { self.new.calls ≡ self.old.calls ++ call ∷ [] }
    {
        let Call { asked, receipt } = call;
        self.asked.push_back_reserved(asked);
        self.last = receipt.moment;
        self.receipts.push_back_reserved(receipt);
    }

    /// Drops the first calls, so many.
    pub fn forget(&mut self, count: usize)
        requires { count ≤ length self.old.calls }
        ensures number { self.new.number ≡ self.old.number }
        ensures last { self.new.last ≡ self.old.last }
        ensures calls { self.new.calls ≡ drop count self.old.calls }
    {
        drop(self.asked.drain(..count));
        drop(self.receipts.drain(..count));
    }
}

/// Makes room for one more item.
fn make_room<T>(list: &mut VecDeque<T>) -> Result<(), NoMemory>
    ensures items { list.new.items ≡ list.old.items }
    ensures ok { OnOk result (deque_len list.new < deque_capacity list.new) }
    ensures err { OnErr result (deque_capacity list.new ≡ deque_capacity list.old) }
    ensures wanting { OnErr result (deque_capacity list.old ≤ deque_len list.old) }
{
    let count = list.len();
    if count < list.capacity() {
        return Ok(());
    }
    list.reserve_exact(count.max(4))
}
