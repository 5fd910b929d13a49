//! A pass.

ghost use Rattle.std.specs.Prelude.{◌≡◌, ◌+◌, ◌%◌, ◌<◌, ◌≤◌, true, false, [], ◌∷◌, ◌++◌, OnOk, OnErr, length};
ghost use Rattle.s4_types.specs.declared.record.Record.{Record};
ghost use Rattle.s4_types.specs.Audit.{is_wide_record};
ghost use Rattle.s4_types.specs.Kinds.{is_wide, range_of};
ghost use Rattle.s4_calls.specs.Books.{AreInOrder, all_with, first_count, with_books};
ghost use Rattle.s4_calls.specs.Hands.{of_pass, parts_of, shares_of};
ghost use Rattle.s4_calls.specs.Rule.{IsLinearized};
ghost use Rattle.s4_passes.specs.Calls.{AllKeepLast, KeepsLast, calls_of, last_moment, receipts_of, record_of};
ghost use Rattle.s4_passes.specs.Changes.{AddsCall, Forgets, KeepsCalls};
ghost use Rattle.s4_passes.specs.Tokens.{with_passes};

use crate::call::{Asked, Call, Receipt};
use crate::list::Calls;
use s4_calls::{Book, Item, Ledger, Names, Token, audit_books, note_all};
use s4_types::{Moment, NoMemory, Record};
use std::alloc::Global;
use std::collections::VecDeque;
use std::marker::{Model, PhantomData};

/// What a caller's calls are made with, one after the other: it keeps the last ones of them, and a token
/// of the front's ledger, which knows all that there ever were. Callers see its number and both lists.
pub struct Pass<N: Names> {
    calls: Calls,
    token: Token<Record>,
    of: PhantomData<N>,
}

// Written out, so that no crate above proves how calls are dropped.
impl<N: Names> Drop for Pass<N> {
    fn drop(self) {
        let Pass {
            calls: _,
            token: _,
            of: _,
        } = self;
    }
}

impl<N: Names> Model for Pass<N> {
    ghost use Rattle.std.specs.Prelude.{◌≡◌};
    ghost use Rattle.s4_passes.specs.Calls.{CallList};
    ghost use Rattle.s4_passes.specs.Tokens.{IsOfPass, calls_by};

    ghost Value = { CallList };

    ghost view = { λ p. record {
      number = p.calls.number;
      ever = calls_by p.token.hands;
      calls = p.calls.calls;
      room = p.calls.room;
    } };

    ghost invariant = { λ p. (p.token.ledger ≡ N.ledger) × IsOfPass p.token.hands p.calls };
}

impl<N: Names> Pass<N> {
    /// A pass of that number without calls, and with a token of its own. Takes no memory.
    pub fn new(alloc: Global, number: u64, token: Token<Record>) -> Pass<N>
        requires ledger { token.ledger ≡ N.ledger }
        requires hands { token.hands ≡ of_pass [] ∷ [] }
        ensures number { result.number ≡ number }
        ensures ever { result.ever ≡ [] }
        ensures calls { result.calls ≡ [] }
    {
        Pass {
            calls: Calls::new(alloc, number),
            token,
            of: PhantomData,
        }
    }

    /// The pass's number, from 0.
    pub fn number(&self) -> u64
        ensures { result ≡ self.now.number }
    {
        self.calls.number()
    }

    /// The moment of the last call that there ever was, 0 where there was none.
    pub fn last(&self) -> Moment
        ensures { result ≡ last_moment self.now }
    {
        self.calls.last()
    }

    /// The receipts of the calls that are kept, in their order.
    pub fn receipts(&self) -> &VecDeque<Receipt>
        ensures { result.now.items ≡ receipts_of self.now.calls }
    {
        self.calls.receipts()
    }

    /// What was asked, and the receipts: of each call that is kept at one place. They are the last ones
    /// of those that there ever were.
    pub fn sides(&self) -> (&VecDeque<Asked>, &VecDeque<Receipt>)
        ensures calls { calls_of result.0.now.items result.1.now.items ≡ self.now.calls }
        ensures even { length result.0.now.items ≡ length result.1.now.items }
        ensures last { KeepsLast self.now }
    {
        self.calls.sides()
    }

    /// Makes room for one more call, or answers `NoMemory` where there was none and a growth was refused:
    /// then there is as much as before.
    pub fn reserve(&mut self) -> Result<(), NoMemory>
        ensures same { KeepsCalls self.old self.new }
        ensures room { OnOk result (0 < self.new.room) }
        ensures refused { OnErr result (self.new.room ≡ self.old.room) }
        ensures wanting { OnErr result (self.old.room ≡ 0) }
    {
        self.calls.reserve()
    }

    /// Adds an ordinary call, in the room for it, and records what it left in the book of its cell. Takes
    /// no memory.
    pub fn add(&mut self, ledger: &Ledger<Record>, book: &mut Book<N, Record>, call: Call)
        requires room { 0 < self.old.room }
        requires ledger { ledger.now ≡ N.ledger }
        requires ordinary { is_wide call.asked.caller call.asked.request ≡ false }
        requires home { range_of call.asked.caller call.asked.request % N.ledger.words
            ≡ book.old.cell }
        requires cell { call.receipt.cell ≡ book.old.cell }
        requires place { call.receipt.place ≡ length book.old.items }
        ensures adds { AddsCall call self.old self.new }
        ensures cell { book.new.cell ≡ book.old.cell }
        ensures items { book.new.items ≡ book.old.items ++ record_of call ∷ [] }
    {
        book.note(ledger, &mut self.token, &call);
        self.calls.add(call);
    }

    /// Adds a wide call, in the room for it, and records what it left in the books of all cells. Takes
    /// no memory.
    pub fn add_wide(&mut self, ledger: &Ledger<Record>, books: &mut [Book<N, Record>], call: Call)
        requires room { 0 < self.old.room }
        requires ledger { ledger.now ≡ N.ledger }
        requires wide { is_wide call.asked.caller call.asked.request ≡ true }
        requires order { AreInOrder books.old }
        requires all { length books.old ≡ N.ledger.words }
        requires cell { call.receipt.cell ≡ 0 }
        requires place { call.receipt.place ≡ first_count 0 books.old }
        ensures adds { AddsCall call self.old self.new }
        ensures books { books.new ≡ all_with (record_of call) books.old }
    {
        note_all(books, ledger, &mut self.token, &call);
        self.calls.add(call);
    }

    /// Keeps the first calls no longer, so many. All that there ever were stay known. It can't fail.
    pub fn forget(&mut self, count: usize)
        requires { count ≤ length self.old.calls }
        ensures { Forgets count self.old self.new }
    {
        self.calls.forget(count);
    }
}

/// What each pass keeps are the last ones of its calls.
pub fn keep_last<N: Names>(passes: &[Pass<N>])
    ensures { AllKeepLast passes.now }
{
    for i in 0..passes.len() {
        let _sides = passes[i].sides();
    }
}

/// Changes nothing. Who has all parts of the ledger but those of the passes and of the books knows one
/// log of all calls, with the passes and the books.
pub fn audit<N: Names>(
    ledger: &Ledger<Record>,
    all: &mut Token<Record>,
    passes: &mut [Pass<N>],
    books: &mut [Book<N, Record>],
)
    requires ledger { ledger.now ≡ N.ledger }
    requires ledger_of_all { all.old.ledger ≡ N.ledger }
    ensures all { all.new ≡ all.old }
    ensures passes { passes.new ≡ passes.old }
    ensures books { books.new ≡ books.old }
    ensures log { 64 ≤ parts_of all.old.hands + length passes.old + length books.old
        → IsLinearized ⟦<Record as Item>⟧.is_wide ⟦<Record as Item>⟧.range
        (shares_of (with_books books.old (with_passes passes.old all.old.hands)))
        (with_books books.old (with_passes passes.old all.old.hands)) }
{
    match passes.split_first_mut() {
        None => audit_books(ledger, all, books),
        Some((first, rest)) => {
            let Pass { token, .. } = first;
            ledger.join(all, ledger.take(token));
            audit(ledger, all, rest, books);
            *token = ledger.part(all);
        }
    }
}
