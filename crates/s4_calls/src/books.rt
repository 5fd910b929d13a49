//! The books of all cells.

ghost use Rattle.std.specs.Prelude.{◌≡◌, ◌+◌, ◌≤◌, true, length, MatchBool};
ghost use Rattle.s4_calls.specs.Logs.{noted};
ghost use Rattle.s4_calls.specs.Hands.{parts_of, shares_of, widen};
ghost use Rattle.s4_calls.specs.Rule.{IsLinearized};
ghost use Rattle.s4_calls.specs.Tokens.{IsRow};
ghost use Rattle.s4_calls.specs.Books.{AreInOrder, AreLast, all_with, first_count, wide_place, with_books, with_call_of};

use crate::book::Book;
use crate::hand::{Item, Tells};
use crate::ledger::{Ledger, Token};
use crate::names::Names;

/// Whether the books are those of the cells from 0 on.
pub fn are_in_order<N: Names, T: Item>(books: &[Book<N, T>]) -> bool
    ensures { MatchBool result (AreInOrder books.now) (¬ AreInOrder books.now) }
{
    for cell in 0..books.len() {
        if books[cell].cell() != cell {
            return false;
        }
    }
    true
}

/// Notes a wide call: its item is recorded in the books of all cells, and the call, as one of the first
/// cell, by the token of the caller's pass. What tells of the item is for the proof alone.
#[tactic(auto, using(crate::proofs::Rows::begins))]
pub fn note_all<N: Names, T: Item, A: Tells<T>>(
    books: &mut [Book<N, T>],
    ledger: &Ledger<T>,
    caller: &mut Token<T>,
    call: &A,
)
    requires order { AreInOrder books.old }
    requires all { length books.old ≡ N.ledger.words }
    requires ledger { ledger.now ≡ N.ledger }
    requires ledger_of_caller { caller.old.ledger ≡ N.ledger }
    requires caller { IsRow 0 caller.old.hands }
    requires wide { T.is_wide (A.item call.now) ≡ true }
    ensures books { books.new ≡ all_with (A.item call.now) books.old }
    ensures calls { caller.new.hands ≡ with_call_of
        (noted 0 (first_count 0 books.old) (A.item call.now)) caller.old.hands }
    ensures ledger_of_caller { caller.new.ledger ≡ N.ledger }
{
    note_rest(books, ledger, caller, call);
}

/// The same of the last books, by a token that has taken in the books of the cells before.
#[tactic(auto, using(crate::proofs::Rows::goes_on, crate::proofs::Rows::ends))]
fn note_rest<N: Names, T: Item, A: Tells<T>>(
    books: &mut [Book<N, T>],
    ledger: &Ledger<T>,
    caller: &mut Token<T>,
    call: &A,
)
    requires last { AreLast N.ledger.words books.old caller.old.hands }
    requires ledger { ledger.now ≡ N.ledger }
    requires ledger_of_caller { caller.old.ledger ≡ N.ledger }
    requires wide { T.is_wide (A.item call.now) ≡ true }
    ensures books { books.new ≡ all_with (A.item call.now) books.old }
    ensures calls { caller.new.hands
        ≡ widen (wide_place books.old caller.old.hands) (A.item call.now) caller.old.hands }
    ensures ledger_of_caller { caller.new.ledger ≡ N.ledger }
{
    match books.split_first_mut() {
        None => ledger.note_wide(caller, call),
        Some((first, rest)) => {
            let Book { token, .. } = first;
            ledger.join(caller, ledger.take(token));
            note_rest(rest, ledger, caller, call);
            *token = ledger.part(caller);
        }
    }
}

/// Changes nothing. Who has all parts but those of the books knows one log of all calls, with the
/// books.
pub fn audit_books<N: Names, T: Item>(
    ledger: &Ledger<T>,
    all: &mut Token<T>,
    books: &mut [Book<N, T>],
)
    requires ledger { ledger.now ≡ N.ledger }
    requires ledger_of_all { all.old.ledger ≡ N.ledger }
    ensures all { all.new ≡ all.old }
    ensures books { books.new ≡ books.old }
    ensures log { 64 ≤ parts_of all.old.hands + length books.old → IsLinearized T.is_wide T.range
        (shares_of (with_books books.old all.old.hands)) (with_books books.old all.old.hands) }
{
    match books.split_first_mut() {
        None => ledger.audit(all),
        Some((first, rest)) => {
            let Book { token, .. } = first;
            ledger.join(all, ledger.take(token));
            audit_books(ledger, all, rest);
            *token = ledger.part(all);
        }
    }
}
