//! What each purse has spent and may spend, one account a purse.

ghost use Rattle.std.specs.Prelude.{◌≡◌, ◌+◌, ◌<◌, ◌≤◌, ◌^◌, [], true, false, Some, IfOk, OnOk, OnErr, IsOk, if◌then◌else◌};
ghost use Rattle.s4_types.specs.declared.object.Purse.{Purse};
ghost use Rattle.s4_types.specs.Names.{same_purse};
ghost use Rattle.s4_ledger.specs.Books.{budget_of, has_budget, place_of, HasAccount};

use s4_types::{NoMemory, Purse};
use std::alloc::Global;
use std::collections::BTreeMap;
use std::marker::Model;

/// A purse that has an account, and the place of it among those of its ledger. It stays there.
#[derive(Clone, Copy)]
pub struct Payer {
    pub purse: Purse,
    pub place: usize,
}

/// What a purse has spent and what it may spend, in bytes.
#[derive(Clone, Copy)]
pub struct Account {
    pub spent: u32,
    pub budget: u32,
}

/// The account of a purse that has none.
const FRESH: Account = Account {
    spent: 0,
    budget: Purse::DEFAULT_BUDGET,
};

/// The accounts of the purses, in the order in which they were opened. A purse that has none has
/// spent nothing, and may spend the default.
#[derive(Drop)]
pub struct Accounts {
    places: BTreeMap<Purse, usize>,
    accounts: Vec<(Purse, Account)>,
}

impl Model for Accounts {
    ghost use Rattle.std.specs.Prelude.{List};
    ghost use Rattle.s4_types.specs.declared.object.Purse.{Purse};
    ghost use Rattle.s4_ledger.specs.declared.accounts.Account.{Account};
    ghost use Rattle.s4_ledger.specs.Accounts.{ArePlaces};

    ghost Value = { List (Purse × Account) };

    ghost view = { λ a. a.accounts.items };

    ghost invariant = { λ a. ArePlaces a.places.entries a.accounts.items };
}

impl Accounts {
    ghost use Rattle.s4_ledger.specs.Accounts.{account_of, spent_in, budgets_of, opened};

    /// No accounts. Takes no memory.
    pub fn new(alloc: Global) -> Accounts
        ensures { result ≡ [] }
    {
        Accounts {
            places: BTreeMap::new(alloc),
            accounts: Vec::new(alloc),
        }
    }

    /// Opens an account for the purse, if it has none, and tells its place.
    pub fn open(&mut self, purse: &Purse) -> Result<Payer, NoMemory>
        ensures payer { IfOk result (λ payer. payer.purse ≡ purse.now) }
        ensures place { IfOk result (λ payer. HasAccount payer (budgets_of self.new)) }
        ensures ok { OnOk result (self.new ≡ opened purse.now self.old) }
        ensures err { OnErr result (self.new ≡ self.old) }
        ensures there { has_budget purse.now (budgets_of self.old) ≡ true → IsOk result }
    {
        match self.places.get(purse).copied() {
            Some(place) => Ok(Payer {
                purse: *purse,
                place,
            }),
            None => self.open_first(purse),
        }
    }

    // Opens an account for a purse that has none.
    fn open_first(&mut self, purse: &Purse) -> Result<Payer, NoMemory>
        requires { has_budget purse.now (budgets_of self.old) ≡ false }
        ensures payer { IfOk result (λ payer. payer.purse ≡ purse.now) }
        ensures place { IfOk result (λ payer. HasAccount payer (budgets_of self.new)) }
        ensures ok { OnOk result (self.new ≡ opened purse.now self.old) }
        ensures err { OnErr result (self.new ≡ self.old) }
    {
        let place = self.accounts.len();
        self.accounts.reserve(1)?;
        self.places.insert(*purse, place)?;
        self.accounts.push_reserved((*purse, FRESH));
        Ok(Payer {
            purse: *purse,
            place,
        })
    }

    /// What the purse has spent and what it may spend.
    pub fn account(&self, purse: &Purse) -> Account
        ensures { result ≡ account_of purse.now self.now }
    {
        match self.places.get(purse).copied() {
            Some(place) => self.accounts[place].1,
            None => FRESH,
        }
    }

    /// Adds to what the payer has spent. Takes no memory.
    pub fn add(&mut self, payer: &Payer, cost: u32)
        requires open { HasAccount payer.now (budgets_of self.old) }
        requires fits { spent_in payer.now.purse self.old + cost < 2 ^ 32 }
        ensures spent { (p : Purse) → spent_in p self.new
            ≡ spent_in p self.old + (if same_purse payer.now.purse p then cost else 0) }
        ensures budgets { budgets_of self.new ≡ budgets_of self.old }
    {
        self.accounts[payer.place].1.spent += cost;
    }

    /// Takes from what the payer has spent.
    pub fn subtract(&mut self, payer: &Payer, cost: u32)
        requires open { HasAccount payer.now (budgets_of self.old) }
        requires spent { cost ≤ spent_in payer.now.purse self.old }
        ensures spent { (p : Purse) → spent_in p self.old
            ≡ spent_in p self.new + (if same_purse payer.now.purse p then cost else 0) }
        ensures budgets { budgets_of self.new ≡ budgets_of self.old }
    {
        self.accounts[payer.place].1.spent -= cost;
    }

    /// Sets what the payer may spend. Takes no memory.
    pub fn set_budget(&mut self, payer: &Payer, budget: u32)
        requires open { HasAccount payer.now (budgets_of self.old) }
        ensures set { (p : Purse) → budget_of p (budgets_of self.new)
            ≡ (if same_purse payer.now.purse p then budget
            else budget_of p (budgets_of self.old)) }
        ensures spent { (p : Purse) → spent_in p self.new ≡ spent_in p self.old }
        ensures places { (p : Purse) → place_of p (budgets_of self.new)
            ≡ place_of p (budgets_of self.old) }
    {
        self.accounts[payer.place].1.budget = budget;
    }
}
