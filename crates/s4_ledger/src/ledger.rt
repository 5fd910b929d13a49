//! What the past of each purse costs, and what each purse may spend on it.

ghost use Rattle.std.specs.Prelude.{◌≡◌, ◌+◌, ◌<◌, ◌≤◌, ◌↔◌, [], ◌∷◌, Contains, IfOk, OnOk, OnErr, IsOk, IsTrue, true, if◌then◌else◌};
ghost use Rattle.std.specs.List.Sorted.{IsPermutation};
ghost use Rattle.s4_types.specs.declared.object.Purse.{Purse};
ghost use Rattle.s4_types.specs.Base.{default_budget};
ghost use Rattle.s4_types.specs.Names.{same_purse};
ghost use Rattle.s4_ledger.specs.declared.accounts.Payer.{Payer};
ghost use Rattle.s4_ledger.specs.Books.{spending, lasting, budget_of, has_budget, HasAccount, OpensAccount};

use crate::accounts::{Accounts, Payer};
use crate::charge::{Charge, Entry};
use crate::charges::Charges;
use s4_types::{Moment, NoMemory, Purse};
use std::alloc::Global;
use std::marker::Model;

/// The charges of each purse that the horizon hasn't reached, and the budgets.
///
/// A charge counts from `charge` on, until the horizon reaches its end or it is forgiven. What a
/// purse spends is the sum of its charges that count; it never exceeds the greatest budget that the
/// purse had.
#[derive(Drop)]
pub struct Ledger {
    horizon: Moment,
    charges: Charges,
    accounts: Accounts,
}

impl Model for Ledger {
    ghost use Rattle.s4_ledger.specs.Accounts.{budgets_of};
    ghost use Rattle.s4_ledger.specs.Books.{Books};
    ghost use Rattle.s4_ledger.specs.Queue.{charges_of};
    ghost use Rattle.s4_ledger.specs.Balance.{IsBalanced};

    ghost Value = { Books };

    ghost view = { λ l. record {
      horizon = l.horizon;
      charges = charges_of l.charges.entries;
      room = l.charges.room;
      budgets = budgets_of l.accounts;
    } };

    ghost invariant = { λ l. IsBalanced l.charges.entries l.accounts };
}

impl Ledger {
    /// The horizon is at moment 0, there are no charges and no accounts, and each budget is the
    /// default. Takes no memory.
    pub fn new(alloc: Global) -> Ledger
        ensures horizon { result.horizon ≡ 0 }
        ensures charges { result.charges ≡ [] }
        ensures accounts { result.budgets ≡ [] }
        ensures budgets { (p : Purse) → budget_of p result.budgets ≡ default_budget }
    {
        Ledger {
            horizon: Moment::new(0),
            charges: Charges::new(alloc),
            accounts: Accounts::new(alloc),
        }
    }

    /// Up to which end charges no longer count.
    pub fn horizon(&self) -> Moment
        ensures { result ≡ self.now.horizon }
    {
        self.horizon
    }

    /// Makes room for so many charges. Where there is such room already, no memory is needed.
    pub fn reserve(&mut self, more: usize) -> Result<(), NoMemory>
        ensures ok { OnOk result (more ≤ self.new.room) }
        ensures there { more ≤ self.old.room → IsOk result }
        ensures room { self.old.room ≤ self.new.room }
        ensures horizon { self.new.horizon ≡ self.old.horizon }
        ensures charges { self.new.charges ≡ self.old.charges }
        ensures budgets { self.new.budgets ≡ self.old.budgets }
    {
        self.charges.reserve(more)
    }

    /// Opens an account for the purse, if it has none, and tells its place: so it is looked for once,
    /// and charged several times. Its budget stays as it is, and setting it takes no memory then. Where
    /// memory is refused, nothing changes.
    pub fn open(&mut self, purse: &Purse) -> Result<Payer, NoMemory>
        ensures payer { IfOk result (λ payer. payer.purse ≡ purse.now) }
        ensures place { IfOk result (λ payer. HasAccount payer self.new.budgets) }
        ensures ok { OnOk result (has_budget purse.now self.new.budgets ≡ true) }
        ensures there { has_budget purse.now self.old.budgets ≡ true → IsOk result }
        ensures err { OnErr result (self.new.budgets ≡ self.old.budgets) }
        ensures opens { OpensAccount purse.now self.old self.new }
        ensures budgets { (p : Purse) → budget_of p self.new.budgets
            ≡ budget_of p self.old.budgets }
    {
        self.accounts.open(purse)
    }

    /// The charges whose end is at most the horizon no longer count, and their room serves again.
    /// Takes no memory.
    pub fn advance(&mut self, horizon: Moment)
        requires { self.old.horizon ≤ horizon }
        ensures charges { self.new.charges ≡ lasting horizon self.old.charges }
        ensures horizon { self.new.horizon ≡ horizon }
        ensures budgets { self.new.budgets ≡ self.old.budgets }
        ensures room { self.old.room ≤ self.new.room }
    {
        while let Some(entry) = self.charges.take_ended(horizon) {
            self.accounts.subtract(&entry.payer, entry.cost);
        }
        self.horizon = horizon;
    }

    /// What the purse spends, in bytes.
    pub fn spent(&self, purse: &Purse) -> u32
        ensures { result ≡ spending purse.now self.now.charges }
    {
        self.accounts.account(purse).spent
    }

    /// What the purse would spend once the horizon was advanced to there, in bytes. Nothing changes.
    pub fn spent_at(&self, purse: &Purse, horizon: Moment) -> u32
        requires { self.now.horizon ≤ horizon }
        ensures { result ≡ spending purse.now (lasting horizon self.now.charges) }
    {
        self.spent(purse) - self.charges.ended(purse, horizon)
    }

    /// What the purse may spend, in bytes.
    pub fn budget(&self, purse: &Purse) -> u32
        ensures { result ≡ budget_of purse.now self.now.budgets }
    {
        self.accounts.account(purse).budget
    }

    /// Whether the purse's budget has room for a charge.
    pub fn room(&self, purse: &Purse, charge: u32) -> bool
        ensures { IsTrue result
            ↔ (spending purse.now self.now.charges + charge ≤ budget_of purse.now self.now.budgets) }
    {
        let account = self.accounts.account(purse);
        fits(account.spent, charge, account.budget)
    }

    /// Whether it would have room once the horizon was advanced to there. Nothing changes.
    pub fn room_at(&self, purse: &Purse, horizon: Moment, charge: u32) -> bool
        requires { self.now.horizon ≤ horizon }
        ensures { IsTrue result
            ↔ (spending purse.now (lasting horizon self.now.charges) + charge
            ≤ budget_of purse.now self.now.budgets) }
    {
        let account = self.accounts.account(purse);
        let spent = account.spent - self.charges.ended(purse, horizon);
        fits(spent, charge, account.budget)
    }

    /// Whether a charge of this purse, end and cost counts.
    pub fn has_charge(&self, purse: &Purse, end: Moment, cost: u32) -> bool
        ensures { IsTrue result
            ↔ Contains self.now.charges (record { purse = purse.now; end = end; cost = cost }) }
    {
        self.charges.holds(&Charge {
            purse: *purse,
            end,
            cost,
        })
    }

    /// Adds a charge of the payer's purse, in the room that was made for it. One whose end is at most
    /// the horizon doesn't count, needs no room and changes nothing. Takes no memory.
    pub fn charge(&mut self, payer: &Payer, end: Moment, cost: u32)
        requires costs { 0 < cost }
        requires account { HasAccount payer.now self.old.budgets }
        requires reserved { self.old.horizon < end → 0 < self.old.room }
        requires room { spending payer.now.purse self.old.charges + cost
            ≤ budget_of payer.now.purse self.old.budgets }
        ensures counts { self.old.horizon < end
            → IsPermutation
            (record { purse = payer.now.purse; end = end; cost = cost } ∷ self.old.charges) self.new.charges }
        ensures idle { end ≤ self.old.horizon → self.new.charges ≡ self.old.charges }
        ensures horizon { self.new.horizon ≡ self.old.horizon }
        ensures budgets { self.new.budgets ≡ self.old.budgets }
        ensures reserved { self.old.room ≤ self.new.room + 1 }
    {
        if self.has_reached(end) {
            return;
        }
        self.accounts.add(payer, cost);
        self.charges.put(Entry {
            end,
            payer: *payer,
            cost,
        });
    }

    /// Takes out one charge of this purse, end and cost. Where the end is at most the horizon none
    /// such counts any more, and nothing changes. Takes no memory.
    pub fn forgive(&mut self, purse: &Purse, end: Moment, cost: u32)
        requires { self.old.horizon < end
            → Contains self.old.charges (record { purse = purse.now; end = end; cost = cost }) }
        ensures taken { self.old.horizon < end
            → IsPermutation
            self.old.charges (record { purse = purse.now; end = end; cost = cost } ∷ self.new.charges) }
        ensures idle { end ≤ self.old.horizon → self.new.charges ≡ self.old.charges }
        ensures horizon { self.new.horizon ≡ self.old.horizon }
        ensures budgets { self.new.budgets ≡ self.old.budgets }
        ensures room { self.new.room ≡ self.old.room }
    {
        if self.has_reached(end) {
            return;
        }
        let payer = self.charges.take_out(&Charge {
            purse: *purse,
            end,
            cost,
        });
        self.accounts.subtract(&payer, cost);
    }

    /// The purse may spend this from now on, in bytes. It may be less than it spends. Where memory is
    /// refused, nothing changes; where the purse has an account, none is needed.
    pub fn set_budget(&mut self, purse: &Purse, budget: u32) -> Result<(), NoMemory>
        ensures room { has_budget purse.now self.old.budgets ≡ true → IsOk result }
        ensures set { OnOk result (has_budget purse.now self.new.budgets ≡ true) }
        ensures err { OnErr result (self.new.budgets ≡ self.old.budgets) }
        ensures opens { OpensAccount purse.now self.old self.new }
        ensures ok { OnOk result ((p : Purse) → budget_of p self.new.budgets
            ≡ (if same_purse purse.now p then budget else budget_of p self.old.budgets)) }
    {
        let payer = self.accounts.open(purse)?;
        self.accounts.set_budget(&payer, budget);
        Ok(())
    }

    // Whether charges with this end no longer count.
    fn has_reached(&self, end: Moment) -> bool
        ensures { IsTrue result ↔ (end ≤ self.now.horizon) }
    {
        end.tick() <= self.horizon.tick()
    }
}

// Whether a charge is within the budget beside what is spent.
fn fits(spent: u32, charge: u32, budget: u32) -> bool
    ensures { IsTrue result ↔ (spent + charge ≤ budget) }
{
    u64::from(spent) + u64::from(charge) <= u64::from(budget)
}
