//! How far back the past is told, and what it may cost.

ghost use Rattle.std.specs.Prelude.{◌≡◌, ◌≤◌, ◌+◌, ℕ, true, false, List, Some, sum_by, IsOk, IfOk, OnOk, []};
ghost use Rattle.s4_types.specs.declared.object.Purse.{Purse};
ghost use Rattle.s4_types.specs.declared.principal.Caller.{Caller};
ghost use Rattle.s4_types.specs.declared.record.Record.{Record};
ghost use Rattle.s4_types.specs.Answer.{within};
ghost use Rattle.s4_types.specs.Base.{Base, opened};
ghost use Rattle.s4_types.specs.Horizon.{horizon_of};
ghost use Rattle.s4_types.specs.Kinds.{is_refused, is_wide, purse_of};
ghost use Rattle.s4_types.specs.Play.{last_of};
ghost use Rattle.s4_types.specs.Spending.{spent_at, budget_of, budget_by};
ghost use Rattle.s4_ledger.specs.declared.accounts.Payer.{Payer};
ghost use Rattle.s4_ledger.specs.Books as books;
ghost use Rattle.s4_objects.specs.Flushes.{refunded};
ghost use Rattle.s4_types.specs.Log.{base_of};
ghost use Rattle.s4_drive.specs.Stands.{LimitsStand, HasRoom, HasBudget, IsReady, Pays, ArePositive, above, charge_weight, charged, costs_of, paying};
ghost use Rattle.s4_drive.specs.Step.{is_wanting};

use crate::past::Past;
use s4_ledger::{Ledger, Payer};
use s4_state::{Refund, State};
use s4_store::Store;
use s4_types::{Moment, NoMemory, Purse, Record, Refusal, Request, Version};
use s4_window::Window;
use std::alloc::Global;

/// The window in force, and the charges and budgets of all purses.
#[derive(Drop)]
pub struct Limits {
    pub window: Window,
    pub ledger: Ledger,
}

impl Limits {
    /// Those of a drive without records. Takes no memory.
    pub fn new(alloc: Global, window: u64) -> Limits
        ensures { LimitsStand (opened window) [] result }
    {
        Limits {
            window: Window::new(window),
            ledger: Ledger::new(alloc),
        }
    }

    /// Makes room for what an accepted record changes here, the charges of what it makes past and
    /// the budget that it sets, and tells who is charged, if anyone is. A refused one changes
    /// nothing here, and a wide request's needs no room.
    pub fn reserve(&mut self, added: &Record, past: Past) -> Result<Option<Payer>, NoMemory>
        ensures payer { is_refused added.now.reply ≡ false
            → IfOk result (λ payer. Pays payer (purse_of added.now.caller added.now.request)
            (costs_of past) self.new.ledger) }
        ensures budget { is_refused added.now.reply ≡ false
            → OnOk result (HasBudget added.now.request self.new.ledger.budgets) }
        ensures stand { (base : Base) (h : List Record) → LimitsStand base h self.old
            → LimitsStand base h self.new }
        ensures wide { is_wide added.now.caller added.now.request ≡ true → IsOk result }
    {
        if added.reply.is_refused() {
            return Ok(None);
        }
        open_budget(&mut self.ledger, &added.request)?;
        match added.request.purse(&added.caller) {
            Some(purse) => reserve(&mut self.ledger, &purse, past),
            None => Ok(None),
        }
    }

    /// This window from the moment on. What is expired by then is spent no longer.
    pub fn advance(&mut self, window: Window, moment: Moment)
        requires { self.old.ledger.horizon ≤ horizon_of window moment }
        ensures window { self.new.window ≡ window }
        ensures horizon { self.new.ledger.horizon ≡ horizon_of window moment }
        ensures charges { self.new.ledger.charges
            ≡ books.lasting (horizon_of window moment) self.old.ledger.charges }
        ensures budgets { self.new.ledger.budgets ≡ self.old.ledger.budgets }
        ensures room { self.old.ledger.room ≤ self.new.ledger.room }
    {
        self.window = window;
        self.ledger.advance(window.horizon(moment));
    }

    /// Gives back what was charged for values that a flush erased. What is expired is spent no
    /// longer as it is. Takes no memory.
    pub fn forgive(&mut self, refunds: &[Refund])
        requires charged { (weight : ℕ → ℕ → ℕ) (p : Purse)
            → refunded (above self.old.ledger.horizon weight) p refunds.now
            ≤ sum_by (charge_weight weight p) self.old.ledger.charges }
        ensures charges { (weight : ℕ → ℕ → ℕ) (p : Purse)
            → sum_by (charge_weight weight p) self.new.ledger.charges + refunded
            (above self.old.ledger.horizon weight) p refunds.now
            ≡ sum_by (charge_weight weight p) self.old.ledger.charges }
        ensures window { self.new.window ≡ self.old.window }
        ensures horizon { self.new.ledger.horizon ≡ self.old.ledger.horizon }
        ensures budgets { self.new.ledger.budgets ≡ self.old.ledger.budgets }
    {
        forgive(&mut self.ledger, refunds);
    }

    /// Charges what an accepted request made past to who pays for it, and sets the budget that it
    /// tells.
    pub fn accept(&mut self, moment: Moment, payer: Option<Payer>, request: &Request, past: Past)
        requires costs { ArePositive (costs_of past) }
        requires ready { (p : Payer) → payer ≡ Some p → IsReady p (costs_of past) self.old.ledger }
        requires budget { HasBudget request.now self.old.ledger.budgets }
        requires room { (p : Payer) → payer ≡ Some p
            → HasRoom p.purse (costs_of past) self.old.ledger }
        ensures window { self.new.window ≡ self.old.window }
        ensures horizon { self.new.ledger.horizon ≡ self.old.ledger.horizon }
        ensures charges { (weight : ℕ → ℕ → ℕ) (p : Purse)
            → sum_by (charge_weight weight p) self.new.ledger.charges
            ≡ sum_by (charge_weight weight p) self.old.ledger.charges
            + charged (above self.old.ledger.horizon weight) moment (paying payer)
            (costs_of past) p }
        ensures budgets { (p : Purse) → books.budget_of p self.new.ledger.budgets
            ≡ budget_by p request.now (books.budget_of p self.old.ledger.budgets) }
    {
        if let Some(payer) = payer {
            charge(&mut self.ledger, &payer, moment, past);
        }
        if let Request::SetBudget { purse, budget } = request {
            let set: Result<_, _> = self.ledger.set_budget(purse, *budget);
            set.unwrap();
        }
    }
}

// Opens an account for the purse whose budget the request tells, if it tells any.
fn open_budget(ledger: &mut Ledger, request: &Request) -> Result<(), NoMemory>
    ensures budget { OnOk result (HasBudget request.now ledger.new.budgets) }
    ensures wide { (caller : Caller) → is_wide caller request.now ≡ true → IsOk result }
    ensures horizon { ledger.new.horizon ≡ ledger.old.horizon }
    ensures charges { ledger.new.charges ≡ ledger.old.charges }
    ensures budgets { (p : Purse) → books.budget_of p ledger.new.budgets
        ≡ books.budget_of p ledger.old.budgets }
{
    match request {
        Request::SetBudget { purse, .. } => {
            ledger.open(purse)?;
            Ok(())
        }
        _ => Ok(()),
    }
}

// Makes room for the charges of what was made past, and opens the account that pays for them.
fn reserve(ledger: &mut Ledger, purse: &Purse, past: Past) -> Result<Option<Payer>, NoMemory>
    ensures payer { IfOk result (λ payer. Pays payer (Some purse.now) (costs_of past) ledger.new) }
    ensures horizon { ledger.new.horizon ≡ ledger.old.horizon }
    ensures charges { ledger.new.charges ≡ ledger.old.charges }
    ensures budgets { (p : Purse) → books.budget_of p ledger.new.budgets
        ≡ books.budget_of p ledger.old.budgets }
    ensures accounts { (p : Purse) → books.has_budget p ledger.old.budgets ≡ true
        → books.has_budget p ledger.new.budgets ≡ true }
{
    let count = past.count();
    if count == 0 {
        return Ok(None);
    }
    ledger.reserve(count)?;
    let payer = ledger.open(purse)?;
    Ok(Some(payer))
}

// Charges what was made past at the moment.
fn charge(ledger: &mut Ledger, payer: &Payer, moment: Moment, past: Past)
    requires costs { ArePositive (costs_of past) }
    requires ready { IsReady payer.now (costs_of past) ledger.old }
    requires room { HasRoom payer.now.purse (costs_of past) ledger.old }
    ensures horizon { ledger.new.horizon ≡ ledger.old.horizon }
    ensures budgets { ledger.new.budgets ≡ ledger.old.budgets }
    ensures charges { (weight : ℕ → ℕ → ℕ) (p : Purse)
        → sum_by (charge_weight weight p) ledger.new.charges
        ≡ sum_by (charge_weight weight p) ledger.old.charges
        + charged (above ledger.old.horizon weight) moment (Some payer.now.purse)
        (costs_of past) p }
{
    match past {
        Past::Nothing => {}
        Past::One(cost) => ledger.charge(payer, moment, cost),
        Past::Object {
            data,
            attributes,
            acl,
        } => {
            ledger.charge(payer, moment, data);
            ledger.charge(payer, moment, attributes);
            ledger.charge(payer, moment, acl);
        }
    }
}

// Takes the charges out that the refunds tell of, where they still count.
fn forgive(ledger: &mut Ledger, refunds: &[Refund])
    requires charged { (weight : ℕ → ℕ → ℕ) (p : Purse)
        → refunded (above ledger.old.horizon weight) p refunds.now
        ≤ sum_by (charge_weight weight p) ledger.old.charges }
    ensures charges { (weight : ℕ → ℕ → ℕ) (p : Purse)
        → sum_by (charge_weight weight p) ledger.new.charges + refunded
        (above ledger.old.horizon weight) p refunds.now
        ≡ sum_by (charge_weight weight p) ledger.old.charges }
    ensures horizon { ledger.new.horizon ≡ ledger.old.horizon }
    ensures budgets { ledger.new.budgets ≡ ledger.old.budgets }
{
    for refund in refunds {
        ledger.forgive(&refund.purse, refund.end, refund.cost);
    }
}

/// Refuses a charge that the purse's budget has no room for.
pub fn afford<S: Store<Version>>(
    state: &State<S>,
    limits: &Limits,
    moment: Moment,
    purse: &Purse,
    charge: u32,
) -> Result<(), Refusal>
    requires stand { LimitsStand (base_of state.now) state.now.history limits.now }
    requires later { last_of state.now.history ≤ moment }
    ensures value { result ≡ within (budget_of (base_of state.now) purse.now state.now.history)
        (spent_at (base_of state.now) purse.now state.now.history moment) charge }
    ensures known { is_wanting result ≡ false }
{
    let horizon = limits.window.horizon(moment);
    if charge == 0 || limits.ledger.room_at(purse, horizon, charge) {
        return Ok(());
    }
    Err(Refusal::OverBudget {
        spent: limits.ledger.spent_at(purse, horizon),
        charge,
        budget: limits.ledger.budget(purse),
    })
}
