//! What the past of each purse costs, and what each purse may spend on it.
#![tactic(auto)]

mod accounts;
mod charge;
mod charges;
mod ledger;

pub use accounts::Payer;
pub use charge::Charge;
pub use ledger::Ledger;
