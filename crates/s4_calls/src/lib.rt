//! What knows, while threads run, which calls there ever were, and what each cell ever recorded: tokens
//! without bytes, one with each pass and one beside each cell. Together they know one log, a
//! linearization of all calls (docs/DECISIONS.md, "Cells and fronts").
#![tactic(auto)]

mod blank;
mod book;
mod books;
mod hand;
mod laws;
mod ledger;
mod names;
mod reader;
mod records;

pub use blank::Blank;
pub use book::Book;
pub use books::{are_in_order, audit_books, note_all};
pub use hand::{Hand, Item, Noted, Tells};
pub use laws::{
    calls_stand_in_their_order, merges_keep_the_order_of_calls, placed_calls_are_one_to_one,
};
pub use ledger::{Ledger, Token};
pub use names::Names;
pub use reader::Reader;
