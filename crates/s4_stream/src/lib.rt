//! Who may log in, and what the bytes of a connection say, however they are cut (docs/PROTOCOL.md
//! says it in prose). No drive is below this crate.
#![tactic(auto)]

mod event;
mod frames;
mod hello;
mod laws;
mod login_text;
mod logins;
mod session;

pub use event::{Event, SessionFault, SessionState};
pub use frames::{FAULT, WELCOME, put_fault, put_welcome, reserve_answer};
pub use hello::Hello;
pub use laws::{
    connections_speak_in_order, cuts_change_nothing, hellos_are_their_rows,
    hellos_have_one_spelling,
};
pub use login_text::{principal_in, secret_in, split_at_byte};
pub use logins::{LoginFault, Logins};
pub use session::{FeedError, FillError, Session};
