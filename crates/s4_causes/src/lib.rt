//! Why a line isn't taken: which of its words is wrong, and what belongs there; and why a file can't be had.
//! Nothing here decides what is taken: that the readers of s4_script and s4_stream do.
#![tactic(auto)]

mod cause;
mod checks;
mod form;
mod logins;
mod place;
mod reasons;
mod slots;
mod spot;
mod system;
mod texts;

pub use cause::Cause;
pub use checks::{Kind, check_text, newest_above};
pub use form::Form;
pub use logins::{LoginCause, cause_in_logins, cause_of_login};
pub use reasons::reason_of_logins;
pub use system::{cause_of_unread, system_word, without_number};
pub use texts::{cause_in_arrivals, cause_in_script};
