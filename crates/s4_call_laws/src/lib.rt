//! Laws of several cells that are cut at one moment: what went of all of them, by moment, and then what
//! is left, is one plain log. Each law is the contract of a function that does nothing.
#![tactic(auto)]

mod laws;

pub use laws::{
    calls_of_a_pass_keep_their_order, each_call_has_its_record, what_is_left_belongs_together,
    what_went_and_what_is_left_is_one_plain_log,
};
