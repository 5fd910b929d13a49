//! Laws of the definitions of what the drive answers (docs/MODEL.md says them in prose). They hold of
//! every base and every list of records, but where one names a premise or speaks of a run. Each is the
//! contract of a function that does nothing.
#![tactic(auto)]

mod answers;
mod horizons;
mod principals;
mod purses;
mod values;

pub use answers::{answers_are_never_want_of_memory, answers_give_no_more_than_was_asked};
pub use horizons::{horizons_are_by_rule, horizons_depend_on_wide_changes, horizons_never_go_back};
pub use principals::strangers_change_nothing;
pub use purses::{purses_depend_on_their_records, spending_depends_on_its_purse};
pub use values::{
    bindings_are_carried_out_in_order, bindings_are_in_force_from_begin_to_end,
    flushes_erase_the_past_alone, runs_meet_what_laws_ask, the_past_stays,
    values_are_applied_in_order, values_are_in_force_from_begin_to_end,
};
