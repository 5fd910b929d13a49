//! Judgement: who may do what to an object, by the ACL in force (docs/MODEL.md, "Judgement"). No
//! call takes memory.
#![tactic(auto)]

mod judge;

pub use judge::{Held, judge_now, judge_past};
