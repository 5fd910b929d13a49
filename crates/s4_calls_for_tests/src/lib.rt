//! What tests ask and are told, as data; whether both are the same; and jobs, with places at their queue.
#![tactic(auto)]

pub mod asked;
pub mod places;
pub mod same;
