//! Tests of bytes and texts: what requests, replies and lines are spelled as, talks over a drive, and
//! journals. What is proved stands in the crates below.
#![tactic(auto)]

#[cfg(test)]
mod journals;
#[cfg(test)]
mod spelled;
#[cfg(test)]
mod talks;
