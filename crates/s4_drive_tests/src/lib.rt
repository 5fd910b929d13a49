//! Tests of requests and records, of audits, of what a cut leaves, of the state and of the drive. Rows of
//! data say what is called and what has to be answered. What is proved stands in these crates; here
//! stands what no clause says. What the program shows is tested from outside.
#![tactic(auto)]

#[cfg(test)]
mod asked;
#[cfg(test)]
mod audit;
#[cfg(test)]
mod base;
#[cfg(test)]
mod counting;
#[cfg(test)]
mod cuts;
#[cfg(test)]
mod drive;
#[cfg(test)]
mod following;
#[cfg(test)]
mod requests;
#[cfg(test)]
mod state;
