//! Tests of what the program stands on, where it doesn't show it: readers and writers that are slow,
//! narrow or fail, what only a parsed command line tells, and calls with values that no file has. What
//! is proved stands in their crates, and what the program shows is tested from outside.
#![tactic(auto)]

#[cfg(test)]
mod bounds;
#[cfg(test)]
mod fakes;
#[cfg(test)]
mod histories;
#[cfg(test)]
mod lines;
#[cfg(test)]
mod logins;
#[cfg(test)]
mod runs;
#[cfg(test)]
mod servers;
