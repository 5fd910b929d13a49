//! Tests of what is kept: stores, types, ACLs, names, tracks, objects, bindings, charges. Rows of data say what
//! is called and what has to be answered. What is proved stands in these crates; here stands what no
//! clause says. What the program shows is tested from outside.
#![tactic(auto)]

#[cfg(test)]
mod acls;
#[cfg(test)]
mod blocks;
#[cfg(test)]
mod ends;
#[cfg(test)]
mod ledger;
#[cfg(test)]
mod many;
#[cfg(test)]
mod names;
#[cfg(test)]
mod objects;
#[cfg(test)]
mod parts;
#[cfg(test)]
mod queue;
#[cfg(test)]
mod steps;
#[cfg(test)]
mod tracks;
#[cfg(test)]
mod turns;
#[cfg(test)]
mod types;
#[cfg(test)]
mod window;
