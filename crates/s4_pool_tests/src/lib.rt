//! Tests of fronts of cells: what no clause says of them, as that memory that is there is enough, the moments
//! of calls, and threads at a gate. What is a sequence of calls and what they answer is data, line by line.
#![tactic(auto)]

#[cfg(test)]
mod closed;
#[cfg(test)]
mod counted;
#[cfg(test)]
mod cuts;
#[cfg(test)]
mod faults;
#[cfg(test)]
mod fronts;
#[cfg(test)]
mod gate;
#[cfg(test)]
mod lines;
#[cfg(test)]
mod many;
#[cfg(test)]
mod often;
pub mod pairs;
#[cfg(test)]
mod parts;
#[cfg(test)]
mod threads;
#[cfg(test)]
mod worked;
#[cfg(test)]
mod workers;
