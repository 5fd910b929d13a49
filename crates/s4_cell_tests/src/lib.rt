//! Tests of cells: what no clause says of them, as that memory that is there is enough. What is a sequence
//! of calls and what they answer is data, line by line.
#![tactic(auto)]

#[cfg(test)]
mod cell_rows;
#[cfg(test)]
mod cells;
#[cfg(test)]
mod closings;
