//! Tests of the queue of jobs: what no clause says of it, as that a job is found which was put, and threads
//! that put and take. What is a sequence of calls and what they answer is data, line by line.
#![tactic(auto)]

#[cfg(test)]
mod queues;
#[cfg(test)]
mod sleeping;
#[cfg(test)]
mod turns;
