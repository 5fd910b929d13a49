//! Ways to run what stands on standard input.

pub mod conversations;
pub mod drives;
pub mod halls;
pub mod scripts;
pub mod strikes;
