//! A server's front: cells under locks, which threads share, and passes to call them with
//! (docs/ARCHITECTURE.md, "Fronts").
#![tactic(auto)]

mod closes;
mod closing;
mod front;
mod gate;
mod locked;
mod locks;
mod room;
mod shell;
mod stepping;
mod stretch;
mod unlocked;

pub use closing::{CloseFault, Closed, Left, Why};
pub use front::Front;
pub use gate::{Gate, OpenGate};
pub use locks::MOST_CELLS;
pub use s4_calls::{Blank, Names};
pub use s4_cells::{Cell, Measure};
pub use s4_passes::{Asked, Call, Pass, Receipt};
pub use stretch::Stretch;
