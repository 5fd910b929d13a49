//! What is told of each entry into a cell.

use s4_cells::Cell;

/// Is told each time that an ordinary request has its cell under lock, before it is carried out.
pub trait Gate: Drop {
    /// The cell of that number is locked, and as it is lent.
    fn enter(&self, cell: usize, held: &Cell);
}

/// A gate that does nothing.
#[derive(Drop)]
pub struct OpenGate;

impl Gate for OpenGate {
    fn enter(&self, _cell: usize, _held: &Cell) {}
}
