//! What a front is but for its cells.

use crate::gate::Gate;
use std::alloc::Global;

/// What a front was opened with, but for its cells, and how many expired values it frees at most
/// behind each ordinary request.
#[derive(Drop)]
pub struct Shell<G: Gate> {
    pub alloc: Global,
    pub window: u64,
    pub cells: usize,
    pub passes: u64,
    pub freed_behind: u64,
    pub gate: G,
}
