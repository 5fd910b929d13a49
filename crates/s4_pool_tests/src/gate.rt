//! A gate that holds a call in one cell until a call in another was answered.

use s4_cells::Cell;
use s4_pool::Gate;
use std::sync::atomic::{AtomicU64, Ordering};
use std::thread;

/// What the gate and the calls tell one another.
#[derive(Drop)]
pub struct Marks {
    /// Whether the gate holds.
    pub armed: AtomicU64,
    /// Whether the held call is at the gate.
    pub entered: AtomicU64,
    /// Whether the call that lets it go on was answered.
    pub served: AtomicU64,
    /// Whether the gate waited in vain or saw more records than it should, or a job wasn't put.
    pub marked: AtomicU64,
}

impl Marks {
    /// Marks of what hasn't been yet.
    pub fn new() -> Marks {
        Marks {
            armed: AtomicU64::new(0),
            entered: AtomicU64::new(0),
            served: AtomicU64::new(0),
            marked: AtomicU64::new(0),
        }
    }
}

/// Holds a call in cell 1 until one in cell 0 was answered, once it is armed.
#[derive(Drop)]
pub struct Holding<'a> {
    pub marks: &'a Marks,
}

impl Gate for Holding<'_> {
    fn enter(&self, cell: usize, held: &Cell) {
        let marks = self.marks;
        if cell != 1 || marks.armed.load(Ordering::SeqCst) == 0 {
            return;
        }
        marks.entered.store(1, Ordering::SeqCst);
        if held.history().len() != 1 {
            marks.marked.store(1, Ordering::SeqCst);
        }
        for _ in 0..1000000u32 {
            if marks.served.load(Ordering::SeqCst) != 0 {
                return;
            }
            thread::yield_now();
        }
        marks.marked.store(1, Ordering::SeqCst);
    }
}
