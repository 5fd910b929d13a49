//! A case, and where the calls that it is about begin and end.

use std::alloc::Global;
use std::io;

/// A case that is carried out, and what came of it so far.
#[derive(Drop)]
pub struct Case<'a> {
    pub rt: &'a HostRuntime,
    name: &'static str,
    /// Whether it is about the calls that come now.
    pub is_marking: bool,
    /// How many of its calls told by a reply that there was no memory, and how many by an error.
    replies: usize,
    errors: usize,
    /// Whether all was as it has to be.
    is_same: bool,
}

impl<'a> Case<'a> {
    pub fn new(rt: &'a HostRuntime, name: &'static str) -> Case<'a> {
        Case {
            rt,
            name,
            is_marking: true,
            replies: 0,
            errors: 0,
            is_same: true,
        }
    }

    pub fn alloc(&self) -> Global {
        self.rt.alloc()
    }

    /// Marks on standard error that the call begins: `tools/lib/refuse.c` counts and refuses what comes
    /// up to its end, and nothing else.
    pub fn begins(&self) {
        if self.is_marking {
            let _ = eprintln!(self.rt; "the call begins");
        }
    }

    pub fn ends(&self) {
        if self.is_marking {
            let _ = eprintln!(self.rt; "the call ends");
        }
    }

    /// A call told by a reply that there was no memory.
    pub fn refuse_by_reply(&mut self) {
        self.replies = self.replies.saturating_add(1);
    }

    /// A call told it by an error.
    pub fn refuse_by_error(&mut self) {
        self.errors = self.errors.saturating_add(1);
    }

    /// That something holds; else it is told what doesn't.
    pub fn check(&mut self, holds: bool, what: &str) {
        if !holds {
            self.is_same = false;
            let _ = println!(self.rt; "{}: {what}", self.name);
        }
    }

    /// Tells what came of it, and returns whether all was as expected.
    pub fn tell(&self) -> io::Result<bool> {
        let word = if self.is_same {
            "as expected"
        } else {
            "NOT as expected"
        };
        println!(self.rt;
            "{}: {word}, without memory: {} replies, {} errors",
            self.name, self.replies, self.errors
        )?;
        Ok(self.is_same)
    }
}
