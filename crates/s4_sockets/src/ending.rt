//! How it is listened to a peer that is told no more.

ghost use Rattle.std.specs.Prelude.{◌≡◌, ◌≤◌, ◌*◌, ◌-◌, nat_lt};
ghost use Rattle.s4_sockets.specs.Drains.{Drains};

use std::io::{ErrorKind, Read};

/// How often a peer is read after a fault at most.
const READS: u32 = 64;

/// How many bytes each of these reads takes at most.
const PIECE: usize = 1024;

/// A peer that was told a fault: how often what it still says is read at most.
#[derive(Drop)]
pub(crate) struct Leaving {
    pub(crate) reads: u32,
    ghost few: { reads ≤ 64 },
}

impl Leaving {
    /// A peer that was just told a fault.
    pub(crate) fn new() -> Leaving {
        Leaving { reads: READS }
    }

    /// Reads what the peer says now, and forgets it. Tells whether more may come that is read.
    pub(crate) fn hear<R: Read>(&mut self, reader: &mut R) -> bool
        ensures more { result ≡ nat_lt 0 self.new.reads }
        ensures fewer { self.new.reads ≤ self.old.reads }
        ensures drained { Drains (1024 * (self.old.reads - self.new.reads))
            (R.remaining reader.old) (R.remaining reader.new) }
    {
        self.reads = drain(reader, self.reads);
        self.reads > 0
    }
}

/// What a read came to that nobody looks at.
#[derive(Clone, Copy)]
pub(crate) enum Drained {
    /// There may be more.
    Some,
    /// Nothing is there to read now.
    Waits,
    /// Nothing more comes.
    Over,
}

/// Reads what is there, so many times at most, and tells how often it may be read later: 0 where
/// nothing more comes.
fn drain<R: Read>(reader: &mut R, reads: u32) -> u32
    ensures left { result ≤ reads }
    ensures drained { Drains (1024 * (reads - result))
        (R.remaining reader.old) (R.remaining reader.new) }
{
    for done in 0..reads {
        match drain_some(reader) {
            Drained::Some => {}
            Drained::Waits => return reads - done,
            Drained::Over => return 0,
        }
    }
    0
}

/// Reads once, and forgets what it read.
#[tactic(auto, using(crate::proofs::Drained::Drains_kept, crate::proofs::Drained::Drains_taken))]
pub(crate) fn drain_some<R: Read>(reader: &mut R) -> Drained
    ensures drained { Drains 1024 (R.remaining reader.old) (R.remaining reader.new) }
    ensures waits { result ≡ Drained.Waits
        → Drains 0 (R.remaining reader.old) (R.remaining reader.new) }
{
    let mut piece = [0; PIECE];
    match reader.read(&mut piece) {
        Ok(0) => Drained::Over,
        Ok(_) => Drained::Some,
        Err(error) => match error.kind() {
            ErrorKind::WouldBlock => Drained::Waits,
            ErrorKind::Interrupted => Drained::Some,
            _ => Drained::Over,
        },
    }
}
