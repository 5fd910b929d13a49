//! Requests that wait before they are heard.

ghost use Rattle.std.specs.Prelude.{◌≡◌};
ghost use Rattle.s4_sockets.specs.Holds.{hold_of, lasts_at};

/// For how long a request waits for room at most, in milliseconds.
const SCARCE: u64 = 1000;

/// What requests of a principal wait for.
#[derive(Clone, Copy)]
pub enum Awaited {
    /// Room for one record more: those of the principal take all the memory that they may.
    Room,
    /// The journal: it lacks as much of the principal's records as it may.
    Journal,
}

/// For how long a request, or an answer, waits.
#[derive(Clone, Copy)]
pub(crate) enum Hold {
    /// Up to this time, in milliseconds.
    Until(u64),
    /// As long as the journal is awaited.
    Unbounded,
}

impl Hold {
    /// Whether it isn't over.
    pub(crate) fn lasts(self, now: u64) -> bool
        ensures { result ≡ lasts_at self now }
    {
        match self {
            Hold::Until(until) => now < until,
            Hold::Unbounded => true,
        }
    }
}

/// For how long the next request waits of a peer that awaits this, if it does: for room a second at most
/// from when it first has to. Once that is over it is answered, and the one behind it waits.
pub(crate) fn hold_for(awaited: Option<Awaited>, held: Option<Hold>, now: u64) -> Option<Hold>
    ensures { result ≡ hold_of awaited held now }
{
    match (awaited?, held) {
        (Awaited::Journal, _) => Some(Hold::Unbounded),
        (Awaited::Room, Some(Hold::Until(until))) if until <= now => None,
        (Awaited::Room, Some(Hold::Until(until))) => Some(Hold::Until(until)),
        (Awaited::Room, _) => Some(Hold::Until(now.saturating_add(SCARCE))),
    }
}
