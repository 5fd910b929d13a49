//! Who answers peers.

ghost use Rattle.std.specs.Prelude.{◌≡◌};

use crate::hold::Awaited;
use s4_keeping::{Entrant, Event, Kind};
use s4_talk::Answer;
use s4_types::{Caller, Moment};

/// Answers the requests of a worker's peers, and takes down what becomes of their connections.
pub trait Host: Answer {
    /// A turn of the connection of that number begins, by which requests come. Nothing is answered.
    fn turn_to(&mut self, connection: u64)
        ensures calls { Self.calls self.new ≡ Self.calls self.old };

    /// How many nanoseconds went by in the turn since its first request came.
    fn spent(&self) -> u64;

    /// What requests of this caller are to wait for, if anything.
    fn holds_up(&self, caller: &Caller) -> Option<Awaited>;

    /// The moment now.
    fn moment(&self) -> Moment;

    /// Takes down what became of a connection. It may wait.
    fn tell(&self, event: Event);
}

/// What became of a connection now.
pub(crate) fn event_now<H: Host>(host: &H, entrant: &Entrant, kind: Kind) -> Event {
    Event::new(entrant, host.moment().tick(), kind)
}

/// Takes down what became of a connection now.
pub(crate) fn tell<H: Host>(host: &H, entrant: &Entrant, kind: Kind) {
    host.tell(event_now(host, entrant, kind));
}
