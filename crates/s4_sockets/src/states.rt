//! How far it is with peers.

/// What is told of how far it is with a peer.
#[derive(Clone, Copy)]
pub(crate) enum State {
    /// It isn't welcomed yet.
    Greeting,
    /// It asks, and is replied.
    Welcomed,
    /// It was told its end, or is to be.
    Leaving,
}

impl State {
    /// Whether it asks, and is replied.
    pub(crate) fn is_welcomed(self) -> bool {
        matches!(self, State::Welcomed)
    }
}

/// How many peers are how far.
#[derive(Clone, Copy)]
pub struct States {
    pub greeting: u64,
    pub welcomed: u64,
    pub leaving: u64,
    /// The number of the oldest connection that isn't welcomed; the greatest number where there is none.
    pub(crate) unwelcomed: u64,
}

impl States {
    /// No peers.
    pub(crate) const NONE: States = States {
        greeting: 0,
        welcomed: 0,
        leaving: 0,
        unwelcomed: u64::MAX,
    };

    /// Counts one peer more, which has the connection of that number.
    pub(crate) fn count(&mut self, state: State, connection: u64) {
        let count = match state {
            State::Greeting => &mut self.greeting,
            State::Welcomed => &mut self.welcomed,
            State::Leaving => &mut self.leaving,
        };
        *count = count.saturating_add(1);
        if !state.is_welcomed() {
            self.unwelcomed = self.unwelcomed.min(connection);
        }
    }
}
