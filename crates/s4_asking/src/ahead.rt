//! How far requests are ahead of their replies.

ghost use Rattle.std.specs.Prelude.{◌≡◌, ◌+◌, ◌<◌, ◌≤◌, ◌^◌, ◌↔◌, ◌||◌, false, IsTrue};

/// How many requests may be ahead of their replies, at most. So many of the shortest frames, of 6 bytes,
/// have no more bytes than may be ahead.
pub const MOST_DEPTH: u32 = 1024;

/// How many bytes of requests may be ahead of their replies, where more than one request is. So many fit
/// into what the systems hold of a connection, where the drive reads no more while its replies wait: so
/// none of both waits for the other.
const MOST_BYTES: usize = 16384;

/// How many requests were sent, and how many of their replies were told: at most so many more as is said.
#[derive(Clone, Copy)]
pub struct Ahead {
    pub asked: u64,
    pub told: u64,
    /// Whether a reply was a refusal.
    pub refused: bool,
    /// How many bytes were sent since no reply was missing.
    bytes: usize,
    /// How many requests may be ahead.
    depth: u32,
    ghost deep: { 0 < depth },
    ghost behind: { told ≤ asked },
    ghost ahead: { asked ≤ told + depth },
}

impl Ahead {
    /// Nothing was sent. At most so many requests are to be ahead.
    pub fn new(depth: u32) -> Ahead
        requires { 0 < depth }
        ensures asked { result.asked ≡ 0 }
        ensures told { result.told ≡ 0 }
        ensures refused { result.refused ≡ false }
        ensures depth { result.depth ≡ depth }
    {
        Ahead {
            asked: 0,
            told: 0,
            refused: false,
            bytes: 0,
            depth,
        }
    }

    /// Whether a reply is missing.
    pub fn is_owed(&self) -> bool
        ensures { IsTrue result ↔ (self.now.told < self.now.asked) }
    {
        self.told < self.asked
    }

    /// Whether as many requests are ahead as may be.
    pub fn is_full(&self) -> bool
        ensures full { IsTrue result → self.now.told < self.now.asked }
        ensures room { result ≡ false → self.now.asked < self.now.told + self.now.depth }
    {
        self.asked - self.told == u64::from(self.depth)
    }

    /// Whether a request of so many bytes may be sent now, by its bytes.
    pub fn has_room(&self, bytes: usize) -> bool {
        !self.is_owed() || self.bytes.saturating_add(bytes) <= MOST_BYTES
    }

    /// A request of so many bytes was sent.
    pub fn ask(&mut self, bytes: usize)
        requires room { self.old.asked < self.old.told + self.old.depth }
        requires small { self.old.asked + 1 < 2 ^ 64 }
        ensures asked { self.new.asked ≡ self.old.asked + 1 }
        ensures told { self.new.told ≡ self.old.told }
        ensures refused { self.new.refused ≡ self.old.refused }
        ensures depth { self.new.depth ≡ self.old.depth }
    {
        self.bytes = if self.is_owed() {
            self.bytes.saturating_add(bytes)
        } else {
            bytes
        };
        self.asked += 1;
    }

    /// A reply was told, which is a refusal or not.
    pub fn tell(&mut self, is_refusal: bool)
        requires owed { self.old.told < self.old.asked }
        ensures asked { self.new.asked ≡ self.old.asked }
        ensures told { self.new.told ≡ self.old.told + 1 }
        ensures refused { self.new.refused ≡ (self.old.refused || is_refusal) }
        ensures depth { self.new.depth ≡ self.old.depth }
    {
        self.told += 1;
        self.refused = self.refused || is_refusal;
    }
}
