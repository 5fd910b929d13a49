//! How a connection begins.

use s4_types::{Caller, Principal, WireVersion};

/// How many bytes there are up to the client's end.
const LENGTH: usize = 14;

/// The first bytes that were heard on a connection, up to those that name who wants to log in, and
/// as which client (docs/PROTOCOL.md, "Greeting").
#[derive(Clone, Copy)]
pub(crate) struct Opening {
    bytes: [u8; LENGTH],
    count: usize,
}

impl Opening {
    /// Nothing was heard.
    pub(crate) fn new() -> Opening {
        Opening {
            bytes: [0; LENGTH],
            count: 0,
        }
    }

    /// Whether nothing was heard.
    pub(crate) fn is_empty(&self) -> bool {
        self.count == 0
    }

    /// Notes what is heard next.
    pub(crate) fn note(&mut self, piece: &[u8]) {
        for byte in piece {
            match self.bytes.get_mut(self.count) {
                Some(place) => *place = *byte,
                None => return,
            }
            self.count += 1;
        }
    }

    /// The number that stands where the principal of a Hello does.
    pub(crate) fn who(&self) -> u32 {
        let [_, _, _, _, _, _, a, b, c, d, ..] = self.bytes;
        u32::from_be_bytes([a, b, c, d])
    }

    /// The caller whom a good Hello names.
    pub(crate) fn caller(&self) -> Option<Caller> {
        let [_, _, _, _, _, number, _, _, _, _, a, b, c, d] = self.bytes;
        let version = match number {
            1 => WireVersion::One,
            2 => WireVersion::Two,
            _ => return None,
        };
        Some(Caller {
            who: Principal::new(self.who())?,
            client: u32::from_be_bytes([a, b, c, d]),
            version,
        })
    }
}
