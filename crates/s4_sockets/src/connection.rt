//! A connection that was accepted.

ghost use Rattle.std.specs.Prelude.{◌≡◌, ◌==◌, ◌+◌, cond};

use s4_jobs::Numbered;
use s4_keeping::Entrant;
use std::net::{SocketAddr, TcpStream};

/// A connection that was accepted, with its number and its peer's address.
#[derive(Drop)]
pub struct Connection {
    pub(crate) number: u64,
    pub(crate) address: SocketAddr,
    pub(crate) stream: TcpStream,
    /// A proxy passes it on, so it begins with a line that says whose it is.
    pub(crate) is_proxied: bool,
}

impl Connection {
    /// Who is at its other end.
    pub(crate) fn entrant(&self) -> Entrant {
        Entrant {
            connection: self.number,
            address: Some(self.address),
        }
    }
}

impl Numbered for Connection {
    ghost numbered = { λ connection. connection.number };

    fn number(&self) -> u64 {
        self.number
    }
}

/// The number of the next connection: from 1 on, and after the greatest from 1 again.
pub(crate) fn number_after(number: u64) -> u64
    ensures { result ≡ cond (number == 18446744073709551615) 1 (number + 1) }
{
    number.checked_add(1).unwrap_or(1)
}
