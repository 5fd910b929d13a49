//! What many calls of a served drive are, whose requests stand in lines.

use s4_stream::Hello;
use s4_types::WireVersion;

/// Requests of a served drive that stand in the lines of standard input.
#[derive(Drop)]
pub struct Asking {
    /// Where the drive is served.
    pub address: String,
    /// For how many milliseconds it is tried to connect again where that fails.
    pub wait: u64,
    pub askers: Askers,
}

/// Who asks.
#[derive(Drop)]
pub enum Askers {
    /// The caller of a Hello, over one connection.
    One(Asker),
    /// Each line's caller.
    Each(Company),
}

/// The caller of all lines.
#[derive(Clone, Copy)]
pub struct Asker {
    pub hello: Hello,
    /// How many requests may be ahead of their replies: at least one.
    pub depth: u32,
}

/// The callers of lines that name one each.
#[derive(Drop)]
pub struct Company {
    /// The client that is recorded.
    pub client: u32,
    /// The version of the wire of callers without a mark.
    pub version: WireVersion,
    /// The path of the file of their secrets.
    pub logins: String,
}
