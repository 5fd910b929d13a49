//! What is to be told of a journal.

use s4_types::{Moment, ObjectId, Principal, Purse};
use std::net::IpAddr;

/// What is asked of a journal.
#[derive(Clone, Copy, PartialEq, Eq)]
pub enum Telling {
    /// A line for each record.
    List(Form),
    /// Its records as a script.
    Script,
    /// Whether it is sound, and whether its last sum is this one, where one is named.
    Check(Option<[u8; 32]>),
}

/// What a list is made of.
#[derive(Clone, Copy, PartialEq, Eq)]
pub enum Form {
    /// Of lines.
    Lines,
    /// Of lines of JSON.
    Json,
    /// Of lines of CSV.
    Csv,
}

/// A folder of journals, and what is to be told of them.
#[derive(Drop)]
pub struct History {
    pub telling: Telling,
    pub folder: String,
    /// Of which starts, where that is said.
    pub starts: Option<Starts>,
    /// The first time of which is told, where one is named.
    pub from: Option<Time>,
    /// The last time of which is told, where one is named.
    pub to: Option<Time>,
    /// Of which records a list tells.
    pub records: Records,
    /// Whether a list goes on while its start does.
    pub follows: bool,
    /// The paths of files of sums that were kept, which a check looks for.
    pub sums: Vec<String>,
}

/// Starts of a server.
#[derive(Clone, Copy, PartialEq, Eq)]
pub enum Starts {
    /// The one of this number.
    One(u64),
    /// All of them.
    All,
}

/// A point of time.
#[derive(Clone, Copy, PartialEq, Eq)]
pub enum Time {
    /// A moment of the drive.
    Moment(Moment),
    /// So many milliseconds since 1970.
    Wall(u64),
}

/// What a record may be about.
#[derive(Clone, Copy, PartialEq, Eq)]
pub enum Subject {
    /// This object.
    Object(ObjectId),
    /// What is in this purse.
    InPurse(Purse),
    /// What lies in the range of this principal.
    InRange(Principal),
}

/// The address of a peer, and its port where one is named.
#[derive(Clone, Copy, PartialEq, Eq)]
pub struct Peer {
    pub address: IpAddr,
    pub port: Option<u16>,
}

/// Records: those that are all of this.
#[derive(Drop)]
pub struct Records {
    /// Who asked.
    pub who: Option<Principal>,
    /// As which client.
    pub client: Option<u32>,
    /// The number of the connection by which they came.
    pub connection: Option<u64>,
    /// The peer of that connection.
    pub peer: Option<Peer>,
    /// What they are about.
    pub about: Option<Subject>,
    /// By which verb of a script.
    pub verb: Option<String>,
    /// Whether they have to be refused.
    pub refused: bool,
    /// Whether they have to stand for changes.
    pub changes: bool,
    /// Whether they have to be such that only ask.
    pub reads: bool,
}
