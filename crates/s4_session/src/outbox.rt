//! What was sent on each connection.

ghost use Rattle.std.specs.Prelude.{◌≡◌, ◌==◌, ◌++◌, ℕ, [], Some, unwrap_or, cond, IfOk, OnOk};
ghost use Rattle.s4_session.specs.Sent.{AreRising, bytes_for, lists_of};

use s4_types::NoMemory;
use std::alloc::Global;
use std::collections::BTreeMap;
use std::marker::Model;

/// All bytes that were sent, by connection.
#[derive(Drop)]
pub struct Outbox {
    sent: BTreeMap<u32, Vec<u8>>,
}

impl Model for Outbox {
    ghost use Rattle.std.specs.Prelude.{ℕ, List};
    ghost use Rattle.s4_session.specs.Sent.{lists_of};

    ghost Value = { List (ℕ × List ℕ) };

    ghost view = { λ o. lists_of o.sent.entries };
}

impl Outbox {
    /// Nothing was sent. Takes no memory.
    pub fn new(alloc: Global) -> Outbox
        ensures { result ≡ [] }
    {
        Outbox {
            sent: BTreeMap::new(alloc),
        }
    }

    /// Adds bytes to those sent on the connection, which there may be none of.
    pub fn add(&mut self, conn: u32, bytes: Vec<u8>) -> Result<(), NoMemory>
        ensures { OnOk result ((c : ℕ) → bytes_for c self.new
            ≡ cond (conn == c)
            (Some (unwrap_or (bytes_for conn self.old) [] ++ bytes.items))
            (bytes_for c self.old)) }
    {
        if self.sent.contains_key(&conn) {
            let all = self.sent.get_mut(&conn).unwrap();
            return all.extend_from_slice(bytes.as_slice());
        }
        self.sent.insert(conn, bytes)?;
        Ok(())
    }

    /// The connections by rising number, each with its bytes.
    pub fn into_list(self, alloc: Global) -> Result<Vec<(u32, Vec<u8>)>, NoMemory>
        ensures list { IfOk result (λ list. lists_of list.items ≡ self) }
        ensures rising { IfOk result (λ list. AreRising (lists_of list.items)) }
    {
        self.sent.into_iter().collect(alloc)
    }
}
