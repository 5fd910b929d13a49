//! The connections of a hall.

ghost use Rattle.std.specs.Prelude.{◌≡◌, ◌==◌, ℕ, [], Some, false, unwrap_or, IfOk, OnOk};
ghost use Rattle.s4_session.specs.Halls.{session_of, fresh, heard_on, Feeds};

use s4_stream::{Event, Logins, Session};
use s4_types::NoMemory;
use std::alloc::Global;
use std::collections::BTreeMap;
use std::marker::Model;

/// The connections on which something came, each with its session.
#[derive(Drop)]
pub struct Sessions {
    alloc: Global,
    sessions: BTreeMap<u32, Session>,
}

impl Model for Sessions {
    ghost use Rattle.s4_session.specs.Halls as halls;

    ghost Value = { halls.Sessions };

    ghost view = { λ s. s.sessions.entries };
}

impl Sessions {
    /// No connections. Takes no memory.
    pub fn new(alloc: Global) -> Sessions
        ensures { result ≡ [] }
    {
        Sessions {
            alloc,
            sessions: BTreeMap::new(alloc),
        }
    }

    /// Feeds a piece to the connection's session, which is opened where nothing came before. After
    /// a fault nothing is heard.
    pub fn feed(&mut self, logins: &Logins, conn: u32, piece: &[u8]) -> Result<Vec<Event>, NoMemory>
        ensures events { IfOk result
            (λ events. events.items ≡ (heard_on logins.now conn self.old piece.now).events) }
        ensures sessions { OnOk result (Feeds logins.now conn piece.now self.old self.new) }
    {
        self.open(conn)?;
        let session = self.sessions.get_mut(&conn).unwrap();
        session.hear(logins, piece)
    }

    /// Opens a connection, if it isn't open.
    fn open(&mut self, conn: u32) -> Result<(), NoMemory>
        ensures open { OnOk result
            (session_of conn self.new ≡ Some (unwrap_or (session_of conn self.old) fresh)) }
        ensures others { OnOk result
            ((d : ℕ) → (conn == d) ≡ false → session_of d self.new ≡ session_of d self.old) }
    {
        if self.sessions.contains_key(&conn) {
            return Ok(());
        }
        self.sessions.insert(conn, Session::open(self.alloc))?;
        Ok(())
    }
}
