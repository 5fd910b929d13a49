//! The login tables of a server that reads them again.

use s4_stream::Logins;
use s4_types::NoMemory;
use std::alloc::Global;
use std::sync::atomic::{AtomicU64, Ordering};
use std::sync::{Arc, Mutex, Wait};

/// A login table, and how many there were before it.
#[derive(Drop)]
pub(crate) struct Table {
    pub(crate) logins: Arc<Logins>,
    pub(crate) edition: u64,
}

/// The newest login table of a server, which new connections get.
#[derive(Drop)]
pub(crate) struct Tables {
    newest: Mutex<Arc<Logins>>,
    edition: AtomicU64,
}

impl Tables {
    /// A server's first table.
    pub(crate) fn new(alloc: Global, logins: Logins) -> Result<Tables, NoMemory> {
        let first = Arc::new(alloc, logins)?;
        Ok(Tables {
            newest: Mutex::new(first),
            edition: AtomicU64::new(0),
        })
    }

    /// How many tables there were before the newest one.
    pub(crate) fn edition(&self) -> u64 {
        self.edition.load(Ordering::SeqCst)
    }

    /// The newest table. `NoMemory` where it has too many owners.
    pub(crate) fn newest<R: Wait>(&self, rt: &R) -> Result<Table, NoMemory> {
        let newest = self.newest.lock(rt);
        let logins = Arc::try_clone(&*newest)?;
        let edition = self.edition();
        Ok(Table { logins, edition })
    }

    /// From now on this table is the newest one.
    pub(crate) fn replace<R: Wait>(&self, rt: &R, logins: Arc<Logins>) {
        let mut newest = self.newest.lock(rt);
        *newest = logins;
        self.edition.fetch_add(1, Ordering::SeqCst);
    }
}
