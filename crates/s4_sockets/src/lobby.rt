//! What the connections of a server go by.

ghost use Rattle.std.specs.Prelude.{◌≡◌, IfOk};
ghost use Rattle.std_alloc.specs.Arc.{arc_value};
ghost use Rattle.s4_settings.specs.Bounds.{tenants_of};

use crate::attempts::{Attempts, FailedLogins};
use crate::open_by::OpenBy;
use crate::share::{Share, Shares};
use crate::tables::{Table, Tables};
use crate::trail::Trail;
use crate::trails::{LeftBy, Trails};
use s4_settings::{Patience, Settings};
use s4_stream::Logins;
use s4_types::{Caller, Moment, NoMemory, Principal};
use serde::Serialize;
use std::alloc::Global;
use std::net::IpAddr;
use std::sync::atomic::{AtomicBool, AtomicU64, Ordering};
use std::sync::{Arc, Wait};

/// What the connections of a server go by, whoever serves them: which logins there are, which
/// failed, how long nobody waits for a peer, how many may be open, and whether the server is to end.
pub struct Lobby<'a, R> {
    rt: &'a R,
    tables: Tables,
    attempts: Attempts,
    pub(crate) patience: Patience,
    /// How many connections are open from each address.
    addresses: OpenBy<IpAddr>,
    /// How many are welcomed of each principal.
    principals: OpenBy<u32>,
    /// The address from which connections are a proxy's, if there is one.
    proxy: Option<IpAddr>,
    /// What each principal has of the workers' time.
    shares: Shares,
    /// What each principal's requests left of records.
    trails: Trails,
    /// How many connections of others than the administrator are welcomed.
    tenants: AtomicU64,
    /// How many of them may be; the other places are the administrator's.
    most_tenants: u64,
    /// The server is to end: peers are not read any more, and leave once they are told what waits.
    over: AtomicBool,
    /// The connections for which there was no place.
    turned_away: AtomicU64,
}

// Written out, so that no crate above proves how logins and failed logins are dropped.
impl<R> Drop for Lobby<'_, R> {
    fn drop(self) {
        let Lobby {
            rt: _,
            tables: _,
            attempts: _,
            patience: _,
            addresses: _,
            principals: _,
            proxy: _,
            shares: _,
            trails: _,
            tenants: _,
            most_tenants: _,
            over: _,
            turned_away: _,
        } = self;
    }
}

impl<'a, R> Lobby<'a, R> {
    /// The lobby of a server of these settings that begins with these logins.
    pub fn new(
        rt: &'a R,
        alloc: Global,
        logins: Logins,
        settings: &Settings,
    ) -> Result<Lobby<'a, R>, NoMemory>
        ensures patience { IfOk result (λ lobby. lobby.patience ≡ settings.now.patience) }
        ensures tenants { IfOk result (λ lobby. lobby.most_tenants ≡ tenants_of settings.now.open) }
        ensures records { IfOk result
            (λ lobby. lobby.trails.terms.most ≡ settings.now.records) }
    {
        Ok(Lobby {
            rt,
            tables: Tables::new(alloc, logins)?,
            attempts: Attempts::new(alloc),
            patience: settings.patience,
            addresses: OpenBy::new(alloc, settings.open_each),
            principals: OpenBy::new(alloc, 0),
            proxy: settings.proxy,
            shares: Shares::new(alloc),
            trails: Trails::new(alloc, settings.records, settings.window),
            tenants: AtomicU64::new(0),
            most_tenants: u64::from(settings.tenants()),
            over: AtomicBool::new(false),
            turned_away: AtomicU64::new(0),
        })
    }

    /// The server is to end.
    pub fn end(&self) {
        self.over.store(true, Ordering::SeqCst);
    }

    /// Whether the server is to end.
    pub fn is_over(&self) -> bool {
        self.over.load(Ordering::SeqCst)
    }

    /// For how many connections there was no place.
    pub fn turned_away(&self) -> u64 {
        self.turned_away.load(Ordering::SeqCst)
    }

    /// Counts a connection for which there is no place.
    pub(crate) fn turn_away(&self) {
        self.turned_away.fetch_add(1, Ordering::SeqCst);
    }

    /// Takes a place for a tenant, unless this is the administrator. Tells whether there was one.
    fn take_place(&self, who: &Principal) -> bool {
        if who.is_administrator() {
            return true;
        }
        let before = self.tenants.fetch_add(1, Ordering::SeqCst);
        if before < self.most_tenants {
            return true;
        }
        self.give_place(who);
        false
    }

    /// Gives the place of a tenant back, unless this is the administrator.
    fn give_place(&self, who: &Principal) {
        if !who.is_administrator() {
            self.tenants.fetch_sub(1, Ordering::SeqCst);
        }
    }

    /// Whether a proxy is at this address, which may be written as an IPv6 address.
    pub(crate) fn is_proxy(&self, address: IpAddr) -> bool {
        self.proxy == Some(address.to_canonical())
    }

    /// How many login tables there were before the newest one.
    pub(crate) fn edition(&self) -> u64 {
        self.tables.edition()
    }
}

impl<R: Wait> Lobby<'_, R> {
    /// From now on this login table is the newest one.
    pub fn replace(&self, logins: Arc<Logins>) {
        self.tables.replace(self.rt, logins);
    }

    /// The newest login table. `NoMemory` where it has too many owners.
    pub fn logins(&self) -> Result<Arc<Logins>, NoMemory> {
        Ok(self.newest()?.logins)
    }

    /// The newest login table, with its edition. `NoMemory` where it has too many owners.
    pub(crate) fn newest(&self) -> Result<Table, NoMemory> {
        self.tables.newest(self.rt)
    }

    /// Counts a failed login that comes now, in milliseconds: of this principal, whom the logins name, or
    /// of one whom they don't.
    pub(crate) fn failed(&self, who: Option<u32>, now: u64) {
        self.attempts.failed(self.rt, who, now);
    }

    /// Takes a place for a connection whose caller is welcomed now. Tells whether there was one: some are
    /// the administrator's.
    pub(crate) fn seat(&self, caller: &Caller) -> bool {
        let is_seated = self.take_place(&caller.who);
        if is_seated {
            // There is no bound on these, so none is turned away.
            let _ = self.principals.enter(self.rt, caller.who.number());
        }
        is_seated
    }

    /// Gives the place back of a connection that had one by its caller.
    pub(crate) fn unseat(&self, caller: &Caller) {
        self.principals.leave(self.rt, caller.who.number());
        self.give_place(&caller.who);
    }

    /// Whether a connection that comes from the address may be open. It is counted, unless a proxy is there:
    /// then the peer is that its first line names.
    pub(crate) fn lets_in(&self, address: IpAddr) -> bool {
        self.is_proxy(address) || self.enter(address)
    }

    /// A connection from the address that was let in isn't open any more.
    pub(crate) fn lets_out(&self, address: IpAddr) {
        if !self.is_proxy(address) {
            self.leave(address);
        }
    }

    /// Counts a connection from the address. Tells whether it may be open.
    pub(crate) fn enter(&self, address: IpAddr) -> bool {
        self.addresses.enter(self.rt, address)
    }

    /// A connection from the address, which was counted, is open no more.
    pub(crate) fn leave(&self, address: IpAddr) {
        self.addresses.leave(self.rt, address);
    }

    /// The share of a principal, or of those who aren't welcomed.
    pub(crate) fn share(&self, who: Option<u32>) -> Result<Arc<Share>, NoMemory> {
        self.shares.of(self.rt, who)
    }

    /// What the requests of a principal left of records, for all workers.
    pub fn trail(&self, who: &Principal) -> Result<Arc<Trail>, NoMemory>
        ensures own { IfOk result (λ trail. (arc_value trail).who ≡ who.now) }
    {
        self.trails.trail(self.rt, who)
    }

    /// How many bytes the records take that each principal's requests left, where those before a moment
    /// were cut, of those principals that have any.
    pub fn records_left(&self, alloc: Global, cut: Moment) -> Result<Vec<LeftBy>, NoMemory> {
        self.trails.told(self.rt, alloc, cut)
    }

    /// How many logins failed by now, in milliseconds.
    pub fn failed_logins(&self, alloc: Global, now: u64) -> Result<FailedLogins, NoMemory> {
        self.attempts.told(self.rt, alloc, now)
    }

    /// From which addresses the most connections are open, and how many.
    pub fn open_from(&self, alloc: Global) -> Result<Vec<OpenFrom>, NoMemory> {
        let mut told = Vec::new(alloc);
        for (address, count) in self.addresses.told(self.rt)? {
            let address = address.to_string(alloc)?;
            told.push(OpenFrom { address, count })?;
        }
        Ok(told)
    }

    /// Of which principals the most connections are welcomed, and how many.
    pub fn open_of(&self, alloc: Global) -> Result<Vec<OpenOf>, NoMemory> {
        let mut told = Vec::new(alloc);
        for (who, count) in self.principals.told(self.rt)? {
            told.push(OpenOf { who, count })?;
        }
        Ok(told)
    }
}

/// How many connections are open from an address.
#[derive(Drop, Serialize)]
pub struct OpenFrom {
    pub address: String,
    pub count: u32,
}

/// How many connections of a principal are welcomed.
#[derive(Clone, Copy, Serialize)]
pub struct OpenOf {
    pub who: u32,
    pub count: u32,
}
