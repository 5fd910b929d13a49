//! The hall: many connections over one drive.

ghost use Rattle.std.specs.Prelude.{◌≡◌, ◌≤◌, min, [], true, false, IfOk, OnErr, IsErr};
ghost use Rattle.s4_types.specs.Base.{opened};
ghost use Rattle.s4_types.specs.Log.{fresh_log, needed, expired_in, swept};
ghost use Rattle.s4_session.specs.Arrivals.{NeverDown};
ghost use Rattle.s4_session.specs.Halls.{Takes, Arrives, IsFresh, Leaves};
ghost use Rattle.s4_session.specs.Sent.{IsSent, lists_of};

use crate::answer::answer_all;
use crate::hall_step::HallStep;
use crate::outbox::Outbox;
use crate::sessions::Sessions;
use s4_arena::Arena;
use s4_drive::Drive;
use s4_stream::Logins;
use s4_types::{Moment, NoMemory, Version};
use std::alloc::{AllocError, Global};
use std::marker::Model;

/// One drive, and the connections on which its callers log in. What comes on them, and when, is
/// told to the hall; what it answers is what is sent on them.
pub struct Hall {
    alloc: Global,
    logins: Logins,
    drive: Drive<Arena<Version>>,
    sessions: Sessions,
    last: Moment,
    failed: bool,
}

// Written out, so that no crate above proves how sessions are dropped.
impl Drop for Hall {
    fn drop(self) {
        let Hall {
            alloc: _,
            logins: _,
            drive: _,
            sessions: _,
            last: _,
            failed: _,
        } = self;
    }
}

impl Model for Hall {
    ghost use Rattle.std.specs.Prelude.{◌≤◌};
    ghost use Rattle.s4_types.specs.Play.{last_of};
    ghost use Rattle.s4_session.specs.Halls as halls;

    ghost Value = { halls.Hall };

    ghost view = { λ h. record {
      logins = h.logins;
      log = h.drive;
      sessions = h.sessions;
      last = h.last;
      failed = h.failed;
    } };

    ghost invariant = { λ h. last_of h.drive.history ≤ h.last };
}

impl Hall {
    /// A hall without connections over a fresh drive, whose window has so many ticks. Takes no
    /// memory.
    pub fn open(alloc: Global, window: u64, logins: Logins) -> Hall
        ensures { result ≡ record {
          logins = logins;
          log = fresh_log window;
          sessions = [];
          last = 0;
          failed = false;
        } }
    {
        Hall {
            alloc,
            logins,
            drive: Drive::new(alloc, Arena::new(alloc), window),
            sessions: Sessions::new(alloc),
            last: Moment::new(0),
            failed: false,
        }
    }

    /// The moment of the last arrival, 0 where there was none.
    pub fn last(&self) -> Moment
        ensures { result ≡ self.now.last }
    {
        self.last
    }

    /// Hears a piece that comes on a connection at a moment that isn't before the last arrival's,
    /// and gives the bytes that are sent on that connection. The first arrival on a connection
    /// opens it, and one that a fault ended is sent nothing. Where a growth was refused outside a
    /// reply, it answers `NoMemory`, then and from then on.
    pub fn arrive(&mut self, conn: u32, moment: Moment, piece: &[u8]) -> Result<Vec<u8>, NoMemory>
        requires { self.old.last ≤ moment }
        // What the session hears in the piece is answered by the drive.
        ensures takes { IfOk result
            (λ sent. Takes conn moment piece.now self.old self.new sent.items) }
        // So the bytes are what the arrival adds to those of all arrivals before it.
        ensures adds { IfOk result
            (λ sent. Arrives conn moment piece.now self.old self.new sent.items) }
        ensures fails { OnErr result (self.new.failed ≡ true) }
        ensures stays_failed { self.old.failed ≡ true → IsErr result }
    {
        if self.failed {
            return Err(AllocError);
        }
        self.failed = true;
        let sent = self.try_arrive(conn, moment, piece)?;
        self.failed = false;
        Ok(sent)
    }

    fn try_arrive(&mut self, conn: u32, moment: Moment, piece: &[u8]) -> Result<Vec<u8>, NoMemory>
        requires { self.old.last ≤ moment }
        // The hall that `arrive` leaves is this one, not failed.
        ensures takes { IfOk result
            (λ sent. Takes conn moment piece.now self.old (record self.new { failed = false })
            sent.items) }
        ensures failed { self.new.failed ≡ self.old.failed }
    {
        self.last = moment;
        let events = self.sessions.feed(&self.logins, conn, piece)?;
        answer_all(self.alloc, &mut self.drive, moment, events.as_slice())
    }

    /// Has the drive free at most so many of the values and bindings that are expired at the
    /// horizon of its newest record and still held, and tells how many: the smaller of the two
    /// numbers. It takes no memory, and changes nothing of what is sent.
    pub fn sweep(&mut self, most: u64) -> u64
        ensures freed { result ≡ min most (expired_in self.old.log) }
        ensures swept { self.new ≡ record self.old { log = swept most self.old.log } }
    {
        self.drive.sweep(most)
    }

    /// How many values and bindings the drive's store holds: at least those that aren't expired.
    pub fn used(&self) -> u64
        ensures held { result ≡ self.now.log.held }
        ensures least { needed self.now.log ≤ result }
    {
        self.drive.used()
    }

    /// Takes the steps in turn on a fresh hall, and gives all that is sent, by connection. The hall
    /// is then as `arrive` and `sweep` leave it. Where it answers `NoMemory`, `arrive` does so from
    /// then on.
    ///
    /// For each principal other than the administrator, and where no request met want of memory,
    /// the bytes sent on its connections are those that the plain log gives once all strangers'
    /// requests and all sweeps are struck out (docs/MODEL.md, "Isolation").
    pub fn run(&mut self, steps: &[HallStep]) -> Result<Vec<(u32, Vec<u8>)>, NoMemory>
        requires fresh { IsFresh self.old }
        requires moments { NeverDown 0 steps.now }
        ensures sent { IfOk result
            (λ sent. IsSent (opened self.old.log.opened) self.old.logins steps.now
            (lists_of sent.items)) }
        // The hall stands after the steps, with the replies that were sent, and hasn't failed.
        ensures leaves { IfOk result
            (λ sent. Leaves self.old.log.opened self.old.logins steps.now (lists_of sent.items)
            self.new) }
        ensures fails { OnErr result (self.new.failed ≡ true) }
    {
        let sent = self.try_run(steps);
        if sent.is_err() {
            self.failed = true;
        }
        sent
    }

    fn try_run(&mut self, steps: &[HallStep]) -> Result<Vec<(u32, Vec<u8>)>, NoMemory>
        requires fresh { IsFresh self.old }
        requires moments { NeverDown 0 steps.now }
        ensures sent { IfOk result
            (λ sent. IsSent (opened self.old.log.opened) self.old.logins steps.now
            (lists_of sent.items)) }
        ensures leaves { IfOk result
            (λ sent. Leaves self.old.log.opened self.old.logins steps.now (lists_of sent.items)
            self.new) }
    {
        let mut outbox = Outbox::new(self.alloc);
        for step in steps {
            match step {
                HallStep::Arrive {
                    conn,
                    moment,
                    piece,
                } => {
                    let sent = self.arrive(*conn, *moment, piece.as_slice())?;
                    outbox.add(*conn, sent)?;
                }
                HallStep::Sweep { n } => {
                    self.sweep(*n);
                }
            }
        }
        outbox.into_list(self.alloc)
    }
}
