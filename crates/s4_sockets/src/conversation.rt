//! A talk that goes by one login table.

ghost use Rattle.std.specs.Prelude.{◌≡◌, false, IsTrue};
ghost use Rattle.std_alloc.specs.Arc.{arc_value};
ghost use Rattle.s4_stream.specs.Logins.{keeps_login};
ghost use Rattle.s4_stream.specs.Stream.{caller_at};
ghost use Rattle.s4_sockets.specs.Staying.{may_stay};
ghost use Rattle.s4_talk.specs.Turning.{Turns, TurnsSo, fresh_talk, scene};

use crate::tables::Table;
use s4_stream::{Logins, SessionFault};
use s4_talk::{Answer, Talking, TurnEnd};
use s4_types::Principal;
use std::alloc::Global;
use std::io::{Read, Write};
use std::sync::Arc;

/// A talk with a peer, and the login table that it goes by from its begin to its end.
#[derive(Drop)]
pub(crate) struct Conversation {
    alloc: Global,
    talking: Talking,
    logins: Arc<Logins>,
    /// The edition of the newest table that it has met.
    edition: u64,
}

impl Conversation {
    /// A conversation in which nothing was said. Takes no memory.
    pub(crate) fn open(alloc: Global, table: Table) -> Conversation
        ensures talk { result.talking ≡ fresh_talk }
        ensures table { result.logins ≡ table.logins }
    {
        let Table { logins, edition } = table;
        Conversation {
            alloc,
            talking: Talking::open(alloc),
            logins,
            edition,
        }
    }

    /// Takes a turn, in which the peer's requests are answered so.
    pub(crate) fn turn<A: Answer, I: Read, O: Write>(
        &mut self,
        answer: &mut A,
        reader: &mut I,
        writer: &mut O,
    ) -> TurnEnd
        // The answer gains the calls that the frames which were served ask for, each once and in order.
        ensures turns { Turns (arc_value self.old.logins)
            (scene (I.remaining reader.old) (O.contents writer.old)
            (A.calls answer.old) self.old.talking)
            (scene (I.remaining reader.new) (O.contents writer.new)
            (A.calls answer.new) self.new.talking) }
        ensures so { TurnsSo result (arc_value self.old.logins) (I.remaining reader.new)
            self.new.talking }
        ensures table { self.new.logins ≡ self.old.logins }
    {
        let Conversation {
            talking,
            logins,
            ..
        } = self;
        talking.turn(&**logins, reader, writer, answer)
    }

    /// How many bytes wait to be written.
    pub(crate) fn waiting(&self) -> usize {
        self.talking.waiting()
    }

    /// Whether the peer was neither welcomed nor told a fault.
    pub(crate) fn is_greeting(&self) -> bool {
        self.talking.caller().is_none() && self.talking.fault().is_none()
    }

    /// Whether the peer was welcomed, and no fault ended that.
    pub(crate) fn is_welcomed(&self) -> bool {
        self.talking.caller().is_some()
    }

    /// The fault that ended the talk.
    pub(crate) fn fault(&self) -> Option<SessionFault> {
        self.talking.fault()
    }

    /// Whether the login table that it goes by names the principal.
    pub(crate) fn names(&self, who: &Principal) -> bool
        ensures { result
            ≡ keeps_login (arc_value self.now.logins) (arc_value self.now.logins) who.now }
    {
        self.logins.keeps(&self.logins, who)
    }

    /// Whether it has met the table of this edition.
    pub(crate) fn has_met(&self, edition: u64) -> bool {
        self.edition == edition
    }

    /// Meets a newer table. Tells whether the peer may stay: where they were welcomed their secret
    /// has to be the same there. `is_fresh` says that nothing was heard of the peer: then it begins
    /// anew, with the newer table. One in the middle of a Hello may not stay.
    pub(crate) fn meets(&mut self, newer: Table, is_fresh: bool) -> bool
        // A talk in which something was heard keeps its table.
        ensures anew { IsTrue is_fresh → self.new.talking ≡ fresh_talk }
        ensures one_table { is_fresh ≡ false → self.new.logins ≡ self.old.logins }
        ensures stays { result ≡ may_stay is_fresh
            (caller_at self.old.talking.session.state) self.old.talking.fault
            (arc_value self.old.logins) (arc_value newer.logins) }
    {
        if is_fresh {
            *self = Conversation::open(self.alloc, newer);
            return true;
        }
        self.edition = newer.edition;
        match self.talking.caller() {
            Some(caller) => self.logins.keeps(&newer.logins, &caller.who),
            None => self.talking.fault().is_some(),
        }
    }
}
