//! A base brought on by one record after another.

ghost use Rattle.std.specs.Prelude.{◌≡◌, ◌+◌, ◌<◌, ◌^◌, [], ◌∷◌, OnOk};
ghost use Rattle.s4_types.specs.Kinds.{is_accepted};
ghost use Rattle.s4_cuts.specs.Cut.{left};
ghost use Rattle.s4_base.specs.Changes.{passed, put_by, changed_by, CanSet, Follows, CanFollow};

use crate::tables::Tables;
use s4_types::{Caller, Moment, NoMemory, Record, Reply, Request};
use std::alloc::Global;

impl Tables {
    ghost use Rattle.s4_base.specs.Tables.{base_in};

    /// Brings the tables to where the record leaves them. Where memory is refused a part of that may
    /// be done.
    pub fn follow(&mut self, alloc: Global, added: &Record) -> Result<(), NoMemory>
        requires counts { self.old.count + 1 < 2 ^ 64 }
        requires fits { CanFollow (base_in self.old) added.now }
        ensures { OnOk result (base_in self.new
            ≡ left (base_in self.old) added.now.moment (added.now ∷ [])) }
    {
        if is_change(added) {
            self.change(alloc, added)?;
        }
        self.pass(added.moment);
        Ok(())
    }

    /// One record more is gone, which was at the moment. Takes no memory.
    fn pass(&mut self, moment: Moment)
        requires { self.old.count + 1 < 2 ^ 64 }
        ensures { base_in self.new ≡ passed moment 1 (base_in self.old) }
    {
        self.reach(moment);
        self.count += 1;
    }

    /// The records before the moment are gone. Takes no memory.
    pub fn reach(&mut self, moment: Moment)
        ensures value { base_in self.new ≡ passed moment 0 (base_in self.old) }
        ensures count { self.new.count ≡ self.old.count }
    {
        self.cut = Moment::new(self.cut.tick().max(moment.tick()));
    }

    // What the record changes of the objects, of the names and of the numbers.
    fn change(&mut self, alloc: Global, added: &Record) -> Result<(), NoMemory>
        requires { Follows (base_in self.old) added.now }
        ensures ok { OnOk result (base_in self.new
            ≡ changed_by added.now.moment added.now.caller added.now.request (base_in self.old)) }
        ensures count { OnOk result (self.new.count ≡ self.old.count) }
    {
        let moment = added.moment;
        match &added.request {
            Request::Create { .. } => self.created(alloc, moment, &added.reply),
            Request::Delete { object } => {
                self.delete(object);
                Ok(())
            }
            Request::PCreate { name, object } => self.bind(alloc, moment, name, object),
            Request::PDelete { purse, name } => self.unbind(alloc, purse, name),
            Request::SetWindow { ticks } => {
                self.window_set(moment, &added.caller, *ticks);
                Ok(())
            }
            Request::SetBudget { purse, budget } => self.set_budget(purse, *budget),
            request => self.put(alloc, moment, request),
        }
    }

    // What the request puts on a track of an object that lives. A read changes nothing, and a flush
    // nothing that is current.
    fn put(&mut self, alloc: Global, moment: Moment, request: &Request) -> Result<(), NoMemory>
        requires { CanSet (base_in self.old) request.now }
        ensures ok { OnOk result (base_in self.new ≡ put_by moment request.now (base_in self.old)) }
        ensures count { OnOk result (self.new.count ≡ self.old.count) }
    {
        match request {
            Request::Write {
                object,
                offset,
                bytes,
            } => self.write(alloc, moment, object, *offset, bytes),
            Request::Append { object, bytes } => self.append(alloc, moment, object, bytes),
            Request::Truncate { object, length } => self.truncate(alloc, moment, object, *length),
            Request::SetAttr { object, bytes } => self.set_attributes(moment, object, bytes),
            Request::SetAcl {
                object,
                user,
                rights,
            } => self.set_rights(alloc, moment, object, *user, *rights),
            _ => Ok(()),
        }
    }
}

// Whether the record stands for a change.
fn is_change(added: &Record) -> bool
    ensures { result ≡ is_accepted added.now }
{
    !added.reply.is_refused() && !added.request.only_reads()
}
