//! What each kind of request changes of the tables.

ghost use Rattle.std.specs.Prelude.{◌≡◌, ◌==◌, ◌++◌, None, OnOk};
ghost use Rattle.s4_types.specs.declared.object.ObjectId.{ObjectId};
ghost use Rattle.s4_types.specs.declared.reply.Reply.TheVariants as reply_as;
ghost use Rattle.s4_types.specs.Acl.{acl_with};
ghost use Rattle.s4_types.specs.Horizon.{windowed};
ghost use Rattle.s4_types.specs.Versions.{written as written_of, of_length as of_length_as};
ghost use Rattle.s4_base.specs.Changes.{with_made, with_object, on_object, with_bytes, with_attributes, with_acl, with_bound, without_bound, with_budget, with_guarded, with_window, IsSettable};

use crate::kept::Bound;
use crate::tables::Tables;
use crate::{names, numbers, objects};
use s4_types::{Bytes, Caller, Moment, Name, NoMemory, ObjectId, Purse, Reply, Rights, User};
use std::alloc::Global;

impl Tables {
    ghost use Rattle.s4_base.specs.Tables.{base_in, guarded_in};

    /// A new object, the newest of its purse.
    pub fn create(
        &mut self,
        alloc: Global,
        moment: Moment,
        object: &ObjectId,
    ) -> Result<(), NoMemory>
        ensures { OnOk result
            (base_in self.new ≡ with_made moment object.now (base_in self.old)) }
    {
        let kept = objects::fresh(alloc, moment, object)?;
        objects::keep(&mut self.objects, object, kept)?;
        numbers::set_drawn(&mut self.drawn, &object.purse, object.serial.number())
    }

    /// An object lives no longer. Takes no memory.
    pub fn delete(&mut self, object: &ObjectId)
        ensures { base_in self.new ≡ with_object object.now None (base_in self.old) }
    {
        objects::forget(&mut self.objects, object);
    }

    /// Bytes over an object's data, if it lives.
    pub fn write(
        &mut self,
        alloc: Global,
        moment: Moment,
        object: &ObjectId,
        offset: u32,
        bytes: &Bytes,
    ) -> Result<(), NoMemory>
        ensures { OnOk result (base_in self.new ≡ on_object object.now
            (with_bytes moment (written_of offset bytes.now)) (base_in self.old)) }
    {
        let Some(kept) = self.objects.get(object) else {
            return Ok(());
        };
        let new = bytes.written_over(alloc, kept.bytes.as_slice(), offset)?;
        objects::set_bytes(&mut self.objects, moment, object, new)
    }

    /// Bytes after an object's data, if it lives.
    pub fn append(
        &mut self,
        alloc: Global,
        moment: Moment,
        object: &ObjectId,
        bytes: &Bytes,
    ) -> Result<(), NoMemory>
        ensures { OnOk result (base_in self.new ≡ on_object object.now
            (with_bytes moment (λ old. old ++ bytes.now)) (base_in self.old)) }
    {
        let Some(kept) = self.objects.get(object) else {
            return Ok(());
        };
        let new = bytes.appended_to(alloc, kept.bytes.as_slice())?;
        objects::set_bytes(&mut self.objects, moment, object, new)
    }

    /// An object's data cut, or filled with zeros, to that length, if it lives.
    pub fn truncate(
        &mut self,
        alloc: Global,
        moment: Moment,
        object: &ObjectId,
        length: u32,
    ) -> Result<(), NoMemory>
        ensures { OnOk result (base_in self.new
            ≡ on_object object.now (with_bytes moment (of_length_as length)) (base_in self.old)) }
    {
        let Some(kept) = self.objects.get(object) else {
            return Ok(());
        };
        let new = Bytes::of_length(alloc, kept.bytes.as_slice(), length)?;
        objects::set_bytes(&mut self.objects, moment, object, new)
    }

    /// Bytes in the place of an object's attributes, if it lives.
    pub fn set_attributes(
        &mut self,
        moment: Moment,
        object: &ObjectId,
        bytes: &Bytes,
    ) -> Result<(), NoMemory>
        ensures { OnOk result (base_in self.new
            ≡ on_object object.now (with_attributes moment bytes.now) (base_in self.old)) }
    {
        let new = bytes.copy()?;
        objects::set_attributes(&mut self.objects, moment, object, new)
    }

    /// Rights for a user in an object's ACL, if it lives.
    pub fn set_rights(
        &mut self,
        alloc: Global,
        moment: Moment,
        object: &ObjectId,
        user: User,
        rights: Rights,
    ) -> Result<(), NoMemory>
        requires { IsSettable user rights ((base_in self.old).object object.now) }
        ensures { OnOk result (base_in self.new
            ≡ on_object object.now (with_acl moment (acl_with user rights)) (base_in self.old)) }
    {
        let Some(kept) = self.objects.get(object) else {
            return Ok(());
        };
        let acl = s4_acl::set(alloc, kept.acl.entries(), user, rights)?;
        objects::set_acl(&mut self.objects, moment, object, acl)
    }

    /// A name bound to an object, in the object's purse.
    pub fn bind(
        &mut self,
        alloc: Global,
        moment: Moment,
        name: &Name,
        object: &ObjectId,
    ) -> Result<(), NoMemory>
        ensures { OnOk result (base_in self.new ≡ with_bound object.now.purse name.now
            (record { begin = moment; value = object.now.serial }) (base_in self.old)) }
    {
        let bound = Bound {
            serial: object.serial,
            begin: moment,
        };
        names::bind(alloc, &mut self.names, &object.purse, name, bound)
    }

    /// A name bound no longer.
    pub fn unbind(&mut self, alloc: Global, purse: &Purse, name: &Name) -> Result<(), NoMemory>
        ensures { OnOk result (base_in self.new
            ≡ without_bound purse.now name.now (base_in self.old)) }
    {
        names::unbind(alloc, &mut self.names, purse, name)
    }

    /// The object that a Create was told to have made.
    pub fn created(&mut self, alloc: Global, moment: Moment, reply: &Reply) -> Result<(), NoMemory>
        ensures ok { (o : ObjectId) → reply.now ≡ reply_as.Made o
            → OnOk result (base_in self.new ≡ with_made moment o (base_in self.old)) }
        ensures count { OnOk result (self.new.count ≡ self.old.count) }
    {
        match reply {
            Reply::Made(object) => self.create(alloc, moment, object),
            _ => Ok(()),
        }
    }

    /// Another window, where the caller may set it. Takes no memory.
    pub fn window_set(&mut self, moment: Moment, caller: &Caller, ticks: u64)
        ensures { base_in self.new
            ≡ with_window moment ticks (caller.now.who == 0) (base_in self.old) }
    {
        if caller.who.is_administrator() {
            self.set_window(moment, ticks);
        }
    }

    /// Another window, which keeps the horizon that there is at the moment. Takes no memory.
    pub fn set_window(&mut self, moment: Moment, ticks: u64)
        ensures { base_in self.new
            ≡ with_guarded (windowed moment ticks (guarded_in self.old)) (base_in self.old) }
    {
        let horizon = moment.tick().saturating_sub(self.window);
        self.floor = Moment::new(self.floor.tick().max(horizon));
        self.window = ticks;
    }

    /// What a purse may spend.
    pub fn set_budget(&mut self, purse: &Purse, budget: u32) -> Result<(), NoMemory>
        ensures { OnOk result (base_in self.new
            ≡ with_budget purse.now budget (base_in self.old)) }
    {
        numbers::set_budget(&mut self.budgets, purse, budget)
    }
}
