//! The objects that live, by their names.

ghost use Rattle.std.specs.Prelude.{◌≡◌, Some, None, IfOk, OnOk};
ghost use Rattle.s4_types.specs.declared.object.ObjectId.{ObjectId};
ghost use Rattle.s4_base.specs.Lists.{object_among};
ghost use Rattle.s4_base.specs.Changes.{made, object_put, object_changed, with_bytes, with_attributes, with_acl};

use crate::kept::Kept;
use crate::table::Table;
use s4_types::{Acl, Bytes, Moment, NoMemory, ObjectId};
use std::alloc::Global;

/// What is kept of an object that is made at the moment, or `NoMemory` where there is none for its
/// ACL.
pub(crate) fn fresh(alloc: Global, moment: Moment, object: &ObjectId) -> Result<Kept, NoMemory>
    ensures { IfOk result (λ kept. kept ≡ made moment object.now) }
{
    Ok(Kept {
        bytes: Bytes::new(),
        bytes_begin: moment,
        attributes: Bytes::new(),
        attributes_begin: moment,
        acl: Acl::of_creator(alloc, object.purse.creator)?,
        acl_begin: moment,
    })
}

/// Keeps an object, in the place of what was kept of it.
pub(crate) fn keep(
    objects: &mut Table<ObjectId, Kept>,
    object: &ObjectId,
    kept: Kept,
) -> Result<(), NoMemory>
    ensures { OnOk result ((o : ObjectId) → object_among objects.new o
        ≡ object_put object.now (Some kept) (object_among objects.old) o) }
{
    objects.put(*object, kept)
}

/// Keeps an object no longer. Takes no memory.
pub(crate) fn forget(objects: &mut Table<ObjectId, Kept>, object: &ObjectId)
    ensures { (o : ObjectId) → object_among objects.new o
        ≡ object_put object.now None (object_among objects.old) o }
{
    objects.take_out(object);
}

/// Other data from the moment on, where the object lives.
pub(crate) fn set_bytes(
    objects: &mut Table<ObjectId, Kept>,
    moment: Moment,
    object: &ObjectId,
    bytes: Bytes,
) -> Result<(), NoMemory>
    ensures { OnOk result ((o : ObjectId) → object_among objects.new o
        ≡ object_changed object.now (with_bytes moment (λ old. bytes))
        (object_among objects.old) o) }
{
    let Some(kept) = objects.get(object) else {
        return Ok(());
    };
    let mut changed = kept.clone()?;
    changed.bytes = bytes;
    changed.bytes_begin = moment;
    keep(objects, object, changed)
}

/// Other attributes from the moment on, where the object lives.
pub(crate) fn set_attributes(
    objects: &mut Table<ObjectId, Kept>,
    moment: Moment,
    object: &ObjectId,
    bytes: Bytes,
) -> Result<(), NoMemory>
    ensures { OnOk result ((o : ObjectId) → object_among objects.new o
        ≡ object_changed object.now (with_attributes moment bytes)
        (object_among objects.old) o) }
{
    let Some(kept) = objects.get(object) else {
        return Ok(());
    };
    let mut changed = kept.clone()?;
    changed.attributes = bytes;
    changed.attributes_begin = moment;
    keep(objects, object, changed)
}

/// Another ACL from the moment on, where the object lives.
pub(crate) fn set_acl(
    objects: &mut Table<ObjectId, Kept>,
    moment: Moment,
    object: &ObjectId,
    acl: Acl,
) -> Result<(), NoMemory>
    ensures { OnOk result ((o : ObjectId) → object_among objects.new o
        ≡ object_changed object.now (with_acl moment (λ old. acl))
        (object_among objects.old) o) }
{
    let Some(kept) = objects.get(object) else {
        return Ok(());
    };
    let mut changed = kept.clone()?;
    changed.acl = acl;
    changed.acl_begin = moment;
    keep(objects, object, changed)
}
