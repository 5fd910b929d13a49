//! Each public call of objects, over a plain store.

ghost use Rattle.std.specs.Prelude.{◌≡◌, ◌≤◌, ◌∷◌, [], true, is_some, IfSome, OnOk};
ghost use Rattle.s4_store.specs.Chains.{newest_of};
ghost use Rattle.s4_store.specs.PlainStore.{chains_of};
ghost use Rattle.s4_tracks.specs.Chain.{current_of};
ghost use Rattle.s4_objects.specs.Table.{Holds, held_in, ends_in};

use crate::tracks::{data, shown};
use s4_objects::{Objects, Refund, Which};
use s4_store::{PlainStore, Store};
use s4_types::{Moment, ObjectId, Version};
use s4_values_for_tests::object;
use std::alloc::Global;
use std::process::Abort;
use std::test::Fail;

/// A horizon, how many values are freed at most, how many are, and whether the object is kept then.
const EXPIRED: [(u64, u64, u64, bool); 3] = [(6, 9, 1, true), (7, 2, 2, true), (7, 9, 1, false)];

/// Whether a track of an object has a current value.
fn is_current(
    objects: &Objects,
    store: &PlainStore<Version>,
    object: &ObjectId,
    which: Which,
) -> bool
    requires { Holds (chains_of store.now) objects.now }
    ensures { result ≡ is_some (current_of
        (held_in (chains_of store.now) objects.now object.now which)) }
{
    objects.version(store, object, which, None).is_some()
}

/// Whether a track of an object has a current value that began by the moment.
fn began_by(
    objects: &Objects,
    store: &PlainStore<Version>,
    object: &ObjectId,
    which: Which,
    moment: Moment,
) -> bool
    requires { Holds (chains_of store.now) objects.now }
    ensures current { result ≡ true → is_some (current_of
        (held_in (chains_of store.now) objects.now object.now which)) ≡ true }
    ensures begun { result ≡ true → IfSome (newest_of
        (held_in (chains_of store.now) objects.now object.now which)) (λ v. v.begin ≤ moment) }
{
    match objects.version(store, object, which, None) {
        Some(version) => version.begin.tick() <= moment.tick(),
        None => false,
    }
}

/// Makes an object at 2 that isn't kept yet.
fn make(
    alloc: Global,
    objects: &mut Objects,
    store: &mut PlainStore<Version>,
    object: &ObjectId,
) -> Result<(), Fail>
    requires holds { Holds (chains_of store.old) objects.old }
    ensures holds { OnOk result (Holds (chains_of store.new) objects.new) }
    ensures ends { OnOk result (ends_in objects.new ≡ ends_in objects.old) }
{
    store.reserve(3)?;
    if objects.is_kept(object) {
        return Err(Fail::from("an object that is kept already"));
    }
    objects.create(alloc, store, Moment::new(2), object)?;
    Ok(())
}

/// Changes the object's data at 5, as its first change.
fn change(
    rt: &impl Abort,
    alloc: Global,
    objects: &mut Objects,
    store: &mut PlainStore<Version>,
    object: &ObjectId,
) -> Result<(), Fail>
    requires holds { Holds (chains_of store.old) objects.old }
    requires ends { ends_in objects.old ≡ [] }
    ensures holds { OnOk result (Holds (chains_of store.new) objects.new) }
    ensures ends { OnOk result (ends_in objects.new ≡ 5 ∷ []) }
{
    store.reserve(1)?;
    objects.reserve(1)?;
    let (item, moment) = (data(alloc, "a")?, Moment::new(5));
    assert!(rt; began_by(objects, store, object, Which::Data, moment));
    objects.put(store, moment, object, Which::Data, item);
    Ok(())
}

/// Ends the object's values at 7.
fn end(
    rt: &impl Abort,
    objects: &mut Objects,
    store: &mut PlainStore<Version>,
    object: &ObjectId,
) -> Result<(), Fail>
    requires holds { Holds (chains_of store.old) objects.old }
    requires ends { ends_in objects.old ≡ 5 ∷ [] }
    ensures { OnOk result (Holds (chains_of store.new) objects.new) }
{
    objects.reserve(3)?;
    assert!(rt; is_current(objects, store, object, Which::Data));
    assert!(rt; is_current(objects, store, object, Which::Attributes));
    assert!(rt; is_current(objects, store, object, Which::Acl));
    objects.end_all(store, Moment::new(7), object);
    Ok(())
}

/// Whether a flush of all objects, or of one, gives these refunds.
fn refunds(
    alloc: Global,
    objects: &Objects,
    store: &mut PlainStore<Version>,
    flushed: Option<&ObjectId>,
    wanted: &[Refund],
) -> Result<bool, Fail>
    requires { Holds (chains_of store.old) objects.now }
    ensures { OnOk result (Holds (chains_of store.new) objects.now) }
{
    let mut refunds = Vec::new(alloc);
    let (from, to) = (Moment::new(0), Moment::new(99));
    match flushed {
        None => objects.flush(store, from, to, &mut refunds)?,
        Some(object) => objects.flush_object(store, object, from, to, &mut refunds)?,
    }
    Ok(refunds.as_slice() == wanted)
}

fn expire(
    rt: &impl Abort,
    objects: &mut Objects,
    store: &mut PlainStore<Version>,
    object: &ObjectId,
)
    requires { Holds (chains_of store.old) objects.old }
{
    for (horizon, most, freed, is_kept) in EXPIRED {
        let count = objects.expire(store, Moment::new(horizon), most);
        let told = (count, objects.is_kept(object));
        assert_eq!(rt; told, (freed, is_kept), "at {horizon}");
    }
    assert_eq!(rt; store.used(), 0);
}

/// An object is made, changed, flushed and ended, and its values are freed.
#[test]
fn an_object_is_flushed_and_goes_with_its_last_value(rt: HostRuntime) -> Result<(), Fail> {
    let alloc = rt.alloc();
    let mut objects = Objects::new(alloc);
    let mut store = PlainStore::new(alloc);
    let first = object((9, 3), 1)?;
    let refund = Refund {
        purse: first.purse,
        end: Moment::new(5),
        cost: 64,
    };
    make(alloc, &mut objects, &mut store, &first)?;
    change(&rt, alloc, &mut objects, &mut store, &first)?;
    assert!(rt; refunds(alloc, &objects, &mut store, None, &[refund])?);
    let past = objects.version(&store, &first, Which::Data, Some(Moment::new(2)));
    assert!(rt; shown(past) == Some((2, Some(5), false)));
    assert!(rt; refunds(alloc, &objects, &mut store, Some(&first), &[])?);
    end(&rt, &mut objects, &mut store, &first)?;
    assert!(rt; !is_current(&objects, &store, &first, Which::Data));
    expire(&rt, &mut objects, &mut store, &first);
    Ok(())
}
