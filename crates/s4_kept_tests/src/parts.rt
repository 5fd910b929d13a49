//! Each public call of partitions, over a plain store.

ghost use Rattle.std.specs.Prelude.{◌≡◌, ◌≤◌, ℕ, ⊤, true, Some, None, IfSome, [], ◌∷◌, ◌==◌, if◌then◌else◌, OnOk};
ghost use Rattle.s4_store.specs.Chains.{newest_of};
ghost use Rattle.s4_store.specs.PlainStore.{chains_of};
ghost use Rattle.s4_parts.specs.Table.{Holds, bindings_in};
ghost use Rattle.s4_parts.specs.Waiting.{Waits, all_by, waiting_in};
ghost use Rattle.s4_types.specs.declared.reply.Grant.TheVariants as grant;

use s4_parts::{Parts, Visible};
use s4_store::{PlainStore, Store};
use s4_types::{After, Grant, Moment, Name, ObjectId, Purse, PurseNo, Serial, Version};
use s4_values_for_tests::{name, object, purse};
use std::process::Abort;
use std::test::Fail;

/// What is asked of the purse 9.0, in which names are bound to its objects.
enum Asked {
    /// The serial that a name is bound to, now or at a moment.
    Mount(&'static str, Option<u64>, Option<u16>),
    /// So many names are bound.
    BoundNames(usize),
    /// Whether the object of that serial has a name.
    Named(u16, bool),
    /// How many lines the first page has behind a name, at a moment, of the objects of a serial.
    Page(Option<&'static str>, Option<u64>, u16, usize),
}

/// The name "a" was bound at 2.
const BOUND: [Asked; 3] = [
    Asked::Mount("a", None, Some(1)),
    Asked::BoundNames(1),
    Asked::Named(1, true),
];

/// It was unbound at 5.
const UNBOUND: [Asked; 10] = [
    Asked::BoundNames(0),
    Asked::Named(1, false),
    Asked::Page(None, None, 1, 0),
    Asked::Page(None, Some(2), 1, 1),
    Asked::Page(Some("a"), Some(2), 1, 0),
    Asked::Page(None, Some(2), 2, 0),
    Asked::Mount("a", Some(1), None),
    Asked::Mount("a", Some(2), Some(1)),
    Asked::Mount("a", Some(4), Some(1)),
    Asked::Mount("a", Some(5), None),
];

/// Its binding was freed, after "b" was bound at 6.
const FREED: [Asked; 2] = [
    Asked::Mount("a", Some(2), None),
    Asked::Mount("b", None, Some(2)),
];

/// A horizon, how many bindings are freed at most, how many are, and how many are left.
const EXPIRED: [(u64, u64, u64, usize); 4] = [
    (4, 9, 0, 2),
    (5, 0, 0, 2),
    (5, 9, 1, 1),
    (99, 9, 0, 1),
];

// Shows the objects of one serial.
#[derive(Drop)]
struct OnlySerial(Serial);

impl Visible for OnlySerial {
    ghost shown = { λ v o. if o.serial == v.0 then Some grant.Admin else None };

    ghost is_ready = { λ v. ⊤ };

    fn grant(&self, object: &ObjectId) -> Option<Grant> {
        if object.serial == self.0 {
            Some(Grant::Admin)
        } else {
            None
        }
    }
}

/// Binds a name that isn't bound.
fn bind(
    store: &mut PlainStore<Version>,
    parts: &mut Parts,
    tick: u64,
    name: &Name,
    object: &ObjectId,
) -> Result<(), Fail>
    requires holds { Holds (chains_of store.old) parts.old }
    requires waits { Waits (chains_of store.old) parts.old }
    requires later { all_by tick (waiting_in parts.old) ≡ true }
    ensures holds { OnOk result (Holds (chains_of store.new) parts.new) }
    ensures waits { OnOk result (Waits (chains_of store.new) parts.new) }
    ensures waiting { OnOk result (waiting_in parts.new ≡ waiting_in parts.old) }
    ensures begun { OnOk result ((t : ℕ) → tick ≤ t → IfSome (newest_of
        (bindings_in (chains_of store.new) parts.new object.now.purse name.now))
        (λ v. v.begin ≤ t)) }
{
    store.reserve(1)?;
    parts.reserve(store, &object.purse, name)?;
    if parts.mount(store, &object.purse, name, None).is_some() {
        return Err(Fail::from("a name that is bound already"));
    }
    parts.bind(store, Moment::new(tick), name, object);
    Ok(())
}

/// Unbinds a name that is bound, as the first one.
fn unbind(
    store: &mut PlainStore<Version>,
    parts: &mut Parts,
    tick: u64,
    name: &Name,
    purse: &Purse,
) -> Result<(), Fail>
    requires holds { Holds (chains_of store.old) parts.old }
    requires waits { Waits (chains_of store.old) parts.old }
    requires waiting { waiting_in parts.old ≡ [] }
    requires begun { IfSome (newest_of
        (bindings_in (chains_of store.old) parts.old purse.now name.now)) (λ v. v.begin ≤ tick) }
    ensures holds { OnOk result (Holds (chains_of store.new) parts.new) }
    ensures waits { OnOk result (Waits (chains_of store.new) parts.new) }
    ensures waiting { OnOk result (waiting_in parts.new
        ≡ record { end = tick; purse = purse.now; name = name.now } ∷ []) }
{
    if parts.mount(store, purse, name, None).is_none() {
        return Err(Fail::from("a name that isn't bound"));
    }
    parts.unbind(store, Moment::new(tick), purse, name);
    Ok(())
}

/// The place behind a name of the purse, if there is one.
fn behind(number: PurseNo, text: Option<&'static str>) -> Result<Option<After>, Fail> {
    match text {
        Some(text) => Ok(Some(After {
            number,
            name: name(text)?,
        })),
        None => Ok(None),
    }
}

/// Whether the answer is what is wanted.
fn holds(store: &PlainStore<Version>, parts: &Parts, asked: &Asked) -> Result<bool, Fail>
    requires { Holds (chains_of store.now) parts.now }
{
    let home = purse((9, 0))?;
    match *asked {
        Asked::Mount(text, at, wanted) => {
            match (
                parts.mount(store, &home, &name(text)?, at.map(Moment::new)),
                wanted,
            ) {
                (Some(bound), Some(serial)) => Ok(bound == object((9, 0), serial)?),
                (bound, _) => Ok(bound.is_none() && wanted.is_none()),
            }
        }
        Asked::BoundNames(wanted) => Ok(parts.bound_names(&home) == wanted),
        Asked::Named(serial, wanted) => Ok(parts.named(&object((9, 0), serial)?) == wanted),
        Asked::Page(after, at, serial, wanted) => {
            let visible = OnlySerial(object((9, 0), serial)?.serial);
            let (place, at) = (behind(home.number, after)?, at.map(Moment::new));
            let page = parts.list(store, home.creator, &place, &at, &visible)?;
            Ok(page.lines.as_slice().len() == wanted && !page.more)
        }
    }
}

fn ask(
    rt: &impl Abort,
    store: &PlainStore<Version>,
    parts: &Parts,
    what: &str,
    rows: &[Asked],
) -> Result<(), Fail>
    requires { Holds (chains_of store.now) parts.now }
{
    for (index, asked) in rows.iter().enumerate() {
        assert!(rt; holds(store, parts, asked)?, "{what}, row {index}");
    }
    Ok(())
}

fn expire(rt: &impl Abort, store: &mut PlainStore<Version>, parts: &mut Parts)
    requires holds { Holds (chains_of store.old) parts.old }
    requires waits { Waits (chains_of store.old) parts.old }
    ensures { Holds (chains_of store.new) parts.new }
{
    for (horizon, most, freed, left) in EXPIRED {
        let told = (
            parts.expire(store, Moment::new(horizon), most),
            store.used(),
        );
        assert_eq!(rt; told, (freed, left), "at {horizon}");
    }
}

/// A name is bound at 2 and unbound at 5, another is bound at 6, and what has ended is freed.
#[test]
fn names_are_bound_and_unbound_and_freed(rt: HostRuntime) -> Result<(), Fail> {
    let alloc = rt.alloc();
    let mut store = PlainStore::new(alloc);
    let mut parts = Parts::new(alloc);
    let (first, second) = (object((9, 0), 1)?, object((9, 0), 2)?);
    let (a, b) = (name("a")?, name("b")?);
    bind(&mut store, &mut parts, 2, &a, &first)?;
    ask(&rt, &store, &parts, "bound", &BOUND)?;
    unbind(&mut store, &mut parts, 5, &a, &first.purse)?;
    ask(&rt, &store, &parts, "unbound", &UNBOUND)?;
    bind(&mut store, &mut parts, 6, &b, &second)?;
    expire(&rt, &mut store, &mut parts);
    ask(&rt, &store, &parts, "freed", &FREED)
}
