//! Each public call of tracks, over a plain store.

ghost use Rattle.std.specs.Prelude.{◌≡◌, true, IfOk, OnOk};
ghost use Rattle.std.specs.List.Sorted.{IsNonDecreasingBy};
ghost use Rattle.s4_store.specs.Chains.{IsOpen, items_of};
ghost use Rattle.s4_store.specs.PlainStore.{chains_of};
ghost use Rattle.s4_tracks.specs.Chain.{IsSmall};

use s4_store::{PlainStore, Store};
use s4_tracks::{Eraser, Track};
use s4_types::{Bytes, Item, Moment, Version};
use std::alloc::Global;
use std::process::Abort;
use std::test::Fail;

/// What is told of a value: its begin, its end, and whether it is held.
type Shown = (u64, Option<u64>, bool);

/// What is done with a track, or asked of it.
enum Step {
    /// The first value, without bytes, begins at a moment.
    Begin(u64),
    /// A value of these bytes begins at a moment.
    Put(u64, &'static str),
    /// The value ends at a moment.
    End(u64),
    /// A flush of these moments erases values with these ends and costs, one after the other.
    EraseThree(u64, u64, [Option<(u64, u32)>; 3]),
    /// It erases one value, with this end and this cost.
    EraseNext(u64, u64, Option<(u64, u32)>),
    /// With a horizon, at most so many values are freed, and so many are.
    Expire(u64, u64, u64),
    /// At a moment this is in force.
    At(u64, Option<Shown>),
    /// Now this is in force.
    Current(Option<Shown>),
    /// The store holds so many values.
    Used(usize),
}

/// Values are in force from begin to end.
const IN_FORCE: [Step; 11] = [
    Step::Begin(5),
    Step::Put(10, "a"),
    Step::Put(10, "b"),
    Step::End(20),
    Step::At(4, None),
    Step::At(5, Some((5, Some(10), true))),
    Step::At(9, Some((5, Some(10), true))),
    Step::At(10, Some((10, Some(20), true))),
    Step::At(19, Some((10, Some(20), true))),
    Step::At(20, None),
    Step::Current(None),
];

/// Values inside a flush are erased, and each is told once.
const ERASED: [Step; 12] = [
    Step::Begin(5),
    Step::Put(10, "a"),
    Step::Put(20, "b"),
    Step::Put(30, "c"),
    Step::EraseThree(10, 30, [Some((20, 65)), Some((30, 65)), None]),
    Step::At(9, Some((5, Some(10), true))),
    Step::At(10, Some((10, Some(20), false))),
    Step::At(29, Some((20, Some(30), false))),
    Step::At(30, Some((30, None, true))),
    Step::EraseNext(0, u64::MAX, Some((10, 64))),
    Step::EraseNext(0, u64::MAX, None),
    Step::Current(Some((30, None, true))),
];

/// Expired values are freed from the oldest on, and the current one stays.
const EXPIRED: [Step; 11] = [
    Step::Begin(5),
    Step::Put(10, "a"),
    Step::Put(20, "b"),
    Step::Put(30, "c"),
    Step::Expire(9, 5, 0),
    Step::Expire(20, 0, 0),
    Step::Expire(20, 1, 1),
    Step::Expire(20, 5, 1),
    Step::Expire(99, 5, 1),
    Step::Used(1),
    Step::Current(Some((30, None, true))),
];

/// A byte, or none.
pub fn data(alloc: Global, text: &str) -> Result<Item, Fail>
    ensures { IfOk result (λ item. IsSmall item) }
{
    let bytes = Bytes::from_slice(alloc, text.as_bytes())?;
    if bytes.len() > 1 {
        Err("one byte at most")?;
    }
    Ok(Item::Data(bytes))
}

/// What is told of a value.
pub fn shown(version: Option<&Version>) -> Option<Shown> {
    let version = version?;
    let end = version.end.map(Moment::tick);
    Some((version.begin.tick(), end, version.item.is_some()))
}

fn erased(told: Option<(Moment, u32)>) -> Option<(u64, u32)> {
    let (end, cost) = told?;
    Some((end.tick(), cost))
}

/// Whether no value begins before an older one.
fn is_in_order(store: &PlainStore<Version>, track: &Track) -> bool
    requires { IsOpen (chains_of store.now) track.now.chain }
    ensures { result ≡ true
        → IsNonDecreasingBy (λ v. v.begin) (items_of (chains_of store.now) track.now.chain) }
{
    let mut newest = 0;
    for index in 0..store.len(track.chain) {
        let begin = store.get(track.chain, index).begin.tick();
        if begin < newest {
            return false;
        }
        newest = begin;
    }
    true
}

/// Takes a step, and tells whether the answer is what is wanted.
fn holds(
    alloc: Global,
    store: &mut PlainStore<Version>,
    track: &Track,
    step: &Step,
) -> Result<bool, Fail>
    requires { IsOpen (chains_of store.old) track.now.chain }
    ensures { OnOk result (IsOpen (chains_of store.new) track.now.chain) }
{
    match *step {
        Step::Begin(tick) => {
            store.reserve(1)?;
            let item = data(alloc, "")?;
            track.begin(store, Moment::new(tick), item);
            Ok(true)
        }
        Step::Put(tick, text) => {
            store.reserve(1)?;
            let item = data(alloc, text)?;
            track.put(store, Moment::new(tick), item);
            Ok(true)
        }
        Step::End(tick) => {
            track.end(store, Moment::new(tick));
            Ok(true)
        }
        Step::EraseThree(from, to, wanted) => {
            let mut eraser = Eraser::new(track, Moment::new(from), Moment::new(to));
            let first = erased(eraser.erase_next(store));
            let second = erased(eraser.erase_next(store));
            let third = erased(eraser.erase_next(store));
            Ok([first, second, third] == wanted)
        }
        Step::EraseNext(from, to, wanted) => {
            let told = track.erase_next(store, Moment::new(from), Moment::new(to));
            Ok(erased(told) == wanted)
        }
        Step::Expire(horizon, most, wanted) => {
            Ok(track.expire(store, Moment::new(horizon), most) == wanted)
        }
        Step::At(tick, wanted) => {
            let is_in_order = is_in_order(store, track);
            Ok(is_in_order && shown(track.at(store, Moment::new(tick))) == wanted)
        }
        Step::Current(wanted) => Ok(shown(track.current(store)) == wanted),
        Step::Used(wanted) => Ok(store.used() == wanted),
    }
}

/// Takes the steps of a fresh track.
fn follow(rt: &impl Abort, alloc: Global, (what, steps): (&str, &[Step])) -> Result<(), Fail> {
    let mut store = PlainStore::new(alloc);
    let track = Track {
        chain: store.open()?,
    };
    for (index, step) in steps.iter().enumerate() {
        assert!(rt;
            holds(alloc, &mut store, &track, step)?,
            "{what}, step {index}"
        );
    }
    Ok(())
}

#[test]
fn values_are_in_force_until_they_end_and_go(rt: HostRuntime) -> Result<(), Fail> {
    for steps in [
        ("in force", IN_FORCE.as_slice()),
        ("erased", ERASED.as_slice()),
        ("expired", EXPIRED.as_slice()),
    ] {
        follow(&rt, rt.alloc(), steps)?;
    }
    Ok(())
}
