//! Each public call of ACLs, and what is told of object 7.0.1 by an ACL that is in force since 20.

use s4_acl::{asked_entry, by_index, entry_of, set, settable};
use s4_judge::{Held, judge_now, judge_past};
use s4_types::{Acl, Grant, Moment, Refusal, Right, Rights, User};
use s4_values_for_tests::{caller, object, principal};
use std::alloc::Global;
use std::test::Fail;

/// Entries: whom each is for, and its rights.
type Entries = &'static [(u32, u8)];

/// The ACL once these users have these rights, where that may be.
fn given(alloc: Global, first: Acl, entries: Entries) -> Result<Acl, Fail> {
    let mut acl = first;
    for (number, rights) in entries {
        let user = User::new(*number);
        let rights = Rights::new(*rights).ok_or("rights")?;
        if settable(acl.entries(), user, rights).is_err() {
            return Err(Fail::from("an ACL"));
        }
        acl = set(alloc, acl.entries(), user, rights)?;
    }
    Ok(acl)
}

/// Which entry is looked for.
enum Look {
    /// That of a user, which tells its index and its rights.
    Of(u32),
    /// That which a principal is asked by, which tells the same.
    Asked(u32),
    /// That of an index, which tells its user and its rights.
    At(u8),
}

/// Entries that come to a creator's ACL, of principal 7; which entry is looked for; and what is told.
const LOOKS: [(Entries, Look, Option<(u32, u8)>); 6] = [
    (&[(9, 17)], Look::Of(9), Some((1, 17))),
    (&[(9, 17)], Look::At(1), Some((9, 17))),
    (&[], Look::Asked(8), None),
    (&[(4294967295, 1), (9, 2)], Look::Asked(7), Some((0, 31))),
    (&[(4294967295, 1), (9, 2)], Look::Asked(8), Some((1, 1))),
    (&[(4294967295, 1), (9, 2)], Look::Asked(9), Some((2, 2))),
];

fn looked(acl: &Acl, look: &Look) -> Result<Option<(u32, u8)>, Fail> {
    let found = match *look {
        Look::Of(number) => entry_of(acl.entries(), User::new(number)),
        Look::Asked(number) => asked_entry(acl.entries(), principal(number)?),
        Look::At(index) => {
            return Ok(match by_index(acl.entries(), index) {
                Some(entry) => Some((entry.who.number(), entry.rights.number())),
                None => None,
            });
        }
    };
    Ok(match found {
        Some((index, rights)) => Some((u32::from(index), rights.number())),
        None => None,
    })
}

#[test]
fn entries_are_set_and_found_and_everyone_has_one(rt: HostRuntime) -> Result<(), Fail> {
    assert_eq!(rt; User::everyone().number(), 4294967295);
    for (index, (entries, look, wanted)) in LOOKS.iter().enumerate() {
        let acl = given(
            rt.alloc(),
            Acl::of_creator(rt.alloc(), principal(7)?)?,
            entries,
        )?;
        assert_eq!(rt; looked(&acl, look)?, *wanted, "row {index}");
        let refused = settable(acl.entries(), User::new(8), Rights::none());
        assert_eq!(rt; refused.err(), Some(Refusal::NoEntry), "row {index}");
    }
    Ok(())
}

enum Asked {
    /// What needs the right is asked now.
    Now(Right),
    Past,
}

enum Told {
    Admin,
    Owner,
    /// By the entry of that index.
    Entry(u8),
    Denied(Right),
}

/// Principal 9 may read.
const READ: Entries = &[(9, 1)];
/// Principal 9 may recover.
const RECOVER: Entries = &[(9, 16)];
/// Principal 9 may do both.
const BOTH: Entries = &[(9, 17)];
/// Everyone may do both, but principal 9 may write alone.
const SHARED: Entries = &[(4294967295, 17), (9, 2)];
/// Everyone may write, and change the ACL.
const OPEN: Entries = &[(4294967295, 10)];

/// Who asks, the entries, what is asked, and what is told.
const ROWS: [(u32, Entries, Asked, Told); 23] = [
    (0, READ, Asked::Now(Right::Write), Told::Admin),
    (0, READ, Asked::Now(Right::Control), Told::Admin),
    (7, READ, Asked::Now(Right::Control), Told::Owner),
    (9, READ, Asked::Now(Right::Read), Told::Entry(0)),
    (9, READ, Asked::Past, Told::Denied(Right::Recover)),
    (0, READ, Asked::Past, Told::Admin),
    (7, READ, Asked::Past, Told::Denied(Right::Read)),
    (9, RECOVER, Asked::Past, Told::Denied(Right::Read)),
    (0, RECOVER, Asked::Past, Told::Admin),
    (7, RECOVER, Asked::Past, Told::Denied(Right::Read)),
    (9, BOTH, Asked::Past, Told::Entry(0)),
    (0, BOTH, Asked::Past, Told::Admin),
    (7, BOTH, Asked::Past, Told::Denied(Right::Read)),
    (8, SHARED, Asked::Now(Right::Read), Told::Entry(0)),
    (
        8,
        SHARED,
        Asked::Now(Right::Write),
        Told::Denied(Right::Write),
    ),
    (8, SHARED, Asked::Past, Told::Entry(0)),
    (
        9,
        SHARED,
        Asked::Now(Right::Read),
        Told::Denied(Right::Read),
    ),
    (9, SHARED, Asked::Now(Right::Write), Told::Entry(1)),
    (9, SHARED, Asked::Past, Told::Denied(Right::Read)),
    (7, OPEN, Asked::Now(Right::Write), Told::Entry(0)),
    (7, OPEN, Asked::Now(Right::Control), Told::Owner),
    (8, OPEN, Asked::Now(Right::Control), Told::Entry(0)),
    (0, OPEN, Asked::Now(Right::Write), Told::Admin),
];

fn wanted(told: &Told) -> Result<Grant, Refusal> {
    match told {
        Told::Admin => Ok(Grant::Admin),
        Told::Owner => Ok(Grant::Owner),
        Told::Entry(index) => Ok(Grant::Entry {
            index: *index,
            since: Moment::new(20),
        }),
        Told::Denied(right) => Err(Refusal::Denied(*right)),
    }
}

#[test]
fn who_is_told_what_now_and_of_the_past(rt: HostRuntime) -> Result<(), Fail> {
    let (object, since) = (object((7, 0), 1)?, Moment::new(20));
    for (index, (who, entries, asked, told)) in ROWS.iter().enumerate() {
        let acl = given(rt.alloc(), Acl::empty(rt.alloc()), entries)?;
        let (caller, held) = (caller(*who)?, Some(Held { acl: &acl, since }));
        let judged = match *asked {
            Asked::Now(right) => judge_now(caller, &object, &held, right),
            Asked::Past => judge_past(caller, &object, &held),
        };
        assert_eq!(rt; judged, wanted(told), "row {index}");
    }
    Ok(())
}
