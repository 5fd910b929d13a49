//! Each public call of numbers, sets of rights, ACLs and names, once and at its borders.

use s4_types::{
    Acl, AclEntry, Moment, Name, Principal, PurseNo, Refusal, Reply, Right, Rights, Serial, User,
    WireVersion,
};
use s4_values_for_tests::{name, principal};
use std::alloc::Global;
use std::cmp::Ordering;
use std::process::Abort;
use std::test::Fail;

/// What a number is taken as.
enum Number {
    Principal(u32),
    User(u32),
    PurseNo(u8),
    Serial(u16),
    Rights(u8),
    Tick(u64),
    /// The number that a right has.
    Right(Right),
    /// The number that a refusal has.
    Refusal(Refusal),
    /// The number that a version has.
    Version(WireVersion),
    /// The number of bytes that a version's requests may name.
    DataLimit(WireVersion),
}

/// Numbers, and what is told of them when they are taken.
const NUMBERS: [(Number, Option<u64>); 31] = [
    (Number::Principal(0), Some(0)),
    (Number::Principal(4294967294), Some(4294967294)),
    (Number::Principal(4294967295), None),
    (Number::User(0), Some(0)),
    (Number::User(4294967295), Some(4294967295)),
    (Number::PurseNo(0), Some(0)),
    (Number::PurseNo(15), Some(15)),
    (Number::PurseNo(16), None),
    (Number::PurseNo(255), None),
    (Number::Serial(0), None),
    (Number::Serial(1), Some(1)),
    (Number::Serial(65535), Some(65535)),
    (Number::Rights(0), Some(0)),
    (Number::Rights(31), Some(31)),
    (Number::Rights(32), None),
    (Number::Rights(255), None),
    (Number::Tick(5), Some(5)),
    (Number::Tick(u64::MAX), Some(18446744073709551615)),
    (Number::Right(Right::Read), Some(1)),
    (Number::Right(Right::Write), Some(2)),
    (Number::Right(Right::Delete), Some(4)),
    (Number::Right(Right::Control), Some(8)),
    (Number::Right(Right::Recover), Some(16)),
    (Number::Right(Right::Admin), Some(32)),
    (Number::Refusal(Refusal::Flushed), Some(6)),
    (Number::Refusal(Refusal::NamesSpent), Some(13)),
    (Number::Refusal(Refusal::BadRange), Some(15)),
    (Number::Version(WireVersion::One), Some(1)),
    (Number::Version(WireVersion::Two), Some(2)),
    (Number::DataLimit(WireVersion::One), Some(4096)),
    (Number::DataLimit(WireVersion::Two), Some(65536)),
];

/// That all is so that is said of values.
fn check(rt: &impl Abort, facts: &[(&str, bool)]) {
    for (what, holds) in facts {
        assert!(rt; *holds, "{what}");
    }
}

fn told(number: &Number) -> Option<u64> {
    match *number {
        Number::Principal(number) => Some(u64::from(Principal::new(number)?.number())),
        Number::User(number) => Some(u64::from(User::new(number).number())),
        Number::PurseNo(number) => Some(u64::from(PurseNo::new(number)?.number())),
        Number::Serial(number) => Some(u64::from(Serial::new(number)?.number())),
        Number::Rights(number) => Some(u64::from(Rights::new(number)?.number())),
        Number::Tick(tick) => Some(Moment::new(tick).tick()),
        Number::Right(right) => Some(u64::from(right.number())),
        Number::Refusal(refusal) => Some(u64::from(refusal.number())),
        Number::Version(version) => Some(u64::from(version.number())),
        Number::DataLimit(version) => Some(u64::from(version.data_limit())),
    }
}

/// A right, whether it is one of all rights, and whether it is one of the rights 18.
const RIGHTS: [(Right, bool, bool); 6] = [
    (Right::Read, true, false),
    (Right::Write, true, true),
    (Right::Delete, true, false),
    (Right::Control, true, false),
    (Right::Recover, true, true),
    (Right::Admin, false, false),
];

/// Facts of moments, users, rights and replies.
fn check_values(rt: &impl Abort) -> Result<(), Fail> {
    let (other, who) = (principal(1)?, principal(7)?);
    let rights = Rights::new(31).ok_or("rights")?;
    let (early, late) = (Moment::new(5), Moment::new(u64::MAX));
    let administrator = Principal::administrator();
    let (own, everyone) = (User::from(who), User::everyone());
    check(
        rt,
        &[
            ("5 is early", early < late),
            ("equal moments", early == Moment::new(5)),
            ("number of the administrator", administrator.number() == 0),
            ("the administrator is one", administrator.is_administrator()),
            ("another principal isn't", !other.is_administrator()),
            ("an own entry", own.reaches(who)),
            ("another's entry", !own.reaches(other)),
            ("an entry for everyone", everyone.reaches(other)),
            ("number of everyone", everyone.number() == u32::MAX),
            ("number of all rights", Rights::all().number() == 31),
            ("rights 31", !rights.is_empty()),
            ("no rights", Rights::none().is_empty()),
            ("number of done", Reply::Done.number() == 0),
            ("done", !Reply::Done.is_refused()),
        ],
    );
    Ok(())
}

/// Facts of a creator's ACL, which gives the rights 31.
fn check_acls(rt: &impl Abort, alloc: Global) -> Result<(), Fail> {
    let creator = principal(7)?;
    let wanted = [AclEntry {
        who: User::from(creator),
        rights: Rights::new(31).ok_or("rights")?,
    }];
    let acl = Acl::of_creator(alloc, creator)?;
    let copy = acl.copy()?;
    let empty = Acl::empty(alloc);
    check(
        rt,
        &[
            ("a creator's ACL", acl.entries() == wanted.as_slice()),
            ("its copy", copy.entries() == wanted.as_slice()),
            ("an empty ACL", empty.entries().is_empty()),
        ],
    );
    Ok(())
}

#[test]
fn numbers_and_rights_have_their_borders(rt: HostRuntime) -> Result<(), Fail> {
    for (index, (number, wanted)) in NUMBERS.iter().enumerate() {
        assert_eq!(rt; told(number), *wanted, "number {index}");
    }
    let (all, some) = (Rights::all(), Rights::new(18).ok_or("rights")?);
    for (right, in_all, in_some) in RIGHTS {
        let number = right.number();
        assert!(rt;
            all.has(right) == in_all && some.has(right) == in_some,
            "right {number}"
        );
    }
    check_values(&rt)?;
    check_acls(&rt, rt.alloc())?;
    Ok(())
}

/// Texts, and whether they are names.
const NAMES: [(&str, bool); 19] = [
    ("", false),
    ("a", true),
    ("abcdefghijklmnopqrstuvwxyz012345", true),
    ("abcdefghijklmnopqrstuvwxyz0123456", false),
    ("z", true),
    ("0", true),
    ("9", true),
    ("-", true),
    ("A", false),
    ("Z", false),
    ("_", false),
    (".", false),
    ("`", false),
    ("{", false),
    ("/", false),
    (":", false),
    ("home.", false),
    ("home", true),
    ("a-", true),
];

/// Two names, the lower one first.
const NAMES_IN_ORDER: [(&str, &str); 7] = [
    ("-", "0"),
    ("0", "9"),
    ("9", "a"),
    ("a", "a-"),
    ("a-", "a0"),
    ("a0", "ab"),
    ("ab", "b"),
];

/// Whether a name has these bytes, and its copy too.
fn stays(kept: &Name, text: &[u8]) -> Result<bool, Fail> {
    let copy = kept.clone()?;
    Ok(kept.as_slice() == text && copy == *kept && copy.as_slice() == text)
}

fn is_before(low: &Name, high: &Name) -> bool {
    let is_less = low < high && low != high && low.cmp(high) == Ordering::Less;
    is_less && high.cmp(low) == Ordering::Greater && low.cmp(low) == Ordering::Equal
}

#[test]
fn names_have_1_to_32_bytes_and_are_ordered_by_them(rt: HostRuntime) -> Result<(), Fail> {
    for (text, is_name) in NAMES {
        match Name::new(text.as_bytes()) {
            Some(kept) => assert!(rt; is_name && stays(&kept, text.as_bytes())?, "{text}"),
            None => assert!(rt; !is_name, "{text}"),
        }
    }
    for (low, high) in NAMES_IN_ORDER {
        assert!(rt; is_before(&name(low)?, &name(high)?), "{low} before {high}");
    }
    Ok(())
}
