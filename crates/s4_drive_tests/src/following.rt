//! Which records a base can follow, told as the test runs.

ghost use Rattle.std.specs.Prelude.{◌≡◌, true, OnOk};
ghost use Rattle.s4_types.specs.Base as bases;
ghost use Rattle.s4_base.specs.Lists.{base_of_lists};
ghost use Rattle.s4_types.specs.Play.{InOrder};
ghost use Rattle.s4_laws.specs.Bases.{IsBase};
ghost use Rattle.s4_base.specs.Changes.{next_in, CanFollow, CanFollowAll};
ghost use Rattle.s4_drive_tests.specs.Plain.{IsPlainKind, IsPlain};

use s4_base::Base;
use s4_types::{Moment, Purse, Record, Reply, Request};
use std::alloc::Global;
use std::process::Abort;
use std::test::Fail;

// Whether the reply tells of the purse's next object.
fn tells_next(base: &Base, purse: &Purse, reply: &Reply) -> bool
    ensures { result ≡ true → reply.now ≡ Reply.Made (next_in (base_of_lists base.now) purse.now) }
{
    match reply {
        Reply::Made(object) => {
            object.purse == *purse
                && u32::from(object.serial.number()) == u32::from(base.drawn(purse)) + 1
        }
        _ => false,
    }
}

fn is_plain_kind(request: &Request) -> bool
    ensures { result ≡ true → IsPlainKind request.now }
{
    !matches!(request, Request::Create { .. } | Request::SetAcl { .. })
}

fn is_plain(added: &Record) -> bool
    ensures { result ≡ true → IsPlain added.now }
{
    added.reply.is_refused()
        || added.request.only_reads()
        || (added.reply == Reply::Done && is_plain_kind(&added.request))
}

// Whether the base can follow the record.
fn fits(base: &Base, added: &Record) -> bool
    ensures { result ≡ true → CanFollow (base_of_lists base.now) added.now }
{
    match &added.request {
        Request::Create { number } => {
            let purse = Purse {
                creator: added.caller.who,
                number: *number,
            };
            tells_next(base, &purse, &added.reply)
        }
        _ => is_plain(added),
    }
}

/// Whether each base can follow the records, as far as that is told without one.
pub fn are_plain(records: &[Record]) -> bool
    ensures { result ≡ true → (base : bases.Base) → CanFollowAll base records.now }
{
    for record in records {
        if !is_plain(record) {
            return false;
        }
    }
    true
}

/// Whether the records are in the order of their moments, from this moment on.
pub fn are_in_order(from: Moment, records: &[Record]) -> bool
    ensures { result ≡ true → InOrder from records.now }
{
    let mut last = from;
    for record in records {
        if record.moment < last {
            return false;
        }
        last = record.moment;
    }
    true
}

/// Brings the base on by one record.
pub fn follow(rt: &impl Abort, alloc: Global, base: &mut Base, added: &Record) -> Result<(), Fail>
    requires { IsBase (base_of_lists base.old) }
    ensures { OnOk result (IsBase (base_of_lists base.new)) }
{
    assert!(rt; fits(base, added));
    assert!(rt; base.cut() <= added.moment);
    assert!(rt; base.count() < u64::MAX);
    base.follow(alloc, added)?;
    Ok(())
}
