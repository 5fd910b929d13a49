//! A state without records. The calls on one with records are tried through the drive.

ghost use Rattle.std.specs.Prelude.{◌≤◌};
ghost use Rattle.s4_types.specs.Log.{horizon_in};
ghost use Rattle.s4_types.specs.Play.{last_of};
ghost use Rattle.s4_state.specs.Told.{IsTold};

use s4_state::State;
use s4_store::PlainStore;
use s4_types::{Moment, Refusal, Right, Version};
use s4_values_for_tests::{caller, name, object};
use std::process::Abort;
use std::test::Fail;

/// Object 7.0.1 was never made, and nothing was asked.
fn check_object(rt: &impl Abort, state: &State<PlainStore<Version>>) -> Result<(), Fail>
    requires { horizon_in state.now ≤ 0 }
{
    let (caller, object) = (caller(7)?, object((7, 0), 1)?);
    assert_eq!(rt; state.next_object(&object.purse), Some(object));
    assert!(rt; !state.has_name(&object));
    let judged = state.judge(caller, &object, Right::Write, None);
    assert_eq!(rt; judged.err(), Some(Refusal::NoObject));
    assert!(rt; state.history().is_empty());
    let page = state.audit_page(&caller, caller.who, 0, Moment::new(0))?;
    assert!(rt; page.lines.as_slice().is_empty() && !page.more);
    Ok(())
}

/// It has empty values, and no name is bound.
fn check_values(
    rt: &impl Abort,
    state: &State<PlainStore<Version>>,
    at: Option<Moment>,
) -> Result<(), Fail>
    requires told { IsTold state.now at }
    requires later { last_of state.now.history ≤ 5 }
{
    let object = object((7, 0), 1)?;
    let data = state.data(&object, at).as_slice().ok_or("data")?;
    let attributes = state.attributes(&object, at).as_slice();
    assert!(rt; data.is_empty() && attributes.ok_or("attributes")?.is_empty());
    assert!(rt; state.acl(&object, at).is_empty());
    let purse = object.purse;
    assert_eq!(rt; state.bound(&purse, &name("home")?, at), None);
    assert_eq!(rt; state.bound_count(&purse), 0);
    let caller = caller(7)?;
    let page = state.page(Moment::new(5), caller, caller.who, &None, &at)?;
    assert!(rt; page.lines.as_slice().is_empty() && !page.more);
    Ok(())
}

#[test]
fn a_fresh_state_has_no_object_and_no_names(rt: HostRuntime) -> Result<(), Fail> {
    let state = State::new(rt.alloc(), PlainStore::new(rt.alloc()), 100);
    check_object(&rt, &state)?;
    check_values(&rt, &state, Some(Moment::new(3)))?;
    check_values(&rt, &state, None)
}
