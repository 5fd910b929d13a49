//! Runs without what a principal's strangers ask.

ghost use Rattle.std.specs.Prelude.{◌≡◌, ◌++◌, ◌∷◌, [], ℕ, List, IfOk, OnOk, OnErr};
ghost use Rattle.s4_types.specs.declared.object.Purse.{Purse};
ghost use Rattle.s4_types.specs.declared.record.Step.{Step};
ghost use Rattle.s4_types.specs.Kinds.{is_about, is_wide, purse_of};
ghost use Rattle.s4_types.specs.Strike.{names_in, is_near, is_elsewhere, is_strangers, stays, strike as struck};
ghost use Rattle.s4_drive.specs.Near.{IsNearIn, has};

use s4_types::{Caller, NoMemory, Principal, Purse, Request, Step, User};
use std::alloc::Global;
use std::collections::BTreeSet;

/// The steps without sweeps and without the requests of the principal's strangers, in their order
/// (docs/MODEL.md, "Isolation"): what the drive's replies to the principal depend on. Which purses
/// are near the principal is told by all steps, also by later and by refused ones. `NoMemory` where
/// a growth was refused.
pub fn strike(alloc: Global, who: Principal, steps: &[Step]) -> Result<Vec<Step>, NoMemory>
    ensures struck { IfOk result (λ kept. kept.items ≡ struck who steps.now) }
{
    let near = Near::of(alloc, who, steps)?;
    let mut kept = Vec::new(alloc);
    for step in steps {
        if near.keeps(step) {
            kept.push(step.copy()?)?;
        }
    }
    Ok(kept)
}

/// A principal and the purses that are near it in the steps seen so far: its own, and those where
/// others asked to change its entry in an ACL, or that for everyone.
#[derive(Drop)]
pub struct Near {
    who: Principal,
    named: BTreeSet<Purse>,
}

impl Near {
    /// What is near the principal before any step. Takes no memory.
    pub fn new(alloc: Global, who: Principal) -> Near
        ensures { IsNearIn result who [] }
    {
        Near {
            who,
            named: BTreeSet::new(alloc),
        }
    }

    /// What is near the principal in all these steps.
    fn of(alloc: Global, who: Principal, steps: &[Step]) -> Result<Near, NoMemory>
        ensures { IfOk result (λ near. IsNearIn near who steps.now) }
    {
        let mut near = Near::new(alloc, who);
        for step in steps {
            near.add(step)?;
        }
        Ok(near)
    }

    /// Sees one step more. After an error it tells what it told before.
    pub fn add(&mut self, step: &Step) -> Result<(), NoMemory>
        ensures ok { OnOk result ((who : ℕ) (steps : List Step) → IsNearIn self.old who steps
            → IsNearIn self.new who (steps ++ step.now ∷ [])) }
        ensures err { OnErr result ((who : ℕ) (steps : List Step) → IsNearIn self.old who steps
            → IsNearIn self.new who steps) }
    {
        if let Some(purse) = purse_naming(self.who, step) {
            self.named.insert(purse)?;
        }
        Ok(())
    }

    /// Whether a step stays once sweeps and the requests of the principal's strangers are struck
    /// out of the steps seen so far.
    pub fn keeps(&self, step: &Step) -> bool
        ensures { (who : ℕ) (steps : List Step) → IsNearIn self.now who steps
            → result ≡ stays who (is_near who steps) step.now }
    {
        match step {
            Step::Sweep { .. } => false,
            Step::Request {
                caller,
                request,
                ..
            } => !self.is_strangers(caller, request),
        }
    }

    /// Whether it is a stranger's request: another's, that only reads, or is elsewhere.
    fn is_strangers(&self, caller: &Caller, request: &Request) -> bool
        ensures { result ≡ is_strangers self.now.who (has self.now) caller.now request.now }
    {
        caller.who != self.who && (request.only_reads() || self.is_elsewhere(caller, request))
    }

    /// Whether the request is neither about a near purse nor about all purses.
    fn is_elsewhere(&self, caller: &Caller, request: &Request) -> bool
        ensures { result ≡ is_elsewhere (has self.now) (purse_of caller.now request.now)
            (is_wide caller.now request.now) }
    {
        match request.purse(caller) {
            Some(purse) => !self.has(&purse),
            None => !request.is_wide(caller),
        }
    }

    /// Whether the purse is near.
    fn has(&self, purse: &Purse) -> bool
        ensures { result ≡ has self.now purse.now }
    {
        User::from(purse.creator).reaches(self.who) || self.named.contains(purse)
    }
}

/// The purse in which the step asks to change an entry that can serve the principal in an object's
/// ACL, where another asks that.
fn purse_naming(who: Principal, step: &Step) -> Option<Purse>
    ensures { (purse : Purse) → is_about purse result ≡ names_in who purse step.now }
{
    let Step::Request {
        caller,
        request,
        ..
    } = step
    else {
        return None;
    };
    let Request::SetAcl { object, user, .. } = request else {
        return None;
    };
    if caller.who != who && user.reaches(who) {
        Some(object.purse)
    } else {
        None
    }
}
