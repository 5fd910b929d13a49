//! What a request makes past, and what that costs.

ghost use Rattle.std.specs.Prelude.{◌≡◌, ◌≤◌, ℕ, length, sum};
ghost use Rattle.s4_types.specs.Answer.{made_past};
ghost use Rattle.s4_types.specs.Play.{last_of};
ghost use Rattle.s4_types.specs.Spending.{binding_cost as cost_of_binding};
ghost use Rattle.s4_types.specs.Log.{base_of};
ghost use Rattle.s4_drive.specs.Stands.{ArePositive, costs_of};

use s4_state::State;
use s4_store::Store;
use s4_types::{Name, Request, Version};

/// What the values and the binding cost that a request makes past, in bytes.
#[derive(Clone, Copy)]
pub enum Past {
    /// It makes nothing past.
    Nothing,
    /// One value of a track, or one binding.
    One(u32),
    /// The three current values of an object.
    Object {
        data: u32,
        attributes: u32,
        acl: u32,
    },
}

impl Past {
    /// What the request makes past, where it is carried out.
    pub fn of<S: Store<Version>>(state: &State<S>, request: &Request) -> Past
        ensures value { (t : ℕ) → last_of state.now.history ≤ t
            → costs_of result ≡ made_past (base_of state.now) state.now.history t request.now }
        ensures small { sum (costs_of result) ≤ 66240 }
        ensures positive { ArePositive (costs_of result) }
    {
        match request {
            Request::Delete { object } => Past::Object {
                data: state.data_cost(object),
                attributes: state.attributes_cost(object),
                acl: state.acl_cost(object),
            },
            Request::Write { object, .. }
            | Request::Append { object, .. }
            | Request::Truncate { object, .. } => Past::One(state.data_cost(object)),
            Request::SetAttr { object, .. } => Past::One(state.attributes_cost(object)),
            Request::SetAcl { object, .. } => Past::One(state.acl_cost(object)),
            Request::PDelete { name, .. } => Past::One(binding_cost(name)),
            _ => Past::Nothing,
        }
    }

    /// How many values or bindings these are.
    pub fn count(self) -> usize
        ensures { result ≡ length (costs_of self) }
    {
        match self {
            Past::Nothing => 0,
            Past::One(_) => 1,
            Past::Object { .. } => 3,
        }
    }

    /// The sum of the costs: the request's charge, in bytes.
    pub fn charge(self) -> u32
        requires { sum (costs_of self) ≤ 66240 }
        ensures { result ≡ sum (costs_of self) }
    {
        match self {
            Past::Nothing => 0,
            Past::One(cost) => cost,
            Past::Object {
                data,
                attributes,
                acl,
            } => data + attributes + acl,
        }
    }
}

// What a binding of the name costs once it is past.
fn binding_cost(name: &Name) -> u32
    ensures value { result ≡ cost_of_binding name.now }
    ensures small { result ≤ 96 }
{
    64 + name.as_slice().len() as u32
}
