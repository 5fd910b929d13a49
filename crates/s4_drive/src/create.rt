//! Create: a new object in the caller's purse.

ghost use Rattle.std.specs.Prelude.{◌≡◌};
ghost use Rattle.s4_types.specs.Answer.{created};
ghost use Rattle.s4_types.specs.Log.{base_of};

use s4_state::State;
use s4_store::Store;
use s4_types::{Purse, Refusal, Reply, Version};

/// The outcome of a Create in that purse.
pub fn outcome<S: Store<Version>>(state: &State<S>, purse: &Purse) -> Result<Reply, Refusal>
    ensures { result ≡ created (base_of state.now) state.now.history purse.now }
{
    match state.next_object(purse) {
        Some(object) => Ok(Reply::Made(object)),
        None => Err(Refusal::NamesSpent),
    }
}
