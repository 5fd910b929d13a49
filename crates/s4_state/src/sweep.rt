//! Sweeps: values and bindings that have expired are freed.

ghost use Rattle.std.specs.Prelude.{◌≡◌, ◌+◌, ◌-◌, min};
ghost use Rattle.s4_types.specs.Counts.{made_count, ended_count};
ghost use Rattle.s4_state.specs.Stands.{base_in, size_in, horizon_now, IsKept, Stands};

use crate::parts::Parts;
use s4_store::Store;
use s4_types::{Moment, Version};

/// Frees at most so many values and bindings that have ended by the horizon, the values of objects
/// first, and tells how many. Takes no memory.
pub fn sweep<S: Store<Version>>(parts: &mut Parts<S>, horizon: Moment, most: u64) -> u64
    requires kept { IsKept S.chains parts.old }
    requires now { horizon ≡ horizon_now (base_in parts.old) parts.old.history.records }
    ensures freed { result ≡ min most (size_in S.chains parts.old
        - (made_count parts.old.history.records
        - ended_count horizon parts.old.history.records)) }
    ensures stands { Stands S.chains parts.new (size_in S.chains parts.old - result)
        parts.old.history.records }
    ensures history { parts.new.history ≡ parts.old.history }
    ensures start { parts.new.start ≡ parts.old.start }
{
    let store = &mut parts.store;
    let values = parts.objects.expire(store, horizon, most);
    let left = most - values;
    let bindings = parts.partitions.expire(store, horizon, left);
    values + bindings
}
