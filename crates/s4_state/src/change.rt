//! One value in the place of another.

ghost use Rattle.std.specs.Prelude.{◌≡◌, true, OnOk, OnErr, ◌++◌, ◌∷◌, []};
ghost use Rattle.s4_types.specs.Versions.{lives_at};
ghost use Rattle.s4_tracks.specs.Chain.{IsSmall};
ghost use Rattle.s4_state.specs.Sound.{IsSound, IsNext};
ghost use Rattle.s4_state.specs.Stands.{base_in, IsKept, PutsOn, StandsWith, StandsStill};

use crate::parts::Parts;
use s4_objects::Which;
use s4_store::Store;
use s4_types::{Item, NoMemory, ObjectId, Record, Version};

/// Puts the value on the object's track that the record puts there.
pub fn put<S: Store<Version>>(
    parts: &mut Parts<S>,
    added: &Record,
    object: &ObjectId,
    which: Which,
    item: Item,
) -> Result<(), NoMemory>
    requires kept { IsKept S.chains parts.old }
    requires next { IsNext (base_in parts.old) parts.old.history.records added.now }
    requires lives { lives_at (base_in parts.old) added.now.moment object.now
        parts.old.history.records ≡ true }
    requires small { IsSmall item }
    requires puts { PutsOn (base_in parts.old) parts.old.history.records
        added.now object.now which item }
    requires sound { IsSound (base_in parts.old) (parts.old.history.records ++ added.now ∷ []) }
    ensures ok { OnOk result (StandsWith S.chains parts.old parts.new added.now) }
    ensures err { OnErr result (StandsStill S.chains parts.old parts.new) }
    ensures history { parts.new.history ≡ parts.old.history }
    ensures start { parts.new.start ≡ parts.old.start }
{
    parts.store.reserve(1)?;
    parts.objects.reserve(1)?;
    let store = &mut parts.store;
    parts.objects.put(store, added.moment, object, which, item);
    Ok(())
}
