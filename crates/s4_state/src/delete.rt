//! Delete: an object ends.

ghost use Rattle.std.specs.Prelude.{◌≡◌, false, OnOk, OnErr, ◌++◌, ◌∷◌, []};
ghost use Rattle.s4_types.specs.declared.request.Request.TheVariants as request;
ghost use Rattle.s4_types.specs.Kinds.{is_refused};
ghost use Rattle.s4_state.specs.Sound.{IsSound, IsNext};
ghost use Rattle.s4_state.specs.Stands.{base_in, IsKept, StandsWith, StandsStill};

use crate::parts::Parts;
use s4_store::Store;
use s4_types::{NoMemory, ObjectId, Record, Version};

/// Carries out the Delete that the record tells of: all current values of the object end.
pub fn apply<S: Store<Version>>(
    parts: &mut Parts<S>,
    added: &Record,
    object: &ObjectId,
) -> Result<(), NoMemory>
    requires kept { IsKept S.chains parts.old }
    requires asked { added.now.request ≡ request.Delete object.now }
    requires next { IsNext (base_in parts.old) parts.old.history.records added.now }
    requires granted { is_refused added.now.reply ≡ false }
    requires sound { IsSound (base_in parts.old) (parts.old.history.records ++ added.now ∷ []) }
    ensures ok { OnOk result (StandsWith S.chains parts.old parts.new added.now) }
    ensures err { OnErr result (StandsStill S.chains parts.old parts.new) }
    ensures history { parts.new.history ≡ parts.old.history }
    ensures start { parts.new.start ≡ parts.old.start }
{
    parts.objects.reserve(3)?;
    let store = &mut parts.store;
    parts.objects.end_all(store, added.moment, object);
    Ok(())
}
