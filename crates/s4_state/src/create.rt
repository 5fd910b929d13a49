//! Create: a new object in the caller's purse.

ghost use Rattle.std.specs.Prelude.{◌≡◌, false, OnOk, OnErr, ◌++◌, ◌∷◌, []};
ghost use Rattle.s4_types.specs.declared.request.Request.TheVariants as request;
ghost use Rattle.s4_types.specs.Kinds.{is_refused};
ghost use Rattle.s4_state.specs.Sound.{IsSound, IsNext};
ghost use Rattle.s4_state.specs.Stands.{base_in, IsKept, StandsWith, StandsStill};

use crate::parts::Parts;
use s4_store::Store;
use s4_types::{NoMemory, Purse, PurseNo, Record, Version};
use std::alloc::Global;

/// Makes the object that the record tells of.
pub fn apply<S: Store<Version>>(
    alloc: Global,
    parts: &mut Parts<S>,
    added: &Record,
    number: PurseNo,
) -> Result<(), NoMemory>
    requires kept { IsKept S.chains parts.old }
    requires asked { added.now.request ≡ request.Create number }
    requires next { IsNext (base_in parts.old) parts.old.history.records added.now }
    requires granted { is_refused added.now.reply ≡ false }
    requires sound { IsSound (base_in parts.old) (parts.old.history.records ++ added.now ∷ []) }
    ensures ok { OnOk result (StandsWith S.chains parts.old parts.new added.now) }
    ensures err { OnErr result (StandsStill S.chains parts.old parts.new) }
    ensures history { parts.new.history ≡ parts.old.history }
    ensures start { parts.new.start ≡ parts.old.start }
{
    let purse = Purse {
        creator: added.caller.who,
        number,
    };
    let object = parts.next_object(&purse).unwrap();
    parts.names.reserve(&purse)?;
    parts.store.reserve(3)?;
    let store = &mut parts.store;
    parts.objects.create(alloc, store, added.moment, &object)?;
    let drawn: Result<_, _> = parts.names.draw(&purse);
    drawn.unwrap();
    Ok(())
}
