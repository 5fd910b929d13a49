//! Write: bytes over an object's data, from an offset on.

ghost use Rattle.std.specs.Prelude.{◌≡◌, false, OnOk, OnErr, ◌++◌, ◌∷◌, []};
ghost use Rattle.s4_types.specs.declared.request.Request.TheVariants as request;
ghost use Rattle.s4_types.specs.Kinds.{is_refused};
ghost use Rattle.s4_state.specs.Sound.{IsSound, IsNext};
ghost use Rattle.s4_state.specs.Stands.{base_in, IsKept, StandsWith, StandsStill};

use crate::change::put;
use crate::parts::Parts;
use s4_objects::Which;
use s4_store::Store;
use s4_types::{Bytes, Item, NoMemory, ObjectId, Record, Version};
use std::alloc::Global;

/// Carries out the Write that the record tells of.
pub fn apply<S: Store<Version>>(
    alloc: Global,
    parts: &mut Parts<S>,
    added: &Record,
    object: &ObjectId,
    offset: u32,
    bytes: &Bytes,
) -> Result<(), NoMemory>
    requires kept { IsKept S.chains parts.old }
    requires asked { added.now.request ≡ request.Write object.now offset bytes.now }
    requires next { IsNext (base_in parts.old) parts.old.history.records added.now }
    requires granted { is_refused added.now.reply ≡ false }
    requires sound { IsSound (base_in parts.old) (parts.old.history.records ++ added.now ∷ []) }
    ensures ok { OnOk result (StandsWith S.chains parts.old parts.new added.now) }
    ensures err { OnErr result (StandsStill S.chains parts.old parts.new) }
    ensures history { parts.new.history ≡ parts.old.history }
    ensures start { parts.new.start ≡ parts.old.start }
{
    let new = bytes.written_over(alloc, parts.current_data(object), offset)?;
    put(parts, added, object, Which::Data, Item::Data(new))
}
