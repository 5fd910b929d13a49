//! Names of objects: bound, bound no longer, and listed.

ghost use Rattle.std.specs.Prelude.{◌≡◌, ◌≤◌, false, take, length, nat_lt, IfOk, OnOk, OnErr, ◌++◌, ◌∷◌, []};
ghost use Rattle.s4_types.specs.declared.request.Request.TheVariants as request;
ghost use Rattle.s4_types.specs.Kinds.{is_refused};
ghost use Rattle.s4_types.specs.Play.{last_of};
ghost use Rattle.s4_tracks.specs.Swept.{IsFrom};
ghost use Rattle.s4_state.specs.Shown.{granted};
ghost use Rattle.s4_state.specs.Sound.{IsSound, IsNext};
ghost use Rattle.s4_state.specs.Told.{lines_told};
ghost use Rattle.s4_state.specs.Stands.{base_in, log_in, horizon_now, IsKept, StandsWith, StandsStill};

use crate::parts::Parts;
use s4_parts::{Page, Visible};
use s4_store::Store;
use s4_types::{
    After, Caller, Grant, Moment, Name, NoMemory, ObjectId, Principal, Purse, Record, Right,
    Version,
};

/// Carries out the PCreate that the record tells of.
pub fn bind<S: Store<Version>>(
    parts: &mut Parts<S>,
    added: &Record,
    name: &Name,
    object: &ObjectId,
) -> Result<(), NoMemory>
    requires kept { IsKept S.chains parts.old }
    requires asked { added.now.request ≡ request.PCreate name.now object.now }
    requires next { IsNext (base_in parts.old) parts.old.history.records added.now }
    requires granted { is_refused added.now.reply ≡ false }
    requires sound { IsSound (base_in parts.old) (parts.old.history.records ++ added.now ∷ []) }
    ensures ok { OnOk result (StandsWith S.chains parts.old parts.new added.now) }
    ensures err { OnErr result (StandsStill S.chains parts.old parts.new) }
    ensures history { parts.new.history ≡ parts.old.history }
    ensures start { parts.new.start ≡ parts.old.start }
{
    parts.store.reserve(1)?;
    let store = &mut parts.store;
    parts.partitions.reserve(store, &object.purse, name)?;
    parts.partitions.bind(store, added.moment, name, object);
    Ok(())
}

/// Carries out the PDelete that the record tells of. Takes no memory.
pub fn unbind<S: Store<Version>>(parts: &mut Parts<S>, added: &Record, purse: &Purse, name: &Name)
    requires kept { IsKept S.chains parts.old }
    requires asked { added.now.request ≡ request.PDelete purse.now name.now }
    requires next { IsNext (base_in parts.old) parts.old.history.records added.now }
    requires granted { is_refused added.now.reply ≡ false }
    requires sound { IsSound (base_in parts.old) (parts.old.history.records ++ added.now ∷ []) }
    ensures stands { StandsWith S.chains parts.old parts.new added.now }
    ensures history { parts.new.history ≡ parts.old.history }
    ensures start { parts.new.start ≡ parts.old.start }
{
    let store = &mut parts.store;
    parts.partitions.unbind(store, added.moment, purse, name);
}

/// The page of the names that the caller may mount.
pub fn page<S: Store<Version>>(
    parts: &Parts<S>,
    moment: Moment,
    caller: Caller,
    range: Principal,
    after: &Option<After>,
    at: &Option<Moment>,
) -> Result<Page, NoMemory>
    requires kept { IsKept S.chains parts.now }
    requires later { last_of parts.now.history.records ≤ moment }
    requires told { IsFrom (horizon_now (base_in parts.now) parts.now.history.records) at.now }
    ensures lines { IfOk result (λ page. page.lines
        ≡ take 64 (lines_told (log_in S.chains parts.now) moment caller range after.now at.now)) }
    ensures more { IfOk result (λ page. page.more
        ≡ nat_lt 64 (length (lines_told
        (log_in S.chains parts.now) moment caller range after.now at.now))) }
{
    let mountable = Mountable {
        parts,
        moment,
        caller,
        at: *at,
    };
    let table = &parts.partitions;
    table.list(&parts.store, range, after, at, &mountable)
}

// What the caller may mount at the moment, or at one in the past.
#[derive(Drop)]
struct Mountable<'a, S> {
    parts: &'a Parts<S>,
    moment: Moment,
    caller: Caller,
    at: Option<Moment>,
}

impl<S: Store<Version>> Visible for Mountable<'_, S> {
    ghost shown = { λ v o. granted
        (base_in v.parts.now) v.parts.now.history.records v.moment v.caller v.at o };

    ghost is_ready = { λ v. IsKept S.chains v.parts.now
        × (last_of v.parts.now.history.records ≤ v.moment)
        × IsFrom (horizon_now (base_in v.parts.now) v.parts.now.history.records) v.at };

    fn grant(&self, object: &ObjectId) -> Option<Grant> {
        self.parts
            .judge(self.caller, object, Right::Read, self.at)
            .ok()
    }
}
