//! The chains of an object, as they are opened and closed.

ghost use Rattle.std.specs.Prelude.{◌≡◌, ℕ, ◌+◌, ◌≤◌, IfOk, OnErr};
ghost use Rattle.s4_types.specs.Acl.{first_acl};
ghost use Rattle.s4_store.specs.Chains.{Chains, item_count};
ghost use Rattle.s4_objects.specs.Opening.{OpensTwo, Opens, Begins, IsHollow, without};

use crate::kept::Kept;
use s4_store::{Chain, Store};
use s4_tracks::Track;
use s4_types::{Acl, Bytes, Item, Moment, NoMemory, Version};

/// Opens a chain for each track of an object.
pub fn open<S: Store<Version>>(store: &mut S) -> Result<Kept, NoMemory>
    ensures ok { IfOk result (λ kept. Opens (S.chains store.old) (S.chains store.new) kept) }
    ensures err { OnErr result (S.chains store.new ≡ S.chains store.old) }
    ensures room { S.room store.new ≡ S.room store.old }
{
    let data = store.open()?;
    match open_two(store) {
        Ok((attributes, acl)) => Ok(Kept {
            data: Track { chain: data },
            attributes: Track { chain: attributes },
            acl: Track { chain: acl },
        }),
        Err(refused) => {
            store.close(data);
            Err(refused)
        }
    }
}

fn open_two<S: Store<Version>>(store: &mut S) -> Result<(Chain, Chain), NoMemory>
    ensures ok { IfOk result (λ two. OpensTwo (S.chains store.old)
        (S.chains store.new) two.0 two.1) }
    ensures err { OnErr result (S.chains store.new ≡ S.chains store.old) }
    ensures room { S.room store.new ≡ S.room store.old }
{
    let first = store.open()?;
    match store.open() {
        Ok(second) => Ok((first, second)),
        Err(refused) => {
            store.close(first);
            Err(refused)
        }
    }
}

/// Closes the chains of an object's tracks, which hold nothing. Takes no memory.
pub fn close<S: Store<Version>>(store: &mut S, kept: &Kept)
    requires { IsHollow (S.chains store.old) kept.now }
    ensures chains { S.chains store.new ≡ without kept.now (S.chains store.old) }
    ensures used { item_count (S.chains store.new) ≡ item_count (S.chains store.old) }
    ensures room { S.room store.new ≡ S.room store.old }
{
    store.close(kept.acl.chain);
    store.close(kept.attributes.chain);
    store.close(kept.data.chain);
}

/// Puts the first values on an object's tracks, in room that was reserved. Takes no memory.
pub fn begin<S: Store<Version>>(store: &mut S, kept: &Kept, moment: Moment, acl: Acl)
    requires opened { (before : Chains Version) × Opens before (S.chains store.old) kept.now }
    requires room { 3 ≤ S.room store.old }
    ensures begins { (before : Chains Version) (creator : ℕ)
        → Opens before (S.chains store.old) kept.now
        → acl ≡ first_acl creator → Begins before (S.chains store.new) kept.now moment creator }
    ensures used { item_count (S.chains store.new) ≡ item_count (S.chains store.old) + 3 }
    ensures room { S.room store.new + 3 ≡ S.room store.old }
{
    let data = Item::Data(Bytes::new());
    kept.data.begin(store, moment, data);
    let attributes = Item::Attr(Bytes::new());
    kept.attributes.begin(store, moment, attributes);
    kept.acl.begin(store, moment, Item::Acl(acl));
}
