//! Giving a user rights.

ghost use Rattle.std.specs.Prelude.{◌≡◌, ◌<◌, length, ◌++◌, ◌∷◌, [], Ok, IfOk};
ghost use Rattle.s4_types.specs.declared.acl.AclEntry.{AclEntry};
ghost use Rattle.s4_types.specs.Acl.{IsAcl, names as has_entry, acl_with, without_entry, replaced};
ghost use Rattle.s4_types.specs.Answer.{settable as allowed};

use s4_types::{Acl, AclEntry, NoMemory, Refusal, Rights, User};
use std::alloc::Global;

/// Whether the user can be given these rights. Takes no memory.
///
/// `NoEntry` where there is no entry to take away, `AclFull` where there is no room for a new one.
pub fn settable(acl: &[AclEntry], user: User, rights: Rights) -> Result<(), Refusal>
    ensures { result ≡ allowed user rights acl.now }
{
    if names(acl, user) {
        Ok(())
    } else if rights.is_empty() {
        Err(Refusal::NoEntry)
    } else if acl.len() >= Acl::LIMIT {
        Err(Refusal::AclFull)
    } else {
        Ok(())
    }
}

/// The ACL once the user has these rights: its entry keeps its index, and a new one comes
/// behind all others. No rights take the entry away, and those behind it move up. `NoMemory` where
/// there is none for it.
pub fn set(alloc: Global, acl: &[AclEntry], user: User, rights: Rights) -> Result<Acl, NoMemory>
    requires is_acl { IsAcl acl.now }
    requires settable { allowed user rights acl.now ≡ Ok tt }
    ensures { IfOk result (λ new. new ≡ acl_with user rights acl.now) }
{
    if rights.is_empty() {
        return without(alloc, acl, user);
    }
    let entry = AclEntry { who: user, rights };
    if names(acl, user) {
        replacing(alloc, acl, &entry)
    } else {
        adding(alloc, acl, entry)
    }
}

// Whether some entry is the user's.
fn names(acl: &[AclEntry], user: User) -> bool
    ensures { result ≡ has_entry user acl.now }
{
    acl.iter().any(|entry| entry.who == user)
}

// The ACL, which has an entry, without that of the user.
fn without(alloc: Global, acl: &[AclEntry], user: User) -> Result<Acl, NoMemory>
    requires is_acl { IsAcl acl.now }
    requires some { 0 < length acl.now }
    ensures { IfOk result (λ new. new ≡ without_entry user acl.now) }
{
    let mut shorter = Acl::with_room(alloc, acl.len() - 1)?;
    for entry in acl {
        if entry.who != user {
            shorter.push(*entry)?;
        }
    }
    Ok(shorter)
}

// The ACL with the entry in the place of its user's older one.
fn replacing(alloc: Global, acl: &[AclEntry], new: &AclEntry) -> Result<Acl, NoMemory>
    requires is_acl { IsAcl acl.now }
    requires given { 0 < new.now.rights }
    ensures { IfOk result (λ changed. changed ≡ replaced new.now acl.now) }
{
    let mut changed = Acl::with_room(alloc, acl.len())?;
    for entry in acl {
        changed.push(if entry.who == new.who { *new } else { *entry })?;
    }
    Ok(changed)
}

// The ACL with the entry behind all others.
fn adding(alloc: Global, acl: &[AclEntry], new: AclEntry) -> Result<Acl, NoMemory>
    requires { IsAcl (acl.now ++ new ∷ []) }
    ensures { IfOk result (λ longer. longer ≡ acl.now ++ new ∷ []) }
{
    let mut longer = Acl::with_room(alloc, acl.len() + 1)?;
    for entry in acl {
        longer.push(*entry)?;
    }
    longer.push(new)?;
    Ok(longer)
}
