//! Looking into an ACL.

ghost use Rattle.std.specs.Prelude.{◌≡◌, slice_get};
ghost use Rattle.s4_types.specs.Acl.{IsAcl};
ghost use Rattle.s4_types.specs.Judgement.{entry_of as entry, asked_entry as asked};
ghost use Rattle.s4_acl.specs.Found.{shown_entry};

use s4_types::{AclEntry, Principal, Rights, User};

/// The index of the user's entry, and the rights that it gives.
pub fn entry_of(acl: &[AclEntry], user: User) -> Option<(u8, Rights)>
    requires { IsAcl acl.now }
    ensures { shown_entry result ≡ entry user acl.now }
{
    for (index, entry) in acl.iter().enumerate() {
        if entry.who == user {
            return Some((index as u8, entry.rights));
        }
    }
    None
}

/// The index and the rights of the entry that the principal is judged by: its own where there is
/// one, with whatever rights, or else that for everyone.
pub fn asked_entry(acl: &[AclEntry], who: Principal) -> Option<(u8, Rights)>
    requires { IsAcl acl.now }
    ensures { shown_entry result ≡ asked who acl.now }
{
    let mut of_everyone = None;
    for (index, entry) in acl.iter().enumerate() {
        if entry.who == User::from(who) {
            return Some((index as u8, entry.rights));
        }
        if entry.who == User::everyone() {
            of_everyone = Some((index as u8, entry.rights));
        }
    }
    of_everyone
}

/// The entry of that index, which counts from 0.
pub fn by_index(acl: &[AclEntry], index: u8) -> Option<AclEntry>
    ensures { result ≡ slice_get acl.now index }
{
    acl.get(index as usize).copied()
}
