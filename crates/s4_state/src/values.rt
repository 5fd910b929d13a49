//! What a version holds.

ghost use Rattle.std.specs.Prelude.{◌≡◌};
ghost use Rattle.std.specs.Option.{option_copied};
ghost use Rattle.s4_judge.specs.Held.{shown_held};
ghost use Rattle.s4_state.specs.Held.{bytes_in, held_in};
ghost use Rattle.s4_state.specs.Stored.{told_bytes};

use s4_judge::Held;
use s4_types::{Bytes, Item, Version};

/// What is told of a value of the data or of the attributes.
#[derive(Clone, Copy)]
pub enum Stored<'a> {
    /// There is no value.
    Nothing,
    /// Its bytes.
    Bytes(&'a Bytes),
    /// A flush erased it.
    Erased,
}

impl<'a> Stored<'a> {
    /// The bytes: none where there is no value, and None where it is erased.
    pub fn as_slice(self) -> Option<&'a [u8]>
        ensures { option_copied result ≡ told_bytes self.entry }
    {
        match self {
            Stored::Nothing => Some(&[]),
            Stored::Bytes(bytes) => Some(bytes.as_slice()),
            Stored::Erased => None,
        }
    }
}

/// What is told of a value of the data or of the attributes.
pub fn stored_of(version: Option<&Version>) -> Stored<'_>
    ensures { told_bytes result ≡ bytes_in (option_copied version.entry) }
{
    match version {
        None => Stored::Nothing,
        Some(
            Version {
                item: Some(Item::Data(bytes) | Item::Attr(bytes)),
                ..
            },
        ) => Stored::Bytes(bytes),
        Some(_) => Stored::Erased,
    }
}

/// The ACL of a value, and since when it is in force.
pub fn held_of(version: Option<&Version>) -> Option<Held<'_>>
    ensures { shown_held result ≡ held_in (option_copied version.entry) }
{
    match version {
        Some(
            Version {
                begin,
                item: Some(Item::Acl(acl)),
                ..
            },
        ) => Some(Held { acl, since: *begin }),
        _ => None,
    }
}
