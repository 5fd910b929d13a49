//! Whom an entry of an ACL is for.

ghost use Rattle.std.specs.Prelude.{◌≡◌};
ghost use Rattle.s4_types.specs.Judgement.{everyone, reaches};

use crate::principal::Principal;
use std::marker::Model;

/// Whom an entry of an ACL is for: one principal, or everyone, whose number is 4294967295. Everyone
/// is no caller, no creator and no range (docs/MODEL.md, "ACLs").
#[derive(Clone, Copy, Debug, PartialEq, Eq)]
pub struct User {
    number: u32,
}

impl Model for User {
    ghost use Rattle.std.specs.Prelude.{ℕ};

    ghost Value = { ℕ };

    ghost view = { λ u. u.number };

    ghost inverse = { λ n. record { number = n } };
}

impl User {
    /// The user of that number: everyone, where it is 4294967295, or else that principal.
    pub fn new(number: u32) -> User
        ensures { result ≡ number }
    {
        User { number }
    }

    /// Every principal.
    pub fn everyone() -> User
        ensures { result ≡ everyone }
    {
        User { number: u32::MAX }
    }

    /// The user's number.
    pub fn number(self) -> u32
        ensures { result ≡ self }
    {
        self.number
    }

    /// Whether an entry for this user can serve the principal: it is theirs, or everyone's.
    pub fn reaches(self, who: Principal) -> bool
        ensures { result ≡ reaches who self }
    {
        self.number == who.number() || self.number == u32::MAX
    }
}

/// The principal alone.
impl From<Principal> for User {
    ghost from_gives = { λ principal user. user ≡ principal };

    fn from(principal: Principal) -> User {
        User {
            number: principal.number(),
        }
    }
}
