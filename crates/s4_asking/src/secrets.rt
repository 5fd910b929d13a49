//! The secrets of principals, by a file of logins.

ghost use Rattle.std.specs.Prelude.{◌≡◌, true, IfSome};
ghost use Rattle.s4_stream.specs.Logins.{is_login};

use s4_logins::{LoginsFault, open_guarded};
use s4_script::{NumberedLines, read_file};
use s4_stream::{Logins, principal_in, secret_in, split_at_byte};
use s4_types::Principal;
use std::rt::Files;

/// The most bytes of the file.
const FILE_LIMIT: u32 = 268435456;

/// The principals of a file of logins, and their secrets.
pub struct Secrets {
    logins: Logins,
    text: Vec<u8>,
}

// Written out, so that no crate above proves how secrets are dropped.
impl Drop for Secrets {
    fn drop(self) {
        let Secrets { logins: _, text: _ } = self;
    }
}

impl Secrets {
    /// Those of the file with that path, which is a file of logins that nobody but its owner may write.
    pub fn open<R: Files + AllocGlobal>(rt: &R, path: &str) -> Result<Secrets, LoginsFault> {
        let logins = open_guarded(rt, path)?;
        let text = read_file(rt, path, FILE_LIMIT)?;
        Ok(Secrets { logins, text })
    }

    /// The secret with which the principal logs in.
    pub fn of(&self, who: Principal) -> Option<[u8; 16]>
        ensures { IfSome result (λ secret. is_login self.now.logins who secret ≡ true) }
    {
        for (_, line) in NumberedLines::of(&self.text) {
            let (first, rest) = split_at_byte(line, b' ');
            if principal_in(first) != Some(who.number()) {
                continue;
            }
            let secret = secret_in(rest)?;
            return if self.logins.accepts(&who, &secret) {
                Some(secret)
            } else {
                None
            };
        }
        None
    }
}
