//! Who may log in.

ghost use Rattle.std.specs.Prelude.{◌≡◌, IfOk, nat_eq};
ghost use Rattle.std.specs.Cmp.Lexicographic.{pointwise};
ghost use Rattle.s4_stream.specs.declared.logins.LoginFault.TheVariants as login_fault;

use crate::login_text::{login_in, split_at_byte};
use s4_types::{NoMemory, Principal};
use std::alloc::{AllocFailed, Global};
use std::collections::BTreeMap;
use std::marker::Model;

/// Why a text is no table of logins. Lines count from 1, and the first faulty line is the one told.
#[derive(Clone, Copy)]
pub enum LoginFault {
    /// The line of this number isn't a principal, a space and a secret.
    BadLine(usize),
    /// The line of this number names the principal of an earlier line.
    Doubled(usize),
    /// A growth was refused.
    NoMemory,
}

impl<T: Drop> From<AllocFailed<T>> for LoginFault {
    ghost from_gives = { λ _ error. error ≡ login_fault.NoMemory };

    fn from(_: AllocFailed<T>) -> LoginFault {
        LoginFault::NoMemory
    }
}

/// The principals that may log in, each with its secret.
pub struct Logins {
    secrets: BTreeMap<u32, [u8; 16]>,
}

// Written out, so that no crate above proves how secrets are dropped.
impl Drop for Logins {
    fn drop(self) {
        let Logins { secrets: _ } = self;
    }
}

impl Model for Logins {
    ghost use Rattle.s4_stream.specs.Logins as table;

    ghost Value = { table.Logins };

    ghost view = { λ l. l.secrets.entries };
}

impl Logins {
    ghost use Rattle.s4_stream.specs.Logins.{changed_in, is_login, keeps_login, missing_in};
    ghost use Rattle.s4_stream.specs.LoginText.{entered, login_of, table_in, IsTable};

    /// The table that a text spells, a login a line: the principal in decimal digits, without
    /// leading zeros, up to 4294967294; a space; and the 16 bytes of its secret as 32 hexadecimal
    /// digits, in either case. Each line ends with a line feed, which the last may lack, so an
    /// empty text is the table of nobody.
    ///
    /// The first line that is none is a `BadLine`, and the first that names the principal of an
    /// earlier one is `Doubled`, whichever comes first. `NoMemory` says nothing of the text.
    pub fn read(alloc: Global, text: &[u8]) -> Result<Logins, LoginFault>
        // The definition's table or fault, want of memory aside.
        ensures { IsTable result (table_in text.now) }
    {
        let mut logins = Logins {
            secrets: BTreeMap::new(alloc),
        };
        let mut left = text;
        let mut number = 0;
        while !left.is_empty() {
            number += 1;
            let (line, rest) = split_at_byte(left, b'\n');
            logins = logins.with_line(number, line)?;
            left = rest;
        }
        Ok(logins)
    }

    /// The table with the login that the line of this number spells.
    fn with_line(mut self, number: usize, line: &[u8]) -> Result<Logins, LoginFault>
        ensures { IsTable result (entered number self (login_of line.now)) }
    {
        let (who, secret) = login_in(line).ok_or(LoginFault::BadLine(number))?;
        if self.secrets.contains_key(&who) {
            return Err(LoginFault::Doubled(number));
        }
        self.secrets.insert(who, secret)?;
        Ok(self)
    }

    /// Whether the principal may log in with the secret.
    pub fn accepts(&self, who: &Principal, secret: &[u8]) -> bool
        ensures { result ≡ is_login self.now who.now secret.now }
    {
        match self.secrets.get(&who.number()) {
            Some(known) => is_same(known, secret),
            None => false,
        }
    }

    /// Whether the principal may log in by this table and by the newer one, with the same secret.
    pub fn keeps(&self, newer: &Logins, who: &Principal) -> bool
        ensures { result ≡ keeps_login self.now newer.now who.now }
    {
        match self.secrets.get(&who.number()) {
            Some(secret) => newer.accepts(who, secret),
            None => false,
        }
    }

    /// The principals of this table that aren't in the other one, by rising number.
    pub fn missing_in(&self, alloc: Global, other: &Logins) -> Result<Vec<u32>, NoMemory>
        ensures { IfOk result (λ missing. missing.items ≡ missing_in self.now other.now) }
    {
        let missing = self
            .secrets
            .keys()
            .copied()
            .filter(|who| !other.secrets.contains_key(who));
        Ok(missing.collect(alloc)?)
    }

    /// The principals of both tables that have another secret in the newer one, by rising number.
    pub fn changed_in(&self, alloc: Global, newer: &Logins) -> Result<Vec<u32>, NoMemory>
        ensures { IfOk result (λ changed. changed.items ≡ changed_in self.now newer.now) }
    {
        let changed = self.secrets.keys().copied().filter(|who| newer.secrets.contains_key(who)
            && !self.is_same_in(newer, *who));
        Ok(changed.collect(alloc)?)
    }

    /// Whether the principal of that number has the same secret in both tables.
    fn is_same_in(&self, newer: &Logins, who: u32) -> bool
        ensures { result ≡ keeps_login self.now newer.now who }
    {
        match (self.secrets.get(&who), newer.secrets.get(&who)) {
            (Some(secret), Some(other)) => is_same(secret, other),
            _ => false,
        }
    }
}

/// Whether both are the same. All bytes are looked at, so the time doesn't tell where they differ.
fn is_same(known: &[u8], secret: &[u8]) -> bool
    ensures { result ≡ pointwise nat_eq known.now secret.now }
{
    if known.len() != secret.len() {
        return false;
    }
    let mut same = true;
    for place in 0..known.len() {
        same &= known[place] == secret[place];
    }
    same
}
