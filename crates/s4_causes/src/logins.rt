//! Why a line of logins isn't taken. Nothing of the line is told, since it may have a secret.

ghost use Rattle.std.specs.Prelude.{◌≡◌, IfOk, is_none, is_some};
ghost use Rattle.s4_stream.specs.LoginText.{login_of, table_in};
ghost use Rattle.s4_causes.specs.Logins.{TellsOf};

use s4_stream::{LoginFault, Logins, principal_in, secret_in, split_at_byte};
use s4_types::NoMemory;
use std::alloc::{AllocError, Global};
use std::fmt;

/// How many digits a secret has.
const DIGITS: usize = 32;

/// Why a line of logins isn't taken.
#[derive(Clone, Copy, PartialEq, Eq)]
pub enum LoginCause {
    /// It is empty.
    Empty,
    /// It begins as a comment.
    Comment,
    /// Its first word is no principal.
    Principal,
    /// There is nothing behind the principal.
    Lacks,
    /// More than one space stands in it.
    Spaces,
    /// A carriage return stands at its end.
    Return,
    /// The secret has more or fewer digits than a secret has.
    Length,
    /// The secret has another sign than a digit.
    Digit,
    /// Its principal has a line above it.
    Again,
}

/// Why a line is no login; none where it is one.
pub fn cause_of_login(line: &[u8]) -> Option<LoginCause>
    ensures { is_some result ≡ is_none (login_of line.now) }
{
    let (who, secret) = split_at_byte(line, b' ');
    if principal_in(who).is_none() {
        return Some(cause_of_principal(line));
    }
    if secret_in(secret).is_none() {
        return Some(cause_of_secret(line, secret));
    }
    None
}

/// Why a line is none whose first word is no principal.
fn cause_of_principal(line: &[u8]) -> LoginCause {
    match line {
        [] => LoginCause::Empty,
        [b'\r'] => LoginCause::Return,
        [b'#', ..] => LoginCause::Comment,
        _ => LoginCause::Principal,
    }
}

/// Why a line is none whose first word is a principal, and what stands behind it no secret.
fn cause_of_secret(line: &[u8], secret: &[u8]) -> LoginCause {
    match secret {
        [] if !line.contains(&b' ') => LoginCause::Lacks,
        [.., b'\r'] => LoginCause::Return,
        _ if secret.contains(&b' ') => LoginCause::Spaces,
        _ if secret.len() != DIGITS => LoginCause::Length,
        _ => LoginCause::Digit,
    }
}

/// The number of the first line of a text of logins that isn't taken, and why; none where it is a table.
pub fn cause_in_logins(alloc: Global, text: &[u8]) -> Result<Option<(usize, LoginCause)>, NoMemory>
    ensures { IfOk result (λ cause. TellsOf (table_in text.now) cause) }
{
    match Logins::read(alloc, text) {
        Ok(_) => Ok(None),
        Err(LoginFault::BadLine(number)) => Ok(Some((number, cause_at(text, number)))),
        Err(LoginFault::Doubled(number)) => Ok(Some((number, LoginCause::Again))),
        Err(LoginFault::NoMemory) => Err(AllocError),
    }
}

/// Why the line of that number isn't taken, which is no login.
fn cause_at(text: &[u8], number: usize) -> LoginCause {
    let mut left = text;
    for _ in 1..number {
        let (_, rest) = split_at_byte(left, b'\n');
        left = rest;
    }
    let (line, _) = split_at_byte(left, b'\n');
    cause_of_login(line).unwrap_or(LoginCause::Principal)
}

impl fmt::Display for LoginCause {
    fn fmt<W: fmt::Write>(&self, f: &mut fmt::Formatter<W>) -> fmt::Result {
        match self {
            LoginCause::Empty => write!(f, "it is empty"),
            LoginCause::Comment => write!(f, "there are no comments"),
            LoginCause::Principal => write!(f, "a principal is a number from 0 to 4294967294"),
            LoginCause::Lacks => write!(f, "a space and a secret belong behind the principal"),
            LoginCause::Spaces => write!(
                f,
                "one space stands between principal and secret, and no other"
            ),
            LoginCause::Return => write!(f, "a carriage return stands at its end"),
            LoginCause::Length => write!(f, "a secret has 32 digits"),
            LoginCause::Digit => write!(f, "the digits of a secret are hexadecimal"),
            LoginCause::Again => write!(f, "its principal has a line above it"),
        }
    }
}
