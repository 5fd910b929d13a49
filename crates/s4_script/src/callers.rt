//! Who asks in a line, and which version of the wire they speak.

ghost use Rattle.std.specs.Prelude.{◌≡◌, Some};
ghost use Rattle.s4_script.specs.Readings.{caller_in, caller_of, other_in, spelled};
ghost use Rattle.s4_script.specs.Requests.{caller_text};

use crate::error::ParseError;
use crate::words;
use s4_types::{Caller, Principal, WireVersion};
use std::fmt;

/// The caller that a word names, where the script's first line gives that version: they speak it, as
/// in `7`, unless the word says that they speak the other one, as in `7/2`. `Bad` where the word
/// names the version that the first line gives: a caller is written in one way.
#[tactic(auto, unfolding(crate::specs::Readings::caller_in))]
pub fn caller(version: WireVersion, word: &str) -> Result<Caller, ParseError>
    ensures { result ≡ spelled (caller_in version word.now) }
{
    match words::at_slash(word) {
        Some((who, number)) => Ok(speaking(
            other_version(version, number)?,
            words::principal(who)?,
        )),
        None => Ok(speaking(version, words::principal(word)?)),
    }
}

/// Client 0 of that principal, who speaks that version.
fn speaking(version: WireVersion, who: Principal) -> Caller
    ensures { result ≡ caller_of version who }
{
    Caller {
        who,
        client: 0,
        version,
    }
}

/// The version of that number, which isn't the one that the first line gives.
fn other_version(version: WireVersion, number: &str) -> Result<WireVersion, ParseError>
    ensures { result ≡ spelled (other_in version number.now) }
{
    match (version, number) {
        (WireVersion::One, "2") => Ok(WireVersion::Two),
        (WireVersion::Two, "1") => Ok(WireVersion::One),
        _ => Err(ParseError::Bad),
    }
}

/// A caller as the word of a line, in a script whose first line gives that version.
#[derive(Clone, Copy)]
pub struct CallerText {
    pub version: WireVersion,
    pub caller: Caller,
}

impl fmt::Display for CallerText {
    ghost output = { λ t. Some (caller_text t.version t.caller) };

    fn fmt<W: fmt::Write>(&self, f: &mut fmt::Formatter<W>) -> fmt::Result {
        let who = self.caller.who.number();
        match (self.version, self.caller.version) {
            (WireVersion::One, WireVersion::Two) => write!(f, "{who}/2"),
            (WireVersion::Two, WireVersion::One) => write!(f, "{who}/1"),
            _ => write!(f, "{who}"),
        }
    }
}
