//! What belongs at a place of a line.

use std::fmt;

/// What belongs at a place of a line (docs/SCRIPTS.md).
#[derive(Clone, Copy)]
pub enum Place {
    /// The word `window`.
    Opens,
    /// The word `wire`.
    Wire,
    /// The version behind `wire`.
    Second,
    /// The first word of a further line of a script.
    Begins,
    /// The first word of a further line of arrivals.
    Arrives,
    Moment,
    Ticks,
    Principal,
    /// The principal of a script's line, which may speak the other version.
    Caller,
    Range,
    User,
    Verb,
    PurseNumber,
    Purse,
    Object,
    Name,
    Offset,
    Length,
    Skip,
    Budget,
    Rights,
    Index,
    Bytes,
    /// The word `at`.
    At,
    /// The word `after`, or `at`.
    After,
    /// How many are swept.
    Most,
    Connection,
}

impl Place {
    /// A word that is right there, and with it all behind it that has to be.
    pub fn sample(self) -> &'static str {
        match self {
            Place::Opens => "window",
            Place::Wire => "wire",
            Place::Second => "2",
            Place::Begins | Place::Arrives | Place::Moment | Place::Ticks => "0",
            Place::Principal | Place::Caller | Place::Range | Place::User => "0",
            Place::Verb => "create 0",
            Place::PurseNumber => "0",
            Place::Purse => "0.0",
            Place::Object => "0.0.1",
            Place::Name => "a",
            Place::Offset | Place::Length | Place::Skip | Place::Budget => "0",
            Place::Rights | Place::Index | Place::Most | Place::Connection => "0",
            Place::Bytes => "empty",
            Place::At => "at",
            Place::After => "after",
        }
    }

    /// What belongs there.
    fn wanted(self) -> &'static str {
        match self {
            Place::Moment => "a moment is a number from 0 to 18446744073709551615",
            Place::Ticks => "ticks are a number from 0 to 18446744073709551615",
            Place::Most => "how many is a number from 0 to 18446744073709551615",
            Place::Principal => "a principal is a number from 0 to 4294967294",
            Place::Range => "a range is a principal, a number from 0 to 4294967294",
            Place::User => "a user is a principal, a number from 0 to 4294967294, or 'everyone'",
            Place::PurseNumber => "the number of a purse is from 0 to 15",
            Place::Purse => "a purse is a principal and a number from 0 to 15, as 7.0",
            Place::Name => "a name has 1 to 32 characters of a to z, 0 to 9 and '-'",
            Place::Offset => "an offset is a number from 0 to 4294967295",
            Place::Length => "a length is a number from 0 to 4294967295",
            Place::Skip => "how many to skip is a number from 0 to 4294967295",
            Place::Budget => "a budget is a number from 0 to 4294967295",
            Place::Connection => "a connection is a number from 0 to 4294967295",
            Place::Rights => "rights are a sum from 0 to 31",
            Place::Index => "an index is a number from 0 to 255",
            Place::Bytes => "bytes are hexadecimal digits, an even number, or 'empty'",
            Place::At => "'at' and a moment may stand here, and nothing else",
            _ => self.wanted_of_lines(),
        }
    }

    /// What belongs there where lines begin, and of what has parts.
    fn wanted_of_lines(self) -> &'static str {
        match self {
            Place::Opens => "the first line is 'window' and its ticks",
            Place::Wire => "'wire 2' may stand here, and nothing else",
            Place::Second => "'2' belongs behind 'wire'",
            Place::Begins => {
                "a line begins with its moment, a number from 0 to 18446744073709551615, or is 'used', 'cut M' or 'sweep N'"
            }
            Place::Arrives => {
                "a line begins with its moment, a number from 0 to 18446744073709551615, or is 'sweep N'"
            }
            Place::Caller => {
                "a principal is a number from 0 to 4294967294, with '/1' or '/2' behind it where they speak the other version"
            }
            Place::Object => {
                "an object is a principal, the number of a purse from 0 to 15 and a serial from 1 to 65535, as 7.0.1"
            }
            Place::After => {
                "'after', the number of a purse and a name may stand here, or 'at' and a moment"
            }
            _ => {
                "a verb is create, delete, read, write, append, truncate, getattr, setattr, setacl, acl-user, acl-index, \
                 pcreate, pdelete, plist, pmount, flush, flusho, setwindow, setbudget or audit"
            }
        }
    }
}

impl fmt::Display for Place {
    fn fmt<W: fmt::Write>(&self, f: &mut fmt::Formatter<W>) -> fmt::Result {
        let wanted = self.wanted();
        write!(f, "{wanted}")
    }
}
