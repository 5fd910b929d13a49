//! Values by their numbers, of which tests speak.
#![tactic(auto)]

use s4_types::{Caller, Name, ObjectId, Principal, Purse, PurseNo, Serial, WireVersion};
use std::test::Fail;

/// The principal of that number.
pub fn principal(number: u32) -> Result<Principal, Fail> {
    Ok(Principal::new(number).ok_or("a principal")?)
}

/// The purse of these numbers: that of its creator and its own.
pub fn purse((creator, number): (u32, u8)) -> Result<Purse, Fail> {
    Ok(Purse {
        creator: principal(creator)?,
        number: PurseNo::new(number).ok_or("a purse number")?,
    })
}

/// The object of that serial in the purse of these numbers.
pub fn object(purse_of: (u32, u8), serial: u16) -> Result<ObjectId, Fail> {
    Ok(ObjectId {
        purse: purse(purse_of)?,
        serial: Serial::new(serial).ok_or("a serial")?,
    })
}

/// The name that is spelled so.
pub fn name(text: &str) -> Result<Name, Fail> {
    Ok(Name::new(text.as_bytes()).ok_or("a name")?)
}

/// A principal as client 2, by version 1 of the wire.
pub fn caller(who: u32) -> Result<Caller, Fail> {
    Ok(Caller {
        who: principal(who)?,
        client: 2,
        version: WireVersion::One,
    })
}
