//! What is asked and what is replied, as data.

use s4_passes::Asked;
use s4_types::{
    Bytes, Caller, Grant, Moment, ObjectId, Principal, Purse, PurseNo, Refusal, Reply, Request,
    Right, Serial, WireVersion,
};
use std::alloc::Global;

/// A request. Each object that it names is the first of its creator's purse 0.
#[derive(Clone, Copy)]
pub enum What {
    /// A new object in the caller's purse 0.
    Create,
    /// This text over the data of that principal's object, from its beginning on.
    Write(u32, &'static [u8]),
    /// At most so many bytes of that principal's object, now or at a moment.
    Read(u32, u32, Option<u64>),
    /// A window of so many ticks.
    SetWindow(u64),
    /// What began and ended between two moments is erased.
    Flush(u64, u64),
}

/// A reply.
#[derive(Clone, Copy)]
pub enum Told {
    /// The object of that principal's purse 0 which was made as the serial says.
    Made(u32, u16),
    Done,
    /// The text, which the object's creator reads by the first entry of the ACL that is in force since a
    /// moment.
    Data(&'static [u8], u64),
    /// The caller may not read it.
    Denied,
    /// It was erased.
    Flushed,
    /// The horizon is this.
    TooOld(u64),
}

pub fn caller(who: u32) -> Option<Caller> {
    let who = Principal::new(who)?;
    Some(Caller {
        who,
        client: 3,
        version: WireVersion::One,
    })
}

fn object(creator: u32, serial: u16) -> Option<ObjectId> {
    let creator = Principal::new(creator)?;
    let number = PurseNo::new(0)?;
    let serial = Serial::new(serial)?;
    Some(ObjectId {
        purse: Purse { creator, number },
        serial,
    })
}

/// The request. None where there is no memory for it, or it names none that there can be.
pub fn request(alloc: Global, what: &What) -> Option<Request> {
    match *what {
        What::Create => {
            let number = PurseNo::new(0)?;
            Some(Request::Create { number })
        }
        What::Write(creator, text) => {
            let object = object(creator, 1)?;
            let bytes = Bytes::from_slice(alloc, text).ok()?;
            Some(Request::Write {
                object,
                offset: 0,
                bytes,
            })
        }
        What::Read(creator, length, at) => {
            let object = object(creator, 1)?;
            Some(Request::Read {
                object,
                offset: 0,
                length,
                at: moment(at),
            })
        }
        What::SetWindow(ticks) => Some(Request::SetWindow { ticks }),
        What::Flush(from, to) => Some(Request::Flush {
            from: Moment::new(from),
            to: Moment::new(to),
        }),
    }
}

fn moment(at: Option<u64>) -> Option<Moment> {
    let tick = at?;
    Some(Moment::new(tick))
}

/// The reply. None where there is no memory for it, or it names none that there can be.
pub fn reply(alloc: Global, told: &Told) -> Option<Reply> {
    match *told {
        Told::Made(creator, serial) => {
            let object = object(creator, serial)?;
            Some(Reply::Made(object))
        }
        Told::Done => Some(Reply::Done),
        Told::Data(text, since) => {
            let bytes = Bytes::from_slice(alloc, text).ok()?;
            let since = Moment::new(since);
            Some(Reply::Data {
                grant: Grant::Entry { index: 0, since },
                bytes,
            })
        }
        Told::Denied => Some(Reply::Refused(Refusal::Denied(Right::Read))),
        Told::Flushed => Some(Reply::Refused(Refusal::Flushed)),
        Told::TooOld(tick) => {
            let horizon = Moment::new(tick);
            Some(Reply::Refused(Refusal::TooOld { horizon }))
        }
    }
}

/// What a principal asks whose clock shows this.
pub fn asked(alloc: Global, who: u32, tick: u64, what: &What) -> Option<Asked> {
    let caller = caller(who)?;
    let request = request(alloc, what)?;
    Some(Asked {
        caller,
        clock: Moment::new(tick),
        request,
    })
}
