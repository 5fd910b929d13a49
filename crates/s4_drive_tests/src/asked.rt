//! Requests, replies and records, by the numbers and texts of rows.

use s4_types::{Bytes, Grant, Moment, ObjectId, Record, Refusal, Reply, Request};
use s4_values_for_tests::{caller, name, object};
use std::alloc::Global;
use std::test::Fail;

/// What is asked of an object, or of its purse.
#[derive(Drop)]
pub enum Asked {
    Create,
    Delete,
    /// So many bytes from an offset on, as they are or were at a moment.
    Read(u32, u32, Option<u64>),
    /// These bytes, from an offset on.
    Write(u32, &'static [u8]),
    /// The object's past between two moments.
    Flush(u64, u64),
    Bind(&'static str),
    Unbind(&'static str),
    Mount(&'static str, Option<u64>),
    /// The names of the purse's creator.
    List,
    SetBudget(u32),
    SetWindow(u64),
}

/// What is told.
#[derive(Drop)]
pub enum Told {
    /// The object was made.
    Made,
    Done,
    Refused(Refusal),
    /// The bytes, as they are read by the first entry of an ACL that is in force since 5.
    Data(&'static [u8]),
}

/// The moment of a record, who asks, the object by its purse and its serial, what is asked, and what
/// is told.
pub type Row = (u64, u32, (u32, u8), u16, Asked, Told);

pub fn request(alloc: Global, of: &ObjectId, asked: &Asked) -> Result<Request, Fail> {
    let object = *of;
    Ok(match *asked {
        Asked::Create => Request::Create {
            number: object.purse.number,
        },
        Asked::Delete => Request::Delete { object },
        Asked::Read(offset, length, at) => Request::Read {
            object,
            offset,
            length,
            at: at.map(Moment::new),
        },
        Asked::Write(offset, text) => Request::Write {
            object,
            offset,
            bytes: Bytes::from_slice(alloc, text)?,
        },
        Asked::Flush(from, to) => Request::FlushO {
            object,
            from: Moment::new(from),
            to: Moment::new(to),
        },
        Asked::Bind(text) => Request::PCreate {
            name: name(text)?,
            object,
        },
        _ => request_of_purse(of, asked)?,
    })
}

fn request_of_purse(of: &ObjectId, asked: &Asked) -> Result<Request, Fail> {
    let purse = of.purse;
    Ok(match *asked {
        Asked::Unbind(text) => Request::PDelete {
            purse,
            name: name(text)?,
        },
        Asked::Mount(text, at) => Request::PMount {
            purse,
            name: name(text)?,
            at: at.map(Moment::new),
        },
        Asked::List => Request::PList {
            range: purse.creator,
            after: None,
            at: None,
        },
        Asked::SetBudget(budget) => Request::SetBudget { purse, budget },
        Asked::SetWindow(ticks) => Request::SetWindow { ticks },
        _ => return Err(Fail::from("a request")),
    })
}

pub fn reply(alloc: Global, of: &ObjectId, told: &Told) -> Result<Reply, Fail> {
    Ok(match *told {
        Told::Made => Reply::Made(*of),
        Told::Done => Reply::Done,
        Told::Refused(refusal) => Reply::Refused(refusal),
        Told::Data(text) => Reply::Data {
            grant: Grant::Entry {
                index: 0,
                since: Moment::new(5),
            },
            bytes: Bytes::from_slice(alloc, text)?,
        },
    })
}

pub fn record(
    alloc: Global,
    (tick, who, purse_of, serial, asked, told): &Row,
) -> Result<Record, Fail> {
    let of = object(*purse_of, *serial)?;
    Ok(Record {
        moment: Moment::new(*tick),
        caller: caller(*who)?,
        request: request(alloc, &of, asked)?,
        reply: reply(alloc, &of, told)?,
    })
}
