//! What a call sends.

use crate::frames::{CALL, SECRET};
use s4_client::{CallFault, message};
use s4_stream::Hello;
use s4_types::{Bytes, Caller, ObjectId, Principal, Purse, PurseNo, Request, Serial, WireVersion};
use std::alloc::Global;
use std::test::Fail;

/// The Hello of principal 7 as client 1.
fn hello() -> Result<Hello, Fail> {
    let caller = Caller {
        who: Principal::new(7).ok_or("a principal")?,
        client: 1,
        version: WireVersion::One,
    };
    let secret = SECRET;
    Ok(Hello { caller, secret })
}

/// A Write of so many bytes to 7.0.1.
fn write_of(alloc: Global, count: usize) -> Result<Request, Fail> {
    let object = ObjectId {
        purse: Purse {
            creator: Principal::new(7).ok_or("a principal")?,
            number: PurseNo::new(0).ok_or("a purse number")?,
        },
        serial: Serial::new(1).ok_or("a serial")?,
    };
    Ok(Request::Write {
        object,
        offset: 0,
        bytes: Bytes::from_vec(Vec::from_elem(alloc, 0x61, count)?)?,
    })
}

/// How many bytes are sent for a Write of so many.
fn length_of(alloc: Global, hello: &Hello, count: usize) -> Result<Result<usize, CallFault>, Fail> {
    let request = write_of(alloc, count)?;
    Ok(message(alloc, hello, &request).map(|sent| sent.len()))
}

/// A body has 8192 bytes at most, and that of a Write 15 beside its data.
#[test]
fn a_message_is_a_hello_and_a_request_that_fits_a_frame(rt: HostRuntime) -> Result<(), Fail> {
    let alloc = rt.alloc();
    let hello = hello()?;
    let create = Request::Create {
        number: PurseNo::new(0).ok_or("a purse number")?,
    };
    let sent = message(alloc, &hello, &create)?;
    assert!(rt; sent.as_slice() == CALL);
    for (count, length) in [
        (8177, Ok(30 + 4 + 8192)),
        (8178, Err(CallFault::BadRequest)),
        (65536, Err(CallFault::BadRequest)),
    ] {
        assert_eq!(rt; length_of(alloc, &hello, count)?, length, "{count}");
    }
    Ok(())
}
