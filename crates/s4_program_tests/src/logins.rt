//! Logins and sessions.

use crate::fakes::Slow;
use s4_logins::read_logins;
use s4_run::RunFault;
use s4_stream::{Event, FeedError, Logins, Session, SessionFault};
use s4_types::Principal;
use std::alloc::Global;
use std::io::ErrorKind;
use std::test::Fail;

/// The login of 7.
const SEVEN: &[u8] = b"7 000102030405060708090a0b0c0d0e0f\n";

const SECRET: &[u8] = b"\x00\x01\x02\x03\x04\x05\x06\x07\x08\x09\x0a\x0b\x0c\x0d\x0e\x0f";

/// The Hello of 7.
const HELLO: &[u8] =
    b"\x00\x00\x00\x1a\x00\x01\x00\x00\x00\x07\x00\x00\x00\x01\x00\x01\x02\x03\x04\x05\x06\x07\x08\x09\x0a\x0b\x0c\x0d\x0e\x0f";

fn logins(alloc: Global) -> Result<Logins, Fail> {
    match Logins::read(alloc, SEVEN) {
        Ok(logins) => Ok(logins),
        Err(_) => Err(Fail::from("a table of logins")),
    }
}

#[test]
fn the_secret_of_a_login_is_accepted(rt: HostRuntime) -> Result<(), Fail> {
    let logins = logins(rt.alloc())?;
    let seven = Principal::new(7).ok_or("a principal")?;
    let nine = Principal::new(9).ok_or("a principal")?;
    assert!(rt; logins.accepts(&seven, SECRET));
    assert!(rt; !logins.accepts(&nine, SECRET));
    assert!(rt; !logins.accepts(&seven, &SECRET[1..]));
    Ok(())
}

#[test]
fn logins_that_fail_cannot_be_read(rt: HostRuntime) {
    let mut failing = Slow::failing(SEVEN, ErrorKind::BrokenPipe);
    let read = read_logins(rt.alloc(), &mut failing);
    assert_eq!(rt;
        read.err().map(RunFault::from),
        Some(RunFault::CannotReadLogins)
    );
}

#[test]
fn a_fault_closes_a_session(rt: HostRuntime) -> Result<(), Fail> {
    let alloc = rt.alloc();
    let logins = logins(alloc)?;
    let mut session = Session::open(alloc);
    let events = session.feed(&logins, b"\x00\x00\x00\x00");
    assert!(rt;
        matches!(&events, Ok(events) if matches!(events.as_slice(), [Event::Fault(SessionFault::FrameLength)]))
    );
    let later = session.feed(&logins, HELLO);
    assert!(rt; matches!(&later, Err(FeedError::Closed)));
    Ok(())
}
