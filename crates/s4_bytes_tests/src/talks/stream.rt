//! The bytes of principal 7, which makes an object, writes to it and reads it, and other bodies.

use s4_session::Logins;
use std::alloc::Global;
use std::test::Fail;

/// The logins of the administrator and of 7.
pub const LOGINS: &[u8] =
    b"0 00000000000000000000000000000000\n7 000102030405060708090a0b0c0d0e0f\n";

pub const HELLO: &[u8] = b"\x00\x00\x00\x1a\x00\x01\x00\x00\x00\x07\x00\x00\x00\x01\x00\
      \x01\x02\x03\x04\x05\x06\x07\x08\x09\x0a\x0b\x0c\x0d\x0e\x0f";

/// The same by version 2 of the wire.
pub const HELLO_TWO: &[u8] = b"\x00\x00\x00\x1a\x00\x02\x00\x00\x00\x07\x00\x00\x00\x01\x00\
      \x01\x02\x03\x04\x05\x06\x07\x08\x09\x0a\x0b\x0c\x0d\x0e\x0f";

/// The same by a version that there isn't.
pub const HELLO_THREE: &[u8] = b"\x00\x00\x00\x1a\x00\x03\x00\x00\x00\x07\x00\x00\x00\x01\x00\
      \x01\x02\x03\x04\x05\x06\x07\x08\x09\x0a\x0b\x0c\x0d\x0e\x0f";

/// A Hello whose secret isn't that of 7.
pub const BAD_HELLO: &[u8] = b"\x00\x00\x00\x1a\x00\x01\x00\x00\x00\x07\x00\x00\x00\x01\x00\
      \x01\x02\x03\x04\x05\x06\x07\x08\x09\x0a\x0b\x0c\x0d\x0e\x00";

pub const CREATE: &[u8] = b"\x00\x00\x00\x02\x01\x00";

/// It writes `hello`.
pub const WRITE: &[u8] =
    b"\x00\x00\x00\x14\x04\x00\x00\x00\x07\x00\x00\x00\x01\x00\x00\x00\x00\x00\x05hello";

pub const READ: &[u8] =
    b"\x00\x00\x00\x12\x03\x00\x00\x00\x07\x00\x00\x00\x01\x00\x00\x00\x00\x00\x00\x00\x05\x00";

pub const WELCOME: &[u8] = b"\x00\x00\x00\x02\x10\x01";

pub const WELCOME_TWO: &[u8] = b"\x00\x00\x00\x02\x10\x02";

/// By version 2 it writes `hello`, and is told what stands there.
pub const WRITE_TWO: &[u8] =
    b"\x00\x00\x00\x16\x04\x00\x00\x00\x07\x00\x00\x00\x01\x00\x00\x00\x00\x00\x00\x00\x05hello";

pub const DATA_TWO: &[u8] =
    b"\x00\x00\x00\x14\x02\x01\x00\x00\x00\x00\x00\x00\x00\x00\x06\x00\x00\x00\x05hello";

/// It makes that object 65536 bytes long, and reads all of them.
pub const TRUNCATE_WHOLE: &[u8] =
    b"\x00\x00\x00\x0d\x06\x00\x00\x00\x07\x00\x00\x00\x01\x00\x01\x00\x00";

pub const READ_WHOLE: &[u8] =
    b"\x00\x00\x00\x12\x03\x00\x00\x00\x07\x00\x00\x00\x01\x00\x00\x00\x00\x00\x01\x00\x00\x00";

/// The answer to the first Create: the object 7.0.1.
pub const MADE: &[u8] = b"\x00\x00\x00\x09\x01\x00\x00\x00\x07\x00\x00\x00\x01";

pub const DONE: &[u8] = b"\x00\x00\x00\x01\x00";

/// The answer to the read, where the object was made at 6.
pub const DATA: &[u8] =
    b"\x00\x00\x00\x12\x02\x01\x00\x00\x00\x00\x00\x00\x00\x00\x06\x00\x05hello";

/// The refusal of a write behind which an object would have more data than it may have.
pub const TOO_LONG: &[u8] = b"\x00\x00\x00\x02\x08\x07";

/// The faults: a body that may not stand there, a login that is none, a length that no frame has.
pub const MALFORMED: &[u8] = b"\x00\x00\x00\x02\x11\x01";

pub const BAD_LOGIN: &[u8] = b"\x00\x00\x00\x02\x11\x02";

pub const BAD_LENGTH: &[u8] = b"\x00\x00\x00\x02\x11\x03";

/// All frames of the stream, and all that is sent for them.
pub const STREAM: &[&[u8]] = &[HELLO, CREATE, WRITE, READ];

pub const SENT: &[&[u8]] = &[WELCOME, MADE, DONE, DATA];

/// The frames of the stream, each with what is sent for it, and where that begins among the bytes that
/// are sent.
pub const EXCHANGES: [(&[u8], &[u8], usize); 4] = [
    (HELLO, WELCOME, 0),
    (CREATE, MADE, 6),
    (WRITE, DONE, 19),
    (READ, DATA, 24),
];

pub fn logins(alloc: Global) -> Result<Logins, Fail> {
    match Logins::read(alloc, LOGINS) {
        Ok(logins) => Ok(logins),
        Err(_) => Err(Fail::from("a table of logins")),
    }
}

/// The pieces, one behind the other.
pub fn joined(alloc: Global, pieces: &[&[u8]]) -> Result<Vec<u8>, Fail> {
    let mut all = Vec::new(alloc);
    for piece in pieces {
        all.extend_from_slice(piece)?;
    }
    Ok(all)
}
