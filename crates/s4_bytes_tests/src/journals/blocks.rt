//! What no block holds, and the greatest that one holds.

use crate::journals::example::{CALLS, header_sum, held};
use crate::spelled::limits::{data_of, object, write_of};
use s4_codec::WriteError;
use s4_journal::{Batch, Calls, Writer};
use s4_types::{Caller, Grant, Moment, Record, Reply, Request, WireVersion};
use std::alloc::Global;
use std::test::Fail;

/// A request at moment 8, and its reply.
pub enum Made {
    /// A Write of so many bytes that was done.
    Write(usize),
    /// A Read that was told so many bytes.
    Read(usize),
    /// One that was told a byte by the grant that no reply shows.
    Owned,
}

/// Records by a version, each so often; how long their block is, or why there is none; and how the first
/// record is spelled, in hexadecimal digits, where another program made it (docs/JOURNAL.md).
struct Row(
    WireVersion,
    &'static [Made],
    usize,
    Result<usize, WriteError>,
    &'static str,
);

const TOO_BIG: Result<usize, WriteError> = Err(WriteError::TooBig);

const ROWS: [Row; 10] = [
    // A reply that is never told has no spelling, and neither has one of more than a frame of its
    // caller's version.
    Row(WireVersion::One, &[Made::Owned], 1, TOO_BIG, ""),
    Row(WireVersion::One, &[Made::Read(8189)], 1, TOO_BIG, ""),
    Row(
        WireVersion::One,
        &[Made::Read(8188)],
        1,
        Ok(44 + 47 + 8188),
        "",
    ),
    Row(WireVersion::Two, &[Made::Read(131067)], 1, TOO_BIG, ""),
    Row(
        WireVersion::Two,
        &[Made::Read(131066)],
        1,
        Ok(44 + 49 + 131066),
        "",
    ),
    // Records of 65536 bytes, which were written and read by version 2.
    Row(
        WireVersion::Two,
        &[Made::Write(65536), Made::Read(65536)],
        1,
        Ok(44 + 43 + 65536 + 49 + 65536),
        "",
    ),
    // Of data there is the length in two bytes by version 1, and in four by version 2.
    Row(
        WireVersion::Two,
        &[Made::Write(1)],
        1,
        Ok(44 + 44),
        "0000000000000008000000070000000102000000120400000007000000010000000000000001610000000100",
    ),
    Row(
        WireVersion::One,
        &[Made::Write(1)],
        1,
        Ok(44 + 42),
        "000000000000000800000007000000010100000010040000000700000001000000000001610000000100",
    ),
    // A record of such a read has 4143 bytes, so that a block holds 253 and no more.
    Row(WireVersion::One, &[Made::Read(4096)], 254, TOO_BIG, ""),
    Row(
        WireVersion::One,
        &[Made::Read(4096)],
        253,
        Ok(44 + 253 * 4143),
        "",
    ),
];

/// A record of principal 7, as client 1.
pub fn record_of(alloc: Global, version: WireVersion, made: &Made) -> Result<Record, Fail> {
    let object = object()?;
    let read = Request::Read {
        object,
        offset: 0,
        length: 65536,
        at: None,
    };
    let (request, reply) = match made {
        Made::Write(count) => (write_of(alloc, *count)?, Reply::Done),
        Made::Read(count) => (read, data_of(alloc, Grant::Admin, *count)?),
        Made::Owned => (read, data_of(alloc, Grant::Owner, 1)?),
    };
    Ok(Record {
        moment: Moment::new(8),
        caller: Caller {
            who: object.purse.creator,
            client: 1,
            version,
        },
        request,
        reply,
    })
}

fn batch_of(alloc: Global, row: &Row) -> Result<Batch, Fail> {
    let mut records = Vec::new(alloc);
    for _ in 0..row.2 {
        for one in row.1 {
            records.push(record_of(alloc, row.0, one)?)?;
        }
    }
    Ok(Batch::new(0, records))
}

/// Whether a block holds just this batch, and its first record is spelled so.
fn holds(alloc: Global, block: &[u8], batch: &Batch, spelled: &str) -> Result<bool, Fail> {
    let (read, _) = held::<Batch>(alloc, header_sum(alloc)?, block)?;
    let is_read = matches!(read.as_slice(), [one] if one.records() == batch.records());
    let entry = block.get(12..).ok_or("an entry")?;
    Ok(is_read && entry.starts_with(&hex::decode(alloc, spelled)?))
}

/// Whether the example's block of calls is what this writer makes of them next.
fn calls_are_next(alloc: Global, writer: &mut Writer) -> Result<bool, Fail> {
    let block = hex::decode(alloc, CALLS)?;
    let (calls, _) = held::<Calls>(alloc, header_sum(alloc)?, &block)?;
    let one = calls.first().ok_or("a block")?;
    Ok(writer.block(alloc, one)? == block)
}

/// How long the block of a row is. One that is made is read back. One that is refused changes nothing
/// for the next one.
fn length_of(alloc: Global, row: &Row) -> Result<Result<usize, WriteError>, Fail> {
    let batch = batch_of(alloc, row)?;
    let mut writer = Writer::new(header_sum(alloc)?);
    match writer.block(alloc, &batch) {
        Ok(block) => {
            if !holds(alloc, &block, &batch, row.4)? {
                return Err("another block".into());
            }
            Ok(Ok(block.len()))
        }
        Err(error) => {
            if !calls_are_next(alloc, &mut writer)? {
                return Err("another next block".into());
            }
            Ok(Err(error))
        }
    }
}

#[test]
fn blocks_hold_what_their_rows_tell(rt: HostRuntime) -> Result<(), Fail> {
    for row in &ROWS {
        let length = length_of(rt.alloc(), row)?;
        assert!(rt; length == row.3, "{length:?}");
    }
    Ok(())
}
