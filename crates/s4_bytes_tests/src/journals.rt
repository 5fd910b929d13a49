//! Journals that are written, against bytes that another program made, on disks that are full at any byte;
//! and what no block holds. How journals are read is asked from outside (`tests/test_history_lists.py`).

mod blocks;
mod disks;
mod example;
mod lines;
mod scribes;

use crate::journals::example::{
    CALLS, FIRST, JOURNAL, TOLD, header, header_sum, held, link, record,
};
use s4_journal::{
    Calls, Entries, Entry, Heading, JournalFormat, Next, Sum, Writer, begin, open, open_heading,
};
use std::alloc::Global;
use std::test::Fail;

/// The heading of the example.
fn heading() -> Result<Heading, Fail> {
    Ok(Heading {
        header: header(),
        link: Some(link()?),
    })
}

#[test]
fn a_heading_is_read(rt: HostRuntime) -> Result<(), Fail> {
    let journal = hex::decode(rt.alloc(), JOURNAL)?;
    let Ok((read, _)) = open_heading(&journal) else {
        return Err("a heading".into());
    };
    assert!(rt; read == heading()?);
    Ok(())
}

#[test]
fn a_header_of_format_1_is_read(rt: HostRuntime) -> Result<(), Fail> {
    let (front, _) = begin(rt.alloc(), &header())?;
    let Ok((fields, _)) = open(&front) else {
        return Err("a header".into());
    };
    assert!(rt; fields == header());
    Ok(())
}

/// The sum of the journal's first block.
fn first_sum(alloc: Global, journal: &[u8]) -> Result<Sum, Fail> {
    let Ok((_, mut reader)) = open_heading(journal.get(..FIRST).ok_or("a block")?) else {
        return Err("a heading".into());
    };
    let next: Next<Entries> = reader.next_in(JournalFormat::Two, alloc)?;
    if !matches!(next, Next::Block(_)) || !reader.rest.is_empty() {
        return Err("no first block".into());
    }
    Ok(reader.sum)
}

#[test]
fn a_journal_that_was_cut_goes_on(rt: HostRuntime) -> Result<(), Fail> {
    let alloc = rt.alloc();
    let journal = hex::decode(alloc, JOURNAL)?;
    let second = Entries::new(0, vec![in alloc; Entry::of(record(1)?)]?);
    let mut writer = Writer::new(first_sum(alloc, &journal)?);
    let block = writer.block_in(JournalFormat::Two, alloc, &second)?;
    assert!(rt; journal.get(FIRST..) == Some(block.as_slice()));
    Ok(())
}

#[test]
fn calls_are_read(rt: HostRuntime) -> Result<(), Fail> {
    let alloc = rt.alloc();
    let block = hex::decode(alloc, CALLS)?;
    let (calls, _) = held::<Calls>(alloc, header_sum(alloc)?, &block)?;
    let told = format!(in alloc; "{calls:?}")?;
    assert!(rt; told.as_str() == TOLD, "{told}");
    Ok(())
}
