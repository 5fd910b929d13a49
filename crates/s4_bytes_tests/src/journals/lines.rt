//! Lines under sums that are written, against those that another program made. How they are read is asked
//! from outside (`tests/test_history_lines.py`).

use crate::journals::disks::{AMPLE, on_disk};
use crate::journals::example::{LINES, header_sum};
use s4_scribe::{Lines, ScribeFault};
use std::test::Fail;
use std::{fs, process};

/// On a disk that is full at first.
#[test]
fn lines_are_kept_in_turn(rt: HostRuntime) -> Result<(), Fail> {
    let alloc = rt.alloc();
    let path = format!(in alloc; "/tmp/s4d_lines_{}", process::id(rt.process()))?;
    let file = on_disk(&rt, path.as_str(), 10)?;
    let mut lines = Lines::new(alloc, file, header_sum(alloc)?, false);
    assert!(rt; lines.add(alloc, LINES[0].0) == Err(ScribeFault::Writing));
    lines.scroll.file.room = AMPLE;
    for (text, _) in &LINES {
        lines.add(alloc, text)?;
    }
    let wanted = format!(in alloc; "{}\n{}\n", LINES[0].1, LINES[1].1)?;
    let is_kept = fs::read(&rt, path.as_str())?.as_slice() == wanted.as_bytes();
    assert!(rt; is_kept && lines.scroll.end() == wanted.len() as u64);
    Ok(fs::remove_file(&rt, path.as_str())?)
}
