//! Many reads of one value by one pass. What they hold in the end is measured (`tools/lib/calls.py`): a
//! read leaves its record and its receipt, and no copy of the value.

use crate::calls::asked::asked;
use crate::calls::case::Case;
use crate::calls::serving::ask;
use s4_pool::{Asked, Front, Names, OpenGate, Pass};
use s4_types::{Moment, Reply};
use std::io;
use std::sync::Wait;

/// How often the value is read.
const READS: u64 = 2000;

/// Reads the first so many bytes of the value again and again. The reads are what is marked, all at
/// once.
pub fn read<N: Names, R: Wait>(
    case: &mut Case,
    rt: &R,
    front: &Front<OpenGate, N>,
    pass: &mut Pass<N>,
    length: u32,
) -> io::Result<()> {
    write(case, rt, front, pass)?;
    let line = format!(in case.alloc(); "0 7 read 7.0.1 0 {length}")?;
    let mut asked = asked(case.alloc(), line.as_str())?;
    case.begins();
    read_all(case, rt, front, pass, &mut asked);
    case.ends();
    Ok(())
}

/// Principal 7 makes an object, and writes a value of 4096 bytes to it.
fn write<N: Names, R: Wait>(
    case: &mut Case,
    rt: &R,
    front: &Front<OpenGate, N>,
    pass: &mut Pass<N>,
) -> io::Result<()> {
    let zeros = format!(in case.alloc(); "0 7 write 7.0.1 0 {:08192}", 0)?;
    for line in ["0 7 create 0", zeros.as_str()] {
        make(case, rt, front, pass, line)?;
    }
    Ok(())
}

fn make<N: Names, R: Wait>(
    case: &mut Case,
    rt: &R,
    front: &Front<OpenGate, N>,
    pass: &mut Pass<N>,
    line: &str,
) -> io::Result<()> {
    let asked = asked(case.alloc(), line)?;
    let reply = ask(rt, front, pass, &asked);
    case.check(!matches!(reply, Reply::Refused(_)), "there is no value");
    Ok(())
}

/// Makes all reads, at a moment more each.
fn read_all<N: Names, R: Wait>(
    case: &mut Case,
    rt: &R,
    front: &Front<OpenGate, N>,
    pass: &mut Pass<N>,
    asked: &mut Asked,
) {
    for clock in 0..READS {
        asked.clock = Moment::new(clock);
        let reply = ask(rt, front, pass, asked);
        case.check(matches!(reply, Reply::Data { .. }), "another reply");
    }
}
