//! Lists of steps without what a principal's strangers ask.

use crate::texts::{input, invalid, well};
use crate::ways::scripts::Script;
use s4_drive::strike;
use s4_script::{Line, RequestLine, parse_principal};
use s4_types::{Step, WireVersion};
use std::io;

/// Tells the requests that stay of the script on standard input once this principal's strangers are
/// struck out, a line for each.
pub fn tell(rt: &HostRuntime, who: &str) -> io::Result<()> {
    let alloc = rt.alloc();
    let who = well(parse_principal(who))?;
    let script = Script::read(alloc, &input(rt)?)?;
    let mut steps = Vec::new(alloc);
    for line in script.lines {
        if let Line::Step(step) = line {
            steps.push(step)?;
        }
    }
    for step in &strike(alloc, who, &steps)? {
        tell_step(rt, script.version, step)?;
    }
    Ok(())
}

/// Tells a request of a script whose first line gives that version; a sweep doesn't stay.
fn tell_step(rt: &HostRuntime, version: WireVersion, step: &Step) -> io::Result<()> {
    match step {
        Step::Request {
            moment,
            caller,
            request,
        } => {
            let (moment, caller) = (*moment, *caller);
            println!(rt;
                "{}",
                RequestLine {
                    version,
                    moment,
                    caller,
                    request
                }
            )
        }
        Step::Sweep { .. } => Err(invalid()),
    }
}
