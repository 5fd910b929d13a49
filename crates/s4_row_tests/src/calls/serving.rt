//! Calls of a front. A request that met want of memory leaves no record and no receipt.

use crate::calls::asked::{asked, is_no_memory, is_told};
use crate::calls::case::Case;
use crate::texts::invalid;
use s4_pool::{Asked, Front, Names, OpenGate, Pass, Receipt};
use s4_types::Reply;
use std::collections::VecDeque;
use std::io;
use std::sync::Wait;

/// A call: by which pass, from 0; the line that says what is asked, by whom, and what the clock shows;
/// and the line of the reply. And the receipt: the moment, the cell and the place.
#[derive(Clone, Copy)]
pub struct Call(
    pub usize,
    pub &'static str,
    pub &'static str,
    pub (u64, usize, u64),
);

pub fn serve_all<N: Names, R: Wait>(
    case: &mut Case,
    rt: &R,
    front: &Front<OpenGate, N>,
    passes: &mut [Pass<N>],
    calls: &[Call],
) -> io::Result<()> {
    for call in calls {
        match passes.get_mut(call.0) {
            Some(pass) => serve_one(case, rt, front, pass, call)?,
            None => return Err(invalid()),
        }
    }
    Ok(())
}

/// Makes a call, and makes it again where there was no memory.
pub fn serve_one<N: Names, R: Wait>(
    case: &mut Case,
    rt: &R,
    front: &Front<OpenGate, N>,
    pass: &mut Pass<N>,
    call: &Call,
) -> io::Result<()> {
    let asked = asked(case.alloc(), call.1)?;
    let before = pass.receipts().len();
    let reply = replied(case, rt, front, pass, &asked);
    let is_same = is_told(case.alloc(), &reply, call.2)?;
    case.check(is_same, "another reply");
    check_receipts(case, pass.receipts(), before, call)
}

/// That the receipt of a call stands behind so many others, and none behind it.
fn check_receipts(
    case: &mut Case,
    receipts: &VecDeque<Receipt>,
    before: usize,
    call: &Call,
) -> io::Result<()> {
    let is_one = receipts.len() == before.saturating_add(1);
    let is_kept = is_kept(case, receipts.get(before), call)?;
    case.check(is_one && is_kept, "another receipt");
    Ok(())
}

/// The reply to a request, which is made again where there was no memory.
fn replied<N: Names, R: Wait>(
    case: &mut Case,
    rt: &R,
    front: &Front<OpenGate, N>,
    pass: &mut Pass<N>,
    asked: &Asked,
) -> Reply {
    let before = pass.receipts().len();
    case.begins();
    let reply = ask(rt, front, pass, asked);
    case.ends();
    if !is_no_memory(&reply) {
        return reply;
    }
    case.refuse_by_reply();
    let is_same = pass.receipts().len() == before;
    case.check(is_same, "without memory there is a receipt");
    ask(rt, front, pass, asked)
}

/// The call that the case is about.
pub fn ask<N: Names, R: Wait>(
    rt: &R,
    front: &Front<OpenGate, N>,
    pass: &mut Pass<N>,
    asked: &Asked,
) -> Reply {
    front.serve(rt, pass, asked.caller, asked.clock, &asked.request)
}

/// Whether there is this receipt of a call.
fn is_kept(case: &Case, receipt: Option<&Receipt>, call: &Call) -> io::Result<bool> {
    match receipt {
        Some(it) => {
            let is_same = (it.moment.tick(), it.cell, it.place) == call.3;
            Ok(is_same && is_told(case.alloc(), &it.reply, call.2)?)
        }
        None => Ok(false),
    }
}
