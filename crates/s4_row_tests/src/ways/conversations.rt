//! Scripts as conversations: each request is asked in a connection of its own, and answered by a
//! front, whose cells may be cut behind it.

ghost use Rattle.std.specs.Prelude.{◌≡◌, ◌<◌, ◌≤◌};

use crate::texts::{invalid, well};
use crate::ways::scripts::Script;
use s4_client::{CallFault, call, message};
use s4_pool::{Blank, Front, Names, OpenGate, Pass};
use s4_script::{Line, ReplyText};
use s4_stream::{Hello, Logins};
use s4_talk::{Answer, talk};
use s4_types::{Caller, Moment, Record, Reply, Request, Step};
use std::alloc::Global;
use std::collections::BTreeSet;
use std::io;
use std::marker::Brand;
use std::sync::Wait;

/// The secret of all principals, and how a table of logins has it.
const SECRET: [u8; 16] = [0, 1, 2, 3, 4, 5, 6, 7, 8, 9, 10, 11, 12, 13, 14, 15];

const SECRET_TEXT: &str = "000102030405060708090a0b0c0d0e0f";

/// Answers by a front, with one pass, at the moment that it is told. Its calls are those of the pass.
#[derive(Drop)]
pub struct Desk<'a, N: Names, R> {
    rt: &'a R,
    front: &'a Front<OpenGate, N>,
    pass: Pass<N>,
    moment: Moment,
}

impl<'a, N: Names, R> Desk<'a, N, R> {
    pub fn new(rt: &'a R, front: &'a Front<OpenGate, N>, pass: Pass<N>) -> Desk<'a, N, R> {
        Desk {
            rt,
            front,
            pass,
            moment: Moment::new(0),
        }
    }
}

impl<N: Names, R: Wait> Answer for Desk<'_, N, R> {
    ghost use Rattle.s4_row_tests.specs.Desks.{calls_told};

    ghost calls = { λ desk. calls_told desk.pass.calls };

    fn answer(&mut self, caller: Caller, request: Request) -> Reply {
        let (rt, moment) = (self.rt, self.moment);
        self.front
            .serve(rt, &mut self.pass, caller, moment, &request)
    }
}

impl<N: Names, R: Wait> Desk<'_, N, R> {
    /// Keeps no call but the newest, and cuts all cells as far as their horizons let it.
    #[tactic(auto, using(crate::proofs::Receipts::as_many))]
    fn cut(&mut self) {
        let count = self.pass.receipts().len();
        self.pass.forget(count.saturating_sub(1));
        self.front.cut(self.rt, Moment::new(u64::MAX));
    }
}

/// Tells what is heard in connections that ask for a script's lines, one for each request, by a front of
/// so many cells, which is cut behind each request or never.
pub fn tell<R: Wait>(
    rt: &R,
    alloc: Global,
    script: &Script,
    cells: usize,
    cuts: bool,
    told: &mut String,
) -> io::Result<()> {
    if cells == 0 || cells > 16 {
        return Err(invalid());
    }
    let blank = Blank::new(alloc, cells)?;
    tell_by_front::<Brand, R>(rt, alloc, script, cells, cuts, told, blank)
}

/// Tells what is heard by the front of that ledger.
fn tell_by_front<N: Names, R: Wait>(
    rt: &R,
    alloc: Global,
    script: &Script,
    cells: usize,
    cuts: bool,
    told: &mut String,
    blank: Blank<Record>,
) -> io::Result<()>
    requires some { 0 < cells }
    requires few { cells ≤ 16 }
    requires ledger { blank.ledger ≡ N.ledger }
    requires names { (N.ledger.words ≡ cells) × (N.window ≡ script.now.window) × (N.passes ≡ 1) }
{
    let Script { window, lines, .. } = script;
    let logins = logins_of(alloc, lines)?;
    let (front, mut passes) = Front::<OpenGate, N>::open(
        alloc, *window, cells, 1, OpenGate, blank,
    )?;
    let mut desk = Desk::new(rt, &front, passes.remove(0));
    for line in lines {
        match line {
            Line::Step(
                Step::Request {
                    moment,
                    caller,
                    request,
                },
            ) => {
                desk.moment = *moment;
                let reply = heard(&mut desk, alloc, &logins, *caller, request)?;
                if cuts {
                    desk.cut();
                }
                writeln!(told, "{}", ReplyText(&reply))?;
            }
            Line::Step(Step::Sweep { n }) => {
                for cell in 0..cells {
                    front.sweep(rt, cell, *n);
                }
            }
            Line::Used | Line::Cut(_) => {}
        }
    }
    Ok(())
}

/// A table of the principals of the lines.
fn logins_of(alloc: Global, lines: &[Line]) -> io::Result<Logins> {
    let mut known = BTreeSet::new(alloc);
    let mut text = String::new(alloc);
    for line in lines {
        if let Line::Step(Step::Request { caller, .. }) = line {
            let who = caller.who.number();
            if known.insert(who)? {
                writeln!(text, "{who} {SECRET_TEXT}")?;
            }
        }
    }
    well(Logins::read(alloc, text.as_bytes()))
}

/// The reply that is heard in a connection whose caller asks this and no more. A request that no frame
/// spells is asked without one.
fn heard<N: Names, R: Wait>(
    desk: &mut Desk<'_, N, R>,
    alloc: Global,
    logins: &Logins,
    caller: Caller,
    request: &Request,
) -> io::Result<Reply> {
    let hello = Hello {
        caller,
        secret: SECRET,
    };
    let message = match message(alloc, &hello, request) {
        Ok(message) => message,
        Err(CallFault::BadRequest) => return Ok(desk.answer(caller, request.copy()?)),
        Err(_) => return Err(invalid()),
    };
    let mut said = message.as_slice();
    let mut written = Vec::new(alloc);
    talk(desk.rt, alloc, &mut said, &mut written, logins, desk);
    let mut heard = written.as_slice();
    let mut sent = Vec::new(alloc);
    let version = hello.caller.version;
    let reply = call(version, alloc, &mut heard, &mut sent, message.as_slice());
    well(reply)
}
