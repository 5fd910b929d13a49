//! Scripts: a line that opens the drive, and then a line for each request.

ghost use Rattle.std.specs.Prelude.{◌≡◌, ◌+◌, ◌<◌, ◌≤◌, ◌↔◌, length, IsNone, IfSome, IfOk};
ghost use Rattle.s4_types.specs.Log.{fresh_log, horizon_in};
ghost use Rattle.s4_types.specs.Play.{last_of};
ghost use Rattle.s4_cuts.specs.CutLog.{cut_log, gone_of};
ghost use Rattle.s4_drive.specs.Step.{Steps};
ghost use Rattle.s4_script.specs.Readings.{line_in_text, opening_in_text, Gives};
ghost use Rattle.s4_run.specs.Opened.{Opens};

use crate::fault::RunFault;
use crate::text;
use s4_arena::Arena;
use s4_drive::Drive;
use s4_script::{
    CutText, Line, NumberedLines, Opening, ParseError, ReplyText, UsedText, parse_line,
    parse_opening,
};
use s4_types::{Caller, Moment, Reply, Request, Step, Version, WireVersion};
use std::alloc::Global;
use std::io::{Read, Write};

/// Runs a script on a fresh drive, and writes the replies. At a fault in a line, the replies of all
/// lines before it are written.
pub fn run_script<R: Read + Drop, W: Write>(
    alloc: Global,
    mut reader: R,
    writer: &mut W,
) -> Result<(), RunFault> {
    let text = text::read_text(alloc, &mut reader)?;
    let outcome = run_lines(alloc, &text, writer);
    if outcome != Err(RunFault::CannotWrite) {
        writer.flush().map_err(RunFault::writing)?;
    }
    outcome
}

fn run_lines<W: Write>(alloc: Global, text: &[u8], writer: &mut W) -> Result<(), RunFault> {
    let mut run = None;
    for (number, line) in NumberedLines::of(text) {
        match &mut run {
            None => run = Some(open_run(alloc, line, number)?),
            Some(run) => take_line(alloc, run, line, number, writer)?,
        }
    }
    Ok(())
}

/// The run that the first line opens.
fn open_run(alloc: Global, line: &[u8], number: usize) -> Result<ScriptRun, RunFault>
    ensures { IfOk result (λ run. Opens (opening_in_text line.now) run.drive run.version) }
{
    match parse_opening(alloc, line) {
        Ok(opening) => Ok(ScriptRun::open(alloc, &opening)),
        Err(why) => Err(RunFault::parsing(why, number)),
    }
}

/// Reads a further line, and does what it says.
fn take_line<W: Write>(
    alloc: Global,
    run: &mut ScriptRun,
    line: &[u8],
    number: usize,
    writer: &mut W,
) -> Result<(), RunFault> {
    let line = run
        .read(alloc, line)
        .map_err(|why| RunFault::parsing(why, number))?;
    execute_line(run, &line, number, writer)
}

/// Does what the line of that number says, and writes what it is told.
fn execute_line<W: Write>(
    run: &mut ScriptRun,
    line: &Line,
    number: usize,
    writer: &mut W,
) -> Result<(), RunFault> {
    match line {
        Line::Step(
            Step::Request {
                moment,
                caller,
                request,
            },
        ) => {
            let reply = run.reply(*moment, *caller, request);
            let reply = reply.ok_or(RunFault::MomentGoesBack(number))?;
            writeln!(writer, "{}", ReplyText(&reply)).map_err(RunFault::writing)
        }
        Line::Step(Step::Sweep { n }) => {
            run.drive.sweep(*n);
            Ok(())
        }
        Line::Used => writeln!(writer, "{}", UsedText(run.drive.used())).map_err(RunFault::writing),
        Line::Cut(moment) => {
            let went = run.cut(*moment).ok_or(RunFault::CutAboveHorizon(number))?;
            writeln!(writer, "{}", CutText(went)).map_err(RunFault::writing)
        }
    }
}

/// A script that is being run. A request that met want of memory leaves no record, so the newest
/// record may be older than the newest line.
#[derive(Drop)]
struct ScriptRun {
    drive: Drive<Arena<Version>>,
    /// The version of the wire that the first line gives, by which all other lines are read.
    version: WireVersion,
    /// The moment of the newest line, 0 before the first.
    moment: Moment,
    ghost in_order: { last_of drive.history ≤ moment },
}

impl ScriptRun {
    fn open(alloc: Global, opening: &Opening) -> ScriptRun
        ensures drive { result.drive ≡ fresh_log opening.now.window }
        ensures version { result.version ≡ opening.now.version }
        ensures moment { result.moment ≡ 0 }
    {
        ScriptRun {
            drive: Drive::new(alloc, Arena::new(alloc), opening.window),
            version: opening.version,
            moment: Moment::new(0),
        }
    }

    /// What a further line asks for.
    fn read(&self, alloc: Global, line: &[u8]) -> Result<Line, ParseError>
        ensures { Gives result (line_in_text self.now.version line.now) }
    {
        parse_line(self.version, alloc, line)
    }

    /// The reply to a request of a line, or none where its moment goes back.
    fn reply(&mut self, moment: Moment, caller: Caller, request: &Request) -> Option<Reply>
        ensures back { IsNone result ↔ (moment < self.old.moment) }
        ensures unchanged { IsNone result → self.new ≡ self.old }
        ensures reply { IfSome result
            (Steps self.old.drive self.new.drive moment caller request.now) }
        ensures moment { IfSome result (λ reply. self.new.moment ≡ moment) }
        ensures version { self.new.version ≡ self.old.version }
    {
        if moment < self.moment {
            return None;
        }
        self.moment = moment;
        Some(self.drive.step(moment, caller, request))
    }

    /// How many records went by a cut at the moment. None where the moment is above the horizon.
    fn cut(&mut self, moment: Moment) -> Option<u64>
        ensures above { IsNone result ↔ (horizon_in self.old.drive < moment) }
        ensures unchanged { IsNone result → self.new ≡ self.old }
        ensures cut { IfSome result (λ went. self.new.drive ≡ cut_log moment self.old.drive) }
        ensures went { IfSome result (λ went. length (gone_of self.old.drive) + went
            ≡ length (gone_of self.new.drive)) }
        ensures moment { self.new.moment ≡ self.old.moment }
        ensures version { self.new.version ≡ self.old.version }
    {
        if moment > self.drive.horizon() {
            return None;
        }
        Some(self.drive.cut(moment))
    }
}
