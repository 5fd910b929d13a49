//! Scripts without what a principal's strangers ask.

ghost use Rattle.std.specs.Prelude.{◌≡◌, ◌++◌, ◌∷◌, [], true, false, Some, IfOk, IfErr, IfSome, OnOk, Err};
ghost use Rattle.std.specs.Io.KnownBytes.{Appends};
ghost use Rattle.s4_drive.specs.Near.{IsNearIn};
ghost use Rattle.s4_script.specs.Lines.{lines};
ghost use Rattle.s4_run.specs.Struck.{is_before, line_text, lines_text, steps_of, struck_lines, texts_of, WritesStruck};
ghost use Rattle.s4_run.specs.declared.fault.RunFault.TheVariants as fault;

use crate::fault::RunFault;
use crate::text;
use s4_drive::Near;
use s4_script::{Line, NumberedLines, parse_line, parse_opening};
use s4_types::{Moment, NoMemory, Principal, Step, WireVersion};
use std::alloc::Global;
use std::io::{Read, Write};

/// Reads a whole script, and writes it without the requests of the principal's strangers: the line
/// of its window and the lines of the requests that stay, as they stood, each with a line feed.
/// Lines that sweep or ask what is held are left out (docs/SCRIPTS.md, "Striking out strangers").
/// Nothing is run, and nothing is written at a fault in a line.
pub fn run_strike<R: Read + Drop, W: Write>(
    alloc: Global,
    who: Principal,
    mut reader: R,
    writer: &mut W,
) -> Result<(), RunFault>
    ensures written { OnOk result (IfSome (R.remaining reader) (λ text.
        WritesStruck who (lines text) (W.contents writer.old) (W.contents writer.new))) }
{
    let text = text::read_text(alloc, &mut reader)?;
    match Script::read(alloc, who, &text)? {
        Some(script) => script.write_struck(writer),
        None => Ok(()),
    }
}

/// A request of a script, and the line that it stands on.
#[derive(Drop)]
struct AskingLine<'a> {
    step: Step,
    line: &'a [u8],
}

/// A script that was read for a principal: the line of its window, and its requests, whose moments
/// never go down.
#[derive(Drop)]
struct Script<'a> {
    who: Principal,
    /// The version of the wire that the first line gives, by which all other lines are read.
    version: WireVersion,
    window: &'a [u8],
    requests: Vec<AskingLine<'a>>,
    near: Near,
    /// The moment of the newest request, 0 before the first.
    newest: Moment,
    ghost near_is: { IsNearIn near who (steps_of requests.items) },
}

impl<'a> Script<'a> {
    ghost use Rattle.std.specs.Option.{option_map};
    ghost use Rattle.s4_script.specs.Readings.{line_in_text};
    ghost use Rattle.s4_run.specs.Scripts.{Begins, ReadsScript};
    ghost use Rattle.s4_run.specs.Struck.{asked_by, asked_of};

    /// The script of a text, or none of an empty one.
    fn read(alloc: Global, who: Principal, text: &'a [u8]) -> Result<Option<Script<'a>>, RunFault>
        ensures { IfOk result (ReadsScript who (lines text.now)) }
    {
        let mut lines = NumberedLines::of(text);
        let Some((number, first)) = lines.next() else {
            return Ok(None);
        };
        let mut script = Script::begin(alloc, who, first, number)?;
        for (number, line) in lines {
            script.take(alloc, line, number)?;
        }
        Ok(Some(script))
    }

    /// The script that the first line, of that number, begins.
    fn begin(
        alloc: Global,
        who: Principal,
        first: &'a [u8],
        number: usize,
    ) -> Result<Script<'a>, RunFault>
        ensures { IfOk result (Begins who first.now) }
    {
        match parse_opening(alloc, first) {
            Ok(opening) => Ok(Script::open(alloc, who, opening.version, first)),
            Err(why) => Err(RunFault::parsing(why, number)),
        }
    }

    /// Takes a further line, of that number.
    fn take(&mut self, alloc: Global, line: &'a [u8], number: usize) -> Result<(), RunFault>
        ensures who { self.new.who ≡ self.old.who }
        ensures version { self.new.version ≡ self.old.version }
        ensures window { self.new.window.now ≡ self.old.window.now }
        ensures kept { OnOk result (option_map
            (λ told. asked_of self.old.requests.items ++ asked_by told line.now)
            (line_in_text self.old.version line.now) ≡ Some (asked_of self.new.requests.items)) }
    {
        match parse_line(self.version, alloc, line) {
            Ok(told) => self.add(told, line, number),
            Err(why) => Err(RunFault::parsing(why, number)),
        }
    }

    /// A script with that line of a window, and no requests yet. Takes no memory.
    fn open(alloc: Global, who: Principal, version: WireVersion, window: &'a [u8]) -> Script<'a>
        ensures who { result.who ≡ who }
        ensures version { result.version ≡ version }
        ensures window { result.window.now ≡ window.now }
        ensures requests { result.requests.items ≡ [] }
        ensures newest { result.newest ≡ 0 }
    {
        Script {
            who,
            version,
            window,
            requests: Vec::new(alloc),
            near: Near::new(alloc, who),
            newest: Moment::new(0),
        }
    }

    /// Takes the line of that number, where it makes a request, unless its moment goes back.
    fn add(&mut self, told: Line, line: &'a [u8], number: usize) -> Result<(), RunFault>
        ensures who { self.new.who ≡ self.old.who }
        ensures version { self.new.version ≡ self.old.version }
        ensures window { self.new.window.now ≡ self.old.window.now }
        ensures kept { OnOk result (asked_of self.new.requests.items
            ≡ asked_of self.old.requests.items ++ asked_by told line.now) }
        ensures back { is_before self.old.newest told ≡ true
            → result ≡ Err (fault.MomentGoesBack number) }
        ensures refused { is_before self.old.newest told ≡ false
            → IfErr result (λ why. why ≡ fault.NoMemory) }
    {
        let Line::Step(step) = told else {
            return Ok(());
        };
        let Step::Request { moment, .. } = &step else {
            return Ok(());
        };
        let moment = *moment;
        if moment < self.newest {
            return Err(RunFault::MomentGoesBack(number));
        }
        self.keep(step, line)?;
        self.newest = moment;
        Ok(())
    }

    /// Keeps a request and its line, and sees what it makes near.
    fn keep(&mut self, step: Step, line: &'a [u8]) -> Result<(), NoMemory>
        ensures steps { OnOk result
            (steps_of self.new.requests.items ≡ steps_of self.old.requests.items ++ step ∷ []) }
        ensures texts { OnOk result
            (texts_of self.new.requests.items ≡ texts_of self.old.requests.items ++ line.now ∷ []) }
        ensures asked { OnOk result (asked_of self.new.requests.items
            ≡ asked_of self.old.requests.items ++ (step, line.now) ∷ []) }
        ensures who { self.new.who ≡ self.old.who }
        ensures version { self.new.version ≡ self.old.version }
        ensures window { self.new.window.now ≡ self.old.window.now }
        ensures newest { self.new.newest ≡ self.old.newest }
    {
        self.requests.reserve(1)?;
        self.near.add(&step)?;
        self.requests.push_reserved(AskingLine { step, line });
        Ok(())
    }

    /// Writes the line of the window, and the lines of the requests that stay.
    fn write_struck<W: Write>(&self, writer: &mut W) -> Result<(), RunFault>
        ensures written { OnOk result (Appends (W.contents writer.old) (W.contents writer.new)
            (line_text self.now.window.now
            ++ lines_text (struck_lines self.now.who self.now.requests.items))) }
    {
        write_line(writer, self.window)?;
        for request in &self.requests {
            if self.near.keeps(&request.step) {
                write_line(writer, request.line)?;
            }
        }
        writer.flush().map_err(RunFault::writing)
    }
}

/// Writes the line, and a line feed.
fn write_line<W: Write>(writer: &mut W, line: &[u8]) -> Result<(), RunFault>
    ensures written { OnOk result
        (Appends (W.contents writer.old) (W.contents writer.new) (line_text line.now)) }
{
    writer.write_all(line).map_err(RunFault::writing)?;
    writer.write_all(b"\n").map_err(RunFault::writing)
}
