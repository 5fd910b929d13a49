//! Whole texts, line by line.

ghost use Rattle.std.specs.Prelude.{◌≡◌, true, IfOk, IfSome, IsNone, is_some};
ghost use Rattle.std.specs.List.{enumerate_from};
ghost use Rattle.s4_types.specs.declared.principal.WireVersion as wire;
ghost use Rattle.s4_script.specs.Lines.{lines};
ghost use Rattle.s4_stream.specs.LoginText.{login_of};
ghost use Rattle.s4_causes.specs.Checked.{AreTaken, form_of, is_taken};
ghost use Rattle.s4_causes.specs.declared.checks.Kind as kinds;

use crate::cause::Cause;
use crate::form::Form;
use crate::logins::{LoginCause, cause_of_login};
use crate::texts::version_of;
use s4_script::{ArrivalLine, Line, NumberedLines, parse_arrival, parse_line};
use s4_stream::{principal_in, split_at_byte};
use s4_types::{Moment, NoMemory, Step, WireVersion};
use std::alloc::Global;
use std::collections::BTreeMap;
use std::io::Write;
use std::{fmt, io};

/// What a text is.
#[derive(Clone, Copy, PartialEq, Eq)]
pub enum Kind {
    Script,
    Arrivals,
    Logins,
    Setup,
}

impl fmt::Display for Kind {
    fn fmt<W: fmt::Write>(&self, f: &mut fmt::Formatter<W>) -> fmt::Result {
        match self {
            Kind::Script => write!(f, "a script"),
            Kind::Arrivals => write!(f, "arrivals"),
            Kind::Logins => write!(f, "logins"),
            Kind::Setup => write!(f, "a setup"),
        }
    }
}

/// What is wrong with a line.
#[derive(Drop)]
enum Found {
    Bad(Cause),
    Login(LoginCause),
    /// Its moment is before that of a line above, which is this one.
    GoesBack(Moment),
    /// Its principal stands in the line of this number.
    Again(usize),
}

impl fmt::Display for Found {
    fn fmt<W: fmt::Write>(&self, f: &mut fmt::Formatter<W>) -> fmt::Result {
        match self {
            Found::Bad(cause) => write!(f, "{cause}"),
            Found::Login(cause) => write!(f, "{cause}"),
            Found::GoesBack(newest) => {
                let newest = newest.tick();
                write!(f, "moment goes back: a line above has the moment {newest}")
            }
            Found::Again(number) => write!(f, "its principal stands in line {number}"),
        }
    }
}

/// Writes each line of a text that isn't taken, and why, behind the text's name; or, where all are, a line
/// with what it is and how many lines it has. Gives whether all are taken. It is of this kind, or, where none
/// is named, of that which its lines tell.
pub fn check_text<W: Write>(
    alloc: Global,
    name: &str,
    kind: Option<Kind>,
    text: &[u8],
    output: &mut W,
) -> io::Result<bool>
    // Where all is well each line is taken.
    ensures well { IfOk result (λ is_well. is_well ≡ true → (k : kinds.Kind) × (v : wire.WireVersion)
        × AreTaken k v (enumerate_from 1 (lines text.now))) }
    ensures asked { IfSome kind (λ asked. IfOk result (λ is_well. is_well ≡ true
        → (v : wire.WireVersion) × AreTaken asked v (enumerate_from 1 (lines text.now)))) }
{
    let kind = match kind {
        Some(kind) => kind,
        None => kind_of(alloc, text)?,
    };
    check_as(alloc, name, kind, text, output)
}

/// The same of a text of this kind.
fn check_as<W: Write>(
    alloc: Global,
    name: &str,
    kind: Kind,
    text: &[u8],
    output: &mut W,
) -> io::Result<bool>
    ensures { IfOk result (λ is_well. is_well ≡ true
        → (v : wire.WireVersion) × AreTaken kind v (enumerate_from 1 (lines text.now))) }
{
    let mut checker = Checker::new(alloc, kind, text);
    let mut count = 0;
    let mut is_well = true;
    for (number, line) in NumberedLines::of(text) {
        count = number;
        if let Some(found) = checker.look(number, line)? {
            writeln!(output, "{name} line {number}: {found}")?;
            is_well = false;
        }
    }
    if is_well {
        writeln!(output, "{name}: {kind}, {count} lines, all well")?;
    }
    Ok(is_well)
}

/// The newest moment above the line of that number of a script or of arrivals; 0 where none has one.
pub fn newest_above(
    alloc: Global,
    kind: Kind,
    text: &[u8],
    number: usize,
) -> Result<Moment, NoMemory> {
    let mut checker = Checker::new(alloc, kind, text);
    for (count, line) in NumberedLines::of(text) {
        if count == number {
            return Ok(checker.newest);
        }
        checker.look(count, line)?;
    }
    Ok(checker.newest)
}

/// What a text is, by the first of its lines that is a login, or one of a setup, a script or arrivals. Where
/// none is, it is a script if it begins with a window, and else logins.
fn kind_of(alloc: Global, text: &[u8]) -> Result<Kind, NoMemory> {
    let version = version_of(alloc, text);
    for (_, line) in NumberedLines::of(text) {
        if let Some(kind) = kind_of_line(version, alloc, line)? {
            return Ok(kind);
        }
    }
    if text.starts_with(b"window") {
        return Ok(Kind::Script);
    }
    Ok(Kind::Logins)
}

/// What a text is that has this line, where it is one; it may be one of a script of this version. A line with
/// a sweep may be of arrivals too.
fn kind_of_line(
    version: WireVersion,
    alloc: Global,
    line: &[u8],
) -> Result<Option<Kind>, NoMemory> {
    if line.starts_with(b"sweep") {
        return Ok(None);
    }
    if cause_of_login(line).is_none() {
        return Ok(Some(Kind::Logins));
    }
    if Form::Setup.takes(alloc, line)? {
        return Ok(Some(Kind::Setup));
    }
    if Form::Arrival.takes(alloc, line)? {
        return Ok(Some(Kind::Arrivals));
    }
    if Form::Line(version).takes(alloc, line)? {
        return Ok(Some(Kind::Script));
    }
    Ok(None)
}

/// Who looks at the lines of a text in turn.
#[derive(Drop)]
struct Checker {
    alloc: Global,
    kind: Kind,
    /// The version of the wire that the first line gives, where it is a script.
    version: WireVersion,
    /// The moment of the newest line, 0 before the first.
    newest: Moment,
    /// The principals of logins, each with the number of its line.
    logins: BTreeMap<u32, usize>,
}

impl Checker {
    /// Who looked at no line of the text yet, which is of this kind.
    fn new(alloc: Global, kind: Kind, text: &[u8]) -> Checker
        ensures { result.kind ≡ kind }
    {
        Checker {
            alloc,
            kind,
            version: version_of(alloc, text),
            newest: Moment::new(0),
            logins: BTreeMap::new(alloc),
        }
    }

    /// What is wrong with the line of this number.
    fn look(&mut self, number: usize, line: &[u8]) -> Result<Option<Found>, NoMemory>
        ensures nothing { IfOk result (λ found. IsNone found
            → is_taken (form_of self.old.kind self.old.version number) line.now ≡ true) }
        ensures kind { self.new.kind ≡ self.old.kind }
        ensures version { self.new.version ≡ self.old.version }
    {
        let Some(form) = form_of(self.kind, self.version, number) else {
            return self.look_at_login(number, line);
        };
        match Cause::of(form, self.alloc, line)? {
            Some(cause) => Ok(Some(Found::Bad(cause))),
            None => Ok(self.look_at_moment(form, line)),
        }
    }

    /// Whether the moment of a line goes back.
    fn look_at_moment(&mut self, form: Form, line: &[u8]) -> Option<Found>
        ensures kind { self.new.kind ≡ self.old.kind }
        ensures version { self.new.version ≡ self.old.version }
    {
        let moment = moment_of(form, self.alloc, line)?;
        if moment < self.newest {
            return Some(Found::GoesBack(self.newest));
        }
        self.newest = moment;
        None
    }

    fn look_at_login(&mut self, number: usize, line: &[u8]) -> Result<Option<Found>, NoMemory>
        ensures nothing { IfOk result (λ found. IsNone found
            → is_some (login_of line.now) ≡ true) }
        ensures kind { self.new.kind ≡ self.old.kind }
        ensures version { self.new.version ≡ self.old.version }
    {
        if let Some(cause) = cause_of_login(line) {
            return Ok(Some(Found::Login(cause)));
        }
        let (who, _) = split_at_byte(line, b' ');
        let who = principal_in(who).unwrap_or_default();
        if let Some(above) = self.logins.get(&who) {
            return Ok(Some(Found::Again(*above)));
        }
        self.logins.insert(who, number)?;
        Ok(None)
    }
}

/// What the line of this number is to be in a text of this kind; none in logins.
fn form_of(kind: Kind, version: WireVersion, number: usize) -> Option<Form>
    ensures { result ≡ form_of kind version number }
{
    match kind {
        Kind::Logins => None,
        Kind::Setup => Some(Form::Setup),
        Kind::Script if number == 1 => Some(Form::Opening),
        Kind::Script => Some(Form::Line(version)),
        Kind::Arrivals if number == 1 => Some(Form::Window),
        Kind::Arrivals => Some(Form::Arrival),
    }
}

/// The moment of a line of this form, where it has one.
fn moment_of(form: Form, alloc: Global, line: &[u8]) -> Option<Moment> {
    match form {
        Form::Line(version) => {
            let line = parse_line(version, alloc, line).ok()?;
            asked_at(&line)
        }
        Form::Arrival => {
            let line = parse_arrival(alloc, line).ok()?;
            arrived_at(&line)
        }
        _ => None,
    }
}

/// When a request of a script is made.
fn asked_at(line: &Line) -> Option<Moment> {
    match line {
        Line::Step(Step::Request { moment, .. }) => Some(*moment),
        _ => None,
    }
}

/// When bytes come.
fn arrived_at(line: &ArrivalLine) -> Option<Moment> {
    match line {
        ArrivalLine::Arrive { moment, .. } => Some(*moment),
        ArrivalLine::Sweep { .. } => None,
    }
}
