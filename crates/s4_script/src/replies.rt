//! The texts of replies.

ghost use Rattle.std.specs.Prelude.{◌≡◌, Some};
ghost use Rattle.std.specs.Fmt.{DisplaysOnOk};
ghost use Rattle.hex.specs.Hex.{encode_lower};
ghost use Rattle.s4_script.specs.Texts.{bytes_text, cut_text, grant_text, line_text, lines_text, names_text, object_text, refusal_text, reply_text, right_text, used_text, user_text};

use crate::records::AuditText;
use s4_types::{Grant, Name, NameLine, ObjectId, Refusal, Reply, Right, User};
use std::fmt;

/// A reply as its line, or as its lines where it is a page of partitions or of records.
#[derive(Clone, Copy)]
pub struct ReplyText<'a>(pub &'a Reply);

impl fmt::Display for ReplyText<'_> {
    ghost output = { λ t. Some (reply_text t.0.now) };

    fn fmt<W: fmt::Write>(&self, f: &mut fmt::Formatter<W>) -> fmt::Result {
        match self.0 {
            Reply::Done => write!(f, "done"),
            Reply::Made(object) => write!(f, "made {}", ObjectText(*object)),
            Reply::Data { grant, bytes } => {
                write!(
                    f,
                    "data {} {}",
                    BytesText(bytes.as_slice()),
                    GrantText(*grant)
                )
            }
            Reply::Attr { grant, bytes } => {
                write!(
                    f,
                    "attr {} {}",
                    BytesText(bytes.as_slice()),
                    GrantText(*grant)
                )
            }
            Reply::Entry {
                grant,
                index,
                user,
                rights,
            } => {
                let user = UserText(*user);
                let rights = rights.number();
                write!(f, "entry {index} {user} {rights} {}", GrantText(*grant))
            }
            Reply::Mounted { grant, object } => {
                write!(f, "mounted {} {}", ObjectText(*object), GrantText(*grant))
            }
            Reply::Names { lines, more } => write!(f, "{}", NamesText(lines.as_slice(), *more)),
            Reply::Audit { lines, more } => write!(f, "{}", AuditText(lines.as_slice(), *more)),
            Reply::Refused(refusal) => write!(f, "{}", RefusalText(*refusal)),
        }
    }
}

/// How many values and bindings a drive holds, as its line.
#[derive(Clone, Copy)]
pub struct UsedText(pub u64);

impl fmt::Display for UsedText {
    ghost output = { λ t. Some (used_text t.0) };

    fn fmt<W: fmt::Write>(&self, f: &mut fmt::Formatter<W>) -> fmt::Result {
        write!(f, "used {}", self.0)
    }
}

/// How many records went, as a line.
#[derive(Clone, Copy)]
pub struct CutText(pub u64);

impl fmt::Display for CutText {
    ghost output = { λ t. Some (cut_text t.0) };

    fn fmt<W: fmt::Write>(&self, f: &mut fmt::Formatter<W>) -> fmt::Result {
        write!(f, "cut {}", self.0)
    }
}

/// An object as `7.0.1`.
#[derive(Clone, Copy)]
pub(crate) struct ObjectText(pub(crate) ObjectId);

impl fmt::Display for ObjectText {
    ghost output = { λ t. Some (object_text t.0) };

    fn fmt<W: fmt::Write>(&self, f: &mut fmt::Formatter<W>) -> fmt::Result {
        let ObjectId { purse, serial } = self.0;
        let creator = purse.creator.number();
        let number = purse.number.number();
        let serial = serial.number();
        write!(f, "{creator}.{number}.{serial}")
    }
}

/// Whom an entry of an ACL is for: a principal's number, or the word `everyone`.
#[derive(Clone, Copy)]
pub(crate) struct UserText(pub(crate) User);

impl fmt::Display for UserText {
    ghost output = { λ t. Some (user_text t.0) };

    fn fmt<W: fmt::Write>(&self, f: &mut fmt::Formatter<W>) -> fmt::Result {
        if self.0 == User::everyone() {
            return write!(f, "everyone");
        }
        let number = self.0.number();
        write!(f, "{number}")
    }
}

/// Bytes as hexadecimal digits in lower case, or as the word `empty`.
#[derive(Clone, Copy)]
pub struct BytesText<'a>(pub &'a [u8]);

impl fmt::Display for BytesText<'_> {
    ghost output = { λ t. Some (bytes_text t.0.now) };

    fn fmt<W: fmt::Write>(&self, f: &mut fmt::Formatter<W>) -> fmt::Result {
        if self.0.is_empty() {
            write!(f, "empty")
        } else {
            write_hexadecimal(self.0, f)
        }
    }
}

/// Two hexadecimal digits a byte, in lower case.
fn write_hexadecimal<W: fmt::Write>(bytes: &[u8], f: &mut fmt::Formatter<W>) -> fmt::Result
    ensures { DisplaysOnOk W.write_str_gives f.old result (Some (encode_lower bytes.now)) f.new }
{
    for byte in bytes {
        write!(f, "{byte:02x}")?;
    }
    Ok(())
}

/// A page of partitions, and whether more of them follow.
#[derive(Clone, Copy)]
struct NamesText<'a>(&'a [NameLine], bool);

impl fmt::Display for NamesText<'_> {
    ghost output = { λ t. Some (names_text t.0.now t.1) };

    fn fmt<W: fmt::Write>(&self, f: &mut fmt::Formatter<W>) -> fmt::Result {
        let count = self.0.len();
        let end = if self.1 { "more" } else { "end" };
        write!(f, "names {count} {end}")?;
        write_lines(self.0, f)
    }
}

/// A new line for each partition.
fn write_lines<W: fmt::Write>(lines: &[NameLine], f: &mut fmt::Formatter<W>) -> fmt::Result
    ensures { DisplaysOnOk W.write_str_gives f.old result (Some (lines_text lines.now)) f.new }
{
    for line in lines {
        write!(f, "\n{}", LineText(line))?;
    }
    Ok(())
}

/// A partition as its line.
#[derive(Clone, Copy)]
struct LineText<'a>(&'a NameLine);

impl fmt::Display for LineText<'_> {
    ghost output = { λ t. Some (line_text t.0.now) };

    fn fmt<W: fmt::Write>(&self, f: &mut fmt::Formatter<W>) -> fmt::Result {
        let name = text_of_name(&self.0.name);
        let object = ObjectText(self.0.object);
        let grant = GrantText(self.0.grant);
        write!(f, "name {name} {object} {grant}")
    }
}

/// The name as text, which its bytes always are.
pub(crate) fn text_of_name(name: &Name) -> &str
    ensures { result.now ≡ name.now }
{
    match std::str::from_utf8(name.as_slice()) {
        Ok(text) => text,
        Err(_) => unreachable!(),
    }
}

/// Why a read was granted.
#[derive(Clone, Copy)]
pub struct GrantText(pub Grant);

impl fmt::Display for GrantText {
    ghost output = { λ t. Some (grant_text t.0) };

    fn fmt<W: fmt::Write>(&self, f: &mut fmt::Formatter<W>) -> fmt::Result {
        match self.0 {
            Grant::Admin => write!(f, "by admin"),
            Grant::Owner => write!(f, "by owner"),
            Grant::Entry { index, since } => {
                let since = since.tick();
                write!(f, "by {index} since {since}")
            }
        }
    }
}

/// Why a request was refused.
#[derive(Clone, Copy)]
struct RefusalText(Refusal);

impl fmt::Display for RefusalText {
    ghost output = { λ t. Some (refusal_text t.0) };

    fn fmt<W: fmt::Write>(&self, f: &mut fmt::Formatter<W>) -> fmt::Result {
        match self.0 {
            Refusal::Denied(right) => write!(f, "denied {}", RightText(right)),
            Refusal::NoObject => write!(f, "no-object"),
            Refusal::Future => write!(f, "future"),
            Refusal::TooOld { horizon } => {
                let horizon = horizon.tick();
                write!(f, "too-old {horizon}")
            }
            Refusal::Flushed => write!(f, "flushed"),
            Refusal::TooLong => write!(f, "too-long"),
            Refusal::AclFull => write!(f, "acl-full"),
            Refusal::NoEntry => write!(f, "no-entry"),
            Refusal::NoPartition => write!(f, "no-partition"),
            Refusal::Exists => write!(f, "exists"),
            Refusal::PartsFull => write!(f, "parts-full"),
            Refusal::Named => write!(f, "named"),
            Refusal::NamesSpent => write!(f, "names-spent"),
            Refusal::OverBudget {
                spent,
                charge,
                budget,
            } => write!(f, "over-budget {spent} {charge} {budget}"),
            Refusal::BadRange => write!(f, "bad-range"),
            Refusal::NoMemory => write!(f, "no-memory"),
        }
    }
}

#[derive(Clone, Copy)]
struct RightText(Right);

impl fmt::Display for RightText {
    ghost output = { λ t. Some (right_text t.0) };

    fn fmt<W: fmt::Write>(&self, f: &mut fmt::Formatter<W>) -> fmt::Result {
        match self.0 {
            Right::Read => write!(f, "read"),
            Right::Write => write!(f, "write"),
            Right::Delete => write!(f, "delete"),
            Right::Control => write!(f, "control"),
            Right::Recover => write!(f, "recover"),
            Right::Admin => write!(f, "admin"),
        }
    }
}
