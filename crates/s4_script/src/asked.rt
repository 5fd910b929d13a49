//! The texts of requests.

ghost use Rattle.std.specs.Prelude.{Some};
ghost use Rattle.std.specs.Fmt.{DisplaysOnOk};
ghost use Rattle.s4_script.specs.Requests.{after_text, at_text, purse_text, request_line_text, request_text};

use crate::callers::CallerText;
use crate::replies::{BytesText, ObjectText, UserText, text_of_name};
use s4_types::{After, Caller, Moment, Purse, Request, WireVersion};
use std::fmt;

/// A request as the line of a script that asks for it. Their client isn't written.
#[derive(Clone, Copy)]
pub struct RequestLine<'a> {
    /// The version of the wire that the script's first line gives.
    pub version: WireVersion,
    pub moment: Moment,
    pub caller: Caller,
    pub request: &'a Request,
}

impl fmt::Display for RequestLine<'_> {
    ghost output = { λ t. Some (request_line_text t.version t.moment t.caller t.request.now) };

    fn fmt<W: fmt::Write>(&self, f: &mut fmt::Formatter<W>) -> fmt::Result {
        let moment = self.moment.tick();
        let caller = CallerText {
            version: self.version,
            caller: self.caller,
        };
        write!(f, "{moment} {caller} {}", RequestText(self.request))
    }
}

/// A request as its verb and its words.
#[derive(Clone, Copy)]
pub struct RequestText<'a>(pub &'a Request);

impl fmt::Display for RequestText<'_> {
    ghost output = { λ t. Some (request_text t.0.now) };

    fn fmt<W: fmt::Write>(&self, f: &mut fmt::Formatter<W>) -> fmt::Result {
        match self.0 {
            Request::Create { .. }
            | Request::Delete { .. }
            | Request::Read { .. }
            | Request::Write { .. }
            | Request::Append { .. }
            | Request::Truncate { .. } => write_about_data(self.0, f),
            Request::GetAttr { .. }
            | Request::SetAttr { .. }
            | Request::GetAclByUser { .. }
            | Request::GetAclByIndex { .. }
            | Request::SetAcl { .. } => write_about_attributes(self.0, f),
            Request::PCreate { .. }
            | Request::PDelete { .. }
            | Request::PList { .. }
            | Request::PMount { .. } => write_about_names(self.0, f),
            Request::Flush { .. }
            | Request::FlushO { .. }
            | Request::SetWindow { .. }
            | Request::SetBudget { .. }
            | Request::ReadAudit { .. } => write_about_past(self.0, f),
        }
    }
}

/// An object's life and its data. No other request is written.
fn write_about_data<W: fmt::Write>(request: &Request, f: &mut fmt::Formatter<W>) -> fmt::Result
    ensures { DisplaysOnOk W.write_str_gives f.old result (Some (request_text request.now)) f.new }
{
    match request {
        Request::Create { number } => {
            let number = number.number();
            write!(f, "create {number}")
        }
        Request::Delete { object } => write!(f, "delete {}", ObjectText(*object)),
        Request::Read {
            object,
            offset,
            length,
            at,
        } => {
            let object = ObjectText(*object);
            write!(f, "read {object} {offset} {length}{}", AtText(*at))
        }
        Request::Write {
            object,
            offset,
            bytes,
        } => {
            let object = ObjectText(*object);
            write!(f, "write {object} {offset} {}", BytesText(bytes.as_slice()))
        }
        Request::Append { object, bytes } => {
            let object = ObjectText(*object);
            write!(f, "append {object} {}", BytesText(bytes.as_slice()))
        }
        Request::Truncate { object, length } => {
            write!(f, "truncate {} {length}", ObjectText(*object))
        }
        _ => Err(fmt::Error),
    }
}

/// An object's attributes and its ACL. No other request is written.
fn write_about_attributes<W: fmt::Write>(
    request: &Request,
    f: &mut fmt::Formatter<W>,
) -> fmt::Result
    ensures { DisplaysOnOk W.write_str_gives f.old result (Some (request_text request.now)) f.new }
{
    match request {
        Request::GetAttr { object, at } => {
            write!(f, "getattr {}{}", ObjectText(*object), AtText(*at))
        }
        Request::SetAttr { object, bytes } => {
            let object = ObjectText(*object);
            write!(f, "setattr {object} {}", BytesText(bytes.as_slice()))
        }
        Request::GetAclByUser { object, user, at } => {
            let object = ObjectText(*object);
            write!(f, "acl-user {object} {}{}", UserText(*user), AtText(*at))
        }
        Request::GetAclByIndex { object, index, at } => {
            let object = ObjectText(*object);
            write!(f, "acl-index {object} {index}{}", AtText(*at))
        }
        Request::SetAcl {
            object,
            user,
            rights,
        } => {
            let object = ObjectText(*object);
            let rights = rights.number();
            write!(f, "setacl {object} {} {rights}", UserText(*user))
        }
        _ => Err(fmt::Error),
    }
}

/// Partitions. No other request is written.
fn write_about_names<W: fmt::Write>(request: &Request, f: &mut fmt::Formatter<W>) -> fmt::Result
    ensures { DisplaysOnOk W.write_str_gives f.old result (Some (request_text request.now)) f.new }
{
    match request {
        Request::PCreate { name, object } => {
            write!(f, "pcreate {} {}", text_of_name(name), ObjectText(*object))
        }
        Request::PDelete { purse, name } => {
            write!(f, "pdelete {} {}", PurseText(*purse), text_of_name(name))
        }
        Request::PList { range, after, at } => {
            let range = range.number();
            write!(f, "plist {range}{}{}", AfterText(after), AtText(*at))
        }
        Request::PMount { purse, name, at } => {
            let purse = PurseText(*purse);
            write!(f, "pmount {purse} {}{}", text_of_name(name), AtText(*at))
        }
        _ => Err(fmt::Error),
    }
}

/// What is past, what it may cost, and who asked. No other request is written.
fn write_about_past<W: fmt::Write>(request: &Request, f: &mut fmt::Formatter<W>) -> fmt::Result
    ensures { DisplaysOnOk W.write_str_gives f.old result (Some (request_text request.now)) f.new }
{
    match request {
        Request::Flush { from, to } => {
            let from = from.tick();
            let to = to.tick();
            write!(f, "flush {from} {to}")
        }
        Request::FlushO { object, from, to } => {
            let from = from.tick();
            let to = to.tick();
            write!(f, "flusho {} {from} {to}", ObjectText(*object))
        }
        Request::SetWindow { ticks } => write!(f, "setwindow {ticks}"),
        Request::SetBudget { purse, budget } => {
            write!(f, "setbudget {} {budget}", PurseText(*purse))
        }
        Request::ReadAudit { range, skip } => {
            let range = range.number();
            write!(f, "audit {range} {skip}")
        }
        _ => Err(fmt::Error),
    }
}

/// A purse as `7.0`.
#[derive(Clone, Copy)]
struct PurseText(Purse);

impl fmt::Display for PurseText {
    ghost output = { λ t. Some (purse_text t.0) };

    fn fmt<W: fmt::Write>(&self, f: &mut fmt::Formatter<W>) -> fmt::Result {
        let creator = self.0.creator.number();
        let number = self.0.number.number();
        write!(f, "{creator}.{number}")
    }
}

/// The moment that a request names, as ` at 9`, or nothing where it names none.
#[derive(Clone, Copy)]
struct AtText(Option<Moment>);

impl fmt::Display for AtText {
    ghost output = { λ t. Some (at_text t.0) };

    fn fmt<W: fmt::Write>(&self, f: &mut fmt::Formatter<W>) -> fmt::Result {
        match self.0 {
            None => Ok(()),
            Some(moment) => {
                let moment = moment.tick();
                write!(f, " at {moment}")
            }
        }
    }
}

/// The place behind which a page begins, as ` after 1 b`, or nothing where there is none.
#[derive(Clone, Copy)]
struct AfterText<'a>(&'a Option<After>);

impl fmt::Display for AfterText<'_> {
    ghost output = { λ t. Some (after_text t.0.now) };

    fn fmt<W: fmt::Write>(&self, f: &mut fmt::Formatter<W>) -> fmt::Result {
        match self.0 {
            None => Ok(()),
            Some(after) => {
                let number = after.number.number();
                write!(f, " after {number} {}", text_of_name(&after.name))
            }
        }
    }
}
