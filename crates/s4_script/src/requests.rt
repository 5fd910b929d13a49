//! The verbs of a script.

ghost use Rattle.std.specs.Prelude.{◌≡◌};
ghost use Rattle.s4_script.specs.Readings.{page_in, place_in, acl_index_in, acl_user_in, append_in, audit_in, create_in, delete_in, flush_in, flusho_in, getattr_in, pcreate_in, pdelete_in, plist_in, pmount_in, read_in, request_in, setacl_in, setattr_in, setbudget_in, setwindow_in, texts, truncate_in, write_in, Gives};

use crate::error::ParseError;
use crate::words;
use s4_types::{After, Principal, Request};
use std::alloc::Global;

/// The request that a verb and the words after it spell.
#[tactic(auto, unfolding(crate::specs::Readings::request_in))]
pub fn parse_request(alloc: Global, verb: &str, words: &[&str]) -> Result<Request, ParseError>
    ensures { Gives result (request_in verb.now (texts words.now)) }
{
    match verb {
        "create" => create(words),
        "delete" => delete(words),
        "read" => read(words),
        "write" => write(alloc, words),
        "append" => append(alloc, words),
        "truncate" => truncate(words),
        "getattr" => get_attr(words),
        "setattr" => set_attr(alloc, words),
        "acl-user" => get_acl_by_user(words),
        "acl-index" => get_acl_by_index(words),
        "setacl" => set_acl(words),
        "pcreate" => pcreate(words),
        "pdelete" => pdelete(words),
        "plist" => plist(words),
        "pmount" => pmount(words),
        "flush" => flush(words),
        "flusho" => flush_object(words),
        "setwindow" => set_window(words),
        "setbudget" => set_budget(words),
        "audit" => audit(words),
        _ => Err(ParseError::Bad),
    }
}

fn create(words: &[&str]) -> Result<Request, ParseError>
    ensures { Gives result (create_in (texts words.now)) }
{
    let [number] = words else {
        return Err(ParseError::Bad);
    };
    Ok(Request::Create {
        number: words::purse_number(number)?,
    })
}

fn delete(words: &[&str]) -> Result<Request, ParseError>
    ensures { Gives result (delete_in (texts words.now)) }
{
    let [object] = words else {
        return Err(ParseError::Bad);
    };
    Ok(Request::Delete {
        object: words::object(object)?,
    })
}

fn read(words: &[&str]) -> Result<Request, ParseError>
    ensures { Gives result (read_in (texts words.now)) }
{
    let [object, offset, length, at @ ..] = words else {
        return Err(ParseError::Bad);
    };
    Ok(Request::Read {
        object: words::object(object)?,
        offset: words::number_u32(offset)?,
        length: words::number_u32(length)?,
        at: words::at(at)?,
    })
}

fn write(alloc: Global, words: &[&str]) -> Result<Request, ParseError>
    ensures { Gives result (write_in (texts words.now)) }
{
    let [object, offset, bytes] = words else {
        return Err(ParseError::Bad);
    };
    Ok(Request::Write {
        object: words::object(object)?,
        offset: words::number_u32(offset)?,
        bytes: words::bytes(alloc, bytes)?,
    })
}

fn append(alloc: Global, words: &[&str]) -> Result<Request, ParseError>
    ensures { Gives result (append_in (texts words.now)) }
{
    let [object, bytes] = words else {
        return Err(ParseError::Bad);
    };
    Ok(Request::Append {
        object: words::object(object)?,
        bytes: words::bytes(alloc, bytes)?,
    })
}

fn truncate(words: &[&str]) -> Result<Request, ParseError>
    ensures { Gives result (truncate_in (texts words.now)) }
{
    let [object, length] = words else {
        return Err(ParseError::Bad);
    };
    Ok(Request::Truncate {
        object: words::object(object)?,
        length: words::number_u32(length)?,
    })
}

fn get_attr(words: &[&str]) -> Result<Request, ParseError>
    ensures { Gives result (getattr_in (texts words.now)) }
{
    let [object, at @ ..] = words else {
        return Err(ParseError::Bad);
    };
    Ok(Request::GetAttr {
        object: words::object(object)?,
        at: words::at(at)?,
    })
}

fn set_attr(alloc: Global, words: &[&str]) -> Result<Request, ParseError>
    ensures { Gives result (setattr_in (texts words.now)) }
{
    let [object, bytes] = words else {
        return Err(ParseError::Bad);
    };
    Ok(Request::SetAttr {
        object: words::object(object)?,
        bytes: words::bytes(alloc, bytes)?,
    })
}

fn get_acl_by_user(words: &[&str]) -> Result<Request, ParseError>
    ensures { Gives result (acl_user_in (texts words.now)) }
{
    let [object, user, at @ ..] = words else {
        return Err(ParseError::Bad);
    };
    Ok(Request::GetAclByUser {
        object: words::object(object)?,
        user: words::user(user)?,
        at: words::at(at)?,
    })
}

fn get_acl_by_index(words: &[&str]) -> Result<Request, ParseError>
    ensures { Gives result (acl_index_in (texts words.now)) }
{
    let [object, index, at @ ..] = words else {
        return Err(ParseError::Bad);
    };
    Ok(Request::GetAclByIndex {
        object: words::object(object)?,
        index: words::number_u8(index)?,
        at: words::at(at)?,
    })
}

fn set_acl(words: &[&str]) -> Result<Request, ParseError>
    ensures { Gives result (setacl_in (texts words.now)) }
{
    let [object, user, rights] = words else {
        return Err(ParseError::Bad);
    };
    Ok(Request::SetAcl {
        object: words::object(object)?,
        user: words::user(user)?,
        rights: words::rights(rights)?,
    })
}

fn pcreate(words: &[&str]) -> Result<Request, ParseError>
    ensures { Gives result (pcreate_in (texts words.now)) }
{
    let [name, object] = words else {
        return Err(ParseError::Bad);
    };
    Ok(Request::PCreate {
        name: words::name(name)?,
        object: words::object(object)?,
    })
}

fn pdelete(words: &[&str]) -> Result<Request, ParseError>
    ensures { Gives result (pdelete_in (texts words.now)) }
{
    let [purse, name] = words else {
        return Err(ParseError::Bad);
    };
    Ok(Request::PDelete {
        purse: words::purse(purse)?,
        name: words::name(name)?,
    })
}

fn plist(words: &[&str]) -> Result<Request, ParseError>
    ensures { Gives result (plist_in (texts words.now)) }
{
    let [range, place @ ..] = words else {
        return Err(ParseError::Bad);
    };
    page(words::principal(range)?, place)
}

/// A page of partitions. The place is where it begins, as `after 1 b`, and then when, as `at 9`;
/// either may lack.
fn page(range: Principal, place: &[&str]) -> Result<Request, ParseError>
    ensures { Gives result (place_in range (texts place.now)) }
{
    let [word, number, name, at @ ..] = place else {
        return page_behind(range, None, place);
    };
    if *word != "after" {
        return page_behind(range, None, place);
    }
    let after = words::after(number, name)?;
    page_behind(range, Some(after), at)
}

fn page_behind(range: Principal, after: Option<After>, at: &[&str]) -> Result<Request, ParseError>
    ensures { Gives result (page_in range after (texts at.now)) }
{
    let at = words::at(at)?;
    Ok(Request::PList { range, after, at })
}

fn pmount(words: &[&str]) -> Result<Request, ParseError>
    ensures { Gives result (pmount_in (texts words.now)) }
{
    let [purse, name, at @ ..] = words else {
        return Err(ParseError::Bad);
    };
    Ok(Request::PMount {
        purse: words::purse(purse)?,
        name: words::name(name)?,
        at: words::at(at)?,
    })
}

fn flush(words: &[&str]) -> Result<Request, ParseError>
    ensures { Gives result (flush_in (texts words.now)) }
{
    let [from, to] = words else {
        return Err(ParseError::Bad);
    };
    Ok(Request::Flush {
        from: words::moment(from)?,
        to: words::moment(to)?,
    })
}

fn flush_object(words: &[&str]) -> Result<Request, ParseError>
    ensures { Gives result (flusho_in (texts words.now)) }
{
    let [object, from, to] = words else {
        return Err(ParseError::Bad);
    };
    Ok(Request::FlushO {
        object: words::object(object)?,
        from: words::moment(from)?,
        to: words::moment(to)?,
    })
}

fn set_window(words: &[&str]) -> Result<Request, ParseError>
    ensures { Gives result (setwindow_in (texts words.now)) }
{
    let [ticks] = words else {
        return Err(ParseError::Bad);
    };
    Ok(Request::SetWindow {
        ticks: words::number_u64(ticks)?,
    })
}

fn set_budget(words: &[&str]) -> Result<Request, ParseError>
    ensures { Gives result (setbudget_in (texts words.now)) }
{
    let [purse, budget] = words else {
        return Err(ParseError::Bad);
    };
    Ok(Request::SetBudget {
        purse: words::purse(purse)?,
        budget: words::number_u32(budget)?,
    })
}

fn audit(words: &[&str]) -> Result<Request, ParseError>
    ensures { Gives result (audit_in (texts words.now)) }
{
    let [range, skip] = words else {
        return Err(ParseError::Bad);
    };
    Ok(Request::ReadAudit {
        range: words::principal(range)?,
        skip: words::number_u32(skip)?,
    })
}
