//! The places of a line, by its words.

use crate::form::Form;
use crate::place::Place;
use s4_types::NoMemory;
use std::alloc::Global;

/// A place of a line, and a word that is right there.
#[derive(Clone, Copy)]
pub struct Slot<'a> {
    pub sample: &'a str,
    pub place: Place,
}

/// Where a line ends that may go on with `at` and a moment.
const AT: &[Place] = &[Place::At, Place::Moment];

/// The places of a line of this form, whose words are these.
pub fn slots_of<'a>(
    form: Form,
    alloc: Global,
    words: &[&'a str],
) -> Result<Vec<Slot<'a>>, NoMemory> {
    let mut slots = Vec::new(alloc);
    match (form, words) {
        (Form::Opening, [_, _, _, ..]) => {
            add(
                &mut slots,
                &[Place::Opens, Place::Ticks, Place::Wire, Place::Second],
            )?;
        }
        (Form::Opening | Form::Window, _) => add(&mut slots, &[Place::Opens, Place::Ticks])?,
        (Form::Line(_), ["used", ..]) => add_word(&mut slots, "used", Place::Begins)?,
        (Form::Line(_), ["cut", ..]) => {
            add_word(&mut slots, "cut", Place::Begins)?;
            add(&mut slots, &[Place::Moment])?;
        }
        (Form::Line(_), ["sweep", ..]) => {
            add_word(&mut slots, "sweep", Place::Begins)?;
            add(&mut slots, &[Place::Most])?;
        }
        (Form::Line(_), [_, _, request @ ..]) => {
            add(&mut slots, &[Place::Begins, Place::Caller])?;
            add_request(&mut slots, request)?;
        }
        (Form::Line(_), _) => add(&mut slots, &[Place::Begins, Place::Caller, Place::Verb])?,
        (Form::Arrival, ["sweep", ..]) => {
            add_word(&mut slots, "sweep", Place::Arrives)?;
            add(&mut slots, &[Place::Most])?;
        }
        (Form::Arrival, _) => {
            add(
                &mut slots,
                &[Place::Arrives, Place::Connection, Place::Bytes],
            )?;
        }
        (Form::Setup, [_, request @ ..]) => {
            add(&mut slots, &[Place::Principal])?;
            add_request(&mut slots, request)?;
        }
        (Form::Setup, []) => add(&mut slots, &[Place::Principal, Place::Verb])?,
        (Form::Request, request) => add_request(&mut slots, request)?,
    }
    Ok(slots)
}

/// Adds the places of a request: its verb, and what belongs behind it.
fn add_request<'a>(slots: &mut Vec<Slot<'a>>, words: &[&'a str]) -> Result<(), NoMemory> {
    let [verb, words @ ..] = words else {
        return add(slots, &[Place::Verb]);
    };
    let Some(places) = places_of(verb) else {
        return add(slots, &[Place::Verb]);
    };
    add_word(slots, verb, Place::Verb)?;
    add(slots, places)?;
    add_rest(slots, verb, words, places.len())
}

/// Adds the places of what may stand behind the first so many words.
fn add_rest<'a>(
    slots: &mut Vec<Slot<'a>>,
    verb: &str,
    words: &[&str],
    count: usize,
) -> Result<(), NoMemory> {
    match verb {
        "plist" => match words {
            [_] | [] => Ok(()),
            [_, "after", _, _] | [_, "after"] | [_, "after", _] => {
                add(slots, &[Place::After, Place::PurseNumber, Place::Name])
            }
            [_, "after", ..] => {
                add(slots, &[Place::After, Place::PurseNumber, Place::Name])?;
                add(slots, AT)
            }
            [_, "at", ..] => add(slots, AT),
            _ => add(slots, &[Place::After, Place::PurseNumber, Place::Name]),
        },
        "read" | "getattr" | "acl-user" | "acl-index" | "pmount" if words.len() > count => {
            add(slots, AT)
        }
        _ => Ok(()),
    }
}

/// What belongs behind a verb, where it is one.
fn places_of(verb: &str) -> Option<&'static [Place]> {
    Some(match verb {
        "create" => &[Place::PurseNumber],
        "delete" | "getattr" => &[Place::Object],
        "read" => &[Place::Object, Place::Offset, Place::Length],
        "write" => &[Place::Object, Place::Offset, Place::Bytes],
        "append" | "setattr" => &[Place::Object, Place::Bytes],
        "truncate" => &[Place::Object, Place::Length],
        "acl-user" => &[Place::Object, Place::User],
        "acl-index" => &[Place::Object, Place::Index],
        "setacl" => &[Place::Object, Place::User, Place::Rights],
        "pcreate" => &[Place::Name, Place::Object],
        "pdelete" | "pmount" => &[Place::Purse, Place::Name],
        "plist" => &[Place::Range],
        "flush" => &[Place::Moment, Place::Moment],
        "flusho" => &[Place::Object, Place::Moment, Place::Moment],
        "setwindow" => &[Place::Ticks],
        "setbudget" => &[Place::Purse, Place::Budget],
        "audit" => &[Place::Range, Place::Skip],
        _ => return None,
    })
}

/// Adds places, each with its sample.
fn add(slots: &mut Vec<Slot>, places: &[Place]) -> Result<(), NoMemory> {
    for place in places {
        add_word(slots, place.sample(), *place)?;
    }
    Ok(())
}

/// Adds a place with a word that is right there.
fn add_word<'a>(slots: &mut Vec<Slot<'a>>, sample: &'a str, place: Place) -> Result<(), NoMemory> {
    slots.push(Slot { sample, place })?;
    Ok(())
}
