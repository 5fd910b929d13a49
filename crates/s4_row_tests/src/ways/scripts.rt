//! Scripts without a fault, in the ways that words name.

use crate::texts::{input, invalid, utf8, well};
use crate::ways::{conversations, drives};
use s4_arena::Arena;
use s4_drive::Drive;
use s4_script::{Line, parse_line, parse_opening};
use s4_types::{Version, WireVersion};
use std::alloc::Global;
use std::io;
use std::sync::Wait;

/// How many values are freed behind each cut, where some are.
const SWEPT: u64 = 2;

/// The window that a script opens with, the version of the wire that its first line gives, and what
/// its other lines ask for.
#[derive(Drop)]
pub struct Script {
    pub window: u64,
    pub version: WireVersion,
    pub lines: Vec<Line>,
}

impl Script {
    pub fn read(alloc: Global, bytes: &[u8]) -> io::Result<Script> {
        let mut texts = utf8(bytes)?.lines();
        let first = texts.next().unwrap_or("window 0");
        let opening = well(parse_opening(alloc, first.as_bytes()))?;
        let mut lines = Vec::new(alloc);
        for text in texts {
            lines.push(well(parse_line(opening.version, alloc, text.as_bytes()))?)?;
        }
        Ok(Script {
            window: opening.window,
            version: opening.version,
            lines,
        })
    }
}

/// Tells what the script on standard input is told in each of these ways, behind the way's name.
pub fn tell<R: Wait>(rt: &HostRuntime, waits: &R, ways: &[String]) -> io::Result<()> {
    let script = Script::read(rt.alloc(), &input(rt)?)?;
    for way in ways {
        let mut told = String::new(rt.alloc());
        tell_by(waits, rt.alloc(), way.as_str(), &script, &mut told)?;
        print!(rt; "--- {way}\n{told}")?;
    }
    Ok(())
}

/// Adds what a script is told in a way.
fn tell_by<R: Wait>(
    rt: &R,
    alloc: Global,
    way: &str,
    script: &Script,
    told: &mut String,
) -> io::Result<()> {
    let Script { window, lines, .. } = script;
    match way {
        "at-once" => drives::tell_at_once(alloc, *window, lines, told),
        "plain" => drives::tell_cut(&mut drives::plain(alloc, *window), lines, 0, told),
        "plain-swept" => drives::tell_cut(&mut drives::plain(alloc, *window), lines, SWEPT, told),
        "arena" => drives::tell_cut(&mut arena(alloc, *window), lines, 0, told),
        "arena-swept" => drives::tell_cut(&mut arena(alloc, *window), lines, SWEPT, told),
        "one-cell" => conversations::tell(rt, alloc, script, 1, true, told),
        "two-cells" => conversations::tell(rt, alloc, script, 2, true, told),
        "two-cells-uncut" => conversations::tell(rt, alloc, script, 2, false, told),
        _ => Err(invalid()),
    }
}

/// A fresh drive over the arena.
fn arena(alloc: Global, window: u64) -> Drive<Arena<Version>> {
    Drive::new(alloc, Arena::new(alloc), window)
}
