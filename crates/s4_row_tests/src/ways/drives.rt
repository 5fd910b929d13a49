//! Scripts on a drive: given to it all at once, or cut behind each line.

use crate::texts::invalid;
use s4_drive::{Drive, never_down};
use s4_script::{CutText, Line, ReplyText, UsedText};
use s4_store::{PlainStore, Store};
use s4_types::{Moment, Step, Version};
use std::alloc::Global;
use std::io;

type PlainDrive = Drive<PlainStore<Version>>;

/// A fresh drive over the plain store.
pub fn plain(alloc: Global, window: u64) -> PlainDrive {
    Drive::new(alloc, PlainStore::new(alloc), window)
}

/// Gives a drive over the plain store the steps up to each `used` and each cut, and those up to the end,
/// each time all at once.
pub fn tell_at_once(
    alloc: Global,
    window: u64,
    lines: &[Line],
    told: &mut String,
) -> io::Result<()> {
    let mut drive = plain(alloc, window);
    let mut steps = Vec::new(alloc);
    for line in lines {
        match line {
            Line::Step(step) => steps.push(step.copy()?)?,
            Line::Used => {
                tell_steps(&mut drive, &steps, told)?;
                steps.clear();
                writeln!(told, "{}", UsedText(drive.used()))?;
            }
            Line::Cut(moment) => {
                tell_steps(&mut drive, &steps, told)?;
                steps.clear();
                cut(&mut drive, *moment, told)?;
            }
        }
    }
    tell_steps(&mut drive, &steps, told)
}

/// Gives a drive these steps all at once. Each request leaves a record.
fn tell_steps(drive: &mut PlainDrive, steps: &[Step], told: &mut String) -> io::Result<()> {
    if !never_down(drive.last(), steps) {
        return Err(invalid());
    }
    let before = drive.history().len();
    let replies = drive.run(steps)?;
    if drive.history().len() != before.saturating_add(replies.len()) {
        writeln!(told, "a request left no record")?;
    }
    for reply in &replies {
        writeln!(told, "{}", ReplyText(reply))?;
    }
    Ok(())
}

/// Cuts a drive at a moment.
fn cut(drive: &mut PlainDrive, moment: Moment, told: &mut String) -> io::Result<()> {
    if moment > drive.horizon() {
        return Err(invalid());
    }
    let went = drive.cut(moment);
    Ok(writeln!(told, "{}", CutText(went))?)
}

/// Gives a drive the lines one by one, and cuts it at its horizon and frees so many values behind each.
pub fn tell_cut<S: Store<Version>>(
    drive: &mut Drive<S>,
    lines: &[Line],
    swept: u64,
    told: &mut String,
) -> io::Result<()> {
    for line in lines {
        tell_line(drive, line, told)?;
        let horizon = drive.horizon();
        drive.cut(horizon);
        drive.sweep(swept);
    }
    Ok(())
}

fn tell_line<S: Store<Version>>(
    drive: &mut Drive<S>,
    line: &Line,
    told: &mut String,
) -> io::Result<()> {
    match line {
        Line::Step(
            Step::Request {
                moment,
                caller,
                request,
            },
        ) if drive.last() <= *moment => {
            let reply = drive.step(*moment, *caller, request);
            writeln!(told, "{}", ReplyText(&reply))?;
        }
        Line::Step(Step::Request { .. }) => return Err(invalid()),
        Line::Step(Step::Sweep { n }) => {
            drive.sweep(*n);
        }
        Line::Used => writeln!(told, "{}", UsedText(drive.used()))?,
        Line::Cut(_) => {}
    }
    Ok(())
}
