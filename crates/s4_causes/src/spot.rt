//! Where a line goes wrong.

ghost use Rattle.std.specs.Prelude.{◌≡◌, ◌≤◌, ◌<◌, ◌-◌, ◌++◌, IfOk, length, take};
ghost use Rattle.s4_causes.specs.Begun.{Begins, samples};

use crate::form::Form;
use crate::place::Place;
use crate::slots::Slot;
use s4_types::NoMemory;
use std::alloc::Global;

/// A word of a line that isn't taken. It begins and ends at these bytes; one that lacks begins behind the
/// line.
#[derive(Clone, Copy)]
pub struct Spot {
    /// Its number, from 1.
    pub number: usize,
    pub start: usize,
    pub end: usize,
    /// What belongs there; none where nothing does.
    pub place: Option<Place>,
}

/// The first word with which a line of this form isn't taken, though samples of its further places stand
/// behind it. A line that is too short goes wrong where a word lacks, and one that is too long where
/// nothing belongs.
pub fn spot_in(form: Form, alloc: Global, line: &[u8], slots: &[Slot]) -> Result<Spot, NoMemory>
    // A line that is taken begins with the words before it.
    ensures begins { IfOk result
        (λ spot. 0 < spot.start → Begins form (take (spot.start - 1) line.now)) }
{
    let mut start = 0;
    for (before, slot) in slots.iter().enumerate() {
        let end = end_of_word(line, start);
        let spot = Spot {
            number: before + 1,
            start,
            end,
            place: Some(slot.place),
        };
        if start > line.len() {
            return Ok(spot);
        }
        let tried = with_samples(alloc, &line[..end], &slots[before + 1..])?;
        if !form.takes(alloc, tried.as_slice())? {
            return Ok(spot);
        }
        start = end + 1;
    }
    Ok(Spot {
        number: slots.len() + 1,
        start,
        end: end_of_word(line, start),
        place: None,
    })
}

/// Where the word ends that begins at this byte of a line.
fn end_of_word(line: &[u8], start: usize) -> usize
    ensures { result ≤ length line.now }
{
    for at in start..line.len() {
        if line[at] == b' ' {
            return at;
        }
    }
    line.len()
}

/// The text, and the samples of these places behind it.
fn with_samples(alloc: Global, text: &[u8], slots: &[Slot]) -> Result<Vec<u8>, NoMemory>
    ensures { IfOk result (λ whole. whole.items ≡ text.now ++ samples slots.now) }
{
    let mut whole = Vec::new(alloc);
    whole.extend_from_slice(text)?;
    for slot in slots {
        whole.push(b' ')?;
        whole.extend_from_slice(slot.sample.as_bytes())?;
    }
    Ok(whole)
}
