//! Nothing but a test. `calls` makes calls of the library that can want memory, and tells of each case
//! whether all was as expected, or what was not; with a name it makes those of that case alone. That is
//! done without an argument too.
//!
//! The other words have it tell what a script or arrivals on standard input are told in ways that the
//! program s4d doesn't have (`ways`). The tests of the program compare that with what is wanted.
#![tactic(auto)]

mod calls;
mod texts;
mod ways;

use std::{env, io};

fn main(rt: HostRuntime) -> io::Result<()> {
    let words: Vec<String> = env::args(&rt)?.collect(rt.alloc())?;
    match word(&words, 1) {
        "" | "calls" => calls::make_all(&rt, &rt, word(&words, 2)),
        "hall" => ways::halls::tell(&rt, word(&words, 2), word(&words, 3)),
        "strike" => ways::strikes::tell(&rt, word(&words, 2)),
        _ => ways::scripts::tell(&rt, &rt, words.get(1..).unwrap_or_default()),
    }
}

/// The argument of that place, or an empty one.
fn word(words: &[String], place: usize) -> &str {
    match words.get(place) {
        Some(word) => word.as_str(),
        None => "",
    }
}
