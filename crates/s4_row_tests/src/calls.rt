//! Calls of the library that can want memory, each on a worked case. They are made with plenty of
//! memory, and by `./check refusals calls` with each allocation of them refused in turn. For each case it is
//! told whether all was as expected, and how many calls told that there was no memory.

mod asked;
mod case;
mod fronts;
mod lent;
mod many;
mod pieces;
mod reads;
mod rooms;
mod serving;
mod steps;
mod talks;
mod windows;

use crate::calls::case::Case;
use crate::calls::fronts::Marked;
use crate::calls::lent::Served;
use crate::calls::talks::Peer;
use std::io;
use std::sync::Wait;

/// What is called.
#[derive(Clone, Copy)]
enum Called {
    /// A drive over the plain store steps through the requests of a row.
    OverPlainStore(&'static str),
    /// A drive over the arena does.
    OverArena(&'static str),
    /// An arena with so many items and so many blocks makes room for 200 more, and then has so many
    /// blocks.
    Reserve(u64, u64, u64),
    /// A session hears a stream in pieces of so many bytes.
    Feed(usize),
    /// A hall hears a stream, a frame at a time. Its requests are those of the row three_calls_at_five.
    Arrive,
    /// A front of five cells serves seven requests, and is closed.
    Front(Marked),
    /// A front of two cells serves these.
    Lent(Served),
}

const CASES: [(&str, Called); 33] = [
    (
        "step_plain_first_moments",
        Called::OverPlainStore("first_moments"),
    ),
    (
        "step_plain_recovery_flag",
        Called::OverPlainStore("recovery_flag"),
    ),
    ("step_plain_flush", Called::OverPlainStore("flush")),
    (
        "step_plain_visible_names_alone",
        Called::OverPlainStore("visible_names_alone"),
    ),
    (
        "step_plain_bound_object",
        Called::OverPlainStore("bound_object"),
    ),
    ("step_plain_audit", Called::OverPlainStore("audit")),
    (
        "step_arena_first_moments",
        Called::OverArena("first_moments"),
    ),
    (
        "step_arena_recovery_flag",
        Called::OverArena("recovery_flag"),
    ),
    ("step_arena_flush", Called::OverArena("flush")),
    (
        "step_arena_visible_names_alone",
        Called::OverArena("visible_names_alone"),
    ),
    ("step_arena_bound_object", Called::OverArena("bound_object")),
    ("step_arena_audit", Called::OverArena("audit")),
    (
        "step_arena_three_calls_at_five",
        Called::OverArena("three_calls_at_five"),
    ),
    ("reserve_empty", Called::Reserve(0, 0, 4)),
    ("reserve_with_60_items", Called::Reserve(60, 1, 5)),
    ("feed_pieces_of_1", Called::Feed(1)),
    ("feed_pieces_of_3", Called::Feed(3)),
    ("feed_pieces_of_64", Called::Feed(64)),
    ("feed_at_once", Called::Feed(1000)),
    ("arrive", Called::Arrive),
    ("serve", Called::Front(Marked::Calls)),
    ("close", Called::Front(Marked::Closing)),
    ("serve_many", Called::Lent(Served::Many)),
    ("read_whole_values", Called::Lent(Served::Reads(4096))),
    ("read_single_bytes", Called::Lent(Served::Reads(1))),
    (
        "set_window_over_none",
        Called::Lent(Served::SetWindow("0 7 read 7.0.1 0 1", "0 8 read 8.0.1 0 1")),
    ),
    (
        "set_window_over_values",
        Called::Lent(Served::SetWindow("0 7 create 0", "0 8 create 0")),
    ),
    ("talk_silent", Called::Lent(Served::Talk(Peer::Silent))),
    (
        "talk_announcing",
        Called::Lent(Served::Talk(Peer::Announcing)),
    ),
    (
        "talk_half_a_frame",
        Called::Lent(Served::Talk(Peer::HalfAFrame)),
    ),
    (
        "talk_reading_all",
        Called::Lent(Served::Talk(Peer::ReadingAll)),
    ),
    (
        "talk_reading_nothing",
        Called::Lent(Served::Talk(Peer::ReadingNothing)),
    ),
    (
        "talk_behind_a_greatest_frame",
        Called::Lent(Served::Talk(Peer::BehindAGreatestFrame)),
    ),
];

/// Makes the calls of all cases, or of the one of that name, and tells what came of each, and in the end
/// how many there were.
pub fn make_all<R: Wait>(rt: &HostRuntime, waits: &R, chosen: &str) -> io::Result<()> {
    let (mut count, mut wrong) = (0usize, 0usize);
    for (name, called) in CASES {
        if chosen.is_empty() || chosen == name {
            let mut case = Case::new(rt, name);
            carry_out(&mut case, waits, called)?;
            count = count.saturating_add(1);
            wrong = wrong.saturating_add(usize::from(!case.tell()?));
        }
    }
    println!(rt; "{count} cases, {wrong} not as expected")
}

/// Carries out a case.
fn carry_out<R: Wait>(case: &mut Case, rt: &R, called: Called) -> io::Result<()> {
    match called {
        Called::OverPlainStore(row) => steps::over_plain_store(case, row),
        Called::OverArena(row) => steps::over_arena(case, row),
        Called::Reserve(items, before, after) => rooms::reserve(case, items, before, after),
        Called::Feed(size) => pieces::feed(case, size),
        Called::Arrive => pieces::arrive(case),
        Called::Front(marked) => fronts::serve(case, rt, marked),
        Called::Lent(served) => lent::serve(case, rt, served),
    }
}
