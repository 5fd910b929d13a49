//! What is done with a front, line by line.

use s4_calls_for_tests::asked::{Told, What};

/// A call: by which pass, from 0; who asks; what the clock shows; and what is asked and replied. And the
/// receipt: the moment, the cell and the place.
pub struct Call(
    pub usize,
    pub u32,
    pub u64,
    pub What,
    pub Told,
    pub (u64, usize, u64),
);

/// What is done with a front, and what comes of it.
pub enum Line {
    /// These calls are made, one after the other.
    Calls(&'static [Call]),
    /// The pass of that number keeps its first calls no longer, so many: so many are left, and the
    /// moment of its last call is this one.
    Forget(usize, usize, usize, u64),
    /// All cells are cut at a moment, at that one.
    Cut(u64, u64),
    /// The cell of that number is cut at a moment, at that one.
    CutOne(usize, u64, u64),
    /// The cell of that number frees at most so many values: so many.
    Sweep(usize, u64, u64),
    /// From now on at most so many values are freed behind each ordinary request.
    FreedBehind(u64),
    /// Of the cell of that number, the records from a place on, at most so many: the place of the first of
    /// them, how many there are, and the moment of the last. None where there is no such cell.
    Since(usize, u64, usize, Option<(u64, usize, Option<u64>)>),
    /// The first pass asks again and again.
    Often(Often),
    /// The gate holds a call in cell 1 from now on.
    Arm,
    /// This is done by threads.
    Together(Together),
}

/// What a pass asks again and again.
pub enum Often {
    /// An object is made in each range up to 40, in the cell of its number modulo that of the cells; the
    /// window of all cells is set to the one that they have; and an object is made in each range again.
    Ranges,
    /// A principal writes their object from a moment on, so often, a tick later each time.
    Writes(u32, u64, u64),
    /// Principal 7 reads what isn't there, so often.
    Reads(u64),
}

/// What threads do with a front, each with a pass of its own.
pub enum Together {
    /// These calls are made. The second pass begins once the first is done, or is at the gate; and the
    /// gate lets that go on once the second is done.
    Calls(&'static [Call]),
    /// Each pass makes 105 calls, and keeps the last of them alone.
    Often,
    /// The first two calls are made by two workers: the second is put once the first is at the gate, and the
    /// gate lets that go on once the second is done.
    Jobs(&'static [Call]),
}

/// How a front ends.
pub enum End {
    /// It isn't closed.
    Open,
    /// It is closed, and this is so then.
    Closed(&'static [Check]),
    /// It isn't closed without its last pass, and then is with it.
    ClosedAgain(&'static [Check]),
    /// It isn't closed, since its cells don't start alike. They are left, and ever had so many records
    /// each.
    Torn(&'static [u64]),
}

/// What is so of a front that was closed.
pub enum Check {
    /// The one history has so many records.
    Records(usize),
    /// It has these, by their moments and callers.
    History(&'static [(u64, u32)]),
    /// So many records of each cell went.
    Gone(u64),
    /// The cells ever had so many records each, those that went among them.
    Ever(&'static [u64]),
    /// Of each cell some records went. Each pass keeps so many calls, the last one of that moment.
    Kept(usize, u64),
}

/// What is done with a front of so many cells, with a window and so many passes; and how it ends.
pub struct Case {
    pub name: &'static str,
    pub opened: (usize, u64, u64),
    pub lines: &'static [Line],
    pub end: End,
}
