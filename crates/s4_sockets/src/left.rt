//! What records of a principal's requests take.

ghost use Rattle.std.specs.Prelude.{◌≡◌, ◌≤◌, ◌<◌, ◌+◌, ◌-◌, ◌^◌, [], length, IfOk, IfSome, IfNone, nat_lt, if◌then◌else◌, ◌∷◌};
ghost use Rattle.std.specs.VecDeque.{deque_capacity, deque_len};
ghost use Rattle.s4_sockets.specs.Records.{brought, fit, given, left_at, may_leave, record_bytes, span_bytes};

use s4_types::{Moment, NoMemory, Principal, Reply, Request};
use std::alloc::Global;
use std::collections::VecDeque;

/// How many bytes a record takes beside its data, with its places in the indexes.
const RECORD: u64 = 260;

/// How many bytes a line of a page of names takes.
const NAME: u64 = 80;

/// The same of a line of an audit.
const LINE: u64 = 24;

/// How many spans there are before the newest one, at most.
const SPANS: usize = 128;

/// How many bytes a record takes of this request with this reply.
pub fn record_bytes(request: &Request, reply: &Reply) -> u64
    ensures { result ≡ record_bytes request.now reply.now }
{
    RECORD
        .saturating_add(brought(request))
        .saturating_add(given(reply))
}

/// How many bytes a request brings.
fn brought(request: &Request) -> u64
    ensures { result ≡ brought request.now }
{
    match request {
        Request::Write { bytes, .. }
        | Request::Append { bytes, .. }
        | Request::SetAttr { bytes, .. } => bytes.len() as u64,
        _ => 0,
    }
}

/// How many bytes of a record are what a reply gives.
fn given(reply: &Reply) -> u64
    ensures { result ≡ given reply.now }
{
    match reply {
        Reply::Data { bytes, .. } | Reply::Attr { bytes, .. } => bytes.len() as u64,
        Reply::Names { lines, .. } => (lines.as_slice().len() as u64).saturating_mul(NAME),
        Reply::Audit { lines, .. } => (lines.as_slice().len() as u64).saturating_mul(LINE),
        _ => 0,
    }
}

/// The records that a principal's requests have left and that aren't gone yet: how many bytes they take,
/// by the spans of time in which they were made.
#[derive(Drop)]
pub(crate) struct Left {
    /// The spans before the newest one, the oldest first.
    older: VecDeque<Span>,
    newest: Span,
    bytes: u64,
    ghost room: { 128 ≤ deque_capacity older },
    ghost all: { bytes ≡ span_bytes older.items + newest.bytes },
}

/// The records that were made from a moment up to another, in ticks.
#[derive(Clone, Copy)]
struct Span {
    first: u64,
    last: u64,
    bytes: u64,
}

impl Left {
    /// No records.
    pub(crate) fn new(alloc: Global) -> Result<Left, NoMemory>
        ensures none { IfOk result (λ left. left.bytes ≡ 0) }
    {
        Ok(Left {
            older: VecDeque::with_capacity(alloc, SPANS)?,
            newest: Span::at(0),
            bytes: 0,
        })
    }

    /// How many bytes they take.
    pub(crate) fn bytes(&self) -> u64
        ensures { result ≡ self.now.bytes }
    {
        self.bytes
    }

    /// Whether a request of this principal, whose records they are, may leave one more: where they take
    /// less than the most that they may. The administrator's always may.
    pub(crate) fn has_room(&self, who: &Principal, most: Option<u64>) -> bool
        ensures { result ≡ may_leave who.now most self.now.bytes }
    {
        who.is_administrator() || most.is_none_or(|most| self.bytes < most)
    }

    /// A record of so many bytes was made at this moment. Those of so many ticks are of one span, where
    /// there is room for as many spans.
    pub(crate) fn add(&mut self, moment: Moment, bytes: u64, ticks: u64)
        ensures bytes { self.new.bytes ≡ fit (self.old.bytes + bytes) }
        ensures newest { moment ≤ self.new.newest.last }
    {
        self.begin_span(moment.tick(), ticks);
        let more = bytes.min(u64::MAX - self.bytes);
        self.bytes += more;
        self.newest.bytes += more;
        self.newest.last = self.newest.last.max(moment.tick());
    }

    /// Has a new span begin at this moment, where that is so many ticks behind the newest one's begin,
    /// or nothing is left of that.
    fn begin_span(&mut self, moment: u64, ticks: u64)
        ensures bytes { self.new.bytes ≡ self.old.bytes }
    {
        if self.newest.bytes == 0 {
            self.newest = Span::at(moment);
        } else if moment.saturating_sub(self.newest.first) >= ticks && self.older.len() < SPANS {
            self.older.push_back_reserved(self.newest);
            self.newest = Span::at(moment);
        }
    }

    /// The records before this moment went.
    pub(crate) fn cut(&mut self, cut: Moment)
        ensures older { self.new.older.items ≡ left_at cut self.old.older.items }
        ensures newest { self.new.newest.bytes
            ≡ (if nat_lt self.old.newest.last cut then 0 else self.old.newest.bytes) }
    {
        while let Some(gone) = take_gone(&mut self.older, cut.tick()) {
            self.bytes -= gone.bytes;
        }
        if self.newest.last < cut.tick() {
            self.bytes -= self.newest.bytes;
            self.newest.bytes = 0;
        }
    }
}

impl Span {
    /// One that begins at this moment. No record was made in it.
    fn at(moment: u64) -> Span
        ensures bytes { result.bytes ≡ 0 }
    {
        Span {
            first: moment,
            last: moment,
            bytes: 0,
        }
    }
}

/// Takes the oldest span, where all of its records were made before this moment.
fn take_gone(spans: &mut VecDeque<Span>, cut: u64) -> Option<Span>
    ensures taken { IfSome result (λ span. spans.old.items ≡ span ∷ spans.new.items) }
    ensures gone { IfSome result (λ span. span.last < cut) }
    ensures none { IfNone result (left_at cut spans.old.items ≡ spans.old.items) }
    ensures same { IfNone result (spans.new.items ≡ spans.old.items) }
    ensures capacity { deque_capacity spans.new ≡ deque_capacity spans.old }
{
    let oldest = *spans.front()?;
    if oldest.last >= cut {
        return None;
    }
    spans.pop_front()
}
