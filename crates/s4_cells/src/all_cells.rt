//! A request of all purses: it is carried out on every cell, or on none.

ghost use Rattle.std.specs.Prelude.{◌≡◌, ◌<◌, ◌≤◌, ◌+◌, true, false, length, IsTrue, IfOk, OnOk, OnErr};
ghost use Rattle.s4_types.specs.Answer.{answer as answer_of};
ghost use Rattle.s4_types.specs.Kinds.{is_wide};
ghost use Rattle.s4_types.specs.Limits.{data_asked, data_in, is_within_limits};
ghost use Rattle.s4_types.specs.Play.{last_of, is_no_memory};
ghost use Rattle.s4_types.specs.Log.{base_of};
ghost use Rattle.s4_cells.specs.Counts.{count_of};
ghost use Rattle.s4_cells.specs.Many.{Each, EachNow, AllAdd, AllStay, AreReady, wide_record};

use crate::cell::Cell;
use s4_drive::Answered;
use s4_types::{Caller, Moment, NoMemory, Refusal, Reply, Request};

/// Answers a wide request, a Flush or a SetWindow of the administrator, at a moment that isn't
/// before any cell's newest record, and adds the same record to every cell. Where a growth was
/// refused it answers `NoMemory`, and no cell has changed.
pub fn wide(cells: &mut [Cell], moment: Moment, caller: Caller, request: &Request) -> Reply
    requires some { 0 < length cells.old }
    requires wide { is_wide caller request.now ≡ true }
    requires later { Each (λ c. last_of c.history ≤ moment) cells.old }
    ensures reply { is_no_memory result ≡ false
        → Each (λ c. result ≡ answer_of (base_of c) c.history moment caller request.now) cells.old }
    ensures adds { is_no_memory result ≡ false
        → AllAdd (record {
          moment = moment;
          caller = caller;
          request = request.now;
          reply = result;
        }) cells.old cells.new }
    ensures counts { is_no_memory result ≡ false
        → EachNow (λ old new. count_of new ≡ count_of old + 1) cells.old cells.new }
    ensures refused { is_no_memory result ≡ true → AllStay cells.old cells.new }
    ensures limits { IsTrue (is_within_limits caller.version result) }
    ensures asked { data_in result ≤ data_asked request.now }
{
    match wide_with_copy(cells, moment, caller, request) {
        Ok(told) => told.reply,
        Err(_) => Reply::Refused(Refusal::NoMemory),
    }
}

/// The same, which gives its reply twice: for a caller who keeps one and hands one on. An `Err`
/// stands in the place of the reply `NoMemory`.
pub fn wide_with_copy(
    cells: &mut [Cell],
    moment: Moment,
    caller: Caller,
    request: &Request,
) -> Result<Answered, NoMemory>
    requires some { 0 < length cells.old }
    requires wide { is_wide caller request.now ≡ true }
    requires later { Each (λ c. last_of c.history ≤ moment) cells.old }
    ensures reply { IfOk result (λ told. Each
        (λ c. told.reply ≡ answer_of (base_of c) c.history moment caller request.now) cells.old) }
    ensures copy { IfOk result (λ told. told.copy ≡ told.reply) }
    ensures adds { IfOk result (λ told.
        AllAdd (record {
          moment = moment;
          caller = caller;
          request = request.now;
          reply = told.reply;
        }) cells.old cells.new) }
    ensures counts { OnOk result (EachNow (λ old new. count_of new ≡ count_of old + 1)
        cells.old cells.new) }
    ensures refused { OnErr result (AllStay cells.old cells.new) }
    ensures limits { IfOk result (λ told. IsTrue (is_within_limits caller.version told.reply)) }
    ensures asked { IfOk result (λ told. data_in told.reply ≤ data_asked request.now) }
{
    make_ready(cells, request)?;
    Ok(step_all(cells, moment, caller, request))
}

// Makes every cell ready for the request, so that none is refused a growth once the first was
// stepped.
fn make_ready(cells: &mut [Cell], request: &Request) -> Result<(), NoMemory>
    ensures stay { AllStay cells.old cells.new }
    ensures ready { OnOk result (AreReady request.now (length cells.new) cells.new) }
{
    for place in 0..cells.len() {
        cells[place].ready_for(request)?;
    }
    Ok(())
}

// Adds the record to every cell, each of which is ready.
fn step_all(cells: &mut [Cell], moment: Moment, caller: Caller, request: &Request) -> Answered
    requires some { 0 < length cells.old }
    requires ready { AreReady request.now (length cells.old) cells.old }
    requires wide { is_wide caller request.now ≡ true }
    requires later { Each (λ c. last_of c.history ≤ moment) cells.old }
    ensures reply { result.reply ≡ (wide_record moment caller request.now).reply }
    ensures copy { result.copy ≡ result.reply }
    ensures adds { AllAdd (wide_record moment caller request.now) cells.old cells.new }
    ensures limits { IsTrue (is_within_limits caller.version result.reply) }
    ensures asked { data_in result.reply ≤ data_asked request.now }
{
    let mut told = Answered {
        reply: Reply::Done,
        copy: Reply::Done,
    };
    for place in 0..cells.len() {
        told = cells[place].step_ready(moment, &caller, request);
    }
    told
}
