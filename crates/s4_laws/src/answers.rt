//! What every answer keeps to.

ghost use Rattle.std.specs.Prelude.{◌≡◌, ◌≤◌, ℕ, false, List};
ghost use Rattle.s4_types.specs.declared.principal.Caller.{Caller};
ghost use Rattle.s4_types.specs.declared.request.Request.{Request};
ghost use Rattle.s4_types.specs.declared.record.Record.{Record};
ghost use Rattle.s4_types.specs.Answer.{answer};
ghost use Rattle.s4_types.specs.Base.{Base};
ghost use Rattle.s4_types.specs.Limits.{data_asked, data_in};
ghost use Rattle.s4_types.specs.Play.{is_no_memory};

/// No request is answered by want of memory: that reply comes from the machine, and never from the records so far
/// (docs/MODEL.md, "Answers").
pub fn answers_are_never_want_of_memory()
    ensures { (base : Base) (h : List Record) (t : ℕ) (caller : Caller) (request : Request)
        → is_no_memory (answer base h t caller request) ≡ false }
{}

/// No answer gives more data than was asked for: at most as many bytes as a Read names, and none to any
/// other request (docs/MODEL.md, "Limits").
pub fn answers_give_no_more_than_was_asked()
    ensures { (base : Base) (h : List Record) (t : ℕ) (caller : Caller) (request : Request)
        → data_in (answer base h t caller request) ≤ data_asked request }
{}
