//! What an answer depends on.

ghost use Rattle.std.specs.Prelude.{◌≡◌, ◌%◌, ℕ, true, List};
ghost use Rattle.s4_types.specs.declared.principal.Caller.{Caller};
ghost use Rattle.s4_types.specs.declared.request.Request.{Request};
ghost use Rattle.s4_types.specs.declared.record.Record.{Record};
ghost use Rattle.s4_types.specs.Answer.{answer};
ghost use Rattle.s4_types.specs.Base.{Base};
ghost use Rattle.s4_types.specs.Kinds.{is_wide, range_of};
ghost use Rattle.s4_merge_laws.specs.Cells.{records_in};

/// The answer to a request depends on the records of the cell that has its range, the wide ones among
/// them, and on no others.
pub fn answers_depend_on_their_cell()
    ensures { (base : Base) (cells cell : ℕ) (h : List Record) (t : ℕ) (caller : Caller) (request : Request)
        → range_of caller request % cells ≡ cell
        → answer base (records_in cells cell h) t caller request ≡ answer base h t caller request }
{}

/// The answer to a wide request depends on the request alone.
pub fn wide_answers_depend_on_no_record()
    ensures { (base other : Base) (h k : List Record) (t : ℕ) (caller : Caller) (request : Request)
        → is_wide caller request ≡ true
        → answer base h t caller request ≡ answer other k t caller request }
{}
