//! How the horizon moves.

ghost use Rattle.std.specs.Prelude.{◌≡◌, ◌≤◌, ℕ, List, [], ◌∷◌, ◌++◌, filter};
ghost use Rattle.s4_types.specs.declared.record.Record.{Record};
ghost use Rattle.s4_types.specs.Base.{Base};
ghost use Rattle.s4_types.specs.Horizon.{horizon_at};
ghost use Rattle.s4_types.specs.Kinds.{concerns_all};
ghost use Rattle.s4_laws.specs.Windows.{horizon_by_rule};

/// The horizon depends on the records that concern all purses, and on no others (docs/MODEL.md,
/// "The horizon").
pub fn horizons_depend_on_wide_changes()
    ensures { (base : Base) (t : ℕ) (h k : List Record)
        → filter concerns_all h ≡ filter concerns_all k → horizon_at base h t ≡ horizon_at base k t }
{}

/// Whatever record comes next, the horizon never goes back (docs/MODEL.md, "The horizon").
pub fn horizons_never_go_back()
    ensures { (base : Base) (h : List Record) (r : Record) (t u : ℕ)
        → t ≤ r.moment → r.moment ≤ u → horizon_at base h t ≤ horizon_at base (h ++ r ∷ []) u }
{}

/// The horizon is the greatest of these: the base's floor; of each accepted SetWindow its moment less the window in
/// force before it; and the moment less the window that was set last (docs/MODEL.md, "The horizon").
pub fn horizons_are_by_rule()
    ensures { (base : Base) (h : List Record) (t : ℕ) → horizon_at base h t ≡ horizon_by_rule base h t }
{}
