//! Histories that are cut.

ghost use Rattle.std.specs.Prelude.{◌≡◌, ◌≤◌, ℕ, List, [], ◌∷◌, ◌++◌};
ghost use Rattle.s4_types.specs.declared.record.Record.{Record};
ghost use Rattle.s4_types.specs.declared.record.Step.{Step};
ghost use Rattle.s4_types.specs.Base.{Base, opened};
ghost use Rattle.s4_types.specs.Horizon.{horizon_at};
ghost use Rattle.s4_types.specs.Play.{play_on, NeverDown, InOrder};
ghost use Rattle.s4_laws.specs.Bases.{IsBase};
ghost use Rattle.s4_cuts.specs.Cut.{before, since, left, base_at, told, IsHistory};

/// A history that is cut at a moment that isn't above its horizon goes on as the whole one: what the records
/// before the moment leave, followed by the records from it on, gives the same replies and the same new records.
pub fn cuts_change_no_reply()
    ensures replies { (base : Base) (h : List Record) (c t : ℕ) (steps : List Step)
        → IsHistory base h t → c ≤ horizon_at base h t → NeverDown t steps
        → told (base_at base h c) (since c h) steps ≡ told base h steps }
    ensures records { (base : Base) (h : List Record) (c t : ℕ) (steps : List Step)
        → IsHistory base h t → c ≤ horizon_at base h t → NeverDown t steps
        → before c h ++ play_on (base_at base h c) (since c h) steps ≡ play_on base h steps }
{}

/// The base of a fresh drive is one, and what a cut leaves is a history again. Its base at a later moment is that of
/// the whole history, and a cut below an earlier one leaves all as it is. What records leave can be told one record
/// after the other.
pub fn cuts_add_up()
    ensures fresh { (window : ℕ) → IsBase (opened window) }
    ensures cut { (base : Base) (h : List Record) (c t : ℕ) → IsHistory base h t → c ≤ t
        → IsHistory (base_at base h c) (since c h) t }
    ensures later { (base : Base) (h : List Record) (c d : ℕ)
        → IsBase base → InOrder base.cut h → c ≤ d
        → base_at (base_at base h c) (since c h) d ≡ base_at base h d }
    ensures earlier { (base : Base) (h : List Record) (c d : ℕ)
        → IsBase base → InOrder base.cut h → d ≤ c
        → base_at (base_at base h c) (since c h) d ≡ base_at base h c }
    ensures kept { (base : Base) (h : List Record) (c d : ℕ)
        → IsBase base → InOrder base.cut h → d ≤ c
        → since d (since c h) ≡ since c h }
    ensures step { (base : Base) (c : ℕ) (r : Record) (h : List Record)
        → IsBase base → base.cut ≤ r.moment → r.moment ≤ c
        → left base c (r ∷ h) ≡ left (left base r.moment (r ∷ [])) c h }
{}
