//! Which records a base can follow.

ghost use Rattle.std.specs.Prelude.{◌≡◌, ◌≤◌, ℕ, List, [], ◌∷◌, ◌++◌};
ghost use Rattle.s4_types.specs.declared.record.Record.{Record};
ghost use Rattle.s4_types.specs.Base.{Base};
ghost use Rattle.s4_types.specs.Play.{InOrder, last_of, UpTo};
ghost use Rattle.s4_laws.specs.Bases.{IsBase};
ghost use Rattle.s4_cuts.specs.Cut.{before, since, left, base_at};
ghost use Rattle.s4_base.specs.Answered.{IsAnswered, AnsweredAfter};
ghost use Rattle.s4_base.specs.Changes.{CanFollow, CanFollowAll};

/// A base can follow what was answered: the next record from what the records before it leave, and
/// records that were answered in turn one after the other. Where it can follow records, it can
/// follow the first of them, and what these leave can follow the others.
pub fn bases_can_follow_what_was_answered()
    ensures next { (base : Base) (h : List Record) (r : Record)
        → IsBase base → base.cut ≤ r.moment → UpTo r.moment h → IsAnswered base h r
        → CanFollow (left base r.moment h) r }
    ensures in_turn { (base : Base) (h : List Record)
        → IsBase base → InOrder base.cut h → AnsweredAfter base [] h
        → CanFollowAll base h }
    ensures more { (base : Base) (h : List Record) (r : Record)
        → IsBase base → InOrder base.cut (h ++ r ∷ []) → IsAnswered base h r → CanFollowAll base h
        → CanFollowAll base (h ++ r ∷ []) }
    ensures first { (base : Base) (early late : List Record)
        → CanFollowAll base (early ++ late)
        → CanFollowAll base early }
    ensures others { (base : Base) (c : ℕ) (early late : List Record)
        → IsBase base → base.cut ≤ c → InOrder base.cut early → UpTo c early → InOrder c late
        → CanFollowAll base (early ++ late)
        → CanFollowAll (left base c early) late }
{}

/// A history that its base can follow can always be cut: the records before the moment can be
/// followed, in their order and up to the moment, and what they leave is a base that can follow the
/// records since the moment, which are in their order. A cut that isn't above the newest record
/// leaves it.
pub fn cuts_can_be_followed()
    ensures is_base { (base : Base) (h : List Record) (c : ℕ)
        → IsBase base → InOrder base.cut h
        → IsBase (base_at base h c) }
    ensures early { (base : Base) (h : List Record) (c : ℕ)
        → InOrder base.cut h
        → InOrder base.cut (before c h) }
    ensures last { (h : List Record) (c : ℕ) → UpTo c (before c h) }
    ensures order { (base : Base) (h : List Record) (c : ℕ)
        → IsBase base → InOrder base.cut h
        → InOrder (base_at base h c).cut (since c h) }
    ensures newest { (base : Base) (h : List Record) (c : ℕ)
        → InOrder base.cut h → c ≤ last_of h
        → last_of (since c h) ≡ last_of h }
    ensures before { (base : Base) (h : List Record) (c : ℕ)
        → InOrder base.cut h → CanFollowAll base h
        → CanFollowAll base (before c h) }
    ensures since { (base : Base) (h : List Record) (c : ℕ)
        → IsBase base → InOrder base.cut h → CanFollowAll base h
        → CanFollowAll (base_at base h c) (since c h) }
{}
