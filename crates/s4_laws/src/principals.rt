//! A principal is served as if strangers were not there.

ghost use Rattle.std.specs.Prelude.{◌≡◌, ◌==◌, ℕ, false, List};
ghost use Rattle.s4_types.specs.declared.record.Step.{Step};
ghost use Rattle.s4_types.specs.Base.{opened};
ghost use Rattle.s4_types.specs.Play.{play, replies, NeverDown};
ghost use Rattle.s4_types.specs.Strike.{is_near, strike, records_of};
ghost use Rattle.s4_laws.specs.Kept.{without_strangers};

/// On a fresh drive a principal other than the administrator is answered as in the run from which its strangers are
/// struck out: its records are the same, in the same order, and so are its replies. All records of the struck run are
/// those of the whole one without the strangers'. Its moments never go down where those of the whole one don't
/// (docs/MODEL.md, "Isolation").
pub fn strangers_change_nothing()
    ensures records { (window who : ℕ) (steps : List Step) → (who == 0) ≡ false
        → records_of who (play (opened window) (strike who steps)) ≡ records_of who (play (opened window) steps) }
    ensures replies { (window who : ℕ) (steps : List Step) → (who == 0) ≡ false
        → replies (records_of who (play (opened window) (strike who steps))) ≡ replies (records_of who (play (opened window) steps)) }
    ensures struck { (window who : ℕ) (steps : List Step) → (who == 0) ≡ false
        → play (opened window) (strike who steps) ≡ without_strangers who (is_near who steps) (play (opened window) steps) }
    ensures moments { (from who : ℕ) (steps : List Step) → NeverDown from steps → NeverDown from (strike who steps) }
{}
