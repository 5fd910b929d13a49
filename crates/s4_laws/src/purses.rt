//! What a purse depends on.

ghost use Rattle.std.specs.Prelude.{◌≡◌, ℕ, List};
ghost use Rattle.s4_types.specs.declared.object.Purse.{Purse};
ghost use Rattle.s4_types.specs.declared.record.Record.{Record};
ghost use Rattle.s4_types.specs.Base.{Base};
ghost use Rattle.s4_types.specs.Bindings.{bindings, bound_at, names_of};
ghost use Rattle.s4_types.specs.Names.{object_in};
ghost use Rattle.s4_types.specs.Serials.{drawn};
ghost use Rattle.s4_types.specs.Spending.{budget_of, spent_above, spent_at};
ghost use Rattle.s4_types.specs.Versions.{lives_at, versions, data_track, attribute_track, acl_track};
ghost use Rattle.s4_laws.specs.Agree.{AgreeOn};

/// The life and the values of a purse's objects, the purse's serials, and what its names are bound
/// to depend on the records that concern the purse, and on no others (docs/MODEL.md, "Kinds").
pub fn purses_depend_on_their_records()
    ensures life { (base : Base) (purse : Purse) (serial m : ℕ) (h k : List Record) → AgreeOn purse h k
        → lives_at base m (object_in purse serial) h ≡ lives_at base m (object_in purse serial) k }
    ensures data_track { (base : Base) (purse : Purse) (serial : ℕ) (h k : List Record) → AgreeOn purse h k
        → versions base data_track (object_in purse serial) h ≡ versions base data_track (object_in purse serial) k }
    ensures attribute_track { (base : Base) (purse : Purse) (serial : ℕ) (h k : List Record) → AgreeOn purse h k
        → versions base attribute_track (object_in purse serial) h ≡ versions base attribute_track (object_in purse serial) k }
    ensures acl_track { (base : Base) (purse : Purse) (serial : ℕ) (h k : List Record) → AgreeOn purse h k
        → versions base acl_track (object_in purse serial) h ≡ versions base acl_track (object_in purse serial) k }
    ensures serials { (base : Base) (purse : Purse) (h k : List Record) → AgreeOn purse h k → drawn base purse h ≡ drawn base purse k }
    ensures bindings { (base : Base) (purse : Purse) (name : List ℕ) (h k : List Record) → AgreeOn purse h k
        → bindings base purse name h ≡ bindings base purse name k }
    ensures names { (base : Base) (purse : Purse) (h k : List Record) → AgreeOn purse h k → names_of base purse h ≡ names_of base purse k }
    ensures bound { (base : Base) (purse : Purse) (name : List ℕ) (m : ℕ) (h k : List Record) → AgreeOn purse h k
        → bound_at base purse name m h ≡ bound_at base purse name m k }
{}

/// What a purse may spend, what its past costs above a horizon, and what it spends at a moment depend
/// on the records that concern the purse, and on no others (docs/MODEL.md, "Spending and budgets").
pub fn spending_depends_on_its_purse()
    ensures budget { (base : Base) (purse : Purse) (h k : List Record)
        → AgreeOn purse h k → budget_of base purse h ≡ budget_of base purse k }
    ensures above { (base : Base) (purse : Purse) (horizon : ℕ) (h k : List Record) → AgreeOn purse h k
        → spent_above base purse horizon h ≡ spent_above base purse horizon k }
    ensures spent { (base : Base) (purse : Purse) (t : ℕ) (h k : List Record) → AgreeOn purse h k
        → spent_at base purse h t ≡ spent_at base purse k t }
{}
