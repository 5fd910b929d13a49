//! What is in force on the tracks of an object, and what is past.

ghost use Rattle.std.specs.Prelude.{◌≡◌, ◌≤◌, ℕ, true, false, Some, List, ◌∷◌, ◌++◌, filter, map, option_to_list};
ghost use Rattle.std.specs.List.{list_all};
ghost use Rattle.std.specs.Option.{option_map};
ghost use Rattle.s4_types.specs.declared.object.ObjectId.{ObjectId};
ghost use Rattle.s4_types.specs.declared.object.Purse.{Purse};
ghost use Rattle.s4_types.specs.declared.acl.AclEntry.{AclEntry};
ghost use Rattle.s4_types.specs.declared.record.Record.{Record};
ghost use Rattle.s4_types.specs.declared.record.Step.{Step};
ghost use Rattle.s4_types.specs.Base.{Base, opened};
ghost use Rattle.s4_types.specs.Bindings.{bindings, bound_at};
ghost use Rattle.s4_types.specs.Play.{play, InOrder, NeverDown};
ghost use Rattle.s4_types.specs.Erased.{is_whole, is_past_or_whole};
ghost use Rattle.s4_types.specs.Versions.{Value, versions, value_at, in_force_by, data_track, attribute_track, acl_track};
ghost use Rattle.s4_laws.specs.Applied.{applied, bound_in_turn};
ghost use Rattle.s4_laws.specs.Bases.{IsBase};
ghost use Rattle.s4_laws.specs.InForce.{is_in_force, made_count, IsDrawn};
ghost use Rattle.s4_laws.specs.Later.{left_by, newer_by};

/// From the base on, the value in force at a moment is what the changes up to that moment make of what the base keeps,
/// applied in the order of the list: a Create begins with the track's start, and a Delete leaves no value
/// (docs/MODEL.md, "Tracks").
pub fn values_are_applied_in_order()
    ensures data_track { (base : Base) (o : ObjectId) (m : ℕ) (h : List Record) → IsBase base → base.cut ≤ m → InOrder base.cut h
        → option_map (λ v. v.value) (value_at base data_track o m h) ≡ applied base data_track o m h }
    ensures attribute_track { (base : Base) (o : ObjectId) (m : ℕ) (h : List Record) → IsBase base → base.cut ≤ m → InOrder base.cut h
        → option_map (λ v. v.value) (value_at base attribute_track o m h) ≡ applied base attribute_track o m h }
    ensures acl_track { (base : Base) (o : ObjectId) (m : ℕ) (h : List Record) → IsBase base → base.cut ≤ m → InOrder base.cut h
        → option_map (λ v. v.value) (value_at base acl_track o m h) ≡ applied base acl_track o m h }
{}

/// From the base on, a name is bound at a moment to what its bindings and unbindings up to that moment leave, carried out
/// in the order of the list: the object of the last PCreate, if no PDelete of the name comes after it (docs/MODEL.md,
/// "Partitions").
pub fn bindings_are_carried_out_in_order()
    ensures { (base : Base) (purse : Purse) (name : List ℕ) (m : ℕ) (h : List Record)
        → IsBase base → base.cut ≤ m → InOrder base.cut h → bound_at base purse name m h ≡ bound_in_turn base purse name m h }
{}

/// A value is in force from its begin up to, and without, its end: what `value_at` finds began by the moment and hasn't
/// ended by then, and of an object that is made once it is the only such value (docs/MODEL.md, "Tracks").
pub fn values_are_in_force_from_begin_to_end()
    ensures found_data { (base : Base) (o : ObjectId) (m : ℕ) (h : List Record) (v : Value (List ℕ))
        → value_at base data_track o m h ≡ Some v → is_in_force m v ≡ true }
    ensures found_attributes { (base : Base) (o : ObjectId) (m : ℕ) (h : List Record) (v : Value (List ℕ))
        → value_at base attribute_track o m h ≡ Some v → is_in_force m v ≡ true }
    ensures found_acl { (base : Base) (o : ObjectId) (m : ℕ) (h : List Record) (v : Value (List AclEntry))
        → value_at base acl_track o m h ≡ Some v → is_in_force m v ≡ true }
    ensures only_data { (base : Base) (o : ObjectId) (m : ℕ) (h : List Record) → IsBase base → InOrder base.cut h → made_count base o h ≤ 1
        → filter (is_in_force m) (versions base data_track o h) ≡ option_to_list (value_at base data_track o m h) }
    ensures only_attributes { (base : Base) (o : ObjectId) (m : ℕ) (h : List Record)
        → IsBase base → InOrder base.cut h → made_count base o h ≤ 1
        → filter (is_in_force m) (versions base attribute_track o h) ≡ option_to_list (value_at base attribute_track o m h) }
    ensures only_acl { (base : Base) (o : ObjectId) (m : ℕ) (h : List Record) → IsBase base → InOrder base.cut h → made_count base o h ≤ 1
        → filter (is_in_force m) (versions base acl_track o h) ≡ option_to_list (value_at base acl_track o m h) }
{}

/// A binding is in force from its begin up to, and without, its end, and in every run a name is bound to one object at
/// a time (docs/MODEL.md, "Partitions").
pub fn bindings_are_in_force_from_begin_to_end()
    ensures found { (base : Base) (purse : Purse) (name : List ℕ) (m : ℕ) (h : List Record) (v : Value ℕ)
        → in_force_by m (bindings base purse name h) ≡ Some v → is_in_force m v ≡ true }
    ensures only { (base : Base) (purse : Purse) (name : List ℕ) (m : ℕ) (steps : List Step) → IsBase base → NeverDown base.cut steps
        → filter (is_in_force m) (bindings base purse name (play base steps))
        ≡ option_to_list (in_force_by m (bindings base purse name (play base steps))) }
{}

/// What these laws ask of bases and records holds in every run of a fresh drive: its base is one and keeps no object, the
/// records stand in the order of their moments, and none makes an object a second time (docs/MODEL.md, "The plain log").
pub fn runs_meet_what_laws_ask()
    ensures fresh { (window : ℕ) → IsBase (opened window) }
    ensures none_kept { (window : ℕ) (o : ObjectId) → IsDrawn (opened window) o }
    ensures order { (base : Base) (from : ℕ) (steps : List Step) → NeverDown from steps → InOrder from (play base steps) }
    ensures once { (base : Base) (o : ObjectId) (steps : List Step) → IsDrawn base o → made_count base o (play base steps) ≤ 1 }
{}

/// Whatever comes later, what is past on a track stays as it is, but that data and attributes are
/// erased just where a later flush covers them (docs/MODEL.md, "Flushes").
pub fn the_past_stays()
    ensures data_track { (base : Base) (o : ObjectId) (h later : List Record) (newest : Value (List ℕ)) (past : List (Value (List ℕ)))
        → versions base data_track o h ≡ newest ∷ past
        → versions base data_track o (h ++ later) ≡ newer_by data_track o later newest ++ map (left_by true o later) past }
    ensures attribute_track { (base : Base) (o : ObjectId) (h later : List Record) (newest : Value (List ℕ)) (past : List (Value (List ℕ)))
        → versions base attribute_track o h ≡ newest ∷ past
        → versions base attribute_track o (h ++ later) ≡ newer_by attribute_track o later newest ++ map (left_by true o later) past }
    ensures acl_track { (base : Base) (o : ObjectId) (h later : List Record)
        (newest : Value (List AclEntry)) (past : List (Value (List AclEntry))) → versions base acl_track o h ≡ newest ∷ past
        → versions base acl_track o (h ++ later) ≡ newer_by acl_track o later newest ++ map (left_by false o later) past }
{}

/// No value is erased that has no end yet, and no ACL is ever erased (docs/MODEL.md, "Flushes").
pub fn flushes_erase_the_past_alone()
    ensures data_track { (base : Base) (o : ObjectId) (h : List Record) → list_all is_past_or_whole (versions base data_track o h) ≡ true }
    ensures attribute_track { (base : Base) (o : ObjectId) (h : List Record)
        → list_all is_past_or_whole (versions base attribute_track o h) ≡ true }
    ensures acl_track { (base : Base) (o : ObjectId) (h : List Record) → list_all is_whole (versions base acl_track o h) ≡ true }
{}
