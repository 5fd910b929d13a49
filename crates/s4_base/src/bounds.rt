//! The names that are bound in one purse.

ghost use Rattle.std.specs.Prelude.{◌≡◌, ℕ, List, [], Some, None, OnOk, if◌then◌else◌};
ghost use Rattle.std.specs.Map.{keys_of};
ghost use Rattle.s4_types.specs.Bindings.{with_name};
ghost use Rattle.s4_types.specs.Name.{same_name};
ghost use Rattle.s4_base.specs.Changes.{without_name};
ghost use Rattle.s4_base.specs.Tables.{bound_among};

use crate::kept::Bound;
use crate::table::Exact;
use s4_types::{Name, NoMemory};
use std::alloc::Global;
use std::collections::BTreeMap;
use std::marker::Model;

/// The names that are bound in a purse, in their order: at most 64.
#[derive(Drop)]
pub(crate) struct Bounds {
    names: BTreeMap<Name, Bound>,
}

impl Model for Bounds {
    ghost use Rattle.std.specs.Prelude.{ℕ, List};
    ghost use Rattle.s4_types.specs.Base.{Standing};

    ghost Value = { List (List ℕ × Standing ℕ) };

    ghost view = { λ b. b.names.entries };
}

impl Clone for Bounds {
    ghost is_clone = { λ bounds copy. copy ≡ bounds };

    fn clone(&self) -> Result<Bounds, NoMemory> {
        Ok(Bounds {
            names: self.names.clone()?,
        })
    }
}

impl Exact for Bounds {
    ghost exact = { λ bounds copy same. same };
}

impl Bounds {
    /// No names. Takes no memory.
    pub fn new(alloc: Global) -> Bounds
        ensures { result ≡ [] }
    {
        Bounds {
            names: BTreeMap::new(alloc),
        }
    }

    /// What the name is bound to, if it is bound.
    pub fn get(&self, name: &Name) -> Option<Bound>
        ensures { result ≡ bound_among self.now name.now }
    {
        self.names.get(name).copied()
    }

    /// Binds a name, in the place of what it was bound to.
    pub fn bind(&mut self, name: &Name, bound: Bound) -> Result<(), NoMemory>
        ensures names { OnOk result (keys_of self.new ≡ with_name name.now (keys_of self.old)) }
        ensures bindings { OnOk result ((n : List ℕ) → bound_among self.new n
            ≡ (if same_name name.now n then Some bound else bound_among self.old n)) }
    {
        self.names.insert(name.clone()?, bound)?;
        Ok(())
    }

    /// Binds a name no longer. Takes no memory.
    pub fn unbind(&mut self, name: &Name)
        ensures names { keys_of self.new ≡ without_name name.now (keys_of self.old) }
        ensures bindings { (n : List ℕ) → bound_among self.new n
            ≡ (if same_name name.now n then None else bound_among self.old n) }
    {
        self.names.remove(name);
    }
}
