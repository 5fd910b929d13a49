//! The names that are bound, by their purses.

ghost use Rattle.std.specs.Prelude.{◌≡◌, ℕ, List, Some, None, IfOk, OnOk};
ghost use Rattle.s4_types.specs.declared.object.Purse.{Purse};
ghost use Rattle.s4_types.specs.Bindings.{with_name};
ghost use Rattle.s4_base.specs.Lists.{bounds_among, names_among, binding_among};
ghost use Rattle.s4_base.specs.Changes.{purse_changed, name_put, without_name};

use crate::bounds::Bounds;
use crate::kept::Bound;
use crate::table::Table;
use s4_types::{Name, NoMemory, Purse};
use std::alloc::Global;

/// What a name in the purse is bound to, if it is bound.
pub(crate) fn bound(names: &Table<Purse, Bounds>, purse: &Purse, name: &Name) -> Option<Bound>
    ensures { result ≡ binding_among names.now purse.now name.now }
{
    names.get(purse)?.get(name)
}

/// Binds a name in the purse, in the place of what it was bound to.
pub(crate) fn bind(
    alloc: Global,
    names: &mut Table<Purse, Bounds>,
    purse: &Purse,
    name: &Name,
    bound: Bound,
) -> Result<(), NoMemory>
    ensures names { OnOk result ((p : Purse) → names_among names.new p
        ≡ purse_changed purse.now (with_name name.now) (names_among names.old) p) }
    ensures bindings { OnOk result ((p : Purse) (n : List ℕ) → binding_among names.new p n
        ≡ name_put purse.now name.now (Some bound) (binding_among names.old) p n) }
{
    let mut bounds = bounds_of(alloc, names, purse)?;
    bounds.bind(name, bound)?;
    names.put(*purse, bounds)
}

/// Binds a name in the purse no longer.
pub(crate) fn unbind(
    alloc: Global,
    names: &mut Table<Purse, Bounds>,
    purse: &Purse,
    name: &Name,
) -> Result<(), NoMemory>
    ensures names { OnOk result ((p : Purse) → names_among names.new p
        ≡ purse_changed purse.now (without_name name.now) (names_among names.old) p) }
    ensures bindings { OnOk result ((p : Purse) (n : List ℕ) → binding_among names.new p n
        ≡ name_put purse.now name.now None (binding_among names.old) p n) }
{
    let mut bounds = bounds_of(alloc, names, purse)?;
    bounds.unbind(name);
    names.put(*purse, bounds)
}

// A copy of the purse's names.
fn bounds_of(alloc: Global, names: &Table<Purse, Bounds>, purse: &Purse) -> Result<Bounds, NoMemory>
    ensures { IfOk result (λ bounds. bounds ≡ bounds_among names.now purse.now) }
{
    match names.get(purse) {
        Some(bounds) => bounds.clone(),
        None => Ok(Bounds::new(alloc)),
    }
}
