//! Maps whose copies are equal to them.

ghost use Rattle.std.specs.Prelude.{◌≡◌, [], IfOk, OnOk, OnErr, cond, Some, None};
ghost use Rattle.std.specs.Option.{option_copied};
ghost use Rattle.std.specs.Map.{lookup};
ghost use Rattle.std.specs.BTreeMap.{is_at};

use s4_types::NoMemory;
use std::alloc::Global;
use std::collections::BTreeMap;
use std::marker::Model;

/// A value that is equal to its clones.
pub(crate) trait Exact: Clone + Drop {
    ghost exact: { (x y : Self) → Self.is_clone x y → y ≡ x };
}

/// A map from keys to values, in the order of the keys.
pub(crate) struct Table<K: Ord + Copy + Exact, V: Exact> {
    values: BTreeMap<K, V>,
}

impl<K: Ord + Copy + Exact, V: Exact> Model for Table<K, V> {
    ghost use Rattle.std.specs.Prelude.{List};
    ghost use Rattle.std.specs.Coded.{coded_list, coded×};

    ghost Value = { List (K × V) };

    ghost coded = { coded_list (coded× K.code V.code) };

    ghost view = { λ t. t.values.entries };
}

// Written out: so whoever drops a table proves nothing of what it holds.
impl<K: Ord + Copy + Exact, V: Exact> Drop for Table<K, V> {
    fn drop(self) {
        let Table { values } = self;
        drop(values);
    }
}

impl<K: Ord + Copy + Exact, V: Exact> Table<K, V> {
    /// One without keys. Takes no memory.
    pub fn new(alloc: Global) -> Table<K, V>
        ensures { result ≡ [] }
    {
        Table {
            values: BTreeMap::new(alloc),
        }
    }

    /// The value at the key.
    pub fn get(&self, key: &K) -> Option<&V>
        ensures { option_copied result ≡ lookup (is_at (K.cmp key.now)) self.now }
    {
        self.values.get(key)
    }

    /// Puts a value at the key, in the place of the one before.
    pub fn put(&mut self, key: K, value: V) -> Result<(), NoMemory>
        ensures ok { OnOk result ((q : K) → lookup (is_at (K.cmp q)) self.new
            ≡ cond (is_at (K.cmp key) q) (Some value) (lookup (is_at (K.cmp q)) self.old)) }
        ensures err { OnErr result (self.new ≡ self.old) }
    {
        self.values.insert(key, value)?;
        Ok(())
    }

    /// Takes the key out. Takes no memory.
    pub fn take_out(&mut self, key: &K)
        ensures { (q : K) → lookup (is_at (K.cmp q)) self.new
            ≡ cond (is_at (K.cmp key.now) q) None (lookup (is_at (K.cmp q)) self.old) }
    {
        self.values.remove(key);
    }

    /// An equal table.
    pub fn copy(&self) -> Result<Table<K, V>, NoMemory>
        ensures { IfOk result (λ copy. copy ≡ self.now) }
    {
        Ok(Table {
            values: self.values.clone()?,
        })
    }
}
