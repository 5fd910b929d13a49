//! How many serials each purse has drawn.

ghost use Rattle.std.specs.Prelude.{◌≡◌, ◌≢◌, ◌+◌, ◌<◌, ◌↔◌, OnOk, OnErr, IsOk, IfOk, IfSome, IsNone, IsErrOf, if◌then◌else◌};
ghost use Rattle.s4_types.specs.declared.object.Purse.{Purse};
ghost use Rattle.s4_types.specs.Names.{same_purse, object_in};
ghost use Rattle.s4_names.specs.declared.names.DrawError.TheVariants as draw_error;

use s4_types::{NoMemory, ObjectId, Purse, Serial};
use std::alloc::{AllocError, AllocFailed, Global};
use std::collections::BTreeMap;

/// Why no serial was drawn.
#[derive(Clone, Copy, PartialEq, Eq)]
pub enum DrawError {
    /// All 65535 serials of the purse are drawn.
    NamesSpent,
    /// A growth was refused.
    NoMemory,
}

impl From<AllocError> for DrawError {
    ghost from_gives = { λ _ e. e ≡ draw_error.NoMemory };

    fn from(_refused: AllocError) -> DrawError {
        DrawError::NoMemory
    }
}

impl<T: Drop> From<AllocFailed<T>> for DrawError {
    ghost from_gives = { λ _ e. e ≡ draw_error.NoMemory };

    fn from(_refused: AllocFailed<T>) -> DrawError {
        DrawError::NoMemory
    }
}

/// How many serials each purse has drawn. They are drawn in order from 1 to 65535, and none twice
/// (docs/MODEL.md, "Serials").
#[derive(Drop)]
pub struct Names {
    drawn: BTreeMap<Purse, u16>,
}

impl Names {
    ghost use Rattle.s4_names.specs.Drawn.{drawn_in, HasRoom};

    /// No serial is drawn. Takes no memory.
    pub fn new(alloc: Global) -> Names
        ensures { (p : Purse) → drawn_in result p ≡ 0 }
    {
        Names {
            drawn: BTreeMap::new(alloc),
        }
    }

    /// How many serials the purse has drawn, 0 to 65535.
    pub fn drawn(&self, purse: &Purse) -> u16
        ensures { result ≡ drawn_in self.now purse.now }
    {
        self.drawn.get(purse).copied().unwrap_or(0)
    }

    /// The object that the purse's next serial names, where one is left to draw.
    pub fn next_object(&self, purse: &Purse) -> Option<ObjectId>
        ensures some { IfSome result (λ o. o ≡ object_in purse.now (drawn_in self.now purse.now + 1)) }
        ensures none { IsNone result ↔ (drawn_in self.now purse.now ≡ 65535) }
    {
        let serial = self.drawn(purse).checked_add(1).and_then(Serial::new)?;
        Some(ObjectId {
            purse: *purse,
            serial,
        })
    }

    /// Makes room for the purse's next serial. Where there is room already it takes no memory.
    pub fn reserve(&mut self, purse: &Purse) -> Result<(), NoMemory>
        ensures drawn { (p : Purse) → drawn_in self.new p ≡ drawn_in self.old p }
        ensures room { OnOk result (HasRoom self.new purse.now) }
        ensures there { HasRoom self.old purse.now → IsOk result }
        ensures still { (p : Purse) → HasRoom self.old p → HasRoom self.new p }
    {
        if self.drawn.contains_key(purse) {
            return Ok(());
        }
        self.drawn.insert(*purse, 0)?;
        Ok(())
    }

    /// Draws the purse's next serial, and gives the object that it names. Where room was reserved
    /// it takes no memory.
    pub fn draw(&mut self, purse: &Purse) -> Result<ObjectId, DrawError>
        ensures object { IfOk result (λ o. o ≡ object_in purse.now (drawn_in self.old purse.now + 1)) }
        ensures drawn { OnOk result ((p : Purse) → drawn_in self.new p
            ≡ (if same_purse purse.now p then drawn_in self.old purse.now + 1 else drawn_in self.old p)) }
        ensures err { OnErr result ((p : Purse) → drawn_in self.new p ≡ drawn_in self.old p) }
        ensures spent { IsErrOf result DrawError.NamesSpent ↔ (drawn_in self.old purse.now ≡ 65535) }
        ensures room { HasRoom self.old purse.now → result ≢ Err DrawError.NoMemory }
        ensures still { (p : Purse) → HasRoom self.old p → HasRoom self.new p }
    {
        let object = self.next_object(purse).ok_or(DrawError::NamesSpent)?;
        self.drawn.insert(*purse, object.serial.number())?;
        Ok(object)
    }
}
