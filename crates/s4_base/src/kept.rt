//! What is kept of an object that lives, and of a name that is bound.

ghost use Rattle.std.specs.Prelude.{◌≡◌};

use crate::table::Exact;
use s4_types::{Acl, Bytes, Moment, NoMemory, Serial};
use std::marker::Model;

/// An object's three current values, and the moments at which they began.
#[derive(Drop)]
pub struct Kept {
    pub bytes: Bytes,
    pub bytes_begin: Moment,
    pub attributes: Bytes,
    pub attributes_begin: Moment,
    pub acl: Acl,
    pub acl_begin: Moment,
}

impl Model for Kept {
    ghost use Rattle.s4_types.specs.Base.{KeptObject};

    ghost Value = { KeptObject };

    ghost view = { λ k. record {
      bytes = record { begin = k.bytes_begin; value = k.bytes };
      attributes = record { begin = k.attributes_begin; value = k.attributes };
      acl = record { begin = k.acl_begin; value = k.acl };
    } };
}

impl Clone for Kept {
    ghost is_clone = { λ kept copy. copy ≡ kept };

    fn clone(&self) -> Result<Kept, NoMemory> {
        Ok(Kept {
            bytes: self.bytes.clone()?,
            bytes_begin: self.bytes_begin,
            attributes: self.attributes.clone()?,
            attributes_begin: self.attributes_begin,
            acl: self.acl.copy()?,
            acl_begin: self.acl_begin,
        })
    }
}

impl Exact for Kept {
    ghost exact = { λ kept copy same. same };
}

/// The serial of the object that a name is bound to, and the moment at which that began.
#[derive(Clone, Copy)]
pub struct Bound {
    pub serial: Serial,
    pub begin: Moment,
}

impl Model for Bound {
    ghost use Rattle.std.specs.Prelude.{ℕ};
    ghost use Rattle.s4_types.specs.Base.{Standing};

    ghost Value = { Standing ℕ };

    ghost view = { λ b. record { begin = b.begin; value = b.serial } };

    ghost inverse = { λ s. record { serial = s.value; begin = s.begin } };
}
