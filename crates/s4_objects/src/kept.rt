//! What is kept of an object.

ghost use Rattle.std.specs.Prelude.{◌≡◌};

use s4_tracks::Track;

/// An object has a track for its data, one for its attributes and one for its ACL.
#[derive(Clone, Copy)]
pub enum Which {
    Data,
    Attributes,
    Acl,
}

/// The tracks of an object that is kept, each on a chain of its own.
#[derive(Clone, Copy)]
pub struct Kept {
    pub data: Track,
    pub attributes: Track,
    pub acl: Track,
}

impl Kept {
    ghost use Rattle.s4_objects.specs.Chains.{chain_of};

    /// One of the object's tracks.
    pub fn track(&self, which: Which) -> Track
        ensures { result.chain ≡ chain_of which self.now }
    {
        match which {
            Which::Data => self.data,
            Which::Attributes => self.attributes,
            Which::Acl => self.acl,
        }
    }
}
