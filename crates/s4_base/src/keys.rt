//! What keys and numbers of the tables are.

use crate::table::Exact;
use s4_types::{ObjectId, Purse};

impl Exact for ObjectId {
    ghost exact = { λ object copy same. same };
}

impl Exact for Purse {
    ghost exact = { λ purse copy same. same };
}

impl Exact for u16 {
    ghost exact = { λ number copy same. same };
}

impl Exact for u32 {
    ghost exact = { λ number copy same. same };
}
