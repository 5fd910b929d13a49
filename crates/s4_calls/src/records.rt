//! Records of the drive, as items.

use crate::hand::Item;
use s4_types::Record;

impl Item for Record {
    ghost use Rattle.s4_types.specs.Audit.{is_wide_record};
    ghost use Rattle.s4_types.specs.Kinds.{range_of};

    ghost is_wide = { is_wide_record };

    ghost range = { λ r. range_of r.caller r.request };
}
