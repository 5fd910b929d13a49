//! What was found, and what was wanted.

use std::fmt::Debug;
use std::test::Fail;

/// That both are the same. Else it is told of what, and both are shown.
pub fn same<T: Debug + PartialEq>(what: &str, found: &T, wanted: &T) -> Result<(), Fail> {
    if found == wanted {
        return Ok(());
    }
    Err(Fail::new(format_args!("{what}: {found:?}, and not {wanted:?}")))
}
