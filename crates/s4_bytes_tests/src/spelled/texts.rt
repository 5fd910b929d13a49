//! The texts of counts, of what was sent, and of errors.

use s4_codec::{ReadError, WriteError};
use s4_script::{CutText, ParseError, SentText, UsedText};
use std::test::Fail;

const COUNTS: &str = "\
used 18446744073709551615
cut 18446744073709551615
0 empty
4294967295 0010ab
";

const ERRORS: &str = "\
malformed
no memory
too big
no memory
bad line
no memory
";

#[test]
fn texts_of_counts_and_errors(rt: HostRuntime) -> Result<(), Fail> {
    let (most, used) = (CutText(u64::MAX), UsedText(u64::MAX));
    let (none, some) = (SentText(0, &[]), SentText(4294967295, &[0, 16, 171]));
    let counts = format!(in rt.alloc(); "{used}\n{most}\n{none}\n{some}\n")?;
    assert!(rt; counts.as_str() == COUNTS, "{counts}");
    let errors = format!(in rt.alloc();
        "{}\n{}\n{}\n{}\n{}\n{}\n",
        ReadError::Malformed,
        ReadError::NoMemory,
        WriteError::TooBig,
        WriteError::NoMemory,
        ParseError::Bad,
        ParseError::NoMemory
    )?;
    assert!(rt; errors.as_str() == ERRORS, "{errors}");
    Ok(())
}
